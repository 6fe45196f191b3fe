//! Rows of the definitions. The functions are empty: their contracts state rows, and the check computes them.
ghost use Rattle.std.specs.Prelude.{◌≡◌, codes, true, false, None, Some};
ghost use Rattle.ref_command_line.specs.declared.progress.Progress.TheVariants.{Reading, Judging};
ghost use Rattle.ref_command_line.specs.Progress.{is_due, progress_text};

/// What is said of how far a command is.
pub fn lines()
    ensures reading { progress_text (Reading 1200 4100)
        ≡ codes "1200 of 4100 files read" }
    ensures one_file { progress_text (Reading 0 1)
        ≡ codes "0 of 1 file read" }
    ensures judging { progress_text (Judging 4100 4102)
        ≡ codes "4100 files read, judging 4102 documents" }
    ensures one_document { progress_text (Judging 1 1)
        ≡ codes "1 file read, judging 1 document" }
{}

/// When it is said.
pub fn times()
    ensures not_yet { is_due (Reading 4 9) 999 None ≡ false }
    ensures after_a_second { is_due (Reading 4 9) 1000 None ≡ true }
    ensures before_judging { is_due (Judging 9 9) 500 None ≡ true }
    ensures too_soon { is_due (Reading 5 9) 1099 (Some 1000) ≡ false }
    ensures anew { is_due (Reading 5 9) 1100 (Some 1000) ≡ true }
{}
