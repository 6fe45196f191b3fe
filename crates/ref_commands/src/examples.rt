//! Rows of the definitions. The function is empty: its contract states rows, and the check computes them.
ghost use Rattle.std.specs.Prelude.{◌≡◌, true, false, None, Some};
ghost use Rattle.ref_commands.specs.Outcome.{is_colored, nothing_of, status};
ghost use Rattle.ref_commands.specs.declared.outcome.Nothing.TheVariants.{PassedOver, Ignored, NoFile, Within};

/// Exit statuses, why nothing was looked at, and colours.
pub fn outcomes()
    ensures failed { status true true ≡ 2 }
    ensures fine { status true false ≡ 0 }
    ensures not_fine { status false false ≡ 1 }
    ensures within { nothing_of 3 1 1 ≡ Within }
    ensures passed_over { nothing_of 0 2 1 ≡ PassedOver }
    ensures ignored { nothing_of 0 0 1 ≡ Ignored }
    ensures no_file { nothing_of 0 0 0 ≡ NoFile }
    ensures asked_for { is_colored (Some true) false true true ≡ true }
    ensures on_a_terminal { is_colored None true false false ≡ true }
    ensures none_wanted { is_colored None true true false ≡ false }
{}
