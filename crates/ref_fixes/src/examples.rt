//! Rows of the definitions. Each function is empty: its contract states rows, and the check computes them.
#![tactic(auto)]

ghost use Rattle.std.specs.Prelude.{◌≡◌, [], ◌∷◌, codes};
ghost use Rattle.ref_fixes.specs.Replace.{replaced};

/// What a text is with parts replaced.
pub fn replacements()
    ensures none { replaced 0 [] (codes "abc") ≡ codes "abc" }
    ensures one { replaced 0 ((1, 2, codes "xyz") ∷ []) (codes "abc") ≡ codes "axyzc" }
    ensures two_that_touch { replaced 0 ((0, 1, codes "x") ∷ (1, 2, codes "y") ∷ []) (codes "abc")
        ≡ codes "xyc" }
    ensures nothing_in_place { replaced 0 ((0, 2, codes "") ∷ []) (codes "abc") ≡ codes "c" }
    ensures between { replaced 0 ((1, 1, codes "x") ∷ (3, 3, codes "y") ∷ []) (codes "abc")
        ≡ codes "axbcy" }
{}
