//! Rows of the definitions. Each function is empty: its contract states rows, and the check computes them.
#![tactic(auto)]

ghost use Rattle.std.specs.Prelude.{◌≡◌, [], ◌∷◌, true, false, codes, Some, None};
ghost use Rattle.ref_messages.specs.declared.message.Level.TheVariants.{Error, Warning, Note};
ghost use Rattle.ref_levels.specs.Listed.{is_listed, least_of};
ghost use Rattle.ref_levels.specs.Levels.{chosen, choice_of, is_rule, level_if, level_named, level_of, is_set, sets, set_without_overrides};

/// The level of a rule, by what it is set to.
pub fn levels()
    ensures own { level_of (set_without_overrides [] []) [] (codes "a") (Some Error) ≡ Some Error }
    ensures not_listed { level_of (set_without_overrides [] []) [] (codes "a") None ≡ None }
    ensures configured { level_of (set_without_overrides (choice_of (codes "a", codes "note") ∷ []) [])
        [] (codes "a") (Some Error) ≡ Some Note }
    ensures off { level_of (set_without_overrides (choice_of (codes "a", codes "off") ∷ []) [])
        [] (codes "a") (Some Error) ≡ None }
    ensures another { level_of (set_without_overrides (choice_of (codes "b", codes "off") ∷ []) [])
        [] (codes "a") (Some Error) ≡ Some Error }
    ensures given { level_of (set_without_overrides (choice_of (codes "a", codes "off") ∷ [])
        (chosen (codes "a") (Some Warning) ∷ [])) [] (codes "a") (Some Error) ≡ Some Warning }
    ensures last { level_if true (chosen (codes "a") None ∷ chosen (codes "a") (Some Note) ∷ [])
        (codes "a") (Some Error) ≡ Some Note }
    ensures elsewhere { level_if false (chosen (codes "a") None ∷ []) (codes "a") (Some Error)
        ≡ Some Error }
{}

/// Names of levels, and whether a rule is set.
pub fn names()
    ensures warning { level_named (codes "warning") ≡ Some Warning }
    ensures off { level_named (codes "off") ≡ None }
    ensures a_rule { is_rule (codes "a" ∷ codes "b" ∷ []) (codes "b") ≡ true }
    ensures no_rule { is_rule (codes "a" ∷ codes "b" ∷ []) (codes "c") ≡ false }
    ensures there { sets (chosen (codes "a") None ∷ []) (codes "a") ≡ true }
    ensures not_there { sets (chosen (codes "a") None ∷ []) (codes "b") ≡ false }
    ensures given { is_set (set_without_overrides [] (chosen (codes "a") None ∷ [])) (codes "a")
        ≡ true }
{}

/// Which findings are listed.
pub fn listed()
    ensures grave { is_listed Error Warning ≡ true }
    ensures same { is_listed Warning Warning ≡ true }
    ensures slight { is_listed Note Warning ≡ false }
    ensures given { least_of (Some (codes "error")) (Some (codes "note")) ≡ Error }
    ensures configured { least_of None (Some (codes "warning")) ≡ Warning }
    ensures neither { least_of None None ≡ Note }
{}
