//! Recursive references (2019-09 Core, 8.2.4.2).
#![tactic(auto, unfolding(crate::proofs::OnLiterals::world_on_literals))]

ghost use Rattle.std.specs.Prelude.{◌≡◌, true, false, [], ◌∷◌, codes, Some, Ok, Err};
ghost use Rattle.serde_json.specs.Data.{boolean};
ghost use Rattle.ref_draft.specs.declared.draft.Draft.TheVariants.{Draft201909};
ghost use Rattle.ref_definitions.specs.Fault.{NoSuchAnchor, not_retrieved};
ghost use Rattle.ref_definitions.specs.Recursive.{is_marked, answers_marked, looked_up, marked_beginning, after_beginning, unless_fault_after, outermost_marked, lookup_recursive};
ghost use Rattle.ref_definitions.specs.Follow.{Recursive};
ghost use Rattle.ref_definitions.specs.Rows.{at, world, yes, text, empty, one, two, resolver, found_value, steps, look, answer, refusal, value_of_answer, alone, found_at, value_at, recursive_definitions, through_foo_and_bar};

/// Which values are marked.
pub fn marks()
    ensures marked { is_marked (one "$recursiveAnchor" yes) ≡ true }
    ensures marked_false { is_marked (one "$recursiveAnchor" (boolean false)) ≡ false }
    ensures no_boolean { is_marked (one "$recursiveAnchor" (text "true")) ≡ false }
    ensures no_object { is_marked yes ≡ false }
    ensures marked_answer { answers_marked
        (Ok (found_value (one "$recursiveAnchor" yes) Draft201909 (resolver "a:1" [])))
        ≡ true }
    ensures unmarked_answer { answers_marked (Ok (found_value yes Draft201909 (resolver "a:1" [])))
        ≡ false }
    ensures faulty_answer { answers_marked (Err (NoSuchAnchor (codes "n"))) ≡ false }
{}

/// The last of the longest beginning of marked values.
pub fn beginnings_of_marked_values()
    ensures none { outermost_marked (Ok (found_value yes Draft201909 (resolver "a:0" []))) []
        ≡ Ok (found_value yes Draft201909 (resolver "a:0" [])) }
    ensures last_marked { outermost_marked (Ok (found_value yes Draft201909 (resolver "a:0" [])))
        (Ok (found_value (one "$recursiveAnchor" yes) Draft201909 (resolver "a:1" []))
        ∷ Ok (found_value yes Draft201909 (resolver "a:2" []))
        ∷ Ok (found_value (one "$recursiveAnchor" yes) Draft201909 (resolver "a:3" []))
        ∷ [])
        ≡ Ok (found_value (one "$recursiveAnchor" yes) Draft201909 (resolver "a:1" [])) }
    ensures fault_after { outermost_marked (Ok (found_value yes Draft201909 (resolver "a:0" [])))
        (Ok (found_value (one "$recursiveAnchor" yes) Draft201909 (resolver "a:1" []))
        ∷ Err (NoSuchAnchor (codes "n")) ∷ [])
        ≡ Err (NoSuchAnchor (codes "n")) }
    ensures fault_past_the_end { outermost_marked
        (Ok (found_value yes Draft201909 (resolver "a:0" [])))
        (Ok (found_value yes Draft201909 (resolver "a:1" [])) ∷ Err (NoSuchAnchor (codes "n"))
        ∷ [])
        ≡ Ok (found_value yes Draft201909 (resolver "a:0" [])) }
    ensures beginning { marked_beginning
        (Ok (found_value (one "$recursiveAnchor" yes) Draft201909 (resolver "a:1" []))
        ∷ Err (NoSuchAnchor (codes "n"))
        ∷ Ok (found_value (one "$recursiveAnchor" yes) Draft201909 (resolver "a:3" []))
        ∷ [])
        ≡ Ok (found_value (one "$recursiveAnchor" yes) Draft201909 (resolver "a:1" [])) ∷ [] }
    ensures no_beginning { marked_beginning
        (Ok (found_value yes Draft201909 (resolver "a:1" [])) ∷ [])
        ≡ [] }
    ensures after { after_beginning
        (Ok (found_value (one "$recursiveAnchor" yes) Draft201909 (resolver "a:1" []))
        ∷ Err (NoSuchAnchor (codes "n")) ∷ [])
        ≡ Err (NoSuchAnchor (codes "n")) ∷ [] }
    ensures nothing_after { after_beginning
        (Ok (found_value (one "$recursiveAnchor" yes) Draft201909 (resolver "a:1" [])) ∷ [])
        ≡ [] }
    ensures unless_a_fault { unless_fault_after (Err (NoSuchAnchor (codes "n")) ∷ [])
        (Ok (found_value yes Draft201909 (resolver "a:0" [])))
        ≡ Err (NoSuchAnchor (codes "n")) }
    ensures unless_no_fault { unless_fault_after
        (Ok (found_value yes Draft201909 (resolver "a:1" [])) ∷ Err (NoSuchAnchor (codes "n"))
        ∷ [])
        (Ok (found_value empty Draft201909 (resolver "a:0" [])))
        ≡ Ok (found_value empty Draft201909 (resolver "a:0" [])) }
    ensures inner_to_outer { looked_up
        (world (at Draft201909 "http://a/x" yes ∷ at Draft201909 "http://a/y" empty ∷ []))
        (resolver "http://a/y" (codes "http://a/x" ∷ codes "http://a/z" ∷ []))
        ≡ Ok (found_value yes Draft201909
        (resolver "http://a/x"
        (codes "http://a/y" ∷ codes "http://a/x" ∷ codes "http://a/z" ∷ [])))
        ∷ Err (not_retrieved (codes "http://a/z")) ∷ [] }
    ensures no_scope { looked_up [] (resolver "http://a/y" []) ≡ [] }
{}

/// Where a recursive reference leads.
pub fn recursive_lookups()
    ensures unmarked { lookup_recursive (alone Draft201909 "http://a/r" yes)
        (resolver "http://a/r" [])
        ≡ value_at yes Draft201909 "http://a/r" "http://a/r" }
    ensures marked_alone { lookup_recursive
        (alone Draft201909 "http://a/r" (one "$recursiveAnchor" yes)) (resolver "http://a/r" [])
        ≡ value_at (one "$recursiveAnchor" yes) Draft201909 "http://a/r" "http://a/r" }
    ensures no_place { lookup_recursive [] (resolver "http://a/r" [])
        ≡ Err (not_retrieved (codes "http://a/r")) }
    ensures recursive { steps
        (world
        (at Draft201909 "http://a/x" (two "$recursiveAnchor" yes "title" (text "x"))
        ∷ at Draft201909 "http://a/y" (one "title" (text "y"))
        ∷ at Draft201909 "http://a/z" (two "$recursiveAnchor" yes "title" (text "z"))
        ∷ [])) "http://a/x"
        (look "" ∷ look "y" ∷ look "z" ∷ Recursive ∷ [])
        ≡ answer (Some (two "$recursiveAnchor" yes "title" (text "z"))) (codes "http://a/z")
        (codes "http://a/y" ∷ codes "http://a/x" ∷ codes "http://a/x" ∷ []) }
    ensures recursive_nested { value_of_answer (through_foo_and_bar Draft201909
        (one "$recursiveAnchor" (boolean false)) recursive_definitions (one "$recursiveAnchor" yes)
        Recursive)
        ≡ Some recursive_definitions }
    ensures recursive_past_no_object { value_of_answer
        (through_foo_and_bar Draft201909 recursive_definitions yes recursive_definitions Recursive)
        ≡ Some recursive_definitions }
    ensures recursive_alone { steps (alone Draft201909 "http://example.com" yes)
        "http://example.com" (Recursive ∷ [])
        ≡ found_at yes "http://example.com" "http://example.com" }
    ensures marked_document { steps
        (alone Draft201909 "http://example.com" (one "$recursiveAnchor" yes)) "http://example.com"
        (look "" ∷ Recursive ∷ [])
        ≡ found_at (one "$recursiveAnchor" yes) "http://example.com" "http://example.com" }
    ensures fault { steps [] "http://a/r" (Recursive ∷ [])
        ≡ refusal 0 (not_retrieved (codes "http://a/r")) }
{}
