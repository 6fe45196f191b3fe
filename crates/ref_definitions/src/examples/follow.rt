//! Following steps.
#![tactic(auto, unfolding(crate::proofs::OnLiterals::world_on_literals))]

ghost use Rattle.std.specs.Prelude.{◌≡◌, [], ◌∷◌, codes, Some, None, Ok, Err};
ghost use Rattle.ref_draft.specs.declared.draft.Draft.TheVariants.{Draft7, Draft201909, Draft202012, Unknown};
ghost use Rattle.ref_uri.specs.Targets.{parse_refusal};
ghost use Rattle.ref_definitions.specs.Fault.{InvalidUri, PointerToNowhere, not_retrieved};
ghost use Rattle.ref_definitions.specs.Follow.{Recursive, Enter, after_lookup, after_step, numbered_fault, followed_from, followed_steps};
ghost use Rattle.ref_definitions.specs.Rows.{at, world, yes, empty, text, one, resolver, found_value, followed_to, steps, look, refusal, alone, look_in, found_at, typed_property};

/// One step.
pub fn single_steps()
    ensures lookup { after_step (alone Draft7 "http://a/r" yes)
        (followed_to None (resolver "http://a/r" [])) (look "")
        ≡ Ok (followed_to (Some (yes, Draft7)) (resolver "http://a/r" (codes "http://a/r" ∷ []))) }
    ensures faulty_lookup { after_step [] (followed_to None (resolver "http://a/r" [])) (look "")
        ≡ Err (not_retrieved (codes "http://a/r")) }
    ensures recursive { after_step (alone Draft201909 "http://a/r" yes)
        (followed_to None (resolver "http://a/r" [])) Recursive
        ≡ Ok
        (followed_to (Some (yes, Draft201909)) (resolver "http://a/r" (codes "http://a/r" ∷ []))) }
    ensures entered { after_step []
        (followed_to (Some (yes, Draft7)) (resolver "http://a/r" (codes "http://a/q" ∷ [])))
        (Enter Draft202012 (one "$id" (text "k/")))
        ≡ Ok (followed_to (Some (yes, Draft7)) (resolver "http://a/k/" (codes "http://a/q" ∷ []))) }
    ensures entered_without_identifier { after_step [] (followed_to None (resolver "http://a/r" []))
        (Enter Draft202012 empty)
        ≡ Ok (followed_to None (resolver "http://a/r" [])) }
    ensures refused_identifier { after_step [] (followed_to None (resolver "http://a/r" []))
        (Enter Draft202012 (one "$id" (text "a b")))
        ≡ Err (InvalidUri (parse_refusal (codes "a b"))) }
    ensures after_a_lookup { after_lookup (found_value yes Draft7 (resolver "a:b" []))
        ≡ followed_to (Some (yes, Draft7)) (resolver "a:b" []) }
    ensures after_another_lookup { after_lookup
        (found_value empty Draft202012 (resolver "a:b" (codes "a:c" ∷ [])))
        ≡ followed_to (Some (empty, Draft202012)) (resolver "a:b" (codes "a:c" ∷ [])) }
{}

/// One step after another.
pub fn steps_in_turn()
    ensures no_steps { followed_steps [] (codes "http://a/r") []
        ≡ Ok (followed_to None (resolver "http://a/r" [])) }
    ensures member { look_in Draft202012 "http://a/r" typed_property "#/properties/n"
        ≡ found_at (one "type" (text "string")) "http://a/r" "http://a/r" }
    ensures another_document { steps (world (at Draft202012 "http://a/p/r" empty ∷ at Draft202012
        "http://a/s" (one "k" (one "l" yes)) ∷ [])) "http://a/p/r"
        (look "../s#/k" ∷ look "#/k/l" ∷ [])
        ≡ found_at yes "http://a/s" "http://a/p/r" }
    ensures first_fault { steps (alone Draft202012 "http://a/r" empty) "http://a/r"
        (look "" ∷ look "#/q" ∷ look "#/p" ∷ [])
        ≡ refusal 1 (PointerToNowhere (codes "/q")) }
    ensures entered_last { steps (alone Draft202012 "http://a/r" yes) "http://a/r"
        (look "" ∷ Enter Draft202012 (one "$id" (text "k/")) ∷ [])
        ≡ found_at yes "http://a/k/" "http://a/r" }
    ensures counted_on { followed_from [] 7 (followed_to None (resolver "http://a/r" []))
        (look "" ∷ [])
        ≡ Err (7, not_retrieved (codes "http://a/r")) }
    ensures after_no_more_steps { followed_from [] 7
        (followed_to (Some (yes, Draft7)) (resolver "a:b" [])) []
        ≡ Ok (followed_to (Some (yes, Draft7)) (resolver "a:b" [])) }
    ensures from_a_base { followed_steps (alone Draft7 "http://a/r" yes) (codes "http://a/r")
        (look "" ∷ [])
        ≡ Ok (followed_to (Some (yes, Draft7)) (resolver "http://a/r" (codes "http://a/r" ∷ []))) }
    ensures with_its_draft { followed_steps
        (world
        (at Draft202012 "http://a/r" (one "$schema" (text "http://a/meta#"))
        ∷ at Draft202012 "http://a/meta" (one "title" (text "m")) ∷ []))
        (codes "http://a/r") (look "" ∷ [])
        ≡ Ok (followed_to (Some (one "$schema" (text "http://a/meta#"), Unknown))
        (resolver "http://a/r" (codes "http://a/r" ∷ []))) }
    ensures numbered_fault { numbered_fault 3 (Err (PointerToNowhere (codes "/q")))
        ≡ Err (3, PointerToNowhere (codes "/q")) }
    ensures numbered_answer { numbered_fault 3 (Ok (followed_to None (resolver "a:b" [])))
        ≡ Ok (followed_to None (resolver "a:b" [])) }
{}
