//! Pointers in fragments, and the base along them.
#![tactic(auto, unfolding(crate::proofs::OnLiterals::world_on_literals))]

ghost use Rattle.std.specs.Prelude.{◌≡◌, ℕ, List, [], ◌∷◌, codes, Some, None, Ok, Err};
ghost use Rattle.std.specs.Option.{ok_or};
ghost use Rattle.serde_json.specs.Data.{Data, null, string};
ghost use Rattle.ref_paths.specs.Path.{Key, Index};
ghost use Rattle.ref_draft.specs.declared.draft.Draft.TheVariants.{Draft7, Draft202012};
ghost use Rattle.ref_uri.specs.Targets.{parse_refusal};
ghost use Rattle.ref_definitions.specs.Results.{◌>>=◌ as in_turn};
ghost use Rattle.ref_definitions.specs.Fault.{PointerToNowhere, InvalidArrayIndex, InvalidPercentEncoding, InvalidUri, as_invalid_uri};
ghost use Rattle.ref_definitions.specs.Bases.{changed_base, along_part};
ghost use Rattle.ref_definitions.specs.Changes.{IsChange, Stays, IsBaseAlong, LeadsAlong};
ghost use Rattle.ref_definitions.specs.Pointers.{index_of, step_into, walked_along, pointed_value};
ghost use Rattle.ref_definitions.specs.Reading.{IsReadAs, IsFaultAlong};
ghost use Rattle.ref_definitions.specs.Rows.{yes, empty, text, one, two, pair, along};

/// Indexes: a `+` and leading zeros are taken.
pub fn indexes()
    ensures zero { index_of (codes "0") ≡ Some 0 }
    ensures leading_zero { index_of (codes "01") ≡ Some 1 }
    ensures plus_sign { index_of (codes "+1") ≡ Some 1 }
    ensures greatest { index_of (codes "18446744073709551615") ≡ Some 18446744073709551615 }
    ensures past_the_greatest { index_of (codes "18446744073709551616") ≡ None }
    ensures plus_alone { index_of (codes "+") ≡ None }
    ensures plus_twice { index_of (codes "++1") ≡ None }
    ensures empty_text { index_of [] ≡ None }
    ensures minus_sign { index_of (codes "-1") ≡ None }
    ensures letters { index_of (codes "one") ≡ None }
{}

/// One step into a value (RFC 6901, section 4).
pub fn steps_into_values()
    ensures member { step_into (codes "/a") (two "a" yes "b" empty) (codes "b")
        ≡ Ok (Key (codes "b"), empty) }
    ensures escaped_key { step_into (codes "/~~1") (one "~/" yes) (codes "~~1")
        ≡ Ok (Key (codes "~/"), yes) }
    ensures no_member { step_into (codes "/nope") empty (codes "nope")
        ≡ Err (PointerToNowhere (codes "/nope")) }
    ensures element { step_into (codes "/01") (pair yes empty) (codes "01") ≡ Ok (Index 1, empty) }
    ensures past_the_end { step_into (codes "/2") (pair yes empty) (codes "2")
        ≡ Err (PointerToNowhere (codes "/2")) }
    ensures no_index { step_into (codes "/l/+") (pair yes empty) (codes "+")
        ≡ Err (InvalidArrayIndex (codes "/l/+") (codes "+")) }
    ensures no_index_escaped { step_into (codes "/~0") (pair yes empty) (codes "~0")
        ≡ Err (InvalidArrayIndex (codes "/~0") (codes "~0")) }
    ensures into_a_boolean { step_into (codes "/a") yes (codes "a")
        ≡ Err (PointerToNowhere (codes "/a")) }
    ensures into_a_text { step_into (codes "/0") (text "a") (codes "0")
        ≡ Err (PointerToNowhere (codes "/0")) }
    ensures into_null { step_into (codes "/a") null (codes "a")
        ≡ Err (PointerToNowhere (codes "/a")) }
{}

/// Where a pointer leads, and the base there.
pub fn walks_along_pointers()
    ensures no_tokens { walked_along Draft202012 (codes "") (along "http://a/r" []) yes []
        ≡ Ok (yes, along "http://a/r" []) }
    ensures with_the_parts { walked_along Draft202012 (codes "/not") (along "http://a/r" [])
        (one "not" yes) (codes "not" ∷ [])
        ≡ Ok (yes, along "http://a/r" (Key (codes "not") ∷ [])) }
    ensures first_fault { walked_along Draft202012 (codes "/x/y") (along "http://a/r" []) empty
        (codes "x" ∷ codes "y" ∷ [])
        ≡ Err (PointerToNowhere (codes "/x/y")) }
    ensures decoded_before_the_split { pointed_value Draft202012 (codes "/a%2Fb")
        (codes "http://a/r") (one "a" (one "b" yes)) (codes "a%2Fb")
        ≡ Ok (yes, along "http://a/r" (Key (codes "a") ∷ Key (codes "b") ∷ [])) }
    ensures malformed_triple { pointed_value Draft202012 (codes "/a%zz") (codes "http://a/r")
        (one "a%zz" yes) (codes "a%zz")
        ≡ Ok (yes, along "http://a/r" (Key (codes "a%zz") ∷ [])) }
    ensures percent_alone { pointed_value Draft202012 (codes "/%") (codes "http://a/r") empty
        (codes "%")
        ≡ Err (PointerToNowhere (codes "/%")) }
    ensures no_text { pointed_value Draft202012 (codes "/%FF") (codes "http://a/r") empty
        (codes "%FF")
        ≡ Err (InvalidPercentEncoding (codes "/%FF")) }
    ensures undecoded_in_the_fault { pointed_value Draft202012 (codes "/%61")
        (codes "http://a/r") empty (codes "%61")
        ≡ Err (PointerToNowhere (codes "/%61")) }
    ensures empty_key { pointed_value Draft202012 (codes "/") (codes "http://a/r") (one "" yes) []
        ≡ Ok (yes, along "http://a/r" (Key [] ∷ [])) }
    ensures forgotten_parts { pointed_value Draft7 (codes "/items/const") (codes "http://a/r")
        (one "items" (two "$id" (text "z") "const" (one "$id" (text "w"))))
        (codes "items/const")
        ≡ Ok (one "$id" (text "w"), along "http://a/z" (Key (codes "const") ∷ [])) }
{}

/// The base after one more part.
pub fn bases_along_pointers()
    ensures changed_base { changed_base (along "http://a/r" (Key (codes "not") ∷ []))
        (codes "http://a/s")
        ≡ along "http://a/s" [] }
    ensures same_base { changed_base (along "http://a/r" (Key (codes "not") ∷ []))
        (codes "http://a/r")
        ≡ along "http://a/r" (Key (codes "not") ∷ []) }
    ensures no_identifier { along_part Draft202012 (along "http://a/r" []) (Key (codes "not")) empty
        ≡ Ok (along "http://a/r" (Key (codes "not") ∷ [])) }
    ensures identifier_of_the_base { along_part Draft202012 (along "http://a/r" [])
        (Key (codes "not")) (one "$id" (text "r"))
        ≡ Ok (along "http://a/r" (Key (codes "not") ∷ [])) }
    ensures accepted { along_part Draft202012 (along "http://a/r" (Key (codes "properties") ∷ []))
        (Key (codes "x")) (one "$id" (text "s/"))
        ≡ Ok (along "http://a/s/" []) }
    ensures not_accepted { along_part Draft202012 (along "http://a/r" []) (Key (codes "const"))
        (one "$id" (text "z"))
        ≡ Ok (along "http://a/r" (Key (codes "const") ∷ [])) }
    ensures below_items { along_part Draft7 (along "http://a/r" (Key (codes "items") ∷ []))
        (Key (codes "const")) (one "$id" (text "z"))
        ≡ Ok (along "http://a/z" []) }
    ensures refused_identifier { along_part Draft7 (along "http://a/r" (Key (codes "items") ∷ []))
        (Key (codes "const")) (one "$id" (text "a b"))
        ≡ Err (parse_refusal (codes "a b")) }
{}

/// Where identifiers change the base, and where they don't.
pub fn changes_of_the_base()
    ensures at_the_start { IsBaseAlong Draft202012 (codes "http://a/r") yes []
        (along "http://a/r" []) }
    ensures a_change { IsChange Draft202012 (codes "http://a/r") (Key (codes "not") ∷ [])
        (one "$id" (text "s/")) (codes "http://a/s/") }
    ensures no_change_of_the_base { ¬ (IsChange Draft202012 (codes "http://a/r")
        (Key (codes "not") ∷ []) (one "$id" (text "r")) (codes "http://a/r")) }
    ensures no_change_at_no_schema { ¬ (IsChange Draft202012 (codes "http://a/r")
        (Key (codes "const") ∷ []) (one "$id" (text "z")) (codes "http://a/z")) }
    ensures stays_at_no_schema { Stays Draft202012 (codes "http://a/r") (Key (codes "const") ∷ [])
        (one "$id" (text "z")) }
    ensures stays_without_identifier { Stays Draft7 (codes "http://a/r")
        (Key (codes "not") ∷ []) empty }
    ensures along_a_path { LeadsAlong Draft7 (codes "http://a/r")
        (one "items" (two "$id" (text "z") "const" (one "$id" (text "w")))) (one "$id" (text "w"))
        (along "http://a/z" (Key (codes "const") ∷ [])) }
    ensures along_no_path { ¬ (LeadsAlong Draft7 (codes "http://a/r") yes empty
        (along "http://a/r" [])) }
{}

/// Answers one after another.
pub fn answers_in_turn()
    ensures then { in_turn (Ok yes)
        (λ (value : Data). ok_or (Some value) (PointerToNowhere (codes "/a")))
        ≡ Ok yes }
    ensures fault_ends { in_turn (Err (PointerToNowhere (codes "/a")))
        (λ (value : Data). ok_or (Some value) (PointerToNowhere (codes "/b")))
        ≡ Err (PointerToNowhere (codes "/a")) }
    ensures nothing_there { in_turn (ok_or None (PointerToNowhere (codes "/a")))
        (λ (value : Data). Ok value)
        ≡ Err (PointerToNowhere (codes "/a")) }
    ensures refusal_as_fault { in_turn (as_invalid_uri (Err (parse_refusal (codes "a b"))))
        (λ (uri : List ℕ). Ok (string uri))
        ≡ Err (InvalidUri (parse_refusal (codes "a b"))) }
    ensures answer_kept { in_turn (as_invalid_uri (Ok (codes "a:b")))
        (λ (uri : List ℕ). Ok (string uri))
        ≡ Ok (string (codes "a:b")) }
{}

/// What tokens are read as from a value, and what they aren't.
pub fn paths_of_tokens()
    ensures no_tokens { IsReadAs yes [] [] }
    ensures escaped_key { IsReadAs (one "~/" yes) (codes "~0~1" ∷ []) (Key (codes "~/") ∷ []) }
    ensures element_of_a_member { IsReadAs (one "l" (pair yes empty)) (codes "l" ∷ codes "01" ∷ [])
        (Key (codes "l") ∷ Index 1 ∷ []) }
    ensures no_key_of_an_array { ¬ (IsReadAs (pair yes empty) (codes "1" ∷ [])
        (Key (codes "1") ∷ [])) }
    ensures no_index_of_an_object { ¬ (IsReadAs (one "1" yes) (codes "1" ∷ []) (Index 1 ∷ [])) }
    ensures nothing_there { ¬ (IsReadAs empty (codes "a" ∷ []) (Key (codes "a") ∷ [])) }
    ensures the_first_of_equal_identifiers { IsReadAs
        (one "$defs" (two "a" (one "$id" (text "k")) "b" (one "$id" (text "k"))))
        (codes "$defs" ∷ codes "a" ∷ []) (Key (codes "$defs") ∷ Key (codes "a") ∷ []) }
    ensures not_the_second { ¬ (IsReadAs
        (one "$defs" (two "a" (one "$id" (text "k")) "b" (one "$id" (text "k"))))
        (codes "$defs" ∷ codes "a" ∷ []) (Key (codes "$defs") ∷ Key (codes "b") ∷ [])) }
{}

/// The first fault along tokens, and what is none.
pub fn faults_along_tokens()
    ensures identifier { IsFaultAlong Draft202012 (codes "/not/x") (codes "http://a/r")
        (one "not" (one "$id" (text "a b"))) (codes "not" ∷ codes "x" ∷ [])
        (InvalidUri (parse_refusal (codes "a b"))) }
    ensures no_index { IsFaultAlong Draft202012 (codes "/l/+/x") (codes "http://a/r")
        (one "l" (pair yes empty)) (codes "l" ∷ codes "+" ∷ codes "x" ∷ [])
        (InvalidArrayIndex (codes "/l/+/x") (codes "+")) }
    ensures no_member { IsFaultAlong Draft202012 (codes "/x/y") (codes "http://a/r") empty
        (codes "x" ∷ codes "y" ∷ []) (PointerToNowhere (codes "/x/y")) }
    ensures into_a_boolean { IsFaultAlong Draft202012 (codes "/not/0") (codes "http://a/r")
        (one "not" yes) (codes "not" ∷ codes "0" ∷ []) (PointerToNowhere (codes "/not/0")) }
    ensures identifier_that_does_not_count { ¬ (IsFaultAlong Draft202012 (codes "/const")
        (codes "http://a/r") (one "const" (one "$id" (text "a b"))) (codes "const" ∷ [])
        (InvalidUri (parse_refusal (codes "a b")))) }
    ensures not_the_second { ¬ (IsFaultAlong Draft202012 (codes "/not/x") (codes "http://a/r")
        (one "not" (one "$id" (text "a b"))) (codes "not" ∷ codes "x" ∷ [])
        (PointerToNowhere (codes "/not/x"))) }
{}
