//! Which names stand for which places under a URI.
#![tactic(auto, unfolding(crate::proofs::OnLiterals::world_on_literals))]

ghost use Rattle.std.specs.Prelude.{◌≡◌, [], ◌∷◌, map, codes, Some, None, Ok, Err, option_map};
ghost use Rattle.std.specs.Result.{result_ok};
ghost use Rattle.ref_paths.specs.Path.{Key};
ghost use Rattle.ref_draft.specs.declared.draft.Draft.TheVariants.{Draft7, Draft201909, Draft202012};
ghost use Rattle.ref_draft.specs.Anchors.{Plain, Dynamic};
ghost use Rattle.ref_definitions.specs.Fault.{InvalidAnchor, NoSuchAnchor};
ghost use Rattle.ref_definitions.specs.Places.{root};
ghost use Rattle.ref_definitions.specs.Anchors.{named_under, named_at, names_in, names, last_named, named_entry, named_by_identifier, not_named, anchor};
ghost use Rattle.ref_definitions.specs.Rows.{at, yes, empty, text, one, two, shown_name, alone, name_at};

/// The names of documents (2020-12 Core, 8.2.2).
pub fn names_of_documents()
    ensures under_both_uris { map shown_name
        (names_in (at Draft202012 "http://a/x" (two "$anchor" (text "n") "$id" (text "y"))))
        ≡ (codes "http://a/x", codes "n", Plain, []) ∷ (codes "http://a/y", codes "n", Plain, [])
        ∷ [] }
    ensures under_a_base { map shown_name
        (names_in
        (at Draft202012 "http://a/x"
        (two "$id" (text "y") "not" (one "$anchor" (text "foo")))))
        ≡ (codes "http://a/y", codes "foo", Plain, Key (codes "not") ∷ []) ∷ [] }
    ensures plain_and_dynamic { map shown_name
        (named_under (codes "a:b")
        (root
        (at Draft202012 "http://a/r"
        (two "$anchor" (text "a") "$dynamicAnchor" (text "b")))))
        ≡ (codes "a:b", codes "a", Plain, []) ∷ (codes "a:b", codes "b", Dynamic, []) ∷ [] }
    ensures in_identifier { map shown_name
        (named_under (codes "a:b") (root (at Draft7 "http://a/r" (one "$id" (text "#f")))))
        ≡ (codes "a:b", codes "f", Plain, []) ∷ [] }
    ensures at_a_base { map shown_name
        (named_at
        (root (at Draft201909 "http://a/r" (two "$anchor" (text "a") "$id" (text "y")))))
        ≡ (codes "http://a/y", codes "a", Plain, []) ∷ [] }
    ensures at_no_base { named_at
        (root (at Draft201909 "http://a/r" (two "$anchor" (text "a") "$id" (text "a b"))))
        ≡ [] }
    ensures by_documents { map shown_name
        (names
        (at Draft7 "http://a/r" (one "not" (one "$id" (text "#f")))
        ∷ at Draft7 "http://a/s" empty ∷ []))
        ≡ (codes "http://a/r", codes "f", Plain, Key (codes "not") ∷ []) ∷ [] }
    ensures none { names (at Draft202012 "http://a/r" yes ∷ []) ≡ [] }
{}

/// What a name means under a URI, where it is there.
pub fn entries_of_names()
    ensures last_entry { option_map shown_name (named_entry (alone Draft202012 "http://a/r"
        (two "$anchor" (text "n") "not" (one "$dynamicAnchor" (text "n")))) (codes "http://a/r")
        (codes "n"))
        ≡ Some (codes "http://a/r", codes "n", Dynamic, Key (codes "not") ∷ []) }
    ensures nearest_layer { option_map shown_name (named_entry
        ((at Draft202012 "http://a/r" (one "$dynamicAnchor" (text "n")) ∷ []) ∷ alone Draft202012
        "http://a/r" (one "$anchor" (text "n"))) (codes "http://a/r") (codes "n"))
        ≡ Some (codes "http://a/r", codes "n", Dynamic, []) }
    ensures parent { option_map shown_name (named_entry ((at Draft202012 "http://a/r" empty ∷ [])
        ∷ alone Draft202012 "http://a/r" (one "$anchor" (text "n"))) (codes "http://a/r")
        (codes "n"))
        ≡ Some (codes "http://a/r", codes "n", Plain, []) }
    ensures of_entries { option_map shown_name
        (last_named (codes "http://a/r") (codes "n")
        (names
        (at Draft202012 "http://a/r" (one "$anchor" (text "n"))
        ∷ at Draft202012 "http://a/s" (one "$anchor" (text "n")) ∷ [])))
        ≡ Some (codes "http://a/r", codes "n", Plain, []) }
    ensures of_no_entry { last_named (codes "http://a/r") (codes "n") [] ≡ None }
    ensures another_uri { option_map shown_name (named_entry
        (alone Draft202012 "http://a/x" (one "$anchor" (text "n"))) (codes "http://a/r")
        (codes "n"))
        ≡ None }
    ensures another_name { option_map shown_name (named_entry
        (alone Draft202012 "http://a/r" (one "$anchor" (text "n"))) (codes "http://a/r")
        (codes "m"))
        ≡ None }
{}

/// What a name means where it isn't under the URI: where that means a place with an identifier, the name is sought
/// under the place's base.
pub fn names_elsewhere()
    ensures no_such { not_named (codes "unknownAnchor") ≡ NoSuchAnchor (codes "unknownAnchor") }
    ensures invalid { not_named (codes "invalid/anchor") ≡ InvalidAnchor (codes "invalid/anchor") }
    ensures by_the_base { option_map shown_name (named_by_identifier
        (alone Draft202012 "http://a/x" (two "$id" (text "y") "not" (one "$anchor" (text "foo"))))
        (codes "http://a/x") (codes "foo"))
        ≡ Some (codes "http://a/y", codes "foo", Plain, Key (codes "not") ∷ []) }
    ensures by_an_absolute_identifier { option_map shown_name (named_by_identifier (alone
        Draft202012 "http://a/x" (two "$id" (text "http://b/y") "not" (one "$anchor" (text "foo"))))
        (codes "http://a/x") (codes "foo"))
        ≡ Some (codes "http://b/y", codes "foo", Plain, Key (codes "not") ∷ []) }
    ensures by_a_fragment { option_map shown_name (named_by_identifier
        (alone Draft202012 "http://a/r" (two "$id" (text "#x") "not" (one "$anchor" (text "foo"))))
        (codes "http://a/r") (codes "foo"))
        ≡ Some (codes "http://a/r#x", codes "foo", Plain, Key (codes "not") ∷ []) }
    ensures without_identifier { named_by_identifier
        (alone Draft202012 "http://a/x" (one "not" (one "$anchor" (text "foo"))))
        (codes "http://a/x") (codes "foo")
        ≡ None }
    ensures by_a_refused_identifier { named_by_identifier
        (alone Draft202012 "http://a/x" (one "$id" (text "a b"))) (codes "http://a/x") (codes "foo")
        ≡ None }
    ensures without_a_place { named_by_identifier [] (codes "http://a/x") (codes "foo") ≡ None }
    ensures under_the_uri { anchor (alone Draft202012 "http://a/r" (one "$anchor" (text "n")))
        (codes "http://a/r") (codes "n")
        ≡ Ok (name_at "http://a/r" "n" Plain Draft202012 (one "$anchor" (text "n"))) }
    ensures under_the_base { option_map shown_name (result_ok (anchor
        (alone Draft202012 "http://a/x" (two "$id" (text "y") "not" (one "$anchor" (text "foo"))))
        (codes "http://a/x") (codes "foo")))
        ≡ Some (codes "http://a/y", codes "foo", Plain, Key (codes "not") ∷ []) }
    ensures under_the_uri_first { option_map shown_name (result_ok (anchor
        (alone Draft202012 "http://a/x" (two "$anchor" (text "foo") "$id" (text "y")))
        (codes "http://a/x") (codes "foo")))
        ≡ Some (codes "http://a/x", codes "foo", Plain, []) }
    ensures under_neither { anchor
        (alone Draft202012 "http://a/x" (two "$id" (text "y") "not" (one "$anchor" (text "foo"))))
        (codes "http://a/x") (codes "n/m")
        ≡ Err (InvalidAnchor (codes "n/m")) }
    ensures of_no_document { anchor [] (codes "http://a/x") (codes "foo")
        ≡ Err (NoSuchAnchor (codes "foo")) }
{}
