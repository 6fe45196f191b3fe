//! Lookups by URI, pointer and anchor, step after step.
#![tactic(auto, unfolding(crate::proofs::OnLiterals::world_on_literals))]

ghost use Rattle.std.specs.Prelude.{◌≡◌, [], ◌∷◌, codes, Some, Err};
ghost use Rattle.ref_paths.specs.Path.{Key};
ghost use Rattle.ref_draft.specs.declared.draft.Draft.TheVariants.{Draft4, Draft7, Draft201909, Draft202012};
ghost use Rattle.ref_uri.specs.Targets.{parse_refusal};
ghost use Rattle.ref_definitions.specs.Fault.{PointerToNowhere, InvalidArrayIndex, InvalidPercentEncoding, NoSuchAnchor, InvalidAnchor, InvalidUri, not_retrieved};
ghost use Rattle.ref_definitions.specs.Lookup.{lookup, located_value};
ghost use Rattle.ref_definitions.specs.Follow.{Enter};
ghost use Rattle.ref_definitions.specs.Rows.{at, world, yes, empty, text, one, two, list, pair, whole_number, odd_keys, resolver, steps, look, refusal, alone, look_in, found_at, value_at, anchor_foo, dynamic_definitions, identified_twice, through_foo_and_bar, typed_properties, typed_property, back_at_the_first, escaped_keys, identified_within, child_and_parent};

/// Lookups by URI and pointer.
pub fn lookups_by_pointer()
    ensures document { look_in Draft202012 "http://a/r" typed_property "#/properties/n"
        ≡ found_at (one "type" (text "string")) "http://a/r" "http://a/r" }
    ensures nowhere { look_in Draft202012 "http://a/r" empty "#/nope"
        ≡ refusal 0 (PointerToNowhere (codes "/nope")) }
    ensures uri_of_no_place { steps (alone Draft202012 "http://a/r" empty) "http://a/q"
        (look "#" ∷ [])
        ≡ refusal 0 (not_retrieved (codes "http://a/q")) }
    ensures leading_zero { look_in Draft202012 "http://a/r" (one "prefixItems" (pair yes empty))
        "#/prefixItems/01"
        ≡ found_at empty "http://a/r" "http://a/r" }
    ensures plus_sign { look_in Draft202012 "http://a/r" (one "prefixItems" (pair yes empty))
        "#/prefixItems/+1"
        ≡ found_at empty "http://a/r" "http://a/r" }
    ensures no_resource_below_const { look_in Draft7 "http://a/r"
        (one "items" (one "const" (one "$id" (text "z")))) "z"
        ≡ refusal 0 (not_retrieved (codes "http://a/z")) }
    ensures entered { steps (alone Draft202012 "http://a/k/x" yes) "http://a/r"
        (Enter Draft202012 (one "$id" (text "k/")) ∷ look "x" ∷ [])
        ≡ found_at yes "http://a/k/x" "http://a/k/" }
    ensures no_index { look_in Draft202012 "http://a/r" (one "prefixItems" (pair yes empty))
        "#/prefixItems/one"
        ≡ refusal 0 (InvalidArrayIndex (codes "/prefixItems/one") (codes "one")) }
    ensures bad_escape { look_in Draft202012 "http://a/r" empty "#/%FF"
        ≡ refusal 0 (InvalidPercentEncoding (codes "/%FF")) }
    ensures base_changes { look_in Draft7 "http://a/r"
        (one "items" (one "properties" (one "x" (one "$id" (text "s/"))))) "#/items/properties/x"
        ≡ found_at (one "$id" (text "s/")) "http://a/s/" "http://a/r" }
    ensures const_is_no_schema { look_in Draft202012 "http://a/r"
        (one "const" (one "$id" (text "z"))) "#/const"
        ≡ found_at (one "$id" (text "z")) "http://a/r" "http://a/r" }
    ensures const_below_items { look_in Draft7 "http://a/r"
        (one "items" (one "const" (one "$id" (text "z")))) "#/items/const"
        ≡ found_at (one "$id" (text "z")) "http://a/z" "http://a/r" }
    ensures last_wins { look_in Draft202012 "http://a/r" identified_twice "http://a/k"
        ≡ found_at (two "$id" (text "http://a/k") "title" (text "2")) "http://a/k" "http://a/r" }
    ensures bad_identifier_below_items { look_in Draft7 "http://a/r"
        (one "items" (one "const" (one "$id" (text "a b")))) "#/items/const"
        ≡ refusal 0 (InvalidUri (parse_refusal (codes "a b"))) }
    ensures no_schema_below_items { look_in Draft202012 "http://a/r"
        (one "items" (one "const" (one "$id" (text "a b")))) "#/items/const"
        ≡ found_at (one "$id" (text "a b")) "http://a/r" "http://a/r" }
    ensures prefix_items_in_4 { look_in Draft4 "http://a/r"
        (one "prefixItems" (list (one "id" (text "t")))) "#/prefixItems/0"
        ≡ found_at (one "id" (text "t")) "http://a/t" "http://a/r" }
    ensures const_in_4 { look_in Draft4 "http://a/r" (one "const" (one "id" (text "t"))) "#/const"
        ≡ found_at (one "id" (text "t")) "http://a/r" "http://a/r" }
    ensures parts_forgotten { look_in Draft7 "http://a/r"
        (one "items" (two "$id" (text "z") "const" (one "$id" (text "w")))) "#/items/const"
        ≡ found_at (one "$id" (text "w")) "http://a/z" "http://a/r" }
    ensures uri_of_an_identifier { steps (alone Draft202012 "http://a/r" (one "$id" (text "#x")))
        "http://a/r#x" (look "#" ∷ [])
        ≡ found_at (one "$id" (text "#x")) "http://a/r#x" "http://a/r#x" }
    ensures second_step_faults { steps (alone Draft202012 "http://a/r" empty) "http://a/r"
        (look "" ∷ look "#/q" ∷ [])
        ≡ refusal 1 (PointerToNowhere (codes "/q")) }
{}

/// Triples, escapes and indexes in pointers that are malformed or unusual (RFC 6901, sections 3, 4 and 6).
pub fn lookups_of_odd_keys()
    ensures malformed_triple { steps (world (odd_keys ∷ [])) "http://a/r" (look "#/a%zz" ∷ [])
        ≡ found_at (whole_number 1) "http://a/r" "http://a/r" }
    ensures no_escape { steps (world (odd_keys ∷ [])) "http://a/r" (look "#/~2" ∷ [])
        ≡ found_at (whole_number 2) "http://a/r" "http://a/r" }
    ensures slash_by_a_triple { steps (world (odd_keys ∷ [])) "http://a/r" (look "#/a%2Fb" ∷ [])
        ≡ found_at (whole_number 3) "http://a/r" "http://a/r" }
    ensures empty_key { steps (world (odd_keys ∷ [])) "http://a/r" (look "#/" ∷ [])
        ≡ found_at (whole_number 4) "http://a/r" "http://a/r" }
    ensures tilde_and_slash { steps (world (odd_keys ∷ [])) "http://a/r" (look "#/~~1" ∷ [])
        ≡ found_at (whole_number 5) "http://a/r" "http://a/r" }
    ensures percent_alone { steps (world (odd_keys ∷ [])) "http://a/r" (look "#/%" ∷ [])
        ≡ refusal 0 (PointerToNowhere (codes "/%")) }
    ensures plus_alone { steps (world (odd_keys ∷ [])) "http://a/r" (look "#/l/+" ∷ [])
        ≡ refusal 0 (InvalidArrayIndex (codes "/l/+") (codes "+")) }
    ensures past_64_bits { steps (world (odd_keys ∷ [])) "http://a/r"
        (look "#/l/18446744073709551616" ∷ [])
        ≡ refusal 0
        (InvalidArrayIndex (codes "/l/18446744073709551616") (codes "18446744073709551616")) }
    ensures greatest_index { steps (world (odd_keys ∷ [])) "http://a/r"
        (look "#/l/18446744073709551615" ∷ [])
        ≡ refusal 0 (PointerToNowhere (codes "/l/18446744073709551615")) }
{}

/// One lookup from a resolver.
pub fn lookups_of_references()
    ensures whole_resource { lookup (alone Draft202012 "http://a/r" empty)
        (resolver "http://a/r" []) (codes "#")
        ≡ value_at empty Draft202012 "http://a/r" "http://a/r" }
    ensures whole_document { lookup (alone Draft202012 "http://example.com"
        (two "properties" (one "foo" (one "type" (text "string"))) "type" (text "object")))
        (resolver "http://example.com" []) (codes "#")
        ≡ value_at
        (two "properties" (one "foo" (one "type" (text "string"))) "type" (text "object"))
        Draft202012 "http://example.com" "http://example.com" }
    ensures scope_stays { lookup (alone Draft202012 "http://a/r" empty)
        (resolver "http://a/r" (codes "http://a/s" ∷ [])) (codes "#")
        ≡ value_at empty Draft202012 "http://a/r" "http://a/s" }
    ensures draft_of_the_place { lookup (alone Draft7 "http://a/r" empty) (resolver "http://a/q" [])
        (codes "r")
        ≡ value_at empty Draft7 "http://a/r" "http://a/q" }
    ensures no_reference { lookup (alone Draft202012 "http://a/r" empty) (resolver "http://a/r" [])
        (codes "c d#/x")
        ≡ Err (InvalidUri (parse_refusal (codes "c d"))) }
    ensures no_place { lookup [] (resolver "http://a/r" []) (codes "b#/x")
        ≡ Err (not_retrieved (codes "http://a/b")) }
{}

/// A document with faults of each kind.
pub fn faults_of_lookups()
    ensures percent_encoding { look_in Draft202012 "http://example.com" typed_properties "#/%FF"
        ≡ refusal 0 (InvalidPercentEncoding (codes "/%FF")) }
    ensures index { look_in Draft202012 "http://example.com" typed_properties
        "#/properties/bar/items/one"
        ≡ refusal 0 (InvalidArrayIndex (codes "/properties/bar/items/one") (codes "one")) }
    ensures past_the_end { look_in Draft202012 "http://example.com" typed_properties
        "#/properties/bar/items/2"
        ≡ refusal 0 (PointerToNowhere (codes "/properties/bar/items/2")) }
    ensures no_member { look_in Draft202012 "http://example.com" typed_properties "#/properties/baz"
        ≡ refusal 0 (PointerToNowhere (codes "/properties/baz")) }
    ensures no_anchor { look_in Draft202012 "http://example.com" typed_properties "#unknownAnchor"
        ≡ refusal 0 (NoSuchAnchor (codes "unknownAnchor")) }
    ensures no_anchor_name { look_in Draft202012 "http://example.com" typed_properties
        "#invalid/anchor"
        ≡ refusal 0 (InvalidAnchor (codes "invalid/anchor")) }
{}

/// Lookups by anchor (2020-12 Core, 8.2.2 and 8.2.3.2).
pub fn lookups_by_anchor()
    ensures unknown { look_in Draft202012 "http://a/r" empty "#unknownAnchor"
        ≡ refusal 0 (NoSuchAnchor (codes "unknownAnchor")) }
    ensures invalid { look_in Draft202012 "http://a/r" empty "#invalid/anchor"
        ≡ refusal 0 (InvalidAnchor (codes "invalid/anchor")) }
    ensures beside_a_known_one { look_in Draft202012 "http://example.com"
        (one "$defs" (one "foo" (one "$anchor" (text "knownAnchor")))) "#unknownAnchor"
        ≡ refusal 0 (NoSuchAnchor (codes "unknownAnchor")) }
    ensures by_an_absolute_base { look_in Draft202012 "http://a/x" (anchor_foo "http://b/y")
        "http://a/x#foo"
        ≡ found_at (one "$anchor" (text "foo")) "http://a/x" "http://a/x" }
    ensures by_a_base { look_in Draft202012 "http://a/x" (anchor_foo "y") "http://a/x#foo"
        ≡ found_at (one "$anchor" (text "foo")) "http://a/x" "http://a/x" }
    ensures by_a_base_with_a_fragment { look_in Draft202012 "http://a/r" (anchor_foo "#x")
        "http://a/r#foo"
        ≡ found_at (one "$anchor" (text "foo")) "http://a/r" "http://a/r" }
    ensures by_a_base_of_a_parent { steps ([] ∷ alone Draft202012 "http://a/x" (anchor_foo "y"))
        "http://a/x" (look "http://a/x#foo" ∷ [])
        ≡ found_at (one "$anchor" (text "foo")) "http://a/x" "http://a/x" }
    ensures dynamic_by_a_base { look_in Draft202012 "http://a/x"
        (two "$defs" (one "p" (one "$dynamicAnchor" (text "foo"))) "$id" (text "y"))
        "http://a/x#foo"
        ≡ found_at (one "$dynamicAnchor" (text "foo")) "http://a/x" "http://a/x" }
    ensures dynamic { steps
        (world
        (at Draft202012 "https://example.com/root.json"
        (two "$defs" (one "node" (one "$dynamicAnchor" (text "node"))) "$id"
        (text "https://example.com/root.json"))
        ∷ at Draft202012 "https://example.com/tree.json"
        (two "$dynamicAnchor" (text "node") "$id" (text "https://example.com/tree.json"))
        ∷ [])) "https://example.com/root.json"
        (look "tree.json" ∷ look "#node" ∷ [])
        ≡ found_at (one "$dynamicAnchor" (text "node")) "https://example.com/root.json"
        "https://example.com/root.json" }
    ensures dynamic_invalid { steps
        (world
        (at Draft202012 "http://a/t" (one "$dynamicAnchor" (text "n/m"))
        ∷ at Draft202012 "http://a/r" yes ∷ [])) "http://a/r"
        (look "t#n/m" ∷ [])
        ≡ refusal 0 (InvalidAnchor (codes "n/m")) }
    ensures dynamic_nested { through_foo_and_bar Draft202012 dynamic_definitions yes
        dynamic_definitions (look "#fooAnchor")
        ≡ back_at_the_first dynamic_definitions }
    ensures dynamic_past_a_plain_one { through_foo_and_bar Draft202012 dynamic_definitions
        (one "$anchor" (text "fooAnchor")) dynamic_definitions (look "#fooAnchor")
        ≡ back_at_the_first dynamic_definitions }
    ensures dynamic_alone { look_in Draft202012 "http://example.com"
        (one "$dynamicAnchor" (text "foo")) "#foo"
        ≡ found_at (one "$dynamicAnchor" (text "foo")) "http://example.com" "http://example.com" }
{}

/// Lookups of paths, by their pointer text as a fragment holds it.
pub fn located_paths()
    ensures escaped { located_value
        (alone Draft202012 "http://a/r" escaped_keys) (codes "http://a/r")
        (Key (codes "a/b%") ∷ Key [] ∷ Key (codes "~") ∷ [])
        ≡ value_at (whole_number 7) Draft202012 "http://a/r" "http://a/r" }
    ensures escaped_reference { lookup (alone Draft202012 "http://a/r" escaped_keys)
        (resolver "http://a/r" []) (codes "#/a~1b%25//~0")
        ≡ value_at (whole_number 7) Draft202012 "http://a/r" "http://a/r" }
    ensures root { located_value (alone Draft202012 "http://a/r" (one "not" yes))
        (codes "http://a/r") []
        ≡ value_at (one "not" yes) Draft202012 "http://a/r" "http://a/r" }
    ensures through_a_resource { located_value (alone Draft201909 "http://a/r" identified_within)
        (codes "http://a/r")
        (Key (codes "$defs") ∷ Key (codes "a") ∷ Key (codes "dependencies") ∷ Key (codes "d") ∷ [])
        ≡ value_at (one "$id" (text "m")) Draft201909 "http://b/k/m" "http://a/r" }
    ensures from_a_resource { located_value (alone Draft201909 "http://a/r" identified_within)
        (codes "http://b/k/") (Key (codes "dependencies") ∷ Key (codes "d") ∷ [])
        ≡ value_at (one "$id" (text "m")) Draft201909 "http://b/k/m" "http://b/k/" }
    ensures defs_in_4 { located_value
        (alone Draft4 "http://a/r" (one "$defs" (one "a" (one "id" (text "s/")))))
        (codes "http://a/r") (Key (codes "$defs") ∷ Key (codes "a") ∷ [])
        ≡ value_at (one "id" (text "s/")) Draft4 "http://a/s/" "http://a/r" }
    ensures past_a_map_with_an_identifier { located_value
        (alone Draft202012 "http://a/r"
        (one "properties" (two "$id" (text "m") "x" (one "$id" (text "s")))))
        (codes "http://a/r") (Key (codes "properties") ∷ Key (codes "x") ∷ [])
        ≡ value_at (one "$id" (text "s")) Draft202012 "http://a/s" "http://a/r" }
    ensures nowhere { located_value (alone Draft202012 "http://a/r" empty) (codes "http://a/r")
        (Key (codes "a/b") ∷ [])
        ≡ Err (PointerToNowhere (codes "/a~1b")) }
{}

/// A child's documents are before its parent's.
pub fn layers()
    ensures nearest { steps child_and_parent "http://a/m" (look "" ∷ [])
        ≡ found_at (one "title" (text "child")) "http://a/m" "http://a/m" }
    ensures parent_anchor { steps child_and_parent "http://a/m" (look "#p" ∷ [])
        ≡ found_at (two "$anchor" (text "p") "title" (text "parent")) "http://a/m" "http://a/m" }
    ensures meta_schema_of_a_parent { steps
        ((at Draft202012 "http://a/r" (one "$ref" (text "http://json-schema.org/draft-07/schema#"))
        ∷ [])
        ∷ alone Draft202012 "http://json-schema.org/draft-07/schema" (one "title" (text "m")))
        "http://a/r" (look "http://json-schema.org/draft-07/schema#" ∷ [])
        ≡ found_at (one "title" (text "m")) "http://json-schema.org/draft-07/schema" "http://a/r" }
    ensures same_uri { steps
        (world (at Draft202012 "http://a/m" yes ∷ at Draft202012 "http://a/m" empty ∷ []))
        "http://a/m" (look "" ∷ [])
        ≡ found_at empty "http://a/m" "http://a/m" }
{}
