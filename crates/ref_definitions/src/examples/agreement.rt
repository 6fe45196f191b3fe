//! Where the pointer of a path and the keywords of subschemas lead to one place with one base, and where they don't.
#![tactic(auto, unfolding(crate::proofs::OnLiterals::world_on_literals))]

ghost use Rattle.std.specs.Prelude.{◌≡◌, [], ◌∷◌, codes, Some, Ok, Err};
ghost use Rattle.ref_paths.specs.Path.{Key};
ghost use Rattle.ref_draft.specs.declared.draft.Draft.TheVariants.{Draft4, Draft6, Draft7, Draft201909, Draft202012};
ghost use Rattle.ref_definitions.specs.Fault.{PointerToNowhere};
ghost use Rattle.ref_definitions.specs.Places.{root};
ghost use Rattle.ref_definitions.specs.Lookup.{located_value};
ghost use Rattle.ref_definitions.specs.Agreement.{IsAtOrBelow, HasPlainMaps, IsReadAlike, IsPathOfTexts};
ghost use Rattle.ref_definitions.specs.Rows.{at, yes, empty, text, one, two, nested_schema, nested_path, nested_value, nested_2020, nested_path_2020, last_place, identified_4, identified_schema, identified_2020, equal_identifiers, place_below, alone, value_at};

/// In each draft, within each kind of keyword, the keywords lead to this place.
pub fn places_within_keywords()
    ensures draft_4 { last_place (at Draft4 "http://a/r" (nested_schema "id"))
        ≡ Some (nested_path, Ok (codes "http://a/s"), Draft4) }
    ensures draft_6 { last_place (at Draft6 "http://a/r" (nested_schema "$id"))
        ≡ Some (nested_path, Ok (codes "http://a/s"), Draft6) }
    ensures draft_7 { last_place (at Draft7 "http://a/r" (nested_schema "$id"))
        ≡ Some (nested_path, Ok (codes "http://a/s"), Draft7) }
    ensures draft_2019 { last_place (at Draft201909 "http://a/r" (nested_schema "$id"))
        ≡ Some (nested_path, Ok (codes "http://a/s"), Draft201909) }
    ensures draft_2020 { last_place (at Draft202012 "http://a/r" nested_2020)
        ≡ Some (nested_path_2020, Ok (codes "http://a/s"), Draft202012) }
{}

/// And so does the pointer.
pub fn pointers_within_keywords()
    ensures draft_4 { nested_value Draft4 "id"
        ≡ value_at (one "id" (text "s")) Draft4 "http://a/s" "http://a/r" }
    ensures draft_6 { nested_value Draft6 "$id"
        ≡ value_at (one "$id" (text "s")) Draft6 "http://a/s" "http://a/r" }
    ensures draft_7 { nested_value Draft7 "$id"
        ≡ value_at (one "$id" (text "s")) Draft7 "http://a/s" "http://a/r" }
    ensures draft_2019 { nested_value Draft201909 "$id"
        ≡ value_at (one "$id" (text "s")) Draft201909 "http://a/s" "http://a/r" }
    ensures draft_2020 { located_value (alone Draft202012 "http://a/r" nested_2020)
        (codes "http://a/r") nested_path_2020
        ≡ value_at (one "$id" (text "s")) Draft202012 "http://a/s" "http://a/r" }
{}

/// Where another place has the URI, the pointer leads from that one; where a place has none, from the resource around it.
pub fn without_a_uri_of_its_own()
    ensures place_in_the_first { last_place
        (at Draft202012 "http://a/r"
        (one "$defs"
        (two "a" (two "$id" (text "http://a/k") "not" yes) "b"
        (one "$id" (text "http://a/k")))))
        ≡ Some (
          Key (codes "$defs") ∷ Key (codes "a") ∷ Key (codes "not")
              ∷ [],
          Ok (codes "http://a/k"),
          Draft202012,
        ) }
    ensures pointer_in_the_last { located_value (alone Draft202012 "http://a/r" (one "$defs"
        (two "a" (two "$id" (text "http://a/k") "not" yes) "b" (one "$id" (text "http://a/k")))))
        (codes "http://a/k") (Key (codes "not") ∷ [])
        ≡ Err (PointerToNowhere (codes "/not")) }
    ensures place_below_a_place { last_place
        (at Draft202012 "http://a/r" (one "not" (one "not" yes)))
        ≡ Some (Key (codes "not") ∷ Key (codes "not") ∷ [], Ok (codes "http://a/r"), Draft202012) }
    ensures pointer_from_the_root { located_value
        (alone Draft202012 "http://a/r" (one "not" (one "not" yes))) (codes "http://a/r")
        (Key (codes "not") ∷ [])
        ≡ value_at (one "not" yes) Draft202012 "http://a/r" "http://a/r" }
{}

/// The pointer reads a place by the draft of the resource that it starts from.
pub fn with_another_draft_below()
    ensures place { last_place
        (at Draft202012 "http://a/r"
        (one "not"
        (two "$schema" (text "http://json-schema.org/draft-04/schema") "id"
        (text "s"))))
        ≡ Some (Key (codes "not") ∷ [], Ok (codes "http://a/s"), Draft4) }
    ensures pointer { located_value (alone Draft202012 "http://a/r"
        (one "not" (two "$schema" (text "http://json-schema.org/draft-04/schema") "id" (text "s"))))
        (codes "http://a/r") (Key (codes "not") ∷ [])
        ≡ value_at (two "$schema" (text "http://json-schema.org/draft-04/schema") "id" (text "s"))
        Draft202012 "http://a/r" "http://a/r" }
{}

/// Before 2020-12, below `items` and `dependencies`, the pointer takes a map of subschemas with a text under the identifier's
/// keyword for a schema with an identifier.
pub fn with_a_map_that_has_an_identifier()
    ensures place_in_a_map { last_place
        (at Draft7 "http://a/r"
        (one "items" (one "properties" (two "$id" (text "m/") "x" (one "$id" (text "s"))))))
        ≡ Some (
          Key (codes "items") ∷ Key (codes "properties") ∷ Key (codes "x")
              ∷ [],
          Ok (codes "http://a/s"),
          Draft7,
        ) }
    ensures pointer_through_a_map { located_value (alone Draft7 "http://a/r"
        (one "items" (one "properties" (two "$id" (text "m/") "x" (one "$id" (text "s"))))))
        (codes "http://a/r") (Key (codes "items") ∷ Key (codes "properties") ∷ Key (codes "x") ∷ [])
        ≡ value_at (one "$id" (text "s")) Draft7 "http://a/m/" "http://a/r" }
    ensures place_in_dependencies { last_place
        (at Draft4 "http://a/r"
        (one "dependencies" (two "id" (text "m/") "x" (one "id" (text "s")))))
        ≡ Some
        (Key (codes "dependencies") ∷ Key (codes "x") ∷ [], Ok (codes "http://a/s"), Draft4) }
    ensures pointer_through_dependencies { located_value (alone Draft4 "http://a/r"
        (one "dependencies" (two "id" (text "m/") "x" (one "id" (text "s"))))) (codes "http://a/r")
        (Key (codes "dependencies") ∷ Key (codes "x") ∷ [])
        ≡ value_at (one "id" (text "s")) Draft4 "http://a/m/" "http://a/r" }
{}

/// Maps of subschemas with and without such a text, and places at and below another.
pub fn maps_and_places_below()
    ensures text_in_a_map { ¬ (HasPlainMaps Draft7 (one "properties" (one "$id" (text "m")))) }
    ensures text_in_dependencies { ¬ (HasPlainMaps Draft201909
        (one "dependencies" (one "$id" (text "m")))) }
    ensures text_in_a_map_of_4 { ¬ (HasPlainMaps Draft4 (one "definitions" (one "id" (text "m")))) }
    ensures schema_in_a_map { HasPlainMaps Draft7 (one "properties" (one "$id" yes)) }
    ensures at_itself { IsAtOrBelow (root (at Draft7 "http://a/r" yes))
        (root (at Draft7 "http://a/r" yes)) }
    ensures below { IsAtOrBelow
        (record {
          path = Key (codes "not")
              ∷ [];
          value = yes;
          draft = Draft7;
          outer = codes "http://a/r";
          base = Ok (codes "http://a/r");
        })
        (root (at Draft7 "http://a/r" (one "not" yes))) }
    ensures empty_path { IsPathOfTexts [] }
{}

/// Documents with an identifier, properties and definitions, whose roots the pointer and the keywords read alike.
pub fn resources_read_alike()
    ensures draft_4 { IsReadAlike (at Draft4 "http://a/b" identified_4 ∷ [])
        (at Draft4 "http://a/b" identified_4) (root (at Draft4 "http://a/b" identified_4))
        (codes "http://a/r") }
    ensures draft_6 { IsReadAlike (at Draft6 "http://a/b" identified_schema ∷ [])
        (at Draft6 "http://a/b" identified_schema) (root (at Draft6 "http://a/b" identified_schema))
        (codes "http://a/r") }
    ensures draft_7 { IsReadAlike (at Draft7 "http://a/b" identified_schema ∷ [])
        (at Draft7 "http://a/b" identified_schema) (root (at Draft7 "http://a/b" identified_schema))
        (codes "http://a/r") }
    ensures draft_2019 { IsReadAlike (at Draft201909 "http://a/b" identified_2020 ∷ [])
        (at Draft201909 "http://a/b" identified_2020)
        (root (at Draft201909 "http://a/b" identified_2020)) (codes "http://a/r") }
    ensures draft_2020 { IsReadAlike (at Draft202012 "http://a/b" identified_2020 ∷ [])
        (at Draft202012 "http://a/b" identified_2020)
        (root (at Draft202012 "http://a/b" identified_2020)) (codes "http://a/r") }
    ensures below_the_root { IsReadAlike
        (at Draft202012 "http://a/r" (one "not" (one "$id" (text "s"))) ∷ [])
        (at Draft202012 "http://a/r" (one "not" (one "$id" (text "s"))))
        (place_below "not" (one "$id" (text "s")) "http://a/r" "http://a/s") (codes "http://a/s") }
    ensures without_an_identifier { IsReadAlike (at Draft7 "http://a/r" yes ∷ [])
        (at Draft7 "http://a/r" yes) (root (at Draft7 "http://a/r" yes)) (codes "http://a/r") }
    ensures map_with_an_identifier_in_2020 { IsReadAlike
        (at Draft202012 "http://a/r" (one "properties" (one "$id" (text "m"))) ∷ [])
        (at Draft202012 "http://a/r" (one "properties" (one "$id" (text "m"))))
        (root (at Draft202012 "http://a/r" (one "properties" (one "$id" (text "m")))))
        (codes "http://a/r") }
{}

/// And each reason why another isn't: its document is of no such layer; it is no place of the document, or neither the root nor
/// one with an identifier; it has another URI; another place, of this document or of another, has its URI; a place below is of
/// another draft; or before 2020-12 a map of subschemas holds a text under the identifier's keyword.
pub fn resources_not_read_alike()
    ensures document_elsewhere { ¬ (IsReadAlike [] (at Draft7 "http://a/r" yes)
        (root (at Draft7 "http://a/r" yes)) (codes "http://a/r")) }
    ensures no_place { ¬ (IsReadAlike (at Draft7 "http://a/r" empty ∷ [])
        (at Draft7 "http://a/r" empty) (root (at Draft7 "http://a/r" yes)) (codes "http://a/r")) }
    ensures no_resource { ¬ (IsReadAlike (at Draft202012 "http://a/r" (one "not" yes) ∷ [])
        (at Draft202012 "http://a/r" (one "not" yes))
        (place_below "not" yes "http://a/r" "http://a/r") (codes "http://a/r")) }
    ensures another_uri { ¬ (IsReadAlike (at Draft7 "http://a/b" identified_schema ∷ [])
        (at Draft7 "http://a/b" identified_schema) (root (at Draft7 "http://a/b" identified_schema))
        (codes "http://a/b")) }
    ensures another_place { ¬ (IsReadAlike (at Draft202012 "http://a/r" equal_identifiers ∷ [])
        (at Draft202012 "http://a/r" equal_identifiers)
        (place_below "if" (one "$id" (text "k")) "http://a/r" "http://a/k") (codes "http://a/k")) }
    ensures another_document { ¬ (IsReadAlike
        (at Draft7 "http://a/r" yes ∷ at Draft7 "http://a/r" empty ∷ [])
        (at Draft7 "http://a/r" yes) (root (at Draft7 "http://a/r" yes)) (codes "http://a/r")) }
    ensures another_draft { ¬ (IsReadAlike
        (at Draft202012 "http://a/r"
        (one "not" (one "$schema" (text "http://json-schema.org/draft-07/schema")))
        ∷ [])
        (at Draft202012 "http://a/r"
        (one "not" (one "$schema" (text "http://json-schema.org/draft-07/schema"))))
        (root
        (at Draft202012 "http://a/r"
        (one "not" (one "$schema" (text "http://json-schema.org/draft-07/schema")))))
        (codes "http://a/r")) }
    ensures map_with_an_identifier { ¬ (IsReadAlike
        (at Draft7 "http://a/r" (one "properties" (one "$id" (text "m"))) ∷ [])
        (at Draft7 "http://a/r" (one "properties" (one "$id" (text "m"))))
        (root (at Draft7 "http://a/r" (one "properties" (one "$id" (text "m")))))
        (codes "http://a/r")) }
{}
