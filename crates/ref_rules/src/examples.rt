//! Rows that compute, of what is told of places.
ghost use Rattle.std.specs.Prelude.{◌≡◌, true, false, [], ◌∷◌, codes, Some, None};
ghost use Rattle.ref_draft.specs.declared.draft.Draft.TheVariants.{Draft4, Draft6, Draft7, Draft201909, Draft202012, Unknown};
ghost use Rattle.ref_draft.specs.Rows.{empty, yes, text, one, two, list};
ghost use Rattle.ref_rules.specs.declared.slip.Problem.TheVariants.{OfAnotherDraft, DialectWithin, IgnoredBesideRef, UnheardBesideRef, MisspelledDialect};
ghost use Rattle.ref_rules.specs.Tables.{has, of_others, decides, tells};
ghost use Rattle.ref_rules.specs.Dialects.{meant, misspelled};
ghost use Rattle.ref_rules.specs.Slips.{of_another, is_dialect_within, beside_ref, misspelled_at, slips};
ghost use Rattle.ref_rules.specs.Ends.{is_schema, no_schemas};
ghost use Rattle.ref_rules.specs.Members.{repeats};
ghost use Rattle.ref_rules.specs.Cases.{all_alike};
ghost use Rattle.ref_paths.specs.Path.{Key, Index};
ghost use Rattle.ref_rules.specs.InPlace.{is_in_place, in_place};
ghost use Rattle.ref_rules.specs.Rows.{root, inner, told, end, member, again, like};

/// The keywords of others, of each draft.
pub fn keywords_of_others()
    ensures of_2020 { of_others Draft202012
        ≡ codes "$recursiveAnchor" ∷ codes "$recursiveRef" ∷ codes "id" ∷ [] }
    ensures of_2019 { of_others Draft201909
        ≡ codes "$dynamicAnchor" ∷ codes "$dynamicRef" ∷ codes "id" ∷ codes "prefixItems" ∷ [] }
    ensures of_unknown { of_others Unknown ≡ [] }
    ensures const_of_4 { has Draft4 (codes "const") ≡ false }
    ensures const_of_6 { has Draft6 (codes "const") ≡ true }
    ensures if_of_6 { has Draft6 (codes "if") ≡ false }
    ensures if_of_7 { has Draft7 (codes "if") ≡ true }
    ensures recursive_of_2019 { has Draft201909 (codes "$recursiveRef") ≡ true }
    ensures recursive_of_2020 { has Draft202012 (codes "$recursiveRef") ≡ false }
{}

/// Keywords that a place's draft doesn't have.
pub fn others_at_places()
    ensures const_in_4 { of_another (root Draft4 (one "const" yes)) ≡ codes "const" ∷ [] }
    ensures const_in_7 { of_another (root Draft7 (one "const" yes)) ≡ [] }
    ensures id_in_7 { of_another (root Draft7 (one "id" (text "a"))) ≡ codes "id" ∷ [] }
    ensures id_that_is_no_text { of_another (root Draft7 (one "id" empty)) ≡ [] }
    ensures id_in_4 { of_another (root Draft4 (one "id" (text "a"))) ≡ [] }
    ensures definitions_in_7 { of_another (root Draft7 (one "$defs" empty)) ≡ [] }
    ensures no_object { of_another (root Draft7 yes) ≡ [] }
{}

/// A `$schema` that doesn't count.
pub fn dialects_within_schemas()
    ensures at_a_root { is_dialect_within (root Draft7 (one "$schema" (text "a"))) ≡ false }
    ensures below { is_dialect_within (inner Draft7 (one "$schema" (text "a"))) ≡ true }
    ensures identified { is_dialect_within
        (inner Draft7 (two "$id" (text "b") "$schema" (text "a")))
        ≡ false }
    ensures by_another_keyword { is_dialect_within
        (inner Draft7 (two "$schema" (text "a") "id" (text "b")))
        ≡ true }
    ensures no_text { is_dialect_within (inner Draft7 (one "$schema" yes)) ≡ false }
{}

/// Keywords beside a `$ref`.
pub fn keywords_beside_references()
    ensures decides_in_7 { beside_ref
        (root Draft7 (two "$ref" (text "#/a") "type" (text "object"))) (decides Draft7)
        ≡ codes "type" ∷ [] }
    ensures decides_nothing_in_2019 { decides Draft201909 ≡ [] }
    ensures tells_nothing_in_2020 { tells Draft202012 ≡ [] }
    ensures without_a_reference { beside_ref
        (root Draft7 (two "$ref" yes "type" (text "object"))) (decides Draft7)
        ≡ [] }
    ensures tells_in_4 { beside_ref
        (root Draft4 (two "$ref" (text "#/a") "id" (text "b"))) (tells Draft4)
        ≡ codes "id" ∷ [] }
    ensures definitions { beside_ref
        (root Draft7 (two "$ref" (text "#/a") "definitions" empty)) (decides Draft7)
        ≡ [] }
{}

/// Names of dialects.
pub fn names_of_dialects()
    ensures of_7 { misspelled (codes "http://json-schema.org/draft-07/schema#") ≡ None }
    ensures without_a_hash { misspelled (codes "http://json-schema.org/draft-07/schema") ≡ None }
    ensures https { misspelled (codes "https://json-schema.org/draft-07/schema#") ≡ Some Draft7 }
    ensures http { misspelled (codes "http://json-schema.org/draft/2020-12/schema")
        ≡ Some Draft202012 }
    ensures without_its_end { misspelled (codes "http://json-schema.org/draft-04") ≡ Some Draft4 }
    ensures with_a_slash { misspelled (codes "https://json-schema.org/draft/2019-09/")
        ≡ Some Draft201909 }
    ensures capitals { misspelled (codes "http://JSON-Schema.org/draft-06/schema")
        ≡ Some Draft6 }
    ensures with_a_hash { misspelled (codes "https://json-schema.org/draft/2020-12/schema#")
        ≡ Some Draft202012 }
    ensures with_two { misspelled (codes "http://json-schema.org/draft-07/schema##") ≡ Some Draft7 }
    ensures without_a_version { misspelled (codes "http://json-schema.org/schema#") ≡ None }
    ensures neither_version_nor_end { misspelled (codes "https://json-schema.org") ≡ None }
    ensures another { misspelled (codes "https://example.com/schema") ≡ None }
    ensures is_meant { meant (codes "HTTP://json-schema.org/draft-07/schema#") ≡ Draft7 }
    ensures at_a_place { misspelled_at 3
        (root Draft7 (one "$schema" (text "https://json-schema.org/draft-07/schema#")))
        ≡ told 3 "$schema" (MisspelledDialect Draft7) ∷ [] }
{}

/// What is told of places.
pub fn told_of_places()
    ensures of_two { slips
        (root Draft7 (two "$ref" (text "#/a") "title" (text "b"))
        ∷ inner Draft4 (two "$schema" (text "http://json-schema.org/draft-04/schema") "const" yes)
        ∷ [])
        ≡ told 0 "title" UnheardBesideRef ∷ told 1 "const" (OfAnotherDraft Draft4)
        ∷ told 1 "$schema" DialectWithin ∷ [] }
    ensures of_none { slips [] ≡ [] }
    ensures ignored { slips (root Draft6 (two "$ref" (text "#/a") "type" (text "b")) ∷ [])
        ≡ told 0 "type" IgnoredBesideRef ∷ [] }
{}

/// What references lead to.
pub fn ends_of_references()
    ensures object { is_schema Draft4 empty ≡ true }
    ensures boolean_in_4 { is_schema Draft4 yes ≡ false }
    ensures boolean_in_6 { is_schema Draft6 yes ≡ true }
    ensures array { is_schema Draft202012 (list empty) ≡ false }
    ensures numbers { no_schemas
        (Some (end Draft7 empty) ∷ None ∷ Some (end Draft7 (text "a")) ∷ Some (end Draft4 yes)
        ∷ [])
        ≡ 2 ∷ 3 ∷ [] }
{}

/// Members that come again.
pub fn members_of_objects()
    ensures none { repeats (member 0 "a" ∷ member 0 "b" ∷ []) ≡ [] }
    ensures no_member { repeats [] ≡ [] }
    ensures again { repeats (member 0 "a" ∷ member 0 "b" ∷ member 0 "a" ∷ []) ≡ again 2 0 ∷ [] }
    ensures thrice { repeats (member 3 "a" ∷ member 3 "a" ∷ member 3 "a" ∷ [])
        ≡ again 1 0 ∷ again 2 0 ∷ [] }
    ensures cases { repeats (member 0 "a" ∷ member 0 "A" ∷ []) ≡ [] }
{}

/// Names that differ by small letters and capitals alone.
pub fn letters_of_names()
    ensures other_case { all_alike (codes "file:///a/Name.json" ∷ [])
        (codes "file:///b" ∷ codes "file:///a/name.json" ∷ [])
        ≡ like 0 1 ∷ [] }
    ensures another { all_alike (codes "file:///a/names.json" ∷ []) (codes "file:///a/name.json" ∷ [])
        ≡ [] }
    ensures first { all_alike (codes "x" ∷ codes "AB" ∷ []) (codes "aB" ∷ codes "ab" ∷ [])
        ≡ like 1 0 ∷ [] }
{}

/// Schemas that are applied to the same value as one that they are in.
pub fn schemas_in_place()
    ensures itself { is_in_place Draft7 (Some empty) [] ≡ true }
    ensures an_item { is_in_place Draft7 (Some (one "allOf" (list empty)))
        (Key (codes "allOf") ∷ Index 0 ∷ [])
        ≡ true }
    ensures no_item { is_in_place Draft7 (Some (one "allOf" (list empty)))
        (Key (codes "allOf") ∷ Index 1 ∷ [])
        ≡ false }
    ensures the_list { is_in_place Draft7 (Some (one "allOf" (list empty)))
        (Key (codes "allOf") ∷ [])
        ≡ false }
    ensures of_a_property { is_in_place Draft7 (Some (one "properties" (one "a" empty)))
        (Key (codes "properties") ∷ Key (codes "a") ∷ [])
        ≡ false }
    ensures beside_a_reference_in_7 { is_in_place Draft7
        (Some (two "$ref" (text "#/a") "not" empty)) (Key (codes "not") ∷ [])
        ≡ false }
    ensures beside_a_reference_in_2020 { is_in_place Draft202012
        (Some (two "$ref" (text "#/a") "not" empty)) (Key (codes "not") ∷ [])
        ≡ true }
    ensures if_in_6 { is_in_place Draft6 (Some (one "if" empty)) (Key (codes "if") ∷ [])
        ≡ false }
    ensures then_beside_an_if { is_in_place Draft7 (Some (two "if" yes "then" empty))
        (Key (codes "then") ∷ [])
        ≡ true }
    ensures then_alone { is_in_place Draft7 (Some (one "then" empty)) (Key (codes "then") ∷ [])
        ≡ false }
    ensures dependencies_in_7 { is_in_place Draft7 (Some (one "dependencies" (one "a" empty)))
        (Key (codes "dependencies") ∷ Key (codes "a") ∷ [])
        ≡ true }
    ensures dependencies_in_2019 { is_in_place Draft201909
        (Some (one "dependencies" (one "a" empty)))
        (Key (codes "dependencies") ∷ Key (codes "a") ∷ [])
        ≡ false }
    ensures dependent_schemas { is_in_place Draft201909
        (Some (one "dependentSchemas" (one "a" empty)))
        (Key (codes "dependentSchemas") ∷ Key (codes "a") ∷ [])
        ≡ true }
    ensures nowhere { is_in_place Draft7 (Some empty) (Key (codes "not") ∷ []) ≡ false }
    ensures beginnings { in_place Draft7
        (Some (one "properties" (one "a" (one "not" empty))))
        (Key (codes "properties") ∷ Key (codes "a") ∷ Key (codes "not") ∷ [])
        ≡ false ∷ false ∷ true ∷ true ∷ [] }
{}
