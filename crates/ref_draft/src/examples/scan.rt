//! Where an identifier may change the base along a pointer.
ghost use Rattle.std.specs.Prelude.{◌≡◌, true, false, [], ◌∷◌, codes};
ghost use Rattle.ref_paths.specs.Path.{Index};
ghost use Rattle.ref_draft.specs.declared.draft.Draft.TheVariants.{Draft4, Draft6, Draft7, Draft201909, Draft202012, Unknown};
ghost use Rattle.ref_draft.specs.Scan.{is_value_keyword, is_child_keyword, AnIndex, AValue, AChild, parts_of, spelled_path, IsPieceOf, IsWord, SpellsWord, PassesItems, IsAccepted, AcceptsChildren};
ghost use Rattle.ref_draft.specs.ScanSteps.{scan, scan_past};
ghost use Rattle.ref_draft.specs.Beginnings.{is_array, IsMapOfSchemas, EndsWithin, AllEndWithin};
ghost use Rattle.ref_draft.specs.Rows.{empty, yes, one, list, key};

/// Which parts are accepted at a value.
pub fn accepted_parts()
    ensures child_keyword_alone { ¬ (IsAccepted Draft202012 (key "properties" ∷ []) empty) }
    ensures child_keyword { IsAccepted Draft202012 (key "properties" ∷ key "x" ∷ []) empty }
    ensures element { IsAccepted Draft202012 (key "allOf" ∷ Index 0 ∷ []) yes }
    ensures index_first { IsAccepted Draft202012 (Index 3 ∷ key "not" ∷ []) empty }
    ensures no_keyword { ¬ (IsAccepted Draft202012 (key "const" ∷ []) empty) }
    ensures below_items { IsAccepted Draft7 (key "items" ∷ key "const" ∷ []) empty }
    ensures below_items_at_no_object { ¬ (IsAccepted Draft7 (key "items" ∷ key "const" ∷ []) yes) }
    ensures value_keyword { IsAccepted Draft6
        (key "properties" ∷ key "items" ∷ key "not" ∷ []) yes }
    ensures dependencies { IsAccepted Draft201909
        (key "$defs" ∷ key "a" ∷ key "dependencies" ∷ []) empty }
    ensures defs_in_4 { IsAccepted Draft4 (key "$defs" ∷ key "a" ∷ []) empty }
    ensures prefix_items_in_4 { IsAccepted Draft4 (key "prefixItems" ∷ Index 0 ∷ []) empty }
    ensures boolean_or_schema_in_4 { IsAccepted Draft4 (key "additionalItems" ∷ []) empty }
    ensures const_in_4 { ¬ (IsAccepted Draft4 (key "const" ∷ []) empty) }
    ensures defs_in_6 { ¬ (IsAccepted Draft6 (key "$defs" ∷ key "a" ∷ []) empty) }
{}

/// The two ways in which parts are accepted.
pub fn words_and_items()
    ensures no_parts { SpellsWord Draft202012 [] }
    ensures a_word { SpellsWord Draft202012 (key "$defs" ∷ key "const" ∷ key "not" ∷ Index 0 ∷ []) }
    ensures no_word { ¬ (SpellsWord Draft7 (key "items" ∷ [])) }
    ensures after_items { PassesItems Draft7 (key "items" ∷ Index 0 ∷ []) empty }
    ensures after_a_word { PassesItems Draft201909
        (key "not" ∷ key "dependencies" ∷ key "const" ∷ []) empty }
    ensures not_since_2020 { ¬ (PassesItems Draft202012 (key "items" ∷ []) empty) }
    ensures no_object { ¬ (PassesItems Draft7 (key "items" ∷ []) yes) }
    ensures accepted_children { AcceptsChildren Draft202012 []
        (((key "not" ∷ []), empty) ∷ ((key "$defs" ∷ key "a" ∷ []), yes) ∷ []) }
    ensures no_children { AcceptsChildren Draft202012 (key "const" ∷ []) [] }
{}

/// The keywords that the scan reads.
pub fn keywords_of_the_scan()
    ensures value_keyword { is_value_keyword Draft202012 (codes "items") ≡ true }
    ensures contains_in_4 { is_value_keyword Draft4 (codes "contains") ≡ true }
    ensures const_in_4 { is_value_keyword Draft4 (codes "const") ≡ false }
    ensures defs_in_4 { is_child_keyword Draft4 (codes "$defs") ≡ true }
    ensures elements_keyword { is_child_keyword Draft7 (codes "oneOf") ≡ true }
    ensures members_keyword { is_child_keyword Draft4 (codes "definitions") ≡ true }
    ensures no_child_keyword { is_child_keyword Draft7 (codes "$defs") ≡ false }
{}

/// What is between a schema and its child.
pub fn beginnings_of_paths()
    ensures an_array { is_array (list yes) ≡ true }
    ensures no_array { is_array empty ≡ false }
    ensures a_map { IsMapOfSchemas Draft7 (codes "properties") empty }
    ensures no_map { ¬ (IsMapOfSchemas Draft7 (codes "const") empty) }
    ensures no_object { ¬ (IsMapOfSchemas Draft7 (codes "properties") yes) }
    ensures in_an_array { EndsWithin Draft7 [] (one "allOf" (list yes)) (key "allOf" ∷ []) }
    ensures in_a_map { EndsWithin Draft202012 (key "not" ∷ []) (one "properties" (one "x" yes))
        (key "properties" ∷ []) }
    ensures nowhere { ¬ (EndsWithin Draft7 [] empty (key "allOf" ∷ [])) }
    ensures all { AllEndWithin Draft7 [] (one "not" yes) ((key "not" ∷ [], yes) ∷ []) }
{}

/// The pieces of words.
pub fn pieces_of_words()
    ensures of_an_index { parts_of (AnIndex 3) ≡ Index 3 ∷ [] }
    ensures of_a_value { parts_of (AValue (codes "not")) ≡ key "not" ∷ [] }
    ensures of_a_child { parts_of (AChild (codes "allOf") (Index 0)) ≡ key "allOf" ∷ Index 0 ∷ [] }
    ensures no_pieces { spelled_path [] ≡ [] }
    ensures two_pieces { spelled_path (AChild (codes "$defs") (key "a") ∷ AValue (codes "not") ∷ [])
        ≡ key "$defs" ∷ key "a" ∷ key "not" ∷ [] }
    ensures an_index { IsPieceOf Draft4 (AnIndex 3) }
    ensures a_value { IsPieceOf Draft7 (AValue (codes "if")) }
    ensures no_value { ¬ (IsPieceOf Draft6 (AValue (codes "if"))) }
    ensures a_child { IsPieceOf Draft201909 (AChild (codes "dependentSchemas") (Index 7)) }
    ensures no_child { ¬ (IsPieceOf Draft7 (AChild (codes "dependentSchemas") (Index 7))) }
    ensures a_word { IsWord Draft6 (AChild (codes "allOf") (Index 0) ∷ AValue (codes "not") ∷ []) }
    ensures no_word { ¬ (IsWord Draft6
        (AChild (codes "allOf") (Index 0) ∷ AValue (codes "if") ∷ [])) }
{}

/// The scan, part by part.
pub fn steps_of_the_scan()
    ensures no_parts { scan Draft4 false [] ≡ true }
    ensures accepted { scan Draft202012 false (key "properties" ∷ key "const" ∷ key "not" ∷ [])
        ≡ true }
    ensures refused { scan Draft202012 true (key "not" ∷ key "const" ∷ []) ≡ false }
    ensures past_nothing { scan_past Draft202012 true [] ≡ false }
    ensures past_a_part { scan_past Draft202012 true (key "const" ∷ key "not" ∷ []) ≡ true }
    ensures unknown_as_2020 { scan Unknown true (key "prefixItems" ∷ Index 0 ∷ []) ≡ true }
    ensures value_of_4 { scan Draft4 false (key "additionalItems" ∷ []) ≡ true }
    ensures defs_of_4 { scan Draft4 false (key "$defs" ∷ key "a" ∷ []) ≡ true }
    ensures items_of_7 { scan Draft7 true (key "items" ∷ key "const" ∷ []) ≡ true }
    ensures items_of_7_at_no_object { scan Draft7 false (key "items" ∷ key "const" ∷ []) ≡ false }
    ensures dependencies_of_2019 { scan Draft201909 true (key "not" ∷ key "dependencies" ∷ [])
        ≡ true }
    ensures dependencies_of_2020 { scan Draft202012 true (key "dependencies" ∷ key "a" ∷ [])
        ≡ false }
    ensures element_of_2019 { scan Draft201909 true (key "prefixItems" ∷ Index 0 ∷ []) ≡ false }
{}
