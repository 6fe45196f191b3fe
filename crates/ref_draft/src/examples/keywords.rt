//! The tables of the drafts.
ghost use Rattle.std.specs.Prelude.{◌≡◌, true, false, [], ◌∷◌, codes, length};
ghost use Rattle.ref_draft.specs.declared.draft.Draft.TheVariants.{Draft4, Draft6, Draft7, Draft201909, Draft202012, Unknown};
ghost use Rattle.ref_draft.specs.declared.spec.Holding.TheVariants.{Whole, WholeObject, Elements, Members, ElementsOrWhole, ObjectMembers, Nothing};
ghost use Rattle.ref_draft.specs.Keywords.{is_one_of, row_4, row_6, row_7, row_2019, row_2020, row, is_before_2019, is_before_2020, is_unknown, is_items_or_dependencies, boolean_or_schema, holding_of, is_map_keyword, is_left_out, id_keyword, known_in_all, known_in_4, known_since_6, known_since_7, known_since_2019, known_since_2020, is_known_in_2019, is_known};
ghost use Rattle.ref_draft.specs.Order.{rank};

/// The keywords under which schemas are, draft by draft.
pub fn rows_of_drafts()
    ensures one_of { is_one_of (codes "not") (codes "if" ∷ codes "not" ∷ []) ≡ true }
    ensures none_of { is_one_of (codes "Not") (codes "if" ∷ codes "not" ∷ []) ≡ false }
    ensures values_of_4 { length row_4.values ≡ 11 }
    ensures arrays_of_4 { row_4.arrays
        ≡ codes "allOf" ∷ codes "anyOf" ∷ codes "oneOf" ∷ codes "prefixItems" ∷ [] }
    ensures maps_of_4 { length row_4.maps ≡ 5 }
    ensures values_of_6 { row_6.values
        ≡ codes "additionalItems" ∷ codes "additionalProperties" ∷ codes "contains" ∷ codes "not"
        ∷ codes "propertyNames" ∷ [] }
    ensures arrays_of_6 { row_6.arrays ≡ codes "allOf" ∷ codes "anyOf" ∷ codes "oneOf" ∷ [] }
    ensures maps_of_6 { row_6.maps
        ≡ codes "definitions" ∷ codes "patternProperties" ∷ codes "properties" ∷ [] }
    ensures values_of_7 { row_7.values
        ≡ codes "additionalItems" ∷ codes "additionalProperties" ∷ codes "contains" ∷ codes "else"
        ∷ codes "if" ∷ codes "not" ∷ codes "propertyNames" ∷ codes "then" ∷ [] }
    ensures arrays_of_7 { row_7.arrays ≡ row_6.arrays }
    ensures maps_of_7 { row_7.maps ≡ row_6.maps }
    ensures values_of_2019 { row_2019.values ≡ row_4.values }
    ensures arrays_of_2019 { row_2019.arrays ≡ row_6.arrays }
    ensures maps_of_2019 { row_2019.maps
        ≡ codes "$defs" ∷ codes "definitions" ∷ codes "dependentSchemas" ∷ codes "patternProperties"
        ∷ codes "properties" ∷ [] }
    ensures items_in_2020 { is_one_of (codes "items") row_2020.values ≡ true }
    ensures no_additional_items_in_2020 { is_one_of (codes "additionalItems") row_2020.values
        ≡ false }
    ensures values_of_2020 { length row_2020.values ≡ 11 }
    ensures arrays_of_2020 { row_2020.arrays ≡ row_4.arrays }
    ensures maps_of_2020 { row_2020.maps ≡ row_2019.maps }
    ensures row_of_unknown { row Unknown ≡ row_2020 }
    ensures row_of_6 { row Draft6 ≡ row_6 }
{}

/// How keywords hold schemas.
pub fn holdings_of_keywords()
    ensures boolean_or_schema_in_4 { holding_of Draft4 (codes "additionalItems") ≡ WholeObject }
    ensures value { holding_of Draft6 (codes "additionalItems") ≡ Whole }
    ensures elements { holding_of Draft202012 (codes "prefixItems") ≡ Elements }
    ensures no_elements { holding_of Draft201909 (codes "prefixItems") ≡ Nothing }
    ensures members { holding_of Draft201909 (codes "$defs") ≡ Members }
    ensures items_before_2020 { holding_of Draft201909 (codes "items") ≡ ElementsOrWhole }
    ensures items_since_2020 { holding_of Unknown (codes "items") ≡ Whole }
    ensures dependencies_before_2020 { holding_of Draft4 (codes "dependencies") ≡ ObjectMembers }
    ensures dependencies_since_2020 { holding_of Draft202012 (codes "dependencies") ≡ Nothing }
    ensures no_keyword { holding_of Draft7 (codes "const") ≡ Nothing }
    ensures if_since_7 { holding_of Draft6 (codes "if") ≡ Nothing }
    ensures booleans_of_4 { boolean_or_schema Draft4
        ≡ codes "additionalItems" ∷ codes "additionalProperties" ∷ [] }
    ensures booleans_of_6 { boolean_or_schema Draft6 ≡ [] }
    ensures items { is_items_or_dependencies (codes "items") ≡ true }
    ensures dependencies { is_items_or_dependencies (codes "dependencies") ≡ true }
    ensures another { is_items_or_dependencies (codes "dependentSchemas") ≡ false }
    ensures map_of_schemas { is_map_keyword Draft7 (codes "properties") ≡ true }
    ensures dependencies_as_a_map { is_map_keyword Draft7 (codes "dependencies") ≡ true }
    ensures no_map_since_2020 { is_map_keyword Draft202012 (codes "dependencies") ≡ false }
    ensures no_map_of_schemas { is_map_keyword Draft7 (codes "$defs") ≡ false }
    ensures left_out { is_left_out Draft201909 (codes "dependencies") ≡ true }
    ensures not_left_out { is_left_out Draft201909 (codes "dependentSchemas") ≡ false }
    ensures not_left_out_in_7 { is_left_out Draft7 (codes "dependencies") ≡ false }
{}

/// What changed with 2019-09 and with 2020-12, and the order of the drafts.
pub fn ages_of_drafts()
    ensures before_2020 { is_before_2020 Draft201909 ≡ true }
    ensures not_before_2020 { is_before_2020 Draft202012 ≡ false }
    ensures unknown_not_before_2020 { is_before_2020 Unknown ≡ false }
    ensures before_2019 { is_before_2019 Draft7 ≡ true }
    ensures not_before_2019 { is_before_2019 Draft201909 ≡ false }
    ensures unknown_draft { is_unknown Unknown ≡ true }
    ensures known_draft { is_unknown Draft4 ≡ false }
    ensures newest_draft { is_unknown Draft202012 ≡ false }
    ensures identifier_of_4 { id_keyword Draft4 ≡ codes "id" }
    ensures identifier_of_6 { id_keyword Draft6 ≡ codes "$id" }
    ensures first { rank Draft4 ≡ 0 }
    ensures last { rank Unknown ≡ 5 }
{}

/// The keywords that the drafts know.
pub fn known_keywords()
    ensures id_in_4 { is_known Draft4 (codes "id") ≡ true }
    ensures id_in_6 { is_known Draft6 (codes "id") ≡ false }
    ensures content_encoding_in_6 { is_known Draft6 (codes "contentEncoding") ≡ true }
    ensures if_in_6 { is_known Draft6 (codes "if") ≡ false }
    ensures prefix_items_in_7 { is_known Draft7 (codes "prefixItems") ≡ false }
    ensures prefix_items_in_2019 { is_known Draft201909 (codes "prefixItems") ≡ false }
    ensures anchor_in_2019 { is_known Draft201909 (codes "$anchor") ≡ true }
    ensures prefix_items_in_2020 { is_known Draft202012 (codes "prefixItems") ≡ true }
    ensures dynamic_ref_in_unknown { is_known Unknown (codes "$dynamicRef") ≡ true }
    ensures thirty_in_all { length known_in_all ≡ 30 }
    ensures type_in_all { is_one_of (codes "type") known_in_all ≡ true }
    ensures const_in_all { is_one_of (codes "const") known_in_all ≡ false }
    ensures in_4_alone { known_in_4 ≡ codes "id" ∷ [] }
    ensures dollar_id_in_4_alone { is_one_of (codes "$id") known_in_4 ≡ false }
    ensures six_since_6 { length known_since_6 ≡ 6 }
    ensures const_since_6 { is_one_of (codes "const") known_since_6 ≡ true }
    ensures since_7 { known_since_7 ≡ codes "else" ∷ codes "if" ∷ codes "then" ∷ [] }
    ensures const_since_7 { is_one_of (codes "const") known_since_7 ≡ false }
    ensures eleven_since_2019 { length known_since_2019 ≡ 11 }
    ensures max_contains_since_2019 { is_one_of (codes "maxContains") known_since_2019 ≡ true }
    ensures since_2020 { known_since_2020
        ≡ codes "$dynamicAnchor" ∷ codes "$dynamicRef" ∷ codes "prefixItems" ∷ [] }
    ensures recursive_ref_since_2020 { is_one_of (codes "$recursiveRef") known_since_2020 ≡ false }
    ensures if_known_in_2019 { is_known_in_2019 (codes "if") ≡ true }
    ensures id_known_in_2019 { is_known_in_2019 (codes "id") ≡ false }
{}
