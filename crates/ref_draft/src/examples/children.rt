//! The subschemas of a schema.
ghost use Rattle.std.specs.Prelude.{◌≡◌, true, false, [], ◌∷◌, codes};
ghost use Rattle.serde_json.specs.Data.{object, no_items, item, no_members, member};
ghost use Rattle.ref_paths.specs.Path.{Index};
ghost use Rattle.ref_draft.specs.declared.draft.Draft.TheVariants.{Draft4, Draft6, Draft7, Draft201909, Draft202012, Unknown};
ghost use Rattle.ref_draft.specs.declared.spec.Holding.TheVariants.{Whole, WholeObject, Elements, Members, ElementsOrWhole, ObjectMembers, Nothing};
ghost use Rattle.ref_draft.specs.Children.{AllAreThere, whole_child, elements_from, each_member, elements, members, is_object, has_object, held_children, children_below, children, keys_of, InKeyOrder, with_draft, walked_children, keyword_of, is_given, subresources};
ghost use Rattle.ref_draft.specs.UniqueKeys.{KeysDiffer, HasUniqueKeys, ItemsHaveUniqueKeys, MembersHaveUniqueKeys};
ghost use Rattle.ref_draft.specs.Rows.{empty, yes, text, one, two, list, pair, key, schema, paths, dependent_schema};

/// The children of one schema in each draft.
pub fn children_of_drafts()
    ensures of_4 { paths Draft4
        ≡ (key "$defs" ∷ key "a" ∷ []) ∷ (key "contains" ∷ []) ∷ (key "dependencies" ∷ key "b" ∷ [])
        ∷ (key "if" ∷ []) ∷ (key "items" ∷ Index 0 ∷ []) ∷ (key "prefixItems" ∷ Index 0 ∷ [])
        ∷ (key "properties" ∷ key "d" ∷ []) ∷ [] }
    ensures of_6 { paths Draft6
        ≡ (key "additionalItems" ∷ []) ∷ (key "contains" ∷ []) ∷ (key "dependencies" ∷ key "b" ∷ [])
        ∷ (key "items" ∷ Index 0 ∷ []) ∷ (key "properties" ∷ key "d" ∷ []) ∷ [] }
    ensures of_7 { paths Draft7
        ≡ (key "additionalItems" ∷ []) ∷ (key "contains" ∷ []) ∷ (key "dependencies" ∷ key "b" ∷ [])
        ∷ (key "if" ∷ []) ∷ (key "items" ∷ Index 0 ∷ []) ∷ (key "properties" ∷ key "d" ∷ [])
        ∷ [] }
    ensures of_2019 { paths Draft201909
        ≡ (key "$defs" ∷ key "a" ∷ []) ∷ (key "additionalItems" ∷ []) ∷ (key "contains" ∷ [])
        ∷ (key "dependencies" ∷ key "b" ∷ []) ∷ (key "if" ∷ []) ∷ (key "items" ∷ Index 0 ∷ [])
        ∷ (key "properties" ∷ key "d" ∷ []) ∷ [] }
    ensures of_2020 { paths Draft202012
        ≡ (key "$defs" ∷ key "a" ∷ []) ∷ (key "contains" ∷ []) ∷ (key "if" ∷ [])
        ∷ (key "items" ∷ []) ∷ (key "prefixItems" ∷ Index 0 ∷ [])
        ∷ (key "properties" ∷ key "d" ∷ []) ∷ [] }
    ensures of_unknown { paths Unknown ≡ paths Draft202012 }
    ensures with_values { children Draft201909 dependent_schema
        ≡ ((key "dependencies" ∷ key "a" ∷ []), empty) ∷ ((key "items" ∷ Index 0 ∷ []), yes)
        ∷ ((key "items" ∷ Index 1 ∷ []), empty) ∷ [] }
    ensures of_no_object { children Draft202012 (list (one "not" yes)) ≡ [] }
    ensures of_members { children_below Draft202012
        (member (codes "const") empty (member (codes "not") yes no_members))
        ≡ ((key "not" ∷ []), yes) ∷ [] }
    ensures of_no_members { children_below Draft202012 no_members ≡ [] }
    ensures keys { keys_of (member (codes "b") yes (member (codes "a") yes no_members))
        ≡ codes "b" ∷ codes "a" ∷ [] }
    ensures in_order { InKeyOrder (two "B" yes "a" yes) }
    ensures out_of_order { ¬ (InKeyOrder (two "a" yes "B" yes)) }
    ensures one_key_twice { ¬ (InKeyOrder (two "a" yes "a" yes)) }
    ensures no_object { InKeyOrder yes }
{}

/// What `subresources_of` gives beside the children.
pub fn subresources_of_drafts()
    ensures of_2019 { subresources Draft201909 dependent_schema ≡ yes ∷ empty ∷ [] }
    ensures of_7 { subresources Draft7 dependent_schema ≡ empty ∷ yes ∷ empty ∷ [] }
    ensures of_2020 { subresources Draft202012 dependent_schema ≡ pair yes empty ∷ [] }
    ensures of_4 { subresources Draft4 (two "additionalItems" yes "additionalProperties" empty)
        ≡ empty ∷ [] }
    ensures of_no_object { subresources Draft7 (list empty) ≡ [] }
    ensures given { is_given Draft201909 ((key "items" ∷ Index 0 ∷ []), yes) ≡ true }
    ensures not_given { is_given Draft201909 ((key "dependencies" ∷ key "a" ∷ []), empty) ≡ false }
    ensures keyword { keyword_of (key "items" ∷ Index 0 ∷ []) ≡ codes "items" }
    ensures no_keyword { keyword_of (Index 0 ∷ []) ≡ [] }
{}

/// How each form of keyword holds its children.
pub fn children_of_keywords()
    ensures value { held_children Whole (codes "not") yes ≡ ((key "not" ∷ []), yes) ∷ [] }
    ensures boolean_in_place_of_an_object { held_children WholeObject (codes "additionalItems") yes
        ≡ [] }
    ensures an_object { held_children WholeObject (codes "additionalItems") empty
        ≡ ((key "additionalItems" ∷ []), empty) ∷ [] }
    ensures each_element { held_children Elements (codes "allOf") (pair yes empty)
        ≡ ((key "allOf" ∷ Index 0 ∷ []), yes) ∷ ((key "allOf" ∷ Index 1 ∷ []), empty) ∷ [] }
    ensures no_array { held_children Elements (codes "allOf") (one "a" yes) ≡ [] }
    ensures every_member { held_children Members (codes "$defs") (one "a" yes)
        ≡ ((key "$defs" ∷ key "a" ∷ []), yes) ∷ [] }
    ensures no_object { held_children Members (codes "$defs") (list yes) ≡ [] }
    ensures elements_of_items { held_children ElementsOrWhole (codes "items") (list yes)
        ≡ ((key "items" ∷ Index 0 ∷ []), yes) ∷ [] }
    ensures value_of_items { held_children ElementsOrWhole (codes "items") (one "a" yes)
        ≡ ((key "items" ∷ []), one "a" yes) ∷ [] }
    ensures objects_of_dependencies { held_children ObjectMembers (codes "dependencies")
        (two "a" empty "b" (list (text "c")))
        ≡ ((key "dependencies" ∷ key "a" ∷ []), empty) ∷ [] }
    ensures nothing { held_children Nothing (codes "const") empty ≡ [] }
{}

/// Elements and members one by one.
pub fn elements_and_members()
    ensures whole_value { whole_child (codes "not") empty ≡ ((key "not" ∷ []), empty) ∷ [] }
    ensures whole_array { whole_child (codes "allOf") (list yes)
        ≡ ((key "allOf" ∷ []), list yes) ∷ [] }
    ensures counted_on { elements_from (codes "allOf") 3 (item yes (item empty no_items))
        ≡ ((key "allOf" ∷ Index 3 ∷ []), yes) ∷ ((key "allOf" ∷ Index 4 ∷ []), empty) ∷ [] }
    ensures no_elements { elements_from (codes "allOf") 0 no_items ≡ [] }
    ensures by_keys { each_member (codes "$defs")
        (member (codes "a") yes (member (codes "b") empty no_members))
        ≡ ((key "$defs" ∷ key "a" ∷ []), yes) ∷ ((key "$defs" ∷ key "b" ∷ []), empty) ∷ [] }
    ensures no_members { each_member (codes "$defs") no_members ≡ [] }
    ensures elements_of_an_array { elements (codes "allOf") (list yes)
        ≡ ((key "allOf" ∷ Index 0 ∷ []), yes) ∷ [] }
    ensures elements_of_no_array { elements (codes "allOf") empty ≡ [] }
    ensures members_of_an_object { members (codes "properties") (one "a" yes)
        ≡ ((key "properties" ∷ key "a" ∷ []), yes) ∷ [] }
    ensures members_of_no_object { members (codes "properties") yes ≡ [] }
    ensures object { is_object empty ≡ true }
    ensures array { is_object (list empty) ≡ false }
    ensures with_object { has_object ((key "not" ∷ []), empty) ≡ true }
    ensures with_boolean { has_object ((key "not" ∷ []), yes) ≡ false }
{}

/// Trees whose objects have each key once.
pub fn trees_with_unique_keys()
    ensures once { HasUniqueKeys (two "a" yes "b" (list (one "a" empty))) }
    ensures twice { ¬ (HasUniqueKeys (two "a" yes "a" yes)) }
    ensures twice_in_an_element { ¬ (HasUniqueKeys (list (two "a" yes "a" empty))) }
    ensures twice_in_a_member { ¬ (HasUniqueKeys (one "b" (two "a" yes "a" empty))) }
    ensures keys { KeysDiffer (member (codes "a") yes (member (codes "A") yes no_members)) }
    ensures equal_keys { ¬ (KeysDiffer
        (member (codes "a") yes (member (codes "b") yes (member (codes "a") yes no_members)))) }
    ensures elements { ItemsHaveUniqueKeys (item yes (item (one "a" yes) no_items)) }
    ensures members_apart { MembersHaveUniqueKeys
        (member (codes "a") yes (member (codes "a") empty no_members)) }
{}

/// The children with their drafts, at their paths.
pub fn drafts_and_places_of_children()
    ensures draft_of_a_child { with_draft Draft7
        ((key "not" ∷ []), schema "http://json-schema.org/draft-04/schema#")
        ≡ record {
          path = key "not"
              ∷ [];
          value = schema "http://json-schema.org/draft-04/schema#";
          draft = Draft4;
        } }
    ensures draft_of_its_parent { with_draft Draft7 ((key "not" ∷ []), yes)
        ≡ record { path = key "not" ∷ []; value = yes; draft = Draft7 } }
    ensures in_order { walked_children Draft202012 (two "if" yes "then" (schema "invalid"))
        ≡ record { path = key "if" ∷ []; value = yes; draft = Draft202012 }
        ∷ record { path = key "then" ∷ []; value = schema "invalid"; draft = Unknown } ∷ [] }
    ensures none { walked_children Draft202012 yes ≡ [] }
    ensures are_at_paths { AllAreThere (one "not" yes) (walked_children Draft202012 (one "not" yes)) }
    ensures are_elsewhere { ¬ (AllAreThere empty (walked_children Draft202012 (one "not" yes))) }
{}
