//! What contracts see of the crate's types.
ghost use Rattle.std.specs.Prelude.{◌≡◌, ℕ, List, All, true, [], ◌∷◌, codes, Some, None, String, string_bytes};
ghost use Rattle.std.specs.Borrow.{Bor};
ghost use Rattle.std.specs.Slice.Iter.{iter_rest};
ghost use Rattle.std.specs.Cow.{cow_str_bytes};
ghost use Rattle.std.specs.declared.borrow.CowStr.{CowStr};
ghost use Rattle.std.specs.declared.alloc.Global.{Global};
ghost use Rattle.serde_json.specs.Data.{Data, null, boolean, object, no_members, member};
ghost use Rattle.serde_json.specs.View.{view};
ghost use Rattle.serde_json.specs.declared.value.Value.{Value as Tree};
ghost use Rattle.serde_json.specs.declared.value.Value.TheVariants.{Null, Bool};
ghost use Rattle.ref_paths.specs.Path.{Part, Key, Index};
ghost use Rattle.ref_paths.specs.Segment.{part_of};
ghost use Rattle.ref_paths.specs.declared.path.JsonPointerSegment.TheVariants as pointer;
ghost use Rattle.ref_draft.specs.declared.draft.Draft.TheVariants.{Draft4, Draft7, Draft201909, Draft202012};
ghost use Rattle.ref_draft.specs.declared.resource.ResourceRef.{ResourceRef as Borrowed};
ghost use Rattle.ref_draft.specs.declared.anchor.Anchor.{Anchor as AnyAnchor};
ghost use Rattle.ref_draft.specs.declared.anchor.Anchor.TheVariants as anchor;
ghost use Rattle.ref_draft.specs.declared.anchor.AnchorIter.TheVariants as left;
ghost use Rattle.ref_draft.specs.declared.spec.children.ChildIterInner.TheVariants as inner;
ghost use Rattle.ref_draft.specs.declared.spec.Holding.TheVariants.{Whole, Members, ObjectMembers};
ghost use Rattle.ref_draft.specs.Anchors.{Plain, Dynamic};
ghost use Rattle.ref_draft.specs.Views.{tagged_value, resource, resource_ref, id_of, anchor_name, anchor_resource, AllName, anchors_left, segment_parts, walked_child, objects_of, inner_left, values_left};
ghost use Rattle.ref_draft.specs.inner.Added.{Adds};
ghost use Rattle.ref_draft.specs.inner.WalkSteps.{AreFoundIn, FindsMembers, FindsMembersWhere, members_in};
ghost use Rattle.ref_draft.specs.Rows.{empty, yes, text, one, two, list, key};

/// Resources and their identifiers.
pub fn views_of_resources()
    ensures owned { (value : Tree) → view value ≡ yes
        → resource (record { contents = value; draft = Draft7 }) ≡ tagged_value Draft7 yes }
    ensures owned_by_4 { (value : Tree) → view value ≡ empty
        → resource (record { contents = value; draft = Draft4 })
        ≡ record { contents = empty; draft = Draft4 } }
    ensures borrowed { (value : Bor Tree) → view value.now ≡ yes
        → resource_ref (record { contents = value; draft = Draft7 }) ≡ tagged_value Draft7 yes }
    ensures borrowed_by_4 { (value : Bor Tree) → view value.now ≡ empty
        → resource_ref (record { contents = value; draft = Draft4 })
        ≡ record { contents = empty; draft = Draft4 } }
    ensures identifier { id_of (tagged_value Draft202012 (one "$id" (text "k##")))
        ≡ Some (codes "k") }
    ensures hidden_identifier { id_of (tagged_value Draft7 (two "$id" (text "k") "$ref" yes))
        ≡ None }
{}

/// Anchors, and what an iterator over them has left.
pub fn views_of_anchors()
    ensures plain { (name : Bor (List ℕ)) (of : Borrowed)
        → anchor_name (anchor.Default name of) ≡ (name.now, Plain) }
    ensures dynamic { (name : Bor (List ℕ)) (of : Borrowed)
        → anchor_name (anchor.Dynamic name of) ≡ (name.now, Dynamic) }
    ensures named_by_a_plain { (name : Bor (List ℕ)) (of : Borrowed)
        → anchor_resource (anchor.Default name of) ≡ resource_ref of }
    ensures named_by_a_dynamic { (name : Bor (List ℕ)) (of : Borrowed)
        → anchor_resource (anchor.Dynamic name of) ≡ resource_ref of }
    ensures none_names { AllName (tagged_value Draft7 yes) [] }
    ensures one_names { (name : Bor (List ℕ)) (of : Borrowed)
        → resource_ref of ≡ tagged_value Draft7 yes
        → AllName (tagged_value Draft7 yes) (anchor.Default name of ∷ []) }
    ensures none_left { anchors_left left.Empty ≡ [] }
    ensures one_left { (a : AnyAnchor) → anchors_left (left.One a) ≡ a ∷ [] }
    ensures two_left { (a b : AnyAnchor) → anchors_left (left.Two a b) ≡ a ∷ b ∷ [] }
{}

/// Segments, and the children that the walk gives.
pub fn views_of_segments()
    ensures index { part_of (pointer.Index 3) ≡ Index 3 }
    ensures key { (text : CowStr Global) → part_of (pointer.Key text) ≡ Key (cow_str_bytes text) }
    ensures no_part { segment_parts None ≡ [] }
    ensures index_part { segment_parts (Some (pointer.Index 3)) ≡ Index 3 ∷ [] }
    ensures child { (keyword : Bor (List ℕ)) (value : Bor Tree) → keyword.now ≡ codes "allOf"
        → view value.now ≡ empty
        → walked_child
        (record {
          keyword = keyword;
          segment = Some (pointer.Index 0);
          value = value;
          draft = Draft7;
        })
        ≡ record { path = Key (codes "allOf") ∷ Index 0 ∷ []; value = empty; draft = Draft7 } }
    ensures child_of_a_value { (keyword : Bor (List ℕ)) (value : Bor Tree)
        → keyword.now ≡ codes "not" → view value.now ≡ yes
        → walked_child (record { keyword = keyword; segment = None; value = value; draft = Draft4 })
        ≡ record { path = Key (codes "not") ∷ []; value = yes; draft = Draft4 } }
    ensures none_added { Adds Draft7 [] [] [] }
    ensures one_added { (keyword : Bor (List ℕ)) (value : Bor Tree) → keyword.now ≡ codes "not"
        → view value.now ≡ yes
        → Adds Draft7 ((Key (codes "not") ∷ [], yes) ∷ []) []
        (record { keyword = keyword; segment = None; value = value; draft = Draft7 } ∷ []) }
{}

/// The values that iterators have left.
pub fn views_of_iterators()
    ensures objects { (value other : Tree) → view value ≡ yes → view other ≡ empty
        → objects_of (value ∷ other ∷ []) ≡ empty ∷ [] }
    ensures no_objects { objects_of [] ≡ [] }
    ensures nothing { inner_left inner.Empty ≡ [] }
    ensures once { (value : Bor Tree) → view value.now ≡ yes
        → inner_left (inner.Once value) ≡ yes ∷ [] }
    ensures of_members { (value other : Tree) → view value ≡ yes → view other ≡ empty
        → inner_left (inner.Object (value ∷ other ∷ [])) ≡ yes ∷ empty ∷ [] }
    ensures of_members_that_are_objects { (value other : Tree) → view value ≡ yes
        → view other ≡ empty → inner_left (inner.FilteredObject (value ∷ other ∷ [])) ≡ empty ∷ [] }
    ensures all { values_left (record { draft = Draft7; current = inner.Empty; members = None })
        ≡ [] }
    ensures members_to_come { (not : String Global) (value other : Tree)
        → string_bytes not ≡ codes "not" → view value ≡ yes → view other ≡ empty
        → values_left
        (record {
          draft = Draft7;
          current = inner.Object (value ∷ []);
          members = Some ((not, other) ∷ []);
        })
        ≡ yes ∷ empty ∷ [] }
{}

/// That an object has each key once.
pub fn keys_of_objects()
    ensures once { FindsMembers (two "a" yes "b" empty) }
    ensures twice { ¬ (FindsMembers (two "a" yes "a" empty)) }
    ensures once_where_members { FindsMembersWhere Members (two "a" yes "b" empty) }
    ensures twice_where_members { ¬ (FindsMembersWhere ObjectMembers (two "a" yes "a" empty)) }
    ensures twice_where_whole { FindsMembersWhere Whole (two "a" yes "a" empty) }
    ensures found { AreFoundIn (member (codes "a") yes no_members)
        (member (codes "a") yes no_members) }
    ensures not_found { ¬ (AreFoundIn no_members (member (codes "a") yes no_members)) }
    ensures members { members_in (one "a" yes) ≡ member (codes "a") yes no_members }
    ensures no_members { members_in (list yes) ≡ no_members }
{}
