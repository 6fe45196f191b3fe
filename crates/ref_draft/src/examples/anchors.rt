//! The anchors of a value (2020-12 Core, 8.2.2; 2019-09 Core, 8.2.3; Draft 7 Core, 8.2.3).
ghost use Rattle.std.specs.Prelude.{◌≡◌, [], ◌∷◌, codes, Some, None};
ghost use Rattle.ref_draft.specs.declared.draft.Draft.TheVariants.{Draft4, Draft6, Draft7, Draft201909, Draft202012, Unknown};
ghost use Rattle.ref_draft.specs.Anchors.{Plain, Dynamic, after_hash, in_identifier, named_by, plain_and_dynamic, anchors};
ghost use Rattle.ref_draft.specs.Rows.{empty, yes, text, one, two};

/// The anchors in each draft.
pub fn anchors_of_drafts()
    ensures in_7_beside_a_reference { anchors Draft7 (two "$id" (text "#f") "$ref" (text "x"))
        ≡ (codes "f", Plain) ∷ [] }
    ensures in_4 { anchors Draft4 (one "id" (text "#f")) ≡ (codes "f", Plain) ∷ [] }
    ensures not_in_6 { anchors Draft6 (two "$anchor" (text "a") "id" (text "#f")) ≡ [] }
    ensures in_2019 { anchors Draft201909 (two "$anchor" (text "a") "$dynamicAnchor" (text "b"))
        ≡ (codes "a", Plain) ∷ [] }
    ensures in_2020 { anchors Draft202012 (two "$anchor" (text "a") "$dynamicAnchor" (text "b"))
        ≡ (codes "a", Plain) ∷ (codes "b", Dynamic) ∷ [] }
    ensures in_unknown { anchors Unknown (one "$dynamicAnchor" (text "b"))
        ≡ (codes "b", Dynamic) ∷ [] }
    ensures no_text { anchors Draft202012 (two "$anchor" yes "$id" (text "#f")) ≡ [] }
{}

/// Where anchors are.
pub fn anchors_of_keywords()
    ensures after_a_hash { after_hash (codes "#f#") ≡ Some (codes "f#") }
    ensures after_a_hash_alone { after_hash (codes "#") ≡ Some [] }
    ensures after_no_hash { after_hash (codes "f#") ≡ None }
    ensures identifier_of_4 { in_identifier Draft4 (two "$id" (text "#g") "id" (text "#f"))
        ≡ (codes "f", Plain) ∷ [] }
    ensures no_anchor_in_an_identifier { in_identifier Draft7 (one "$id" (text "f")) ≡ [] }
    ensures plain { named_by (codes "$anchor") Plain (one "$anchor" (text "a"))
        ≡ (codes "a", Plain) ∷ [] }
    ensures dynamic { named_by (codes "$dynamicAnchor") Dynamic (one "$dynamicAnchor" (text "b"))
        ≡ (codes "b", Dynamic) ∷ [] }
    ensures none { named_by (codes "$anchor") Plain empty ≡ [] }
    ensures plain_first { plain_and_dynamic (two "$anchor" (text "n") "$dynamicAnchor" (text "n"))
        ≡ (codes "n", Plain) ∷ (codes "n", Dynamic) ∷ [] }
    ensures dynamic_alone { plain_and_dynamic (one "$dynamicAnchor" (text "b"))
        ≡ (codes "b", Dynamic) ∷ [] }
{}
