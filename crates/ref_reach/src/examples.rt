//! Rows of what is reached.
ghost use Rattle.std.specs.Prelude.{◌≡◌, [], ◌∷◌};
ghost use Rattle.ref_reach.specs.Reached.{AreReached, leads, next, findings_from, count_references};
ghost use Rattle.serde_json.specs.Data.{null};
ghost use Rattle.ref_draft.specs.declared.draft.Draft.TheVariants.{Draft4};
ghost use Rattle.ref_draft.specs.Rows.{text, one};
ghost use Rattle.ref_reach.specs.Held.{part_tree};
ghost use Rattle.ref_reach.specs.Schemas.{schema_reading};
ghost use Rattle.ref_reach.specs.Rows.{begins, comes, ring, identified};

/// Where a reference leads to a place whose own reference leads back to it, that place is reached, once, and nothing else is.
pub fn a_ring_is_reached()
    ensures leads { leads ring begins ≡ comes ∷ [] }
    ensures next { next ring comes ≡ comes ∷ [] }
    ensures reached { AreReached ring (comes ∷ []) }
    ensures not_nothing { AreReached ring [] → ⊥ }
    ensures not_twice { AreReached ring (comes ∷ comes ∷ []) → ⊥ }
    ensures not_the_beginning { AreReached ring (comes ∷ begins ∷ []) → ⊥ }
    ensures nothing_wrong { findings_from ring 0 (begins ∷ comes ∷ []) ≡ [] }
    ensures two_references { count_references (begins ∷ comes ∷ []) ≡ 2 }
{}

/// An identifier is resolved once: what is looked up under the URI of a part has none in its place, and keeps all else. The keyword is that of the draft.
pub fn an_identifier_is_resolved_once()
    ensures taken { part_tree identified ≡ one "$id" null }
    ensures of_another_draft { part_tree (record identified { reading = schema_reading Draft4 })
        ≡ one "$id" (text "sub/h") }
    ensures no_identifier { part_tree begins ≡ begins.value }
{}
