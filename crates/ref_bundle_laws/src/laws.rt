//! Laws of the definitions. Each function is empty: its contract states the law, and the check proves it.
ghost use Rattle.std.specs.Prelude.{◌≡◌, [], ◌∷◌, codes, true, None};
ghost use Rattle.ref_definitions.specs.Fault.{PointerToNowhere};
ghost use Rattle.ref_definitions.specs.Rows.{yes, text, empty, one, two};
ghost use Rattle.ref_bundle_laws.specs.Rows.{new, refers_to, refers_to_s, with_definition, listed_as};
ghost use Rattle.ref_bundle_laws.specs.KeptRows.{value, fault, both, alike};
ghost use Rattle.ref_bundle_laws.specs.Kept.{IsBundle, HaveMergedPlaces, HaveNoFault, HaveNoOpenWant};
ghost use Rattle.ref_bundle_laws.specs.Kept.{KeepsReferences, KeepsFurtherReferences, EmbedWhatIsNeeded, AreReadAsTheirRoots};

/// The places of a bundle are those of the root and of each embedded document, merged, each document's in their order. The
/// roots have what was added. The paths of the other places of an embedded document go on from that of its root; their values,
/// drafts and bases are as they were.
pub fn places_of_a_bundle()
    ensures law { HaveMergedPlaces }
{}

/// A bundle, alone over the same parents, is prepared: it has no fault and no open want.
pub fn bundles_are_prepared()
    ensures faults { HaveNoFault }
    ensures wants { HaveNoOpenWant }
{}

/// A bundle keeps every reference. For each place of a document that it needs, each text under its `$ref` or `$dynamicRef`,
/// and each scope of URIs that needed places have and no root's identifier replaces: the look-up in the bundle from the
/// place's base returns what it returned among the documents, with the same draft, base and scope, or the same fault. The
/// value is the same, but that an embedded document as a whole, by its base URI, has its identifier and its `$schema`, and
/// the root as a whole, by its URIs, the embedded documents. A pointer from the root to exactly its definitions returns all
/// of them, those that were added too; where there were none, it was a fault. The same holds of a further place of a document
/// that it needs, whose base is a URI that needed places have, or that no place has.
pub fn bundles_keep_references()
    ensures law { KeepsReferences }
    ensures further { KeepsFurtherReferences }
{}

/// A bundle embeds exactly what is needed: each document once, in the order of documents. A document that needs none is its own
/// bundle.
pub fn bundles_embed_what_is_needed()
    ensures law { EmbedWhatIsNeeded }
{}

/// A reader reads a bundle by the draft by which it reads the root: that of the root's `$schema`, or its own where the root has
/// none. So the other laws, which speak of the root's draft, hold for each reader where the root's `$schema` names that draft, and
/// else for a reader that is told it.
pub fn bundles_are_read_as_their_roots()
    ensures law { AreReadAsTheirRoots }
{}

/// A bundle of two documents, and look-ups in bundles, beside those among the documents: below an embedded root and of it as
/// a whole, by an anchor below a relative identifier, by a dynamic anchor, of the root's definitions, of definitions that it
/// didn't have, also as they are escaped in a URI, of nothing in them, of an identifier that stays, and of nothing.
pub fn look_ups_in_bundles()
    ensures a_bundle { IsBundle (refers_to_s ∷ new "http://a/s" empty ∷ []) [] [] 0 refers_to_s
        (record {
          value = with_definition "http://a/s" (one "$id" (text "http://a/s"));
          embedded = listed_as 1 "http://a/s" true None ∷ [];
        }) }
    ensures below_a_root { both refers_to_s
        (new "http://a/s" (one "not" yes) ∷ []) "http://a/r" "s#/not"
        ≡ alike "http://a/s" yes }
    ensures a_whole_document { both refers_to_s
        (new "http://a/s" (one "type" (text "x")) ∷ []) "http://a/r" "s"
        ≡ (
          value (two "$id" (text "http://a/s") "type" (text "x")) (codes "http://a/s"),
          value (one "type" (text "x")) (codes "http://a/s"),
        ) }
    ensures relative_identifier { both (new "http://a/r" (one "$ref" (text "k/s")))
        (new "http://a/q" (two "$id" (text "k/s") "not" (one "$anchor" (text "n"))) ∷ [])
        "http://a/r" "k/s#n"
        ≡ alike "http://a/k/s" (one "$anchor" (text "n")) }
    ensures dynamic_anchor { both refers_to_s
        (new "http://a/s" (one "not" (one "$dynamicAnchor" (text "n"))) ∷ [])
        "http://a/s" "#n"
        ≡ alike "http://a/s" (one "$dynamicAnchor" (text "n")) }
    ensures the_definitions { both (new "http://a/r" (with_definition "z" yes))
        (new "http://a/s" empty ∷ [])
        "http://a/r" "#/$defs"
        ≡ (
          value (two "http://a/s" (one "$id" (text "http://a/s")) "z" yes) (codes "http://a/r"),
          value (one "z" yes) (codes "http://a/r"),
        ) }
    ensures new_definitions { both refers_to_s (new "http://a/s" empty ∷ []) "http://a/r" "#/$defs"
        ≡ (
          value (one "http://a/s" (one "$id" (text "http://a/s"))) (codes "http://a/r"),
          fault (PointerToNowhere (codes "/$defs")),
        ) }
    ensures escaped_definitions { both refers_to_s (new "http://a/s" empty ∷ [])
        "http://a/r" "#/%24defs"
        ≡ (
          value (one "http://a/s" (one "$id" (text "http://a/s"))) (codes "http://a/r"),
          fault (PointerToNowhere (codes "/%24defs")),
        ) }
    ensures nothing_in_definitions { both refers_to_s
        (new "http://a/s" empty ∷ []) "http://a/s" "r#/$defs/z"
        ≡ (
          fault (PointerToNowhere (codes "/$defs/z")),
          fault (PointerToNowhere (codes "/$defs/z")),
        ) }
    ensures the_same_identifier { both (refers_to "s#/$id")
        (new "http://a/s" (one "$id" (text "http://a/s")) ∷ []) "http://a/r" "s#/$id"
        ≡ alike "http://a/s" (text "http://a/s") }
    ensures nowhere { both refers_to_s (new "http://a/s" empty ∷ []) "http://a/s" "#/not"
        ≡ (fault (PointerToNowhere (codes "/not")), fault (PointerToNowhere (codes "/not"))) }
{}
