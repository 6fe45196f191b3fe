//! What preparing resolves, and so keeps.
#![tactic(auto, unfolding(crate::proofs::OnLiterals::world_on_literals))]

ghost use Rattle.std.specs.Prelude.{◌≡◌, [], ◌∷◌, codes, Some, None};
ghost use Rattle.ref_draft.specs.declared.draft.Draft.TheVariants.{Draft7, Draft202012};
ghost use Rattle.ref_definitions.specs.Places.{root};
ghost use Rattle.ref_definitions.specs.Cached.{pairs_of_identifier, pairs_of_reference, pairs_of_value, pairs_at, identifier_pairs, reference_pairs, pairs};
ghost use Rattle.ref_definitions.specs.Rows.{at, yes, text, one, two};

/// The texts that are resolved, each with its base.
pub fn pairs_of_places()
    ensures an_identifier { pairs_of_identifier (codes "http://a/r") (Some (codes "y"))
        ≡ (codes "http://a/r", codes "y") ∷ [] }
    ensures no_identifier { pairs_of_identifier (codes "http://a/r") None ≡ [] }
    ensures a_reference { pairs_of_reference (codes "http://a/r") (codes "c#/d")
        ≡ (codes "http://a/r", codes "c") ∷ [] }
    ensures a_reference_without_a_uri { pairs_of_reference (codes "http://a/r") (codes "#/d") ≡ [] }
    ensures of_a_value { pairs_of_value (codes "http://a/r") (one "$ref" (text "c"))
        ≡ (codes "http://a/r", codes "c") ∷ [] }
    ensures of_a_value_without { pairs_of_value (codes "http://a/r") yes ≡ [] }
    ensures both { pairs_at
        (root (at Draft202012 "http://a/r" (two "$id" (text "y") "$ref" (text "c"))))
        ≡ (codes "http://a/r", codes "y") ∷ (codes "http://a/y", codes "c") ∷ [] }
    ensures hidden_identifier { pairs_at
        (root (at Draft7 "http://a/r" (two "$id" (text "y") "$ref" (text "c"))))
        ≡ (codes "http://a/r", codes "c") ∷ [] }
    ensures without_a_base { pairs_at
        (root (at Draft202012 "http://a/r" (two "$id" (text "a b") "$ref" (text "c"))))
        ≡ (codes "http://a/r", codes "a b") ∷ [] }
    ensures of_a_layer { pairs
        (at Draft202012 "http://a/r" (one "not" (one "$ref" (text "s")))
        ∷ at Draft202012 "http://b/" (one "$id" (text "t")) ∷ [])
        ≡ (codes "http://b/", codes "t") ∷ (codes "http://a/r", codes "s") ∷ [] }
    ensures of_identifiers { identifier_pairs
        (at Draft202012 "http://a/r" (two "$id" (text "y") "$ref" (text "c"))
        ∷ at Draft202012 "http://b/" (one "$id" (text "t")) ∷ [])
        ≡ (codes "http://a/r", codes "y") ∷ (codes "http://b/", codes "t") ∷ [] }
    ensures of_references { reference_pairs
        (at Draft202012 "http://a/r" (two "$id" (text "y") "$ref" (text "c"))
        ∷ at Draft202012 "http://b/" (one "$ref" (text "t")) ∷ [])
        ≡ (codes "http://a/y", codes "c") ∷ (codes "http://b/", codes "t") ∷ [] }
    ensures of_no_document { pairs [] ≡ [] }
{}
