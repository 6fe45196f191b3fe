//! The places of a document, by levels, with their bases.
#![tactic(auto, unfolding(crate::proofs::OnLiterals::world_on_literals))]

ghost use Rattle.std.specs.Prelude.{◌≡◌, [], ◌∷◌, codes, Some, None, Ok, Err};
ghost use Rattle.ref_paths.specs.Path.{Key, Index};
ghost use Rattle.ref_draft.specs.declared.draft.Draft.TheVariants.{Draft4, Draft7, Draft201909, Draft202012};
ghost use Rattle.ref_draft.specs.Children.{walked_children};
ghost use Rattle.ref_uri.specs.Targets.{parse_refusal};
ghost use Rattle.ref_definitions.specs.Places.{identifier_of, base_within, root, child_place, children_with, children_of, levels_below, places};
ghost use Rattle.ref_definitions.specs.Listing.{local_places};
ghost use Rattle.ref_definitions.specs.Descent.{IsChildOfOne, AreChildren};
ghost use Rattle.ref_definitions.specs.Rows.{at, yes, text, one, two, three, paths_and_bases, place_below, identified_within};

/// All places.
pub fn places_by_levels()
    ensures nested { paths_and_bases (places (at Draft201909 "http://a/r" identified_within))
        ≡ ([], Ok (codes "http://a/r"))
        ∷ (Key (codes "$defs") ∷ Key (codes "a") ∷ [], Ok (codes "http://b/k/"))
        ∷ (
          Key (codes "$defs") ∷ Key (codes "a") ∷ Key (codes "dependencies") ∷ Key (codes "d")
              ∷ [],
          Ok (codes "http://b/k/m"),
        )
        ∷ [] }
    ensures deepest { paths_and_bases
        (places (at Draft202012 "http://a/r" (one "not" (one "not" yes))))
        ≡ ([], Ok (codes "http://a/r")) ∷ (Key (codes "not") ∷ [], Ok (codes "http://a/r"))
        ∷ (Key (codes "not") ∷ Key (codes "not") ∷ [], Ok (codes "http://a/r")) ∷ [] }
    ensures by_levels { paths_and_bases
        (places (at Draft202012 "http://a/r" (two "if" (one "not" yes) "then" yes)))
        ≡ ([], Ok (codes "http://a/r")) ∷ (Key (codes "if") ∷ [], Ok (codes "http://a/r"))
        ∷ (Key (codes "then") ∷ [], Ok (codes "http://a/r"))
        ∷ (Key (codes "if") ∷ Key (codes "not") ∷ [], Ok (codes "http://a/r")) ∷ [] }
    ensures none_below_a_refused_identifier { paths_and_bases
        (places (at Draft202012 "http://a/r" (one "not" (two "$id" (text "a b") "not" yes))))
        ≡ ([], Ok (codes "http://a/r"))
        ∷ (Key (codes "not") ∷ [], Err (parse_refusal (codes "a b"))) ∷ [] }
    ensures draft_4 { paths_and_bases
        (places (at Draft4 "http://a/r" (one "$defs" (one "a" (one "id" (text "s/"))))))
        ≡ ([], Ok (codes "http://a/r"))
        ∷ (Key (codes "$defs") ∷ Key (codes "a") ∷ [], Ok (codes "http://a/s/")) ∷ [] }
    ensures below_a_map_with_an_identifier { paths_and_bases
        (places
        (at Draft202012 "http://a/r"
        (one "properties" (two "$id" (text "m") "x" (one "$id" (text "s"))))))
        ≡ ([], Ok (codes "http://a/r"))
        ∷ (Key (codes "properties") ∷ Key (codes "$id") ∷ [], Ok (codes "http://a/r"))
        ∷ (Key (codes "properties") ∷ Key (codes "x") ∷ [], Ok (codes "http://a/s")) ∷ [] }
{}

/// The bases of places (2020-12 Core, 8.2.1).
pub fn bases_of_places()
    ensures without_identifier { base_within (codes "http://a/r") None ≡ Ok (codes "http://a/r") }
    ensures with_identifier { base_within (codes "http://a/p/r") (Some (codes "../s"))
        ≡ Ok (codes "http://a/s") }
    ensures refused { base_within (codes "http://a/r") (Some (codes "a b"))
        ≡ Err (parse_refusal (codes "a b")) }
    ensures of_the_root { (root (at Draft202012 "http://a/r" (one "$id" (text "#x")))).base
        ≡ Ok (codes "http://a/r#x") }
    ensures of_a_root_without { (root (at Draft202012 "http://a/r" (one "id" (text "y")))).base
        ≡ Ok (codes "http://a/r") }
    ensures identifier { identifier_of
        (root (at Draft202012 "http://a/r" (two "$id" (text "y##") "$ref" (text "b"))))
        ≡ Some (codes "y") }
    ensures hidden_identifier { identifier_of
        (root (at Draft7 "http://a/r" (two "$id" (text "y") "$ref" (text "b"))))
        ≡ None }
    ensures of_a_child { (child_place (Key (codes "not") ∷ []) (codes "http://a/s/")
        (record {
          path = Key (codes "if")
              ∷ [];
          value = one "$id" (text "t");
          draft = Draft202012;
        })).base
        ≡ Ok (codes "http://a/s/t") }
    ensures path_of_a_child { (child_place (Key (codes "not") ∷ []) (codes "http://a/s/")
        (record {
          path = Key (codes "allOf") ∷ Index 0
              ∷ [];
          value = yes;
          draft = Draft202012;
        })).path
        ≡ Key (codes "not") ∷ Key (codes "allOf") ∷ Index 0 ∷ [] }
{}

/// How places follow from each other.
pub fn places_after_the_root()
    ensures a_child { IsChildOfOne (root (at Draft202012 "http://a/r" (one "not" yes)) ∷ [])
        (place_below "not" yes "http://a/r" "http://a/r") }
    ensures no_child { ¬ (IsChildOfOne [] (root (at Draft202012 "http://a/r" yes))) }
    ensures after_the_root { AreChildren (root (at Draft202012 "http://a/r" (one "not" yes)) ∷ [])
        (place_below "not" yes "http://a/r" "http://a/r" ∷ []) }
    ensures nothing_after { AreChildren [] [] }
{}

/// Levels of places.
pub fn levels_of_places()
    ensures children { paths_and_bases
        (children_of
        (root
        (at Draft202012 "http://a/r"
        (three "$defs" (one "a" yes) "$id" (text "s/") "not"
        (one "$id" (text "t"))))))
        ≡ (Key (codes "$defs") ∷ Key (codes "a") ∷ [], Ok (codes "http://a/s/"))
        ∷ (Key (codes "not") ∷ [], Ok (codes "http://a/s/t")) ∷ [] }
    ensures no_children { children_of (root (at Draft202012 "http://a/r" yes)) ≡ [] }
    ensures no_children_of_a_refused_identifier { children_of
        (root (at Draft202012 "http://a/r" (two "$id" (text "a b") "not" yes)))
        ≡ [] }
    ensures children_within { paths_and_bases
        (children_with (Ok (codes "http://b/"))
        (root (at Draft202012 "http://a/r" (one "not" yes))))
        ≡ (Key (codes "not") ∷ [], Ok (codes "http://b/")) ∷ [] }
    ensures children_within_none { children_with (Err (parse_refusal (codes "a b")))
        (root (at Draft202012 "http://a/r" (one "not" yes)))
        ≡ [] }
    ensures no_level { levels_below 0 (root (at Draft202012 "http://a/r" (one "not" yes)) ∷ [])
        ≡ [] }
    ensures one_level { paths_and_bases
        (levels_below 1 (root (at Draft202012 "http://a/r" (one "not" (one "not" yes))) ∷ []))
        ≡ (Key (codes "not") ∷ [], Ok (codes "http://a/r")) ∷ [] }
    ensures two_levels { paths_and_bases
        (levels_below 2 (root (at Draft202012 "http://a/r" (one "not" (one "not" yes))) ∷ []))
        ≡ (Key (codes "not") ∷ [], Ok (codes "http://a/r"))
        ∷ (Key (codes "not") ∷ Key (codes "not") ∷ [], Ok (codes "http://a/r")) ∷ [] }
{}

/// Places as a registry lists them.
pub fn listed_places()
    ensures of_two_documents { local_places
        (at Draft202012 "http://a/r" (one "not" (one "$id" (text "s")))
        ∷ at Draft7 "http://a/t" yes ∷ [])
        ≡ record {
          document = 0;
          path = [];
          value = one "not" (one "$id" (text "s"));
          draft = Draft202012;
          base = Ok (codes "http://a/r");
        }
        ∷ record {
          document = 0;
          path = Key (codes "not") ∷ [];
          value = one "$id" (text "s");
          draft = Draft202012;
          base = Ok (codes "http://a/s");
        }
        ∷ record {
          document = 1;
          path = [];
          value = yes;
          draft = Draft7;
          base = Ok (codes "http://a/t");
        }
        ∷ [] }
    ensures of_none { local_places [] ≡ [] }
{}
