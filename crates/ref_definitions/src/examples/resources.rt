//! Which URIs identify which places.
#![tactic(auto, unfolding(crate::proofs::OnLiterals::world_on_literals))]

ghost use Rattle.std.specs.Prelude.{◌≡◌, [], ◌∷◌, codes, Some, None, option_map};
ghost use Rattle.ref_paths.specs.Path.{Key};
ghost use Rattle.ref_draft.specs.declared.draft.Draft.TheVariants.{Draft7, Draft202012};
ghost use Rattle.ref_definitions.specs.Places.{root};
ghost use Rattle.ref_definitions.specs.Resources.{own_uri, resource_of, resources_in, resources, last_under, meant_place};
ghost use Rattle.ref_definitions.specs.Rows.{world, at, yes, empty, text, one, two, uris_and_paths, path_of, alone, identified_twice};

/// The places under URIs.
pub fn uris_of_resources()
    ensures root_twice { uris_and_paths
        (resources_in (at Draft202012 "http://a/r" (one "$id" (text "#x"))))
        ≡ (codes "http://a/r", []) ∷ (codes "http://a/r#x", []) ∷ [] }
    ensures root_once { uris_and_paths
        (resources_in (at Draft7 "http://a/r" (one "$id" (text "#x"))))
        ≡ (codes "http://a/r", []) ∷ [] }
    ensures by_documents_and_places { uris_and_paths
        (resources
        (at Draft202012 "http://a/r" (two "if" (one "$id" (text "x")) "then" yes)
        ∷ at Draft202012 "http://a/s" yes ∷ []))
        ≡ (codes "http://a/r", []) ∷ (codes "http://a/x", Key (codes "if") ∷ [])
        ∷ (codes "http://a/s", []) ∷ [] }
    ensures nothing { resources [] ≡ [] }
    ensures by_a_place { uris_and_paths
        (resource_of (root (at Draft202012 "http://a/r" (one "$id" (text "y")))))
        ≡ (codes "http://a/y", []) ∷ [] }
    ensures by_a_place_without { resource_of (root (at Draft202012 "http://a/r" empty)) ≡ [] }
    ensures by_a_refused_identifier { resource_of
        (root (at Draft202012 "http://a/r" (one "$id" (text "a b"))))
        ≡ [] }
    ensures own { own_uri (root (at Draft202012 "http://a/r" (one "$id" (text "y"))))
        ≡ Some (codes "http://a/y") }
    ensures none_of_a_refusal { own_uri
        (root (at Draft202012 "http://a/r" (one "$id" (text "a b"))))
        ≡ None }
    ensures none_without_identifier { own_uri (root (at Draft202012 "http://a/r" yes)) ≡ None }
    ensures none_of_a_hidden_identifier { own_uri
        (root (at Draft7 "http://a/r" (two "$id" (text "y") "$ref" (text "b"))))
        ≡ None }
{}

/// The last entry counts.
pub fn last_entries()
    ensures under_a_uri { last_under (codes "a:b")
        ((codes "a:b", yes) ∷ (codes "a:c", yes) ∷ (codes "a:b", empty) ∷ (codes "a:c", yes)
        ∷ [])
        ≡ Some (codes "a:b", empty) }
    ensures under_no_uri { last_under (codes "a:B") ((codes "a:b", yes) ∷ []) ≡ None }
{}

/// What a URI means.
pub fn meanings_of_uris()
    ensures last_place { path_of
        (meant_place (alone Draft202012 "http://a/r" identified_twice) (codes "http://a/k"))
        ≡ Some (Key (codes "$defs") ∷ Key (codes "b") ∷ []) }
    ensures own_uri { path_of
        (meant_place (alone Draft202012 "http://a/r" (one "$id" (text "#x"))) (codes "http://a/r"))
        ≡ Some [] }
    ensures own_identifier { path_of (meant_place
        (alone Draft202012 "http://a/r" (one "$id" (text "#x"))) (codes "http://a/r#x"))
        ≡ Some [] }
    ensures exactly { path_of
        (meant_place (alone Draft202012 "http://a/d" yes) (codes "http://a/d#"))
        ≡ None }
    ensures later_document { option_map (λ p. p.value)
        (meant_place
        (world
        (at Draft202012 "http://a/k" (one "$id" (text "http://a/k"))
        ∷ at Draft202012 "http://a/b"
        (one "not" (two "$id" (text "http://a/k") "title" (text "late")))
        ∷ []))
        (codes "http://a/k"))
        ≡ Some (two "$id" (text "http://a/k") "title" (text "late")) }
    ensures nearest_layer { option_map (λ p. p.value) (meant_place
        ((at Draft202012 "http://a/m" empty ∷ []) ∷ alone Draft202012 "http://a/m" yes)
        (codes "http://a/m"))
        ≡ Some empty }
    ensures parent { option_map (λ p. p.value) (meant_place
        ((at Draft202012 "http://a/n" empty ∷ []) ∷ alone Draft202012 "http://a/m" yes)
        (codes "http://a/m"))
        ≡ Some yes }
{}
