//! What a fragment means in a resource, and where the next lookup starts from.
#![tactic(auto, unfolding(crate::proofs::OnLiterals::world_on_literals))]

ghost use Rattle.std.specs.Prelude.{◌≡◌, true, false, [], ◌∷◌, codes, Ok, Err};
ghost use Rattle.ref_draft.specs.declared.draft.Draft.TheVariants.{Draft7, Draft201909, Draft202012};
ghost use Rattle.ref_draft.specs.Anchors.{Plain, Dynamic};
ghost use Rattle.ref_uri.specs.Targets.{parse_refusal, resolve_refusal};
ghost use Rattle.ref_definitions.specs.Fault.{InvalidAnchor, InvalidUri, NoSuchAnchor, PointerToNowhere};
ghost use Rattle.ref_definitions.specs.Places.{root};
ghost use Rattle.ref_definitions.specs.Lookup.{moved_resolver, in_subresource, in_scope, fault_of, entry_of, is_dynamic, unless_fault, outermost, entry_found, by_scope, dynamically, named_found, pointer_found, at_fragment, resolver_text};
ghost use Rattle.ref_definitions.specs.Rows.{at, world, yes, empty, text, one, two, along, resolver, found_value, name_at, alone, value_at};

/// The base and the scope after a lookup.
pub fn resolvers_after_lookups()
    ensures empty_scope { moved_resolver (resolver "http://a/r" []) (codes "http://a/r")
        ≡ resolver "http://a/r" (codes "http://a/r" ∷ []) }
    ensures another_base { moved_resolver (resolver "http://a/r" (codes "http://a/q" ∷ []))
        (codes "http://a/s")
        ≡ resolver "http://a/s" (codes "http://a/r" ∷ codes "http://a/q" ∷ []) }
    ensures same_base { moved_resolver (resolver "http://a/r" (codes "http://a/q" ∷ []))
        (codes "http://a/r")
        ≡ resolver "http://a/r" (codes "http://a/q" ∷ []) }
    ensures displayed { resolver_text
        (resolver "http://example.com"
        (codes "http://example.com/foo/" ∷ codes "http://example.com"
        ∷ codes "http://example.com" ∷ []))
        ≡ codes "Resolver { base_uri: \"http://example.com\", scopes: \"[http://example.com/foo/, http://example.com, http://example.com]\" }" }
    ensures displayed_without_scope { resolver_text (resolver "http://a/r" [])
        ≡ codes "Resolver { base_uri: \"http://a/r\", scopes: \"[]\" }" }
{}

/// An identifier of a value, applied (2020-12 Core, 8.2.1).
pub fn resolvers_in_subresources()
    ensures entered { in_subresource (resolver "http://a/r" (codes "http://a/q" ∷ [])) Draft202012
        (one "$id" (text "k/"))
        ≡ Ok (resolver "http://a/k/" (codes "http://a/q" ∷ [])) }
    ensures no_identifier { in_subresource
        (resolver "http://a/r" (codes "http://a/q" ∷ [])) Draft202012 yes
        ≡ Ok (resolver "http://a/r" (codes "http://a/q" ∷ [])) }
    ensures refused_identifier { in_subresource (resolver "http://a/r" []) Draft202012
        (one "$id" (text "a b"))
        ≡ Err (parse_refusal (codes "a b")) }
    ensures base_without_scheme { in_subresource (resolver "/a" []) Draft202012
        (one "$id" (text "b"))
        ≡ Err (resolve_refusal (codes "b") (codes "/a")) }
    ensures beside_a_reference { in_subresource (resolver "http://a/r" []) Draft7
        (two "$id" (text "k/") "$ref" (text "b"))
        ≡ Ok (resolver "http://a/r" []) }
{}

/// What a fragment leads to.
pub fn fragments_of_resources()
    ensures none { at_fragment [] (resolver "http://a/r" []) (root (at Draft7 "http://a/r" yes)) []
        ≡ Ok (found_value yes Draft7 (resolver "http://a/r" [])) }
    ensures pointer { at_fragment [] (resolver "http://a/r" [])
        (root (at Draft202012 "http://a/r" (one "not" (one "$id" (text "s/"))))) (codes "/not")
        ≡ Ok (found_value (one "$id" (text "s/")) Draft202012 (resolver "http://a/s/" [])) }
    ensures pointer_to_nowhere { at_fragment [] (resolver "http://a/r" [])
        (root (at Draft202012 "http://a/r" empty)) (codes "/nope")
        ≡ Err (PointerToNowhere (codes "/nope")) }
    ensures anchor { at_fragment (alone Draft202012 "http://a/r" (one "$anchor" (text "n")))
        (resolver "http://a/r" []) (root (at Draft202012 "http://a/r" (one "$anchor" (text "n"))))
        (codes "n")
        ≡ Ok (found_value (one "$anchor" (text "n")) Draft202012 (resolver "http://a/r" [])) }
    ensures undecoded_anchor { at_fragment
        (alone Draft202012 "http://a/r" (one "$anchor" (text "n"))) (resolver "http://a/r" [])
        (root (at Draft202012 "http://a/r" (one "$anchor" (text "n")))) (codes "%6E")
        ≡ Err (NoSuchAnchor (codes "%6E")) }
    ensures by_a_pointer { pointer_found (resolver "http://a/r" (codes "http://a/q" ∷ [])) Draft7
        (yes, along "http://a/s/" [])
        ≡ found_value yes Draft7 (resolver "http://a/s/" (codes "http://a/q" ∷ [])) }
    ensures plain_name_with_identifier { named_found [] (resolver "http://a/r" [])
        (name_at "http://a/x" "n" Plain Draft201909 (one "$id" (text "y"))) Plain
        ≡ Ok (found_value (one "$id" (text "y")) Draft201909 (resolver "http://a/r" [])) }
    ensures plain_name { named_found [] (resolver "http://a/r" (codes "http://a/q" ∷ []))
        (name_at "http://a/x" "n" Plain Draft7 yes) Plain
        ≡ value_at yes Draft7 "http://a/r" "http://a/q" }
    ensures dynamic_name { named_found [] (resolver "http://a/r" [])
        (name_at "http://a/x" "n" Dynamic Draft202012 (one "$id" (text "y"))) Dynamic
        ≡ Ok (found_value (one "$id" (text "y")) Draft202012 (resolver "http://a/y" [])) }
{}

/// Dynamic anchors (2020-12 Core, 8.2.3.2).
pub fn dynamic_anchors()
    ensures dynamic_kind { is_dynamic Dynamic ≡ true }
    ensures plain_kind { is_dynamic Plain ≡ false }
    ensures last_dynamic { outermost (codes "a:1", name_at "a:1" "n" Plain Draft202012 yes)
        ((codes "a:2", name_at "a:2" "n" Dynamic Draft202012 yes)
        ∷ (codes "a:3", name_at "a:3" "n" Dynamic Draft202012 empty)
        ∷ (codes "a:4", name_at "a:4" "n" Plain Draft202012 yes) ∷ [])
        ≡ (codes "a:3", name_at "a:3" "n" Dynamic Draft202012 empty) }
    ensures no_dynamic { outermost (codes "a:1", name_at "a:1" "n" Dynamic Draft202012 yes)
        ((codes "a:2", name_at "a:2" "n" Plain Draft202012 empty) ∷ [])
        ≡ (codes "a:1", name_at "a:1" "n" Dynamic Draft202012 yes) }
    ensures not_there { fault_of (codes "a:1", Err (NoSuchAnchor (codes "n"))) ≡ [] }
    ensures another_fault { fault_of (codes "a:1", Err (InvalidAnchor (codes "n/m")))
        ≡ InvalidAnchor (codes "n/m") ∷ [] }
    ensures no_fault { fault_of (codes "a:1", Ok (name_at "a:1" "n" Plain Draft202012 yes)) ≡ [] }
    ensures an_entry { entry_of (codes "a:1", Ok (name_at "a:1" "n" Plain Draft202012 yes))
        ≡ (codes "a:1", name_at "a:1" "n" Plain Draft202012 yes) ∷ [] }
    ensures no_entry { entry_of (codes "a:1", Err (NoSuchAnchor (codes "n"))) ≡ [] }
    ensures first_fault { unless_fault
        (InvalidAnchor (codes "n/m") ∷ PointerToNowhere (codes "/x") ∷ [])
        (Ok (found_value yes Draft202012 (resolver "a:1" [])))
        ≡ Err (InvalidAnchor (codes "n/m")) }
    ensures without_fault { unless_fault [] (Ok (found_value yes Draft202012 (resolver "a:1" [])))
        ≡ Ok (found_value yes Draft202012 (resolver "a:1" [])) }
    ensures in_the_scope { in_scope
        (alone Draft202012 "http://a/r" (one "$dynamicAnchor" (text "n"))) (codes "n")
        (codes "http://a/q" ∷ codes "http://a/r" ∷ [])
        ≡ (codes "http://a/q", Err (NoSuchAnchor (codes "n")))
        ∷ (
          codes "http://a/r",
          Ok
              (name_at "http://a/r" "n" Dynamic Draft202012 (one "$dynamicAnchor" (text "n"))),
        ) ∷ [] }
    ensures fault_in_the_scope { in_scope
        (alone Draft202012 "http://a/t" (one "$dynamicAnchor" (text "n/m"))) (codes "n/m")
        (codes "http://a/r" ∷ [])
        ≡ (codes "http://a/r", Err (InvalidAnchor (codes "n/m"))) ∷ [] }
    ensures fault_before_entries { by_scope (resolver "a:1" [])
        (name_at "a:1" "n" Dynamic Draft202012 yes)
        ((codes "a:2", Ok (name_at "a:2" "n" Dynamic Draft202012 yes))
        ∷ (codes "a:3", Err (InvalidUri (parse_refusal (codes "a b")))) ∷ [])
        ≡ Err (InvalidUri (parse_refusal (codes "a b"))) }
    ensures entry_of_the_scope { by_scope (resolver "a:1" [])
        (name_at "a:1" "n" Dynamic Draft202012 yes)
        ((codes "a:2", Ok (name_at "a:2" "n" Dynamic Draft202012 empty))
        ∷ (codes "a:3", Err (NoSuchAnchor (codes "n")))
        ∷ (codes "a:4", Ok (name_at "a:4" "n" Plain Draft202012 yes)) ∷ [])
        ≡ Ok (found_value empty Draft202012 (resolver "a:2" [])) }
    ensures identifier_where_it_was_found { entry_found
        (resolver "http://a/r" (codes "http://a/q" ∷ []))
        (codes "http://b/x", name_at "http://b/x" "n" Dynamic Draft202012 (one "$id" (text "y")))
        ≡ value_at (one "$id" (text "y")) Draft202012 "http://b/y" "http://a/q" }
    ensures refused_where_it_was_found { entry_found (resolver "http://a/r" []) (
      codes "http://b/x",
      name_at "http://b/x" "n" Dynamic Draft202012
          (one "$id" (text "a b")),
    )
        ≡ Err (InvalidUri (parse_refusal (codes "a b"))) }
    ensures outermost_of_the_scope { dynamically
        (world
        (at Draft202012 "http://a/r" (one "$dynamicAnchor" (text "n"))
        ∷ at Draft202012 "http://a/t"
        (two "$dynamicAnchor" (text "n") "title" (text "t"))
        ∷ []))
        (resolver "http://a/t" (codes "http://a/t" ∷ codes "http://a/r" ∷ []))
        (name_at "http://a/t" "n" Dynamic Draft202012
        (two "$dynamicAnchor" (text "n") "title" (text "t")))
        ≡ Ok (found_value (one "$dynamicAnchor" (text "n")) Draft202012
        (resolver "http://a/r" (codes "http://a/t" ∷ codes "http://a/r" ∷ []))) }
    ensures found_first { dynamically (alone Draft202012 "http://a/r" (one "$anchor" (text "n")))
        (resolver "http://a/t" (codes "http://a/r" ∷ []))
        (name_at "http://a/t" "n" Dynamic Draft202012 yes)
        ≡ value_at yes Draft202012 "http://a/t" "http://a/r" }
{}
