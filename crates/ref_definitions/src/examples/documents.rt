//! Documents, and those that are pending in a builder.
#![tactic(auto, unfolding(crate::proofs::OnLiterals::world_on_literals))]

ghost use Rattle.std.specs.Prelude.{◌≡◌, [], ◌∷◌, codes, Some, None, Ok, Err};
ghost use Rattle.ref_draft.specs.declared.draft.Draft.TheVariants.{Draft4, Draft6, Draft7, Draft202012, Unknown};
ghost use Rattle.ref_uri.specs.Targets.{parse_refusal};
ghost use Rattle.ref_definitions.specs.World.{document};
ghost use Rattle.ref_definitions.specs.Retrievers.{default_retriever};
ghost use Rattle.ref_definitions.specs.Pending.{pending_of, with_pending, with_addition, with_additions, builder_draft, document_of, documents_of, given_of_builder};
ghost use Rattle.ref_definitions.specs.Rows.{at, yes, empty, text, one, value_under, resource_under, waiting_value, layer_of};

/// The draft of a document's root.
pub fn drafts_of_documents()
    ensures detected { (document Draft7 (codes "http://a/r")
        (one "$schema" (text "http://json-schema.org/schema#"))).draft
        ≡ Draft202012 }
    ensures unknown { (document Draft7 (codes "http://a/r") (one "$schema" (text "invalid"))).draft
        ≡ Unknown }
    ensures of_the_registry { (document Draft7 (codes "http://a/r") empty).draft ≡ Draft7 }
    ensures set_in_a_builder { builder_draft (Some Draft7) ≡ Draft7 }
    ensures not_set_in_a_builder { builder_draft None ≡ Draft202012 }
    ensures of_a_value { (document_of Draft7 (waiting_value "http://a/r" empty)).draft ≡ Draft7 }
    ensures of_a_value_with_a_meta_schema { (document_of Draft7
        (waiting_value "http://a/r"
        (one "$schema" (text "http://json-schema.org/draft-04/schema#")))).draft
        ≡ Draft4 }
    ensures of_a_resource { (document_of Draft7
        (record {
          uri = codes "http://a/r";
          tree = one "$schema" (text "http://json-schema.org/draft-04/schema#");
          draft = Some Draft6;
        })).draft
        ≡ Draft6 }
{}

/// What is pending after additions.
pub fn pending_documents()
    ensures trailing_hashes { pending_of (value_under "http://a/d##" yes)
        ≡ Ok (waiting_value "http://a/d" yes) }
    ensures relative { pending_of (value_under "a/../b" yes)
        ≡ Ok (waiting_value "json-schema:///b" yes) }
    ensures refused { pending_of (value_under "a b#" yes) ≡ Err (parse_refusal (codes "a b")) }
    ensures with_its_draft { pending_of (resource_under "http://a/d" Draft4 yes)
        ≡ Ok (record { uri = codes "http://a/d"; tree = yes; draft = Some Draft4 }) }
    ensures in_place { with_pending
        (waiting_value "http://a/x" yes ∷ waiting_value "http://a/y" yes ∷ [])
        (waiting_value "http://a/x" empty)
        ≡ waiting_value "http://a/x" empty ∷ waiting_value "http://a/y" yes ∷ [] }
    ensures at_the_end { with_pending (waiting_value "http://a/x" yes ∷ [])
        (waiting_value "http://a/y" yes)
        ≡ waiting_value "http://a/x" yes ∷ waiting_value "http://a/y" yes ∷ [] }
    ensures another_text_of_a_uri { with_addition (waiting_value "http://a/x" yes ∷ [])
        (value_under "HTTP://a/./x#" empty)
        ≡ Ok (waiting_value "http://a/x" empty ∷ []) }
    ensures refused_addition { with_addition (waiting_value "http://a/x" yes ∷ [])
        (value_under "a b" yes)
        ≡ Err (parse_refusal (codes "a b")) }
    ensures in_order { with_additions []
        (value_under "http://a/y" yes ∷ value_under "http://a/x" empty
        ∷ value_under "http://a/y#" empty ∷ [])
        ≡ Ok (waiting_value "http://a/y" empty ∷ waiting_value "http://a/x" empty ∷ []) }
    ensures first_refusal { with_additions []
        (value_under "http://a/x" yes ∷ value_under "a b" yes ∷ value_under "c d" yes ∷ [])
        ≡ Err (parse_refusal (codes "a b")) }
    ensures no_additions { with_additions (waiting_value "http://a/x" yes ∷ []) []
        ≡ Ok (waiting_value "http://a/x" yes ∷ []) }
{}

/// The documents that preparing begins with.
pub fn documents_of_builders()
    ensures same_uri { layer_of
        (with_additions [] (value_under "http://a/m" yes ∷ value_under "http://a/m" empty ∷ []))
        ≡ Ok (at Draft202012 "http://a/m" empty ∷ []) }
    ensures without_hash { layer_of (with_additions [] (value_under "http://a/d#" yes ∷ []))
        ≡ Ok (at Draft202012 "http://a/d" yes ∷ []) }
    ensures meta_schemas { layer_of
        (with_additions []
        (value_under "http://json-schema.org/draft-07/schema#" (one "title" (text "m"))
        ∷ []))
        ≡ Ok (at Draft202012 "http://json-schema.org/draft-07/schema" (one "title" (text "m"))
        ∷ []) }
    ensures values_and_resources { documents_of (Some Draft7)
        (waiting_value "http://a/r" empty
        ∷ record { uri = codes "http://a/s"; tree = empty; draft = Some Draft4 } ∷ [])
        ≡ at Draft7 "http://a/r" empty ∷ at Draft4 "http://a/s" empty ∷ [] }
    ensures none { documents_of (Some Draft7) [] ≡ [] }
    ensures given_documents { (given_of_builder default_retriever 3 (Some Draft7) []
        (waiting_value "http://a/r" empty ∷ [])).documents
        ≡ at Draft7 "http://a/r" empty ∷ [] }
    ensures given_draft { (given_of_builder default_retriever 3 (Some Draft7) [] []).draft
        ≡ Draft7 }
    ensures given_limit { (given_of_builder default_retriever 3 None [] []).limit ≡ 3 }
{}
