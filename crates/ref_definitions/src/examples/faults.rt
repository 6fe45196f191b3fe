//! The texts of faults.
#![tactic(auto, unfolding(crate::proofs::OnLiterals::world_on_literals))]

ghost use Rattle.std.specs.Prelude.{◌≡◌, codes};
ghost use Rattle.ref_uri.specs.Targets.{parse_refusal, resolve_refusal};
ghost use Rattle.ref_definitions.specs.Fault.{fault_text, Unretrievable, PointerToNowhere, InvalidArrayIndex, InvalidPercentEncoding, NoSuchAnchor, InvalidAnchor, InvalidUri, UnknownSpecification, CircularMetaschema, RetrievalLimit, not_retrieved};

/// Fault texts.
pub fn fault_texts()
    ensures pointer { fault_text (PointerToNowhere (codes "/nope"))
        ≡ codes "Pointer '/nope' does not exist" }
    ensures unretrievable { fault_text (not_retrieved (codes "http://a/z"))
        ≡ codes "Resource 'http://a/z' is not present in a registry and retrieving it failed: Retrieving external resources is not supported once the registry is populated" }
    ensures percent { fault_text (InvalidPercentEncoding (codes "/%FF"))
        ≡ codes "Invalid percent encoding in pointer '/%FF': the decoded bytes do not represent valid UTF-8" }
    ensures index { fault_text (InvalidArrayIndex (codes "/properties/bar/items/one") (codes "one"))
        ≡ codes "Failed to parse array index 'one' in pointer '/properties/bar/items/one'" }
    ensures no_anchor { fault_text (NoSuchAnchor (codes "unknownAnchor"))
        ≡ codes "Anchor 'unknownAnchor' does not exist" }
    ensures bad_anchor { fault_text (InvalidAnchor (codes "invalid/anchor"))
        ≡ codes "Anchor 'invalid/anchor' is invalid" }
    ensures bad_uri { fault_text (InvalidUri (parse_refusal (codes "a b")))
        ≡ codes "Invalid URI reference 'a b': not a URI reference of RFC 3986" }
    ensures meta_schema { fault_text (UnknownSpecification (codes "json-schema:///invalid"))
        ≡ codes "Unknown meta-schema: 'json-schema:///invalid'. Custom meta-schemas must be registered in the registry before use" }
    ensures unresolved { fault_text (InvalidUri (resolve_refusal (codes "b") (codes "/a")))
        ≡ codes "Failed to resolve 'b' against '/a': the base has no scheme" }
    ensures no_document { fault_text
        (Unretrievable (codes "http://a/c") (codes "no document under this URI"))
        ≡ codes "Resource 'http://a/c' is not present in a registry and retrieving it failed: no document under this URI" }
    ensures no_retriever { not_retrieved (codes "http://a/z")
        ≡ Unretrievable (codes "http://a/z")
        (codes "Retrieving external resources is not supported once the registry is populated") }
    ensures limit { fault_text (RetrievalLimit (codes "http://a/c") 1)
        ≡ codes "Retrieval limit of 1 documents reached before 'http://a/c'" }
    ensures limit_of_ten_thousand { fault_text (RetrievalLimit (codes "http://e/10000") 10000)
        ≡ codes "Retrieval limit of 10000 documents reached before 'http://e/10000'" }
    ensures circular { fault_text (CircularMetaschema (codes "a:b"))
        ≡ codes "Circular meta-schema reference detected at 'a:b'" }
{}
