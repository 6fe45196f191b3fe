//! Rows of the definitions. Each function is empty: its contract states rows, and the check computes them.
#![tactic(auto, unfolding(ref_definitions::proofs::OnLiterals::world_on_literals))]

ghost use Rattle.std.specs.Prelude.{◌≡◌, [], ◌∷◌, codes, true, false, Some, None};
ghost use Rattle.ref_paths.specs.Path.{Key, Index};
ghost use Rattle.ref_draft.specs.declared.draft.Draft.TheVariants.{Draft4, Draft7, Draft201909, Draft202012, Unknown};
ghost use Rattle.ref_definitions.specs.Rows.{at, yes, text, whole_number, empty, one, two, three, pair};
ghost use Rattle.ref_bundle.specs.Needed.{numbers_of_needed};
ghost use Rattle.ref_bundle.specs.Embedding.{embedded_tree, NotAnObject, IdentifierBesideRef, NotAnIdentifier, NotKept};
ghost use Rattle.ref_bundle.specs.Embedding.{UnnamedDraft, ResolvedAgain};
ghost use Rattle.ref_bundle.specs.Bundle.{embedded_document, NoDocument, NotEmbedded, NoMap, KeyTaken, SharedUri};
ghost use Rattle.ref_bundle.specs.Bundle.{ReplacedUri, ShadowedUri, AddedMember};
ghost use Rattle.ref_bundle_laws.specs.Rows.{bundle, refused_bundle, bundle_of_first, bundle_above, bundle_with_further, seen_at, new, refers_to, refers_to_s, with_definition};
ghost use Rattle.ref_bundle_laws.specs.Rows.{renamed_root, listed_as, refers_twice, refers_twice_to_s};

/// Bundles of documents of 2020-12.
pub fn bundles()
    ensures alone { bundle_of_first
        (new "http://a/r" (one "$defs" yes) ∷ new "http://a/s" empty ∷ [])
        ≡ bundle (one "$defs" yes) [] }
    ensures of_two { bundle_of_first (refers_to_s ∷ new "http://a/s" (one "type" (text "x")) ∷ [])
        ≡ bundle (with_definition "http://a/s" (two "$id" (text "http://a/s") "type" (text "x")))
        (1 ∷ []) }
    ensures by_a_dynamic_reference { bundle_of_first
        (new "http://a/r" (one "$dynamicRef" (text "s")) ∷ new "http://a/s" empty
        ∷ [])
        ≡ bundle
        (two "$defs" (one "http://a/s" (one "$id" (text "http://a/s"))) "$dynamicRef"
        (text "s"))
        (1 ∷ []) }
    ensures relative_identifier { bundle_of_first (new "http://a/r" (one "$ref" (text "k/s"))
        ∷ new "http://a/q" (one "$id" (text "k/s")) ∷ [])
        ≡ bundle
        (two "$defs" (one "http://a/k/s" (one "$id" (text "http://a/k/s"))) "$ref" (text "k/s"))
        (1 ∷ []) }
    ensures among_others { bundle_of_first
        (new "http://a/r" (with_definition "z" yes) ∷ new "http://a/s" empty ∷ [])
        ≡ bundle
        (two "$defs" (two "http://a/s" (one "$id" (text "http://a/s")) "z" yes) "$ref"
        (text "s"))
        (1 ∷ []) }
    ensures a_part_of_another { bundle_of_first (new "http://a/r" (one "$ref" (text "t#/x"))
        ∷ new "http://a/s" (one "not" (one "$id" (text "t"))) ∷ [])
        ≡ bundle
        (two "$defs"
        (one "http://a/s"
        (two "$id" (text "http://a/s") "not" (one "$id" (text "t")))) "$ref"
        (text "t#/x")) (1 ∷ []) }
    ensures outside { bundle_of_first (refers_to_s ∷ []) ≡ bundle (one "$ref" (text "s")) [] }
{}

/// Which documents are needed, whatever refers to them.
pub fn needed_documents()
    ensures in_a_ring { numbers_of_needed
        (new "http://a/t" (one "$ref" (text "s")) ∷ new "http://a/u" empty
        ∷ new "http://a/s" (one "$ref" (text "r"))
        ∷ new "http://a/r" (one "not" (one "$ref" (text "t"))) ∷ []) [] 2
        ≡ 0 ∷ 2 ∷ 3
        ∷ [] }
    ensures custom_meta_schema { numbers_of_needed
        (new "http://a/r" (one "$schema" (text "http://v/d#"))
        ∷ new "http://v/d" empty ∷ []) [] 0 ≡ 0 ∷ 1 ∷ [] }
    ensures known_meta_schema { numbers_of_needed
        (new "http://a/r" (one "$schema" (text "http://json-schema.org/draft-07/schema#"))
        ∷ new "http://json-schema.org/draft-07/schema" empty ∷ []) [] 0 ≡ 0 ∷ [] }
    ensures of_no_document { numbers_of_needed (refers_to_s ∷ []) [] 1 ≡ [] }
    ensures by_a_further_place { numbers_of_needed
        (refers_to_s ∷ new "http://a/s" empty ∷ new "http://a/t" empty ∷ [])
        ([] ∷ (seen_at 1 (Key (codes "x") ∷ []) "http://a/s" "t" ∷ []) ∷ []) 0
        ≡ 0 ∷ 1 ∷ 2 ∷ [] }
    ensures by_one_that_is_not_needed { numbers_of_needed
        (new "http://a/r" empty ∷ new "http://a/s" empty ∷ new "http://a/t" empty ∷ [])
        ([] ∷ (seen_at 1 (Key (codes "x") ∷ []) "http://a/s" "t" ∷ []) ∷ []) 0
        ≡ 0 ∷ [] }
{}

/// How documents of one draft are embedded below a root of another.
pub fn drafts()
    ensures draft_4 { embedded_tree Draft202012 (at Draft4 "http://a/s" (one "type" (text "x")))
        ≡ three "$schema" (text "http://json-schema.org/draft-04/schema#") "id"
        (text "http://a/s") "type" (text "x") }
    ensures told_by_itself { embedded_tree Draft202012 (at Draft7 "http://a/s" (one "$schema"
        (text "http://json-schema.org/draft-07/schema#")))
        ≡ two "$id" (text "http://a/s") "$schema" (text "http://json-schema.org/draft-07/schema#") }
    ensures below_draft_7 { bundle_of_first
        (at Draft7 "http://a/r" (one "$ref" (text "s")) ∷ at Draft7 "http://a/s" empty
        ∷ [])
        ≡ bundle
        (two "$ref" (text "s") "definitions"
        (one "http://a/s" (one "$id" (text "http://a/s"))))
        (1 ∷ []) }
    ensures listed_with_schema { embedded_document Draft202012
        (3, at Draft201909 "http://a/s" (one "$id" (text "t")))
        ≡ listed_as 3 "http://a/t" false (Some "https://json-schema.org/draft/2019-09/schema") }
    ensures listed_without { embedded_document Draft7 (1, at Draft7 "http://a/s" empty)
        ≡ listed_as 1 "http://a/s" true None }
{}

/// Documents that can't be embedded.
pub fn obstacles()
    ensures no_object { bundle_of_first (refers_to_s ∷ new "http://a/s" yes ∷ [])
        ≡ refused_bundle 1 [] (NotEmbedded NotAnObject) }
    ensures beside_ref { bundle_of_first
        (refers_to_s ∷ at Draft7 "http://a/s" (one "$ref" (text "#")) ∷ [])
        ≡ refused_bundle 1 [] (NotEmbedded IdentifierBesideRef) }
    ensures number_as_identifier { bundle_of_first
        (refers_to_s ∷ new "http://a/s" (one "$id" (whole_number 1)) ∷ [])
        ≡ refused_bundle 1 [] (NotEmbedded NotAnIdentifier) }
    ensures anchor_as_identifier { bundle_of_first
        (refers_to_s ∷ at Draft7 "http://a/s" (one "$id" (text "#n")) ∷ [])
        ≡ refused_bundle 1 [] (NotEmbedded NotAnIdentifier) }
    ensures hash_at_the_end { bundle_of_first
        (new "http://a/r" (one "$ref" (text "s##")) ∷ new "http://a/s#" empty ∷ [])
        ≡ refused_bundle 1 [] (NotEmbedded (NotKept (codes "http://a/s#"))) }
    ensures unnamed { bundle_of_first
        (refers_to_s ∷ record { uri = codes "http://a/s"; tree = empty; draft = Unknown } ∷ [])
        ≡ refused_bundle 1 [] (NotEmbedded (UnnamedDraft Unknown)) }
    ensures resolved_again { bundle_of_first (new "http://a/r" (one "$ref" (text "x/s"))
        ∷ new "http://a/x/q" (two "$dynamicAnchor" (text "m") "$id" (text "s")) ∷ [])
        ≡ bundle
        (two "$defs"
        (one "http://a/x/s"
        (two "$dynamicAnchor" (text "m") "$id" (text "http://a/x/s"))) "$ref"
        (text "x/s")) (1 ∷ []) }
    ensures resolved_again_elsewhere { bundle_of_first (new "http://a/r" (one "$ref" (text "x/s"))
        ∷ new "http://a/q" (two "$dynamicAnchor" (text "m") "$id" (text "x/s")) ∷ [])
        ≡ refused_bundle 1 [] (NotEmbedded ResolvedAgain) }
    ensures told_otherwise { bundle_of_first (refers_to_s
        ∷ record {
          uri = codes "http://a/s";
          tree = one "$schema"
              (text "http://json-schema.org/draft-07/schema#");
          draft = Draft4;
        } ∷ [])
        ≡ refused_bundle 1 [] (NotEmbedded (UnnamedDraft Draft4)) }
{}

/// Pointers to what is added at the root of an embedded document, or has another value there; and pointers that go elsewhere.
pub fn added_members()
    ensures identifier { bundle_of_first (refers_to "s#/$id" ∷ new "http://a/s" empty ∷ [])
        ≡ refused_bundle 0 [] (AddedMember (codes "http://a/s") (codes "$id")) }
    ensures percent_encoded { bundle_of_first (refers_to "s#/%24id" ∷ new "http://a/s" empty ∷ [])
        ≡ refused_bundle 0 [] (AddedMember (codes "http://a/s") (codes "$id")) }
    ensures below_the_identifier { bundle_of_first
        (refers_to "s#/$id/x" ∷ new "http://a/s" empty ∷ [])
        ≡ refused_bundle 0 [] (AddedMember (codes "http://a/s") (codes "$id")) }
    ensures relative_identifier { bundle_of_first
        (refers_to "k/s#/$id" ∷ new "http://a/q" (one "$id" (text "k/s")) ∷ [])
        ≡ refused_bundle 0 [] (AddedMember (codes "http://a/k/s") (codes "$id")) }
    ensures from_itself { bundle_of_first
        (refers_to_s ∷ new "http://a/s" (one "not" (one "$dynamicRef" (text "#/$id"))) ∷ [])
        ≡ refused_bundle 1 (Key (codes "not") ∷ [])
        (AddedMember (codes "http://a/s") (codes "$id")) }
    ensures draft_4 { bundle_of_first (refers_to "s#/id"
        ∷ at Draft4 "http://a/s" (one "$schema" (text "http://json-schema.org/draft-04/schema#"))
        ∷ [])
        ≡ refused_bundle 0 [] (AddedMember (codes "http://a/s") (codes "id")) }
    ensures schema { bundle_of_first
        (refers_to "s#/$schema" ∷ at Draft7 "http://a/s" (one "$id" (text "http://a/s")) ∷ [])
        ≡ refused_bundle 0 [] (AddedMember (codes "http://a/s") (codes "$schema")) }
    ensures no_schema_added { bundle_of_first
        (refers_to "s#/$schema" ∷ new "http://a/s" (one "$id" (text "http://a/s")) ∷ [])
        ≡ bundle (two "$defs" (one "http://a/s" (one "$id" (text "http://a/s"))) "$ref"
        (text "s#/$schema")) (1 ∷ []) }
    ensures same_identifier { bundle_of_first
        (refers_to "s#/$id" ∷ new "http://a/s" (one "$id" (text "http://a/s")) ∷ [])
        ≡ bundle (two "$defs" (one "http://a/s" (one "$id" (text "http://a/s"))) "$ref"
        (text "s#/$id")) (1 ∷ []) }
    ensures other_key { bundle_of_first (refers_to "s#/~0id" ∷ new "http://a/s" empty ∷ [])
        ≡ bundle (two "$defs" (one "http://a/s" (one "$id" (text "http://a/s"))) "$ref"
        (text "s#/~0id")) (1 ∷ []) }
    ensures below_the_root { bundle_of_first
        (refers_to "t#/$id" ∷ new "http://a/s" (one "not" (one "$id" (text "t"))) ∷ [])
        ≡ bundle (two "$defs" (one "http://a/s"
        (two "$id" (text "http://a/s") "not" (one "$id" (text "t")))) "$ref"
        (text "t#/$id")) (1 ∷ []) }
    ensures of_the_root { bundle_of_first (refers_to "#/$id" ∷ [])
        ≡ bundle (one "$ref" (text "#/$id")) [] }
    ensures by_an_alias { bundle_of_first
        (refers_to "q#/$id" ∷ new "http://a/q" (one "$id" (text "k/s")) ∷ [])
        ≡ refused_bundle 0 [] (ReplacedUri (codes "http://a/q") (codes "http://a/k/s")) }
{}

/// Pointers from the root to a document that is embedded among its definitions, or to what is below it; and pointers that go
/// elsewhere.
pub fn added_definitions()
    ensures to_a_document { bundle_of_first
        (refers_twice "#/$defs/http:~1~1a~1s" ∷ new "http://a/s" empty ∷ [])
        ≡ refused_bundle 0 (Key (codes "not") ∷ [])
        (AddedMember (codes "http://a/r") (codes "http://a/s")) }
    ensures escaped { bundle_of_first
        (refers_twice "#/%24defs/http%3A~1~1a~1s" ∷ new "http://a/s" empty ∷ [])
        ≡ refused_bundle 0 (Key (codes "not") ∷ [])
        (AddedMember (codes "http://a/r") (codes "http://a/s")) }
    ensures below_it { bundle_of_first
        (refers_twice "#/$defs/http:~1~1a~1s/x/y" ∷ new "http://a/s" empty ∷ [])
        ≡ refused_bundle 0 (Key (codes "not") ∷ [])
        (AddedMember (codes "http://a/r") (codes "http://a/s")) }
    ensures among_others { bundle_of_first
        (new "http://a/r" (three "$defs" (one "z" yes) "$ref" (text "s") "not"
        (one "$ref" (text "#/$defs/http:~1~1a~1s"))) ∷ new "http://a/s" empty ∷ [])
        ≡ refused_bundle 0 (Key (codes "not") ∷ [])
        (AddedMember (codes "http://a/r") (codes "http://a/s")) }
    ensures from_it { bundle_of_first
        (refers_to_s ∷ new "http://a/s" (one "$dynamicRef" (text "r#/$defs/http:~1~1a~1s")) ∷ [])
        ≡ refused_bundle 1 [] (AddedMember (codes "http://a/r") (codes "http://a/s")) }
    ensures by_its_base { bundle_of_first (new "http://a/r" (two "$ref" (text "k/s") "not"
        (one "$ref" (text "#/$defs/http:~1~1a~1k~1s"))) ∷ new "http://a/q" (one "$id" (text "k/s"))
        ∷ [])
        ≡ refused_bundle 0 (Key (codes "not") ∷ [])
        (AddedMember (codes "http://a/r") (codes "http://a/k/s")) }
    ensures draft_7 { bundle_of_first (at Draft7 "http://a/r" (one "not" (one "allOf"
        (pair (one "$ref" (text "s")) (one "$ref" (text "#/definitions/http:~1~1a~1s")))))
        ∷ at Draft7 "http://a/s" empty ∷ [])
        ≡ refused_bundle 0 (Key (codes "not") ∷ Key (codes "allOf") ∷ Index 1 ∷ [])
        (AddedMember (codes "http://a/r") (codes "http://a/s")) }
    ensures the_definitions { bundle_of_first
        (refers_twice "#/$defs" ∷ new "http://a/s" empty ∷ [])
        ≡ bundle (refers_twice_to_s "#/$defs") (1 ∷ []) }
    ensures nothing_there { bundle_of_first
        (refers_twice "#/$defs/http:~1~1a~1u" ∷ new "http://a/s" empty ∷ new "http://a/u" empty
        ∷ [])
        ≡ bundle (refers_twice_to_s "#/$defs/http:~1~1a~1u") (1 ∷ []) }
    ensures under_another_key { bundle_of_first
        (refers_twice "#/x/http:~1~1a~1s" ∷ new "http://a/s" empty ∷ [])
        ≡ bundle (refers_twice_to_s "#/x/http:~1~1a~1s") (1 ∷ []) }
    ensures from_a_subschema { bundle_of_first (new "http://a/r" (two "$ref" (text "s") "not"
        (two "$id" (text "k") "$ref" (text "#/$defs/http:~1~1a~1s"))) ∷ new "http://a/s" empty ∷ [])
        ≡ bundle (three "$defs" (one "http://a/s" (one "$id" (text "http://a/s"))) "$ref" (text "s")
        "not" (two "$id" (text "k") "$ref" (text "#/$defs/http:~1~1a~1s"))) (1 ∷ []) }
    ensures of_nothing_embedded { bundle_of_first
        (refers_to "#/$defs/http:~1~1a~1r" ∷ new "http://a/s" empty ∷ [])
        ≡ bundle (one "$ref" (text "#/$defs/http:~1~1a~1r")) [] }
{}

/// Documents with further places, which refer to others that are embedded: by no keyword; to what a bundle adds; and in a root that
/// is no object, and so can't have others.
pub fn further_places()
    ensures by_no_keyword { bundle_of_first
        (new "http://a/r" (one "x" (one "$ref" (text "s"))) ∷ new "http://a/s" empty ∷ [])
        ≡ bundle (one "x" (one "$ref" (text "s"))) [] }
    ensures of_two { bundle_with_further
        ((seen_at 0 (Key (codes "x") ∷ []) "http://a/r" "s" ∷ []) ∷ [])
        (new "http://a/r" (one "x" (one "$ref" (text "s"))) ∷ new "http://a/s" empty ∷ [])
        ≡ bundle
        (two "$defs" (one "http://a/s" (one "$id" (text "http://a/s"))) "x"
        (one "$ref" (text "s")))
        (1 ∷ []) }
    ensures to_the_identifier { bundle_with_further
        ((seen_at 0 (Key (codes "x") ∷ []) "http://a/r" "s#/$id" ∷ []) ∷ [])
        (new "http://a/r" (one "x" (one "$ref" (text "s#/$id"))) ∷ new "http://a/s" empty ∷ [])
        ≡ refused_bundle 0 (Key (codes "x") ∷ [])
        (AddedMember (codes "http://a/s") (codes "$id")) }
    ensures no_object { bundle_with_further
        ((seen_at 0 (Index 0 ∷ []) "http://a/r" "s" ∷ []) ∷ [])
        (new "http://a/r" (pair (one "$ref" (text "s")) yes) ∷ new "http://a/s" empty ∷ [])
        ≡ refused_bundle 0 [] (NotEmbedded NotAnObject) }
{}

/// Roots that can't have definitions, and places that would mean others.
pub fn refusals()
    ensures no_document { bundle_of_first [] ≡ refused_bundle 0 [] NoDocument }
    ensures no_map { bundle_of_first
        (new "http://a/r" (two "$defs" yes "$ref" (text "s")) ∷ new "http://a/s" empty ∷ [])
        ≡ refused_bundle 0 (Key (codes "$defs") ∷ []) NoMap }
    ensures key_taken { bundle_of_first
        (new "http://a/r" (with_definition "http://a/s" yes) ∷ new "http://a/s" empty ∷ [])
        ≡ refused_bundle 0 (Key (codes "$defs") ∷ Key (codes "http://a/s") ∷ [])
        (KeyTaken (codes "http://a/s")) }
    ensures shared_by_another { bundle_of_first
        (new "http://a/r" (two "$ref" (text "s") "not" (one "$id" (text "k")))
        ∷ new "http://a/s" empty ∷ new "http://a/k" empty ∷ [])
        ≡ refused_bundle 0 (Key (codes "not")
        ∷ []) (SharedUri (codes "http://a/k") 2 []) }
    ensures shared_in_one { bundle_of_first
        (new "http://a/r" (one "allOf" (pair (one "$id" (text "k")) (one "$id"
        (text "k")))) ∷ []) ≡ refused_bundle 0 (Key (codes "allOf") ∷ Index 0
        ∷ []) (SharedUri (codes "http://a/k") 0 (Key (codes "allOf") ∷ Index 1 ∷ [])) }
    ensures replaced { bundle_of_first
        (refers_to_s ∷ new "http://a/s" (one "$id" (text "http://b/t")) ∷ [])
        ≡ refused_bundle 0 [] (ReplacedUri (codes "http://a/s") (codes "http://b/t")) }
    ensures shadowed { bundle_above (new "http://a/s" (one "$id" (text "http://b/t")))
        (refers_to "s#n" ∷ new "http://a/u" (one "not" (one "$id" (text "http://b/t"))) ∷ [])
        ≡ refused_bundle 0 []
        (ShadowedUri (codes "http://a/s") (codes "http://b/t") 1 (Key (codes "not") ∷ [])) }
    ensures shadowed_as_a_whole { bundle_above (new "http://a/s" (one "$id" (text "http://b/t")))
        (refers_to_s ∷ new "http://b/t" empty ∷ [])
        ≡ bundle (one "$ref" (text "s")) [] }
    ensures shadowed_by_a_pointer { bundle_above (new "http://a/s" (one "$id" (text "http://b/t")))
        (refers_to "s#/x" ∷ new "http://b/t" empty ∷ [])
        ≡ bundle (one "$ref" (text "s#/x")) [] }
    ensures shadowed_by_none { bundle_above (new "http://a/s" (one "$id" (text "http://b/t")))
        (refers_to "s#n" ∷ new "http://a/u" empty ∷ [])
        ≡ bundle (one "$ref" (text "s#n")) [] }
    ensures meant_by_its_identifier { bundle_above
        (new "http://b/t" (one "$id" (text "http://a/s")))
        (refers_to "s#n" ∷ new "http://b/t" empty ∷ [])
        ≡ bundle (one "$ref" (text "s#n")) [] }
    ensures of_the_root { bundle_of_first
        (new "http://a/r" (three "$id" (text "http://b/t") "$ref" (text "http://a/s") "not"
        (one "$ref" (text "http://a/r"))) ∷ new "http://a/s" empty ∷ [])
        ≡ bundle renamed_root (1 ∷ []) }
    ensures in_order { bundle_of_first
        (refers_to_s ∷ new "http://a/s" (two "$id" (whole_number 1) "$ref" (text "t"))
        ∷ new "http://a/t" yes ∷ []) ≡ refused_bundle 1 [] (NotEmbedded NotAnIdentifier) }
{}
