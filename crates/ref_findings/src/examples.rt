//! Rows of the definitions. Each function is empty: its contract states rows, and the check computes them.
#![tactic(auto, unfolding(ref_definitions::proofs::OnLiterals::world_on_literals))]

ghost use Rattle.std.specs.Prelude.{◌≡◌, [], ◌∷◌, codes};
ghost use Rattle.ref_paths.specs.Path.{Key, Index};
ghost use Rattle.ref_draft.specs.declared.draft.Draft.TheVariants.{Draft7, Draft201909, Draft202012};
ghost use Rattle.ref_uri.specs.Targets.{parse_refusal};
ghost use Rattle.ref_definitions.specs.Fault.{PointerToNowhere, NoSuchAnchor};
ghost use Rattle.ref_definitions.specs.Rows.{yes, text, empty, one, two, pair};
ghost use Rattle.ref_findings.specs.Findings.{findings, references, NotJson, NotChecked, NotAText, RecursiveElsewhere, NamesNothing, InvalidUri, MissingDocument, LeadsNowhere, Unchecked, UnknownDialect, DuplicateIdentifier, DuplicateAnchor, GuessedDraft, ListOfItems};
ghost use Rattle.serde_json.specs.Data.{null};
ghost use Rattle.ref_findings.specs.Unmet.{unmet, without_texts};
ghost use Rattle.ref_findings.specs.Rows.{source, unread_source, finding_on, finding_without_text, finding_whole};

/// What is wrong with references.
pub fn references()
    ensures pointer { findings Draft202012 (source "http://a/r" (one "$ref" (text "#/x")) ∷ []) []
        ≡ finding_on 0 [] "$ref" "#/x"
        (LeadsNowhere (codes "http://a/r") (PointerToNowhere (codes "/x")))
        ∷ [] }
    ensures anchor { findings Draft7 (source "http://a/r" (one "not" (one "$ref" (text "#n"))) ∷ [])
        []
        ≡ finding_on 0 (Key (codes "not") ∷ []) "$ref" "#n"
        (LeadsNowhere (codes "http://a/r") (NoSuchAnchor (codes "n")))
        ∷ [] }
    ensures missing { findings Draft202012 (source "http://a/r" (one "$ref" (text "s#/x")) ∷ []) []
        ≡ finding_on 0 [] "$ref" "s#/x" (MissingDocument (codes "http://a/s")) ∷ [] }
    ensures held { findings Draft202012 (source "http://a/r" (one "$ref" (text "s")) ∷ [])
        (source "http://a/s" empty ∷ [])
        ≡ [] }
    ensures no_uri { findings Draft202012 (source "http://a/r" (one "$ref" (text "a b")) ∷ []) []
        ≡ finding_on 0 [] "$ref" "a b" (InvalidUri (parse_refusal (codes "a b"))) ∷ [] }
    ensures meta_schema { findings Draft202012
        (source "http://a/r" (one "$ref" (text "http://json-schema.org/draft-07/schema#")) ∷ [])
        []
        ≡ [] }
    ensures fragment_of_a_meta_schema { findings Draft202012
        (source "http://a/r" (one "$ref" (text "http://json-schema.org/draft-07/schema#/x"))
        ∷ [])
        []
        ≡ finding_on 0 [] "$ref" "http://json-schema.org/draft-07/schema#/x"
        (Unchecked (codes "http://json-schema.org/draft-07/schema"))
        ∷ [] }
{}

/// What counts as a reference: a text under `$ref` where a schema is.
pub fn counts()
    ensures of_schemas { references Draft202012
        (source "http://a/r" (two "$ref" (text "#") "not" (one "$ref" (text "#")))
        ∷ unread_source "http://a/s" ∷ [])
        ≡ 2 }
    ensures of_values { references Draft202012
        (source "http://a/r" (one "const" (one "$ref" (text "#"))) ∷ [])
        ≡ 0 }
    ensures of_no_texts { references Draft202012 (source "http://a/r" (one "$ref" empty) ∷ []) ≡ 0 }
{}

/// What hides nothing: sources that are no JSON, and texts that mean no URI.
pub fn sources_that_are_not_sound()
    ensures no_json { findings Draft202012
        (source "http://a/r" (one "$ref" (text "s#/x")) ∷ unread_source "http://a/s" ∷ []) []
        ≡ finding_whole 1 NotJson ∷ [] }
    ensures faulty { findings Draft202012
        (source "http://a/r" (one "$ref" (text "s#/x"))
        ∷ source "http://a/s"
        (one "allOf" (pair (one "$ref" (text "a b")) (one "$ref" (text "t"))))
        ∷ [])
        []
        ≡ finding_on 0 [] "$ref" "s#/x"
        (LeadsNowhere (codes "http://a/s") (PointerToNowhere (codes "/x")))
        ∷ finding_on 1 (Key (codes "allOf") ∷ Index 0 ∷ []) "$ref" "a b"
        (InvalidUri (parse_refusal (codes "a b")))
        ∷ finding_on 1 (Key (codes "allOf") ∷ Index 1 ∷ []) "$ref" "t"
        (MissingDocument (codes "http://a/t"))
        ∷ [] }
    ensures below_a_faulty_identifier { findings Draft202012
        (source "http://a/r" (two "$id" (text "a b") "not" (one "$ref" (text "t"))) ∷ []) []
        ≡ finding_on 0 [] "$id" "a b" (InvalidUri (parse_refusal (codes "a b")))
        ∷ finding_on 0 (Key (codes "not") ∷ []) "$ref" "t"
        (MissingDocument (codes "http://a/t"))
        ∷ [] }
{}

/// What is no text, what is no `#`, and dynamic references.
pub fn other_references()
    ensures no_text { findings Draft202012 (source "http://a/r" (one "$ref" yes) ∷ []) []
        ≡ finding_without_text 0 [] "$ref" NotAText ∷ [] }
    ensures dynamic { findings Draft202012
        (source "http://a/r" (one "$dynamicRef" (text "#n")) ∷ []) []
        ≡ finding_on 0 [] "$dynamicRef" "#n"
        (LeadsNowhere (codes "http://a/r") (NoSuchAnchor (codes "n")))
        ∷ [] }
    ensures recursive { findings Draft201909
        (source "http://a/r" (one "$recursiveRef" (text "#/x")) ∷ []) []
        ≡ finding_on 0 [] "$recursiveRef" "#/x" RecursiveElsewhere ∷ [] }
    ensures recursive_root { findings Draft201909
        (source "http://a/r" (one "$recursiveRef" (text "#")) ∷ []) []
        ≡ [] }
    ensures of_another_draft { findings Draft7
        (source "http://a/r" (two "$dynamicRef" (text "#n") "$recursiveRef" (text "#/x")) ∷ [])
        []
        ≡ [] }
{}

/// Documents that are API descriptions.
pub fn descriptions()
    ensures openapi { findings Draft202012 (source "http://a/r" (one "openapi" (text "3.1.0")) ∷ [])
        []
        ≡ finding_on 0 [] "openapi" "3.1.0" NotChecked ∷ [] }
    ensures no_text { findings Draft202012 (source "http://a/r" (one "swagger" yes) ∷ []) []
        ≡ finding_without_text 0 [] "swagger" NotChecked ∷ [] }
    ensures other { findings Draft202012 (source "http://a/r" (one "info" yes) ∷ []) [] ≡ [] }
{}

/// Two sources with one identifier.
pub fn one_identifier()
    ensures own_references { findings Draft202012
        (source "http://a/r"
        (two "$id" (text "http://b/x") "allOf" (pair (one "$anchor" (text "n")) (one "$ref" (text "#n"))))
        ∷ source "http://a/s" (two "$id" (text "http://b/x") "$anchor" (text "m"))
        ∷ [])
        []
        ≡ finding_on 1 [] "$id" "http://b/x" (DuplicateIdentifier (codes "http://b/x") 0 [])
        ∷ [] }
    ensures others { findings Draft202012
        (source "http://a/r" (two "$id" (text "http://b/x") "$anchor" (text "n"))
        ∷ source "http://a/s" (two "$id" (text "http://b/x") "$anchor" (text "n"))
        ∷ source "http://a/t" (one "$ref" (text "http://b/x#n"))
        ∷ [])
        []
        ≡ finding_on 1 [] "$id" "http://b/x" (DuplicateIdentifier (codes "http://b/x") 0 [])
        ∷ [] }
    ensures pointer { findings Draft7 (source "http://a/r" (one "$id" (text "#/x")) ∷ []) []
        ≡ finding_on 0 [] "$id" "#/x" NamesNothing ∷ [] }
{}

/// Documents whose draft is guessed.
pub fn guessed_drafts()
    ensures referred { findings Draft202012
        (source "http://a/r"
        (two "$ref" (text "s") "$schema" (text "http://json-schema.org/draft-07/schema#"))
        ∷ source "http://a/s" empty ∷ [])
        []
        ≡ finding_whole 1 (GuessedDraft Draft7 0 []) ∷ [] }
    ensures by_its_identifier { findings Draft202012
        (source "http://a/r"
        (two "$ref" (text "http://b/x") "$schema" (text "http://json-schema.org/draft-07/schema#"))
        ∷ source "http://a/s" (one "$id" (text "http://b/x")) ∷ [])
        []
        ≡ finding_whole 1 (GuessedDraft Draft7 0 []) ∷ [] }
    ensures of_the_same_draft { findings Draft7
        (source "http://a/r"
        (two "$ref" (text "s") "$schema" (text "http://json-schema.org/draft-07/schema#"))
        ∷ source "http://a/s" empty ∷ [])
        []
        ≡ [] }
    ensures named { findings Draft202012
        (source "http://a/r"
        (two "$ref" (text "s") "$schema" (text "http://json-schema.org/draft-07/schema#"))
        ∷ source "http://a/s" (one "$schema" (text "http://json-schema.org/draft-06/schema#"))
        ∷ [])
        []
        ≡ [] }
    ensures no_uri { findings Draft202012
        (source "http://a/r" (two "$schema" (text "a b") "items" (pair yes yes)) ∷ []) []
        ≡ finding_on 0 [] "$schema" "a b" (InvalidUri (parse_refusal (codes "a b")))
        ∷ finding_without_text 0 [] "items" ListOfItems ∷ [] }
    ensures within_itself { findings Draft202012
        (source "http://a/r"
        (one "not" (two "$ref" (text "r") "$schema" (text "http://json-schema.org/draft-07/schema#")))
        ∷ [])
        []
        ≡ [] }
    ensures list_of_items { findings Draft202012
        (source "http://a/r" (one "not" (one "items" (pair yes yes))) ∷ []) []
        ≡ finding_without_text 0 (Key (codes "not") ∷ []) "items" ListOfItems ∷ [] }
    ensures one_of_two_lists { findings Draft202012
        (source "http://a/r" (two "items" (pair yes yes) "not" (one "items" (pair yes yes)))
        ∷ [])
        []
        ≡ finding_without_text 0 [] "items" ListOfItems ∷ [] }
    ensures items_of_2019 { findings Draft201909
        (source "http://a/r" (one "items" (pair yes yes)) ∷ []) []
        ≡ [] }
    ensures one_schema { findings Draft202012 (source "http://a/r" (one "items" yes) ∷ []) [] ≡ [] }
{}

/// Names of meta-schemas.
pub fn meta_schemas()
    ensures unknown { findings Draft202012
        (source "http://a/r" (one "$schema" (text "http://v/d#")) ∷ []) []
        ≡ finding_on 0 [] "$schema" "http://v/d#" (UnknownDialect (codes "http://v/d")) ∷ [] }
    ensures among_the_sources { findings Draft202012
        (source "http://a/r" (one "$schema" (text "http://v/d#")) ∷ source "http://v/d" empty
        ∷ [])
        []
        ≡ [] }
    ensures known { findings Draft202012
        (source "http://a/r" (one "$schema" (text "http://json-schema.org/draft-07/schema#"))
        ∷ [])
        []
        ≡ [] }
{}

/// URIs and names that two places have.
pub fn duplicates()
    ensures identifiers { findings Draft202012
        (source "http://a/r" (one "allOf" (pair (one "$id" (text "k")) (one "$id" (text "k"))))
        ∷ [])
        []
        ≡ finding_on 0 (Key (codes "allOf") ∷ Index 1 ∷ []) "$id" "k"
        (DuplicateIdentifier (codes "http://a/k") 0 (Key (codes "allOf") ∷ Index 0 ∷ []))
        ∷ [] }
    ensures uri_of_a_source { findings Draft202012
        (source "http://a/r" (one "not" (one "$id" (text "s"))) ∷ source "http://a/s" yes ∷ [])
        []
        ≡ finding_whole 1 (DuplicateIdentifier (codes "http://a/s") 0 (Key (codes "not") ∷ []))
        ∷ [] }
    ensures its_own { findings Draft202012 (source "http://a/r" (one "$id" (text "r")) ∷ []) []
        ≡ [] }
    ensures anchors { findings Draft202012
        (source "http://a/r" (two "$anchor" (text "n") "not" (one "$anchor" (text "n"))) ∷ [])
        []
        ≡ finding_on 0 (Key (codes "not") ∷ []) "$anchor" "n"
        (DuplicateAnchor (codes "http://a/r") 0 [])
        ∷ [] }
    ensures of_two_resources { findings Draft202012
        (source "http://a/r"
        (two "$anchor" (text "n") "not" (two "$anchor" (text "n") "$id" (text "k")))
        ∷ [])
        []
        ≡ [] }
    ensures no_name { findings Draft7
        (source "http://a/r" (one "allOf" (pair (one "$id" (text "#")) (one "$id" (text "#"))))
        ∷ [])
        []
        ≡ [] }
    ensures plain_and_dynamic { findings Draft202012
        (source "http://a/r" (two "$anchor" (text "n") "$dynamicAnchor" (text "n")) ∷ []) []
        ≡ [] }
{}

/// The texts for which a registry can't be prepared of sources.
pub fn unmet_texts()
    ensures missing { unmet Draft202012 (source "http://a/r" (one "$ref" (text "s#/x")) ∷ [])
        ≡ (finding_on 0 [] "$ref" "s#/x" (MissingDocument (codes "http://a/s")) ∷ []) ∷ [] }
    ensures there { unmet Draft202012
        (source "http://a/r" (one "$ref" (text "s#/x")) ∷ source "http://a/s" empty ∷ [])
        ≡ [] ∷ [] ∷ [] }
    ensures by_its_identifier { unmet Draft202012
        (source "http://a/r" (one "$ref" (text "http://b/x"))
        ∷ source "http://a/s" (one "not" (one "$id" (text "http://b/x")))
        ∷ [])
        ≡ [] ∷ [] ∷ [] }
    ensures no_uri { unmet Draft202012
        (source "http://a/r" empty ∷ source "http://a/s" (one "$ref" (text "a b")) ∷ [])
        ≡ []
        ∷ (finding_on 1 [] "$ref" "a b" (InvalidUri (parse_refusal (codes "a b"))) ∷ [])
        ∷ [] }
    ensures below_a_faulty_identifier { unmet Draft202012
        (source "http://a/r" (two "$id" (text "a b") "not" (one "$ref" (text "t"))) ∷ [])
        ≡ (finding_on 0 [] "$id" "a b" (InvalidUri (parse_refusal (codes "a b")))
        ∷ finding_on 0 (Key (codes "not") ∷ []) "$ref" "t"
        (MissingDocument (codes "http://a/t"))
        ∷ [])
        ∷ [] }
    ensures dialect { unmet Draft202012 (source "http://a/r" (one "$schema" (text "a b")) ∷ [])
        ≡ (finding_on 0 [] "$schema" "a b" (InvalidUri (parse_refusal (codes "a b"))) ∷ []) ∷ [] }
    ensures meta_schema_of_a_draft { unmet Draft202012
        (source "http://a/r" (one "$ref" (text "http://json-schema.org/draft-07/schema#")) ∷ [])
        ≡ (finding_on 0 [] "$ref" "http://json-schema.org/draft-07/schema#"
        (MissingDocument (codes "http://json-schema.org/draft-07/schema"))
        ∷ [])
        ∷ [] }
    ensures pointer_to_nowhere { unmet Draft202012
        (source "http://a/r" (one "$ref" (text "#/x")) ∷ [])
        ≡ [] ∷ [] }
    ensures dynamic { unmet Draft202012 (source "http://a/r" (one "$dynamicRef" (text "s")) ∷ [])
        ≡ [] ∷ [] }
{}

/// Trees with `null` in place of texts.
pub fn trees_without_texts()
    ensures one_text { without_texts
        (finding_on 0 (Key (codes "not") ∷ []) "$ref" "s" NotAText ∷ [])
        (two "$ref" (text "s") "not" (one "$ref" (text "s")))
        ≡ two "$ref" (text "s") "not" (one "$ref" null) }
    ensures in_a_list { without_texts
        (finding_on 0 (Key (codes "allOf") ∷ Index 1 ∷ []) "$ref" "s" NotAText ∷ [])
        (one "allOf" (pair (one "$ref" (text "s")) (one "$ref" (text "s"))))
        ≡ one "allOf" (pair (one "$ref" (text "s")) (one "$ref" null)) }
    ensures no_text { without_texts [] (one "$ref" (text "s")) ≡ one "$ref" (text "s") }
{}
