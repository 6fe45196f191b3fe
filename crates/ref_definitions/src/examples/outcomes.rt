//! What preparing a registry may return.
ghost use Rattle.std.specs.Prelude.{◌≡◌, true, false, [], ◌∷◌, codes, Ok, Err};
ghost use Rattle.ref_draft.specs.declared.draft.Draft.TheVariants.{Draft7, Draft202012};
ghost use Rattle.ref_uri.specs.Targets.{parse_refusal};
ghost use Rattle.ref_definitions.specs.Fault.{InvalidUri, RetrievalLimit, Unretrievable, UnknownSpecification};
ghost use Rattle.ref_definitions.specs.Wants.{Reference, MetaSchema};
ghost use Rattle.ref_definitions.specs.Preparing.{IsOutcome, IsRun, refusal_fault};
ghost use Rattle.ref_definitions.specs.Retrievers.{default_retriever, map_retriever};
ghost use Rattle.ref_definitions.specs.Closure.{given_by, IsRetrieved, AreRetrieved, IsClosure, IsReady, IsUsedUp, DocumentsAlone, FirstFaultAlone};
ghost use Rattle.ref_definitions.specs.Appending.{HasMeaning};
ghost use Rattle.ref_definitions.specs.Rows.{world, at, yes, empty, text, one, two, refers_to_b, b_refers_to_c, c_is_true, given_documents, given_with, given_alone, refused_within, has_b, has_b_and_c, alone};

/// What the library's retrievers may return and refuse.
pub fn retrievers()
    ensures default_refuses { default_retriever.may_refuse (codes "http://a/b")
        (codes "Default retriever does not fetch resources") }
    ensures default_refuses_with_no_other_text { ¬ (default_retriever.may_refuse
        (codes "http://a/b") (codes "no document under this URI")) }
    ensures default_answers_nothing { ¬ (default_retriever.may_answer (codes "http://a/b") yes) }
    ensures map_answers { has_b.may_answer (codes "http://a/b") (one "$ref" (text "c")) }
    ensures map_answers_the_last { (map_retriever
        ((codes "a:b", yes) ∷ (codes "a:b", empty) ∷ [])).may_answer
        (codes "a:b") empty }
    ensures map_answers_no_other { ¬ (has_b.may_answer (codes "http://a/b") yes) }
    ensures map_answers_nothing_it_lacks { ¬ (has_b.may_answer (codes "http://a/c") yes) }
    ensures map_refuses_what_it_lacks { has_b.may_refuse (codes "http://a/c")
        (codes "no document under this URI") }
    ensures map_refuses_nothing_it_has { ¬ (has_b.may_refuse (codes "http://a/b")
        (codes "no document under this URI")) }
{}

/// Runs of retrieval.
pub fn runs()
    ensures begun { IsRun (given_with 2) 0 (refers_to_b ∷ []) }
    ensures begun_without_a_document { IsRun (given_alone []) 0 [] }
    ensures retrieved { IsRun (given_with 2) 1 (refers_to_b ∷ b_refers_to_c ∷ []) }
    ensures retrieved_twice { IsRun (given_documents has_b_and_c 2 (refers_to_b ∷ [])) 2
        (refers_to_b ∷ b_refers_to_c ∷ c_is_true ∷ []) }
    ensures not_begun_with_less { ¬ (IsRun (given_with 2) 0 []) }
    ensures not_counted_twice { ¬ (IsRun (given_with 2) 2 (refers_to_b ∷ b_refers_to_c ∷ [])) }
{}

/// The limit, and refusals of the retriever.
pub fn limits_and_refusals()
    ensures limit_of_none { IsOutcome (given_with 0) (Err (RetrievalLimit (codes "http://a/b") 0)) }
    ensures limit_of_one { IsOutcome (given_with 1) (Err (RetrievalLimit (codes "http://a/c") 1)) }
    ensures refused { IsOutcome (given_with 2)
        (Err (Unretrievable (codes "http://a/c") (codes "no document under this URI"))) }
    ensures refused_by_default { IsOutcome (given_alone (refers_to_b ∷ []))
        (Err (Unretrievable (codes "http://a/b")
        (codes "Default retriever does not fetch resources"))) }
    ensures refused_meta_schema { IsOutcome
        (given_alone (at Draft202012 "http://a/r" (one "$schema" (text "http://a/meta#")) ∷ []))
        (Err (UnknownSpecification (codes "http://a/meta"))) }
    ensures refused_relative_meta_schema { IsOutcome
        (given_alone (at Draft202012 "http://a/r" (one "$schema" (text "invalid")) ∷ []))
        (Err (UnknownSpecification (codes "json-schema:///invalid"))) }
    ensures missing_meta_schema { IsOutcome
        (given_documents (map_retriever []) 10000
        (at Draft202012 "http://a/r" (one "$schema" (text "http://a/meta#")) ∷ []))
        (Err (UnknownSpecification (codes "http://a/meta"))) }
    ensures no_other_limit { ¬ (IsOutcome (given_with 2)
        (Err (RetrievalLimit (codes "http://a/c") 1))) }
    ensures as_a_reference { refusal_fault Reference (codes "a:b")
        (codes "no document under this URI")
        ≡ Unretrievable (codes "a:b") (codes "no document under this URI") }
    ensures as_a_meta_schema { refusal_fault MetaSchema (codes "a:b")
        (codes "no document under this URI")
        ≡ UnknownSpecification (codes "a:b") }
{}

/// Layers without an open want.
pub fn ready_layers()
    ensures nothing_wanted { IsOutcome (given_alone (at Draft202012 "http://a/r" empty ∷ []))
        (Ok (at Draft202012 "http://a/r" empty ∷ [])) }
    ensures own_reference { IsOutcome
        (given_alone (at Draft202012 "http://a/r" (two "$id" (text "#x") "$ref" (text "")) ∷ []))
        (Ok (at Draft202012 "http://a/r" (two "$id" (text "#x") "$ref" (text "")) ∷ [])) }
    ensures both_retrieved { IsOutcome (given_documents has_b_and_c 2 (refers_to_b ∷ []))
        (Ok (refers_to_b ∷ b_refers_to_c ∷ c_is_true ∷ [])) }
    ensures of_a_parent { IsOutcome
        (record {
          retriever = default_retriever;
          limit = 10000;
          draft = Draft202012;
          parents = alone Draft202012 "http://json-schema.org/draft-07/schema"
              (one "title" (text "m"));
          documents = at Draft202012 "http://a/r"
              (one "$ref" (text "http://json-schema.org/draft-07/schema#"))
              ∷ [];
        })
        (Ok (at Draft202012 "http://a/r"
        (one "$ref" (text "http://json-schema.org/draft-07/schema#"))
        ∷ [])) }
    ensures retrieved_with_an_identifier { IsOutcome
        (given_documents
        (map_retriever ((codes "http://a/b", one "$id" (text "http://o/")) ∷ [])) 10000
        (refers_to_b ∷ []))
        (Ok (refers_to_b ∷ at Draft202012 "http://a/b" (one "$id" (text "http://o/")) ∷ [])) }
    ensures meta_schema_retrieved { IsOutcome
        (given_documents (map_retriever ((codes "http://a/meta", yes) ∷ [])) 1
        (at Draft202012 "http://a/r" (one "$schema" (text "http://a/meta#")) ∷ []))
        (Ok (at Draft202012 "http://a/r" (one "$schema" (text "http://a/meta#"))
        ∷ at Draft202012 "http://a/meta" yes ∷ [])) }
{}

/// The first fault of a run.
pub fn faulty_runs()
    ensures identifier { IsOutcome
        (given_alone
        (at Draft202012 "http://a/r" refused_within ∷ []))
        (Err (InvalidUri (parse_refusal (codes "a b")))) }
    ensures hidden_identifier { IsOutcome
        (given_alone
        (at Draft7 "http://a/r" refused_within ∷ []))
        (Err (InvalidUri (parse_refusal (codes "c d")))) }
    ensures of_a_retrieved_document { IsOutcome
        (given_documents (map_retriever ((codes "http://a/b", one "$ref" (text "c d")) ∷ [])) 1
        (refers_to_b ∷ []))
        (Err (InvalidUri (parse_refusal (codes "c d")))) }
{}

/// What runs add, and which URIs have a meaning.
pub fn closures()
    ensures nothing_retrieved { IsClosure (given_with 2) 0 (refers_to_b ∷ []) }
    ensures one_retrieved { IsClosure (given_with 2) 1 (refers_to_b ∷ b_refers_to_c ∷ []) }
    ensures two_retrieved { IsClosure (given_documents has_b_and_c 2 (refers_to_b ∷ [])) 2
        (refers_to_b ∷ b_refers_to_c ∷ c_is_true ∷ []) }
    ensures not_without_what_was_added { ¬ (IsClosure (given_with 2) 0 []) }
    ensures not_counted_twice { ¬ (IsClosure (given_with 2) 2 (refers_to_b ∷ b_refers_to_c ∷ [])) }
    ensures none_behind { AreRetrieved (given_with 2) (refers_to_b ∷ []) [] }
    ensures no_refusal_without_a_test { ¬ ((given_by (λ uri tree. true) (λ uri text. false) 3 Draft7
        [] []).retriever.may_refuse
        (codes "a:b") (codes "no")) }
    ensures answer_by_a_test { (given_by (λ uri tree. true) (λ uri text. false) 3 Draft7 []
        []).retriever.may_answer
        (codes "a:b") yes }
    ensures of_a_retrieved_document { HasMeaning
        (world (refers_to_b ∷ at Draft202012 "http://a/b" (one "$id" (text "http://o/")) ∷ []))
        (codes "http://a/b") }
    ensures of_its_identifier { HasMeaning
        (world (refers_to_b ∷ at Draft202012 "http://a/b" (one "$id" (text "http://o/")) ∷ []))
        (codes "http://o/") }
    ensures own_meaning { HasMeaning (world (refers_to_b ∷ [])) (codes "http://a/r") }
    ensures no_meaning { ¬ (HasMeaning (world (refers_to_b ∷ [])) (codes "http://a/b")) }
{}

/// What a document was retrieved for, and what holds of a ready layer, of a limit that is used up, and of one outcome alone.
pub fn retrieved_documents()
    ensures after_the_first { IsRetrieved (given_with 2) (refers_to_b ∷ []) b_refers_to_c }
    ensures after_the_second { IsRetrieved (given_documents has_b_and_c 2 (refers_to_b ∷ []))
        (refers_to_b ∷ b_refers_to_c ∷ []) c_is_true }
    ensures not_twice { ¬ (IsRetrieved (given_with 2)
        (refers_to_b ∷ b_refers_to_c ∷ []) b_refers_to_c) }
    ensures not_both { ¬ (AreRetrieved (given_with 2) (refers_to_b ∷ [])
        (b_refers_to_c ∷ b_refers_to_c ∷ [])) }
    ensures each { AreRetrieved (given_documents has_b_and_c 2 (refers_to_b ∷ []))
        (refers_to_b ∷ []) (b_refers_to_c ∷ c_is_true ∷ []) }
    ensures ready_at_once { IsReady (given_alone (c_is_true ∷ [])) (c_is_true ∷ []) }
    ensures ready_after_two { IsReady (given_documents has_b_and_c 2 (refers_to_b ∷ []))
        (refers_to_b ∷ b_refers_to_c ∷ c_is_true ∷ []) }
    ensures not_ready { ¬ (IsReady (given_with 2) (refers_to_b ∷ b_refers_to_c ∷ [])) }
    ensures used_up { IsUsedUp (given_with 1) (codes "http://a/c") 1 }
    ensures used_up_at_once { IsUsedUp (given_with 0) (codes "http://a/b") 0 }
    ensures not_used_up { ¬ (IsUsedUp (given_with 2) (codes "http://a/c") 1) }
    ensures documents_alone { DocumentsAlone (given_alone (c_is_true ∷ [])) (Ok (c_is_true ∷ [])) }
    ensures no_other_documents { IsOutcome (given_alone (c_is_true ∷ [])) (Ok []) → ⊥ }
    ensures first_fault_alone { FirstFaultAlone
        (given_alone (at Draft202012 "http://a/r" (one "$ref" (text "c d")) ∷ []))
        (Err (InvalidUri (parse_refusal (codes "c d")))) }
    ensures no_other_fault { IsOutcome
        (given_alone (at Draft202012 "http://a/r" (one "$ref" (text "c d")) ∷ []))
        (Ok (at Draft202012 "http://a/r" (one "$ref" (text "c d")) ∷ []))
        → ⊥ }
{}
