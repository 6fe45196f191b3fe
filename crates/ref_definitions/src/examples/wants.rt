//! What documents want, and what is wrong with them.
#![tactic(auto, unfolding(crate::proofs::OnLiterals::world_on_literals))]

ghost use Rattle.std.specs.Prelude.{◌≡◌, true, false, [], ◌∷◌, codes, Some, None, Ok, Err};
ghost use Rattle.ref_draft.specs.declared.draft.Draft.TheVariants.{Draft7, Draft202012};
ghost use Rattle.ref_uri.specs.Targets.{parse_refusal};
ghost use Rattle.ref_definitions.specs.Wants.{Reference, MetaSchema, schema_uri, reference_at, schema_at, wants_of_text, refusals_of, wants_at, faults_at, wants, faults, is_open, open_wants};
ghost use Rattle.ref_definitions.specs.Rows.{world, at, yes, text, one, two, refers_to_b, b_refers_to_c, alone};

/// Which URIs are wanted.
pub fn wants_of_layers()
    ensures reference { wants (refers_to_b ∷ [])
        ≡ record { cause = Reference; uri = codes "http://a/b" } ∷ [] }
    ensures reference_before_meta_schema { wants
        (at Draft202012 "http://a/r" (two "$ref" (text "b#/x") "$schema" (text "invalid")) ∷ [])
        ≡ record { cause = Reference; uri = codes "http://a/b" }
        ∷ record { cause = MetaSchema; uri = codes "json-schema:///invalid" } ∷ [] }
    ensures by_documents_and_places { wants
        (at Draft202012 "http://a/r" (one "not" (one "$ref" (text "x"))) ∷ b_refers_to_c ∷ [])
        ≡ record { cause = Reference; uri = codes "http://a/x" }
        ∷ record { cause = Reference; uri = codes "http://a/c" } ∷ [] }
    ensures known_meta_schema { wants
        (at Draft202012 "http://a/r"
        (one "$schema" (text "http://json-schema.org/draft-07/schema#"))
        ∷ [])
        ≡ [] }
    ensures no_schema_place { wants
        (at Draft202012 "http://a/r" (one "const" (one "$ref" (text "b"))) ∷ [])
        ≡ [] }
    ensures no_text { wants (at Draft202012 "http://a/r" (one "$ref" yes) ∷ []) ≡ [] }
{}

/// Which wants are open.
pub fn open_wants_of_layers()
    ensures reference { open_wants (world (refers_to_b ∷ [])) (refers_to_b ∷ [])
        ≡ record { cause = Reference; uri = codes "http://a/b" } ∷ [] }
    ensures meta_schema { open_wants
        (alone Draft202012 "http://a/r" (one "$schema" (text "invalid")))
        (at Draft202012 "http://a/r" (one "$schema" (text "invalid")) ∷ [])
        ≡ record { cause = MetaSchema; uri = codes "json-schema:///invalid" } ∷ [] }
    ensures met_by_an_identifier { open_wants
        (alone Draft202012 "http://a/r" (two "$id" (text "#x") "$ref" (text "")))
        (at Draft202012 "http://a/r" (two "$id" (text "#x") "$ref" (text "")) ∷ [])
        ≡ [] }
    ensures of_a_parent { open_wants ((refers_to_b ∷ []) ∷ world (b_refers_to_c ∷ []))
        (refers_to_b ∷ [])
        ≡ [] }
    ensures unmet { is_open (world (refers_to_b ∷ []))
        (record { cause = Reference; uri = codes "http://a/b" })
        ≡ true }
    ensures met { is_open (world (refers_to_b ∷ []))
        (record { cause = MetaSchema; uri = codes "http://a/r" })
        ≡ false }
{}

/// The faults of documents, in order.
pub fn faults_of_layers()
    ensures identifier_before_reference { faults
        (at Draft202012 "http://a/r"
        (one "properties" (one "x" (two "$id" (text "a b") "$ref" (text "c d"))))
        ∷ [])
        ≡ parse_refusal (codes "a b") ∷ [] }
    ensures hidden_identifier { faults
        (at Draft7 "http://a/r"
        (one "properties" (one "x" (two "$id" (text "a b") "$ref" (text "c d"))))
        ∷ [])
        ≡ parse_refusal (codes "c d") ∷ [] }
    ensures reference_before_meta_schema { faults
        (at Draft202012 "http://a/r" (two "$ref" (text "c d") "$schema" (text "e f")) ∷ [])
        ≡ parse_refusal (codes "c d") ∷ parse_refusal (codes "e f") ∷ [] }
    ensures by_documents { faults
        (at Draft202012 "http://a/r" (one "$ref" (text "1a:b#x"))
        ∷ at Draft202012 "http://a/s" (one "$id" (text "%4")) ∷ [])
        ≡ parse_refusal (codes "1a:b") ∷ parse_refusal (codes "%4") ∷ [] }
    ensures none { faults (refers_to_b ∷ []) ≡ [] }
{}

/// What one place refers to, and what its meta-schema is.
pub fn wants_of_places()
    ensures reference { reference_at (codes "http://a/p/r") (one "$ref" (text "../s#/k"))
        ≡ Some (Ok (codes "http://a/s")) }
    ensures own_fragment { reference_at (codes "http://a/r") (one "$ref" (text "#/k"))
        ≡ Some (Ok (codes "http://a/r")) }
    ensures no_reference { reference_at (codes "http://a/r") (one "$ref" yes) ≡ None }
    ensures meta_schema { schema_at (one "$schema" (text "http://a/meta#"))
        ≡ Some (Ok (codes "http://a/meta")) }
    ensures known_meta_schema { schema_at
        (one "$schema" (text "https://json-schema.org/draft/2020-12/schema"))
        ≡ None }
    ensures meta_schema_uri { schema_uri (codes "invalid#x")
        ≡ Some (Ok (codes "json-schema:///invalid")) }
    ensures refused_meta_schema_uri { schema_uri (codes "a b")
        ≡ Some (Err (parse_refusal (codes "a b"))) }
{}

/// The wants and faults of one place.
pub fn wants_and_faults_of_places()
    ensures as_a_reference { wants_of_text Reference (Some (Ok (codes "a:b")))
        ≡ record { cause = Reference; uri = codes "a:b" } ∷ [] }
    ensures as_a_meta_schema { wants_of_text MetaSchema (Some (Ok (codes "a:b")))
        ≡ record { cause = MetaSchema; uri = codes "a:b" } ∷ [] }
    ensures not_wanted { wants_of_text Reference (Some (Err (parse_refusal (codes "a b")))) ≡ [] }
    ensures a_fault { refusals_of (Some (Err (parse_refusal (codes "a b"))))
        ≡ parse_refusal (codes "a b") ∷ [] }
    ensures no_fault { refusals_of (Some (Ok (codes "a:b"))) ≡ [] }
    ensures both_wants { wants_at (Ok (codes "http://a/r"))
        (two "$ref" (text "b") "$schema" (text "http://a/meta#"))
        ≡ record { cause = Reference; uri = codes "http://a/b" }
        ∷ record { cause = MetaSchema; uri = codes "http://a/meta" } ∷ [] }
    ensures no_reference_without_a_base { wants_at (Err (parse_refusal (codes "a b")))
        (one "$ref" (text "b"))
        ≡ [] }
    ensures meta_schema_without_a_base { wants_at (Err (parse_refusal (codes "a b")))
        (two "$ref" (text "b") "$schema" (text "http://a/meta#"))
        ≡ record { cause = MetaSchema; uri = codes "http://a/meta" } ∷ [] }
    ensures both_faults { faults_at (Ok (codes "http://a/r"))
        (two "$ref" (text "c d") "$schema" (text "e f"))
        ≡ parse_refusal (codes "c d") ∷ parse_refusal (codes "e f") ∷ [] }
    ensures identifier_alone { faults_at (Err (parse_refusal (codes "a b")))
        (one "$ref" (text "c d"))
        ≡ parse_refusal (codes "a b") ∷ [] }
    ensures identifier_and_meta_schema { faults_at (Err (parse_refusal (codes "a b")))
        (two "$ref" (text "c d") "$schema" (text "e f"))
        ≡ parse_refusal (codes "a b") ∷ parse_refusal (codes "e f") ∷ [] }
{}
