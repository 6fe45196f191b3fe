//! The drafts and the identifiers of schemas.
ghost use Rattle.std.specs.Prelude.{◌≡◌, true, false, [], ◌∷◌, map, codes, length, Some, None};
ghost use Rattle.serde_json.specs.Data.{boolean};
ghost use Rattle.ref_draft.specs.declared.draft.Draft.TheVariants.{Draft4, Draft6, Draft7, Draft201909, Draft202012, Unknown};
ghost use Rattle.ref_draft.specs.Schema.{text_under, is_true, trimmed_text, meta_schemas, is_at, draft_of_uri, from_schema_uri, detect, begins_with_hash, is_hidden, identifier};
ghost use Rattle.ref_draft.specs.Rows.{empty, yes, text, one, two, list, schema};

/// The draft of a schema by its `$schema` (2020-12 Core, 8.1.1).
pub fn drafts_of_schemas()
    ensures without_version { detect Draft7 (schema "http://json-schema.org/schema#")
        ≡ Draft202012 }
    ensures of_2020 { detect Draft7 (schema "https://json-schema.org/draft/2020-12/schema")
        ≡ Draft202012 }
    ensures of_2019 { detect Draft7 (schema "http://json-schema.org/draft/2019-09/schema##")
        ≡ Draft201909 }
    ensures of_7 { detect Draft4 (schema "http://json-schema.org/draft-07/schema#") ≡ Draft7 }
    ensures of_6 { detect Draft7 (schema "http://json-schema.org/draft-06/schema#") ≡ Draft6 }
    ensures of_4 { detect Draft7 (schema "https://json-schema.org/draft-04/schema#") ≡ Draft4 }
    ensures of_another_text { detect Draft7 (schema "invalid") ≡ Unknown }
    ensures of_a_longer_text { detect Draft7 (schema "http://json-schema.org/draft-07/schema/")
        ≡ Unknown }
    ensures of_no_text { detect Draft7 (one "$schema" yes) ≡ Draft7 }
    ensures of_an_empty_object { detect Draft7 empty ≡ Draft7 }
    ensures of_no_object { detect Draft6 (text "http://json-schema.org/draft-04/schema#") ≡ Draft6 }
{}

/// The drafts of meta-schemas' URIs.
pub fn drafts_of_uris()
    ensures six { length meta_schemas ≡ 6 }
    ensures after_the_scheme { map (λ e. e.1) meta_schemas
        ≡ Draft202012 ∷ Draft201909 ∷ Draft7 ∷ Draft6 ∷ Draft4 ∷ Draft202012 ∷ [] }
    ensures with_http { is_at (codes "://json-schema.org/draft-07/schema")
        (codes "http://json-schema.org/draft-07/schema")
        ≡ true }
    ensures with_https { is_at (codes "://json-schema.org/draft-07/schema")
        (codes "https://json-schema.org/draft-07/schema")
        ≡ true }
    ensures with_another_scheme { is_at (codes "://json-schema.org/draft-07/schema")
        (codes "ftp://json-schema.org/draft-07/schema")
        ≡ false }
    ensures exact { draft_of_uri (codes "http://json-schema.org/draft-06/schema") ≡ Draft6 }
    ensures not_exact { draft_of_uri (codes "http://json-schema.org/draft-06/schema#") ≡ Unknown }
    ensures of_the_newest { draft_of_uri (codes "https://json-schema.org/schema") ≡ Draft202012 }
    ensures trailing_hashes { from_schema_uri (codes "http://json-schema.org/draft-06/schema##")
        ≡ Draft6 }
    ensures no_such_version { from_schema_uri (codes "http://json-schema.org/draft-05/schema#")
        ≡ Unknown }
    ensures trimmed_twice { trimmed_text (codes "k##") ≡ codes "k" }
    ensures trimmed_at_the_end { trimmed_text (codes "a#b") ≡ codes "a#b" }
    ensures trimmed_to_nothing { trimmed_text (codes "#") ≡ [] }
    ensures trimmed_whole { trimmed_text (codes "k") ≡ codes "k" }
    ensures trimmed_empty { trimmed_text [] ≡ [] }
{}

/// The identifier of a value in each draft (2020-12 Core, 8.2.1; Draft 7 Core, 8.2 and 8.3).
pub fn identifiers_of_values()
    ensures trailing_hashes { identifier Draft202012 (one "$id" (text "k##")) ≡ Some (codes "k") }
    ensures of_4 { identifier Draft4 (one "id" (text "k#")) ≡ Some (codes "k") }
    ensures dollar_id_in_4 { identifier Draft4 (one "$id" (text "k")) ≡ None }
    ensures id_in_6 { identifier Draft6 (one "id" (text "k")) ≡ None }
    ensures beside_a_reference { identifier Draft7 (two "$id" (text "k") "$ref" yes) ≡ None }
    ensures beside_a_reference_in_2019 { identifier Draft201909 (two "$id" (text "k") "$ref" yes)
        ≡ Some (codes "k") }
    ensures an_anchor { identifier Draft7 (one "$id" (text "#f")) ≡ None }
    ensures a_fragment { identifier Unknown (one "$id" (text "#f")) ≡ Some (codes "#f") }
    ensures no_text { identifier Draft202012 (one "$id" yes) ≡ None }
    ensures a_hash_alone { identifier Draft202012 (one "$id" (text "#")) ≡ Some [] }
    ensures hidden_by_a_reference { is_hidden Draft4 (one "$ref" yes) (codes "k") ≡ true }
    ensures hidden_by_a_hash { is_hidden Draft6 empty (codes "#k") ≡ true }
    ensures not_hidden { is_hidden Draft7 empty (codes "k#") ≡ false }
    ensures not_hidden_in_2019 { is_hidden Draft201909 (one "$ref" yes) (codes "#k") ≡ false }
    ensures hash_in_front { begins_with_hash (codes "#k") ≡ true }
    ensures hash_after { begins_with_hash (codes "k#") ≡ false }
    ensures text_of_a_key { text_under (codes "$id") (one "$id" (text "k")) ≡ Some (codes "k") }
    ensures no_text_of_a_key { text_under (codes "$id") (one "$id" (list (text "k"))) ≡ None }
    ensures no_key { text_under (codes "$id") (text "$id") ≡ None }
{}

/// Whether values are `true`.
pub fn true_values()
    ensures true_value { is_true yes ≡ true }
    ensures false_value { is_true (boolean false) ≡ false }
    ensures text_value { is_true (text "true") ≡ false }
{}
