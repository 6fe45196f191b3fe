//! Rows of the definitions, as `docs/PROTOCOL.md` says. Each function is empty: its contract states rows, and the check
//! computes them.
#![tactic(auto, unfolding(crate::proofs::OnLiterals::ref_calls_on_literals))]

ghost use Rattle.std.specs.Prelude.{◌≡◌, [], ◌∷◌, map, true, false, codes, Some, None, Ok};
ghost use Rattle.serde_json.specs.Find.{get};
ghost use Rattle.ref_draft.specs.declared.draft.Draft.TheVariants.{Draft4, Draft7, Draft202012};
ghost use Rattle.ref_definitions.specs.Fault.{PointerToNowhere, InvalidPercentEncoding, InvalidArrayIndex, NoSuchAnchor, InvalidAnchor, UnknownSpecification, RetrievalLimit};
ghost use Rattle.ref_definitions.specs.Rows.{yes, text, whole_number, empty, one, two, list, pair};
ghost use Rattle.ref_calls.specs.declared.call.Call.TheVariants.{Hello, Uri, DraftOf, Yaml, Faults, Open, Lookup, Recursive, Enter, Follow, Scope, Places, Survey, References, Dangling, Compare, Vocabularies, Bundle, Close};
ghost use Rattle.ref_calls.specs.declared.fault.Wrong.TheVariants.{UnknownField, MissingField, InvalidField, UnknownRegistry, UnknownScope};
ghost use Rattle.ref_calls.specs.Calls.{call_of, call_named, call_names, is_known, required_member, text_in, number_in, is_set, keeps_faults, draft_of, schema_of, base_of, document_of, documents_of, documents_at, needed_documents, under_uris};
ghost use Rattle.ref_calls.specs.Scopes.{own_scope, scope_in, scope_of, scope_answered};
ghost use Rattle.ref_calls.specs.Yaml.{yaml_document, with_value, IsItemRead, value_object};
ghost use Rattle.ref_calls.specs.Errors.{not_json, not_yaml, field_error, with_field, with_index, fault_error, fault_name, wanted_document};
ghost use Rattle.ref_calls.specs.Objects.{answer_of, object_of, texts, whole};
ghost use Rattle.ref_calls.specs.Rows.{call, call_with, told};
ghost use Rattle.json.specs.Token.{begin_object, begin_array, end_array, bad};
ghost use Rattle.ref_calls.specs.declared.why.NotJson.TheVariants.{Encoding, Depth, Number, Surrogate, Syntax};
ghost use Rattle.ref_calls.specs.Why.{why, is_deep};

/// Which call an object is.
pub fn calls()
    ensures of_its_members { call_of (call_with "close" "registry" (whole_number 0)) ≡ Ok Close }
    ensures without_its_members { call_of (call "lookup") ≡ Ok Lookup }
    ensures with_an_id { call_of (call_with "open" "id" empty) ≡ Ok Open }
    ensures no_object { told "name" (call_of (text "close")) ≡ Some (text "NotAnObject") }
    ensures no_object_has_no_field { told "field" (call_of (text "close")) ≡ None }
    ensures no_call { told "name" (call_of empty) ≡ Some (text "UnknownCall") }
    ensures field_of_no_call { told "field" (call_of empty) ≡ Some (text "call") }
    ensures no_text { told "name" (call_of (one "call" (whole_number 1)))
        ≡ Some (text "UnknownCall") }
    ensures another_case { told "name" (call_of (call "Open")) ≡ Some (text "UnknownCall") }
    ensures unknown_member { told "name" (call_of (call_with "close" "registri" (whole_number 0)))
        ≡ Some (text "UnknownField") }
    ensures field_of_an_unknown_member { told "field"
        (call_of (call_with "close" "registri" (whole_number 0)))
        ≡ Some (text "registri") }
    ensures member_of_another_call { told "field" (call_of (call_with "lookup" "steps" empty))
        ≡ Some (text "steps") }
    ensures call_comes_first { told "name" (call_of (call_with "opne" "x" empty))
        ≡ Some (text "UnknownCall") }
    ensures no_name { call_named (codes "refer") ≡ None }
    ensures each_is_named { map call_named call_names
        ≡ Some Hello ∷ Some Uri ∷ Some DraftOf ∷ Some Yaml ∷ Some Faults ∷ Some Open
        ∷ Some Lookup ∷ Some Recursive ∷ Some Enter ∷ Some Follow ∷ Some Scope ∷ Some Places
        ∷ Some Survey ∷ Some References ∷ Some Dangling ∷ Some Compare ∷ Some Vocabularies
        ∷ Some Bundle ∷ Some Close ∷ [] }
    ensures without_members { call_of (call "hello") ≡ Ok Hello }
    ensures of_a_text { call_of (call_with "yaml" "text" (text "a")) ≡ Ok Yaml }
    ensures no_registry_is_asked { told "field" (call_of (call_with "uri" "registry" (whole_number 0)))
        ≡ Some (text "registry") }
    ensures limit { is_known Open (codes "limit") ≡ true }
    ensures no_limit { is_known Lookup (codes "limit") ≡ false }
{}

/// The members of calls.
pub fn members()
    ensures there { required_member (codes "a") (one "a" empty) ≡ Ok empty }
    ensures missing { told "name" (required_member (codes "a") empty)
        ≡ Some (text "MissingField") }
    ensures a_text { text_in (codes "a") (text "b") ≡ Ok (codes "b") }
    ensures no_text { told "name" (text_in (codes "a") yes) ≡ Some (text "InvalidField") }
    ensures number { number_in (codes "registry") (whole_number 7) ≡ Ok 7 }
    ensures no_number { told "field" (number_in (codes "registry") (text "7"))
        ≡ Some (text "registry") }
    ensures set { is_set (codes "values") (one "values" yes) ≡ Ok true }
    ensures not_set { is_set (codes "values") empty ≡ Ok false }
    ensures no_flag { told "name" (is_set (codes "values") (one "values" (whole_number 1)))
        ≡ Some (text "InvalidField") }
    ensures kept_faults { keeps_faults (one "faults" (text "keep")) ≡ Ok true }
    ensures no_kept_faults { keeps_faults empty ≡ Ok false }
    ensures faults_in_another_way { told "name" (keeps_faults (one "faults" (text "drop")))
        ≡ Some (text "InvalidField") }
    ensures faults_by_no_text { told "field" (keeps_faults (one "faults" yes))
        ≡ Some (text "faults") }
    ensures draft { draft_of (one "draft" (text "7")) ≡ Ok Draft7 }
    ensures oldest_draft { draft_of (one "draft" (text "4")) ≡ Ok Draft4 }
    ensures default_draft { draft_of empty ≡ Ok Draft202012 }
    ensures no_draft { told "field" (draft_of (one "draft" (text "5"))) ≡ Some (text "draft") }
    ensures unknown_draft { told "name" (draft_of (one "draft" (text "unknown")))
        ≡ Some (text "InvalidField") }
    ensures schema { schema_of (one "schema" yes) ≡ Ok yes }
    ensures no_schema { told "name" (schema_of (one "schema" (whole_number 1)))
        ≡ Some (text "InvalidField") }
    ensures missing_schema { told "name" (schema_of empty) ≡ Some (text "MissingField") }
    ensures base { base_of (one "base" (text "http://a/B/../c")) ≡ Ok (codes "http://a/c") }
    ensures relative_base { base_of (one "base" (text "a")) ≡ Ok (codes "json-schema:///a") }
    ensures no_base { told "name" (base_of (one "base" (text "a b"))) ≡ Some (text "InvalidUri") }
    ensures field_of_no_base { told "field" (base_of (one "base" (text "a b")))
        ≡ Some (text "base") }
{}

/// The dynamic scopes of calls and answers.
pub fn scopes()
    ensures none { scope_of [] empty ≡ Ok (own_scope []) }
    ensures uris { scope_of [] (one "scope" (pair (text "http://a/b") (text "c")))
        ≡ Ok (own_scope (codes "http://a/b" ∷ codes "json-schema:///c" ∷ [])) }
    ensures index { told "index" (scope_in [] (pair (text "a") (text "b c")))
        ≡ Some (whole_number 1) }
    ensures field { told "field" (scope_in [] (pair (text "a") (text "b c")))
        ≡ Some (text "scope") }
    ensures no_list { told "name" (scope_in [] (text "a")) ≡ Some (text "InvalidField") }
    ensures kept { scope_in ([] ∷ (codes "u:a" ∷ []) ∷ []) (whole_number 1)
        ≡ Ok (record { uris = codes "u:a" ∷ []; kept = Some (1, codes "u:a" ∷ []) }) }
    ensures in_front { scope_in ((codes "u:a" ∷ []) ∷ []) (pair (text "u:b") (whole_number 0))
        ≡ Ok (record {
          uris = codes "u:b" ∷ codes "u:a" ∷ [];
          kept = Some (0, codes "u:a" ∷ []);
        }) }
    ensures not_kept { told "name" (scope_in ([] ∷ []) (whole_number 1))
        ≡ Some (text "UnknownScope") }
    ensures index_of_not_kept { told "index" (scope_in [] (pair (text "u:b") (whole_number 0)))
        ≡ Some (whole_number 1) }
    ensures number_in_front { told "name"
        (scope_in ([] ∷ []) (pair (whole_number 0) (text "u:b")))
        ≡ Some (text "InvalidField") }
    ensures answered { scope_answered None (codes "u:b" ∷ codes "u:a" ∷ [])
        ≡ pair (text "u:b") (text "u:a") }
    ensures answered_in_front { scope_answered (Some (7, codes "u:a" ∷ []))
        (codes "u:b" ∷ codes "u:a" ∷ [])
        ≡ pair (text "u:b") (whole_number 7) }
    ensures answered_alone { scope_answered (Some (7, codes "u:a" ∷ [])) (codes "u:a" ∷ [])
        ≡ list (whole_number 7) }
{}

/// The documents that calls give.
pub fn documents()
    ensures document { document_of (pair (text "a") empty) ≡ Some (codes "a", empty) }
    ensures alone { document_of (list (text "a")) ≡ None }
    ensures no_text { document_of (pair yes empty) ≡ None }
    ensures one_document { documents_of (codes "documents") (list (pair (text "a") yes))
        ≡ Ok ((codes "a", yes) ∷ []) }
    ensures hashes { documents_of (codes "documents") (list (pair (text "a##") yes))
        ≡ Ok ((codes "a##", yes) ∷ []) }
    ensures hash_within { told "name"
        (documents_of (codes "documents") (list (pair (text "a##b") yes)))
        ≡ Some (text "InvalidUri") }
    ensures no_list { told "field" (documents_of (codes "remote") empty)
        ≡ Some (text "remote") }
    ensures no_document { told "index"
        (documents_of (codes "documents") (pair (pair (text "a") yes) (list (text "b"))))
        ≡ Some (whole_number 1) }
    ensures name_of_no_document { told "name"
        (documents_of (codes "documents") (list (list (text "b"))))
        ≡ Some (text "InvalidField") }
    ensures no_uri { told "name" (documents_of (codes "documents") (list (pair (text "a b") yes)))
        ≡ Some (text "InvalidUri") }
    ensures index_of_no_uri { told "index"
        (documents_of (codes "documents") (list (pair (text "a b") yes)))
        ≡ Some (whole_number 0) }
    ensures none { documents_at (codes "remote") None ≡ Ok None }
    ensures needed { told "name" (needed_documents None) ≡ Some (text "MissingField") }
    ensures field_of_needed { told "field" (needed_documents None) ≡ Some (text "documents") }
    ensures under_their_uris { under_uris (codes "remote") ((codes "a", yes) ∷ [])
        ≡ Ok ((codes "json-schema:///a", yes) ∷ []) }
    ensures under_their_uris_without_hashes { under_uris (codes "remote") ((codes "a##", yes) ∷ [])
        ≡ Ok ((codes "json-schema:///a", yes) ∷ []) }
{}

/// Documents that are given as texts of YAML.
pub fn documents_in_yaml()
    ensures text_of { yaml_document (pair (text "a") (one "yaml" (text "b")))
        ≡ Some (codes "a", codes "b") }
    ensures two_members { yaml_document (pair (text "a") (two "yaml" (text "b") "z" yes)) ≡ None }
    ensures no_text { yaml_document (pair (text "a") (one "yaml" yes)) ≡ None }
    ensures another_key { yaml_document (pair (text "a") (one "yml" (text "b"))) ≡ None }
    ensures alone { yaml_document (list (one "yaml" (text "b"))) ≡ None }
    ensures with_its_value { with_value (codes "a") yes ≡ pair (text "a") yes }
    ensures stays { IsItemRead (pair (text "a") yes) (Ok (pair (text "a") yes)) }
    ensures name_of_no_yaml { get (codes "name") (not_yaml (codes "depth") (codes "s") 5)
        ≡ Some (text "NotYaml") }
    ensures reason { get (codes "reason") (not_yaml (codes "depth") (codes "s") 5) ≡ Some (text "depth") }
    ensures sentence { get (codes "message") (not_yaml (codes "depth") (codes "s") 5)
        ≡ Some (text "s") }
    ensures offset { get (codes "offset") (not_yaml (codes "depth") (codes "s") 5) ≡ Some (whole_number 5) }
    ensures shown { value_object yes ≡ one "value" yes }
{}

/// Why lines are no JSON (RFC 8259, 2, 6, 7 and 8.1).
pub fn reasons()
    ensures encoding { why (34 ∷ 255 ∷ 34 ∷ []) ≡ Encoding }
    ensures empty { why [] ≡ Syntax }
    ensures not_closed { why (codes "{\"a\":") ≡ Syntax }
    ensures number { why (codes "[1e400]") ≡ Number }
    ensures surrogate { why (codes "\"\\ud800\"") ≡ Surrogate }
    ensures no_pair { why (codes "\"\\uDC00x\"") ≡ Surrogate }
    ensures surrogate_and_more { why (codes "\"\\ud800\" x") ≡ Syntax }
    ensures most { is_deep 126 (begin_array ∷ end_array ∷ begin_object ∷ []) ≡ false }
    ensures deeper { is_deep 127 (end_array ∷ begin_array ∷ begin_object ∷ []) ≡ true }
    ensures after_a_fault { is_deep 127 (bad ∷ []) ≡ false }
{}

/// The objects of errors.
pub fn errors()
    ensures no_json { get (codes "name") (not_json Depth 5) ≡ Some (text "NotJson") }
    ensures why { get (codes "reason") (not_json Depth 5) ≡ Some (text "depth") }
    ensures sentence { get (codes "message") (not_yaml (codes "depth") (codes "s") 5)
        ≡ Some (text "s") }
    ensures offset { get (codes "offset") (not_json Depth 5) ≡ Some (whole_number 5) }
    ensures unknown { get (codes "name") (field_error UnknownField (codes "a"))
        ≡ Some (text "UnknownField") }
    ensures missing { get (codes "name") (field_error MissingField (codes "a"))
        ≡ Some (text "MissingField") }
    ensures invalid { get (codes "name") (field_error InvalidField (codes "a"))
        ≡ Some (text "InvalidField") }
    ensures no_registry { get (codes "name") (field_error UnknownRegistry (codes "parent"))
        ≡ Some (text "UnknownRegistry") }
    ensures no_scope { get (codes "name") (field_error UnknownScope (codes "scope"))
        ≡ Some (text "UnknownScope") }
    ensures field { get (codes "field") (field_error UnknownRegistry (codes "parent"))
        ≡ Some (text "parent") }
    ensures with_a_field { with_field (codes "base") empty ≡ one "field" (text "base") }
    ensures with_an_index { with_index 2 empty ≡ one "index" (whole_number 2) }
    ensures of_no_object { with_index 2 yes ≡ yes }
    ensures pointer { fault_name (PointerToNowhere (codes "/x")) ≡ codes "PointerToNowhere" }
    ensures index { fault_name (InvalidArrayIndex (codes "/x") (codes "x"))
        ≡ codes "InvalidArrayIndex" }
    ensures encoding { fault_name (InvalidPercentEncoding (codes "%FF"))
        ≡ codes "InvalidPercentEncoding" }
    ensures anchor { fault_name (NoSuchAnchor (codes "x")) ≡ codes "NoSuchAnchor" }
    ensures no_anchor { fault_name (InvalidAnchor (codes "x/y")) ≡ codes "InvalidAnchor" }
    ensures limit { fault_name (RetrievalLimit (codes "http://a/b") 0) ≡ codes "RetrievalLimit" }
    ensures wanted_by_no_one { wanted_document (NoSuchAnchor (codes "x")) ≡ None }
    ensures wanted_beyond_the_limit { get (codes "uri")
        (fault_error (RetrievalLimit (codes "http://a/b") 3))
        ≡ Some (text "http://a/b") }
    ensures no_kind { get (codes "kind") (fault_error (RetrievalLimit (codes "http://a/b") 3))
        ≡ None }
    ensures uri_of_a_meta_schema { get (codes "uri")
        (fault_error (UnknownSpecification (codes "http://a/m")))
        ≡ Some (text "http://a/m") }
    ensures kind_of_a_meta_schema { get (codes "kind")
        (fault_error (UnknownSpecification (codes "http://a/m")))
        ≡ Some (text "meta-schema") }
{}

/// The objects of answers.
pub fn answers()
    ensures result { answer_of (Some (whole 1)) (codes "result") empty
        ≡ two "id" (whole_number 1) "result" empty }
    ensures without_an_id { answer_of None (codes "result") empty ≡ one "result" empty }
    ensures error { answer_of (Some (whole 3)) (codes "error")
        (fault_error (PointerToNowhere (codes "/$defs/itme")))
        ≡ two "error"
        (two "message" (text "Pointer '/$defs/itme' does not exist") "name"
        (text "PointerToNowhere"))
        "id" (whole_number 3) }
    ensures in_byte_order { object_of ((codes "b", yes) ∷ (codes "a", empty) ∷ [])
        ≡ two "a" empty "b" yes }
    ensures list_of_texts { texts (codes "a" ∷ codes "b" ∷ []) ≡ pair (text "a") (text "b") }
{}
