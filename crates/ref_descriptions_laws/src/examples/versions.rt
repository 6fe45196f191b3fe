//! Which version a document follows, where a Reference Object may stand, and the draft of a description's schemas.
ghost use Rattle.std.specs.Prelude.{◌≡◌, true, false, [], ◌∷◌, Some, None};
ghost use Rattle.ref_draft.specs.declared.draft.Draft.TheVariants.{Draft4, Draft7, Draft201909, Draft202012};
ghost use Rattle.ref_draft.specs.Rows.{empty, yes, text, one, two, list};
ghost use Rattle.ref_descriptions.specs.declared.version.Version.TheVariants.{V2_0, V3_0, V3_1, V3_2};
ghost use Rattle.ref_descriptions.specs.declared.kind.Kind.TheVariants.{PathItem, Response, Parameter, Header, RequestBody, MediaType, Example, Link, Callback, SecurityScheme, Schema};
ghost use Rattle.ref_descriptions.specs.Versions.{version_of};
ghost use Rattle.ref_descriptions.specs.Readings.{dialect, is_reference};
ghost use Rattle.ref_descriptions_laws.specs.Rows.{referable, read_as};

/// The version that a root names.
pub fn versions_of_roots()
    ensures swagger { version_of (one "swagger" (text "2.0")) ≡ Some V2_0 }
    ensures v3_0 { version_of (one "openapi" (text "3.0")) ≡ Some V3_0 }
    ensures v3_0_with_a_patch { version_of (one "openapi" (text "3.0.3")) ≡ Some V3_0 }
    ensures v3_1 { version_of (one "openapi" (text "3.1.0")) ≡ Some V3_1 }
    ensures v3_2 { version_of (one "openapi" (text "3.2.0-rc1")) ≡ Some V3_2 }
    ensures among_others { version_of (two "info" empty "openapi" (text "3.1.1")) ≡ Some V3_1 }
{}

/// Roots that name none.
pub fn roots_without_a_version()
    ensures empty_root { version_of empty ≡ None }
    ensures no_object { version_of (list (one "openapi" (text "3.0.3"))) ≡ None }
    ensures another_minor { version_of (one "openapi" (text "3.10.0")) ≡ None }
    ensures another_major { version_of (one "openapi" (text "4.0.0")) ≡ None }
    ensures major_alone { version_of (one "openapi" (text "3")) ≡ None }
    ensures more_digits { version_of (one "openapi" (text "3.00")) ≡ None }
    ensures old_swagger { version_of (one "swagger" (text "1.2")) ≡ None }
    ensures longer_swagger { version_of (one "swagger" (text "2.0.0")) ≡ None }
    ensures v2_under_openapi { version_of (one "openapi" (text "2.0")) ≡ None }
    ensures v3_under_swagger { version_of (one "swagger" (text "3.0.3")) ≡ None }
    ensures no_text { version_of (two "openapi" empty "swagger" yes) ≡ None }
    ensures below_the_root { version_of (one "a" (one "openapi" (text "3.0.3"))) ≡ None }
{}

/// The kinds in whose place a Reference Object may stand.
pub fn places_of_reference_objects()
    ensures in_2_0 { referable V2_0 ≡ Response ∷ Parameter ∷ Schema ∷ [] }
    ensures in_3_0 { referable V3_0
        ≡ Response ∷ Parameter ∷ Header ∷ RequestBody ∷ Example ∷ Link ∷ Callback ∷ SecurityScheme
        ∷ Schema ∷ [] }
    ensures in_3_1 { referable V3_1
        ≡ Response ∷ Parameter ∷ Header ∷ RequestBody ∷ Example ∷ Link ∷ Callback ∷ SecurityScheme
        ∷ [] }
    ensures in_3_2 { referable V3_2
        ≡ Response ∷ Parameter ∷ Header ∷ RequestBody ∷ MediaType ∷ Example ∷ Link ∷ Callback
        ∷ SecurityScheme ∷ [] }
{}

/// Which values are Reference Objects.
pub fn values_that_are_reference_objects()
    ensures a_text { is_reference (read_as V3_0 Parameter) (one "$ref" (text "x")) ≡ true }
    ensures beside_others { is_reference (read_as V3_0 Schema)
        (two "$ref" (text "x") "type" (text "y"))
        ≡ true }
    ensures no_text { is_reference (read_as V3_0 Parameter) (one "$ref" empty) ≡ false }
    ensures no_member { is_reference (read_as V3_0 Parameter) empty ≡ false }
    ensures no_path_item { is_reference (read_as V3_0 PathItem) (one "$ref" (text "x")) ≡ false }
    ensures no_schema_of_3_1 { is_reference (read_as V3_1 Schema) (one "$ref" (text "x")) ≡ false }
{}

/// The draft of schemas that name none, by the `jsonSchemaDialect` of the root.
pub fn drafts_of_descriptions()
    ensures none { dialect empty ≡ Draft202012 }
    ensures in_2020 { dialect
        (one "jsonSchemaDialect" (text "https://json-schema.org/draft/2020-12/schema"))
        ≡ Draft202012 }
    ensures in_2019 { dialect
        (one "jsonSchemaDialect" (text "https://json-schema.org/draft/2019-09/schema"))
        ≡ Draft201909 }
    ensures in_7 { dialect
        (one "jsonSchemaDialect" (text "http://json-schema.org/draft-07/schema#"))
        ≡ Draft7 }
    ensures in_4 { dialect
        (one "jsonSchemaDialect" (text "http://json-schema.org/draft-04/schema#"))
        ≡ Draft4 }
    ensures no_text { dialect (one "jsonSchemaDialect" empty) ≡ Draft202012 }
{}
