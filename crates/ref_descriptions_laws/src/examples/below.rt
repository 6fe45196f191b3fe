//! What is right below literal values.
ghost use Rattle.std.specs.Prelude.{◌≡◌, [], ◌∷◌};
ghost use Rattle.ref_paths.specs.Path.{Index};
ghost use Rattle.ref_draft.specs.declared.draft.Draft.TheVariants.{Draft7, Draft202012};
ghost use Rattle.ref_draft.specs.Rows.{empty, yes, text, one, two, list, pair, key};
ghost use Rattle.ref_descriptions.specs.declared.version.Version.TheVariants.{V2_0, V3_0, V3_1, V3_2};
ghost use Rattle.ref_descriptions.specs.declared.kind.Kind.TheVariants.{Root, Components, Paths, PathItem, Operation, Responses, Response, Parameter, MediaType, Callback, Schema};
ghost use Rattle.ref_descriptions.specs.Below.{below};
ghost use Rattle.ref_descriptions_laws.specs.Rows.{read_as, read_by, read_in, paths_below, drafts_below, inner, referring};

/// What fields hold: a value, the elements of a list, or the members of a map, where these are objects.
pub fn objects_under_fields()
    ensures value { below (read_as V3_0 MediaType) (one "schema" (one "type" (text "x")))
        ≡ inner (key "schema" ∷ []) (one "type" (text "x")) (read_as V3_0 Schema) ∷ [] }
    ensures no_object { paths_below (read_as V3_0 MediaType) (one "schema" yes) ≡ [] }
    ensures elements { paths_below (read_as V2_0 Operation)
        (one "parameters" (pair (text "x") empty))
        ≡ (key "parameters" ∷ Index 1 ∷ [], Parameter) ∷ [] }
    ensures no_list { paths_below (read_as V3_0 Operation) (one "parameters" (one "$ref" empty))
        ≡ [] }
    ensures members { paths_below (read_as V3_0 Components)
        (one "schemas" (two "A" empty "B" (text "x")))
        ≡ (key "schemas" ∷ key "A" ∷ [], Schema) ∷ [] }
    ensures no_map { paths_below (read_as V3_0 Components) (one "schemas" (list empty)) ≡ [] }
    ensures one_or_elements { paths_below (read_as V2_0 Schema) (one "items" empty)
        ≡ (key "items" ∷ [], Schema) ∷ [] }
    ensures elements_or_one { paths_below (read_as V2_0 Schema) (one "items" (pair empty empty))
        ≡ (key "items" ∷ Index 0 ∷ [], Schema) ∷ (key "items" ∷ Index 1 ∷ [], Schema) ∷ [] }
    ensures one_in_3_0 { paths_below (read_as V3_0 Schema) (one "items" (list empty)) ≡ [] }
    ensures of_two_fields { paths_below (read_as V3_0 Root) (two "components" empty "paths" empty)
        ≡ (key "components" ∷ [], Components) ∷ (key "paths" ∷ [], Paths) ∷ [] }
    ensures of_no_object { paths_below (read_as V3_0 Root) (list (one "paths" empty)) ≡ [] }
{}

/// What is below objects whose fields have names of their own.
pub fn objects_under_names()
    ensures paths { paths_below (read_as V3_0 Paths)
        (two "/a" (one "$ref" (text "p.yaml")) "x-a" empty)
        ≡ (key "/a" ∷ [], PathItem) ∷ [] }
    ensures responses { paths_below (read_as V3_0 Responses) (two "404" empty "x-a" empty)
        ≡ (key "404" ∷ [], Response) ∷ [] }
    ensures callback { paths_below (read_as V3_0 Callback) (two "x-a" empty "{$url}" empty)
        ≡ (key "{$url}" ∷ [], PathItem) ∷ [] }
{}

/// What is below values with a `$ref`: nothing where a Reference Object may stand.
pub fn objects_beside_references()
    ensures schema_of_2_0 { paths_below (read_as V2_0 Schema)
        (two "$ref" (text "#/definitions/Pet") "properties" (one "a" empty))
        ≡ [] }
    ensures schema_of_3_0 { paths_below (read_as V3_0 Schema)
        (two "$ref" (text "#/components/schemas/Pet") "properties" (one "a" referring))
        ≡ [] }
    ensures schema_of_3_1 { paths_below (read_as V3_1 Schema)
        (two "$ref" (text "#/components/schemas/Pet") "properties" (one "a" referring))
        ≡ (key "properties" ∷ key "a" ∷ [], Schema) ∷ [] }
    ensures schema_of_3_2 { paths_below (read_as V3_2 Schema)
        (two "$ref" (text "#/components/schemas/Pet") "properties" (one "a" referring))
        ≡ (key "properties" ∷ key "a" ∷ [], Schema) ∷ [] }
    ensures path_item { paths_below (read_as V3_0 PathItem) (two "$ref" (text "p.yaml") "get" empty)
        ≡ (key "get" ∷ [], Operation) ∷ [] }
    ensures parameter { paths_below (read_as V3_1 Parameter) (two "$ref" (text "x") "schema" empty)
        ≡ [] }
    ensures media_type_of_3_1 { paths_below (read_as V3_1 MediaType)
        (two "$ref" (text "x") "schema" empty)
        ≡ (key "schema" ∷ [], Schema) ∷ [] }
    ensures media_type_of_3_2 { paths_below (read_as V3_2 MediaType)
        (two "$ref" (text "x") "schema" empty)
        ≡ [] }
    ensures no_text { paths_below (read_as V3_0 Parameter) (two "$ref" empty "schema" empty)
        ≡ (key "schema" ∷ [], Schema) ∷ [] }
{}

/// Values that hold nothing, whatever is in them.
pub fn values_that_hold_nothing()
    ensures example { paths_below (read_as V3_0 Schema) (one "example" referring) ≡ [] }
    ensures default { paths_below (read_as V3_0 Schema) (one "default" referring) ≡ [] }
    ensures extension { paths_below (read_as V3_0 Schema) (one "x-a" referring) ≡ [] }
    ensures values_of_enum { paths_below (read_as V3_0 Schema) (one "enum" (list referring)) ≡ [] }
    ensures in_2_0 { paths_below (read_as V2_0 Schema) (two "default" referring "example" referring)
        ≡ [] }
    ensures in_3_1 { paths_below (read_as V3_1 Schema) (two "default" referring "x-a" referring)
        ≡ [] }
    ensures examples_in_3_1 { paths_below (read_as V3_1 Schema)
        (two "example" referring "examples" (list referring))
        ≡ [] }
    ensures examples_of_a_response { paths_below (read_as V2_0 Response)
        (one "examples" (one "a/b" referring))
        ≡ [] }
    ensures servers { paths_below (read_as V3_0 Operation)
        (two "security" (list empty) "servers" (list empty))
        ≡ [] }
{}

/// What is below schemas of 3.1 and 3.2: what their draft says.
pub fn objects_in_schemas_of_drafts()
    ensures definitions { paths_below (read_as V3_1 Schema)
        (two "$defs" (one "b" (one "$anchor" (text "b"))) "$ref" (text "#b"))
        ≡ (key "$defs" ∷ key "b" ∷ [], Schema) ∷ [] }
    ensures no_definitions_in_3_0 { paths_below (read_as V3_0 Schema) (one "$defs" (one "b" empty))
        ≡ [] }
    ensures prefix_items { paths_below (read_as V3_2 Schema) (one "prefixItems" (pair empty yes))
        ≡ (key "prefixItems" ∷ Index 0 ∷ [], Schema) ∷ [] }
    ensures no_object { paths_below (read_as V3_1 Schema) (two "not" yes "properties" (one "a" yes))
        ≡ [] }
    ensures list_of_items_in_7 { paths_below (read_by Draft7) (one "items" (list empty))
        ≡ (key "items" ∷ Index 0 ∷ [], Schema) ∷ [] }
    ensures list_of_items_in_2020 { paths_below (read_by Draft202012) (one "items" (list empty))
        ≡ [] }
    ensures draft_of_its_own { drafts_below (read_as V3_1 MediaType)
        (one "schema" (one "$schema" (text "http://json-schema.org/draft-07/schema#")))
        ≡ Draft7 ∷ [] }
    ensures draft_of_the_description { drafts_below (read_as V3_1 MediaType) (one "schema" empty)
        ≡ Draft202012 ∷ [] }
    ensures no_draft_of_its_own_in_3_0 { drafts_below (read_as V3_0 MediaType)
        (one "schema" (one "$schema" (text "http://json-schema.org/draft-07/schema#")))
        ≡ Draft202012 ∷ [] }
    ensures draft_below_a_schema { drafts_below (read_by Draft7)
        (one "not" (one "$schema" (text "https://json-schema.org/draft/2020-12/schema")))
        ≡ Draft202012 ∷ [] }
    ensures draft_of_the_dialect { read_in
        (one "jsonSchemaDialect" (text "http://json-schema.org/draft-07/schema#")) empty
        ≡ read_by Draft7 }
    ensures dialect_of_openapi { paths_below (read_in
        (one "jsonSchemaDialect" (text "https://spec.openapis.org/oas/3.1/dialect/base")) empty)
        (two "$defs" (one "a" empty) "prefixItems" (list empty))
        ≡ (key "$defs" ∷ key "a" ∷ [], Schema) ∷ (key "prefixItems" ∷ Index 0 ∷ [], Schema) ∷ [] }
{}
