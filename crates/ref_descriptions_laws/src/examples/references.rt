//! The references that literal values have, and the kind of what each is to lead to.
ghost use Rattle.std.specs.Prelude.{◌≡◌, [], ◌∷◌};
ghost use Rattle.ref_draft.specs.declared.draft.Draft.TheVariants.{Draft7, Unknown};
ghost use Rattle.ref_draft.specs.Rows.{empty, text, one, two};
ghost use Rattle.ref_descriptions.specs.declared.version.Version.TheVariants.{V2_0, V3_0, V3_1, V3_2};
ghost use Rattle.ref_descriptions.specs.declared.kind.Kind.TheVariants.{Components, PathItem, Operation, Response, Parameter, MediaType, Link, Callback, SecurityScheme, Schema};
ghost use Rattle.ref_descriptions.specs.References.{references};
ghost use Rattle.ref_descriptions_laws.specs.Rows.{read_as, read_by, refers, refers_by_no_text, maps, referring};

/// The `$ref` of a Reference Object, which is to lead to an object of the kind of its place.
pub fn references_of_reference_objects()
    ensures parameter { references (read_as V2_0 Parameter) referring
        ≡ refers "$ref" "#/x" Parameter ∷ [] }
    ensures response { references (read_as V3_0 Response) (one "$ref" (text "x"))
        ≡ refers "$ref" "x" Response ∷ [] }
    ensures security_scheme { references (read_as V3_0 SecurityScheme) (one "$ref" (text "x"))
        ≡ refers "$ref" "x" SecurityScheme ∷ [] }
    ensures callback { references (read_as V3_1 Callback) (one "$ref" (text "x"))
        ≡ refers "$ref" "x" Callback ∷ [] }
    ensures media_type { references (read_as V3_2 MediaType) (one "$ref" (text "x"))
        ≡ refers "$ref" "x" MediaType ∷ [] }
    ensures schema_of_2_0 { references (read_as V2_0 Schema) (one "$ref" (text "#/definitions/Pet"))
        ≡ refers "$ref" "#/definitions/Pet" Schema ∷ [] }
    ensures schema_of_3_0 { references (read_as V3_0 Schema)
        (two "$ref" (text "#/components/schemas/Pet") "type" (text "x"))
        ≡ refers "$ref" "#/components/schemas/Pet" Schema ∷ [] }
    ensures alone { references (read_as V3_0 Schema)
        (two "$ref" (text "x") "discriminator" (one "mapping" (one "cat" (text "y"))))
        ≡ refers "$ref" "x" Schema ∷ [] }
    ensures link_alone { references (read_as V3_0 Link)
        (two "$ref" (text "x") "operationRef" (text "y"))
        ≡ refers "$ref" "x" Link ∷ [] }
    ensures no_text { references (read_as V3_0 Response) (one "$ref" empty)
        ≡ refers_by_no_text "$ref" Response ∷ [] }
{}

/// The `$ref` of a path item.
pub fn references_of_path_items()
    ensures in_2_0 { references (read_as V2_0 PathItem) (one "$ref" (text "p.yaml"))
        ≡ refers "$ref" "p.yaml" PathItem ∷ [] }
    ensures in_3_0 { references (read_as V3_0 PathItem) (two "$ref" (text "p.yaml") "get" empty)
        ≡ refers "$ref" "p.yaml" PathItem ∷ [] }
    ensures in_3_1 { references (read_as V3_1 PathItem) (one "$ref" (text "p.yaml#/x"))
        ≡ refers "$ref" "p.yaml#/x" PathItem ∷ [] }
    ensures in_3_2 { references (read_as V3_2 PathItem) (one "$ref" (text "p.yaml"))
        ≡ refers "$ref" "p.yaml" PathItem ∷ [] }
{}

/// A `$ref` where none may be.
pub fn values_without_references()
    ensures operation { references (read_as V3_0 Operation) (one "$ref" (text "x")) ≡ [] }
    ensures components { references (read_as V3_0 Components)
        (one "parameters" (one "$ref" (text "x")))
        ≡ [] }
    ensures media_type { references (read_as V3_1 MediaType) (one "$ref" (text "x")) ≡ [] }
    ensures example { references (read_as V3_0 Schema) (one "example" referring) ≡ [] }
    ensures default { references (read_as V3_1 Schema) (one "default" referring) ≡ [] }
    ensures extension { references (read_as V3_1 Schema) (one "x-a" referring) ≡ [] }
{}

/// The references of schemas of 3.1 and 3.2.
pub fn references_of_schemas_of_drafts()
    ensures beside_others { references (read_as V3_1 Schema)
        (two "$defs" (one "b" (one "$anchor" (text "b"))) "$ref" (text "#b"))
        ≡ refers "$ref" "#b" Schema ∷ [] }
    ensures dynamic { references (read_as V3_1 Schema)
        (two "$dynamicRef" (text "y") "$ref" (text "x"))
        ≡ refers "$ref" "x" Schema ∷ refers "$dynamicRef" "y" Schema ∷ [] }
    ensures dynamic_in_3_2 { references (read_as V3_2 Schema) (one "$dynamicRef" (text "#y"))
        ≡ refers "$dynamicRef" "#y" Schema ∷ [] }
    ensures dynamic_of_a_dialect { references (read_by Unknown) (one "$dynamicRef" (text "#y"))
        ≡ refers "$dynamicRef" "#y" Schema ∷ [] }
    ensures no_dynamic_in_7 { references (read_by Draft7) (one "$dynamicRef" (text "#y")) ≡ [] }
    ensures no_dynamic_in_3_0 { references (read_as V3_0 Schema) (one "$dynamicRef" (text "#y"))
        ≡ [] }
    ensures with_a_mapping { references (read_as V3_1 Schema)
        (two "$ref" (text "x") "discriminator" (one "mapping" (one "cat" (text "cat.yaml"))))
        ≡ refers "$ref" "x" Schema ∷ maps "cat" "cat.yaml" ∷ [] }
{}

/// The `operationRef` of a link.
pub fn references_of_links()
    ensures in_3_0 { references (read_as V3_0 Link) (one "operationRef" (text "#/paths/~1a/get"))
        ≡ refers "operationRef" "#/paths/~1a/get" Operation ∷ [] }
    ensures in_3_1 { references (read_as V3_1 Link) (one "operationRef" (text "x"))
        ≡ refers "operationRef" "x" Operation ∷ [] }
    ensures in_3_2 { references (read_as V3_2 Link) (one "operationRef" (text "x"))
        ≡ refers "operationRef" "x" Operation ∷ [] }
    ensures identifier { references (read_as V3_0 Link) (one "operationId" (text "x")) ≡ [] }
    ensures no_text { references (read_as V3_0 Link) (one "operationRef" empty) ≡ [] }
    ensures no_link { references (read_as V3_0 Response) (one "operationRef" (text "x")) ≡ [] }
{}

/// The texts in the mapping of a schema's discriminator.
pub fn references_of_discriminators()
    ensures in_2_0 { references (read_as V2_0 Schema)
        (one "discriminator" (one "mapping" (one "cat" (text "cat.yaml"))))
        ≡ [] }
    ensures in_3_0 { references (read_as V3_0 Schema)
        (one "discriminator" (one "mapping" (two "cat" (text "cat.yaml") "dog" (text "Dog"))))
        ≡ maps "cat" "cat.yaml" ∷ maps "dog" "Dog" ∷ [] }
    ensures in_3_1 { references (read_as V3_1 Schema)
        (one "discriminator" (one "mapping" (one "dog" (text "Dog"))))
        ≡ maps "dog" "Dog" ∷ [] }
    ensures in_3_2 { references (read_as V3_2 Schema)
        (one "discriminator" (one "mapping" (one "dog" (text "Dog"))))
        ≡ maps "dog" "Dog" ∷ [] }
    ensures no_text { references (read_as V3_0 Schema)
        (one "discriminator" (one "mapping" (two "cat" (text "x") "dog" empty)))
        ≡ maps "cat" "x" ∷ [] }
    ensures no_mapping { references (read_as V3_0 Schema)
        (one "discriminator" (one "propertyName" (text "a")))
        ≡ [] }
    ensures of_no_schema { references (read_as V3_0 Parameter)
        (one "discriminator" (one "mapping" (one "dog" (text "Dog"))))
        ≡ [] }
{}
