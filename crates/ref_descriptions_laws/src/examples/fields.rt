//! The tables: which of all names in them are fields of an object, how each holds objects, and of which kind.
ghost use Rattle.std.specs.Prelude.{◌≡◌, [], ◌∷◌, Some, None};
ghost use Rattle.ref_descriptions.specs.declared.version.Version.TheVariants.{V2_0, V3_0, V3_1, V3_2};
ghost use Rattle.ref_descriptions.specs.declared.kind.Kind.TheVariants.{Root, Components, Paths, PathItem, Operation, Responses, Response, Parameter, Header, RequestBody, MediaType, Encoding, Example, Link, Callback, SecurityScheme, Schema};
ghost use Rattle.ref_descriptions.specs.declared.fields.Holding.TheVariants.{One, Each, Members, OneOrEach};
ghost use Rattle.ref_descriptions_laws.specs.Rows.{table, tables, under, kept_in_3_1, kept_in_3_2};

/// The fields of 2.0.
pub fn fields_of_2_0()
    ensures root { table V2_0 Root
        ≡ ("definitions", Members, Schema) ∷ ("parameters", Members, Parameter)
        ∷ ("paths", One, Paths) ∷ ("responses", Members, Response) ∷ [] }
    ensures path_item { table V2_0 PathItem
        ≡ ("delete", One, Operation) ∷ ("get", One, Operation) ∷ ("head", One, Operation)
        ∷ ("options", One, Operation) ∷ ("parameters", Each, Parameter) ∷ ("patch", One, Operation)
        ∷ ("post", One, Operation) ∷ ("put", One, Operation) ∷ [] }
    ensures operation { table V2_0 Operation
        ≡ ("parameters", Each, Parameter) ∷ ("responses", One, Responses) ∷ [] }
    ensures response { table V2_0 Response ≡ ("schema", One, Schema) ∷ [] }
    ensures parameter { table V2_0 Parameter ≡ ("schema", One, Schema) ∷ [] }
    ensures schema { table V2_0 Schema
        ≡ ("additionalProperties", One, Schema) ∷ ("allOf", Each, Schema)
        ∷ ("items", OneOrEach, Schema) ∷ ("properties", Members, Schema) ∷ [] }
    ensures nothing { tables V2_0 (Components ∷ Header ∷ RequestBody ∷ MediaType ∷ Encoding
        ∷ Example ∷ Link ∷ SecurityScheme ∷ [])
        ≡ [] ∷ [] ∷ [] ∷ [] ∷ [] ∷ [] ∷ [] ∷ [] ∷ [] }
{}

/// The fields of 3.0.
pub fn fields_of_3_0()
    ensures root { table V3_0 Root ≡ ("components", One, Components) ∷ ("paths", One, Paths) ∷ [] }
    ensures components { table V3_0 Components
        ≡ ("callbacks", Members, Callback) ∷ ("examples", Members, Example)
        ∷ ("headers", Members, Header) ∷ ("links", Members, Link)
        ∷ ("parameters", Members, Parameter) ∷ ("requestBodies", Members, RequestBody)
        ∷ ("responses", Members, Response) ∷ ("schemas", Members, Schema)
        ∷ ("securitySchemes", Members, SecurityScheme) ∷ [] }
    ensures path_item { table V3_0 PathItem
        ≡ ("delete", One, Operation) ∷ ("get", One, Operation) ∷ ("head", One, Operation)
        ∷ ("options", One, Operation) ∷ ("parameters", Each, Parameter) ∷ ("patch", One, Operation)
        ∷ ("post", One, Operation) ∷ ("put", One, Operation) ∷ ("trace", One, Operation) ∷ [] }
    ensures operation { table V3_0 Operation
        ≡ ("callbacks", Members, Callback) ∷ ("parameters", Each, Parameter)
        ∷ ("requestBody", One, RequestBody) ∷ ("responses", One, Responses) ∷ [] }
    ensures response { table V3_0 Response
        ≡ ("content", Members, MediaType) ∷ ("headers", Members, Header) ∷ ("links", Members, Link)
        ∷ [] }
    ensures parameter { table V3_0 Parameter
        ≡ ("content", Members, MediaType) ∷ ("examples", Members, Example) ∷ ("schema", One, Schema)
        ∷ [] }
    ensures header { table V3_0 Header
        ≡ ("content", Members, MediaType) ∷ ("examples", Members, Example) ∷ ("schema", One, Schema)
        ∷ [] }
    ensures request_body { table V3_0 RequestBody ≡ ("content", Members, MediaType) ∷ [] }
    ensures media_type { table V3_0 MediaType
        ≡ ("encoding", Members, Encoding) ∷ ("examples", Members, Example) ∷ ("schema", One, Schema)
        ∷ [] }
    ensures encoding { table V3_0 Encoding ≡ ("headers", Members, Header) ∷ [] }
    ensures schema { table V3_0 Schema
        ≡ ("additionalProperties", One, Schema) ∷ ("allOf", Each, Schema) ∷ ("anyOf", Each, Schema)
        ∷ ("items", One, Schema) ∷ ("not", One, Schema) ∷ ("oneOf", Each, Schema)
        ∷ ("properties", Members, Schema) ∷ [] }
    ensures nothing { tables V3_0 (Example ∷ Link ∷ SecurityScheme ∷ []) ≡ [] ∷ [] ∷ [] ∷ [] }
{}

/// The fields of 3.1: of the kinds that have more of them than in 3.0, and of the others as there.
pub fn fields_of_3_1()
    ensures root { table V3_1 Root
        ≡ ("components", One, Components) ∷ ("paths", One, Paths) ∷ ("webhooks", Members, PathItem)
        ∷ [] }
    ensures components { table V3_1 Components
        ≡ ("callbacks", Members, Callback) ∷ ("examples", Members, Example)
        ∷ ("headers", Members, Header) ∷ ("links", Members, Link)
        ∷ ("parameters", Members, Parameter) ∷ ("pathItems", Members, PathItem)
        ∷ ("requestBodies", Members, RequestBody) ∷ ("responses", Members, Response)
        ∷ ("schemas", Members, Schema) ∷ ("securitySchemes", Members, SecurityScheme) ∷ [] }
    ensures as_in_3_0 { tables V3_1 kept_in_3_1 ≡ tables V3_0 kept_in_3_1 }
{}

/// The fields of 3.2: of the kinds that have more of them than in 3.1, and of the others as there.
pub fn fields_of_3_2()
    ensures components { table V3_2 Components
        ≡ ("callbacks", Members, Callback) ∷ ("examples", Members, Example)
        ∷ ("headers", Members, Header) ∷ ("links", Members, Link)
        ∷ ("mediaTypes", Members, MediaType) ∷ ("parameters", Members, Parameter)
        ∷ ("pathItems", Members, PathItem) ∷ ("requestBodies", Members, RequestBody)
        ∷ ("responses", Members, Response) ∷ ("schemas", Members, Schema)
        ∷ ("securitySchemes", Members, SecurityScheme) ∷ [] }
    ensures path_item { table V3_2 PathItem
        ≡ ("additionalOperations", Members, Operation) ∷ ("delete", One, Operation)
        ∷ ("get", One, Operation) ∷ ("head", One, Operation) ∷ ("options", One, Operation)
        ∷ ("parameters", Each, Parameter) ∷ ("patch", One, Operation) ∷ ("post", One, Operation)
        ∷ ("put", One, Operation) ∷ ("query", One, Operation) ∷ ("trace", One, Operation) ∷ [] }
    ensures media_type { table V3_2 MediaType
        ≡ ("encoding", Members, Encoding) ∷ ("examples", Members, Example)
        ∷ ("itemEncoding", One, Encoding) ∷ ("itemSchema", One, Schema)
        ∷ ("prefixEncoding", Each, Encoding) ∷ ("schema", One, Schema) ∷ [] }
    ensures encoding { table V3_2 Encoding
        ≡ ("encoding", Members, Encoding) ∷ ("headers", Members, Header)
        ∷ ("itemEncoding", One, Encoding) ∷ ("prefixEncoding", Each, Encoding) ∷ [] }
    ensures as_in_3_1 { tables V3_2 kept_in_3_2 ≡ tables V3_1 kept_in_3_2 }
{}

/// Which names in a Paths Object are those of path items: the ones that begin with `/`.
pub fn names_in_paths()
    ensures in_2_0 { under V2_0 Paths ("/" ∷ "/a/{b}" ∷ [])
        ≡ Some (One, PathItem) ∷ Some (One, PathItem) ∷ [] }
    ensures none_in_2_0 { under V2_0 Paths ("a" ∷ "x-a" ∷ "" ∷ []) ≡ None ∷ None ∷ None ∷ [] }
    ensures in_3_0 { under V3_0 Paths ("/" ∷ "/a/{b}" ∷ [])
        ≡ Some (One, PathItem) ∷ Some (One, PathItem) ∷ [] }
    ensures in_3_1 { under V3_1 Paths ("/" ∷ "/a/{b}" ∷ [])
        ≡ Some (One, PathItem) ∷ Some (One, PathItem) ∷ [] }
    ensures in_3_2 { under V3_2 Paths ("/" ∷ "/a/{b}" ∷ [])
        ≡ Some (One, PathItem) ∷ Some (One, PathItem) ∷ [] }
    ensures none_in_3_2 { under V3_2 Paths ("a" ∷ "x-a" ∷ "" ∷ []) ≡ None ∷ None ∷ None ∷ [] }
{}

/// Which names in a Responses Object are those of responses: `default`, status codes, and from 3.0 on ranges of them.
pub fn names_in_responses()
    ensures in_2_0 { under V2_0 Responses ("default" ∷ "200" ∷ "404" ∷ [])
        ≡ Some (One, Response) ∷ Some (One, Response) ∷ Some (One, Response) ∷ [] }
    ensures none_in_2_0 { under V2_0 Responses ("x-a" ∷ "20" ∷ "2000" ∷ "defaults" ∷ [])
        ≡ None ∷ None ∷ None ∷ None ∷ [] }
    ensures in_3_0 { under V3_0 Responses ("default" ∷ "100" ∷ "599" ∷ "1XX" ∷ "5XX" ∷ [])
        ≡ Some (One, Response) ∷ Some (One, Response) ∷ Some (One, Response) ∷ Some (One, Response)
        ∷ Some (One, Response) ∷ [] }
    ensures none_in_3_0 { under V3_0 Responses
        ("x-a" ∷ "20" ∷ "2000" ∷ "099" ∷ "600" ∷ "0XX" ∷ "6XX" ∷ "4xx" ∷ "40X" ∷ "XXX" ∷ "" ∷ [])
        ≡ None ∷ None ∷ None ∷ None ∷ None ∷ None ∷ None ∷ None ∷ None ∷ None ∷ None ∷ [] }
    ensures in_3_1 { under V3_1 Responses ("default" ∷ "404" ∷ "4XX" ∷ [])
        ≡ Some (One, Response) ∷ Some (One, Response) ∷ Some (One, Response) ∷ [] }
    ensures none_in_3_1 { under V3_1 Responses ("x-a" ∷ "600" ∷ []) ≡ None ∷ None ∷ [] }
    ensures in_3_2 { under V3_2 Responses ("default" ∷ "404" ∷ "4XX" ∷ [])
        ≡ Some (One, Response) ∷ Some (One, Response) ∷ Some (One, Response) ∷ [] }
    ensures none_in_3_2 { under V3_2 Responses ("x-a" ∷ "600" ∷ []) ≡ None ∷ None ∷ [] }
{}

/// Which names in a Callback Object are those of path items: all but those of extensions.
pub fn names_in_callbacks()
    ensures in_3_0 { under V3_0 Callback ("$request.body#/url" ∷ "http://a/?b={$url}" ∷ "x" ∷ [])
        ≡ Some (One, PathItem) ∷ Some (One, PathItem) ∷ Some (One, PathItem) ∷ [] }
    ensures none_in_3_0 { under V3_0 Callback ("x-a" ∷ "x-" ∷ []) ≡ None ∷ None ∷ [] }
    ensures in_3_1 { under V3_1 Callback ("{$url}" ∷ []) ≡ Some (One, PathItem) ∷ [] }
    ensures none_in_3_1 { under V3_1 Callback ("x-a" ∷ []) ≡ None ∷ [] }
    ensures in_3_2 { under V3_2 Callback ("{$url}" ∷ []) ≡ Some (One, PathItem) ∷ [] }
    ensures none_in_3_2 { under V3_2 Callback ("x-a" ∷ []) ≡ None ∷ [] }
{}
