//! The tables: under which fields of an object which objects are.
ghost use Rattle.std.specs.Prelude.{◌≡◌, ◌++◌, map, bytes_eq, option_map, option_and_then};
ghost use Rattle.std.specs.List.{find};
ghost use Rattle.std.specs.Option.{option_or};
ghost use Rattle.ref_descriptions.specs.Fields as tables;
ghost use Rattle.ref_descriptions.specs.Fields.{begins_with, is_code, is_status, is_extension};
ghost use Rattle.ref_descriptions.specs.Views.{field_of};

use crate::kind::Kind;
use crate::version::Version;

/// How a field holds objects.
#[derive(Clone, Copy, Debug, PartialEq, Eq)]
pub enum Holding {
    /// Its value is one.
    One,
    /// Each element of its list is one.
    Each,
    /// Each member of its map is one.
    Members,
    /// Its value is one, or each element of its list is.
    OneOrEach,
}

/// A field of a table: its name, how it holds objects, and of which kind these are.
#[derive(Clone, Copy)]
pub struct Field {
    /// The name.
    pub name: &'static str,
    /// How it holds objects.
    pub holding: Holding,
    /// Of which kind they are.
    pub kind: Kind,
}

const ROOT_2_0: &[Field] = &[
    Field {
        name: "paths",
        holding: Holding::One,
        kind: Kind::Paths,
    },
    Field {
        name: "definitions",
        holding: Holding::Members,
        kind: Kind::Schema,
    },
    Field {
        name: "parameters",
        holding: Holding::Members,
        kind: Kind::Parameter,
    },
    Field {
        name: "responses",
        holding: Holding::Members,
        kind: Kind::Response,
    },
];

const PATH_ITEM_2_0: &[Field] = &[
    Field {
        name: "get",
        holding: Holding::One,
        kind: Kind::Operation,
    },
    Field {
        name: "put",
        holding: Holding::One,
        kind: Kind::Operation,
    },
    Field {
        name: "post",
        holding: Holding::One,
        kind: Kind::Operation,
    },
    Field {
        name: "delete",
        holding: Holding::One,
        kind: Kind::Operation,
    },
    Field {
        name: "options",
        holding: Holding::One,
        kind: Kind::Operation,
    },
    Field {
        name: "head",
        holding: Holding::One,
        kind: Kind::Operation,
    },
    Field {
        name: "patch",
        holding: Holding::One,
        kind: Kind::Operation,
    },
    Field {
        name: "parameters",
        holding: Holding::Each,
        kind: Kind::Parameter,
    },
];

const OPERATION_2_0: &[Field] = &[
    Field {
        name: "parameters",
        holding: Holding::Each,
        kind: Kind::Parameter,
    },
    Field {
        name: "responses",
        holding: Holding::One,
        kind: Kind::Responses,
    },
];

const RESPONSE_2_0: &[Field] = &[Field {
    name: "schema",
    holding: Holding::One,
    kind: Kind::Schema,
}];

const PARAMETER_2_0: &[Field] = &[Field {
    name: "schema",
    holding: Holding::One,
    kind: Kind::Schema,
}];

const SCHEMA_2_0: &[Field] = &[
    Field {
        name: "properties",
        holding: Holding::Members,
        kind: Kind::Schema,
    },
    Field {
        name: "items",
        holding: Holding::OneOrEach,
        kind: Kind::Schema,
    },
    Field {
        name: "additionalProperties",
        holding: Holding::One,
        kind: Kind::Schema,
    },
    Field {
        name: "allOf",
        holding: Holding::Each,
        kind: Kind::Schema,
    },
];

const ROOT_3_0: &[Field] = &[
    Field {
        name: "paths",
        holding: Holding::One,
        kind: Kind::Paths,
    },
    Field {
        name: "components",
        holding: Holding::One,
        kind: Kind::Components,
    },
];

const COMPONENTS_3_0: &[Field] = &[
    Field {
        name: "schemas",
        holding: Holding::Members,
        kind: Kind::Schema,
    },
    Field {
        name: "responses",
        holding: Holding::Members,
        kind: Kind::Response,
    },
    Field {
        name: "parameters",
        holding: Holding::Members,
        kind: Kind::Parameter,
    },
    Field {
        name: "examples",
        holding: Holding::Members,
        kind: Kind::Example,
    },
    Field {
        name: "requestBodies",
        holding: Holding::Members,
        kind: Kind::RequestBody,
    },
    Field {
        name: "headers",
        holding: Holding::Members,
        kind: Kind::Header,
    },
    Field {
        name: "securitySchemes",
        holding: Holding::Members,
        kind: Kind::SecurityScheme,
    },
    Field {
        name: "links",
        holding: Holding::Members,
        kind: Kind::Link,
    },
    Field {
        name: "callbacks",
        holding: Holding::Members,
        kind: Kind::Callback,
    },
];

const PATH_ITEM_3_0: &[Field] = &[
    Field {
        name: "get",
        holding: Holding::One,
        kind: Kind::Operation,
    },
    Field {
        name: "put",
        holding: Holding::One,
        kind: Kind::Operation,
    },
    Field {
        name: "post",
        holding: Holding::One,
        kind: Kind::Operation,
    },
    Field {
        name: "delete",
        holding: Holding::One,
        kind: Kind::Operation,
    },
    Field {
        name: "options",
        holding: Holding::One,
        kind: Kind::Operation,
    },
    Field {
        name: "head",
        holding: Holding::One,
        kind: Kind::Operation,
    },
    Field {
        name: "patch",
        holding: Holding::One,
        kind: Kind::Operation,
    },
    Field {
        name: "trace",
        holding: Holding::One,
        kind: Kind::Operation,
    },
    Field {
        name: "parameters",
        holding: Holding::Each,
        kind: Kind::Parameter,
    },
];

const OPERATION_3_0: &[Field] = &[
    Field {
        name: "parameters",
        holding: Holding::Each,
        kind: Kind::Parameter,
    },
    Field {
        name: "requestBody",
        holding: Holding::One,
        kind: Kind::RequestBody,
    },
    Field {
        name: "responses",
        holding: Holding::One,
        kind: Kind::Responses,
    },
    Field {
        name: "callbacks",
        holding: Holding::Members,
        kind: Kind::Callback,
    },
];

const REQUEST_BODY_3_0: &[Field] = &[Field {
    name: "content",
    holding: Holding::Members,
    kind: Kind::MediaType,
}];

const MEDIA_TYPE_3_0: &[Field] = &[
    Field {
        name: "schema",
        holding: Holding::One,
        kind: Kind::Schema,
    },
    Field {
        name: "examples",
        holding: Holding::Members,
        kind: Kind::Example,
    },
    Field {
        name: "encoding",
        holding: Holding::Members,
        kind: Kind::Encoding,
    },
];

const ENCODING_3_0: &[Field] = &[Field {
    name: "headers",
    holding: Holding::Members,
    kind: Kind::Header,
}];

const RESPONSE_3_0: &[Field] = &[
    Field {
        name: "headers",
        holding: Holding::Members,
        kind: Kind::Header,
    },
    Field {
        name: "content",
        holding: Holding::Members,
        kind: Kind::MediaType,
    },
    Field {
        name: "links",
        holding: Holding::Members,
        kind: Kind::Link,
    },
];

const PARAMETER_3_0: &[Field] = &[
    Field {
        name: "schema",
        holding: Holding::One,
        kind: Kind::Schema,
    },
    Field {
        name: "examples",
        holding: Holding::Members,
        kind: Kind::Example,
    },
    Field {
        name: "content",
        holding: Holding::Members,
        kind: Kind::MediaType,
    },
];

const HEADER_3_0: &[Field] = &[
    Field {
        name: "schema",
        holding: Holding::One,
        kind: Kind::Schema,
    },
    Field {
        name: "examples",
        holding: Holding::Members,
        kind: Kind::Example,
    },
    Field {
        name: "content",
        holding: Holding::Members,
        kind: Kind::MediaType,
    },
];

const SCHEMA_3_0: &[Field] = &[
    Field {
        name: "properties",
        holding: Holding::Members,
        kind: Kind::Schema,
    },
    Field {
        name: "items",
        holding: Holding::One,
        kind: Kind::Schema,
    },
    Field {
        name: "additionalProperties",
        holding: Holding::One,
        kind: Kind::Schema,
    },
    Field {
        name: "allOf",
        holding: Holding::Each,
        kind: Kind::Schema,
    },
    Field {
        name: "anyOf",
        holding: Holding::Each,
        kind: Kind::Schema,
    },
    Field {
        name: "oneOf",
        holding: Holding::Each,
        kind: Kind::Schema,
    },
    Field {
        name: "not",
        holding: Holding::One,
        kind: Kind::Schema,
    },
];

const ROOT_3_1: &[Field] = &[Field {
    name: "webhooks",
    holding: Holding::Members,
    kind: Kind::PathItem,
}];

const COMPONENTS_3_1: &[Field] = &[Field {
    name: "pathItems",
    holding: Holding::Members,
    kind: Kind::PathItem,
}];

const COMPONENTS_3_2: &[Field] = &[Field {
    name: "mediaTypes",
    holding: Holding::Members,
    kind: Kind::MediaType,
}];

const PATH_ITEM_3_2: &[Field] = &[
    Field {
        name: "query",
        holding: Holding::One,
        kind: Kind::Operation,
    },
    Field {
        name: "additionalOperations",
        holding: Holding::Members,
        kind: Kind::Operation,
    },
];

const MEDIA_TYPE_3_2: &[Field] = &[
    Field {
        name: "itemSchema",
        holding: Holding::One,
        kind: Kind::Schema,
    },
    Field {
        name: "prefixEncoding",
        holding: Holding::Each,
        kind: Kind::Encoding,
    },
    Field {
        name: "itemEncoding",
        holding: Holding::One,
        kind: Kind::Encoding,
    },
];

const ENCODING_3_2: &[Field] = &[
    Field {
        name: "encoding",
        holding: Holding::Members,
        kind: Kind::Encoding,
    },
    Field {
        name: "prefixEncoding",
        holding: Holding::Each,
        kind: Kind::Encoding,
    },
    Field {
        name: "itemEncoding",
        holding: Holding::One,
        kind: Kind::Encoding,
    },
];

const NONE: &[Field] = &[];

// Those of 2.0.
fn fields_2_0(kind: Kind) -> &'static [Field]
    ensures { map field_of result.now ≡ tables.fields_2_0 kind }
{
    match kind {
        Kind::Root => ROOT_2_0,
        Kind::PathItem => PATH_ITEM_2_0,
        Kind::Operation => OPERATION_2_0,
        Kind::Response => RESPONSE_2_0,
        Kind::Parameter => PARAMETER_2_0,
        Kind::Schema => SCHEMA_2_0,
        _ => NONE,
    }
}

// Those of 3.0.
fn fields_3_0(kind: Kind) -> &'static [Field]
    ensures { map field_of result.now ≡ tables.fields_3_0 kind }
{
    match kind {
        Kind::Root => ROOT_3_0,
        Kind::Components => COMPONENTS_3_0,
        Kind::PathItem => PATH_ITEM_3_0,
        Kind::Operation => OPERATION_3_0,
        Kind::RequestBody => REQUEST_BODY_3_0,
        Kind::MediaType => MEDIA_TYPE_3_0,
        Kind::Encoding => ENCODING_3_0,
        Kind::Response => RESPONSE_3_0,
        Kind::Parameter => PARAMETER_3_0,
        Kind::Header => HEADER_3_0,
        Kind::Schema => SCHEMA_3_0,
        _ => NONE,
    }
}

// What 3.1 has beside that.
fn since_3_1(kind: Kind) -> &'static [Field]
    ensures { map field_of result.now ≡ tables.since_3_1 kind }
{
    match kind {
        Kind::Root => ROOT_3_1,
        Kind::Components => COMPONENTS_3_1,
        _ => NONE,
    }
}

// What 3.2 has beside that.
fn since_3_2(kind: Kind) -> &'static [Field]
    ensures { map field_of result.now ≡ tables.since_3_2 kind }
{
    match kind {
        Kind::Components => COMPONENTS_3_2,
        Kind::PathItem => PATH_ITEM_3_2,
        Kind::MediaType => MEDIA_TYPE_3_2,
        Kind::Encoding => ENCODING_3_2,
        _ => NONE,
    }
}

// The field with a name, of a table.
fn named(fields: &'static [Field], name: &str) -> Option<(Holding, Kind)>
    ensures { result
        ≡ option_map (λ f. (f.holding, f.kind))
        (find (λ f. bytes_eq name.now f.name) (map field_of fields.now)) }
{
    for field in fields {
        if name == field.name {
            return Some((field.holding, field.kind));
        }
    }
    None
}

// The same of one table, and of another after it.
fn named_in(
    fields: &'static [Field],
    others: &'static [Field],
    name: &str,
) -> Option<(Holding, Kind)>
    ensures { result
        ≡ option_map (λ f. (f.holding, f.kind))
        (find (λ f. bytes_eq name.now f.name)
        (map field_of fields.now ++ map field_of others.now)) }
{
    match named(fields, name) {
        Some(found) => Some(found),
        None => named(others, name),
    }
}

// The field of a version with a name.
fn field_named(version: Version, kind: Kind, name: &str) -> Option<(Holding, Kind)>
    ensures { result
        ≡ option_map (λ f. (f.holding, f.kind))
        (find (λ f. bytes_eq name.now f.name) (tables.fields version kind)) }
{
    match version {
        Version::V2_0 => named(fields_2_0(kind), name),
        Version::V3_0 => named(fields_3_0(kind), name),
        Version::V3_1 => named_in(since_3_1(kind), fields_3_0(kind), name),
        Version::V3_2 => match named(since_3_2(kind), name) {
            Some(found) => Some(found),
            None => named_in(since_3_1(kind), fields_3_0(kind), name),
        },
    }
}

// Whether a name is a status code, or a range of them.
fn is_code(name: &str) -> bool
    ensures { result ≡ is_code name.now }
{
    match name.as_bytes() {
        [a, b, c] => {
            (b'1'..=b'5').contains(a)
                && (b.is_ascii_digit() && c.is_ascii_digit() || *b == b'X' && *c == b'X')
        }
        _ => false,
    }
}

// Whether a name is that of a response.
fn is_status(name: &str) -> bool
    ensures { result ≡ is_status name.now }
{
    name == "default" || is_code(name)
}

// Whether a name is that of an extension.
fn is_extension(name: &str) -> bool
    ensures { result ≡ is_extension name.now }
{
    match name.as_bytes() {
        [a, b, ..] => *a == b'x' && *b == b'-',
        _ => false,
    }
}

/// How the value under a name of an object of a kind holds objects, and of which kind these are; `None` where it holds none. Of the
/// Paths Object each name that begins with `/` has a path item, of a Responses Object each status code and `default` a response, and of
/// a Callback Object each name but those of extensions a path item. A few comparisons of names; takes no memory.
pub fn field_under(version: Version, kind: Kind, name: &str) -> Option<(Holding, Kind)>
    ensures value { result ≡ tables.field_under version kind name.now }
{
    match kind {
        Kind::Paths if name.starts_with('/') => Some((Holding::One, Kind::PathItem)),
        Kind::Paths => None,
        Kind::Responses if is_status(name) => Some((Holding::One, Kind::Response)),
        Kind::Responses => None,
        Kind::Callback if is_extension(name) => None,
        Kind::Callback => Some((Holding::One, Kind::PathItem)),
        _ => field_named(version, kind, name),
    }
}
