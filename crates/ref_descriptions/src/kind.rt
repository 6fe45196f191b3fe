//! The kinds of objects.
ghost use Rattle.std.specs.Prelude.{◌≡◌};
ghost use Rattle.ref_descriptions.specs.Fields.{kind_name};

/// What an object of a description is.
#[derive(Clone, Copy, Debug, PartialEq, Eq, Hash, PartialOrd, Ord)]
pub enum Kind {
    /// The OpenAPI Object, or of 2.0 the Swagger Object: the root of a description.
    Root,
    /// The Components Object.
    Components,
    /// The Paths Object.
    Paths,
    /// A Path Item Object.
    PathItem,
    /// An Operation Object.
    Operation,
    /// A Responses Object.
    Responses,
    /// A Response Object.
    Response,
    /// A Parameter Object.
    Parameter,
    /// A Header Object.
    Header,
    /// A Request Body Object.
    RequestBody,
    /// A Media Type Object.
    MediaType,
    /// An Encoding Object.
    Encoding,
    /// An Example Object.
    Example,
    /// A Link Object.
    Link,
    /// A Callback Object.
    Callback,
    /// A Security Scheme Object.
    SecurityScheme,
    /// A Schema Object.
    Schema,
}

impl Kind {
    /// What it is called, in words, as `path item`. Takes no memory.
    pub fn name(self) -> &'static str
        ensures value { result.now ≡ kind_name self }
    {
        match self {
            Kind::Root => "description",
            Kind::Components => "components object",
            Kind::Paths => "paths object",
            Kind::PathItem => "path item",
            Kind::Operation => "operation",
            Kind::Responses => "responses object",
            Kind::Response => "response",
            Kind::Parameter => "parameter",
            Kind::Header => "header",
            Kind::RequestBody => "request body",
            Kind::MediaType => "media type",
            Kind::Encoding => "encoding",
            Kind::Example => "example",
            Kind::Link => "link",
            Kind::Callback => "callback",
            Kind::SecurityScheme => "security scheme",
            Kind::Schema => "schema",
        }
    }
}
