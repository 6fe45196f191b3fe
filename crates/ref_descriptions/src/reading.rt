//! How a value is read.
ghost use Rattle.std.specs.Prelude.{◌≡◌, None};
ghost use Rattle.serde_json.specs.View.{view};
ghost use Rattle.ref_descriptions.specs.declared.kind.Kind.TheVariants.{Schema};
ghost use Rattle.ref_descriptions.specs.Readings.{has_drafts, is_schema_of_a_draft, draft_below, reading_below, dialect, reading_of_root, may_be_reference, is_reference};

use crate::kind::Kind;
use crate::version::Version;
use ref_draft::Draft;
use serde_json::Value;

/// How a value is read: as an object of a kind, by the tables of a version. A schema of 3.1 or 3.2, and one that is in no description, is
/// read by a draft of JSON Schema.
#[derive(Clone, Copy, Debug, PartialEq, Eq, Hash)]
pub struct Reading {
    /// The version of the description; `None` of a schema that is read by a draft alone.
    pub version: Option<Version>,
    /// The kind of the object.
    pub kind: Kind,
    /// From 3.1 on, and where there is no version, the draft of a schema; of another object that of the schemas below which name none.
    pub draft: Draft,
}

// Whether the schemas of a version are those of JSON Schema.
fn has_drafts(version: Option<Version>) -> bool
    ensures { result ≡ has_drafts version }
{
    match version {
        Some(Version::V2_0) | Some(Version::V3_0) => false,
        _ => true,
    }
}

impl Reading {
    /// The reading of a schema by a draft, in no description.
    pub fn of_schema(draft: Draft) -> Reading
        ensures value { result ≡ record { version = None; kind = Schema; draft = draft } }
    {
        Reading {
            version: None,
            kind: Kind::Schema,
            draft,
        }
    }

    /// Whether it is that of a schema by a draft of JSON Schema. Takes no memory.
    pub fn is_by_draft(self) -> bool
        ensures value { result ≡ is_schema_of_a_draft self }
    {
        match self.kind {
            Kind::Schema => has_drafts(self.version),
            _ => false,
        }
    }

    // The reading of a value of a kind below an object that is read so.
    pub(crate) fn below(self, kind: Kind, value: &Value) -> Reading
        ensures { result ≡ reading_below self kind (view value.now) }
    {
        let reading = Reading { kind, ..self };
        if !reading.is_by_draft() {
            return reading;
        }
        Reading {
            draft: self.draft.detect(value),
            ..reading
        }
    }
}

// The draft of the schemas of a description that name none.
fn dialect(root: &Value) -> Draft
    ensures { result ≡ dialect (view root.now) }
{
    match root.get("jsonSchemaDialect").and_then(Value::as_str) {
        Some(text) => Draft::from_schema_uri(text),
        None => Draft::Draft202012,
    }
}

/// The reading of the root of a description of a version. A look-up; takes no memory.
pub fn reading_of_root(version: Version, root: &Value) -> Reading
    ensures value { result ≡ reading_of_root version (view root.now) }
{
    Reading {
        version: Some(version),
        kind: Kind::Root,
        draft: dialect(root),
    }
}

/// Whether a Reference Object may stand in place of what is read so (2.0 and 3.0 to 3.2, "Reference Object"). Takes no memory.
pub fn may_be_reference(reading: Reading) -> bool
    ensures value { result ≡ may_be_reference reading }
{
    let Some(version) = reading.version else {
        return false;
    };
    match reading.kind {
        Kind::Parameter | Kind::Response => true,
        Kind::Schema => !has_drafts(Some(version)),
        Kind::MediaType => version == Version::V3_2,
        Kind::Callback | Kind::Example | Kind::Header | Kind::Link => version != Version::V2_0,
        Kind::RequestBody | Kind::SecurityScheme => version != Version::V2_0,
        _ => false,
    }
}

/// Whether a value is a Reference Object: one may stand there, and it has a text under `$ref`. Its other members count for nothing. A
/// look-up; takes no memory.
pub fn is_reference(reading: Reading, value: &Value) -> bool
    ensures value { result ≡ is_reference reading (view value.now) }
{
    may_be_reference(reading) && value.get("$ref").and_then(Value::as_str).is_some()
}
