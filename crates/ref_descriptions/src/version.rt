//! The version of the OpenAPI Specification that a document follows.
ghost use Rattle.std.specs.Prelude.{◌≡◌, ◌||◌, nat_eq, bytes_eq};
ghost use Rattle.std.specs.List.{starts_with};
ghost use Rattle.serde_json.specs.View.{view};
ghost use Rattle.ref_descriptions.specs.Versions.{openapi_version, version_name, version_of};

use serde_json::Value;

/// A version of the OpenAPI Specification. The versions are ordered as listed.
#[derive(Clone, Copy, Debug, PartialEq, Eq, Hash, PartialOrd, Ord)]
pub enum Version {
    /// 2.0, which is Swagger.
    V2_0,
    /// 3.0, with any third number.
    V3_0,
    /// 3.1, with any third number.
    V3_1,
    /// 3.2, with any third number.
    V3_2,
}

impl Version {
    /// The version's name, as `3.0`. Takes no memory.
    pub fn name(self) -> &'static str
        ensures value { result.now ≡ version_name self }
    {
        match self {
            Version::V2_0 => "2.0",
            Version::V3_0 => "3.0",
            Version::V3_1 => "3.1",
            Version::V3_2 => "3.2",
        }
    }
}

// Whether a text is a version's name, or begins with that and a dot.
fn is_version(text: &str, name: &str, beginning: &str) -> bool
    ensures { result
        ≡ (bytes_eq text.now name.now || starts_with nat_eq text.now beginning.now) }
{
    text == name || text.starts_with(beginning)
}

// The version that a text under `openapi` names.
fn openapi_version(text: &str) -> Option<Version>
    ensures { result ≡ openapi_version text.now }
{
    if is_version(text, "3.0", "3.0.") {
        return Some(Version::V3_0);
    }
    if is_version(text, "3.1", "3.1.") {
        return Some(Version::V3_1);
    }
    if is_version(text, "3.2", "3.2.") {
        return Some(Version::V3_2);
    }
    None
}

/// The version that a document with this root follows; `None` where it is no OpenAPI description (OpenAPI 3.x, "OpenAPI
/// Object"; 2.0, "Swagger Object"). Two look-ups; takes no memory.
pub fn version_of(root: &Value) -> Option<Version>
    ensures value { result ≡ version_of (view root.now) }
{
    let swagger = root.get("swagger").and_then(Value::as_str);
    if swagger == Some("2.0") {
        return Some(Version::V2_0);
    }
    match root.get("openapi").and_then(Value::as_str) {
        Some(text) => openapi_version(text),
        None => None,
    }
}
