//! Which names there may be.
ghost use Rattle.std.specs.Prelude.{◌≡◌};
ghost use Rattle.ref_edits.specs.Names as spec;

use ref_draft::Draft;

// The drafts of JSON Schema.
const DRAFTS: [Draft; 5] = [
    Draft::Draft4,
    Draft::Draft6,
    Draft::Draft7,
    Draft::Draft201909,
    Draft::Draft202012,
];

/// Whether a text is a keyword of a draft. Takes no memory.
pub(crate) fn is_keyword(text: &str) -> bool {
    for draft in DRAFTS {
        if draft.is_known_keyword(text) {
            return true;
        }
    }
    false
}

/// Whether the members under a keyword are definitions, which references alone name.
pub(crate) fn names_definitions(keyword: &str) -> bool
    ensures value { result ≡ spec.names_definitions keyword.now }
{
    keyword == "$defs" || keyword == "definitions"
}

/// Whether the members of a field of the components of a description are named by references alone: but for security schemes, which requirements name too
/// (OpenAPI 3.0 on, "Components Object", "Security Requirement Object").
pub(crate) fn is_component(field: &str) -> bool {
    matches!(
        field,
        "schemas"
            | "responses"
            | "parameters"
            | "examples"
            | "requestBodies"
            | "headers"
            | "links"
            | "callbacks"
            | "pathItems"
            | "mediaTypes"
    )
}

// Whether a byte may be in the name of a component.
fn is_in_name(byte: u8) -> bool
    ensures { result ≡ spec.is_in_name byte }
{
    byte.is_ascii_alphanumeric() || byte == b'.' || byte == b'-' || byte == b'_'
}

// Whether all bytes may.
fn are_in_name(bytes: &[u8]) -> bool
    ensures { result ≡ spec.are_in_name bytes.now }
{
    let mut rest = bytes;
    'bytes: while let [byte, more @ ..] = rest {
        if !is_in_name(*byte) {
            return false;
        }
        rest = more;
    }
    true
}

/// Whether a component of a description may be called so (OpenAPI 3.0 on, "Components Object").
pub(crate) fn is_component_name(name: &str) -> bool
    ensures value { result ≡ spec.is_component_name name.now }
{
    !name.is_empty() && are_in_name(name.as_bytes())
}

/// Whether an anchor may be called so (2020-12 Core, 8.2.2).
pub(crate) fn is_anchor_name(name: &str) -> bool
    ensures value { result ≡ spec.is_anchor_name name.now }
{
    match name.as_bytes() {
        [] => false,
        [first, rest @ ..] => {
            (first.is_ascii_alphabetic() || *first == b'_') && are_in_name(rest)
        }
    }
}
