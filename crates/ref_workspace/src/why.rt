//! Why a reference leads nowhere, why a text is no URI, and which draft a `$schema` may mean.
use ref_draft::Draft;
use ref_error::Error;
use ref_messages::Suggester;
use ref_rules::meta_schema;
use ref_uri::UriError;
use std::alloc::{AllocError, Global};

/// Why a reference leads nowhere.
pub(crate) fn fault_text(alloc: Global, error: &Error) -> Result<String, AllocError> {
    match error {
        Error::InvalidAnchor { anchor } => [
            "'",
            anchor.as_str(),
            "' has a slash, as no anchor has, and begins with none, as a pointer does",
        ]
        .join(alloc, ""),
        Error::InvalidArrayIndex { pointer, index } => [
            "Pointer '",
            pointer.as_str(),
            "' goes into an array by '",
            index.as_str(),
            "', which is no index",
        ]
        .join(alloc, ""),
        other => other.to_string(alloc),
    }
}

/// Why a text is no URI, with the first character that none has, where there is one.
pub(crate) fn uri_text(alloc: Global, error: &UriError) -> Result<String, AllocError> {
    let text = error.to_string(alloc)?;
    let UriError::Parse { uri, .. } = error else {
        return Ok(text);
    };
    let Some(refused) = refused_in(uri.as_str()) else {
        return Ok(text);
    };
    let mut name = String::new(alloc);
    match refused {
        ' ' => name.push_str("a space")?,
        '%' => name.push_str("a % without two hexadecimal digits after it")?,
        c if c.is_control() => name.push_str("a control character")?,
        c => {
            name.push('\'')?;
            name.push(c)?;
            name.push('\'')?;
        }
    }
    [text.as_str(), ": it has ", name.as_str()].join(alloc, "")
}

// The first character of a text that no URI has there (RFC 3986, 2).
fn refused_in(text: &str) -> Option<char> {
    for (at, c) in text.char_indices() {
        if is_refused(text, at, c) {
            return Some(c);
        }
    }
    None
}

fn is_refused(text: &str, at: usize, c: char) -> bool {
    match c {
        '%' => !has_digits(text.as_bytes(), at),
        ' ' | '"' | '<' | '>' | '\\' | '^' | '`' | '{' | '|' | '}' => true,
        c => !c.is_ascii() || c.is_control(),
    }
}

// Whether two hexadecimal digits follow what is at a place.
fn has_digits(bytes: &[u8], at: usize) -> bool {
    let first = bytes.get(at.saturating_add(1)).copied().unwrap_or(0);
    let second = bytes.get(at.saturating_add(2)).copied().unwrap_or(0);
    first.is_ascii_hexdigit() && second.is_ascii_hexdigit()
}

/// The URI of a draft's meta-schema that a text under `$schema` may mean.
pub(crate) fn near_dialect(
    alloc: Global,
    suggester: &mut Suggester,
    text: &str,
) -> Result<Option<String>, AllocError> {
    suggester.begin();
    let drafts = [
        Draft::Draft202012,
        Draft::Draft201909,
        Draft::Draft7,
        Draft::Draft6,
        Draft::Draft4,
    ];
    for draft in drafts {
        let uri = meta_schema(draft);
        if suggester.distance(alloc, text, uri)?.is_some() {
            return Ok(Some(String::from_str(alloc, uri)?));
        }
    }
    Ok(None)
}
