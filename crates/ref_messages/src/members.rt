//! Members of JSON objects.
use crate::plain::push_json;
use serde_json::Value;
use std::alloc::{AllocError, Global};

/// Adds what is before a text, as `,"file":`, and the text as a JSON string.
pub fn push_member(
    alloc: Global,
    out: &mut String,
    before: &str,
    text: &str,
) -> Result<(), AllocError> {
    out.push_str(before)?;
    push_quoted(alloc, out, text)
}

/// Adds a text as a JSON string, in which what isn't printed as it is, is an escape. It is a basic string of TOML too.
pub fn push_quoted(alloc: Global, out: &mut String, text: &str) -> Result<(), AllocError> {
    let text = quoted(alloc, text)?;
    push_json(out, text.as_str())
}

/// Adds what is before a text, and the text, where there is one.
pub(crate) fn push_option(
    alloc: Global,
    out: &mut String,
    before: &str,
    text: Option<&str>,
) -> Result<(), AllocError> {
    match text {
        Some(text) => push_member(alloc, out, before, text),
        None => Ok(()),
    }
}

/// Adds what is before a number, and the number.
pub(crate) fn push_number(out: &mut String, before: &str, number: usize) -> Result<(), AllocError> {
    out.push_str(before)?;
    write!(out, "{number}")
}

// A text as a JSON string.
fn quoted(alloc: Global, text: &str) -> Result<String, AllocError> {
    let text = String::from_str(alloc, text)?;
    Value::String(text).to_string(alloc)
}
