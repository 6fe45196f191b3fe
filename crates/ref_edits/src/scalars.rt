//! Scalars of documents that are another text, written as they were.
use ref_fixes::written;
use ref_outline::spans::decoded;
use ref_positions::Format;
use ref_yaml::Stop;
use serde_json::Value;
use std::alloc::{AllocError, Global};

/// The text that a scalar is, where it is one. Fails only if out of memory.
pub(crate) fn text_of(
    alloc: Global,
    format: Format,
    token: &str,
) -> Result<Option<String>, AllocError> {
    match format {
        Format::Json => decoded(alloc, token),
        Format::Yaml => decoded_yaml(alloc, token),
    }
}

fn decoded_yaml(alloc: Global, token: &str) -> Result<Option<String>, AllocError> {
    match ref_yaml::from_str(alloc, token) {
        Ok(Value::String(text)) => Ok(Some(text)),
        Ok(other) => {
            drop(other);
            Ok(None)
        }
        Err(Stop::Memory) => Err(AllocError),
        Err(Stop::At(..)) => Ok(None),
    }
}

/// A text as a scalar of a document, written as another scalar there: in the same quotes, of YAML also without, where the text may be so; with a slash escaped where slashes are,
/// and a character beyond ASCII where such are. Fails only if out of memory.
pub(crate) fn scalar_like(
    alloc: Global,
    format: Format,
    token: &str,
    text: &str,
) -> Result<String, AllocError> {
    if token.starts_with('"') && token.contains('\\') {
        return escaped_like(alloc, token, text);
    }
    if format == Format::Yaml && token.starts_with('\'') && is_printable(text) {
        return in_single_quotes(alloc, text);
    }
    let made = written(alloc, format, token, text)?;
    match text_of(alloc, format, made.as_str())? {
        Some(meaning) if meaning.as_str() == text => Ok(made),
        _ => quoted(alloc, text),
    }
}

// A text in the quotes of JSON.
fn quoted(alloc: Global, text: &str) -> Result<String, AllocError> {
    Value::String(String::from_str(alloc, text)?).to_string(alloc)
}

// Whether a text has no character that single quotes of YAML can't have, or would fold (YAML 1.2.2, 7.3.2).
fn is_printable(text: &str) -> bool {
    text.chars().all(|c| ' ' <= c && c != '\u{7f}')
}

// A text in single quotes of YAML, in which a quote is written twice (YAML 1.2.2, 7.3.2).
fn in_single_quotes(alloc: Global, text: &str) -> Result<String, AllocError> {
    let mut out = String::from_str(alloc, "'")?;
    for c in text.chars() {
        if c == '\'' {
            out.push('\'')?;
        }
        out.push(c)?;
    }
    out.push('\'')?;
    Ok(out)
}

// A text in double quotes, with what a token has escaped that need not be.
fn escaped_like(alloc: Global, token: &str, text: &str) -> Result<String, AllocError> {
    let has_slashes = token.contains("\\/");
    let has_codes = token.contains("\\u") && token.is_ascii();
    let plain = quoted(alloc, text)?;
    let mut out = String::new(alloc);
    for c in plain.as_str().chars() {
        if c == '/' && has_slashes {
            out.push_str("\\/")?;
        } else if has_codes && !c.is_ascii() {
            push_codes(&mut out, c)?;
        } else {
            out.push(c)?;
        }
    }
    Ok(out)
}

// Adds a character as the code units that it has in UTF-16 (RFC 8259, 7).
fn push_codes(out: &mut String, c: char) -> Result<(), AllocError> {
    let code = c as u32;
    if code < 0x1_0000 {
        return write!(out, "\\u{code:04x}");
    }
    let beyond = code - 0x1_0000;
    let high = 0xd800 + beyond / 0x400;
    let low = 0xdc00 + beyond % 0x400;
    write!(out, "\\u{high:04x}\\u{low:04x}")
}
