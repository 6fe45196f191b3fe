//! What mends a reference.
use crate::replace::Replacement;
use ref_files::{Format, uri_below};
use ref_findings::Problem as Plain;
use ref_messages::Message;
use ref_outline::spans::{decoded, offset_of, part_in, token_end};
use ref_rules::Problem as Told;
use ref_workspace::{Finding, Problem};
use ref_yaml::Stop;
use serde_json::Value;
use std::alloc::{AllocError, Global};

/// What mends a finding with a message on it: the scalar of the text under its keyword, and the scalar that is meant, written as the
/// first one is, with the comment after `>` or `|` of one that is a block. Nothing where the message suggests nothing, what it suggests is no text to put there, or the text under the keyword isn't
/// written where the message is, as what an alias means. Fails only if out of memory. Takes a step for each byte of the text before the scalar;
/// in YAML one pass over the text for a scalar of more than one line, or with a comma, a bracket or a quote in it.
pub fn mended(
    alloc: Global,
    finding: &Finding<'_>,
    message: &Message<'_>,
    (format, text): (Format, &str),
) -> Result<Option<Replacement>, AllocError> {
    let (Some(meant), Some(reference)) = (meant_text(alloc, finding, message)?, message.reference)
    else {
        return Ok(None);
    };
    let start = offset_of(text, message.line, message.column);
    let Some(end) = end_of(alloc, (format, text), start, reference)? else {
        return Ok(None);
    };
    let token = text.get(start..end).unwrap_or("");
    let mut text = written(alloc, format, token, meant.as_str())?;
    if let Some(comment) = comment_of(format, token) {
        text.push(' ')?;
        text.push_str(comment)?;
    }
    Ok(Some(Replacement { start, end, text }))
}

// The comment in the first line of a scalar of YAML that is written as a block (YAML 1.2.2, 8.1), which stays where another scalar comes.
fn comment_of(format: Format, token: &str) -> Option<&str> {
    if format == Format::Json || !token.starts_with(['>', '|']) {
        return None;
    }
    let (head, _) = token.split_once('\n')?;
    let (indicators, _) = head.split_once('#')?;
    Some(head.get(indicators.len()..)?.trim_end())
}

// Where the scalar ends that begins at an offset and means a text: nothing where none is there.
fn end_of(
    alloc: Global,
    (format, text): (Format, &str),
    start: usize,
    meaning: &str,
) -> Result<Option<usize>, AllocError> {
    let end = token_end(text, start);
    if means(alloc, format, text.get(start..end).unwrap_or(""), meaning)? {
        return Ok(Some(end));
    }
    let end = match part_in(alloc, format, text, start)? {
        Some(part) if part.start == start && !part.is_key => part.end,
        _ => return Ok(None),
    };
    let token = text.get(start..end).unwrap_or("").trim_end();
    if means(alloc, format, token, meaning)? {
        return Ok(Some(start.saturating_add(token.len())));
    }
    Ok(None)
}

// Whether a scalar means a text.
fn means(alloc: Global, format: Format, token: &str, meaning: &str) -> Result<bool, AllocError> {
    let text = match format {
        Format::Json => decoded(alloc, token)?,
        Format::Yaml => decoded_yaml(alloc, token)?,
    };
    Ok(text.as_ref().is_some_and(|text| text.as_str() == meaning))
}

// The text that a scalar of YAML is.
fn decoded_yaml(alloc: Global, token: &str) -> Result<Option<String>, AllocError> {
    match ref_yaml::from_str(alloc, token) {
        Ok(Value::String(text)) => Ok(Some(text)),
        Ok(other) => {
            drop(other);
            Ok(None)
        }
        Err(Stop::Memory) => Err(AllocError),
        Err(Stop::At(..)) => Ok(None),
    }
}

/// The text that is meant under the keyword of a finding with a message on it: a reference with another fragment, to another document, or a
/// dialect. Fails only if out of memory.
pub fn meant_text(
    alloc: Global,
    finding: &Finding<'_>,
    message: &Message<'_>,
) -> Result<Option<String>, AllocError> {
    let (Some(meant), Some(reference)) = (&message.suggestion, message.reference) else {
        return Ok(None);
    };
    match &finding.problem {
        Problem::Plain(Plain::LeadsNowhere { .. }) | Problem::WrongKind { .. } => {
            Ok(Some(with_fragment(alloc, reference, meant.as_str())?))
        }
        Problem::Plain(Plain::MissingDocument { .. }) => Ok(Some(meant.clone()?)),
        Problem::Told { told, .. } => match told {
            Told::MisspelledDialect(_) => Ok(Some(meant.clone()?)),
            _ => Ok(None),
        },
        _ => Ok(None),
    }
}

// A reference with another fragment, or with `#` alone.
fn with_fragment(alloc: Global, reference: &str, fragment: &str) -> Result<String, AllocError> {
    let front = match reference.split_once('#') {
        Some((front, _)) => front,
        None => reference,
    };
    if fragment == "#" {
        return format!(in alloc; "{front}#");
    }
    let fragment = as_fragment(alloc, fragment)?;
    format!(in alloc; "{front}#{fragment}")
}

/// A pointer or the name of an anchor as a fragment, percent-encoded (RFC 3986, 3.5). Fails only if out of memory.
pub fn as_fragment(alloc: Global, text: &str) -> Result<String, AllocError> {
    match text.strip_prefix('/') {
        Some(rest) => uri_below(alloc, "", rest),
        None => String::from_str(alloc, text),
    }
}

/// A text as a scalar of a document that is written so, in the quotes of another scalar. Fails only if out of memory.
pub fn written(
    alloc: Global,
    format: Format,
    token: &str,
    text: &str,
) -> Result<String, AllocError> {
    if format == Format::Yaml && token.starts_with('\'') && !text.contains('\'') {
        return format!(in alloc; "'{text}'");
    }
    if format == Format::Yaml && !token.starts_with('"') && is_plain(text) {
        return String::from_str(alloc, text);
    }
    Value::String(String::from_str(alloc, text)?).to_string(alloc)
}

// Whether a text of YAML needs no quotes.
fn is_plain(text: &str) -> bool {
    let begins = text.starts_with(|c: char| c.is_ascii_alphabetic() || c == '.' || c == '/');
    begins
        && text
            .chars()
            .all(|c| c.is_ascii_alphanumeric() || "-._~/#%".contains(c))
}
