//! Workloads of `ref_vocabularies`: the vocabulary of a text, and what a meta-schema declares.

use crate::workloads::line::Line;
use ref_vocabularies::{Vocabulary, find};
use serde_json::Value;
use std::alloc::{AllocError, Global};

/// How long the URI of the vocabulary is that a text names: of a known one, the text; nothing where it is refused.
pub fn length_of(alloc: Global, text: &str) -> Option<usize> {
    match Vocabulary::from_text(alloc, text).ok()? {
        Vocabulary::Custom(uri) => Some(uri.as_str().len()),
        _ => Some(text.len()),
    }
}

/// The text of a meta-schema with so many custom vocabularies.
fn meta_schema_of(alloc: Global, size: usize) -> Result<String, AllocError> {
    let mut text = String::from_str(
        alloc,
        "{\"$vocabulary\":{\"https://json-schema.org/draft/2020-12/vocab/core\":true",
    )?;
    for number in 0..size {
        let member = format!(in alloc; ",\"https://example.com/vocab/{number:06}\":true")?;
        text.push_str(member.as_str())?;
    }
    text.push_str("}}")?;
    Ok(text)
}

/// How many custom vocabularies so many calls find together in a meta-schema with so many; nothing where one is refused.
pub fn answer(alloc: Global, line: Line<'_>) -> Option<u64> {
    let text = meta_schema_of(alloc, line.size).ok()?;
    let document = Value::from_str(alloc, text.as_str()).ok()?;
    let mut sum: u64 = 0;
    for _ in 0..line.times {
        if let Ok(Some(set)) = find(alloc, &document) {
            sum = sum.saturating_add(set.custom().count() as u64);
        }
    }
    Some(sum)
}
