//! A document deeper than a text may nest: so many schemas, each under `not` of the one before. It is prepared, and a
//! pointer through all of them is looked up. `lent` is not freed, and `owned` is, by the registry: the drop of a value
//! goes as deep as the value, and so do its copy, its comparison and its text, by which `copied`, `compared` and `printed` show
//! how much stack those take.

use crate::workloads::line::Line;
use ref_error::Error;
use ref_uri::uri::from_str;
use referencing::{Registry, RegistryBuilder};
use serde_json::{Value, json};
use std::alloc::{AllocError, Global};
use std::mem::forget;

/// The document.
fn document_of(alloc: Global, size: usize) -> Result<Value, AllocError> {
    let mut value = Value::Bool(true);
    for _ in 0..size {
        value = json!(in alloc; {"not": value})?;
    }
    Ok(value)
}

/// The pointer to its innermost value, as a fragment.
fn pointer_of(alloc: Global, size: usize) -> Result<String, AllocError> {
    let mut text = String::from_str(alloc, "#")?;
    for _ in 0..size {
        text.push_str("/not")?;
    }
    Ok(text)
}

/// How long that pointer is, where it leads to the innermost value of the document that was added.
fn followed(alloc: Global, builder: RegistryBuilder<'_>, pointer: &str) -> Result<u64, Error> {
    let registry = builder.prepare()?;
    let found = registry.lookup(alloc, from_str(alloc, "http://a/r")?, pointer)?;
    Ok(if found.contents().is_boolean() {
        pointer.len() as u64
    } else {
        0
    })
}

/// That of a document that is lent.
fn of_lent(alloc: Global, document: &Value, pointer: &str) -> Result<u64, Error> {
    followed(
        alloc,
        Registry::new(alloc).add("http://a/r", document)?,
        pointer,
    )
}

/// How long the text of a document is, or 1 where a copy was made or is equal; the pointer's length of one that is lent.
fn of_value(alloc: Global, document: &Value, line: Line<'_>, pointer: &str) -> Option<u64> {
    match line.text {
        "copied" => {
            forget(document.clone().ok()?);
            Some(1)
        }
        "compared" => {
            let other = document_of(alloc, line.size).ok()?;
            let is_equal = *document == other;
            forget(other);
            Some(u64::from(is_equal))
        }
        "printed" => Some(document.to_string(alloc).ok()?.len() as u64),
        _ => of_lent(alloc, document, pointer).ok(),
    }
}

/// What a line's workload returns of a document of its size; nothing where a call is refused.
pub fn answer(alloc: Global, line: Line<'_>) -> Option<u64> {
    let pointer = pointer_of(alloc, line.size).ok()?;
    let document = document_of(alloc, line.size).ok()?;
    if line.text == "owned" {
        let builder = Registry::new(alloc).add("http://a/r", document).ok()?;
        return followed(alloc, builder, pointer.as_str()).ok();
    }
    let answer = of_value(alloc, &document, line, pointer.as_str());
    forget(document);
    answer
}
