//! `follow` over many steps: the references `0`, `1` and so on in turn, so many times, from `http://a/r`, whose `$defs` has a
//! member with each of them as its `$id`.

use crate::workloads::line::Line;
use ref_uri::uri::from_str;
use referencing::{Followed, Registry, Step, follow};
use serde_json::Value;
use std::alloc::{AllocError, Global};

/// The document.
fn document_of(alloc: Global, size: usize) -> Result<String, AllocError> {
    let mut text = String::from_str(alloc, r#"{"$defs":{"#)?;
    for number in 0..size {
        let comma = if number == 0 { "" } else { "," };
        write!(text, "{comma}\"{number}\":{{\"$id\":\"{number}\"}}")?;
    }
    text.push_str("}}")?;
    Ok(text)
}

/// The references.
fn references_of(alloc: Global, size: usize) -> Result<Vec<String>, AllocError> {
    let mut references = Vec::new(alloc);
    for number in 0..size {
        references.push(format!(in alloc; "{number}")?)?;
    }
    Ok(references)
}

/// The steps.
fn steps_of<'s>(
    alloc: Global,
    references: &'s [String],
    times: u32,
) -> Result<Vec<Step<'s>>, AllocError> {
    let mut steps = Vec::new(alloc);
    for _ in 0..times {
        for reference in references {
            steps.push(Step::Lookup(reference.as_str()))?;
        }
    }
    Ok(steps)
}

/// How many URIs the scope has, where the last value has the last reference as its `$id` and the base ends with it.
fn scope_of(followed: &Followed<'_>, last: &str) -> Option<u64> {
    let (value, _) = followed.last?;
    let base = followed.resolver.base_uri().as_str();
    if value.get("$id").and_then(Value::as_str)? != last
        || base.strip_prefix("http://a/")? != last
    {
        return None;
    }
    let mut length: u64 = 0;
    for _ in followed.resolver.dynamic_scope() {
        length = length.saturating_add(1);
    }
    Some(length)
}

/// How many URIs the scope has at the end of the steps in a registry.
fn followed_in(
    alloc: Global,
    registry: &Registry<'_>,
    steps: &[Step<'_>],
    last: &str,
) -> Option<u64> {
    let base = from_str(alloc, "http://a/r").ok()?;
    let followed = follow(alloc, registry, base, steps).ok()?;
    scope_of(&followed, last)
}

/// The same over a document that is lent.
fn followed(alloc: Global, document: &Value, steps: &[Step<'_>], last: &str) -> Option<u64> {
    let builder = Registry::new(alloc).add("http://a/r", document).ok()?;
    let registry = builder.prepare().ok()?;
    followed_in(alloc, &registry, steps, last)
}

/// The document as a value.
fn value_of(alloc: Global, size: usize) -> Option<Value> {
    let text = document_of(alloc, size).ok()?;
    Value::from_str(alloc, text.as_str()).ok()
}

/// How many URIs the scope has at the end; nothing where a step leads elsewhere or is refused.
pub fn answer(alloc: Global, line: Line<'_>) -> Option<u64> {
    let document = value_of(alloc, line.size)?;
    let references = references_of(alloc, line.size).ok()?;
    let steps = steps_of(alloc, references.as_slice(), line.times).ok()?;
    followed(
        alloc,
        &document,
        steps.as_slice(),
        references.last()?.as_str(),
    )
}
