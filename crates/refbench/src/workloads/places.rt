//! Workloads of the places of a registry: their list, the look-up of their paths, and the unresolvable references.

use crate::workloads::line::Line;
use crate::workloads::registries::documents_of;
use ref_error::Error;
use ref_lint::dangling;
use ref_uri::uri::from_str;
use referencing::{JsonPointerSegment, Registry};
use serde_json::Value;
use std::alloc::Global;

/// The registry of documents.
fn registry_of<'a>(alloc: Global, documents: Vec<(String, Value)>) -> Option<Registry<'a>> {
    let builder = Registry::new(alloc).extend(documents).ok()?;
    builder.prepare().ok()
}

/// How many places so many lists have together.
fn listed(alloc: Global, registry: &Registry<'_>, times: u32) -> Result<u64, Error> {
    let mut sum: u64 = 0;
    for _ in 0..times {
        sum = sum.saturating_add(registry.places(alloc)?.len() as u64);
    }
    Ok(sum)
}

/// How many of so many look-ups of the path of a definition from its document's base find a value.
fn located(alloc: Global, registry: &Registry<'_>, times: u32) -> Result<u64, Error> {
    let base = from_str(alloc, "http://example.com/d0/")?;
    let path = [
        JsonPointerSegment::from("definitions"),
        JsonPointerSegment::from("k7"),
    ];
    let mut sum: u64 = 0;
    for _ in 0..times {
        let is_found = registry.locate(alloc, &base, &path).is_ok();
        sum = sum.saturating_add(is_found as u64);
    }
    Ok(sum)
}

/// How many of so many lists of the unresolvable references are empty: each reference of the documents leads somewhere.
fn linted(alloc: Global, registry: &Registry<'_>, times: u32) -> Result<u64, Error> {
    let mut sum: u64 = 0;
    for _ in 0..times {
        let is_empty = dangling(alloc, registry)?.is_empty();
        sum = sum.saturating_add(is_empty as u64);
    }
    Ok(sum)
}

/// What so many calls return together over so many documents; nothing where one is refused.
pub fn answer(alloc: Global, line: Line<'_>) -> Option<u64> {
    let registry = registry_of(alloc, documents_of(alloc, line.size)?)?;
    let sum = match line.call {
        "places" => listed(alloc, &registry, line.times),
        "dangling" => linted(alloc, &registry, line.times),
        _ => located(alloc, &registry, line.times),
    };
    sum.ok()
}
