//! The places of own documents, where their paths lead, and values at paths.
use crate::answers::agreed;
use crate::fault::{Fault, done, made};
use crate::registries::holding;
use crate::row;
use crate::tables::Asked;
use ref_draft::Draft;
use ref_uri::Uri;
use referencing::{JsonPointerSegment, Place, Registry, Resolved, parse_index, write_index};
use serde_json::Value;
use std::alloc::{AllocError, Global};

/// The path of a text, with `|` before each key and `|#` before each index.
fn path_of(alloc: Global, text: &str) -> Result<Vec<JsonPointerSegment<'_>>, Fault> {
    let mut path = Vec::new(alloc);
    for part in text.split('|').skip(1) {
        path.push(segment_of(part)?)?;
    }
    Ok(path)
}

fn segment_of(part: &str) -> Result<JsonPointerSegment<'_>, Fault> {
    match part.strip_prefix('#') {
        Some(index) => {
            let index = parse_index(index).ok_or(Fault::Form("no index"))?;
            Ok(JsonPointerSegment::from(index))
        }
        None => Ok(JsonPointerSegment::from(part)),
    }
}

/// Appends a path as such a text.
fn push_path(text: &mut String, path: &[JsonPointerSegment<'_>]) -> Result<(), AllocError> {
    for segment in path {
        match segment {
            JsonPointerSegment::Key(key) => {
                text.push('|')?;
                text.push_str(key.as_str())?;
            }
            JsonPointerSegment::Index(index) => {
                text.push_str("|#")?;
                write_index(text, *index)?;
            }
        }
    }
    Ok(())
}

/// A document's number, a path of it, a base and a draft.
fn place_text(
    alloc: Global,
    place: &Place<'_>,
    base: &str,
    draft: Draft,
) -> Result<String, AllocError> {
    let mut path = String::new(alloc);
    push_path(&mut path, place.path.as_slice())?;
    let number = place.document;
    format!(in alloc; "{number}{path} {base} {draft:?}; ")
}

/// The texts of places.
fn shown_places(alloc: Global, places: &[Place<'_>]) -> Result<String, AllocError> {
    let mut text = String::new(alloc);
    for place in places {
        let line = place_text(alloc, place, place.base.as_str(), place.draft)?;
        text.push_str(line.as_str())?;
    }
    Ok(text)
}

/// The places of a registry.
fn listed(alloc: Global, registry: &Registry<'_>) -> Result<String, Fault> {
    let places = done(alloc, registry.places(alloc))?;
    made(shown_places(alloc, places.as_slice()))
}

/// A place as its path leads to it from a base.
fn located_place(
    alloc: Global,
    registry: &Registry<'_>,
    base: &Uri,
    place: &Place<'_>,
) -> Result<String, Fault> {
    let path = place.path.as_slice();
    let (value, resolver, draft) = done(alloc, registry.locate(alloc, base, path))?.into_inner();
    if registry.value_at(place.document, path) != Some(value) {
        return Err(Fault::Form("a path leads to another value"));
    }
    made(place_text(alloc, place, resolver.base_uri().as_str(), draft))
}

/// Places as their paths lead to them from a base.
fn located_from(
    alloc: Global,
    registry: &Registry<'_>,
    base: &Uri,
    places: &[Place<'_>],
) -> Result<String, Fault> {
    let mut text = String::new(alloc);
    for place in places {
        let line = located_place(alloc, registry, base, place)?;
        text.push_str(line.as_str())?;
    }
    Ok(text)
}

/// The places of a registry as their paths lead to them from `http://a/r`.
fn located_places(alloc: Global, registry: &Registry<'_>) -> Result<String, Fault> {
    let base = row::uri_of(alloc, "http://a/r")?;
    let places = done(alloc, registry.places(alloc))?;
    located_from(alloc, registry, &base, places.as_slice())
}

/// The places of a document at `http://a/r`, which is lent, by a draft: as they are listed, and as their paths lead to them.
pub fn agreeing(alloc: Global, row: &Value) -> Result<String, Fault> {
    let (draft, document) = (row::draft(row, 1)?, row::column(row, 2)?);
    let registry = done(alloc, holding(alloc, draft, document))?;
    let listed = listed(alloc, &registry)?;
    let located = located_places(alloc, &registry)?;
    agreed(alloc, listed, located, ["as listed", "as located"])
}

/// A value with its base and draft.
fn shown(alloc: Global, found: Resolved<'_>) -> Result<String, AllocError> {
    let (value, resolver, draft) = found.into_inner();
    let value = value.to_string(alloc)?;
    let base = resolver.base_uri().as_str();
    format!(in alloc; "{value} {base} {draft:?}")
}

/// Where a path leads: of a base and the path in a row's columns after those of the registry.
fn located(alloc: Global, registry: &Registry<'_>, row: &Value) -> Result<String, Fault> {
    let base = row::uri(alloc, row, 4)?;
    let path = path_of(alloc, row::text(row, 5)?)?;
    let found = done(alloc, registry.locate(alloc, &base, path.as_slice()))?;
    made(shown(alloc, found))
}

/// The value at a path, or `none`: of a document's number and the path.
fn value(alloc: Global, registry: &Registry<'_>, row: &Value) -> Result<String, Fault> {
    let number = row::number(row, 4)?;
    let path = path_of(alloc, row::text(row, 5)?)?;
    match registry.value_at(number, path.as_slice()) {
        Some(value) => made(value.to_string(alloc)),
        None => made(String::from_str(alloc, "none")),
    }
}

/// What is found of a registry by a row of a table on places.
pub fn found(asked: Asked<'_, '_>) -> Result<String, Fault> {
    let (alloc, registry, row) = (asked.alloc, asked.registry, asked.row);
    match asked.table {
        "places" => listed(alloc, registry),
        "paths" => located(alloc, registry, row),
        "values" => value(alloc, registry, row),
        _ => Err(Fault::Form("no such table")),
    }
}
