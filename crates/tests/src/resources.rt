//! Which URIs mean places, and what texts mean against a base.
use crate::answers::agreed;
use crate::fault::{Fault, done, made};
use crate::registries::{known, resolver};
use crate::row;
use crate::tables::Asked;
use ref_error::Error;
use ref_uri::{Uri, UriRef};
use referencing::{Registry, Resolver};
use serde_json::Value;
use std::alloc::Global;
use std::rc::Rc;

/// Which URIs mean places, by a registry and by its copy.
fn known_twice(alloc: Global, registry: &Registry<'_>, row: &Value) -> Result<String, Fault> {
    let copy = registry.clone()?;
    let first = known(alloc, registry, row, 4)?;
    let again = known(alloc, &copy, row, 4)?;
    agreed(alloc, first, again, ["at first", "by the copy"])
}

/// A base that is a reference by itself.
fn base_of(row: &Value, number: usize) -> Result<UriRef<'_>, Fault> {
    match UriRef::parse(row::text(row, number)?) {
        Ok(base) => Ok(base),
        Err(_) => Err(Fault::Form("no base")),
    }
}

/// The text of what was resolved.
fn meant(alloc: Global, resolved: Result<Rc<Uri>, Error>) -> Result<String, Fault> {
    let uri = done(alloc, resolved)?;
    made(String::from_str(alloc, uri.as_str()))
}

/// What a text means against a base, with `+` in front where that was resolved before.
pub fn resolved(alloc: Global, registry: &Registry<'_>, row: &Value) -> Result<String, Fault> {
    let (base, text) = (base_of(row, 4)?, row::text(row, 5)?);
    let is_held = registry.resolved_uri(&base, text).is_some();
    let uri = meant(alloc, registry.resolve_uri(alloc, base, text))?;
    made(format!(in alloc; "{}{uri}", if is_held { "+" } else { "" }))
}

/// The text of a refusal, or what was resolved.
fn shown(answer: Result<String, Fault>) -> Result<String, Fault> {
    match answer {
        Ok(text) | Err(Fault::Text(text)) => Ok(text),
        Err(fault) => Err(fault),
    }
}

/// The same by a registry without documents and by a resolver, whose own base is another: of a row of a base and the text.
pub fn resolved_by_resolvers(alloc: Global, row: &Value) -> Result<String, Fault> {
    let (base, again, text) = (base_of(row, 1)?, base_of(row, 1)?, row::text(row, 2)?);
    let registry = done(alloc, Registry::new(alloc).prepare())?;
    let resolver = resolver(alloc, &registry, "http://o/")?;
    let first = shown(meant(alloc, registry.resolve_uri(alloc, base, text)))?;
    let other = shown(meant(alloc, resolver.resolve_uri(alloc, again, text)))?;
    agreed(alloc, first, other, ["at first", "by the resolver"])
}

/// A resolver's copy, and the resolver of an answer; then whether the copy is equal to the first, and the answer's to the copy.
fn copied(alloc: Global, resolver: &Resolver<'_>, reference: &str) -> Result<String, Fault> {
    let copy = resolver.clone()?;
    let found = done(alloc, resolver.lookup(alloc, reference))?;
    let inner = found.resolver();
    let (copied, moved) = (copy == *resolver, *inner == copy);
    made(format!(in alloc; "{copy:?} {inner:?} {copied} {moved}"))
}

/// Of the resolver at a base, and of a reference.
fn copies(alloc: Global, registry: &Registry<'_>, row: &Value) -> Result<String, Fault> {
    let (base, reference) = (row::text(row, 4)?, row::text(row, 5)?);
    let resolver = resolver(alloc, registry, base)?;
    copied(alloc, &resolver, reference)
}

/// What is found of a registry by a row of a table on resources and texts.
pub fn found(asked: Asked<'_, '_>) -> Result<String, Fault> {
    let (alloc, registry, row) = (asked.alloc, asked.registry, asked.row);
    match asked.table {
        "resources" | "retrieved drafts" => known_twice(alloc, registry, row),
        "texts" => resolved(alloc, registry, row),
        "copies" => copies(alloc, registry, row),
        _ => Err(Fault::Form("no such table")),
    }
}
