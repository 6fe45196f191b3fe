//! The six kinds of input: a document with a list of no text or of a hundred is added, prepared, and looked up. No
//! value is copied where both make as many requests.
use crate::refused::documents::value;
use crate::refused::stop::{Stop, outcome};
use crate::refused::trial::{Calls, Trial, tried};
use ref_draft::{Draft, Resource, ResourceRef};
use ref_error::Error;
use ref_uri::uri::from_str;
use referencing::{IntoRegistryResource, Registry};
use serde_json::Value;
use std::alloc::{AllocError, Global};
use std::rc::Rc;

/// Nothing is before these calls.
#[derive(Drop)]
struct Kinds;

/// The row of a call.
pub fn row(alloc: Global, call: &str) -> Result<Trial, Stop> {
    tried(alloc, &mut Kinds, "kinds", call, &[])
}

impl Calls for Kinds {
    fn answer(&mut self, alloc: Global, call: &str) -> Result<String, Stop> {
        let Some((kind, size)) = call.split_once(' ') else {
            return Err(Stop::Wrong);
        };
        let size = if size == "of 100" { 100 } else { 0 };
        let document = document_of_size(alloc, size)?;
        outcome(alloc, found_of(alloc, kind, document))
    }
}

/// The text of a document with a list of so many texts.
fn document_of(alloc: Global, size: usize) -> Result<String, AllocError> {
    let mut text = String::from_str(alloc, "{\"const\":[")?;
    for number in 0..size {
        text.push_str(if number > 0 { ",\"a\"" } else { "\"a\"" })?;
    }
    text.push_str("]}")?;
    Ok(text)
}

/// That document.
fn document_of_size(alloc: Global, size: usize) -> Result<Value, Stop> {
    let text = document_of(alloc, size)?;
    value(alloc, text.as_str())
}

/// Adds a document, and prepares it.
fn prepared<'a, T: IntoRegistryResource<'a>>(
    alloc: Global,
    document: T,
) -> Result<Registry<'a>, Error> {
    Registry::new(alloc).add("http://a/r", document)?.prepare()
}

/// Adds a document, prepares it, and looks its list up: how many items that has.
fn found<'a, T: IntoRegistryResource<'a>>(alloc: Global, document: T) -> Result<usize, Error> {
    let registry = prepared(alloc, document)?;
    found_in(alloc, &registry)
}

/// How many items the list of a document has, once it is looked up.
fn found_in(alloc: Global, registry: &Registry<'_>) -> Result<usize, Error> {
    let resolver = registry.resolver(alloc, from_str(alloc, "http://a/r")?)?;
    let found = resolver.lookup(alloc, "#/const")?;
    match found.contents().as_array() {
        Some(items) => Ok(items.len()),
        None => Ok(0),
    }
}

/// A value that is shared.
fn shared(alloc: Global, value: Value) -> Result<Rc<Value>, AllocError> {
    Ok(Rc::new(alloc, value)?)
}

/// The same of a document of a kind.
fn found_of(alloc: Global, kind: &str, value: Value) -> Result<usize, Error> {
    match kind {
        "value" => found(alloc, value),
        "lent" => found(alloc, &value),
        "shared" => found(alloc, shared(alloc, value)?),
        "resource" => found(alloc, Draft::Draft202012.create_resource(value)),
        "lent-resource" => {
            let resource: Resource = Draft::Draft202012.create_resource(value);
            found(alloc, &resource)
        }
        _ => found(alloc, ResourceRef::new(&value, Draft::Draft202012)),
    }
}
