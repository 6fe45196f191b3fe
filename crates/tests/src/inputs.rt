//! What is added to builders, and what they then hold.
use crate::answers::agreed;
use crate::fault::{Fault, done, made};
use crate::registries::{holding, known, prepared, resolver};
use crate::row;
use ref_draft::{Draft, ResourceRef};
use ref_error::Error;
use referencing::{Place, Registry, Step, follow};
use serde_json::Value;
use std::alloc::{AllocError, Global};
use std::rc::Rc;

/// A document that a registry holds: its URI, value and draft.
fn document_of(
    alloc: Global,
    registry: &Registry<'_>,
    place: &Place<'_>,
) -> Result<String, AllocError> {
    let (uri, draft) = (place.base.as_str(), place.draft);
    match registry.value_at(place.document, place.path.as_slice()) {
        Some(value) => {
            let value = value.to_string(alloc)?;
            format!(in alloc; "{uri} {value} {draft:?}, ")
        }
        None => format!(in alloc; "{uri} without a value"),
    }
}

/// The documents that a registry holds in their order, none of which has a subschema.
pub fn held(alloc: Global, registry: &Registry<'_>) -> Result<String, Fault> {
    let places = done(alloc, registry.places(alloc))?;
    let mut text = String::new(alloc);
    for place in places.as_slice() {
        let item = document_of(alloc, registry, place)?;
        text.push_str(item.as_str())?;
    }
    Ok(text)
}

/// What a builder holds after the documents of a row were added, as the registry that is prepared of it has them.
fn added(alloc: Global, row: &Value) -> Result<String, Fault> {
    let documents = row::documents(alloc, row, 1)?;
    let registry = done(alloc, prepared(Registry::new(alloc), documents))?;
    held(alloc, &registry)
}

/// The title of a value.
fn title_of(alloc: Global, value: &Value) -> Result<String, AllocError> {
    String::from_str(alloc, row::text_under(value, "title").unwrap_or("none"))
}

/// The title of what a reference leads to from `http://a/r`, by a call on a resolver.
fn title_by_call(alloc: Global, registry: &Registry<'_>, reference: &str) -> Result<String, Fault> {
    let resolver = resolver(alloc, registry, "http://a/r")?;
    let found = done(alloc, resolver.lookup(alloc, reference))?;
    made(title_of(alloc, found.contents()))
}

/// The same by a step.
fn title_by_step(alloc: Global, registry: &Registry<'_>, reference: &str) -> Result<String, Fault> {
    let base = row::uri_of(alloc, "http://a/r")?;
    let Ok(followed) = follow(alloc, registry, base, &[Step::Lookup(reference)]) else {
        return Err(Fault::Form("a step finds no value"));
    };
    match followed.last {
        Some((value, _)) => made(title_of(alloc, value)),
        None => Err(Fault::Form("a step leads to no value")),
    }
}

/// The title of what a reference leads to from `http://a/r`, by a call on a resolver and by a step.
fn title(alloc: Global, registry: &Registry<'_>, reference: &str) -> Result<String, Fault> {
    let by_steps = title_by_step(alloc, registry, reference)?;
    let by_calls = title_by_call(alloc, registry, reference)?;
    agreed(alloc, by_steps, by_calls, ["by steps", "by calls"])
}

/// Which URIs of a column mean places, or where the column is a reference the title of what it leads to.
fn asked(alloc: Global, registry: &Registry<'_>, row: &Value) -> Result<String, Fault> {
    match row::column(row, 4)?.as_str() {
        Some(reference) => title(alloc, registry, reference),
        None => known(alloc, registry, row, 4),
    }
}

/// A value that is shared.
fn shared(alloc: Global, value: &Value) -> Result<Rc<Value>, AllocError> {
    Ok(Rc::new(alloc, value.clone()?)?)
}

/// The registry of a document that is added as a kind of input. Resources are of 2020-12.
fn of_kind<'a>(
    alloc: Global,
    kind: &str,
    draft: Option<Draft>,
    value: &'a Value,
) -> Result<Registry<'a>, Error> {
    match kind {
        "a value" => holding(alloc, draft, value.clone()?),
        "a value that is lent" => holding(alloc, draft, value),
        "a value that is shared" => holding(alloc, draft, shared(alloc, value)?),
        "a resource" => {
            let resource = Draft::Draft202012.create_resource(value.clone()?);
            holding(alloc, draft, resource)
        }
        _ => holding(alloc, draft, ResourceRef::new(value, Draft::Draft202012)),
    }
}

/// The same where a resource is lent, which has to live as long.
fn of_lent_resource(alloc: Global, draft: Option<Draft>, row: &Value) -> Result<String, Fault> {
    let resource = Draft::Draft202012.create_resource(row::column(row, 3)?.clone()?);
    let registry = done(alloc, holding(alloc, draft, &resource))?;
    asked(alloc, &registry, row)
}

/// Of a document that is added as a kind of input: a row of the kind, which is a view where it is no other, the draft
/// that is set, the document, and what is asked.
fn of_kinds(alloc: Global, row: &Value) -> Result<String, Fault> {
    let (kind, draft) = (row::text(row, 1)?, row::draft(row, 2)?);
    if kind == "a resource that is lent" {
        return of_lent_resource(alloc, draft, row);
    }
    let registry = done(alloc, of_kind(alloc, kind, draft, row::column(row, 3)?))?;
    asked(alloc, &registry, row)
}

/// What is found of a row of a table on what documents are added as.
pub fn found(alloc: Global, table: &str, row: &Value) -> Result<String, Fault> {
    match table {
        "builders" => added(alloc, row),
        "kinds" | "kinds with titles" => of_kinds(alloc, row),
        _ => Err(Fault::Form("no such table")),
    }
}
