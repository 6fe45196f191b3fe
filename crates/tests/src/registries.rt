//! Registries of the documents of a row, and which URIs mean places.
use crate::fault::{Fault, done, made};
use crate::row;
use ref_draft::Draft;
use ref_error::{Error, Retrieve};
use ref_uri::uri::from_str;
use referencing::{IntoRegistryResource, Registry, RegistryBuilder, Resolver};
use serde_json::Value;
use std::alloc::Global;

/// A builder with this draft, or without one.
pub fn builder<'b>(alloc: Global, draft: Option<Draft>) -> RegistryBuilder<'b> {
    match draft {
        Some(draft) => Registry::new(alloc).draft(draft),
        None => Registry::new(alloc),
    }
}

/// The registry of a document at `http://a/r`.
pub fn holding<'a, T: IntoRegistryResource<'a>>(
    alloc: Global,
    draft: Option<Draft>,
    document: T,
) -> Result<Registry<'a>, Error> {
    builder(alloc, draft).add("http://a/r", document)?.prepare()
}

/// The registry of what a builder holds and of these documents.
pub fn prepared<'a, R: Retrieve + Drop>(
    builder: RegistryBuilder<'a, R>,
    documents: Vec<(&'a str, &'a Value)>,
) -> Result<Registry<'a>, Error> {
    builder.extend(documents)?.prepare()
}

/// The registry of a column's documents, where nothing is retrieved.
pub fn unretrieving<'v>(
    alloc: Global,
    draft: Option<Draft>,
    row: &'v Value,
    number: usize,
) -> Result<Registry<'v>, Fault> {
    let documents = row::documents(alloc, row, number)?;
    done(alloc, prepared(builder(alloc, draft), documents))
}

/// The registry of a row's documents, where those of the next column can be retrieved.
fn retrieving<'v>(
    alloc: Global,
    draft: Option<Draft>,
    row: &'v Value,
) -> Result<Registry<'v>, Fault> {
    let documents = row::documents(alloc, row, 2)?;
    let retriever = row::retriever(alloc, row, 3)?;
    let builder = builder(alloc, draft).retriever(retriever);
    done(alloc, prepared(builder, documents))
}

/// The registry of a row that begins with a draft, documents, and what can be retrieved, or `null` where no retriever is given.
pub fn registry(alloc: Global, row: &Value) -> Result<Registry<'_>, Fault> {
    let draft = row::draft(row, 1)?;
    if row::column(row, 3)?.is_null() {
        return unretrieving(alloc, draft, row, 2);
    }
    retrieving(alloc, draft, row)
}

/// The registry of documents above another.
fn above<'b>(
    alloc: Global,
    parent: &'b Registry<'_>,
    documents: Vec<(&'b str, &'b Value)>,
) -> Result<Registry<'b>, Fault> {
    let builder = done(alloc, parent.extend(alloc, documents))?;
    done(alloc, builder.prepare())
}

/// The registry of a column's documents above another.
pub fn child<'b>(
    alloc: Global,
    parent: &'b Registry<'_>,
    row: &'b Value,
    number: usize,
) -> Result<Registry<'b>, Fault> {
    let documents = row::documents(alloc, row, number)?;
    above(alloc, parent, documents)
}

/// A resolver at the URI of a text.
pub fn resolver<'r>(
    alloc: Global,
    registry: &'r Registry<'_>,
    uri: &str,
) -> Result<Resolver<'r>, Fault> {
    let base = done(alloc, from_str(alloc, uri))?;
    made(registry.resolver(alloc, base))
}

/// Of each URI in a column whether it means a place: `+` where it does, and `-` where it doesn't.
pub fn known(
    alloc: Global,
    registry: &Registry<'_>,
    row: &Value,
    number: usize,
) -> Result<String, Fault> {
    let mut marks = String::new(alloc);
    for uri in row::list(row, number)? {
        let is_known = registry.contains_resource(alloc, uri.as_str().unwrap_or("a b"))?;
        marks.push(if is_known { '+' } else { '-' })?;
    }
    Ok(marks)
}

/// Of a row of meta-schemas and URIs: which of the URIs are known to the registry of the meta-schemas.
pub fn of_meta_schemas(alloc: Global, row: &Value) -> Result<String, Fault> {
    let pairs = row::documents(alloc, row, 1)?;
    let registry = done(alloc, Registry::from_meta_schemas(alloc, pairs.as_slice()))?;
    known(alloc, &registry, row, 2)
}
