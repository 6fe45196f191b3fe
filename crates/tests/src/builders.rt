//! Builders that are made here, since no row can say how a document is lent: what they hold, and how they and their
//! copies are shown.
use crate::fault::{Fault, done, made};
use crate::inputs::held;
use crate::registries::known;
use crate::row;
use ref_draft::Draft;
use ref_error::{Error, MapRetriever};
use referencing::{Registry, RegistryBuilder};
use serde_json::Value;
use std::alloc::Global;

/// A builder that borrows for long takes a value that is lent for less.
fn with_lent<'a: 'b, 'b>(
    alloc: Global,
    builder: RegistryBuilder<'a>,
    value: &'b Value,
) -> Result<RegistryBuilder<'b>, Fault> {
    done(alloc, builder.add("urn:b", value))
}

/// What the registry of a builder and of a value that is lent then holds.
fn held_with(alloc: Global, builder: RegistryBuilder<'_>, value: &Value) -> Result<String, Fault> {
    let builder = with_lent(alloc, builder, value)?;
    let registry = done(alloc, builder.prepare())?;
    held(alloc, &registry)
}

/// What the registry of it then holds.
fn lent_for_less(alloc: Global) -> Result<String, Fault> {
    let builder = done(alloc, Registry::new(alloc).add("urn:a", Value::Null))?;
    held_with(alloc, builder, &Value::Bool(true))
}

/// A builder with a draft and a document.
fn with_draft(alloc: Global) -> Result<RegistryBuilder<'static>, Fault> {
    let builder = Registry::new(alloc).draft(Draft::Draft7);
    done(alloc, builder.add("http://a/r", Value::Null))
}

/// How a builder is shown.
fn shown(alloc: Global, builder: &RegistryBuilder<'_>) -> Result<String, Fault> {
    made(format!(in alloc; "{builder:?}"))
}

/// How a builder above a registry is shown.
fn shown_above(alloc: Global) -> Result<String, Fault> {
    let parent = done(alloc, Registry::new(alloc).prepare())?;
    let builder = done(alloc, parent.add(alloc, "http://a/r", Value::Null))?;
    shown(alloc, &builder)
}

/// What a builder becomes with another document.
fn becoming<'a>(
    builder: RegistryBuilder<'a, &MapRetriever>,
    uri: &str,
) -> Result<Registry<'a>, Error> {
    builder.add(uri, Value::Null)?.prepare()
}

/// Which URIs of a row are known to that.
fn with_another(
    alloc: Global,
    builder: RegistryBuilder<'_, &MapRetriever>,
    uri: &str,
    row: &Value,
) -> Result<String, Fault> {
    let registry = done(alloc, becoming(builder, uri))?;
    known(alloc, &registry, row, 2)
}

/// The same of a builder and of its copy, each with a document of its own.
fn both(
    alloc: Global,
    builder: RegistryBuilder<'_, &MapRetriever>,
    row: &Value,
) -> Result<String, Fault> {
    let copy = builder.clone()?;
    let first = with_another(alloc, builder, "http://a/c", row)?;
    let second = with_another(alloc, copy, "http://a/d", row)?;
    made(format!(in alloc; "{first} {second}"))
}

/// The same of a builder of one document and what can be retrieved.
fn apart(alloc: Global, row: &Value) -> Result<String, Fault> {
    let retriever = row::retriever(alloc, row, 3)?;
    let document = row::column(row, 4)?;
    let builder = Registry::new(alloc).retriever(&retriever);
    match builder.add("http://a/r", document) {
        Ok(builder) => both(alloc, builder, row),
        Err(_) => Err(Fault::Form("the document is refused")),
    }
}

/// How a builder's copy is shown.
fn shown_by_copy(alloc: Global, builder: &RegistryBuilder<'_>) -> Result<String, Fault> {
    let copy = builder.clone()?;
    shown(alloc, &copy)
}

/// How a builder with a draft and a document is shown, or its copy.
fn shown_with_draft(alloc: Global, is_copy: bool) -> Result<String, Fault> {
    let builder = with_draft(alloc)?;
    if is_copy {
        return shown_by_copy(alloc, &builder);
    }
    shown(alloc, &builder)
}

/// What is asked of the builder that a row names.
pub fn of_name(alloc: Global, row: &Value) -> Result<String, Fault> {
    match row::text(row, 1)? {
        "lent for less" => lent_for_less(alloc),
        "shown" => shown_with_draft(alloc, false),
        "shown by its copy" => shown_with_draft(alloc, true),
        "shown above a registry" => shown_above(alloc),
        _ => apart(alloc, row),
    }
}
