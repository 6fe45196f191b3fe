//! What uses of the library return, as callers write them.
use crate::fault::{Fault, done, made};
use crate::registries::resolver;
use crate::row;
use ref_uri::Uri;
use referencing::{Draft, Place, Registry, Resolver, Step};
use serde_json::Value;
use std::alloc::{AllocError, Global};
use uses::bookmarks::{Bookmark, bookmark_of, opened};
use uses::bundler::referred_documents;
use uses::dialect::vocabularies_of;
use uses::editor::value_and_base;
use uses::faults::shown;
use uses::openapi::{Files, prepared};
use uses::validator::validated;

/// The registry of a document.
fn registry_of<'v>(alloc: Global, uri: &str, given: &'v Value) -> Result<Registry<'v>, Fault> {
    let builder = done(alloc, Registry::new(alloc).add(uri, given))?;
    done(alloc, builder.prepare())
}

/// The registry of a document at `http://a/r` and another.
fn registry_of_both<'v>(
    alloc: Global,
    document: &'v Value,
    uri: &str,
    other: &'v Value,
) -> Result<Registry<'v>, Fault> {
    let builder = done(alloc, Registry::new(alloc).add("http://a/r", document))?;
    let builder = done(alloc, builder.add(uri, other))?;
    done(alloc, builder.prepare())
}

/// What a validator returns of an instance, by the resolver at the root of a schema.
fn verdict_by(
    alloc: Global,
    resolver: &Resolver<'_>,
    schema: &Value,
    instance: &Value,
) -> Result<String, Fault> {
    let draft = Draft::Draft202012;
    let verdict = done(
        alloc,
        validated(alloc, resolver, draft, schema, instance, 8),
    )?;
    made(format!(in alloc; "{verdict:?}"))
}

/// What a validator returns of an instance, from the root of a schema.
fn verdict(alloc: Global, schema: &Value, instance: &Value) -> Result<String, Fault> {
    let registry = registry_of(alloc, "http://a/r", schema)?;
    let resolver = resolver(alloc, &registry, "http://a/r")?;
    verdict_by(alloc, &resolver, schema, instance)
}

/// Appends URIs, each with a space after it.
fn push_uris(text: &mut String, uris: &[Uri]) -> Result<(), AllocError> {
    for uri in uris {
        text.push_str(uri.as_str())?;
        text.push(' ')?;
    }
    Ok(())
}

/// Appends what the document with this number refers to.
fn push_listed(
    alloc: Global,
    text: &mut String,
    registry: &Registry<'_>,
    document: usize,
) -> Result<(), Fault> {
    let uris = done(alloc, referred_documents(alloc, registry, document))?;
    made(push_uris(text, uris.as_slice()))
}

/// What the first document refers to, and after a semicolon what the second does.
fn listed(alloc: Global, registry: &Registry<'_>) -> Result<String, Fault> {
    let mut text = String::new(alloc);
    push_listed(alloc, &mut text, registry, 0)?;
    text.push_str("; ")?;
    push_listed(alloc, &mut text, registry, 1)?;
    Ok(text)
}

/// What a document refers to, and after a semicolon what another of the same registry does.
fn bundled(alloc: Global, document: &Value, other: &Value) -> Result<String, Fault> {
    let registry = registry_of_both(alloc, document, "http://a/b/s", other)?;
    listed(alloc, &registry)
}

/// Files of one, at `http://a/pet`.
fn files(alloc: Global, file: &Value) -> Result<Files, Fault> {
    let file = (row::uri_of(alloc, "http://a/pet")?, file.clone()?);
    let mut files = Vec::new(alloc);
    files.push(file)?;
    Ok(Files { files })
}

/// The registry of a description that refers to a file.
fn described_by<'v>(
    alloc: Global,
    description: &'v Value,
    file: &Value,
) -> Result<Registry<'v>, Fault> {
    let files = files(alloc, file)?;
    let builder = done(alloc, Registry::new(alloc).add("http://a/api", description))?;
    done(alloc, prepared(builder, files))
}

/// What is under `name` of a file, by the resolver at a description.
fn name_by(alloc: Global, resolver: &Resolver<'_>) -> Result<String, Fault> {
    let found = done(alloc, resolver.lookup(alloc, "pet#/name"))?;
    made(found.contents().to_string(alloc))
}

/// What is under `name` of a file, to which a description refers.
fn described(alloc: Global, description: &Value, file: &Value) -> Result<String, Fault> {
    let registry = described_by(alloc, description, file)?;
    let resolver = resolver(alloc, &registry, "http://a/api")?;
    name_by(alloc, &resolver)
}

/// The vocabularies of a schema above a meta-schema.
fn declared(alloc: Global, meta: &Value, schema: &Value) -> Result<String, Fault> {
    let parent = registry_of(alloc, "http://a/dialect", meta)?;
    let draft = Draft::Draft202012;
    let set = done(
        alloc,
        vocabularies_of(alloc, &parent, "http://a/s", draft, schema),
    )?;
    made(format!(in alloc; "{set:?}"))
}

/// A value and a base.
fn shown_place(alloc: Global, found: &Value, base: &Uri) -> Result<String, AllocError> {
    let found = found.to_string(alloc)?;
    let base = base.as_str();
    format!(in alloc; "{found} {base}")
}

/// The value and the base at a place.
fn edited(alloc: Global, document: &Value, fragment: &str) -> Result<String, Fault> {
    let registry = registry_of(alloc, "http://a/r", document)?;
    let uri = row::uri_of(alloc, "http://a/r")?;
    let (found, base) = done(alloc, value_and_base(alloc, &registry, uri, fragment))?;
    made(shown_place(alloc, found, &base))
}

/// A value, a draft and a base.
fn shown_mark(
    alloc: Global,
    found: &Value,
    draft: Draft,
    base: &Uri,
) -> Result<String, AllocError> {
    let found = found.to_string(alloc)?;
    let base = base.as_str();
    format!(in alloc; "{found} {draft:?} {base}")
}

/// What is found at a bookmark.
fn at_mark(
    alloc: Global,
    registry: &Registry<'_>,
    kept: Bookmark<'_, '_>,
) -> Result<String, Fault> {
    let (found, draft, base) = done(alloc, opened(alloc, registry, kept))?;
    made(shown_mark(alloc, found, draft, &base))
}

/// The bookmark of the place with this number, below the first.
fn mark_of<'p, 'k>(places: &'p [Place<'k>], number: usize) -> Option<Bookmark<'p, 'k>> {
    bookmark_of(places.first()?, places.get(number)?)
}

/// The value, the draft and the base at the bookmark of the place with this number, below the root.
fn marked(alloc: Global, document: &Value, number: usize) -> Result<String, Fault> {
    let registry = registry_of(alloc, "http://a/r", document)?;
    let places = done(alloc, registry.places(alloc))?;
    match mark_of(places.as_slice(), number) {
        Some(kept) => at_mark(alloc, &registry, kept),
        None => made(String::from_str(alloc, "no bookmark")),
    }
}

/// What is shown where an empty reference leads from a document, and from there another.
fn asked(alloc: Global, document: &Value, reference: &str) -> Result<String, Fault> {
    let base = row::uri_of(alloc, "http://a/r")?;
    let builder = done(alloc, Registry::new(alloc).add("http://a/r", document))?;
    let steps = [Step::Lookup(""), Step::Lookup(reference)];
    made(shown(alloc, builder, base, &steps))
}

/// Of a row of a document and of what is asked of it: what the use returns.
pub fn found(alloc: Global, table: &str, row: &Value) -> Result<String, Fault> {
    let (document, asked) = (row::column(row, 1)?, row::column(row, 2)?);
    let text = asked.as_str().unwrap_or("no text");
    match table {
        "validator" => verdict(alloc, document, asked),
        "bundler" => bundled(alloc, document, asked),
        "openapi" => described(alloc, document, asked),
        "dialect" => declared(alloc, document, asked),
        "editor" => edited(alloc, document, text),
        "bookmarks" => marked(alloc, document, asked.as_u64().unwrap_or(0) as usize),
        _ => self::asked(alloc, document, text),
    }
}
