//! Vocabularies by their names, what meta-schemas and schemas declare, and the vocabularies of schemas by the
//! meta-schemas that a registry and its parents have.
use crate::fault::{Fault, done, made};
use crate::registries::resolver;
use crate::row;
use ref_vocabularies::{Dialect, declared_or_default, default_vocabularies, find};
use referencing::meta::{URIS, uris_for_draft};
use referencing::{Draft, Registry, Vocabulary, vocabularies};
use serde_json::Value;
use std::alloc::Global;

/// The vocabulary that a text names.
fn vocabulary_of(alloc: Global, text: &str) -> Result<String, Fault> {
    let vocabulary = done(alloc, Vocabulary::from_text(alloc, text))?;
    made(format!(in alloc; "{vocabulary:?}"))
}

/// Of a row of a text: the vocabulary that it names.
fn named(alloc: Global, row: &Value) -> Result<String, Fault> {
    vocabulary_of(alloc, row::text(row, 1)?)
}

/// What a meta-schema declares.
fn declared_by(alloc: Global, meta_schema: &Value) -> Result<String, Fault> {
    let found = done(alloc, find(alloc, meta_schema))?;
    made(format!(in alloc; "{found:?}"))
}

/// Of a row of a meta-schema: what it declares.
fn declared(alloc: Global, row: &Value) -> Result<String, Fault> {
    declared_by(alloc, row::column(row, 1)?)
}

/// Of a row of a draft and a schema: where the schema's vocabularies are given, their set or the URI of the meta-schema.
fn dialect(alloc: Global, row: &Value) -> Result<String, Fault> {
    match Dialect::of(alloc, row::named_draft(row, 1)?, row::column(row, 2)?)? {
        Dialect::Known(set) => made(format!(in alloc; "{set:?}")),
        Dialect::MetaSchema(uri) => made(format!(in alloc; "{uri}")),
    }
}

/// Of a row of a draft: the vocabularies that its schemas have where none are given.
fn default_of(alloc: Global, row: &Value) -> Result<String, Fault> {
    let set = default_vocabularies(row::named_draft(row, 1)?);
    made(format!(in alloc; "{set:?}"))
}

/// Of a row of a list of a document or of none: what it declares, or the default set.
fn declared_or_default_of(alloc: Global, row: &Value) -> Result<String, Fault> {
    let set = declared_or_default(alloc, row::list(row, 1)?.first())?;
    made(format!(in alloc; "{set:?}"))
}

/// The vocabularies of a row's schema with its draft, by a registry: of a row of a draft and a schema.
pub fn by_registry(alloc: Global, registry: &Registry<'_>, row: &Value) -> Result<String, Fault> {
    let set = registry.find_vocabularies(alloc, row::named_draft(row, 1)?, row::column(row, 2)?)?;
    made(format!(in alloc; "{set:?}"))
}

/// By a resolver at a base.
fn of_resolver(
    alloc: Global,
    registry: &Registry<'_>,
    base: &str,
    draft: Draft,
    schema: &Value,
) -> Result<String, Fault> {
    let resolver = resolver(alloc, registry, base)?;
    let set = resolver.find_vocabularies(alloc, draft, schema)?;
    made(format!(in alloc; "{set:?}"))
}

/// By its resolver at a base: of a row of a draft, the base and a schema.
pub fn at_bases(alloc: Global, registry: &Registry<'_>, row: &Value) -> Result<String, Fault> {
    let (draft, base, schema) = (
        row::named_draft(row, 1)?,
        row::text(row, 2)?,
        row::column(row, 3)?,
    );
    of_resolver(alloc, registry, base, draft, schema)
}

/// What a meta-schema declares, under the name of `referencing`.
fn passed(alloc: Global, meta_schema: &Value) -> Result<String, Fault> {
    let set = done(alloc, vocabularies::find(alloc, meta_schema))?;
    made(format!(in alloc; "{set:?}"))
}

/// What a meta-schema declares, and the vocabulary that a text names, under the names of `referencing`.
fn passed_on(alloc: Global, row: &Value) -> Result<String, Fault> {
    let set = passed(alloc, row::column(row, 1)?)?;
    let vocabulary = vocabulary_of(alloc, row::text(row, 2)?)?;
    made(format!(in alloc; "{set} {vocabulary}"))
}

/// How many URIs of meta-schemas a draft has, and the first of them; where no draft is named, how many all have.
fn uris_of_drafts(alloc: Global, row: &Value) -> Result<String, Fault> {
    let Some(draft) = row::draft(row, 1)? else {
        let count = URIS.len();
        return made(format!(in alloc; "{count}"));
    };
    let uris = uris_for_draft(draft);
    let (count, first) = (uris.len(), uris.first().copied().unwrap_or("none"));
    made(format!(in alloc; "{count} {first}"))
}

/// What is found of a row of a table on vocabularies.
pub fn found(alloc: Global, table: &str, row: &Value) -> Result<String, Fault> {
    match table {
        "vocabulary names" => named(alloc, row),
        "declared vocabularies" => declared(alloc, row),
        "dialects" => dialect(alloc, row),
        "default vocabularies" => default_of(alloc, row),
        "declared or default vocabularies" => declared_or_default_of(alloc, row),
        "vocabularies passed on" => passed_on(alloc, row),
        "URIs of drafts" => uris_of_drafts(alloc, row),
        _ => Err(Fault::Form("no such table")),
    }
}
