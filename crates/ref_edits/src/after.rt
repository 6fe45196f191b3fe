//! Documents as they are after a change.
ghost use Rattle.std.specs.Prelude.{◌≡◌, option_map, IfOk};
ghost use Rattle.serde_json.specs.Read.{read};
ghost use Rattle.serde_json.specs.View.{view};
ghost use Rattle.ref_positions.specs.declared.format.Format.TheVariants.{Json};

use crate::given::{Given, Written};
use crate::plan::{Refusal, Unmade};
use crate::splicing::Edit;
use ref_draft::Draft;
use ref_error::{Error, Retrieve, RetrieveError};
use ref_files::DocumentText;
use ref_findings::{Source, mended};
use ref_uri::Uri;
use referencing::{Registry, RegistryBuilder};
use serde_json::{Map, Value};
use std::alloc::{AllocError, Global};

/// An empty document in place of each that isn't there.
#[derive(Drop)]
struct StandIns;

impl Retrieve for StandIns {
    ghost use Rattle.ref_definitions.specs.Retrievers.{any_retriever};

    ghost meaning = { λ _. any_retriever };

    fn retrieve(&self, alloc: Global, _uri: &Uri) -> Result<Value, RetrieveError> {
        Ok(Value::Object(Map::new(alloc)))
    }
}

/// The registry of the documents of another one, in their order, with these URIs and values in place of their own, by their numbers.
pub(crate) fn registry_after<'v>(
    alloc: Global,
    before: &'v Registry<'_>,
    draft: Draft,
    uris: &[Option<Uri>],
    values: &'v [Option<Value>],
) -> Result<Registry<'v>, Unmade> {
    match prepared(alloc, before, draft, uris, values) {
        Ok(registry) => Ok(registry),
        Err(error) => {
            let unmade = unmade_by(alloc, &error);
            drop(error);
            Err(unmade)
        }
    }
}

fn unmade_by(alloc: Global, error: &Error) -> Unmade {
    if error.is_memory() {
        return Unmade::Memory;
    }
    match error.to_string(alloc) {
        Ok(said) => Unmade::Refused(Refusal::Unprepared(said)),
        Err(_) => Unmade::Memory,
    }
}

fn prepared<'v>(
    alloc: Global,
    before: &'v Registry<'_>,
    draft: Draft,
    uris: &[Option<Uri>],
    values: &'v [Option<Value>],
) -> Result<Registry<'v>, Error> {
    let mut builder = Registry::new(alloc)
        .draft(draft)
        .retrieval_limit(usize::MAX);
    for number in 0..before.documents().len() {
        builder = with_document(builder, before, uris, values, number)?;
    }
    builder.retriever(StandIns).prepare()
}

// The builder with the document that has a number.
fn with_document<'v>(
    builder: RegistryBuilder<'v>,
    before: &'v Registry<'_>,
    uris: &[Option<Uri>],
    values: &'v [Option<Value>],
    number: usize,
) -> Result<RegistryBuilder<'v>, Error> {
    let Some(document) = before.documents().get(number) else {
        return Ok(builder);
    };
    let uri = match uris.get(number) {
        Some(Some(uri)) => uri.as_str(),
        _ => document.uri.as_str(),
    };
    let value = match values.get(number) {
        Some(Some(value)) => value,
        _ => document.contents.value(),
    };
    builder.add(uri, value)
}

/// The values of documents after edits, by their numbers: none of one that stays as it is. With `null` in place of each text that means no URI, as a registry takes
/// documents. Refused where the text of one has no value.
pub(crate) fn values_of(
    alloc: Global,
    given: &Given<'_, '_, '_, '_>,
    edits: &[Edit],
) -> Result<Vec<Option<Value>>, Unmade> {
    let mut values = Vec::new(alloc);
    for number in 0..given.registry.documents().len() {
        push_value(&mut values, None)?;
        for edit in edits {
            if edit.document == number {
                let value = read_value(alloc, given, edit)?;
                set_value(&mut values, number, value);
            }
        }
    }
    Ok(values)
}

fn push_value(values: &mut Vec<Option<Value>>, value: Option<Value>) -> Result<(), AllocError> {
    values.push(value)?;
    Ok(())
}

fn set_value(values: &mut Vec<Option<Value>>, number: usize, value: Value) {
    if let Some(slot) = values.get_mut(number) {
        *slot = Some(value);
    }
}

/// The value of a text.
pub(crate) fn value_of(alloc: Global, written: Written<'_>) -> Result<Option<Value>, AllocError>
    ensures json { IfOk result (λ v. written.entry.format ≡ Json
        → option_map view v ≡ read written.entry.text.now) }
{
    let text = String::from_str(alloc, written.text)?;
    let read = DocumentText::new(alloc, written.format, text)?;
    let DocumentText { value, .. } = read;
    match value {
        Ok(value) => Ok(Some(value)),
        Err(fault) => {
            drop(fault);
            Ok(None)
        }
    }
}

// The value of a document after an edit, as a registry takes it.
fn read_value(alloc: Global, given: &Given<'_, '_, '_, '_>, edit: &Edit) -> Result<Value, Unmade> {
    let (Some(before), Some(document)) = (
        given.text(edit.document),
        given.registry.documents().get(edit.document),
    ) else {
        return Err(unlike(edit));
    };
    let written = Written {
        format: before.format,
        text: edit.text.as_str(),
    };
    match value_of(alloc, written)? {
        Some(value) => Ok(mended_value(alloc, given.draft, &document.uri, value)?),
        None => Err(unlike(edit)),
    }
}

/// That the text of a document isn't what it is to be.
pub(crate) fn unlike(edit: &Edit) -> Unmade {
    Unmade::Refused(Refusal::Unlike {
        document: edit.document,
    })
}

// A value with `null` in place of each text that means no URI.
fn mended_value(alloc: Global, draft: Draft, uri: &Uri, value: Value) -> Result<Value, AllocError> {
    let mut trees = mended_trees(alloc, draft, uri, &value)?;
    match trees.pop() {
        Some(Some(tree)) => Ok(tree),
        _ => Ok(value),
    }
}

fn mended_trees(
    alloc: Global,
    draft: Draft,
    uri: &Uri,
    value: &Value,
) -> Result<Vec<Option<Value>>, AllocError> {
    let source = Source {
        uri: uri.clone()?,
        value: Some(value),
    };
    mended(alloc, draft, &[source])
}
