//! Which documents of a registry the documents that a call gives are.
ghost use Rattle.std.specs.Prelude.{◌≡◌, [], map, IfOk, option_map};
ghost use Rattle.serde_json.specs.View.{view};
ghost use Rattle.ref_definitions.specs.World.{World, local_documents};
ghost use Rattle.ref_calls.specs.Given.{given_of};
ghost use Rattle.ref_calls.specs.Objects.{list_of};
ghost use Rattle.ref_serve.specs.Opening as spec;

use ref_calls::document::Document;
use ref_draft::trim_hashes;
use ref_parts::{SortedTable, TableEntries};
use ref_uri::uri::from_str;
use ref_uri::{Uri, UriFault};
use referencing::Registry;
use serde_json::Value;
use std::alloc::{AllocError, Global};

// The URI that a document is under which is given under a text.
fn uri_given(alloc: Global, text: &str) -> Result<Option<Uri>, AllocError>
    ensures { IfOk result (λ uri. option_map (λ u. u) uri ≡ spec.uri_given text.now) }
{
    match from_str(alloc, trim_hashes(text)) {
        Ok(uri) => Ok(Some(uri)),
        Err(UriFault::Invalid(_)) => Ok(None),
        Err(UriFault::Memory(refused)) => Err(refused),
    }
}

/// The URIs that documents are under which a call gives.
pub fn uris_given(alloc: Global, documents: &[Document]) -> Result<Vec<Option<Uri>>, AllocError>
    ensures { IfOk result
        (λ uris. map (option_map (λ u. u)) uris.items
        ≡ map spec.uri_given (map (λ d. d.0) (map given_of documents.now))) }
{
    let mut uris = Vec::with_capacity(alloc, documents.len())?;
    for document in documents {
        let uri = uri_given(alloc, document.0.as_str())?;
        uris.push(uri)?;
    }
    Ok(uris)
}

// The numbers of a registry's own documents, under their URIs.
fn numbered(alloc: Global, registry: &Registry<'_>) -> Result<SortedTable<usize>, AllocError>
    ensures { IfOk result
        (λ table. table ≡ spec.numbered_from 0 (local_documents registry.now)) }
{
    let mut entries = TableEntries::new(alloc);
    for (number, document) in registry.documents().iter().enumerate() {
        entries.push(document.uri.as_str(), "", number)?;
    }
    entries.into_table(alloc)
}

// The number of the document that is under a URI, or null.
fn number_given(table: &SortedTable<usize>, uri: &Option<Uri>) -> Value
    ensures { (world : World) → table.now ≡ spec.numbered_from 0 (local_documents world)
        → view result ≡ spec.number_given world (option_map (λ u. u) uri.now) }
{
    let Some(uri) = uri else {
        return Value::Null;
    };
    match table.get(uri.as_str(), "").0 {
        Some(number) => Value::from(*number),
        None => Value::Null,
    }
}

/// The list of the numbers that the documents under these URIs have in a registry.
pub fn numbers_given(
    alloc: Global,
    registry: &Registry<'_>,
    uris: &[Option<Uri>],
) -> Result<Value, AllocError>
    ensures { IfOk result
        (λ d. view d
        ≡ list_of
        (map (spec.number_given registry.now) (map (option_map (λ u. u)) uris.now))) }
{
    let table = numbered(alloc, registry)?;
    let mut list = Vec::with_capacity(alloc, uris.len())?;
    for uri in uris {
        list.push(number_given(&table, uri))?;
    }
    Ok(Value::Array(list))
}
