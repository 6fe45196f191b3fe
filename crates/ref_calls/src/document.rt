//! The documents of a call.
ghost use Rattle.std.specs.Prelude.{◌≡◌, ◌≢◌, ℕ, List, codes, map, None, option_map, IfOk};
ghost use Rattle.serde_json.specs.Find.{get, get_member};
ghost use Rattle.serde_json.specs.View.{view, members_view};
ghost use Rattle.ref_error.specs.Retrieving.{trees_of};
ghost use Rattle.ref_calls.specs.Calls as spec;
ghost use Rattle.ref_calls.specs.Outcome.{Answers};
ghost use Rattle.ref_calls.specs.Given.{given_of};

use crate::fault::{Wrong, at_index, field_error};
use crate::field::uri_in;
use crate::members::Members;
use ref_draft::trim_hashes;
use ref_json::Stop;
use ref_uri::Uri;
use serde_json::{Map, Value};
use std::alloc::{AllocError, Global};

/// A document: the text of its URI, and its tree.
pub type Document = (String, Value);

// The pair that an item is.
fn document_of(item: Value) -> Option<Document>
    ensures { option_map given_of result ≡ spec.document_of (view item) }
{
    let Value::Array(mut items) = item else {
        return None;
    };
    if items.len() != 2 {
        return None;
    }
    let tree = items.pop()?;
    match items.pop()? {
        Value::String(uri) => Some((uri, tree)),
        _ => None,
    }
}

// The pair that an item is, whose text means a URI, without `#` characters at its end.
fn sound_document(alloc: Global, item: Value, field: &str) -> Result<Document, Stop<Value>>
    ensures { Answers given_of result (spec.sound_document field.now (view item)) }
{
    let Some(document) = document_of(item) else {
        return Err(field_error(alloc, Wrong::InvalidField, field));
    };
    let _uri = uri_in(alloc, trim_hashes(document.0.as_str()), field)?;
    Ok(document)
}

fn document_in(
    alloc: Global,
    item: Value,
    field: &str,
    index: usize,
) -> Result<Document, Stop<Value>>
    ensures { Answers given_of result (spec.document_in field.now index (view item)) }
{
    match sound_document(alloc, item, field) {
        Ok(document) => Ok(document),
        Err(stop) => Err(at_index(alloc, stop, index)),
    }
}

/// The documents of a list.
#[tactic(auto, unfolding(crate::specs::Calls::documents_of))]
pub fn documents_of(alloc: Global, value: Value, field: &str) -> Result<Vec<Document>, Stop<Value>>
    ensures { Answers (λ v. map given_of v.items) result
        (spec.documents_of field.now (view value)) }
{
    let Value::Array(items) = value else {
        return Err(field_error(alloc, Wrong::InvalidField, field));
    };
    let mut documents = Vec::with_capacity(alloc, items.len())?;
    for item in items {
        let number = documents.len();
        let document = document_in(alloc, item, field, number)?;
        documents.push(document)?;
    }
    Ok(documents)
}

/// The member under a key, which is taken out.
pub fn taken(members: &mut Members, key: &str) -> Option<Value>
    ensures value { option_map view result ≡ get_member key.now (members_view members.old.entries) }
    ensures gone { None ≡ get_member key.now (members_view members.old.entries)
        → get_member key.now (members_view members.new.entries) ≡ None }
    ensures others { (other : List ℕ) → other ≢ key.now
        → get_member other (members_view members.new.entries)
        ≡ get_member other (members_view members.old.entries) }
{
    members.remove(key)
}

/// The documents under a member, where it is there.
pub fn documents_under(
    alloc: Global,
    members: &mut Members,
    field: &str,
) -> Result<Option<Vec<Document>>, Stop<Value>>
    ensures value { Answers (option_map (λ v. map given_of v.items)) result
        (spec.documents_at field.now (get_member field.now
        (members_view members.old.entries))) }
    ensures others { (other : List ℕ) → other ≢ field.now
        → get_member other (members_view members.new.entries)
        ≡ get_member other (members_view members.old.entries) }
{
    let Some(value) = taken(members, field) else {
        return Ok(None);
    };
    let documents = documents_of(alloc, value, field)?;
    Ok(Some(documents))
}

/// The documents under `documents`, which are needed.
pub fn needed_documents(alloc: Global, members: &mut Members) -> Result<Vec<Document>, Stop<Value>>
    ensures value { Answers (λ v. map given_of v.items) result
        (spec.needed_documents (get_member (codes "documents")
        (members_view members.old.entries))) }
    ensures others { (other : List ℕ) → other ≢ codes "documents"
        → get_member other (members_view members.new.entries)
        ≡ get_member other (members_view members.old.entries) }
{
    match documents_under(alloc, members, "documents")? {
        Some(documents) => Ok(documents),
        None => Err(field_error(alloc, Wrong::MissingField, "documents")),
    }
}

/// Documents under the URIs that their texts mean, without `#` characters at their end.
pub fn under_uris(
    alloc: Global,
    documents: Vec<Document>,
    field: &str,
) -> Result<Vec<(Uri, Value)>, Stop<Value>>
    ensures { Answers (λ v. trees_of v.items) result
        (spec.under_uris field.now (map given_of documents.items)) }
{
    let mut pairs = Vec::with_capacity(alloc, documents.len())?;
    for (text, tree) in documents {
        let uri = uri_in(alloc, trim_hashes(text.as_str()), field)?;
        pairs.push((uri, tree))?;
    }
    Ok(pairs)
}

/// The members of an object.
pub fn members_of(alloc: Global, tree: Value) -> Members
    ensures { (key : List ℕ) → get_member key (members_view result.entries) ≡ get key (view tree) }
{
    match tree {
        Value::Object(members) => members,
        _ => Map::new(alloc),
    }
}
