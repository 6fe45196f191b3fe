//! The columns of a row, of which the first has the name of its table and the last the answer that is expected.
use crate::fault::{Fault, made};
use ref_draft::Draft;
use ref_error::MapRetriever;
use ref_uri::Uri;
use ref_uri::uri::from_str;
use serde_json::Value;
use std::alloc::Global;

/// A column.
pub fn column(row: &Value, number: usize) -> Result<&Value, Fault> {
    row.get(number).ok_or(Fault::Form("a column is missing"))
}

/// The last column, which is a text.
pub fn last(row: &Value) -> Option<&str> {
    row.as_array()?.last()?.as_str()
}

/// The text under a name.
pub fn text_under<'v>(value: &'v Value, name: &str) -> Option<&'v str> {
    value.get(name)?.as_str()
}

/// A column that is a text, where it is one.
fn text_at(row: &Value, number: usize) -> Option<&str> {
    row.get(number)?.as_str()
}

/// A column that is a text.
pub fn text(row: &Value, number: usize) -> Result<&str, Fault> {
    text_at(row, number).ok_or(Fault::Form("a column is no text"))
}

/// The URI that a text means.
pub fn uri_of(alloc: Global, text: &str) -> Result<Uri, Fault> {
    match from_str(alloc, text) {
        Ok(uri) => Ok(uri),
        Err(_) => Err(Fault::Form("no URI")),
    }
}

/// A column that is a URI.
pub fn uri(alloc: Global, row: &Value, number: usize) -> Result<Uri, Fault> {
    uri_of(alloc, text(row, number)?)
}

/// A column that is a list, where it is one.
fn list_at(row: &Value, number: usize) -> Option<&[Value]> {
    Some(row.get(number)?.as_array()?.as_slice())
}

/// A column that is a list.
pub fn list(row: &Value, number: usize) -> Result<&[Value], Fault> {
    list_at(row, number).ok_or(Fault::Form("a column is no list"))
}

/// A column that is a number.
pub fn number(row: &Value, number: usize) -> Result<usize, Fault> {
    match column(row, number)?.as_u64() {
        Some(count) => Ok(count as usize),
        None => Err(Fault::Form("a column is no number")),
    }
}

/// A column that names a draft, or `null` where none is set.
pub fn draft(row: &Value, number: usize) -> Result<Option<Draft>, Fault> {
    match text_at(row, number) {
        Some("4") => Ok(Some(Draft::Draft4)),
        Some("6") => Ok(Some(Draft::Draft6)),
        Some("7") => Ok(Some(Draft::Draft7)),
        Some("2019-09") => Ok(Some(Draft::Draft201909)),
        Some("2020-12") => Ok(Some(Draft::Draft202012)),
        Some("unknown") => Ok(Some(Draft::Unknown)),
        Some(_) => Err(Fault::Form("no such draft")),
        None => Ok(None),
    }
}

/// A column that has to name a draft.
pub fn named_draft(row: &Value, number: usize) -> Result<Draft, Fault> {
    draft(row, number)?.ok_or(Fault::Form("no draft"))
}

/// The URI and the value of a document, in a list of both.
fn pair_of(pair: &Value) -> Option<(&str, &Value)> {
    Some((text_at(pair, 0)?, pair.get(1)?))
}

/// A column of documents, each a list of a URI and a value, which are lent.
pub fn documents(alloc: Global, row: &Value, number: usize) -> Result<Vec<(&str, &Value)>, Fault> {
    let mut documents = Vec::new(alloc);
    for pair in list(row, number)? {
        documents.push(pair_of(pair).ok_or(Fault::Form("no document"))?)?;
    }
    Ok(documents)
}

/// A document that can be retrieved, under the URI that its text means.
fn retrievable(alloc: Global, pair: &Value) -> Result<(Uri, Value), Fault> {
    let (uri, value) = pair_of(pair).ok_or(Fault::Form("no document"))?;
    let value = value.clone()?;
    Ok((uri_of(alloc, uri)?, value))
}

/// A column of documents in memory, which can be retrieved.
pub fn retriever(alloc: Global, row: &Value, number: usize) -> Result<MapRetriever, Fault> {
    let mut documents = Vec::new(alloc);
    for pair in list(row, number)? {
        documents.push(retrievable(alloc, pair)?)?;
    }
    made(MapRetriever::from_pairs(alloc, documents))
}
