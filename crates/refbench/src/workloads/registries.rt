//! Workloads of `referencing`: documents added to a builder, and prepared.
//!
//! Of so many documents, each has twenty definitions with an identifier, an anchor, and a reference to the same definition of
//! the next document; `members` is one document with so many definitions, each with an identifier.

use crate::workloads::line::Line;
use ref_error::Error;
use referencing::{Registry, RegistryBuilder};
use serde_json::Value;
use std::alloc::{AllocError, Global};

/// How many definitions a document has.
pub const DEFINITIONS: usize = 20;

/// The URI of a document.
fn uri_of(alloc: Global, number: usize) -> Result<String, AllocError> {
    format!(in alloc; "http://example.com/d{number}/")
}

/// The text of a definition of a document, which refers to that of the next number.
fn definition_of(alloc: Global, key: usize, next: usize) -> Result<String, AllocError> {
    let comma = if key > 0 { "," } else { "" };
    format!(in alloc;
        "{comma}\"k{key}\":{{\"$id\":\"k{key}\",\"$anchor\":\"a{key}\",\"$ref\":\"../d{next}/k{key}\",\"type\":\"object\"}}"
    )
}

/// The text of a document before its definitions.
fn front_of(alloc: Global, number: usize) -> Result<String, AllocError> {
    format!(in alloc;
        "{{\"$id\":\"http://example.com/d{number}/\",\"$schema\":\"https://json-schema.org/draft/2020-12/schema\",\"definitions\":{{"
    )
}

/// The text of a document, which refers to that of the next number.
fn text_of(alloc: Global, number: usize, next: usize) -> Result<String, AllocError> {
    let mut text = front_of(alloc, number)?;
    for key in 0..DEFINITIONS {
        let definition = definition_of(alloc, key, next)?;
        text.push_str(definition.as_str())?;
    }
    text.push_str("}}")?;
    Ok(text)
}

/// The value of a text.
fn value_of(alloc: Global, text: &str) -> Option<Value> {
    Value::from_str(alloc, text).ok()
}

/// A document under its URI, which refers to that of the next number.
fn document_of(alloc: Global, number: usize, next: usize) -> Option<(String, Value)> {
    let text = text_of(alloc, number, next).ok()?;
    let value = value_of(alloc, text.as_str())?;
    Some((uri_of(alloc, number).ok()?, value))
}

/// So many documents under their URIs, of which the last refers to the first.
pub fn documents_of(alloc: Global, size: usize) -> Option<Vec<(String, Value)>> {
    let mut documents = Vec::new(alloc);
    for number in 0..size {
        let next = if number + 1 < size { number + 1 } else { 0 };
        documents.push(document_of(alloc, number, next)?).ok()?;
    }
    Some(documents)
}

/// The text of a definition with an identifier.
fn member_of(alloc: Global, number: usize) -> Result<String, AllocError> {
    let comma = if number > 0 { "," } else { "" };
    format!(in alloc; "{comma}\"k{number}\":{{\"$id\":\"k{number}\"}}")
}

/// The text of a document with so many definitions, each with an identifier.
fn members_of(alloc: Global, size: usize) -> Result<String, AllocError> {
    let mut text = String::from_str(alloc, "{\"$defs\":{")?;
    for number in 0..size {
        let member = member_of(alloc, number)?;
        text.push_str(member.as_str())?;
    }
    text.push_str("}}")?;
    Ok(text)
}

/// That document under its URI.
fn document_with_members(alloc: Global, size: usize) -> Option<(String, Value)> {
    let text = members_of(alloc, size).ok()?;
    let value = value_of(alloc, text.as_str())?;
    Some((String::from_str(alloc, "http://example.com/").ok()?, value))
}

/// That document alone.
fn document_of_members(alloc: Global, size: usize) -> Option<Vec<(String, Value)>> {
    let mut documents = Vec::new(alloc);
    documents.push(document_with_members(alloc, size)?).ok()?;
    Some(documents)
}

/// The documents of a kind.
fn of_kind(alloc: Global, kind: &str, size: usize) -> Option<Vec<(String, Value)>> {
    match kind {
        "members" => document_of_members(alloc, size),
        _ => documents_of(alloc, size),
    }
}

/// A builder that has the documents, lent, one added after another.
fn added<'a>(
    alloc: Global,
    documents: &'a [(String, Value)],
) -> Result<RegistryBuilder<'a>, Error> {
    let mut builder = Registry::new(alloc);
    for document in documents {
        builder = builder.add(document.0.as_str(), &document.1)?;
    }
    Ok(builder)
}

/// The documents, lent.
pub fn lent<'a>(
    alloc: Global,
    documents: &'a [(String, Value)],
) -> Result<Vec<(&'a str, &'a Value)>, AllocError> {
    let mut pairs = Vec::with_capacity(alloc, documents.len())?;
    for document in documents {
        pairs.push((document.0.as_str(), &document.1))?;
    }
    Ok(pairs)
}

/// A builder that has the documents, lent, added at once.
fn extended<'a>(
    alloc: Global,
    documents: &'a [(String, Value)],
) -> Result<RegistryBuilder<'a>, Error> {
    Registry::new(alloc).extend(lent(alloc, documents)?)
}

/// How many registries are prepared of a builder that is copied for each.
fn prepared(builder: &RegistryBuilder<'_>, times: u32) -> Result<u64, Error> {
    let mut sum: u64 = 0;
    for _ in 0..times {
        builder.clone()?.prepare()?;
        sum = sum.saturating_add(1);
    }
    Ok(sum)
}

/// How many builders have the documents added, one after another or at once.
fn filled(
    alloc: Global,
    at_once: bool,
    documents: &[(String, Value)],
    times: u32,
) -> Result<u64, Error> {
    let mut sum: u64 = 0;
    for _ in 0..times {
        if at_once {
            extended(alloc, documents)?;
        } else {
            added(alloc, documents)?;
        }
        sum = sum.saturating_add(1);
    }
    Ok(sum)
}

/// How many registries are prepared of documents that are owned.
fn prepared_owned(alloc: Global, documents: Vec<(String, Value)>, times: u32) -> Option<u64> {
    let builder = Registry::new(alloc).extend(documents).ok()?;
    prepared(&builder, times).ok()
}

/// The same of documents that are lent.
fn prepared_lent(alloc: Global, documents: &[(String, Value)], times: u32) -> Option<u64> {
    let builder = extended(alloc, documents).ok()?;
    prepared(&builder, times).ok()
}

/// How many calls were made over documents of a kind; nothing where one is refused.
pub fn answer(alloc: Global, line: Line<'_>) -> Option<u64> {
    let documents = of_kind(alloc, line.text, line.size)?;
    match line.call {
        "add" => filled(alloc, false, documents.as_slice(), line.times).ok(),
        "extend" => filled(alloc, true, documents.as_slice(), line.times).ok(),
        _ if line.text == "owned" => prepared_owned(alloc, documents, line.times),
        _ => prepared_lent(alloc, documents.as_slice(), line.times),
    }
}
