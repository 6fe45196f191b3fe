//! What retrievers return.
use crate::fault::{Fault, done, made};
use crate::row;
use ref_error::{DefaultRetriever, MapRetriever, Retrieve};
use serde_json::Value;
use std::alloc::Global;

/// What a retriever returns for a URI, or the text of its refusal.
fn retrieved<R: Retrieve + Drop>(alloc: Global, retriever: R, uri: &str) -> Result<String, Fault> {
    let uri = row::uri_of(alloc, uri)?;
    match done(alloc, retriever.retrieve(alloc, &uri)) {
        Ok(value) => made(value.to_string(alloc)),
        Err(Fault::Text(text)) => Ok(text),
        Err(fault) => Err(fault),
    }
}

/// Of a row of a URI: whether the default retriever is equal to its copy, its debug text, and what it returns.
fn by_default(alloc: Global, row: &Value) -> Result<String, Fault> {
    let retriever = DefaultRetriever;
    let same = retriever;
    let answer = retrieved(alloc, &retriever, row::text(row, 1)?)?;
    made(format!(in alloc; "{} {retriever:?} {answer}", same == retriever))
}

/// What a retriever returns for URIs, a line for each.
fn each_retrieved(
    alloc: Global,
    retriever: &MapRetriever,
    uris: &[Value],
) -> Result<String, Fault> {
    let mut answers = String::new(alloc);
    for uri in uris {
        let answer = retrieved(alloc, retriever, uri.as_str().unwrap_or("no text"))?;
        answers.push_str(answer.as_str())?;
        answers.push_str("\n")?;
    }
    Ok(answers)
}

/// Of a row of documents, URIs and one more: what a retriever of the documents returns for each, for the last of them
/// itself and else after a reference.
fn of_documents(alloc: Global, row: &Value) -> Result<String, Fault> {
    let retriever = row::retriever(alloc, row, 1)?;
    let answers = each_retrieved(alloc, &retriever, row::list(row, 2)?)?;
    let last = retrieved(alloc, retriever, row::text(row, 3)?)?;
    made(format!(in alloc; "{answers}{last}"))
}

/// What is found of a row of a table on retrievers.
pub fn found(alloc: Global, table: &str, row: &Value) -> Result<String, Fault> {
    match table {
        "default retriever" => by_default(alloc, row),
        "retrievers" => of_documents(alloc, row),
        _ => Err(Fault::Form("no such table")),
    }
}
