//! Retrievers of the tests' own: one that counts, one that has no memory, one that refuses, one whose documents never
//! end, and one that has every document.
use crate::fault::{Fault, done, made};
use crate::faults::reason_of;
use crate::registries::{known, prepared, resolver};
use crate::row;
use ref_error::{Error, MapRetriever, Retrieve, RetrieveError};
use ref_uri::Uri;
use referencing::Registry;
use serde_json::Value;
use std::alloc::{AllocError, Global};
use std::cell::Cell;

/// Documents in memory, and how often they were asked for.
#[derive(Drop)]
struct Counting {
    documents: MapRetriever,
    calls: Cell<usize>,
}

impl Retrieve for Counting {
    ghost use Rattle.ref_definitions.specs.Retrievers.{any_retriever};

    ghost meaning = { λ _. any_retriever };

    fn retrieve(&self, alloc: Global, uri: &Uri) -> Result<Value, RetrieveError> {
        self.calls.set(self.calls.get().saturating_add(1));
        self.documents.retrieve(alloc, uri)
    }
}

/// The number that the digits in a text make.
fn number_in(bytes: &[u8]) -> usize {
    let mut number: usize = 0;
    for byte in bytes {
        if byte.is_ascii_digit() {
            let digit = usize::from(byte.saturating_sub(b'0'));
            number = number.saturating_mul(10).saturating_add(digit);
        }
    }
    number
}

/// For a URI with a number, a schema that refers to the next number.
fn next_of(alloc: Global, uri: &Uri) -> Result<Value, RetrieveError> {
    let next = number_in(uri.as_str().as_bytes()).saturating_add(1);
    let text = format!(in alloc; "{{\"$ref\":\"{next}\"}}")?;
    match Value::from_slice(alloc, text.as_bytes()) {
        Ok(value) => Ok(value),
        Err(_) => Err(RetrieveError::Memory(AllocError)),
    }
}

/// What answers every URI in one way.
#[derive(Drop)]
enum Always<'r> {
    /// It has no memory.
    NoMemory,
    /// It refuses for this reason.
    Refusing(&'r str),
    /// Its document refers to the next one.
    Next,
    /// Its document is `true`.
    True,
}

impl Retrieve for Always<'_> {
    ghost use Rattle.ref_definitions.specs.Retrievers.{any_retriever};

    ghost meaning = { λ _. any_retriever };

    fn retrieve(&self, alloc: Global, uri: &Uri) -> Result<Value, RetrieveError> {
        match self {
            Always::NoMemory => Err(RetrieveError::Memory(AllocError)),
            Always::Refusing(reason) => Err(RetrieveError::Refused(reason_of(alloc, reason)?)),
            Always::Next => next_of(alloc, uri),
            Always::True => Ok(Value::Bool(true)),
        }
    }
}

/// Which URIs of a row are known to a registry that is prepared, or the text of the fault.
fn outcome(
    alloc: Global,
    prepared: Result<Registry<'_>, Fault>,
    row: &Value,
) -> Result<String, Fault> {
    match prepared {
        Ok(registry) => known(alloc, &registry, row, 4),
        Err(Fault::Text(text)) => Ok(text),
        Err(fault) => Err(fault),
    }
}

/// How often a retriever is asked, and what comes of it: of a row of documents, what can be retrieved, how many of it
/// may be, and URIs.
fn calls(alloc: Global, row: &Value) -> Result<String, Fault> {
    let limit = row::number(row, 3)?;
    let documents = row::documents(alloc, row, 1)?;
    let retriever = Counting {
        documents: row::retriever(alloc, row, 2)?,
        calls: Cell::new(0),
    };
    let builder = Registry::new(alloc)
        .retrieval_limit(limit)
        .retriever(&retriever);
    let outcome = outcome(alloc, done(alloc, prepared(builder, documents)), row)?;
    let calls = retriever.calls.get();
    made(format!(in alloc; "{calls} {outcome}"))
}

/// Whether preparing a row's documents ends out of memory.
fn is_exhausted(alloc: Global, row: &Value) -> Result<String, Fault> {
    let documents = row::documents(alloc, row, 1)?;
    let registry = prepared(Registry::new(alloc).retriever(Always::NoMemory), documents);
    let is_exhausted = matches!(registry, Err(Error::Memory(_)));
    made(format!(in alloc; "{is_exhausted}"))
}

/// A fault, and its debug text in the next line.
fn shown(alloc: Global, prepared: &Result<Registry<'_>, Error>) -> Result<String, Fault> {
    match prepared {
        Ok(_) => Err(Fault::Form("nothing is refused")),
        Err(error) => made(format!(in alloc; "{error}\n{error:?}")),
    }
}

/// Of a row of documents and a reason: the fault with which preparing them ends, where each retrieval is refused for
/// that reason, and its debug text in the next line.
fn refused(alloc: Global, row: &Value) -> Result<String, Fault> {
    let documents = row::documents(alloc, row, 1)?;
    let reason = row::text(row, 2)?;
    let builder = Registry::new(alloc).retriever(Always::Refusing(reason));
    shown(alloc, &prepared(builder, documents))
}

/// Of a row of documents and a limit, `null` where none is set: the fault with which preparing them ends, where each
/// document that is retrieved wants another.
fn endless(alloc: Global, row: &Value) -> Result<String, Fault> {
    let documents = row::documents(alloc, row, 1)?;
    let mut builder = Registry::new(alloc).retriever(Always::Next);
    if let Ok(limit) = row::number(row, 2) {
        builder = builder.retrieval_limit(limit);
    }
    match prepared(builder, documents) {
        Ok(_) => Err(Fault::Form("nothing is refused")),
        Err(error) => made(format!(in alloc; "{error}")),
    }
}

/// Of a row of documents, a base and a reference: the fault of the look-up, where every document that is wanted is `true`.
fn any(alloc: Global, row: &Value) -> Result<String, Fault> {
    let documents = row::documents(alloc, row, 1)?;
    let registry = done(
        alloc,
        prepared(Registry::new(alloc).retriever(Always::True), documents),
    )?;
    let resolver = resolver(alloc, &registry, row::text(row, 2)?)?;
    match resolver.lookup(alloc, row::text(row, 3)?) {
        Ok(_) => Err(Fault::Form("nothing is refused")),
        Err(error) => made(format!(in alloc; "{error}")),
    }
}

/// What is found of a row of a table on retrieval.
pub fn found(alloc: Global, table: &str, row: &Value) -> Result<String, Fault> {
    match table {
        "calls of a retriever" => calls(alloc, row),
        "retrievers without memory" => is_exhausted(alloc, row),
        "refusing retrievers" => refused(alloc, row),
        "endless retrieval" => endless(alloc, row),
        "any document" => any(alloc, row),
        _ => Err(Fault::Form("no such table")),
    }
}
