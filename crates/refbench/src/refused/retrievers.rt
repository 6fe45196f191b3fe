//! Calls of retrievers.
use crate::refused::documents::{pairs, retriever, title_of, uri};
use crate::refused::stop::{Shown, Stop, outcome, refused};
use crate::refused::trial::{Calls, Trial, tried};
use ref_error::{DefaultRetriever, MapRetriever, Retrieve};
use ref_uri::Uri;
use serde_json::Value;
use std::alloc::{AllocError, Global};

/// A retriever of one document, its URI, and another.
#[derive(Drop)]
struct Retrievers {
    map: MapRetriever,
    there: Uri,
    missing: Uri,
}

/// The row of a call.
pub fn row(alloc: Global, call: &str) -> Result<Trial, Stop> {
    let mut retrievers = Retrievers {
        map: retriever(alloc)?,
        there: uri(alloc, "http://a/y")?,
        missing: uri(alloc, "http://a/z")?,
    };
    tried(
        alloc,
        &mut retrievers,
        "retrievers",
        call,
        &["map", "map without the document", "default"],
    )
}

impl Calls for Retrievers {
    fn answer(&mut self, alloc: Global, call: &str) -> Result<String, Stop> {
        match call {
            "from_pairs" => made(alloc, &self.there),
            "map" => retrieved(alloc, &self.map, &self.there),
            "map without the document" => retrieved(alloc, &self.map, &self.missing),
            "default" => retrieved(alloc, &DefaultRetriever, &self.there),
            _ => Err(Stop::Wrong),
        }
    }
}

/// The title of what is retrieved, or the fault.
fn retrieved<R: Retrieve>(alloc: Global, retriever: &R, uri: &Uri) -> Result<String, Stop> {
    outcome(alloc, retriever.retrieve(alloc, uri))
}

/// The title of what a new retriever retrieves.
fn made(alloc: Global, uri: &Uri) -> Result<String, Stop> {
    let pairs = pairs(alloc)?;
    match MapRetriever::from_pairs(alloc, pairs) {
        Ok(map) => after_retrieval(retrieved(alloc, &map, uri)),
        Err(error) => Err(refused(&error, true)),
    }
}

impl Shown for Value {
    fn shown(&self, alloc: Global) -> Result<String, AllocError> {
        String::from_str(alloc, title_of(self))
    }
}

/// What is retrieved once a call has returned.
fn after_retrieval(retrieved: Result<String, Stop>) -> Result<String, Stop> {
    match retrieved {
        Err(Stop::Refused) => Err(Stop::After),
        other => other,
    }
}
