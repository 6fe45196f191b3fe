//! The unresolvable references, of a document that the line gives.
use crate::refused::documents::{list_of, uri, value};
use crate::refused::registries::{contained, unresolvable};
use crate::refused::stop::{Stop, after, before};
use crate::refused::trial::{Calls, Trial, tried};
use ref_error::MapRetriever;
use referencing::{Draft, Registry};
use serde_json::Value;
use std::alloc::Global;

/// A document that is asked beside each other one.
const KNOWN: &str = "[7,true,null]";

/// A registry whose references are looked up.
#[derive(Drop)]
struct Linted<'s, 'a> {
    registry: &'s Registry<'a>,
}

/// The row of a call, which is `known`, or a list of the draft's number, a document at `http://a/r`, and one that is
/// retrieved from
/// `http://a/b`.
pub fn row(alloc: Global, call: &str) -> Result<Trial, Stop> {
    let given = value(alloc, if call == "known" { KNOWN } else { call })?;
    let registry = registry_of(alloc, &given)?;
    let mut linted = Linted {
        registry: &registry,
    };
    tried(alloc, &mut linted, "lints", call, &["known"])
}

/// What can be retrieved.
fn retriever(alloc: Global, given: &Value) -> Result<MapRetriever, Stop> {
    let retrieved = given.get(2).ok_or(Stop::Wrong)?.clone()?;
    let pairs = list_of(alloc, (uri(alloc, "http://a/b")?, retrieved))?;
    Ok(MapRetriever::from_pairs(alloc, pairs)?)
}

fn registry_of(alloc: Global, given: &Value) -> Result<Registry<'_>, Stop> {
    let document = given.get(1).ok_or(Stop::Wrong)?;
    let draft = match given.get(0).and_then(Value::as_u64) {
        Some(7) => Draft::Draft7,
        _ => Draft::Draft202012,
    };
    let retriever = retriever(alloc, given)?;
    let builder = Registry::new(alloc).draft(draft).retriever(retriever);
    before(before(builder.add("http://a/r", document))?.prepare())
}

impl Calls for Linted<'_, '_> {
    fn answer(&mut self, alloc: Global, call: &str) -> Result<String, Stop> {
        if call == "known" {
            return contained(alloc, self.registry, "http://a/r");
        }
        let found = unresolvable(alloc, self.registry)?;
        if found.is_empty() {
            return after(String::from_str(alloc, "none"));
        }
        Ok(found)
    }
}
