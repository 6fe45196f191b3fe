//! Calls of builders above a registry.
use crate::refused::documents::{DOCUMENT, META, builder_of, retrieving, title_of, uri, value};
use crate::refused::stop::{
    Refusal, Shown, Stop, after, before, fault, outcome, outcome_after, refused,
};
use crate::refused::trial::{Calls, Trial, tried};
use ref_error::MapRetriever;
use referencing::{Answer, Draft, Registry, RegistryBuilder, Step};
use serde_json::Value;
use std::alloc::{AllocError, Global};
use std::fmt;

/// A registry of a meta-schema, and a builder above it with a document.
#[derive(Drop)]
struct Builders<'p, 'a> {
    parent: &'p Registry<'a>,
    builder: RegistryBuilder<'p>,
}

/// The row of a call.
pub fn row(alloc: Global, call: &str) -> Result<Trial, Stop> {
    let meta = value(alloc, META)?;
    let pairs = [("http://a/m", &meta)];
    let parent = before(Registry::from_meta_schemas(alloc, &pairs))?;
    row_above(alloc, &parent, call)
}

/// The row of a call above a registry.
fn row_above(alloc: Global, parent: &Registry<'_>, call: &str) -> Result<Trial, Stop> {
    let builder = builder(alloc, parent)?;
    let mut builders = Builders { parent, builder };
    tried(
        alloc,
        &mut builders,
        "builders",
        call,
        &[
            "parent.contains_resource",
            "parent.find_vocabularies",
            "parent.lookup",
            "clone",
        ],
    )
}

impl Calls for Builders<'_, '_> {
    fn answer(&mut self, alloc: Global, call: &str) -> Result<String, Stop> {
        match call.strip_prefix("parent.") {
            Some(call) => above(alloc, self.parent, call),
            None => built(alloc, self.parent, &self.builder, call),
        }
    }
}

/// A builder with a document above a registry.
fn builder<'b>(alloc: Global, parent: &'b Registry<'_>) -> Result<RegistryBuilder<'b>, Stop> {
    before(parent.add(alloc, "http://a/r", Value::Null))
}

fn pair() -> [(&'static str, Value); 1] {
    [("http://a/y", Value::Null)]
}

fn pairs() -> [(&'static str, Value); 3] {
    [
        ("http://a/x", Value::Null),
        ("http://a/y", Value::Null),
        ("http://a/x#", Value::Null),
    ]
}

fn above(alloc: Global, parent: &Registry<'_>, call: &str) -> Result<String, Stop> {
    match call {
        "add" => ready(alloc, parent.add(alloc, "http://a/r", Value::Null)),
        "add invalid" => ready(alloc, parent.add(alloc, "a b", Value::Null)),
        "extend" => ready(alloc, parent.extend(alloc, pair())),
        "extend several" => ready(alloc, parent.extend(alloc, pairs())),
        "contains_resource" => known(alloc, parent),
        "find_vocabularies" => declared(alloc, parent),
        "lookup" => looked_up(alloc, parent),
        _ => prepared(alloc, parent, call),
    }
}

fn built(
    alloc: Global,
    parent: &Registry<'_>,
    given: &RegistryBuilder<'_>,
    call: &str,
) -> Result<String, Stop> {
    match call {
        "from_meta_schemas" => meta_schemas(alloc, "http://a/m"),
        "from_meta_schemas invalid" => meta_schemas(alloc, "a b"),
        "add" => ready(
            alloc,
            builder(alloc, parent)?.add("http://a/x", Value::Null),
        ),
        "extend" => ready(alloc, builder(alloc, parent)?.extend(pair())),
        "extend several" => ready(alloc, builder(alloc, parent)?.extend(pairs())),
        "clone" => ready(alloc, given.clone()),
        _ => Err(Stop::Wrong),
    }
}

/// Which URIs are known to a registry, or that memory was wanted.
pub fn known(alloc: Global, registry: &Registry<'_>) -> Result<String, Stop> {
    match marks(alloc, registry) {
        Ok(text) => Ok(text),
        Err(error) => Err(refused(&error, true)),
    }
}

/// A `+` for each of these URIs that is known to a registry, and a `-` for each that isn't.
pub fn marks(alloc: Global, registry: &Registry<'_>) -> Result<String, AllocError> {
    let mut text = String::with_capacity(alloc, 4)?;
    for uri in ["http://a/m", "http://a/r", "http://a/x", "http://a/y"] {
        let is_known = registry.contains_resource(alloc, uri)?;
        text.push(if is_known { '+' } else { '-' })?;
    }
    Ok(text)
}

impl Shown for Registry<'_> {
    fn shown(&self, alloc: Global) -> Result<String, AllocError> {
        marks(alloc, self)
    }
}

/// Which URIs are known once a builder that was made is prepared, or the fault.
fn ready<E: Refusal + fmt::Display + Drop>(
    alloc: Global,
    built: Result<RegistryBuilder<'_>, E>,
) -> Result<String, Stop> {
    match built {
        Ok(builder) => outcome_after(alloc, builder.prepare()),
        Err(error) => fault(alloc, &error),
    }
}

fn meta_schemas(alloc: Global, uri: &str) -> Result<String, Stop> {
    let meta = value(alloc, META)?;
    let pairs = [(uri, &meta)];
    outcome(alloc, Registry::from_meta_schemas(alloc, &pairs))
}

/// The vocabularies of a schema whose meta-schema is in a registry.
fn declared(alloc: Global, registry: &Registry<'_>) -> Result<String, Stop> {
    let schema = value(alloc, r#"{"$schema":"http://a/m"}"#)?;
    outcome(
        alloc,
        registry.find_vocabularies(alloc, Draft::Unknown, &schema),
    )
}

/// The title of the meta-schema.
fn looked_up(alloc: Global, registry: &Registry<'_>) -> Result<String, Stop> {
    let resolver = registry.resolver(alloc, uri(alloc, "http://a/r")?)?;
    match resolver.lookup(alloc, "m") {
        Ok(found) => after(String::from_str(alloc, title_of(found.contents()))),
        Err(error) => fault(alloc, &error),
    }
}

fn prepared(alloc: Global, parent: &Registry<'_>, call: &str) -> Result<String, Stop> {
    let document = value(alloc, DOCUMENT)?;
    match call {
        "prepare without a retriever" => {
            outcome(alloc, builder_of(alloc, parent, &document)?.prepare())
        }
        "prepare without the document" => prepared_without(alloc, parent, &document),
        _ => prepared_by(alloc, retrieving(alloc, parent, &document)?, call),
    }
}

/// A reference to a document that nothing has.
fn prepared_without(
    alloc: Global,
    parent: &Registry<'_>,
    document: &Value,
) -> Result<String, Stop> {
    let reference = value(alloc, r#"{"$ref":"w"}"#)?;
    let builder = before(retrieving(alloc, parent, document)?.add("http://a/z", reference))?;
    outcome(alloc, builder.prepare())
}

fn prepared_by(
    alloc: Global,
    builder: RegistryBuilder<'_, MapRetriever>,
    call: &str,
) -> Result<String, Stop> {
    match call {
        "prepare" => outcome(alloc, builder.prepare()),
        "prepare to the limit" => outcome(alloc, builder.retrieval_limit(0).prepare()),
        "prepare_and_follow" => answered(alloc, builder),
        _ => Err(Stop::Wrong),
    }
}

fn answered(alloc: Global, builder: RegistryBuilder<'_, MapRetriever>) -> Result<String, Stop> {
    let base = uri(alloc, "http://a/r")?;
    let steps = [Step::Lookup("x"), Step::Lookup("y")];
    outcome(alloc, builder.prepare_and_follow(base, &steps))
}

/// The title of the last value, and the base there.
impl Shown for Answer {
    fn shown(&self, alloc: Global) -> Result<String, AllocError> {
        let title = match &self.last {
            Some((value, _)) => title_of(value),
            None => "none",
        };
        let base = self.base.as_str();
        format!(in alloc; "{title} {base}")
    }
}
