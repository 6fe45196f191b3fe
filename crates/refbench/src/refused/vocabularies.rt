//! Calls of vocabularies.
use crate::refused::documents::value;
use crate::refused::stop::{Shown, Stop, after, before, fault, outcome, refused};
use crate::refused::trial::{Calls, Trial, tried};
use ref_draft::Draft;
use ref_vocabularies::{
    Dialect, Vocabulary, VocabularySet, declared_or_default, default_vocabularies, find,
};
use serde_json::Value;
use std::alloc::{AllocError, Global};

const CORE: &str = "https://json-schema.org/draft/2020-12/vocab/core";

const CUSTOM: &str = "https://example.com/v";

const META: &str =
    r#"{"$vocabulary":{"https://json-schema.org/draft/2020-12/vocab/core":true,"https://example.com/v":true,"https://example.com/w":false}}"#;

/// An empty set, one of a vocabulary that isn't known, that vocabulary, and a meta-schema.
#[derive(Drop)]
struct Vocabularies {
    empty: VocabularySet,
    one: VocabularySet,
    custom: Vocabulary,
    meta: Value,
}

/// The row of a call.
pub fn row(alloc: Global, call: &str) -> Result<Trial, Stop> {
    let mut one = VocabularySet::new();
    one.add(alloc, custom(alloc, CUSTOM)?)?;
    let mut vocabularies = Vocabularies {
        empty: VocabularySet::new(),
        one,
        custom: custom(alloc, CUSTOM)?,
        meta: value(alloc, META)?,
    };
    tried(
        alloc,
        &mut vocabularies,
        "vocabularies",
        call,
        &["find", "vocabulary.clone", "dialect"],
    )
}

fn custom(alloc: Global, text: &str) -> Result<Vocabulary, Stop> {
    before(Vocabulary::from_text(alloc, text))
}

impl Calls for Vocabularies {
    fn answer(&mut self, alloc: Global, call: &str) -> Result<String, Stop> {
        match call {
            "from_text" => outcome(alloc, Vocabulary::from_text(alloc, CUSTOM)),
            "from_text known" => outcome(alloc, Vocabulary::from_text(alloc, CORE)),
            "from_text invalid" => outcome(alloc, Vocabulary::from_text(alloc, "a b")),
            "vocabulary.clone" => outcome(alloc, self.custom.clone()),
            "vocabulary.clone known" => outcome(alloc, Vocabulary::Core.clone()),
            "set.add" => added(alloc, &mut self.empty, CUSTOM, 0),
            "set.add known" => added(alloc, &mut self.one, CORE, 1),
            "set.add again" => added(alloc, &mut self.one, CUSTOM, 1),
            "set.clone" => copied_set(alloc, &self.one),
            "set.clone known" => outcome(alloc, default_vocabularies(Draft::Draft7).clone()),
            "find" => found(alloc, &self.meta),
            "declared_or_default" => outcome(alloc, declared_or_default(alloc, Some(&self.meta))),
            "dialect" => spoken(alloc),
            _ => Err(Stop::Wrong),
        }
    }
}

/// The URI of a vocabulary that isn't known, and whether another is `core`.
impl Shown for Vocabulary {
    fn shown(&self, alloc: Global) -> Result<String, AllocError> {
        match self {
            Vocabulary::Custom(uri) => String::from_str(alloc, uri.as_str()),
            _ => {
                let is_core = matches!(self, Vocabulary::Core);
                format!(in alloc; "core {is_core}")
            }
        }
    }
}

impl Shown for VocabularySet {
    fn shown(&self, alloc: Global) -> Result<String, AllocError> {
        format!(in alloc; "{self:?}")
    }
}

/// Whether a set has so many vocabularies that aren't known, each that of the custom one, and none that is known.
fn has(set: &VocabularySet, count: usize) -> bool {
    let mut customs: usize = 0;
    for uri in set.custom() {
        customs = customs.saturating_add(1);
        if uri != CUSTOM {
            return false;
        }
    }
    customs == count && !set.contains(&Vocabulary::Core) && !set.contains(&Vocabulary::Applicator)
}

fn copied_set(alloc: Global, set: &VocabularySet) -> Result<String, Stop> {
    match set.clone() {
        Ok(copy) => after(copy.shown(alloc)),
        Err(error) => Err(refused(&error, has(set, 1))),
    }
}

fn added(alloc: Global, set: &mut VocabularySet, text: &str, count: usize) -> Result<String, Stop> {
    let vocabulary = custom(alloc, text)?;
    match set.add(alloc, vocabulary) {
        Ok(()) => after(set.shown(alloc)),
        Err(error) => Err(refused(&error, has(set, count))),
    }
}

fn found(alloc: Global, meta: &Value) -> Result<String, Stop> {
    match find(alloc, meta) {
        Ok(Some(found)) => after(found.shown(alloc)),
        Ok(None) => Err(Stop::Wrong),
        Err(error) => fault(alloc, &error),
    }
}

/// The URI under which the vocabularies of a schema are declared.
fn spoken(alloc: Global) -> Result<String, Stop> {
    let schema = value(alloc, r#"{"$schema":"http://a/m#"}"#)?;
    match Dialect::of(alloc, Draft::Unknown, &schema) {
        Ok(Dialect::MetaSchema(uri)) => after(String::from_str(alloc, uri.as_str())),
        Ok(_) => Err(Stop::Wrong),
        Err(error) => Err(refused(&error, true)),
    }
}
