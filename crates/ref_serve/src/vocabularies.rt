//! `vocabularies`.
ghost use Rattle.std.specs.Prelude.{◌≡◌, ◌++◌, ◌∷◌, [], map, Ok, IfOk, OnOk};
ghost use Rattle.std.specs.List.{AllZip};
ghost use Rattle.serde_json.specs.Data.{string};
ghost use Rattle.serde_json.specs.View.{view};
ghost use Rattle.ref_vocabularies.specs.Vocabularies.{Known, Standard, all_known, contains, from_text};
ghost use Rattle.ref_calls.specs.Objects.{texts};
ghost use Rattle.ref_calls.specs.Outcome.{Answers};
ghost use Rattle.ref_serve.specs.Listings as spec;

use crate::registry::registry_of;
use crate::state::State;
use ref_calls::field::{draft_of, schema_of};
use ref_calls::members::{object_of, push_text};
use ref_json::Stop;
use referencing::{Vocabulary, VocabularySet};
use serde_json::Value;
use std::alloc::{AllocError, Global};

// The URIs of the vocabularies of 2019-09 and 2020-12: for one that both have the newer.
const KNOWN: [&str; 9] = [
    "https://json-schema.org/draft/2020-12/vocab/core",
    "https://json-schema.org/draft/2020-12/vocab/applicator",
    "https://json-schema.org/draft/2020-12/vocab/unevaluated",
    "https://json-schema.org/draft/2020-12/vocab/validation",
    "https://json-schema.org/draft/2020-12/vocab/meta-data",
    "https://json-schema.org/draft/2019-09/vocab/format",
    "https://json-schema.org/draft/2020-12/vocab/format-annotation",
    "https://json-schema.org/draft/2020-12/vocab/content",
    "https://json-schema.org/draft/2020-12/vocab/format-assertion",
];

// Whether the vocabulary of a known one's URI is in a set.
fn has(alloc: Global, set: &VocabularySet, uri: &str) -> bool
    ensures { (k : Known) → from_text uri.now ≡ Ok (Standard k)
        → result ≡ contains set.now (Standard k) }
{
    match Vocabulary::from_text(alloc, uri) {
        Ok(vocabulary) => set.contains(&vocabulary),
        Err(_) => false,
    }
}

// Puts the URI of a known vocabulary after others, where it is in a set.
fn push_known(
    alloc: Global,
    list: &mut Vec<Value>,
    set: &VocabularySet,
    uri: &str,
) -> Result<(), AllocError>
    ensures { (k : Known) → from_text uri.now ≡ Ok (Standard k) → uri.now ≡ spec.known_uri k
        → OnOk result
        (map view list.new.items
        ≡ map view list.old.items ++ map (λ t. string t) (spec.known_uris set.now (k
        ∷ []))) }
{
    if has(alloc, set, uri) {
        push_text(alloc, list, uri)?;
    }
    Ok(())
}

// The URIs of the known vocabularies in a set.
fn push_all_known(
    alloc: Global,
    list: &mut Vec<Value>,
    set: &VocabularySet,
    uris: &[&str],
) -> Result<(), AllocError>
    requires { AllZip (λ uri k. uri ≡ spec.known_uri k) (map (λ t. t.now) uris.now) all_known }
    ensures { OnOk result (map view list.new.items ≡ map view list.old.items
        ++ map (λ t. string t) (spec.known_uris set.now all_known)) }
{
    for uri in uris {
        push_known(alloc, list, set, uri)?;
    }
    Ok(())
}

// The URIs of a set's vocabularies: the known ones, and after them the others in byte order.
#[tactic(auto, unfolding(crate::specs::Listings::vocabulary_uris))]
fn uris_of(alloc: Global, set: &VocabularySet) -> Result<Value, AllocError>
    ensures { IfOk result (λ d. view d ≡ texts (spec.vocabulary_uris set.now)) }
{
    let mut list = Vec::new(alloc);
    push_all_known(alloc, &mut list, set, &KNOWN)?;
    for uri in set.custom() {
        push_text(alloc, &mut list, uri)?;
    }
    Ok(Value::Array(list))
}

/// The vocabularies of a schema.
#[tactic(auto, unfolding(crate::specs::Listings::vocabularies_result))]
pub fn vocabularies(alloc: Global, state: &State, tree: &Value) -> Result<Value, Stop<Value>>
    ensures { Answers view result (spec.vocabularies_result state.now (view tree.now)) }
{
    let (_number, open) = registry_of(alloc, state, tree)?;
    let schema = schema_of(alloc, tree)?;
    let draft = draft_of(alloc, tree)?;
    let set = open.registry().find_vocabularies(alloc, draft, schema)?;
    let uris = uris_of(alloc, &set)?;
    Ok(object_of(alloc, "vocabularies", uris)?)
}
