//! The vocabularies that a meta-schema declares, and those of each draft (2020-12 Core, 8.1.2; 2019-09 Core, 8.1.2).
ghost use Rattle.std.specs.Prelude.{◌≡◌, [], codes, IfErr, OnOk, option_and_then};
ghost use Rattle.serde_json.specs.Find.{get, as_object};
ghost use Rattle.serde_json.specs.View.{view, members_view};
ghost use Rattle.ref_draft.specs.Schema.{text_under};
ghost use Rattle.ref_definitions.specs.Fault.{as_invalid_uri};
ghost use Rattle.ref_vocabularies.specs.Vocabularies.{of_known, default_set, from_text, collected_set, known_set, set_of_members, find_in};
ghost use Rattle.ref_error.specs.Errors.{IsFaultOf, Gives};
ghost use Rattle.ref_vocabularies.specs.inner.Adding.{AddsMember};

use crate::vocabulary::Vocabulary;
use crate::vocabulary_set::VocabularySet;
use ref_draft::Draft;
use ref_error::Error;
use serde_json::{Map, Value};
use std::alloc::Global;

/// The bits of 2019-09's vocabularies: core, applicator, validation, meta-data and content.
const OF_2019_09: u16 = 0b1001_1011;

/// The bits of 2020-12's: core, applicator, unevaluated, validation, meta-data, format-annotation and content.
const OF_2020_12: u16 = 0b1101_1111;

/// The vocabularies of a draft: none before 2019-09; those of 2020-12 for `Unknown`, and in neither what asserts formats.
/// Takes no memory.
pub fn default_vocabularies(draft: Draft) -> VocabularySet
    ensures value { result ≡ default_set draft }
{
    match draft {
        Draft::Draft4 | Draft::Draft6 | Draft::Draft7 => VocabularySet::new(),
        Draft::Draft201909 => VocabularySet::from_known(OF_2019_09),
        Draft::Draft202012 | Draft::Unknown => VocabularySet::from_known(OF_2020_12),
    }
}

/// The vocabularies that a meta-schema declares (2020-12 Core, 8.1.2).
///
/// Where its `$id` is that of the meta-schema of 2020-12 or of 2019-09, exactly, they are the draft's; there are none where
/// it is that of Draft 7, 6 or 4, by `https`. Else they are the keys of the object under `$vocabulary` whose value is `true`,
/// and format-assertion whatever its value; none without such an object.
///
/// `InvalidUri` for the first key, in byte order, that is no URI reference, also where its value is not `true`; `Memory`
/// where there is none for a custom vocabulary. Two look-ups, and linear in the keys under `$vocabulary`, each custom one
/// of which is put at its place.
pub fn find(alloc: Global, document: &Value) -> Result<Option<VocabularySet>, Error>
    ensures gives { Gives (λ found. found) (as_invalid_uri (find_in (view document.now))) result }
{
    match known(document) {
        Some(known) => Ok(known),
        None => declared(alloc, document),
    }
}

// The set of a meta-schema that is known by its `$id`.
fn known(document: &Value) -> Option<Option<VocabularySet>>
    ensures { result ≡ option_and_then known_set (text_under (codes "$id") (view document.now)) }
{
    let id = document.get("$id").and_then(Value::as_str)?;
    known_set(id)
}

// The set that a meta-schema declares under `$vocabulary`.
fn declared(alloc: Global, document: &Value) -> Result<Option<VocabularySet>, Error>
    ensures gives { Gives (λ found. found)
        (as_invalid_uri
        (set_of_members
        (option_and_then as_object (get (codes "$vocabulary") (view document.now)))))
        result }
{
    match document.get("$vocabulary").and_then(Value::as_object) {
        Some(members) => Ok(Some(collected(alloc, members)?)),
        None => Ok(None),
    }
}

// The set of a meta-schema that is known by its identifier, or none before 2019-09.
fn known_set(id: &str) -> Option<Option<VocabularySet>>
    ensures { result ≡ known_set id.now }
{
    match id {
        "https://json-schema.org/schema" | "https://json-schema.org/draft/2020-12/schema" => {
            Some(Some(default_vocabularies(Draft::Draft202012)))
        }
        "https://json-schema.org/draft/2019-09/schema" => {
            Some(Some(default_vocabularies(Draft::Draft201909)))
        }
        "https://json-schema.org/draft-07/schema"
        | "https://json-schema.org/draft-06/schema"
        | "https://json-schema.org/draft-04/schema" => Some(None),
        _ => None,
    }
}

// The set that the members of `$vocabulary` declare.
fn collected(alloc: Global, members: &Map<String, Value>) -> Result<VocabularySet, Error>
    ensures gives { Gives (λ set. set)
        (as_invalid_uri (collected_set (of_known []) (members_view members.now.entries)))
        result }
{
    let mut set = VocabularySet::new();
    for (key, value) in members {
        add_member(alloc, &mut set, key.as_str(), value)?;
    }
    Ok(set)
}

// Adds what one member declares.
fn add_member(alloc: Global, set: &mut VocabularySet, key: &str, value: &Value) -> Result<(), Error>
    ensures ok { OnOk result (AddsMember set.old key.now (view value.now) set.new) }
    ensures fault { IfErr result (IsFaultOf (as_invalid_uri (from_text key.now))) }
{
    let vocabulary = Vocabulary::from_text(alloc, key)?;
    if value.as_bool() == Some(true) || vocabulary == Vocabulary::FormatAssertion {
        set.add(alloc, vocabulary)?;
    }
    Ok(())
}
