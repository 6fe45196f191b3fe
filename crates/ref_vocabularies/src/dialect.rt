//! Where the vocabularies of a schema are given: by its draft, or by the meta-schema that it names (2020-12 Core, 8.1.1 and
//! 8.1.2).
ghost use Rattle.std.specs.Prelude.{◌≡◌, codes, IfOk, OnErr, MatchResult, Option, Result};
ghost use Rattle.std.specs.Option.{option_map_or};
ghost use Rattle.serde_json.specs.View.{view};
ghost use Rattle.ref_uri.specs.Targets.{Refusal, uri_of};
ghost use Rattle.ref_draft.specs.Schema.{text_under};
ghost use Rattle.ref_draft.specs.declared.draft.Draft.TheVariants.{Unknown};
ghost use Rattle.ref_definitions.specs.World.{World};
ghost use Rattle.ref_definitions.specs.Fault.{as_invalid_uri};
ghost use Rattle.ref_vocabularies.specs.Vocabularies.{VocabularySet as SetOfVocabularies, default_set, find_in, set_or_default, set_at, find_vocabularies};
ghost use Rattle.ref_error.specs.Errors.{Gives, IsMemory};
ghost use Rattle.ref_vocabularies.specs.Dialects.{set_of_dialect};

use crate::meta_schema::{default_vocabularies, find};
use crate::vocabulary_set::VocabularySet;
use ref_draft::Draft;
use ref_error::Error;
use ref_uri::{Uri, UriFault, uri};
use serde_json::Value;
use std::alloc::{AllocError, Global};

/// Where the vocabularies of a schema are given.
#[derive(Debug, Drop)]
pub enum Dialect {
    /// They are these.
    Known(VocabularySet),
    /// The document that this URI means declares them.
    MetaSchema(Uri),
}

impl Dialect {
    /// Where the vocabularies of a schema are given, which is read by a draft and whose own draft is that of its text under
    /// `$schema`, or else the one that it is read by. Where its own draft is known, they are those of the draft that it is
    /// read by; else the document under the URI of that text, without the fragment, declares them. Where there is no such
    /// text, or it is no URI reference, they are the default ones of [`Draft::Unknown`].
    ///
    /// Fails only where memory is refused, which it takes for the URI. A look-up, and linear in the text.
    pub fn of(alloc: Global, draft: Draft, contents: &Value) -> Result<Dialect, AllocError>
        ensures value { (world : World)
            → IfOk result
            (λ dialect. find_vocabularies world draft (view contents.now)
            ≡ set_of_dialect world dialect) }
    {
        match draft.detect(contents) {
            Draft::Unknown => custom(alloc, contents),
            _ => Ok(Dialect::Known(default_vocabularies(draft))),
        }
    }
}

// The dialect of a schema whose draft isn't known.
fn custom(alloc: Global, contents: &Value) -> Result<Dialect, AllocError>
    ensures { (world : World)
        → IfOk result
        (λ dialect. option_map_or (λ text. set_at world (uri_of text))
        (text_under (codes "$schema") (view contents.now)) (default_set Unknown)
        ≡ set_of_dialect world dialect) }
{
    match contents.get("$schema").and_then(Value::as_str) {
        Some(text) => named(alloc, text),
        None => Ok(Dialect::Known(default_vocabularies(Draft::Unknown))),
    }
}

// The dialect of a schema whose meta-schema a text names.
fn named(alloc: Global, text: &str) -> Result<Dialect, AllocError>
    ensures { (world : World)
        → IfOk result (λ dialect. set_at world (uri_of text.now) ≡ set_of_dialect world dialect) }
{
    match uri::from_str(alloc, text) {
        Ok(mut uri) => {
            uri.drop_fragment();
            Ok(Dialect::MetaSchema(uri))
        }
        Err(UriFault::Invalid(_)) => Ok(Dialect::Known(default_vocabularies(Draft::Unknown))),
        Err(UriFault::Memory(error)) => Err(error),
    }
}

/// The vocabularies that a meta-schema declares, as [`find`] has them; the default set of [`Draft::Unknown`] where there is no
/// document, where it declares none, and where one of its keys is refused.
///
/// Fails only where memory is refused, which it takes as `find` does.
pub fn declared_or_default(
    alloc: Global,
    document: Option<&Value>,
) -> Result<VocabularySet, AllocError>
    ensures value { IfOk result
        (λ set. set
        ≡ option_map_or (λ d. set_or_default (find_in (view d.now))) document.entry
        (default_set Unknown)) }
{
    let Some(document) = document else {
        return Ok(default_vocabularies(Draft::Unknown));
    };
    or_default(find(alloc, document))
}

// The set that was found, or the default one.
fn or_default(found: Result<Option<VocabularySet>, Error>) -> Result<VocabularySet, AllocError>
    ensures set { (declared : Result (Option SetOfVocabularies) Refusal)
        → Gives (λ set. set) (as_invalid_uri declared) found
        → IfOk result (λ set. set ≡ set_or_default declared) }
    // Nothing but an error that is out of memory becomes that.
    ensures memory { OnErr result (MatchResult found (λ set. ⊥) IsMemory) }
{
    match found.map_err(|error| error.is_memory()) {
        Ok(Some(set)) => Ok(set),
        Err(true) => Err(AllocError),
        _ => Ok(default_vocabularies(Draft::Unknown)),
    }
}
