//! From documents to what steps lead to, in one call.
ghost use Rattle.std.specs.Prelude.{◌≡◌, map, IfOk, IfErr, Ok};
ghost use Rattle.ref_definitions.specs.Follow.{followed_steps};
ghost use Rattle.referencing.specs.Builder.{builder_of};
ghost use Rattle.referencing.specs.Prepared.{given_of};
ghost use Rattle.referencing.specs.Following.{step_of, lent_last, followed_of};
ghost use Rattle.referencing.specs.Answering.{copied_last, answer_of, Answers, FailsOver, IsFailureOf};

use crate::builder::RegistryBuilder;
use crate::registry::Registry;
use crate::steps::{FollowError, Followed, Step, follow};
use ref_draft::Draft;
use ref_error::{Error, Retrieve};
use ref_parts::list::List;
use ref_uri::Uri;
use serde_json::Value;
use std::alloc::{AllocError, Global};
use std::fmt;
use std::rc::Rc;

/// What steps lead to, copied out of a registry: the value that was looked up last with its draft, if one was, the base URI
/// there, and the dynamic scope, inner to outer.
#[derive(Debug, Drop)]
pub struct Answer {
    /// A copy of the value that the last look-up found, and its draft; `None` where there was no look-up.
    pub last: Option<(Value, Draft)>,
    /// The base URI there.
    pub base: Rc<Uri>,
    /// The URIs passed on the way, inner to outer.
    pub scope: List<Uri>,
}

/// Why there is no answer. It displays as its error, or as `Out of memory`.
#[derive(Debug, PartialEq, Eq, Drop)]
pub enum AnswerError {
    /// The documents can't be prepared.
    Prepare(Error),
    /// A step finds no value.
    Follow(FollowError),
    /// All steps lead somewhere, and there is no memory for the copy.
    Memory(AllocError),
}

impl fmt::Display for AnswerError {
    ghost use Rattle.std.specs.Prelude.{Some};
    ghost use Rattle.referencing.specs.Answering.{answer_error_text};

    ghost output = { λ e. Some (answer_error_text e) };

    fn fmt<W: fmt::Write>(&self, f: &mut fmt::Formatter<W>) -> fmt::Result {
        match self {
            AnswerError::Prepare(error) => write!(f, "{error}"),
            AnswerError::Follow(error) => write!(f, "{error}"),
            AnswerError::Memory(_) => f.write_str("Out of memory"),
        }
    }
}

// The value, copied.
fn copied(last: Option<(&Value, Draft)>) -> Result<Option<(Value, Draft)>, AllocError>
    ensures { IfOk result (λ copy. copied_last copy ≡ lent_last last.entry) }
{
    match last {
        Some((value, draft)) => Ok(Some((value.clone()?, draft))),
        None => Ok(None),
    }
}

// Where steps lead, copied.
fn answered(followed: Followed<'_>) -> Result<Answer, AllocError>
    ensures { IfOk result (λ answer. answer_of answer ≡ followed_of followed.entry) }
{
    let Followed { last, resolver } = followed;
    let (base, scope) = resolver.into_parts();
    Ok(Answer {
        last: copied(last)?,
        base,
        scope,
    })
}

// Where steps lead over a registry, copied.
fn answer_over(
    alloc: Global,
    registry: &Registry<'_>,
    base: Uri,
    steps: &[Step<'_>],
) -> Result<Answer, AnswerError>
    ensures answer { IfOk result
        (λ answer. followed_steps registry.now base (map step_of steps.now)
        ≡ Ok (answer_of answer)) }
    ensures fault { IfErr result (FailsOver registry.now base (map step_of steps.now)) }
{
    match follow(alloc, registry, base, steps) {
        Ok(followed) => match answered(followed) {
            Ok(answer) => Ok(answer),
            Err(error) => Err(AnswerError::Memory(error)),
        },
        Err(error) => Err(AnswerError::Follow(error)),
    }
}

impl<'a, R: Retrieve + Drop> RegistryBuilder<'a, R> {
    /// Prepares the documents, follows steps from a base URI, and copies what they lead to out of the registry: one question
    /// to documents that nothing else is asked of.
    ///
    /// The answer is what the steps lead to over documents that preparing may return: those that were added and those that
    /// were retrieved for them. `Prepare` gives a fault of the documents, a refusal of the retriever, or the limit, as
    /// [`RegistryBuilder::prepare`] does; `Follow` the first step that finds no value, as [`follow`] does; `Memory` that there
    /// is none for the copy.
    pub fn prepare_and_follow(self, base: Uri, steps: &[Step<'_>]) -> Result<Answer, AnswerError>
        ensures answer { IfOk result
            (λ answer. Answers
            (given_of (R.meaning (builder_of self.entry).retriever) (builder_of self.entry)) base
            (map step_of steps.now) (answer_of answer)) }
        ensures fault { IfErr result
            (IsFailureOf
            (given_of (R.meaning (builder_of self.entry).retriever) (builder_of self.entry)) base
            (map step_of steps.now)) }
    {
        let alloc = self.alloc;
        match self.prepare() {
            Ok(registry) => answer_over(alloc, &registry, base, steps),
            Err(error) => Err(AnswerError::Prepare(error)),
        }
    }
}
