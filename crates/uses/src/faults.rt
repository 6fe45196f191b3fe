//! A fault that is shown to a person.
ghost use Rattle.std.specs.Prelude.{◌≡◌, map, string_bytes, IfOk};
ghost use Rattle.referencing.specs.Builder.{builder_of};
ghost use Rattle.referencing.specs.Following.{step_of};
ghost use Rattle.referencing.specs.Prepared.{given_of};
ghost use Rattle.uses.specs.Uses.{step_text, IsShown};

use referencing::{AnswerError, FollowError, RegistryBuilder, Retrieve, Step, Uri};
use std::alloc::{AllocError, Global};

/// The number of the step that finds no value, from 0, and the text of its fault. Takes memory for the text.
pub fn step_text(alloc: Global, fault: &FollowError) -> Result<String, AllocError>
    ensures text { IfOk result (λ text. string_bytes text ≡ step_text fault.now) }
{
    let (step, error) = (fault.step, &fault.error);
    let text = format!(in alloc; "step {step}: {error}")?;
    Ok(text)
}

/// What is shown of a question: the text of its fault, with the number of the step where it is one of following, or `found`.
pub fn shown<R: Retrieve + Drop>(
    alloc: Global,
    builder: RegistryBuilder<'_, R>,
    base: Uri,
    steps: &[Step<'_>],
) -> Result<String, AllocError>
    ensures text { IfOk result
        (λ text. IsShown
        (given_of (R.meaning (builder_of builder.entry).retriever) (builder_of builder.entry)) base
        (map step_of steps.now) (string_bytes text)) }
{
    match builder.prepare_and_follow(base, steps) {
        Ok(_) => Ok(String::from_str(alloc, "found")?),
        Err(AnswerError::Prepare(error)) => Ok(format!(in alloc; "{error}")?),
        Err(AnswerError::Follow(fault)) => Ok(step_text(alloc, &fault)?),
        Err(AnswerError::Memory(error)) => Err(error),
    }
}
