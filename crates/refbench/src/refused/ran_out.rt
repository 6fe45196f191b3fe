//! Where memory ran out, as a call says it: while documents are prepared, at which step, or for the copy of an answer.
use crate::refused::documents::{DOCUMENT, SUBRESOURCE, retriever, uri, value};
use crate::refused::stop::{Refusal, Stop, after, before};
use crate::refused::trial::Trial;
use ref_error::MapRetriever;
use referencing::{
    Answer, AnswerError, Draft, FollowError, Registry, RegistryBuilder, ResourceRef, Step, follow,
};
use std::alloc::Global;

/// The row of a call: `prepare`, `follow` with the number of steps, or `answer`, which is both with all steps.
pub fn row(alloc: Global, call: &str) -> Result<Trial, Stop> {
    let document = value(alloc, DOCUMENT)?;
    let schema = value(alloc, SUBRESOURCE)?;
    let builder = before(Registry::new(alloc).add("http://a/r", &document))?;
    let builder = builder.retriever(retriever(alloc)?);
    let steps = [
        Step::Lookup("x"),
        Step::Recursive,
        Step::Lookup("y"),
        Step::Enter(ResourceRef::new(&schema, Draft::Draft202012)),
    ];
    match call {
        "prepare" => prepared(alloc, builder),
        "follow 1" => followed(alloc, call, builder, &steps[..1]),
        "follow 2" => followed(alloc, call, builder, &steps[..2]),
        "follow 3" => followed(alloc, call, builder, &steps[..3]),
        "follow 4" => followed(alloc, call, builder, &steps),
        "answer" => answered(alloc, builder, &steps),
        _ => Err(Stop::Wrong),
    }
}

/// The line of a call.
fn line(alloc: Global, call: &str, text: &str, is_refused: bool) -> Result<Trial, Stop> {
    Ok(Trial {
        lines: after(format!(in alloc; "ran_out {call}: {text}"))?,
        is_refused,
    })
}

/// The line of a call that wanted memory.
fn wanted<E: Refusal>(alloc: Global, call: &str, error: &E, place: &str) -> Result<Trial, Stop> {
    if error.is_memory() {
        line(alloc, call, place, true)
    } else {
        Err(Stop::Wrong)
    }
}

fn prepared(alloc: Global, builder: RegistryBuilder<'_, MapRetriever>) -> Result<Trial, Stop> {
    match builder.prepare() {
        Ok(_registry) => line(alloc, "prepare", "prepared", false),
        Err(error) => wanted(alloc, "prepare", &error, "Prepare"),
    }
}

/// The line of steps that want memory.
fn at_step(alloc: Global, call: &str, ended: &FollowError) -> Result<Trial, Stop> {
    let place = after(format!(in alloc; "{ended}"))?;
    wanted(alloc, call, &ended.error, place.as_str())
}

/// The line of steps in a registry.
fn stepped(
    alloc: Global,
    call: &str,
    registry: &Registry<'_>,
    steps: &[Step<'_>],
) -> Result<Trial, Stop> {
    let base = uri(alloc, "http://a/r")?;
    match follow(alloc, registry, base, steps) {
        Ok(followed) => line(alloc, call, followed.resolver.base_uri().as_str(), false),
        Err(ended) => at_step(alloc, call, &ended),
    }
}

fn followed(
    alloc: Global,
    call: &str,
    builder: RegistryBuilder<'_, MapRetriever>,
    steps: &[Step<'_>],
) -> Result<Trial, Stop> {
    let registry = before(builder.prepare())?;
    stepped(alloc, call, &registry, steps)
}

/// The line of an answer.
fn placed(alloc: Global, answer: &Result<Answer, AnswerError>) -> Result<Trial, Stop> {
    match answer {
        Ok(answer) => line(alloc, "answer", answer.base.as_str(), false),
        Err(AnswerError::Prepare(error)) => wanted(alloc, "answer", error, "Prepare"),
        Err(AnswerError::Follow(ended)) => at_step(alloc, "answer", ended),
        Err(AnswerError::Memory(error)) => wanted(alloc, "answer", error, "Copy"),
    }
}

fn answered(
    alloc: Global,
    builder: RegistryBuilder<'_, MapRetriever>,
    steps: &[Step<'_>],
) -> Result<Trial, Stop> {
    let base = uri(alloc, "http://a/r")?;
    placed(alloc, &builder.prepare_and_follow(base, steps))
}
