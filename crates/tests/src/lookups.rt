//! Where references lead, step by step from a base.
use crate::answers::agreed;
use crate::fault::{Fault, done, made};
use crate::registries::resolver;
use crate::row;
use crate::tables::Asked;
use ref_draft::{Draft, ResourceRef};
use referencing::{FollowError, Followed, Registry, Resolved, Resolver, Step, follow};
use serde_json::Value;
use std::alloc::{AllocError, Global};
use std::fmt;

/// The steps of a row: a reference that is looked up, `*` for a recursive one, or else a schema of 2020-12 that is entered.
fn steps_of<'r>(alloc: Global, values: &'r [Value]) -> Result<Vec<Step<'r>>, AllocError> {
    let mut steps = Vec::new(alloc);
    for value in values {
        let step = match value.as_str() {
            Some("*") => Step::Recursive,
            Some(reference) => Step::Lookup(reference),
            None => Step::Enter(ResourceRef::new(value, Draft::Draft202012)),
        };
        steps.push(step)?;
    }
    Ok(steps)
}

/// The value that was found last, its draft, and the resolver there.
fn shown(alloc: Global, followed: &Followed<'_>) -> Result<String, AllocError> {
    let resolver = &followed.resolver;
    match followed.last {
        Some((value, draft)) => {
            let value = value.to_string(alloc)?;
            format!(in alloc; "{value} {draft:?} {resolver:?}")
        }
        None => format!(in alloc; "{resolver:?}"),
    }
}

/// The number of a step, and the text of its fault.
fn faulted<E: fmt::Display>(alloc: Global, step: usize, error: &E) -> Result<String, Fault> {
    made(format!(in alloc; "{step}: {error}"))
}

/// Where steps led, or the number and the text of a fault.
fn shown_answer(
    alloc: Global,
    answer: &Result<Followed<'_>, FollowError>,
) -> Result<String, Fault> {
    match answer {
        Ok(followed) => made(shown(alloc, followed)),
        Err(ended) => faulted(alloc, ended.step, &ended.error),
    }
}

/// Where steps lead.
fn led_by_steps(
    alloc: Global,
    registry: &Registry<'_>,
    base: &str,
    steps: &[Step<'_>],
) -> Result<String, Fault> {
    let base = row::uri_of(alloc, base)?;
    shown_answer(alloc, &follow(alloc, registry, base, steps))
}

/// Where a look-up leads.
fn found_by<'r>(found: Result<Resolved<'r>, Fault>) -> Result<Followed<'r>, Fault> {
    let (value, resolver, draft) = found?.into_inner();
    let last = Some((value, draft));
    Ok(Followed { last, resolver })
}

/// One step by a call on a resolver: what it leads to, or for one that enters a schema what the step before led to.
fn stepped<'r>(alloc: Global, from: &Followed<'r>, step: &Step<'_>) -> Result<Followed<'r>, Fault> {
    let resolver = &from.resolver;
    match step {
        Step::Lookup(reference) => found_by(done(alloc, resolver.lookup(alloc, reference))),
        Step::Recursive => found_by(done(alloc, resolver.lookup_recursive_ref(alloc))),
        Step::Enter(resource) => {
            let resolver = done(alloc, resolver.in_subresource(alloc, *resource))?;
            Ok(Followed {
                last: from.last,
                resolver,
            })
        }
    }
}

/// The same by calls on resolvers, each on the one that the last call returned.
fn led_by_calls(
    alloc: Global,
    registry: &Registry<'_>,
    base: &str,
    steps: &[Step<'_>],
) -> Result<String, Fault> {
    let mut at = Followed {
        last: None,
        resolver: resolver(alloc, registry, base)?,
    };
    for (number, step) in steps.iter().enumerate() {
        at = match stepped(alloc, &at, step) {
            Ok(next) => next,
            Err(fault) => return faulted(alloc, number, &fault),
        };
    }
    made(shown(alloc, &at))
}

/// Where the steps of a row lead from the base in the column before them, by `follow` and by calls on resolvers.
pub fn led(alloc: Global, registry: &Registry<'_>, row: &Value) -> Result<String, Fault> {
    let base = row::text(row, 4)?;
    let steps = steps_of(alloc, row::list(row, 5)?)?;
    let by_steps = led_by_steps(alloc, registry, base, steps.as_slice())?;
    let by_calls = led_by_calls(alloc, registry, base, steps.as_slice())?;
    agreed(alloc, by_steps, by_calls, ["by steps", "by calls"])
}

/// The debug texts of an answer and of the one to a reference that is looked up from its resolver.
fn both(alloc: Global, first: &Resolved<'_>, second: &str) -> Result<String, Fault> {
    let second = done(alloc, first.resolver().lookup(alloc, second))?;
    made(format!(in alloc; "{first:?} {second:?}"))
}

/// The debug texts of the answers to two references, the second looked up from the resolver of the first one's answer.
fn answered(
    alloc: Global,
    registry: &Registry<'_>,
    base: &str,
    references: [&str; 2],
) -> Result<String, Fault> {
    let [first, second] = references;
    let resolver = resolver(alloc, registry, base)?;
    let first = done(alloc, resolver.lookup(alloc, first))?;
    both(alloc, &first, second)
}

/// The same of a base and the references in a row's columns after those of the registry.
fn answers(alloc: Global, registry: &Registry<'_>, row: &Value) -> Result<String, Fault> {
    let (base, first, second) = (row::text(row, 4)?, row::text(row, 5)?, row::text(row, 6)?);
    answered(alloc, registry, base, [first, second])
}

/// Where the value is that a reference leads to from a resolver, or a recursive one, which is `*`: the layer, the
/// number of the document, and the pointer there.
fn are_at_paths(alloc: Global, resolver: &Resolver<'_>, reference: &str) -> Result<String, Fault> {
    let answer = match reference {
        "*" => resolver.location_recursive(alloc),
        _ => resolver.location(alloc, reference),
    };
    let location = done(alloc, answer)?;
    let pointer = location.pointer(alloc)?;
    let (layer, document) = (location.layer, location.document);
    made(format!(in alloc; "{layer} {document} {pointer}"))
}

/// The same of the reference in a row, and of the resolver to which its steps lead from the base in the column before them.
pub fn is_at_path(alloc: Global, registry: &Registry<'_>, row: &Value) -> Result<String, Fault> {
    let base = row::uri(alloc, row, 4)?;
    let steps = steps_of(alloc, row::list(row, 5)?)?;
    match follow(alloc, registry, base, steps.as_slice()) {
        Ok(followed) => are_at_paths(alloc, &followed.resolver, row::text(row, 6)?),
        Err(_) => Err(Fault::Form("a step finds no value")),
    }
}

/// The base of a resolver, and after it the URIs of its scope, the innermost first.
fn base_and_scope(alloc: Global, resolver: &Resolver<'_>) -> Result<String, AllocError> {
    let mut text = String::from_str(alloc, resolver.base_uri().as_str())?;
    for uri in resolver.dynamic_scope() {
        text.push(' ')?;
        text.push_str(uri.as_str())?;
    }
    Ok(text)
}

/// The same of the resolver to which the steps of a row lead from the base in the column before them.
fn scoped(alloc: Global, registry: &Registry<'_>, row: &Value) -> Result<String, Fault> {
    let base = row::uri(alloc, row, 4)?;
    let steps = steps_of(alloc, row::list(row, 5)?)?;
    match follow(alloc, registry, base, steps.as_slice()) {
        Ok(followed) => made(base_and_scope(alloc, &followed.resolver)),
        Err(_) => Err(Fault::Form("a step finds no value")),
    }
}

/// What is found of a registry by a row of a table on look-ups.
pub fn found(asked: Asked<'_, '_>) -> Result<String, Fault> {
    let (alloc, registry, row) = (asked.alloc, asked.registry, asked.row);
    match asked.table {
        "answers" => answers(alloc, registry, row),
        "lookups" => led(alloc, registry, row),
        "scopes" => scoped(alloc, registry, row),
        "locations" => is_at_path(alloc, registry, row),
        _ => Err(Fault::Form("no such table")),
    }
}
