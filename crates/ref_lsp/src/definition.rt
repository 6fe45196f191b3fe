//! Where the reference at a place leads.
use crate::asked::{Target, asked_place, target_of};
use crate::desk::Desk;
use ref_error::Error;
use ref_protocol::pieces::push_location;
use ref_protocol::refusal::Refusal;
use ref_workspace::View;
use ref_workspace::follow::{Found, Outcome, Start};
use serde_json::Value;
use std::alloc::{AllocError, Global};

/// What a reference leads to, where it leads to a value. Fails only if out of memory.
pub fn followed<'w>(
    alloc: Global,
    view: &View<'w, '_>,
    start: Start<'_>,
    reference: &str,
) -> Result<Option<Found<'w>>, AllocError> {
    followed_in(view.led(alloc, start, reference))
}

fn followed_in<'w>(outcome: Result<Outcome<'w>, Error>) -> Result<Option<Found<'w>>, AllocError> {
    match outcome {
        Ok(Outcome::Found(found)) => Ok(Some(found)),
        Ok(other) => {
            drop(other);
            Ok(None)
        }
        Err(error) => {
            let is_memory = error.is_memory();
            drop(error);
            if is_memory { Err(AllocError) } else { Ok(None) }
        }
    }
}

/// The number of the document that was found.
pub fn number_of(view: &View<'_, '_>, found: &Found<'_>) -> Option<usize> {
    view.world.sources.get(found.document).copied()
}

/// `textDocument/definition`: the place that the reference at a place leads to, or `null`.
pub fn definition(desk: &Desk<'_>, view: &View<'_, '_>, params: &Value) -> Result<String, Refusal> {
    let alloc = desk.alloc();
    let mut out = String::new(alloc);
    match defined(desk, view, params)? {
        Some(target) => push_location(alloc, &mut out, target.uri.as_str(), target.name)?,
        None => out.push_str("null")?,
    }
    Ok(out)
}

fn defined(
    desk: &Desk<'_>,
    view: &View<'_, '_>,
    params: &Value,
) -> Result<Option<Target>, Refusal> {
    let Some(asked) = asked_place(desk, params)? else {
        return Ok(None);
    };
    let Some(reference) = asked.reference(desk)? else {
        return Ok(None);
    };
    let start = Start {
        number: asked.number,
        pointer: asked.pointer.as_str(),
    };
    let Some(found) = followed(desk.alloc(), view, start, reference.as_str())? else {
        return Ok(None);
    };
    match number_of(view, &found) {
        Some(number) => Ok(target_of(desk, number, found.pointer.as_str())?),
        None => Ok(None),
    }
}
