//! The registry that a call asks.
ghost use Rattle.std.specs.Prelude.{◌≡◌, codes};
ghost use Rattle.serde_json.specs.View.{view};
ghost use Rattle.ref_calls.specs.Outcome.{Answers};
ghost use Rattle.ref_serve.specs.State as spec;

use crate::state::{Open, State};
use ref_calls::fault::{Wrong, field_error};
use ref_calls::field::{number_in, required};
use ref_json::Stop;
use serde_json::Value;
use std::alloc::Global;

/// The number that a member is, and the open registry that has it.
pub fn registry_in<'s>(
    alloc: Global,
    state: &'s State,
    value: &Value,
    field: &str,
) -> Result<(usize, &'s Open), Stop<Value>>
    ensures { Answers (λ r. (r.0, r.1.now)) result
        (spec.registry_in state.now field.now (view value.now)) }
{
    let number = number_in(alloc, value, field)?;
    match state.open(number) {
        Some(open) => Ok((number, open)),
        None => Err(field_error(alloc, Wrong::UnknownRegistry, field)),
    }
}

/// The open registry whose number is under a member, which is needed.
#[tactic(auto, unfolding(crate::specs::State::registry_under))]
pub fn registry_under<'s>(
    alloc: Global,
    state: &'s State,
    tree: &Value,
    field: &str,
) -> Result<(usize, &'s Open), Stop<Value>>
    ensures { Answers (λ r. (r.0, r.1.now)) result
        (spec.registry_under state.now (view tree.now) field.now) }
{
    let value = required(alloc, tree, field)?;
    registry_in(alloc, state, value, field)
}

/// The open registry that is asked.
pub fn registry_of<'s>(
    alloc: Global,
    state: &'s State,
    tree: &Value,
) -> Result<(usize, &'s Open), Stop<Value>>
    ensures { Answers (λ r. (r.0, r.1.now)) result
        (spec.registry_under state.now (view tree.now) (codes "registry")) }
{
    registry_under(alloc, state, tree, "registry")
}

/// The number of the registry of a layer, of an open registry with a number: 0 is that itself, and its parents follow, nearest
/// first.
pub fn layer_number(number: usize, open: &Open, layer: usize) -> usize
    ensures { result ≡ spec.layer_number number open.now.1 layer }
{
    if layer == 0 {
        return number;
    }
    match open.parents().get(layer - 1) {
        Some(parent) => *parent,
        None => number,
    }
}
