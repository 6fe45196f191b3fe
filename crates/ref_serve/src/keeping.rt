//! `scope`.
ghost use Rattle.std.specs.Prelude.{◌≡◌, length, IfOk};
ghost use Rattle.serde_json.specs.View.{view};
ghost use Rattle.ref_calls.specs.Outcome.{Answers};
ghost use Rattle.ref_serve.specs.Results as results;
ghost use Rattle.ref_serve.specs.State as spec;

use crate::registry::registry_of;
use crate::state::State;
use ref_calls::field::required;
use ref_calls::members::object_of;
use ref_calls::scope::scope_in;
use ref_json::Stop;
use ref_parts::list::List;
use ref_uri::Uri;
use serde_json::Value;
use std::alloc::{AllocError, Global};

/// The registry for which a scope is kept, by its number, and the scope.
#[derive(Drop)]
pub struct Keeping {
    pub number: usize,
    pub uris: List<Uri>,
}

/// What a call asks to keep. A scope that ends with a kept one shares that.
#[tactic(auto, unfolding(crate::specs::Results::keeping_of))]
pub fn keeping_of(alloc: Global, state: &State, tree: &Value) -> Result<Keeping, Stop<Value>>
    ensures { Answers (λ k. (k.number, k.uris)) result
        (results.keeping_of state.now (view tree.now)) }
{
    let (number, _open) = registry_of(alloc, state, tree)?;
    let value = required(alloc, tree, "scope")?;
    let scope = scope_in(alloc, state.scopes(number), value)?;
    Ok(Keeping {
        number,
        uris: scope.uris,
    })
}

/// The object of the number that the next scope of a registry gets.
pub fn kept_object(alloc: Global, state: &State, number: usize) -> Result<Value, AllocError>
    ensures { IfOk result
        (λ d. view d ≡ results.kept_object (length (spec.scopes_at state.now number))) }
{
    object_of(alloc, "scope", Value::from(state.scopes(number).len()))
}
