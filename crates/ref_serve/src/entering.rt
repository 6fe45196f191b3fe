//! `enter`.
ghost use Rattle.std.specs.Prelude.{◌≡◌, option_map, IfOk};
ghost use Rattle.serde_json.specs.View.{view};
ghost use Rattle.ref_draft.specs.Schema.{detect};
ghost use Rattle.ref_definitions.specs.Fault.{as_invalid_uri};
ghost use Rattle.ref_definitions.specs.Lookup.{in_subresource};
ghost use Rattle.ref_error.specs.Errors.{Gives};
ghost use Rattle.ref_resolver.specs.Resolving.{resolver_of as resolver_view, world_of};
ghost use Rattle.ref_calls.specs.Given.{kept_of};
ghost use Rattle.ref_calls.specs.Objects.{object_of};
ghost use Rattle.ref_calls.specs.Outcome.{Answers};
ghost use Rattle.ref_serve.specs.Results as results;

use crate::asked::{asked_of, start_of};
use crate::place::put_resolver;
use crate::state::State;
use ref_calls::fault::fault_error;
use ref_calls::field::{draft_of, schema_of};
use ref_calls::scope::Kept;
use ref_json::Stop;
use referencing::{Draft, Error, Resolver};
use serde_json::{Map, Value};
use std::alloc::{AllocError, Global};

/// The resolver inside of a schema, whose draft is detected.
pub fn entered<'s>(
    alloc: Global,
    resolver: &Resolver<'s>,
    draft: Draft,
    schema: &Value,
) -> Result<Resolver<'s>, Error>
    ensures gives { Gives resolver_view
        (as_invalid_uri (in_subresource (resolver_view resolver.now)
        (detect draft (view schema.now)) (view schema.now))) result }
    ensures world { IfOk result (λ r. world_of r ≡ world_of resolver.now) }
{
    let resource = draft.detect(schema).create_resource_ref(schema);
    resolver.in_subresource(alloc, resource)
}

/// The object with the base and the dynamic scope, of which a kept one may be the end.
pub fn resolver_object(
    alloc: Global,
    kept: Option<Kept<'_>>,
    resolver: &Resolver<'_>,
) -> Result<Value, AllocError>
    ensures { IfOk result
        (λ d. view d
        ≡ object_of
        (results.resolver_members (option_map kept_of kept.entry) (resolver_view resolver.now))) }
{
    let mut members = Map::new(alloc);
    put_resolver(alloc, &mut members, kept, resolver)?;
    Ok(Value::Object(members))
}

/// The base and the dynamic scope inside of a schema.
#[tactic(auto, unfolding(crate::specs::Results::enter_result))]
pub fn enter(alloc: Global, state: &State, tree: &Value) -> Result<Value, Stop<Value>>
    ensures { Answers view result (results.enter_result state.now (view tree.now)) }
{
    let asked = asked_of(alloc, state, tree)?;
    let start = start_of(alloc, asked, tree)?;
    let schema = schema_of(alloc, tree)?;
    let draft = draft_of(alloc, tree)?;
    match entered(alloc, &start.resolver, draft, schema) {
        Ok(resolver) => Ok(resolver_object(alloc, start.asked.kept, &resolver)?),
        Err(error) => Err(fault_error(alloc, &error)),
    }
}
