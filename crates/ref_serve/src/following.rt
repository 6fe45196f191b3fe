//! `follow`.
ghost use Rattle.std.specs.Prelude.{◌≡◌, ℕ, ◌++◌, true, option_map, map, None, Ok, Result, IfOk, IfErr, IsErr};
ghost use Rattle.serde_json.specs.View.{view, items_view};
ghost use Rattle.ref_definitions.specs.Fault.{Fault};
ghost use Rattle.ref_definitions.specs.Follow as world;
ghost use Rattle.ref_definitions.specs.Follow.{after_step, followed_from};
ghost use Rattle.ref_error.specs.Errors.{Gives as GivesMeaning, IsFaultOf, SaysFault, is_memory};
ghost use Rattle.ref_resolver.specs.Resolving.{resolver_of as resolver_view, world_of};
ghost use Rattle.referencing.specs.declared.steps.Step.TheVariants.{Enter};
ghost use Rattle.referencing.specs.Following.{step_of, SaysStepFault};
ghost use Rattle.ref_calls.specs.Objects.{object_of};
ghost use Rattle.ref_calls.specs.Outcome.{Answers};
ghost use Rattle.ref_calls.specs.Calls.{each_item};
ghost use Rattle.ref_serve.specs.Following as spec;
ghost use Rattle.ref_serve.specs.Results as results;
ghost use Rattle.ref_calls.specs.Outcome.{Gives};
ghost use Rattle.ref_serve.specs.inner.Seen.{asked_view, answer_at, place_at, started};
ghost use Rattle.ref_serve.specs.inner.Steps.{followed_view, IsPlaced, placed_at, IsLookedUpTo, IsStepError};

use crate::asked::{Asked, Start, asked_of, start_of};
use crate::entering::resolver_object;
use crate::place::{Found, found_at, located_object};
use crate::state::State;
use ref_calls::fault::{Wrong, at_index, fault_members, field_error};
use ref_calls::field::{draft_of, items_in, required};
use ref_calls::members::put_number;
use ref_json::Stop;
use referencing::{Draft, Error, Resolver, ResourceRef, Step};
use serde_json::Value;
use std::alloc::{AllocError, Global};

// Where the steps before led: what was found last, and the resolver there.
#[derive(Drop)]
struct Followed<'s> {
    last: Option<Found<'s>>,
    resolver: Resolver<'s>,
}

// The step that a value is.
fn step_at<'t>(alloc: Global, draft: Draft, value: &'t Value) -> Result<Step<'t>, Stop<Value>>
    ensures { Answers step_of result (spec.step_at draft (view value.now)) }
{
    match value {
        Value::String(text) => Ok(Step::Lookup(text.as_str())),
        Value::Null => Ok(Step::Recursive),
        Value::Object(_) => Ok(Step::Enter(draft.detect(value).create_resource_ref(value))),
        _ => Err(field_error(alloc, Wrong::InvalidField, "steps")),
    }
}

// The step that an item is.
fn step_in<'t>(
    alloc: Global,
    draft: Draft,
    item: &'t Value,
    index: usize,
) -> Result<Step<'t>, Stop<Value>>
    ensures { Answers step_of result (spec.step_in draft index (view item.now)) }
{
    match step_at(alloc, draft, item) {
        Ok(step) => Ok(step),
        Err(stop) => Err(at_index(alloc, stop, index)),
    }
}

// The steps that items are.
fn steps_in<'t>(
    alloc: Global,
    draft: Draft,
    items: &'t [Value],
) -> Result<Vec<Step<'t>>, Stop<Value>>
    ensures { Answers (λ v. map step_of v.items) result
        (each_item (spec.step_in draft) 0 (items_view items.now)) }
{
    let mut steps = Vec::with_capacity(alloc, items.len())?;
    for (index, item) in items.iter().enumerate() {
        let step = step_in(alloc, draft, item, index)?;
        steps.push(step)?;
    }
    Ok(steps)
}

// The steps of a call.
#[tactic(auto, unfolding(crate::specs::Following::steps_of))]
fn steps_of(alloc: Global, draft: Draft, tree: &Value) -> Result<Vec<Step<'_>>, Stop<Value>>
    ensures { Answers (λ v. map step_of v.items) result (spec.steps_of draft (view tree.now)) }
{
    let value = required(alloc, tree, "steps")?;
    let items = items_in(alloc, value, "steps")?;
    steps_in(alloc, draft, items)
}

// A step that looks up.
fn looked_up<'s>(
    alloc: Global,
    resolver: &Resolver<'s>,
    reference: Option<&str>,
) -> Result<Followed<'s>, Error>
    ensures ok { IfOk result
        (λ f. IsLookedUpTo
        (answer_at (world_of resolver.now) (resolver_view resolver.now) (option_map
        (λ r. r.now) reference.entry)) (followed_view f)) }
    ensures placed { IfOk result (λ f. IsPlaced (world_of resolver.now) f) }
    ensures place { IfOk result
        (λ f. place_at (world_of resolver.now) (resolver_view resolver.now) (option_map
        (λ r. r.now) reference.entry) ≡ placed_at f) }
    ensures world { IfOk result (λ f. world_of f.resolver ≡ world_of resolver.now) }
    ensures fault { IfErr result
        (IsFaultOf (answer_at (world_of resolver.now) (resolver_view resolver.now) (option_map
        (λ r. r.now) reference.entry))) }
{
    let (found, resolver) = found_at(alloc, resolver, reference)?;
    Ok(Followed {
        last: Some(found),
        resolver,
    })
}

// Where entering a resource leads.
fn after_entering<'s>(
    alloc: Global,
    followed: Followed<'s>,
    resource: ResourceRef<'_>,
) -> Result<Followed<'s>, Error>
    requires { IsPlaced (world_of followed.resolver) followed }
    ensures gives { GivesMeaning followed_view
        (after_step (world_of followed.entry.resolver) (followed_view followed.entry)
        (step_of (Enter resource.entry))) result }
    ensures placed { IfOk result (λ f. IsPlaced (world_of followed.entry.resolver) f) }
    ensures place { IfOk result
        (λ f. spec.step_place (world_of followed.entry.resolver)
        (resolver_view followed.entry.resolver) (placed_at followed.entry)
        (step_of (Enter resource.entry)) ≡ placed_at f) }
    ensures world { IfOk result (λ f. world_of f.resolver ≡ world_of followed.entry.resolver) }
{
    let resolver = followed.resolver.in_subresource(alloc, resource)?;
    Ok(Followed {
        last: followed.last,
        resolver,
    })
}

// One step further.
fn stepped<'s>(
    alloc: Global,
    followed: Followed<'s>,
    step: &Step<'_>,
) -> Result<Followed<'s>, Error>
    requires { IsPlaced (world_of followed.resolver) followed }
    ensures gives { GivesMeaning followed_view
        (after_step (world_of followed.entry.resolver) (followed_view followed.entry)
        (step_of step.now)) result }
    ensures placed { IfOk result (λ f. IsPlaced (world_of followed.entry.resolver) f) }
    ensures place { IfOk result
        (λ f. spec.step_place (world_of followed.entry.resolver)
        (resolver_view followed.entry.resolver) (placed_at followed.entry) (step_of step.now)
        ≡ placed_at f) }
    ensures world { IfOk result (λ f. world_of f.resolver ≡ world_of followed.entry.resolver) }
{
    match step {
        Step::Lookup(reference) => looked_up(alloc, &followed.resolver, Some(reference)),
        Step::Recursive => looked_up(alloc, &followed.resolver, None),
        Step::Enter(resource) => after_entering(alloc, followed, *resource),
    }
}

// The error of a step.
fn step_error(alloc: Global, number: usize, error: &Error) -> Result<Value, AllocError>
    ensures error { (fault : Fault) → SaysFault error.now fault → IfOk result (λ d. view d
        ≡ object_of (spec.step_members number fault)) }
    ensures memory { is_memory error.now ≡ true → IsErr result }
{
    let mut members = fault_members(alloc, error)?;
    put_number(alloc, &mut members, "step", number)?;
    Ok(Value::Object(members))
}

// Why following ends at a step.
fn step_stop(alloc: Global, number: usize, error: &Error) -> Stop<Value>
    ensures { (whole : Result world.Followed (ℕ × Fault)) → SaysStepFault whole number error.now
        → IsStepError whole result }
{
    match step_error(alloc, number, error) {
        Ok(object) => Stop::Because(object),
        Err(_) => Stop::Memory,
    }
}

// Where the steps lead.
fn all_followed<'s>(
    alloc: Global,
    start: Resolver<'s>,
    steps: &[Step<'_>],
) -> Result<Followed<'s>, Stop<Value>>
    ensures ok { IfOk result
        (λ f. followed_from (world_of start.entry) 0 (spec.start_at (resolver_view start.entry))
        (map step_of steps.now) ≡ Ok (followed_view f)) }
    ensures placed { IfOk result (λ f. IsPlaced (world_of start.entry) f) }
    ensures place { IfOk result
        (λ f. spec.place_after (world_of start.entry) None
        (spec.start_at (resolver_view start.entry)) (map step_of steps.now) ≡ placed_at f) }
    ensures error { IfErr result (IsStepError (followed_from (world_of start.entry) 0 (spec.start_at
        (resolver_view start.entry)) (map step_of steps.now))) }
{
    let mut followed = Followed {
        last: None,
        resolver: start,
    };
    for (number, step) in steps.iter().enumerate() {
        followed = match stepped(alloc, followed, step) {
            Ok(next) => next,
            Err(error) => return Err(step_stop(alloc, number, &error)),
        };
    }
    Ok(followed)
}

// The object of where the steps lead.
fn followed_object(
    alloc: Global,
    asked: &Asked<'_>,
    followed: &Followed<'_>,
) -> Result<Value, AllocError>
    requires { IsPlaced asked.now.registry.now.0 followed.now }
    ensures { IfOk result
        (λ d. spec.IsFollowedTo (asked_view asked.now) (placed_at followed.now)
        (followed_view followed.now).last (resolver_view followed.now.resolver) (view d)) }
{
    match &followed.last {
        Some(found) => located_object(alloc, asked, found, &followed.resolver),
        None => resolver_object(alloc, asked.kept, &followed.resolver),
    }
}

// Where steps lead, one after another.
fn steps_result(
    alloc: Global,
    asked: &Asked<'_>,
    start: Resolver<'_>,
    steps: &[Step<'_>],
) -> Result<Value, Stop<Value>>
    requires { world_of start ≡ asked.now.registry.now.0 }
    ensures { Gives
        (spec.IsFollowedFrom (started asked.now (resolver_view start.entry))
        (map step_of steps.now)) result }
{
    let followed = all_followed(alloc, start, steps)?;
    Ok(followed_object(alloc, asked, &followed)?)
}

/// Where steps lead, one after another.
#[tactic(auto, unfolding(crate::specs::Following::IsFollow))]
pub fn follow(alloc: Global, state: &State, tree: &Value) -> Result<Value, Stop<Value>>
    ensures { Gives (spec.IsFollow state.now (view tree.now)) result }
{
    let asked = asked_of(alloc, state, tree)?;
    let Start { asked, resolver } = start_of(alloc, asked, tree)?;
    let draft = draft_of(alloc, tree)?;
    let steps = steps_of(alloc, draft, tree)?;
    steps_result(alloc, &asked, resolver, steps.as_slice())
}
