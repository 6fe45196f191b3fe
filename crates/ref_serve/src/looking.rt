//! `lookup` and `recursive`.
ghost use Rattle.std.specs.Prelude.{◌≡◌, Ok, IfOk, IfErr, Option, option_map};
ghost use Rattle.serde_json.specs.Find.{as_str, as_array};
ghost use Rattle.serde_json.specs.View.{view, items_view};
ghost use Rattle.ref_error.specs.Errors.{IsFaultOf};
ghost use Rattle.ref_resolver.specs.Resolving.{resolver_of as resolver_view, world_of};
ghost use Rattle.ref_calls.specs.Calls.{each_item};
ghost use Rattle.ref_calls.specs.Outcome.{Answers};
ghost use Rattle.ref_serve.specs.Results as results;
ghost use Rattle.ref_serve.specs.Results.{Then};
ghost use Rattle.ref_calls.specs.Outcome.{Gives};
ghost use Rattle.ref_serve.specs.inner.Giving.{IsListedAs};
ghost use Rattle.ref_serve.specs.inner.Seen.{asked_view, answer_at, place_at, started, start_view};

use crate::asked::{Asked, Start, asked_of, start_from, start_of};
use crate::place::{found_at, located_object};
use crate::state::State;
use ref_calls::fault::{Wrong, at_index, fault_error, field_error};
use ref_calls::field::{items_in, required, text_in, uri_at};
use ref_calls::members::object_of;
use ref_calls::scope::scope_in;
use ref_json::Stop;
use referencing::{Error, Resolver};
use serde_json::Value;
use std::alloc::{AllocError, Global};

// What a reference means, as an object.
fn found_object(
    alloc: Global,
    asked: &Asked<'_>,
    resolver: &Resolver<'_>,
    reference: Option<&str>,
) -> Result<Value, Error>
    requires { world_of resolver.now ≡ asked.now.registry.now.0 }
    ensures ok { IfOk result
        (λ d. results.IsFound (asked_view asked.now)
        (place_at asked.now.registry.now.0 (resolver_view resolver.now)
        (option_map (λ r. r.now) reference.entry))
        (answer_at asked.now.registry.now.0 (resolver_view resolver.now)
        (option_map (λ r. r.now) reference.entry)) (Ok (view d))) }
    ensures fault { IfErr result
        (IsFaultOf (answer_at asked.now.registry.now.0 (resolver_view resolver.now) (option_map
        (λ r. r.now) reference.entry))) }
{
    let (found, next) = found_at(alloc, resolver, reference)?;
    Ok(located_object(alloc, asked, &found, &next)?)
}

// The same, or the error of its fault.
pub fn found_or_stop(
    alloc: Global,
    asked: &Asked<'_>,
    resolver: &Resolver<'_>,
    reference: Option<&str>,
) -> Result<Value, Stop<Value>>
    requires { world_of resolver.now ≡ asked.now.registry.now.0 }
    ensures { Gives
        (results.IsFound (asked_view asked.now)
        (place_at asked.now.registry.now.0 (resolver_view resolver.now)
        (option_map (λ r. r.now) reference.entry))
        (answer_at asked.now.registry.now.0 (resolver_view resolver.now)
        (option_map (λ r. r.now) reference.entry))) result }
{
    match found_object(alloc, asked, resolver, reference) {
        Ok(object) => Ok(object),
        Err(error) => Err(fault_error(alloc, &error)),
    }
}

// The three items of a list.
fn three_of(items: &[Value]) -> Option<(&Value, &Value, &Value)>
    ensures { option_map (λ t. (view t.0.now, view t.1.now, view t.2.now)) result
        ≡ results.three_of (items_view items.now) }
{
    let (first, rest) = items.split_first()?;
    let (second, rest) = rest.split_first()?;
    let (third, rest) = rest.split_first()?;
    match rest.split_first() {
        None => Some((first, second, third)),
        Some(_) => None,
    }
}

// What is asked by a base, a scope and a text.
fn question_from<'s, 't>(
    alloc: Global,
    asked: Asked<'s>,
    base: &Value,
    scope: &Value,
    text: &'t Value,
) -> Result<(Start<'s>, &'t str), Stop<Value>>
    ensures question { Answers (λ q. (start_view q.0, q.1.now)) result
        (results.question_of (asked_view asked.entry)
        (view base.now, view scope.now, view text.now)) }
    ensures world { IfOk result (λ q. world_of q.0.resolver ≡ q.0.asked.registry.now.0) }
{
    let base = uri_at(alloc, base, "base")?;
    let scope = scope_in(alloc, asked.scopes, scope)?;
    let text = text_in(alloc, text, "reference")?;
    let start = start_from(alloc, asked, base, scope)?;
    Ok((start, text))
}

// What the items of a list ask.
fn question_of<'s, 't>(
    alloc: Global,
    asked: Asked<'s>,
    items: &'t [Value],
) -> Result<(Start<'s>, &'t str), Stop<Value>>
    ensures question { Answers (λ q. (start_view q.0, q.1.now)) result
        (results.three_asked (asked_view asked.entry) (items_view items.now)) }
    ensures world { IfOk result (λ q. world_of q.0.resolver ≡ q.0.asked.registry.now.0) }
{
    match three_of(items) {
        Some((base, scope, text)) => question_from(alloc, asked, base, scope, text),
        None => Err(field_error(alloc, Wrong::InvalidField, "reference")),
    }
}

// What a reference means, or an object with its error.
fn found_listed(
    alloc: Global,
    asked: &Asked<'_>,
    resolver: &Resolver<'_>,
    reference: &str,
) -> Result<Value, AllocError>
    requires { world_of resolver.now ≡ asked.now.registry.now.0 }
    ensures { IfOk result
        (λ d. results.IsListed (started asked.now (resolver_view resolver.now), reference.now)
        (view d)) }
{
    match found_or_stop(alloc, asked, resolver, Some(reference)) {
        Ok(object) => Ok(object),
        Err(Stop::Because(error)) => object_of(alloc, "error", error),
        Err(Stop::Memory) => Err(AllocError),
    }
}

// What an item asks: of a text from a resolver, of a list from its own.
fn found_as(
    alloc: Global,
    asked: &Asked<'_>,
    resolver: &Resolver<'_>,
    item: &Value,
) -> Result<Value, Stop<Value>>
    requires { world_of resolver.now ≡ asked.now.registry.now.0 }
    ensures { Gives
        (Then
        (results.question_as (started asked.now (resolver_view resolver.now))
        (as_str (view item.now)) (as_array (view item.now))) IsListedAs) result }
{
    if let Some(text) = item.as_str() {
        return Ok(found_listed(alloc, asked, resolver, text)?);
    }
    let items = items_in(alloc, item, "reference")?;
    let (own, text) = question_of(alloc, *asked, items)?;
    Ok(found_listed(alloc, &own.asked, &own.resolver, text)?)
}

// The same, with the number of the item where it asks nothing.
fn found_item(
    alloc: Global,
    asked: &Asked<'_>,
    resolver: &Resolver<'_>,
    item: &Value,
    index: usize,
) -> Result<Value, Stop<Value>>
    requires { world_of resolver.now ≡ asked.now.registry.now.0 }
    ensures { Gives
        (Then
        (results.question_in (started asked.now (resolver_view resolver.now)) index
        (view item.now)) IsListedAs) result }
{
    match found_as(alloc, asked, resolver, item) {
        Ok(object) => Ok(object),
        Err(stop) => Err(at_index(alloc, stop, index)),
    }
}

// Each item of a list, in order.
fn found_items(
    alloc: Global,
    asked: &Asked<'_>,
    resolver: &Resolver<'_>,
    items: &[Value],
) -> Result<Value, Stop<Value>>
    requires { world_of resolver.now ≡ asked.now.registry.now.0 }
    ensures { Gives
        (Then
        (each_item (results.question_in (started asked.now (resolver_view resolver.now))) 0
        (items_view items.now)) results.IsList) result }
{
    let mut list = Vec::with_capacity(alloc, items.len())?;
    for (index, item) in items.iter().enumerate() {
        let object = found_item(alloc, asked, resolver, item, index)?;
        list.push(object)?;
    }
    Ok(Value::Array(list))
}

// What a reference means, or each of a list.
#[tactic(auto, unfolding(crate::specs::Results::IsLookedUp))]
fn referred(
    alloc: Global,
    asked: &Asked<'_>,
    resolver: &Resolver<'_>,
    reference: &Value,
) -> Result<Value, Stop<Value>>
    requires { world_of resolver.now ≡ asked.now.registry.now.0 }
    ensures { Gives
        (results.IsReference (started asked.now (resolver_view resolver.now))
        (view reference.now)) result }
{
    if let Some(text) = reference.as_str() {
        return found_or_stop(alloc, asked, resolver, Some(text));
    }
    match reference.as_array() {
        Some(items) => found_items(alloc, asked, resolver, items.as_slice()),
        None => Err(field_error(alloc, Wrong::InvalidField, "reference")),
    }
}

/// What references mean.
#[tactic(auto, unfolding(crate::specs::Results::IsLookup))]
pub fn lookup(alloc: Global, state: &State, tree: &Value) -> Result<Value, Stop<Value>>
    ensures { Gives (results.IsLookup state.now (view tree.now)) result }
{
    let asked = asked_of(alloc, state, tree)?;
    let start = start_of(alloc, asked, tree)?;
    let reference = required(alloc, tree, "reference")?;
    referred(alloc, &start.asked, &start.resolver, reference)
}

/// What a recursive reference means.
#[tactic(auto, unfolding(crate::specs::Results::IsRecursiveCall))]
pub fn recursive(alloc: Global, state: &State, tree: &Value) -> Result<Value, Stop<Value>>
    ensures { Gives (results.IsRecursiveCall state.now (view tree.now)) result }
{
    let asked = asked_of(alloc, state, tree)?;
    let start = start_of(alloc, asked, tree)?;
    found_or_stop(alloc, &start.asked, &start.resolver, None)
}
