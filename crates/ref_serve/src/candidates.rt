//! Where dynamic references may lead by the dynamic scope.
ghost use Rattle.std.specs.Prelude.{◌≡◌, ◌∷◌, ◌++◌, [], map, option_map, IfOk, OnOk};
ghost use Rattle.serde_json.specs.View.{view, members_view};
ghost use Rattle.ref_draft.specs.Views.{anchor_name};
ghost use Rattle.ref_definitions.specs.Lookup.{lookup};
ghost use Rattle.ref_definitions.specs.Recursive.{is_marked as marked};
ghost use Rattle.ref_index.specs.Listing.{listed_of};
ghost use Rattle.ref_resolver.specs.Resolving.{resolver_of as resolver_view, world_of};
ghost use Rattle.ref_calls.specs.Objects.{list_of, with_all};
ghost use Rattle.ref_serve.specs.Candidates as spec;
ghost use Rattle.ref_serve.specs.inner.Referred.{choice_seen};

use crate::place::{found_at, put_site};
use ref_calls::members::Members;
use ref_draft::{Anchor, AnchorIter};
use ref_uri::parts::parts;
use referencing::{Draft, Place, Resolver};
use serde_json::{Map, Value, put};
use std::alloc::{AllocError, Global};

// By what a dynamic reference chooses by the scope.
#[derive(Clone, Copy, Drop)]
enum Choice<'t> {
    // The name of a dynamic anchor.
    Named(&'t str),
    // `$recursiveAnchor`.
    Recursive,
}

// Whether an anchor is the dynamic one with a name.
fn is_named(anchor: &Anchor<'_>, name: &str) -> bool
    ensures { result ≡ spec.is_dynamic_anchor name.now (anchor_name anchor.now) }
{
    match anchor {
        Anchor::Default { .. } => false,
        Anchor::Dynamic { name: own, .. } => *own == name,
    }
}

// Whether a value has it.
fn has_dynamic(draft: Draft, value: &Value, name: &str) -> bool
    ensures { result ≡ spec.has_dynamic name.now draft (view value.now) }
{
    match draft.anchors(value) {
        AnchorIter::Empty => false,
        AnchorIter::One(anchor) => is_named(&anchor, name),
        AnchorIter::Two(first, second) => is_named(&first, name) || is_named(&second, name),
    }
}

// Whether a value is an object whose `$recursiveAnchor` is true.
fn is_marked(value: &Value) -> bool
    ensures { result ≡ marked (view value.now) }
{
    match value.get("$recursiveAnchor") {
        Some(mark) => mark.as_bool() == Some(true),
        None => false,
    }
}

// Whether a place is the root of a resource.
fn is_root(place: &Place<'_>) -> bool
    ensures { result ≡ spec.is_root (listed_of place.now) }
{
    place.path.is_empty() || place.draft.create_resource_ref(place.value).id().is_some()
}

// Whether a place may be chosen.
fn is_candidate(choice: Choice<'_>, place: &Place<'_>) -> bool
    ensures { result ≡ spec.is_candidate (choice_seen choice.entry) (listed_of place.now) }
{
    match choice {
        Choice::Named(name) => has_dynamic(place.draft, place.value, name),
        Choice::Recursive => is_root(place) && is_marked(place.value),
    }
}

// By what a reference under a keyword, whose text leads to a value, chooses.
fn choice_of<'t>(keyword: &str, text: &'t str, draft: Draft, value: &Value) -> Option<Choice<'t>>
    ensures { option_map choice_seen result
        ≡ spec.choice_of keyword.now text.now draft (view value.now) }
{
    if keyword == "$dynamicRef" {
        return named_choice(parts(text).1, draft, value);
    }
    if keyword == "$recursiveRef" && is_marked(value) {
        Some(Choice::Recursive)
    } else {
        None
    }
}

// By a name, where it is no JSON Pointer, and a dynamic anchor of the value.
fn named_choice<'t>(name: &'t str, draft: Draft, value: &Value) -> Option<Choice<'t>>
    ensures { option_map choice_seen result ≡ spec.named_choice name.now draft (view value.now) }
{
    if name.is_empty() || name.starts_with('/') {
        return None;
    }
    if has_dynamic(draft, value, name) {
        Some(Choice::Named(name))
    } else {
        None
    }
}

// By what a reference chooses, from a resolver.
fn choice_at<'t>(
    alloc: Global,
    resolver: &Resolver<'_>,
    keyword: &str,
    text: &'t str,
) -> Result<Option<Choice<'t>>, AllocError>
    ensures { IfOk result
        (λ choice. option_map choice_seen choice
        ≡ spec.choice_at keyword.now text.now
        (lookup (world_of resolver.now) (resolver_view resolver.now) text.now)) }
{
    if keyword == "$ref" {
        return Ok(None);
    }
    match found_at(alloc, resolver, Some(text)) {
        Ok((found, _next)) => Ok(choice_of(keyword, text, found.draft, found.value)),
        Err(error) => {
            if error.is_memory() {
                Err(AllocError)
            } else {
                Ok(None)
            }
        }
    }
}

// Adds the object of a place, where it may be chosen.
fn push_candidate(
    alloc: Global,
    list: &mut Vec<Value>,
    choice: Choice<'_>,
    place: &Place<'_>,
) -> Result<(), AllocError>
    ensures { OnOk result
        (map view list.new.items
        ≡ map view list.old.items
        ++ spec.candidates (choice_seen choice.entry) (listed_of place.now ∷ [])) }
{
    if !is_candidate(choice, place) {
        return Ok(());
    }
    let mut members = Map::new(alloc);
    put_site(alloc, &mut members, place.document, place.path.as_slice())?;
    list.push(Value::Object(members))?;
    Ok(())
}

// The list of those that may be chosen.
fn candidate_list(
    alloc: Global,
    choice: Choice<'_>,
    places: &[Place<'_>],
) -> Result<Value, AllocError>
    ensures { IfOk result
        (λ d. view d
        ≡ list_of (spec.candidates (choice_seen choice.entry) (map listed_of places.now))) }
{
    let mut list = Vec::new(alloc);
    for place in places {
        push_candidate(alloc, &mut list, choice, place)?;
    }
    Ok(Value::Array(list))
}

/// Puts the candidates of a reference from a resolver, where it is dynamic. It asks each place.
pub fn put_candidates(
    alloc: Global,
    members: &mut Members,
    places: &[Place<'_>],
    resolver: &Resolver<'_>,
    keyword: &str,
    text: &str,
) -> Result<(), AllocError>
    ensures { OnOk result (members_view members.new.entries
        ≡ with_all
        (spec.candidate_members (map listed_of places.now)
        (spec.choice_at keyword.now text.now
        (lookup (world_of resolver.now) (resolver_view resolver.now) text.now)))
        (members_view members.old.entries)) }
{
    let Some(choice) = choice_at(alloc, resolver, keyword, text)? else {
        return Ok(());
    };
    let list = candidate_list(alloc, choice, places)?;
    put(members, alloc, "candidates", list)
}
