//! `references`.
ghost use Rattle.std.specs.Prelude.{◌≡◌, ◌∷◌, [], codes, filter, flat_map, Ok, IfOk, OnOk, option_map};
ghost use Rattle.std.specs.Option.{option_to_list};
ghost use Rattle.serde_json.specs.Find.{get};
ghost use Rattle.serde_json.specs.View.{view, members_view};
ghost use Rattle.ref_findings.specs.Places.{dynamic_keyword};
ghost use Rattle.ref_index.specs.Listing.{listed_of};
ghost use Rattle.ref_resolver.specs.Resolving.{resolver_of as resolver_view, world_of};
ghost use Rattle.ref_calls.specs.Objects.{with_all};
ghost use Rattle.ref_calls.specs.Outcome.{Answers};
ghost use Rattle.ref_serve.specs.References as spec;
ghost use Rattle.ref_calls.specs.Outcome.{Gives};
ghost use Rattle.ref_serve.specs.inner.Referred.{Adds, ArePlaces, IsTarget, reference_of};
ghost use Rattle.ref_serve.specs.inner.Seen.{asked_view};

use crate::asked::{Asked, asked_of};
use crate::candidates::put_candidates;
use crate::looking::found_or_stop;
use crate::place::put_site;
use crate::state::State;
use ref_calls::field::{is_set, number_in};
use ref_calls::members::{Members, put_text};
use ref_index::meanings::text_under;
use ref_json::Stop;
use ref_parts::list::List;
use referencing::{Draft, Place, Resolver};
use serde_json::{Map, Value, put};
use std::alloc::{AllocError, Global};

// A reference: the place that has it, its keyword, and its text.
#[derive(Clone, Copy, Drop)]
struct Reference<'r, 'p> {
    place: &'r Place<'p>,
    keyword: &'static str,
    text: &'r str,
}

// The keyword that a draft has for dynamic references.
fn dynamic_keyword(draft: Draft) -> Option<&'static str>
    ensures { option_map (λ k. k.now) result ≡ dynamic_keyword draft }
{
    match draft {
        Draft::Draft4 | Draft::Draft6 | Draft::Draft7 => None,
        Draft::Draft201909 => Some("$recursiveRef"),
        Draft::Draft202012 | Draft::Unknown => Some("$dynamicRef"),
    }
}

// The object of a reference.
fn reference_object(
    alloc: Global,
    asked: &Asked<'_>,
    places: &[Place<'_>],
    reference: Reference<'_, '_>,
) -> Result<Value, AllocError>
    requires { ArePlaces asked.now.registry.now.0 places.now }
    ensures { IfOk result
        (λ d. spec.IsReferred (asked_view asked.now) (reference_of reference.entry) (view d)) }
{
    let Reference {
        place,
        keyword,
        text,
    } = reference;
    let mut members = Map::new(alloc);
    put_site(alloc, &mut members, place.document, place.path.as_slice())?;
    put_text(alloc, &mut members, "keyword", keyword)?;
    put_text(alloc, &mut members, "reference", text)?;
    let resolver = resolver_at(alloc, asked, place)?;
    let (key, target) = target_of(alloc, asked, &resolver, text)?;
    put(&mut members, alloc, key, target)?;
    put_asked(alloc, &mut members, asked, places, &resolver, reference)?;
    Ok(Value::Object(members))
}

// Puts the candidates of a reference, where they are asked for.
fn put_asked(
    alloc: Global,
    members: &mut Members,
    asked: &Asked<'_>,
    places: &[Place<'_>],
    resolver: &Resolver<'_>,
    reference: Reference<'_, '_>,
) -> Result<(), AllocError>
    requires world { world_of resolver.now ≡ asked.now.registry.now.0 }
    requires resolver { resolver_view resolver.now
        ≡ spec.referring_resolver (reference_of reference) }
    requires places { ArePlaces asked.now.registry.now.0 places.now }
    ensures { OnOk result (members_view members.new.entries
        ≡ with_all (spec.asked_candidates (asked_view asked.now) (reference_of reference.entry))
        (members_view members.old.entries)) }
{
    if !asked.candidates {
        return Ok(());
    }
    put_candidates(
        alloc,
        members,
        places,
        resolver,
        reference.keyword,
        reference.text,
    )
}

// The resolver at a place, with an empty dynamic scope.
fn resolver_at<'s>(
    alloc: Global,
    asked: &Asked<'s>,
    place: &Place<'_>,
) -> Result<Resolver<'s>, AllocError>
    ensures resolver { IfOk result
        (λ r. resolver_view r ≡ record { base = place.now.base.value; scope = [] }) }
    ensures world { IfOk result (λ r. world_of r ≡ asked.now.registry.now.0) }
{
    let base = place.base.clone()?;
    let registry = asked.registry.registry();
    Ok(registry.resolver_from_parts(base, List::new()))
}

// What a text means from a resolver, under `target`, or the error of its fault, under `error`.
fn target_of(
    alloc: Global,
    asked: &Asked<'_>,
    resolver: &Resolver<'_>,
    text: &str,
) -> Result<(&'static str, Value), AllocError>
    requires { world_of resolver.now ≡ asked.now.registry.now.0 }
    ensures { IfOk result
        (λ t. IsTarget (asked_view asked.now) (resolver_view resolver.now) text.now
        (t.0.now, view t.1)) }
{
    match found_or_stop(alloc, asked, resolver, Some(text)) {
        Ok(target) => Ok(("target", target)),
        Err(Stop::Because(error)) => Ok(("error", error)),
        Err(Stop::Memory) => Err(AllocError),
    }
}

// Adds the object of the reference under a keyword of a place, where there is one.
fn push_reference(
    alloc: Global,
    asked: &Asked<'_>,
    places: &[Place<'_>],
    list: &mut Vec<Value>,
    place: &Place<'_>,
    keyword: &'static str,
) -> Result<(), AllocError>
    requires { ArePlaces asked.now.registry.now.0 places.now }
    ensures { OnOk result
        (Adds (asked_view asked.now)
        (spec.reference_under (listed_of place.now) place.now.base.value keyword.now)
        list.old.items list.new.items) }
{
    let Some(text) = text_under(place.value, keyword) else {
        return Ok(());
    };
    let reference = Reference {
        place,
        keyword,
        text,
    };
    let object = reference_object(alloc, asked, places, reference)?;
    list.push(object)?;
    Ok(())
}

// Adds that under the keyword that a draft has for dynamic references.
fn push_dynamic(
    alloc: Global,
    asked: &Asked<'_>,
    places: &[Place<'_>],
    list: &mut Vec<Value>,
    place: &Place<'_>,
) -> Result<(), AllocError>
    requires { ArePlaces asked.now.registry.now.0 places.now }
    ensures { OnOk result
        (Adds (asked_view asked.now)
        (flat_map (spec.reference_under (listed_of place.now) place.now.base.value)
        (option_to_list (dynamic_keyword place.now.draft))) list.old.items list.new.items) }
{
    match dynamic_keyword(place.draft) {
        Some(keyword) => push_reference(alloc, asked, places, list, place, keyword),
        None => Ok(()),
    }
}

// Adds those of a place.
fn push_place(
    alloc: Global,
    asked: &Asked<'_>,
    places: &[Place<'_>],
    list: &mut Vec<Value>,
    place: &Place<'_>,
) -> Result<(), AllocError>
    requires { ArePlaces asked.now.registry.now.0 places.now }
    ensures { OnOk result
        (Adds (asked_view asked.now) (spec.references_at (listed_of place.now)) list.old.items
        list.new.items) }
{
    push_reference(alloc, asked, places, list, place, "$ref")?;
    push_dynamic(alloc, asked, places, list, place)
}

// Whether a place is in the document that is asked for.
fn is_in(document: Option<usize>, place: &Place<'_>) -> bool
    ensures { result ≡ spec.is_in document (listed_of place.now) }
{
    match document {
        Some(number) => place.document == number,
        None => true,
    }
}

// Adds those of a place, where it is in the document that is asked for.
fn push_asked(
    alloc: Global,
    asked: &Asked<'_>,
    places: &[Place<'_>],
    document: Option<usize>,
    list: &mut Vec<Value>,
    place: &Place<'_>,
) -> Result<(), AllocError>
    requires { ArePlaces asked.now.registry.now.0 places.now }
    ensures { OnOk result
        (Adds (asked_view asked.now)
        (flat_map spec.references_at
        (filter (spec.is_in document) (listed_of place.now ∷ []))) list.old.items
        list.new.items) }
{
    if !is_in(document, place) {
        return Ok(());
    }
    push_place(alloc, asked, places, list, place)
}

// The list of the references of a registry, or of one of its documents.
fn references_in(
    alloc: Global,
    asked: &Asked<'_>,
    document: Option<usize>,
) -> Result<Value, AllocError>
    ensures { IfOk result
        (λ d. spec.AreReferred (asked_view asked.now) document (Ok (view d))) }
{
    // Out of memory is its one error.
    let Ok(places) = asked.registry.registry().places(alloc) else {
        return Err(AllocError);
    };
    let mut list = Vec::new(alloc);
    for place in &places {
        push_asked(alloc, asked, places.as_slice(), document, &mut list, place)?;
    }
    Ok(Value::Array(list))
}

// The number under `document`, where it is there.
fn document_of(alloc: Global, tree: &Value) -> Result<Option<usize>, Stop<Value>>
    ensures { Answers (λ n. n) result
        (spec.document_at (get (codes "document") (view tree.now))) }
{
    match tree.get("document") {
        Some(value) => Ok(Some(number_in(alloc, value, "document")?)),
        None => Ok(None),
    }
}

/// The references of a registry's own documents, each with what it leads to.
#[tactic(auto, unfolding(crate::specs::References::IsReferences))]
pub fn references(alloc: Global, state: &State, tree: &Value) -> Result<Value, Stop<Value>>
    ensures { Gives (spec.IsReferences state.now (view tree.now)) result }
{
    let mut asked = asked_of(alloc, state, tree)?;
    let document = document_of(alloc, tree)?;
    asked.candidates = is_set(alloc, tree, "candidates")?;
    Ok(references_in(alloc, &asked, document)?)
}
