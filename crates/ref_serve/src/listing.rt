//! `places` and `dangling`.
ghost use Rattle.std.specs.Prelude.{◌≡◌, ◌∷◌, [], map, IfOk, OnOk};
ghost use Rattle.serde_json.specs.View.{view, members_view};
ghost use Rattle.ref_draft.specs.Anchors.{anchors};
ghost use Rattle.ref_draft.specs.Schema.{identifier};
ghost use Rattle.ref_draft.specs.Views.{anchor_name};
ghost use Rattle.ref_index.specs.Listing.{listed_of};
ghost use Rattle.ref_lint.specs.Dangling.{DanglingReference};
ghost use Rattle.ref_lint.specs.Entries.{IsEntryOf};
ghost use Rattle.ref_calls.specs.Objects.{with_all};
ghost use Rattle.ref_calls.specs.Outcome.{Answers};
ghost use Rattle.ref_serve.specs.Listings as spec;

use crate::place::put_site;
use crate::registry::registry_of;
use crate::state::State;
use ref_calls::fault::fault_members;
use ref_calls::members::{Members, put_text};
use ref_draft::{Anchor, AnchorIter};
use ref_json::Stop;
use ref_lint::{Dangling, dangling};
use referencing::{Draft, Place, Registry};
use serde_json::{Map, Value, put};
use std::alloc::{AllocError, Global};

// Puts the identifier of a value, where it has one.
fn put_identifier(
    alloc: Global,
    members: &mut Members,
    draft: Draft,
    value: &Value,
) -> Result<(), AllocError>
    ensures { OnOk result (members_view members.new.entries
        ≡ with_all (spec.identifier_member (identifier draft (view value.now)))
        (members_view members.old.entries)) }
{
    match draft.create_resource_ref(value).id() {
        Some(id) => put_text(alloc, members, "identifier", id),
        None => Ok(()),
    }
}

// Puts an anchor.
fn put_anchor(alloc: Global, members: &mut Members, anchor: &Anchor<'_>) -> Result<(), AllocError>
    ensures { OnOk result (members_view members.new.entries
        ≡ with_all (spec.anchor_member (anchor_name anchor.now) ∷ [])
        (members_view members.old.entries)) }
{
    match anchor {
        Anchor::Default { name, .. } => put_text(alloc, members, "anchor", *name),
        Anchor::Dynamic { name, .. } => put_text(alloc, members, "dynamicAnchor", *name),
    }
}

// Puts the anchors of a value.
fn put_anchors(
    alloc: Global,
    members: &mut Members,
    draft: Draft,
    value: &Value,
) -> Result<(), AllocError>
    ensures { OnOk result (members_view members.new.entries
        ≡ with_all (map spec.anchor_member (anchors draft (view value.now)))
        (members_view members.old.entries)) }
{
    match draft.anchors(value) {
        AnchorIter::Empty => Ok(()),
        AnchorIter::One(anchor) => put_anchor(alloc, members, &anchor),
        AnchorIter::Two(plain, dynamic) => {
            put_anchor(alloc, members, &plain)?;
            put_anchor(alloc, members, &dynamic)
        }
    }
}

// The object of a place.
fn place_object(alloc: Global, place: &Place<'_>) -> Result<Value, AllocError>
    ensures { IfOk result (λ d. view d ≡ spec.place_object (listed_of place.now)) }
{
    let mut members = Map::new(alloc);
    put_site(alloc, &mut members, place.document, place.path.as_slice())?;
    put_text(alloc, &mut members, "base", place.base.as_str())?;
    put_text(alloc, &mut members, "draft", place.draft.name())?;
    put_identifier(alloc, &mut members, place.draft, place.value)?;
    put_anchors(alloc, &mut members, place.draft, place.value)?;
    Ok(Value::Object(members))
}

// The object of an entry.
#[tactic(auto, unfolding(ref_calls::specs::Errors::fault_error))]
fn dangling_object(alloc: Global, entry: &Dangling<'_>) -> Result<Value, AllocError>
    ensures { (r : DanglingReference) → IsEntryOf entry.now r
        → IfOk result (λ d. view d ≡ spec.dangling_object r) }
{
    let mut members = Map::new(alloc);
    put_site(alloc, &mut members, entry.document, entry.path.as_slice())?;
    let error = fault_members(alloc, &entry.error)?;
    put(&mut members, alloc, "error", Value::Object(error))?;
    Ok(Value::Object(members))
}

// The list of the places of a registry.
#[tactic(auto, unfolding(crate::specs::Listings::places_list))]
fn places_in(alloc: Global, registry: &Registry<'_>) -> Result<Value, AllocError>
    ensures { IfOk result (λ d. view d ≡ spec.places_list registry.now) }
{
    // Out of memory is its one error.
    let Ok(places) = registry.places(alloc) else {
        return Err(AllocError);
    };
    let mut list = Vec::with_capacity(alloc, places.len())?;
    for place in &places {
        let object = place_object(alloc, place)?;
        list.push(object)?;
    }
    Ok(Value::Array(list))
}

// The list of the unresolvable references of a registry.
#[tactic(auto, unfolding(crate::specs::Listings::dangling_list))]
fn dangling_in(alloc: Global, registry: &Registry<'_>) -> Result<Value, AllocError>
    ensures { IfOk result (λ d. view d ≡ spec.dangling_list registry.now) }
{
    let entries = match dangling(alloc, registry) {
        Ok(entries) => entries,
        // Out of memory is its one error.
        Err(error) => {
            drop(error);
            return Err(AllocError);
        }
    };
    let mut list = Vec::with_capacity(alloc, entries.len())?;
    for entry in &entries {
        let object = dangling_object(alloc, entry)?;
        list.push(object)?;
    }
    Ok(Value::Array(list))
}

/// The subschemas of a registry's own documents.
#[tactic(auto, unfolding(crate::specs::Listings::places_result))]
pub fn places(alloc: Global, state: &State, tree: &Value) -> Result<Value, Stop<Value>>
    ensures { Answers view result (spec.places_result state.now (view tree.now)) }
{
    let (_number, open) = registry_of(alloc, state, tree)?;
    Ok(places_in(alloc, open.registry())?)
}

/// The references of a registry's own documents that find nothing.
#[tactic(auto, unfolding(crate::specs::Listings::dangling_result))]
pub fn dangling_references(alloc: Global, state: &State, tree: &Value) -> Result<Value, Stop<Value>>
    ensures { Answers view result (spec.dangling_result state.now (view tree.now)) }
{
    let (_number, open) = registry_of(alloc, state, tree)?;
    Ok(dangling_in(alloc, open.registry())?)
}
