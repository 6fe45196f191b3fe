//! `compare`.
ghost use Rattle.std.specs.Prelude.{◌≡◌, ◌∷◌, ◌++◌, [], codes, map, option_map, IfOk, OnOk};
ghost use Rattle.serde_json.specs.Data.{string};
ghost use Rattle.serde_json.specs.Find.{get};
ghost use Rattle.serde_json.specs.View.{view, items_view, members_view};
ghost use Rattle.ref_calls.specs.Calls.{each_item};
ghost use Rattle.ref_calls.specs.Objects.{with_all};
ghost use Rattle.ref_calls.specs.Outcome.{Answers};
ghost use Rattle.ref_changes.specs.Views.{address_view, move_of as move_view, what_of, leading_of, difference_of};
ghost use Rattle.ref_resolver.specs.Locations.{location_view};
ghost use Rattle.ref_serve.specs.Comparisons as spec;
ghost use Rattle.ref_serve.specs.inner.Sides.{side_view};

use crate::place::put_site;
use crate::registry::{layer_number, registry_of, registry_under};
use crate::state::{Open, State};
use ref_calls::fault::{Wrong, at_index, field_error};
use ref_calls::field::items_in;
use ref_calls::members::{Members, object_of, put_number, put_text};
use ref_changes::{Address, Difference, Leading, Move, What, compare};
use ref_json::Stop;
use referencing::Location;
use serde_json::{Map, Value, put};
use std::alloc::{AllocError, Global};

/// A registry that is compared, with its number.
#[derive(Clone, Copy, Drop)]
pub struct Side<'s> {
    pub number: usize,
    pub open: &'s Open,
}

// ---- what moves

// The two items of a list.
fn two_of(items: &[Value]) -> Option<(&Value, &Value)>
    ensures { option_map (λ t. (view t.0.now, view t.1.now)) result
        ≡ spec.two_of (items_view items.now) }
{
    let (first, rest) = items.split_first()?;
    let (second, rest) = rest.split_first()?;
    match rest.split_first() {
        None => Some((first, second)),
        Some(_) => None,
    }
}

// The number of a document and a pointer, of a list of the two.
fn address_of(value: &Value) -> Option<Address<'_>>
    ensures { option_map address_view result ≡ spec.address_of (view value.now) }
{
    let (document, pointer) = two_of(value.as_array()?.as_slice())?;
    Some(Address {
        document: document.as_u64()? as usize,
        pointer: pointer.as_str()?,
    })
}

// From one address to another, of a list of the two.
fn move_of(value: &Value) -> Option<Move<'_, '_>>
    ensures { option_map move_view result ≡ spec.move_of (view value.now) }
{
    let (from, to) = two_of(value.as_array()?.as_slice())?;
    Some(Move {
        from: address_of(from)?,
        to: address_of(to)?,
    })
}

fn move_in<'t>(alloc: Global, item: &'t Value, index: usize) -> Result<Move<'t, 't>, Stop<Value>>
    ensures { Answers move_view result (spec.move_in index (view item.now)) }
{
    match move_of(item) {
        Some(one) => Ok(one),
        None => {
            let stop = field_error(alloc, Wrong::InvalidField, "moves");
            Err(at_index(alloc, stop, index))
        }
    }
}

// Those of a list, in order.
fn moves_in<'t>(alloc: Global, items: &'t [Value]) -> Result<Vec<Move<'t, 't>>, Stop<Value>>
    ensures { Answers (λ v. map move_view v.items) result
        (each_item spec.move_in 0 (items_view items.now)) }
{
    let mut moves = Vec::with_capacity(alloc, items.len())?;
    for (index, item) in items.iter().enumerate() {
        let one = move_in(alloc, item, index)?;
        moves.push(one)?;
    }
    Ok(moves)
}

// Those under `moves`; where it isn't there, nothing moves.
fn moves_of(alloc: Global, tree: &Value) -> Result<Vec<Move<'_, '_>>, Stop<Value>>
    ensures { Answers (λ v. map move_view v.items) result
        (spec.moves_at (get (codes "moves") (view tree.now))) }
{
    let Some(value) = tree.get("moves") else {
        return Ok(Vec::new(alloc));
    };
    let items = items_in(alloc, value, "moves")?;
    moves_in(alloc, items)
}

// ---- what differs

// Puts where a text leads, where it leads somewhere.
fn put_location(
    alloc: Global,
    members: &mut Members,
    side: Side<'_>,
    location: Option<&Location<'_>>,
) -> Result<(), AllocError>
    ensures { OnOk result (members_view members.new.entries
        ≡ with_all (spec.location_members (side_view side.entry)
        (option_map (λ l. location_view l.now) location.entry))
        (members_view members.old.entries)) }
{
    let Some(location) = location else {
        return Ok(());
    };
    let number = layer_number(side.number, side.open, location.layer);
    put_number(alloc, members, "registry", number)?;
    put_number(alloc, members, "document", location.document)?;
    let pointer = location.pointer(alloc)?;
    put(members, alloc, "pointer", Value::String(pointer))
}

// The object of a text, and of where it leads.
fn led_object(
    alloc: Global,
    side: Side<'_>,
    text: &str,
    location: Option<&Location<'_>>,
) -> Result<Value, AllocError>
    ensures { IfOk result (λ d. view d
        ≡ spec.led_object (side_view side.entry) text.now
        (option_map (λ l. location_view l.now) location.entry)) }
{
    let mut members = Map::new(alloc);
    put_text(alloc, &mut members, "reference", text)?;
    put_location(alloc, &mut members, side, location)?;
    Ok(Value::Object(members))
}

// Puts a text before, and the one in its place after, with where each leads.
fn put_leading(
    alloc: Global,
    members: &mut Members,
    before: Side<'_>,
    after: Side<'_>,
    leading: &Leading<'_>,
) -> Result<(), AllocError>
    ensures { OnOk result (members_view members.new.entries
        ≡ with_all (spec.leading_members (side_view before.entry) (side_view after.entry)
        (leading_of leading.now)) (members_view members.old.entries)) }
{
    let led = led_object(alloc, before, leading.before.as_str(), leading.led.as_ref())?;
    put(members, alloc, "before", led)?;
    let leads = led_object(alloc, after, leading.after.as_str(), leading.leads.as_ref())?;
    put(members, alloc, "after", leads)
}

// The name of what differs.
fn what_name(what: &What<'_>) -> &'static str
    ensures { result.now ≡ spec.what_name (what_of what.now) }
{
    match what {
        What::NoPlace => "NoPlace",
        What::OtherDraft => "OtherDraft",
        What::OtherBase => "OtherBase",
        What::OtherMark => "OtherMark",
        What::OtherAnchors => "OtherAnchors",
        What::OtherText(_) => "OtherText",
        What::OtherReference(_, _) => "OtherReference",
        What::OtherName(_) => "OtherName",
    }
}

// Puts what else is told of it.
fn put_told(
    alloc: Global,
    members: &mut Members,
    before: Side<'_>,
    after: Side<'_>,
    what: &What<'_>,
) -> Result<(), AllocError>
    ensures { OnOk result (members_view members.new.entries
        ≡ with_all (spec.told_members (side_view before.entry) (side_view after.entry)
        (what_of what.now)) (members_view members.old.entries)) }
{
    match what {
        What::OtherText(keyword) => put_text(alloc, members, "keyword", *keyword),
        What::OtherReference(keyword, leading) => {
            put_text(alloc, members, "keyword", *keyword)?;
            put_leading(alloc, members, before, after, leading)
        }
        What::OtherName(leading) => put_leading(alloc, members, before, after, leading),
        _ => Ok(()),
    }
}

// The object of a difference.
fn difference_object(
    alloc: Global,
    before: Side<'_>,
    after: Side<'_>,
    difference: &Difference<'_>,
) -> Result<Value, AllocError>
    ensures { IfOk result (λ d. view d
        ≡ spec.difference_object (side_view before.entry) (side_view after.entry)
        (difference_of difference.now)) }
{
    let mut members = Map::new(alloc);
    let place = &difference.place;
    put_site(alloc, &mut members, place.document, place.path.as_slice())?;
    put_text(alloc, &mut members, "what", what_name(&difference.what))?;
    put_told(alloc, &mut members, before, after, &difference.what)?;
    Ok(Value::Object(members))
}

// The object of a difference, or `null`.
fn difference_value(
    alloc: Global,
    before: Side<'_>,
    after: Side<'_>,
    difference: Option<&Difference<'_>>,
) -> Result<Value, AllocError>
    ensures { IfOk result (λ d. view d
        ≡ spec.difference_data (side_view before.entry) (side_view after.entry)
        (option_map (λ d. difference_of d.now) difference.entry)) }
{
    match difference {
        Some(difference) => difference_object(alloc, before, after, difference),
        None => Ok(Value::Null),
    }
}

// What differs first between two registries.
fn compared(
    alloc: Global,
    before: Side<'_>,
    after: Side<'_>,
    moves: &[Move<'_, '_>],
) -> Result<Value, AllocError>
    ensures { IfOk result (λ d. view d
        ≡ spec.compared_object (side_view before.entry) (side_view after.entry)
        (map move_view moves.now)) }
{
    let difference = compare(alloc, before.open.registry(), after.open.registry(), moves)?;
    let value = difference_value(alloc, before, after, difference.as_ref())?;
    object_of(alloc, "difference", value)
}

/// What differs first between the references of a registry and those of another one, whose documents are those of the first
/// after a change.
#[tactic(auto, unfolding(crate::specs::Comparisons::compare_result))]
pub fn compare_call(alloc: Global, state: &State, tree: &Value) -> Result<Value, Stop<Value>>
    ensures { Answers view result (spec.compare_result state.now (view tree.now)) }
{
    let (number, open) = registry_of(alloc, state, tree)?;
    let before = Side { number, open };
    let (number, open) = registry_under(alloc, state, tree, "after")?;
    let after = Side { number, open };
    let moves = moves_of(alloc, tree)?;
    Ok(compared(alloc, before, after, moves.as_slice())?)
}
