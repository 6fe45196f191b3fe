//! Places that were looked up, with their values.
ghost use Rattle.std.specs.Prelude.{◌≡◌, ℕ, List, ◌∷◌, Option, map, option_map, MatchOption, IfSome, IsSome, is_some, Some, None, Ok};
ghost use Rattle.ref_uri.specs.Targets.{uri_against};
ghost use Rattle.ref_definitions.specs.World.{Layer};
ghost use Rattle.ref_definitions.specs.Places.{Place};
ghost use Rattle.ref_definitions.specs.Resources.{last_under, resources, meant_place};
ghost use Rattle.ref_definitions.specs.Anchors.{last_named, names, named_entry};
ghost use Rattle.ref_index.specs.Entries.{IsEntryOf, IsFoundWhere};
ghost use Rattle.ref_index.specs.Spots.{spot_under, spot_named, spot_of};
ghost use Rattle.ref_resolver.specs.Layered.{IsHeld};
ghost use Rattle.ref_resolver.specs.Locations.{uri_spot_from, name_spot_from};
ghost use Rattle.ref_resolver.specs.inner.Located.{IsLocatedIn, IsMeantIn, IsMeantAt, IsNamedIn, IsNamedAt};

use ref_index::{Entry, Index, NamedEntry};
use ref_uri::Uri;
use serde_json::Value;
use std::rc::Rc;

/// A place: its value, and its entry in the index of its layer.
#[derive(Clone, Copy, Drop)]
pub struct Located<'r> {
    pub value: &'r Value,
    pub entry: &'r Entry<'r>,
}

/// A place that an anchor names.
#[derive(Clone, Copy, Drop)]
pub struct LocatedName<'r> {
    pub named: &'r NamedEntry,
    pub place: Located<'r>,
}

/// A place with the number of its layer, which only `location` asks for.
#[derive(Clone, Copy, Drop)]
pub struct Numbered<'r> {
    pub layer: usize,
    pub place: Located<'r>,
}

/// A place that an anchor names, with the number of its layer.
#[derive(Clone, Copy, Drop)]
pub struct NumberedName<'r> {
    pub named: &'r NamedEntry,
    pub place: Numbered<'r>,
}

// The place of an entry.
#[inline(always)]
fn place_at<'r>(index: &'r Index<'r>, entry: &'r Entry<'r>) -> Option<Located<'r>>
    ensures place { (p : Place) → IsEntryOf index.now entry.now p
        → MatchOption result ⊥ (λ l. IsLocatedIn index.now l p) }
    ensures entry { IfSome result (λ l. l.entry.now ≡ entry.now) }
{
    let value = index.value(entry)?;
    Some(Located { value, entry })
}

// The place of an entry that was found, or none.
#[inline(always)]
pub(crate) fn place_of<'r>(
    index: &'r Index<'r>,
    entry: Option<&'r Entry<'r>>,
) -> Option<Located<'r>>
    ensures place { (found : Option (List ℕ × Place)) → IsFoundWhere index.now entry.entry found
        → MatchOption result (found ≡ None) (IsMeantIn index.now (option_map (λ e. e.1) found)) }
    ensures entry { IfSome result
        (λ l. option_map (λ e. e.now) entry.entry ≡ Some l.entry.now) }
{
    place_at(index, entry?)
}

/// The place that a URI means in the documents of a layer. A look-up; takes no memory.
#[inline(always)]
pub(crate) fn resource_in<'r>(index: &'r Index<'r>, uri: &str) -> Option<Located<'r>>
    ensures value { MatchOption result (last_under uri.now (resources index.now) ≡ None)
        (IsMeantIn index.now (option_map (λ e. e.1) (last_under uri.now (resources index.now)))) }
    ensures spot { IfSome result (λ l. spot_under uri.now index.now ≡ Some (spot_of l.entry.now)) }
{
    place_of(index, index.resource(uri))
}

/// The place that a URI means in the documents of parents, nearest first, whose layers are counted from 1. A look-up for each;
/// takes no memory.
#[inline(never)]
pub(crate) fn resource_above<'r>(parents: &'r [&'r Index<'r>], uri: &str) -> Option<Numbered<'r>>
    ensures value { (own : Layer)
        → MatchOption result (meant_place (map (λ p. p.now) parents.now) uri.now ≡ None)
        (IsMeantAt (own ∷ map (λ p. p.now) parents.now)
        (meant_place (map (λ p. p.now) parents.now) uri.now)) }
    ensures spot { IfSome result
        (λ l. uri_spot_from 1 (map (λ p. p.now) parents.now) uri.now
        ≡ Some (l.layer, spot_of l.place.entry.now)) }
{
    let mut number = 0;
    while number < parents.len() {
        if let Some(place) = resource_in(parents[number], uri) {
            let layer = number + 1;
            return Some(Numbered { layer, place });
        }
        number += 1;
    }
    None
}

/// Whether a URI means a place in the documents of parents. A look-up for each; takes no memory.
#[inline(never)]
pub(crate) fn is_resource_above(parents: &[&Index<'_>], uri: &str) -> bool
    ensures value { result ≡ is_some (meant_place (map (λ p. p.now) parents.now) uri.now) }
{
    for parent in parents {
        if parent.resource(uri).is_some() {
            return true;
        }
    }
    false
}

/// The place that an anchor names under a URI in the documents of a layer. A look-up; takes no memory.
#[inline(always)]
pub(crate) fn named_in<'r>(index: &'r Index<'r>, uri: &str, name: &str) -> Option<LocatedName<'r>>
    ensures value { MatchOption result (last_named uri.now name.now (names index.now) ≡ None)
        (IsNamedIn index.now (last_named uri.now name.now (names index.now))) }
    ensures spot { IfSome result
        (λ l. spot_named uri.now name.now index.now ≡ Some (spot_of l.place.entry.now)) }
{
    let found = index.named(uri, name)?;
    let place = place_at(index, found.entry)?;
    Some(LocatedName {
        named: found.named,
        place,
    })
}

/// The place that an anchor names under a URI in the documents of parents, nearest first, whose layers are counted from 1. A
/// look-up for each; takes no memory.
#[inline(never)]
pub(crate) fn named_above<'r>(
    parents: &'r [&'r Index<'r>],
    uri: &str,
    name: &str,
) -> Option<NumberedName<'r>>
    ensures value { (own : Layer)
        → MatchOption result (named_entry (map (λ p. p.now) parents.now) uri.now name.now ≡ None)
        (IsNamedAt (own ∷ map (λ p. p.now) parents.now)
        (named_entry (map (λ p. p.now) parents.now) uri.now name.now)) }
    ensures spot { IfSome result
        (λ l. name_spot_from 1 (map (λ p. p.now) parents.now) uri.now name.now
        ≡ Some (l.place.layer, spot_of l.place.place.entry.now)) }
{
    let mut number = 0;
    while number < parents.len() {
        if let Some(found) = named_in(parents[number], uri, name) {
            return Some(with_layer(number + 1, found));
        }
        number += 1;
    }
    None
}

// What was found in the layer with a number.
pub(crate) fn with_layer<'r>(layer: usize, found: LocatedName<'r>) -> NumberedName<'r>
    ensures { result
        ≡ record {
          named = found.entry.named;
          place = record { layer = layer; place = found.entry.place };
        } }
{
    NumberedName {
        named: found.named,
        place: Numbered {
            layer,
            place: found.place,
        },
    }
}

/// The URI that a text means against a base, where that was resolved in the documents of parents. A look-up for each; takes no
/// memory.
#[inline(never)]
pub(crate) fn resolved_above<'r>(
    parents: &'r [&'r Index<'r>],
    base: &str,
    uri: &str,
) -> Option<&'r Rc<Uri>>
    ensures held { IsHeld (map (λ p. p.now) parents.now) base.now uri.now → IsSome result }
    ensures value { IfSome result (λ u. uri_against base.now uri.now ≡ Ok u.now.value) }
{
    for parent in parents {
        if let Some(found) = parent.resolved(base, uri) {
            return Some(found.uri);
        }
    }
    None
}
