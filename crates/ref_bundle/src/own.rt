//! A registry's own documents with their places.
ghost use Rattle.std.specs.Prelude.{◌≡◌, [], ◌∷◌, ◌++◌, map, option_map, slice_get, IfOk, OnOk, MatchOption, Some};
ghost use Rattle.std.specs.List.{AllByRecursion, Contains};
ghost use Rattle.std.specs.Option.{option_to_list};
ghost use Rattle.ref_definitions.specs.World.{Document as WorldDocument, local_documents};
ghost use Rattle.referencing.specs.Document.{document_of};
ghost use Rattle.ref_definitions.specs.Places.{Place as WorldPlace, places};
ghost use Rattle.ref_definitions.specs.Listing.{local_places};
ghost use Rattle.ref_paths.specs.Path.{value_at};
ghost use Rattle.referencing.specs.ListedPlaces.{listed_of};
ghost use Rattle.ref_bundle.specs.Needed.{counted_documents};
ghost use Rattle.ref_bundle.specs.declared.own.Own.{Own};
ghost use Rattle.ref_bundle.specs.inner.Seen.{seen_in, see_listed, put_last, put_place, gathered_places};
ghost use Rattle.ref_bundle.specs.Saying.{seen_spot};
ghost use Rattle.ref_bundle.specs.inner.Seen.{numbered_document, HasPlaces};

use referencing::{Document, Draft, JsonPointerSegment, Place, Registry, Uri};
use serde_json::Value;
use std::alloc::{AllocError, Global};
use std::rc::Rc;

/// A place of a schema, with its value.
#[derive(Drop)]
pub struct Spot<'r> {
    /// The number of its document in the registry, counted from 0.
    pub document: usize,
    /// Its path in the document.
    pub path: Vec<JsonPointerSegment<'r>>,
    /// Its value, which is the document's own.
    pub value: &'r Value,
    /// The draft that it is read by.
    pub draft: Draft,
    /// The base URI that its references are resolved against.
    pub base: Rc<Uri>,
}

/// A document with its places.
#[derive(Drop)]
pub(crate) struct Own<'r> {
    pub number: usize,
    pub uri: &'r Uri,
    pub tree: &'r Value,
    pub draft: Draft,
    pub places: Vec<Spot<'r>>,
}

// A place with its value, where that is in its document.
fn spot_of<'r>(registry: &'r Registry<'_>, place: Place<'r>) -> Option<Spot<'r>>
    ensures { option_map seen_spot result
        ≡ see_listed (local_documents registry.now) (listed_of place.entry) }
{
    let value = registry.value_at(place.document, place.path.as_slice())?;
    Some(Spot {
        document: place.document,
        path: place.path,
        value,
        draft: place.draft,
        base: place.base,
    })
}

// Adds a place to the last of groups.
fn put_last<'r>(groups: &mut Vec<Vec<Spot<'r>>>, spot: Spot<'r>) -> Result<(), AllocError>
    ensures { OnOk result (map (λ g. map seen_spot g.items) groups.new.items
        ≡ put_last (map (λ g. map seen_spot g.items) groups.old.items) (seen_spot spot.entry)) }
{
    if let Some(mut group) = groups.pop() {
        group.push(spot)?;
        groups.push(group)?;
    }
    Ok(())
}

// Adds a place to its document's, which are the last or begin with it.
fn put<'r>(alloc: Global, groups: &mut Vec<Vec<Spot<'r>>>, spot: Spot<'r>) -> Result<(), AllocError>
    ensures { OnOk result (map (λ g. map seen_spot g.items) groups.new.items
        ≡ put_place (map (λ g. map seen_spot g.items) groups.old.items) (seen_spot spot.entry)) }
{
    if spot.document < groups.len() {
        return put_last(groups, spot);
    }
    let mut group = Vec::new(alloc);
    group.push(spot)?;
    groups.push(group)?;
    Ok(())
}

// Adds a place, where there is one.
fn put_some<'r>(
    alloc: Global,
    groups: &mut Vec<Vec<Spot<'r>>>,
    spot: Option<Spot<'r>>,
) -> Result<(), AllocError>
    ensures { OnOk result (map (λ g. map seen_spot g.items) groups.new.items
        ≡ gathered_places (map (λ g. map seen_spot g.items) groups.old.items) (option_to_list
        (option_map seen_spot spot.entry))) }
{
    match spot {
        Some(spot) => put(alloc, groups, spot),
        None => Ok(()),
    }
}

// The places of a registry.
fn listed<'r>(alloc: Global, registry: &'r Registry<'_>) -> Result<Vec<Place<'r>>, AllocError>
    ensures value { IfOk result
        (λ places. map listed_of places.items ≡ local_places (local_documents registry.now)) }
    ensures there { (d : WorldDocument) (p : WorldPlace) → Contains (local_documents registry.now) d
        → Contains (places d) p
        → value_at d.tree p.path ≡ Some p.value }
{
    match registry.places(alloc) {
        Ok(places) => Ok(places),
        // Out of memory is its one error.
        Err(error) => {
            drop(error);
            Err(AllocError)
        }
    }
}

// The places of a registry, document by document.
fn groups_of<'r>(
    alloc: Global,
    registry: &'r Registry<'_>,
) -> Result<Vec<Vec<Spot<'r>>>, AllocError>
    ensures { IfOk result (λ groups. map (λ g. map seen_spot g.items) groups.items
        ≡ map seen_in (counted_documents 0 (local_documents registry.now))) }
{
    let places = listed(alloc, registry)?;
    let mut groups = Vec::new(alloc);
    for place in places {
        put_some(alloc, &mut groups, spot_of(registry, place))?;
    }
    Ok(groups)
}

// A document with its places.
fn own_of<'r>(number: usize, document: &'r Document<'_>, places: Vec<Spot<'r>>) -> Own<'r>
    ensures document { numbered_document result ≡ (number, document_of document.now) }
    ensures places { result.places ≡ places.entry }
{
    Own {
        number,
        uri: &document.uri,
        tree: document.contents.value(),
        draft: document.draft,
        places,
    }
}

// Adds the document with a number.
fn push<'r>(
    registry: &'r Registry<'_>,
    owns: &mut Vec<Own<'r>>,
    number: usize,
    places: Vec<Spot<'r>>,
) -> Result<(), AllocError>
    ensures { OnOk result
        (MatchOption (slice_get (local_documents registry.now) number)
        (owns.new.items ≡ owns.old.items)
        (λ d. (o : Own) × (owns.new.items ≡ owns.old.items ++ o ∷ [])
        × (numbered_document o ≡ (number, d)) × (o.places
        ≡ places.entry))) }
{
    if let Some(document) = registry.documents().get(number) {
        owns.push(own_of(number, document, places))?;
    }
    Ok(())
}

/// A registry's own documents, in their order.
pub(crate) fn owns_of<'r>(
    alloc: Global,
    registry: &'r Registry<'_>,
) -> Result<Vec<Own<'r>>, AllocError>
    ensures order { IfOk result
        (λ owns. map numbered_document owns.items
        ≡ counted_documents 0 (local_documents registry.now)) }
    ensures places { IfOk result (λ owns. AllByRecursion HasPlaces owns.items) }
{
    let groups = groups_of(alloc, registry)?;
    let mut owns = Vec::with_capacity(alloc, groups.len())?;
    for places in groups {
        let number = owns.len();
        push(registry, &mut owns, number, places)?;
    }
    Ok(owns)
}
