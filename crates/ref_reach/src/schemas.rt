//! The places that schemas have by themselves, and what their references lead to beside these.
ghost use Rattle.std.specs.Prelude.{◌≡◌, map, flat_map, option_map, slice_get, IfOk, OnOk};
ghost use Rattle.serde_json.specs.View.{view};
ghost use Rattle.ref_descriptions.specs.Views.{reference_of};
ghost use Rattle.ref_reach.specs.Places.{own_entries};
ghost use Rattle.ref_reach.specs.Schemas.{schema_root_in, AreSchemas, is_among, unless_among, schema_outcome};
ghost use Rattle.ref_reach.specs.Views.{place_of};
ghost use Rattle.ref_reach.specs.Knowing.{known_of};
ghost use Rattle.ref_reach.specs.inner.Adding.{AddsPlaces};
ghost use Rattle.ref_reach.specs.inner.Saying.{IsOutcome};
ghost use Rattle.ref_reach.specs.Leading.{Outcome as Meaning};

use crate::described::Documents;
use crate::leading::{Outcome, outcome_of};
use crate::own::own_places;
use crate::place::{Place, schema_root};
use crate::table::{number_text, pointer, table_of};
use ref_descriptions::Reference;
use ref_draft::Draft;
use ref_parts::SortedTable;
use ref_uri::Uri;
use serde_json::Value;
use std::alloc::{AllocError, Global};
use std::rc::Rc;

/// The places that schemas have by themselves: the roots of documents, and what keywords lead to from there.
#[derive(Drop)]
pub struct Schemas<'v> {
    pub(crate) places: Vec<Place<'v>>,
    table: SortedTable<usize>,
    ghost listed: { table ≡ own_entries (map place_of places.items) },
}

// The URI of the document with a number.
fn uri_at<'d>(documents: &'d Documents<'_>, number: usize) -> Option<&'d Rc<Uri>>
    ensures uri { option_map (λ u. u.now.value) result
        ≡ slice_get (known_of documents.now).uris number }
{
    documents.uris.get(number)
}

// The value of the document with a number.
fn value_at<'v>(documents: &Documents<'v>, number: usize) -> Option<&'v Value>
    ensures tree { option_map (λ v. view v.now) result
        ≡ slice_get (known_of documents.now).trees number }
{
    match documents.values.get(number) {
        Some(value) => Some(*value),
        None => None,
    }
}

// Adds the root of the document with a number, where there is one.
fn push_root<'v>(
    alloc: Global,
    documents: &Documents<'v>,
    draft: Draft,
    number: usize,
    places: &mut Vec<Place<'v>>,
) -> Result<(), AllocError>
    ensures { OnOk result
        (AddsPlaces (schema_root_in (known_of documents.now) draft number) places.old.items
        places.new.items) }
{
    let Some(uri) = uri_at(documents, number) else {
        return Ok(());
    };
    let Some(value) = value_at(documents, number) else {
        return Ok(());
    };
    let root = schema_root(alloc, number, uri, value, draft)?;
    places.push(root)?;
    Ok(())
}

// The roots of the documents with these numbers.
fn roots_among<'v>(
    alloc: Global,
    documents: &Documents<'v>,
    draft: Draft,
    numbers: &[usize],
) -> Result<Vec<Place<'v>>, AllocError>
    ensures { IfOk result
        (λ places. map place_of places.items
        ≡ flat_map (schema_root_in (known_of documents.now) draft) numbers.now) }
{
    let mut places = Vec::new(alloc);
    for number in numbers {
        push_root(alloc, documents, draft, *number, &mut places)?;
    }
    Ok(places)
}

/// The places that those of the documents with these numbers have by themselves that are read as schemas, each of the draft that it names or
/// else of this one. Fails only if out of memory. Linear, but for a sorted table; no value is copied.
pub fn schemas_of<'v>(
    alloc: Global,
    documents: &Documents<'v>,
    draft: Draft,
    numbers: &[usize],
) -> Result<Schemas<'v>, AllocError>
    ensures places { IfOk result
        (λ schemas. AreSchemas (known_of documents.now) draft numbers.now
        (map place_of schemas.places.items)) }
{
    let places = own_places(alloc, roots_among(alloc, documents, draft, numbers)?)?;
    let table = table_of(alloc, places.as_slice())?;
    Ok(Schemas { places, table })
}

impl<'v> Schemas<'v> {
    /// The places: the roots in order, and then the subschemas right below each of these places in turn.
    pub fn places(&self) -> &[Place<'v>]
        ensures value { result.now ≡ self.now.places.items }
    {
        self.places.as_slice()
    }

    /// Whether a place is among them, by its document and its pointer.
    pub(crate) fn has(&self, alloc: Global, place: &Place<'v>) -> Result<bool, AllocError>
        ensures value { IfOk result
            (λ has. has ≡ is_among (map place_of self.now.places.items) (place_of place.now)) }
    {
        let pointer = pointer(alloc, &place.path)?;
        let text = number_text(alloc, place.document)?;
        let (number, _) = self.table.get(pointer.as_str(), text.as_str());
        match number {
            Some(number) => Ok(self.places.get(*number).is_some()),
            None => Ok(false),
        }
    }

    // What a reference is, beside these places.
    fn unless_among(&self, alloc: Global, outcome: Outcome<'v>) -> Result<Outcome<'v>, AllocError>
        ensures { (meaning : Meaning) → IsOutcome meaning outcome.entry
            → IfOk result (IsOutcome (unless_among (map place_of self.now.places.items) meaning)) }
    {
        match outcome {
            Outcome::Leads(place) => {
                if self.has(alloc, &place)? {
                    return Ok(Outcome::Nothing);
                }
                Ok(Outcome::Leads(place))
            }
            other => Ok(other),
        }
    }
}

// Whether a place is one that a description has by itself.
fn is_own<'v>(
    alloc: Global,
    documents: &Documents<'v>,
    place: &Place<'v>,
) -> Result<bool, AllocError>
    ensures { IfOk result (λ is. is ≡ is_among (known_of documents.now).own (place_of place.now)) }
{
    let pointer = pointer(alloc, &place.path)?;
    let own = documents.own_at(alloc, place.document, pointer.as_str())?;
    Ok(own.is_some())
}

// What a reference is, beside the places that descriptions have by themselves.
fn unless_own<'v>(
    alloc: Global,
    documents: &Documents<'v>,
    outcome: Outcome<'v>,
) -> Result<Outcome<'v>, AllocError>
    ensures { (meaning : Meaning) → IsOutcome meaning outcome.entry
        → IfOk result (IsOutcome (unless_among (known_of documents.now).own meaning)) }
{
    match outcome {
        Outcome::Leads(place) => {
            if is_own(alloc, documents, &place)? {
                return Ok(Outcome::Nothing);
            }
            Ok(Outcome::Leads(place))
        }
        other => Ok(other),
    }
}

/// What a reference of a schema is.
pub(crate) fn outcome_in_schema<'r>(
    alloc: Global,
    documents: &Documents<'r>,
    schemas: &Schemas<'r>,
    place: &Place<'r>,
    reference: Reference<'r>,
) -> Result<Outcome<'r>, AllocError>
    ensures value { IfOk result
        (IsOutcome
        (schema_outcome (known_of documents.now) (map place_of schemas.now.places.items)
        (place_of place.now) (reference_of reference.entry))) }
{
    let outcome = outcome_of(alloc, documents, place, reference)?;
    let outcome = schemas.unless_among(alloc, outcome)?;
    unless_own(alloc, documents, outcome)
}
