//! The places of a document where schemas are.
ghost use Rattle.std.specs.Prelude.{◌≡◌, map, IfOk};
ghost use Rattle.serde_json.specs.View.{view};
ghost use Rattle.ref_rules.specs.Places.{ArePlaces, below};
ghost use Rattle.ref_rules.specs.Views.{spot_of, place_of};
ghost use Rattle.ref_rules.specs.inner.Spots.{IsBelowAdded};

use crate::slip::Place;
use ref_draft::Draft;
use ref_paths::path::JsonPointerSegment;
use serde_json::Value;
use std::alloc::{AllocError, Global};

/// A place where a schema is: the number of the place above it, and the keyword and the segment that lead from there; of a root itself and none.
#[derive(Drop)]
pub struct Spot<'v> {
    /// The number of the place above it.
    pub above: usize,
    /// The keyword there that leads to it; none of a root.
    pub keyword: Option<&'v str>,
    /// The index or key after the keyword, where there is one.
    pub segment: Option<JsonPointerSegment<'v>>,
    /// The draft that it is read by.
    pub draft: Draft,
    /// Its value.
    pub value: &'v Value,
}

// Adds the places right below one, which has a number.
fn below_of<'v>(alloc: Global, number: usize, spot: &Spot<'v>) -> Result<Vec<Spot<'v>>, AllocError>
    ensures { IfOk result (λ spots. map spot_of spots.items ≡ below (spot_of spot.now)) }
{
    let mut spots = Vec::new(alloc);
    for child in spot.draft.walk_children(alloc, spot.value)? {
        spots.push(Spot {
            above: number,
            keyword: Some(child.keyword),
            segment: child.segment,
            draft: child.draft,
            value: child.value,
        })?;
    }
    Ok(spots)
}

// Adds the places right below the one with a number; says whether there is such a place.
fn push_below<'v>(
    alloc: Global,
    spots: &mut Vec<Spot<'v>>,
    number: usize,
) -> Result<bool, AllocError>
    ensures { IfOk result
        (IsBelowAdded number (map spot_of spots.old.items) (map spot_of spots.new.items)) }
{
    let Some(spot) = spots.get(number) else {
        return Ok(false);
    };
    let mut below = below_of(alloc, number, spot)?;
    spots.append(&mut below)?;
    Ok(true)
}

/// The places of a document where schemas are, each after the one above it: its root, which is read by the draft that it names or else by a given one, and after it
/// the subschemas right below each of these in turn. Fails only if out of memory. Linear in the members of these.
pub fn spots_of<'v>(
    alloc: Global,
    draft: Draft,
    root: &'v Value,
) -> Result<Vec<Spot<'v>>, AllocError>
    ensures value { IfOk result
        (λ spots. ArePlaces draft (view root.now) (map spot_of spots.items)) }
{
    let mut spots = Vec::new(alloc);
    spots.push(Spot {
        above: 0,
        keyword: None,
        segment: None,
        draft: draft.detect(root),
        value: root,
    })?;
    for number in 0..usize::MAX {
        if !push_below(alloc, &mut spots, number)? {
            return Ok(spots);
        }
    }
    Err(AllocError)
}

/// Spots as places. Fails only if out of memory. A step for each.
pub fn places_of<'v>(alloc: Global, spots: &[Spot<'v>]) -> Result<Vec<Place<'v>>, AllocError>
    ensures value { IfOk result
        (λ places. map place_of places.items ≡ map spot_of spots.now) }
{
    let mut places = Vec::new(alloc);
    for spot in spots {
        places.push(Place {
            is_root: spot.keyword.is_none(),
            draft: spot.draft,
            value: spot.value,
        })?;
    }
    Ok(places)
}
