//! The own places of descriptions: their roots, and what is below these.
ghost use Rattle.std.specs.Prelude.{◌≡◌, ◌<◌, ◌++◌, [], ◌∷◌, map, flat_map, length, slice_get, Some, None, IfOk, OnOk, true, false};
ghost use Rattle.std.specs.List.{enumerate_from};
ghost use Rattle.ref_reach.specs.Places.{root_in, roots, below_place};
ghost use Rattle.ref_reach.specs.Views.{source_of, place_of};
ghost use Rattle.ref_reach.specs.inner.Adding.{AddsPlaces, IsBelowAdded};

use crate::documents::Source;
use crate::place::{Place, root_of};
use ref_descriptions::version_of;
use std::alloc::{AllocError, Global};
use std::rc::Rc;

// Adds the root of a document, where it is a description.
fn push_root<'v>(
    alloc: Global,
    places: &mut Vec<Place<'v>>,
    number: usize,
    source: &Source<'v>,
) -> Result<(), AllocError>
    ensures { OnOk result
        (AddsPlaces (root_in (number, source_of source.now)) places.old.items places.new.items) }
{
    if let Some(version) = version_of(source.value) {
        let uri = Rc::new(alloc, source.uri.clone()?)?;
        let root = root_of(alloc, number, &uri, source.value, version)?;
        places.push(root)?;
    }
    Ok(())
}

/// The roots of the descriptions among documents.
pub(crate) fn roots_of<'v>(
    alloc: Global,
    sources: &[Source<'v>],
) -> Result<Vec<Place<'v>>, AllocError>
    ensures value { IfOk result
        (λ places. map place_of places.items ≡ roots (map source_of sources.now)) }
{
    let mut places = Vec::new(alloc);
    for (number, source) in sources.iter().enumerate() {
        push_root(alloc, &mut places, number, source)?;
    }
    Ok(places)
}

// Adds what is right below the place with a number.
fn push_below<'v>(
    alloc: Global,
    places: &mut Vec<Place<'v>>,
    number: usize,
) -> Result<bool, AllocError>
    ensures { IfOk result
        (IsBelowAdded number (map place_of places.old.items) (map place_of places.new.items)) }
{
    let Some(place) = places.get(number) else {
        return Ok(false);
    };
    let mut below = place.below(alloc)?;
    places.append(&mut below)?;
    Ok(true)
}

/// Roots and what is below them: after the roots what is right below each place in turn.
pub(crate) fn own_places<'v>(
    alloc: Global,
    roots: Vec<Place<'v>>,
) -> Result<Vec<Place<'v>>, AllocError>
    ensures value { IfOk result
        (λ places. map place_of places.items
        ≡ map place_of roots.entry.items ++ flat_map below_place (map place_of places.items)) }
{
    let mut places = roots;
    for number in 0..usize::MAX {
        if !push_below(alloc, &mut places, number)? {
            return Ok(places);
        }
    }
    Err(AllocError)
}
