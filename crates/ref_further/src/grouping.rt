//! Places, document by document.
ghost use Rattle.std.specs.Prelude.{◌≡◌, ◌<◌, ℕ, [], ◌++◌, map, flat_map, length, IfOk, OnOk};
ghost use Rattle.ref_reach.specs.Views.{place_of};
ghost use Rattle.ref_bundle.specs.Needed.{further_in};
ghost use Rattle.ref_bundle.specs.Saying.{seen_spot, further_of};
ghost use Rattle.ref_further.specs.Further.{seen_of, seen_in};

use ref_bundle::Spot;
use ref_index::segments_of;
use ref_reach::Place;
use std::alloc::{AllocError, Global};

// A place as a bundle sees it: a handle of its base, and its path as a list.
fn spot_of<'r>(alloc: Global, place: &Place<'r>) -> Result<Spot<'r>, AllocError>
    ensures { IfOk result (λ spot. seen_spot spot ≡ seen_of (place_of place.now)) }
{
    let path = segments_of(alloc, &place.path)?;
    let base = place.base.clone()?;
    Ok(Spot {
        document: place.document,
        path,
        value: place.value,
        draft: place.reading.draft,
        base,
    })
}

/// So many groups without places.
pub(crate) fn no_groups<'r>(alloc: Global, count: usize) -> Result<Vec<Vec<Spot<'r>>>, AllocError>
    ensures long { IfOk result (λ groups. length groups.items ≡ count) }
    ensures none { IfOk result
        (λ groups. (number : ℕ) → further_in (further_of groups.items) number ≡ []) }
{
    let mut groups = Vec::with_capacity(alloc, count)?;
    for number in 0..count {
        let _ = number;
        groups.push(Vec::new(alloc))?;
    }
    Ok(groups)
}

// Adds a place to the group of its document.
fn add<'r>(
    alloc: Global,
    groups: &mut Vec<Vec<Spot<'r>>>,
    place: &Place<'r>,
) -> Result<(), AllocError>
    ensures long { OnOk result (length groups.new.items ≡ length groups.old.items) }
    ensures added { OnOk result
        ((number : ℕ) → number < length groups.old.items
        → further_in (further_of groups.new.items) number
        ≡ further_in (further_of groups.old.items) number
        ++ seen_in number (place_of place.now)) }
{
    let spot = spot_of(alloc, place)?;
    if let Some(group) = groups.get_mut(place.document) {
        group.push(spot)?;
    }
    Ok(())
}

/// Adds places to the groups of their documents.
pub(crate) fn add_all<'r>(
    alloc: Global,
    groups: &mut Vec<Vec<Spot<'r>>>,
    places: &[Place<'r>],
) -> Result<(), AllocError>
    ensures long { OnOk result (length groups.new.items ≡ length groups.old.items) }
    ensures added { OnOk result
        ((number : ℕ) → number < length groups.old.items
        → further_in (further_of groups.new.items) number
        ≡ further_in (further_of groups.old.items) number
        ++ flat_map (seen_in number) (map place_of places.now)) }
{
    for place in places {
        add(alloc, groups, place)?;
    }
    Ok(())
}
