//! Whether each reference leads where it led.
ghost use Rattle.std.specs.Prelude.{◌≡◌, map, flat_map, option_map, IfOk};
ghost use Rattle.ref_changes.specs.Moves.{map_of};
ghost use Rattle.ref_changes.specs.Changes as spec;
ghost use Rattle.ref_changes.specs.Views.{change_of, texts_of, site_of_place, move_of, difference_of};
ghost use Rattle.ref_changes.specs.inner.Tables.{IsTable};
ghost use Rattle.ref_changes.specs.inner.Firsts.{DiffersFirst};

use crate::difference::Difference;
use crate::differing::site_difference;
use crate::kept::{Change, Texts};
use crate::moves::{Move, table_of};
use crate::names::{all_names, names_difference};
use crate::sites::{Sites, places_of, sites_of};
use referencing::{Place, Registry};
use std::alloc::{AllocError, Global};

// The first difference at places.
fn places_difference<'w>(
    alloc: Global,
    change: &Change<'_, 'w, '_, '_, '_>,
    before: &[Place<'w>],
    after: &Sites<'_, 'w>,
) -> Result<Option<Difference<'w>>, AllocError>
    requires { IsTable after.now }
    ensures { DiffersFirst result
        (flat_map
        (spec.site_differences (change_of change.now) (map site_of_place after.now.places.now))
        (map site_of_place before.now)) }
{
    for place in before {
        if let Some(difference) = site_difference(alloc, change, after, place)? {
            return Ok(Some(difference));
        }
    }
    Ok(None)
}

// The first difference of what names lead to.
fn dynamic_difference<'w>(
    alloc: Global,
    change: &Change<'_, 'w, '_, '_, '_>,
    before: &[Place<'w>],
    after: &Sites<'_, 'w>,
    all: &[Texts<'_, '_>],
) -> Result<Option<Difference<'w>>, AllocError>
    requires { IsTable after.now }
    ensures { DiffersFirst result
        (flat_map
        (λ n. flat_map
        (spec.name_differences (change_of change.now) (map site_of_place after.now.places.now)
        n) (map site_of_place before.now)) (map texts_of all.now)) }
{
    for names in all {
        if let Some(difference) = names_difference(alloc, change, before, after, names)? {
            return Ok(Some(difference));
        }
    }
    Ok(None)
}

// The first difference between places.
fn difference_in<'w>(
    alloc: Global,
    change: &Change<'_, 'w, '_, '_, '_>,
    before: &[Place<'w>],
    after: &Sites<'_, 'w>,
) -> Result<Option<Difference<'w>>, AllocError>
    requires { IsTable after.now }
    ensures { DiffersFirst result
        (spec.differences_of (change_of change.now) (map site_of_place before.now)
        (map site_of_place after.now.places.now)) }
{
    if let Some(difference) = places_difference(alloc, change, before, after)? {
        return Ok(Some(difference));
    }
    let all = all_names(alloc, change, before, after)?;
    dynamic_difference(alloc, change, before, after, all.as_slice())
}

/// What differs first after documents are changed, or `None` where each reference keeps leading where it led. Before and
/// after are registries, whose own documents are compared, and `moves` says which values are elsewhere after: what is in
/// them moves along, and all else stays. The later of two moves of one value counts.
///
/// Of each place where a schema is, in the order of [`Registry::places`], there has to be one where it moved, of the same
/// draft, whose base means the same resource. Each of its references leads to what it led to: to where that moved, of the
/// same draft and, once it is entered, with the same base; or fails by a fault of the same name. Each of its anchors means
/// what it meant. And a name of a dynamic anchor that references lead to means the same from the base of each place.
/// References into the documents of parents are to lead to the same place of the same layer.
///
/// Fails only if out of memory. Some ten look-ups for each reference, and two for each place and each such name; no value is
/// copied, and the places are sorted once.
pub fn compare<'w>(
    alloc: Global,
    before: &'w Registry<'_>,
    after: &'w Registry<'_>,
    moves: &[Move<'_, '_>],
) -> Result<Option<Difference<'w>>, AllocError>
    ensures first { IfOk result (λ d. option_map difference_of d
        ≡ spec.first
        (spec.differences (record {
          moves = map_of (map move_of moves.now);
          before = before.now;
          after = after.now;
        }))) }
{
    let table = table_of(alloc, moves)?;
    let change = Change {
        moves: &table,
        before,
        after,
    };
    let places = places_of(alloc, before)?;
    let changed = places_of(alloc, after)?;
    let sites = sites_of(alloc, changed.as_slice())?;
    difference_in(alloc, &change, places.as_slice(), &sites)
}
