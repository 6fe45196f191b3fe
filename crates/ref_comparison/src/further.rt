//! Whether each reference of further places leads where it led.
ghost use Rattle.std.specs.Prelude.{◌≡◌, ◌++◌, false, ◌&&◌, map, flat_map, option_map, IfOk};
ghost use Rattle.ref_reach.specs.Leading.{version_text as text_of_version};
ghost use Rattle.ref_reach.specs.Views.{place_of};
ghost use Rattle.ref_further.specs.Surveyed.{surveyed};
ghost use Rattle.ref_changes.specs.Changes.{first};
ghost use Rattle.ref_changes.specs.Moves as moving;
ghost use Rattle.ref_changes.specs.Views.{move_of, image_view};
ghost use Rattle.ref_comparison.specs.Further as spec;
ghost use Rattle.ref_comparison.specs.Views.{sides_of, difference_of, known_in};
ghost use Rattle.ref_comparison.specs.inner.Firsts.{SaysFirst, DiffersFirst};
ghost use Rattle.ref_comparison.specs.inner.Grouped.{lists_in, with_number, places_in, IsGrouped};

use crate::after::{After, Number, address_text, after_of, numbers_at, place_with};
use crate::difference::{Difference, What};
use crate::pairs::references_what;
use crate::sides::{Sides, is_base_kept};
use ref_changes::{Image, Move, moved_to, table_of};
use ref_descriptions::{Reading, Version};
use ref_further::Survey;
use ref_index::segments_of;
use ref_parts::pointer_of;
use ref_reach::Place;
use std::alloc::{AllocError, Global};

/// What differs first between the further places of documents before and after a change, or `None` where nothing does: each is where it moved, is read the same, has a base that means
/// the same resource, and the same references; each of these leads to where what it led to moved, of the same draft, or leads nowhere as before; and a name of a component
/// in a mapping names the component that moved there. Fails only if out of memory. Four look-ups for each place, and two for each reference.
pub fn further_difference<'p, 'b>(
    alloc: Global,
    before: &'p Survey<'b>,
    after: &'p Survey<'_>,
    moves: &[Move<'_, '_>],
) -> Result<Option<Difference<'p, 'b>>, AllocError>
    ensures first { IfOk result (λ d. option_map difference_of d
        ≡ first
        (spec.differences (record {
          moves = moving.map_of (map move_of moves.now);
          before = known_in before.now;
          after = known_in after.now;
        }) (surveyed before.now) (surveyed after.now))) }
{
    let table = table_of(alloc, moves)?;
    let there = after_of(alloc, after)?;
    let sides = Sides {
        moves: &table,
        before: before.documents(),
        after: after.documents(),
    };
    difference_in(
        alloc,
        &sides,
        &there,
        before.own(),
        before.described(),
        before.led(),
    )
}

// What differs first at the places of three lists, one after another.
fn difference_in<'p, 'b, 'a>(
    alloc: Global,
    sides: &Sides<'_, '_, '_, 'b, 'a>,
    after: &After<'_, 'a>,
    own: &'p [Place<'b>],
    described: &'p [Place<'b>],
    led: &'p [Place<'b>],
) -> Result<Option<Difference<'p, 'b>>, AllocError>
    requires { IsGrouped after.now }
    ensures { DiffersFirst result
        (spec.differences (sides_of sides.now)
        (map place_of own.now ++ map place_of described.now ++ map place_of led.now)
        (places_in after.now)) }
{
    if let Some(found) = places_difference(alloc, sides, after, own)? {
        return Ok(Some(found));
    }
    if let Some(found) = places_difference(alloc, sides, after, described)? {
        return Ok(Some(found));
    }
    places_difference(alloc, sides, after, led)
}

// What differs first at these places.
fn places_difference<'p, 'b, 'a>(
    alloc: Global,
    sides: &Sides<'_, '_, '_, 'b, 'a>,
    after: &After<'_, 'a>,
    places: &'p [Place<'b>],
) -> Result<Option<Difference<'p, 'b>>, AllocError>
    requires { IsGrouped after.now }
    ensures { DiffersFirst result
        (spec.differences (sides_of sides.now) (map place_of places.now) (places_in after.now)) }
{
    for place in places {
        if let Some(difference) = place_difference(alloc, sides, after, place)? {
            return Ok(Some(difference));
        }
    }
    Ok(None)
}

// The first difference at a place.
fn place_difference<'p, 'b, 'a>(
    alloc: Global,
    sides: &Sides<'_, '_, '_, 'b, 'a>,
    after: &After<'_, 'a>,
    place: &'p Place<'b>,
) -> Result<Option<Difference<'p, 'b>>, AllocError>
    requires { IsGrouped after.now }
    ensures { DiffersFirst result
        (spec.place_differences (sides_of sides.now) (places_in after.now) (place_of place.now)) }
{
    match place_what(alloc, sides, after, place)? {
        Some(what) => Ok(Some(Difference { place, what })),
        None => Ok(None),
    }
}

// What differs at a place.
fn place_what<'b, 'a>(
    alloc: Global,
    sides: &Sides<'_, '_, '_, 'b, 'a>,
    after: &After<'_, 'a>,
    place: &Place<'b>,
) -> Result<Option<What>, AllocError>
    requires { IsGrouped after.now }
    ensures { SaysFirst result
        (spec.whats_among (sides_of sides.now) (place_of place.now) (places_in after.now) false) }
{
    let path = segments_of(alloc, &place.path)?;
    let image = moved_to(alloc, sides.moves, place.document, path.as_slice())?;
    let text = address_text(alloc, image.document, image.pointer.as_str())?;
    let numbers = numbers_at(after, text.as_str());
    what_among(alloc, sides, after, &image, place, numbers)
}

// What differs at a place, by those with these numbers: of those that are read so where it moved, the first from the same base counts.
fn what_among<'b, 'a>(
    alloc: Global,
    sides: &Sides<'_, '_, '_, 'b, 'a>,
    after: &After<'_, 'a>,
    image: &Image,
    place: &Place<'b>,
    numbers: &[Number],
) -> Result<Option<What>, AllocError>
    requires { image_view image.now
        ≡ moving.image (sides_of sides.now).moves (spec.spot_of (place_of place.now)) }
    ensures { SaysFirst result
        (spec.whats_among (sides_of sides.now) (place_of place.now)
        (flat_map (with_number (lists_in after.now)) numbers.now) false) }
{
    let mut is_any = false;
    for number in numbers {
        let Some(other) = place_with(after, number) else {
            continue;
        };
        let is_there = is_image(alloc, image, place, other)?;
        if is_there {
            let is_same = is_base_kept(alloc, sides, place, other)?;
            if is_same {
                return references_what(alloc, sides, place, other);
            }
            is_any = true;
        }
    }
    if is_any {
        Ok(Some(What::OtherBase))
    } else {
        Ok(Some(What::NoPlace))
    }
}

// Whether a place after is at an image, and read as a place before.
fn is_image(
    alloc: Global,
    image: &Image,
    place: &Place<'_>,
    other: &Place<'_>,
) -> Result<bool, AllocError>
    ensures { IfOk result (λ is. is
        ≡ (moving.is_address (image_view image.now)
        (moving.address_of (spec.spot_of (place_of other.now)))
        && spec.is_read_so place.now.reading other.now.reading)) }
{
    let path = segments_of(alloc, &other.path)?;
    let pointer = pointer_of(alloc, path.as_slice())?;
    let is_there = image.document == other.document && image.pointer.as_str() == pointer.as_str();
    Ok(is_there && is_read_so(place.reading, other.reading))
}

// Whether two objects are read the same.
fn is_read_so(reading: Reading, other: Reading) -> bool
    ensures { result ≡ spec.is_read_so reading other }
{
    version_text(reading.version) == version_text(other.version)
        && (reading.kind.name() == other.kind.name() && reading.draft.name() == other.draft.name())
}

// The name of a version, where there is one.
fn version_text(version: Option<Version>) -> &'static str
    ensures { result.now ≡ text_of_version version }
{
    match version {
        Some(version) => version.name(),
        None => "-",
    }
}
