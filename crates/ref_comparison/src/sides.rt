//! Documents before and after a change, and where texts lead in them.
ghost use Rattle.std.specs.Prelude.{◌≡◌, map, option_map, IfOk};
ghost use Rattle.ref_paths.specs.Segment.{part_of};
ghost use Rattle.ref_changes.specs.Moves.{image, is_address, is_moved};
ghost use Rattle.ref_changes.specs.Views.{moves_in, address_view};
ghost use Rattle.ref_reach.specs.Leading.{target_by_text};
ghost use Rattle.ref_reach.specs.Knowing.{known_of};
ghost use Rattle.ref_reach.specs.Views.{place_of};
ghost use Rattle.ref_reach.specs.inner.Saying.{target_of};
ghost use Rattle.ref_comparison.specs.Further as spec;
ghost use Rattle.ref_comparison.specs.Views.{sides_of};

use ref_changes::{Address, moved_to};
use ref_index::segments_of;
use ref_parts::path::JsonPointerSegment;
use ref_parts::{SortedTable, pointer_of};
use ref_reach::{Documents, Place, Target, target};
use std::alloc::{AllocError, Global};

/// The documents before and after, and what moves.
#[derive(Clone, Copy, Drop)]
pub(crate) struct Sides<'s, 'm, 't, 'b, 'a> {
    pub moves: &'m SortedTable<Address<'t>>,
    pub before: &'s Documents<'b>,
    pub after: &'s Documents<'a>,
}

// Whether the value at a path of a document moved to a pointer of another one.
fn is_at(
    alloc: Global,
    moves: &SortedTable<Address<'_>>,
    document: usize,
    path: &[JsonPointerSegment<'_>],
    to: Address<'_>,
) -> Result<bool, AllocError>
    ensures { IfOk result (λ is. is
        ≡ is_address
        (image (moves_in moves.now) (record { document = document; path = map part_of path.now }))
        (address_view to.entry)) }
{
    let image = moved_to(alloc, moves, document, path)?;
    Ok(image.document == to.document && image.pointer.as_str() == to.pointer)
}

// Whether what was at one target is at another.
fn is_target_moved(
    alloc: Global,
    sides: &Sides<'_, '_, '_, '_, '_>,
    before: &Target<'_>,
    after: &Target<'_>,
) -> Result<bool, AllocError>
    ensures { IfOk result (λ is. is
        ≡ is_moved (sides_of sides.now).moves (spec.spot_led (target_of before.now))
        (spec.spot_led (target_of after.now))) }
{
    let path = segments_of(alloc, &before.path)?;
    let now = segments_of(alloc, &after.path)?;
    let pointer = pointer_of(alloc, now.as_slice())?;
    let to = Address {
        document: after.document,
        pointer: pointer.as_str(),
    };
    is_at(alloc, sides.moves, before.document, path.as_slice(), to)
}

/// Whether what texts lead to is the same, of the same draft; or both lead nowhere. Two look-ups.
pub(crate) fn is_target_kept<'b, 'a>(
    alloc: Global,
    sides: &Sides<'_, '_, '_, 'b, 'a>,
    before: (&Place<'b>, &str),
    after: (&Place<'a>, &str),
) -> Result<bool, AllocError>
    ensures value { IfOk result (λ kept. kept
        ≡ spec.is_target_kept (sides_of sides.now)
        (target_by_text (sides_of sides.now).before (place_of before.entry.0.now) before.entry.1.now)
        (target_by_text (sides_of sides.now).after (place_of after.entry.0.now) after.entry.1.now)) }
{
    let (place, text) = before;
    let (other, now) = after;
    let led = led_from(alloc, sides.before, place, text)?;
    let leads = led_from(alloc, sides.after, other, now)?;
    match (&led, &leads) {
        (Some(led), Some(leads)) => Ok(
            led.draft.name() == leads.draft.name() && is_target_moved(alloc, sides, led, leads)?,
        ),
        (None, None) => Ok(true),
        _ => Ok(false),
    }
}

// What a text of a place leads to.
fn led_from<'r>(
    alloc: Global,
    documents: &Documents<'r>,
    place: &Place<'r>,
    text: &str,
) -> Result<Option<Target<'r>>, AllocError>
    ensures { IfOk result
        (λ t. option_map target_of t
        ≡ target_by_text (known_of documents.now) (place_of place.now) text.now) }
{
    target(alloc, documents, place, text)
}

/// Whether the bases of two places mean the same resource. Two look-ups.
pub(crate) fn is_base_kept<'b, 'a>(
    alloc: Global,
    sides: &Sides<'_, '_, '_, 'b, 'a>,
    before: &Place<'b>,
    after: &Place<'a>,
) -> Result<bool, AllocError>
    ensures value { IfOk result (λ kept. kept
        ≡ spec.is_base_kept (sides_of sides.now) (place_of before.now) (place_of after.now)) }
{
    let led = led_from(alloc, sides.before, before, "#")?;
    let leads = led_from(alloc, sides.after, after, "#")?;
    match (&led, &leads) {
        (Some(led), Some(leads)) => is_target_moved(alloc, sides, led, leads),
        (None, None) => Ok(true),
        _ => Ok(false),
    }
}
