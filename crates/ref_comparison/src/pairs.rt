//! Whether the references of two places are the same.
ghost use Rattle.std.specs.Prelude.{◌≡◌, map, slice_get, Some, IfOk};
ghost use Rattle.serde_json.specs.View.{view};
ghost use Rattle.ref_descriptions.specs.References.{references as references_of};
ghost use Rattle.ref_descriptions.specs.Views.{reference_of};
ghost use Rattle.ref_reach.specs.Leading.{is_mapped as mapped};
ghost use Rattle.ref_reach.specs.Views.{place_of};
ghost use Rattle.ref_comparison.specs.Further as spec;
ghost use Rattle.ref_comparison.specs.Views.{sides_of, what_of};
ghost use Rattle.ref_comparison.specs.inner.Firsts.{SaysFirst};
ghost use Rattle.ref_comparison.specs.inner.Pairs.{pair_whats, whats_at};

use crate::difference::What;
use crate::names::is_name_kept;
use crate::sides::{Sides, is_target_kept};
use ref_descriptions::{Reference, Under, references};
use ref_reach::{Place, is_name};
use std::alloc::{AllocError, Global};

/// What differs first of the references of two places. Two look-ups for each.
pub(crate) fn references_what<'b, 'a>(
    alloc: Global,
    sides: &Sides<'_, '_, '_, 'b, 'a>,
    place: &Place<'b>,
    other: &Place<'a>,
) -> Result<Option<What>, AllocError>
    ensures value { SaysFirst result
        (spec.reference_whats (sides_of sides.now) (place_of place.now) (place_of other.now)
        (references_of place.now.reading (view place.now.value.now))
        (references_of other.now.reading (view other.now.value.now))) }
{
    let list = references(alloc, place.reading, place.value)?;
    let others = references(alloc, other.reading, other.value)?;
    lists_what(
        alloc,
        sides,
        place,
        other,
        list.as_slice(),
        others.as_slice(),
    )
}

// What differs first of lists of references.
fn lists_what<'b, 'a>(
    alloc: Global,
    sides: &Sides<'_, '_, '_, 'b, 'a>,
    place: &Place<'b>,
    other: &Place<'a>,
    list: &[Reference<'_>],
    others: &[Reference<'_>],
) -> Result<Option<What>, AllocError>
    ensures { SaysFirst result
        (spec.reference_whats (sides_of sides.now) (place_of place.now) (place_of other.now)
        (map reference_of list.now) (map reference_of others.now)) }
{
    for index in 0..list.len() {
        let what = what_at(alloc, sides, place, other, list, others, index)?;
        if let Some(what) = what {
            return Ok(Some(what));
        }
    }
    what_at(alloc, sides, place, other, list, others, list.len())
}

// What differs of those with a number, where one of both lists has one.
fn what_at<'b, 'a>(
    alloc: Global,
    sides: &Sides<'_, '_, '_, 'b, 'a>,
    place: &Place<'b>,
    other: &Place<'a>,
    list: &[Reference<'_>],
    others: &[Reference<'_>],
    index: usize,
) -> Result<Option<What>, AllocError>
    ensures { SaysFirst result
        (whats_at (sides_of sides.now) (place_of place.now) (place_of other.now)
        (slice_get (map reference_of list.now) index)
        (slice_get (map reference_of others.now) index)) }
{
    match (list.get(index), others.get(index)) {
        (Some(reference), Some(now)) => pair_what(alloc, sides, place, other, reference, now),
        (None, None) => Ok(None),
        _ => Ok(Some(What::OtherReferences)),
    }
}

// What differs of two references.
fn pair_what<'b, 'a>(
    alloc: Global,
    sides: &Sides<'_, '_, '_, 'b, 'a>,
    place: &Place<'b>,
    other: &Place<'a>,
    reference: &Reference<'_>,
    now: &Reference<'_>,
) -> Result<Option<What>, AllocError>
    ensures { SaysFirst result
        (pair_whats (sides_of sides.now) (place_of place.now) (place_of other.now)
        (reference_of reference.now) (reference_of now.now)) }
{
    if is_mapped(reference) != is_mapped(now) || reference.keyword != now.keyword {
        return Ok(Some(What::OtherReferences));
    }
    match (reference.text, now.text) {
        (Some(text), Some(changed)) => {
            text_what(alloc, sides, reference, (place, text), (other, changed))
        }
        (None, None) => Ok(None),
        _ => Ok(Some(What::OtherReferences)),
    }
}

// Whether a reference is in a mapping.
fn is_mapped(reference: &Reference<'_>) -> bool
    ensures { result ≡ mapped (reference_of reference.now) }
{
    match reference.under {
        Under::Itself => false,
        Under::Mapping => true,
    }
}

// What differs of the texts of two references.
fn text_what<'b, 'a>(
    alloc: Global,
    sides: &Sides<'_, '_, '_, 'b, 'a>,
    reference: &Reference<'_>,
    before: (&Place<'b>, &str),
    after: (&Place<'a>, &str),
) -> Result<Option<What>, AllocError>
    ensures { SaysFirst result
        (spec.text_whats (sides_of sides.now) (place_of before.entry.0.now)
        (place_of after.entry.0.now) (reference_of reference.now) (Some before.entry.1.now)
        (Some after.entry.1.now)) }
{
    if is_text_kept(alloc, sides, reference, before, after)? {
        return Ok(None);
    }
    let what = other_target(alloc, reference.keyword, before.1, after.1)?;
    Ok(Some(what))
}

// Whether a text means what it meant.
fn is_text_kept<'b, 'a>(
    alloc: Global,
    sides: &Sides<'_, '_, '_, 'b, 'a>,
    reference: &Reference<'_>,
    before: (&Place<'b>, &str),
    after: (&Place<'a>, &str),
) -> Result<bool, AllocError>
    ensures { IfOk result (λ kept. kept
        ≡ spec.is_text_kept (sides_of sides.now) (place_of before.entry.0.now)
        (place_of after.entry.0.now) (reference_of reference.now)
        (record { text = before.entry.1.now; now = after.entry.1.now })) }
{
    let (place, text) = before;
    let (other, now) = after;
    if !(is_mapped(reference) && is_name(sides.before, place.document, text)) {
        return is_target_kept(alloc, sides, before, after);
    }
    if !is_name(sides.after, other.document, now) {
        return Ok(false);
    }
    is_name_kept(alloc, sides, before, after)
}

fn other_target(alloc: Global, keyword: &str, text: &str, now: &str) -> Result<What, AllocError>
    ensures { IfOk result (λ what. what_of what
        ≡ spec.OtherTarget keyword.now (record { text = text.now; now = now.now })) }
{
    let keyword = String::from_str(alloc, keyword)?;
    let before = String::from_str(alloc, text)?;
    let after = String::from_str(alloc, now)?;
    Ok(What::OtherTarget(keyword, before, after))
}
