//! What differs at a place.
ghost use Rattle.std.specs.Prelude.{◌≡◌, map, flat_map, option_map, string_bytes, IfOk};
ghost use Rattle.serde_json.specs.View.{view};
ghost use Rattle.ref_draft.specs.Anchors.{anchors as anchors_of};
ghost use Rattle.ref_draft.specs.Views.{anchor_name};
ghost use Rattle.ref_definitions.specs.Lookup.{is_dynamic};
ghost use Rattle.ref_definitions.specs.Recursive.{is_marked as marked};
ghost use Rattle.ref_changes.specs.Answers as answers;
ghost use Rattle.ref_changes.specs.Changes as spec;
ghost use Rattle.ref_changes.specs.Views.{answer_of, change_of, texts_of, site_of_place, leading_of, difference_of, what_of};
ghost use Rattle.ref_changes.specs.inner.Tables.{IsTable};
ghost use Rattle.ref_changes.specs.inner.Firsts.{SaysFirst, DiffersFirst};

use crate::answer::{Answer, answered, led_to};
use crate::difference::{Difference, Leading, What};
use crate::kept::{Change, Texts, dynamic_name, is_base_kept, is_draft, is_kept};
use crate::sites::{Sites, site_after};
use ref_draft::{Anchor, AnchorIter, Draft};
use ref_index::meanings::text_under;
use referencing::{Place, Registry};
use serde_json::Value;
use std::alloc::{AllocError, Global};

/// The keywords of references in a draft.
pub(crate) fn reference_keywords(draft: Draft) -> &'static [&'static str]
    ensures value { map (λ k. k.now) result.now ≡ spec.reference_keywords draft }
{
    match draft {
        Draft::Draft4 | Draft::Draft6 | Draft::Draft7 => &["$ref"],
        Draft::Draft201909 => &["$ref", "$recursiveRef"],
        Draft::Draft202012 | Draft::Unknown => &["$ref", "$dynamicRef"],
    }
}

/// What texts lead to.
pub(crate) fn leading_by<'w>(
    alloc: Global,
    texts: &Texts<'_, '_>,
    before: Answer<'w>,
    after: Answer<'w>,
) -> Result<Leading<'w>, AllocError>
    ensures value { IfOk result (λ l. leading_of l
        ≡ spec.leading (texts_of texts.now) (answer_of before.entry) (answer_of after.entry)) }
{
    let text = String::from_str(alloc, texts.before)?;
    let now = String::from_str(alloc, texts.after)?;
    Ok(Leading {
        before: text,
        after: now,
        led: led_to(before),
        leads: led_to(after),
    })
}

// Whether a reference is kept, also in that the dynamic scope counts.
fn is_reference_kept(
    alloc: Global,
    change: &Change<'_, '_, '_, '_, '_>,
    texts: &Texts<'_, '_>,
    before: &Answer<'_>,
    after: &Answer<'_>,
) -> Result<bool, AllocError>
    ensures { IfOk result (λ kept. kept
        ≡ spec.is_reference_kept (change_of change.now) (texts_of texts.now)
        (answer_of before.now) (answer_of after.now)) }
{
    if !is_kept(alloc, change, before, after)? {
        return Ok(false);
    }
    let name = dynamic_name(texts.before, before);
    let now = dynamic_name(texts.after, after);
    Ok(name.is_some() == now.is_some())
}

// What differs of a reference.
fn reference_what<'w>(
    alloc: Global,
    change: &Change<'_, 'w, '_, '_, '_>,
    keyword: &'static str,
    texts: &Texts<'_, '_>,
    before: Answer<'w>,
    after: Answer<'w>,
) -> Result<Option<What<'w>>, AllocError>
    ensures { SaysFirst result
        (spec.reference_by (change_of change.now) keyword.now (texts_of texts.now)
        (answer_of before.entry) (answer_of after.entry)) }
{
    if is_reference_kept(alloc, change, texts, &before, &after)? {
        return Ok(None);
    }
    let leading = leading_by(alloc, texts, before, after)?;
    Ok(Some(What::OtherReference(keyword, leading)))
}

// What differs of the texts under a keyword, which both have.
fn texts_what<'w>(
    alloc: Global,
    change: &Change<'_, 'w, '_, '_, '_>,
    before: &Place<'_>,
    after: &Place<'_>,
    keyword: &'static str,
    texts: &Texts<'_, '_>,
) -> Result<Option<What<'w>>, AllocError>
    ensures { SaysFirst result
        (spec.reference_by (change_of change.now) keyword.now (texts_of texts.now)
        (answers.answer (change_of change.now).before (site_of_place before.now).base
        texts.now.before.now)
        (answers.answer (change_of change.now).after (site_of_place after.now).base
        texts.now.after.now)) }
{
    let led = answered(alloc, change.before, &before.base, texts.before)?;
    let leads = answered(alloc, change.after, &after.base, texts.after)?;
    reference_what(alloc, change, keyword, texts, led, leads)
}

// What differs under a keyword.
fn keyword_what<'w>(
    alloc: Global,
    change: &Change<'_, 'w, '_, '_, '_>,
    before: &Place<'_>,
    after: &Place<'_>,
    keyword: &'static str,
) -> Result<Option<What<'w>>, AllocError>
    ensures { SaysFirst result
        (spec.keyword_whats (change_of change.now) (site_of_place before.now)
        (site_of_place after.now) keyword.now) }
{
    match (
        text_under(before.value, keyword),
        text_under(after.value, keyword),
    ) {
        (Some(text), Some(now)) => {
            let texts = Texts {
                before: text,
                after: now,
            };
            texts_what(alloc, change, before, after, keyword, &texts)
        }
        (None, None) => Ok(None),
        _ => Ok(Some(What::OtherText(keyword))),
    }
}

// What differs under the keywords of references.
fn keywords_what<'w>(
    alloc: Global,
    change: &Change<'_, 'w, '_, '_, '_>,
    before: &Place<'_>,
    after: &Place<'_>,
) -> Result<Option<What<'w>>, AllocError>
    ensures { SaysFirst result
        (flat_map
        (spec.keyword_whats (change_of change.now) (site_of_place before.now)
        (site_of_place after.now))
        (spec.reference_keywords before.now.draft)) }
{
    for keyword in reference_keywords(before.draft) {
        if let Some(what) = keyword_what(alloc, change, before, after, *keyword)? {
            return Ok(Some(what));
        }
    }
    Ok(None)
}

/// A name as a reference.
pub(crate) fn named(alloc: Global, name: &str) -> Result<String, AllocError>
    ensures value { IfOk result (λ text. string_bytes text ≡ answers.named name.now) }
{
    let mut text = String::from_str(alloc, "#")?;
    text.push_str(name)?;
    Ok(text)
}

/// What a name leads to from the base of a place, in the registry that has it.
fn named_answer<'r>(
    alloc: Global,
    registry: &'r Registry<'_>,
    place: &Place<'_>,
    name: &str,
) -> Result<Answer<'r>, AllocError>
    ensures { IfOk result (λ a. answer_of a
        ≡ answers.answer registry.now (site_of_place place.now).base (answers.named name.now)) }
{
    let reference = named(alloc, name)?;
    answered(alloc, registry, &place.base, reference.as_str())
}

// Whether an anchor is a dynamic one.
fn is_dynamic_one(anchor: &Anchor<'_>) -> bool
    ensures { result ≡ is_dynamic (anchor_name anchor.now).1 }
{
    match anchor {
        Anchor::Default { .. } => false,
        Anchor::Dynamic { .. } => true,
    }
}

// Whether an anchor means what it meant.
fn is_anchor_kept(
    alloc: Global,
    change: &Change<'_, '_, '_, '_, '_>,
    before: &Place<'_>,
    after: &Place<'_>,
    anchor: &Anchor<'_>,
    now: &Anchor<'_>,
) -> Result<bool, AllocError>
    ensures { IfOk result (λ kept. kept
        ≡ spec.is_anchor_kept (change_of change.now) (site_of_place before.now)
        (site_of_place after.now) (anchor_name anchor.now) (anchor_name now.now)) }
{
    if is_dynamic_one(anchor) != is_dynamic_one(now) {
        return Ok(false);
    }
    let led = named_answer(alloc, change.before, before, anchor.name())?;
    let leads = named_answer(alloc, change.after, after, now.name())?;
    is_kept(alloc, change, &led, &leads)
}

// Whether the anchors of a place mean what they meant.
fn are_anchors_kept(
    alloc: Global,
    change: &Change<'_, '_, '_, '_, '_>,
    before: &Place<'_>,
    after: &Place<'_>,
) -> Result<bool, AllocError>
    ensures { IfOk result (λ kept. kept
        ≡ spec.are_anchors_kept (change_of change.now) (site_of_place before.now)
        (site_of_place after.now) (anchors_of before.now.draft (view before.now.value.now))
        (anchors_of after.now.draft (view after.now.value.now))) }
{
    match (
        before.draft.anchors(before.value),
        after.draft.anchors(after.value),
    ) {
        (AnchorIter::Empty, AnchorIter::Empty) => Ok(true),
        (AnchorIter::One(anchor), AnchorIter::One(now)) => {
            is_anchor_kept(alloc, change, before, after, &anchor, &now)
        }
        (AnchorIter::Two(anchor, next), AnchorIter::Two(now, other)) => {
            let first = is_anchor_kept(alloc, change, before, after, &anchor, &now)?;
            Ok(first && is_anchor_kept(alloc, change, before, after, &next, &other)?)
        }
        _ => Ok(false),
    }
}

// Whether a value has `$recursiveAnchor: true`.
fn is_marked(value: &Value) -> bool
    ensures { result ≡ marked (view value.now) }
{
    match value.get("$recursiveAnchor") {
        Some(mark) => mark.as_bool() == Some(true),
        None => false,
    }
}

// What differs between two places.
fn place_what<'w>(
    alloc: Global,
    change: &Change<'_, 'w, '_, '_, '_>,
    before: &Place<'_>,
    after: &Place<'_>,
) -> Result<Option<What<'w>>, AllocError>
    ensures { SaysFirst result
        (spec.whats_at (change_of change.now) (site_of_place before.now)
        (site_of_place after.now)) }
{
    if !is_draft(before.draft, after.draft) {
        return Ok(Some(What::OtherDraft));
    }
    if !is_base_kept(alloc, change, &before.base, &after.base)? {
        return Ok(Some(What::OtherBase));
    }
    if is_marked(before.value) != is_marked(after.value) {
        return Ok(Some(What::OtherMark));
    }
    if !are_anchors_kept(alloc, change, before, after)? {
        return Ok(Some(What::OtherAnchors));
    }
    keywords_what(alloc, change, before, after)
}

// A place of its own.
fn copied<'w>(alloc: Global, place: &Place<'w>) -> Result<Place<'w>, AllocError>
    ensures { IfOk result (λ p. site_of_place p ≡ site_of_place place.now) }
{
    let path = place.path.as_slice().to_vec(alloc)?;
    let base = place.base.clone()?;
    Ok(Place {
        document: place.document,
        path,
        value: place.value,
        base,
        draft: place.draft,
    })
}

/// The difference at a place, where there is one.
pub(crate) fn difference_at<'w>(
    alloc: Global,
    place: &Place<'w>,
    what: Option<What<'w>>,
) -> Result<Option<Difference<'w>>, AllocError>
    ensures value { IfOk result (λ d. option_map difference_of d
        ≡ option_map (spec.differs (site_of_place place.now)) (option_map what_of what.entry)) }
{
    match what {
        Some(what) => Ok(Some(Difference {
            place: copied(alloc, place)?,
            what,
        })),
        None => Ok(None),
    }
}

/// The first difference at a place.
pub(crate) fn site_difference<'w>(
    alloc: Global,
    change: &Change<'_, 'w, '_, '_, '_>,
    after: &Sites<'_, 'w>,
    place: &Place<'w>,
) -> Result<Option<Difference<'w>>, AllocError>
    requires { IsTable after.now }
    ensures value { DiffersFirst result
        (spec.site_differences (change_of change.now) (map site_of_place after.now.places.now)
        (site_of_place place.now)) }
{
    let what = match site_after(alloc, change.moves, after, place)? {
        Some(now) => place_what(alloc, change, place, now)?,
        None => Some(What::NoPlace),
    };
    difference_at(alloc, place, what)
}
