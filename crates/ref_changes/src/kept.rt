//! Whether references lead to the same after a change.
ghost use Rattle.std.specs.Prelude.{◌≡◌, option_map, codes, IfOk};
ghost use Rattle.serde_json.specs.View.{view};
ghost use Rattle.ref_draft.specs.Views.{anchor_name};
ghost use Rattle.ref_changes.specs.Answers as spec;
ghost use Rattle.ref_changes.specs.Views.{led_of, answer_of, change_of, texts_of};

use crate::answer::{Answer, Led, resource_at};
use crate::moves::{Address, is_moved, is_moved_if};
use ref_draft::{Anchor, AnchorIter, Draft};
use ref_uri::parts::parts;
use referencing::{Registry, SortedTable, Uri};
use serde_json::Value;
use std::alloc::{AllocError, Global};
use std::rc::Rc;

/// Two registries, and what moves from the one to the other.
#[derive(Clone, Copy, Drop)]
pub(crate) struct Change<'m, 'w, 'b, 'a, 't> {
    pub moves: &'m SortedTable<Address<'t>>,
    pub before: &'w Registry<'b>,
    pub after: &'w Registry<'a>,
}

/// A text before, and the one in its place after.
#[derive(Clone, Copy, Drop)]
pub(crate) struct Texts<'b, 'a> {
    pub before: &'b str,
    pub after: &'a str,
}

/// Whether a base means the same resource. Two look-ups.
pub(crate) fn is_base_kept(
    alloc: Global,
    change: &Change<'_, '_, '_, '_, '_>,
    base: &Rc<Uri>,
    now: &Rc<Uri>,
) -> Result<bool, AllocError>
    ensures value { IfOk result
        (λ kept. kept ≡ spec.is_base_kept (change_of change.now) base.now.value now.now.value) }
{
    let before = resource_at(alloc, change.before, base)?;
    let after = resource_at(alloc, change.after, now)?;
    is_moved_if(alloc, change.moves, before.as_ref(), after.as_ref())
}

// The same of a base that there may be none of.
fn is_base_kept_if(
    alloc: Global,
    change: &Change<'_, '_, '_, '_, '_>,
    base: Option<&Rc<Uri>>,
    now: Option<&Rc<Uri>>,
) -> Result<bool, AllocError>
    ensures { IfOk result (λ kept. kept
        ≡ spec.is_base_kept_if (change_of change.now)
        (option_map (λ u. u.now.value) base.entry) (option_map (λ u. u.now.value) now.entry)) }
{
    match (base, now) {
        (Some(base), Some(now)) => is_base_kept(alloc, change, base, now),
        (None, None) => Ok(true),
        _ => Ok(false),
    }
}

/// Whether two drafts are the same.
pub(crate) fn is_draft(draft: Draft, other: Draft) -> bool
    ensures value { result ≡ spec.is_draft draft other }
{
    draft.name() == other.name()
}

// Whether what a reference leads to is where it moved, of the same draft and with the same base.
fn is_led_kept(
    alloc: Global,
    change: &Change<'_, '_, '_, '_, '_>,
    before: &Led<'_>,
    after: &Led<'_>,
) -> Result<bool, AllocError>
    ensures { IfOk result (λ kept. kept
        ≡ spec.is_led_kept (change_of change.now) (led_of before.now) (led_of after.now)) }
{
    if !is_moved(alloc, change.moves, &before.location, &after.location)? {
        return Ok(false);
    }
    if !is_draft(before.draft, after.draft) {
        return Ok(false);
    }
    is_base_kept_if(alloc, change, before.base.as_ref(), after.base.as_ref())
}

/// Whether a reference leads to the same, or fails by a fault of the same name.
pub(crate) fn is_kept(
    alloc: Global,
    change: &Change<'_, '_, '_, '_, '_>,
    before: &Answer<'_>,
    after: &Answer<'_>,
) -> Result<bool, AllocError>
    ensures value { IfOk result (λ kept. kept
        ≡ spec.is_kept (change_of change.now) (answer_of before.now) (answer_of after.now)) }
{
    match (before, after) {
        (Answer::Leads(before), Answer::Leads(after)) => is_led_kept(alloc, change, before, after),
        (Answer::Fails(before), Answer::Fails(after)) => Ok(*before == *after),
        _ => Ok(false),
    }
}

// Whether an anchor is the dynamic one with a name.
fn is_dynamic_anchor(anchor: &Anchor<'_>, name: &str) -> bool
    ensures { result ≡ spec.is_dynamic_anchor name.now (anchor_name anchor.now) }
{
    match anchor {
        Anchor::Default { .. } => false,
        Anchor::Dynamic { name: own, .. } => *own == name,
    }
}

// Whether a value has it.
fn has_anchor(draft: Draft, value: &Value, name: &str) -> bool
    ensures { result
        ≡ spec.has_dynamic_anchor name.now draft (view value.now) }
{
    match draft.anchors(value) {
        AnchorIter::Empty => false,
        AnchorIter::One(anchor) => is_dynamic_anchor(&anchor, name),
        AnchorIter::Two(first, second) => {
            is_dynamic_anchor(&first, name) || is_dynamic_anchor(&second, name)
        }
    }
}

/// Whether what a reference leads to has a dynamic anchor of a name.
pub(crate) fn has_dynamic(name: &str, answer: &Answer<'_>) -> bool
    ensures value { result ≡ spec.has_dynamic name.now (answer_of answer.now) }
{
    match answer {
        Answer::Leads(led) => has_anchor(led.draft, led.value, name),
        Answer::Fails(_) => false,
    }
}

/// The name of the dynamic anchor that a reference leads to.
pub(crate) fn dynamic_name<'t>(reference: &'t str, answer: &Answer<'_>) -> Option<&'t str>
    ensures value { option_map (λ n. n.now) result
        ≡ spec.dynamic_name reference.now (answer_of answer.now) }
{
    let (_, fragment) = parts(reference);
    if fragment.is_empty() || fragment.starts_with('/') {
        return None;
    }
    if has_dynamic(fragment, answer) {
        Some(fragment)
    } else {
        None
    }
}

/// Whether a name means the same from two bases, by what it leads to from each.
pub(crate) fn is_name_kept(
    alloc: Global,
    change: &Change<'_, '_, '_, '_, '_>,
    names: &Texts<'_, '_>,
    before: &Answer<'_>,
    after: &Answer<'_>,
) -> Result<bool, AllocError>
    ensures value { IfOk result (λ kept. kept
        ≡ spec.is_name_kept (change_of change.now) (texts_of names.now)
        (answer_of before.now) (answer_of after.now)) }
{
    if !is_kept(alloc, change, before, after)? {
        return Ok(false);
    }
    Ok(has_dynamic(names.before, before) == has_dynamic(names.after, after))
}
