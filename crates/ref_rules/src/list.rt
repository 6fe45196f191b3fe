//! What is told of places.
ghost use Rattle.std.specs.Prelude.{◌≡◌, ◌++◌, ◌∷◌, [], map, filter, option_map, is_some, IfOk, OnOk};
ghost use Rattle.serde_json.specs.View.{view};
ghost use Rattle.ref_draft.specs.Schema.{text_under};
ghost use Rattle.ref_rules.specs.Slips as spec;
ghost use Rattle.ref_rules.specs.Slips.{is_there, is_text_or_not_id, of_another, dialects_within, beside_ref, each, misspelled_at, slips_at};
ghost use Rattle.ref_rules.specs.Tables as tables;
ghost use Rattle.ref_rules.specs.Views.{place_of, slip_of};
ghost use Rattle.ref_rules.specs.declared.slip.Problem.TheVariants.{OfAnotherDraft, DialectWithin, IgnoredBesideRef, UnheardBesideRef};
ghost use Rattle.ref_rules.specs.inner.Adding.{AddsSlips, kept, is_other_there};

use crate::dialect::misspelled;
use crate::slip::{Place, Problem, Slip};
use crate::suspect::may_slip;
use crate::tables::{decides, of_others, tells};
use ref_draft::ResourceRef;
use serde_json::Value;
use std::alloc::{AllocError, Global};

// The text under a keyword.
pub(crate) fn text_under<'v>(value: &'v Value, keyword: &str) -> Option<&'v str>
    ensures { option_map (λ text. text.now) result ≡ text_under keyword.now (view value.now) }
{
    value.get(keyword).and_then(Value::as_str)
}

// Whether a value has a text under a keyword.
pub(crate) fn has_text(value: &Value, keyword: &str) -> bool
    ensures { result ≡ is_some (text_under keyword.now (view value.now)) }
{
    text_under(value, keyword).is_some()
}

// Whether a value has a keyword.
pub(crate) fn is_there(value: &Value, keyword: &str) -> bool
    ensures { result ≡ is_there (view value.now) keyword.now }
{
    value.get(keyword).is_some()
}

// Whether a keyword is no `id`, or has a text.
fn is_text_or_not_id(value: &Value, keyword: &str) -> bool
    ensures { result ≡ is_text_or_not_id (view value.now) keyword.now }
{
    keyword != "id" || has_text(value, keyword)
}

// Adds what is told of a keyword.
fn push(
    list: &mut Vec<Slip>,
    place: usize,
    problem: Problem,
    keyword: &'static str,
) -> Result<(), AllocError>
    ensures { OnOk result
        (AddsSlips (each place problem (keyword.now ∷ [])) list.old.items list.new.items) }
{
    list.push(Slip {
        place,
        keyword,
        problem,
    })?;
    Ok(())
}

// Adds a keyword, where it is there and the draft of a place doesn't have it.
fn push_other(
    list: &mut Vec<Slip>,
    number: usize,
    place: Place<'_>,
    keyword: &'static str,
) -> Result<(), AllocError>
    ensures { OnOk result
        (AddsSlips
        (each number (OfAnotherDraft place.entry.draft)
        (kept (is_other_there (view place.entry.value.now)) keyword.now))
        list.old.items list.new.items) }
{
    if is_there(place.value, keyword) && is_text_or_not_id(place.value, keyword) {
        return push(list, number, Problem::OfAnotherDraft(place.draft), keyword);
    }
    Ok(())
}

// Adds the keywords that the draft of a place doesn't have.
fn push_others(list: &mut Vec<Slip>, number: usize, place: Place<'_>) -> Result<(), AllocError>
    ensures { OnOk result
        (AddsSlips (each number (OfAnotherDraft place.entry.draft) (of_another (place_of place.entry)))
        list.old.items list.new.items) }
{
    let keywords = of_others(place.draft);
    for keyword in keywords {
        push_other(list, number, place, *keyword)?;
    }
    Ok(())
}

// Adds a `$schema` that doesn't count where it is.
fn push_within(list: &mut Vec<Slip>, number: usize, place: Place<'_>) -> Result<(), AllocError>
    ensures { OnOk result
        (AddsSlips (each number DialectWithin (dialects_within (place_of place.entry)))
        list.old.items list.new.items) }
{
    if place.is_root || !has_text(place.value, "$schema") {
        return Ok(());
    }
    if ResourceRef::new(place.value, place.draft).id().is_some() {
        return Ok(());
    }
    push(list, number, Problem::DialectWithin, "$schema")
}

// Adds a keyword, where it is there.
fn push_there(
    list: &mut Vec<Slip>,
    number: usize,
    place: Place<'_>,
    problem: Problem,
    keyword: &'static str,
) -> Result<(), AllocError>
    ensures { OnOk result
        (AddsSlips (each number problem (kept (is_there (view place.entry.value.now)) keyword.now))
        list.old.items list.new.items) }
{
    if is_there(place.value, keyword) {
        return push(list, number, problem, keyword);
    }
    Ok(())
}

// Adds those of these keywords that are there.
fn push_all_there(
    list: &mut Vec<Slip>,
    number: usize,
    place: Place<'_>,
    problem: Problem,
    keywords: &'static [&'static str],
) -> Result<(), AllocError>
    ensures { OnOk result
        (AddsSlips
        (each number problem
        (filter (is_there (view place.entry.value.now)) (map (λ k. k.now) keywords.now)))
        list.old.items list.new.items) }
{
    for keyword in keywords {
        push_there(list, number, place, problem, *keyword)?;
    }
    Ok(())
}

// Adds the keywords that count for nothing beside a `$ref`.
fn push_beside(list: &mut Vec<Slip>, number: usize, place: Place<'_>) -> Result<(), AllocError>
    ensures { OnOk result
        (AddsSlips
        (each number IgnoredBesideRef (beside_ref (place_of place.entry) (tables.decides place.entry.draft))
        ++ each number UnheardBesideRef (beside_ref (place_of place.entry) (tables.tells place.entry.draft)))
        list.old.items list.new.items) }
{
    if !has_text(place.value, "$ref") {
        return Ok(());
    }
    let decides = decides(place.draft);
    push_all_there(list, number, place, Problem::IgnoredBesideRef, decides)?;
    let tells = tells(place.draft);
    push_all_there(list, number, place, Problem::UnheardBesideRef, tells)
}

// Adds a `$schema` that is written in another way.
fn push_misspelled(
    alloc: Global,
    list: &mut Vec<Slip>,
    number: usize,
    place: Place<'_>,
) -> Result<(), AllocError>
    ensures { OnOk result
        (AddsSlips (misspelled_at number (place_of place.entry)) list.old.items list.new.items) }
{
    let Some(text) = text_under(place.value, "$schema") else {
        return Ok(());
    };
    match misspelled(alloc, text)? {
        Some(draft) => push(list, number, Problem::MisspelledDialect(draft), "$schema"),
        None => Ok(()),
    }
}

// Adds what is told of the place with a number, where anything may be told of it.
fn push_slips(
    alloc: Global,
    list: &mut Vec<Slip>,
    number: usize,
    place: Place<'_>,
) -> Result<(), AllocError>
    ensures { OnOk result
        (AddsSlips (slips_at (number, place_of place.entry)) list.old.items list.new.items) }
{
    if !may_slip(place) {
        return Ok(());
    }
    push_others(list, number, place)?;
    push_within(list, number, place)?;
    push_beside(list, number, place)?;
    push_misspelled(alloc, list, number, place)
}

/// What is told of places where schemas are, place by place: keywords that the draft of a place doesn't have and another one has; a `$schema`
/// within a schema that has no identifier (2020-12 Core, 8.1.1); in Drafts 4 to 7 keywords beside a `$ref`, which count for nothing there (Draft 7
/// Core, 8.3); and a `$schema` that means a draft and is not the URI of its meta-schema. Fails only if out of memory. A step for each member of a place, and where
/// something may be told of it some twenty look-ups.
pub fn slips(alloc: Global, places: &[Place<'_>]) -> Result<Vec<Slip>, AllocError>
    ensures value { IfOk result
        (λ list. map slip_of list.items ≡ spec.slips (map place_of places.now)) }
{
    let mut list = Vec::new(alloc);
    for (number, place) in places.iter().enumerate() {
        push_slips(alloc, &mut list, number, *place)?;
    }
    Ok(list)
}
