//! The names of dynamic anchors that references lead to.
ghost use Rattle.std.specs.Prelude.{◌≡◌, map, flat_map, IfOk, OnOk};
ghost use Rattle.std.specs.List.{list_any};
ghost use Rattle.ref_changes.specs.Answers as answers;
ghost use Rattle.ref_changes.specs.Changes as spec;
ghost use Rattle.ref_changes.specs.Views.{change_of, texts_of, site_of_place};
ghost use Rattle.ref_changes.specs.inner.Tables.{IsTable};
ghost use Rattle.ref_changes.specs.inner.Firsts.{SaysFirst, DiffersFirst};

use crate::answer::answered;
use crate::difference::{Difference, What};
use crate::differing::{difference_at, leading_by, named, reference_keywords};
use crate::kept::{Change, Texts, dynamic_name, is_name_kept};
use crate::sites::{Sites, site_after};
use ref_index::meanings::text_under;
use referencing::Place;
use std::alloc::{AllocError, Global};

// Whether texts are among others.
fn is_among(all: &[Texts<'_, '_>], texts: &Texts<'_, '_>) -> bool
    ensures { result
        ≡ list_any (spec.is_texts (texts_of texts.now)) (map texts_of all.now) }
{
    for other in all {
        if texts.before == other.before && texts.after == other.after {
            return true;
        }
    }
    false
}

// Adds texts, unless they are there.
fn add<'w>(all: &mut Vec<Texts<'w, 'w>>, texts: Texts<'w, 'w>) -> Result<(), AllocError>
    ensures { OnOk result
        (map texts_of all.new.items
        ≡ spec.with_texts (map texts_of all.old.items) (texts_of texts.entry)) }
{
    if !is_among(all.as_slice(), &texts) {
        all.push(texts)?;
    }
    Ok(())
}

// Adds the names of dynamic anchors that these texts lead to.
fn add_texts<'w>(
    alloc: Global,
    change: &Change<'_, '_, '_, '_, '_>,
    all: &mut Vec<Texts<'w, 'w>>,
    before: &Place<'_>,
    after: &Place<'_>,
    texts: Texts<'w, 'w>,
) -> Result<(), AllocError>
    ensures { OnOk result
        (map texts_of all.new.items
        ≡ spec.with_each (map texts_of all.old.items)
        (spec.names_of
        (answers.dynamic_name texts.entry.before.now
        (answers.answer (change_of change.now).before (site_of_place before.now).base
        texts.entry.before.now))
        (answers.dynamic_name texts.entry.after.now
        (answers.answer (change_of change.now).after (site_of_place after.now).base
        texts.entry.after.now)))) }
{
    let led = answered(alloc, change.before, &before.base, texts.before)?;
    let Some(text) = dynamic_name(texts.before, &led) else {
        return Ok(());
    };
    let leads = answered(alloc, change.after, &after.base, texts.after)?;
    match dynamic_name(texts.after, &leads) {
        Some(now) => add(
            all,
            Texts {
                before: text,
                after: now,
            },
        ),
        None => Ok(()),
    }
}

// Adds the names that the reference under a keyword leads to.
fn add_keyword<'w>(
    alloc: Global,
    change: &Change<'_, '_, '_, '_, '_>,
    all: &mut Vec<Texts<'w, 'w>>,
    before: &Place<'w>,
    after: &Place<'w>,
    keyword: &'static str,
) -> Result<(), AllocError>
    ensures { OnOk result
        (map texts_of all.new.items
        ≡ spec.with_each (map texts_of all.old.items)
        (spec.keyword_names (change_of change.now) (site_of_place before.now)
        (site_of_place after.now) keyword.now)) }
{
    match (
        text_under(before.value, keyword),
        text_under(after.value, keyword),
    ) {
        (Some(text), Some(now)) => {
            add_texts(
                alloc,
                change,
                all,
                before,
                after,
                Texts {
                    before: text,
                    after: now,
                },
            )
        }
        _ => Ok(()),
    }
}

// Adds those of a place.
fn add_place<'w>(
    alloc: Global,
    change: &Change<'_, '_, '_, '_, '_>,
    all: &mut Vec<Texts<'w, 'w>>,
    before: &Place<'w>,
    after: &Place<'w>,
) -> Result<(), AllocError>
    ensures { OnOk result
        (map texts_of all.new.items
        ≡ spec.with_each (map texts_of all.old.items)
        (spec.names_at (change_of change.now) (site_of_place before.now)
        (site_of_place after.now))) }
{
    for keyword in reference_keywords(before.draft) {
        add_keyword(alloc, change, all, before, after, *keyword)?;
    }
    Ok(())
}

// Adds those of a place, where there is one after.
fn add_site<'w>(
    alloc: Global,
    change: &Change<'_, '_, '_, '_, '_>,
    all: &mut Vec<Texts<'w, 'w>>,
    after: &Sites<'_, 'w>,
    place: &Place<'w>,
) -> Result<(), AllocError>
    requires { IsTable after.now }
    ensures { OnOk result
        (map texts_of all.new.items
        ≡ spec.with_each (map texts_of all.old.items)
        (spec.site_names (change_of change.now) (map site_of_place after.now.places.now)
        (site_of_place place.now))) }
{
    match site_after(alloc, change.moves, after, place)? {
        Some(now) => add_place(alloc, change, all, place, now),
        None => Ok(()),
    }
}

/// Those of places, each once. Look-ups for each reference.
pub(crate) fn all_names<'w>(
    alloc: Global,
    change: &Change<'_, '_, '_, '_, '_>,
    before: &[Place<'w>],
    after: &Sites<'_, 'w>,
) -> Result<Vec<Texts<'w, 'w>>, AllocError>
    requires { IsTable after.now }
    ensures value { IfOk result (λ all. map texts_of all.items
        ≡ spec.all_names (change_of change.now) (map site_of_place before.now)
        (map site_of_place after.now.places.now)) }
{
    let mut all = Vec::new(alloc);
    for place in before {
        add_site(alloc, change, &mut all, after, place)?;
    }
    Ok(all)
}

// What differs of what names lead to from the bases of two places.
fn name_what<'w>(
    alloc: Global,
    change: &Change<'_, 'w, '_, '_, '_>,
    names: &Texts<'_, '_>,
    before: &Place<'_>,
    after: &Place<'_>,
) -> Result<Option<What<'w>>, AllocError>
    ensures { SaysFirst result
        (spec.name_whats (change_of change.now) (texts_of names.now) (site_of_place before.now)
        (site_of_place after.now)) }
{
    let text = named(alloc, names.before)?;
    let now = named(alloc, names.after)?;
    let led = answered(alloc, change.before, &before.base, text.as_str())?;
    let leads = answered(alloc, change.after, &after.base, now.as_str())?;
    if is_name_kept(alloc, change, names, &led, &leads)? {
        return Ok(None);
    }
    let texts = Texts {
        before: text.as_str(),
        after: now.as_str(),
    };
    let leading = leading_by(alloc, &texts, led, leads)?;
    Ok(Some(What::OtherName(leading)))
}

// The difference at a place of what names lead to.
fn name_difference<'w>(
    alloc: Global,
    change: &Change<'_, 'w, '_, '_, '_>,
    after: &Sites<'_, 'w>,
    names: &Texts<'_, '_>,
    place: &Place<'w>,
) -> Result<Option<Difference<'w>>, AllocError>
    requires { IsTable after.now }
    ensures { DiffersFirst result
        (spec.name_differences (change_of change.now) (map site_of_place after.now.places.now)
        (texts_of names.now) (site_of_place place.now)) }
{
    let what = match site_after(alloc, change.moves, after, place)? {
        Some(now) => name_what(alloc, change, names, place, now)?,
        None => None,
    };
    difference_at(alloc, place, what)
}

/// The first difference of what names lead to from the bases of places.
pub(crate) fn names_difference<'w>(
    alloc: Global,
    change: &Change<'_, 'w, '_, '_, '_>,
    before: &[Place<'w>],
    after: &Sites<'_, 'w>,
    names: &Texts<'_, '_>,
) -> Result<Option<Difference<'w>>, AllocError>
    requires { IsTable after.now }
    ensures value { DiffersFirst result
        (flat_map
        (spec.name_differences (change_of change.now) (map site_of_place after.now.places.now)
        (texts_of names.now)) (map site_of_place before.now)) }
{
    for place in before {
        if let Some(difference) = name_difference(alloc, change, after, names, place)? {
            return Ok(Some(difference));
        }
    }
    Ok(None)
}
