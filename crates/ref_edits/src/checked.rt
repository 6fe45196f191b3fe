//! What differs once a change is made. Read `specs/Checked.antt` first, upon `Changed.antt`.
ghost use Rattle.std.specs.Prelude.{◌≡◌, true, None, All, IfOk};
ghost use Rattle.ref_edits.specs.Checked.{IsEditRead};

use crate::after::{registry_after, unlike, value_of, values_of};
use crate::given::{Given, Written};
use crate::plan::{Plan, Unmade};
use crate::splicing::Edit;
use crate::trees::{is_changed, wanted_of};
use crate::uses::Led;
use ref_changes::{Address, Difference, Leading, Move, What, compare};
use ref_comparison::{What as Further, further_difference};
use ref_further::{Survey, survey_of};
use ref_index::segments_of;
use ref_parts::pointer_of;
use referencing::{Location, Registry};
use std::alloc::{AllocError, Global};

/// What differs at a place, in words.
#[derive(Debug, Drop)]
pub struct Told {
    /// The number of the document.
    pub document: usize,
    /// The pointer to the place there before.
    pub pointer: String,
    /// What differs.
    pub text: String,
    /// Where a reference led.
    pub led: Option<Led>,
    /// Where it would lead.
    pub leads: Option<Led>,
}

/// What differs first once a change is made: its texts are read again, and each reference is followed before and after, by [`compare`]. `None` where every reference leads to
/// what it led to, and the trees of the documents have changed as they were to and not else. Refused where a text isn't what it is to be.
pub fn difference_of(
    alloc: Global,
    given: &Given<'_, '_, '_, '_>,
    plan: &Plan,
    edits: &[Edit],
) -> Result<Option<Told>, Unmade>
    ensures texts { IfOk result
        (λ told. All (IsEditRead given.now.texts.now plan.now.changes.items) edits.now) }
{
    for edit in edits {
        if !is_as_planned(alloc, given, plan, edit)? {
            return Err(unlike(edit));
        }
    }
    let values = values_of(alloc, given, edits)?;
    let after = registry_after(
        alloc,
        given.registry,
        given.draft,
        plan.uris.as_slice(),
        values.as_slice(),
    )?;
    let told = told_between(alloc, given, &after, plan);
    drop(after);
    Ok(told?)
}

// What differs between the registries before and after, in words: at places of schemas, and then at all others.
fn told_between(
    alloc: Global,
    given: &Given<'_, '_, '_, '_>,
    after: &Registry<'_>,
    plan: &Plan,
) -> Result<Option<Told>, AllocError> {
    let moves = moves_of(alloc, plan)?;
    let difference = compare(alloc, given.registry, after, moves.as_slice());
    if let Some(told) = told_if(alloc, difference)? {
        return Ok(Some(told));
    }
    if !has_further(given.survey) {
        return Ok(None);
    }
    let survey = survey_of(alloc, after)?;
    further_told(alloc, given, &survey, moves.as_slice())
}

// Whether there are places where no keyword leads.
fn has_further(survey: &Survey<'_>) -> bool {
    !survey.own().is_empty() || !survey.described().is_empty() || !survey.led().is_empty()
}

fn further_told(
    alloc: Global,
    given: &Given<'_, '_, '_, '_>,
    after: &Survey<'_>,
    moves: &[Move<'_, '_>],
) -> Result<Option<Told>, AllocError> {
    match further_difference(alloc, given.survey, after, moves)? {
        Some(difference) => {
            let path = segments_of(alloc, &difference.place.path)?;
            Ok(Some(Told {
                document: difference.place.document,
                pointer: pointer_of(alloc, path.as_slice())?,
                text: further_text(alloc, &difference.what)?,
                led: None,
                leads: None,
            }))
        }
        None => Ok(None),
    }
}

// What differs at a further place, in words.
fn further_text(alloc: Global, what: &Further) -> Result<String, AllocError> {
    match what {
        Further::NoPlace => String::from_str(alloc, "it would not be read as it is"),
        Further::OtherBase => String::from_str(alloc, "its base URI would mean another resource"),
        Further::OtherReferences => String::from_str(alloc, "references would come or go"),
        Further::OtherTarget(keyword, before, after) => {
            changed_text(alloc, keyword.as_str(), before.as_str(), after.as_str())
        }
    }
}

// Whether the text of a document has the tree that the plan makes of it.
fn is_as_planned(
    alloc: Global,
    given: &Given<'_, '_, '_, '_>,
    plan: &Plan,
    edit: &Edit,
) -> Result<bool, AllocError>
    ensures { IfOk result
        (λ is. is ≡ true → IsEditRead given.now.texts.now plan.now.changes.items edit.now) }
{
    let Some(written) = given.text(edit.document) else {
        return Ok(false);
    };
    let now = Written {
        format: written.format,
        text: edit.text.as_str(),
    };
    let (Some(before), Some(after)) = (value_of(alloc, written)?, value_of(alloc, now)?) else {
        return Ok(false);
    };
    let wanted = wanted_of(alloc, plan.changes.as_slice(), edit.document)?;
    is_changed(alloc, &before, &after, &wanted)
}

// What moves, as the comparison takes it.
fn moves_of<'p>(alloc: Global, plan: &'p Plan) -> Result<Vec<Move<'p, 'p>>, AllocError> {
    let mut moves = Vec::new(alloc);
    for moved in &plan.moved {
        moves.push(Move {
            from: Address {
                document: moved.document,
                pointer: moved.from.as_str(),
            },
            to: Address {
                document: moved.document,
                pointer: moved.to.as_str(),
            },
        })?;
    }
    Ok(moves)
}

fn told_if(
    alloc: Global,
    difference: Result<Option<Difference<'_>>, AllocError>,
) -> Result<Option<Told>, AllocError> {
    match difference? {
        Some(difference) => {
            let told = told_of(alloc, &difference);
            drop(difference);
            Ok(Some(told?))
        }
        None => Ok(None),
    }
}

// A difference in words.
fn told_of(alloc: Global, difference: &Difference<'_>) -> Result<Told, AllocError> {
    let place = &difference.place;
    let (led, leads) = match leading_of(&difference.what) {
        Some(leading) => (
            led_of(alloc, leading.led.as_ref())?,
            led_of(alloc, leading.leads.as_ref())?,
        ),
        None => (None, None),
    };
    Ok(Told {
        document: place.document,
        pointer: pointer_of(alloc, place.path.as_slice())?,
        text: text_of(alloc, &difference.what)?,
        led,
        leads,
    })
}

fn leading_of<'d, 'w>(what: &'d What<'w>) -> Option<&'d Leading<'w>> {
    match what {
        What::OtherReference(_, leading) | What::OtherName(leading) => Some(leading),
        _ => None,
    }
}

fn led_of(alloc: Global, location: Option<&Location<'_>>) -> Result<Option<Led>, AllocError> {
    match location {
        Some(location) => Ok(Some(Led {
            document: location.document,
            pointer: location.pointer(alloc)?,
        })),
        None => Ok(None),
    }
}

// What differs, in words.
fn text_of(alloc: Global, what: &What<'_>) -> Result<String, AllocError> {
    match what {
        What::NoPlace => String::from_str(alloc, "no schema would be there"),
        What::OtherDraft => String::from_str(alloc, "it would be read by another draft"),
        What::OtherBase => String::from_str(alloc, "its base URI would mean another resource"),
        What::OtherMark => String::from_str(alloc, "its $recursiveAnchor would be another"),
        What::OtherAnchors => String::from_str(alloc, "its anchors would mean something else"),
        What::OtherText(keyword) => format!(in alloc; "its {keyword} would come or go"),
        What::OtherReference(keyword, leading) => reference_text(alloc, *keyword, leading),
        What::OtherName(leading) => {
            let (before, after) = (leading.before.as_str(), leading.after.as_str());
            format!(in alloc;
                "the name '{before}' would be '{after}' and mean something else from there"
            )
        }
    }
}

fn reference_text(
    alloc: Global,
    keyword: &str,
    leading: &Leading<'_>,
) -> Result<String, AllocError> {
    changed_text(
        alloc,
        keyword,
        leading.before.as_str(),
        leading.after.as_str(),
    )
}

fn changed_text(
    alloc: Global,
    keyword: &str,
    before: &str,
    after: &str,
) -> Result<String, AllocError> {
    if before == after {
        return format!(in alloc; "its {keyword} '{before}' would lead elsewhere");
    }
    format!(in alloc; "its {keyword} '{before}' would be '{after}' and lead elsewhere")
}
