//! What is told of the keywords of schemas, wherever their references lead.
use crate::described::{Described, owned_path_to, pointer_at, texts_at};
use crate::finding::{Finding, Problem, push};
use crate::placed::push_below as push_values;
use crate::workspace::{Document, Workspace};
use ref_descriptions::{Kind, Version};
use ref_draft::Draft;
use ref_findings::{Finding as SchemaFinding, Problem as SchemaProblem};
use ref_index::meanings::text_under;
use ref_parts::path::JsonPointerSegment;
use ref_reach::Place as Reached;
use ref_rules::{
    Place, Problem as ToldProblem, Slip, Spot, may_slip, misspelled, places_of, slips, spots_of,
};
use serde_json::Value;
use std::alloc::{AllocError, Global};
use std::collections::BTreeSet;

/// Findings but for those on a `$schema` that is known to none and means a draft: what is told of it says which. Fails only if out of memory.
pub(crate) fn without_misspelled<'d>(
    alloc: Global,
    findings: Vec<SchemaFinding<'d>>,
) -> Result<Vec<SchemaFinding<'d>>, AllocError> {
    let mut list = Vec::new(alloc);
    for finding in findings {
        if !is_misspelled(alloc, &finding)? {
            push_schema(&mut list, finding)?;
        }
    }
    Ok(list)
}

fn push_schema<'d>(
    list: &mut Vec<SchemaFinding<'d>>,
    finding: SchemaFinding<'d>,
) -> Result<(), AllocError> {
    list.push(finding)?;
    Ok(())
}

fn is_misspelled(alloc: Global, finding: &SchemaFinding<'_>) -> Result<bool, AllocError> {
    match (&finding.problem, finding.text) {
        (SchemaProblem::UnknownDialect { .. }, Some(text)) => {
            Ok(misspelled(alloc, text)?.is_some())
        }
        _ => Ok(false),
    }
}

/// Adds what is told of the keywords of schemas, of those documents that are asked about and are no parts of descriptions. Fails only if out of
/// memory.
pub(crate) fn add_told<'d>(
    alloc: Global,
    workspace: &'d Workspace,
    described: &Described,
    list: &mut Vec<Finding<'d>>,
) -> Result<(), AllocError> {
    for (number, document) in workspace.asked_about().iter().enumerate() {
        if described.is_plain_at(number) {
            add_of(alloc, workspace.draft(), number, document, list)?;
        }
    }
    Ok(())
}

fn add_of<'d>(
    alloc: Global,
    draft: Draft,
    number: usize,
    document: &'d Document,
    list: &mut Vec<Finding<'d>>,
) -> Result<(), AllocError> {
    let Some(value) = document.value() else {
        return Ok(());
    };
    if !may_be_told(alloc, draft, value)? {
        return Ok(());
    }
    let spots = spots_of(alloc, draft, value)?;
    let places = places_of(alloc, spots.as_slice())?;
    for slip in slips(alloc, places.as_slice())? {
        push_told(alloc, number, spots.as_slice(), slip, list)?;
    }
    Ok(())
}

// Whether a document may have what is told of: it may be of its root, or of a value in it, at any depth, were it a schema of the draft of the root. A step for
// each value.
fn may_be_told(alloc: Global, draft: Draft, root: &Value) -> Result<bool, AllocError> {
    let draft = draft.detect(root);
    let mut is_root = true;
    let mut waiting = Vec::new(alloc);
    waiting.push(root)?;
    for _ in 0..u64::MAX {
        let Some(value) = waiting.pop() else {
            break;
        };
        let place = Place {
            is_root,
            draft,
            value,
        };
        if may_slip(place) {
            return Ok(true);
        }
        is_root = false;
        push_values(&mut waiting, value)?;
    }
    Ok(false)
}

// The path to a place.
fn path_to<'d>(
    alloc: Global,
    spots: &[Spot<'d>],
    number: usize,
) -> Result<Vec<JsonPointerSegment<'d>>, AllocError> {
    let mut path = Vec::new(alloc);
    let mut at = number;
    // Each place is after the one above it.
    for _ in 0..spots.len() {
        let Some(spot) = spots.get(at) else {
            break;
        };
        let Some(keyword) = spot.keyword else {
            break;
        };
        push_steps(&mut path, keyword, &spot.segment)?;
        at = spot.above;
    }
    path.reverse();
    Ok(path)
}

// Adds the steps to a place from the one above it, the last first.
fn push_steps<'d>(
    path: &mut Vec<JsonPointerSegment<'d>>,
    keyword: &'d str,
    segment: &Option<JsonPointerSegment<'d>>,
) -> Result<(), AllocError> {
    if let Some(segment) = segment {
        path.push(segment.clone()?)?;
    }
    path.push(JsonPointerSegment::from(keyword))?;
    Ok(())
}

/// What is told of a keyword of a place that references lead to: the number of its document, and its pointer.
#[derive(Drop)]
pub(crate) struct ToldAt {
    document: usize,
    pointer: String,
    keyword: &'static str,
    told: ToldProblem,
    draft: Draft,
    // The version of the description that it is in, where it is in one.
    version: Option<Version>,
}

/// Adds what is told of those places that references of schemas lead to which are in documents that are asked about, and which a draft reads. A `$schema` counts at
/// what a reference leads to, so that none counts for nothing here.
pub(crate) fn add_told_at(
    alloc: Global,
    asked: usize,
    numbers: &[usize],
    reached: &[Reached<'_>],
    list: &mut Vec<ToldAt>,
) -> Result<(), AllocError> {
    let mut read = Vec::new(alloc);
    let mut places = Vec::new(alloc);
    for (number, place) in reached.iter().enumerate() {
        let document = numbers.get(place.document).copied().unwrap_or(usize::MAX);
        if document < asked && place.reading.is_by_draft() {
            read.push(number)?;
            places.push(Place {
                is_root: true,
                draft: place.reading.draft,
                value: place.value,
            })?;
        }
    }
    for slip in slips(alloc, places.as_slice())? {
        let at = read.get(slip.place).copied().unwrap_or(usize::MAX);
        if let Some(place) = reached.get(at) {
            list.push(ToldAt {
                document: numbers.get(place.document).copied().unwrap_or(usize::MAX),
                pointer: pointer_at(alloc, place)?,
                keyword: slip.keyword,
                told: slip.problem,
                draft: place.reading.draft,
                version: None,
            })?;
        }
    }
    Ok(())
}

/// Adds which keywords of Draft 4 are beside a `$ref` of those schemas of descriptions of 2.0 and 3.0 that are in documents that are asked about: these have the keywords
/// of that draft, and what is beside a `$ref` counts for nothing there (OpenAPI 3.0, Reference Object).
pub(crate) fn add_beside_at(
    alloc: Global,
    asked: usize,
    numbers: &[usize],
    places: &[Reached<'_>],
    list: &mut Vec<ToldAt>,
) -> Result<(), AllocError> {
    for place in places {
        let document = numbers.get(place.document).copied().unwrap_or(usize::MAX);
        let is_schema = place.reading.kind == Kind::Schema && !place.reading.is_by_draft();
        if document < asked && is_schema {
            add_beside(alloc, document, place, list)?;
        }
    }
    Ok(())
}

fn add_beside(
    alloc: Global,
    document: usize,
    place: &Reached<'_>,
    list: &mut Vec<ToldAt>,
) -> Result<(), AllocError> {
    let schema = Place {
        is_root: true,
        draft: Draft::Draft4,
        value: place.value,
    };
    for slip in slips(alloc, &[schema])? {
        if is_beside(slip.problem) {
            list.push(ToldAt {
                document,
                pointer: pointer_at(alloc, place)?,
                keyword: slip.keyword,
                told: slip.problem,
                draft: Draft::Draft4,
                version: place.reading.version,
            })?;
        }
    }
    Ok(())
}

fn is_beside(told: ToldProblem) -> bool {
    matches!(
        told,
        ToldProblem::IgnoredBesideRef | ToldProblem::UnheardBesideRef
    )
}

/// Adds the findings of what is told so, each once: a place may be reached with several bases.
pub(crate) fn add_all_told_at<'d>(
    alloc: Global,
    workspace: &'d Workspace,
    told: Vec<ToldAt>,
    list: &mut Vec<Finding<'d>>,
) -> Result<(), AllocError> {
    let mut seen = BTreeSet::new(alloc);
    for one in told {
        let (number, pointer, keyword) = (one.document, one.pointer.as_str(), one.keyword);
        let key = format!(in alloc; "{number} {keyword} {pointer}")?;
        if seen.insert(key)? {
            add_one_told_at(alloc, workspace, &one, list)?;
        }
    }
    Ok(())
}

fn add_one_told_at<'d>(
    alloc: Global,
    workspace: &'d Workspace,
    one: &ToldAt,
    list: &mut Vec<Finding<'d>>,
) -> Result<(), AllocError> {
    let Some(root) = workspace.value(one.document) else {
        return Ok(());
    };
    let Some(path) = owned_path_to(alloc, root, one.pointer.as_str())? else {
        return Ok(());
    };
    let (_, text) = texts_at(root, path.as_slice(), one.keyword);
    push(
        list,
        Finding {
            source: one.document,
            path,
            keyword: Some(one.keyword),
            text,
            wanted: None,
            problem: problem_of(one),
        },
    )
}

fn problem_of<'d>(one: &ToldAt) -> Problem<'d> {
    match one.version {
        Some(version) => Problem::Beside {
            told: one.told,
            version,
        },
        None => Problem::Told {
            told: one.told,
            draft: one.draft,
        },
    }
}

// Adds what is told of a keyword.
fn push_told<'d>(
    alloc: Global,
    source: usize,
    spots: &[Spot<'d>],
    slip: Slip,
    list: &mut Vec<Finding<'d>>,
) -> Result<(), AllocError> {
    let Some(spot) = spots.get(slip.place) else {
        return Ok(());
    };
    let finding = Finding {
        source,
        path: path_to(alloc, spots, slip.place)?,
        keyword: Some(slip.keyword),
        text: text_under(spot.value, slip.keyword),
        wanted: None,
        problem: Problem::Told {
            told: slip.problem,
            draft: spot.draft,
        },
    };
    push(list, finding)
}
