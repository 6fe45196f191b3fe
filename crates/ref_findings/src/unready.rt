//! The texts for which a registry can't be prepared of sources, and trees with `null` in their place.
ghost use Rattle.std.specs.Prelude.{◌≡◌, ◌∷◌, [], ◌++◌, ℕ, List, Some, Ok, map, flat_map, IfOk, OnOk};
ghost use Rattle.std.specs.List.{AllZip};
ghost use Rattle.serde_json.specs.View.{view};
ghost use Rattle.ref_paths.specs.Path.{Key};
ghost use Rattle.ref_paths.specs.Segment.{part_of};
ghost use Rattle.ref_uri.specs.Targets.{uri_against};
ghost use Rattle.ref_index.specs.Meanings.{meta_schema_uri};
ghost use Rattle.ref_definitions.specs.Wants.{reference_at, schema_at};
ghost use Rattle.ref_findings.specs.Places.{nearest_base};
ghost use Rattle.ref_findings.specs.Findings.{Finding as Found};
ghost use Rattle.ref_findings.specs.Entries.{source_of, IsFindingOf, SaysFindings};
ghost use Rattle.ref_findings.specs.Unmet as spec;
ghost use Rattle.ref_findings.specs.inner.Adding.{Adds};
ghost use Rattle.ref_findings.specs.inner.Meanings.{IsMaybe};
ghost use Rattle.ref_findings.specs.inner.Seen.{place_of, site_of, own_path};
ghost use Rattle.ref_findings.specs.inner.Wanted.{AreMet};
ghost use Rattle.ref_findings.specs.inner.Nulled.{is_met, said_path};

use crate::finding::{Finding, Problem};
use crate::gathering::{Wants, wants_in};
use crate::keyword::Keyword;
use crate::list::add;
use crate::mending::{Step, key_step, lent, push, steps_of, with_nulls};
use crate::place::Place;
use crate::problem::refused;
use crate::site::Site;
use crate::source::Source;
use crate::survey::surveys_of;
use ref_draft::Draft;
use ref_index::meanings::{dialect_in, meta_schema_of, resolved, target_of};
use ref_uri::Uri;
use serde_json::Value;
use std::alloc::{AllocError, Global};
use std::rc::Rc;

// What is wrong with an identifier that is resolved against the base around it.
fn of_identifier_text<'v>(
    alloc: Global,
    outer: &Rc<Uri>,
    id: &str,
) -> Result<Option<Problem<'v>>, AllocError>
    ensures { IfOk result
        (IsMaybe (spec.refused_problem (Some (uri_against outer.now.value id.now)))) }
{
    match resolved(alloc, outer, id) {
        Ok(_) => Ok(None),
        Err(fault) => refused(fault),
    }
}

// What is wrong with the identifier of a place, which is resolved once more.
fn of_identifier<'v>(alloc: Global, place: &Place<'_>) -> Result<Option<Problem<'v>>, AllocError>
    ensures { IfOk result (IsMaybe (spec.refused_problem (Some (place_of place.now).base))) }
{
    match place.id() {
        Some(id) => of_identifier_text(alloc, &place.outer, id),
        None => Ok(None),
    }
}

// What is wrong with a reference into a URI.
fn missing<'v>(wants: &Wants, uri: Rc<Uri>) -> Option<Problem<'v>>
    ensures { (uris : List (List ℕ)) → AreMet wants.now uris
        → IsMaybe (spec.unmet_problem (is_met uris) (Some (Ok uri.value))) result }
{
    if wants.knows(&*uri) {
        return None;
    }
    Some(Problem::MissingDocument { uri })
}

// What is wrong with the `$ref` of a place.
fn of_reference<'v>(
    alloc: Global,
    wants: &Wants,
    place: &Place<'_>,
) -> Result<Option<Problem<'v>>, AllocError>
    ensures { (uris : List (List ℕ)) → AreMet wants.now uris
        → IfOk result
        (IsMaybe
        (spec.unmet_problem (is_met uris)
        (reference_at (nearest_base (place_of place.now)) (place_of place.now).value))) }
{
    let Some(reference) = place.reference() else {
        return Ok(None);
    };
    match target_of(alloc, place.base(), reference) {
        Ok(uri) => Ok(missing(wants, uri)),
        Err(fault) => refused(fault),
    }
}

// What is wrong with a text that names the meta-schema of no draft.
fn of_dialect<'v>(alloc: Global, text: &str) -> Result<Option<Problem<'v>>, AllocError>
    ensures { IfOk result
        (IsMaybe (spec.refused_problem (Some (meta_schema_uri text.now)))) }
{
    match meta_schema_of(alloc, text) {
        Ok(_) => Ok(None),
        Err(fault) => refused(fault),
    }
}

// What is wrong with the `$schema` of a value.
fn of_schema<'v>(alloc: Global, value: &Value) -> Result<Option<Problem<'v>>, AllocError>
    ensures { IfOk result (IsMaybe (spec.refused_problem (schema_at (view value.now)))) }
{
    match dialect_in(value) {
        Some(text) => of_dialect(alloc, text),
        None => Ok(None),
    }
}

// Adds what is wrong at a place.
fn add_place<'v>(
    alloc: Global,
    list: &mut Vec<Finding<'v>>,
    wants: &Wants,
    site: &Site<'_, 'v>,
) -> Result<(), AllocError>
    ensures { (uris : List (List ℕ)) → AreMet wants.now uris
        → Adds list.old.items list.new.items result
        (spec.unmet_at (is_met uris) (site_of site.now)) }
{
    let keyword = Keyword::of_identifier(site.place.draft);
    let identifier = of_identifier(alloc, site.place);
    add(alloc, list, site, Some(keyword), identifier)?;
    let reference = of_reference(alloc, wants, site.place);
    add(alloc, list, site, Some(Keyword::Ref), reference)?;
    let schema = of_schema(alloc, site.place.value);
    add(alloc, list, site, Some(Keyword::Schema), schema)
}

// What is wrong at the places of the source with a number.
fn unmet_in<'v>(
    alloc: Global,
    wants: &Wants,
    source: usize,
    places: &[Place<'v>],
) -> Result<Vec<Finding<'v>>, AllocError>
    ensures { (uris : List (List ℕ)) → AreMet wants.now uris
        → IfOk result
        (λ list. AllZip IsFindingOf list.items
        (flat_map (λ p. spec.unmet_at (is_met uris) (source, p)) (map place_of places.now))) }
{
    let mut list = Vec::new(alloc);
    for place in places {
        add_place(alloc, &mut list, wants, &Site { source, place })?;
    }
    Ok(list)
}

/// For which texts a registry can't be prepared of sources, source by source and place by place: identifiers, `$ref`s and names
/// of meta-schemas that mean no URI, and `$ref`s into what no source and no place has.
///
/// Fails only if out of memory. Each place is visited twice, with a look-up in a hashed map for each `$ref`.
pub fn unmet<'v>(
    alloc: Global,
    draft: Draft,
    sources: &[Source<'v>],
) -> Result<Vec<Vec<Finding<'v>>>, AllocError>
    ensures value { IfOk result
        (λ lists. AllZip SaysFindings lists.items
        (spec.unmet draft (map source_of sources.now))) }
{
    let surveys = surveys_of(alloc, draft, sources)?;
    let wants = wants_in(alloc, surveys.as_slice())?;
    let mut lists = Vec::with_capacity(alloc, surveys.len())?;
    for (number, survey) in surveys.iter().enumerate() {
        let list = unmet_in(alloc, &wants, number, survey.places.as_slice())?;
        lists.push(list)?;
    }
    Ok(lists)
}

// Adds the path of a keyword below a path.
fn push_path(
    alloc: Global,
    paths: &mut Vec<Vec<Step>>,
    finding: &Finding<'_>,
    keyword: &str,
) -> Result<(), AllocError>
    ensures { OnOk result
        (map own_path paths.new.items
        ≡ map own_path paths.old.items
        ++ (map part_of finding.now.path.items ++ Key keyword.now ∷ []) ∷ []) }
{
    let mut steps = steps_of(alloc, finding.path.as_slice())?;
    let last = key_step(alloc, keyword)?;
    steps.push(last)?;
    push(paths, steps)
}

// Adds the path of the text that a finding is about.
fn push_text(
    alloc: Global,
    paths: &mut Vec<Vec<Step>>,
    finding: &Finding<'_>,
) -> Result<(), AllocError>
    ensures { OnOk result
        (map own_path paths.new.items ≡ map own_path paths.old.items ++ said_path finding.now) }
{
    match finding.keyword {
        Some(keyword) => push_path(alloc, paths, finding, keyword),
        None => Ok(()),
    }
}

// The paths of the texts that findings are about.
fn text_paths(alloc: Global, findings: &[Finding<'_>]) -> Result<Vec<Vec<Step>>, AllocError>
    ensures { IfOk result
        (λ paths. map own_path paths.items ≡ flat_map said_path findings.now) }
{
    let mut paths = Vec::new(alloc);
    for finding in findings {
        push_text(alloc, &mut paths, finding)?;
    }
    Ok(paths)
}

/// A tree with `null` in place of the texts that findings are about: a copy. It takes work and memory for the whole tree, and at
/// each object or array that has several such texts below it a comparison for each of them and each member or element.
pub fn without_texts(
    alloc: Global,
    findings: &[Finding<'_>],
    value: &Value,
) -> Result<Value, AllocError>
    ensures value { (fs : List Found) → AllZip IsFindingOf findings.now fs
        → IfOk result (λ v. view v ≡ spec.without_texts fs (view value.now)) }
{
    let own = text_paths(alloc, findings)?;
    let paths = lent(alloc, own.as_slice())?;
    with_nulls(alloc, paths.as_slice(), value)
}
