//! What references of schemas lead to where no keyword does, as grouped definitions: the places there, and what is wrong with their
//! references.
use crate::described::{
    Described, Description, Fault, Numbered, add_fault, each_once, faults_in, numbered_sources,
    pointer_at,
};
use crate::ends::ends_of;
use crate::finding::{Amount, Finding};
use crate::leads::{NoSchema, add_no_schema, no_schemas_in};
use crate::workspace::Workspace;
use ref_descriptions::references;
use ref_reach::{Documents, Place, Reached, Schemas, documents_of, reach_schemas, schemas_of};
use ref_uri::Uri;
use std::alloc::{AllocError, Global};
use std::collections::BTreeSet;

/// Adds what is wrong with the references of what schemas lead to where no keyword does, in documents that are asked about; and returns
/// how many places and references there are; and which references of schemas lead to objects of another kind in descriptions. `references` is how many their
/// own places have: where no more are in the documents, none of them may lead to where no keyword does, and there are no descriptions, nothing is looked for. Fails
/// only if out of memory.
pub(crate) fn add_led<'d>(
    alloc: Global,
    workspace: &'d Workspace,
    references: usize,
    described: &mut Described,
    list: &mut Vec<Finding<'d>>,
) -> Result<Amount, AllocError> {
    let ends = ends_of(alloc, workspace, &*described)?;
    let is_any = described.is_led
        || described.is_any()
        || ends.count != references
        || ends.may_be_elsewhere();
    described.is_led = is_any;
    for number in 0..workspace.asked() {
        described.look_at(number, is_any);
    }
    if !is_any
        && described.links.is_none()
        && !ends.may_be_no_schema(alloc, workspace, &*described)?
    {
        return Ok(NOTHING);
    }
    let Led {
        faults,
        amount,
        no_schemas,
    } = led_of(alloc, workspace, described, is_any)?;
    for fault in faults {
        add_fault(workspace, fault, list)?;
    }
    for found in no_schemas {
        add_no_schema(workspace, found, list)?;
    }
    Ok(amount)
}

const NOTHING: Amount = Amount {
    places: 0,
    references: 0,
};

/// The URIs of documents that references of what schemas lead to point into and that aren't there, in the order in which they are met; a URI
/// may come more than once. Fails only if out of memory.
pub(crate) fn missing_led(alloc: Global, workspace: &Workspace) -> Result<Vec<Uri>, AllocError> {
    let described = Described::of(alloc, workspace)?;
    let numbered = numbered_sources(alloc, workspace, &described)?;
    missing_by(alloc, workspace, &numbered, &described)
}

fn missing_by(
    alloc: Global,
    workspace: &Workspace,
    numbered: &Numbered<'_>,
    described: &Described,
) -> Result<Vec<Uri>, AllocError> {
    let documents = documents_of(alloc, workspace.draft(), numbered.sources.as_slice())?;
    let numbers = numbered.numbers.as_slice();
    let schemas = schemas_among(alloc, workspace, numbers, &documents, described)?;
    let reached = reach_schemas(alloc, &documents, &schemas)?;
    let faults = faults_in(alloc, numbers, schemas.places(), documents.own(), reached)?;
    missing_in(alloc, workspace, faults.as_slice())
}

fn missing_in(
    alloc: Global,
    workspace: &Workspace,
    faults: &[Fault<'_>],
) -> Result<Vec<Uri>, AllocError> {
    let mut uris = Vec::new(alloc);
    for fault in faults {
        workspace.push_missing(&mut uris, &fault.problem)?;
    }
    Ok(uris)
}

// What is wrong with the references of what schemas lead to, and how much of that is in documents that are asked about; and which references of
// schemas and of what they lead to lead to what is no schema.
#[derive(Drop)]
struct Led<'d> {
    faults: Vec<Fault<'d>>,
    amount: Amount,
    no_schemas: Vec<NoSchema<'d>>,
}

fn led_of<'d>(
    alloc: Global,
    workspace: &Workspace,
    described: &mut Described,
    is_any: bool,
) -> Result<Led<'d>, AllocError> {
    let numbered = numbered_sources(alloc, workspace, &*described)?;
    led_by(alloc, workspace, &numbered, described, is_any)
}

fn led_by<'d>(
    alloc: Global,
    workspace: &Workspace,
    numbered: &Numbered<'_>,
    described: &mut Described,
    is_any: bool,
) -> Result<Led<'d>, AllocError> {
    let documents = documents_of(alloc, workspace.draft(), numbered.sources.as_slice())?;
    let numbers = numbered.numbers.as_slice();
    let schemas = schemas_among(alloc, workspace, numbers, &documents, &*described)?;
    let mut no_schemas = Vec::new(alloc);
    let asked = workspace.asked();
    let own = schemas.places();
    no_schemas_in(alloc, asked, numbers, &documents, own, &mut no_schemas)?;
    described.add_links(alloc, numbers, &documents, own)?;
    if is_any {
        return led_among(
            alloc,
            asked,
            numbers,
            &documents,
            (&schemas, described),
            no_schemas,
        );
    }
    Ok(Led {
        faults: Vec::new(alloc),
        amount: NOTHING,
        no_schemas,
    })
}

// The places that schemas have by themselves.
fn schemas_among<'r>(
    alloc: Global,
    workspace: &Workspace,
    numbers: &[usize],
    documents: &Documents<'r>,
    described: &Described,
) -> Result<Schemas<'r>, AllocError> {
    let mut plain = Vec::new(alloc);
    for (number, source) in numbers.iter().enumerate() {
        if described.is_plain_at(*source) {
            push(&mut plain, number)?;
        }
    }
    schemas_of(alloc, documents, workspace.draft(), plain.as_slice())
}

fn push(list: &mut Vec<usize>, number: usize) -> Result<(), AllocError> {
    list.push(number)?;
    Ok(())
}

// The same, and what is reached from the schemas.
fn led_among<'d, 'r>(
    alloc: Global,
    asked: usize,
    numbers: &[usize],
    documents: &Documents<'r>,
    (schemas, described): (&Schemas<'r>, &mut Described),
    no_schemas: Vec<NoSchema<'d>>,
) -> Result<Led<'d>, AllocError> {
    let mut no_schemas = no_schemas;
    let reached = reach_schemas(alloc, documents, schemas)?;
    let own = schemas.places();
    described.placed.add_all(alloc, asked, numbers, own)?;
    let places = reached.places.as_slice();
    let amount = amount_in(alloc, asked, numbers, places, described)?;
    no_schemas_in(alloc, asked, numbers, documents, places, &mut no_schemas)?;
    described.add_links(alloc, numbers, documents, places)?;
    described.add_told(alloc, asked, numbers, places)?;
    let faults = faults_in(alloc, numbers, own, documents.own(), reached)?;
    let faults = each_once(alloc, faults)?;
    Ok(Led {
        faults,
        amount,
        no_schemas,
    })
}

// Notes which texts are in these places, and returns how many of them are in documents that are asked about, each once, and how many references these have.
fn amount_in(
    alloc: Global,
    asked: usize,
    numbers: &[usize],
    places: &[Place<'_>],
    described: &mut Described,
) -> Result<Amount, AllocError> {
    let mut amount = NOTHING;
    let mut seen = BTreeSet::new(alloc);
    for place in places {
        let number = numbers.get(place.document).copied().unwrap_or(usize::MAX);
        if number < asked {
            described.placed.add(alloc, number, place)?;
            if seen.insert((number, pointer_at(alloc, place)?))? {
                let references = references(alloc, place.reading, place.value)?;
                amount.references = amount.references.saturating_add(references.len());
                amount.places = amount.places.saturating_add(1);
            }
        }
    }
    Ok(amount)
}

/// Adds what schemas lead to where no keyword does, with the references of these places. Fails only if out of memory.
pub(crate) fn add_led_places<'d>(
    alloc: Global,
    workspace: &Workspace,
    described: &Described,
    description: &mut Description<'d>,
) -> Result<(), AllocError> {
    let numbered = numbered_sources(alloc, workspace, described)?;
    add_places_by(alloc, workspace, &numbered, described, description)
}

fn add_places_by<'d>(
    alloc: Global,
    workspace: &Workspace,
    numbered: &Numbered<'_>,
    described: &Described,
    description: &mut Description<'d>,
) -> Result<(), AllocError> {
    let documents = documents_of(alloc, workspace.draft(), numbered.sources.as_slice())?;
    let numbers = numbered.numbers.as_slice();
    let reached = reached_in(alloc, workspace, numbers, &documents, described)?;
    description.add_places(alloc, workspace, numbers, reached.places.as_slice())
}

fn reached_in<'r>(
    alloc: Global,
    workspace: &Workspace,
    numbers: &[usize],
    documents: &Documents<'r>,
    described: &Described,
) -> Result<Reached<'r>, AllocError> {
    let schemas = schemas_among(alloc, workspace, numbers, documents, described)?;
    reach_schemas(alloc, documents, &schemas)
}
