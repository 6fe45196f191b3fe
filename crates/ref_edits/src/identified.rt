//! References that name a document by its identifier, in place of the URI that it is under.
use crate::given::Given;
use crate::keys::change_of;
use crate::plan::{Change, Plan, Unmade, joined, push_change};
use crate::relative::meant;
use crate::uses::{Form, Use, is_true, places_of, uses_of};
use ref_graphs::{Step, unused_definitions};
use ref_uri::parts::parts;
use referencing::Registry;
use std::alloc::{AllocError, Global};
use std::collections::BTreeMap;

// What a document is called by its identifier, where that is no fragment's.
#[derive(Drop)]
struct Identified {
    document: usize,
    base: String,
}

/// What a change of documents is by which references name documents by their identifiers: in the first document, and in those that its references lead to, and so on, each
/// reference to a document by the URI that it is under, where it has an identifier that means another URI, becomes that URI, with what is after `#` as it is written. All other
/// references stay as they are, and so do those to a document whose identifier has a fragment. Linear in the documents, with a look-up for each reference.
pub fn identified_references(alloc: Global, given: &Given<'_, '_, '_, '_>) -> Result<Plan, Unmade> {
    let identified = identified_documents(alloc, given.registry)?;
    let uses = uses_of(alloc, given)?;
    let needed = needed_documents(alloc, given.registry.documents().len(), uses.as_slice())?;
    let mut changes = Vec::new(alloc);
    for one in &uses {
        if one.form == Form::Reference && is_true(needed.as_slice(), one.document) {
            add_change(alloc, &identified, one, &mut changes)?;
        }
    }
    Ok(Plan {
        changes,
        moved: Vec::new(alloc),
        uris: Vec::new(alloc),
    })
}

// Adds the change of a reference, where it becomes another text.
fn add_change(
    alloc: Global,
    identified: &BTreeMap<String, Identified>,
    one: &Use<'_>,
    changes: &mut Vec<Change>,
) -> Result<(), AllocError> {
    let (front, _) = parts(one.text);
    if front.is_empty() {
        return Ok(());
    }
    let Some(target) = meant(alloc, &one.base, front)? else {
        return Ok(());
    };
    let Some(named) = identified.get(target.as_str()) else {
        return Ok(());
    };
    if let Some(led) = &one.led {
        if led.document != named.document {
            return Ok(());
        }
    }
    let rest = one.text.get(front.len()..).unwrap_or("");
    let text = joined(alloc, named.base.as_str(), rest)?;
    push_change(changes, change_of(alloc, one, text)?)
}

// The documents whose identifiers mean other URIs than they are under, by these.
fn identified_documents(
    alloc: Global,
    registry: &Registry<'_>,
) -> Result<BTreeMap<String, Identified>, AllocError> {
    let mut identified = BTreeMap::new(alloc);
    for place in &places_of(alloc, registry)? {
        let base = place.base.as_str();
        let Some(document) = registry.documents().get(place.document) else {
            continue;
        };
        let uri = document.uri.as_str();
        if place.path.is_empty() && base != uri && !base.contains('#') {
            let own = Identified {
                document: place.document,
                base: String::from_str(alloc, base)?,
            };
            put(&mut identified, String::from_str(alloc, uri)?, own)?;
        }
    }
    Ok(identified)
}

fn put(
    identified: &mut BTreeMap<String, Identified>,
    uri: String,
    own: Identified,
) -> Result<(), AllocError> {
    drop(identified.insert(uri, own)?);
    Ok(())
}

// By the numbers of documents, whether references lead there from the first one, by so many steps as it takes.
fn needed_documents(
    alloc: Global,
    count: usize,
    uses: &[Use<'_>],
) -> Result<Vec<bool>, AllocError> {
    let mut steps = Vec::new(alloc);
    for one in uses {
        if let Some(led) = &one.led {
            push_step(&mut steps, one.document, led.document)?;
        }
    }
    let others = vec![in alloc; 0; count.saturating_sub(1)]?;
    let unused = unused_definitions(alloc, others.as_slice(), steps.as_slice())?;
    let mut needed = vec![in alloc; true; count]?;
    for number in &unused {
        if let Some(flag) = needed.get_mut(*number) {
            *flag = false;
        }
    }
    Ok(needed)
}

fn push_step(steps: &mut Vec<Step>, from: usize, to: usize) -> Result<(), AllocError> {
    steps.push(Step { from, to })?;
    Ok(())
}
