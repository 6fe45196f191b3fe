//! Which references of schemas lead to what is no schema, and which of descriptions to what is no object.
use crate::described::{owned_path, owned_path_to, pointer_at, texts_at};
use crate::finding::{Finding, Problem, push};
use crate::workspace::Workspace;
use ref_descriptions::{Kind, Reference, Under, references};
use ref_draft::Draft;
use ref_parts::path::JsonPointerSegment;
use ref_reach::{Documents, Place, Target, target};
use ref_rules::{End, no_schemas};
use serde_json::Value;
use std::alloc::{AllocError, Global};
use std::collections::BTreeSet;

/// A reference that leads to what is no schema.
#[derive(Drop)]
pub(crate) struct NoSchema<'d> {
    document: usize,
    path: Vec<JsonPointerSegment<'d>>,
    keyword: String,
    is: &'static str,
    draft: Draft,
}

// The references of places: the number of the place of each, its keyword, and what it leads to.
#[derive(Drop)]
struct Leads<'r> {
    sites: Vec<(usize, &'r str)>,
    ends: Vec<Option<End<'r>>>,
}

/// Those of places that are in documents that are asked about.
pub(crate) fn no_schemas_in<'d, 'r>(
    alloc: Global,
    asked: usize,
    numbers: &[usize],
    documents: &Documents<'r>,
    places: &[Place<'r>],
    list: &mut Vec<NoSchema<'d>>,
) -> Result<(), AllocError> {
    let mut leads = Leads {
        sites: Vec::new(alloc),
        ends: Vec::new(alloc),
    };
    for (number, place) in places.iter().enumerate() {
        let document = numbers.get(place.document).copied().unwrap_or(usize::MAX);
        if document < asked {
            leads.add(alloc, documents, number, place)?;
        }
    }
    for number in no_schemas(alloc, leads.ends.as_slice())? {
        if let Some(found) = no_schema_at(alloc, numbers, places, &leads, number)? {
            list.push(found)?;
        }
    }
    Ok(())
}

impl<'r> Leads<'r> {
    // Adds the references of a place.
    fn add(
        &mut self,
        alloc: Global,
        documents: &Documents<'r>,
        number: usize,
        place: &Place<'r>,
    ) -> Result<(), AllocError> {
        for reference in references(alloc, place.reading, place.value)? {
            self.add_one(alloc, documents, number, place, reference)?;
        }
        Ok(())
    }

    fn add_one(
        &mut self,
        alloc: Global,
        documents: &Documents<'r>,
        number: usize,
        place: &Place<'r>,
        reference: Reference<'r>,
    ) -> Result<(), AllocError> {
        let (Under::Itself, Some(text)) = (reference.under, reference.text) else {
            return Ok(());
        };
        let end = match target(alloc, documents, place, text)? {
            Some(target) => Some(End {
                draft: target.draft,
                value: target.value,
            }),
            None => None,
        };
        self.sites.push((number, reference.keyword))?;
        self.ends.push(end)?;
        Ok(())
    }
}

fn no_schema_at<'d>(
    alloc: Global,
    numbers: &[usize],
    places: &[Place<'_>],
    leads: &Leads<'_>,
    number: usize,
) -> Result<Option<NoSchema<'d>>, AllocError> {
    let Some((at, keyword)) = leads.sites.get(number).copied() else {
        return Ok(None);
    };
    let (Some(place), Some(Some(end))) = (places.get(at), leads.ends.get(number)) else {
        return Ok(None);
    };
    Ok(Some(NoSchema {
        document: numbers.get(place.document).copied().unwrap_or(usize::MAX),
        path: owned_path(alloc, place)?,
        keyword: String::from_str(alloc, keyword)?,
        is: what(end.value),
        draft: end.draft,
    }))
}

// What a value is, with its article.
fn what(value: &Value) -> &'static str {
    match value {
        Value::Null => "null",
        Value::Bool(_) => "a boolean",
        Value::Number(_) => "a number",
        Value::String(_) => "a text",
        Value::Array(_) => "an array",
        Value::Object(_) => "an object",
    }
}

/// Adds the finding of such a reference.
pub(crate) fn add_no_schema<'d>(
    workspace: &'d Workspace,
    found: NoSchema<'d>,
    list: &mut Vec<Finding<'d>>,
) -> Result<(), AllocError> {
    let NoSchema {
        document,
        path,
        keyword,
        is,
        draft,
    } = found;
    let Some(root) = workspace.value(document) else {
        return Ok(());
    };
    let (own, text) = texts_at(root, path.as_slice(), keyword.as_str());
    push(
        list,
        Finding {
            source: document,
            path,
            keyword: own,
            text,
            wanted: None,
            problem: Problem::NotASchema { is, draft },
        },
    )
}

/// A reference of a description that leads to what is no object, where one is needed.
#[derive(Drop)]
pub(crate) struct NoObject {
    document: usize,
    // The pointer of what has its text, and the key there.
    pointer: String,
    keyword: String,
    is: &'static str,
    wanted: Kind,
}

/// Adds those of places of descriptions, and of what these lead to. A boolean is a schema where a draft reads it.
pub(crate) fn add_no_objects<'r>(
    alloc: Global,
    numbers: &[usize],
    documents: &Documents<'r>,
    places: &[Place<'r>],
    list: &mut Vec<NoObject>,
) -> Result<(), AllocError> {
    for place in places {
        for reference in references(alloc, place.reading, place.value)? {
            if let Some(text) = reference.text {
                let found = target(alloc, documents, place, text)?;
                if let Some(is) = no_object(place, reference.wanted, found) {
                    list.push(NoObject {
                        document: numbers.get(place.document).copied().unwrap_or(usize::MAX),
                        pointer: pointer_under(alloc, place, reference.under)?,
                        keyword: String::from_str(alloc, reference.keyword)?,
                        is,
                        wanted: reference.wanted,
                    })?;
                }
            }
        }
    }
    Ok(())
}

// What is found, where it is no object, and no boolean that is a schema.
fn no_object(place: &Place<'_>, wanted: Kind, found: Option<Target<'_>>) -> Option<&'static str> {
    let value = found?.value;
    let is_schema = wanted == Kind::Schema && value.is_boolean() && place.reading.is_by_draft();
    if value.is_object() || is_schema {
        None
    } else {
        Some(what(value))
    }
}

// The pointer of what has the text of a reference.
fn pointer_under(alloc: Global, place: &Place<'_>, under: Under) -> Result<String, AllocError> {
    let mut pointer = pointer_at(alloc, place)?;
    if under == Under::Mapping {
        pointer.push_str("/discriminator/mapping")?;
    }
    Ok(pointer)
}

/// Adds the findings of such references, each once, where their documents are asked about: a place that is reached with several bases may have one with each.
pub(crate) fn add_all_no_objects<'d>(
    alloc: Global,
    workspace: &'d Workspace,
    found: Vec<NoObject>,
    list: &mut Vec<Finding<'d>>,
) -> Result<(), AllocError> {
    let mut seen = BTreeSet::new(alloc);
    for one in found {
        let (number, pointer, keyword) = (one.document, one.pointer.as_str(), one.keyword.as_str());
        let key = format!(in alloc; "{number} {keyword} {pointer}")?;
        if number < workspace.asked() && seen.insert(key)? {
            add_no_object(alloc, workspace, &one, list)?;
        }
    }
    Ok(())
}

fn add_no_object<'d>(
    alloc: Global,
    workspace: &'d Workspace,
    one: &NoObject,
    list: &mut Vec<Finding<'d>>,
) -> Result<(), AllocError> {
    let Some(root) = workspace.value(one.document) else {
        return Ok(());
    };
    let Some(path) = owned_path_to(alloc, root, one.pointer.as_str())? else {
        return Ok(());
    };
    let (own, text) = texts_at(root, path.as_slice(), one.keyword.as_str());
    push(
        list,
        Finding {
            source: one.document,
            path,
            keyword: own,
            text,
            wanted: None,
            problem: Problem::NoObject {
                is: one.is,
                wanted: one.wanted,
            },
        },
    )
}
