//! Definitions that nothing uses.
use crate::described::{Described, owned};
use crate::finding::{Finding, Problem, push as push_finding};
use crate::pointer::path_to;
use crate::uses::{Use, Uses};
use crate::workspace::Workspace;
use ref_graphs::{Step, unused_definitions};
use ref_parts::path::JsonPointerSegment;
use serde_json::Value;
use std::alloc::{AllocError, Global};
use std::collections::BTreeMap;
use std::rc::Rc;

/// The definitions that nothing uses.
#[derive(Drop)]
pub struct Unused {
    // By the numbers of the documents, the pointers of those in one, in the order in which they are met.
    lists: Vec<Vec<String>>,
}

impl Unused {
    /// Those of the documents of a workspace. A step for each value, and a URI for each reference to another document.
    pub(crate) fn of(alloc: Global, workspace: &Workspace) -> Result<Rc<Unused>, AllocError> {
        let mut uses = Vec::with_capacity(alloc, workspace.len())?;
        for number in 0..workspace.len() {
            if let Some(uri) = workspace.uri(number) {
                let own = Uses::of(alloc, uri, workspace.value(number))?;
                uses.push(own)?;
            }
        }
        let mut all = Vec::with_capacity(alloc, uses.len())?;
        for own in &uses {
            all.push(own)?;
        }
        unused_among(alloc, all.as_slice())
    }

    // The pointers of those in the document with a number.
    fn at(&self, number: usize) -> &[String] {
        match self.lists.get(number) {
            Some(list) => list.as_slice(),
            None => &[],
        }
    }

    /// Notes the documents that have others than before, by flags; says whether one of them had no flag.
    pub fn note_moved(&self, before: &Unused, flags: &mut Vec<bool>) -> bool {
        let mut is_any_new = false;
        for (number, flag) in flags.iter_mut().enumerate() {
            if !*flag && !is_same(self.at(number), before.at(number)) {
                *flag = true;
                is_any_new = true;
            }
        }
        is_any_new
    }
}

fn is_same(one: &[String], other: &[String]) -> bool {
    if one.len() != other.len() {
        return false;
    }
    for (own, pointer) in one.iter().zip(other.iter()) {
        if own.as_str() != pointer.as_str() {
            return false;
        }
    }
    true
}

/// The definitions that nothing uses, of documents by their numbers: those that no reference leads to or into, but from within definitions that nothing uses. There
/// are none where more may be meant than is noted. A search among names for each reference to another document, and else linear.
pub(crate) fn unused_among(alloc: Global, all: &[&Uses]) -> Result<Rc<Unused>, AllocError> {
    let mut lists = Vec::new(alloc);
    if !all.iter().any(|uses| uses.is_open) {
        let starts = starts_of(alloc, all)?;
        let around = around_of(alloc, all, starts.as_slice())?;
        if !around.is_empty() {
            let steps = uses_of(alloc, all, starts.as_slice())?;
            let numbers = unused_definitions(alloc, around.as_slice(), steps.as_slice())?;
            lists = lists_of(alloc, all, starts.as_slice(), numbers.as_slice())?;
        }
    }
    Ok(Rc::new(alloc, Unused { lists })?)
}

// How many definitions there are before those of each document.
fn starts_of(alloc: Global, all: &[&Uses]) -> Result<Vec<usize>, AllocError> {
    let mut starts = Vec::with_capacity(alloc, all.len())?;
    let mut count: usize = 0;
    for uses in all {
        starts.push(count)?;
        count = count.saturating_add(uses.definitions.len());
    }
    Ok(starts)
}

// The number, from 1, of a definition of a document among those of all documents; 0 of what is in none.
fn number_of(starts: &[usize], document: usize, definition: usize) -> usize {
    if definition == 0 {
        return 0;
    }
    let start = starts.get(document).copied().unwrap_or(0);
    start.saturating_add(definition)
}

// The definition that each is in, by their numbers among those of all documents, or 0.
fn around_of(alloc: Global, all: &[&Uses], starts: &[usize]) -> Result<Vec<usize>, AllocError> {
    let mut around = Vec::new(alloc);
    for (document, uses) in all.iter().enumerate() {
        for definition in &uses.definitions {
            around.push(number_of(starts, document, definition.around))?;
        }
    }
    Ok(around)
}

// From which definitions references lead to which.
fn uses_of(alloc: Global, all: &[&Uses], starts: &[usize]) -> Result<Vec<Step>, AllocError> {
    let mut steps = Vec::new(alloc);
    let names = names_of(alloc, all)?;
    for (document, uses) in all.iter().enumerate() {
        for (from, to) in &uses.own {
            let from = number_of(starts, document, *from);
            push_step(&mut steps, from, number_of(starts, document, *to))?;
        }
        for lead in &uses.named {
            let from = number_of(starts, document, lead.from);
            for (other, pointer) in led_by(alloc, all, &names, lead)? {
                let to = within(all, other, pointer.as_str());
                push_step(&mut steps, from, number_of(starts, other, to))?;
            }
        }
    }
    Ok(steps)
}

fn push_step(steps: &mut Vec<Step>, from: usize, to: usize) -> Result<(), AllocError> {
    if to > 0 && from != to {
        steps.push(Step { from, to })?;
    }
    Ok(())
}

// The number, from 1, of the innermost definition of a document that a pointer leads to or into.
fn within(all: &[&Uses], document: usize, pointer: &str) -> usize {
    match all.get(document) {
        Some(uses) => uses.innermost(pointer),
        None => 0,
    }
}

// The places that each name leads to, by the numbers of documents and of the bearers in each.
fn names_of<'u>(
    alloc: Global,
    all: &[&'u Uses],
) -> Result<BTreeMap<&'u str, Vec<(usize, usize)>>, AllocError> {
    let mut names = BTreeMap::new(alloc);
    for (document, uses) in all.iter().enumerate() {
        let uses: &'u Uses = uses;
        for (number, bearer) in uses.bearers.iter().enumerate() {
            add_name(alloc, &mut names, bearer.name.as_str(), (document, number))?;
        }
    }
    Ok(names)
}

fn add_name<'u>(
    alloc: Global,
    names: &mut BTreeMap<&'u str, Vec<(usize, usize)>>,
    name: &'u str,
    place: (usize, usize),
) -> Result<(), AllocError> {
    if let Some(places) = names.get_mut(name) {
        places.push(place)?;
        return Ok(());
    }
    let mut places = Vec::new(alloc);
    places.push(place)?;
    names.insert(name, places)?;
    Ok(())
}

// The places that a reference leads to by a name, each by the number of its document and its pointer.
fn led_by(
    alloc: Global,
    all: &[&Uses],
    names: &BTreeMap<&str, Vec<(usize, usize)>>,
    lead: &Use,
) -> Result<Vec<(usize, String)>, AllocError> {
    let mut list = Vec::new(alloc);
    let Some(places) = names.get(lead.name.as_str()) else {
        return Ok(list);
    };
    for (document, number) in places {
        let bearer = match all.get(*document) {
            Some(uses) => uses.bearers.get(*number),
            None => None,
        };
        if let Some(bearer) = bearer {
            let pointer = [bearer.pointer.as_str(), lead.rest.as_str()].join(alloc, "")?;
            list.push((*document, pointer))?;
        }
    }
    Ok(list)
}

// The pointers of the definitions with these numbers, which rise, by the numbers of the documents.
fn lists_of(
    alloc: Global,
    all: &[&Uses],
    starts: &[usize],
    numbers: &[usize],
) -> Result<Vec<Vec<String>>, AllocError> {
    let mut lists = Vec::with_capacity(alloc, all.len())?;
    for (document, uses) in all.iter().enumerate() {
        let mut list = Vec::new(alloc);
        for (number, definition) in uses.definitions.iter().enumerate() {
            let place = number_of(starts, document, number.saturating_add(1));
            if numbers.binary_search(&place).is_ok() {
                let pointer = definition.pointer.clone()?;
                list.push(pointer)?;
            }
        }
        lists.push(list)?;
    }
    Ok(lists)
}

/// Adds which definitions nothing uses, of those documents that are asked about and looked at. Fails only if out of memory.
pub(crate) fn add_unused<'d>(
    alloc: Global,
    workspace: &'d Workspace,
    described: &Described,
    unused: &Unused,
    list: &mut Vec<Finding<'d>>,
) -> Result<(), AllocError> {
    for number in 0..workspace.asked() {
        if described.has(number) {
            for pointer in unused.at(number) {
                add_at(alloc, workspace, number, pointer, list)?;
            }
        }
    }
    Ok(())
}

// Adds that nothing uses the definition at a pointer.
fn add_at<'d>(
    alloc: Global,
    workspace: &'d Workspace,
    number: usize,
    pointer: &String,
    list: &mut Vec<Finding<'d>>,
) -> Result<(), AllocError> {
    let Some(path) = path_of(alloc, workspace.value(number), pointer)? else {
        return Ok(());
    };
    push_finding(
        list,
        Finding {
            source: number,
            path,
            keyword: None,
            text: None,
            wanted: None,
            problem: Problem::Unused,
        },
    )
}

// The path that a pointer means in a value, with keys of its own.
fn path_of<'d>(
    alloc: Global,
    root: Option<&Value>,
    pointer: &String,
) -> Result<Option<Vec<JsonPointerSegment<'d>>>, AllocError> {
    let Some(path) = path_to(alloc, root, pointer.as_str())? else {
        return Ok(None);
    };
    let mut own = Vec::with_capacity(alloc, path.len())?;
    for segment in &path {
        own.push(owned(alloc, segment)?)?;
    }
    Ok(Some(own))
}
