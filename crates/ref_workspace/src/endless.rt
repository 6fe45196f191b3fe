//! References that come back to where they began without a step into the value that is validated.
use crate::described::{owned, pointer_at, texts_at};
use crate::finding::{Finding, Problem, push as push_finding};
use crate::pointer::path_to;
use crate::workspace::Workspace;
use ref_descriptions::{Reference, Under, references};
use ref_draft::Draft;
use ref_graphs::{Lead, Round, rounds_of};
use ref_index::meanings::text_under;
use ref_index::segments_of;
use ref_parts::pointer_of;
use ref_reach::{Documents, Place, Target, target};
use ref_rules::in_place;
use serde_json::Value;
use std::alloc::{AllocError, Global};
use std::collections::{BTreeMap, BTreeSet};

// How many places of a round a message names at most, but for the one that is both its first and its last.
const MOST_NAMES: usize = 4;

/// A reference of a schema, and what it leads to, by the numbers of documents and pointers.
#[derive(Drop)]
pub(crate) struct Link {
    document: usize,
    from: String,
    keyword: &'static str,
    draft: Draft,
    to_document: usize,
    to: String,
}

/// Adds the references of places that lead somewhere: those under `$ref`, and under `$dynamicRef` and `$recursiveRef` where they mean the same.
pub(crate) fn add_links<'r>(
    alloc: Global,
    numbers: &[usize],
    documents: &Documents<'r>,
    places: &[Place<'r>],
    links: &mut Vec<Link>,
) -> Result<(), AllocError> {
    for place in places {
        for reference in references(alloc, place.reading, place.value)? {
            if let Some((keyword, text)) = of_schema(reference) {
                add_link(alloc, numbers, documents, place, (keyword, text), links)?;
            }
        }
        if place.reading.draft == Draft::Draft201909 {
            if let Some(text) = text_under(place.value, "$recursiveRef") {
                let lead = ("$recursiveRef", text);
                add_link(alloc, numbers, documents, place, lead, links)?;
            }
        }
    }
    Ok(())
}

// The keyword and the text of a reference under `$ref` or `$dynamicRef`.
fn of_schema<'r>(reference: Reference<'r>) -> Option<(&'static str, &'r str)> {
    match (reference.under, reference.keyword) {
        (Under::Itself, "$ref") => Some(("$ref", reference.text?)),
        (Under::Itself, "$dynamicRef") => Some(("$dynamicRef", reference.text?)),
        _ => None,
    }
}

fn add_link<'r>(
    alloc: Global,
    numbers: &[usize],
    documents: &Documents<'r>,
    place: &Place<'r>,
    (keyword, text): (&'static str, &str),
    links: &mut Vec<Link>,
) -> Result<(), AllocError> {
    let Some(found) = target(alloc, documents, place, text)? else {
        return Ok(());
    };
    if !is_plain(keyword, found.value) {
        return Ok(());
    }
    let to_document = number_of(numbers, found.document);
    links.push(Link {
        document: number_of(numbers, place.document),
        from: pointer_at(alloc, place)?,
        keyword,
        draft: place.reading.draft,
        to_document,
        to: pointer_to(alloc, &found)?,
    })?;
    Ok(())
}

fn number_of(numbers: &[usize], document: usize) -> usize {
    numbers.get(document).copied().unwrap_or(usize::MAX)
}

fn pointer_to(alloc: Global, found: &Target<'_>) -> Result<String, AllocError> {
    let path = segments_of(alloc, &found.path)?;
    pointer_of(alloc, path.as_slice())
}

// Whether a reference leads to this value whatever schemas are around.
fn is_plain(keyword: &str, value: &Value) -> bool {
    match keyword {
        "$dynamicRef" => value.get("$dynamicAnchor").is_none(),
        "$recursiveRef" => value.get("$recursiveAnchor").is_none(),
        _ => true,
    }
}

// The numbers of the places that references lead to, in the order in which they are met.
#[derive(Drop)]
struct Targets {
    numbers: BTreeMap<String, usize>,
}

fn key_of(alloc: Global, document: usize, pointer: &str) -> Result<String, AllocError> {
    format!(in alloc; "{document} {pointer}")
}

impl Targets {
    // The number of a place, which it gets where it has none.
    fn add(&mut self, alloc: Global, document: usize, pointer: &str) -> Result<usize, AllocError> {
        let key = key_of(alloc, document, pointer)?;
        if let Some(number) = self.numbers.get(key.as_str()) {
            return Ok(*number);
        }
        let number = self.numbers.len();
        self.numbers.insert(key, number)?;
        Ok(number)
    }

    // The number of a place, where a reference leads to it.
    fn number(
        &self,
        alloc: Global,
        document: usize,
        pointer: &str,
    ) -> Result<Option<usize>, AllocError> {
        let key = key_of(alloc, document, pointer)?;
        Ok(self.numbers.get(key.as_str()).copied())
    }
}

// The rounds of references.
fn rounds_among(
    alloc: Global,
    workspace: &Workspace,
    links: &[Link],
) -> Result<Vec<Round>, AllocError> {
    let mut targets = Targets {
        numbers: BTreeMap::new(alloc),
    };
    let mut tos = Vec::with_capacity(alloc, links.len())?;
    for link in links {
        let to = targets.add(alloc, link.to_document, link.to.as_str())?;
        tos.push(to)?;
    }
    let mut leads = Vec::with_capacity(alloc, links.len())?;
    for (link, to) in links.iter().zip(tos.iter()) {
        let fronts = fronts_of(alloc, workspace, &targets, link)?;
        leads.push(Lead { fronts, to: *to })?;
    }
    rounds_of(alloc, targets.numbers.len(), leads.as_slice())
}

// The places from which the same value comes to a reference: of those that references lead to, since what none leads to is on no round.
fn fronts_of(
    alloc: Global,
    workspace: &Workspace,
    targets: &Targets,
    link: &Link,
) -> Result<Vec<usize>, AllocError> {
    let mut fronts = Vec::new(alloc);
    for end in applied_ends(alloc, workspace, link)? {
        let front = link.from.as_str().get(..end).unwrap_or("");
        if let Some(number) = targets.number(alloc, link.document, front)? {
            fronts.push(number)?;
        }
    }
    Ok(fronts)
}

// Where the pointer of a reference's place may end so that the place is applied to the same value: in bytes.
fn applied_ends(
    alloc: Global,
    workspace: &Workspace,
    link: &Link,
) -> Result<Vec<usize>, AllocError> {
    let Some(root) = workspace.value(link.document) else {
        return Ok(Vec::new(alloc));
    };
    let Some(path) = path_to(alloc, Some(root), link.from.as_str())? else {
        return Ok(Vec::new(alloc));
    };
    let flags = in_place(alloc, link.draft, root, path.as_slice())?;
    flagged_ends(alloc, link.from.as_str(), flags.as_slice())
}

// Where those beginnings of a pointer end that have a flag, in bytes: the first one is empty, and each other one has a part more.
fn flagged_ends(alloc: Global, pointer: &str, flags: &[bool]) -> Result<Vec<usize>, AllocError> {
    let mut ends = Vec::new(alloc);
    let mut length: usize = 0;
    for (flag, part) in flags.iter().zip(pointer.split('/')) {
        length = length.saturating_add(part.len());
        if *flag {
            ends.push(length)?;
        }
        length = length.saturating_add(1);
    }
    Ok(ends)
}

/// Adds which of these references come back to where they began. Fails only if out of memory. Linear, but for sorting.
pub(crate) fn add_endless<'d>(
    alloc: Global,
    workspace: &'d Workspace,
    links: &[Link],
    list: &mut Vec<Finding<'d>>,
) -> Result<(), AllocError> {
    let rounds = rounds_among(alloc, workspace, links)?;
    let mut seen = BTreeSet::new(alloc);
    for round in rounds {
        if let Some(link) = link_on(workspace, links, &round) {
            let key = key_of(alloc, link.document, link.from.as_str())?;
            if seen.insert(key)? {
                let around = around(alloc, workspace, links, &round, link.document)?;
                push_endless(alloc, workspace, link, around, list)?;
            }
        }
    }
    Ok(())
}

// The reference of a round that is told of: the last one that is in a document that is asked about, of the one that closes it and of a few before.
fn link_on<'l>(workspace: &Workspace, links: &'l [Link], round: &Round) -> Option<&'l Link> {
    if let Some(link) = asked_link(workspace, links, round.closing) {
        return Some(link);
    }
    for lead in round.leads.iter().rev().take(1000) {
        if let Some(link) = asked_link(workspace, links, *lead) {
            return Some(link);
        }
    }
    None
}

// The reference with a number, where it is in a document that is asked about.
fn asked_link<'l>(workspace: &Workspace, links: &'l [Link], number: usize) -> Option<&'l Link> {
    let link = links.get(number)?;
    if link.document < workspace.asked() {
        return Some(link);
    }
    None
}

// The places of a round, as a text: at most four between the first and the last, which are the same.
fn around(
    alloc: Global,
    workspace: &Workspace,
    links: &[Link],
    round: &Round,
    own: usize,
) -> Result<String, AllocError> {
    let mut text = String::new(alloc);
    let Some(closing) = links.get(round.closing) else {
        return Ok(text);
    };
    push_name(&mut text, workspace, closing, own)?;
    let between = round.size.saturating_sub(1);
    for lead in round.leads.iter().take(between.min(MOST_NAMES)) {
        if let Some(link) = links.get(*lead) {
            text.push_str(" -> ")?;
            push_name(&mut text, workspace, link, own)?;
        }
    }
    if between > MOST_NAMES {
        text.push_str(" -> ...")?;
    }
    text.push_str(" -> ")?;
    push_name(&mut text, workspace, closing, own)?;
    Ok(text)
}

// Adds what a reference leads to: the name of the document, where it is another one, and the pointer.
fn push_name(
    text: &mut String,
    workspace: &Workspace,
    link: &Link,
    own: usize,
) -> Result<(), AllocError> {
    if link.to_document != own {
        text.push_str(workspace.name(link.to_document))?;
    }
    text.push('#')?;
    text.push_str(link.to.as_str())
}

fn push_endless<'d>(
    alloc: Global,
    workspace: &'d Workspace,
    link: &Link,
    around: String,
    list: &mut Vec<Finding<'d>>,
) -> Result<(), AllocError> {
    let Some(root) = workspace.value(link.document) else {
        return Ok(());
    };
    let Some(path) = path_to(alloc, Some(root), link.from.as_str())? else {
        return Ok(());
    };
    let mut own = Vec::with_capacity(alloc, path.len())?;
    for segment in &path {
        own.push(owned(alloc, segment)?)?;
    }
    let (keyword, text) = texts_at(root, own.as_slice(), link.keyword);
    push_finding(
        list,
        Finding {
            source: link.document,
            path: own,
            keyword,
            text,
            wanted: None,
            problem: Problem::Endless { around },
        },
    )
}
