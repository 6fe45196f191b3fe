//! The places of a document, a line each: as text for people, or as a JSON object.
use crate::members::push_site;
use ref_descriptions::Version;
use ref_draft::Draft;
use ref_index::Place;
use ref_messages::{Plain, push_member, push_quoted};
use ref_parts::pointer_of;
use ref_positions::{Places, line_and_column};
use ref_workspace::pointer::place_of;
use ref_workspace::{DescribedPlace, Description, Document};
use serde_json::Value;
use std::alloc::{AllocError, Global};

/// How places are listed.
#[derive(Clone, Copy)]
pub(crate) struct Listing {
    pub alloc: Global,
    /// Whether as JSON objects.
    pub is_json: bool,
}

impl Listing {
    /// Adds a line for each of these places of a document: where it is, its draft, its base URI, its identifier and its
    /// anchors. Of a document without a value nothing is added.
    pub fn push_document(
        self,
        out: &mut String,
        document: &Document,
        places: &[Place<'_>],
    ) -> Result<(), AllocError> {
        if document.value().is_none() {
            return Ok(());
        }
        let mut asked = Places::new(self.alloc)?;
        let pushed = self.push_located(out, document, places, &mut asked);
        drop(asked);
        pushed
    }

    // Adds the lines, with what is asked for in the document.
    fn push_located(
        self,
        out: &mut String,
        document: &Document,
        places: &[Place<'_>],
        asked: &mut Places,
    ) -> Result<(), AllocError> {
        let numbers = numbers_of(self.alloc, asked, places)?;
        let text = document.text.text.as_str();
        let located = asked.locate(self.alloc, document.text.format, text)?;
        for (place, number) in places.iter().zip(numbers.iter()) {
            let at = line_and_column(located.value(*number));
            if self.is_json {
                push_place_object(self.alloc, out, document, place, at)?;
            } else {
                push_place(self.alloc, out, document, place, at)?;
            }
        }
        Ok(())
    }

    /// Adds a line for each of the places with these numbers, which a document has in a description: where it is, what it is, by which version, and
    /// its base URI.
    pub fn push_described(
        self,
        out: &mut String,
        document: &Document,
        own: &[usize],
        description: &Description<'_>,
    ) -> Result<(), AllocError> {
        if own.is_empty() {
            return Ok(());
        }
        let mut asked = Places::new(self.alloc)?;
        let pushed = self.push_all_described(out, document, own, description, &mut asked);
        drop(asked);
        pushed
    }

    fn push_all_described(
        self,
        out: &mut String,
        document: &Document,
        own: &[usize],
        description: &Description<'_>,
        asked: &mut Places,
    ) -> Result<(), AllocError> {
        let mut numbers = Vec::with_capacity(self.alloc, own.len())?;
        for index in own {
            if let Some(place) = description.places.get(*index) {
                numbers.push(place_of(asked, place.path.as_slice())?)?;
            }
        }
        let text = document.text.text.as_str();
        let located = asked.locate(self.alloc, document.text.format, text)?;
        for (index, number) in own.iter().zip(numbers.iter()) {
            let at = line_and_column(located.value(*number));
            if let Some(place) = description.places.get(*index) {
                self.push_described_at(out, document, place, at)?;
            }
        }
        Ok(())
    }

    fn push_described_at(
        self,
        out: &mut String,
        document: &Document,
        place: &DescribedPlace<'_>,
        at: (usize, usize),
    ) -> Result<(), AllocError> {
        if self.is_json {
            push_described_object(self.alloc, out, document, place, at)
        } else {
            push_described_place(self.alloc, out, document, place, at)
        }
    }
}

/// The numbers of the places that each document has in a description, by the numbers of the documents.
pub(crate) fn numbers_by_document(
    alloc: Global,
    documents: usize,
    description: &Description<'_>,
) -> Result<Vec<Vec<usize>>, AllocError> {
    let mut lists = Vec::with_capacity(alloc, documents)?;
    for _ in 0..documents {
        lists.push(Vec::new(alloc))?;
    }
    for (number, place) in description.places.iter().enumerate() {
        if let Some(list) = lists.get_mut(place.document) {
            push_number(list, number)?;
        }
    }
    Ok(lists)
}

fn push_number(list: &mut Vec<usize>, number: usize) -> Result<(), AllocError> {
    list.push(number)?;
    Ok(())
}

fn numbers_of(
    alloc: Global,
    asked: &mut Places,
    places: &[Place<'_>],
) -> Result<Vec<usize>, AllocError> {
    let mut numbers = Vec::with_capacity(alloc, places.len())?;
    for place in places {
        numbers.push(place_of(asked, place.path.as_slice())?)?;
    }
    Ok(numbers)
}

fn push_place(
    alloc: Global,
    out: &mut String,
    document: &Document,
    place: &Place<'_>,
    (line, column): (usize, usize),
) -> Result<(), AllocError> {
    let pointer = pointer_of(alloc, place.path.as_slice())?;
    let file = Plain(document.name.as_str());
    let draft = place.draft.name();
    let base = place.base.as_str();
    write!(
        out,
        "{file}:{line}:{column}: '{}' draft {draft} base {base}",
        Plain(pointer.as_str())
    )?;
    push_names(out, place.draft, place.value)?;
    out.push('\n')
}

// The same as an object: `draft`, `base`, and `id` and `anchors` where there are some.
fn push_place_object(
    alloc: Global,
    out: &mut String,
    document: &Document,
    place: &Place<'_>,
    at: (usize, usize),
) -> Result<(), AllocError> {
    let pointer = pointer_of(alloc, place.path.as_slice())?;
    push_site(
        alloc,
        out,
        document.name.as_str(),
        Some(at),
        pointer.as_str(),
    )?;
    push_member(alloc, out, ",\"kind\":", "schema")?;
    push_member(alloc, out, ",\"draft\":", place.draft.name())?;
    push_member(alloc, out, ",\"base\":", place.base.as_str())?;
    if let Some(id) = place
        .value
        .get(place.draft.id_keyword())
        .and_then(Value::as_str)
    {
        push_member(alloc, out, ",\"id\":", id)?;
    }
    let mut is_first = true;
    for anchor in place.draft.anchors(place.value) {
        out.push_str(if is_first { ",\"anchors\":[" } else { "," })?;
        push_quoted(alloc, out, anchor.name())?;
        is_first = false;
    }
    out.push_str(if is_first { "}\n" } else { "]}\n" })
}

fn push_described_place(
    alloc: Global,
    out: &mut String,
    document: &Document,
    place: &DescribedPlace<'_>,
    (line, column): (usize, usize),
) -> Result<(), AllocError> {
    let pointer = pointer_of(alloc, place.path.as_slice())?;
    let file = Plain(document.name.as_str());
    let kind = place.reading.kind.name();
    write!(
        out,
        "{file}:{line}:{column}: '{}' {kind}",
        Plain(pointer.as_str())
    )?;
    if let Some(version) = place.reading.version {
        write!(out, " {}", version_name(version))?;
    }
    if place.reading.is_by_draft() {
        write!(out, " draft {}", place.reading.draft.name())?;
    }
    write!(out, " base {}\n", place.base.as_str())
}

// The same as an object: `kind`, `version` of a place of a description, or `reached` of one of a schema, `draft` where it has one, and `base`.
fn push_described_object(
    alloc: Global,
    out: &mut String,
    document: &Document,
    place: &DescribedPlace<'_>,
    at: (usize, usize),
) -> Result<(), AllocError> {
    let pointer = pointer_of(alloc, place.path.as_slice())?;
    push_site(
        alloc,
        out,
        document.name.as_str(),
        Some(at),
        pointer.as_str(),
    )?;
    push_member(alloc, out, ",\"kind\":", place.reading.kind.name())?;
    match place.reading.version {
        Some(version) => push_member(alloc, out, ",\"version\":", version_name(version))?,
        None => out.push_str(",\"reached\":true")?,
    }
    if place.reading.is_by_draft() {
        push_member(alloc, out, ",\"draft\":", place.reading.draft.name())?;
    }
    push_member(alloc, out, ",\"base\":", place.base.as_str())?;
    out.push_str("}\n")
}

/// The name of a version.
pub(crate) fn version_name(version: Version) -> &'static str {
    match version {
        Version::V2_0 => "2.0",
        Version::V3_0 => "3.0",
        Version::V3_1 => "3.1",
        Version::V3_2 => "3.2",
    }
}

// The identifier and the anchors of a place.
fn push_names(out: &mut String, draft: Draft, value: &Value) -> Result<(), AllocError> {
    if let Some(id) = value.get(draft.id_keyword()).and_then(Value::as_str) {
        write!(out, " id '{}'", Plain(id))?;
    }
    for anchor in draft.anchors(value) {
        write!(out, " anchor '{}'", Plain(anchor.name()))?;
    }
    Ok(())
}
