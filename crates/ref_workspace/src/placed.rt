//! Which texts under `$ref` are in places, and which are not.
use crate::described::pointer_at;
use crate::pointer::place_of;
use crate::workspace::{Document, Workspace};
use ref_parts::path::JsonPointerSegment;
use ref_parts::pointer_of;
use ref_positions::{Places, line_and_column};
use ref_reach::Place;
use serde_json::Value;
use std::alloc::{AllocError, Global};
use std::collections::BTreeSet;

/// The places that have a text under `$ref`, of those documents that are asked about and whose texts are looked for.
#[derive(Drop)]
pub(crate) struct Placed {
    // By the numbers of the documents, whether the texts of one are looked for.
    looked: Vec<bool>,
    // By these numbers, how many places one has.
    counts: Vec<usize>,
    // The number of the document of each place, and its pointer.
    seen: BTreeSet<(usize, String)>,
}

/// A text under a `$ref` that is in no place, so that nothing looks at it.
#[derive(Drop)]
pub struct Unplaced<'d> {
    /// The number of its document.
    pub source: usize,
    /// The path of the object that has it.
    pub path: Vec<JsonPointerSegment<'d>>,
    /// The text, which is the document's own.
    pub text: &'d str,
}

impl Placed {
    /// None, of no document.
    pub fn new(alloc: Global, documents: usize) -> Result<Placed, AllocError> {
        Ok(Placed {
            looked: vec![in alloc; false; documents]?,
            counts: vec![in alloc; 0usize; documents]?,
            seen: BTreeSet::new(alloc),
        })
    }

    /// The texts of the document with a number are looked for.
    pub fn note(&mut self, number: usize) {
        if let Some(looked) = self.looked.get_mut(number) {
            *looked = true;
        }
    }

    /// The texts of the document with a number are not looked for.
    pub fn forget(&mut self, number: usize) {
        if let Some(looked) = self.looked.get_mut(number) {
            *looked = false;
        }
    }

    /// Adds a place in the document with a number, where it has a text under `$ref`. Says whether it is new.
    pub fn add(
        &mut self,
        alloc: Global,
        number: usize,
        place: &Place<'_>,
    ) -> Result<bool, AllocError> {
        if !has_text(place.value) {
            return Ok(false);
        }
        let pointer = pointer_at(alloc, place)?;
        let is_new = self.seen.insert((number, pointer))?;
        if is_new {
            self.count(number);
        }
        Ok(is_new)
    }

    fn count(&mut self, number: usize) {
        if let Some(count) = self.counts.get_mut(number) {
            *count = count.saturating_add(1);
        }
    }

    /// Adds those places that are in documents that are asked about.
    pub fn add_all(
        &mut self,
        alloc: Global,
        asked: usize,
        numbers: &[usize],
        places: &[Place<'_>],
    ) -> Result<(), AllocError> {
        for place in places {
            let number = numbers.get(place.document).copied().unwrap_or(usize::MAX);
            if number < asked {
                self.add(alloc, number, place)?;
            }
        }
        Ok(())
    }

    /// The texts that are in no place, document by document, in the order of each tree.
    pub fn unplaced<'d>(
        &self,
        alloc: Global,
        workspace: &'d Workspace,
    ) -> Result<Vec<Unplaced<'d>>, AllocError> {
        let mut list = Vec::new(alloc);
        for (number, document) in workspace.asked_about().iter().enumerate() {
            if self.looked.get(number).copied().unwrap_or(false) {
                if let Some(value) = document.value() {
                    self.add_unplaced(alloc, number, value, &mut list)?;
                }
            }
        }
        Ok(list)
    }

    // Adds the texts of a document that are in no place, where it has any.
    fn add_unplaced<'d>(
        &self,
        alloc: Global,
        number: usize,
        root: &'d Value,
        list: &mut Vec<Unplaced<'d>>,
    ) -> Result<(), AllocError> {
        if Some(texts_in(alloc, root)?) == self.counts.get(number).copied() {
            return Ok(());
        }
        let mut waiting = Vec::new(alloc);
        waiting.push(Spot {
            path: Vec::new(alloc),
            value: root,
        })?;
        for _ in 0..u64::MAX {
            let Some(spot) = waiting.pop() else {
                break;
            };
            push_spots(alloc, &mut waiting, &spot)?;
            self.push_unplaced(alloc, number, spot, list)?;
        }
        Ok(())
    }

    // Adds the text of a value, where it has one and is no place.
    fn push_unplaced<'d>(
        &self,
        alloc: Global,
        number: usize,
        spot: Spot<'d>,
        list: &mut Vec<Unplaced<'d>>,
    ) -> Result<(), AllocError> {
        let Some(text) = spot.value.get("$ref").and_then(Value::as_str) else {
            return Ok(());
        };
        let pointer = pointer_of(alloc, spot.path.as_slice())?;
        if self.seen.contains(&(number, pointer)) {
            return Ok(());
        }
        list.push(Unplaced {
            source: number,
            path: spot.path,
            text,
        })?;
        Ok(())
    }
}

/// A value of a document, and where it is.
#[derive(Drop)]
pub(crate) struct Spot<'d> {
    pub(crate) path: Vec<JsonPointerSegment<'d>>,
    pub(crate) value: &'d Value,
}

fn has_text(value: &Value) -> bool {
    value.get("$ref").is_some_and(Value::is_string)
}

/// Adds the values in a value, with their paths.
pub(crate) fn push_spots<'d>(
    alloc: Global,
    waiting: &mut Vec<Spot<'d>>,
    spot: &Spot<'d>,
) -> Result<(), AllocError> {
    if let Some(members) = spot.value.as_object() {
        for (key, value) in members.iter() {
            let step = JsonPointerSegment::from(key.as_str());
            push_spot(alloc, waiting, spot, step, value)?;
        }
    }
    if let Some(items) = spot.value.as_array() {
        for (index, value) in items.iter().enumerate() {
            push_spot(alloc, waiting, spot, JsonPointerSegment::from(index), value)?;
        }
    }
    Ok(())
}

// Adds a value in a value, unless it can have no value in it.
fn push_spot<'d>(
    alloc: Global,
    waiting: &mut Vec<Spot<'d>>,
    above: &Spot<'d>,
    step: JsonPointerSegment<'d>,
    value: &'d Value,
) -> Result<(), AllocError> {
    if !value.is_object() && !value.is_array() {
        return Ok(());
    }
    let mut path = Vec::with_capacity(alloc, above.path.len().saturating_add(1))?;
    for segment in &above.path {
        path.push(again(alloc, segment)?)?;
    }
    path.push(step)?;
    waiting.push(Spot { path, value })?;
    Ok(())
}

// A step again.
fn again<'d>(
    alloc: Global,
    step: &JsonPointerSegment<'d>,
) -> Result<JsonPointerSegment<'d>, AllocError> {
    step.clone()
}

/// Where texts that are in no place are: the number of the document, the line and the column of each, and its number in the list; by
/// document, line and column. One pass over each document that has one.
pub fn lines_of(
    alloc: Global,
    documents: &[Document],
    list: &[Unplaced<'_>],
) -> Result<Vec<(usize, usize, usize, usize)>, AllocError> {
    let mut lines = Vec::with_capacity(alloc, list.len())?;
    let mut start = 0;
    for (number, document) in documents.iter().enumerate() {
        let end = end_of(list, start, number);
        if start < end {
            add_lines(alloc, &mut lines, document, number, (list, start, end))?;
        }
        start = end;
    }
    lines.sort_unstable();
    Ok(lines)
}

// Where the texts of a document end that begin at a place of the list, which is by document.
fn end_of(list: &[Unplaced<'_>], start: usize, number: usize) -> usize {
    let mut end = start;
    for unplaced in list.get(start..).unwrap_or(&[]) {
        if unplaced.source != number {
            break;
        }
        end = end.saturating_add(1);
    }
    end
}

// Adds where those are that are in a document.
fn add_lines(
    alloc: Global,
    lines: &mut Vec<(usize, usize, usize, usize)>,
    document: &Document,
    source: usize,
    (list, start, end): (&[Unplaced<'_>], usize, usize),
) -> Result<(), AllocError> {
    let mut asked = Places::new(alloc)?;
    let mut numbers = Vec::new(alloc);
    for index in start..end {
        if let Some(unplaced) = list.get(index) {
            let object = place_of(&mut asked, unplaced.path.as_slice())?;
            push_number(&mut numbers, (index, asked.member(object, "$ref")?))?;
        }
    }
    let text = &document.text;
    let located = asked.locate(alloc, text.format, text.text.as_str())?;
    for (index, number) in &numbers {
        let (line, column) = line_and_column(located.value(*number));
        lines.push((source, line, column, *index))?;
    }
    Ok(())
}

fn push_number(list: &mut Vec<(usize, usize)>, number: (usize, usize)) -> Result<(), AllocError> {
    list.push(number)?;
    Ok(())
}

// How many texts are under a `$ref` in a value, at any depth.
fn texts_in(alloc: Global, value: &Value) -> Result<usize, AllocError> {
    let mut count: usize = 0;
    let mut waiting = Vec::new(alloc);
    waiting.push(value)?;
    for _ in 0..u64::MAX {
        let Some(value) = waiting.pop() else {
            break;
        };
        if has_text(value) {
            count = count.saturating_add(1);
        }
        push_below(&mut waiting, value)?;
    }
    Ok(count)
}

/// Whether a member with this name holds a reference in some draft.
pub(crate) fn is_reference(key: &str) -> bool {
    key.starts_with('$') && matches!(key, "$ref" | "$dynamicRef" | "$recursiveRef")
}

/// Adds those values in a value that may have values in them.
pub(crate) fn push_below<'v>(
    waiting: &mut Vec<&'v Value>,
    value: &'v Value,
) -> Result<(), AllocError> {
    if let Some(members) = value.as_object() {
        for (_, member) in members.iter() {
            push_large(waiting, member)?;
        }
    }
    if let Some(items) = value.as_array() {
        for item in items {
            push_large(waiting, item)?;
        }
    }
    Ok(())
}

fn push_large<'v>(waiting: &mut Vec<&'v Value>, value: &'v Value) -> Result<(), AllocError> {
    if value.is_object() || value.is_array() {
        waiting.push(value)?;
    }
    Ok(())
}
