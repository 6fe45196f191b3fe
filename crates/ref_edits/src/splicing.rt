//! What changes replace in the texts of documents.
use crate::given::{Given, Written};
use crate::plan::{Change, Part, Refusal, Unmade};
use crate::scalars::{scalar_like, text_of};
use ref_fixes::{Replacement, replaced};
use ref_outline::Outline;
use ref_positions::Format;
use std::alloc::{AllocError, Global};
use std::collections::{BTreeMap, BTreeSet};

/// What is replaced in the text of a document.
#[derive(Debug, Drop)]
pub struct Edit {
    /// The number of the document.
    pub document: usize,
    /// The parts, in the order of the text.
    pub parts: Vec<Replacement>,
    /// The text with them replaced.
    pub text: String,
}

/// What changes replace, document by document. Refused where the text of a document can't be changed, and where what is to change isn't written at its place. Each document is
/// read once.
pub fn edits_of(
    alloc: Global,
    given: &Given<'_, '_, '_, '_>,
    changes: &[Change],
) -> Result<Vec<Edit>, Unmade> {
    let numbers = numbers_of(alloc, changes)?;
    let mut edits = Vec::new(alloc);
    for number in &numbers {
        push_edit(&mut edits, edit_of(alloc, given, changes, *number)?)?;
    }
    Ok(edits)
}

// The numbers of the documents that changes are in.
fn numbers_of(alloc: Global, changes: &[Change]) -> Result<BTreeSet<usize>, AllocError> {
    let mut numbers = BTreeSet::new(alloc);
    for change in changes {
        numbers.insert(change.document)?;
    }
    Ok(numbers)
}

fn push_edit(edits: &mut Vec<Edit>, edit: Edit) -> Result<(), AllocError> {
    edits.push(edit)?;
    Ok(())
}

// What changes replace in the document with a number.
fn edit_of(
    alloc: Global,
    given: &Given<'_, '_, '_, '_>,
    changes: &[Change],
    document: usize,
) -> Result<Edit, Unmade> {
    let Some(written) = given.text(document) else {
        return Err(fixed(alloc, changes, document)?);
    };
    let outline = Outline::of(alloc, written.format, written.text)?;
    let mut spans = BTreeMap::new(alloc);
    for change in changes {
        if change.document == document {
            add_change(alloc, written, &outline, change, &mut spans)?;
        }
    }
    let parts = parts_of(alloc, spans)?;
    match replaced(alloc, written.text, parts.as_slice())? {
        Some(text) => Ok(Edit {
            document,
            parts,
            text,
        }),
        None => Err(Unmade::Refused(Refusal::Unlike { document })),
    }
}

// That a text of a document would have to change which can't be changed.
fn fixed(alloc: Global, changes: &[Change], document: usize) -> Result<Unmade, AllocError> {
    let mut pointer = String::new(alloc);
    for change in changes {
        if change.document == document {
            pointer = change.pointer.clone()?;
            break;
        }
    }
    Ok(Unmade::Refused(Refusal::Fixed { document, pointer }))
}

// What comes in place of what is between two offsets.
fn parts_of(
    alloc: Global,
    spans: BTreeMap<(usize, usize), String>,
) -> Result<Vec<Replacement>, AllocError> {
    let mut parts = Vec::new(alloc);
    for ((start, end), text) in spans {
        parts.push(Replacement { start, end, text })?;
    }
    Ok(parts)
}

// Adds what a change replaces. What aliases mean is written once: there all changes have to say the same.
fn add_change(
    alloc: Global,
    written: Written<'_>,
    outline: &Outline,
    change: &Change,
    spans: &mut BTreeMap<(usize, usize), String>,
) -> Result<(), Unmade> {
    let Some((start, end)) = span_of(alloc, written, outline, change)? else {
        return Err(elsewhere(change)?);
    };
    let token = written.text.get(start..end).unwrap_or("");
    let text = scalar_like(alloc, written.format, token, change.new.as_str())?;
    if let Some(other) = spans.get(&(start, end)) {
        if other.as_str() == text.as_str() {
            return Ok(());
        }
        return Err(elsewhere(change)?);
    }
    Ok(put(spans, (start, end), text)?)
}

fn put(
    spans: &mut BTreeMap<(usize, usize), String>,
    span: (usize, usize),
    text: String,
) -> Result<(), AllocError> {
    spans.insert(span, text)?;
    Ok(())
}

// That a text isn't written at its place.
fn elsewhere(change: &Change) -> Result<Unmade, AllocError> {
    Ok(Unmade::Refused(Refusal::Elsewhere {
        document: change.document,
        pointer: change.pointer.clone()?,
    }))
}

// Where the scalar is that is to be another one, where it is written there.
fn span_of(
    alloc: Global,
    written: Written<'_>,
    outline: &Outline,
    change: &Change,
) -> Result<Option<(usize, usize)>, AllocError> {
    let Some(node) = outline.at(change.pointer.as_str()) else {
        return Ok(None);
    };
    let span = match change.part {
        Part::Key => node.key,
        Part::Text => Some((node.start, node.end)),
    };
    let Some((start, end)) = span else {
        return Ok(None);
    };
    let token = written.text.get(start..end).unwrap_or("").trim_end();
    if !is_old(alloc, written.format, token, change)? {
        return Ok(None);
    }
    Ok(Some((start, start.saturating_add(token.len()))))
}

// Whether a scalar is what a change has before: a key of YAML may be a number.
fn is_old(alloc: Global, format: Format, token: &str, change: &Change) -> Result<bool, AllocError> {
    if format == Format::Yaml && change.part == Part::Key && token == change.old.as_str() {
        return Ok(true);
    }
    match text_of(alloc, format, token)? {
        Some(text) => Ok(text.as_str() == change.old.as_str()),
        None => Ok(false),
    }
}
