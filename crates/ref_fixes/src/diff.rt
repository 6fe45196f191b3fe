//! The lines in which two texts differ, where parts of one were replaced.
ghost use Rattle.std.specs.Prelude.{◌≤◌, ◌<◌, length};

use crate::replace::{Replacement, replaced};
use std::alloc::{AllocError, Global};

// How many lines that stay are shown before and after those that don't.
const CONTEXT: usize = 3;

// Lines of a text that others take the place of.
#[derive(Drop)]
struct Block {
    // The number of the first, from 0.
    line: usize,
    // Their offsets.
    start: usize,
    end: usize,
    // How many there are.
    count: usize,
    // The lines that take their place.
    text: String,
}

/// What parts that are replaced change in a text, as a unified diff, with three lines before and after what changes. The text is called so before
/// and after. Empty where the parts change nothing, or can't be [`replaced`]. Fails only if out of memory. Linear in the text and the parts.
pub fn unified(
    alloc: Global,
    name: &str,
    text: &str,
    parts: &[Replacement],
) -> Result<String, AllocError> {
    let mut out = String::new(alloc);
    let blocks = blocks_of(alloc, text, parts)?;
    let mut rest = blocks.as_slice();
    let mut added: usize = 0;
    let mut removed: usize = 0;
    'blocks: while let [first, ..] = rest {
        if out.is_empty() {
            write!(out, "--- {name}\n+++ {name}\n")?;
        }
        let (hunk, more) = rest.split_at(hunk_length(rest));
        push_hunk(&mut out, text, hunk, (first.line, added, removed))?;
        for block in hunk {
            added = added.saturating_add(count_of(block.text.as_str()));
            removed = removed.saturating_add(block.count);
        }
        rest = more;
    }
    Ok(out)
}

// How many blocks are shown together: those between which there are no more lines than are shown after one and before the next.
fn hunk_length(blocks: &[Block]) -> usize
    ensures within { result ≤ length blocks.now }
    ensures some { 0 < length blocks.now → 0 < result }
{
    let mut length: usize = 0;
    let mut end: usize = 0;
    for block in blocks {
        if length > 0 && block.line.saturating_sub(end) > 2 * CONTEXT {
            break;
        }
        end = block.line.saturating_add(block.count);
        length = length.saturating_add(1);
    }
    length
}

// The lines that parts change.
fn blocks_of(alloc: Global, text: &str, parts: &[Replacement]) -> Result<Vec<Block>, AllocError> {
    let mut blocks = Vec::new(alloc);
    let mut rest = parts;
    let mut line: usize = 0;
    let mut counted: usize = 0;
    'parts: while let [first, ..] = rest {
        let start = line_start(text, first.start);
        let (length, end) = together(text, rest);
        let (own, more) = rest.split_at(length);
        line = line.saturating_add(lines_between(text, counted, start));
        counted = start;
        if let Some(new) = changed_lines(alloc, text, (start, end), own)? {
            let count = count_of(text.get(start..end).unwrap_or(""));
            blocks.push(Block {
                line,
                start,
                end,
                count,
                text: new,
            })?;
        }
        rest = more;
    }
    Ok(blocks)
}

// How many parts are in the same lines, and where these end.
fn together(text: &str, parts: &[Replacement]) -> (usize, usize)
    ensures within { result.0 ≤ length parts.now }
    ensures some { 0 < length parts.now → 0 < result.0 }
{
    let mut length: usize = 0;
    let mut end: usize = 0;
    for part in parts {
        if length > 0 && end <= part.start {
            break;
        }
        end = line_end(text, part.end);
        length = length.saturating_add(1);
    }
    (length, end)
}

// The lines between two offsets with parts replaced, where that changes them.
fn changed_lines(
    alloc: Global,
    text: &str,
    (start, end): (usize, usize),
    parts: &[Replacement],
) -> Result<Option<String>, AllocError> {
    let lines = text.get(start..end).unwrap_or("");
    let mut own = Vec::with_capacity(alloc, parts.len())?;
    for part in parts {
        own.push(Replacement {
            start: part.start.saturating_sub(start),
            end: part.end.saturating_sub(start),
            text: part.text.clone()?,
        })?;
    }
    match replaced(alloc, lines, own.as_slice())? {
        Some(new) if new.as_str() != lines => Ok(Some(new)),
        _ => Ok(None),
    }
}

// The offset of the line that an offset is in.
fn line_start(text: &str, offset: usize) -> usize {
    let before = text.get(..offset).unwrap_or("");
    match before.rfind('\n') {
        Some(place) => place.saturating_add(1),
        None => 0,
    }
}

// The offset after the line that an offset is in, with its end.
fn line_end(text: &str, offset: usize) -> usize {
    let after = text.get(offset..).unwrap_or("");
    match after.find('\n') {
        Some(place) => offset.saturating_add(place).saturating_add(1),
        None => text.len(),
    }
}

// How many lines end between two offsets.
fn lines_between(text: &str, start: usize, end: usize) -> usize {
    let mut count: usize = 0;
    for byte in text.get(start..end).unwrap_or("").bytes() {
        if byte == b'\n' {
            count = count.saturating_add(1);
        }
    }
    count
}

// How many lines a text has; the last may lack its end.
fn count_of(text: &str) -> usize {
    let ends = lines_between(text, 0, text.len());
    if text.is_empty() || text.ends_with('\n') {
        ends
    } else {
        ends.saturating_add(1)
    }
}

// Adds blocks with the lines around them, under a line that says where they are.
fn push_hunk(
    out: &mut String,
    text: &str,
    hunk: &[Block],
    (line, added, removed): (usize, usize, usize),
) -> Result<(), AllocError> {
    let (Some(first), Some(last)) = (hunk.first(), hunk.last()) else {
        return Ok(());
    };
    let start = lines_before(text, first.start);
    let end = lines_after(text, last.end);
    let before = count_of(text.get(start..end).unwrap_or(""));
    let mut after = before;
    for block in hunk {
        after = after
            .saturating_sub(block.count)
            .saturating_add(count_of(block.text.as_str()));
    }
    let own = line.saturating_sub(lines_between(text, start, first.start));
    let new = own.saturating_add(added).saturating_sub(removed);
    write!(
        out,
        "@@ -{},{before} +{},{after} @@\n",
        own.saturating_add(1),
        new.saturating_add(1)
    )?;
    let mut at = start;
    for block in hunk {
        push_lines(out, ' ', text.get(at..block.start).unwrap_or(""))?;
        push_lines(out, '-', text.get(block.start..block.end).unwrap_or(""))?;
        push_lines(out, '+', block.text.as_str())?;
        at = block.end;
    }
    push_lines(out, ' ', text.get(at..end).unwrap_or(""))
}

// The offset of the lines that are shown before an offset at which one begins.
fn lines_before(text: &str, offset: usize) -> usize {
    let mut start = offset;
    for _ in 0..CONTEXT {
        start = line_start(text, start.saturating_sub(1));
    }
    start
}

// The offset after the lines that are shown after an offset at which one begins.
fn lines_after(text: &str, offset: usize) -> usize {
    let mut end = offset;
    for _ in 0..CONTEXT {
        if end < text.len() {
            end = line_end(text, end);
        }
    }
    end
}

// Adds lines, each after a character.
fn push_lines(out: &mut String, mark: char, lines: &str) -> Result<(), AllocError> {
    if lines.is_empty() {
        return Ok(());
    }
    for line in lines.strip_suffix('\n').unwrap_or(lines).split('\n') {
        out.push(mark)?;
        out.push_str(line)?;
        out.push('\n')?;
    }
    if lines.ends_with('\n') {
        return Ok(());
    }
    out.push_str("\\ No newline at end of file\n")
}
