//! Paths as lists of segments: the value at one, and the pointer that one is written as.
ghost use Rattle.std.specs.Prelude.{◌≡◌, [], ◌∷◌, ◌++◌, map, option_map, string_bytes, IfOk, OnOk};
ghost use Rattle.serde_json.specs.View.{view};
ghost use Rattle.ref_paths.specs.Path.{HasFittingIndexes, child_at, value_at};
ghost use Rattle.ref_parts.specs.Pointer.{slash, part_text, pointer_text};
ghost use Rattle.ref_paths.specs.Segment.{part_of};

use crate::escape::{write_escaped_str, write_index};
use crate::path::JsonPointerSegment;
use serde_json::Value;
use std::alloc::{AllocError, Global};

// The value that a segment leads to.
fn child_at<'v>(value: &'v Value, segment: &JsonPointerSegment<'_>) -> Option<&'v Value>
    ensures { option_map (λ v. view v.now) result
        ≡ child_at (view value.now) (part_of segment.now) }
{
    match segment {
        JsonPointerSegment::Key(key) => value.get(key.as_str()),
        JsonPointerSegment::Index(index) => value.get(*index),
    }
}

/// The value at a path. `None` where a segment finds no value: a key steps into an object alone, an index into an array
/// alone (RFC 6901, section 4). A look-up for each segment; takes no memory.
pub fn value_at<'v>(value: &'v Value, path: &[JsonPointerSegment<'_>]) -> Option<&'v Value>
    ensures value { option_map (λ v. view v.now) result
        ≡ value_at (view value.now) (map part_of path.now) }
{
    let mut here = value;
    for part in path {
        here = child_at(here, part)?;
    }
    Some(here)
}

// Appends a `/` and a segment: a key escaped, an index in decimal digits.
fn push_segment(pointer: &mut String, segment: &JsonPointerSegment<'_>) -> Result<(), AllocError>
    ensures text { OnOk result
        (string_bytes pointer.new
        ≡ string_bytes pointer.old ++ slash ∷ part_text (part_of segment.now)) }
    ensures fits { OnOk result (HasFittingIndexes (part_of segment.now ∷ [])) }
{
    pointer.push('/')?;
    match segment {
        JsonPointerSegment::Key(key) => write_escaped_str(pointer, key.as_str()),
        JsonPointerSegment::Index(index) => write_index(pointer, *index),
    }
}

/// The pointer text of a path (RFC 6901, section 3). Linear in its keys; takes memory for the text.
pub fn pointer_of(alloc: Global, path: &[JsonPointerSegment<'_>]) -> Result<String, AllocError>
    ensures text { IfOk result (λ text. string_bytes text ≡ pointer_text (map part_of path.now)) }
    ensures fits { OnOk result (HasFittingIndexes (map part_of path.now)) }
{
    let mut pointer = String::new(alloc);
    for segment in path {
        push_segment(&mut pointer, segment)?;
    }
    Ok(pointer)
}
