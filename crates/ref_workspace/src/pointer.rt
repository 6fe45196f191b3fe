//! Paths as JSON pointers, and as steps.
use ref_parts::path::JsonPointerSegment;
use ref_positions::{Format, Places, line_and_column};
use referencing::unescape_segment;
use serde_json::Value;
use std::alloc::{AllocError, Global};

/// The number of the place at the end of a path, which is asked for from here on.
pub fn place_of(places: &mut Places, path: &[JsonPointerSegment<'_>]) -> Result<usize, AllocError> {
    let mut place = 0;
    for segment in path {
        place = match segment {
            JsonPointerSegment::Key(key) => places.member(place, key.as_str())?,
            JsonPointerSegment::Index(index) => places.item(place, *index)?,
        };
    }
    Ok(place)
}

/// The line and the column at the end of a path in a text, or its beginning where it has no such place.
pub fn position(
    alloc: Global,
    (format, text): (Format, &str),
    path: &[JsonPointerSegment<'_>],
) -> Result<(usize, usize), AllocError> {
    let mut places = Places::new(alloc)?;
    let found = position_among(alloc, &mut places, (format, text), path);
    drop(places);
    found
}

// The same, where nothing is asked for before.
fn position_among(
    alloc: Global,
    places: &mut Places,
    (format, text): (Format, &str),
    path: &[JsonPointerSegment<'_>],
) -> Result<(usize, usize), AllocError> {
    let place = place_of(places, path)?;
    let located = places.locate(alloc, format, text)?;
    Ok(line_and_column(located.value(place)))
}

/// The path that a pointer means in a value, where it leads to one (RFC 6901, 4).
pub fn path_to<'p>(
    alloc: Global,
    root: Option<&Value>,
    pointer: &'p str,
) -> Result<Option<Vec<JsonPointerSegment<'p>>>, AllocError> {
    let mut path = Vec::new(alloc);
    let mut value = root;
    for (number, segment) in pointer.split('/').enumerate() {
        if number == 0 {
            if segment.is_empty() {
                continue;
            }
            return Ok(None);
        }
        let Some(here) = value else {
            return Ok(None);
        };
        let part = part_of(alloc, here, segment)?;
        value = child(here, &part);
        push(&mut path, part)?;
    }
    if value.is_none() {
        return Ok(None);
    }
    Ok(Some(path))
}

// The step that a segment means in a value.
fn part_of<'p>(
    alloc: Global,
    value: &Value,
    segment: &'p str,
) -> Result<JsonPointerSegment<'p>, AllocError> {
    if value.is_array() {
        if let Ok(index) = segment.parse::<usize>() {
            return Ok(JsonPointerSegment::Index(index));
        }
    }
    Ok(JsonPointerSegment::Key(unescape_segment(alloc, segment)?))
}

fn child<'v>(value: &'v Value, part: &JsonPointerSegment<'_>) -> Option<&'v Value> {
    match part {
        JsonPointerSegment::Key(key) => value.get(key.as_str()),
        JsonPointerSegment::Index(index) => value.get(*index),
    }
}

fn push<'p>(
    path: &mut Vec<JsonPointerSegment<'p>>,
    part: JsonPointerSegment<'p>,
) -> Result<(), AllocError> {
    path.push(part)?;
    Ok(())
}
