//! The tests of `ref_yaml`, and of what `ref_positions` finds at an offset, whose rows are data: reads a row a line from standard input and prints each whose answer is
//! another, and how many hold. A row is a JSON list of a text of YAML and of
//!
//! - its value;
//! - the name of what is wrong in it, and where;
//! - `"offsets"`, and a list of where its events begin;
//! - `"leniencies"`, and how many there are;
//! - `"json"`, and the value that `serde_json` reads in it;
//! - `"part"` or `"json part"`, an offset, and the key or value there of the text as YAML or as JSON: its path, whether it is
//!   a key, where it begins and where it ends;
//! - `"unit"`, a list of a line and a column in units of UTF-16, and the offset, the line, the column and the unit there.
//!
//! Of a row that has nothing after its text the value is printed, and of one that has nothing after what it asks, the answer.
//!
//! Lines that are empty or begin with `//` are skipped.
#![tactic(auto)]

mod positions;

use positions::{part_of as part_there, unit_of};
use ref_positions::Format;
use ref_yaml::{Document, Stop, from_str};
use serde_json::Value;
use std::alloc::{AllocError, Global};
use std::io;

/// What is said of a text that isn't read.
fn text_of_stop(alloc: Global, stop: Stop) -> Result<String, AllocError> {
    match stop {
        Stop::Memory => Err(AllocError),
        Stop::At(fault, offset) => {
            let name = fault.name();
            format!(in alloc; "{name} {offset}")
        }
    }
}

/// What a text is, as JSON.
fn value_of(alloc: Global, text: &str) -> Result<String, AllocError> {
    match from_str(alloc, text) {
        Ok(value) => value.to_string(alloc),
        Err(stop) => text_of_stop(alloc, stop),
    }
}

/// Where the events of a text begin, as JSON.
fn offsets_of(alloc: Global, document: &Document<'_>) -> Result<String, AllocError> {
    let mut out = String::from_str(alloc, "[")?;
    for event in document.events() {
        if out.len() > 1 {
            out.push(',')?;
        }
        let start = event.start;
        let text = format!(in alloc; "{start}")?;
        out.push_str(text.as_str())?;
    }
    out.push(']')?;
    Ok(out)
}

/// What is asked of a text that is read.
fn part_of(alloc: Global, text: &str, asked: &str) -> Result<String, AllocError> {
    match Document::parse(alloc, text) {
        Ok(document) => {
            if asked == "offsets" {
                return offsets_of(alloc, &document);
            }
            let count = document.leniencies().len();
            format!(in alloc; "{count}")
        }
        Err(stop) => text_of_stop(alloc, stop),
    }
}

/// What a text is as JSON, by `serde_json`.
fn json_of(alloc: Global, text: &str) -> Result<String, AllocError> {
    match Value::from_str(alloc, text) {
        Ok(value) => value.to_string(alloc),
        Err(_) => String::from_str(alloc, "no JSON"),
    }
}

/// The answer to a row.
fn answer(alloc: Global, text: &str, row: &Value) -> Result<String, AllocError> {
    match row.get(1).and_then(Value::as_str) {
        Some("offsets") => part_of(alloc, text, "offsets"),
        Some("leniencies") => part_of(alloc, text, "leniencies"),
        Some("json") => json_of(alloc, text),
        Some("part") => part_there(alloc, Format::Yaml, text, row),
        Some("json part") => part_there(alloc, Format::Json, text, row),
        Some("unit") => unit_of(alloc, text, row),
        _ => value_of(alloc, text),
    }
}

/// Where a row has its answer: after its text, after what it asks, or after the place that it asks at.
fn answer_place(row: &Value) -> usize {
    match row.get(1).and_then(Value::as_str) {
        Some("part" | "json part" | "unit") => 3,
        Some("offsets" | "leniencies" | "json") => 2,
        _ => 1,
    }
}

/// The answer that a row expects, where it has one.
fn expected(alloc: Global, row: &Value) -> Result<Option<String>, AllocError> {
    let place = answer_place(row);
    let Some(wanted) = row.get(place) else {
        return Ok(None);
    };
    if let (1, Some(name), Some(offset)) = (place, wanted.as_str(), row.get(2)) {
        let offset = offset.to_string(alloc)?;
        return Ok(Some(format!(in alloc; "{name} {offset}")?));
    }
    Ok(Some(wanted.to_string(alloc)?))
}

/// What is said of a row whose answer is another, or that expects none.
fn difference(alloc: Global, row: &Value) -> Result<Option<String>, AllocError> {
    let text = row.get(0).and_then(Value::as_str).unwrap_or("");
    let found = answer(alloc, text, row)?;
    let Some(wanted) = expected(alloc, row)? else {
        return Ok(Some(found));
    };
    if found.as_str() == wanted.as_str() {
        return Ok(None);
    }
    let message = format!(in alloc; "{text:?}: {found}, and not {wanted}")?;
    Ok(Some(message))
}

/// What is said of a line.
fn difference_of_line(alloc: Global, line: &str) -> Result<Option<String>, AllocError> {
    let Ok(row) = Value::from_str(alloc, line) else {
        return Ok(Some(String::from_str(alloc, "no JSON")?));
    };
    difference(alloc, &row)
}

fn main(rt: HostRuntime) -> io::Result<()> {
    let mut held: u64 = 0;
    for line in rt.lines(rt.alloc()) {
        let line = line?;
        if line.is_empty() || line.as_str().starts_with("//") {
            continue;
        }
        match difference_of_line(rt.alloc(), line.as_str())? {
            Some(text) => println!(rt; "{text}")?,
            None => held = held.saturating_add(1),
        }
    }
    println!(rt; "{held} rows hold")
}
