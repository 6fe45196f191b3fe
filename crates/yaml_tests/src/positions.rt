//! What is at an offset of a text, and at a line and a column.
use ref_positions::{Format, Part, Position, Step, part_at};
use serde_json::Value;
use std::alloc::{AllocError, Global};

// The number at a place of a row.
fn number(row: &Value, place: usize) -> usize {
    let number = row.get(place).and_then(Value::as_u64).unwrap_or(0);
    usize::try_from(number).unwrap_or(0)
}

fn push_step(out: &mut String, alloc: Global, step: &Step) -> Result<(), AllocError> {
    match step {
        Step::Member(key) => {
            let key = Value::String(key.clone()?).to_string(alloc)?;
            out.push_str(key.as_str())
        }
        Step::Item(index) => write!(out, "{index}"),
    }
}

// A part as JSON: its path, whether it is a key, where it begins and where it ends.
fn shown(alloc: Global, part: &Part) -> Result<String, AllocError> {
    let mut out = String::from_str(alloc, "[[")?;
    for (number, step) in part.path.iter().enumerate() {
        if number > 0 {
            out.push(',')?;
        }
        push_step(&mut out, alloc, step)?;
    }
    let (is_key, start, end) = (part.is_key, part.start, part.end);
    write!(out, "],{is_key},{start},{end}]")?;
    Ok(out)
}

/// The key or the value at the offset that a row gives after its name.
pub fn part_of(
    alloc: Global,
    format: Format,
    text: &str,
    row: &Value,
) -> Result<String, AllocError> {
    match part_at(alloc, format, text, number(row, 2))? {
        Some(part) => shown(alloc, &part),
        None => String::from_str(alloc, "null"),
    }
}

/// The offset, the line, the column and the unit at the line and the unit that a row gives after its name.
pub fn unit_of(alloc: Global, text: &str, row: &Value) -> Result<String, AllocError> {
    let (line, unit) = match row.get(2) {
        Some(asked) => (number(asked, 0), number(asked, 1)),
        None => (0, 0),
    };
    let found = Position::at_unit(text, line, unit);
    let (offset, line, column, unit) = (found.offset(), found.line(), found.column(), found.unit());
    format!(in alloc; "[{offset},{line},{column},{unit}]")
}
