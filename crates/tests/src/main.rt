//! The tests of the libraries from `ref_error` up, whose rows are data: reads a row a line from standard input, a
//! JSON list of the table's name, of what is asked, and of the answer that is expected. Prints each row whose answer is
//! another, and after each table how many of its rows hold.
//!
//! Lines that are empty or begin with `//` are skipped. What a row of the name `given` holds, or the text of a request
//! after `request`, is given for the rows after it; after a request these are of the tables on requests alone, until a
//! `given` row.
#![tactic(auto)]

mod answers;
mod builders;
mod failing;
mod families;
mod fault;
mod faults;
mod inputs;
mod lookups;
mod parts;
mod places;
mod registries;
mod reports;
mod resources;
mod retrieval;
mod retrievers;
mod row;
mod sets;
mod tables;
mod tally;
mod used;
mod vocabularies;
mod ways;

use crate::tally::Tally;
use serde_json::Value;
use std::alloc::{AllocError, Global};
use std::io;

/// What is said of a row that has an answer, which is counted where it is the expected one.
fn text_of_answer(
    alloc: Global,
    tally: &mut Tally,
    table: &str,
    found: &str,
    expected: &str,
) -> Result<String, AllocError> {
    if found == expected {
        tally.count(alloc, table)
    } else {
        tally.note(alloc, table, found, expected)
    }
}

/// What is said of a row, which is counted where its answer, or the text of the fault in its place, is the expected one.
fn text_of_row(
    alloc: Global,
    tally: &mut Tally,
    given: &Value,
    row: &Value,
) -> Result<String, AllocError> {
    let table = row::text(row, 0).unwrap_or("no table");
    let expected = row::last(row).unwrap_or("no answer");
    let found = match tables::found(alloc, given, table, row) {
        Ok(found) => found,
        Err(fault) => format!(in alloc; "{fault}")?,
    };
    text_of_answer(alloc, tally, table, found.as_str(), expected)
}

/// The text of a request, where a line gives one.
fn request_of(line: &str) -> Option<&str> {
    if line == "request" {
        return Some("");
    }
    line.strip_prefix("request ")
}

/// What is said of a line, which may give something for the rows after it.
fn text_of_line(
    alloc: Global,
    tally: &mut Tally,
    given: &mut Value,
    line: &str,
) -> Result<String, AllocError> {
    if let Some(request) = request_of(line) {
        *given = Value::String(String::from_str(alloc, request)?);
        return tally.give(alloc);
    }
    let Ok(row) = Value::from_str(alloc, line) else {
        return tally.unread(alloc);
    };
    if row::text(&row, 0).ok() == Some("given") {
        *given = row;
        return tally.give(alloc);
    }
    text_of_row(alloc, tally, given, &row)
}

fn main(rt: HostRuntime) -> io::Result<()> {
    let mut tally = Tally::new(rt.alloc());
    let mut given = Value::Null;
    for line in rt.lines(rt.alloc()) {
        let line = line?;
        tally.begin_line();
        if line.is_empty() || line.as_str().starts_with("//") {
            continue;
        }
        let text = text_of_line(rt.alloc(), &mut tally, &mut given, line.as_str())?;
        print!(rt; "{text}")?;
    }
    let text = tally.end(rt.alloc())?;
    print!(rt; "{text}")
}
