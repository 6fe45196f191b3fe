//! Rows, each a line of text, and the one walk over them.

use crate::asserts::same_at;
use crate::tables;
use ref_draft::Draft;
use serde_json::Value;
use std::alloc::Global;
use std::fmt;
use std::process::Abort;
use std::test::Fail;

/// The drafts, in their order.
pub const DRAFTS: [Draft; 6] = [
    Draft::Draft4,
    Draft::Draft6,
    Draft::Draft7,
    Draft::Draft201909,
    Draft::Draft202012,
    Draft::Unknown,
];

/// A row: a JSON list of what is asked and of what is expected. The columns are its items. What is asked may also are in the
/// last line of the table before the row that is an object, under `given`.
#[derive(Clone, Copy)]
pub struct Row<'a> {
    table: &'a str,
    line: &'a str,
    given: &'a Value,
    columns: &'a Value,
}

impl<'a> Row<'a> {
    /// The name of its table.
    pub fn table(&self) -> &'a str {
        self.table
    }

    /// What is given for this row.
    pub fn given(&self) -> &'a Value {
        self.given.get("given").unwrap_or(self.given)
    }

    /// What is in a column, where it is there.
    pub fn value(&self, column: usize) -> Option<&'a Value> {
        self.columns.get(column)
    }

    /// What is in a column that is there.
    pub fn document(&self, column: usize) -> &'a Value {
        self.value(column).unwrap_or(self.given)
    }

    /// The text in a column. `null` stands for none.
    pub fn optional(&self, column: usize) -> Option<&'a str> {
        self.value(column)?.as_str()
    }

    /// The text under a key of the first column.
    pub fn under(&self, key: &str) -> Option<&'a str> {
        self.document(0).get(key).and_then(Value::as_str)
    }

    /// The text in a column that has one.
    pub fn text(&self, column: usize) -> &'a str {
        self.optional(column).unwrap_or("no text")
    }

    /// The number in a column. `null` stands for none.
    pub fn number(&self, column: usize) -> Option<usize> {
        let number = self.value(column)?.as_u64()?;
        Some(number as usize)
    }

    /// The number in a column that has one.
    pub fn count(&self, column: usize) -> usize {
        self.number(column).unwrap_or(0)
    }

    /// Whether a column has `true`.
    pub fn is_true(&self, column: usize) -> bool {
        match self.value(column) {
            Some(value) => value.as_bool() == Some(true),
            None => false,
        }
    }

    /// The draft that a column names.
    pub fn draft(&self, column: usize) -> Draft {
        match self.text(column) {
            "4" => Draft::Draft4,
            "6" => Draft::Draft6,
            "7" => Draft::Draft7,
            "2019-09" => Draft::Draft201909,
            "2020-12" => Draft::Draft202012,
            _ => Draft::Unknown,
        }
    }

    /// How many columns there are.
    pub fn len(&self) -> usize {
        match self.columns.as_array() {
            Some(columns) => columns.len(),
            None => 0,
        }
    }

    /// The list in a column, as a row.
    pub fn row(&self, column: usize) -> Row<'a> {
        Row {
            table: self.table,
            line: self.line,
            given: self.given,
            columns: self.document(column),
        }
    }

    /// Ends the test where two values differ, and says in which row.
    pub fn same<T: PartialEq + fmt::Debug + Copy>(&self, rt: &impl Abort, found: T, wanted: T) {
        same_at(rt, found, wanted, self.line);
    }
}

/// Asks the row of a line, or keeps what the line gives for the rows after it.
fn ask_line<R: Abort>(
    rt: &R,
    alloc: Global,
    table: &str,
    line: &str,
    given: &mut Value,
) -> Result<(), Fail> {
    let columns = Value::from_str(alloc, line)?;
    if columns.is_object() {
        *given = columns;
        return Ok(());
    }
    let row = Row {
        table,
        line,
        given,
        columns: &columns,
    };
    tables::ask(rt, alloc, &row)
}

/// Asks each row of a table, and counts them.
fn ask_table<R: Abort>(rt: &R, alloc: Global, table: &str, lines: &str) -> Result<usize, Fail> {
    let mut given = Value::Null;
    let mut count = 0usize;
    for line in lines.lines() {
        if line.starts_with('[') {
            count = count.saturating_add(1);
        }
        if !line.is_empty() && !line.starts_with("//") {
            ask_line(rt, alloc, table, line, &mut given)?;
        }
    }
    Ok(count)
}

/// Asks each row of a text, and counts them. A line that begins with `# ` names the table of the rows after it, with
/// their number after a colon; one that begins with `//` is skipped. Ends the test where the heading has another number.
pub fn for_each_row<R: Abort>(rt: &R, alloc: Global, rows: &str) -> Result<usize, Fail> {
    let mut count = 0usize;
    for section in rows.split("\n# ") {
        let (heading, lines) = section.split_once('\n').unwrap_or((section, ""));
        let (table, number) = heading.split_once(": ").unwrap_or((heading, "0"));
        let rows = ask_table(rt, alloc, table, lines)?;
        same_at(rt, Some(rows), number.parse().ok(), heading);
        count = count.saturating_add(rows);
    }
    Ok(count)
}
