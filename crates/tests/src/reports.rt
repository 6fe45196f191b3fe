//! Runs on requests: how each ends, and what it reports.
use crate::fault::{Fault, made};
use crate::{failing, parts, row, ways};
use ref_report::Status;
use serde_json::Value;
use std::alloc::Global;

/// How a run on a request is to end, and its report.
#[derive(Drop)]
pub struct Ending<'r> {
    pub status: Status,
    pub report: &'r str,
}

fn status_of(name: &str) -> Result<Status, Fault> {
    match name {
        "done" => Ok(Status::Done),
        "fault" => Ok(Status::Fault),
        "bad" => Ok(Status::BadRequest),
        _ => Err(Fault::Form("no such status")),
    }
}

/// The report that a row expects on a request, where the runs of its table all end so.
pub fn of_request(alloc: Global, request: &str, table: &str, row: &Value) -> Result<String, Fault> {
    let ending = Ending {
        status: status_of(row::text(row, 1)?)?,
        report: row::text(row, 2)?,
    };
    compare(alloc, request, table, &ending)?;
    made(String::from_str(alloc, ending.report))
}

/// Compares the runs of a table.
fn compare(alloc: Global, request: &str, table: &str, ending: &Ending<'_>) -> Result<(), Fault> {
    match table {
        "requests" => ways::each(alloc, request, ending),
        "parts of requests" => parts::each(alloc, request, ending),
        "failing reads and writes" => failing::each(alloc, request, ending),
        _ => Err(Fault::Form("no such table on requests")),
    }
}
