//! Runs of requests into a sink whose room was reserved before.
use crate::refused::stop::{Stop, after, refused};
use crate::refused::trial::{Calls, Trial, tried};
use ref_report::run::{RunError, run};
use ref_report::{MemorySink, MemorySource, Status};
use std::alloc::{AllocError, Global};
use std::str;

const VALUE: &str =
    r##"{"documents":[["http://a/r",{"properties":{"n":{"type":"string"}}}]],"base":"http://a/r","steps":["#/properties/n"]}"##;

const RETRIEVED: &str =
    r##"{"documents":[["http://a/r",{"$ref":"y"}]],"remote":[["http://a/y",true]],"base":"http://a/r","steps":["y"],"lint":true}"##;

const FAULT: &str =
    r##"{"documents":[["http://a/r",{"$ref":"#none"}]],"base":"http://a/r","steps":["#none"],"lint":true}"##;

const BAD: &str = r#"{"documents":[]}"#;

/// A sink with more room than any of the reports takes.
#[derive(Drop)]
struct Reports {
    sink: MemorySink,
}

/// The row of a call.
pub fn row(alloc: Global, call: &str) -> Result<Trial, Stop> {
    let bytes = Vec::with_capacity(alloc, 400)?;
    let mut reports = Reports {
        sink: MemorySink { bytes, failures: 0 },
    };
    tried(
        alloc,
        &mut reports,
        "reports",
        call,
        &["value", "retrieved", "fault", "bad"],
    )
}

impl Calls for Reports {
    fn answer(&mut self, alloc: Global, call: &str) -> Result<String, Stop> {
        match call {
            "value" => reported(alloc, &mut self.sink, VALUE),
            "retrieved" => reported(alloc, &mut self.sink, RETRIEVED),
            "fault" => reported(alloc, &mut self.sink, FAULT),
            "bad" => reported(alloc, &mut self.sink, BAD),
            _ => Err(Stop::Wrong),
        }
    }
}

/// How a run ends, and the lines of its report. Where it wants memory, nothing is written, and the room stays as it was.
fn reported(alloc: Global, sink: &mut MemorySink, request: &str) -> Result<String, Stop> {
    sink.bytes.clear();
    let room = sink.bytes.capacity();
    let answer = run(alloc, &mut MemorySource::new(request.as_bytes()), sink);
    if sink.bytes.capacity() != room || sink.failures != 0 {
        return Err(Stop::Wrong);
    }
    match answer {
        Ok(status) => after(shown(alloc, status, sink.bytes.as_slice())),
        Err(RunError::Memory) => Err(refused(&AllocError, sink.bytes.is_empty())),
        Err(_) => Err(Stop::Wrong),
    }
}

/// A status, and the lines of a report, each with a bar before it.
fn shown(alloc: Global, status: Status, report: &[u8]) -> Result<String, AllocError> {
    let mut text = format!(in alloc; "{status:?}")?;
    for line in str::from_utf8(report).unwrap_or("no text").lines() {
        text.push('|')?;
        text.push_str(line)?;
    }
    Ok(text)
}
