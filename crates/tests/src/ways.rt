//! Runs on whole requests, from sources that give them at once or in parts.
ghost use Rattle.std.specs.Prelude.{None};
ghost use Rattle.ref_streams.specs.Memory.{is_at_end};

use crate::fault::Fault;
use crate::reports::Ending;
use ref_report::run::{RunError, run};
use ref_report::{Failed, Input, MemorySink, MemorySource, Output, Source, Status};
use std::alloc::Global;
use std::io::{self, ErrorKind, Read};
use std::str;

// A source that gives a byte at a time.
#[derive(Drop)]
struct Slow<'a> {
    inner: MemorySource<'a>,
}

impl Source for Slow<'_> {
    ghost remaining = { λ _. None };

    ghost ended = { λ s. is_at_end s.inner };

    ghost failures = { λ _. 0 };

    fn read(&mut self, buffer: &mut [u8]) -> Result<usize, Failed> {
        let room = buffer.len().min(1);
        self.inner.read(&mut buffer[..room])
    }
}

// A reader that a signal interrupts before each read, the one at its end included.
#[derive(Drop)]
struct Pauses<'a> {
    bytes: &'a [u8],
    is_paused: bool,
}

impl Read for Pauses<'_> {
    ghost remaining = { λ _. None };

    fn read(&mut self, buffer: &mut [u8]) -> io::Result<usize> {
        self.is_paused = !self.is_paused;
        if self.is_paused {
            return Err(io::Error::from(ErrorKind::Interrupted));
        }
        self.bytes.read(buffer)
    }
}

/// How a run ended, and what it wrote.
#[derive(Drop)]
pub struct Found {
    answer: Result<Status, RunError>,
    report: Vec<u8>,
}

fn from_source<R: Source>(alloc: Global, reader: &mut R) -> Found {
    let mut writer = MemorySink::new(alloc);
    let answer = run(alloc, reader, &mut writer);
    Found {
        answer,
        report: writer.bytes,
    }
}

/// A run on bytes that are given at once.
pub fn at_once(alloc: Global, request: &[u8]) -> Found {
    from_source(alloc, &mut MemorySource::new(request))
}

fn a_byte_at_a_time(alloc: Global, request: &str) -> Found {
    let inner = MemorySource::new(request.as_bytes());
    from_source(alloc, &mut Slow { inner })
}

fn with_pauses(alloc: Global, request: &str) -> Found {
    let mut reader = Input::new(Pauses {
        bytes: request.as_bytes(),
        is_paused: false,
    });
    from_source(alloc, &mut reader)
}

fn by_reader_and_writer(alloc: Global, request: &str) -> Found {
    let mut reader = Input::new(request.as_bytes());
    let mut writer = Output::new(Vec::new(alloc));
    let answer = run(alloc, &mut reader, &mut writer);
    Found {
        answer,
        report: writer.writer,
    }
}

impl Found {
    /// Whether a run ended so, with just this report.
    fn is_of(&self, ending: &Ending<'_>) -> bool {
        self.answer == Ok(ending.status) && self.report.as_slice() == ending.report.as_bytes()
    }

    /// What is said of a run that ends otherwise.
    fn shown(&self, alloc: Global, way: &str) -> Result<(), Fault> {
        let report = str::from_utf8(self.report.as_slice()).unwrap_or("no text");
        let text = format!(in alloc; "{:?} {report:?} {way}", self.answer)?;
        Err(Fault::Text(text))
    }
}

/// Compares a run with how it is to end.
pub fn compare(alloc: Global, found: &Found, way: &str, ending: &Ending<'_>) -> Result<(), Fault> {
    if found.is_of(ending) {
        return Ok(());
    }
    found.shown(alloc, way)
}

/// Runs on a request in each way.
pub fn each(alloc: Global, request: &str, ending: &Ending<'_>) -> Result<(), Fault> {
    let found = at_once(alloc, request.as_bytes());
    compare(alloc, &found, "at once", ending)?;
    let found = a_byte_at_a_time(alloc, request);
    compare(alloc, &found, "a byte at a time", ending)?;
    let found = with_pauses(alloc, request);
    compare(alloc, &found, "with pauses", ending)?;
    let found = by_reader_and_writer(alloc, request);
    compare(alloc, &found, "by a reader and a writer", ending)
}
