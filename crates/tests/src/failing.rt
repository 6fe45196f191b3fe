//! Reads and writes that fail, at each place, and sinks whose room was reserved before.
ghost use Rattle.std.specs.Prelude.{None};
ghost use Rattle.ref_streams.specs.Memory.{is_at_end};

use crate::answers::expect;
use crate::fault::Fault;
use crate::reports::Ending;
use ref_report::run::{RunError, run};
use ref_report::{Failed, Input, MemorySink, MemorySource, Output, Sink, Source, Status};
use std::alloc::{AllocError, Global};
use std::io::{self, ErrorKind, Read, Write};

// A reader of the library's that gives a byte at a time, and fails once it gave so many: for ever, as timed out, or once.
#[derive(Drop)]
struct FailsAfter<'a> {
    bytes: &'a [u8],
    left: usize,
    is_for_ever: bool,
}

impl Read for FailsAfter<'_> {
    ghost remaining = { λ _. None };

    fn read(&mut self, buffer: &mut [u8]) -> io::Result<usize> {
        if self.left == 0 {
            if self.is_for_ever {
                return Err(io::Error::from(ErrorKind::TimedOut));
            }
            self.left = usize::MAX;
            return Err(io::Error::from(ErrorKind::Other));
        }
        self.left -= 1;
        let room = buffer.len().min(1);
        self.bytes.read(&mut buffer[..room])
    }
}

// A source of the tests' own that gives a byte at a time, and fails once it gave so many.
#[derive(Drop)]
struct Faulty<'a> {
    inner: MemorySource<'a>,
    left: usize,
    failures: u64,
}

impl Source for Faulty<'_> {
    ghost remaining = { λ _. None };

    ghost ended = { λ s. is_at_end s.inner };

    ghost failures = { λ s. s.failures };

    fn read(&mut self, buffer: &mut [u8]) -> Result<usize, Failed> {
        if self.left == 0 {
            self.failures = self.failures.saturating_add(1);
            return Err(Failed);
        }
        self.left -= 1;
        let room = buffer.len().min(1);
        self.inner.read(&mut buffer[..room])
    }
}

// A sink that has room for so many bytes, of which a write fails that has more.
#[derive(Drop)]
struct Small {
    room: usize,
    failures: u64,
}

impl Sink for Small {
    ghost taken = { λ _. None };

    ghost failures = { λ s. s.failures };

    fn write_all(&mut self, bytes: &[u8]) -> Result<(), Failed> {
        if bytes.len() > self.room {
            self.failures = self.failures.saturating_add(1);
            return Err(Failed);
        }
        self.room -= bytes.len();
        Ok(())
    }
}

// A sink of which each write fails.
#[derive(Drop)]
struct Broken {
    failures: u64,
}

impl Sink for Broken {
    ghost taken = { λ _. None };

    ghost failures = { λ s. s.failures };

    fn write_all(&mut self, _bytes: &[u8]) -> Result<(), Failed> {
        self.failures = self.failures.saturating_add(1);
        Err(Failed)
    }
}

// What becomes of a writer that has no room left.
#[derive(Clone, Copy, Drop)]
enum End {
    // Each further write fails.
    Fails,
    // A further write takes nothing.
    TakesNothing,
    // A flush fails.
    FailsToFlush,
}

// A writer that takes a byte at a write, and has room for so many.
#[derive(Drop)]
struct Narrow {
    taken: usize,
    room: usize,
    end: End,
}

impl Write for Narrow {
    ghost contents = { λ _. None };

    fn write(&mut self, bytes: &[u8]) -> io::Result<usize> {
        if self.taken >= self.room {
            return match self.end {
                End::TakesNothing => Ok(0),
                _ => Err(io::Error::from(ErrorKind::BrokenPipe)),
            };
        }
        let count = bytes.len().min(1);
        self.taken = self.taken.saturating_add(count);
        Ok(count)
    }

    fn flush(&mut self) -> io::Result<()> {
        match self.end {
            End::FailsToFlush => Err(io::Error::from(ErrorKind::Other)),
            _ => Ok(()),
        }
    }
}

// Whether a request, of which a read fails after so many bytes, ends as one that failed, with nothing written and no
// other failure. A reader whose read failed isn't at its end.
fn is_refused(alloc: Global, request: &str, left: usize, is_for_ever: bool) -> bool {
    let mut reader = Input::new(FailsAfter {
        bytes: request.as_bytes(),
        left,
        is_for_ever,
    });
    let mut writer = MemorySink::new(alloc);
    let answer = run(alloc, &mut reader, &mut writer);
    answer == Err(RunError::Read)
        && reader.failures == 1
        && !reader.ended
        && writer.bytes.is_empty()
}

// Whether a request is refused so whichever read fails, the one at its end included, once and for ever.
fn is_refused_at_each_read(alloc: Global, request: &str) -> bool {
    for left in 0..request.len() + 1 {
        if !is_refused(alloc, request, left, true) || !is_refused(alloc, request, left, false) {
            return false;
        }
    }
    true
}

// The same of a source of the tests' own.
fn is_refused_by_a_source(alloc: Global, request: &str, left: usize) -> bool {
    let mut reader = Faulty {
        inner: MemorySource::new(request.as_bytes()),
        left,
        failures: 0,
    };
    let mut writer = MemorySink::new(alloc);
    let answer = run(alloc, &mut reader, &mut writer);
    answer == Err(RunError::Read) && reader.failures == 1 && writer.bytes.is_empty()
}

// Whether that is so whichever read fails.
fn is_refused_by_each_source(alloc: Global, request: &str) -> bool {
    for left in 0..request.len() + 1 {
        if !is_refused_by_a_source(alloc, request, left) {
            return false;
        }
    }
    true
}

// Whether a run on a request, whose sink has so much room, ends so, with so many writes that failed.
fn is_ended_by_a_sink(
    alloc: Global,
    request: &str,
    room: usize,
    ended: (Result<Status, RunError>, u64),
) -> bool {
    let mut reader = MemorySource::new(request.as_bytes());
    let mut writer = Small { room, failures: 0 };
    let answer = run(alloc, &mut reader, &mut writer);
    (answer, writer.failures) == ended
}

// Whether a failure is given by a sink that has less room than a report has bytes, and none by one that has as much.
fn is_reported_by_each_sink(alloc: Global, request: &str, ending: &Ending<'_>) -> bool {
    for room in 0..ending.report.len() {
        if !is_ended_by_a_sink(alloc, request, room, (Err(RunError::Write), 1)) {
            return false;
        }
    }
    is_ended_by_a_sink(alloc, request, ending.report.len(), (Ok(ending.status), 0))
}

// Whether a failed write is reported, of a sink of which each fails.
fn is_reported(alloc: Global, request: &str) -> bool {
    let mut reader = MemorySource::new(request.as_bytes());
    let mut writer = Broken { failures: 0 };
    let answer = run(alloc, &mut reader, &mut writer);
    answer == Err(RunError::Write) && writer.failures == 1
}

// Whether a run on a request, whose writer has so much room and such an end, ends so, with so many writes that failed, and the
// room filled.
fn is_ended(
    alloc: Global,
    request: &str,
    room: usize,
    end: End,
    ended: (Result<Status, RunError>, u64),
) -> bool {
    let mut reader = MemorySource::new(request.as_bytes());
    let mut writer = Output::new(Narrow {
        taken: 0,
        room,
        end,
    });
    let answer = run(alloc, &mut reader, &mut writer);
    (answer, writer.failures) == ended && writer.writer.taken == room
}

// Whether a failure is reported of a writer that has so much room, and of one that takes nothing more then.
fn is_cut_off(alloc: Global, request: &str, room: usize) -> bool {
    let ended = (Err(RunError::Write), 1);
    is_ended(alloc, request, room, End::Fails, ended)
        && is_ended(alloc, request, room, End::TakesNothing, ended)
}

// Whether a failure is reported at whichever byte of a report a write fails, and none where none does.
fn is_reported_at_each_byte(alloc: Global, request: &str, ending: &Ending<'_>) -> bool {
    let bytes = ending.report.len();
    for room in 0..bytes {
        if !is_cut_off(alloc, request, room) {
            return false;
        }
    }
    let ended = (Ok(ending.status), 0);
    is_ended(alloc, request, bytes, End::Fails, ended)
}

// Whether a failed flush is reported, once the whole report is written.
fn is_reported_at_the_flush(alloc: Global, request: &str, ending: &Ending<'_>) -> bool {
    let ended = (Err(RunError::Write), 1);
    let room = ending.report.len();
    is_ended(alloc, request, room, End::FailsToFlush, ended)
}

// Whether a report is written into a sink with just its room, without a growth. Where `run` wants memory, nothing is written.
fn is_written_into_its_room(
    alloc: Global,
    request: &str,
    ending: &Ending<'_>,
) -> Result<bool, AllocError> {
    let mut reader = MemorySource::new(request.as_bytes());
    let mut writer = MemorySink {
        bytes: Vec::with_capacity(alloc, ending.report.len())?,
        failures: 0,
    };
    let room = writer.bytes.capacity();
    let answer = run(alloc, &mut reader, &mut writer);
    let keeps_room = writer.bytes.capacity() == room;
    if answer == Err(RunError::Memory) && keeps_room && writer.bytes.is_empty() {
        return Err(AllocError);
    }
    Ok(
        answer == Ok(ending.status)
            && keeps_room
            && writer.bytes.as_slice() == ending.report.as_bytes(),
    )
}

/// Runs on a request of which each read, each write and a flush fails in turn, and one into a sink that has just the
/// report's room.
pub fn each(alloc: Global, request: &str, ending: &Ending<'_>) -> Result<(), Fault> {
    let reads = is_refused_at_each_read(alloc, request);
    expect(reads, "a failed read isn't reported")?;
    let sources = is_refused_by_each_source(alloc, request);
    expect(sources, "a source that failed isn't reported")?;
    let sinks = is_reported_by_each_sink(alloc, request, ending);
    expect(sinks, "a sink that failed isn't reported")?;
    let write = is_reported(alloc, request);
    expect(write, "a failed write isn't reported")?;
    let bytes = is_reported_at_each_byte(alloc, request, ending);
    expect(
        bytes,
        "a failure at a byte isn't reported, or the report is another",
    )?;
    let flush = is_reported_at_the_flush(alloc, request, ending);
    expect(flush, "a failed flush isn't reported")?;
    let room = is_written_into_its_room(alloc, request, ending)?;
    expect(room, "the report isn't written into its room")
}
