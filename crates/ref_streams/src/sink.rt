//! Where a report's bytes go.
ghost use Rattle.std.specs.Prelude.{◌≡◌, ◌+◌, ◌<◌, ℕ, List, Option, Some, OnOk, OnErr, length, vec_len, vec_capacity, ◌++◌};
ghost use Rattle.std.specs.Io.KnownBytes.{Appends};
ghost use Rattle.ref_streams.specs.Bytes.{count_after, AppendsFront};

use crate::source::Failed;
use std::alloc::Global;
use std::io::{ErrorKind, Write};

/// What bytes are written to.
pub trait Sink {
    // The bytes taken so far, where they are known.
    ghost taken: { Self → Option (List ℕ) };

    // How many writes failed. It stays at the greatest `u64`.
    ghost failures: { Self → ℕ };

    /// Writes all of the bytes. One that fails wrote a beginning of them.
    fn write_all(&mut self, bytes: &[u8]) -> Result<(), Failed>
        ensures bytes { OnOk result (Appends (taken self.old) (taken self.new) bytes.now) }
        ensures front { OnErr result (AppendsFront (taken self.old) (taken self.new) bytes.now) }
        ensures count { failures self.new ≡ count_after result (failures self.old) };
}

/// Bytes kept in memory. A write fails only where its growth is refused, and leaves the bytes as they were.
#[derive(Drop)]
pub struct MemorySink {
    /// The bytes that were written.
    pub bytes: Vec<u8>,
    /// How many writes failed.
    pub failures: u64,
}

impl MemorySink {
    /// No bytes, and no write has failed.
    pub fn new(alloc: Global) -> MemorySink
        ensures bytes { vec_len result.bytes ≡ 0 }
        ensures count { result.failures ≡ 0 }
    {
        MemorySink {
            bytes: Vec::new(alloc),
            failures: 0,
        }
    }
}

impl Sink for MemorySink {
    ghost taken = { λ s. Some s.bytes.items };

    ghost failures = { λ s. s.failures };

    fn write_all(&mut self, bytes: &[u8]) -> Result<(), Failed>
        ensures bytes { OnOk result (self.new.bytes.items ≡ self.old.bytes.items ++ bytes.now) }
        ensures front { OnErr result
            (AppendsFront (Some self.old.bytes.items) (Some self.new.bytes.items) bytes.now) }
        ensures count { self.new.failures ≡ count_after result self.old.failures }
        ensures refused { OnErr result (vec_capacity self.old.bytes
            < vec_len self.old.bytes + length bytes.now) }
        ensures unchanged { OnErr result (self.new.bytes.items ≡ self.old.bytes.items) }
    {
        match self.bytes.extend_from_slice(bytes) {
            Ok(()) => Ok(()),
            Err(_) => {
                self.failures = self.failures.saturating_add(1);
                Err(Failed)
            }
        }
    }
}

/// A writer of the library's: which bytes it took is known where the writer says it, as one over memory does and standard
/// output doesn't.
#[derive(Drop)]
pub struct Output<W: Drop> {
    /// The writer.
    pub writer: W,
    /// How many writes failed.
    pub failures: u64,
}

impl<W: Drop> Output<W> {
    /// The writer, of which no write has failed.
    pub fn new(writer: W) -> Output<W>
        ensures writer { result.writer ≡ writer }
        ensures count { result.failures ≡ 0 }
    {
        Output {
            writer,
            failures: 0,
        }
    }
}

impl<W: Write + Drop> Sink for Output<W> {
    ghost taken = { λ s. W.contents s.writer };

    ghost failures = { λ s. s.failures };

    fn write_all(&mut self, bytes: &[u8]) -> Result<(), Failed> {
        match write_flushed(&mut self.writer, bytes) {
            Ok(()) => Ok(()),
            Err(failed) => {
                self.failures = self.failures.saturating_add(1);
                Err(failed)
            }
        }
    }
}

// Writes all of the bytes, and flushes them.
fn write_flushed<W: Write>(writer: &mut W, bytes: &[u8]) -> Result<(), Failed>
    ensures bytes { OnOk result
        (Appends (W.contents writer.old) (W.contents writer.new) bytes.now) }
    ensures front { OnErr result
        (AppendsFront (W.contents writer.old) (W.contents writer.new) bytes.now) }
{
    write_whole(writer, bytes)?;
    match writer.flush() {
        Ok(()) => Ok(()),
        Err(_) => Err(Failed),
    }
}

// Writes all of the bytes, in as many writes as that takes. A write that a signal interrupted is made again.
fn write_whole<W: Write>(writer: &mut W, bytes: &[u8]) -> Result<(), Failed>
    ensures bytes { OnOk result
        (Appends (W.contents writer.old) (W.contents writer.new) bytes.now) }
    ensures front { OnErr result
        (AppendsFront (W.contents writer.old) (W.contents writer.new) bytes.now) }
{
    let mut rest = bytes;
    for _ in 0..u64::MAX {
        if rest.is_empty() {
            return Ok(());
        }
        match writer.write(rest) {
            Ok(0) => return Err(Failed),
            Ok(n) => rest = &rest[n..],
            Err(e) if e.kind() == ErrorKind::Interrupted => {}
            Err(_) => return Err(Failed),
        }
    }
    Err(Failed)
}
