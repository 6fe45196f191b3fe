//! Where a request's bytes come from.
ghost use Rattle.std.specs.Prelude.{◌≡◌, false, ◌<◌, ◌≤◌, ℕ, List, Option, Bool, IfOk, IsOk, IsTrue, length};
ghost use Rattle.std.specs.Io.KnownBytes.{ReadConsumes};
ghost use Rattle.ref_streams.specs.Bytes.{count_after};

use std::io;
use std::io::{ErrorKind, Read};

/// A read or a write that failed.
#[derive(Clone, Copy, Debug, Drop, PartialEq, Eq)]
pub struct Failed;

/// What bytes are read from.
pub trait Source {
    // The bytes that reads will give from here on, where they are known.
    ghost remaining: { Self → Option (List ℕ) };

    // Whether the end was reached.
    ghost ended: { Self → Bool };

    // How many reads failed. It stays at the greatest `u64`.
    ghost failures: { Self → ℕ };

    /// Puts the next bytes at the front of the buffer, and returns how many. Into a buffer with room it returns 0 at
    /// the end alone. A read that fails gives no bytes.
    fn read(&mut self, buffer: &mut [u8]) -> Result<usize, Failed>
        ensures within { IfOk result (λ n. n ≤ length buffer.new) }
        ensures bytes { ReadConsumes (remaining self.old) (remaining self.new) result buffer.new }
        ensures end { result ≡ Ok 0 → 0 < length buffer.new → IsTrue (ended self.new) }
        ensures count { failures self.new ≡ count_after result (failures self.old) };
}

/// Bytes in memory, of which no read fails.
#[derive(Drop)]
pub struct MemorySource<'a> {
    /// The bytes, those that were read too.
    pub bytes: &'a [u8],
    /// How many of them were read.
    pub position: usize,
    pub ghost within: { position ≤ length bytes.now },
}

impl<'a> MemorySource<'a> {
    /// The bytes from their beginning.
    pub fn new(bytes: &'a [u8]) -> MemorySource<'a>
        ensures start { result.position ≡ 0 }
        ensures all { result.bytes.now ≡ bytes.now }
    {
        MemorySource { bytes, position: 0 }
    }
}

impl Source for MemorySource<'_> {
    ghost use Rattle.std.specs.Prelude.{◌≡◌, ◌<◌, ◌≤◌, IfOk, IsOk, IsTrue, length};
    ghost use Rattle.std.specs.Io.KnownBytes.{ReadConsumes};
    ghost use Rattle.ref_streams.specs.Bytes.{count_after};
    ghost use Rattle.ref_streams.specs.Memory.{bytes_left, is_at_end};

    ghost remaining = { bytes_left };

    ghost ended = { is_at_end };

    ghost failures = { λ _. 0 };

    fn read(&mut self, buffer: &mut [u8]) -> Result<usize, Failed>
        ensures succeeds { IsOk result }
        ensures within { IfOk result (λ n. n ≤ length buffer.new) }
        ensures bytes { ReadConsumes (bytes_left self.old) (bytes_left self.new) result buffer.new }
        ensures end { result ≡ Ok 0 → 0 < length buffer.new → IsTrue (is_at_end self.new) }
        ensures count { 0 ≡ count_after result 0 }
    {
        let left = &self.bytes[self.position..];
        let n = left.len().min(buffer.len());
        buffer[..n].copy_from_slice(&left[..n]);
        self.position += n;
        Ok(n)
    }
}

/// A reader of the library's: which bytes are left is known where the reader says it, as one over memory does and standard
/// input doesn't.
#[derive(Drop)]
pub struct Input<R: Drop> {
    /// The reader.
    pub reader: R,
    /// Whether the last read that didn't fail gave no byte.
    pub ended: bool,
    /// How many reads failed.
    pub failures: u64,
}

impl<R: Drop> Input<R> {
    /// The reader, of which no read has failed.
    pub fn new(reader: R) -> Input<R>
        ensures reader { result.reader ≡ reader }
        ensures ended { result.ended ≡ false }
        ensures count { result.failures ≡ 0 }
    {
        Input {
            reader,
            ended: false,
            failures: 0,
        }
    }
}

impl<R: Read + Drop> Source for Input<R> {
    ghost use Rattle.std.specs.Prelude.{◌≡◌, ◌<◌, ◌≤◌, ◌==◌, IfOk, OnErr, IsTrue, length};
    ghost use Rattle.std.specs.Io.KnownBytes.{ReadConsumes};
    ghost use Rattle.ref_streams.specs.Bytes.{count_after};

    ghost remaining = { λ s. R.remaining s.reader };

    ghost ended = { λ s. s.ended };

    ghost failures = { λ s. s.failures };

    // The end is reached where the last read gave no byte; a read that fails leaves that as it was.
    fn read(&mut self, buffer: &mut [u8]) -> Result<usize, Failed>
        ensures within { IfOk result (λ n. n ≤ length buffer.new) }
        ensures bytes { ReadConsumes (R.remaining self.old.reader)
            (R.remaining self.new.reader) result buffer.new }
        ensures end { result ≡ Ok 0 → 0 < length buffer.new → IsTrue self.new.ended }
        ensures count { self.new.failures ≡ count_after result self.old.failures }
        ensures ended { IfOk result (λ n. self.new.ended ≡ (n == 0)) }
        ensures failed { OnErr result (self.new.ended ≡ self.old.ended) }
    {
        match read_uninterrupted(&mut self.reader, buffer) {
            Ok(n) => {
                self.ended = n == 0;
                Ok(n)
            }
            Err(_) => {
                self.failures = self.failures.saturating_add(1);
                Err(Failed)
            }
        }
    }
}

// A read that a signal interrupted is made again.
fn read_uninterrupted<R: Read>(reader: &mut R, buffer: &mut [u8]) -> io::Result<usize>
    ensures within { IfOk result (λ n. n ≤ length buffer.new) }
    ensures bytes { ReadConsumes (R.remaining reader.old)
        (R.remaining reader.new) result buffer.new }
{
    for _ in 0..u64::MAX {
        match reader.read(buffer) {
            Err(e) if e.kind() == ErrorKind::Interrupted => {}
            answer => return answer,
        }
    }
    Err(io::Error::from(ErrorKind::Interrupted))
}
