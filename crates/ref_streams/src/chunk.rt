//! Bytes that were read and not passed yet.
ghost use Rattle.std.specs.Prelude.{◌≡◌, ◌≤◌, length, true, false, [], IfOk, OnErr, IsTrue};
ghost use Rattle.std.specs.Io.KnownBytes.{Consumes, Keeps, IsAtEnd};
ghost use Rattle.ref_streams.specs.Bytes.{count_after};

use crate::source::{Failed, Source};

// How many bytes are read at once.
const CHUNK: usize = 4096;

/// Bytes that were read and not passed yet, and whether the source's end was reached.
#[derive(Drop)]
pub struct Chunk {
    pub bytes: [u8; CHUNK],
    pub start: usize,
    pub end: usize,
    pub has_ended: bool,
    pub ghost within: { (start ≤ end) × (end ≤ 4096) },
}

impl Chunk {
    ghost use Rattle.ref_streams.specs.inner.Held.{bytes_held};

    /// None, and no end.
    pub fn new() -> Chunk
        ensures held { bytes_held result ≡ [] }
        ensures ended { result.has_ended ≡ false }
    {
        Chunk {
            bytes: [0; CHUNK],
            start: 0,
            end: 0,
            has_ended: false,
        }
    }

    /// The bytes that are left.
    pub fn rest(&self) -> &[u8]
        ensures value { result.now ≡ bytes_held self.now }
    {
        &self.bytes[self.start..self.end]
    }

    /// Reads the next bytes in place of those there.
    pub fn fill<R: Source>(&mut self, source: &mut R) -> Result<(), Failed>
        ensures bytes { IfOk result
            (λ _. Consumes (R.remaining source.old) (R.remaining source.new)
            (bytes_held self.new)) }
        ensures end { IfOk result
            (λ _. self.new.has_ended ≡ true
            → (bytes_held self.new ≡ []) × IsTrue (R.ended source.new)
            × IsAtEnd (R.remaining source.new)) }
        ensures some { IfOk result
            (λ _. self.new.has_ended ≡ false → 1 ≤ length (bytes_held self.new)) }
        ensures kept { OnErr result (Keeps (R.remaining source.old) (R.remaining source.new)) }
        ensures count { R.failures source.new ≡ count_after result (R.failures source.old) }
    {
        let count = source.read(&mut self.bytes)?;
        self.start = 0;
        self.end = count;
        self.has_ended = count == 0;
        Ok(())
    }
}
