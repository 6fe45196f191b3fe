//! The lines of a source.
ghost use Rattle.std.specs.Prelude.{◌≡◌, ◌≢◌, true, Bool, List, [], ℕ, ◌-◌, ◌^◌, ◌++◌, Err, IfOk, IfErr, OnErr, IsTrue};
ghost use Rattle.std.specs.Io.KnownBytes.{IsAtEnd};
ghost use Rattle.ref_streams.specs.Bytes.{HasFailed};
ghost use Rattle.ref_streams.specs.inner.Held.{bytes_held, IsFree, Keeps, Passes, Cuts, IsNext, GotNext, Gave, IsUnfinished};
ghost use Rattle.ref_streams.specs.Serving.{GaveAtLeast};

use crate::chunk::Chunk;
use crate::error::RunError;
use crate::source::Source;
use memchr::memchr;
use std::alloc::Global;

/// What is read of a source up to the end of a line.
#[derive(Drop)]
pub enum Line {
    /// The bytes of a line, without its end.
    Text(Vec<u8>),
    /// A line for whose bytes there was no memory.
    Lost,
    /// There is no further line.
    End,
}

// The bytes of a line so far.
#[derive(Drop)]
pub struct Part {
    pub bytes: Vec<u8>,
    pub is_lost: bool,
}

impl Part {
    // Puts bytes at the end, unless there is no memory for them: then none are kept from here on.
    fn push(&mut self, alloc: Global, bytes: &[u8])
        ensures keeps { (line : List ℕ) → Keeps self.old line → Keeps self.new (line ++ bytes.now) }
    {
        if self.is_lost {
            return;
        }
        match self.bytes.extend_from_slice(bytes) {
            Ok(()) => {}
            Err(_) => self.lose(alloc),
        }
    }

    // Keeps no bytes from here on.
    fn lose(&mut self, alloc: Global)
        ensures lost { self.new.is_lost ≡ true }
    {
        self.is_lost = true;
        self.bytes = Vec::new(alloc);
    }

    // The line, which ends here.
    fn into_line(self) -> Line
        ensures value { (line before after : List ℕ) (ended : Bool) → Keeps self line
            → Cuts before line after ended
            → IsNext result before after ended }
    {
        if self.is_lost {
            Line::Lost
        } else {
            Line::Text(self.bytes)
        }
    }

    // The line, where the source ends here.
    fn into_last(self) -> Line
        ensures value { (line before after : List ℕ) → Keeps self line → IsFree line → before ≡ line
            → after ≡ []
            → IsNext result before after true }
    {
        if self.is_lost {
            Line::Lost
        } else if self.bytes.is_empty() {
            Line::End
        } else {
            Line::Text(self.bytes)
        }
    }
}

// Moves bytes of the chunk after those of the line, up to the line's end. Whether that was met.
fn pass(alloc: Global, chunk: &mut Chunk, part: &mut Part) -> bool
    ensures passed { (line : List ℕ) → Keeps part.old line
        → (passed : List ℕ) × Passes (bytes_held chunk.old) passed result (bytes_held chunk.new)
        × Keeps part.new (line ++ passed) }
    ensures ended { chunk.new.has_ended ≡ chunk.old.has_ended }
{
    let rest = chunk.rest();
    match memchr(b'\n', rest) {
        Some(count) => {
            part.push(alloc, &rest[..count]);
            chunk.start += count + 1;
            true
        }
        None => {
            part.push(alloc, rest);
            chunk.start = chunk.end;
            false
        }
    }
}

/// The next line of what the chunk and the source have left. Linear in its bytes.
///
/// `Read` where a read failed; then there is no line feed in what is left of the chunk and in what was read. `Memory` where a
/// count of 64 bits of the reads for one line runs out.
pub fn read_line<R: Source>(
    alloc: Global,
    source: &mut R,
    chunk: &mut Chunk,
) -> Result<Line, RunError>
    ensures next { IfOk result
        (λ line. GotNext (R.remaining source.old) (R.remaining source.new) (bytes_held chunk.old)
        (bytes_held chunk.new) line chunk.old.has_ended chunk.new.has_ended) }
    ensures end { (chunk.old.has_ended ≡ true
        → IsTrue (R.ended source.old) × IsAtEnd (R.remaining source.old))
        → IfOk result
        (λ _. chunk.new.has_ended ≡ true
        → IsTrue (R.ended source.new) × IsAtEnd (R.remaining source.new)) }
    ensures gave { OnErr result
        (Gave (R.remaining source.old) (R.remaining source.new) chunk.old.has_ended) }
    ensures unfinished { result ≡ Err RunError.Read
        → IsUnfinished (R.remaining source.old) (R.remaining source.new) (bytes_held chunk.old)
        chunk.old.has_ended }
    ensures memory { result ≡ Err RunError.Memory
        → GaveAtLeast (2 ^ 64 - 2) (R.remaining source.old) (R.remaining source.new) }
    ensures error { IfErr result (λ e. e ≢ RunError.Write) }
    ensures read { result ≡ Err RunError.Read
        → HasFailed (R.failures source.old) (R.failures source.new) }
    ensures no_read_failed { result ≢ Err RunError.Read
        → R.failures source.new ≡ R.failures source.old }
{
    let mut part = Part {
        bytes: Vec::new(alloc),
        is_lost: false,
    };
    for _ in 0..u64::MAX {
        if pass(alloc, chunk, &mut part) {
            return Ok(part.into_line());
        }
        if chunk.has_ended {
            return Ok(part.into_last());
        }
        match chunk.fill(source) {
            Ok(()) => {}
            Err(_) => return Err(RunError::Read),
        }
    }
    Err(RunError::Memory)
}
