//! Calls from a source to answers in a sink.
ghost use Rattle.std.specs.Prelude.{◌≡◌, ◌≢◌, ◌++◌, ◌-◌, ◌^◌, ℕ, List, Err, true, IfOk, IfErr, OnOk, OnErr, IsTrue};
ghost use Rattle.std.specs.Io.KnownBytes.{Appends, IsAtEnd};
ghost use Rattle.ref_streams.specs.Bytes.{HasFailed, AppendsFront};
ghost use Rattle.ref_streams.specs.Lines.{lines, whole_lines};
ghost use Rattle.ref_streams.specs.Serving.{Serves, ServedSoFar, ServedInPart, AnsweredSoFar, GaveAtLeast};
ghost use Rattle.ref_streams.specs.inner.Held.{bytes_held, Gave, IsUnfinished};
ghost use Rattle.ref_streams.specs.inner.Answering.{answer_text, GotAnswer};

use crate::chunk::Chunk;
use crate::error::RunError;
use crate::line::{Line, read_line};
use crate::sink::Sink;
use crate::source::Source;
use std::alloc::{AllocError, Global};

/// The answer to a line while memory is refused, with its end.
pub const OUT_OF_MEMORY: &str =
    "{\"error\":{\"message\":\"Out of memory\",\"name\":\"OutOfMemory\"}}\n";

/// What answers lines.
pub trait Service {
    // The service, the line, the service afterwards, and the bytes of the answer: which answers it may give.
    ghost may_answer: { Self → List ℕ → Self → List ℕ → Type 0 };

    /// The answer to a line, with its end. Where memory is refused there is none, and the service is as it was.
    fn answer(&mut self, alloc: Global, line: &[u8]) -> Result<Vec<u8>, AllocError>
        ensures answer { IfOk result (λ text. may_answer self.old line.now self.new text.items) }
        ensures refused { OnErr result (self.new ≡ self.old) };
}

// The answer to the next line, or none where there is no further line.
fn next_answer<R: Source, S: Service>(
    alloc: Global,
    reader: &mut R,
    chunk: &mut Chunk,
    service: &mut S,
) -> Result<Option<Result<Vec<u8>, AllocError>>, RunError>
    ensures next { IfOk result
        (λ answer. GotAnswer S.may_answer service.old service.new (R.remaining reader.old)
        (R.remaining reader.new) answer (bytes_held chunk.old) (bytes_held chunk.new)
        chunk.old.has_ended chunk.new.has_ended) }
    ensures stays { OnErr result (service.new ≡ service.old) }
    ensures gave { OnErr result
        (Gave (R.remaining reader.old) (R.remaining reader.new) chunk.old.has_ended) }
    ensures count { OnOk result (R.failures reader.new ≡ R.failures reader.old) }
    ensures end { (chunk.old.has_ended ≡ true
        → IsTrue (R.ended reader.old) × IsAtEnd (R.remaining reader.old))
        → IfOk result
        (λ _. chunk.new.has_ended ≡ true
        → IsTrue (R.ended reader.new) × IsAtEnd (R.remaining reader.new)) }
    ensures unfinished { result ≡ Err RunError.Read
        → IsUnfinished (R.remaining reader.old) (R.remaining reader.new) (bytes_held chunk.old)
        chunk.old.has_ended }
    ensures memory { result ≡ Err RunError.Memory
        → GaveAtLeast (2 ^ 64 - 2) (R.remaining reader.old) (R.remaining reader.new) }
    ensures error { IfErr result (λ e. e ≢ RunError.Write) }
    ensures read { result ≡ Err RunError.Read
        → HasFailed (R.failures reader.old) (R.failures reader.new) }
    ensures no_read_failed { result ≢ Err RunError.Read
        → R.failures reader.new ≡ R.failures reader.old }
{
    match read_line(alloc, reader, chunk)? {
        Line::Text(line) => Ok(Some(service.answer(alloc, line.as_slice()))),
        Line::Lost => Ok(Some(Err(AllocError))),
        Line::End => Ok(None),
    }
}

fn write<W: Sink>(writer: &mut W, answer: &Result<Vec<u8>, AllocError>) -> Result<(), RunError>
    ensures taken { OnOk result
        (Appends (W.taken writer.old) (W.taken writer.new) (answer_text answer.now)) }
    ensures front { OnErr result
        (AppendsFront (W.taken writer.old) (W.taken writer.new) (answer_text answer.now)) }
    ensures kept { OnOk result (W.failures writer.new ≡ W.failures writer.old) }
    ensures error { IfErr result
        (λ e. (e ≡ RunError.Write) × HasFailed (W.failures writer.old) (W.failures writer.new)) }
{
    let text = match answer {
        Ok(text) => text.as_slice(),
        Err(_) => OUT_OF_MEMORY.as_bytes(),
    };
    match writer.write_all(text) {
        Ok(()) => Ok(()),
        Err(_) => Err(RunError::Write),
    }
}

/// Reads lines to the end, and writes the answer to each before the next is read.
///
/// `Read` exactly where a read failed: then the service answered each line of what was read that has its end, and no other, and
/// all those answers were written. `Write` exactly where a write failed: then it answered the first lines of what was read, and
/// all those answers were written but for an end of the last. `Memory` where a count of 64 bits runs out, of lines or of the reads for one, which takes
/// a source that gave 2^64 - 2 bytes or more: then it answered the first lines of these, and all those answers were written.
/// Where memory is refused for a line, the answer says so, and the next line is answered. All this is said of a source and a
/// sink that show their bytes; standard input and output show none. Linear in the bytes, but for the answers.
pub fn serve<R: Source, W: Sink, S: Service>(
    alloc: Global,
    reader: &mut R,
    writer: &mut W,
    service: &mut S,
) -> Result<(), RunError>
    // What was written are the answers to the lines of what was read, to the end of the source.
    ensures served { IfOk result
        (λ _. (IsTrue (R.ended reader.new) × IsAtEnd (R.remaining reader.new))
        × Serves lines S.may_answer service.old service.new (R.remaining reader.old)
        (R.remaining reader.new) (W.taken writer.old)
        (W.taken writer.new)) }
    ensures read { result ≡ Err RunError.Read
        → HasFailed (R.failures reader.old) (R.failures reader.new) }
    ensures no_read_failed { result ≢ Err RunError.Read
        → R.failures reader.new ≡ R.failures reader.old }
    ensures write { result ≡ Err RunError.Write
        → HasFailed (W.failures writer.old) (W.failures writer.new) }
    ensures no_write_failed { result ≢ Err RunError.Write
        → W.failures writer.new ≡ W.failures writer.old }
    // Where a read failed, what was written are the answers to each line of what was read that has its end.
    ensures before_read { result ≡ Err RunError.Read
        → Serves whole_lines S.may_answer service.old service.new (R.remaining reader.old)
        (R.remaining reader.new) (W.taken writer.old)
        (W.taken writer.new) }
    // Where a write failed, what was written are the answers to the first lines of what was read, and a beginning of the
    // answer to the next.
    ensures in_part { result ≡ Err RunError.Write
        → ServedInPart S.may_answer service.old service.new (R.remaining reader.old)
        (R.remaining reader.new)
        (W.taken writer.old) (W.taken writer.new) }
    ensures memory { result ≡ Err RunError.Memory
        → GaveAtLeast (2 ^ 64 - 2) (R.remaining reader.old) (R.remaining reader.new) }
    // Without a failed write, what was written are the answers to the first lines of what was read.
    ensures so_far { IfErr result (λ e. e ≢ RunError.Write
        → ServedSoFar S.may_answer service.old service.new (R.remaining reader.old)
        (R.remaining reader.new)
        (W.taken writer.old) (W.taken writer.new)) }
    // After any error the service is as its answers to the first lines of what was read leave it.
    ensures answered { OnErr result
        (AnsweredSoFar S.may_answer service.old service.new (R.remaining reader.old)
        (R.remaining reader.new)) }
{
    let mut chunk = Chunk::new();
    for _ in 0..u64::MAX {
        match next_answer(alloc, reader, &mut chunk, service)? {
            Some(answer) => write(writer, &answer)?,
            None => return Ok(()),
        }
    }
    Err(RunError::Memory)
}
