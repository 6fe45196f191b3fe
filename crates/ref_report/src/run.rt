//! One request from a source to a report in a sink.
ghost use Rattle.std.specs.Prelude.{◌≡◌, Ok, Err, IfOk, OnOk, OnErr, IfErr, ◌≢◌, IsTrue, string_bytes};
ghost use Rattle.std.specs.Io.KnownBytes.{Appends, IsAtEnd};
ghost use Rattle.ref_streams.specs.Bytes.{HasFailed, AppendsFront};
ghost use Rattle.ref_report.specs.Run.{Reports, ReportsInPart};

use crate::answer::answer;
use crate::report::Report;
use crate::status::Status;
pub use crate::status::exit_status;
pub use ref_streams::RunError;
use ref_streams::{Sink, Source, read_to_end};
use std::alloc::Global;

/// Reads one request to the end, makes its whole report, and writes it. The status is that of the report.
///
/// `Read` exactly where a read failed, `Write` only where a write did, `Memory` where a growth is refused. Where it returns neither a status nor `Write`, nothing was written; a failed write
/// left a beginning of the report.
///
/// Takes memory for the bytes, the tree, the request, what is prepared and followed, and the report; documents are lent, and
/// what can be retrieved is copied. Reading ends over every source: each read before the end lengthens a vector. Costs what
/// preparing and the steps' look-ups cost, and where `lint` asks for it what [`dangling`](ref_lint::dangling) does, and is
/// linear in the bytes else.
pub fn run<R: Source, W: Sink>(
    alloc: Global,
    reader: &mut R,
    writer: &mut W,
) -> Result<Status, RunError>
    // Where there is a status, the source is at its end and has no byte left, what was written is the report of all
    // that was read, and the status is that of the report.
    ensures reported { IfOk result
        (λ status. (IsTrue (R.ended reader.new) × IsAtEnd (R.remaining reader.new))
        × Reports (R.remaining reader.old) (R.remaining reader.new) (W.taken writer.old)
        (W.taken writer.new) status) }
    // A read that failed, and a write that failed: a failed read is never passed over.
    ensures read { result ≡ Err RunError.Read
        → HasFailed (R.failures reader.old) (R.failures reader.new) }
    ensures no_read_failed { result ≢ Err RunError.Read
        → R.failures reader.new ≡ R.failures reader.old }
    ensures write { result ≡ Err RunError.Write
        → HasFailed (W.failures writer.old) (W.failures writer.new) }
    // A failed write left a beginning of the report on all that was read.
    ensures in_part { result ≡ Err RunError.Write
        → ReportsInPart (R.remaining reader.old) (R.remaining reader.new) (W.taken writer.old)
        (W.taken writer.new) }
    // Without a status and without a failed write nothing was written.
    ensures nothing_written { IfErr result (λ e. e ≢ RunError.Write → writer.new ≡ writer.old) }
{
    let input = read_to_end(alloc, reader)?;
    let report = answer(alloc, input.as_slice())?;
    write_report(writer, &report)
}

fn write_report<W: Sink>(writer: &mut W, report: &Report) -> Result<Status, RunError>
    ensures status { IfOk result (λ status. status ≡ report.now.status) }
    ensures taken { OnOk result (Appends (W.taken writer.old) (W.taken writer.new)
        (string_bytes report.now.text)) }
    ensures front { OnErr result (AppendsFront (W.taken writer.old) (W.taken writer.new)
        (string_bytes report.now.text)) }
    ensures error { IfErr result (λ e. (e ≡ RunError.Write)
        × HasFailed (W.failures writer.old) (W.failures writer.new)) }
{
    match writer.write_all(report.text.as_bytes()) {
        Ok(()) => Ok(report.status),
        Err(_) => Err(RunError::Write),
    }
}
