//! How a run ends, and the exit status.
ghost use Rattle.std.specs.Prelude.{◌≡◌};
ghost use Rattle.ref_report.specs.Status.{exit_status};

use ref_streams::RunError;

/// How a run ended.
#[derive(Clone, Copy, Debug, Drop, PartialEq, Eq)]
pub enum Status {
    /// The report has no fault.
    Done,
    /// Documents can't be prepared, or a step can't be followed.
    Fault,
    /// The request is bad.
    BadRequest,
}

/// The program's exit status: 0 for a report without fault, 1 for one with a fault, 2 for a bad request, and 3 where there is
/// no report.
pub fn exit_status(answer: &Result<Status, RunError>) -> u8
    ensures value { result ≡ exit_status answer.now }
{
    match answer {
        Ok(Status::Done) => 0,
        Ok(Status::Fault) => 1,
        Ok(Status::BadRequest) => 2,
        Err(_) => 3,
    }
}
