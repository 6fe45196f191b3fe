//! Laws and rows of the definitions, as contracts of functions that do nothing.
ghost use Rattle.std.specs.Prelude.{◌≡◌, ℕ, List};
ghost use Rattle.ref_report.specs.Report.{Report, IsReport};
ghost use Rattle.ref_report.specs.Status.{ExitRows};

/// The bytes of a request have one report alone: what can be retrieved is a map, so preparing has one outcome.
pub fn reports_are_one()
    ensures law { (bytes : List ℕ) (one other : Report) → IsReport bytes one → IsReport bytes other
        → one ≡ other }
{}

/// All bytes have a report: a bad request has one, and what can be retrieved is a map, which answers or refuses each URI, so
/// preparing has an outcome.
pub fn requests_have_reports()
    ensures law { (bytes : List ℕ) → (report : Report) × IsReport bytes report }
{}

/// The program's exit status, of each status and of each run without one.
pub fn exit_rows()
    ensures rows { ExitRows }
{}
