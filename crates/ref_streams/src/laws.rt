//! Rows of the definitions, as contracts of functions that do nothing.
ghost use Rattle.ref_streams.specs.Rows.{FailureRows};

/// Counts of failed calls by which one failed, and counts by which none is known to have.
pub fn failure_rows()
    ensures rows { FailureRows }
{}
