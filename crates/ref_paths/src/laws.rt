//! Rows of the definitions in `specs/`. The function does nothing: its clauses are the rows.
ghost use Rattle.ref_paths.specs.Rows.{PathRows, LinkRows};

/// The worked rows of paths.
pub fn path_rows()
    ensures paths { PathRows }
    ensures links { LinkRows }
{}
