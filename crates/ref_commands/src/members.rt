//! Members of the JSON objects that `places`, `resolve` and `graph` print with `--format json`.
use clap::ArgMatches;
use ref_messages::push_member;
use std::alloc::{AllocError, Global};

/// Whether an object a line is asked for, in place of text for people.
pub(crate) fn is_json(given: &ArgMatches<'_>) -> bool {
    match given.get_str("format") {
        Some("json") => true,
        _ => false,
    }
}

/// Adds `file`, `line` and `column`, where a file has the place, and `pointer`, without the brace at the end.
pub(crate) fn push_site(
    alloc: Global,
    out: &mut String,
    file: &str,
    at: Option<(usize, usize)>,
    pointer: &str,
) -> Result<(), AllocError> {
    push_member(alloc, out, "{\"file\":", file)?;
    if let Some((line, column)) = at {
        write!(out, ",\"line\":{line},\"column\":{column}")?;
    }
    push_member(alloc, out, ",\"pointer\":", pointer)
}
