//! Paths that are moved.
use crate::bases::parsed;
use crate::plan::joined;
use ref_files::file_uri;
use ref_uri::Uri;
use std::alloc::{AllocError, Global};

/// What follows a path in another one, where that is the same or below it: nothing, or a slash and more.
pub fn rest_below<'p>(path: &str, other: &'p str) -> Option<&'p str> {
    let rest = other.strip_prefix(path)?;
    if rest.is_empty() || rest.starts_with('/') {
        Some(rest)
    } else {
        None
    }
}

/// The URI after a move from one absolute path to another of a file that isn't there: one below a folder that is moved would be there then. None of a file elsewhere, and none
/// of what is moved itself. Fails only if out of memory.
pub fn moved_uri(
    alloc: Global,
    from: &str,
    to: &str,
    uri: &Uri,
) -> Result<Option<Uri>, AllocError> {
    let before = file_uri(alloc, from)?;
    match rest_below(before.as_str(), uri.as_str()) {
        Some(rest) if !rest.is_empty() => {
            let after = file_uri(alloc, to)?;
            let text = joined(alloc, after.as_str(), rest)?;
            parsed(alloc, text.as_str())
        }
        _ => Ok(None),
    }
}
