//! What wasn't looked at.
use std::alloc::{AllocError, Global};

/// What wasn't looked at: a path, where it is one, and why.
#[derive(Clone, Copy, Drop)]
pub struct Unlooked<'u> {
    /// The path, as it is shown.
    pub path: Option<&'u str>,
    /// Why it wasn't.
    pub why: &'u str,
}

// What is said of it, in one text.
pub(crate) fn text_of(alloc: Global, unlooked: Unlooked<'_>) -> Result<String, AllocError> {
    let why = unlooked.why;
    match unlooked.path {
        Some(path) => format!(in alloc; "{path}: {why}"),
        None => String::from_str(alloc, why),
    }
}
