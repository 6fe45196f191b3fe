//! Paths of files and the URIs that a client has for them.
use percent_encoding::percent_decode_str;
use std::alloc::{AllocError, Global};

/// The path that a `file:` URI means, decoded (RFC 8089, 2). Nothing where it is none, or its bytes are no UTF-8.
pub fn path_of(alloc: Global, uri: &str) -> Result<Option<String>, AllocError> {
    let Some(rest) = after_scheme(uri) else {
        return Ok(None);
    };
    let Some(start) = rest.find('/') else {
        return Ok(None);
    };
    match percent_decode_str(rest.get(start..).unwrap_or("")).decode_utf8(alloc) {
        Ok(text) => Ok(Some(without_end(text.into_owned(alloc)?))),
        Err(percent_encoding::DecodeError::OutOfMemory) => Err(AllocError),
        Err(_) => Ok(None),
    }
}

fn after_scheme(uri: &str) -> Option<&str> {
    let (scheme, rest) = uri.split_once(':')?;
    if !scheme.eq_ignore_ascii_case("file") {
        return None;
    }
    rest.strip_prefix("//")
}

// A path without slashes at its end.
fn without_end(path: String) -> String {
    let mut path = path;
    for _ in 0..path.len() {
        if path.len() > 1 && path.as_str().ends_with('/') {
            path.pop();
        } else {
            break;
        }
    }
    path
}

/// What is below a folder in a path: nothing where the path isn't below it.
pub fn below<'p>(folder: &str, path: &'p str) -> Option<&'p str> {
    let rest = path.strip_prefix(folder.trim_end_matches('/'))?;
    rest.strip_prefix('/')
}

/// Whether one of the names of a path's folders begins with a dot.
pub fn is_hidden(below: &str) -> bool {
    match below.rsplit_once('/') {
        Some((folders, _)) => folders.split('/').any(|name| name.starts_with('.')),
        None => false,
    }
}
