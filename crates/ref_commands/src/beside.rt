//! Files that lie on the disk and aren't among the given ones.
use crate::opened::Opened;
use ref_files::{below_prefix, folder_of, names_of, path_below};
use std::alloc::{AllocError, Global};
use std::fs;
use std::io::ErrorKind;

/// The path, as it may be given to `--with`, of the file that has a missing URI, where there is one: in the folder of the
/// document with a number, which refers to it, or below, or below the working folder. Where files are under the URI of `--base`, it is that
/// of the folder, below which the file has the URI. Nothing of it is read.
pub fn beside(
    rt: &HostRuntime,
    opened: &Opened<'_>,
    number: usize,
    uri: &str,
) -> Result<Option<String>, AllocError> {
    let alloc = rt.alloc();
    let (Some(document), Some(path)) = (
        opened.workspace.documents().get(number),
        opened.paths.get(number),
    ) else {
        return Ok(None);
    };
    let folder_uri = folder_of(document.uri.as_str());
    if let Some(rest) = below_prefix(folder_uri, uri) {
        let Some(below) = path_of(alloc, rest)? else {
            return Ok(None);
        };
        let real = joined(alloc, folder_of(path.as_str()), below.as_str())?;
        if !is_file(rt, real.as_str())? {
            return Ok(None);
        }
        if !document.uri.as_str().starts_with("file:") {
            return Ok(Some(shown_folder(alloc, document.name.as_str())?));
        }
        return Ok(Some(shown(alloc, document.name.as_str(), below.as_str())?));
    }
    match uri.strip_prefix("file:///") {
        Some(rest) => below_here(rt, rest),
        None => Ok(None),
    }
}

// The path below the working folder of the file that a path of a `file:` URI means, where there is one.
fn below_here(rt: &HostRuntime, rest: &str) -> Result<Option<String>, AllocError> {
    let alloc = rt.alloc();
    let Some(path) = path_of(alloc, rest)? else {
        return Ok(None);
    };
    let Some(here) = here(rt)? else {
        return Ok(None);
    };
    let below = match path.as_str().strip_prefix(here.as_str()) {
        Some(below) => below.strip_prefix('/'),
        None => None,
    };
    match below {
        Some(below) if is_file(rt, path.as_str())? => Ok(Some(String::from_str(alloc, below)?)),
        _ => Ok(None),
    }
}

// The path that the path of a URI means, with a slash before each name.
fn path_of(alloc: Global, rest: &str) -> Result<Option<String>, AllocError> {
    match names_of(alloc, rest)? {
        Some(names) => Ok(Some(path_below(alloc, "", names.as_slice())?)),
        None => Ok(None),
    }
}

fn is_file(rt: &HostRuntime, path: &str) -> Result<bool, AllocError> {
    match fs::symlink_metadata(rt, path) {
        Ok(data) => Ok(data.is_file()),
        Err(error) if error.kind() == ErrorKind::OutOfMemory => Err(AllocError),
        Err(_) => Ok(false),
    }
}

// The working folder, where it is there.
fn here(rt: &HostRuntime) -> Result<Option<String>, AllocError> {
    match fs::canonicalize(rt, ".") {
        Ok(here) => Ok(Some(here.into_string())),
        Err(error) if error.kind() == ErrorKind::OutOfMemory => Err(AllocError),
        Err(_) => Ok(None),
    }
}

fn joined(alloc: Global, folder: &str, below: &str) -> Result<String, AllocError> {
    [folder, below].join(alloc, "")
}

// The path of a file in the folder of another as that is shown.
fn shown(alloc: Global, other: &str, below: &str) -> Result<String, AllocError> {
    if other.contains('/') {
        return joined(alloc, folder_of(other), below);
    }
    String::from_str(alloc, below.strip_prefix('/').unwrap_or(below))
}

// The folder of a file as that is shown.
fn shown_folder(alloc: Global, other: &str) -> Result<String, AllocError> {
    match other.rsplit_once('/') {
        Some(("", _)) => String::from_str(alloc, "/"),
        Some((folder, _)) => String::from_str(alloc, folder),
        None => String::from_str(alloc, "."),
    }
}
