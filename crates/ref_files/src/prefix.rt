//! What a URI means below a prefix.
ghost use Rattle.std.specs.Prelude.{◌≡◌, map, option_map, string_bytes, IfOk, OnOk};
ghost use Rattle.std.specs.List.{list_any};
ghost use Rattle.ref_files.specs.Plain.{path_in, path_of};
ghost use Rattle.ref_files.specs.Meant.{path_after, ends_path, without_slashes};

use crate::name::Name;
use std::alloc::{AllocError, Global};

/// What follows a prefix in a URI, where the URI begins so and the prefix ends at a slash: the prefix `http://a/b`,
/// with a slash at its end or without, has `http://a/b/c` below it and not `http://a/bc`. Nothing where that has a query
/// or a fragment (RFC 3986, 3).
///
/// Takes no memory. One pass over the URI.
pub fn below_prefix<'u>(prefix: &str, uri: &'u str) -> Option<&'u str>
    ensures value { option_map (λ path. path.now) result ≡ path_after prefix.now uri.now }
{
    let rest = uri.strip_prefix(without_slashes(prefix))?;
    let path = rest.strip_prefix('/')?;
    if has_query_or_fragment(path.as_bytes()) {
        return None;
    }
    Some(path)
}

// The text without the slashes at its end.
pub(crate) fn without_slashes(text: &str) -> &str
    ensures value { result.now ≡ without_slashes text.now }
{
    text.trim_end_matches('/')
}

fn has_query_or_fragment(text: &[u8]) -> bool
    ensures value { result ≡ list_any ends_path text.now }
{
    text.iter().any(|b| *b == b'?' || *b == b'#')
}

/// The path of what these names mean from a folder: each is a plain name, so the path is below the folder, links aside.
pub fn path_below(alloc: Global, folder: &str, names: &[Name]) -> Result<String, AllocError>
    ensures value { IfOk result
        (λ path. string_bytes path
        ≡ path_of folder.now (map (λ name. string_bytes name.text) names.now)) }
{
    let mut path = String::from_str(alloc, folder)?;
    for name in names {
        push_name(&mut path, name.as_str())?;
    }
    Ok(path)
}

// Adds a name to a path, after one slash.
pub(crate) fn push_name(path: &mut String, name: &str) -> Result<(), AllocError>
    ensures value { OnOk result (string_bytes path.new ≡ path_in (string_bytes path.old) name.now) }
{
    if !path.as_str().ends_with('/') {
        path.push('/')?;
    }
    path.push_str(name)
}
