//! The URIs of files.
ghost use Rattle.std.specs.Prelude.{◌≡◌, ℕ, ◌++◌, not, codes, string_bytes, IfOk, OnOk};
ghost use Rattle.percent_encoding.specs.AsciiSet.{should_percent_encode};
ghost use Rattle.ref_files.specs.Meant.{uri_after};
ghost use Rattle.ref_files.specs.Uris.{is_kept, is_kept_first, path_text, relative_text};

use crate::prefix::without_slashes;
use percent_encoding::{AsciiSet, CONTROLS, ascii_set, utf8_percent_encode};
use std::alloc::{AllocError, Global};

// What a path of a URI can't have as it is (RFC 3986, 3.3), and what has another meaning there. Bytes from 128 on are
// always encoded.
const ENCODED: AsciiSet = ascii_set!(
    CONTROLS
        .add(b' ')
        .add(b'"')
        .add(b'#')
        .add(b'%')
        .add(b'<')
        .add(b'>')
        .add(b'?')
        .add(b'^')
        .add(b'`')
        .add(b'[')
        .add(b'\\')
        .add(b']')
        .add(b'{')
        .add(b'|')
        .add(b'}')
);

// The same, and the colon.
const ENCODED_FIRST: AsciiSet = ascii_set!(ENCODED.add(b':'));

// The bytes that a path has as triples.
fn encoded() -> AsciiSet
    ensures value { (b : ℕ) → should_percent_encode result b ≡ not (is_kept b) }
{
    ENCODED
}

// Those that a relative path has.
fn encoded_first() -> AsciiSet
    ensures value { (b : ℕ) → should_percent_encode result b ≡ not (is_kept_first b) }
{
    ENCODED_FIRST
}

/// The URI of the file at an absolute path, percent-encoded (RFC 8089, 2).
pub fn file_uri(alloc: Global, path: &str) -> Result<String, AllocError>
    ensures value { IfOk result (λ uri. string_bytes uri ≡ codes "file://" ++ path_text path.now) }
{
    let mut uri = String::from_str(alloc, "file://")?;
    push_path(&mut uri, path)?;
    Ok(uri)
}

/// The URI of the file at a path below a base, with one slash between them; the path is percent-encoded (RFC 3986,
/// 3.3).
///
/// Out of memory is the one error. One pass over both.
pub fn uri_below(alloc: Global, base: &str, path: &str) -> Result<String, AllocError>
    ensures value { IfOk result (λ uri. string_bytes uri ≡ uri_after base.now path.now) }
{
    let mut uri = String::from_str(alloc, without_slashes(base))?;
    uri.push('/')?;
    push_path(&mut uri, path)?;
    Ok(uri)
}

/// A relative path as a relative URI, percent-encoded. A colon in its first segment is encoded too, since it would end
/// a scheme (RFC 3986, 4.2).
pub fn relative_uri(alloc: Global, path: &str) -> Result<String, AllocError>
    ensures value { IfOk result (λ uri. string_bytes uri ≡ relative_text path.now) }
{
    let mut uri = String::new(alloc);
    utf8_percent_encode(path, encoded_first()).append_to(&mut uri)?;
    Ok(uri)
}

fn push_path(uri: &mut String, path: &str) -> Result<(), AllocError>
    ensures value { OnOk result
        (string_bytes uri.new ≡ string_bytes uri.old ++ path_text path.now) }
{
    utf8_percent_encode(path, encoded()).append_to(uri)
}
