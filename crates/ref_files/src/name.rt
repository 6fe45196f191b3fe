//! The names of files and folders that a URI's path means.
ghost use Rattle.std.specs.Prelude.{◌≡◌, ◌↔◌, IfSome, IfOk, IsSome, IsTrue, IsUtf8, MatchOption, map, string_bytes};
ghost use Rattle.percent_encoding.specs.Percent.{percent_decode};
ghost use Rattle.ref_files.specs.Plain.{IsPlain, Lacks};
ghost use Rattle.ref_files.specs.Meant.{AreNames, IsName, decoded_segments};

use percent_encoding::percent_decode_str;
use std::alloc::{AllocError, Global};

/// The name of a file or a folder: not empty, neither `.` nor `..`, and without a slash and a NUL. So it means
/// something that is right in the folder that it is looked up in.
#[derive(Debug, Drop)]
pub struct Name {
    text: String,
    ghost plain: { IsPlain (string_bytes text) },
}

impl Name {
    /// The text as a name, where it is one.
    pub fn new(text: String) -> Option<Name>
        ensures value { IfSome result (λ name. name.text ≡ text) }
        ensures plain { IsSome result ↔ IsPlain (string_bytes text) }
    {
        if !is_plain(text.as_str()) {
            return None;
        }
        Some(Name { text })
    }

    /// Its text.
    pub fn as_str(&self) -> &str
        ensures value { result.now ≡ string_bytes self.now.text }
        ensures plain { IsPlain result.now }
    {
        self.text.as_str()
    }
}

// Whether a text is a plain name.
fn is_plain(text: &str) -> bool
    ensures value { IsTrue result ↔ IsPlain text.now }
{
    if text.is_empty() || text == "." || text == ".." {
        return false;
    }
    lacks(text.as_bytes(), b'/') && lacks(text.as_bytes(), 0)
}

fn lacks(text: &[u8], byte: u8) -> bool
    ensures value { IsTrue result ↔ Lacks byte text.now }
{
    text.iter().all(|b| *b != byte)
}

/// The names that a URI's path means, each segment decoded (RFC 3986, 2.1 and 3.3). Nothing where a segment is no
/// [`Name`], as `..` or one with an encoded slash, or its bytes are no UTF-8.
///
/// Out of memory is the one error. One pass over the path, which copies each name.
pub fn names_of(alloc: Global, path: &str) -> Result<Option<Vec<Name>>, AllocError>
    ensures value { IfOk result (λ names. MatchOption names
        (¬ (AreNames (decoded_segments path.now)))
        (λ v. map (λ name. string_bytes name.text) v.items ≡ decoded_segments path.now)) }
    ensures names { IfOk result (λ names. IfSome names
        (λ v. AreNames (decoded_segments path.now))) }
{
    let mut names = Vec::new(alloc);
    let mut rest = path;
    'segments: while let Some((segment, more)) = rest.split_once('/') {
        match name_of(alloc, segment)? {
            Some(name) => names.push(name)?,
            None => return Ok(None),
        }
        rest = more;
    }
    match name_of(alloc, rest)? {
        Some(name) => names.push(name)?,
        None => return Ok(None),
    }
    Ok(Some(names))
}

// The name that a segment means.
fn name_of(alloc: Global, segment: &str) -> Result<Option<Name>, AllocError>
    ensures value { IfOk result (λ name. MatchOption name
        (¬ (IsName (percent_decode segment.now)))
        (λ n. string_bytes n.text ≡ percent_decode segment.now)) }
    ensures name { IfOk result (λ name. IfSome name
        (λ n. IsName (percent_decode segment.now))) }
{
    match decoded(alloc, segment)? {
        Some(text) => Ok(Name::new(text)),
        None => Ok(None),
    }
}

// The text that a segment's triples and characters make, or nothing where that is no UTF-8.
fn decoded(alloc: Global, segment: &str) -> Result<Option<String>, AllocError>
    ensures value { IfOk result (λ text. MatchOption text
        (¬ (IsUtf8 (percent_decode segment.now)))
        (λ t. string_bytes t ≡ percent_decode segment.now)) }
{
    match percent_decode_str(segment).decode_utf8(alloc) {
        Ok(text) => Ok(Some(text.into_owned(alloc)?)),
        Err(percent_encoding::DecodeError::OutOfMemory) => Err(AllocError),
        Err(_) => Ok(None),
    }
}
