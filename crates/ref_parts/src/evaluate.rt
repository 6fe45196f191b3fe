//! What a JSON Pointer means in a JSON value (RFC 6901, sections 3 to 5).
ghost use Rattle.std.specs.Prelude.{◌≡◌, ◌≢◌, All, IsOk, IfOk, option_map};
ghost use Rattle.serde_json.specs.View.{view};
ghost use Rattle.ref_parts.specs.Pointer.{evaluate, parse_index as index_of, value_along as along, step as next, tokens, unescape, tilde};

use crate::escape::unescape_segment;
use serde_json::Value;
use std::alloc::{AllocError, Global};

/// The value that a pointer means: the empty pointer means the document, and one that doesn't begin with `/` nothing.
///
/// In an array a token is an index by `parse_index`. Takes memory for a key whose token holds `~`, and is refused where
/// there is none. One pass, and a look-up for each token.
pub fn pointer<'a>(
    alloc: Global,
    document: &'a Value,
    pointer: &str,
) -> Result<Option<&'a Value>, AllocError>
    ensures value { IfOk result
        (λ found. option_map (λ v. view v.now) found ≡ evaluate (view document.now) pointer.now) }
    ensures without_memory { All (λ b. b ≢ tilde) pointer.now → IsOk result }
{
    if pointer.is_empty() {
        return Ok(Some(document));
    }
    match pointer.strip_prefix('/') {
        Some(tokens) => value_along(alloc, document, tokens),
        None => Ok(None),
    }
}

// The value that the tokens lead to, which are between `/`s.
fn value_along<'a>(
    alloc: Global,
    document: &'a Value,
    text: &str,
) -> Result<Option<&'a Value>, AllocError>
    ensures value { IfOk result
        (λ found. option_map (λ v. view v.now) found
        ≡ along (view document.now) (tokens text.now)) }
    ensures without_memory { All (λ b. b ≢ tilde) text.now → IsOk result }
{
    let mut target = document;
    let mut rest = text;
    'tokens: while let Some((token, more)) = rest.split_once('/') {
        match step(alloc, target, token)? {
            Some(value) => target = value,
            None => return Ok(None),
        }
        rest = more;
    }
    step(alloc, target, rest)
}

// The element or the member that a token names.
fn step<'a>(alloc: Global, target: &'a Value, token: &str) -> Result<Option<&'a Value>, AllocError>
    ensures value { IfOk result
        (λ found. option_map (λ v. view v.now) found
        ≡ next (view target.now) (unescape token.now)) }
    ensures without_memory { All (λ b. b ≢ tilde) token.now → IsOk result }
{
    let key = unescape_segment(alloc, token)?;
    if !target.is_array() {
        return Ok(target.get(key.as_str()));
    }
    let Some(index) = parse_index(key.as_str()) else {
        return Ok(None);
    };
    Ok(target.get(index))
}

/// The index that a reference token stands for: digits, with no `0` before another digit, of a number that a `usize`
/// holds (RFC 6901, section 4).
///
/// Nothing for any other text. Takes no memory, and is one pass.
pub fn parse_index(s: &str) -> Option<usize>
    ensures value { result ≡ index_of s.now }
{
    if s.starts_with('+') || (s.starts_with('0') && s.len() != 1) {
        return None;
    }
    s.parse().ok()
}
