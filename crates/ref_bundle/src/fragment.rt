//! The fragment of a reference: a name, or a pointer, whose first keys count here.
ghost use Rattle.std.specs.Prelude.{◌≡◌, ◌∷◌, Some, option_map, option_and_then, slice_get, string_bytes, IfOk};
ghost use Rattle.ref_parts.specs.Pointer.{slash, tokens, unescape};
ghost use Rattle.ref_bundle.specs.Bundle.{is_name, pointer_in, key_at, second_key};

use percent_encoding::{DecodeError, percent_decode};
use referencing::unescape_segment;
use std::alloc::{AllocError, Global};

/// Whether a fragment is a name: not empty, and no pointer.
pub(crate) fn is_name(fragment: &str) -> bool
    ensures value { result ≡ is_name fragment.now }
{
    !matches!(fragment.as_bytes(), [] | [b'/', ..])
}

// What is before the first `/` of a text, or the whole.
fn first_token(text: &str) -> &str
    ensures { Some result.now ≡ slice_get (tokens text.now) 0 }
{
    match text.split_once('/') {
        Some((token, _)) => token,
        None => text,
    }
}

// What is after the first `/` of a text, up to the next one or the end.
fn second_token(text: &str) -> Option<&str>
    ensures { option_map (λ t. t.now) result ≡ slice_get (tokens text.now) 1 }
{
    match text.split_once('/') {
        Some((_, more)) => Some(first_token(more)),
        None => None,
    }
}

// The key that a token is.
fn key_of(alloc: Global, token: &str) -> Result<String, AllocError>
    ensures { IfOk result (λ key. string_bytes key ≡ unescape token.now) }
{
    let key = unescape_segment(alloc, token)?;
    String::from_str(alloc, key.as_str())
}

// The second key of a pointer's text, where the first is this one.
fn second_in(alloc: Global, first: &str, text: &str) -> Result<Option<String>, AllocError>
    ensures { IfOk result (λ o. option_map string_bytes o ≡ second_key first.now text.now) }
{
    let key = key_of(alloc, first_token(text))?;
    if key.as_str() != first {
        return Ok(None);
    }
    match second_token(text) {
        Some(token) => Ok(Some(key_of(alloc, token)?)),
        None => Ok(None),
    }
}

// The text of a pointer after its first `/`, where it is UTF-8 when it is decoded.
fn decoded(alloc: Global, text: &str) -> Result<Option<String>, AllocError>
    ensures { IfOk result
        (λ o. option_map string_bytes o ≡ pointer_in (slash ∷ text.now)) }
{
    match percent_decode(text.as_bytes()).decode_utf8(alloc) {
        Ok(decoded) => Ok(Some(String::from_str(alloc, decoded.as_str())?)),
        Err(DecodeError::OutOfMemory) => Err(AllocError),
        Err(DecodeError::Utf8(_)) => Ok(None),
    }
}

// The text of a fragment that is a pointer, after its first `/`.
fn pointer_in(alloc: Global, fragment: &str) -> Result<Option<String>, AllocError>
    ensures { IfOk result (λ o. option_map string_bytes o ≡ pointer_in fragment.now) }
{
    match fragment.strip_prefix('/') {
        Some(text) => decoded(alloc, text),
        None => Ok(None),
    }
}

/// The first key of a fragment that is a pointer (RFC 6901, sections 3, 4 and 6). Takes memory for it.
pub(crate) fn first_key(alloc: Global, fragment: &str) -> Result<Option<String>, AllocError>
    ensures value { IfOk result (λ o. option_map string_bytes o
        ≡ option_and_then (key_at 0) (pointer_in fragment.now)) }
{
    match pointer_in(alloc, fragment)? {
        Some(text) => Ok(Some(key_of(alloc, first_token(text.as_str()))?)),
        None => Ok(None),
    }
}

/// The second key of a fragment that is a pointer, where the first is this one. Takes memory for both.
pub(crate) fn second_key(
    alloc: Global,
    first: &str,
    fragment: &str,
) -> Result<Option<String>, AllocError>
    ensures value { IfOk result (λ o. option_map string_bytes o
        ≡ option_and_then (second_key first.now) (pointer_in fragment.now)) }
{
    match pointer_in(alloc, fragment)? {
        Some(text) => second_in(alloc, first, text.as_str()),
        None => Ok(None),
    }
}
