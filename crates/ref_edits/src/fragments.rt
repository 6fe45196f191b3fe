//! The text of a reference after a change of its fragment.
use percent_encoding::{DecodeError, percent_decode};
use ref_fixes::as_fragment;
use ref_parts::write_escaped_str;
use ref_uri::parts::parts;
use std::alloc::{AllocError, Global};

/// The text that a fragment means (RFC 3986, 2.1): nothing where its bytes are no UTF-8.
pub(crate) fn decoded_fragment(
    alloc: Global,
    fragment: &str,
) -> Result<Option<String>, AllocError> {
    match percent_decode(fragment.as_bytes()).decode_utf8(alloc) {
        Ok(text) => Ok(Some(text.into_owned(alloc)?)),
        Err(DecodeError::OutOfMemory) => Err(AllocError),
        Err(DecodeError::Utf8(_)) => Ok(None),
    }
}

/// A reference whose fragment is a JSON Pointer, with another key in place of that of the token with a number, from 0. All else of the text stays as it is written, unless
/// the slashes between tokens are encoded: then the whole fragment is written anew. The new token is percent-encoded where a fragment asks for it, and a `?` where the fragment
/// has none as it is; in small letters where it has triples in small letters. Fails only if out of memory. Linear in both.
pub(crate) fn with_token(
    alloc: Global,
    reference: &str,
    number: usize,
    key: &str,
) -> Result<String, AllocError> {
    let (front, fragment) = parts(reference);
    let mut out = String::from_str(alloc, front)?;
    out.push('#')?;
    if has_plain_slashes(fragment) {
        push_with_token(alloc, &mut out, fragment, number, key)?;
    } else {
        push_anew(alloc, &mut out, fragment, number, key)?;
    }
    Ok(out)
}

// Whether no slash of a fragment is encoded.
fn has_plain_slashes(fragment: &str) -> bool {
    !fragment.contains("%2F") && !fragment.contains("%2f")
}

// Adds the tokens of a fragment, one of them for another key.
fn push_with_token(
    alloc: Global,
    out: &mut String,
    fragment: &str,
    number: usize,
    key: &str,
) -> Result<(), AllocError> {
    let rest = fragment.strip_prefix('/').unwrap_or(fragment);
    for (place, token) in rest.split('/').enumerate() {
        if place == number {
            push_key(alloc, out, fragment, key)?;
        } else {
            out.push('/')?;
            out.push_str(token)?;
        }
    }
    Ok(())
}

// The same, each token written anew.
fn push_anew(
    alloc: Global,
    out: &mut String,
    fragment: &str,
    number: usize,
    key: &str,
) -> Result<(), AllocError> {
    let Some(pointer) = decoded_fragment(alloc, fragment)? else {
        return out.push_str(fragment);
    };
    let mut made = String::new(alloc);
    let rest = pointer.as_str().strip_prefix('/').unwrap_or("");
    for (place, token) in rest.split('/').enumerate() {
        made.push('/')?;
        if place == number {
            write_escaped_str(&mut made, key)?;
        } else {
            made.push_str(token)?;
        }
    }
    out.push_str(as_fragment(alloc, made.as_str())?.as_str())
}

// Adds a slash and the token of a key, written as a fragment writes its tokens.
fn push_key(alloc: Global, out: &mut String, fragment: &str, key: &str) -> Result<(), AllocError> {
    let mut token = String::from_str(alloc, "/")?;
    write_escaped_str(&mut token, key)?;
    let encoded = as_fragment(alloc, token.as_str())?;
    push_like(out, encoded.as_str(), Style::of(fragment))
}

// How a fragment is written.
#[derive(Clone, Copy, Drop)]
struct Style {
    // Whether it has question marks as they are (RFC 3986, 3.5).
    has_marks: bool,
    // Whether it has triples in small letters.
    is_small: bool,
}

impl Style {
    fn of(fragment: &str) -> Style {
        Style {
            has_marks: fragment.contains('?'),
            is_small: has_small_triple(fragment),
        }
    }
}

// Whether a percent-encoded byte is in small letters, as `%7b`.
fn has_small_triple(fragment: &str) -> bool {
    fragment.split('%').skip(1).any(begins_small)
}

// Whether the first or the second of two digits is a small letter.
fn begins_small(digits: &str) -> bool {
    digits
        .as_bytes()
        .iter()
        .take(2)
        .any(|byte| matches!(*byte, b'a'..=b'f'))
}

// Adds an encoded text in a style.
fn push_like(out: &mut String, encoded: &str, style: Style) -> Result<(), AllocError> {
    for (place, piece) in encoded.split('%').enumerate() {
        if place == 0 {
            out.push_str(piece)?;
        } else if style.has_marks && piece.starts_with("3F") {
            out.push('?')?;
            out.push_str(piece.get(2..).unwrap_or(""))?;
        } else {
            push_triple(out, piece, style.is_small)?;
        }
    }
    Ok(())
}

// Adds a percent-encoded byte, and what follows its digits.
fn push_triple(out: &mut String, piece: &str, is_small: bool) -> Result<(), AllocError> {
    out.push('%')?;
    for (place, digit) in piece.chars().enumerate() {
        if is_small && place < 2 {
            out.push(digit.to_ascii_lowercase())?;
        } else {
            out.push(digit)?;
        }
    }
    Ok(())
}

/// A reference with another anchor in its fragment.
pub(crate) fn with_anchor(
    alloc: Global,
    reference: &str,
    name: &str,
) -> Result<String, AllocError> {
    let (front, _) = parts(reference);
    format!(in alloc; "{front}#{name}")
}
