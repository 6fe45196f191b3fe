//! Keys and indexes as the reference tokens of pointer text (RFC 6901, sections 3 and 4), and tokens as keys.
ghost use Rattle.std.specs.Prelude.{◌≡◌, ◌≢◌, ◌+◌, ◌<◌, ◌≤◌, ◌∷◌, ◌++◌, length, take, decimal, string_bytes, string_len, string_capacity, All, OnOk, OnErr, IfOk, IsOkAnd, IsUtf8};
ghost use Rattle.std.specs.Cow.{cow_str_bytes};
ghost use Rattle.percent_encoding.specs.Cow.{IsBorrowedStr};
ghost use Rattle.ref_parts.specs.Pointer.{escape, unescape, first_escape as escape_position, is_escaped, tilde};

use crate::scan::{first_in_rest, first_in_words};
use std::alloc::{AllocError, Global};
use std::borrow::CowStr;

/// Where the first `~` or `/` is, the bytes that a reference token writes escaped (RFC 6901, section 3).
///
/// Takes no memory, and is one pass up to that byte.
pub fn first_escape(bytes: &[u8]) -> Option<usize>
    ensures value { result ≡ escape_position bytes.now }
{
    let (words, rest) = bytes.as_chunks::<8>();
    match first_in_words(words) {
        Some(place) => Some(place),
        None => match first_in_rest(rest) {
            Some(place) => Some(words.len() * 8 + place),
            None => None,
        },
    }
}

/// Appends the decimal text of an index.
///
/// Takes memory only where the buffer's room is too small for those digits, at most 20. Refused where there is none, and
/// then the buffer is as it was.
pub fn write_index(buffer: &mut String, idx: usize) -> Result<(), AllocError>
    ensures ok { OnOk result (string_bytes buffer.new ≡ string_bytes buffer.old ++ decimal idx) }
    ensures err { OnErr result (string_bytes buffer.new ≡ string_bytes buffer.old) }
    ensures full { OnErr result
        (string_capacity buffer.old < string_len buffer.old + length (decimal idx)) }
{
    let mut digits = itoa::Buffer::new();
    buffer.push_str(digits.format(idx))
}

/// Appends a key as a reference token: `~` becomes `~0`, and `/` becomes `~1` (RFC 6901, section 3).
///
/// Refused where there is no memory for it, and then the buffer's text is as it was. One pass: the runs between escapes
/// are copied whole. Room for the key is reserved once, and the buffer grows a second time at most, where the escapes
/// don't fit.
pub fn write_escaped_str(buffer: &mut String, value: &str) -> Result<(), AllocError>
    ensures ok { OnOk result
        (string_bytes buffer.new ≡ string_bytes buffer.old ++ escape value.now) }
    ensures err { OnErr result (string_bytes buffer.new ≡ string_bytes buffer.old) }
    ensures full { OnErr result
        (string_capacity buffer.old < string_len buffer.old + length (escape value.now)) }
{
    let len = buffer.len();
    let pushed = push_escaped(buffer, value);
    if pushed.is_err() {
        buffer.truncate(len);
    }
    pushed
}

// Appends the escaped text, or a front of it where there is no memory for the whole.
fn push_escaped(buffer: &mut String, value: &str) -> Result<(), AllocError>
    ensures ok { OnOk result
        (string_bytes buffer.new ≡ string_bytes buffer.old ++ escape value.now) }
    ensures err { OnErr result
        (take (string_len buffer.old) (string_bytes buffer.new) ≡ string_bytes buffer.old) }
    ensures full { OnErr result
        (string_capacity buffer.old < string_len buffer.old + length (escape value.now)) }
{
    buffer.reserve(value.len())?;
    let mut rest = value;
    'runs: while let Some(index) = first_escape(rest.as_bytes()) {
        let (run, _) = rest.split_at(index);
        buffer.push_str(run)?;
        let token = if rest.as_bytes()[index] == b'~' {
            "~0"
        } else {
            "~1"
        };
        buffer.push_str(token)?;
        rest = &rest[index + 1..];
    }
    buffer.push_str(rest)
}

/// A reference token as a key: first every `~1` becomes `/`, then every `~0` becomes `~` (RFC 6901, section 4).
///
/// A token without `~` is borrowed and takes no memory. Else the key takes memory once, and is refused where there is
/// none. One pass.
pub fn unescape_segment(alloc: Global, segment: &str) -> Result<CowStr<'_>, AllocError>
    ensures value { IfOk result (λ key. cow_str_bytes key ≡ unescape segment.now) }
    ensures borrows { All (λ b. b ≢ tilde) segment.now → IsOkAnd result IsBorrowedStr }
{
    let Some((front, escaped)) = segment.split_once('~') else {
        return Ok(CowStr::Borrowed(segment));
    };
    let mut key = String::with_capacity(alloc, segment.len())?;
    key.push_str(front)?;
    push_unescaped(&mut key, escaped)?;
    Ok(CowStr::Owned(key))
}

// Appends what a `~` and the text after it stand for.
fn push_unescaped(key: &mut String, escaped: &str) -> Result<(), AllocError>
    ensures { OnOk result
        (string_bytes key.new ≡ string_bytes key.old ++ unescape (tilde ∷ escaped.now)) }
{
    let mut rest = push_escape(key, escaped)?;
    'runs: while let Some((run, after)) = rest.split_once('~') {
        key.push_str(run)?;
        rest = push_escape(key, after)?;
    }
    key.push_str(rest)
}

// Appends the one byte that a `~` before this text stands for, and returns what is left of the text.
fn push_escape<'a>(key: &mut String, after: &'a str) -> Result<&'a str, AllocError>
    ensures byte { IfOk result
        (λ rest. string_bytes key.new ++ unescape rest.now
        ≡ string_bytes key.old ++ unescape (tilde ∷ after.now)) }
    ensures text { IfOk result (λ rest. IsUtf8 rest.now) }
    ensures shorter { IfOk result (λ rest. length rest.now ≤ length after.now) }
{
    if let Some(rest) = after.strip_prefix('1') {
        key.push('/')?;
        Ok(rest)
    } else if let Some(rest) = after.strip_prefix('0') {
        key.push('~')?;
        Ok(rest)
    } else {
        key.push('~')?;
        Ok(after)
    }
}
