//! Where parts of a text are, by what is known of them.
ghost use Rattle.std.specs.Prelude.{◌≡◌, ◌≤◌, ◌∷◌, ◌++◌, false, length, map, option_map, string_bytes, IfOk, IfSome, OnOk};
ghost use Rattle.ref_parts.specs.Pointer.{part_text, pointer_text};
ghost use Rattle.ref_outline.specs.Offsets as spec;
ghost use Rattle.ref_outline.specs.Steps.{decoded, part_of};

use ref_parts::{write_escaped_str, write_index};
use ref_positions::{Format, Part, Step, part_at};
use serde_json::Value;
use std::alloc::{AllocError, Global};

// Whether a byte is the first of a character (RFC 3629, 3).
fn begins_character(byte: u8) -> bool
    ensures { result ≡ spec.begins_character byte }
{
    byte < 128 || 192 <= byte
}

// How many bytes are before a line, from 0: all where there are fewer lines.
fn of_line(text: &[u8], line: usize) -> usize
    ensures value { result ≡ spec.of_line line text.now }
    ensures within { result ≤ length text.now }
{
    let mut rest = text;
    let mut left = line;
    let mut passed: usize = 0;
    'bytes: while let [byte, more @ ..] = rest {
        if left == 0 {
            return passed;
        }
        if *byte == b'\n' {
            left -= 1;
        }
        rest = more;
        passed += 1;
    }
    passed
}

// How many bytes of a line are before a character, from 0: up to its end where it has fewer.
fn of_character(line: &[u8], character: usize) -> usize
    ensures value { result ≡ spec.of_character character line.now }
    ensures within { result ≤ length line.now }
{
    let mut rest = line;
    let mut left = character;
    let mut passed: usize = 0;
    'bytes: while let [byte, more @ ..] = rest {
        if begins_character(*byte) {
            if left == 0 || *byte == b'\n' {
                return passed;
            }
            left -= 1;
        }
        rest = more;
        passed += 1;
    }
    passed
}

/// The offset of a line and a column in characters, each from 1, as findings have them. A line ends after a line feed. A step for each byte
/// before it.
pub fn offset_of(text: &str, line: usize, column: usize) -> usize
    ensures value { result ≡ spec.offset_of line column text.now }
    ensures within { result ≤ length text.now }
{
    let bytes = text.as_bytes();
    let start = of_line(bytes, line.saturating_sub(1));
    start + of_character(&bytes[start..], column.saturating_sub(1))
}

/// The offset after a key or a scalar that begins at an offset; after the first byte of an object or an array in brackets. A step for each of
/// its bytes.
pub fn token_end(text: &str, start: usize) -> usize
    ensures value { start ≤ length text.now → result ≡ spec.token_end start text.now }
    ensures within { start ≤ length text.now → result ≤ length text.now }
{
    let bytes = text.as_bytes();
    if bytes.len() < start {
        return start;
    }
    start + token_count(&bytes[start..])
}

// How many bytes the token has that bytes begin with.
fn token_count(bytes: &[u8]) -> usize
    ensures value { result ≡ spec.token_count bytes.now }
    ensures within { result ≤ length bytes.now }
{
    match bytes {
        [] => 0,
        [first, rest @ ..] => {
            if *first == b'"' {
                1 + quoted_count(rest, b'"', true)
            } else if *first == b'\'' {
                1 + quoted_count(rest, b'\'', false)
            } else if *first == b'{' || *first == b'[' {
                1
            } else {
                plain_count(bytes)
            }
        }
    }
}

// How many bytes are up to a quote, with it, or else to the end of the line.
fn quoted_count(bytes: &[u8], quote: u8, has_escapes: bool) -> usize
    ensures value { result ≡ spec.quoted_count quote has_escapes false bytes.now }
    ensures within { result ≤ length bytes.now }
{
    let mut rest = bytes;
    let mut passed: usize = 0;
    let mut is_escaped = false;
    'bytes: while let [byte, more @ ..] = rest {
        if !is_escaped && *byte == quote {
            return passed + 1;
        }
        if !is_escaped && *byte == b'\n' {
            return passed;
        }
        is_escaped = !is_escaped && has_escapes && *byte == b'\\';
        rest = more;
        passed += 1;
    }
    passed
}

// Whether bytes begin with a blank or the end of a line.
fn begins_with_blank(bytes: &[u8]) -> bool
    ensures { result ≡ spec.begins_with_blank bytes.now }
{
    match bytes {
        [] => true,
        [first, ..] => { *first == b' ' || *first == b'\t' || *first == b'\n' || *first == b'\r' }
    }
}

fn begins_with_hash(bytes: &[u8]) -> bool
    ensures { result ≡ spec.begins_with_hash bytes.now }
{
    match bytes {
        [] => false,
        [first, ..] => *first == b'#',
    }
}

// Whether a scalar without quotes ends before a byte that others follow: at the end of its line, a comma or a bracket that closes, at a colon
// before a blank, or at a blank before a comment.
fn ends_plain(byte: u8, rest: &[u8]) -> bool
    ensures { result ≡ spec.ends_plain byte rest.now }
{
    byte == b'\n'
        || byte == b'\r'
        || byte == b','
        || byte == b'}'
        || byte == b']'
        || (byte == b':' && begins_with_blank(rest))
        || ((byte == b' ' || byte == b'\t') && begins_with_hash(rest))
}

// How many bytes a scalar without quotes has, without the blanks at its end.
fn plain_count(bytes: &[u8]) -> usize
    ensures value { result ≡ spec.plain_count 0 0 bytes.now }
    ensures within { result ≤ length bytes.now }
{
    let mut rest = bytes;
    let mut passed: usize = 0;
    let mut end: usize = 0;
    'bytes: while let [byte, more @ ..] = rest {
        if ends_plain(*byte, more) {
            return end;
        }
        passed += 1;
        if *byte != b' ' && *byte != b'\t' {
            end = passed;
        }
        rest = more;
    }
    end
}

/// The pointer of steps (RFC 6901).
#[tactic(auto, using(crate::proofs::Steps::one_step))]
pub fn pointer_of_steps(alloc: Global, steps: &[Step]) -> Result<String, AllocError>
    ensures value { IfOk result
        (λ pointer. string_bytes pointer ≡ pointer_text (map part_of steps.now)) }
{
    let mut pointer = String::new(alloc);
    for step in steps {
        push_step(&mut pointer, step)?;
    }
    Ok(pointer)
}

// Adds a step to a pointer.
fn push_step(pointer: &mut String, step: &Step) -> Result<(), AllocError>
    ensures value { OnOk result (string_bytes pointer.new
        ≡ string_bytes pointer.old ++ 47 ∷ part_text (part_of step.now)) }
{
    pointer.push('/')?;
    match step {
        Step::Member(key) => write_escaped_str(pointer, key.as_str()),
        Step::Item(index) => write_index(pointer, *index),
    }
}

/// The part of a text at an offset: of two that touch there, as a key and a colon, the shorter.
pub fn part_in(
    alloc: Global,
    format: Format,
    text: &str,
    offset: usize,
) -> Result<Option<Part>, AllocError>
    ensures around { IfOk result
        (λ found. IfSome found (λ part. (part.start ≤ offset) × (offset ≤ part.end))) }
    ensures within { IfOk result
        (λ found. IfSome found (λ part. part.end ≤ length text.now)) }
{
    part_at(alloc, format, text, offset)
}

/// The text that a scalar in quotes of JSON is.
pub fn decoded(alloc: Global, token: &str) -> Result<Option<String>, AllocError>
    ensures value { IfOk result (λ text. option_map string_bytes text ≡ decoded token.now) }
{
    match Value::from_str(alloc, token) {
        Ok(Value::String(text)) => Ok(Some(text)),
        Ok(other) => {
            drop(other);
            Ok(None)
        }
        Err(error) => {
            let is_memory = error.is_memory();
            drop(error);
            if is_memory { Err(AllocError) } else { Ok(None) }
        }
    }
}
