//! Escapes in double quotes (5.7).
ghost use Rattle.std.specs.Prelude.{◌≡◌, ◌<◌, ◌≤◌, ◌^◌, ◌++◌, ℕ, List, Some, None, false, All, IfOk, OnOk, IfSome, IsTrue, drop, length, option_map, take};
ghost use Rattle.std.specs.Char.{encode_utf8};
ghost use Rattle.ref_yaml.specs.Escapes.{short_escape, digits_of, hex_digit, is_first, is_second, character_of, number_text, by_letter, by_number, by_digit, by_byte, nothing_read, unescaped};
ghost use Rattle.ref_yaml.specs.Passing.{IsWithoutMark, Passes, reading_of};

use std::alloc::{AllocError, Global};

// The character of an escape without digits, by its letter.
pub(crate) fn short_escape(byte: u8) -> Option<char>
    ensures value { result ≡ short_escape byte }
{
    match byte {
        b'0' => Some('\0'),
        b'a' => Some('\u{7}'),
        b'b' => Some('\u{8}'),
        b't' | b'\t' => Some('\t'),
        b'n' => Some('\n'),
        b'v' => Some('\u{b}'),
        b'f' => Some('\u{c}'),
        b'r' => Some('\r'),
        b'e' => Some('\u{1b}'),
        b' ' => Some(' '),
        b'"' => Some('"'),
        b'/' => Some('/'),
        b'\\' => Some('\\'),
        b'N' => Some('\u{85}'),
        b'_' => Some('\u{a0}'),
        b'L' => Some('\u{2028}'),
        b'P' => Some('\u{2029}'),
        _ => None,
    }
}

// How many digits an escape has, by its letter.
pub(crate) fn digits_of(byte: u8) -> usize
    ensures value { result ≡ digits_of byte }
{
    match byte {
        b'x' => 2,
        b'u' => 4,
        b'U' => 8,
        _ => 0,
    }
}

// The number of a hexadecimal digit.
pub(crate) fn hex_digit(byte: u8) -> Option<u32>
    ensures value { result ≡ hex_digit byte }
    ensures small { IfSome result (λ d. d < 16) }
{
    if b'0' <= byte && byte <= b'9' {
        return Some(u32::from(byte - b'0'));
    }
    if b'a' <= byte && byte <= b'f' {
        return Some(u32::from(byte - 87));
    }
    if b'A' <= byte && byte <= b'F' {
        return Some(u32::from(byte - 55));
    }
    None
}

// Whether a number is the first of two that are one character.
pub(crate) fn is_first(number: u32) -> bool
    ensures value { result ≡ is_first number }
{
    0xd800 <= number && number < 0xdc00
}

// The character of a number, after the first of two or 0.
pub(crate) fn character_of(first: u32, number: u32) -> Option<char>
    ensures value { result ≡ character_of first number }
{
    if first == 0 {
        return char::from_u32(number);
    }
    if is_first(first) && 0xdc00 <= number && number < 0xe000 {
        return char::from_u32(0x10000 + (first - 0xd800) * 1024 + (number - 0xdc00));
    }
    None
}

fn push_character(out: &mut Vec<u8>, character: char) -> Result<(), AllocError>
    ensures value { OnOk result (out.new.items ≡ out.old.items ++ encode_utf8 character) }
{
    let mut buffer = [0; 4];
    let text = character.encode_utf8(&mut buffer);
    out.extend_from_slice(text.as_bytes())
}

// Adds the character of a number, and returns the first of two that it is, or 0; or nothing where it is no character.
fn push_number(out: &mut Vec<u8>, first: u32, number: u32) -> Result<Option<u32>, AllocError>
    ensures wrong { IfOk result (λ o. o ≡ None → number_text first number ≡ None) }
    ensures value { IfOk result (λ o. IfSome o (λ f. (s : List ℕ)
        × (number_text first number ≡ Some (s, f)) × (out.new.items ≡ out.old.items ++ s))) }
{
    if first == 0 && is_first(number) {
        return Ok(Some(number));
    }
    let Some(character) = character_of(first, number) else {
        return Ok(None);
    };
    push_character(out, character)?;
    Ok(Some(0))
}

// How much of an escape is read.
#[derive(Clone, Copy, Drop)]
pub(crate) struct Reading {
    pub(crate) after: bool,
    pub(crate) left: usize,
    pub(crate) number: u32,
    pub(crate) first: u32,
}

// Passes the letter of an escape.
fn pass_letter(out: &mut Vec<u8>, first: u32, byte: u8) -> Result<Option<Reading>, AllocError>
    ensures value { IfOk result (Passes (by_letter first byte) out.old.items out.new.items) }
{
    if 0 < first && byte != b'u' {
        return Ok(None);
    }
    let left = digits_of(byte);
    if left == 0 {
        let Some(character) = short_escape(byte) else {
            return Ok(None);
        };
        push_character(out, character)?;
    }
    Ok(Some(Reading {
        after: false,
        left,
        number: 0,
        first,
    }))
}

// Passes the number of so many digits.
fn pass_number(
    out: &mut Vec<u8>,
    left: usize,
    first: u32,
    number: u32,
) -> Result<Option<Reading>, AllocError>
    requires { 0 < left }
    ensures value { IfOk result (Passes (by_number left first number) out.old.items out.new.items) }
{
    if 1 < left {
        return Ok(Some(Reading {
            after: false,
            left: left - 1,
            number,
            first,
        }));
    }
    let Some(next) = push_number(out, first, number)? else {
        return Ok(None);
    };
    Ok(Some(Reading {
        after: false,
        left: 0,
        number: 0,
        first: next,
    }))
}

// Passes a digit.
fn pass_digit(out: &mut Vec<u8>, reading: &Reading, byte: u8) -> Result<Option<Reading>, AllocError>
    requires { 0 < reading.now.left }
    ensures value { IfOk result (Passes (by_digit reading.now.left reading.now.number reading.now.first byte) out.old.items out.new.items) }
{
    if 268_435_455 < reading.number {
        return Ok(None);
    }
    let Some(digit) = hex_digit(byte) else {
        return Ok(None);
    };
    pass_number(
        out,
        reading.left,
        reading.first,
        reading.number * 16 + digit,
    )
}

// Passes a byte.
fn pass_byte(out: &mut Vec<u8>, reading: &Reading, byte: u8) -> Result<Option<Reading>, AllocError>
    ensures value { IfOk result (Passes (by_byte (reading_of reading.now) byte) out.old.items out.new.items) }
{
    if reading.after {
        return pass_letter(out, reading.first, byte);
    }
    if 0 < reading.left {
        return pass_digit(out, reading, byte);
    }
    let after = byte == b'\\';
    if !after {
        if 0 < reading.first {
            return Ok(None);
        }
        out.push(byte)?;
    }
    Ok(Some(Reading {
        after,
        left: 0,
        number: 0,
        first: reading.first,
    }))
}

// Whether nothing of an escape is read.
fn is_outside_of(reading: &Reading) -> bool
    ensures value { IsTrue result → reading_of reading.now ≡ nothing_read }
{
    !reading.after && reading.left == 0 && reading.number == 0 && reading.first == 0
}

// A text with escapes, or nothing.
pub(crate) fn unescaped(alloc: Global, source: &[u8]) -> Result<Option<Vec<u8>>, AllocError>
    ensures value { IfOk result (λ o. option_map (λ v. v.items) o ≡ unescaped source.now) }
{
    let mut out = Vec::with_capacity(alloc, source.len())?;
    let mut reading = Reading {
        after: false,
        left: 0,
        number: 0,
        first: 0,
    };
    for byte in source {
        let Some(next) = pass_byte(&mut out, &reading, *byte)? else {
            return Ok(None);
        };
        reading = next;
    }
    if reading.after || 0 < reading.left || 0 < reading.first {
        return Ok(None);
    }
    Ok(Some(out))
}

// How many bytes are before the first escape, or before a control character.
fn outside_len(source: &[u8]) -> usize
    ensures within { result ≤ length source.now }
    ensures one_line { All (IsWithoutMark 10) (drop result source.now) → All (IsWithoutMark 10) source.now }
    ensures same { option_map (λ s. take result source.now ++ s) (unescaped (drop result source.now))
        ≡ unescaped source.now }
{
    for (at, byte) in source.iter().enumerate() {
        if *byte < 14 || *byte == b'\\' {
            return at;
        }
    }
    source.len()
}

// The bytes after so many.
fn after(source: &[u8], count: usize) -> &[u8]
    ensures value { result.now ≡ drop count source.now }
{
    if count <= source.len() {
        return &source[count..];
    }
    &[]
}

// A text of one line with escapes; nothing where one of them is wrong, or a control character is in it.
pub(crate) fn unescaped_line(alloc: Global, source: &[u8]) -> Result<Option<Vec<u8>>, AllocError>
    ensures value { IfOk result (λ o. IfSome o
        (λ v. All (IsWithoutMark 10) source.now × (unescaped source.now ≡ Some v.items))) }
{
    let begin = outside_len(source);
    let mut out = Vec::with_capacity(alloc, source.len())?;
    out.extend_from_slice(&source[..begin])?;
    let mut reading = Reading {
        after: false,
        left: 0,
        number: 0,
        first: 0,
    };
    let mut is_outside = true;
    let rest = after(source, begin);
    for byte in rest {
        if *byte < 14 {
            return Ok(None);
        }
        if is_outside && *byte != b'\\' {
            out.push(*byte)?;
        } else {
            let Some(next) = pass_byte(&mut out, &reading, *byte)? else {
                return Ok(None);
            };
            is_outside = is_outside_of(&next);
            reading = next;
        }
    }
    if reading.after || 0 < reading.left || 0 < reading.first {
        return Ok(None);
    }
    Ok(Some(out))
}
