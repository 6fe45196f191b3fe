//! Numbers of the core schema, as JSON has them (10.3.2).
ghost use Rattle.std.specs.Prelude.{◌≡◌, ◌≤◌, ◌==◌, ◌||◌, ◌∷◌, ◌++◌, [], Some, IsTrue, IfOk, OnOk, IfSome, is_some, drop, slice_index, if◌then◌else◌};
ghost use Rattle.serde_json.specs.Data.{number, unsigned};
ghost use Rattle.ref_yaml.specs.Core as spec;
ghost use Rattle.ref_yaml.specs.Passing.{parts_in};

use std::alloc::{AllocError, Global};

fn is_sign(byte: u8) -> bool
    ensures value { result ≡ (byte == 45) || (byte == 43) }
{
    matches!(byte, b'-' | b'+')
}

// A text after its sign.
pub(crate) fn after_sign(text: &[u8]) -> &[u8]
    ensures value { result.now ≡ spec.after_sign text.now }
{
    if is_sign(byte_at(text, 0)) {
        return &text[1..];
    }
    text
}

// The digits that a text begins with, and what is after them.
fn split_digits(text: &[u8]) -> (&[u8], &[u8])
    ensures digits { result.0.now ≡ spec.digits text.now }
    ensures rest { result.1.now ≡ spec.after_digits text.now }
{
    for (at, byte) in text.iter().enumerate() {
        if !byte.is_ascii_digit() {
            return (&text[..at], &text[at..]);
        }
    }
    (text, &[])
}

// The digits after the point that a text begins with, and what is after them.
fn split_fraction(text: &[u8]) -> (&[u8], &[u8])
    ensures digits { result.0.now ≡ spec.fraction text.now }
    ensures rest { result.1.now ≡ spec.after_fraction text.now }
{
    if byte_at(text, 0) == b'.' {
        return split_digits(&text[1..]);
    }
    (&[], text)
}

fn are_digits(text: &[u8]) -> bool
    ensures value { result ≡ spec.are_digits text.now }
{
    let (digits, rest) = split_digits(text);
    !digits.is_empty() && rest.is_empty()
}

// Whether an exponent, or nothing, is all that a text is.
fn is_exponent(text: &[u8]) -> bool
    ensures value { result ≡ spec.is_exponent text.now }
{
    match text.split_first() {
        Some((first, rest)) => matches!(*first, b'e' | b'E') && are_digits(after_sign(rest)),
        None => true,
    }
}

// The parts of a decimal number.
#[derive(Clone, Copy, Drop)]
pub(crate) struct Decimal<'t> {
    is_negative: bool,
    whole: &'t [u8],
    has_point: bool,
    fraction: &'t [u8],
    exponent: &'t [u8],
}

// The byte at an index, or 0 at the end.
pub(crate) fn byte_at(text: &[u8], at: usize) -> u8
    ensures value { result ≡ slice_index text.now at }
{
    text.get(at).copied().unwrap_or(0)
}

// The parts of a text that is a decimal number.
#[tactic(auto, unfolding(crate::specs::Core::parts_of))]
pub(crate) fn decimal_of(text: &[u8]) -> Option<Decimal<'_>>
    ensures is_one { is_some result ≡ spec.is_decimal (spec.parts_of text.now) }
    ensures parts { IfSome result (λ d. parts_in d ≡ spec.parts_of text.now) }
{
    let (whole, after) = split_digits(after_sign(text));
    let (fraction, exponent) = split_fraction(after);
    if (whole.is_empty() && fraction.is_empty()) || !is_exponent(exponent) {
        return None;
    }
    Some(Decimal {
        is_negative: byte_at(text, 0) == b'-',
        whole,
        has_point: byte_at(after, 0) == b'.',
        fraction,
        exponent,
    })
}

// Digits without zeros before them, and one at least.
fn without_zeros(digits: &[u8]) -> &[u8]
    ensures value { result.now ≡ spec.without_zeros digits.now }
{
    for (at, digit) in digits.iter().enumerate() {
        if *digit != b'0' {
            return &digits[at..];
        }
    }
    &[b'0']
}

// Whether JSON may have these digits before a point.
pub(crate) fn is_json_whole(digits: &[u8]) -> bool
    ensures value { IsTrue result → spec.without_zeros digits.now ≡ digits.now }
{
    !digits.is_empty() && (byte_at(digits, 0) != b'0' || digits.len() == 1)
}

fn sign_of(is_negative: bool) -> &'static [u8]
    ensures value { result.now ≡ (if is_negative then 45 ∷ [] else []) }
{
    if is_negative {
        return &[b'-'];
    }
    &[]
}

// Adds a point and the digits after it, one at least.
fn push_fraction(out: &mut Vec<u8>, has_point: bool, digits: &[u8]) -> Result<(), AllocError>
    ensures value { OnOk result
        (out.new.items ≡ out.old.items ++ spec.with_point has_point digits.now) }
{
    if !has_point {
        return Ok(());
    }
    out.push(b'.')?;
    if digits.is_empty() {
        out.push(b'0')?;
        return Ok(());
    }
    out.extend_from_slice(digits)?;
    Ok(())
}

// Whether JSON may have these digits after a point, or none.
fn is_json_fraction(has_point: bool, digits: &[u8]) -> bool
    ensures value { IsTrue result
        → spec.with_point has_point digits.now ≡ (if has_point then 46 ∷ digits.now else []) }
{
    !has_point || !digits.is_empty()
}

impl Decimal<'_> {
    // Whether JSON writes it as it stands in the text that it is.
    pub(crate) fn is_json(&self, text: &[u8]) -> bool
        ensures value { parts_in self.now ≡ spec.parts_of text.now → IsTrue result
            → spec.as_json (spec.parts_of text.now) ≡ text.now }
    {
        if byte_at(text, 0) == b'+' || !is_json_fraction(self.has_point, self.fraction) {
            return false;
        }
        is_json_whole(self.whole)
    }

    // It as JSON writes it: no sign `+`, no zeros in front, and digits on both sides of a point.
    pub(crate) fn to_json(&self, alloc: Global) -> Result<Vec<u8>, AllocError>
        ensures value { IfOk result (λ v. v.items ≡ spec.as_json (parts_in self.now)) }
    {
        let mut out = Vec::new(alloc);
        out.extend_from_slice(sign_of(self.is_negative))?;
        out.extend_from_slice(without_zeros(self.whole))?;
        push_fraction(&mut out, self.has_point, self.fraction)?;
        out.extend_from_slice(self.exponent)?;
        Ok(out)
    }
}

fn radix_of(is_hex: bool) -> u32
    ensures value { result ≡ (if is_hex then 16 else 8) }
    ensures low { 2 ≤ result }
    ensures high { result ≤ 36 }
{
    if is_hex { 16 } else { 8 }
}

fn are_digits_in(digits: &[u8], is_hex: bool) -> bool
    ensures value { result ≡ spec.are_digits_in (if is_hex then 16 else 8) digits.now }
{
    let radix = radix_of(is_hex);
    for byte in digits {
        if !char::from(*byte).is_digit(radix) {
            return false;
        }
    }
    true
}

// Whether a text is `0`, a letter, and digits.
pub(crate) fn is_in_radix(text: &[u8], letter: u8, is_hex: bool) -> bool
    ensures value { result ≡ spec.is_in_radix letter (if is_hex then 16 else 8) text.now }
{
    byte_at(text, 0) == b'0'
        && byte_at(text, 1) == letter
        && text.len() > 2
        && are_digits_in(&text[2..], is_hex)
}

// The number that the digits after `0` and a letter write, where it fits.
pub(crate) fn number_in(text: &[u8], is_hex: bool) -> Option<u64>
    ensures value { IfSome result (λ n. spec.digits_number (if is_hex then 16 else 8) (drop 2 text.now)
        ≡ Some (number (unsigned n))) }
{
    if text.len() < 3 || byte_at(text, 2) == b'+' {
        return None;
    }
    let digits = std::str::from_utf8(&text[2..]).ok()?;
    u64::from_str_radix(digits, radix_of(is_hex)).ok()
}
