//! Which characters may be in which component, and runs of them (RFC 3986, 2 and 3).
ghost use Rattle.std.specs.Prelude.{◌≡◌, ◌≤◌, ◌<◌, ◌+◌, ℕ, IsTrue, slice_index, take, drop, length, true, false, is_ok, IfOk, IfErr, ◌==◌};
ghost use Rattle.std.specs.List.{before_first, position_or_len, prefix_len};
ghost use Rattle.std.specs.Char.{is_ascii_hexdigit};
ghost use Rattle.ref_uri.specs.Characters.{is_unreserved, is_scheme_character, is_path_character, is_encoded};
ghost use Rattle.ref_uri.specs.inner.Scans.{begins_with_triple, begins_encoded};
ghost use Rattle.ref_uri.specs.inner.Class.{allows, ends};

use crate::blocks::BLOCK;
use crate::error::ParseError;
use std::simd::prelude::*;

// What a character is, or where it may be.
const UNRESERVED: u8 = 1;

const SCHEME: u8 = 2;

const HEX: u8 = 4;

const NAME: u8 = 8;

const FIRST_SEGMENT: u8 = 16;

const USERINFO: u8 = 32;

const PATH: u8 = 64;

const QUERY: u8 = 128;

// No part may hold the character.
const NO: u8 = 0;

// Hex digits.
const HX: u8 = 255;

// The other letters, `-` and `.`.
const LE: u8 = 251;

// `_` and `~`.
const UN: u8 = 249;

// `+`.
const PL: u8 = 250;

// The other sub-delims.
const SD: u8 = 248;

// `:`.
const CO: u8 = 224;

// `@`.
const AT: u8 = 208;

// `/`.
const SL: u8 = 192;

// `?`.
const QU: u8 = 128;

// For each byte what holds of it.
static FLAGS: [u8; 256] = [
    NO, NO, NO, NO, NO, NO, NO, NO, NO, NO, NO, NO, NO, NO, NO, NO, NO, NO, NO, NO, NO, NO, NO, NO,
    NO, NO, NO, NO, NO, NO, NO, NO, NO, SD, NO, NO, SD, NO, SD, SD, SD, SD, SD, PL, SD, LE, LE, SL,
    HX, HX, HX, HX, HX, HX, HX, HX, HX, HX, CO, SD, NO, SD, NO, QU, AT, HX, HX, HX, HX, HX, HX, LE,
    LE, LE, LE, LE, LE, LE, LE, LE, LE, LE, LE, LE, LE, LE, LE, LE, LE, LE, LE, NO, NO, NO, NO, UN,
    NO, HX, HX, HX, HX, HX, HX, LE, LE, LE, LE, LE, LE, LE, LE, LE, LE, LE, LE, LE, LE, LE, LE, LE,
    LE, LE, LE, NO, NO, NO, UN, NO, NO, NO, NO, NO, NO, NO, NO, NO, NO, NO, NO, NO, NO, NO, NO, NO,
    NO, NO, NO, NO, NO, NO, NO, NO, NO, NO, NO, NO, NO, NO, NO, NO, NO, NO, NO, NO, NO, NO, NO, NO,
    NO, NO, NO, NO, NO, NO, NO, NO, NO, NO, NO, NO, NO, NO, NO, NO, NO, NO, NO, NO, NO, NO, NO, NO,
    NO, NO, NO, NO, NO, NO, NO, NO, NO, NO, NO, NO, NO, NO, NO, NO, NO, NO, NO, NO, NO, NO, NO, NO,
    NO, NO, NO, NO, NO, NO, NO, NO, NO, NO, NO, NO, NO, NO, NO, NO, NO, NO, NO, NO, NO, NO, NO, NO,
    NO, NO, NO, NO, NO, NO, NO, NO, NO, NO, NO, NO, NO, NO, NO, NO,
];

#[inline]
fn flags_of(c: u8) -> u8
    ensures { result ≡ slice_index FLAGS c }
{
    FLAGS[c as usize]
}

/// Unreserved characters (RFC 3986, 2.3). A look-up.
#[inline]
pub fn is_unreserved(c: u8) -> bool
    ensures { result ≡ is_unreserved c }
{
    FLAGS[c as usize] & UNRESERVED != 0
}

/// What may follow the first letter of a scheme (RFC 3986, 3.1). A look-up.
#[inline]
pub fn is_scheme_character(c: u8) -> bool
    ensures { result ≡ is_scheme_character c }
{
    FLAGS[c as usize] & SCHEME != 0
}

/// Hex digits. A look-up.
#[inline]
pub fn is_hex_digit(c: u8) -> bool
    ensures { result ≡ is_ascii_hexdigit c }
{
    FLAGS[c as usize] & HEX != 0
}

/// The parts of a reference that hold characters and triples.
#[derive(Clone, Copy)]
pub enum Class {
    /// The first segment of a reference without a scheme, where no `:` may be.
    FirstSegment,
    Userinfo,
    Name,
    Path,
    Query,
}

impl Class {
    /// Whether the part may hold the character as it is.
    #[inline]
    pub fn allows(self, c: u8) -> bool
        ensures { result ≡ allows self c }
    {
        match self {
            Class::FirstSegment => flags_of(c) & FIRST_SEGMENT != 0,
            Class::Userinfo => flags_of(c) & USERINFO != 0,
            Class::Name => flags_of(c) & NAME != 0,
            Class::Path => flags_of(c) & PATH != 0,
            Class::Query => flags_of(c) & QUERY != 0,
        }
    }

    /// Whether the character ends the part.
    #[inline]
    pub fn ends(self, c: u8) -> bool
        ensures { result ≡ ends self c }
    {
        match self {
            Class::FirstSegment => matches!(c, b':' | b'/' | b'?' | b'#'),
            Class::Userinfo => c == b'@',
            Class::Name => c == b':',
            Class::Path => c == b'?' || c == b'#',
            Class::Query => c == b'#',
        }
    }
}

/// Whether the bytes begin with a triple, `%` and two hex digits (RFC 3986, 2.1).
#[inline]
pub fn begins_with_triple(bytes: &[u8]) -> bool
    ensures { result ≡ begins_with_triple bytes.now }
{
    match bytes {
        [b'%', high, low, ..] => is_hex_digit(*high) && is_hex_digit(*low),
        _ => false,
    }
}

/// Whether the bytes of a block are letters, `_` or of `&` to `;`, digits among these: most paths hold no others.
#[inline(always)]
fn is_plain_block(bytes: &[u8], at: usize) -> bool
    requires { at + BLOCK ≤ length bytes.now }
    ensures { IsTrue result → (k : ℕ) → at ≤ k → k < at + BLOCK
        → is_path_character (slice_index bytes.now k) ≡ true }
{
    let block = u8x16::from_slice(&bytes[at..]);
    let letters = (block | u8x16::splat(32)) - u8x16::splat(b'a');
    let others = block - u8x16::splat(b'&');
    let is_neither = letters.simd_gt(u8x16::splat(25)) & others.simd_gt(u8x16::splat(21));
    (is_neither & block.simd_ne(u8x16::splat(b'_'))).to_bitmask() == 0
}

/// How many bytes at the front are characters of the class, one looked at after another.
#[inline(always)]
fn short_run_len(bytes: &[u8], class: Class) -> usize
    ensures value { result ≡ prefix_len (allows class) bytes.now }
    ensures within { result ≤ length bytes.now }
{
    bytes.iter().take_while(|c| class.allows(**c)).count()
}

/// The same of a path or a query, by blocks.
#[inline]
fn long_run_len(bytes: &[u8], class: Class) -> usize
    requires { (c : ℕ) → is_path_character c ≡ true → allows class c ≡ true }
    ensures value { result ≡ prefix_len (allows class) bytes.now }
    ensures within { result ≤ length bytes.now }
{
    let mut at = 0;
    while bytes.len() - at >= BLOCK {
        if !is_plain_block(bytes, at) {
            let len = short_run_len(&bytes[at..at + BLOCK], class);
            if len < BLOCK {
                return at + len;
            }
        }
        at += BLOCK;
    }
    at + short_run_len(&bytes[at..], class)
}

/// How many bytes at the front are characters of the class: by blocks, where that is wanted.
#[inline(always)]
fn run_len(bytes: &[u8], class: Class, by_blocks: bool) -> usize
    ensures value { result ≡ prefix_len (allows class) bytes.now }
    ensures within { result ≤ length bytes.now }
{
    match class {
        Class::Path if by_blocks => long_run_len(bytes, Class::Path),
        Class::Query if by_blocks => long_run_len(bytes, Class::Query),
        _ => short_run_len(bytes, class),
    }
}

/// What [`encoded_len`] returns.
#[inline(always)]
fn runs_and_triples_len(bytes: &[u8], read: usize, class: Class, by_blocks: bool) -> usize
    requires read_within { read ≤ length bytes.now }
    requires read_encoded { is_encoded (allows class) (take read bytes.now) ≡ true }
    ensures within { result ≤ length bytes.now }
    ensures encoded { is_encoded (allows class) (take result bytes.now) ≡ true }
    ensures longest { begins_encoded (allows class) (drop result bytes.now) ≡ false }
{
    let mut at = read + run_len(&bytes[read..], class, by_blocks);
    'triples: while begins_with_triple(&bytes[at..]) {
        at = at + 3 + run_len(&bytes[at + 3..], class, by_blocks);
    }
    at
}

/// What [`encoded_len`] returns for a long text.
#[inline(never)]
fn long_encoded_len(bytes: &[u8], read: usize, class: Class) -> usize
    requires read_within { read ≤ length bytes.now }
    requires read_encoded { is_encoded (allows class) (take read bytes.now) ≡ true }
    ensures within { result ≤ length bytes.now }
    ensures encoded { is_encoded (allows class) (take result bytes.now) ≡ true }
    ensures longest { begins_encoded (allows class) (drop result bytes.now) ≡ false }
{
    runs_and_triples_len(bytes, read, class, true)
}

/// How many bytes at the front are characters of the class or parts of triples: as many as can be. The first `read` of
/// them are known to be, and aren't looked at again.
#[inline(always)]
pub fn encoded_len(bytes: &[u8], read: usize, class: Class) -> usize
    requires read_within { read ≤ length bytes.now }
    requires read_encoded { is_encoded (allows class) (take read bytes.now) ≡ true }
    ensures within { result ≤ length bytes.now }
    ensures encoded { is_encoded (allows class) (take result bytes.now) ≡ true }
    ensures longest { begins_encoded (allows class) (drop result bytes.now) ≡ false }
{
    if bytes.len() >= BLOCK {
        return long_encoded_len(bytes, read, class);
    }
    runs_and_triples_len(bytes, read, class, false)
}

/// How long the part at the front is, which goes up to the next character that ends it. The first `read` bytes are known to
/// be of the class, and aren't looked at again. `Syntax` exactly where the part holds a character that it may not hold, or
/// a `%` that begins no triple.
#[inline]
pub fn part_len(bytes: &[u8], read: usize, class: Class) -> Result<usize, ParseError>
    requires read_within { read ≤ length bytes.now }
    requires read_encoded { is_encoded (allows class) (take read bytes.now) ≡ true }
    ensures accepted { is_ok result
        ≡ is_encoded (allows class) (before_first (ends class) bytes.now) }
    ensures len { IfOk result (λ n. n ≡ position_or_len (ends class) bytes.now) }
    ensures within { IfOk result (λ n. n ≤ length bytes.now) }
    ensures error { IfErr result (λ e. e ≡ ParseError.Syntax) }
{
    let len = encoded_len(bytes, read, class);
    if len < bytes.len() && !class.ends(bytes[len]) {
        return Err(ParseError::Syntax);
    }
    Ok(len)
}

/// Whether the text holds characters of the class and triples alone.
#[inline]
pub fn is_encoded(text: &[u8], class: Class) -> bool
    ensures { result ≡ is_encoded (allows class) text.now }
{
    encoded_len(text, 0, class) == text.len()
}
