//! Frames: a head of lines, of which one says how many bytes follow, an empty line, and these bytes.
ghost use Rattle.std.specs.Prelude.{◌≡◌, ◌≤◌, ◌<◌, length, true, IsTrue, IfSome};
ghost use Rattle.ref_protocol.specs.Frames as spec;

/// How many bytes a frame has at most after its head.
pub const MOST: usize = 268_435_456;

// How many bytes a head has at most before the empty line that ends it.
const HEAD: usize = 8192;

/// What bytes begin with.
#[derive(Clone, Copy, Debug, Drop, PartialEq, Eq)]
pub enum Frame {
    /// A part of a frame.
    Part,
    /// A frame whose content is between two offsets.
    Whole(usize, usize),
    /// A head that says no length, or what is none.
    NoLength,
    /// A head that says a length beyond [`MOST`].
    TooLong,
}

/// What bytes begin with. A step for each byte of the head.
#[tactic(auto, unfolding(crate::specs::Frames::frame_in))]
pub fn frame_in(bytes: &[u8]) -> Frame
    ensures value { result ≡ spec.frame_in bytes.now }
    ensures within { spec.IsWithin result bytes.now }
{
    match head_end(bytes) {
        Some(start) => frame_after(bytes, start),
        None if HEAD < bytes.len() => Frame::NoLength,
        None => Frame::Part,
    }
}

// What bytes begin with whose head ends at an offset.
fn frame_after(bytes: &[u8], start: usize) -> Frame
    requires { start ≤ length bytes.now }
    ensures value { result ≡ spec.frame_after bytes.now start }
    ensures within { spec.IsWithin result bytes.now }
{
    match length_in(&bytes[..start]) {
        None => Frame::NoLength,
        Some(length) if MOST < length => Frame::TooLong,
        Some(length) => {
            if length <= bytes.len() - start {
                Frame::Whole(start, start + length)
            } else {
                Frame::Part
            }
        }
    }
}

// Whether bytes begin with the end of a line and an empty one.
fn ends_head(bytes: &[u8]) -> bool
    ensures value { result ≡ spec.ends_head bytes.now }
    ensures within { IsTrue result → 4 ≤ length bytes.now }
{
    match bytes {
        [first, second, third, fourth, ..] => {
            *first == b'\r' && *second == b'\n' && *third == b'\r' && *fourth == b'\n'
        }
        _ => false,
    }
}

// The offset after the empty line that ends a head.
fn head_end(bytes: &[u8]) -> Option<usize>
    ensures value { result ≡ spec.head_end 0 bytes.now }
    ensures within { IfSome result (λ end. end ≤ length bytes.now) }
{
    let mut rest = bytes;
    let mut passed: usize = 0;
    'bytes: while let [_, more @ ..] = rest {
        if passed == HEAD {
            return None;
        }
        if ends_head(rest) {
            return Some(passed + 4);
        }
        rest = more;
        passed += 1;
    }
    None
}

const NAME: &[u8] = b"content-length:";

// An ASCII letter in its small form.
fn small(byte: u8) -> u8
    ensures { result ≡ spec.small byte }
{
    if 65 <= byte && byte <= 90 {
        byte + 32
    } else {
        byte
    }
}

// Whether bytes begin with a name, in any case.
fn has_name(name: &[u8], bytes: &[u8]) -> bool
    ensures value { result ≡ spec.has_name name.now bytes.now }
    ensures within { IsTrue result → length name.now ≤ length bytes.now }
{
    let mut left = name;
    let mut rest = bytes;
    'name: while let [own, others @ ..] = left {
        match rest {
            [byte, more @ ..] if small(*byte) == *own => {
                left = others;
                rest = more;
            }
            _ => return false,
        }
    }
    true
}

// Whether a line that begins here says a length.
#[tactic(auto, unfolding(crate::specs::Frames::says_length))]
fn says_length(bytes: &[u8]) -> bool
    ensures value { result ≡ spec.says_length bytes.now }
    ensures within { IsTrue result → 15 ≤ length bytes.now }
{
    has_name(NAME, bytes)
}

// The length that the first line says that begins with its name.
fn length_in(head: &[u8]) -> Option<usize>
    ensures value { result ≡ spec.length_in head.now true }
    ensures few { IfSome result (λ n. n ≤ 268435457) }
{
    let mut rest = head;
    let mut begins = true;
    'bytes: while let [byte, more @ ..] = rest {
        if begins && says_length(rest) {
            return number_in(&rest[15..]);
        }
        begins = *byte == b'\n';
        rest = more;
    }
    None
}

fn is_digit(byte: u8) -> bool
    ensures value { result ≡ spec.is_digit byte }
    ensures within { IsTrue result → (48 ≤ byte) × (byte < 58) }
{
    48 <= byte && byte < 58
}

fn is_blank(byte: u8) -> bool
    ensures { result ≡ spec.is_blank byte }
{
    byte == b' ' || byte == b'\t'
}

fn is_break(byte: u8) -> bool
    ensures { result ≡ spec.is_break byte }
{
    byte == b'\r' || byte == b'\n'
}

// A number with one digit more. One beyond the greatest stands for all that are beyond it.
fn with_digit(number: usize, digit: u8) -> usize
    requires few { number ≤ 268435457 }
    requires digit { (48 ≤ digit) × (digit < 58) }
    ensures value { result ≡ spec.with_digit number digit }
    ensures few { result ≤ 268435457 }
{
    let next = number * 10 + (digit - 48) as usize;
    next.min(MOST + 1)
}

// The number at the beginning of bytes, after blanks.
fn number_in(text: &[u8]) -> Option<usize>
    ensures value { result ≡ spec.number_in text.now }
    ensures few { IfSome result (λ n. n ≤ 268435457) }
{
    let mut rest = text;
    'bytes: while let [byte, more @ ..] = rest {
        if is_digit(*byte) {
            return number_on(with_digit(0, *byte), more);
        }
        if !is_blank(*byte) {
            return None;
        }
        rest = more;
    }
    None
}

// The number that goes on with the digits at the beginning of bytes.
fn number_on(begun: usize, text: &[u8]) -> Option<usize>
    requires { begun ≤ 268435457 }
    ensures value { result ≡ spec.number_on begun text.now }
    ensures few { IfSome result (λ n. n ≤ 268435457) }
{
    let mut rest = text;
    let mut number = begun;
    'bytes: while let [byte, more @ ..] = rest {
        if !is_digit(*byte) {
            return number_at_end(number, rest);
        }
        number = with_digit(number, *byte);
        rest = more;
    }
    Some(number)
}

// A number, where nothing but blanks is after it on its line.
fn number_at_end(number: usize, text: &[u8]) -> Option<usize>
    requires { number ≤ 268435457 }
    ensures value { result ≡ spec.number_at_end number text.now }
    ensures few { IfSome result (λ n. n ≤ 268435457) }
{
    let mut rest = text;
    'bytes: while let [byte, more @ ..] = rest {
        if is_break(*byte) {
            return Some(number);
        }
        if !is_blank(*byte) {
            return None;
        }
        rest = more;
    }
    Some(number)
}
