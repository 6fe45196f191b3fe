//! The bytes of a text, and where runs of them end.
ghost use Rattle.std.specs.Prelude.{◌≡◌};
ghost use Rattle.ref_yaml.specs.Flow.{is_white};

// The byte at an offset, or 0 at the end.
pub(crate) fn peek(text: &str, at: usize) -> u8 {
    text.as_bytes().get(at).copied().unwrap_or(0)
}

// The bytes from an offset on.
pub(crate) fn bytes_from(text: &str, from: usize) -> &[u8] {
    text.as_bytes().get(from..).unwrap_or(&[])
}

pub(crate) fn is_white(byte: u8) -> bool
    ensures value { result ≡ is_white byte }
{
    matches!(byte, b' ' | b'\t')
}

pub(crate) fn is_break(byte: u8) -> bool {
    matches!(byte, b'\n' | b'\r')
}

// White space, the end of a line or of the text.
pub(crate) fn is_blank(byte: u8) -> bool {
    matches!(byte, b' ' | b'\t' | b'\n' | b'\r' | 0)
}

// What ends a plain text in brackets.
pub(crate) fn is_flow_indicator(byte: u8) -> bool {
    matches!(byte, b',' | b'[' | b']' | b'{' | b'}')
}

pub(crate) fn after_spaces(text: &str, from: usize) -> usize {
    for at in from..text.len() {
        if peek(text, at) != b' ' {
            return at;
        }
    }
    text.len()
}

pub(crate) fn after_white(text: &str, from: usize) -> usize {
    for at in from..text.len() {
        if !is_white(peek(text, at)) {
            return at;
        }
    }
    text.len()
}

// Where the line ends, before its break.
pub(crate) fn line_end(text: &str, from: usize) -> usize {
    for (count, byte) in bytes_from(text, from).iter().enumerate() {
        if *byte <= b'\r' && is_break(*byte) {
            return from.saturating_add(count);
        }
    }
    text.len()
}

// Where the next line begins after a break, or the end of the text.
pub(crate) fn after_break(text: &str, at: usize) -> usize {
    if at >= text.len() {
        return text.len();
    }
    if peek(text, at) == b'\r' && peek(text, at + 1) == b'\n' {
        return at.saturating_add(2);
    }
    at + 1
}

// Where a word ends that has no white space and no break.
pub(crate) fn word_end(text: &str, from: usize) -> usize {
    for at in from..text.len() {
        if is_blank(peek(text, at)) {
            return at;
        }
    }
    text.len()
}

// Whether a document begins or ends at an offset, which begins a line (9.1.2).
pub(crate) fn is_marker(text: &str, at: usize) -> bool {
    let byte = peek(text, at);
    (byte == b'-' || byte == b'.')
        && peek(text, at.saturating_add(1)) == byte
        && peek(text, at.saturating_add(2)) == byte
        && is_blank(peek(text, at.saturating_add(3)))
}

// A control character but a tab and a line break.
fn is_control(byte: u8) -> bool {
    byte < 32 && byte != b'\t' && byte != b'\n' && byte != b'\r'
}

// Whether there is one. The loop has no other way out, so that it takes many bytes at a time.
fn has_control(bytes: &[u8]) -> bool {
    let mut has_one = false;
    for byte in bytes {
        has_one |= is_control(*byte);
    }
    has_one
}

// The first control character, or nothing.
pub(crate) fn control_in(text: &str) -> Option<usize> {
    let bytes = text.as_bytes();
    if !has_control(bytes) {
        return None;
    }
    bytes.iter().position(|byte| is_control(*byte))
}
