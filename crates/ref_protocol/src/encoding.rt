//! Positions of the protocol: a line from 0, and a count of units on it from 0.
ghost use Rattle.std.specs.Prelude.{◌≡◌, ◌≤◌, ◌<◌, ◌+◌, ◌-◌, ◌^◌, length};
ghost use Rattle.ref_protocol.specs.Positions as spec;

/// In which units a position counts on its line.
#[derive(Clone, Copy, Debug, Drop, PartialEq, Eq)]
pub enum Encoding {
    /// In bytes of UTF-8.
    Utf8,
    /// In units of UTF-16.
    Utf16,
    /// In characters.
    Utf32,
}

impl Encoding {
    /// Its name in the protocol.
    pub fn name(self) -> &'static str
        ensures value { result.now ≡ spec.name_of self }
    {
        match self {
            Encoding::Utf8 => "utf-8",
            Encoding::Utf16 => "utf-16",
            Encoding::Utf32 => "utf-32",
        }
    }

    /// The one with a name.
    pub fn from_name(name: &str) -> Option<Encoding>
        ensures value { result ≡ spec.encoding_of name.now }
    {
        match name {
            "utf-8" => Some(Encoding::Utf8),
            "utf-16" => Some(Encoding::Utf16),
            "utf-32" => Some(Encoding::Utf32),
            _ => None,
        }
    }
}

// The bytes 128 to 191 go on with a character that began before (RFC 3629, 3).
fn begins_character(byte: u8) -> bool
    ensures { result ≡ spec.begins_character byte }
{
    byte < 128 || 192 <= byte
}

// How many bytes the character has that a byte begins.
fn bytes_of(byte: u8) -> usize
    ensures value { result ≡ spec.bytes_of byte }
    ensures few { result ≤ 4 }
{
    if byte < 192 {
        1
    } else if byte < 224 {
        2
    } else if byte < 240 {
        3
    } else {
        4
    }
}

// How many units it has.
fn units_of(encoding: Encoding, byte: u8) -> usize
    ensures value { result ≡ spec.units_of encoding byte }
    ensures few { result ≤ 4 }
{
    match encoding {
        Encoding::Utf8 => bytes_of(byte),
        Encoding::Utf16 => if byte < 240 { 1 } else { 2 },
        Encoding::Utf32 => 1,
    }
}

// Whether a byte is a line feed or a carriage return.
fn is_break(byte: u8) -> bool
    ensures { result ≡ spec.is_break byte }
{
    byte == b'\n' || byte == b'\r'
}

// Whether bytes begin with a line feed.
fn begins_with_feed(bytes: &[u8]) -> bool
    ensures { result ≡ spec.begins_with_feed bytes.now }
{
    match bytes {
        [first, ..] => *first == b'\n',
        [] => false,
    }
}

// Whether a line ends after a byte that others follow.
fn ends_line(byte: u8, rest: &[u8]) -> bool
    ensures { result ≡ spec.ends_line byte rest.now }
{
    byte == b'\n' || byte == b'\r' && !begins_with_feed(rest)
}

// How many lines are left after a byte.
fn lines_left(left: usize, byte: u8, rest: &[u8]) -> usize
    requires { 0 < left }
    ensures { result ≡ spec.lines_left left byte rest.now }
{
    if ends_line(byte, rest) {
        left - 1
    } else {
        left
    }
}

// How many bytes of a text are before a line: all of them where it has no such line.
fn before_line(text: &[u8], line: usize) -> usize
    ensures value { result ≡ spec.before_line line text.now }
    ensures within { result ≤ length text.now }
{
    let mut rest = text;
    let mut left = line;
    let mut passed: usize = 0;
    'bytes: while let [byte, more @ ..] = rest {
        if left == 0 {
            return passed;
        }
        left = lines_left(left, *byte, more);
        rest = more;
        passed += 1;
    }
    passed
}

// How many bytes of a line are before so many units: all of it where it has fewer. In the middle of a character they are those before that.
fn before_units(encoding: Encoding, line: &[u8], units: usize) -> usize
    ensures value { result ≡ spec.before_units encoding units line.now }
    ensures within { result ≤ length line.now }
{
    let mut rest = line;
    let mut left = units;
    let mut passed: usize = 0;
    'bytes: while let [byte, more @ ..] = rest {
        if begins_character(*byte) {
            let taken = units_of(encoding, *byte);
            if is_break(*byte) || left < taken {
                return passed;
            }
            left -= taken;
        }
        rest = more;
        passed += 1;
    }
    passed
}

/// The offset in bytes that a position means: the end of its line where that is shorter, and the end of the text where that has fewer lines.
/// In the middle of a character it is the offset before that. A line ends after a line feed, a carriage return, or both. A step for each
/// byte before it.
pub fn offset_at(text: &str, line: usize, units: usize, encoding: Encoding) -> usize
    ensures value { result ≡ spec.offset_of encoding line units text.now }
    ensures within { result ≤ length text.now }
{
    let bytes = text.as_bytes();
    let start = before_line(bytes, line);
    start + before_units(encoding, &bytes[start..], units)
}

// How many units a byte adds to its line.
fn added(encoding: Encoding, byte: u8) -> usize
    ensures value { result ≡ spec.added encoding byte }
    ensures few { result ≤ 2 }
{
    match encoding {
        Encoding::Utf8 => 1,
        Encoding::Utf16 if begins_character(byte) => if byte < 240 { 1 } else { 2 },
        Encoding::Utf32 if begins_character(byte) => 1,
        _ => 0,
    }
}

// The line after a byte.
fn next_line(line: usize, byte: u8, rest: &[u8]) -> usize
    requires { line < 2 ^ 63 + 1 }
    ensures value { result ≡ spec.next_line line byte rest.now }
    ensures few { result ≤ line + 1 }
{
    if ends_line(byte, rest) {
        line + 1
    } else {
        line
    }
}

// The units on its line after a byte.
fn next_units(encoding: Encoding, units: usize, byte: u8, rest: &[u8]) -> usize
    requires { units < 2 ^ 64 - 2 }
    ensures value { result ≡ spec.next_units encoding units byte rest.now }
    ensures few { result ≤ units + 2 }
{
    let more = added(encoding, byte);
    if ends_line(byte, rest) {
        0
    } else {
        units + more
    }
}

/// The line of an offset, and the units on it before the offset; of one beyond the end those of the end. A step for each byte before it.
pub fn place_at(text: &str, offset: usize, encoding: Encoding) -> (usize, usize)
    ensures value { result ≡ spec.place_of encoding 0 0 offset text.now }
{
    let mut rest = text.as_bytes();
    let mut line: usize = 0;
    let mut units: usize = 0;
    let mut left = offset;
    'bytes: while let [byte, more @ ..] = rest {
        if left == 0 {
            return (line, units);
        }
        line = next_line(line, *byte, more);
        units = next_units(encoding, units, *byte, more);
        left -= 1;
        rest = more;
    }
    (line, units)
}
