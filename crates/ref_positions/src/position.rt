//! A place in a text, as a line and a column.
ghost use Rattle.std.specs.Prelude.{◌≡◌, ◌≤◌, ◌<◌, ◌+◌, ◌-◌, ◌^◌, length};
ghost use Rattle.std.specs.Option.{option_map_or};
ghost use Rattle.ref_positions.specs.Lines.{line_of, column_of, unit_of, units_of, next_line, next_column, next_unit, begins_character, is_beyond, IsAt, IsAtUnit, IsUnitAt};

/// A place in a text: its offset in bytes, its line and its column. An offset is at most the text's length.
#[derive(Clone, Copy, Debug, Drop)]
pub struct Position<'a> {
    text: &'a str,
    offset: usize,
    line: usize,
    column: usize,
    unit: usize,
    ghost exact: { IsAt text.now offset line column },
    ghost exact_unit: { IsUnitAt text.now offset unit },
}

impl<'a> Position<'a> {
    /// The beginning of a text: line 1, column 1.
    pub fn start(text: &'a str) -> Position<'a>
        ensures offset { result.offset ≡ 0 }
        ensures text { result.text.now ≡ text.now }
    {
        Position {
            text,
            offset: 0,
            line: 1,
            column: 1,
            unit: 1,
        }
    }

    /// The place at an offset, or the end of the text. It costs a step for each byte before it.
    pub fn at(text: &'a str, offset: usize) -> Position<'a>
        ensures text { result.text.now ≡ text.now }
        ensures offset { offset ≤ length text.now → result.offset ≡ offset }
    {
        Position::start(text).moved_to(offset)
    }

    /// How many bytes of the text are before it.
    pub fn offset(&self) -> usize
        ensures value { result ≡ self.now.offset }
        ensures within { result ≤ length self.now.text.now }
    {
        self.offset
    }

    /// The number of its line, counted from 1: one more than the line feeds before it.
    pub fn line(&self) -> usize
        ensures value { result ≡ line_of self.now.text.now self.now.offset }
        ensures first { 1 ≤ result }
    {
        self.line
    }

    /// The number of its column, counted from 1: one more than the characters before it on its line.
    pub fn column(&self) -> usize
        ensures value { result ≡ column_of self.now.text.now self.now.offset }
        ensures first { 1 ≤ result }
    {
        self.column
    }

    /// The number of its column in units of UTF-16, counted from 1, as editors count: one more than those of the characters before it on
    /// its line.
    pub fn unit(&self) -> usize
        ensures value { result ≡ unit_of self.now.text.now self.now.offset }
        ensures first { 1 ≤ result }
    {
        self.unit
    }

    /// The place on a line, from 1, at a column in units of UTF-16, from 1, or the end of the line where it has fewer, or of the text. In the middle
    /// of a character it is after that. It costs a step for each byte before it.
    pub fn at_unit(text: &'a str, line: usize, unit: usize) -> Position<'a>
        ensures text { result.text.now ≡ text.now }
        ensures offset { IsAtUnit text.now line unit result.offset }
    {
        let mut place = Position::start(text);
        for passed in 0..text.len() {
            if place.is_beyond(line, unit) {
                break;
            }
            place = place.after_byte();
        }
        place
    }

    // Whether it is between characters, and at or after a column of a line, or at the end of that line.
    fn is_beyond(&self, line: usize, unit: usize) -> bool
        ensures value { result ≡ is_beyond self.now.text.now line unit self.now.offset }
    {
        if self.offset >= self.text.len() {
            return true;
        }
        let byte = self.text.as_bytes()[self.offset];
        begins_character(byte)
            && (self.line > line || self.line == line && (self.unit >= unit || byte == b'\n'))
    }

    /// The place after the next byte, or the end of the text.
    pub(crate) fn after_byte(self) -> Position<'a>
        ensures text { result.text.now ≡ self.entry.text.now }
        ensures offset { self.entry.offset ≤ result.offset }
        ensures next { self.entry.offset < length self.entry.text.now
            → result.offset ≡ self.entry.offset + 1 }
    {
        let bytes = self.text.as_bytes();
        if self.offset >= bytes.len() {
            return self;
        }
        let byte = bytes[self.offset];
        Position {
            text: self.text,
            offset: self.offset + 1,
            line: next_line(self.line, byte),
            column: next_column(self.column, byte),
            unit: next_unit(self.unit, byte),
        }
    }

    /// The place at an offset from here on, or the end of the text. It costs a step for each byte between.
    pub fn moved_to(self, offset: usize) -> Position<'a>
        ensures text { result.text.now ≡ self.entry.text.now }
        ensures offset { self.entry.offset ≤ offset → offset ≤ length self.entry.text.now
            → result.offset ≡ offset }
    {
        let mut place = self;
        for at in self.offset..offset {
            place = place.after_byte();
        }
        place
    }
}

/// The line and the column of a position, or those of the beginning of a text where there is none.
pub fn line_and_column(position: Option<Position<'_>>) -> (usize, usize)
    ensures value { result
        ≡ option_map_or (λ p. (line_of p.text.now p.offset, column_of p.text.now p.offset))
        position.entry (1, 1) }
{
    match position {
        Some(position) => (position.line(), position.column()),
        None => (1, 1),
    }
}

fn next_line(line: usize, byte: u8) -> usize
    requires { line < 2 ^ 63 + 1 }
    ensures value { result ≡ next_line line byte }
{
    if byte == b'\n' { line + 1 } else { line }
}

fn next_column(column: usize, byte: u8) -> usize
    requires { column < 2 ^ 63 + 1 }
    ensures value { result ≡ next_column column byte }
{
    if byte == b'\n' {
        1
    } else if begins_character(byte) {
        column + 1
    } else {
        column
    }
}

fn next_unit(unit: usize, byte: u8) -> usize
    requires { unit < 2 ^ 64 - 2 }
    ensures value { result ≡ next_unit unit byte }
{
    let units = units_of(byte);
    if byte == b'\n' { 1 } else { unit + units }
}

fn units_of(byte: u8) -> usize
    ensures value { result ≡ units_of byte }
    ensures few { result ≤ 2 }
{
    match byte {
        0x80..=0xbf => 0,
        0xf0..=0xff => 2,
        _ => 1,
    }
}

// The bytes 128 to 191 go on with a character that began before.
fn begins_character(byte: u8) -> bool
    ensures value { result ≡ begins_character byte }
{
    byte < 128 || 192 <= byte
}
