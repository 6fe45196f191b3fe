//! Why a text is no JSON (RFC 8259): the first place at which none can go on, and what was expected there.

// How many levels of arrays and objects the reader of JSON takes.
const MOST_LEVELS: u32 = 127;

// What may come next.
#[derive(Clone, Copy, Drop, PartialEq, Eq)]
enum State {
    Value,
    // A value of an array, after a comma.
    Item,
    // A value, or the end of the array.
    First,
    // A key, or the end of the object.
    FirstKey,
    Key,
    Colon,
    // A comma, or the end of what is around a value.
    After,
    Text,
    Escape,
    Hex,
    Word,
    Number(Number),
}

// Where in a number.
#[derive(Clone, Copy, Drop, PartialEq, Eq)]
enum Number {
    Minus,
    Zero,
    Whole,
    Point,
    Fraction,
    Exponent,
    Sign,
    Power,
}

// What was read so far.
#[derive(Clone, Copy, Drop)]
struct Scan {
    state: State,
    // A bit for each level, set for an object.
    levels: u128,
    depth: u32,
    // Whether the text is a key.
    is_key: bool,
    // Where the escape begins that is read, or half a pair that waits for the other half.
    escape: usize,
    unit: u32,
    digits: u32,
    is_half: bool,
    // What is left of the word.
    word: &'static [u8],
}

/// Where a text stops being JSON, and why; nothing where it doesn't, by what is looked at here: not by the size of its
/// numbers.
pub fn why_not(text: &str) -> Option<(usize, &'static str)> {
    let mut scan = Scan {
        state: State::Value,
        levels: 0,
        depth: 0,
        is_key: false,
        escape: 0,
        unit: 0,
        digits: 0,
        is_half: false,
        word: b"",
    };
    for (offset, byte) in text.as_bytes().iter().enumerate() {
        if let Some(why) = scan.pass(offset, *byte) {
            return Some(why);
        }
    }
    scan.end(text.len())
}

impl Scan {
    // Passes a byte, unless none can go on there.
    fn pass(&mut self, offset: usize, byte: u8) -> Option<(usize, &'static str)> {
        match self.state {
            State::Text => self.in_text(offset, byte),
            State::Escape => self.in_escape(offset, byte),
            State::Hex => self.in_hex(offset, byte),
            State::Word => self.in_word(offset, byte),
            State::Number(number) => self.in_number(offset, byte, number),
            _ if matches!(byte, b' ' | b'\t' | b'\r' | b'\n') => None,
            State::Value => self.begin(offset, byte, "a value is expected"),
            State::Item => self.begin(offset, byte, "a value is expected after the comma"),
            State::First if byte == b']' => self.leave(),
            State::First => self.begin(offset, byte, "a value or ] is expected"),
            State::FirstKey if byte == b'}' => self.leave(),
            State::FirstKey => self.key(offset, byte, "a key in double quotes or } is expected"),
            State::Key => self.key(
                offset,
                byte,
                "a key in double quotes is expected after the comma",
            ),
            State::Colon => self.colon(offset, byte),
            State::After => self.after(offset, byte),
        }
    }

    // What is wrong where the text ends.
    fn end(&mut self, length: usize) -> Option<(usize, &'static str)> {
        if self.depth == 0 {
            match self.state {
                State::After => return None,
                State::Number(number) if may_end(number) => return None,
                _ => {}
            }
        }
        Some((length, "the text ends too early"))
    }

    fn is_object(&self) -> bool {
        self.levels & 1 == 1
    }

    // Passes the first byte of a value.
    fn begin(
        &mut self,
        offset: usize,
        byte: u8,
        wanted: &'static str,
    ) -> Option<(usize, &'static str)> {
        self.word = b"";
        self.state = match byte {
            b'{' => return self.enter(offset, true),
            b'[' => return self.enter(offset, false),
            b'"' => {
                self.is_key = false;
                State::Text
            }
            b'-' => State::Number(Number::Minus),
            b'0' => State::Number(Number::Zero),
            b'1'..=b'9' => State::Number(Number::Whole),
            b't' => {
                self.word = b"rue";
                State::Word
            }
            b'f' => {
                self.word = b"alse";
                State::Word
            }
            b'n' => {
                self.word = b"ull";
                State::Word
            }
            _ => return Some((offset, unexpected(byte, wanted))),
        };
        None
    }

    fn enter(&mut self, offset: usize, is_object: bool) -> Option<(usize, &'static str)> {
        if self.depth >= MOST_LEVELS {
            return Some((offset, "nested more than 127 levels deep"));
        }
        self.depth = self.depth.saturating_add(1);
        self.levels = (self.levels << 1) | is_object as u128;
        self.state = if is_object {
            State::FirstKey
        } else {
            State::First
        };
        None
    }

    fn leave(&mut self) -> Option<(usize, &'static str)> {
        self.depth = self.depth.saturating_sub(1);
        self.levels >>= 1;
        self.state = State::After;
        None
    }

    fn key(
        &mut self,
        offset: usize,
        byte: u8,
        wanted: &'static str,
    ) -> Option<(usize, &'static str)> {
        if byte != b'"' {
            return Some((offset, unexpected(byte, wanted)));
        }
        self.is_key = true;
        self.state = State::Text;
        None
    }

    fn colon(&mut self, offset: usize, byte: u8) -> Option<(usize, &'static str)> {
        if byte != b':' {
            return Some((
                offset,
                unexpected(byte, "a colon is expected after the key"),
            ));
        }
        self.state = State::Value;
        None
    }

    // Passes what comes after a value.
    fn after(&mut self, offset: usize, byte: u8) -> Option<(usize, &'static str)> {
        if self.depth == 0 {
            return Some((
                offset,
                unexpected(byte, "nothing is expected after the value"),
            ));
        }
        let is_object = self.is_object();
        match byte {
            b'}' if is_object => return self.leave(),
            b']' if !is_object => return self.leave(),
            b',' if is_object => self.state = State::Key,
            b',' => self.state = State::Item,
            _ if is_object => return Some((offset, unexpected(byte, "a comma or } is expected"))),
            _ => return Some((offset, unexpected(byte, "a comma or ] is expected"))),
        }
        None
    }

    fn in_word(&mut self, offset: usize, byte: u8) -> Option<(usize, &'static str)> {
        let Some((first, rest)) = self.word.split_first() else {
            self.state = State::After;
            return self.outside(offset, byte);
        };
        if *first != byte {
            return Some((offset, "the only words are true, false and null"));
        }
        self.word = rest;
        if rest.is_empty() {
            self.state = State::After;
        }
        None
    }

    // Passes a byte after a value.
    fn outside(&mut self, offset: usize, byte: u8) -> Option<(usize, &'static str)> {
        if matches!(byte, b' ' | b'\t' | b'\r' | b'\n') {
            return None;
        }
        self.after(offset, byte)
    }

    fn in_number(
        &mut self,
        offset: usize,
        byte: u8,
        number: Number,
    ) -> Option<(usize, &'static str)> {
        match after_byte(number, byte) {
            Some(next) => {
                self.state = State::Number(next);
                None
            }
            None if number == Number::Zero && byte.is_ascii_digit() => Some((
                offset,
                "a number begins with 0: no digit may follow it",
            )),
            None if may_end(number) => {
                self.state = State::After;
                self.outside(offset, byte)
            }
            None => Some((offset, "a digit is expected")),
        }
    }

    fn in_text(&mut self, offset: usize, byte: u8) -> Option<(usize, &'static str)> {
        if self.is_half && byte != b'\\' {
            return Some((self.escape, HALF));
        }
        match byte {
            b'"' => {
                self.state = if self.is_key {
                    State::Colon
                } else {
                    State::After
                };
            }
            b'\\' => {
                if !self.is_half {
                    self.escape = offset;
                }
                self.state = State::Escape;
            }
            b'\n' => return Some((
                offset,
                "a line break within a text: its closing quote is missing, or \\n",
            )),
            0..=0x1f => return Some((
                offset,
                "a control character within a text: write it as an escape, such as \\t",
            )),
            _ => {}
        }
        None
    }

    fn in_escape(&mut self, offset: usize, byte: u8) -> Option<(usize, &'static str)> {
        if byte == b'u' {
            self.unit = 0;
            self.digits = 0;
            self.state = State::Hex;
            return None;
        }
        if self.is_half {
            return Some((self.escape, HALF));
        }
        if matches!(byte, b'"' | b'\\' | b'/' | b'b' | b'f' | b'n' | b'r' | b't') {
            self.state = State::Text;
            return None;
        }
        Some((offset, "one of \" \\ / b f n r t u is expected after \\"))
    }

    fn in_hex(&mut self, offset: usize, byte: u8) -> Option<(usize, &'static str)> {
        let Some(digit) = (byte as char).to_digit(16) else {
            return Some((offset, "four hexadecimal digits are expected after \\u"));
        };
        self.unit = (self.unit & 0xfff) << 4 | digit;
        self.digits = self.digits.saturating_add(1);
        if self.digits < 4 {
            return None;
        }
        self.state = State::Text;
        match self.unit {
            0xd800..=0xdbff if !self.is_half => self.is_half = true,
            0xdc00..=0xdfff if self.is_half => self.is_half = false,
            0xd800..=0xdfff => return Some((self.escape, HALF)),
            _ if self.is_half => return Some((self.escape, HALF)),
            _ => {}
        }
        None
    }
}

const HALF: &str = "half a surrogate pair, which is no character";

// Whether a number may end there.
fn may_end(number: Number) -> bool {
    matches!(
        number,
        Number::Zero | Number::Whole | Number::Fraction | Number::Power
    )
}

// Where in a number what comes after a byte is, where the byte goes on with it.
fn after_byte(number: Number, byte: u8) -> Option<Number> {
    match (number, byte) {
        (Number::Minus, b'0') => Some(Number::Zero),
        (Number::Minus, b'1'..=b'9') => Some(Number::Whole),
        (Number::Whole, b'0'..=b'9') => Some(Number::Whole),
        (Number::Zero | Number::Whole, b'.') => Some(Number::Point),
        (Number::Point | Number::Fraction, b'0'..=b'9') => Some(Number::Fraction),
        (Number::Zero | Number::Whole | Number::Fraction, b'e' | b'E') => Some(Number::Exponent),
        (Number::Exponent, b'+' | b'-') => Some(Number::Sign),
        (Number::Exponent | Number::Sign | Number::Power, b'0'..=b'9') => Some(Number::Power),
        _ => None,
    }
}

// What is wrong where a byte isn't what was wanted.
fn unexpected(byte: u8, wanted: &'static str) -> &'static str {
    match byte {
        b'/' | b'#' => "a comment, and JSON has none",
        b'\'' => "a text is in double quotes",
        _ => wanted,
    }
}
