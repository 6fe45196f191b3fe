//! Why a line is no JSON that is read.
ghost use Rattle.std.specs.Prelude.{◌≡◌, ◌≤◌, true, false, is_some, IfOk, MatchOption};
ghost use Rattle.std.specs.Str.{is_utf8};
ghost use Rattle.json.specs.Json.{document};
ghost use Rattle.json.specs.Lex.{tokens};
ghost use Rattle.json.specs.Reads.{token_of};
ghost use Rattle.ref_calls.specs.Why as spec;

use json::{Reader, Scratch, Token, is_valid};
use std::alloc::{AllocError, Global};
use std::str::from_utf8;

// How many levels of arrays and objects are read.
const MOST_LEVELS: usize = 127;

/// Why a line is no JSON.
#[derive(Clone, Copy, PartialEq, Eq, Drop)]
pub enum NotJson {
    /// It is no UTF-8.
    Encoding,
    /// It nests deeper than 127 levels.
    Depth,
    /// It is JSON, but a number in it is beyond the range of a double.
    Number,
    /// It is JSON but for half of a surrogate pair.
    Surrogate,
    /// It is none by the grammar.
    Syntax,
}

impl NotJson {
    /// Its name.
    pub fn name(self) -> &'static str
        ensures value { result.now ≡ spec.reason_name self }
    {
        match self {
            NotJson::Encoding => "encoding",
            NotJson::Depth => "depth",
            NotJson::Number => "number",
            NotJson::Surrogate => "surrogate",
            NotJson::Syntax => "syntax",
        }
    }

    /// A sentence for people.
    pub fn text(self) -> &'static str
        ensures value { result.now ≡ spec.reason_text self }
    {
        match self {
            NotJson::Encoding => "The line is no JSON: it is not UTF-8",
            NotJson::Depth => "The line nests deeper than 127 levels, which are read at most",
            NotJson::Number => "The line has a number beyond the range of a double",
            NotJson::Surrogate => "The line has half of a surrogate pair, which is no character",
            NotJson::Syntax => "The line is no JSON",
        }
    }
}

// How many arrays and objects are open after a token.
fn open_after(levels: usize, token: &Token<'_>) -> usize
    requires { levels ≤ 127 }
    ensures { result ≡ spec.open_after levels (token_of token.now) }
{
    match token {
        Token::BeginObject | Token::BeginArray => levels + 1,
        Token::EndObject | Token::EndArray => levels.saturating_sub(1),
        _ => levels,
    }
}

// Whether more levels than are read are open at once.
fn is_deep(text: &str, scratch: &mut Scratch) -> Result<bool, AllocError>
    ensures { IfOk result (λ deep. deep ≡ spec.is_deep 0 (tokens text.now)) }
{
    let mut reader = Reader::new(text, scratch)?;
    let mut levels: usize = 0;
    while let Some(token) = reader.next() {
        levels = open_after(levels, &token);
        if levels > MOST_LEVELS {
            return Ok(true);
        }
    }
    Ok(false)
}

// Bytes as a text, where they are UTF-8.
fn as_text(bytes: &[u8]) -> Option<&str>
    ensures { MatchOption result (is_utf8 bytes.now ≡ false)
        (λ text. (text.now ≡ bytes.now) × (is_utf8 bytes.now ≡ true)) }
{
    match from_utf8(bytes) {
        Ok(text) => Some(text),
        Err(_) => None,
    }
}

// Whether a text is JSON by the grammar.
fn is_value(text: &str, scratch: &mut Scratch) -> Result<bool, AllocError>
    ensures { IfOk result (λ is. is ≡ is_some (document text.now)) }
{
    is_valid(text, scratch)
}

// Whether bytes are.
fn is_json(bytes: &[u8], scratch: &mut Scratch) -> Result<bool, AllocError>
    ensures { IfOk result (λ is. is ≡ spec.is_json bytes.now) }
{
    match as_text(bytes) {
        Some(text) => is_value(text, scratch),
        None => Ok(false),
    }
}

// A byte after two others, where half of a surrogate pair counts as another character.
fn read_after(a: u8, b: u8, c: u8) -> u8
    ensures { result ≡ spec.read_after a b c }
{
    if a == b'\\' && b == b'u' && (c == b'd' || c == b'D') {
        b'0'
    } else {
        c
    }
}

// Bytes, each so.
fn halves_read(alloc: Global, text: &[u8]) -> Result<Vec<u8>, AllocError>
    ensures { IfOk result (λ read. read.items ≡ spec.with_halves 0 0 text.now) }
{
    let mut read = Vec::with_capacity(alloc, text.len())?;
    let mut a = 0;
    let mut b = 0;
    for byte in text {
        read.push(read_after(a, b, *byte))?;
        a = b;
        b = *byte;
    }
    Ok(read)
}

/// Why a line is no JSON, of one that isn't. Three passes over it at most, and memory for a copy of it.
#[tactic(auto, unfolding(crate::specs::Why::why))]
pub fn why(alloc: Global, line: &[u8]) -> Result<NotJson, AllocError>
    ensures value { IfOk result (λ reason. reason ≡ spec.why line.now) }
{
    let Some(text) = as_text(line) else {
        return Ok(NotJson::Encoding);
    };
    let mut scratch = Scratch::new(alloc);
    if is_deep(text, &mut scratch)? {
        return Ok(NotJson::Depth);
    }
    if is_value(text, &mut scratch)? {
        return Ok(NotJson::Number);
    }
    let read = halves_read(alloc, line)?;
    if is_json(read.as_slice(), &mut scratch)? {
        Ok(NotJson::Surrogate)
    } else {
        Ok(NotJson::Syntax)
    }
}
