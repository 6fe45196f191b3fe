//! Texts that are read as JSON or as YAML.
ghost use Rattle.std.specs.Prelude.{◌≡◌, ◌≢◌, IfOk, MatchOption, None, option_map, string_bytes};
ghost use Rattle.std.specs.Result.{result_ok};
ghost use Rattle.serde_json.specs.Errors.{IsMemory};
ghost use Rattle.serde_json.specs.Read.{read};
ghost use Rattle.serde_json.specs.View.{view};
ghost use Rattle.ref_positions.specs.declared.format.Format.TheVariants.{Json, Yaml};
ghost use Rattle.ref_files.specs.Texts.{tree_of};

use crate::why::why_not;
use crate::yaml::parsed_yaml;
use ref_positions::{Format, Position};
use serde_json::Value;
use simdutf8::compat::from_utf8;
use std::alloc::{AllocError, Global};

/// Why a text is neither JSON nor YAML, or what is to be said of it, and where.
#[derive(Drop)]
pub struct Fault {
    /// Why, and in YAML what to do.
    pub text: String,
    /// The line, from 1.
    pub line: usize,
    /// The column in characters, from 1.
    pub column: usize,
}

/// A text, and the value that it is, or why it is none.
#[derive(Drop)]
pub struct DocumentText {
    /// The text; where its bytes were no UTF-8, what of them was.
    pub text: String,
    /// How it is written.
    pub format: Format,
    /// Its value, or why there is none.
    pub value: Result<Value, Fault>,
}

impl DocumentText {
    /// A text. Fails only if out of memory. One pass, and another where it is no JSON; of YAML as [`ref_yaml::from_str`] says.
    pub fn new(alloc: Global, format: Format, text: String) -> Result<DocumentText, AllocError>
        ensures text { IfOk result (λ t. string_bytes t.text ≡ string_bytes text) }
        ensures format { IfOk result (λ t. t.format ≡ format) }
        ensures json { IfOk result (λ t. format ≡ Json → tree_of t ≡ read (string_bytes text)) }
    {
        let value = match format {
            Format::Json => parsed(alloc, text.as_str())?,
            Format::Yaml => parsed_yaml(alloc, text.as_str())?,
        };
        Ok(DocumentText {
            text,
            format,
            value,
        })
    }

    /// The text that bytes are, without a byte order mark at their beginning (RFC 8259, 8.1; YAML 1.2.2, 5.2). Fails only if out of
    /// memory.
    pub fn of_bytes(alloc: Global, format: Format, bytes: &[u8]) -> Result<DocumentText, AllocError>
        ensures format { IfOk result (λ t. t.format ≡ format) }
    {
        let bytes = without_mark(bytes);
        match from_utf8(bytes) {
            Ok(text) => DocumentText::new(alloc, format, String::from_str(alloc, text)?),
            Err(error) => {
                let front = bytes.get(..error.valid_up_to()).unwrap_or(bytes);
                broken(alloc, format, front)
            }
        }
    }

    /// Its value.
    pub fn value(&self) -> Option<&Value>
        ensures value { option_map (λ v. view v.now) result ≡ tree_of self.now }
    {
        match &self.value {
            Ok(value) => Some(value),
            Err(_) => None,
        }
    }

    /// Why it has no value.
    pub fn fault(&self) -> Option<&Fault>
        ensures value { MatchOption result
            (tree_of self.now ≢ None)
            (λ fault. tree_of self.now ≡ None) }
    {
        match &self.value {
            Ok(_) => None,
            Err(fault) => Some(fault),
        }
    }
}

// The text that ends where its bytes go on with what is no UTF-8.
fn broken(alloc: Global, format: Format, front: &[u8]) -> Result<DocumentText, AllocError>
    ensures tree { IfOk result (λ t. tree_of t ≡ None) }
    ensures format { IfOk result (λ t. t.format ≡ format) }
{
    let text = String::from_utf8_lossy(alloc, front)?;
    let fault = fault_at(alloc, text.as_str(), text.len(), "Not UTF-8 from here on")?;
    Ok(DocumentText {
        text,
        format,
        value: Err(fault),
    })
}

// The bytes of a text without a byte order mark at their beginning.
fn without_mark(bytes: &[u8]) -> &[u8] {
    match bytes {
        [0xef, 0xbb, 0xbf, rest @ ..] => rest,
        _ => bytes,
    }
}

pub(crate) fn fault_at(
    alloc: Global,
    text: &str,
    offset: usize,
    why: &str,
) -> Result<Fault, AllocError> {
    let position = Position::at(text, offset);
    Ok(Fault {
        text: String::from_str(alloc, why)?,
        line: position.line(),
        column: position.column(),
    })
}

/// The value of a text, or why it is no JSON.
pub fn parsed(alloc: Global, text: &str) -> Result<Result<Value, Fault>, AllocError>
    ensures value { IfOk result (λ made. option_map view (result_ok made) ≡ read text.now) }
{
    match Value::from_str(alloc, text) {
        Ok(value) => Ok(Ok(value)),
        Err(error) => {
            let fault = fault_of(alloc, text, &error);
            drop(error);
            Ok(Err(fault?))
        }
    }
}

// Why a text is no JSON, unless memory ran out. The reader counts bytes on a line, where people count characters.
fn fault_of(alloc: Global, text: &str, error: &serde_json::Error) -> Result<Fault, AllocError>
    ensures { IfOk result (λ fault. ¬ (IsMemory error.now)) }
{
    if error.is_memory() {
        return Err(AllocError);
    }
    let said = error.to_string(alloc)?;
    let offset = line_start(text, error.line()).saturating_add(error.column().saturating_sub(1));
    if said.as_str().starts_with("number out of range") {
        let offset = number_start(text, offset);
        return fault_at(
            alloc,
            text,
            offset,
            "Not JSON: the number is beyond what a double holds",
        );
    }
    match why_not(text) {
        Some((offset, why)) => fault_at(alloc, text, offset, because(alloc, why)?.as_str()),
        None => fault_at(alloc, text, offset, "Not JSON from here on"),
    }
}

// Where the number begins that ends at an offset or goes on there.
fn number_start(text: &str, offset: usize) -> usize {
    let mut start = 0;
    for (place, byte) in text.bytes().enumerate() {
        if place > offset {
            break;
        }
        if !matches!(byte, b'0'..=b'9' | b'-' | b'+' | b'.' | b'e' | b'E') && place < offset {
            start = place.saturating_add(1);
        }
    }
    start
}

fn because(alloc: Global, why: &str) -> Result<String, AllocError> {
    ["Not JSON: ", why].join(alloc, "")
}

// How many bytes are before a line, whose number is from 1.
fn line_start(text: &str, line: usize) -> usize {
    let mut left = line;
    let mut start = 0;
    for i in 0..text.len() {
        if left <= 1 {
            break;
        }
        if text.as_bytes()[i] == b'\n' {
            left -= 1;
            start = i + 1;
        }
    }
    start
}
