//! Calls of pointer text and of buffers of `ref_parts`.
use crate::refused::documents::value;
use crate::refused::stop::{Stop, after, refused};
use crate::refused::trial::{Calls, Trial, tried};
use ref_parts::{
    EncodedBuffer, first_escape, parse_index, pointer, unescape_segment, write_escaped_str,
    write_index,
};
use serde_json::Value;
use std::alloc::Global;

/// Buffers that hold `/` and, encoded, `a`, and one that is decoded; and a document.
#[derive(Drop)]
struct Texts {
    pointer: String,
    grown: EncodedBuffer,
    encoded: EncodedBuffer,
    document: Value,
}

/// The row of a call.
pub fn row(alloc: Global, call: &str) -> Result<Trial, Stop> {
    let mut texts = Texts {
        pointer: String::from_str(alloc, "/")?,
        grown: encoded(alloc, "a")?,
        encoded: encoded(alloc, "~ ?")?,
        document: value(alloc, r#"{"a/b":"c"}"#)?,
    };
    tried(
        alloc,
        &mut texts,
        "texts",
        call,
        &["encoded_buffer.decode", "pointer", "unescape_segment"],
    )
}

impl Calls for Texts {
    fn answer(&mut self, alloc: Global, call: &str) -> Result<String, Stop> {
        match call {
            "write_index" => index_written(alloc, &mut self.pointer),
            "write_escaped_str" => key_written(alloc, &mut self.pointer),
            "unescape_segment" => unescaped(alloc, "a~1b~0"),
            "unescape_segment plain" => unescaped(alloc, "ab"),
            "encoded_buffer.push_str" => pushed(alloc, &mut self.grown),
            "encoded_buffer.decode" => decoded(alloc, &self.encoded),
            "pointer" => pointed(alloc, &self.document),
            "readers" => read(alloc),
            _ => Err(Stop::Wrong),
        }
    }
}

fn encoded(alloc: Global, text: &str) -> Result<EncodedBuffer, Stop> {
    let mut buffer = EncodedBuffer::new(alloc);
    buffer.push_str(text)?;
    Ok(buffer)
}

fn index_written(alloc: Global, buffer: &mut String) -> Result<String, Stop> {
    match write_index(buffer, 18446744073709551615) {
        Ok(()) => after(String::from_str(alloc, buffer.as_str())),
        Err(error) => Err(refused(&error, buffer.as_str() == "/")),
    }
}

fn key_written(alloc: Global, buffer: &mut String) -> Result<String, Stop> {
    match write_escaped_str(buffer, "a/b~c and more than the room that there is") {
        Ok(()) => after(String::from_str(alloc, buffer.as_str())),
        Err(error) => Err(refused(&error, buffer.as_str() == "/")),
    }
}

fn unescaped(alloc: Global, token: &str) -> Result<String, Stop> {
    match unescape_segment(alloc, token) {
        Ok(key) => after(String::from_str(alloc, key.as_str())),
        Err(error) => Err(refused(&error, true)),
    }
}

fn pushed(alloc: Global, buffer: &mut EncodedBuffer) -> Result<String, Stop> {
    match buffer.push_str("/ é and more than the room that there is") {
        Ok(()) => after(String::from_str(alloc, buffer.as_str())),
        Err(error) => Err(refused(&error, has_rows(buffer))),
    }
}

/// Whether a buffer's calls return what they do of one of `a`.
fn has_rows(buffer: &EncodedBuffer) -> bool {
    buffer.as_str() == "a" && buffer.as_encoded().as_str() == "a"
}

fn decoded(alloc: Global, buffer: &EncodedBuffer) -> Result<String, Stop> {
    match buffer.decode(alloc) {
        Ok(text) => Ok(text),
        Err(error) => Err(refused(&error, buffer.as_str() == "~%20?")),
    }
}

fn pointed(alloc: Global, document: &Value) -> Result<String, Stop> {
    match pointer(alloc, document, "/a~1b") {
        Ok(found) => {
            let text = found.and_then(Value::as_str).unwrap_or("none");
            after(String::from_str(alloc, text))
        }
        Err(error) => Err(refused(&error, true)),
    }
}

/// An index, and where the first byte is that is written escaped.
fn read(alloc: Global) -> Result<String, Stop> {
    let (index, escape) = (parse_index("10"), first_escape(b"a/b~"));
    after(format!(in alloc; "{index:?} {escape:?}"))
}
