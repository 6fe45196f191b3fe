//! Pieces of the JSON that is sent.
ghost use Rattle.std.specs.Prelude.{◌≡◌, ◌++◌, decimal, string_bytes, IfOk, OnOk};
ghost use Rattle.ref_protocol.specs.Pieces as spec;

use serde_json::Value;
use std::alloc::{AllocError, Global};

/// A place of the protocol: a line and units on it, each from 0.
pub type Place = (usize, usize);

/// From one place up to another.
pub type Range = (Place, Place);

/// Adds what is before a text, and the text as a JSON string.
pub fn push_text(
    alloc: Global,
    out: &mut String,
    before: &str,
    text: &str,
) -> Result<(), AllocError>
    ensures value { OnOk result (string_bytes out.new
        ≡ string_bytes out.old ++ before.now ++ spec.quoted text.now) }
{
    out.push_str(before)?;
    let text = quoted(alloc, text)?;
    out.push_str(text.as_str())
}

/// A text as a JSON string. Fails only if out of memory.
pub fn quoted(alloc: Global, text: &str) -> Result<String, AllocError>
    ensures value { IfOk result (λ quoted. string_bytes quoted ≡ spec.quoted text.now) }
{
    let text = String::from_str(alloc, text)?;
    Value::String(text).to_string(alloc)
}

/// Adds what is before a number, and the number.
pub fn push_number(out: &mut String, before: &str, number: usize) -> Result<(), AllocError>
    ensures value { OnOk result (string_bytes out.new
        ≡ string_bytes out.old ++ before.now ++ decimal number) }
{
    out.push_str(before)?;
    write!(out, "{number}")
}

/// Adds a place.
pub fn push_place(out: &mut String, place: Place) -> Result<(), AllocError>
    ensures value { OnOk result (string_bytes out.new
        ≡ string_bytes out.old ++ spec.place place) }
{
    let (line, units) = place;
    push_number(out, "{\"line\":", line)?;
    push_number(out, ",\"character\":", units)?;
    out.push('}')
}

/// Adds what is before a range, and the range.
pub fn push_range(out: &mut String, before: &str, range: Range) -> Result<(), AllocError>
    ensures value { OnOk result (string_bytes out.new
        ≡ string_bytes out.old ++ before.now ++ spec.range range) }
{
    let (start, end) = range;
    out.push_str(before)?;
    out.push_str("{\"start\":")?;
    push_place(out, start)?;
    out.push_str(",\"end\":")?;
    push_place(out, end)?;
    out.push('}')?;
    Ok(())
}

/// Adds a place of a document.
pub fn push_location(
    alloc: Global,
    out: &mut String,
    uri: &str,
    range: Range,
) -> Result<(), AllocError>
    ensures value { OnOk result (string_bytes out.new
        ≡ string_bytes out.old ++ spec.location uri.now range) }
{
    push_text(alloc, out, "{\"uri\":", uri)?;
    push_range(out, ",\"range\":", range)?;
    out.push('}')
}

/// Adds a comma, unless something begins here.
pub fn push_comma(out: &mut String) -> Result<(), AllocError>
    ensures value { OnOk result (string_bytes out.new ≡ spec.with_comma (string_bytes out.old)) }
{
    match out.as_bytes().last().copied() {
        None | Some(b'[') | Some(b'{') => Ok(()),
        _ => out.push(','),
    }
}
