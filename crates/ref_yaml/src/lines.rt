//! The lines of literal and folded scalars (8.1).
ghost use Rattle.std.specs.Prelude.{◌≡◌, ◌++◌, ◌∷◌, ◌||◌, [], false, if◌then◌else◌, IfOk, OnOk};
ghost use Rattle.ref_yaml.specs.Flow as spec_flow;
ghost use Rattle.ref_yaml.specs.Flow.{feeds, between};
ghost use Rattle.ref_yaml.specs.Block as spec;
ghost use Rattle.ref_yaml.specs.Block.{is_ended, last_feeds, literal_text, folded_text};

use crate::bytes::is_white;
use crate::fold::{push_between, push_feeds};
use crate::number::byte_at;
use std::alloc::{AllocError, Global};

// What is after a line feed that may be there.
fn after_return(source: &[u8]) -> &[u8]
    ensures value { result.now ≡ spec.after_return source.now }
{
    if byte_at(source, 0) == b'\n' {
        return &source[1..];
    }
    source
}

// The lines after a header.
pub(crate) fn after_header(source: &[u8]) -> &[u8]
    ensures value { result.now ≡ spec.after_header source.now }
{
    for (at, byte) in source.iter().enumerate() {
        if *byte == b'\n' {
            return &source[at + 1..];
        }
        if *byte == b'\r' {
            return after_return(&source[at + 1..]);
        }
    }
    &[]
}

fn is_chomping(byte: u8) -> bool
    ensures value { result ≡ spec.is_chomping byte }
{
    matches!(byte, b'-' | b'+')
}

// The chomping indicator of a header, or 0.
pub(crate) fn chomping_of(source: &[u8]) -> u8
    ensures value { result ≡ spec.chomping_of source.now }
{
    let first = byte_at(source, 1);
    let second = byte_at(source, 2);
    if is_chomping(first) {
        return first;
    }
    if b'1' <= first && first <= b'9' && is_chomping(second) {
        return second;
    }
    0
}

// Whether the last line has its line break, or there is none.
fn is_ended(body: &[u8]) -> bool
    ensures value { result ≡ is_ended body.now }
{
    body.is_empty() || body[body.len() - 1] == b'\n'
}

// How many line breaks the last line lacks.
fn missing_breaks(body: &[u8]) -> usize
    ensures value { result ≡ (if is_ended body.now then 0 else 1) }
{
    if is_ended(body) { 0 } else { 1 }
}

// Adds line feeds, which most bytes have none of before them.
fn push_breaks(out: &mut Vec<u8>, breaks: usize) -> Result<(), AllocError>
    ensures value { OnOk result (out.new.items ≡ out.old.items ++ feeds breaks) }
{
    if 0 < breaks {
        push_feeds(out, breaks)?;
    }
    Ok(())
}

// Adds what is before a line of a folded scalar.
fn push_before(out: &mut Vec<u8>, breaks: usize, is_kept: bool) -> Result<(), AllocError>
    ensures value { OnOk result
        (out.new.items ≡ out.old.items ++ (if is_kept then feeds breaks else between breaks false)) }
{
    if is_kept {
        return push_feeds(out, breaks);
    }
    push_between(out, breaks, false)
}

// Adds the first byte of a line of a folded scalar, and what is before it.
fn push_first(out: &mut Vec<u8>, breaks: usize, was_white: bool, byte: u8) -> Result<(), AllocError>
    ensures value { OnOk result (out.new.items ≡ out.old.items
        ++ ((if was_white || spec_flow.is_white byte then feeds breaks else between breaks false)
        ++ byte ∷ [])) }
{
    push_before(out, breaks, was_white || is_white(byte))?;
    out.push(byte)?;
    Ok(())
}

// Adds what the last line breaks become.
fn push_last(
    out: &mut Vec<u8>,
    chomping: u8,
    has_text: bool,
    breaks: usize,
) -> Result<(), AllocError>
    ensures value { OnOk result
        (out.new.items ≡ out.old.items ++ last_feeds chomping has_text breaks) }
{
    if chomping == b'+' {
        return push_feeds(out, breaks);
    }
    if chomping != b'-' && has_text && 0 < breaks {
        out.push(b'\n')?;
    }
    Ok(())
}

// The text of a body after `|`.
pub(crate) fn literal_text(
    alloc: Global,
    body: &[u8],
    indent: usize,
    chomping: u8,
) -> Result<Vec<u8>, AllocError>
    ensures value { IfOk result (λ v. v.items ≡ literal_text chomping indent body.now) }
{
    let mut out = Vec::with_capacity(alloc, body.len())?;
    let mut left = indent;
    let mut has_text = false;
    let mut breaks: usize = 0;
    for byte in body {
        if *byte == b'\n' {
            left = indent;
            breaks += 1;
        } else if *byte == b' ' && left > 0 {
            left -= 1;
        } else {
            push_breaks(&mut out, breaks)?;
            out.push(*byte)?;
            left = 0;
            has_text = true;
            breaks = 0;
        }
    }
    push_last(&mut out, chomping, has_text, breaks + missing_breaks(body))?;
    Ok(out)
}

// The text of a body after `>`.
pub(crate) fn folded_text(
    alloc: Global,
    body: &[u8],
    indent: usize,
    chomping: u8,
) -> Result<Vec<u8>, AllocError>
    ensures value { IfOk result (λ v. v.items ≡ folded_text chomping indent body.now) }
{
    let mut out = Vec::with_capacity(alloc, body.len())?;
    let mut left = indent;
    let mut is_inside = false;
    let mut was_white = true;
    let mut has_text = false;
    let mut breaks: usize = 0;
    for byte in body {
        if *byte == b'\n' {
            left = indent;
            is_inside = false;
            breaks += 1;
        } else if is_inside {
            out.push(*byte)?;
        } else if *byte == b' ' && 0 < left {
            left -= 1;
        } else {
            push_first(&mut out, breaks, was_white, *byte)?;
            is_inside = true;
            was_white = is_white(*byte);
            has_text = true;
            breaks = 0;
        }
    }
    push_last(&mut out, chomping, has_text, breaks + missing_breaks(body))?;
    Ok(out)
}
