//! Messages as objects in JSON, one a line.
use crate::members::{push_member, push_number, push_option};
use crate::message::{Message, Other};
use std::alloc::{AllocError, Global};

/// Adds a message as an object on a line of its own.
pub fn push_line(alloc: Global, out: &mut String, message: &Message<'_>) -> Result<(), AllocError> {
    push_place(
        alloc,
        out,
        message.file,
        (message.line, message.column),
        message.pointer.as_str(),
    )?;
    push_kind(alloc, out, message)?;
    push_reference(alloc, out, message)?;
    if let Some(first) = &message.first {
        push_first(alloc, out, first)?;
    }
    out.push_str("}\n")
}

// Adds an object's beginning with a place; a line or a column that isn't known is left out.
fn push_place(
    alloc: Global,
    out: &mut String,
    file: &str,
    (line, column): (usize, usize),
    pointer: &str,
) -> Result<(), AllocError> {
    push_member(alloc, out, "{\"file\":", file)?;
    push_known(out, ",\"line\":", line)?;
    push_known(out, ",\"column\":", column)?;
    push_member(alloc, out, ",\"pointer\":", pointer)
}

fn push_known(out: &mut String, before: &str, number: usize) -> Result<(), AllocError> {
    if number == 0 {
        return Ok(());
    }
    push_number(out, before, number)
}

fn push_kind(alloc: Global, out: &mut String, message: &Message<'_>) -> Result<(), AllocError> {
    push_member(alloc, out, ",\"level\":", message.level.name())?;
    push_member(alloc, out, ",\"code\":", message.code)?;
    push_member(alloc, out, ",\"message\":", message.text.as_str())
}

fn push_reference(
    alloc: Global,
    out: &mut String,
    message: &Message<'_>,
) -> Result<(), AllocError> {
    push_option(alloc, out, ",\"keyword\":", message.keyword)?;
    push_option(alloc, out, ",\"reference\":", message.reference)?;
    push_option(alloc, out, ",\"resolved\":", text_of(&message.resolved))?;
    push_option(alloc, out, ",\"suggestion\":", text_of(&message.suggestion))?;
    push_option(alloc, out, ",\"help\":", text_of(&message.help))
}

fn text_of(text: &Option<String>) -> Option<&str> {
    match text {
        Some(text) => Some(text.as_str()),
        None => None,
    }
}

fn push_first(alloc: Global, out: &mut String, first: &Other) -> Result<(), AllocError> {
    out.push_str(",\"first\":")?;
    push_place(
        alloc,
        out,
        first.file.as_str(),
        (first.line, first.column),
        first.pointer.as_str(),
    )?;
    out.push('}')
}
