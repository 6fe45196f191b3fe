//! Messages as text for people.
use crate::full::{BOLD, Color, code_of};
use crate::message::{Message, Other};
use crate::plain::Plain;
use std::alloc::AllocError;

/// Adds a message: a line with its place, and lines with what belongs to it, four blanks in.
pub fn push_text(out: &mut String, message: &Message<'_>, color: Color) -> Result<(), AllocError> {
    push_head(out, message, color)?;
    push_rest(out, message)
}

/// Adds what belongs to a message after its first line.
pub(crate) fn push_rest(out: &mut String, message: &Message<'_>) -> Result<(), AllocError> {
    push_reference(out, message)?;
    if let Some(first) = &message.first {
        push_first(out, first)?;
    }
    if let Some(suggestion) = &message.suggestion {
        write!(out, "    did you mean '{}'?\n", Plain(suggestion.as_str()))?;
    }
    match &message.help {
        Some(help) => write!(out, "    help: {}\n", Plain(help.as_str())),
        None => Ok(()),
    }
}

/// Adds the first line of a message: its place, its level and its rule, and what is wrong.
pub(crate) fn push_head(
    out: &mut String,
    message: &Message<'_>,
    color: Color,
) -> Result<(), AllocError> {
    let (file, line, column) = (Plain(message.file), message.line, message.column);
    let (level, code) = (message.level.name(), message.code);
    color.begin(out, BOLD)?;
    write!(out, "{file}:{line}:{column}:")?;
    color.end(out)?;
    out.push(' ')?;
    color.begin(out, code_of(message.level))?;
    write!(out, "{level}[{code}]")?;
    color.end(out)?;
    write!(out, ": {}\n", Plain(message.text.as_str()))
}

fn push_reference(out: &mut String, message: &Message<'_>) -> Result<(), AllocError> {
    let (Some(keyword), Some(reference)) = (message.keyword, message.reference) else {
        return Ok(());
    };
    let reference = Plain(reference);
    match &message.resolved {
        Some(resolved) => write!(
            out,
            "    {keyword} '{reference}' is {}\n",
            Plain(resolved.as_str())
        ),
        None => write!(out, "    {keyword} '{reference}'\n"),
    }
}

fn push_first(out: &mut String, first: &Other) -> Result<(), AllocError> {
    let (file, line, column) = (Plain(first.file.as_str()), first.line, first.column);
    if line == 0 {
        return write!(out, "    first: {file}\n");
    }
    write!(out, "    first: {file}:{line}:{column}\n")
}
