//! Messages as annotations of GitHub's workflows.
use crate::message::{Level, Message};
use crate::plain::{is_hidden, push_escape};
use std::alloc::AllocError;

/// Adds a message as a workflow command on a line of its own: `::error file=..,line=..,col=..,title=..::..`.
pub fn push_annotation(out: &mut String, message: &Message<'_>) -> Result<(), AllocError> {
    push_place(out, message)?;
    push_data(out, message.text.as_str())?;
    push_reference(out, message)?;
    if let Some(suggestion) = &message.suggestion {
        push_suggestion(out, suggestion.as_str())?;
    }
    if let Some(help) = &message.help {
        out.push_str(", help: ")?;
        push_data(out, help.as_str())?;
    }
    out.push('\n')
}

// Adds the command with its properties.
fn push_place(out: &mut String, message: &Message<'_>) -> Result<(), AllocError> {
    out.push_str(match message.level {
        Level::Error => "::error file=",
        Level::Warning => "::warning file=",
        Level::Note => "::notice file=",
    })?;
    push_property(out, message.file)?;
    let (line, column, code) = (message.line, message.column, message.code);
    write!(out, ",line={line},col={column},title={code}::")
}

fn push_suggestion(out: &mut String, suggestion: &str) -> Result<(), AllocError> {
    out.push_str(", did you mean '")?;
    push_data(out, suggestion)?;
    out.push_str("'?")
}

fn push_reference(out: &mut String, message: &Message<'_>) -> Result<(), AllocError> {
    let (Some(keyword), Some(reference)) = (message.keyword, message.reference) else {
        return Ok(());
    };
    write!(out, " ({keyword} '")?;
    push_data(out, reference)?;
    out.push_str("')")
}

// The text of a property, in which a colon and a comma have a meaning too.
fn push_property(out: &mut String, text: &str) -> Result<(), AllocError> {
    push_encoded(out, text, true)
}

fn push_data(out: &mut String, text: &str) -> Result<(), AllocError> {
    push_encoded(out, text, false)
}

// Adds a text without what a log would act upon, and a percent sign as a command has it.
fn push_encoded(out: &mut String, text: &str, is_property: bool) -> Result<(), AllocError> {
    for c in text.chars() {
        match c {
            '%' => out.push_str("%25")?,
            ':' if is_property => out.push_str("%3A")?,
            ',' if is_property => out.push_str("%2C")?,
            _ if is_hidden(c) => push_escape(out, c)?,
            _ => out.push(c)?,
        }
    }
    Ok(())
}
