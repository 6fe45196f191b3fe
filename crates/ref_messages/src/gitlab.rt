//! Messages as a report on code quality, as GitLab reads it.
use crate::members::{push_member, push_number};
use crate::message::{Level, Message};
use crate::unlooked::{Unlooked, text_of as text_of_unlooked};
use std::alloc::{AllocError, Global};

/// Adds a list with an object for each message, and after these one for each path that wasn't looked at, of the severity `blocker`. The fingerprint of a message is a text of its rule, its file, its pointer, its keyword and what is under
/// that, so that it stays where lines are added above it.
pub fn push_gitlab(
    alloc: Global,
    out: &mut String,
    messages: &[Message<'_>],
    unlooked: &[Unlooked<'_>],
) -> Result<(), AllocError> {
    out.push('[')?;
    let mut before = "\n";
    for message in messages {
        out.push_str(before)?;
        push_issue(alloc, out, message)?;
        before = ",\n";
    }
    for one in unlooked {
        if let Some(path) = one.path {
            out.push_str(before)?;
            push_unlooked(alloc, out, path, *one)?;
            before = ",\n";
        }
    }
    out.push_str("\n]\n")
}

fn push_unlooked(
    alloc: Global,
    out: &mut String,
    path: &str,
    unlooked: Unlooked<'_>,
) -> Result<(), AllocError> {
    let text = text_of_unlooked(alloc, unlooked)?;
    let print = format!(in alloc; "not-looked-at {path}")?;
    push_member(alloc, out, "{\"description\":", text.as_str())?;
    out.push_str(",\"check_name\":\"not-looked-at\"")?;
    push_member(alloc, out, ",\"fingerprint\":", print.as_str())?;
    out.push_str(",\"severity\":\"blocker\"")?;
    push_member(alloc, out, ",\"location\":{\"path\":", path)?;
    out.push_str(",\"lines\":{\"begin\":1}}}")
}

fn push_issue(alloc: Global, out: &mut String, message: &Message<'_>) -> Result<(), AllocError> {
    let text = text_of(message)?;
    push_member(alloc, out, "{\"description\":", text.as_str())?;
    push_member(alloc, out, ",\"check_name\":", message.code)?;
    let print = fingerprint(alloc, message)?;
    push_member(alloc, out, ",\"fingerprint\":", print.as_str())?;
    push_member(alloc, out, ",\"severity\":", severity(message.level))?;
    push_member(alloc, out, ",\"location\":{\"path\":", message.file)?;
    push_number(out, ",\"lines\":{\"begin\":", message.line)?;
    out.push_str("}}}")
}

fn severity(level: Level) -> &'static str {
    match level {
        Level::Error => "major",
        Level::Warning => "minor",
        Level::Note => "info",
    }
}

// What a message says, in one text.
fn text_of(message: &Message<'_>) -> Result<String, AllocError> {
    let mut text = message.text.clone()?;
    if let (Some(keyword), Some(reference)) = (message.keyword, message.reference) {
        write!(text, " ({keyword} '{reference}')")?;
    }
    if let Some(suggestion) = &message.suggestion {
        write!(text, ", did you mean '{suggestion}'?")?;
    }
    Ok(text)
}

/// A text that stays the same where lines are added above what a message is about.
pub(crate) fn fingerprint(alloc: Global, message: &Message<'_>) -> Result<String, AllocError> {
    let pointer = message.pointer.as_str();
    let keyword = message.keyword.unwrap_or("");
    let reference = message.reference.unwrap_or("");
    let (code, file) = (message.code, message.file);
    format!(in alloc; "{code} {file} {pointer} {keyword} {reference}")
}
