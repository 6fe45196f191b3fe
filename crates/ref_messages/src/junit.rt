//! Messages as a report of JUnit, as servers of builds read it.
use crate::message::{Level, Message};
use crate::plain::{is_hidden, push_escape};
use crate::unlooked::Unlooked;
use std::alloc::AllocError;

const HEAD: &str = "<?xml version=\"1.0\" encoding=\"UTF-8\"?>\n";

/// Adds a report with a case for each message: one of an error has failed, and one of a warning or a note has a text as its output. What wasn't
/// looked at is a case more each, an error. Without any of these there is one case, which has passed.
pub fn push_junit(
    out: &mut String,
    messages: &[Message<'_>],
    unlooked: &[Unlooked<'_>],
) -> Result<(), AllocError> {
    let errors = unlooked.len();
    let tests = messages.len().saturating_add(errors).max(1);
    let failures = failures_in(messages);
    out.push_str(HEAD)?;
    push_counts(
        out,
        "testsuites name=\"patchsard\"",
        (tests, failures, errors),
    )?;
    push_counts(
        out,
        "testsuite name=\"patchsard lint\"",
        (tests, failures, errors),
    )?;
    for message in messages {
        push_case(out, message)?;
    }
    for one in unlooked {
        push_unlooked(out, *one)?;
    }
    if messages.is_empty() && unlooked.is_empty() {
        out.push_str("<testcase classname=\"patchsard\" name=\"no findings are listed\"/>\n")?;
    }
    out.push_str("</testsuite>\n</testsuites>\n")
}

// Adds the beginning of an element that counts cases.
fn push_counts(
    out: &mut String,
    name: &str,
    (tests, failures, errors): (usize, usize, usize),
) -> Result<(), AllocError> {
    write!(
        out,
        "<{name} tests=\"{tests}\" failures=\"{failures}\" errors=\"{errors}\">\n"
    )
}

// Adds a case of what wasn't looked at.
fn push_unlooked(out: &mut String, unlooked: Unlooked<'_>) -> Result<(), AllocError> {
    out.push_str("<testcase classname=\"")?;
    push_escaped(out, unlooked.path.unwrap_or("patchsard"))?;
    out.push_str("\" name=\"looked at\"><error type=\"unlooked\" message=\"")?;
    push_escaped(out, unlooked.why)?;
    out.push_str("\"/></testcase>\n")
}

// How many of the messages are on errors.
fn failures_in(messages: &[Message<'_>]) -> usize {
    let mut count: usize = 0;
    for message in messages {
        if is_error(message.level) {
            count = count.saturating_add(1);
        }
    }
    count
}

fn is_error(level: Level) -> bool {
    match level {
        Level::Error => true,
        _ => false,
    }
}

fn push_case(out: &mut String, message: &Message<'_>) -> Result<(), AllocError> {
    let (line, column, code) = (message.line, message.column, message.code);
    out.push_str("<testcase classname=\"")?;
    push_escaped(out, message.file)?;
    write!(out, "\" name=\"{code} at {line}:{column}\">")?;
    if is_error(message.level) {
        write!(out, "<failure type=\"{code}\" message=\"")?;
        push_escaped(out, message.text.as_str())?;
        out.push_str("\">")?;
        push_said(out, message)?;
        out.push_str("</failure>")?;
    } else {
        write!(out, "<system-out>{}: ", message.level.name())?;
        push_escaped(out, message.text.as_str())?;
        push_said(out, message)?;
        out.push_str("</system-out>")?;
    }
    out.push_str("</testcase>\n")
}

// Adds what belongs to a message, a line each.
fn push_said(out: &mut String, message: &Message<'_>) -> Result<(), AllocError> {
    if let (Some(keyword), Some(reference)) = (message.keyword, message.reference) {
        write!(out, "\n{keyword} '")?;
        push_escaped(out, reference)?;
        out.push('\'')?;
    }
    if let Some(suggestion) = &message.suggestion {
        out.push_str("\ndid you mean '")?;
        push_escaped(out, suggestion.as_str())?;
        out.push_str("'?")?;
    }
    if let Some(help) = &message.help {
        out.push_str("\nhelp: ")?;
        push_escaped(out, help.as_str())?;
    }
    Ok(())
}

// Adds a text as XML has it (XML 1.0, 2.4), without what a log would act upon.
fn push_escaped(out: &mut String, text: &str) -> Result<(), AllocError> {
    for c in text.chars() {
        match c {
            '&' => out.push_str("&amp;")?,
            '<' => out.push_str("&lt;")?,
            '>' => out.push_str("&gt;")?,
            '"' => out.push_str("&quot;")?,
            // (XML has neither of these)
            '\u{fffe}' | '\u{ffff}' => push_escape(out, c)?,
            _ if is_hidden(c) => push_escape(out, c)?,
            _ => out.push(c)?,
        }
    }
    Ok(())
}
