//! Messages as a SARIF log (2.1.0).
use crate::gitlab::fingerprint;
use crate::members::{push_member, push_number};
use crate::message::{Message, Other};
use crate::unlooked::{Unlooked, text_of as text_of_unlooked};
use std::alloc::{AllocError, Global};

/// A kind of messages.
#[derive(Clone, Copy, Drop)]
pub struct Rule {
    /// Its name.
    pub code: &'static str,
    /// What it says, in a sentence.
    pub text: &'static str,
}

const HEAD: &str =
    "{\"$schema\":\"https://json.schemastore.org/sarif-2.1.0.json\",\"version\":\"2.1.0\",\"runs\":[{\"tool\":{\"driver\":{\"name\":\"patchsard\"";

// Where the page of the rules is, docs/RULES.md of the repository, with a section for each name.
const RULES: &str = "https://patchsard.example/docs/RULES.md#";

/// Adds a log of messages, one result a line. Files' names go into it as relative URIs, or `file:` URIs where they are
/// absolute paths. A region ends where the marked part of a message's excerpt does. What wasn't looked at, where something wasn't, makes the run an unsuccessful one, with a
/// notification of each. The fingerprint of a result is a text of its rule, its file, its pointer, its keyword and what is under that, so that it stays where lines are added above it.
pub fn push_sarif(
    alloc: Global,
    out: &mut String,
    version: &str,
    rules: &[Rule],
    messages: &[Message<'_>],
    unlooked: &[Unlooked<'_>],
) -> Result<(), AllocError> {
    out.push_str(HEAD)?;
    push_member(alloc, out, ",\"version\":", version)?;
    push_rules(alloc, out, rules)?;
    push_invocation(alloc, out, unlooked)?;
    push_results(alloc, out, messages)
}

// Adds the rules, and what ends the driver.
fn push_rules(alloc: Global, out: &mut String, rules: &[Rule]) -> Result<(), AllocError> {
    out.push_str(",\"rules\":[")?;
    for number in 0..rules.len() {
        out.push_str(if number == 0 { "" } else { "," })?;
        push_rule(alloc, out, rules[number])?;
    }
    out.push_str("]}}")
}

fn push_rule(alloc: Global, out: &mut String, rule: Rule) -> Result<(), AllocError> {
    push_member(alloc, out, "{\"id\":", rule.code)?;
    push_member(alloc, out, ",\"shortDescription\":{\"text\":", rule.text)?;
    out.push_str("},\"helpUri\":\"")?;
    out.push_str(RULES)?;
    out.push_str(rule.code)?;
    out.push_str("\"}")
}

// Adds whether all was looked at, and what wasn't.
fn push_invocation(
    alloc: Global,
    out: &mut String,
    unlooked: &[Unlooked<'_>],
) -> Result<(), AllocError> {
    out.push_str(",\"invocations\":[{\"executionSuccessful\":")?;
    if unlooked.is_empty() {
        return out.push_str("true}]");
    }
    out.push_str("false,\"toolExecutionNotifications\":[")?;
    for number in 0..unlooked.len() {
        out.push_str(if number == 0 { "" } else { "," })?;
        push_notification(alloc, out, unlooked[number])?;
    }
    out.push_str("]}]")
}

fn push_notification(
    alloc: Global,
    out: &mut String,
    unlooked: Unlooked<'_>,
) -> Result<(), AllocError> {
    let text = text_of_unlooked(alloc, unlooked)?;
    out.push_str("{\"level\":\"error\"")?;
    push_member(alloc, out, ",\"message\":{\"text\":", text.as_str())?;
    out.push('}')?;
    if let Some(path) = unlooked.path {
        out.push_str(",\"locations\":[")?;
        push_file(alloc, out, path)?;
        out.push_str("}}]")?;
    }
    out.push('}')
}

// Adds the results, and what ends the log.
fn push_results(
    alloc: Global,
    out: &mut String,
    messages: &[Message<'_>],
) -> Result<(), AllocError> {
    out.push_str(",\"columnKind\":\"unicodeCodePoints\",\"results\":[")?;
    for number in 0..messages.len() {
        out.push_str(if number == 0 { "\n" } else { ",\n" })?;
        push_result(alloc, out, &messages[number])?;
    }
    out.push_str("\n]}]}\n")
}

fn push_result(alloc: Global, out: &mut String, message: &Message<'_>) -> Result<(), AllocError> {
    push_member(alloc, out, "{\"ruleId\":", message.code)?;
    push_member(alloc, out, ",\"level\":", message.level.name())?;
    push_said(alloc, out, message)?;
    push_location(
        alloc,
        out,
        (",\"locations\":[", message.file),
        (message.line, message.column, width_of(message)),
        message.pointer.as_str(),
    )?;
    if let Some(first) = &message.first {
        push_related(alloc, out, first)?;
    }
    let print = fingerprint(alloc, message)?;
    push_member(
        alloc,
        out,
        ",\"partialFingerprints\":{\"place/v1\":",
        print.as_str(),
    )?;
    out.push_str("}}")
}

// How many characters the marked part has, where it is known.
fn width_of(message: &Message<'_>) -> usize {
    match &message.excerpt {
        Some(excerpt) => excerpt.marked.chars().count(),
        None => 0,
    }
}

fn push_related(alloc: Global, out: &mut String, first: &Other) -> Result<(), AllocError> {
    push_location(
        alloc,
        out,
        (",\"relatedLocations\":[", first.file.as_str()),
        (first.line, first.column, 0),
        first.pointer.as_str(),
    )
}

fn push_said(alloc: Global, out: &mut String, message: &Message<'_>) -> Result<(), AllocError> {
    let text = text_of(message)?;
    push_member(alloc, out, ",\"message\":{\"text\":", text.as_str())?;
    out.push('}')
}

// What a message says, in one text.
fn text_of(message: &Message<'_>) -> Result<String, AllocError> {
    let mut text = message.text.clone()?;
    if let (Some(keyword), Some(reference)) = (message.keyword, message.reference) {
        write!(text, " ({keyword} '{reference}')")?;
    }
    if let Some(suggestion) = &message.suggestion {
        write!(text, ", did you mean '{suggestion}'?")?;
    }
    if let Some(help) = &message.help {
        write!(text, ", help: {help}")?;
    }
    Ok(text)
}

// Adds a list of one location. A line of 0 isn't known.
fn push_location(
    alloc: Global,
    out: &mut String,
    (before, file): (&str, &str),
    (line, column, width): (usize, usize, usize),
    pointer: &str,
) -> Result<(), AllocError> {
    out.push_str(before)?;
    push_file(alloc, out, file)?;
    if line != 0 {
        push_region(out, line, column, width)?;
    }
    push_member(
        alloc,
        out,
        "},\"logicalLocations\":[{\"fullyQualifiedName\":",
        pointer,
    )?;
    out.push_str("}]}]")
}

fn push_file(alloc: Global, out: &mut String, file: &str) -> Result<(), AllocError> {
    let uri = uri_of(alloc, file)?;
    push_member(
        alloc,
        out,
        "{\"physicalLocation\":{\"artifactLocation\":{\"uri\":",
        uri.as_str(),
    )?;
    out.push('}')
}

fn push_region(
    out: &mut String,
    line: usize,
    column: usize,
    width: usize,
) -> Result<(), AllocError> {
    push_number(out, ",\"region\":{\"startLine\":", line)?;
    push_number(out, ",\"startColumn\":", column)?;
    if width > 0 {
        push_number(out, ",\"endColumn\":", column.saturating_add(width))?;
    }
    out.push('}')
}

// A file's name as a URI: one that is there already as it is, and a path encoded.
fn uri_of(alloc: Global, file: &str) -> Result<String, AllocError> {
    if file.contains("://") {
        return String::from_str(alloc, file);
    }
    if file.starts_with('/') {
        return ref_files::file_uri(alloc, file);
    }
    ref_files::relative_uri(alloc, file)
}
