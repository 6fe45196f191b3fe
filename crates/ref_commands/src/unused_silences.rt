//! Messages on comments that silence nothing.
use crate::listed::Listing;
use crate::opened::Opened;
use ref_messages::{Excerpt, Level, Message};
use ref_outline::spans::offset_of;
use ref_workspace::{UnusedSilence, near_rule};
use std::alloc::{AllocError, Global};

/// The message on a comment at a line and a column of the document with a number: that it silences nothing, that it names no rule, or which rule it names that there
/// isn't, and which may be meant.
pub(crate) fn silence_message<'m>(
    alloc: Global,
    opened: &'m Opened<'_>,
    (source, line, column): (usize, usize, usize),
    silence: &UnusedSilence<'m>,
) -> Result<Message<'m>, AllocError> {
    let pointer = silence.pointer.clone()?;
    let mut message = Message {
        file: opened.workspace.name(source),
        line,
        column,
        pointer,
        level: Level::Note,
        code: "unused-silence",
        text: String::new(alloc),
        keyword: silence.keyword,
        reference: Some(silence.text),
        resolved: None,
        suggestion: None,
        is_only: false,
        help: None,
        first: None,
        excerpt: excerpt_at(opened, (source, line, column), silence),
    };
    match complete(alloc, silence.unknown, &mut message) {
        Ok(()) => Ok(message),
        Err(error) => {
            drop(message);
            Err(error)
        }
    }
}

// Adds what a message says, what may be meant, and what to do.
fn complete(
    alloc: Global,
    unknown: Option<&str>,
    message: &mut Message<'_>,
) -> Result<(), AllocError> {
    let Some(name) = unknown else {
        message.text = String::from_str(alloc, "This comment silences nothing")?;
        message.help = Some(String::from_str(alloc, "remove it")?);
        return Ok(());
    };
    if name.is_empty() {
        message.text = String::from_str(alloc, "This comment is to silence, and names no rule")?;
        message.help = Some(String::from_str(alloc, "name the rule: patchsard: ignore RULE: why")?);
        return Ok(());
    }
    message.text = format!(in alloc;
        "There is no rule '{name}', which this comment is to silence"
    )?;
    if let Some(near) = near_rule(alloc, name)? {
        message.suggestion = Some(String::from_str(alloc, near)?);
    }
    Ok(())
}

// The line of a comment: marked is its text, or its mark in YAML.
fn excerpt_at<'m>(
    opened: &'m Opened<'_>,
    (source, line, column): (usize, usize, usize),
    silence: &UnusedSilence<'_>,
) -> Option<Excerpt<'m>> {
    let text = &opened.workspace.documents().get(source)?.text;
    if silence.keyword.is_none() {
        return Excerpt::at_column(text.text.as_str(), line, column);
    }
    let offset = offset_of(text.text.as_str(), line, column);
    Excerpt::at(text.format, text.text.as_str(), offset, Some(silence.text))
}

/// Whether a comment that silences nothing is told, of the file at an absolute path: each rule that it names is on there, or one isn't a rule.
pub(crate) fn is_told(
    alloc: Global,
    listing: &mut Listing,
    path: &str,
    silence: &UnusedSilence<'_>,
) -> Result<bool, AllocError> {
    if silence.unknown.is_some() {
        return Ok(true);
    }
    for rule in silence.rules(alloc)? {
        let is_unlisted = rule == "unchecked-reference" && !listing.has_unchecked();
        if is_unlisted || listing.levels.level(path, rule, Level::Note)?.is_none() {
            return Ok(false);
        }
    }
    Ok(true)
}
