//! Comments that silence nothing, in the protocol's words.
use crate::desk::Desk;
use crate::judged::{Bounds, Judged, end_at, push_marks, range_of, severity_of};
use crate::shown::Rules;
use ref_files::Format;
use ref_messages::Level;
use ref_outline::spans::offset_of;
use ref_protocol::pieces::{Range, push_number, push_range, push_text};
use ref_workspace::{Silences, UnusedSilence, near_rule};
use std::alloc::{AllocError, Global};

// How a comment begins that silences rules.
const BEGIN: &str = "patchsard: ignore";

// The rule of a comment that silences nothing.
const CODE: &str = "unused-silence";

// The number of a document, and a line and a column there, from 1.
type Spot = (usize, usize, usize);

impl Judged {
    /// Adds the comments that silence nothing, or name a rule that there isn't, in those documents that are judged. A step for each byte of their texts.
    pub(crate) fn add_silences(
        &mut self,
        desk: &Desk<'_>,
        rules: &mut Rules,
        bounds: &Bounds,
        silences: &Silences<'_>,
    ) -> Result<(), AllocError> {
        if !may_silence(desk, bounds) {
            return Ok(());
        }
        let unused = silences.unused(desk.workspace.asked())?;
        for (spot, silence) in &unused {
            let (number, _, _) = *spot;
            if bounds.has(number) && desk.fault_of(number).is_none() {
                self.add_silence(desk, rules, *spot, silence)?;
            }
        }
        Ok(())
    }

    // Adds one of them, where it is told.
    fn add_silence(
        &mut self,
        desk: &Desk<'_>,
        rules: &mut Rules,
        spot: Spot,
        silence: &UnusedSilence<'_>,
    ) -> Result<(), AllocError> {
        let alloc = desk.alloc();
        let (number, _, _) = spot;
        let path = desk.path_of(number);
        let Some(level) = rules.level(path, CODE, Some(Level::Note))? else {
            return Ok(());
        };
        if !rules.shows(level) || !is_told(alloc, rules, path, silence)? {
            return Ok(());
        }
        let out = diagnostic_of(desk, level, spot, silence)?;
        let uri = desk.client_uri(number)?;
        self.push(alloc, number, uri, out.as_str())
    }
}

// A comment as a diagnostic in JSON.
fn diagnostic_of(
    desk: &Desk<'_>,
    level: Level,
    spot: Spot,
    silence: &UnusedSilence<'_>,
) -> Result<String, AllocError> {
    let alloc = desk.alloc();
    let text = said(alloc, silence)?;
    let mut out = String::new(alloc);
    push_range(&mut out, "{\"range\":", range_at(desk, spot, silence)?)?;
    push_number(&mut out, ",\"severity\":", severity_of(level))?;
    push_text(alloc, &mut out, ",\"code\":", CODE)?;
    out.push_str(",\"source\":\"patchsard\"")?;
    push_text(alloc, &mut out, ",\"message\":", text.as_str())?;
    push_marks(&mut out, CODE)?;
    out.push('}')?;
    Ok(out)
}

// Whether a text of a document that is judged may have such a comment.
fn may_silence(desk: &Desk<'_>, bounds: &Bounds) -> bool {
    for (number, document) in desk.workspace.asked_about().iter().enumerate() {
        if bounds.has(number) && document.text.text.as_str().contains(BEGIN) {
            return true;
        }
    }
    false
}

// Whether a comment is told, of the file at an absolute path: each rule that it names is on there, or one isn't a rule.
fn is_told(
    alloc: Global,
    rules: &mut Rules,
    path: &str,
    silence: &UnusedSilence<'_>,
) -> Result<bool, AllocError> {
    if silence.unknown.is_some() {
        return Ok(true);
    }
    for rule in silence.rules(alloc)? {
        let is_unlisted = rule == "unchecked-reference" && !rules.has_unchecked();
        if is_unlisted || rules.level(path, rule, Some(Level::Note))?.is_none() {
            return Ok(false);
        }
    }
    Ok(true)
}

// The range of a comment: its text, or in YAML what is on its line from its mark on.
fn range_at(
    desk: &Desk<'_>,
    (number, line, column): Spot,
    silence: &UnusedSilence<'_>,
) -> Result<Range, AllocError> {
    let (format, text) = desk.text_of(number);
    let start = offset_of(text, line, column);
    if silence.keyword.is_some() {
        let end = end_at(desk.alloc(), format, text, start)?;
        return Ok(range_of(desk, text, start, end));
    }
    let rest = text.get(start..).unwrap_or("");
    let comment = rest.split_once('\n').map_or(rest, |(front, _)| front);
    let end = start.saturating_add(comment.trim_end().len());
    Ok(range_of(desk, text, start, end))
}

// What is said of a comment.
fn said(alloc: Global, silence: &UnusedSilence<'_>) -> Result<String, AllocError> {
    let Some(name) = silence.unknown else {
        return String::from_str(alloc, "This comment silences nothing\nhelp: remove it");
    };
    if name.is_empty() {
        return String::from_str(
            alloc,
            "This comment is to silence, and names no rule\nhelp: name the rule: patchsard: ignore RULE: why",
        );
    }
    let mut text = format!(in alloc;
        "There is no rule '{name}', which this comment is to silence"
    )?;
    if let Some(near) = near_rule(alloc, name)? {
        write!(text, "\ndid you mean '{near}'?")?;
    }
    Ok(text)
}
