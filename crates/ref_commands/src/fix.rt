//! `patchsard lint --fix`.
use crate::known::Known;
use crate::listed::Listing;
use crate::message::message_at;
use crate::opened::Opened;
use clap::ArgMatches;
use ref_command_line::{Console, Stop, say, say_of};
use ref_files::{DocumentText, WriteError, write_file};
use ref_findings::Level as Severity;
use ref_fixes::{Replacement, meant_text, mended, replaced, unified};
use ref_messages::{Message, Plain};
use ref_parts::pointer_of;
use ref_workspace::{Describer, Finding, Workspace};
use serde_json::Value;
use std::alloc::{AllocError, Global};
use std::collections::BTreeMap;
use std::{fs, io};

// The byte order mark, which is passed over at the beginning of a file.
const MARK: &str = "\u{feff}";

// A text under a keyword that is to be another one.
#[derive(Drop)]
struct Fix {
    // The number of the document.
    source: usize,
    // The pointer of the value whose keyword it is.
    pointer: String,
    keyword: String,
    line: usize,
    column: usize,
    // The text, and the one that is meant.
    text: String,
    meant: String,
    // What is replaced in the document's text.
    part: Replacement,
}

// A document with fixes, and its text without them.
#[derive(Drop)]
struct Source {
    number: usize,
    text: String,
}

/// Mends the references whose messages suggest one text alone, where what is meant leads somewhere: the documents are judged with all of it
/// mended, and what is still an error is left as it was, until nothing is. Returns how many are mended. Each file is replaced in one
/// step, unless it isn't what was read any more; with `--dry-run` none is, and the lines that would change are printed.
pub fn make_fixes(
    rt: &HostRuntime,
    console: &mut Console<'_>,
    given: &ArgMatches<'_>,
    listing: &mut Listing,
    opened: &mut Opened<'_>,
) -> Result<usize, Stop> {
    let fixes = fixes_of(rt, given, listing, &*opened)?;
    let sources = sources_of(rt.alloc(), &opened.workspace, fixes.as_slice())?;
    let fixes = tried(rt.alloc(), &mut opened.workspace, sources.as_slice(), fixes)?;
    let is_dry = given.get_flag("dry-run");
    let mut count: usize = 0;
    for source in &sources {
        let parts = parts_of(rt.alloc(), fixes.as_slice(), source.number)?;
        if parts.is_empty() {
            continue;
        }
        let Some(mark) = mark_of(rt, &*opened, source)? else {
            opened.has_failed = true;
            continue;
        };
        count = count.saturating_add(parts.len());
        if is_dry {
            print(rt, console, &*opened, source, (mark, parts))?;
        } else {
            write(rt, &*opened, source, mark)?;
            say_fixed(rt, &*opened, fixes.as_slice(), source.number)?;
        }
    }
    console.finish()?;
    Ok(count)
}

// What is before the text of a document in its file now: a byte order mark or nothing. Where the file has another text, that is said, and there is none.
fn mark_of(
    rt: &HostRuntime,
    opened: &Opened<'_>,
    source: &Source,
) -> Result<Option<&'static str>, Stop> {
    let Some(path) = opened.paths.get(source.number) else {
        return Ok(None);
    };
    let path = path.as_str();
    let now = match fs::read_to_string(rt, path) {
        Ok(now) => now,
        Err(error) if error.kind() == io::ErrorKind::OutOfMemory => return Err(Stop::Memory),
        Err(error) => {
            say_of(rt, path, error);
            return Ok(None);
        }
    };
    let text = source.text.as_str();
    if now.as_str() == text {
        return Ok(Some(""));
    }
    if now.as_str().strip_prefix(MARK) == Some(text) {
        return Ok(Some(MARK));
    }
    say_of(
        rt,
        path,
        "was changed since it was read, and is left as it is",
    );
    Ok(None)
}

// Prints the lines of a file that would change.
fn print(
    rt: &HostRuntime,
    console: &mut Console<'_>,
    opened: &Opened<'_>,
    source: &Source,
    (mark, parts): (&str, Vec<Replacement>),
) -> Result<(), Stop> {
    let alloc = rt.alloc();
    let mut all = Vec::with_capacity(alloc, parts.len())?;
    for part in parts {
        push_after(&mut all, part, mark.len())?;
    }
    let text = [mark, source.text.as_str()].join(alloc, "")?;
    let name = opened.workspace.name(source.number);
    let lines = unified(alloc, name, text.as_str(), all.as_slice())?;
    console.out.push_str(lines.as_str())?;
    console.pass()
}

// Adds a part of a text that has so many bytes more before it.
fn push_after(
    parts: &mut Vec<Replacement>,
    part: Replacement,
    more: usize,
) -> Result<(), AllocError> {
    let Replacement { start, end, text } = part;
    parts.push(Replacement {
        start: start.saturating_add(more),
        end: end.saturating_add(more),
        text,
    })?;
    Ok(())
}

// Says what the texts of a document were and are now.
fn say_fixed(
    rt: &HostRuntime,
    opened: &Opened<'_>,
    fixes: &[Fix],
    number: usize,
) -> Result<(), AllocError> {
    let name = opened.workspace.name(number);
    let mut end: usize = 0;
    for fix in fixes {
        if fix.source == number && end <= fix.part.start {
            end = fix.part.end;
            let place = format!(in rt.alloc(); "{name}:{}:{}", fix.line, fix.column)?;
            let what = format!(in rt.alloc();
                "{} '{}' is now '{}'",
                Plain(fix.keyword.as_str()),
                Plain(fix.text.as_str()),
                Plain(fix.meant.as_str())
            )?;
            say_of(rt, place.as_str(), what);
        }
    }
    Ok(())
}

// Writes the text that a document has now to its file, after a mark.
fn write(rt: &HostRuntime, opened: &Opened<'_>, source: &Source, mark: &str) -> Result<(), Stop> {
    let (Some(path), Some(document)) = (
        opened.paths.get(source.number),
        opened.workspace.documents().get(source.number),
    ) else {
        return Ok(());
    };
    let text = [mark, document.text.text.as_str()].join(rt.alloc(), "")?;
    match write_file(rt, path.as_str(), text.as_str()) {
        Ok(()) => Ok(()),
        Err(WriteError::Memory) => Err(Stop::Memory),
        Err(WriteError::File { path, error }) => {
            match error.kind() {
                io::ErrorKind::AlreadyExists => say_of(
                    rt,
                    path.as_str(),
                    "a file with this name is there, as a fix that was broken off leaves it",
                ),
                _ => say_of(rt, path.as_str(), error),
            }
            say(rt, "not all files are fixed");
            Err(Stop::Reported)
        }
    }
}

// What may be mended of what is listed, in the order of the list.
fn fixes_of(
    rt: &HostRuntime,
    given: &ArgMatches<'_>,
    listing: &mut Listing,
    opened: &Opened<'_>,
) -> Result<Vec<Fix>, Stop> {
    let alloc = rt.alloc();
    let report = opened.report(alloc)?;
    let findings = report.findings.as_slice();
    let mut describer = Describer::new(alloc, &opened.workspace, findings, false)?;
    let mut known = Known::of(rt, given, opened)?;
    let mut fixes = Vec::new(alloc);
    for place in 0..describer.len() {
        let Some(finding) = describer.finding(place) else {
            continue;
        };
        if let Some(message) = message_at(rt, opened, &mut describer, place)? {
            let fix = fix_of(alloc, opened, listing, &mut known, finding, &message);
            drop(message);
            if let Some(fix) = fix? {
                push(&mut fixes, fix)?;
            }
        }
    }
    Ok(fixes)
}

fn push(fixes: &mut Vec<Fix>, fix: Fix) -> Result<(), AllocError> {
    fixes.push(fix)?;
    Ok(())
}

// What mends a finding in a file that is asked about, where it is listed, and one text alone is meant.
fn fix_of(
    alloc: Global,
    opened: &Opened<'_>,
    listing: &mut Listing,
    known: &mut Known<'_>,
    finding: &Finding<'_>,
    message: &Message<'_>,
) -> Result<Option<Fix>, AllocError> {
    let source = finding.source;
    let (Some(path), Some(document)) = (
        opened.paths.get(source),
        opened.workspace.asked_about().get(source),
    ) else {
        return Ok(None);
    };
    if !message.is_only || opened.input == Some(source) {
        return Ok(None);
    }
    let path = path.as_str();
    if !known.is_listed(path, listing, finding, message)? {
        return Ok(None);
    }
    let text = document.text.text.as_str();
    let (Some(meant), Some(part), Some(keyword)) = (
        meant_text(alloc, finding, message)?,
        mended(alloc, finding, message, (document.text.format, text))?,
        message.keyword,
    ) else {
        return Ok(None);
    };
    Ok(Some(Fix {
        source,
        pointer: message.pointer.clone()?,
        keyword: String::from_str(alloc, keyword)?,
        line: message.line,
        column: message.column,
        text: String::from_str(alloc, message.reference.unwrap_or(""))?,
        meant,
        part,
    }))
}

// The documents that have fixes.
fn sources_of(
    alloc: Global,
    workspace: &Workspace,
    fixes: &[Fix],
) -> Result<Vec<Source>, AllocError> {
    let mut numbers = BTreeMap::new(alloc);
    for fix in fixes {
        numbers.insert(fix.source, ())?;
    }
    let mut sources = Vec::new(alloc);
    for (number, _) in &numbers {
        if let Some(document) = workspace.documents().get(*number) {
            sources.push(Source {
                number: *number,
                text: document.text.text.clone()?,
            })?;
        }
    }
    Ok(sources)
}

// Those fixes after which the places that they mend have no error, once all of them are made in the workspace.
fn tried(
    alloc: Global,
    workspace: &mut Workspace,
    sources: &[Source],
    fixes: Vec<Fix>,
) -> Result<Vec<Fix>, AllocError> {
    let mut fixes = fixes;
    for _ in 0..u64::MAX {
        for source in sources {
            make(alloc, workspace, source, fixes.as_slice())?;
        }
        let left = left_of(alloc, workspace, fixes.as_slice())?;
        let count = fixes.len();
        let mut kept = Vec::with_capacity(alloc, count)?;
        for (fix, is_error) in fixes.into_iter().zip(left.into_iter()) {
            if !is_error {
                kept.push(fix)?;
            }
        }
        fixes = kept;
        if fixes.len() == count {
            break;
        }
    }
    Ok(fixes)
}

// Makes the fixes of a document in the workspace.
fn make(
    alloc: Global,
    workspace: &mut Workspace,
    source: &Source,
    fixes: &[Fix],
) -> Result<(), AllocError> {
    let parts = parts_of(alloc, fixes, source.number)?;
    let text = match replaced(alloc, source.text.as_str(), parts.as_slice())? {
        Some(text) => text,
        None => source.text.clone()?,
    };
    let format = workspace.format(source.number);
    workspace.replace(source.number, DocumentText::new(alloc, format, text)?);
    Ok(())
}

// What fixes replace in a document, each part once: what an alias of YAML means is at several places, and its text at one.
fn parts_of(alloc: Global, fixes: &[Fix], number: usize) -> Result<Vec<Replacement>, AllocError> {
    let mut parts = Vec::new(alloc);
    let mut end: usize = 0;
    for fix in fixes {
        if fix.source == number && end <= fix.part.start {
            end = fix.part.end;
            parts.push(Replacement {
                start: fix.part.start,
                end: fix.part.end,
                text: fix.part.text.clone()?,
            })?;
        }
    }
    Ok(parts)
}

// Which of the fixes that are made in the workspace are no use: the keyword hasn't the text that is meant, or is still in error.
fn left_of(alloc: Global, workspace: &Workspace, fixes: &[Fix]) -> Result<Vec<bool>, AllocError> {
    let report = workspace.full_report(alloc)?;
    let mut errors = BTreeMap::new(alloc);
    for finding in &report.findings {
        if let (Severity::Error, Some(keyword)) = (finding.problem.level(), finding.keyword) {
            let pointer = pointer_of(alloc, finding.path.as_slice())?;
            let key = key_of(alloc, finding.source, pointer.as_str(), keyword)?;
            errors.insert(key, ())?;
        }
    }
    let mut left = Vec::with_capacity(alloc, fixes.len())?;
    for fix in fixes {
        let key = key_of(
            alloc,
            fix.source,
            fix.pointer.as_str(),
            fix.keyword.as_str(),
        )?;
        left.push(!is_made(workspace, fix) || errors.get(key.as_str()).is_some())?;
    }
    Ok(left)
}

// A text for each keyword of a value of a document.
fn key_of(
    alloc: Global,
    source: usize,
    pointer: &str,
    keyword: &str,
) -> Result<String, AllocError> {
    format!(in alloc; "{source} {keyword} {pointer}")
}

// Whether the keyword of a fix has the text that is meant.
fn is_made(workspace: &Workspace, fix: &Fix) -> bool {
    let Some(value) = workspace.value(fix.source) else {
        return false;
    };
    let Some(place) = value.pointer(fix.pointer.as_str()) else {
        return false;
    };
    place.get(fix.keyword.as_str()).and_then(Value::as_str) == Some(fix.meant.as_str())
}
