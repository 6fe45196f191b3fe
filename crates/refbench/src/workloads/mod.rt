//! Workloads by which the cost of this project's calls is measured: of lines `CALL TEXT SIZE TIMES`, how long the texts
//! are that the calls returned, together.

mod deep;
mod line;
mod lookups;
mod parts;
mod places;
mod registries;
mod steps;
mod vocabularies;

use crate::refused::{Stop, Trial};
use crate::workloads::line::{Line, line_of};
use ref_uri::{UriRef, uri};
use std::alloc::{AllocError, Global};

/// A text of at least this many bytes: the piece of a named kind again and again, or else the word itself.
fn text_of(alloc: Global, kind: &str, size: usize) -> Result<String, AllocError> {
    let piece = match kind {
        "names" => "/definitions",
        "dots" => "/../a",
        "triples" => "/%7euser%2F",
        "encoded" => "/%2e%2e/a",
        word => word,
    };
    let mut text = String::new(alloc);
    for _ in 0..size {
        if text.len() >= size {
            break;
        }
        text.push_str(piece)?;
    }
    Ok(text)
}

/// What is measured.
#[derive(Clone, Copy)]
enum Call {
    /// The workload without a call.
    Nothing,
    Parse,
    Normalize,
    Resolve,
    FromStr,
    Against,
    FromText,
}

/// The call of a name.
fn call_of(name: &str) -> Option<Call> {
    match name {
        "nothing" => Some(Call::Nothing),
        "parse" => Some(Call::Parse),
        "normalize" => Some(Call::Normalize),
        "resolve" => Some(Call::Resolve),
        "from_str" => Some(Call::FromStr),
        "against" => Some(Call::Against),
        "from_text" => Some(Call::FromText),
        _ => None,
    }
}

/// How long the text is that a call returns; nothing where it returns none. A base is parsed where the call has one.
/// What a call returns is matched where it is, so that moving it costs nothing beside the call.
fn length_of(alloc: Global, call: Call, base: &str, text: &str) -> Option<usize> {
    match call {
        Call::Nothing => Some(text.len()),
        Call::Parse => match UriRef::parse(text) {
            Ok(reference) => Some(reference.as_str().len()),
            Err(_) => None,
        },
        Call::Normalize => Some(UriRef::parse(text).ok()?.normalize(alloc).ok()?.len()),
        Call::Resolve => resolved_len(alloc, base, text),
        Call::FromStr => match uri::from_str(alloc, text) {
            Ok(uri) => Some(uri.as_str().len()),
            Err(_) => None,
        },
        Call::Against => against_len(alloc, base, text),
        Call::FromText => vocabularies::length_of(alloc, text),
    }
}

/// How long the target of a reference against a base is.
fn resolved_len(alloc: Global, base: &str, text: &str) -> Option<usize> {
    let Ok(base) = UriRef::parse(base) else {
        return None;
    };
    let Ok(reference) = UriRef::parse(text) else {
        return None;
    };
    match reference.resolve_against(alloc, base) {
        Ok(uri) => Some(uri.as_str().len()),
        Err(_) => None,
    }
}

/// How long the URI is that a text means against a base.
fn against_len(alloc: Global, base: &str, text: &str) -> Option<usize> {
    let Ok(base) = UriRef::parse(base) else {
        return None;
    };
    match uri::resolve_against(alloc, base, text) {
        Ok(uri) => Some(uri.as_str().len()),
        Err(_) => None,
    }
}

/// How long the answers of a line's call on texts are together; nothing where there is no such call, or memory is refused.
fn measured(alloc: Global, line: Line<'_>) -> Option<u64> {
    let call = call_of(line.call)?;
    let text = text_of(alloc, line.text, line.size).ok()?;
    let mut sum: u64 = 0;
    for _ in 0..line.times {
        let length = length_of(alloc, call, "http://a/b/c/d;p?q", text.as_str());
        sum = sum.saturating_add(length.unwrap_or(0) as u64);
    }
    Some(sum)
}

/// What a line's workload returns; nothing where there is no such call, or one is refused.
fn answer(alloc: Global, line: Line<'_>) -> Option<u64> {
    match line.call {
        "get" | "scan" | "plain_scan" => parts::answer(alloc, line),
        "find" => vocabularies::answer(alloc, line),
        "deep" => deep::answer(alloc, line),
        "add" | "extend" | "prepare" => registries::answer(alloc, line),
        "lookup" | "lookup-owned" | "dynamic" | "dynamic-owned" => lookups::answer(alloc, line),
        "places" | "locate" | "dangling" => places::answer(alloc, line),
        "follow" => steps::answer(alloc, line),
        _ => measured(alloc, line),
    }
}

/// What is printed of a line.
pub fn row(alloc: Global, text: &str) -> Result<Trial, Stop> {
    let line = line_of(text).ok_or(Stop::Wrong)?;
    let sum = answer(alloc, line).ok_or(Stop::Wrong)?;
    let lines = format!(in alloc; "{text}: {sum}")?;
    Ok(Trial {
        lines,
        is_refused: false,
    })
}
