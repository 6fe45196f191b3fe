//! Findings that are known, so that only new ones are listed.
ghost use Rattle.std.specs.Prelude.{◌≡◌, []};

use crate::members::push_member;
use crate::message::Message;
use serde_json::Value;
use std::alloc::{AllocError, Global};
use std::collections::BTreeMap;

/// Findings that are known: each by its file, its rule, its pointer and the text that it is about, or where that is none the keyword or the member, and not by its
/// line, so that it stays known where lines are added above it. As a text it is a list of JSON with an object for each, one a line, in byte order.
#[derive(Drop)]
pub struct Baseline {
    alloc: Global,
    // By the line of each, how often it is known.
    counts: BTreeMap<String, usize>,
}

impl Baseline {
    /// None.
    pub fn new(alloc: Global) -> Baseline
        ensures value { result.counts.entries ≡ [] }
    {
        Baseline {
            alloc,
            counts: BTreeMap::new(alloc),
        }
    }

    /// Those that a text lists. `None` where it is no JSON, or isn't a list of objects with the texts `file`, `rule`, `pointer` and `text`. Fails only if out of memory.
    pub fn parse(alloc: Global, text: &str) -> Result<Option<Baseline>, AllocError> {
        let value = match Value::from_str(alloc, text) {
            Ok(value) => value,
            Err(error) if error.is_memory() => return Err(AllocError),
            Err(_) => return Ok(None),
        };
        let Some(items) = value.as_array() else {
            return Ok(None);
        };
        let mut baseline = Baseline::new(alloc);
        for item in items {
            match line_in(alloc, item)? {
                Some(line) => baseline.add_line(line)?,
                None => return Ok(None),
            }
        }
        Ok(Some(baseline))
    }

    /// Adds a finding, whose file is called so.
    pub fn add(&mut self, file: &str, message: &Message<'_>) -> Result<(), AllocError> {
        let line = line_on(self.alloc, file, message)?;
        self.add_line(line)
    }

    fn add_line(&mut self, line: String) -> Result<(), AllocError> {
        let count = self.counts.entry(line)?.or_insert(0);
        *count = count.saturating_add(1);
        Ok(())
    }

    /// Whether a finding is known, whose file is called so. One that is known once is so once.
    pub fn take(&mut self, file: &str, message: &Message<'_>) -> Result<bool, AllocError> {
        if self.counts.is_empty() {
            return Ok(false);
        }
        let line = line_on(self.alloc, file, message)?;
        match self.counts.get_mut(line.as_str()) {
            Some(count) if *count > 0 => {
                *count -= 1;
                Ok(true)
            }
            _ => Ok(false),
        }
    }

    /// How many of them were not taken.
    pub fn left(&self) -> usize {
        let mut left: usize = 0;
        for (_, count) in &self.counts {
            left = left.saturating_add(*count);
        }
        left
    }

    /// Adds its text.
    pub fn push(&self, out: &mut String) -> Result<(), AllocError> {
        out.push('[')?;
        let mut is_first = true;
        for (line, count) in &self.counts {
            for _ in 0..*count {
                out.push_str(if is_first { "\n" } else { ",\n" })?;
                out.push_str(line.as_str())?;
                is_first = false;
            }
        }
        out.push_str("\n]\n")
    }
}

fn line_on(alloc: Global, file: &str, message: &Message<'_>) -> Result<String, AllocError> {
    let text = match message.reference {
        Some(text) => text,
        None => message.keyword.unwrap_or(""),
    };
    line_of(alloc, file, message.code, message.pointer.as_str(), text)
}

// The line of an object, where it has these texts.
fn line_in(alloc: Global, value: &Value) -> Result<Option<String>, AllocError> {
    let (Some(file), Some(rule), Some(pointer), Some(text)) = (
        text_at(value, "file"),
        text_at(value, "rule"),
        text_at(value, "pointer"),
        text_at(value, "text"),
    ) else {
        return Ok(None);
    };
    Ok(Some(line_of(alloc, file, rule, pointer, text)?))
}

fn text_at<'v>(value: &'v Value, key: &str) -> Option<&'v str> {
    value.get(key).and_then(Value::as_str)
}

fn line_of(
    alloc: Global,
    file: &str,
    rule: &str,
    pointer: &str,
    text: &str,
) -> Result<String, AllocError> {
    let mut line = String::new(alloc);
    push_member(alloc, &mut line, "{\"file\":", file)?;
    push_member(alloc, &mut line, ",\"rule\":", rule)?;
    push_member(alloc, &mut line, ",\"pointer\":", pointer)?;
    push_member(alloc, &mut line, ",\"text\":", text)?;
    line.push('}')?;
    Ok(line)
}
