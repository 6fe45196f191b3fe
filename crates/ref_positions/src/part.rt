//! Which key or value of a text is at an offset.
ghost use Rattle.std.specs.Prelude.{◌≤◌, IfOk, IfSome, length};

use crate::format::Format;
use crate::splice::end_of_scalar;
use json::{Reader, Scratch, Token};
use ref_yaml::{Document, Event, Kind, Stop};
use std::alloc::{AllocError, Global};

/// A step from an object or an array to what is in it.
#[derive(Drop)]
pub enum Step {
    /// To the value under a key.
    Member(String),
    /// To the item with an index, from 0.
    Item(usize),
}

/// A key or a value of a text.
#[derive(Drop)]
pub struct Part {
    /// The steps from the whole value to it, and of a key those to its value.
    pub path: Vec<Step>,
    /// Whether it is a key.
    pub is_key: bool,
    /// The offset of its first byte.
    pub start: usize,
    /// The offset after its last byte.
    pub end: usize,
}

/// The shortest key or value that an offset of a text is in or right after, where there is one: of several that are as short, as what an alias
/// means, the first. Of a text that is no JSON, that is found before the fault, and in one that is no YAML none. Fails only if out of memory.
///
/// One pass over the text, which copies each key.
pub fn part_at(
    alloc: Global,
    format: Format,
    text: &str,
    offset: usize,
) -> Result<Option<Part>, AllocError>
    ensures around { IfOk result
        (λ found. IfSome found (λ part. (part.start ≤ offset) × (offset ≤ part.end))) }
    ensures within { IfOk result
        (λ found. IfSome found (λ part. part.end ≤ length text.now)) }
{
    let mut search = Search {
        alloc,
        offset,
        levels: Vec::new(alloc),
        path: Vec::new(alloc),
        key: String::new(alloc),
        best: None,
    };
    match format {
        Format::Json => search.pass_json(text)?,
        Format::Yaml => search.pass_yaml(text)?,
    }
    let Search { best, .. } = search;
    match best {
        Some(part) if part.start <= offset && offset <= part.end && part.end <= text.len() => {
            Ok(Some(part))
        }
        _ => Ok(None),
    }
}

// An object or an array that is not yet closed: where it begins, and in an array the index of the next item.
#[derive(Clone, Copy, Drop)]
struct Level {
    start: usize,
    next: Option<usize>,
}

// What was found so far.
#[derive(Drop)]
struct Search {
    alloc: Global,
    offset: usize,
    levels: Vec<Level>,
    // The steps to the value that is read.
    path: Vec<Step>,
    // The last key.
    key: String,
    best: Option<Part>,
}

fn push(path: &mut Vec<Step>, step: Step) -> Result<(), AllocError> {
    path.push(step)?;
    Ok(())
}

// A copy of steps.
fn copied(alloc: Global, path: &[Step]) -> Result<Vec<Step>, AllocError> {
    let mut copy = Vec::new(alloc);
    for step in path {
        let step = match step {
            Step::Member(key) => Step::Member(key.clone()?),
            Step::Item(index) => Step::Item(*index),
        };
        push(&mut copy, step)?;
    }
    Ok(copy)
}

impl Search {
    fn pass_json(&mut self, text: &str) -> Result<(), AllocError> {
        let mut scratch = Scratch::new(self.alloc);
        let mut reader = Reader::new(text, &mut scratch)?;
        // Each token has a byte at least.
        for _ in 0..=text.len() {
            let start = reader.offset();
            let Some(token) = reader.next() else {
                break;
            };
            let is_near = start <= self.offset && self.offset <= reader.offset();
            let end = if is_near {
                end_of_scalar(text, start)
            } else {
                start
            };
            self.pass_token(&token, start, end)?;
        }
        Ok(())
    }

    fn pass_token(
        &mut self,
        token: &Token<'_>,
        start: usize,
        end: usize,
    ) -> Result<(), AllocError> {
        match token {
            Token::Key(key) => self.pass_key(*key, start, end),
            Token::BeginObject => self.open(start, None),
            Token::BeginArray => self.open(start, Some(0)),
            Token::EndObject | Token::EndArray => self.close(start.saturating_add(1)),
            Token::Bad => Ok(()),
            _ => self.pass_scalar(start, end),
        }
    }

    fn pass_yaml(&mut self, text: &str) -> Result<(), AllocError> {
        match Document::parse(self.alloc, text) {
            Ok(document) => {
                for event in document.events() {
                    self.pass_event(&document, event)?;
                }
                Ok(())
            }
            Err(Stop::Memory) => Err(AllocError),
            Err(Stop::At(..)) => Ok(()),
        }
    }

    fn pass_event(&mut self, document: &Document<'_>, event: &Event) -> Result<(), AllocError> {
        match event.kind {
            Kind::BeginObject => self.open(event.start, None),
            Kind::BeginArray => self.open(event.start, Some(0)),
            Kind::EndObject | Kind::EndArray => self.close(event.end),
            _ if event.is_key => match document.text_of(self.alloc, event) {
                Ok(key) => self.pass_key(key.as_str(), event.start, event.end),
                Err(Stop::Memory) => Err(AllocError),
                Err(Stop::At(..)) => self.pass_key("", event.start, event.end),
            },
            _ => self.pass_scalar(event.start, event.end),
        }
    }

    fn pass_key(&mut self, key: &str, start: usize, end: usize) -> Result<(), AllocError> {
        self.key = String::from_str(self.alloc, key)?;
        if !self.is_better(start, end) {
            return Ok(());
        }
        let step = Step::Member(self.key.clone()?);
        push(&mut self.path, step)?;
        let kept = self.keep(true, start, end);
        self.path.pop();
        kept
    }

    fn pass_scalar(&mut self, start: usize, end: usize) -> Result<(), AllocError> {
        self.enter()?;
        if self.is_better(start, end) {
            self.keep(false, start, end)?;
        }
        self.leave();
        Ok(())
    }

    fn open(&mut self, start: usize, next: Option<usize>) -> Result<(), AllocError> {
        self.enter()?;
        self.levels.push(Level { start, next })?;
        Ok(())
    }

    fn close(&mut self, end: usize) -> Result<(), AllocError> {
        let Some(level) = self.levels.pop() else {
            return Ok(());
        };
        if self.is_better(level.start, end) {
            self.keep(false, level.start, end)?;
        }
        self.leave();
        Ok(())
    }

    // Adds the step to the value that begins.
    fn enter(&mut self) -> Result<(), AllocError> {
        let Some(level) = self.levels.last_mut() else {
            return Ok(());
        };
        let step = match level.next {
            Some(index) => {
                level.next = Some(index.saturating_add(1));
                Step::Item(index)
            }
            None => Step::Member(self.key.clone()?),
        };
        push(&mut self.path, step)
    }

    // Takes away the step to the value that ends.
    fn leave(&mut self) {
        if !self.levels.is_empty() {
            self.path.pop();
        }
    }

    // Whether the offset is in a part or right after it, and the part is shorter than the one that was found.
    fn is_better(&self, start: usize, end: usize) -> bool {
        if self.offset < start || end < self.offset {
            return false;
        }
        match &self.best {
            Some(best) => end.saturating_sub(start) < best.end.saturating_sub(best.start),
            None => true,
        }
    }

    fn keep(&mut self, is_key: bool, start: usize, end: usize) -> Result<(), AllocError> {
        let path = copied(self.alloc, self.path.as_slice())?;
        self.best = Some(Part {
            path,
            is_key,
            start,
            end,
        });
        Ok(())
    }
}
