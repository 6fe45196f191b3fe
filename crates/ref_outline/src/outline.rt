//! Where each value of a text is.
ghost use Rattle.std.specs.Prelude.{◌≡◌, option_and_then, option_map, slice_get};
ghost use Rattle.std.specs.BTreeMap.{get_by_text};

use crate::spans::token_end;
use json::{Reader, Scratch, Token};
use ref_parts::{write_escaped_str, write_index};
use ref_positions::Format;
use ref_yaml::{Document, Event, Kind, Stop};
use std::alloc::{AllocError, Global};
use std::collections::BTreeMap;

/// A value of a text.
#[derive(Drop)]
pub struct Node {
    /// The pointer to it (RFC 6901).
    pub pointer: String,
    /// Where its key begins and ends, where it is a member.
    pub key: Option<(usize, usize)>,
    /// Where it begins.
    pub start: usize,
    /// Where it ends.
    pub end: usize,
    /// Whether it is an object or an array.
    pub is_large: bool,
    /// The number of the one that it is in.
    pub above: Option<usize>,
}

/// The values of a text, in its order.
#[derive(Drop)]
pub struct Outline {
    /// The values.
    pub nodes: Vec<Node>,
    numbers: BTreeMap<String, usize>,
}

// An object or an array that is not yet closed: its number, and in an array the index of the next item.
#[derive(Clone, Copy, Drop)]
struct Level {
    node: usize,
    next: Option<usize>,
}

#[derive(Drop)]
struct Walk {
    alloc: Global,
    nodes: Vec<Node>,
    levels: Vec<Level>,
    key: String,
    span: Option<(usize, usize)>,
}

impl Outline {
    /// Where the values of a text are. Of one that is no JSON, those before the fault, and of one that is no YAML none.
    pub fn of(alloc: Global, format: Format, text: &str) -> Result<Outline, AllocError> {
        let mut walk = Walk {
            alloc,
            nodes: Vec::new(alloc),
            levels: Vec::new(alloc),
            key: String::new(alloc),
            span: None,
        };
        match format {
            Format::Json => walk.pass_json(text)?,
            Format::Yaml => walk.pass_yaml(text)?,
        }
        let Walk { nodes, .. } = walk;
        let mut numbers = BTreeMap::new(alloc);
        for (number, node) in nodes.iter().enumerate() {
            numbers.insert(node.pointer.clone()?, number)?;
        }
        Ok(Outline { nodes, numbers })
    }

    /// The value at a pointer.
    pub fn at(&self, pointer: &str) -> Option<&Node>
        ensures value { option_map (λ node. node.now) result
            ≡ option_and_then (slice_get self.now.nodes.items)
            (get_by_text self.now.numbers pointer.now) }
    {
        self.nodes.get(*self.numbers.get(pointer)?)
    }
}

impl Walk {
    fn pass_json(&mut self, text: &str) -> Result<(), AllocError> {
        let mut scratch = Scratch::new(self.alloc);
        let mut reader = Reader::new(text, &mut scratch)?;
        for _ in 0..=text.len() {
            let start = reader.offset();
            let Some(token) = reader.next() else {
                break;
            };
            self.pass_token(text, &token, start)?;
        }
        self.close_all(text.len());
        Ok(())
    }

    fn pass_token(
        &mut self,
        text: &str,
        token: &Token<'_>,
        start: usize,
    ) -> Result<(), AllocError> {
        match token {
            Token::Key(key) => self.pass_key(*key, start, token_end(text, start)),
            Token::BeginObject => self.open(start, None),
            Token::BeginArray => self.open(start, Some(0)),
            Token::EndObject | Token::EndArray => {
                self.close(start.saturating_add(1));
                Ok(())
            }
            Token::Bad => Ok(()),
            _ => self.enter(start, token_end(text, start), false),
        }
    }

    fn pass_yaml(&mut self, text: &str) -> Result<(), AllocError> {
        match Document::parse(self.alloc, text) {
            Ok(document) => {
                for event in document.events() {
                    self.pass_event(&document, event)?;
                }
                self.close_all(text.len());
                Ok(())
            }
            Err(Stop::Memory) => Err(AllocError),
            Err(Stop::At(..)) => Ok(()),
        }
    }

    fn pass_event(&mut self, document: &Document<'_>, event: &Event) -> Result<(), AllocError> {
        match event.kind {
            Kind::BeginObject => self.open(event.start, None),
            Kind::BeginArray => self.open(event.start, Some(0)),
            Kind::EndObject | Kind::EndArray => {
                self.close(event.end);
                Ok(())
            }
            _ if event.is_key => match document.text_of(self.alloc, event) {
                Ok(key) => self.pass_key(key.as_str(), event.start, event.end),
                Err(Stop::Memory) => Err(AllocError),
                Err(Stop::At(..)) => self.pass_key("", event.start, event.end),
            },
            _ => self.enter(event.start, event.end, false),
        }
    }

    fn pass_key(&mut self, key: &str, start: usize, end: usize) -> Result<(), AllocError> {
        self.key = String::from_str(self.alloc, key)?;
        self.span = Some((start, end));
        Ok(())
    }

    fn open(&mut self, start: usize, next: Option<usize>) -> Result<(), AllocError> {
        let node = self.nodes.len();
        self.enter(start, start.saturating_add(1), true)?;
        self.levels.push(Level { node, next })?;
        Ok(())
    }

    fn close(&mut self, end: usize) {
        if let Some(level) = self.levels.pop() {
            if let Some(node) = self.nodes.get_mut(level.node) {
                node.end = end;
            }
        }
    }

    fn close_all(&mut self, end: usize) {
        for _ in 0..self.levels.len() {
            self.close(end);
        }
    }

    // Adds a value.
    fn enter(&mut self, start: usize, end: usize, is_large: bool) -> Result<(), AllocError> {
        let (pointer, key) = self.step()?;
        let above = self.levels.last().map(|level| level.node);
        self.nodes.push(Node {
            pointer,
            key,
            start,
            end,
            is_large,
            above,
        })?;
        Ok(())
    }

    // The pointer to the value that comes, and where its key is.
    fn step(&mut self) -> Result<(String, Option<(usize, usize)>), AllocError> {
        let Some(level) = self.levels.last_mut() else {
            return Ok((String::new(self.alloc), None));
        };
        let mut pointer = match self.nodes.get(level.node) {
            Some(node) => node.pointer.clone()?,
            None => String::new(self.alloc),
        };
        pointer.push('/')?;
        match level.next {
            Some(index) => {
                level.next = Some(index.saturating_add(1));
                write_index(&mut pointer, index)?;
                Ok((pointer, None))
            }
            None => {
                write_escaped_str(&mut pointer, self.key.as_str())?;
                Ok((pointer, self.span))
            }
        }
    }
}
