//! The state of reading, and what each part of a text needs of it.
use crate::bytes::{is_blank, peek};
use crate::cursor::Cursor;
use crate::event::{Event, Kind, NOWHERE, Tag};
use crate::fault::{Fault, Leniency, Stop};
use std::alloc::Global;

#[derive(Drop)]
pub(crate) struct Parser<'t> {
    pub(crate) text: &'t str,
    pub(crate) here: Cursor,
    pub(crate) events: Vec<Event>,
    pub(crate) leniencies: Vec<Leniency>,
    // Whether there is an alias, or a key `<<`.
    pub(crate) has_links: bool,
}

// The anchor and the tag of a value (6.9).
#[derive(Clone, Copy, Drop)]
pub(crate) struct Properties {
    pub(crate) anchor: usize,
    pub(crate) tag: Tag,
    // Where they end, or the value would begin.
    pub(crate) end: usize,
}

impl Properties {
    pub(crate) fn none(end: usize) -> Properties {
        Properties {
            anchor: NOWHERE,
            tag: Tag::None,
            end,
        }
    }

    pub(crate) fn are_some(&self) -> bool {
        self.anchor != NOWHERE || self.tag != Tag::None
    }

    // These and others, which have the anchor or the tag that these lack.
    pub(crate) fn and(&self, others: Properties) -> Result<Properties, Stop> {
        if self.anchor != NOWHERE && others.anchor != NOWHERE {
            return Err(Stop::At(Fault::Properties, others.anchor));
        }
        if self.tag != Tag::None && others.tag != Tag::None {
            return Err(Stop::At(Fault::Properties, others.end));
        }
        Ok(Properties {
            anchor: self.anchor.min(others.anchor),
            tag: if self.tag == Tag::None {
                others.tag
            } else {
                self.tag
            },
            end: others.end,
        })
    }

    // An event with these.
    pub(crate) fn with(&self, event: Event) -> Event {
        let mut owner = event;
        owner.anchor = self.anchor;
        owner.tag = self.tag;
        owner
    }
}

impl<'t> Parser<'t> {
    pub(crate) fn new(alloc: Global, text: &'t str, from: usize) -> Parser<'t> {
        Parser {
            text,
            here: Cursor::after(text, from, from),
            events: Vec::new(alloc),
            leniencies: Vec::new(alloc),
            has_links: false,
        }
    }

    pub(crate) fn byte(&self) -> u8 {
        peek(self.text, self.here.at)
    }

    pub(crate) fn is_at_end(&self) -> bool {
        self.here.at >= self.text.len()
    }

    // Whether nothing more is on the line.
    pub(crate) fn is_line_over(&self) -> bool {
        self.here.is_first || self.is_at_end()
    }

    // Whether this indicator is here, with a blank after it.
    pub(crate) fn is_indicator(&self, byte: u8) -> bool {
        self.byte() == byte && is_blank(peek(self.text, self.here.at.saturating_add(1)))
    }

    // Goes on after an offset of this line.
    pub(crate) fn advance(&mut self, to: usize) {
        self.here = Cursor::after(self.text, to, self.here.line);
    }

    // Goes to an offset of this line, with more than white space before it.
    pub(crate) fn stand(&mut self, at: usize) {
        self.here.at = at;
        self.here.is_first = false;
    }

    // Goes on after the byte that is here, and returns where that is.
    pub(crate) fn pass_byte(&mut self) -> usize {
        let next = self.here.at.saturating_add(1);
        self.advance(next);
        next
    }

    pub(crate) fn fault<T>(&self, fault: Fault) -> Result<T, Stop> {
        Err(Stop::At(fault, self.here.at))
    }

    pub(crate) fn push(&mut self, event: Event) -> Result<(), Stop> {
        self.events.push(event)?;
        Ok(())
    }

    pub(crate) fn push_empty(&mut self, own: Properties) -> Result<(), Stop> {
        self.push(own.with(Event::empty(own.end)))
    }

    pub(crate) fn note(&mut self, leniency: Leniency) -> Result<(), Stop> {
        self.leniencies.push(leniency)?;
        Ok(())
    }

    // Begins a list or an object at an offset, and returns its index.
    pub(crate) fn open(&mut self, kind: Kind, at: usize, own: Properties) -> Result<usize, Stop> {
        let index = self.events.len();
        self.push(own.with(Event::new(kind, at, at)))?;
        Ok(index)
    }

    // Ends the list or the object that began at an index.
    pub(crate) fn close(&mut self, index: usize, at: usize, end: usize) -> Result<(), Stop> {
        let last = self.events.len();
        let mut kind = Kind::EndArray;
        if let Some(event) = self.events.get_mut(index) {
            event.link = last;
            if event.kind == Kind::BeginObject {
                kind = Kind::EndObject;
            }
        }
        self.push(Event::new(kind, at, end))
    }

    // Ends a list or an object of a block, after its last part.
    pub(crate) fn close_block(&mut self, index: usize) -> Result<(), Stop> {
        let at = match self.events.last() {
            Some(event) => event.end,
            None => 0,
        };
        self.close(index, at, at)
    }

    // Makes a key of what began at an index and is the last event.
    pub(crate) fn mark_key(&mut self, index: usize) -> Result<(), Stop> {
        let count = self.events.len();
        let Some(event) = self.events.get_mut(index) else {
            return self.fault(Fault::Key);
        };
        if index.saturating_add(1) != count || !event.is_leaf() {
            return Err(Stop::At(Fault::Key, event.start));
        }
        event.is_key = true;
        let key = *event;
        self.note_merge(&key);
        Ok(())
    }

    // Makes the last event, which is a scalar, the first key of an object.
    pub(crate) fn wrap(&mut self, index: usize) -> Result<(), Stop> {
        self.mark_key(index)?;
        let Some(key) = self.events.pop() else {
            return self.fault(Fault::Key);
        };
        self.open(Kind::BeginObject, key.start, Properties::none(key.start))?;
        self.push(key)
    }
}
