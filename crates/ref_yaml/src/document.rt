//! A text of one document.
ghost use Rattle.std.specs.Prelude.{◌≡◌, ◌+◌, ◌-◌, ◌≤◌, Some, All, IfOk, IfErr, IsTrue, List, [], length, string_bytes, ◌<◌};
ghost use Rattle.serde_json.specs.Data.{depth};
ghost use Rattle.serde_json.specs.View.{view};
ghost use Rattle.ref_yaml.specs.Values.{IsTextStop, IsValue};
ghost use Rattle.ref_yaml.specs.Events.{IsWithin, IsInPlace, IsStopWithin, are_apart, is_scalar, most_events};
ghost use Rattle.ref_yaml.specs.Scalars as spec;
ghost use Rattle.ref_yaml.specs.declared.event.Kind.TheVariants.{Plain, SingleQuoted, DoubleQuoted, Literal, Folded};

use crate::block::Place;
use crate::build::Builder;
use crate::bytes::{after_white, control_in, is_blank, line_end, peek, word_end};
use crate::cursor::Cursor;
use crate::event::{Event, are_in_order, are_in_place, are_within, events_of};
use crate::expand::expand;
use crate::fault::{Fault, Leniency, Stop};
use crate::links::link;
use crate::parser::Parser;
use crate::text::text_of;
use serde_json::Value;
use std::alloc::Global;

/// A text that was read: its events, with what aliases mean in their place.
#[derive(Drop)]
pub struct Document<'t> {
    text: &'t str,
    events: Vec<Event>,
    leniencies: Vec<Leniency>,
    is_in_order: bool,
    ghost order: { is_in_order ≡ are_apart 0 events.items },
    ghost in_place: { All (IsInPlace text.now) events.items },
    ghost within: { All (IsWithin (length text.now)) events.items },
    ghost some: { 0 < length events.items },
    ghost bound: { length events.items ≤ most_events (length text.now) },
}

// The events of a text with what aliases mean in their place.
fn expanded(alloc: Global, text: &str, events: Vec<Event>) -> Result<Vec<Event>, Stop> {
    let mut linked = events;
    link(alloc, text, linked.as_mut_slice())?;
    expand(alloc, text, linked.as_slice())
}

impl<'t> Document<'t> {
    /// Reads a text of one document (9.1). A byte order mark at its beginning is passed over.
    ///
    /// An error is memory, or what is wrong in its structure and where. What is wrong in a scalar, as an escape or a
    /// number, and a key that comes twice, [`Document::value`] finds. Linear in the text, but for aliases, as [`crate::from_str`].
    pub fn parse(alloc: Global, text: &'t str) -> Result<Document<'t>, Stop>
        ensures text { IfOk result (λ document. document.text.now ≡ text.now) }
        ensures fault { IfErr result (λ stop. IsStopWithin (length text.now) stop) }
    {
        match Document::read(alloc, text) {
            Ok(document) => Ok(document),
            Err(stop) => Err(stop.within(text.len())),
        }
    }

    fn read(alloc: Global, text: &'t str) -> Result<Document<'t>, Stop>
        ensures text { IfOk result (λ document. document.text.now ≡ text.now) }
    {
        if let Some(at) = control_in(text) {
            return Err(Stop::At(Fault::Character, at));
        }
        let from = if text.starts_with('\u{feff}') { 3 } else { 0 };
        let mut parser = Parser::new(alloc, text, from);
        parser.stream()?;
        let has_links = parser.has_links;
        let Parser {
            events,
            leniencies,
            ..
        } = parser;
        if has_links {
            let expanded = expanded(alloc, text, events)?;
            return Document::checked(text, expanded, leniencies, false);
        }
        Document::checked(text, events, leniencies, true)
    }

    // A document whose offsets are looked at once more, and how many events it has: without aliases they are fewer than ten for each byte, and in order.
    fn checked(
        text: &'t str,
        events: Vec<Event>,
        leniencies: Vec<Leniency>,
        is_ordered: bool,
    ) -> Result<Document<'t>, Stop>
        ensures text { IfOk result (λ document. document.text.now ≡ text.now) }
    {
        let is_bounded = !events.is_empty() && events.len() <= events_of(text.len());
        if !is_bounded || !are_within(events.as_slice(), text.len()) {
            return Err(Stop::At(Fault::Offsets, 0));
        }
        let is_in_order = are_in_order(events.as_slice());
        if !are_in_place(text.as_bytes(), events.as_slice()) || (is_ordered && !is_in_order) {
            return Err(Stop::At(Fault::Offsets, 0));
        }
        Ok(Document {
            text,
            events,
            leniencies,
            is_in_order,
        })
    }

    /// Its events, in the order of the text, with those of what an alias means in its place. Their offsets are within the
    /// text. It has one value: a scalar, or all from a beginning to its end. They are ten for each byte of the text at most,
    /// or a million where that is more.
    pub fn events(&self) -> &[Event]
        ensures value { result.now ≡ self.now.events.items }
        ensures within { All (IsWithin (length self.now.text.now)) result.now }
        ensures in_place { All (IsInPlace self.now.text.now) result.now }
        ensures some { 0 < length result.now }
        ensures bound { length result.now ≤ most_events (length self.now.text.now) }
    {
        self.events.as_slice()
    }

    /// Whether each event begins at the end of the one before it, or later. It is so where neither an alias nor `<<` brings
    /// events elsewhere.
    pub fn is_in_order(&self) -> bool
        ensures order { result ≡ are_apart 0 self.now.events.items }
    {
        self.is_in_order
    }

    /// What was read though YAML 1.2 doesn't have it.
    pub fn leniencies(&self) -> &[Leniency] {
        self.leniencies.as_slice()
    }

    /// The text that was read.
    pub fn text(&self) -> &'t str
        ensures value { result.now ≡ self.now.text.now }
    {
        self.text
    }

    /// The text of a key or a scalar: folding (6.5), escapes (5.7), chomping and indentation (8.1). An error is memory; an
    /// escape that there isn't, at the beginning of its text; or that the event isn't within this text, or is no scalar.
    /// Linear in the event's bytes.
    pub fn text_of(&self, alloc: Global, event: &Event) -> Result<String, Stop>
        ensures plain { IfOk result (λ s. event.now.kind ≡ Plain → string_bytes s
            ≡ spec.plain_text (spec.part self.now.text.now event.now.start event.now.end)) }
        ensures single { IfOk result (λ s. event.now.kind ≡ SingleQuoted → string_bytes s
            ≡ spec.single_text (spec.part self.now.text.now (event.now.start + 1) (event.now.end - 1))) }
        ensures double { IfOk result (λ s. event.now.kind ≡ DoubleQuoted → Some (string_bytes s)
            ≡ spec.double_text (spec.part self.now.text.now (event.now.start + 1) (event.now.end - 1))) }
        ensures literal { IfOk result (λ s. event.now.kind ≡ Literal
            → spec.IsLiteral self.now.text.now event.now.start event.now.end event.now.link (string_bytes s)) }
        ensures folded { IfOk result (λ s. event.now.kind ≡ Folded
            → spec.IsFolded self.now.text.now event.now.start event.now.end event.now.link (string_bytes s)) }
        ensures scalar { IfOk result (λ _. IsTrue (is_scalar event.now.kind)) }
        ensures refused { IfErr result (IsTextStop self.now.text.now event.now) }
    {
        text_of(alloc, self.text, event)
    }

    /// Its value, by the core schema (10.3.2). An error is memory; a key that comes twice in an object; a number that JSON
    /// doesn't have; an escape that there isn't; or a tag that its value doesn't fit. Linear in the events and their texts.
    pub fn value(&self, alloc: Global) -> Result<Value, Stop>
        ensures tree { IfOk result (λ v. IsValue self.now.text.now self.now.events.items (view v) []) }
        ensures depth { IfOk result (λ v. depth (view v) ≤ 127) }
        ensures fault { IfErr result (λ stop. IsStopWithin (length self.now.text.now) stop) }
    {
        let builder = Builder {
            alloc,
            text: self.text,
            events: self.events.as_slice(),
        };
        let mut at = 0;
        match builder.value(&mut at, 127) {
            Ok(value) if at >= self.events.len() => Ok(value),
            Ok(_) => Err(Stop::At(Fault::Offsets, 0)),
            Err(stop) => Err(stop.within(self.text.len())),
        }
    }
}

impl Parser<'_> {
    // Reads the one document.
    fn stream(&mut self) -> Result<(), Stop> {
        let is_directive = self.directive()?;
        let mut is_marked = false;
        if self.is_document_start() {
            let next = self.here.at.saturating_add(3);
            self.advance(next);
            is_marked = true;
        }
        if is_directive && !is_marked {
            return self.fault(Fault::Directive);
        }
        let place = Place {
            floor: 0,
            dash: 0,
            is_compact: false,
            after: self.here.at.min(self.text.len()),
        };
        self.block_node(place, 127)?;
        self.end_of_stream()
    }

    fn is_document_start(&self) -> bool {
        self.byte() == b'-' && self.here.is_marker(self.text)
    }

    // Passes a directive `%YAML`, and returns whether there is one.
    fn directive(&mut self) -> Result<bool, Stop> {
        if self.byte() != b'%' || self.here.at != self.here.line {
            return Ok(false);
        }
        let start = self.here.at;
        let end = word_end(self.text, start);
        let version = after_white(self.text, end);
        let version_end = word_end(self.text, version);
        let is_known = self.text.get(start..end) == Some("%YAML")
            && matches!(self.text.get(version..version_end), Some("1.1" | "1.2"));
        self.advance(version_end);
        if !is_known || !self.is_line_over() || self.byte() == b'%' {
            return Err(Stop::At(Fault::Directive, start));
        }
        Ok(true)
    }

    // Whether nothing but ends of the document is left (9.1.2, 9.2).
    fn end_of_stream(&mut self) -> Result<(), Stop> {
        if self.is_at_end() {
            return Ok(());
        }
        if !self.is_document_end() {
            return self.no_end();
        }
        for _ in 0..self.text.len() {
            if !self.is_document_end() {
                break;
            }
            let next = self.here.at.saturating_add(3);
            self.advance(next);
            if !self.is_line_over() {
                return self.fault(Fault::After);
            }
        }
        if self.is_at_end() {
            return Ok(());
        }
        self.fault(Fault::Document)
    }

    fn is_document_end(&self) -> bool {
        self.byte() == b'.' && self.here.is_first && self.here.is_marker(self.text)
    }

    // What is wrong where something else is after the document.
    fn no_end(&self) -> Result<(), Stop> {
        if !self.here.is_first {
            return self.fault(Fault::After);
        }
        if self.here.is_marker(self.text) {
            return self.fault(Fault::Document);
        }
        if self.here.has_tab {
            return self.fault(Fault::Tab);
        }
        self.fault(Fault::After)
    }
}
