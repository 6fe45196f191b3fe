//! Lists and objects in brackets (7.4). A `floor` is the spaces that each line has at least, a `depth` how many levels
//! may still begin.
use crate::bytes::peek;
use crate::event::{Event, Kind};
use crate::fault::{Fault, Leniency, Stop};
use crate::parser::{Parser, Properties};
use crate::scan::{is_over, plain_line_end};

impl Parser<'_> {
    // Whether what is here may be in brackets that a byte closes.
    fn check_flow(&mut self, floor: usize, closing: u8) -> Result<(), Stop> {
        if self.is_at_end() || self.here.is_first && self.here.is_marker(self.text) {
            return self.fault(Fault::End);
        }
        if !self.here.is_first || self.here.indent >= floor {
            return Ok(());
        }
        if self.here.has_tab {
            return self.fault(Fault::Tab);
        }
        if self.byte() != closing || self.here.indent.saturating_add(1) != floor {
            return self.fault(Fault::Shallow);
        }
        self.note(Leniency::Bracket(self.here.at))
    }

    // Whether a part of what is in brackets may be here.
    fn check_part(&mut self, floor: usize) -> Result<(), Stop> {
        if matches!(self.byte(), b',' | b']' | b'}') {
            return Ok(());
        }
        self.check_flow(floor, 0)
    }

    // Whether something is here that isn't the closing bracket.
    fn is_open(&mut self, floor: usize, closing: u8) -> Result<bool, Stop> {
        self.check_flow(floor, closing)?;
        Ok(self.byte() != closing)
    }

    // Passes a comma, and returns whether something is after it; or the closing bracket is here.
    fn comma(&mut self, floor: usize, closing: u8) -> Result<bool, Stop> {
        if !self.is_open(floor, closing)? {
            return Ok(false);
        }
        if self.byte() != b',' {
            return self.fault(Fault::Comma);
        }
        self.pass_byte();
        self.is_open(floor, closing)
    }

    // Whether this indicator is here, with a blank, a comma or a bracket after it.
    fn is_flow_mark(&self, byte: u8) -> bool {
        self.byte() == byte && is_over(peek(self.text, self.here.at.saturating_add(1)), true)
    }

    // Whether a colon is here that makes a key of the last event.
    fn is_flow_colon(&self) -> bool {
        if self.byte() != b':' {
            return false;
        }
        let is_adjacent = match self.events.last() {
            Some(event) => event.is_like_json(),
            None => false,
        };
        is_adjacent || self.is_flow_mark(b':')
    }

    // The list or the object whose bracket is here.
    #[cycle(flow)]
    pub(crate) fn flow_list(
        &mut self,
        floor: usize,
        own: Properties,
        depth: usize,
    ) -> Result<(), Stop> {
        if depth == 0 {
            return self.fault(Fault::Depth);
        }
        if self.byte() == b'[' {
            return self.flow_array(floor, own, depth - 1);
        }
        self.flow_object(floor, own, depth - 1)
    }

    #[cycle(flow)]
    fn flow_array(&mut self, floor: usize, own: Properties, depth: usize) -> Result<(), Stop> {
        let index = self.open(Kind::BeginArray, self.here.at, own)?;
        self.pass_byte();
        let mut is_open = self.is_open(floor, b']')?;
        for _ in 0..self.text.len() {
            if !is_open {
                break;
            }
            self.flow_entry(floor, depth)?;
            is_open = self.comma(floor, b']')?;
        }
        self.close_flow(index)
    }

    #[cycle(flow)]
    fn flow_object(&mut self, floor: usize, own: Properties, depth: usize) -> Result<(), Stop> {
        let index = self.open(Kind::BeginObject, self.here.at, own)?;
        self.pass_byte();
        let mut is_open = self.is_open(floor, b'}')?;
        for _ in 0..self.text.len() {
            if !is_open {
                break;
            }
            self.flow_member(floor, depth)?;
            is_open = self.comma(floor, b'}')?;
        }
        self.close_flow(index)
    }

    fn close_flow(&mut self, index: usize) -> Result<(), Stop> {
        let at = self.here.at;
        let end = self.pass_byte();
        self.close(index, at, end)
    }

    // A value of a list, or a key and a value.
    #[cycle(flow)]
    fn flow_entry(&mut self, floor: usize, depth: usize) -> Result<(), Stop> {
        let start = self.here;
        if self.byte() == b',' {
            return self.fault(Fault::Begin);
        }
        let index = self.events.len();
        if self.is_indicator(b'?') {
            return self.flow_pair(floor, depth);
        }
        self.flow_node(floor, start.at, depth)?;
        if self.here.line != start.line || !self.is_flow_colon() {
            return Ok(());
        }
        if depth == 0 {
            return self.fault(Fault::Depth);
        }
        self.wrap(index)?;
        self.flow_value(floor, depth - 1)?;
        self.close_pair(index)
    }

    // A key after a question mark in a list, and its value.
    #[cycle(flow)]
    fn flow_pair(&mut self, floor: usize, depth: usize) -> Result<(), Stop> {
        if depth == 0 {
            return self.fault(Fault::Depth);
        }
        let index = self.open(
            Kind::BeginObject,
            self.here.at,
            Properties::none(self.here.at),
        )?;
        self.flow_member(floor, depth - 1)?;
        self.close_pair(index)
    }

    // Ends an object of one member that has no brackets.
    fn close_pair(&mut self, index: usize) -> Result<(), Stop> {
        let end = self.last_end();
        self.close(index, end, end)
    }

    // A key and its value.
    #[cycle(flow)]
    fn flow_member(&mut self, floor: usize, depth: usize) -> Result<(), Stop> {
        let mut start = self.here.at;
        if self.is_indicator(b'?') {
            start = self.pass_byte();
        } else if self.byte() == b',' {
            return self.fault(Fault::Begin);
        }
        let index = self.events.len();
        self.flow_node(floor, start, depth)?;
        self.mark_key(index)?;
        if self.is_flow_colon() {
            self.check_flow(floor, 0)?;
            return self.flow_value(floor, depth);
        }
        let end = self.last_end();
        self.push_empty(Properties::none(end))
    }

    // The value after the colon that is here.
    #[cycle(flow)]
    fn flow_value(&mut self, floor: usize, depth: usize) -> Result<(), Stop> {
        let after = self.pass_byte();
        self.flow_node(floor, after, depth)
    }

    // The anchor and the tag of a part, which may be on two lines.
    fn flow_properties(&mut self, floor: usize, after: usize) -> Result<Properties, Stop> {
        self.check_part(floor)?;
        if !matches!(self.byte(), b'&' | b'!') {
            return Ok(Properties::none(after));
        }
        let first = self.properties(after)?;
        self.check_part(floor)?;
        let second = self.properties(first.end)?;
        self.check_part(floor)?;
        first.and(second)
    }

    // Adds a plain scalar that begins with a letter or a digit, where a comma or a closing bracket ends it, and stands there. Returns
    // whether there is one.
    fn short_part(&mut self) -> Result<bool, Stop> {
        let start = self.here.at;
        if self.here.is_first || !self.byte().is_ascii_alphanumeric() {
            return Ok(false);
        }
        let end = plain_line_end(self.text, start, true);
        if !matches!(peek(self.text, end), b',' | b']' | b'}') {
            return Ok(false);
        }
        self.push(Event::new(Kind::Plain, start, end))?;
        self.stand(end);
        Ok(true)
    }

    // The value that is here, or an empty one.
    #[cycle(flow)]
    fn flow_node(&mut self, floor: usize, after: usize, depth: usize) -> Result<(), Stop> {
        if self.short_part()? {
            return Ok(());
        }
        let own = self.flow_properties(floor, after)?;
        match self.byte() {
            b'[' | b'{' => self.flow_list(floor, own, depth),
            b',' | b']' | b'}' => self.push_empty(own),
            b':' if self.is_flow_mark(b':') => self.push(own.with(Event::empty(self.here.at))),
            _ => {
                let scalar = self.scan(floor, true)?;
                self.end_scalar(own, scalar.event)
            }
        }
    }
}
