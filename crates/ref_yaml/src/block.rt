//! Lists and objects of a block (8.2). A `depth` is how many levels may still begin.
use crate::block_scalar::block_scalar;
use crate::bytes::{after_white, is_blank, is_break, peek};
use crate::cursor::Cursor;
use crate::event::{Event, Kind};
use crate::fault::{Fault, Stop};
use crate::parser::{Parser, Properties};
use crate::scan::plain_line_end;

// Where a value of a block may be.
#[derive(Clone, Copy, Drop)]
pub(crate) struct Place {
    // The spaces that its lines have at least.
    pub(crate) floor: usize,
    // The same of a list's dashes.
    pub(crate) dash: usize,
    // Whether a list or an object may begin on the line that is begun.
    pub(crate) is_compact: bool,
    // Where an empty value would be.
    pub(crate) after: usize,
}

// What is before the content of a value.
#[derive(Clone, Copy, Drop)]
pub(crate) struct Node {
    pub(crate) start: Cursor,
    // The properties on lines before it.
    pub(crate) outer: Properties,
    // The properties on its line.
    pub(crate) own: Properties,
}

impl Node {
    // The properties of a scalar, those of its line where there are others.
    fn last(&self) -> Properties {
        if self.outer.are_some() && !self.own.are_some() {
            return self.outer;
        }
        self.own
    }

    // The properties of a scalar, which are on one line.
    fn both(&self) -> Result<Properties, Stop> {
        if self.outer.are_some() && self.own.are_some() {
            return Err(Stop::At(Fault::Properties, self.own.end));
        }
        Ok(self.last())
    }
}

impl Parser<'_> {
    // Whether a value is here that may be at a place.
    fn is_inside(&self, place: Place) -> bool {
        if self.is_at_end() {
            return false;
        }
        if !self.here.is_first {
            return true;
        }
        if self.here.is_marker(self.text) {
            return false;
        }
        self.here.indent >= place.floor
            || (self.here.indent >= place.dash && self.is_indicator(b'-'))
    }

    // The value that is here, or an empty one.
    #[cycle(node)]
    pub(crate) fn block_node(&mut self, place: Place, depth: usize) -> Result<(), Stop> {
        if !self.is_inside(place) {
            return self.push_empty(Properties::none(place.after));
        }
        if self.short_scalar(place)? {
            return Ok(());
        }
        let mut node = Node {
            start: self.here,
            outer: Properties::none(place.after),
            own: self.properties(place.after)?,
        };
        if node.own.are_some() && self.is_line_over() {
            if !self.is_inside(place) {
                return self.push_empty(node.own);
            }
            node = self.next_line(node.own)?;
            if !self.is_inside(place) {
                return self.push_empty(node.outer);
            }
        }
        self.content(place, node, depth)
    }

    // Adds a plain scalar that begins with a letter or a digit and ends its line, where the lines after it are indented too
    // little to belong to it, and goes on after it. Returns whether there is one.
    fn short_scalar(&mut self, place: Place) -> Result<bool, Stop> {
        if !self.byte().is_ascii_alphanumeric() {
            return Ok(false);
        }
        let start = self.here.at;
        let end = plain_line_end(self.text, start, false);
        if !is_break(peek(self.text, end)) {
            return Ok(false);
        }
        let next = Cursor::after(self.text, end, self.here.line);
        if next.at < self.text.len() && next.indent >= place.floor {
            return Ok(false);
        }
        self.push(Event::new(Kind::Plain, start, end))?;
        self.here = next;
        Ok(true)
    }

    // The value whose properties end a line. They may be on two lines.
    fn next_line(&mut self, first: Properties) -> Result<Node, Stop> {
        let mut outer = first;
        let mut start = self.here;
        let mut own = self.properties(start.at)?;
        if own.are_some() && self.is_line_over() {
            outer = first.and(own)?;
            start = self.here;
            own = self.properties(start.at)?;
            if own.are_some() && self.is_line_over() {
                return self.fault(Fault::Properties);
            }
        }
        Ok(Node { start, outer, own })
    }

    #[cycle(node)]
    fn content(&mut self, place: Place, node: Node, depth: usize) -> Result<(), Stop> {
        match self.byte() {
            b'|' | b'>' => self.block_text(place, node),
            b'[' | b'{' => self.flow_in_block(place, node, depth),
            b'-' | b'?' | b':' if self.is_indicator(self.byte()) => {
                self.block_list(place, node, depth)
            }
            _ => self.scalar_or_object(place, node, depth),
        }
    }

    fn block_text(&mut self, place: Place, node: Node) -> Result<(), Stop> {
        let own = node.both()?;
        let event = block_scalar(self.text, self.here.at, place.floor)?;
        self.push(own.with(event))?;
        self.here = Cursor::after(self.text, event.end, event.end);
        Ok(())
    }

    fn flow_in_block(&mut self, place: Place, node: Node, depth: usize) -> Result<(), Stop> {
        let start = self.here.at;
        self.flow_list(place.floor, node.last(), depth)?;
        if !self.here.is_first && self.byte() == b':' {
            return Err(Stop::At(Fault::Key, start));
        }
        node.both()?;
        Ok(())
    }

    // Whether a list or an object of a block may begin here.
    fn may_begin(&self, place: Place, node: Node) -> Result<(), Stop> {
        if node.start.has_tab {
            return Err(Stop::At(Fault::Tab, node.start.at));
        }
        if !node.start.is_first && !place.is_compact {
            return Err(Stop::At(Fault::Block, node.start.at));
        }
        Ok(())
    }

    // The list or the object that a dash, a question mark or a colon begins.
    #[cycle(node)]
    fn block_list(&mut self, place: Place, node: Node, depth: usize) -> Result<(), Stop> {
        self.may_begin(place, node)?;
        if depth == 0 {
            return self.fault(Fault::Depth);
        }
        if self.byte() == b':' {
            let key = node.own.with(Event::empty(self.here.at));
            return self.object(node, Some(key), depth - 1);
        }
        if node.own.are_some() {
            return self.fault(Fault::Properties);
        }
        if self.byte() == b'-' {
            return self.array(node, depth - 1);
        }
        self.object(node, None, depth - 1)
    }

    #[cycle(node)]
    fn array(&mut self, node: Node, depth: usize) -> Result<(), Stop> {
        let column = node.start.column();
        let index = self.open(Kind::BeginArray, node.start.at, node.outer)?;
        for _ in 0..=self.text.len() {
            let after = self.pass_byte();
            let place = Place {
                floor: column.saturating_add(1),
                dash: column.saturating_add(1),
                is_compact: true,
                after,
            };
            self.block_node(place, depth)?;
            if !self.goes_on(column)? || !self.is_indicator(b'-') {
                break;
            }
        }
        self.close_block(index)
    }

    // Whether another part of what begins at a column is here.
    fn goes_on(&self, column: usize) -> Result<bool, Stop> {
        if self.is_at_end() {
            return Ok(false);
        }
        if !self.here.is_first {
            return self.fault(Fault::After);
        }
        if self.here.has_tab {
            return self.fault(Fault::Tab);
        }
        if self.here.indent > column {
            return self.fault(Fault::Indentation);
        }
        Ok(self.here.indent == column && !self.here.is_marker(self.text))
    }

    // Whether a colon that ends a key is on the line after an offset.
    fn colon_after(&self, end: usize) -> Option<usize> {
        let at = after_white(self.text, end);
        if peek(self.text, at) == b':' && is_blank(peek(self.text, at.saturating_add(1))) {
            return Some(at);
        }
        None
    }

    #[cycle(node)]
    fn scalar_or_object(&mut self, place: Place, node: Node, depth: usize) -> Result<(), Stop> {
        let scalar = self.scan(place.floor, false)?;
        let Some(colon) = self.colon_after(scalar.event.end) else {
            let own = node.both()?;
            return self.end_scalar(own, scalar.event);
        };
        if !scalar.is_one_line {
            return Err(Stop::At(Fault::LongKey, scalar.event.start));
        }
        self.may_begin(place, node)?;
        if depth == 0 {
            return self.fault(Fault::Depth);
        }
        self.stand(colon);
        self.object(node, Some(node.own.with(scalar.event)), depth - 1)
    }

    // Adds a scalar, and goes on after it.
    pub(crate) fn end_scalar(&mut self, own: Properties, event: Event) -> Result<(), Stop> {
        if event.kind == Kind::Alias && own.are_some() {
            return Err(Stop::At(Fault::Properties, event.start));
        }
        self.push(own.with(event))?;
        self.advance(event.end);
        Ok(())
    }

    // An object, whose first key is given where a colon is here.
    #[cycle(node)]
    fn object(&mut self, node: Node, first: Option<Event>, depth: usize) -> Result<(), Stop> {
        let column = node.start.column();
        let start = match first {
            Some(key) => key.start,
            None => self.here.at,
        };
        let index = self.open(Kind::BeginObject, start, node.outer)?;
        match first {
            Some(key) => {
                self.push_key(key)?;
                self.member_value(column, false, depth)?;
            }
            None => self.member(column, depth)?,
        }
        for _ in 0..=self.text.len() {
            if !self.goes_on(column)? {
                break;
            }
            self.member(column, depth)?;
        }
        self.close_block(index)
    }

    fn push_key(&mut self, event: Event) -> Result<(), Stop> {
        let mut key = event;
        key.is_key = true;
        if key.kind == Kind::Alias && key.anchor != crate::event::NOWHERE {
            return Err(Stop::At(Fault::Properties, key.start));
        }
        self.note_merge(&key);
        self.push(key)
    }

    // Notes that a key merges.
    pub(crate) fn note_merge(&mut self, key: &Event) {
        if crate::links::is_merge(self.text, key) {
            self.has_links = true;
        }
    }

    // A key and its value.
    #[cycle(node)]
    fn member(&mut self, column: usize, depth: usize) -> Result<(), Stop> {
        if self.is_indicator(b'?') {
            return self.explicit_member(column, depth);
        }
        let key = self.implicit_key()?;
        self.push_key(key)?;
        self.member_value(column, false, depth)
    }

    // A key on one line, with its colon after it.
    fn implicit_key(&mut self) -> Result<Event, Stop> {
        let start = self.here.at;
        let own = self.properties(start)?;
        if own.are_some() && self.is_line_over() {
            return Err(Stop::At(Fault::Colon, start));
        }
        if self.is_indicator(b':') {
            return Ok(own.with(Event::empty(self.here.at)));
        }
        if matches!(self.byte(), b'[' | b'{') {
            return self.fault(Fault::Key);
        }
        let scalar = self.scan(usize::MAX, false)?;
        let Some(colon) = self.colon_after(scalar.event.end) else {
            return Err(Stop::At(Fault::Colon, scalar.event.start));
        };
        if !scalar.is_one_line {
            return Err(Stop::At(Fault::LongKey, scalar.event.start));
        }
        self.stand(colon);
        Ok(own.with(scalar.event))
    }

    // The value after the colon that is here.
    #[cycle(node)]
    fn member_value(&mut self, column: usize, is_compact: bool, depth: usize) -> Result<(), Stop> {
        let after = self.pass_byte();
        let place = Place {
            floor: column.saturating_add(1),
            dash: column,
            is_compact,
            after,
        };
        self.block_node(place, depth)
    }

    // A key after a question mark, and the value after a colon below it.
    #[cycle(node)]
    fn explicit_member(&mut self, column: usize, depth: usize) -> Result<(), Stop> {
        let index = self.events.len();
        self.member_value(column, true, depth)?;
        self.mark_key(index)?;
        if self.goes_on(column)? && self.is_indicator(b':') {
            return self.member_value(column, true, depth);
        }
        let end = self.last_end();
        self.push_empty(Properties::none(end))
    }

    // Where the last event ends.
    pub(crate) fn last_end(&self) -> usize {
        match self.events.last() {
            Some(event) => event.end,
            None => 0,
        }
    }
}
