//! Scalars, aliases and properties, as they stand in a text.
use crate::bytes::{is_blank, is_flow_indicator, peek, word_end};
use crate::event::{Event, Kind, NOWHERE, Tag};
use crate::fault::{Fault, Leniency, Stop};
use crate::parser::{Parser, Properties};
use crate::quoted::{double_end, lines_of, single_end};
use crate::scan::{begins_plain, plain_end};

// A scalar or an alias, and whether it is on one line.
#[derive(Clone, Copy, Drop)]
pub(crate) struct Scalar {
    pub(crate) event: Event,
    pub(crate) is_one_line: bool,
}

// Where the name of an anchor or an alias ends (6.9.2).
pub(crate) fn name_end(text: &str, from: usize) -> usize {
    for at in from..text.len() {
        let byte = peek(text, at);
        if is_blank(byte) || is_flow_indicator(byte) {
            return at;
        }
    }
    text.len()
}

// The tag of the core schema that a text is (10.3).
fn tag_of(text: &str) -> Option<Tag> {
    if text == "!" {
        return Some(Tag::Any);
    }
    let name = match text.strip_prefix("!!") {
        Some(name) => name,
        None => text
            .strip_prefix("!<tag:yaml.org,2002:")?
            .strip_suffix(">")?,
    };
    match name {
        "str" => Some(Tag::Text),
        "int" => Some(Tag::Int),
        "float" => Some(Tag::Float),
        "bool" => Some(Tag::Bool),
        "null" => Some(Tag::Null),
        "seq" => Some(Tag::Array),
        "map" => Some(Tag::Object),
        _ => None,
    }
}

// Where a tag ends: one in `<>` may have commas.
fn tag_end(text: &str, from: usize) -> usize {
    if peek(text, from.saturating_add(1)) == b'<' {
        return word_end(text, from);
    }
    name_end(text, from)
}

impl Parser<'_> {
    // The scalar or the alias that is here, whose lines are indented by so many spaces at least.
    pub(crate) fn scan(&mut self, floor: usize, is_flow: bool) -> Result<Scalar, Stop> {
        match self.byte() {
            b'"' => self.scan_double(floor),
            b'\'' => self.scan_single(floor),
            b'*' => self.scan_alias(),
            _ => self.scan_plain(floor, is_flow),
        }
    }

    fn scan_plain(&self, floor: usize, is_flow: bool) -> Result<Scalar, Stop> {
        let start = self.here.at;
        if self.is_at_end() || !begins_plain(self.text, start, is_flow) {
            return self.fault(Fault::Begin);
        }
        let span = plain_end(self.text, start, floor, is_flow);
        Ok(Scalar {
            event: Event::new(Kind::Plain, start, span.end),
            is_one_line: span.is_one_line,
        })
    }

    fn scan_single(&self, floor: usize) -> Result<Scalar, Stop> {
        let start = self.here.at;
        let Some(span) = single_end(self.text, start.saturating_add(1)) else {
            return self.fault(Fault::End);
        };
        let lines = lines_of(self.text, start, span, floor);
        if let Some(marker) = lines.marker {
            return Err(Stop::At(Fault::End, marker));
        }
        if let Some(outside) = lines.outside {
            return Err(Stop::At(Fault::Shallow, outside.at));
        }
        Ok(Scalar {
            event: Event::new(Kind::SingleQuoted, start, span.end.saturating_add(1)),
            is_one_line: lines.is_one,
        })
    }

    fn scan_double(&mut self, floor: usize) -> Result<Scalar, Stop> {
        let start = self.here.at;
        let Some(span) = double_end(self.text, start.saturating_add(1)) else {
            return self.fault(Fault::End);
        };
        let lines = lines_of(self.text, start, span, floor);
        if let Some(marker) = lines.marker {
            return Err(Stop::At(Fault::End, marker));
        }
        if lines.outside.is_some() {
            self.note(Leniency::DoubleQuoted(start))?;
        }
        Ok(Scalar {
            event: Event::new(Kind::DoubleQuoted, start, span.end.saturating_add(1)),
            is_one_line: lines.is_one,
        })
    }

    fn scan_alias(&mut self) -> Result<Scalar, Stop> {
        let start = self.here.at;
        let end = name_end(self.text, start.saturating_add(1));
        if end <= start.saturating_add(1) {
            return self.fault(Fault::Properties);
        }
        self.has_links = true;
        Ok(Scalar {
            event: Event::new(Kind::Alias, start, end),
            is_one_line: true,
        })
    }

    // The anchor and the tag that are here, each once, and goes on after them.
    pub(crate) fn properties(&mut self, after: usize) -> Result<Properties, Stop> {
        if !matches!(self.byte(), b'&' | b'!') {
            return Ok(Properties::none(after));
        }
        self.pass_properties(after)
    }

    fn pass_properties(&mut self, after: usize) -> Result<Properties, Stop> {
        let mut own = Properties::none(after);
        for _ in 0..3 {
            if own.are_some() && self.is_line_over() {
                break;
            }
            match self.byte() {
                b'&' if own.anchor == NOWHERE => self.pass_anchor(&mut own)?,
                b'!' if own.tag == Tag::None => self.pass_tag(&mut own)?,
                b'&' | b'!' => return self.fault(Fault::Properties),
                _ => break,
            }
        }
        Ok(own)
    }

    fn pass_anchor(&mut self, own: &mut Properties) -> Result<(), Stop> {
        let start = self.here.at;
        let end = name_end(self.text, start.saturating_add(1));
        if end <= start.saturating_add(1) {
            return self.fault(Fault::Properties);
        }
        own.anchor = start;
        self.end_property(own, end)
    }

    fn pass_tag(&mut self, own: &mut Properties) -> Result<(), Stop> {
        let start = self.here.at;
        let end = tag_end(self.text, start);
        let Some(tag) = self.text.get(start..end).and_then(tag_of) else {
            return self.fault(Fault::Tag);
        };
        own.tag = tag;
        self.end_property(own, end)
    }

    // After a property white space has to come, or in brackets a comma or the closing bracket.
    fn end_property(&mut self, own: &mut Properties, end: usize) -> Result<(), Stop> {
        let byte = peek(self.text, end);
        if !is_blank(byte) && !matches!(byte, b',' | b']' | b'}') {
            return Err(Stop::At(Fault::Properties, end));
        }
        own.end = end;
        self.advance(end);
        Ok(())
    }
}
