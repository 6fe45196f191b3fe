//! Where quoted texts end, and whether their lines are indented (7.3.1, 7.3.2).
use crate::bytes::{bytes_from, is_break, peek};
use crate::cursor::Cursor;
use crate::scan::Span;

// The offset of the single quote that ends a text, and whether the text is on one line.
pub(crate) fn single_end(text: &str, from: usize) -> Option<Span> {
    let mut is_second = false;
    let mut is_one_line = true;
    for at in from..text.len() {
        if is_second {
            is_second = false;
        } else {
            match peek(text, at) {
                b'\'' if peek(text, at + 1) != b'\'' => {
                    return Some(Span {
                        end: at,
                        is_one_line,
                    });
                }
                b'\'' => is_second = true,
                b'\n' | b'\r' => is_one_line = false,
                _ => (),
            }
        }
    }
    None
}

// The offset of the double quote that ends a text, and whether the text is on one line.
pub(crate) fn double_end(text: &str, from: usize) -> Option<Span> {
    let mut is_escaped = false;
    let mut is_one_line = true;
    for (at, byte) in bytes_from(text, from).iter().enumerate() {
        if *byte > b'\r' && *byte != b'"' && *byte != b'\\' {
            is_escaped = false;
        } else if *byte == b'"' && !is_escaped {
            return Some(Span {
                end: from.saturating_add(at),
                is_one_line,
            });
        } else {
            is_escaped = *byte == b'\\' && !is_escaped;
            is_one_line = is_one_line && !is_break(*byte);
        }
    }
    None
}

// How the lines of a quoted text lie.
#[derive(Clone, Copy, Drop)]
pub(crate) struct Lines {
    pub(crate) is_one: bool,
    // The first that is indented by too few spaces.
    pub(crate) outside: Option<Cursor>,
    // The first that begins or ends a document.
    pub(crate) marker: Option<usize>,
}

// The lines of what begins at an offset, which are to be indented by so many spaces at least.
pub(crate) fn lines_of(text: &str, from: usize, span: Span, floor: usize) -> Lines {
    let mut lines = Lines {
        is_one: true,
        outside: None,
        marker: None,
    };
    if span.is_one_line {
        return lines;
    }
    for at in from..span.end {
        if is_break(peek(text, at)) {
            lines.is_one = false;
            lines.pass(Cursor::on_line(text, at + 1, at + 1), text, floor);
        }
    }
    lines
}

impl Lines {
    // Passes the first place of a line.
    fn pass(&mut self, here: Cursor, text: &str, floor: usize) {
        if is_break(peek(text, here.at)) {
            return;
        }
        if here.indent < floor && self.outside.is_none() {
            self.outside = Some(here);
        }
        if here.is_marker(text) && self.marker.is_none() {
            self.marker = Some(here.at);
        }
    }
}
