//! Where the next part of a text is, past white space, comments and line breaks.
use crate::bytes::{after_break, after_spaces, after_white, is_break, is_marker, line_end, peek};

// A place in a text that is no white space, or its end.
#[derive(Clone, Copy, Drop)]
pub(crate) struct Cursor {
    pub(crate) at: usize,
    // Where its line begins.
    pub(crate) line: usize,
    // The spaces that its line begins with, where it is the first of its line.
    pub(crate) indent: usize,
    // Whether only white space is before it on its line.
    pub(crate) is_first: bool,
    // Whether a tab is in the white space before it.
    pub(crate) has_tab: bool,
}

impl Cursor {
    // The next place from an offset on, whose line begins at another. Comments are passed (6.6).
    pub(crate) fn after(text: &str, from: usize, line: usize) -> Cursor {
        let mut here = Cursor::on_line(text, from, line);
        for _ in 0..text.len() {
            let byte = peek(text, here.at);
            if byte == b'#' && (here.is_first || here.at != from) {
                here.at = line_end(text, here.at);
            } else if !is_break(byte) {
                break;
            }
            if here.at >= text.len() {
                break;
            }
            let next = after_break(text, here.at);
            here = Cursor::on_line(text, next, next);
        }
        here
    }

    // The next place on a line, or its end.
    pub(crate) fn on_line(text: &str, from: usize, line: usize) -> Cursor {
        let spaces = after_spaces(text, from);
        let at = match peek(text, spaces) {
            b'\t' => after_white(text, spaces),
            _ => spaces,
        };
        Cursor {
            at,
            line,
            indent: spaces.saturating_sub(line),
            is_first: from == line,
            has_tab: at != spaces,
        }
    }

    // The first place after empty lines from a line break on.
    pub(crate) fn after_empty_lines(text: &str, from: usize) -> Cursor {
        let mut next = after_break(text, from);
        let mut here = Cursor::on_line(text, next, next);
        for _ in 0..text.len() {
            if !is_break(peek(text, here.at)) {
                break;
            }
            next = after_break(text, here.at);
            here = Cursor::on_line(text, next, next);
        }
        here
    }

    pub(crate) fn column(&self) -> usize {
        self.at.saturating_sub(self.line)
    }

    // Whether a document begins or ends here.
    pub(crate) fn is_marker(&self, text: &str) -> bool {
        self.at == self.line && is_marker(text, self.at)
    }
}
