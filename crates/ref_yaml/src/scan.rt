//! Where plain scalars end (7.3.3).
use crate::bytes::{after_white, is_blank, is_break, is_flow_indicator, is_white, peek};
use crate::cursor::Cursor;

// Where a scalar ends, and whether it is on one line.
#[derive(Clone, Copy, Drop)]
pub(crate) struct Span {
    pub(crate) end: usize,
    pub(crate) is_one_line: bool,
}

// Whether a byte before another one can't go on with a plain scalar: in brackets a bracket or a comma too.
pub(crate) fn is_over(byte: u8, is_flow: bool) -> bool {
    is_blank(byte) || (is_flow && is_flow_indicator(byte))
}

// Whether a plain scalar ends before an offset.
fn ends_before(text: &str, at: usize, from: usize, is_flow: bool) -> bool {
    let byte = peek(text, at);
    match byte {
        b':' => is_over(peek(text, at.saturating_add(1)), is_flow),
        b'#' => at > from && is_white(peek(text, at.saturating_sub(1))),
        _ => is_break(byte) || (is_flow && is_flow_indicator(byte)),
    }
}

// The end of a plain scalar's line, without the white space after it.
pub(crate) fn plain_line_end(text: &str, from: usize, is_flow: bool) -> usize {
    let mut end = from;
    for at in from..text.len() {
        let byte = peek(text, at);
        if !byte.is_ascii_alphanumeric() {
            if ends_before(text, at, from, is_flow) {
                break;
            }
            if is_white(byte) {
                continue;
            }
        }
        end = at + 1;
    }
    end
}

// Where a plain scalar goes on after the end of a line, on lines that are indented by so many spaces at least.
fn continuation(text: &str, end: usize, floor: usize) -> Option<usize> {
    let at = after_white(text, end);
    if !is_break(peek(text, at)) {
        return None;
    }
    let here = Cursor::after_empty_lines(text, at);
    if here.at >= text.len() || here.indent < floor || peek(text, here.at) == b'#' {
        return None;
    }
    if here.is_marker(text) {
        return None;
    }
    Some(here.at)
}

// The end of a plain scalar that begins at an offset.
pub(crate) fn plain_end(text: &str, from: usize, floor: usize, is_flow: bool) -> Span {
    let mut end = plain_line_end(text, from, is_flow);
    let mut is_one_line = true;
    for _ in 0..text.len() {
        let Some(next) = continuation(text, end, floor) else {
            break;
        };
        let stop = plain_line_end(text, next, is_flow);
        if stop == next {
            break;
        }
        end = stop;
        is_one_line = false;
    }
    Span { end, is_one_line }
}

// Whether a plain scalar may begin at an offset.
pub(crate) fn begins_plain(text: &str, at: usize, is_flow: bool) -> bool {
    match peek(text, at) {
        b'-' | b'?' | b':' => !is_over(peek(text, at.saturating_add(1)), is_flow),
        b','
        | b'['
        | b']'
        | b'{'
        | b'}'
        | b'#'
        | b'&'
        | b'*'
        | b'!'
        | b'|'
        | b'>'
        | b'\''
        | b'"'
        | b'%'
        | b'@'
        | b'`' => false,
        _ => true,
    }
}
