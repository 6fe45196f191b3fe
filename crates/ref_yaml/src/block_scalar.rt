//! Literal and folded texts: their first line, their indentation and their end (8.1).
use crate::bytes::{after_break, after_spaces, after_white, is_break, is_marker, line_end, peek};
use crate::event::{Event, Kind};
use crate::fault::{Fault, Stop};

// The first line of a literal or a folded text.
#[derive(Clone, Copy, Drop)]
struct Header {
    // The indentation that is written, or 0.
    digit: usize,
    // Where the next line begins.
    body: usize,
}

// The indicators after `|` or `>`.
fn indicators(text: &str, from: usize) -> Header {
    let mut header = Header {
        digit: 0,
        body: from,
    };
    let mut has_chomping = false;
    for _ in 0..2 {
        let byte = peek(text, header.body);
        match byte {
            b'1'..=b'9' if header.digit == 0 => header.digit = usize::from(byte - b'0'),
            b'-' | b'+' if !has_chomping => has_chomping = true,
            _ => break,
        }
        header.body = header.body.saturating_add(1);
    }
    header
}

// The first line of what begins at an offset, or nothing where something else is on that line.
fn header_at(text: &str, start: usize) -> Option<Header> {
    let mut header = indicators(text, start.saturating_add(1));
    let mut at = after_white(text, header.body);
    if peek(text, at) == b'#' && at > header.body {
        at = line_end(text, at);
    }
    if at < text.len() && !is_break(peek(text, at)) {
        return None;
    }
    header.body = after_break(text, at);
    Some(header)
}

// Whether only spaces are before the end of a line at an offset.
fn is_line_end(text: &str, at: usize) -> bool {
    at >= text.len() || is_break(peek(text, at))
}

// The spaces before the first line that isn't empty, which has as many as the empty ones before it at least; nothing where it has fewer.
fn indentation(text: &str, body: usize, floor: usize) -> Option<usize> {
    let mut longest = floor;
    let mut line = body;
    for _ in 0..text.len() {
        let at = after_spaces(text, line);
        let spaces = at.saturating_sub(line);
        if !is_line_end(text, at) {
            if spaces < floor || (spaces == 0 && is_marker(text, line)) {
                return Some(longest);
            }
            return if spaces < longest { None } else { Some(spaces) };
        }
        longest = longest.max(spaces);
        if at >= text.len() {
            break;
        }
        line = after_break(text, at);
    }
    Some(longest)
}

// Where the lines end that are indented by so many spaces at least, or are empty.
fn body_end(text: &str, body: usize, indent: usize) -> usize {
    let mut line = body;
    for _ in 0..text.len() {
        let at = after_spaces(text, line);
        if !is_line_end(text, at)
            && (at.saturating_sub(line) < indent || (at == line && is_marker(text, line)))
        {
            break;
        }
        line = after_break(text, line_end(text, at));
        if line >= text.len() {
            break;
        }
    }
    line
}

// Whether a line has nothing but white space with a tab.
fn is_tab_line(text: &str, line: usize) -> bool {
    let at = after_white(text, line);
    is_line_end(text, at) && at != after_spaces(text, line)
}

// The literal or folded text at an offset, whose lines are indented by so many spaces at least.
pub(crate) fn block_scalar(text: &str, start: usize, floor: usize) -> Result<Event, Stop> {
    let Some(header) = header_at(text, start) else {
        return Err(Stop::At(Fault::Header, start));
    };
    let indent = if header.digit > 0 {
        Some(floor.max(1).saturating_add(header.digit).saturating_sub(1))
    } else {
        indentation(text, header.body, floor)
    };
    let Some(spaces) = indent else {
        return Err(Stop::At(Fault::Indentation, header.body));
    };
    let kind = if peek(text, start) == b'|' {
        Kind::Literal
    } else {
        Kind::Folded
    };
    let end = body_end(text, header.body, spaces);
    if is_tab_line(text, end) {
        return Err(Stop::At(Fault::Tab, end));
    }
    let mut event = Event::new(kind, start, end);
    event.link = spaces;
    Ok(event)
}
