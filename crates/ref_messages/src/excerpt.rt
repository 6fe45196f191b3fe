//! The line of a text that a message is about, and the part of it that is marked.
use ref_files::Format;

// How many bytes of a line are shown at most before the marked part, and from there on.
const MOST_BEFORE: usize = 60;

const MOST_AFTER: usize = 160;

/// A line of a text, and the part of it that a message is about. Of a long line it is what is near that part.
#[derive(Clone, Copy, Drop)]
pub struct Excerpt<'m> {
    /// The line before the marked part.
    pub before: &'m str,
    /// The marked part: a value, or where that is an object, a list or a text of more lines, its beginning.
    pub marked: &'m str,
    /// The line after it.
    pub after: &'m str,
    /// Whether something of the line is left out at its beginning.
    pub is_begun: bool,
}

impl<'m> Excerpt<'m> {
    /// The line around an offset of a text that is written so, with the value that begins there marked; `written` is what it says, where it is
    /// known. `None` where no character begins there. It looks at a few hundred bytes.
    pub fn at(
        format: Format,
        text: &'m str,
        offset: usize,
        written: Option<&str>,
    ) -> Option<Excerpt<'m>> {
        let (before, is_begun) = last_of(text.get(..offset)?);
        let rest = first_of(text.get(offset..)?);
        let end = end_of(format, rest, written);
        Some(Excerpt {
            before,
            marked: rest.get(..end).unwrap_or(rest),
            after: rest.get(end..).unwrap_or(""),
            is_begun,
        })
    }

    /// The line of a text with a number, with its part from a column on marked; both are from 1, and columns are characters. A step for each byte
    /// up to there.
    pub fn at_column(text: &'m str, line: usize, column: usize) -> Option<Excerpt<'m>> {
        let found = text.split('\n').nth(line.checked_sub(1)?)?;
        let found = found.strip_suffix('\r').unwrap_or(found);
        let offset = match found.char_indices().nth(column.checked_sub(1)?) {
            Some((offset, _)) => offset,
            None => found.len(),
        };
        let (before, is_begun) = last_of(found.get(..offset)?);
        let rest = first_of(found.get(offset..)?);
        let end = end_of_character(rest);
        Some(Excerpt {
            before,
            marked: rest.get(..end).unwrap_or(rest),
            after: rest.get(end..).unwrap_or(""),
            is_begun,
        })
    }
}

// The end of a text after its last line feed, and whether more of the line is before it.
fn last_of(text: &str) -> (&str, bool) {
    let begin = text.floor_char_boundary(text.len().saturating_sub(MOST_BEFORE));
    let near = text.get(begin..).unwrap_or("");
    match near.rsplit_once('\n') {
        Some((_, last)) => (last, false),
        None => (near, begin > 0),
    }
}

// The beginning of a text up to what ends its first line.
fn first_of(text: &str) -> &str {
    let end = text.floor_char_boundary(text.len().min(MOST_AFTER));
    let near = text.get(..end).unwrap_or("");
    let line = match near.split_once('\n') {
        Some((first, _)) => first,
        None => near,
    };
    line.strip_suffix('\r').unwrap_or(line)
}

// Where the value ends that a text begins with, which is written so.
fn end_of(format: Format, text: &str, written: Option<&str>) -> usize {
    match text.as_bytes().first() {
        Some(b'"') => end_of_quoted(text, b'"'),
        Some(b'\'') if format == Format::Yaml => end_of_quoted(text, b'\''),
        Some(b'{' | b'[') => 1,
        _ => match written {
            Some(written) if text.starts_with(written) => written.len(),
            _ => end_of_word(text),
        },
    }
}

// Where the text in quotes ends that a text begins with.
fn end_of_quoted(text: &str, quote: u8) -> usize {
    let bytes = text.as_bytes();
    let mut is_passed = true;
    for (index, byte) in bytes.iter().enumerate() {
        if is_passed {
            is_passed = false;
        } else if *byte == b'\\' && quote == b'"' {
            is_passed = true;
        } else if *byte == quote {
            return index + 1;
        }
    }
    bytes.len()
}

// Where the number, the word or the mark ends that a text begins with.
fn end_of_word(text: &str) -> usize {
    let bytes = text.as_bytes();
    for (index, byte) in bytes.iter().enumerate() {
        if matches!(*byte, b' ' | b'\t' | b',' | b'}' | b']' | b':') {
            return index.max(end_of_character(text));
        }
    }
    bytes.len()
}

// Where the first character ends.
fn end_of_character(text: &str) -> usize {
    match text.char_indices().nth(1) {
        Some((offset, _)) => offset,
        None => text.len(),
    }
}
