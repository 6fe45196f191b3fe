//! Objects in the text of a JSON document, and members that are added to them. What isn't added or replaced stays as it
//! is in the text.
use json::{Reader, Scratch, Token};
use serde_json::Value;
use std::alloc::{AllocError, Global};

/// Where an object is in a text, by offsets in bytes.
#[derive(Clone, Copy, Drop)]
pub struct ObjectText {
    /// Where it opens.
    pub open: usize,
    /// Where it closes.
    pub close: usize,
    /// Where its first key begins.
    pub first: Option<usize>,
    /// Where its last member ends.
    pub last: Option<usize>,
    /// Where the value begins and ends of the last member with the key that was looked for.
    pub found: Option<(usize, usize)>,
}

// The object that is being read.
#[derive(Clone, Copy, Drop)]
struct Scan<'k> {
    wanted: &'k str,
    depth: usize,
    is_wanted: bool,
    start: usize,
    object: ObjectText,
}

impl Scan<'_> {
    // Passes a token of the text, and returns whether the object ends with it.
    fn pass(&mut self, text: &str, token: &Token<'_>, offset: usize) -> bool {
        match token {
            Token::BeginObject | Token::BeginArray => self.enter(offset),
            Token::EndObject | Token::EndArray => return self.leave(offset),
            Token::Key(key) => self.pass_key(*key, offset),
            _ => self.pass_scalar(text, offset),
        }
        false
    }

    fn enter(&mut self, offset: usize) {
        match self.depth {
            0 => self.object.open = offset,
            1 => self.start = offset,
            _ => {}
        }
        self.depth = self.depth.saturating_add(1);
    }

    fn leave(&mut self, offset: usize) -> bool {
        self.depth = self.depth.saturating_sub(1);
        if self.depth == 1 {
            self.end_member(self.start, offset.saturating_add(1));
        }
        self.object.close = offset;
        self.depth == 0
    }

    fn pass_key(&mut self, key: &str, offset: usize) {
        if self.depth != 1 {
            return;
        }
        self.is_wanted = key == self.wanted;
        if self.object.first.is_none() {
            self.object.first = Some(offset);
        }
    }

    fn pass_scalar(&mut self, text: &str, offset: usize) {
        if self.depth == 1 {
            self.end_member(offset, end_of_scalar(text, offset));
        }
    }

    fn end_member(&mut self, start: usize, end: usize) {
        self.object.last = Some(end);
        if self.is_wanted {
            self.object.found = Some((start, end));
        }
    }
}

// Where a text, a number, a boolean or a null ends that begins at an offset.
pub(crate) fn end_of_scalar(text: &str, offset: usize) -> usize {
    let is_text = text.as_bytes().get(offset).copied() == Some(b'"');
    let mut is_escaped = false;
    for (place, byte) in text.as_bytes().iter().enumerate().skip(offset) {
        if !is_text {
            if matches!(*byte, b',' | b'}' | b']' | b' ' | b'\t' | b'\r' | b'\n') {
                return place;
            }
        } else if is_escaped {
            is_escaped = false;
        } else if *byte == b'\\' {
            is_escaped = true;
        } else if *byte == b'"' && place > offset {
            return place.saturating_add(1);
        }
    }
    text.len()
}

/// Where the object is that a text begins with, and the last of its members with a key. `None` where the text begins
/// with no object.
pub fn object_in(
    alloc: Global,
    text: &str,
    wanted: &str,
) -> Result<Option<ObjectText>, AllocError> {
    let mut scratch = Scratch::new(alloc);
    let mut reader = Reader::new(text, &mut scratch)?;
    let mut scan = Scan {
        wanted,
        depth: 0,
        is_wanted: false,
        start: 0,
        object: ObjectText {
            open: 0,
            close: 0,
            first: None,
            last: None,
            found: None,
        },
    };
    for number in 0..=text.len() {
        let offset = reader.offset();
        match reader.next() {
            None | Some(Token::Bad) => return Ok(None),
            Some(token) if number == 0 && !matches!(token, Token::BeginObject) => return Ok(None),
            Some(token) => {
                if scan.pass(text, &token, offset) {
                    return Ok(Some(scan.object));
                }
            }
        }
    }
    Ok(None)
}

/// How the members of an object are laid out.
#[derive(Clone, Copy, Drop)]
pub struct Layout<'t> {
    /// What ends a line; `None` where the object is on one line.
    pub newline: Option<&'static str>,
    /// What its members are indented by.
    pub indent: &'t str,
}

/// The layout of an object in a text, by its first member.
pub fn layout_of<'t>(text: &'t str, object: &ObjectText) -> Option<Layout<'t>> {
    let front = text.get(..object.first?)?;
    let Some((_, indent)) = front.rsplit_once('\n') else {
        return None;
    };
    if !indent.bytes().all(|byte| byte == b' ' || byte == b'\t') {
        return None;
    }
    let newline = if text.contains("\r\n") { "\r\n" } else { "\n" };
    Some(Layout {
        newline: Some(newline),
        indent,
    })
}

impl Layout<'_> {
    /// That of an object on one line.
    pub fn line() -> Layout<'static> {
        Layout {
            newline: None,
            indent: "",
        }
    }

    // Adds what is between two members, or in front of the first.
    fn push_break(&self, out: &mut String, depth: usize, is_first: bool) -> Result<(), AllocError> {
        match self.newline {
            Some(newline) => out.push_str(newline)?,
            None if is_first => {}
            None => out.push(' ')?,
        }
        push_indent(out, *self, depth)
    }
}

/// What is added to a document that becomes part of another.
#[derive(Clone, Copy, Drop)]
pub struct Added<'t> {
    /// The keyword of identifiers.
    pub keyword: &'t str,
    /// The identifier, where it has another or none.
    pub id: Option<&'t str>,
    /// The meta-schema, where it names none.
    pub schema: Option<&'t str>,
}

/// A document's text with what is added to it. `None` where it is no object.
pub fn with_added(
    alloc: Global,
    text: &str,
    added: Added<'_>,
) -> Result<Option<String>, AllocError> {
    let text = text.trim();
    let Some(object) = object_in(alloc, text, added.keyword)? else {
        return Ok(None);
    };
    let mut out = String::new(alloc);
    let open = object.open.saturating_add(1);
    push_range(&mut out, text, 0, open)?;
    push_front(alloc, &mut out, text, &object, added)?;
    let rest = match (object.found, added.id) {
        (Some((start, end)), Some(id)) => {
            push_range(&mut out, text, open, start)?;
            push_quoted(alloc, &mut out, id)?;
            end
        }
        _ => open,
    };
    push_range(&mut out, text, rest, text.len())?;
    Ok(Some(out))
}

// Adds the members that come first.
fn push_front(
    alloc: Global,
    out: &mut String,
    text: &str,
    object: &ObjectText,
    added: Added<'_>,
) -> Result<(), AllocError> {
    let layout = layout_of(text, object).unwrap_or(Layout::line());
    let id = if object.found.is_none() {
        added.id
    } else {
        None
    };
    let mut is_first = true;
    if let Some(schema) = added.schema {
        push_member(alloc, out, layout, "$schema", schema, is_first)?;
        is_first = false;
    }
    if let Some(id) = id {
        push_member(alloc, out, layout, added.keyword, id, is_first)?;
        is_first = false;
    }
    if is_first || object.first.is_none() {
        return Ok(());
    }
    out.push(',')?;
    if layout.newline.is_none() {
        out.push(' ')?;
    }
    Ok(())
}

fn push_member(
    alloc: Global,
    out: &mut String,
    layout: Layout<'_>,
    key: &str,
    text: &str,
    is_first: bool,
) -> Result<(), AllocError> {
    if !is_first {
        out.push(',')?;
    }
    layout.push_break(out, 1, is_first)?;
    push_quoted(alloc, out, key)?;
    out.push_str(": ")?;
    push_quoted(alloc, out, text)
}

fn push_quoted(alloc: Global, out: &mut String, text: &str) -> Result<(), AllocError> {
    let value = Value::String(String::from_str(alloc, text)?);
    let quoted = value.to_string(alloc)?;
    out.push_str(quoted.as_str())
}

fn push_range(out: &mut String, text: &str, start: usize, end: usize) -> Result<(), AllocError> {
    match text.get(start..end) {
        Some(part) => out.push_str(part),
        None => Ok(()),
    }
}

/// A document that becomes part of another, under its URI.
#[derive(Drop)]
pub struct Part {
    pub uri: String,
    pub text: String,
}

/// A document's text with others under a keyword that holds definitions. `None` where it is no object.
pub fn with_parts(
    alloc: Global,
    root: &str,
    keyword: &str,
    parts: &[Part],
) -> Result<Option<String>, AllocError> {
    let Some(object) = object_in(alloc, root, keyword)? else {
        return Ok(None);
    };
    let layout = layout_of(root, &object).unwrap_or(Layout::line());
    match object.found {
        Some((start, _)) => with_more(alloc, root, layout, start, parts),
        None => Ok(Some(with_map(alloc, root, layout, &object, keyword, parts)?)),
    }
}

// With documents after the members of the object that begins at an offset.
fn with_more(
    alloc: Global,
    root: &str,
    layout: Layout<'_>,
    start: usize,
    parts: &[Part],
) -> Result<Option<String>, AllocError> {
    let text = root.get(start..).unwrap_or("");
    let Some(map) = object_in(alloc, text, "")? else {
        return Ok(None);
    };
    let (layout, depth) = match layout_of(text, &map) {
        Some(own) => (own, 1),
        None => (layout, 2),
    };
    let is_empty = map.last.is_none();
    let end = start.saturating_add(map.last.unwrap_or(map.open.saturating_add(1)));
    let mut out = String::new(alloc);
    push_range(&mut out, root, 0, end)?;
    push_parts(alloc, &mut out, layout, depth, parts, is_empty)?;
    let rest = if is_empty {
        layout.push_break(&mut out, 1, true)?;
        start.saturating_add(map.close)
    } else {
        end
    };
    push_range(&mut out, root, rest, root.len())?;
    Ok(Some(out))
}

// With documents in an object of their own, after the members of the root.
fn with_map(
    alloc: Global,
    root: &str,
    layout: Layout<'_>,
    object: &ObjectText,
    keyword: &str,
    parts: &[Part],
) -> Result<String, AllocError> {
    let end = object.last.unwrap_or(object.open.saturating_add(1));
    let mut out = String::new(alloc);
    push_range(&mut out, root, 0, end)?;
    if object.last.is_some() {
        out.push(',')?;
    }
    layout.push_break(&mut out, 1, object.last.is_none())?;
    push_quoted(alloc, &mut out, keyword)?;
    out.push_str(": {")?;
    push_parts(alloc, &mut out, layout, 2, parts, true)?;
    layout.push_break(&mut out, 1, true)?;
    out.push('}')?;
    push_range(&mut out, root, end, root.len())?;
    Ok(out)
}

fn push_parts(
    alloc: Global,
    out: &mut String,
    layout: Layout<'_>,
    depth: usize,
    parts: &[Part],
    is_empty: bool,
) -> Result<(), AllocError> {
    let mut is_first = is_empty;
    for part in parts {
        if !is_first {
            out.push(',')?;
        }
        layout.push_break(out, depth, is_first)?;
        push_quoted(alloc, out, part.uri.as_str())?;
        out.push_str(": ")?;
        push_indented(out, layout, depth, part.text.as_str())?;
        is_first = false;
    }
    Ok(())
}

// Adds a text, whose lines but the first are indented.
fn push_indented(
    out: &mut String,
    layout: Layout<'_>,
    depth: usize,
    text: &str,
) -> Result<(), AllocError> {
    for (number, line) in text.split('\n').enumerate() {
        if number > 0 {
            out.push('\n')?;
            if !line.trim().is_empty() {
                push_indent(out, layout, depth)?;
            }
        }
        out.push_str(line)?;
    }
    Ok(())
}

fn push_indent(out: &mut String, layout: Layout<'_>, depth: usize) -> Result<(), AllocError> {
    for _ in 0..depth {
        out.push_str(layout.indent)?;
    }
    Ok(())
}
