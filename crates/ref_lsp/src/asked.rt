//! Which document and which place of it a request is about.
ghost use Rattle.std.specs.Prelude.{◌≡◌, option_map};
ghost use Rattle.ref_lsp.specs.Asking as spec;
ghost use Rattle.ref_lsp.specs.Keys as keys;

use crate::desk::Desk;
use crate::judged::range_of;
use crate::keys::{has_keyword, is_key, is_mapped, is_reference, key_before};
use crate::ranges::last_line;
use crate::texts::offset_in;
use ref_descriptions::{Version, reading_of_root, version_of};
use ref_draft::Draft;
use ref_files::{DocumentText, Format, file_uri};
use ref_fixes::as_fragment;
use ref_outline::Outline;
use ref_outline::spans::{decoded, part_in, pointer_of_steps};
use ref_parts::write_escaped_str;
use ref_positions::{Part, Step};
use ref_protocol::encoding::place_at;
use ref_protocol::pieces::Range;
use ref_protocol::refusal::Refusal;
use serde_json::Value;
use std::alloc::{AllocError, Global};

/// A place that is asked about.
#[derive(Drop)]
pub struct Asked {
    /// The number of the document.
    pub number: usize,
    /// The offset.
    pub offset: usize,
    /// The key or the value there, where there is one.
    pub part: Option<Part>,
    /// The pointer to the value, or to that of the key.
    pub pointer: String,
}

/// The document that a request is about: nothing where there is none.
pub fn asked_document(desk: &Desk<'_>, params: &Value) -> Result<Option<usize>, Refusal> {
    let Some(uri) = params.pointer("/textDocument/uri").and_then(Value::as_str) else {
        return Err(Refusal::NoParameters);
    };
    Ok(desk.number_of(uri)?)
}

/// The place that a request is about: nothing where there is no such document.
pub fn asked_place(desk: &Desk<'_>, params: &Value) -> Result<Option<Asked>, Refusal> {
    let number = asked_document(desk, params)?;
    let text = match number {
        Some(number) => desk.text_of(number).1,
        None => "",
    };
    let Some(offset) = offset_in(text, params, "/position", desk.encoding) else {
        return Err(Refusal::NoParameters);
    };
    let Some(number) = number else {
        return Ok(None);
    };
    let alloc = desk.alloc();
    let (format, text) = desk.text_of(number);
    let part = part_in(alloc, format, text, offset)?;
    let pointer = match &part {
        Some(part) => pointer_of_steps(alloc, part.path.as_slice())?,
        None => String::new(alloc),
    };
    Ok(Some(Asked {
        number,
        offset,
        part,
        pointer,
    }))
}

/// The place of the text that is being written where a request is about: that of a string that isn't closed, or of one that comes after a
/// colon of YAML and blanks; else the place itself.
pub fn written_place(desk: &Desk<'_>, params: &Value) -> Result<Option<Asked>, Refusal> {
    let Some(asked) = asked_place(desk, params)? else {
        return Ok(None);
    };
    let alloc = desk.alloc();
    let (number, offset) = (asked.number, asked.offset);
    let (format, text) = desk.text_of(number);
    let is_sound = desk.is_sound(number);
    let part = if !is_sound {
        match unclosed(alloc, format, text, offset, true)? {
            None if asked.part.is_none() => unclosed(alloc, format, text, offset, false)?,
            part => part,
        }
    } else if format == Format::Yaml {
        unwritten(alloc, text, offset)?
    } else {
        None
    };
    let Some(part) = part else {
        return Ok(Some(asked));
    };
    let pointer = pointer_of_steps(alloc, part.path.as_slice())?;
    Ok(Some(Asked {
        number,
        offset,
        part: Some(part),
        pointer,
    }))
}

// The value that isn't written after a colon of YAML and blanks, at an offset that comes after these.
fn unwritten(alloc: Global, text: &str, offset: usize) -> Result<Option<Part>, AllocError> {
    let front = text.get(..offset).unwrap_or("");
    let front = front.trim_end_matches([' ', '\t']);
    if !front.ends_with(':') {
        return Ok(None);
    }
    let Some(part) = part_in(alloc, Format::Yaml, text, front.len())? else {
        return Ok(None);
    };
    let mut part = part;
    if part.start != part.end {
        return Ok(None);
    }
    part.start = offset;
    part.end = offset;
    Ok(Some(part))
}

// What ends what is written of a string that isn't closed.
const ENDS: [char; 9] = [' ', '\t', '\r', '\n', '"', '\'', ',', '}', ']'];

// The string around an offset that isn't closed: the one that is there once a quote is after what is written. It may be asked that the text is
// whole then: so one string isn't taken for what is between two others, as in `{"$ref": ", "title": "a"}`.
fn unclosed(
    alloc: Global,
    format: Format,
    text: &str,
    offset: usize,
    is_whole: bool,
) -> Result<Option<Part>, AllocError> {
    let rest = text.get(offset..).unwrap_or("");
    let length = rest.find(ENDS).unwrap_or(rest.len());
    let end = offset.saturating_add(length);
    for quote in ['"', '\''] {
        let mut closed = String::from_str(alloc, text.get(..end).unwrap_or(""))?;
        closed.push(quote)?;
        closed.push_str(text.get(end..).unwrap_or(""))?;
        if let Some(part) = part_in(alloc, format, closed.as_str(), offset)? {
            let is_closed = part.end == end.saturating_add(1);
            let token = text.get(part.start..offset).unwrap_or("");
            if is_closed
                && token.starts_with(quote)
                && (!is_whole || has_sound(alloc, format, closed.as_str())?)
            {
                let mut part = part;
                part.end = end;
                return Ok(Some(part));
            }
        }
    }
    Ok(None)
}

// Whether a text has a value.
fn has_sound(alloc: Global, format: Format, text: &str) -> Result<bool, AllocError> {
    let text = DocumentText::new(alloc, format, String::from_str(alloc, text)?)?;
    Ok(text.fault().is_none())
}

/// What is written at the place that a request is about, as a whole and up to the place: nothing where it is about none.
pub fn texts_at(desk: &Desk<'_>, params: &Value) -> Result<Vec<String>, AllocError> {
    let alloc = desk.alloc();
    let mut texts = Vec::new(alloc);
    let Ok(Some(asked)) = written_place(desk, params) else {
        return Ok(texts);
    };
    if let Some(text) = asked.text(desk)? {
        texts.push(text)?;
    }
    texts.push(String::from_str(alloc, asked.before(desk))?)?;
    Ok(texts)
}

impl Asked {
    /// What is written of the key or the value before the place, on its line and without the quote before it.
    pub fn before<'d>(&self, desk: &'d Desk<'_>) -> &'d str {
        let (_, text) = desk.text_of(self.number);
        let start = match &self.part {
            Some(part) => part.start,
            None => self.offset,
        };
        let before = last_line(text.get(start..self.offset).unwrap_or(""));
        before.trim_start_matches('"').trim_start_matches('\'')
    }

    /// The steps to the value; none where there is none.
    pub fn path(&self) -> &[Step]
        ensures value { result.now ≡ spec.path_of self.now }
    {
        match &self.part {
            Some(part) => part.path.as_slice(),
            None => &[],
        }
    }

    /// The key of the value.
    pub fn key(&self) -> Option<&str>
        ensures value { option_map (λ key. key.now) result ≡ spec.key_of self.now }
    {
        key_before(self.path(), 0)
    }

    /// Whether the value is in the mapping of a discriminator.
    pub fn is_mapped(&self) -> bool
        ensures value { result ≡ keys.is_mapped (spec.path_of self.now) }
    {
        is_mapped(self.path())
    }

    /// Whether the value is to refer to something, by the keys on the way to it and by its draft.
    pub fn is_referring(&self, desk: &Desk<'_>) -> bool {
        if !is_reference(self.path()) {
            return false;
        }
        match self.key() {
            Some(key) if !self.is_mapped() => {
                refers_at(desk, self.number, self.pointer.as_str(), key)
            }
            _ => true,
        }
    }

    /// Whether the value is under a key.
    pub fn is_under(&self, key: &str) -> bool
        ensures value { result ≡ keys.is_key key.now (spec.key_of self.now) }
    {
        is_key(self.key(), key)
    }

    /// The reference that is there: its text, and the text that is followed.
    pub fn reference(&self, desk: &Desk<'_>) -> Result<Option<String>, AllocError> {
        if !self.is_referring(desk) {
            return Ok(None);
        }
        let Some(text) = self.text(desk)? else {
            return Ok(None);
        };
        if self.is_mapped() {
            return Ok(Some(mapped(desk, self.number, text.as_str())?));
        }
        Ok(Some(text))
    }

    // The text that the value is: the one that is written at the place, as of a member that comes again, and else that of the document's value.
    fn text(&self, desk: &Desk<'_>) -> Result<Option<String>, AllocError> {
        let alloc = desk.alloc();
        let (format, text) = desk.text_of(self.number);
        let root = match desk.fault_of(self.number) {
            None => desk.workspace.value(self.number),
            Some(_) => None,
        };
        if let Some(part) = &self.part {
            if !part.is_key && (format == Format::Json || root.is_none()) {
                return decoded(alloc, text.get(part.start..part.end).unwrap_or(""));
            }
        }
        match root
            .and_then(|root| root.pointer(self.pointer.as_str()))
            .and_then(Value::as_str)
        {
            Some(text) => Ok(Some(String::from_str(alloc, text)?)),
            None => Ok(None),
        }
    }

    /// The range of the key or the value.
    pub fn range(&self, desk: &Desk<'_>) -> Range {
        let (_, text) = desk.text_of(self.number);
        match &self.part {
            Some(part) => range_of(desk, text, part.start, part.end),
            None => {
                let place = place_at(text, self.offset, desk.encoding);
                (place, place)
            }
        }
    }
}

/// The reference that a text of a mapping is: that to the schema whose name it is, where there is one.
pub fn mapped(desk: &Desk<'_>, number: usize, text: &str) -> Result<String, AllocError> {
    let alloc = desk.alloc();
    let is_name = match desk.workspace.value(number) {
        Some(root) => match root.pointer("/components/schemas") {
            Some(schemas) => schemas.get(text).is_some(),
            None => false,
        },
        None => false,
    };
    if !is_name {
        return String::from_str(alloc, text);
    }
    let mut pointer = String::from_str(alloc, "/components/schemas/")?;
    write_escaped_str(&mut pointer, text)?;
    let fragment = as_fragment(alloc, pointer.as_str())?;
    format!(in alloc; "#{fragment}")
}

/// Whether the text at a pointer, under a keyword that refers, does that by the draft there.
pub fn refers_at(desk: &Desk<'_>, number: usize, pointer: &str, key: &str) -> bool {
    has_keyword(Draft::Draft4, key) || has_keyword(draft_at(desk, number, pointer), key)
}

// The draft at a pointer: that of the innermost `$schema` around it, and else that of the document.
fn draft_at(desk: &Desk<'_>, number: usize, pointer: &str) -> Draft {
    let Some(root) = desk.workspace.value(number) else {
        return desk.workspace.draft();
    };
    let mut front = pointer;
    for _ in 0..=pointer.len() {
        if let Some(text) = dialect_at(root, front) {
            return Draft::from_schema_uri(text);
        }
        match front.rsplit_once('/') {
            Some((shorter, _)) => front = shorter,
            None => break,
        }
    }
    match version_of(root) {
        None => desk.workspace.draft(),
        Some(Version::V2_0 | Version::V3_0) => Draft::Draft4,
        Some(version) => reading_of_root(version, root).draft,
    }
}

fn dialect_at<'v>(root: &'v Value, pointer: &str) -> Option<&'v str> {
    root.pointer(pointer)?.get("$schema")?.as_str()
}

/// A place of a document: its URI for the client, and the ranges of its key, or else its beginning, and of the whole value.
#[derive(Drop)]
pub struct Target {
    /// The URI.
    pub uri: String,
    /// The range of the key, or of the beginning of the value.
    pub name: Range,
    /// The range of the value.
    pub whole: Range,
}

const NOWHERE: Range = ((0, 0), (0, 0));

/// The place at a pointer of the document with a number. In a file of a map it is that of the text that the client has open, where it has.
pub fn target_of(
    desk: &Desk<'_>,
    number: usize,
    pointer: &str,
) -> Result<Option<Target>, AllocError> {
    if let Some(file) = desk.mapped_file(number)? {
        let uri = file_uri(desk.alloc(), file.path.as_str())?;
        let text = (file.format, file.text.as_str());
        return Ok(Some(target_in(desk, uri, text, pointer)?));
    }
    if desk.workspace.documents().len() <= number && desk.open_of(number).is_none() {
        return Ok(None);
    }
    let uri = desk.client_uri(number)?;
    Ok(Some(target_in(desk, uri, desk.text_of(number), pointer)?))
}

fn target_in(
    desk: &Desk<'_>,
    uri: String,
    (format, text): (Format, &str),
    pointer: &str,
) -> Result<Target, AllocError> {
    let outline = Outline::of(desk.alloc(), format, text)?;
    Ok(target_at(desk, uri, text, &outline, pointer))
}

/// The place at a pointer of a text, of which this is the outline, in the document with a URI.
pub fn target_at(
    desk: &Desk<'_>,
    uri: String,
    text: &str,
    outline: &Outline,
    pointer: &str,
) -> Target {
    let Some(node) = outline.at(pointer) else {
        return Target {
            uri,
            name: NOWHERE,
            whole: NOWHERE,
        };
    };
    let whole = range_of(desk, text, node.start, node.end);
    let name = match node.key {
        Some((start, end)) => range_of(desk, text, start, end),
        None => {
            let start = place_at(text, node.start, desk.encoding);
            (start, start)
        }
    };
    Target { uri, name, whole }
}

/// Whether a text has a value.
pub fn has_value(text: &DocumentText) -> bool {
    text.value().is_some()
}

/// Where memory is taken.
pub fn alloc_of(desk: &Desk<'_>) -> Global {
    desk.alloc()
}
