//! Members of one name in an object of a text of JSON.
use crate::described::{Described, owned, texts_at};
use crate::finding::{Finding, Mark, Problem, push};
use crate::placed::push_below;
use crate::workspace::{Document, Workspace};
use json::{Reader, Scratch, Token};
use ref_files::Format;
use ref_parts::path::JsonPointerSegment;
use ref_rules::{Member, Repeat, repeats};
use serde_json::Value;
use std::alloc::{AllocError, Global};

/// Adds the members whose name an earlier one of their object has, of those documents that are asked about and looked at. YAML has none: a key that comes again
/// is a fault there. Fails only if out of memory. A step for each value and for each byte, and one more pass over a text that has such members.
pub(crate) fn add_repeated<'d>(
    alloc: Global,
    workspace: &'d Workspace,
    described: &Described,
    list: &mut Vec<Finding<'d>>,
) -> Result<(), AllocError> {
    for (number, document) in workspace.asked_about().iter().enumerate() {
        if described.has(number) {
            add_in(alloc, number, document, list)?;
        }
    }
    Ok(())
}

fn add_in<'d>(
    alloc: Global,
    number: usize,
    document: &'d Document,
    list: &mut Vec<Finding<'d>>,
) -> Result<(), AllocError> {
    if let (Some(value), Format::Json) = (document.value(), document.text.format) {
        if strings_in(alloc, value)? != strings_in_text(document.text.text.as_str()) {
            add_of(alloc, number, document, value, list)?;
        }
    }
    Ok(())
}

// How many texts and names a value has, at any depth: as many as its text, where no name comes again.
fn strings_in(alloc: Global, root: &Value) -> Result<usize, AllocError> {
    let mut count: usize = if root.is_string() { 1 } else { 0 };
    let mut waiting = Vec::new(alloc);
    waiting.push(root)?;
    for _ in 0..u64::MAX {
        let Some(value) = waiting.pop() else {
            break;
        };
        count = count.saturating_add(strings_right_in(value));
        push_below(&mut waiting, value)?;
    }
    Ok(count)
}

// How many names a value has, and how many texts are right in it.
fn strings_right_in(value: &Value) -> usize {
    let mut count: usize = 0;
    if let Some(members) = value.as_object() {
        count = members.len();
        for (_, member) in members.iter() {
            count = count.saturating_add(usize::from(member.is_string()));
        }
    }
    if let Some(items) = value.as_array() {
        for item in items {
            count = count.saturating_add(usize::from(item.is_string()));
        }
    }
    count
}

// How many texts and names a text of JSON has: half of its quotes, but for those after a backslash.
fn strings_in_text(text: &str) -> usize {
    let bytes = text.as_bytes();
    let mut quotes = count_of(b'"', bytes);
    if count_of(b'\\', bytes) > 0 {
        quotes = quotes.saturating_sub(escaped_quotes_in(bytes));
    }
    quotes / 2
}

// How often a byte is among others.
fn count_of(wanted: u8, bytes: &[u8]) -> usize {
    let mut count: usize = 0;
    for byte in bytes {
        count = count.wrapping_add(usize::from(*byte == wanted));
    }
    count
}

// How many quotes are after a backslash that isn't itself after one. Most stretches of a text have no backslash, and are passed at once.
fn escaped_quotes_in(bytes: &[u8]) -> usize {
    let mut count: usize = 0;
    let mut is_escaped = false;
    for stretch in bytes.chunks(64) {
        if is_escaped || count_of(b'\\', stretch) > 0 {
            let (quotes, is_open) = escaped_quotes_of(stretch, is_escaped);
            count = count.saturating_add(quotes);
            is_escaped = is_open;
        }
    }
    count
}

// The same of a stretch, which may begin after a backslash; and whether it ends with one.
fn escaped_quotes_of(stretch: &[u8], is_begun: bool) -> (usize, bool) {
    let mut count: usize = 0;
    let mut is_escaped = is_begun;
    for byte in stretch {
        if is_escaped {
            count = count.saturating_add(usize::from(*byte == b'"'));
            is_escaped = false;
        } else {
            is_escaped = *byte == b'\\';
        }
    }
    (count, is_escaped)
}

// A member of a text.
#[derive(Drop)]
struct Own {
    object: usize,
    name: String,
    start: usize,
}

// An object or an array of a text: the number of the one that it is in, and in which member of it, or at which index.
#[derive(Clone, Copy, Drop)]
struct Holder {
    above: usize,
    member: Option<usize>,
    index: usize,
    is_array: bool,
    // The index of the item that comes.
    next: usize,
}

// What was passed of a text.
#[derive(Drop)]
struct Walk {
    members: Vec<Own>,
    holders: Vec<Holder>,
    // The numbers of those that are not yet closed.
    open: Vec<usize>,
    // The member whose value comes.
    member: Option<usize>,
}

// The members of a text.
fn walk_of(alloc: Global, text: &str) -> Result<Walk, AllocError> {
    let mut walk = Walk {
        members: Vec::new(alloc),
        holders: Vec::new(alloc),
        open: Vec::new(alloc),
        member: None,
    };
    let mut scratch = Scratch::new(alloc);
    let mut reader = Reader::new(text, &mut scratch)?;
    for _ in 0..text.len() {
        let start = reader.offset();
        let Some(token) = reader.next() else {
            break;
        };
        walk.pass(alloc, &token, start)?;
    }
    Ok(walk)
}

impl Walk {
    fn pass(&mut self, alloc: Global, token: &Token<'_>, start: usize) -> Result<(), AllocError> {
        match token {
            Token::Key(name) => self.pass_key(alloc, *name, start),
            Token::BeginObject => self.enter(false),
            Token::BeginArray => self.enter(true),
            Token::EndObject | Token::EndArray => {
                let _ = self.open.pop();
                Ok(())
            }
            _ => {
                let _ = self.index();
                Ok(())
            }
        }
    }

    fn pass_key(&mut self, alloc: Global, name: &str, start: usize) -> Result<(), AllocError> {
        let number = self.members.len();
        let object = self.open.last().copied().unwrap_or(0);
        let name = String::from_str(alloc, name)?;
        self.members.push(Own {
            object,
            name,
            start,
        })?;
        self.member = Some(number);
        Ok(())
    }

    // The index of the value that comes, where it is an item.
    fn index(&mut self) -> Option<usize> {
        let holder = self.holders.get_mut(*self.open.last()?)?;
        if !holder.is_array {
            return None;
        }
        let index = holder.next;
        holder.next = index.saturating_add(1);
        Some(index)
    }

    fn enter(&mut self, is_array: bool) -> Result<(), AllocError> {
        let above = self.open.last().copied().unwrap_or(0);
        let index = self.index();
        let member = if index.is_some() { None } else { self.member };
        let number = self.holders.len();
        self.open.push(number)?;
        self.holders.push(Holder {
            above,
            member,
            index: index.unwrap_or(0),
            is_array,
            next: 0,
        })?;
        Ok(())
    }

    // The path to the object with a number.
    fn path_to<'d>(
        &self,
        alloc: Global,
        number: usize,
    ) -> Result<Vec<JsonPointerSegment<'d>>, AllocError> {
        let mut path = Vec::new(alloc);
        let mut at = number;
        for _ in 0..self.holders.len() {
            let Some(holder) = self.holders.get(at) else {
                break;
            };
            if at == 0 {
                break;
            }
            path.push(self.step_to(alloc, holder)?)?;
            at = holder.above;
        }
        path.reverse();
        Ok(path)
    }

    fn step_to<'d>(
        &self,
        alloc: Global,
        holder: &Holder,
    ) -> Result<JsonPointerSegment<'d>, AllocError> {
        if holder.is_member() {
            let name = self.name(holder.member.unwrap_or(0));
            owned(alloc, &JsonPointerSegment::from(name))
        } else {
            Ok(JsonPointerSegment::Index(holder.index))
        }
    }

    fn name(&self, member: usize) -> &str {
        match self.members.get(member) {
            Some(own) => own.name.as_str(),
            None => "",
        }
    }

    fn start(&self, member: usize) -> usize {
        match self.members.get(member) {
            Some(own) => own.start,
            None => 0,
        }
    }
}

impl Holder {
    fn is_member(&self) -> bool {
        self.member.is_some()
    }
}

fn add_of<'d>(
    alloc: Global,
    source: usize,
    document: &'d Document,
    root: &'d Value,
    list: &mut Vec<Finding<'d>>,
) -> Result<(), AllocError> {
    let text = document.text.text.as_str();
    let walk = walk_of(alloc, text)?;
    let again = repeats_in(alloc, &walk)?;
    let marks = marks_of(alloc, text, &walk, again.as_slice())?;
    for repeat in again {
        let at = mark_at(marks.as_slice(), walk.start(repeat.number));
        let first = mark_at(marks.as_slice(), walk.start(repeat.first));
        push_repeated(alloc, source, root, &walk, (repeat.number, at, first), list)?;
    }
    Ok(())
}

// The members whose name an earlier one of their object has.
fn repeats_in(alloc: Global, walk: &Walk) -> Result<Vec<Repeat>, AllocError> {
    let mut members = Vec::with_capacity(alloc, walk.members.len())?;
    for own in &walk.members {
        members.push(Member {
            object: own.object,
            name: &own.name,
        })?;
    }
    repeats(alloc, members.as_slice())
}

// Where these members and the first ones of their names begin, in the order of the text.
fn marks_of(
    alloc: Global,
    text: &str,
    walk: &Walk,
    again: &[Repeat],
) -> Result<Vec<Mark>, AllocError> {
    let mut offsets = Vec::new(alloc);
    for repeat in again {
        offsets.push(walk.start(repeat.first))?;
        offsets.push(walk.start(repeat.number))?;
    }
    offsets.sort_unstable();
    marks_at(alloc, text, offsets.as_slice())
}

// The marks of offsets, which are in their order, in one pass over the text.
fn marks_at(alloc: Global, text: &str, offsets: &[usize]) -> Result<Vec<Mark>, AllocError> {
    let mut marks = Vec::with_capacity(alloc, offsets.len())?;
    let mut last = Mark {
        offset: 0,
        line: 1,
        column: 1,
    };
    for offset in offsets {
        last = last.moved_by(text.get(last.offset..*offset).unwrap_or(""));
        marks.push(last)?;
    }
    Ok(marks)
}

impl Mark {
    // The mark after a text that follows.
    fn moved_by(self, text: &str) -> Mark {
        let mut mark = Mark {
            offset: self.offset.saturating_add(text.len()),
            ..self
        };
        for letter in text.chars() {
            if letter == '\n' {
                mark.line = mark.line.saturating_add(1);
                mark.column = 1;
            } else {
                mark.column = mark.column.saturating_add(1);
            }
        }
        mark
    }
}

// The mark among these that is at an offset.
fn mark_at(marks: &[Mark], offset: usize) -> Mark {
    let start = Mark {
        offset: 0,
        line: 1,
        column: 1,
    };
    match marks.binary_search_by(|mark| mark.offset.cmp(&offset)) {
        Ok(near) => marks.get(near).copied().unwrap_or(start),
        Err(_) => start,
    }
}

fn push_repeated<'d>(
    alloc: Global,
    source: usize,
    root: &'d Value,
    walk: &Walk,
    (number, at, first): (usize, Mark, Mark),
    list: &mut Vec<Finding<'d>>,
) -> Result<(), AllocError> {
    let Some(own) = walk.members.get(number) else {
        return Ok(());
    };
    let path = walk.path_to(alloc, own.object)?;
    let (keyword, _) = texts_at(root, path.as_slice(), own.name.as_str());
    let name = String::from_str(alloc, own.name.as_str())?;
    let problem = Problem::Repeated { name, at, first };
    push(
        list,
        Finding {
            source,
            path,
            keyword,
            text: None,
            wanted: None,
            problem,
        },
    )
}
