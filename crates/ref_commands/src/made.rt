//! Whether a text is that of a bundle: told piece by piece, so that no second tree of the whole is made.
use crate::pieces::{Piece, Pieces};
use json::{Reader, Scratch, Token};
use ref_files::{Fault, parsed};
use serde_json::Value;
use std::alloc::{AllocError, Global};
use std::collections::BTreeMap;

// How deep a text may be that is read in parts. A part is less deep than the whole, and may be read where the whole may not.
const DEEPEST: usize = 100;

// How many bytes a value of a document may have that is read as one tree.
const SMALL: usize = 65_536;

// How many levels of objects that have more are read member by member: the root, its definitions, a document, and an object in it.
const LEVELS: u8 = 4;

/// Whether a text is that of a bundle, or why it is no JSON. Of members with one key the last one counts. A small value is read as a tree of its own, and of an
/// object that is not small its members are; where some differs the text is read as a whole. Fails only if out of memory.
pub fn is_text_of(
    alloc: Global,
    text: &str,
    pieces: &Pieces<'_, '_, '_>,
) -> Result<Result<bool, Fault>, AllocError> {
    if is_same_in_pieces(alloc, text, pieces)? {
        return Ok(Ok(true));
    }
    match parsed(alloc, text)? {
        Ok(made) => {
            let whole = pieces.value(alloc)?;
            let is_same = made == whole;
            drop(whole);
            drop(made);
            Ok(Ok(is_same))
        }
        Err(fault) => Ok(Err(fault)),
    }
}

// A part of the text, from an offset to another, and what it is to be the text of.
#[derive(Clone, Copy, Drop)]
struct Open<'p> {
    start: usize,
    end: usize,
    piece: Piece<'p>,
    // How many times it may be read member by member, with the objects in it.
    levels: u8,
}

fn is_same_in_pieces(
    alloc: Global,
    text: &str,
    pieces: &Pieces<'_, '_, '_>,
) -> Result<bool, AllocError> {
    let mut open = Vec::new(alloc);
    open.push(Open {
        start: 0,
        end: text.len(),
        piece: pieces.whole(),
        levels: LEVELS,
    })?;
    for _ in 0..u64::MAX {
        let Some(next) = open.pop() else {
            return Ok(true);
        };
        if !is_same_part(alloc, text, pieces, next, &mut open)? {
            return Ok(false);
        }
    }
    Ok(false)
}

// Whether a part of the text is that of a piece, where the members that are added are those of its members.
fn is_same_part<'p>(
    alloc: Global,
    text: &str,
    pieces: &Pieces<'p, '_, '_>,
    next: Open<'p>,
    open: &mut Vec<Open<'p>>,
) -> Result<bool, AllocError> {
    let part = text.get(next.start..next.end).unwrap_or("");
    match next.piece {
        Piece::Text(added) => is_quoted(alloc, part, added),
        Piece::Own(value) if part.len() <= SMALL || next.levels == 0 || !value.is_object() => {
            is_same(alloc, part, value)
        }
        _ => push_members(alloc, part, pieces, next, open),
    }
}

// Adds the members of a part of the text with those of a piece. Returns whether both have the same keys.
fn push_members<'p>(
    alloc: Global,
    part: &str,
    pieces: &Pieces<'p, '_, '_>,
    next: Open<'p>,
    open: &mut Vec<Open<'p>>,
) -> Result<bool, AllocError> {
    let (Some(own), Some(read)) = (pieces.members(alloc, next.piece)?, members_of(alloc, part)?)
    else {
        return Ok(false);
    };
    let mut last = BTreeMap::new(alloc);
    for member in &read {
        last.insert(member.key.as_str(), member.range_in(part))?;
    }
    for (key, (start, end)) in &last {
        let Some(piece) = own.get(*key) else {
            return Ok(false);
        };
        open.push(Open {
            start: next.start.saturating_add(*start),
            end: next.start.saturating_add(*end),
            piece: *piece,
            levels: next.levels.saturating_sub(1),
        })?;
    }
    Ok(last.len() == own.len())
}

// Whether a text is that of a value.
fn is_same(alloc: Global, text: &str, value: &Value) -> Result<bool, AllocError> {
    match parsed(alloc, text)? {
        Ok(made) => {
            let is_same = made == *value;
            drop(made);
            Ok(is_same)
        }
        Err(fault) => {
            drop(fault);
            Ok(false)
        }
    }
}

// Whether a text is that of a JSON string with a text.
fn is_quoted(alloc: Global, part: &str, text: &str) -> Result<bool, AllocError> {
    match parsed(alloc, part)? {
        Ok(made) => {
            let is_same = made.as_str() == Some(text);
            drop(made);
            Ok(is_same)
        }
        Err(fault) => {
            drop(fault);
            Ok(false)
        }
    }
}

// A member of the object that a text is: its key, where its value begins, and where the next member begins or the object ends.
#[derive(Drop)]
struct Member {
    key: String,
    start: usize,
    end: usize,
}

impl Member {
    // Where the text of its value begins and ends.
    fn range_in(&self, text: &str) -> (usize, usize) {
        let part = text.get(self.start..self.end).unwrap_or("").trim_end();
        let part = part.strip_suffix(',').unwrap_or(part);
        (self.start, self.start.saturating_add(part.len()))
    }
}

// What was read so far of an object.
#[derive(Drop)]
struct Cut {
    alloc: Global,
    members: Vec<Member>,
    depth: usize,
    // Whether the value of the last member comes next.
    is_value_next: bool,
}

// The members of the object that a text is; nothing where it is none, or is too deep.
fn members_of(alloc: Global, text: &str) -> Result<Option<Vec<Member>>, AllocError> {
    if !text.trim_start().starts_with('{') {
        return Ok(None);
    }
    let mut scratch = Scratch::new(alloc);
    let mut reader = Reader::new(text, &mut scratch)?;
    let mut cut = Cut {
        alloc,
        members: Vec::new(alloc),
        depth: 0,
        is_value_next: false,
    };
    let mut is_whole = false;
    for _ in 0..=text.len() {
        let offset = reader.offset();
        match reader.next() {
            None => {
                is_whole = true;
                break;
            }
            Some(Token::Bad) => break,
            Some(token) => {
                if !cut.pass(&token, offset)? {
                    break;
                }
            }
        }
    }
    if is_whole {
        Ok(Some(cut.members))
    } else {
        Ok(None)
    }
}

impl Cut {
    // Passes a token at an offset. Returns whether it isn't too deep.
    fn pass(&mut self, token: &Token<'_>, offset: usize) -> Result<bool, AllocError> {
        if self.is_value_next {
            self.is_value_next = false;
            if let Some(member) = self.members.last_mut() {
                member.start = offset;
            }
        }
        match token {
            Token::BeginObject | Token::BeginArray => {
                self.depth = self.depth.saturating_add(1);
            }
            Token::EndObject | Token::EndArray => {
                self.depth = self.depth.saturating_sub(1);
                if self.depth == 0 {
                    self.end_member(offset);
                }
            }
            Token::Key(key) if self.depth == 1 => {
                self.end_member(offset);
                self.begin_member(*key)?;
            }
            _ => {}
        }
        Ok(self.depth <= DEEPEST)
    }

    fn begin_member(&mut self, key: &str) -> Result<(), AllocError> {
        let key = String::from_str(self.alloc, key)?;
        self.members.push(Member {
            key,
            start: 0,
            end: 0,
        })?;
        self.is_value_next = true;
        Ok(())
    }

    // Ends the last member, where there is one.
    fn end_member(&mut self, offset: usize) {
        if let Some(member) = self.members.last_mut() {
            member.end = offset;
        }
    }
}
