//! Patterns of paths.
ghost use Rattle.std.specs.Prelude.{◌≡◌, ◌≤◌, ◌∷◌, ◌++◌, [], drop, map, option_map, IfOk, OnOk};
ghost use Rattle.std.specs.List.{list_any};
ghost use Rattle.ref_patterns.specs.Choices.{texts_of};
ghost use Rattle.ref_patterns.specs.Patterns.{alternatives_of, any_matches, is_wild, parts_in, parts_of, with_name};
ghost use Rattle.ref_patterns.specs.Patterns as spec;

use crate::choices::texts_of;
use crate::matching::is_matched;
use std::alloc::{AllocError, Global};

// A part of a pattern.
#[derive(Clone, Copy, Drop, PartialEq, Eq)]
pub(crate) enum Part {
    // A byte of a name, or a slash.
    Byte(u8),
    // `?`: a character but a slash.
    Character,
    // `*`: characters of a name, or none.
    Name,
    // `**/`: the names of folders with their slashes, or none.
    Folders,
}

/// A pattern of paths: `?` is a character of a name, `*` any number of them, `**/` at the beginning of a name any number of folders, `/**` at the end all that is
/// below a folder, and `{a,b}` one of several texts.
#[derive(Drop)]
pub struct Pattern {
    // One of them matches.
    alternatives: Vec<Vec<Part>>,
}

/// Whether a text is more than a path: it has a star, a question mark or a brace.
pub fn is_pattern(text: &str) -> bool
    ensures value { result ≡ list_any is_wild text.now }
{
    text.bytes().any(|byte| matches!(byte, b'*' | b'?' | b'{'))
}

impl Pattern {
    /// The pattern that a text is. `None` where a brace isn't closed or opened, or is within another, or the text stands for more than 256
    /// texts without braces. Fails only if out of memory. Linear in the text for each text that it stands for.
    pub fn parse(alloc: Global, text: &str) -> Result<Option<Pattern>, AllocError>
        ensures value { IfOk result
            (λ found. option_map alternatives_of found
            ≡ option_map (map parts_of) (texts_of text.now)) }
    {
        let Some(texts) = texts_of(alloc, text.as_bytes())? else {
            return Ok(None);
        };
        let mut alternatives = Vec::new(alloc);
        for text in &texts {
            push_parts(&mut alternatives, parts_of(alloc, text.as_slice())?)?;
        }
        Ok(Some(Pattern { alternatives }))
    }

    /// Whether it matches a path. Fails only if out of memory. Some steps for each byte of the pattern and of the path.
    pub fn matches(&self, alloc: Global, path: &str) -> Result<bool, AllocError>
        ensures value { IfOk result
            (λ found. found ≡ any_matches (alternatives_of self.now) path.now) }
    {
        for parts in &self.alternatives {
            if is_matched(alloc, parts.as_slice(), path.as_bytes())? {
                return Ok(true);
            }
        }
        Ok(false)
    }
}

fn push_parts(list: &mut Vec<Vec<Part>>, parts: Vec<Part>) -> Result<(), AllocError>
    ensures value { OnOk result (parts_in list.new.items ≡ parts_in list.old.items ++ parts.items ∷ []) }
{
    list.push(parts)?;
    Ok(())
}

fn push_part(list: &mut Vec<Part>, part: Part) -> Result<(), AllocError>
    ensures value { OnOk result (list.new.items ≡ list.old.items ++ part ∷ []) }
{
    list.push(part)?;
    Ok(())
}

// The parts of a text without braces.
pub(crate) fn parts_of(alloc: Global, bytes: &[u8]) -> Result<Vec<Part>, AllocError>
    ensures value { IfOk result (λ parts. parts.items ≡ parts_of bytes.now) }
{
    let mut parts = Vec::new(alloc);
    let mut index: usize = 0;
    for passed in 0..bytes.len() {
        if index >= bytes.len() {
            break;
        }
        let is_first = index == 0 || bytes[index - 1] == b'/';
        let (part, length) = part_at(bytes, index, is_first);
        index = index.saturating_add(length);
        push_read(&mut parts, part, index >= bytes.len())?;
    }
    Ok(parts)
}

// Adds a part of a text; folders at its end go on with any name.
fn push_read(list: &mut Vec<Part>, part: Part, is_last: bool) -> Result<(), AllocError>
    ensures value { OnOk result (list.new.items ≡ list.old.items ++ with_name is_last part) }
{
    push_part(list, part)?;
    if is_last && part == Part::Folders {
        push_part(list, Part::Name)?;
    }
    Ok(())
}

// The part that a star begins at the beginning of a name or not, with what is after it, and how many bytes it has.
fn star(is_first: bool, rest: &[u8]) -> (Part, usize)
    ensures { result ≡ spec.star is_first rest.now }
{
    if !is_first {
        return (Part::Name, 1);
    }
    match rest {
        [b'*'] => (Part::Folders, 2),
        [b'*', b'/', ..] => (Part::Folders, 3),
        _ => (Part::Name, 1),
    }
}

// The part that a backslash begins, with what is after it, and how many bytes it has.
fn escaped(rest: &[u8]) -> (Part, usize)
    ensures { result ≡ spec.escaped rest.now }
{
    match rest {
        [byte, ..] => (Part::Byte(*byte), 2),
        [] => (Part::Byte(b'\\'), 1),
    }
}

// The part at an index, and how many bytes it has.
fn part_at(bytes: &[u8], index: usize, is_first: bool) -> (Part, usize)
    ensures value { result ≡ spec.first_part is_first (drop index bytes.now) }
    ensures some { 1 ≤ result.1 }
{
    first_part(bytes.get(index..).unwrap_or(&[]), is_first)
}

// The part that a text begins with, and how many bytes it has.
fn first_part(text: &[u8], is_first: bool) -> (Part, usize)
    ensures value { result ≡ spec.first_part is_first text.now }
    ensures some { 1 ≤ result.1 }
{
    let Some((first, rest)) = text.split_first() else {
        return (Part::Name, 1);
    };
    match *first {
        b'*' => star(is_first, rest),
        b'?' => (Part::Character, 1),
        b'\\' => escaped(rest),
        byte => (Part::Byte(byte), 1),
    }
}
