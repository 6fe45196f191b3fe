//! What Git leaves out, by its files `.gitignore`.
ghost use Rattle.std.specs.Prelude.{◌≡◌, [], ◌∷◌, ◌++◌, IfOk, OnOk, OnErr};
ghost use Rattle.ref_patterns.specs.Ignoring.{is_ignored, said, said_by};
ghost use Rattle.ref_patterns.specs.Patterns.{any_matches, parts_in};

use crate::matching::is_matched;
use crate::pattern::{Part, parts_of};
use std::alloc::{AllocError, Global};

// A line of such a file.
#[derive(Drop)]
struct Line {
    // One of them matches a path below the folder of the file.
    alternatives: Vec<Vec<Part>>,
    // Whether it takes back what lines before it leave out.
    is_taken_back: bool,
    // Whether it speaks of folders alone.
    is_folder: bool,
}

/// What one file `.gitignore` says (gitignore(5)).
#[derive(Drop)]
pub struct Ignore {
    // The path of its folder, as others are given to it, with a slash at its end, or nothing.
    folder: String,
    lines: Vec<Line>,
}

// Whether a path is left out.
#[derive(Clone, Copy, Drop, PartialEq, Eq)]
enum Verdict {
    Ignored,
    TakenBack,
    Open,
}

// How many texts a line with classes of characters may stand for.
const MOST_ALTERNATIVES: usize = 256;

impl Ignore {
    /// What the text of a file says, which is in a folder with this path.
    pub fn parse(alloc: Global, folder: &str, text: &str) -> Result<Ignore, AllocError> {
        let mut lines = Vec::new(alloc);
        for line in text.split('\n') {
            if let Some(line) = line_of(alloc, line.strip_suffix('\r').unwrap_or(line))? {
                push_line(&mut lines, line)?;
            }
        }
        let mut path = String::from_str(alloc, folder)?;
        if !folder.is_empty() && !folder.ends_with('/') {
            path.push('/')?;
        }
        Ok(Ignore {
            folder: path,
            lines,
        })
    }

    // What it says of a path; the last line that matches counts.
    fn verdict(&self, alloc: Global, path: &str, is_folder: bool) -> Result<Verdict, AllocError>
        ensures value { IfOk result (λ verdict. said verdict ≡ said_by is_folder path.now self.now) }
    {
        let Some(below) = path.strip_prefix(self.folder.as_str()) else {
            return Ok(Verdict::Open);
        };
        for number in 0..self.lines.len() {
            let line = &self.lines[self.lines.len() - 1 - number];
            if (is_folder || !line.is_folder) && line.matches(alloc, below)? {
                return Ok(if line.is_taken_back {
                    Verdict::TakenBack
                } else {
                    Verdict::Ignored
                });
            }
        }
        Ok(Verdict::Open)
    }
}

/// What the files `.gitignore` of a folder and of those around it say, the outermost first.
#[derive(Drop)]
pub struct IgnoreList {
    alloc: Global,
    list: Vec<Ignore>,
}

impl IgnoreList {
    /// None: nothing is left out.
    pub fn new(alloc: Global) -> IgnoreList
        ensures value { result.list.items ≡ [] }
    {
        IgnoreList {
            alloc,
            list: Vec::new(alloc),
        }
    }

    /// Adds what the file of a folder says, which counts before those that are there.
    pub fn push(&mut self, ignore: Ignore) -> Result<(), AllocError>
        ensures ok { OnOk result (self.new.list.items ≡ self.old.list.items ++ ignore ∷ []) }
        ensures err { OnErr result (self.new.list.items ≡ self.old.list.items) }
    {
        self.list.push(ignore)?;
        Ok(())
    }

    /// Whether the file or the folder at a path is left out. What is below a folder that is left out isn't looked for: ask about folders first, from above.
    pub fn is_ignored(&self, path: &str, is_folder: bool) -> Result<bool, AllocError>
        ensures value { IfOk result
            (λ found. found ≡ is_ignored self.now.list.items is_folder path.now) }
    {
        for number in 0..self.list.len() {
            let ignore = &self.list[self.list.len() - 1 - number];
            match ignore.verdict(self.alloc, path, is_folder)? {
                Verdict::Ignored => return Ok(true),
                Verdict::TakenBack => return Ok(false),
                Verdict::Open => {}
            }
        }
        Ok(false)
    }
}

impl Line {
    fn matches(&self, alloc: Global, path: &str) -> Result<bool, AllocError>
        ensures value { IfOk result
            (λ found. found ≡ any_matches (parts_in self.now.alternatives.items) path.now) }
    {
        for parts in &self.alternatives {
            if is_matched(alloc, parts.as_slice(), path.as_bytes())? {
                return Ok(true);
            }
        }
        Ok(false)
    }
}

fn push_line(lines: &mut Vec<Line>, line: Line) -> Result<(), AllocError> {
    lines.push(line)?;
    Ok(())
}

// What a line says, where it is neither blank nor a comment.
fn line_of(alloc: Global, text: &str) -> Result<Option<Line>, AllocError> {
    let text = without_blanks(text);
    if text.is_empty() || text.starts_with('#') {
        return Ok(None);
    }
    let (is_taken_back, text) = match text.strip_prefix('!') {
        Some(rest) => (true, rest),
        None => (false, text),
    };
    let (is_folder, text) = match text.strip_suffix('/') {
        Some(rest) => (true, rest),
        None => (false, text),
    };
    if text.is_empty() {
        return Ok(None);
    }
    // A slash at its beginning or within it binds it to its folder.
    let is_bound = text.contains('/');
    let text = text.strip_prefix('/').unwrap_or(text);
    let text = [if is_bound { "" } else { "**/" }, text].join(alloc, "")?;
    let alternatives = alternatives_of(alloc, text.as_str())?;
    Ok(Some(Line {
        alternatives,
        is_taken_back,
        is_folder,
    }))
}

// A line without the blanks at its end, but for one after a backslash.
fn without_blanks(text: &str) -> &str {
    let short = text.trim_end_matches([' ', '\t']);
    if short.ends_with('\\') && short.len() < text.len() {
        text.get(..short.len() + 1).unwrap_or(text)
    } else {
        short
    }
}

// The patterns that a text with classes of characters stands for.
fn alternatives_of(alloc: Global, text: &str) -> Result<Vec<Vec<Part>>, AllocError> {
    let mut all = Vec::new(alloc);
    let texts = without_classes(alloc, text)?;
    for text in &texts {
        all.push(parts_of(alloc, text.as_bytes())?)?;
    }
    Ok(all)
}

// The texts that a text with classes, as `[a-c]`, stands for. A class that is not closed is itself; of one that begins with `!` or `^`, and of one that
// stands for too many texts, each character is taken.
fn without_classes(alloc: Global, text: &str) -> Result<Vec<String>, AllocError> {
    let mut texts = Vec::new(alloc);
    texts.push(String::new(alloc))?;
    let mut rest = text;
    for _ in 0..text.len() {
        let Some((before, after)) = rest.split_once('[') else {
            break;
        };
        let Some((class, behind)) = after.split_once(']') else {
            break;
        };
        texts = with_class(alloc, texts, before, class)?;
        rest = behind;
    }
    for text in &mut texts {
        text.push_str(rest)?;
    }
    Ok(texts)
}

fn with_class(
    alloc: Global,
    texts: Vec<String>,
    before: &str,
    class: &str,
) -> Result<Vec<String>, AllocError> {
    let members = members_of(alloc, class)?;
    let is_open = class.starts_with(['!', '^'])
        || members.is_empty()
        || texts.len().saturating_mul(members.len()) > MOST_ALTERNATIVES;
    let mut more = Vec::new(alloc);
    for text in &texts {
        if is_open {
            more.push([text.as_str(), before, "?"].join(alloc, "")?)?;
        } else {
            push_members(
                alloc,
                &mut more,
                (text.as_str(), before),
                members.as_slice(),
            )?;
        }
    }
    Ok(more)
}

fn push_members(
    alloc: Global,
    list: &mut Vec<String>,
    (text, before): (&str, &str),
    members: &[char],
) -> Result<(), AllocError> {
    for member in members {
        let mut own = [text, before, "\\"].join(alloc, "")?;
        own.push(*member)?;
        list.push(own)?;
    }
    Ok(())
}

// The characters of a class; one with more than 256 has none.
fn members_of(alloc: Global, class: &str) -> Result<Vec<char>, AllocError> {
    let mut members = Vec::new(alloc);
    let mut chars = class.chars();
    for _ in 0..class.len() {
        let Some(first) = chars.next() else {
            break;
        };
        let last = match chars.as_str().strip_prefix('-') {
            Some(rest) if !rest.is_empty() => {
                let _ = chars.next();
                chars.next().unwrap_or(first)
            }
            _ => first,
        };
        if !push_range(&mut members, first, last)? {
            return Ok(Vec::new(alloc));
        }
    }
    Ok(members)
}

// Adds the characters from one to another. Returns whether there are not too many.
fn push_range(members: &mut Vec<char>, first: char, last: char) -> Result<bool, AllocError> {
    for code in first as u32..=last as u32 {
        if members.len() >= MOST_ALTERNATIVES {
            return Ok(false);
        }
        if let Some(c) = char::from_u32(code) {
            members.push(c)?;
        }
    }
    Ok(true)
}
