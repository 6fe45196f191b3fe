//! Comments in documents that silence rules.
use crate::finding::Finding;
use crate::placed::{Spot, push_spots};
use crate::pointer::position;
use crate::rules::is_rule;
use crate::workspace::{Document, Workspace};
use ref_files::Format;
use ref_parts::path::JsonPointerSegment;
use ref_parts::pointer_of;
use ref_yaml::{Document as Yaml, Event, Kind, Stop};
use serde_json::Value;
use std::alloc::{AllocError, Global};
use std::collections::{BTreeMap, BTreeSet};

// How a comment begins that silences rules; a blank, a colon or nothing follows.
const BEGIN: &str = "patchsard: ignore";

// A comment of YAML that silences rules: the line and the column of its mark, from 1, whether it is alone on the line, and its text.
#[derive(Clone, Copy, Drop)]
struct Comment<'d> {
    line: usize,
    column: usize,
    is_alone: bool,
    text: &'d str,
}

/// A comment that silences nothing, or names a rule that there isn't.
#[derive(Drop)]
pub struct UnusedSilence<'d> {
    /// The pointer of the object whose `$comment` it is (RFC 6901); empty of a comment of YAML.
    pub pointer: String,
    /// `$comment`; nothing of a comment of YAML.
    pub keyword: Option<&'static str>,
    /// What it says.
    pub text: &'d str,
    /// The first rule that it names and that there isn't; empty where it names none.
    pub unknown: Option<&'d str>,
}

/// The comments that silence rules: a `$comment` of the text `patchsard: ignore RULE, RULE: why` silences these rules at its object and below it, and in YAML a
/// comment of that text at its own line, or where it is alone on a line, at the next one.
#[derive(Drop)]
pub struct Silences<'d> {
    alloc: Global,
    documents: &'d [Document],
    // By the numbers of the documents, whether one may have such comments, where its text was looked at.
    may: Vec<Option<bool>>,
    // By the same numbers, the comments of YAML there, where one may have some and something in it was asked for.
    comments: Vec<Vec<Comment<'d>>>,
    // Those that silenced something: the number of the document, and a pointer or a line.
    used: BTreeSet<(usize, String)>,
}

impl<'d> Silences<'d> {
    /// Those of a workspace. A text is looked at once, when something in it is asked for.
    pub fn of(alloc: Global, workspace: &'d Workspace) -> Result<Silences<'d>, AllocError> {
        let documents = workspace.documents();
        let mut may = Vec::with_capacity(alloc, documents.len())?;
        let mut comments = Vec::with_capacity(alloc, documents.len())?;
        for _ in documents {
            may.push(None)?;
            comments.push(Vec::new(alloc))?;
        }
        Ok(Silences {
            alloc,
            documents,
            may,
            comments,
            used: BTreeSet::new(alloc),
        })
    }

    /// Whether a finding of a rule, which is on a line, is silenced. The comment that does it counts as used.
    pub fn has(
        &mut self,
        finding: &Finding<'_>,
        line: usize,
        code: &str,
    ) -> Result<bool, AllocError> {
        let source = finding.source;
        let documents = self.documents;
        let Some(document) = documents.get(source) else {
            return Ok(false);
        };
        if !self.look_at(source, document)? {
            return Ok(false);
        }
        if let Some(value) = document.value() {
            if let Some(depth) = depth_of(value, finding.path.as_slice(), code) {
                let path = finding.path.get(..depth).unwrap_or(&[]);
                let pointer = pointer_of(self.alloc, path)?;
                self.used.insert((source, pointer))?;
                return Ok(true);
            }
        }
        if let Some(line) = self.line_of(source, line, code) {
            let line = format!(in self.alloc; "{line}")?;
            self.used.insert((source, line))?;
            return Ok(true);
        }
        Ok(false)
    }

    // Whether the document with a number may have such comments, whose comments of YAML are noted then.
    fn look_at(&mut self, source: usize, document: &'d Document) -> Result<bool, AllocError> {
        let may = self.may_be_in(source, document);
        let is_new = matches!(self.may.get(source), Some(None));
        if is_new && may && document.text.format == Format::Yaml {
            let noted = comments_of(self.alloc, document.text.text.as_str())?;
            if let Some(comments) = self.comments.get_mut(source) {
                *comments = noted;
            }
        }
        if let Some(place) = self.may.get_mut(source) {
            *place = Some(may);
        }
        Ok(may)
    }

    // The number of the line of the document with a number whose comment silences a rule at a line: the one before it where the comment is alone on it, or that line.
    fn line_of(&self, source: usize, line: usize, code: &str) -> Option<usize> {
        let comments = self.comments.get(source)?.as_slice();
        let before = line.saturating_sub(1);
        if let Some(comment) = comment_at(comments, before) {
            if comment.is_alone && is_meant_by(comment.text, code) {
                return Some(before);
            }
        }
        let comment = comment_at(comments, line)?;
        if is_meant_by(comment.text, code) {
            Some(line)
        } else {
            None
        }
    }

    // Whether the document with a number may have such comments.
    fn may_be_in(&self, source: usize, document: &Document) -> bool {
        match self.may.get(source) {
            Some(Some(may)) => *may,
            _ => may_silence(document.text.format, document.text.text.as_str()),
        }
    }

    /// Those that silenced nothing, and those that name a rule that there isn't, of those documents that are asked about: by the number of the document, the line and
    /// the column of each.
    pub fn unused(
        &self,
        asked: usize,
    ) -> Result<BTreeMap<(usize, usize, usize), UnusedSilence<'d>>, AllocError> {
        let mut list = BTreeMap::new(self.alloc);
        let documents = self.documents;
        for (source, document) in documents.iter().enumerate() {
            if source < asked && self.may_be_in(source, document) {
                self.add_unused(&mut list, source, document)?;
            }
        }
        Ok(list)
    }

    fn add_unused(
        &self,
        list: &mut BTreeMap<(usize, usize, usize), UnusedSilence<'d>>,
        source: usize,
        document: &'d Document,
    ) -> Result<(), AllocError> {
        if document.text.format == Format::Yaml {
            self.add_unused_lines(list, source, document.text.text.as_str())?;
        }
        let Some(value) = document.value() else {
            return Ok(());
        };
        let mut waiting = Vec::new(self.alloc);
        waiting.push(Spot {
            path: Vec::new(self.alloc),
            value,
        })?;
        for _ in 0..u64::MAX {
            let Some(spot) = waiting.pop() else {
                break;
            };
            push_spots(self.alloc, &mut waiting, &spot)?;
            self.add_unused_comment(list, (source, document), spot)?;
        }
        Ok(())
    }

    // Adds the comment of an object, where it has one that silences rules, and silenced nothing or names a rule that there isn't.
    fn add_unused_comment(
        &self,
        list: &mut BTreeMap<(usize, usize, usize), UnusedSilence<'d>>,
        (source, document): (usize, &Document),
        spot: Spot<'d>,
    ) -> Result<(), AllocError> {
        let Some(comment) = comment_of(spot.value) else {
            return Ok(());
        };
        if !is_silence(comment) {
            return Ok(());
        }
        let pointer = pointer_of(self.alloc, spot.path.as_slice())?;
        let unknown = unknown_in(comment);
        if unknown.is_none() && self.is_used(source, pointer.as_str())? {
            return Ok(());
        }
        let mut path = spot.path;
        path.push(JsonPointerSegment::from("$comment"))?;
        let text = (document.text.format, document.text.text.as_str());
        let (line, column) = position(self.alloc, text, path.as_slice())?;
        let keyword = Some("$comment");
        let unused = UnusedSilence {
            pointer,
            keyword,
            text: comment,
            unknown,
        };
        list.insert((source, line, column), unused)?;
        Ok(())
    }

    fn add_unused_lines(
        &self,
        list: &mut BTreeMap<(usize, usize, usize), UnusedSilence<'d>>,
        source: usize,
        text: &'d str,
    ) -> Result<(), AllocError> {
        for comment in comments_of(self.alloc, text)? {
            let unknown = unknown_in(comment.text);
            let line = comment.line;
            let key = format!(in self.alloc; "{line}")?;
            if unknown.is_some() || !self.is_used(source, key.as_str())? {
                let unused = UnusedSilence {
                    pointer: String::new(self.alloc),
                    keyword: None,
                    text: comment.text,
                    unknown,
                };
                list.insert((source, line, comment.column), unused)?;
            }
        }
        Ok(())
    }

    // Whether the comment at a pointer or a line of the document with a number silenced something.
    fn is_used(&self, source: usize, place: &str) -> Result<bool, AllocError> {
        let place = String::from_str(self.alloc, place)?;
        Ok(self.used.contains(&(source, place)))
    }
}

impl<'d> UnusedSilence<'d> {
    /// The rules that it names.
    pub fn rules(&self, alloc: Global) -> Result<Vec<&'d str>, AllocError> {
        let mut rules = Vec::new(alloc);
        for name in names_in(self.text).split(',') {
            rules.push(name.trim())?;
        }
        Ok(rules)
    }
}

// Whether a text that is written so may have a comment that silences rules. In JSON that is the value of a `$comment`, which is looked for first: most texts
// have neither that nor an escape, by which its letters may be written.
fn may_silence(format: Format, text: &str) -> bool {
    let has_comment = format == Format::Yaml || text.contains("$comment") || text.contains("\\u");
    has_comment && text.contains(BEGIN)
}

fn comment_of(value: &Value) -> Option<&str> {
    value.get("$comment").and_then(Value::as_str)
}

fn is_silence(comment: &str) -> bool {
    match comment.strip_prefix(BEGIN) {
        Some(rest) => rest.is_empty() || rest.starts_with([' ', ':']),
        None => false,
    }
}

// Whether a comment silences a rule.
fn is_meant_by(comment: &str, code: &str) -> bool {
    names_in(comment).split(',').any(|name| name.trim() == code)
}

// The names of rules in a comment that silences some, with commas between them; nothing of another one.
fn names_in(comment: &str) -> &str {
    if !is_silence(comment) {
        return "";
    }
    let rest = comment.strip_prefix(BEGIN).unwrap_or("");
    match rest.split_once(':') {
        Some((names, _)) => names,
        None => rest,
    }
}

// The first name of a comment that is that of no rule; it is empty where there is no name.
fn unknown_in(comment: &str) -> Option<&str> {
    for name in names_in(comment).split(',') {
        if !is_rule(name.trim()) {
            return Some(name.trim());
        }
    }
    None
}

// How many steps of a path lead to the innermost object that silences a rule.
fn depth_of(root: &Value, path: &[JsonPointerSegment<'_>], code: &str) -> Option<usize> {
    let mut value = root;
    let mut found = None;
    for (depth, step) in path.iter().enumerate() {
        if comment_of(value).is_some_and(|comment| is_meant_by(comment, code)) {
            found = Some(depth);
        }
        let below = match step {
            JsonPointerSegment::Key(key) => value.get(key.as_str()),
            JsonPointerSegment::Index(index) => value.get(*index),
        };
        value = match below {
            Some(below) => below,
            None => return found,
        };
    }
    if comment_of(value).is_some_and(|comment| is_meant_by(comment, code)) {
        found = Some(path.len());
    }
    found
}

// The comments of a text of YAML that silence rules, in its order. What is in a scalar in quotes or in a block is none.
fn comments_of(alloc: Global, text: &str) -> Result<Vec<Comment<'_>>, AllocError> {
    let mut list = Vec::new(alloc);
    let scalars = scalars_in(alloc, text)?;
    let mut start: usize = 0;
    for (index, line) in text.split('\n').enumerate() {
        if let Some((before, text)) = split_comment(line, start, scalars.as_slice()) {
            list.push(Comment {
                line: index.saturating_add(1),
                column: before.chars().count().saturating_add(1),
                is_alone: before.trim_start().is_empty(),
                text,
            })?;
        }
        start = start.saturating_add(line.len()).saturating_add(1);
    }
    Ok(list)
}

// Where the scalars of a text of YAML are in which a mark begins no comment, in its order; none where it is no YAML.
fn scalars_in(alloc: Global, text: &str) -> Result<Vec<(usize, usize)>, AllocError> {
    let mut scalars = Vec::new(alloc);
    let document = match Yaml::parse(alloc, text) {
        Ok(document) => document,
        Err(Stop::Memory) => return Err(AllocError),
        Err(Stop::At(..)) => return Ok(scalars),
    };
    for event in document.events() {
        if let Some(scalar) = scalar_of(text, event) {
            scalars.push(scalar)?;
        }
    }
    scalars.sort_unstable();
    Ok(scalars)
}

// Where a scalar is in which a mark begins no comment: one in quotes, and of one in a block the lines after its first (YAML 1.2.2, 7.3 and 8.1).
fn scalar_of(text: &str, event: &Event) -> Option<(usize, usize)> {
    match event.kind {
        Kind::SingleQuoted | Kind::DoubleQuoted => Some((event.start, event.end)),
        Kind::Literal | Kind::Folded => {
            let head = text.get(event.start..event.end)?.find('\n')?;
            Some((event.start.saturating_add(head), event.end))
        }
        _ => None,
    }
}

// Whether an offset is in one of these, which are in their order.
fn is_within(scalars: &[(usize, usize)], offset: usize) -> bool {
    let before = match scalars.binary_search_by(|scalar| scalar.0.cmp(&offset)) {
        Ok(number) => Some(number),
        Err(number) => number.checked_sub(1),
    };
    match before {
        Some(number) => scalars.get(number).is_some_and(|scalar| offset < scalar.1),
        None => false,
    }
}

// The comment on a line.
fn comment_at<'d>(comments: &[Comment<'d>], line: usize) -> Option<Comment<'d>> {
    let number = comments
        .binary_search_by(|comment| comment.line.cmp(&line))
        .ok()?;
    comments.get(number).copied()
}

// A line of YAML before its comment that silences rules, and the comment without its mark. What is before it may have the mark too, as in a reference. The line
// begins at an offset of its text.
fn split_comment<'d>(
    line: &'d str,
    start: usize,
    scalars: &[(usize, usize)],
) -> Option<(&'d str, &'d str)> {
    let mut at: usize = 0;
    for _ in 0..line.len() {
        let mark = at.saturating_add(line.get(at..)?.find('#')?);
        let before = line.get(..mark)?;
        let comment = line.get(mark.saturating_add(1)..)?.trim_start().trim_end();
        let is_begun = before.is_empty() || before.ends_with([' ', '\t']);
        if is_begun && is_silence(comment) && !is_within(scalars, start.saturating_add(mark)) {
            return Some((before, comment));
        }
        at = mark.saturating_add(1);
    }
    None
}
