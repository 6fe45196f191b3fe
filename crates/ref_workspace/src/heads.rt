//! Whether references may come back to where they began, by the names of members alone.
//!
//! A place is told by its name and by that of the object around it, a reference by the last two names of its pointer, or by the last name of its URI where it
//! has no fragment. Where places that are apart have the same two names, they count as one; so there may be a circle among names and none among places, but
//! where references come back, names do too.
use crate::placed::is_reference;
use crate::workspace::Workspace;
use ref_graphs::{Step, circles_of};
use ref_uri::Uri;
use serde_json::{Map, Value};
use std::alloc::{AllocError, Global};

// The names of a place: that of the member that it is, and that of the member around it, which is empty where it isn't known.
#[derive(Clone, Copy, Drop)]
struct Names<'d> {
    around: &'d str,
    name: &'d str,
}

// A value that is to be visited: the key that it is under, which is empty at a root and in an array; the names of the place that is applied to the same value;
// and whether that may be led to by an anchor or from within.
#[derive(Clone, Copy, Drop)]
struct Spot<'d> {
    value: &'d Value,
    own: &'d str,
    head: Names<'d>,
    is_apart: bool,
}

// The mark of all places that are led to by an anchor, or by a reference that has no name.
const APART: u64 = 0;

/// From which names to which the references of documents lead.
#[derive(Drop)]
pub(crate) struct Heads {
    // From the mark of some names to that of others. Where names have one mark by chance, they count as one.
    steps: Vec<(u64, u64)>,
    // Whether the last name of a pointer or a URI is one that tells nothing: that of an item, or of a keyword, or one with an escape.
    is_open: bool,
}

/// Whether references of documents may come back to where they began without a step into the value that is validated: it is so where they do, and may be so
/// where places have the same names, or a file and a place. Fails only if out of memory. A step for each value, and a search among names for each reference.
pub(crate) fn may_be_endless(alloc: Global, workspace: &Workspace) -> Result<bool, AllocError> {
    let mut heads = Heads::new(alloc);
    for number in 0..workspace.len() {
        if let (Some(uri), Some(value)) = (workspace.uri(number), workspace.value(number)) {
            heads.add_all(alloc, last_name(uri.as_str()), value)?;
        }
        if heads.is_open {
            return Ok(true);
        }
    }
    heads.may_come_back(alloc)
}

impl Heads {
    /// None yet.
    pub fn new(alloc: Global) -> Heads {
        Heads {
            steps: Vec::new(alloc),
            is_open: false,
        }
    }

    /// Those of a document with a URI, and with a value where it has one, each once.
    pub fn of(alloc: Global, uri: &Uri, value: Option<&Value>) -> Result<Heads, AllocError> {
        let mut heads = Heads::new(alloc);
        if let Some(root) = value {
            heads.add_all(alloc, last_name(uri.as_str()), root)?;
        }
        let Heads { steps, is_open } = heads;
        let steps = each_once(alloc, steps)?;
        Ok(Heads { steps, is_open })
    }

    /// Whether others are the same.
    pub fn is_same(&self, other: &Heads) -> bool {
        if self.is_open != other.is_open || self.steps.len() != other.steps.len() {
            return false;
        }
        for (own, step) in self.steps.iter().zip(other.steps.iter()) {
            if own.0 != step.0 || own.1 != step.1 {
                return false;
            }
        }
        true
    }

    /// Adds others.
    pub fn add(&mut self, other: &Heads) -> Result<(), AllocError> {
        self.is_open = self.is_open || other.is_open;
        for step in &other.steps {
            self.steps.push(*step)?;
        }
        Ok(())
    }

    // Adds the references of a value and of what is in it.
    fn add_all(&mut self, alloc: Global, name: &str, root: &Value) -> Result<(), AllocError> {
        let mut waiting = Vec::new(alloc);
        waiting.push(Spot {
            value: root,
            own: "",
            head: Names { around: "", name },
            is_apart: true,
        })?;
        for _ in 0..u64::MAX {
            let Some(spot) = waiting.pop() else {
                break;
            };
            self.visit(spot, &mut waiting)?;
        }
        Ok(())
    }

    fn visit<'d>(&mut self, spot: Spot<'d>, waiting: &mut Vec<Spot<'d>>) -> Result<(), AllocError> {
        match spot.value {
            Value::Object(members) => {
                let is_apart = self.add_identifiers(spot, members)? || spot.is_apart;
                let spot = Spot { is_apart, ..spot };
                for (key, value) in members {
                    self.visit_member(spot, (key.as_str(), value), waiting)?;
                }
                Ok(())
            }
            Value::Array(_) => push_items(waiting, unnamed(spot.value), spot.value),
            _ => Ok(()),
        }
    }

    // Says whether an object may be led to by an anchor or a URI. What its identifier ends with leads to it.
    fn add_identifiers(
        &mut self,
        spot: Spot<'_>,
        members: &Map<String, Value>,
    ) -> Result<bool, AllocError> {
        let mut is_identified = false;
        for (key, value) in members {
            if is_identifier(key.as_str()) {
                is_identified = true;
                if let Some(text) = value.as_str() {
                    let from = self.mark_of_uri(text);
                    self.steps.push((from, mark_of(spot.head)))?;
                }
            }
        }
        Ok(is_identified)
    }

    // Passes a member of an object, whose value may still be applied to the same as the object.
    fn visit_member<'d>(
        &mut self,
        spot: Spot<'d>,
        (key, value): (&'d str, &'d Value),
        waiting: &mut Vec<Spot<'d>>,
    ) -> Result<(), AllocError> {
        if let Some(text) = value.as_str() {
            if is_reference(key) {
                let to = self.target(text);
                self.push(spot, to)?;
            }
            return Ok(());
        }
        if !value.is_object() && !value.is_array() {
            return Ok(());
        }
        match applied(key) {
            Application::Once => push_spot(
                waiting,
                Spot {
                    value,
                    own: key,
                    ..spot
                },
            ),
            Application::Each if value.is_array() => push_items(waiting, spot, value),
            Application::Named if value.is_object() => self.push_named(spot, value, waiting),
            _ => push_spot(waiting, named(spot.own, key, value)),
        }
    }

    // Adds the members of an object that are applied to the same value, each under its own name. The object may be a schema too, of a property that has the
    // name of the keyword: a pointer to that ends with a keyword, and where it has an identifier, nothing is known.
    fn push_named<'d>(
        &mut self,
        spot: Spot<'d>,
        value: &'d Value,
        waiting: &mut Vec<Spot<'d>>,
    ) -> Result<(), AllocError> {
        let Some(members) = value.as_object() else {
            return Ok(());
        };
        for (key, member) in members {
            self.note_plain(key.as_str(), member);
            let inner = named("", key.as_str(), member);
            self.push(spot, mark_of(inner.head))?;
            push_spot(waiting, inner)?;
        }
        Ok(())
    }

    // Notes what is known no more by a member that is neither an object nor an array.
    fn note_plain(&mut self, key: &str, member: &Value) {
        let text = member.as_str();
        if let (Some(text), true) = (text, is_reference(key)) {
            let _ = self.target(text);
        }
        if is_identifier(key) && (text.is_some() || member.is_boolean()) {
            self.is_open = true;
        }
    }

    // Adds that a reference at a place leads to names with a mark.
    fn push(&mut self, at: Spot<'_>, to: u64) -> Result<(), AllocError> {
        self.steps.push((mark_of(at.head), to))?;
        if !at.head.around.is_empty() {
            let name = at.head.name;
            self.steps.push((mark_of(Names { around: "", name }), to))?;
        }
        if at.is_apart {
            self.steps.push((APART, to))?;
        }
        Ok(())
    }

    // The mark of the last name of the URI that a text has.
    fn mark_of_uri(&mut self, text: &str) -> u64 {
        let front = match text.split_once('#') {
            Some((front, _)) => front,
            None => text,
        };
        if front.is_empty() {
            return APART;
        }
        let name = last_name(front);
        if name.contains(['%', '?']) || matches!(name, "" | "." | "..") || is_bare(front) {
            self.is_open = true;
        }
        mark_of(Names { around: "", name })
    }

    // The mark of the last names of the pointer that a reference has, or of its URI where it has no fragment.
    fn target(&mut self, text: &str) -> u64 {
        let fragment = match text.split_once('#') {
            Some((_, fragment)) => fragment,
            None => "",
        };
        if fragment.is_empty() {
            return self.mark_of_uri(text);
        }
        let Some((rest, name)) = fragment.rsplit_once('/') else {
            return APART;
        };
        if tells_nothing(name) {
            self.is_open = true;
        }
        let around = match rest.rsplit_once('/') {
            Some((_, around)) if !tells_nothing(around) => around,
            _ => "",
        };
        mark_of(Names { around, name })
    }

    /// Whether there may be a circle among names.
    pub fn may_come_back(&self, alloc: Global) -> Result<bool, AllocError> {
        if self.is_open {
            return Ok(true);
        }
        let marks = self.marks(alloc)?;
        let marks = marks.as_slice();
        let mut steps = Vec::new(alloc);
        for (from, to) in &self.steps {
            if let (Ok(from), Ok(to)) = (marks.binary_search(from), marks.binary_search(to)) {
                steps.push(Step { from, to })?;
            }
        }
        let circles = circles_of(alloc, marks.len(), steps.as_slice())?;
        Ok(!circles.is_empty())
    }

    // The marks that steps lead to, in their order, each once.
    fn marks(&self, alloc: Global) -> Result<Vec<u64>, AllocError> {
        let mut all = Vec::with_capacity(alloc, self.steps.len())?;
        for (_, to) in &self.steps {
            all.push(*to)?;
        }
        all.sort_unstable();
        let mut marks: Vec<u64> = Vec::new(alloc);
        for mark in all {
            if marks.last().copied() != Some(mark) {
                marks.push(mark)?;
            }
        }
        Ok(marks)
    }
}

// Steps in their order, each once.
fn each_once(alloc: Global, steps: Vec<(u64, u64)>) -> Result<Vec<(u64, u64)>, AllocError> {
    let mut steps = steps;
    steps.sort_unstable();
    let mut list: Vec<(u64, u64)> = Vec::new(alloc);
    for (from, to) in steps {
        let is_new = match list.last() {
            Some(last) => last.0 != from || last.1 != to,
            None => true,
        };
        if is_new {
            list.push((from, to))?;
        }
    }
    Ok(list)
}

// How what is under a keyword is applied to the value that the schema around it is.
#[derive(Clone, Copy, PartialEq, Eq)]
enum Application {
    // It is not, or to what is in the value.
    No,
    // As one schema.
    Once,
    // Each item of a list.
    Each,
    // Each member of an object.
    Named,
}

// How what is under a keyword is applied (2020-12 Core, 10.2), where the draft has it.
fn applied(keyword: &str) -> Application {
    match keyword {
        "allOf" | "anyOf" | "oneOf" => Application::Each,
        "not" | "if" | "then" | "else" => Application::Once,
        "dependentSchemas" | "dependencies" => Application::Named,
        _ => Application::No,
    }
}

// The mark of names.
fn mark_of(names: Names<'_>) -> u64 {
    mixed(mixed(mixed(FIRST_MARK, names.around), "/"), names.name)
}

// A mark with the bytes of a text: the FNV-1a hash, of which this is the start.
const FIRST_MARK: u64 = 14_695_981_039_346_656_037;

fn mixed(mark: u64, text: &str) -> u64 {
    let mut mark = mark;
    for byte in text.bytes() {
        mark = (mark ^ u64::from(byte)).wrapping_mul(1_099_511_628_211);
    }
    mark
}

// Whether a name in a pointer doesn't tell which member is meant: it may be that of an item, or of a keyword that is applied to the same value, or it has an
// escape.
fn tells_nothing(name: &str) -> bool {
    let is_number = name.bytes().all(|byte| byte.is_ascii_digit());
    is_number || name.contains(['%', '~']) || applied(name) != Application::No
}

// What follows the last slash of a URI.
fn last_name(uri: &str) -> &str {
    match uri.rsplit_once('/') {
        Some((_, name)) => name,
        None => uri,
    }
}

// Whether what follows the last slash of a URI is no name of a path: its host, or its scheme and what follows, in which capitals may count for nothing.
fn is_bare(uri: &str) -> bool {
    match uri.split_once("//") {
        Some((_, rest)) => !rest.contains('/'),
        None => uri.contains(':') && uri.bytes().any(|byte| byte.is_ascii_uppercase()),
    }
}

/// Whether a member with this name may be an identifier or an anchor in some draft, or in a description.
pub(crate) fn is_identifier(key: &str) -> bool {
    match key.as_bytes().first() {
        Some(b'$') => matches!(
            key,
            "$id" | "$anchor" | "$dynamicAnchor" | "$recursiveAnchor" | "$self"
        ),
        Some(b'i') => key == "id",
        _ => false,
    }
}

// A value that is applied to no other one than itself, under a key, in what is under another one.
fn named<'d>(around: &'d str, key: &'d str, value: &'d Value) -> Spot<'d> {
    Spot {
        value,
        own: key,
        head: Names { around, name: key },
        is_apart: false,
    }
}

// The same of one that has no name.
fn unnamed(value: &Value) -> Spot<'_> {
    named("", "", value)
}

// Adds the items of an array, which are applied to the same value as others.
fn push_items<'d>(
    waiting: &mut Vec<Spot<'d>>,
    around: Spot<'d>,
    value: &'d Value,
) -> Result<(), AllocError> {
    let Some(items) = value.as_array() else {
        return Ok(());
    };
    for value in items {
        push_spot(
            waiting,
            Spot {
                value,
                own: "",
                ..around
            },
        )?;
    }
    Ok(())
}

fn push_spot<'d>(waiting: &mut Vec<Spot<'d>>, spot: Spot<'d>) -> Result<(), AllocError> {
    if spot.value.is_object() || spot.value.is_array() {
        waiting.push(spot)?;
    }
    Ok(())
}
