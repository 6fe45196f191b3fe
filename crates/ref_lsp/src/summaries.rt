//! What the documents of a desk have to do with one another.
use crate::asked::texts_at;
use crate::completion::push_below;
use crate::desk::Desk;
use crate::sharers::{add_sharers, described_among};
use crate::workspace_symbols::is_data;
use ref_workspace::near::{around_one, connected};
use ref_workspace::{Summary, Workspace};
use serde_json::Value;
use std::alloc::{AllocError, Global};
use std::collections::BTreeSet;
use std::mem::swap;
use std::rc::Rc;

/// The summaries of documents. A text that changes has its summary made anew, and all are where documents come or go.
#[derive(Drop)]
pub struct Summaries {
    /// The summaries, by the numbers of the documents.
    pub list: Vec<Rc<Summary>>,
    /// How often all were made anew.
    pub round: usize,
    /// Whether they say which documents decide what is told of one, and which ones a reference may lead into.
    pub are_complete: bool,
    // How many were made.
    made: usize,
    // The documents whose texts are others now.
    changed: Vec<usize>,
    // Whether all are to be made anew.
    is_stale: bool,
    // Whether two documents are under one URI.
    has_twins: bool,
}

impl Summaries {
    /// None yet.
    pub fn new(alloc: Global) -> Summaries {
        Summaries {
            list: Vec::new(alloc),
            round: 0,
            are_complete: false,
            made: 0,
            changed: Vec::new(alloc),
            is_stale: true,
            has_twins: false,
        }
    }

    /// Notes that the text of the document with a number, or what the client calls it, is another one.
    pub fn note(&mut self, number: usize) -> Result<(), AllocError> {
        if !self.is_stale && !self.changed.contains(&number) {
            self.changed.push(number)?;
        }
        Ok(())
    }

    /// Notes that documents came or went, or have other numbers.
    pub fn note_all(&mut self) {
        self.is_stale = true;
        self.changed.clear();
    }

    // Makes those anew that are to be.
    fn renew(&mut self, alloc: Global, workspace: &Workspace) -> Result<(), AllocError> {
        if self.is_stale {
            return self.renew_all(alloc, workspace);
        }
        let mut changed = Vec::new(alloc);
        swap(&mut changed, &mut self.changed);
        for number in changed {
            let summary = self.made_of(alloc, workspace, number)?;
            if let (Some(summary), Some(place)) = (summary, self.list.get_mut(number)) {
                *place = summary;
            }
        }
        Ok(())
    }

    fn renew_all(&mut self, alloc: Global, workspace: &Workspace) -> Result<(), AllocError> {
        self.list.clear();
        let mut uris = BTreeSet::new(alloc);
        self.has_twins = false;
        for (number, document) in workspace.documents().iter().enumerate() {
            if !uris.insert(document.uri.as_str())? {
                self.has_twins = true;
            }
            if let Some(summary) = self.made_of(alloc, workspace, number)? {
                self.list.push(summary)?;
            }
        }
        self.is_stale = false;
        self.round = self.round.saturating_add(1);
        Ok(())
    }

    // The summary of the document with a number.
    fn made_of(
        &mut self,
        alloc: Global,
        workspace: &Workspace,
        number: usize,
    ) -> Result<Option<Rc<Summary>>, AllocError> {
        let Some(document) = workspace.documents().get(number) else {
            return Ok(None);
        };
        self.made = self.made.saturating_add(1);
        let summary = Summary::of(alloc, &document.uri, document.value(), self.made)?;
        Ok(Some(Rc::new(alloc, summary)?))
    }

    // Whether no two documents are under one URI, and no summary leaves something out.
    fn say_all(&self) -> bool {
        !self.has_twins && !self.list.iter().any(|summary| summary.is_open)
    }

    /// Whether a document may refer to one of these URIs.
    pub fn refer_to_any(&self, uris: &BTreeSet<String>) -> bool {
        for summary in &self.list {
            if summary.refers.iter().any(|uri| uris.contains(uri.as_str())) {
                return true;
            }
        }
        false
    }
}

impl Desk<'_> {
    /// Makes those summaries anew whose documents changed. What maps have is retrieved anew each time, and isn't summed up.
    pub(crate) fn sum_up(&mut self) -> Result<(), AllocError> {
        let alloc = self.alloc();
        self.summaries.renew(alloc, &self.workspace)?;
        self.summaries.are_complete = self.maps.is_empty() && self.summaries.say_all();
        Ok(())
    }

    /// The documents that are looked at for what is asked of the one with a number, by flags: none has one where all are. Where the text that
    /// the client has isn't the one that is judged, what is at the place that is asked about counts too. `may_be_led` is whether references may lead to places
    /// that no keyword leads to, or there may be descriptions.
    pub(crate) fn looked_at(
        &self,
        number: usize,
        params: Option<&Value>,
        may_be_led: bool,
    ) -> Result<Vec<bool>, AllocError> {
        let alloc = self.alloc();
        if !self.summaries.are_complete {
            return Ok(Vec::new(alloc));
        }
        let texts = match params {
            Some(params) if !self.is_sound(number) => texts_at(self, params)?,
            _ => Vec::new(alloc),
        };
        let list = self.summaries.list.as_slice();
        let mut flags = around_one(alloc, list, number, texts.as_slice())?;
        add_sharers(alloc, list, &mut flags)?;
        if may_be_led {
            return self.with_leading(number, flags);
        }
        Ok(flags)
    }

    // The same documents, and others that may decide how they are read: where one of them has an identifier in what is in it, those that a way of
    // references connects with the one with a number, or all, where these aren't known in a few passes; else where one is a description, or one leads to
    // it, the descriptions and what they lead to.
    fn with_leading(&self, number: usize, flags: Vec<bool>) -> Result<Vec<bool>, AllocError> {
        let alloc = self.alloc();
        let list = self.summaries.list.as_slice();
        if self.has_inner_bases(flags.as_slice())? {
            return match self.connected_with(number)? {
                Some(beyond) => Ok(both(flags, beyond.as_slice())),
                None => Ok(Vec::new(alloc)),
            };
        }
        if !list.iter().any(|summary| summary.is_description) {
            return Ok(flags);
        }
        let described = described_among(alloc, list)?;
        if is_any_in(flags.as_slice(), described.as_slice()) {
            return Ok(both(flags, described.as_slice()));
        }
        Ok(flags)
    }

    // Whether a document with a flag has an identifier in what is in it.
    fn has_inner_bases(&self, flags: &[bool]) -> Result<bool, AllocError> {
        for (number, summary) in self.summaries.list.iter().enumerate() {
            let is_in = flags.get(number).copied().unwrap_or(false);
            if is_in && summary.has_identifier {
                if let Some(root) = self.workspace.value(number) {
                    if has_inner_identifier(self.alloc(), root)? {
                        return Ok(true);
                    }
                }
            }
        }
        Ok(false)
    }

    // The documents that a way of references connects with the one with a number, in whichever direction each goes: nothing where that isn't known.
    fn connected_with(&self, number: usize) -> Result<Option<Vec<bool>>, AllocError> {
        let alloc = self.alloc();
        let Some(uri) = self.workspace.uri(number) else {
            return Ok(None);
        };
        let after = self.summaries.list.as_slice();
        let mut before = Vec::with_capacity(alloc, after.len())?;
        let mut wanting = Vec::with_capacity(alloc, after.len())?;
        for (place, summary) in after.iter().enumerate() {
            // As though it had come just now.
            if place == number {
                before.push(Rc::new(alloc, Summary::of(alloc, uri, None, 0)?)?)?;
            } else {
                before.push(summary.clone()?)?;
            }
            wanting.push(false)?;
        }
        connected(alloc, before.as_slice(), after, wanting.as_slice())
    }
}

// The documents that have a flag in one of two lists.
fn both(flags: Vec<bool>, others: &[bool]) -> Vec<bool> {
    let mut flags = flags;
    for (flag, is_in) in flags.iter_mut().zip(others.iter()) {
        *flag = *flag || *is_in;
    }
    flags
}

// Whether a document has a flag in both of two lists.
fn is_any_in(flags: &[bool], others: &[bool]) -> bool {
    flags
        .iter()
        .zip(others.iter())
        .any(|(flag, is_in)| *flag && *is_in)
}

// Whether an object in a value, other than that itself, has a text that may be an identifier; but for what is an example, a default, or a value to compare
// with. A step for each value.
fn has_inner_identifier(alloc: Global, root: &Value) -> Result<bool, AllocError> {
    let mut waiting = Vec::new(alloc);
    push_inner(&mut waiting, root)?;
    for _ in 0..u64::MAX {
        let Some(value) = waiting.pop() else {
            break;
        };
        if IDENTIFIERS.iter().any(|key| is_identified(value.get(*key))) {
            return Ok(true);
        }
        push_inner(&mut waiting, value)?;
    }
    Ok(false)
}

// Adds the values that are in one, but for those.
fn push_inner<'v>(waiting: &mut Vec<&'v Value>, value: &'v Value) -> Result<(), AllocError> {
    let Value::Object(members) = value else {
        return push_below(waiting, value);
    };
    for (key, member) in members {
        if !is_data(key.as_str()) {
            waiting.push(member)?;
        }
    }
    Ok(())
}

// The keys under which an identifier may be.
const IDENTIFIERS: [&str; 3] = ["$id", "id", "$self"];

// Whether a value is a text that may be an identifier, which is more than a fragment.
fn is_identified(value: Option<&Value>) -> bool {
    value
        .and_then(Value::as_str)
        .is_some_and(|text| !text.starts_with('#'))
}
