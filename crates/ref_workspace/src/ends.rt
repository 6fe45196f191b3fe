//! Whether references may lead to what is no schema, or to where no keyword does, by the names of members alone.
use crate::described::Described;
use crate::placed::{is_reference, push_below};
use crate::workspace::Workspace;
use ref_draft::{Draft, Reached};
use serde_json::{Map, Value};
use std::alloc::{AllocError, Global};

/// The members of documents that may be references, and the last names of their pointers.
#[derive(Drop)]
pub(crate) struct Ends<'d> {
    /// How many there are.
    pub(crate) count: usize,
    // The names, without those that are told apart by nothing but a walk.
    names: Vec<&'d str>,
    // Whether there is a name with a first and a last byte.
    table: Vec<bool>,
    // Whether one leads to an item of an array, or has a name with an escape.
    is_open: bool,
    // The pointers after the `#` of references.
    pointers: Vec<&'d str>,
    // The drafts by which schemas are read.
    drafts: Vec<Draft>,
    // Whether an object has a `$ref` and beside it what would hold schemas: in Drafts 4 to 7 no keyword leads there.
    has_beside: bool,
}

/// Those of documents that are asked about and are no descriptions. A step for each value.
pub(crate) fn ends_of<'d>(
    alloc: Global,
    workspace: &'d Workspace,
    described: &Described,
) -> Result<Ends<'d>, AllocError> {
    let mut ends = Ends {
        count: 0,
        names: Vec::new(alloc),
        table: vec![in alloc; false; 65_536]?,
        is_open: false,
        pointers: Vec::new(alloc),
        drafts: Vec::new(alloc),
        has_beside: false,
    };
    for number in 0..workspace.len() {
        if let (true, Some(value)) = (described.has(number), workspace.value(number)) {
            ends.note(workspace.draft().detect(value))?;
        }
    }
    for (number, document) in workspace.asked_about().iter().enumerate() {
        if described.is_plain_at(number) {
            if let Some(value) = document.value() {
                ends.add_all(alloc, value)?;
            }
        }
    }
    ends.names.sort_unstable();
    Ok(ends)
}

impl<'d> Ends<'d> {
    // Adds those of a value and of what is in it.
    fn add_all(&mut self, alloc: Global, value: &'d Value) -> Result<(), AllocError> {
        let mut waiting = Vec::new(alloc);
        waiting.push(value)?;
        for _ in 0..u64::MAX {
            let Some(value) = waiting.pop() else {
                break;
            };
            if let Some(members) = value.as_object() {
                self.add_object(members)?;
            }
            push_below(&mut waiting, value)?;
        }
        Ok(())
    }

    fn add_object(&mut self, members: &'d Map<String, Value>) -> Result<(), AllocError> {
        let mut has_reference = false;
        for (key, member) in members.iter() {
            if is_reference(key.as_str()) {
                self.add(member)?;
                has_reference = true;
            } else if key.as_str() == "$schema" {
                self.note(Draft::from_schema_uri(member.as_str().unwrap_or("")))?;
            }
        }
        if has_reference && holds_schemas(members) {
            self.has_beside = true;
        }
        Ok(())
    }

    // Notes a draft.
    fn note(&mut self, draft: Draft) -> Result<(), AllocError> {
        if !is_among(self.drafts.as_slice(), draft) {
            self.drafts.push(draft)?;
        }
        Ok(())
    }

    /// Whether one may lead to where no keyword does: by its pointer in one of the drafts, or since keywords beside a `$ref` lead nowhere. A step for each key of a
    /// pointer.
    pub(crate) fn may_be_elsewhere(&self) -> bool {
        for draft in &self.drafts {
            if self.has_beside && is_before_2019(*draft) {
                return true;
            }
            for pointer in &self.pointers {
                if !leads_to_schema(*draft, *pointer) {
                    return true;
                }
            }
        }
        false
    }

    fn add(&mut self, member: &'d Value) -> Result<(), AllocError> {
        self.count = self.count.saturating_add(1);
        let Some((_, fragment)) = member.as_str().unwrap_or("").split_once('#') else {
            return Ok(());
        };
        let Some((_, name)) = fragment.rsplit_once('/') else {
            return Ok(());
        };
        self.pointers.push(fragment)?;
        if name.contains(['%', '~']) || name.bytes().all(|byte| byte.is_ascii_digit()) {
            self.is_open = true;
        } else {
            if let Some(is_there) = self.table.get_mut(key_of(name)) {
                *is_there = true;
            }
            self.names.push(name)?;
        }
        Ok(())
    }

    /// Whether one may lead to what is no schema: to an item of an array, to a member with such a name that is no object, or to a document that is none. A step
    /// for each value of all documents at most.
    pub(crate) fn may_be_no_schema(
        &self,
        alloc: Global,
        workspace: &Workspace,
        described: &Described,
    ) -> Result<bool, AllocError> {
        if self.is_open {
            return Ok(true);
        }
        for number in 0..workspace.len() {
            if described.has(number) && self.may_be_in(alloc, workspace, number)? {
                return Ok(true);
            }
        }
        Ok(false)
    }

    // Whether one may lead to what is no schema in the document with a number.
    fn may_be_in(
        &self,
        alloc: Global,
        workspace: &Workspace,
        number: usize,
    ) -> Result<bool, AllocError> {
        match workspace.value(number) {
            Some(value) => Ok(!value.is_object() || self.has_other(alloc, value)?),
            None => Ok(false),
        }
    }

    // Whether a value has a member, at any depth, with such a name that is no object.
    fn has_other(&self, alloc: Global, value: &Value) -> Result<bool, AllocError> {
        let mut waiting = Vec::new(alloc);
        waiting.push(value)?;
        for _ in 0..u64::MAX {
            let Some(value) = waiting.pop() else {
                break;
            };
            if let Some(members) = value.as_object() {
                for (key, member) in members.iter() {
                    if !member.is_object() && self.has(key.as_str()) {
                        return Ok(true);
                    }
                }
            }
            push_below(&mut waiting, value)?;
        }
        Ok(false)
    }

    fn has(&self, name: &str) -> bool {
        let may = self.table.get(key_of(name)).copied().unwrap_or(false);
        may && self.names.binary_search(&name).is_ok()
    }
}

fn is_among(drafts: &[Draft], draft: Draft) -> bool {
    drafts.iter().any(|other| other.name() == draft.name())
}

// Whether a draft has no keywords beside a `$ref`.
fn is_before_2019(draft: Draft) -> bool {
    matches!(draft, Draft::Draft4 | Draft::Draft6 | Draft::Draft7)
}

// Whether a member of an object would hold schemas. (The table of Draft 4 has the keywords of all drafts before 2019-09.)
fn holds_schemas(members: &Map<String, Value>) -> bool {
    for (key, member) in members.iter() {
        let is_large = member.is_object() || member.is_array();
        if is_large
            && !matches!(
                Reached::Schema.key(Draft::Draft4, key.as_str()),
                Reached::Other
            )
        {
            return true;
        }
    }
    false
}

// Whether the keywords of a draft lead from a schema along a pointer to another one. Below `items` and `dependencies` before 2020-12 that isn't looked at.
fn leads_to_schema(draft: Draft, pointer: &str) -> bool {
    let mut reached = Reached::Schema;
    let mut is_last = true;
    for key in pointer.split('/').skip(1) {
        is_last = !matches!(reached, Reached::BelowItems);
        reached = reached.key(draft, key);
    }
    match reached {
        Reached::Schema => true,
        Reached::BelowItems => is_last,
        Reached::Schemas | Reached::Other => false,
    }
}

// The first and the last byte of a name as one number.
fn key_of(name: &str) -> usize {
    match name.as_bytes() {
        [] => 0,
        [first, .., last] => usize::from(*first) * 256 + usize::from(*last),
        [only] => usize::from(*only) * 257,
    }
}
