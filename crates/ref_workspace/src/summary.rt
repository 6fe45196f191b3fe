//! What a document has to do with others, by its value alone.
use crate::heads::Heads;
use crate::referring::is_referring;
use crate::uses::Uses;
use ref_descriptions::version_of;
use ref_draft::Draft;
use ref_index::meanings::{if_meant, target_of, text_under};
use ref_index::shared;
use ref_uri::Uri;
use serde_json::{Map, Value};
use std::alloc::{AllocError, Global};
use std::collections::BTreeSet;
use std::rc::Rc;

/// What a document has to do with others, however it is read: more may be noted than there is, and nothing is left out.
#[derive(Drop)]
pub struct Summary {
    /// A number that no other summary has.
    pub stamp: usize,
    /// The URIs that it may bear: its own, and what a text under `$id`, `id` or `$self` may mean, wherever it is.
    pub bears: BTreeSet<String>,
    /// The URIs that its references may point into, without fragments: what texts under the keywords of references and texts of mappings may
    /// mean, wherever they are, but for those that are a fragment alone.
    pub refers: BTreeSet<String>,
    /// Whether it has a value.
    pub has_value: bool,
    /// Whether a text that may be an identifier is in it.
    pub has_identifier: bool,
    /// Whether it is a description of an API.
    pub is_description: bool,
    /// Whether its draft may be guessed: its root names none that is known.
    pub is_guessed: bool,
    /// Whether more URIs may be meant than are noted.
    pub is_open: bool,
    /// From which names to which its references lead.
    pub(crate) heads: Heads,
    /// What of it counts for which definitions are used.
    pub(crate) uses: Uses,
}

// A value that is to be visited, with the number of the bases that there may be around it.
#[derive(Drop)]
struct Step<'v> {
    value: &'v Value,
    bases: usize,
}

// A walk over all values of a document.
#[derive(Drop)]
struct Walk {
    alloc: Global,
    summary: Summary,
    // The bases that there may be in parts of the document: those around an identifier, and what it means against each of them.
    bases: Vec<Vec<Rc<Uri>>>,
}

// How many bases there may be around a value.
const MOST_BASES: usize = 16;

impl Summary {
    /// That of a document with a URI, and with a value where it has one. A step for each value, and a URI for each reference.
    pub fn of(
        alloc: Global,
        uri: &Uri,
        value: Option<&Value>,
        stamp: usize,
    ) -> Result<Summary, AllocError> {
        let mut walk = Walk::new(alloc, uri, stamp)?;
        walk.summary.heads = Heads::of(alloc, uri, value)?;
        walk.summary.uses = Uses::of(alloc, uri, value)?;
        if let Some(root) = value {
            walk.summary.has_value = true;
            walk.summary.is_description = version_of(root).is_some();
            walk.summary.is_guessed = is_guessed(root);
            walk.visit_all(root)?;
        }
        Ok(walk.into_summary())
    }
}

fn is_guessed(root: &Value) -> bool {
    match text_under(root, "$schema") {
        Some(text) => Draft::from_schema_uri(text) == Draft::Unknown,
        None => true,
    }
}

impl Walk {
    fn new(alloc: Global, uri: &Uri, stamp: usize) -> Result<Walk, AllocError> {
        let mut bears = BTreeSet::new(alloc);
        bears.insert(String::from_str(alloc, uri.as_str())?)?;
        let mut own = Vec::new(alloc);
        own.push(shared(alloc, uri.clone()?)?)?;
        let mut bases = Vec::new(alloc);
        bases.push(own)?;
        let summary = Summary {
            stamp,
            bears,
            refers: BTreeSet::new(alloc),
            has_value: false,
            has_identifier: false,
            is_description: false,
            is_guessed: false,
            is_open: false,
            heads: Heads::new(alloc),
            uses: Uses::new(alloc),
        };
        Ok(Walk {
            alloc,
            summary,
            bases,
        })
    }

    fn into_summary(self) -> Summary {
        self.summary
    }

    fn visit_all(&mut self, root: &Value) -> Result<(), AllocError> {
        let mut waiting = Vec::new(self.alloc);
        push(&mut waiting, root, 0)?;
        for _ in 0..u64::MAX {
            let Some(step) = waiting.pop() else {
                break;
            };
            self.visit(&step, &mut waiting)?;
        }
        Ok(())
    }

    fn visit<'v>(
        &mut self,
        step: &Step<'v>,
        waiting: &mut Vec<Step<'v>>,
    ) -> Result<(), AllocError> {
        if let Some(members) = step.value.as_object() {
            let bases = self.bases_in(members, step.bases)?;
            for (key, member) in members.iter() {
                self.refer(key.as_str(), member, bases)?;
                push(waiting, member, bases)?;
            }
        }
        if let Some(items) = step.value.as_array() {
            for item in items {
                push(waiting, item, step.bases)?;
            }
        }
        Ok(())
    }

    // The number of the bases that there may be in an object: with what its identifier may mean, where it has one.
    fn bases_in(
        &mut self,
        members: &Map<String, Value>,
        outer: usize,
    ) -> Result<usize, AllocError> {
        let mut bases = outer;
        for key in ["$id", "id", "$self"] {
            if let Some(id) = members.get(key).and_then(Value::as_str) {
                self.summary.has_identifier = true;
                if !id.starts_with('#') {
                    bases = self.with_identifier(id, bases)?;
                }
            }
        }
        Ok(bases)
    }

    fn with_identifier(&mut self, id: &str, outer: usize) -> Result<usize, AllocError> {
        let around = bases_at(self.bases.as_slice(), outer);
        if around.len() >= MOST_BASES {
            self.summary.is_open = true;
            return Ok(outer);
        }
        let mut within = meant_by(self.alloc, around, id)?;
        for uri in &within {
            self.summary
                .bears
                .insert(String::from_str(self.alloc, uri.as_str())?)?;
        }
        for uri in around {
            push_new(&mut within, uri.clone()?)?;
        }
        let number = self.bases.len();
        self.bases.push(within)?;
        Ok(number)
    }

    // Notes what a member of an object refers to.
    fn refer(&mut self, key: &str, member: &Value, bases: usize) -> Result<(), AllocError> {
        if let Some(text) = member.as_str() {
            if is_referring(key) {
                return self.note(text, bases);
            }
        } else if key == "mapping" {
            if let Some(members) = member.as_object() {
                for (_, member) in members.iter() {
                    self.note(member.as_str().unwrap_or("#"), bases)?;
                }
            }
        }
        Ok(())
    }

    // Notes what a text may refer to.
    fn note(&mut self, text: &str, bases: usize) -> Result<(), AllocError> {
        if text.starts_with('#') {
            return Ok(());
        }
        let around = bases_at(self.bases.as_slice(), bases);
        for uri in meant_by(self.alloc, around, text)? {
            self.summary
                .refers
                .insert(String::from_str(self.alloc, uri.as_str())?)?;
        }
        Ok(())
    }
}

// Adds a value that is to be visited, where it may have values in it.
fn push<'v>(waiting: &mut Vec<Step<'v>>, value: &'v Value, bases: usize) -> Result<(), AllocError> {
    if value.is_object() || value.is_array() {
        waiting.push(Step { value, bases })?;
    }
    Ok(())
}

fn bases_at(list: &[Vec<Rc<Uri>>], number: usize) -> &[Rc<Uri>] {
    match list.get(number) {
        Some(bases) => bases.as_slice(),
        None => &[],
    }
}

// The URIs that a text means against bases, without fragments, each once.
fn meant_by(alloc: Global, bases: &[Rc<Uri>], text: &str) -> Result<Vec<Rc<Uri>>, AllocError> {
    let mut uris = Vec::new(alloc);
    for base in bases {
        if let Some(uri) = if_meant(target_of(alloc, base, text))? {
            push_new(&mut uris, uri)?;
        }
    }
    Ok(uris)
}

// Adds a URI, unless it is in the list.
fn push_new(uris: &mut Vec<Rc<Uri>>, uri: Rc<Uri>) -> Result<(), AllocError> {
    if !uris.iter().any(|other| other.as_str() == uri.as_str()) {
        uris.push(uri)?;
    }
    Ok(())
}
