//! The resources of documents: what the pointers and anchors of references may mean, for suggestions.
use crate::described::is_among;
use crate::documents::tails;
use crate::suggestions::Best;
use crate::workspace::Workspace;
use crate::world::without_fragment;
use ref_draft::{Child, Draft, ResourceRef};
use ref_index::shared;
use ref_messages::Suggester;
use ref_uri::uri::resolve_against;
use ref_uri::{Uri, UriFault};
use serde_json::Value;
use std::alloc::{AllocError, Global};
use std::collections::BTreeMap;
use std::rc::Rc;

/// A document, or a schema in one that has an identifier of its own.
#[derive(Drop)]
pub struct Resource<'d> {
    /// Its value.
    pub root: &'d Value,
    /// The names of its anchors.
    pub names: Vec<&'d str>,
}

/// The resources of all documents, by their URIs.
#[derive(Drop)]
pub struct Resources<'d> {
    alloc: Global,
    list: Vec<Resource<'d>>,
    numbers: BTreeMap<String, usize>,
}

impl Resource<'_> {
    /// Whether an anchor has this name.
    pub fn has_name(&self, name: &str) -> bool {
        self.names.iter().any(|own| *own == name)
    }
}

/// What the names of files of documents end with.
pub const ENDS: &[&str] = &[".json", ".yaml", ".yml"];

// How many letters two URIs are apart, where they are few and in one name alone: that of a folder, or that of a file. The ends that both names of
// files have don't count: a name of one or two letters before `.json` is close to any other.
fn distance(
    alloc: Global,
    suggester: &mut Suggester,
    wanted: &str,
    uri: &str,
) -> Result<Option<usize>, AllocError> {
    let (name, other) = tails(wanted, uri);
    match (name.split_once('/'), other.split_once('/')) {
        (None, None) => distance_of_files(alloc, suggester, name, other),
        (Some((name, below)), Some((other, below_other))) if below == below_other => {
            suggester.distance(alloc, name, other)
        }
        _ => Ok(None),
    }
}

fn distance_of_files(
    alloc: Global,
    suggester: &mut Suggester,
    name: &str,
    other: &str,
) -> Result<Option<usize>, AllocError> {
    for end in ENDS {
        if let (Some(name), Some(other)) = (name.strip_suffix(*end), other.strip_suffix(*end)) {
            return suggester.distance(alloc, name, other);
        }
    }
    suggester.distance(alloc, name, other)
}

// A schema that is to be visited.
#[derive(Drop)]
struct Step<'d> {
    value: &'d Value,
    draft: Draft,
    // The base URI around it.
    outer: Rc<Uri>,
    // The number of the resource around it.
    resource: usize,
    is_root: bool,
}

impl<'d> Resources<'d> {
    /// Those of the documents that were read and are looked at, by flags: one without a flag is. Each place of them is visited once.
    pub fn of(
        alloc: Global,
        workspace: &'d Workspace,
        there: &[bool],
    ) -> Result<Resources<'d>, AllocError> {
        let mut resources = Resources {
            alloc,
            list: Vec::new(alloc),
            numbers: BTreeMap::new(alloc),
        };
        for number in 0..workspace.len() {
            if is_among(there, number) {
                resources.add_at(workspace, number)?;
            }
        }
        Ok(resources)
    }

    /// The resource under a URI.
    pub fn get(&self, uri: &str) -> Option<&Resource<'d>> {
        self.list.get(*self.numbers.get(uri)?)
    }

    /// The URI that is the fewest letters away from another, in the name of its file or of one folder, of several the first, or that
    /// differs from the other in its cases alone.
    pub fn close_uri(
        &self,
        alloc: Global,
        suggester: &mut Suggester,
        wanted: &str,
    ) -> Result<Best<'_>, AllocError> {
        let mut best = Best::new();
        for (uri, _) in &self.numbers {
            if !suggester.step() {
                break;
            }
            if uri.as_str().eq_ignore_ascii_case(wanted) {
                best.take(uri.as_str(), 0);
            } else if let Some(edits) = distance(alloc, suggester, wanted, uri.as_str())? {
                best.take(uri.as_str(), edits);
            }
        }
        Ok(best)
    }

    // The number of the resource under a URI: where there is none yet, one that begins at a value.
    fn add(&mut self, uri: &str, root: &'d Value) -> Result<usize, AllocError> {
        let uri = without_fragment(uri);
        if let Some(number) = self.numbers.get(uri) {
            return Ok(*number);
        }
        let number = self.list.len();
        self.list.push(Resource {
            root,
            names: Vec::new(self.alloc),
        })?;
        self.name(uri, number)?;
        Ok(number)
    }

    // Adds a URI of a resource.
    fn name(&mut self, uri: &str, number: usize) -> Result<(), AllocError> {
        self.numbers
            .insert(String::from_str(self.alloc, uri)?, number)?;
        Ok(())
    }

    // Adds those of the document with a number, where it has a value.
    fn add_at(&mut self, workspace: &'d Workspace, number: usize) -> Result<(), AllocError> {
        match (workspace.uri(number), workspace.value(number)) {
            (Some(uri), Some(value)) => self.add_document(uri, value, workspace.draft()),
            _ => Ok(()),
        }
    }

    fn add_document(&mut self, uri: &Uri, root: &'d Value, draft: Draft) -> Result<(), AllocError> {
        let resource = self.add(uri.as_str(), root)?;
        let outer = shared(self.alloc, uri.clone()?)?;
        let mut waiting = Vec::new(self.alloc);
        waiting.push(Step {
            value: root,
            draft: draft.detect(root),
            outer,
            resource,
            is_root: true,
        })?;
        for _ in 0..u64::MAX {
            let Some(step) = waiting.pop() else {
                break;
            };
            self.visit(&step, &mut waiting)?;
        }
        Ok(())
    }

    // Adds what a schema has, and what is to be visited below it.
    fn visit(&mut self, step: &Step<'d>, waiting: &mut Vec<Step<'d>>) -> Result<(), AllocError> {
        match own_uri(self.alloc, step)? {
            Some(uri) => {
                let resource = self.identified(step, uri.as_str())?;
                self.enter(step, &uri, resource, waiting)
            }
            None => self.enter(step, &step.outer, step.resource, waiting),
        }
    }

    // Adds the names of a schema, and the schemas below it, with its base URI and the number of its resource.
    fn enter(
        &mut self,
        step: &Step<'d>,
        base: &Rc<Uri>,
        resource: usize,
        waiting: &mut Vec<Step<'d>>,
    ) -> Result<(), AllocError> {
        self.add_names(resource, step.draft, step.value)?;
        for child in step.draft.walk_children(self.alloc, step.value)? {
            push_child(waiting, child, base, resource)?;
        }
        Ok(())
    }

    // The number of the resource of a schema that has a URI: a root's is that of its document, unless another resource
    // has the URI.
    fn identified(&mut self, step: &Step<'d>, uri: &str) -> Result<usize, AllocError> {
        let uri = without_fragment(uri);
        if !step.is_root || self.numbers.contains_key(uri) {
            return self.add(uri, step.value);
        }
        self.name(uri, step.resource)?;
        Ok(step.resource)
    }

    fn add_names(
        &mut self,
        resource: usize,
        draft: Draft,
        value: &'d Value,
    ) -> Result<(), AllocError> {
        if let Some(resource) = self.list.get_mut(resource) {
            for anchor in draft.anchors(value) {
                resource.names.push(anchor.name())?;
            }
        }
        Ok(())
    }
}

fn push_child<'d>(
    waiting: &mut Vec<Step<'d>>,
    child: Child<'d>,
    base: &Rc<Uri>,
    resource: usize,
) -> Result<(), AllocError> {
    waiting.push(Step {
        value: child.value,
        draft: child.draft,
        outer: base.clone()?,
        resource,
        is_root: false,
    })?;
    Ok(())
}

// The URI that a schema's identifier means, where it has one that means a URI.
fn own_uri(alloc: Global, step: &Step<'_>) -> Result<Option<Rc<Uri>>, AllocError> {
    let Some(id) = ResourceRef::new(step.value, step.draft).id() else {
        return Ok(None);
    };
    match resolve_against(alloc, step.outer.borrow(), id) {
        Ok(uri) => Ok(Some(shared(alloc, uri)?)),
        Err(UriFault::Memory(error)) => Err(error),
        Err(UriFault::Invalid(error)) => {
            drop(error);
            Ok(None)
        }
    }
}
