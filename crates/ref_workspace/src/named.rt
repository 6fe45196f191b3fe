//! Where identifiers and anchors of a document are, whether they count there or not.
use crate::placed::{Spot, push_spots};
use crate::workspace::Workspace;
use crate::world::without_fragment;
use ref_draft::Draft;
use ref_index::shared;
use ref_parts::pointer_of;
use ref_uri::uri::resolve_against;
use ref_uri::{Uri, UriFault};
use serde_json::Value;
use std::alloc::{AllocError, Global};
use std::collections::BTreeMap;
use std::rc::Rc;

/// The pointers to the objects of a document that have identifiers and anchors, by what these mean: a URI, and of an anchor its name after a `#`.
/// Of several one counts.
#[derive(Drop)]
pub(crate) struct Named {
    pointers: BTreeMap<String, Owner>,
}

// An object with an identifier or an anchor.
#[derive(Drop)]
struct Owner {
    pointer: String,
    // Whether a reference is beside it, where it counts for nothing.
    is_beside_reference: bool,
}

// An object or an array, and the base URI around it.
#[derive(Drop)]
struct Around<'v> {
    spot: Spot<'v>,
    base: Rc<Uri>,
}

impl Named {
    /// Those of the document with a number, each identifier taken for one, also where no keyword leads. One pass.
    pub fn of(alloc: Global, workspace: &Workspace, number: usize) -> Result<Named, AllocError> {
        let mut named = Named {
            pointers: BTreeMap::new(alloc),
        };
        if let (Some(uri), Some(root)) = (workspace.uri(number), workspace.value(number)) {
            let draft = workspace.draft().detect(root);
            let base = shared(alloc, uri.clone()?)?;
            named.add_all(alloc, draft, base, root)?;
        }
        Ok(named)
    }

    fn add_all(
        &mut self,
        alloc: Global,
        draft: Draft,
        base: Rc<Uri>,
        root: &Value,
    ) -> Result<(), AllocError> {
        let mut waiting = Vec::new(alloc);
        let spot = Spot {
            path: Vec::new(alloc),
            value: root,
        };
        waiting.push(Around { spot, base })?;
        for _ in 0..u64::MAX {
            let Some(around) = waiting.pop() else {
                break;
            };
            let base = self.visit(alloc, draft, &around)?;
            push_inner(alloc, &mut waiting, &around.spot, &base)?;
        }
        Ok(())
    }

    // Notes what an object has, and returns the base URI below it.
    fn visit(
        &mut self,
        alloc: Global,
        draft: Draft,
        around: &Around<'_>,
    ) -> Result<Rc<Uri>, AllocError> {
        let value = around.spot.value;
        let base = own_base(alloc, draft, value, &around.base)?;
        if base.as_str() != around.base.as_str() {
            let name = String::from_str(alloc, without_fragment(base.as_str()))?;
            self.add(alloc, draft, &around.spot, name)?;
        }
        for anchor in draft.anchors(value) {
            let name = anchored(alloc, base.as_str(), anchor.name())?;
            self.add(alloc, draft, &around.spot, name)?;
        }
        Ok(base)
    }

    fn add(
        &mut self,
        alloc: Global,
        draft: Draft,
        spot: &Spot<'_>,
        name: String,
    ) -> Result<(), AllocError> {
        if self.pointers.get(name.as_str()).is_none() {
            let owner = Owner {
                pointer: pointer_of(alloc, spot.path.as_slice())?,
                is_beside_reference: is_older(draft) && spot.value.get("$ref").is_some(),
            };
            self.pointers.insert(name, owner)?;
        }
        Ok(())
    }

    // What is said of a reference to what a document has, but has where it counts for nothing.
    fn said(&self, alloc: Global, name: &str, what: &str) -> Result<Option<String>, AllocError> {
        let Some(owner) = self.pointers.get(name) else {
            return Ok(None);
        };
        let why = if owner.is_beside_reference {
            "which counts for nothing beside a $ref"
        } else {
            "and no keyword leads there, so that it names nothing"
        };
        let pointer = owner.pointer.as_str();
        Ok(Some(format!(in alloc; "'{pointer}' of this file has this {what}, {why}")?))
    }

    /// What is said of a reference to an identifier that the document has where it counts for nothing.
    pub fn said_of_identifier(
        &self,
        alloc: Global,
        uri: &Uri,
    ) -> Result<Option<String>, AllocError> {
        self.said(alloc, without_fragment(uri.as_str()), "identifier")
    }

    /// The same of a reference to an anchor, by the text of a finding that points into the document with this URI.
    pub fn said_of_anchor(
        &self,
        alloc: Global,
        uri: &Uri,
        anchor: &str,
    ) -> Result<Option<String>, AllocError> {
        let name = anchored(alloc, uri.as_str(), anchor)?;
        self.said(alloc, name.as_str(), "anchor")
    }
}

// Whether what is beside a `$ref` counts for nothing.
fn is_older(draft: Draft) -> bool {
    matches!(draft, Draft::Draft4 | Draft::Draft6 | Draft::Draft7)
}

// A URI with the name of an anchor.
fn anchored(alloc: Global, uri: &str, anchor: &str) -> Result<String, AllocError> {
    [without_fragment(uri), "#", anchor].join(alloc, "")
}

// The base URI below a value: what its identifier means, where it has one that means a URI.
fn own_base(
    alloc: Global,
    draft: Draft,
    value: &Value,
    around: &Rc<Uri>,
) -> Result<Rc<Uri>, AllocError> {
    let text = value.get(draft.id_keyword()).and_then(Value::as_str);
    let Some(text) = text else {
        return around.clone();
    };
    if text.starts_with('#') {
        return around.clone();
    }
    match resolve_against(alloc, (**around).borrow(), text) {
        Ok(uri) => shared(alloc, uri),
        Err(UriFault::Memory(error)) => Err(error),
        Err(UriFault::Invalid(error)) => {
            drop(error);
            around.clone()
        }
    }
}

// Adds the values in a value, with the base URI around them.
fn push_inner<'v>(
    alloc: Global,
    waiting: &mut Vec<Around<'v>>,
    spot: &Spot<'v>,
    base: &Rc<Uri>,
) -> Result<(), AllocError> {
    let mut inner = Vec::new(alloc);
    push_spots(alloc, &mut inner, spot)?;
    for spot in inner {
        let base = base.clone()?;
        waiting.push(Around { spot, base })?;
    }
    Ok(())
}
