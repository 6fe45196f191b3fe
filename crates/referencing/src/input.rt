//! What documents may be added as.
ghost use Rattle.std.specs.Prelude.{◌≡◌, Option, IfOk};
ghost use Rattle.serde_json.specs.Data.{Data};
ghost use Rattle.ref_draft.specs.declared.draft.Draft as draft;
ghost use Rattle.ref_index.specs.Contents.{tree_of};

use ref_draft::{Draft, Resource, ResourceRef};
use ref_index::Contents;
use serde_json::Value;
use std::alloc::{AllocError, Global};
use std::rc::Rc;

/// A document that is yet to be prepared: its value, and its draft where it was given as a resource.
#[derive(Drop)]
pub struct PendingResource<'a> {
    /// The value, as its owner gave it.
    pub contents: Contents<'a>,
    /// The draft, where it was given with one; else it is detected on the value.
    pub draft: Option<Draft>,
}

impl<'a> Clone for PendingResource<'a> {
    ghost use Rattle.ref_index.specs.Contents.{tree_of};

    ghost is_clone = { λ p copy. (tree_of copy.contents ≡ tree_of p.contents)
        × (copy.draft ≡ p.draft) };

    /// A handle of a value that is borrowed or shared. One that is owned is copied, which takes memory for its tree and
    /// is linear in it; a builder holds none. Fails as out of memory.
    fn clone(&self) -> Result<PendingResource<'a>, AllocError> {
        let contents = match &self.contents {
            Contents::Borrowed(value) => Contents::Borrowed(*value),
            Contents::Shared(value) => Contents::Shared(value.clone()?),
            Contents::Owned(value) => Contents::Owned(value.clone()?),
        };
        Ok(PendingResource {
            contents,
            draft: self.draft,
        })
    }
}

/// What can be added to a registry as a document: a value or a resource, owned, shared or borrowed. Neither is ever copied.
pub trait IntoRegistryResource<'a> {
    // The tree of the value.
    ghost tree: { Self → Data };

    // The draft, where it is a resource.
    ghost given_draft: { Self → Option draft.Draft };

    /// The value, as its owner gives it, and the draft where there is one. Takes no memory.
    fn into_pending(self) -> PendingResource<'a>
        ensures tree { tree_of result.contents ≡ tree self }
        ensures draft { result.draft ≡ given_draft self };
}

impl<'a> IntoRegistryResource<'a> for Value {
    ghost use Rattle.std.specs.Prelude.{None};
    ghost use Rattle.serde_json.specs.View.{view};

    ghost tree = { λ value. view value };

    ghost given_draft = { λ _. None };

    fn into_pending(self) -> PendingResource<'a> {
        PendingResource {
            contents: Contents::Owned(self),
            draft: None,
        }
    }
}

impl<'a> IntoRegistryResource<'a> for &'a Value {
    ghost use Rattle.std.specs.Prelude.{None};
    ghost use Rattle.serde_json.specs.View.{view};

    ghost tree = { λ value. view value.now };

    ghost given_draft = { λ _. None };

    fn into_pending(self) -> PendingResource<'a> {
        PendingResource {
            contents: Contents::Borrowed(self),
            draft: None,
        }
    }
}

impl<'a> IntoRegistryResource<'a> for Rc<Value> {
    ghost use Rattle.std.specs.Prelude.{None};
    ghost use Rattle.serde_json.specs.View.{view};

    ghost tree = { λ value. view value.value };

    ghost given_draft = { λ _. None };

    fn into_pending(self) -> PendingResource<'a> {
        PendingResource {
            contents: Contents::Shared(self),
            draft: None,
        }
    }
}

impl<'a> IntoRegistryResource<'a> for Resource {
    ghost use Rattle.std.specs.Prelude.{Some};
    ghost use Rattle.ref_draft.specs.Views.{resource};

    ghost tree = { λ r. (resource r).contents };

    ghost given_draft = { λ r. Some (resource r).draft };

    fn into_pending(self) -> PendingResource<'a> {
        let (draft, contents) = self.into_inner();
        PendingResource {
            contents: Contents::Owned(contents),
            draft: Some(draft),
        }
    }
}

impl<'a> IntoRegistryResource<'a> for &'a Resource {
    ghost use Rattle.std.specs.Prelude.{Some};
    ghost use Rattle.ref_draft.specs.Views.{resource};

    ghost tree = { λ r. (resource r.now).contents };

    ghost given_draft = { λ r. Some (resource r.now).draft };

    fn into_pending(self) -> PendingResource<'a> {
        PendingResource {
            contents: Contents::Borrowed(self.contents()),
            draft: Some(self.draft()),
        }
    }
}

impl<'a> IntoRegistryResource<'a> for ResourceRef<'a> {
    ghost use Rattle.std.specs.Prelude.{Some};
    ghost use Rattle.ref_draft.specs.Views.{resource_ref};

    ghost tree = { λ r. (resource_ref r).contents };

    ghost given_draft = { λ r. Some (resource_ref r).draft };

    fn into_pending(self) -> PendingResource<'a> {
        PendingResource {
            contents: Contents::Borrowed(self.contents()),
            draft: Some(self.draft()),
        }
    }
}

/// The document, whose value is shared from here on where it was owned. Takes memory for the handle then; the value is moved.
pub(crate) fn shared<'a>(
    alloc: Global,
    resource: PendingResource<'a>,
) -> Result<PendingResource<'a>, AllocError>
    ensures tree { IfOk result
        (λ shared. tree_of shared.contents ≡ tree_of resource.entry.contents) }
    ensures draft { IfOk result (λ shared. shared.draft ≡ resource.entry.draft) }
{
    let PendingResource { contents, draft } = resource;
    let contents = match contents {
        Contents::Owned(value) => Contents::Shared(Rc::new(alloc, value)?),
        other => other,
    };
    Ok(PendingResource { contents, draft })
}
