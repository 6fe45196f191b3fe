//! What a reference leads to from a place of a document.
use crate::pointer::path_to;
use crate::view::View;
use crate::workspace::Workspace;
use crate::world::World;
use ref_draft::Draft;
use ref_error::Error;
use ref_uri::Uri;
use referencing::Resolver;
use serde_json::Value;
use std::alloc::{AllocError, Global};
use std::rc::Rc;

/// What a reference leads to.
#[derive(Drop)]
pub struct Found<'w> {
    /// The value.
    pub value: &'w Value,
    /// Its draft.
    pub draft: Draft,
    /// The base URI there, and the dynamic scope.
    pub resolver: Resolver<'w>,
    /// The number of its document in the registry.
    pub document: usize,
    /// The pointer to it there.
    pub pointer: String,
}

/// Where a reference leads that has no value to be shown.
#[derive(Drop)]
pub enum Outcome<'w> {
    /// To a value.
    Found(Found<'w>),
    /// Into a document that isn't there, under this URI.
    Missing(Rc<Uri>),
    /// Where no value is: a part of a description has the URI, and not what the fragment asks for.
    Nowhere(Rc<Uri>),
    /// Into a document that was read, by its number, but has no value, or has faults.
    Broken(usize),
    /// From a place that isn't there.
    NoPlace,
}

/// A place of a document, by the number that the document has in a workspace and the pointer to the place (RFC 6901).
#[derive(Clone, Copy, Drop)]
pub struct Start<'p> {
    /// The number of the document.
    pub number: usize,
    /// The pointer.
    pub pointer: &'p str,
}

/// What a reference leads to from a place of a document. Refuses as a look-up does, and a text that means no URI as `InvalidUri`. A walk
/// over all documents, and over what their references lead to.
pub fn followed<'w>(
    alloc: Global,
    workspace: &'w Workspace,
    world: &'w World<'_>,
    start: Start<'_>,
    reference: &str,
) -> Result<Outcome<'w>, Error> {
    if path_to(alloc, workspace.value(start.number), start.pointer)?.is_none() {
        return Ok(Outcome::NoPlace);
    }
    View::of(alloc, workspace, world)?.led(alloc, start, reference)
}

pub(crate) fn looked_up<'w>(
    alloc: Global,
    world: &'w World<'_>,
    base: Uri,
    reference: &str,
) -> Result<Found<'w>, Error> {
    let start = world.registry.resolver(alloc, base)?;
    let (found, location) = start.lookup_located(alloc, reference)?;
    let (value, resolver, draft) = found.into_inner();
    let pointer = location.pointer(alloc)?;
    Ok(Found {
        value,
        draft,
        resolver,
        document: location.document,
        pointer,
    })
}
