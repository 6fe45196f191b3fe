//! The places of the documents of an index, as a list.
ghost use Rattle.std.specs.Prelude.{◌≡◌, ℕ, List, [], ◌∷◌, ◌++◌, map, option_map, slice_get, Some, Ok, IfOk, OnOk};
ghost use Rattle.std.specs.List.{Contains};
ghost use Rattle.ref_definitions.specs.Listing.{listed_place, local_places};
ghost use Rattle.ref_definitions.specs.Places.{Place as WorldPlace, base_within, children_of, places, root};
ghost use Rattle.ref_definitions.specs.Wants.{faults};
ghost use Rattle.ref_index.specs.Document.{document_of};
ghost use Rattle.ref_index.specs.Listing.{listed_of};
ghost use Rattle.ref_index.specs.Visit.{place_of};
ghost use Rattle.ref_index.specs.declared.queue.Visit.{Visit};

use crate::document::Document;
use crate::index::Index;
use crate::meanings::resolved;
use crate::path::Below;
use crate::queue::{ValueRef, Visit};
use crate::reference::shared;
use crate::walk::{push_children, push_visit};
use ref_draft::{Draft, ResourceRef};
use ref_parts::path::JsonPointerSegment;
use ref_uri::{Uri, UriFault};
use serde_json::Value;
use std::alloc::{AllocError, Global};
use std::rc::Rc;

/// A place where a schema is, in one of a registry's own documents.
#[derive(Debug, Drop)]
pub struct Place<'a> {
    /// The number of its document, counted from 0 in the order in which their URIs were first added, and after them those
    /// retrieved.
    pub document: usize,
    /// Its path in the document.
    pub path: Vec<JsonPointerSegment<'a>>,
    /// The value there.
    pub value: &'a Value,
    /// Its base URI, which its own identifier changes.
    pub base: Rc<Uri>,
    /// Its draft.
    pub draft: Draft,
}

// The base of a place, whose identifier means a URI: what was resolved while the documents were walked is shared.
fn base_in(
    alloc: Global,
    index: &Index<'_>,
    outer: &Rc<Uri>,
    id: Option<&str>,
) -> Result<Rc<Uri>, AllocError>
    requires { (uri : List ℕ)
        × (base_within outer.now.value (option_map (λ text. text.now) id) ≡ Ok uri) }
    ensures { IfOk result
        (λ base. base_within outer.now.value (option_map (λ text. text.now) id.entry)
        ≡ Ok base.value) }
{
    let Some(id) = id else {
        return outer.clone();
    };
    if let Some(found) = index.resolved(outer.as_str(), id) {
        return found.uri.clone();
    }
    match resolved(alloc, outer, id) {
        Ok(uri) => Ok(uri),
        Err(UriFault::Memory(error)) => Err(error),
        Err(UriFault::Invalid(error)) => unreachable!("{error}"),
    }
}

// The place of a visit, whose base is known.
fn place_at<'w, 'a: 'w>(
    alloc: Global,
    number: usize,
    visit: &Visit<'w, 'a>,
    base: &Rc<Uri>,
) -> Result<Place<'w>, AllocError>
    ensures { (place_of visit.now).base ≡ Ok base.now.value
        → IfOk result (λ place. listed_of place ≡ listed_place number (place_of visit.now)) }
{
    let path = visit.value.owned_segments(alloc)?;
    let base = base.clone()?;
    Ok(Place {
        document: number,
        path,
        value: visit.value.get(),
        base,
        draft: visit.draft,
    })
}

// Adds the place at the head of the queue to the list, and its children to the queue.
fn list_next<'w, 'a: 'w>(
    alloc: Global,
    index: &Index<'_>,
    places: &mut Vec<Place<'w>>,
    number: usize,
    queue: &mut Vec<Visit<'w, 'a>>,
    head: usize,
) -> Result<(), AllocError>
    requires { (v : Visit) × (uri : List ℕ) × (slice_get queue.old.items head ≡ Some v)
        × ((place_of v).base ≡ Ok uri) }
    ensures { (v : Visit) → slice_get queue.old.items head ≡ Some v
        → OnOk result
        ((map listed_of places.new.items
        ≡ map listed_of places.old.items ++ listed_place number (place_of v) ∷ [])
        × ((more : List Visit) × (queue.new.items ≡ queue.old.items ++ more)
        × (map place_of more ≡ children_of (place_of v)))) }
{
    let visit = &queue[head];
    let id = ResourceRef::new(visit.value.get(), visit.draft).id();
    let base = base_in(alloc, index, &visit.outer, id)?;
    let place = place_at(alloc, number, visit, &base)?;
    places.push(place)?;
    push_children(alloc, queue, head, &base)
}

// The root of a document, as a value that the document owns: so keys are borrowed for as long as the list.
fn owned_root_of<'w, 'a>(
    alloc: Global,
    document: &'w Document<'a>,
) -> Result<Visit<'w, 'a>, AllocError>
    ensures { IfOk result (λ v. place_of v ≡ root (document_of document.now)) }
{
    let uri = document.uri.clone()?;
    let outer = shared(alloc, uri)?;
    Ok(Visit {
        value: ValueRef::Owned(document.contents.value(), Below::root()),
        draft: document.draft,
        outer,
    })
}

// Adds the places of a document, whose number is given, to the list.
fn list_document<'w>(
    alloc: Global,
    index: &Index<'_>,
    list: &mut Vec<Place<'w>>,
    number: usize,
    document: &'w Document<'_>,
) -> Result<(), AllocError>
    requires { (p : WorldPlace) → Contains (places (document_of document.now)) p
        → (uri : List ℕ) × (p.base ≡ Ok uri) }
    ensures { OnOk result
        (map listed_of list.new.items
        ≡ map listed_of list.old.items
        ++ map (listed_place number) (places (document_of document.now))) }
{
    let root = owned_root_of(alloc, document)?;
    let mut queue = Vec::new(alloc);
    push_visit(&mut queue, root)?;
    let mut head = 0;
    while head < queue.len() {
        list_next(alloc, index, list, number, &mut queue, head)?;
        head += 1;
    }
    Ok(())
}

impl<'a> Index<'a> {
    /// The places of these documents, document by document, and in each level by level, as they were walked. Each place
    /// is visited once, and its path copied; keys are borrowed, and URIs shared but that of each document. Refused where
    /// memory is refused.
    pub fn places(&self, alloc: Global) -> Result<Vec<Place<'_>>, AllocError>
        requires { faults self.now ≡ [] }
        ensures value { IfOk result (λ list. map listed_of list.items ≡ local_places self.now) }
    {
        let documents = self.documents();
        let mut list = Vec::new(alloc);
        let mut number = 0;
        while number < documents.len() {
            list_document(alloc, self, &mut list, number, &documents[number])?;
            number += 1;
        }
        Ok(list)
    }
}
