//! The walk over the places of a document.
ghost use Rattle.std.specs.Prelude.{◌≡◌, ◌<◌, ℕ, [], ◌∷◌, ◌++◌, map, length, option_map, slice_get, false, Some, Ok, OnOk, IfOk, IfErr};
ghost use Rattle.serde_json.specs.View.{view};
ghost use Rattle.ref_draft.specs.Schema.{identifier};
ghost use Rattle.ref_draft.specs.Views.{resource_ref, tagged_value, walked_child};
ghost use Rattle.ref_draft.specs.Anchors.{anchors};
ghost use Rattle.ref_uri.specs.Targets.{target as uri_target};
ghost use Rattle.ref_definitions.specs.World.{Layer};
ghost use Rattle.ref_definitions.specs.Places.{Place, base_within, root};
ghost use Rattle.ref_definitions.specs.Resources.{resource_of};
ghost use Rattle.ref_definitions.specs.Anchors.{named_at};
ghost use Rattle.ref_definitions.specs.Cached.{pairs_of_identifier, pairs_of_reference, pairs_of_value};
ghost use Rattle.ref_definitions.specs.Wants.{Reference, MetaSchema, reference_at, schema_at, wants_of_text, refusals_of};
ghost use Rattle.ref_index.specs.Spots.{with_number};
ghost use Rattle.ref_index.specs.inner.Found.{FoundLists, Holds, IsNumberOf, with_resources, with_names, with_wants, with_identifiers, with_references};
ghost use Rattle.ref_index.specs.Entries.{IsEntryOf};
ghost use Rattle.ref_index.specs.Visit.{path_of, place_of, place_with, value_of};
ghost use Rattle.ref_index.specs.declared.queue.Visit.{Visit};
ghost use Rattle.ref_index.specs.Document.{document_of};
ghost use Rattle.ref_index.specs.Meanings.{GivesUri};
ghost use Rattle.ref_index.specs.inner.Visits.{AddsPlace, RefusesFor, IsThereIn, Came, ChildrenCame, IsVisited, WalksOver, under_document, names_under, with_meanings};
ghost use Rattle.ref_index.specs.Faults.{IsFirstFault, faults_of};

use crate::document::Document;
use crate::entry::Entry;
use crate::found::{Cause, Found};
use crate::meanings::{base_of, dialect_in, meta_schema_of, resolved, text_under, uri_text};
use crate::path::Below;
use crate::queue::{ValueRef, Visit};
use crate::reference::shared;
use ref_draft::{AnchorIter, Child, Draft, ResourceRef};
use ref_parts::path::JsonPointerNode;
use ref_uri::{Uri, UriFault};
use serde_json::Value;
use std::alloc::{AllocError, Global};
use std::rc::Rc;

// The entry of a place whose base is known. Takes memory for its path.
fn entry_of<'w, 'a: 'w>(
    alloc: Global,
    number: usize,
    place: &Visit<'w, 'a>,
    base: &Rc<Uri>,
) -> Result<Entry<'a>, AllocError>
    ensures entry { (layer : Layer) → IsThereIn layer number (place_of place.now)
        → (place_of place.now).base ≡ Ok base.now.value
        → IfOk result (λ entry. IsEntryOf layer entry (place_of place.now)) }
    ensures document { IfOk result (λ entry. entry.document ≡ number) }
{
    let path = place.value.segments(alloc)?;
    let base = base.clone()?;
    Ok(Entry {
        borrowed: place.value.borrowed(),
        document: number,
        path,
        draft: place.draft,
        base,
    })
}

// Whether the resource has an anchor.
fn has_anchors(resource: ResourceRef<'_>) -> bool
    ensures { result ≡ false
        → anchors (resource_ref resource.entry).draft (resource_ref resource.entry).contents ≡ [] }
{
    !matches!(
        resource.draft().anchors(resource.contents()),
        AnchorIter::Empty
    )
}

// Adds what identifies and names the root under the URI of its document.
fn add_under(
    found: &mut Found<'_>,
    under: Option<&Rc<Uri>>,
    entry: usize,
    resource: ResourceRef<'_>,
) -> Result<(), AllocError>
    ensures added { (layer : Layer) (held : FoundLists) (p : Place) (number : ℕ)
        → Holds layer found.old held → IsNumberOf layer found.old.entries.items number entry p
        → resource_ref resource.entry ≡ tagged_value p.draft p.value
        → OnOk result
        (Holds layer found.new
        (with_names
        (with_resources held
        (with_number number (under_document (option_map (λ u. u.now.value) under.entry) p)))
        (with_number number (names_under (option_map (λ u. u.now.value) under.entry) p)))) }
    ensures entries { OnOk result (found.new.entries.items ≡ found.old.entries.items) }
{
    let Some(uri) = under else {
        return Ok(());
    };
    found.add_resource(uri, entry)?;
    found.add_names(uri.as_str(), entry, resource)
}

// Adds that its base identifies a place, where it has an identifier.
fn add_identified(
    found: &mut Found<'_>,
    id: Option<&str>,
    base: &Rc<Uri>,
    entry: usize,
) -> Result<(), AllocError>
    ensures added { (layer : Layer) (held : FoundLists) (p : Place) (number : ℕ)
        → Holds layer found.old held → IsNumberOf layer found.old.entries.items number entry p
        → option_map (λ text. text.now) id.entry ≡ identifier p.draft p.value
        → p.base ≡ Ok base.now.value
        → OnOk result
        (Holds layer found.new (with_resources held (with_number number (resource_of p)))) }
    ensures entries { OnOk result (found.new.entries.items ≡ found.old.entries.items) }
{
    if id.is_some() {
        found.add_resource(base, entry)?;
    }
    Ok(())
}

// Adds what identifies and names a place under its base.
fn add_by_base(
    found: &mut Found<'_>,
    id: Option<&str>,
    base: &Rc<Uri>,
    entry: usize,
    resource: ResourceRef<'_>,
) -> Result<(), AllocError>
    ensures { (layer : Layer) (held : FoundLists) (p : Place) (number : ℕ)
        → Holds layer found.old held → IsNumberOf layer found.old.entries.items number entry p
        → resource_ref resource.entry ≡ tagged_value p.draft p.value
        → option_map (λ text. text.now) id.entry ≡ identifier p.draft p.value
        → p.base ≡ Ok base.now.value
        → OnOk result
        (Holds layer found.new
        (with_names (with_resources held (with_number number (resource_of p)))
        (with_number number (named_at p)))) }
{
    add_identified(found, id, base, entry)?;
    found.add_names(base.as_str(), entry, resource)
}

// Adds what identifies and names a place, first under the URI of its document, where it is the root.
fn add_place<'w, 'a: 'w>(
    alloc: Global,
    found: &mut Found<'a>,
    number: usize,
    place: &Visit<'w, 'a>,
    under: Option<&Rc<Uri>>,
    id: Option<&str>,
    base: &Rc<Uri>,
) -> Result<(), AllocError>
    ensures { (layer : Layer) (held : FoundLists)
        → Holds layer found.old held → IsThereIn layer number (place_of place.now)
        → option_map (λ text. text.now) id.entry
        ≡ identifier (place_of place.now).draft (place_of place.now).value
        → (place_of place.now).base ≡ Ok base.now.value
        → OnOk result
        (Holds layer found.new
        (with_meanings number (option_map (λ u. u.now.value) under.entry) (place_of place.now)
        held)) }
{
    let resource = ResourceRef::new(place.value.get(), place.draft);
    if under.is_none() && id.is_none() && !has_anchors(resource) {
        return Ok(());
    }
    let entry = entry_of(alloc, number, place, base)?;
    let entry = found.add_entry(entry)?;
    add_under(found, under, entry, resource)?;
    add_by_base(found, id, base, entry, resource)
}

// Adds what the identifier of a place was resolved to, where it has one.
fn add_base(
    found: &mut Found<'_>,
    outer: &Rc<Uri>,
    id: Option<&str>,
    base: &Rc<Uri>,
) -> Result<(), AllocError>
    ensures { (layer : Layer) (held : FoundLists)
        → Holds layer found.old held
        → base_within outer.now.value (option_map (λ text. text.now) id.entry)
        ≡ Ok base.now.value
        → OnOk result
        (Holds layer found.new
        (with_identifiers held
        (pairs_of_identifier outer.now.value (option_map (λ text. text.now) id.entry)))) }
{
    let Some(id) = id else {
        return Ok(());
    };
    found.add_identifier(outer.as_str(), id, base)
}

// The URI that a reference points into; what its URI part was resolved to is added, where it has one.
fn referred(
    alloc: Global,
    found: &mut Found<'_>,
    base: &Rc<Uri>,
    reference: &str,
) -> Result<Rc<Uri>, UriFault>
    ensures gives { GivesUri (uri_target base.now.value reference.now) result }
    ensures added { (layer : Layer) (held : FoundLists)
        → Holds layer found.old held
        → OnOk result
        (Holds layer found.new
        (with_references held (pairs_of_reference base.now.value reference.now))) }
{
    let Some(text) = uri_text(reference) else {
        return Ok(base.clone()?);
    };
    let uri = resolved(alloc, base, text)?;
    found.add_reference(base.as_str(), text, &uri)?;
    Ok(uri)
}

// Adds what a text under `$ref` refers to.
fn add_reference(
    alloc: Global,
    found: &mut Found<'_>,
    value: &Value,
    base: &Rc<Uri>,
) -> Result<(), UriFault>
    ensures added { (layer : Layer) (held : FoundLists)
        → Holds layer found.old held
        → OnOk result
        (Holds layer found.new
        (with_wants
        (with_references held (pairs_of_value base.now.value (view value.now)))
        (wants_of_text Reference (reference_at base.now.value (view value.now))))) }
    ensures faults { RefusesFor (refusals_of (reference_at base.now.value (view value.now)))
        result }
{
    let Some(reference) = text_under(value, "$ref") else {
        return Ok(());
    };
    let uri = referred(alloc, found, base, reference)?;
    found.add_want(Cause::Reference, uri)?;
    Ok(())
}

// Adds what a text under `$schema` names, where that is no known draft.
fn add_meta_schema(alloc: Global, found: &mut Found<'_>, value: &Value) -> Result<(), UriFault>
    ensures added { (layer : Layer) (held : FoundLists)
        → Holds layer found.old held
        → OnOk result
        (Holds layer found.new
        (with_wants held (wants_of_text MetaSchema (schema_at (view value.now))))) }
    ensures faults { RefusesFor (refusals_of (schema_at (view value.now))) result }
{
    let Some(text) = dialect_in(value) else {
        return Ok(());
    };
    let uri = meta_schema_of(alloc, text)?;
    found.add_want(Cause::MetaSchema, uri)?;
    Ok(())
}

/// Adds what a place is identified by, is named and wants, and returns its base.
pub(crate) fn settle<'w, 'a: 'w>(
    alloc: Global,
    found: &mut Found<'a>,
    number: usize,
    place: &Visit<'w, 'a>,
    under: Option<&Rc<Uri>>,
) -> Result<Rc<Uri>, UriFault>
    ensures base { IfOk result (λ base. (place_of place.now).base ≡ Ok base.value) }
    ensures added { OnOk result
        (AddsPlace number (option_map (λ u. u.now.value) under.entry) (place_of place.now)
        found.old found.new) }
    ensures faults { RefusesFor (faults_of (place_of place.now)) result }
{
    let value = place.value.get();
    let id = ResourceRef::new(value, place.draft).id();
    let base = base_of(alloc, &place.outer, id)?;
    add_base(found, &place.outer, id, &base)?;
    add_place(alloc, found, number, place, under, id, &base)?;
    add_reference(alloc, found, value, &base)?;
    add_meta_schema(alloc, found, value)?;
    Ok(base)
}

/// Adds a visit to the queue.
pub(crate) fn push_visit<'w, 'a>(
    queue: &mut Vec<Visit<'w, 'a>>,
    visit: Visit<'w, 'a>,
) -> Result<(), AllocError>
    ensures { OnOk result (queue.new.items ≡ queue.old.items ++ visit.entry ∷ []) }
{
    queue.push(visit)?;
    Ok(())
}

// Adds a place to the queue, with this base around it.
fn push_place<'w, 'a>(
    queue: &mut Vec<Visit<'w, 'a>>,
    value: ValueRef<'w, 'a>,
    draft: Draft,
    base: &Rc<Uri>,
) -> Result<(), AllocError>
    ensures { OnOk result ((v : Visit) × (queue.new.items ≡ queue.old.items ++ v ∷ [])
        × (place_of v
        ≡ place_with (path_of value.entry) (value_of value.entry) draft base.now.value)) }
{
    let outer = base.clone()?;
    push_visit(
        queue,
        Visit {
            value,
            draft,
            outer,
        },
    )
}

// Adds children to the queue, which are in a document whose contents are borrowed.
fn push_borrowed<'w, 'a: 'w>(
    queue: &mut Vec<Visit<'w, 'a>>,
    path: &JsonPointerNode<'a>,
    children: Vec<Child<'a>>,
    base: &Rc<Uri>,
) -> Result<(), AllocError>
    ensures { OnOk result
        (Came path.now base.now.value
        (map walked_child children.entry.items) queue.old.items queue.new.items) }
{
    for child in children {
        let below = Below::of_child(path, child.keyword, child.segment)?;
        push_place(
            queue,
            ValueRef::Borrowed(child.value, below),
            child.draft,
            base,
        )?;
    }
    Ok(())
}

// Adds children to the queue, which are in a document that owns its contents.
fn push_owned<'w, 'a>(
    queue: &mut Vec<Visit<'w, 'a>>,
    path: &JsonPointerNode<'w>,
    children: Vec<Child<'w>>,
    base: &Rc<Uri>,
) -> Result<(), AllocError>
    ensures { OnOk result
        (Came path.now base.now.value
        (map walked_child children.entry.items) queue.old.items queue.new.items) }
{
    for child in children {
        let below = Below::of_child(path, child.keyword, child.segment)?;
        push_place(
            queue,
            ValueRef::Owned(child.value, below),
            child.draft,
            base,
        )?;
    }
    Ok(())
}

/// Adds to the queue the children of the place at an index of it. The place's path gets links only where it has children.
pub(crate) fn push_children<'w, 'a: 'w>(
    alloc: Global,
    queue: &mut Vec<Visit<'w, 'a>>,
    at: usize,
    base: &Rc<Uri>,
) -> Result<(), AllocError>
    requires { at < length queue.old.items }
    ensures { (v : Visit) → slice_get queue.old.items at ≡ Some v
        → OnOk result
        (ChildrenCame (path_of v.value)
        (value_of v.value) v.draft base.now.value queue.old.items queue.new.items) }
{
    let place = &queue[at];
    match &place.value {
        ValueRef::Borrowed(value, path) => {
            let children = place.draft.walk_children(alloc, *value)?;
            if children.is_empty() {
                return Ok(());
            }
            let path = path.linked(alloc)?;
            push_borrowed(queue, &path, children, base)
        }
        ValueRef::Owned(value, path) => {
            let children = place.draft.walk_children(alloc, *value)?;
            if children.is_empty() {
                return Ok(());
            }
            let path = path.linked(alloc)?;
            push_owned(queue, &path, children, base)
        }
    }
}

// Visits the place at the head of the queue, and adds its children.
fn visit<'w, 'a: 'w>(
    alloc: Global,
    found: &mut Found<'a>,
    number: usize,
    queue: &mut Vec<Visit<'w, 'a>>,
    head: usize,
    under: Option<&Rc<Uri>>,
) -> Result<(), UriFault>
    requires { head < length queue.old.items }
    ensures ok { (v : Visit) → slice_get queue.old.items head ≡ Some v
        → OnOk result
        (IsVisited number
        (option_map
        (λ u. u.now.value) under.entry) v found.old found.new queue.old.items queue.new.items) }
    ensures fault { (v : Visit) → slice_get queue.old.items head ≡ Some v
        → IfErr result (IsFirstFault (faults_of (place_of v))) }
{
    let place = &queue[head];
    let base = settle(alloc, found, number, place, under)?;
    push_children(alloc, queue, head, &base)?;
    Ok(())
}

/// The root of a document, to be visited first.
pub(crate) fn root_of<'w, 'a>(
    alloc: Global,
    document: &'w Document<'a>,
) -> Result<Visit<'w, 'a>, AllocError>
    ensures { IfOk result (λ v. place_of v ≡ root (document_of document.now)) }
{
    let uri = document.uri.clone()?;
    let outer = shared(alloc, uri)?;
    Ok(Visit {
        value: ValueRef::root(&document.contents),
        draft: document.draft,
        outer,
    })
}

/// Walks over the places of a document, whose number is given, and adds what they are identified by, are named and want.
///
/// Refuses for the first fault of the document's places, level by level: an identifier, a reference or the name of a
/// meta-schema that means no URI; and where memory is refused. Of what was found nothing is said then: it is to be let go.
pub fn walk<'a>(
    alloc: Global,
    found: &mut Found<'a>,
    number: usize,
    document: &Document<'a>,
) -> Result<(), UriFault>
    ensures walked { WalksOver (document_of document.now) number found.old found.new result }
{
    // Room for the places of a small document, so that its queue needn't grow.
    let mut queue = Vec::with_capacity(alloc, 32)?;
    push_visit(&mut queue, root_of(alloc, document)?)?;
    let uri = queue[0].outer.clone()?;
    visit(alloc, found, number, &mut queue, 0, Some(&uri))?;
    let mut head = 1;
    while head < queue.len() {
        visit(alloc, found, number, &mut queue, head, None)?;
        head += 1;
    }
    Ok(())
}
