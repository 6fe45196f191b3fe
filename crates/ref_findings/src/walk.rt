//! The places of a source where schemas are.
ghost use Rattle.std.specs.Prelude.{◌≡◌, ◌<◌, List, [], ◌∷◌, ◌++◌, map, length, slice_get, Some, IfOk, IfSome, OnOk};
ghost use Rattle.serde_json.specs.View.{view};
ghost use Rattle.ref_draft.specs.Children.{AllAreThere, walked_children};
ghost use Rattle.ref_paths.specs.Path.{Key};
ghost use Rattle.ref_draft.specs.Views.{segment_parts, walked_child};
ghost use Rattle.std.specs.List.{AllByRecursion};
ghost use Rattle.ref_definitions.specs.Places.{child_place, root};
ghost use Rattle.ref_index.specs.Listed.{ChildrenAreAt};
ghost use Rattle.ref_findings.specs.Places.{children_near, document, places_near, read_draft};
ghost use Rattle.ref_findings.specs.inner.Seen.{draft_by, read_again};
ghost use Rattle.ref_findings.specs.declared.place.Place.{Place};
ghost use Rattle.ref_findings.specs.inner.Seen.{place_of, IsKeywordBelow};

use crate::fault::is_schema_refused;
use crate::place::Place;
use ref_draft::{Child, Draft};
use ref_index::shared;
use ref_parts::path::{JsonPointerNode, JsonPointerSegment};
use ref_uri::Uri;
use serde_json::Value;
use std::alloc::{AllocError, Global};
use std::rc::Rc;

// Adds a place after the others.
fn push<'v>(places: &mut Vec<Place<'v>>, place: Place<'v>) -> Result<(), AllocError>
    ensures { OnOk result (places.new.items ≡ places.old.items ++ place.entry ∷ []) }
{
    places.push(place)?;
    Ok(())
}

// A keyword of a schema, with its path: children under one keyword, which are one after another, share it.
#[derive(Drop)]
struct Keyword<'v> {
    text: &'v str,
    path: JsonPointerNode<'v>,
}

// The path of a keyword below a path: that of the last one where it is the same.
fn keyword_path<'v>(
    alloc: Global,
    path: &JsonPointerNode<'v>,
    last: &mut Option<Keyword<'v>>,
    text: &'v str,
) -> Result<JsonPointerNode<'v>, AllocError>
    requires { IfSome last.old (IsKeywordBelow path.now) }
    ensures value { IfOk result (λ below. below ≡ path.now ++ Key text.now ∷ []) }
    ensures last { IfSome last.new (IsKeywordBelow path.now) }
{
    if let Some(keyword) = last {
        if keyword.text == text {
            return keyword.path.clone();
        }
    }
    let below = path.push(alloc, text)?;
    let path = below.clone()?;
    *last = Some(Keyword { text, path });
    Ok(below)
}

// The path of what a keyword holds: under an index or a key, or the keyword's value itself.
fn path_within<'v>(
    alloc: Global,
    keyword: JsonPointerNode<'v>,
    segment: Option<JsonPointerSegment<'v>>,
) -> Result<JsonPointerNode<'v>, AllocError>
    ensures { IfOk result (λ within. within ≡ keyword.entry ++ segment_parts segment.entry) }
{
    match segment {
        Some(segment) => keyword.push(alloc, segment),
        None => Ok(keyword),
    }
}

// Adds a child of a place after the others.
fn push_child<'v>(
    alloc: Global,
    places: &mut Vec<Place<'v>>,
    path: &JsonPointerNode<'v>,
    last: &mut Option<Keyword<'v>>,
    child: Child<'v>,
    parent: Draft,
    base: &Rc<Uri>,
) -> Result<(), AllocError>
    requires { IfSome last.old (IsKeywordBelow path.now) }
    ensures added { OnOk result
        ((p : Place) × (places.new.items ≡ places.old.items ++ p ∷ [])
        × (place_of p
        ≡ child_place path.now base.now.value
        (read_again parent (walked_child child.entry)))) }
    ensures last { IfSome last.new (IsKeywordBelow path.now) }
{
    let Child {
        keyword,
        segment,
        value,
        draft,
    } = child;
    let draft = read_as(alloc, parent, value, draft)?;
    let outer = base.clone()?;
    let keyword = keyword_path(alloc, path, last, keyword)?;
    let path = path_within(alloc, keyword, segment)?;
    let place = Place::new(alloc, path, value, draft, outer)?;
    push(places, place)
}

// Adds the children of a value after the others.
fn push_children<'v>(
    alloc: Global,
    places: &mut Vec<Place<'v>>,
    path: &JsonPointerNode<'v>,
    value: &'v Value,
    draft: Draft,
    base: &Rc<Uri>,
) -> Result<(), AllocError>
    ensures added { OnOk result
        ((more : List Place) × (places.new.items ≡ places.old.items ++ more)
        × (map place_of more
        ≡ map (child_place path.now base.now.value)
        (map (read_again draft) (walked_children draft (view value.now))))) }
    ensures are_there { OnOk result
        (AllAreThere (view value.now) (walked_children draft (view value.now))) }
{
    let mut last = None;
    for child in draft.walk_children(alloc, value)? {
        push_child(alloc, places, path, &mut last, child, draft, base)?;
    }
    Ok(())
}

// Adds the children of a place, whose number is given, after the others.
fn push_below<'v>(
    alloc: Global,
    places: &mut Vec<Place<'v>>,
    number: usize,
) -> Result<(), AllocError>
    requires { number < length places.old.items }
    ensures added { (p : Place) → slice_get places.old.items number ≡ Some p
        → OnOk result
        ((more : List Place) × (places.new.items ≡ places.old.items ++ more)
        × (map place_of more ≡ children_near (place_of p))) }
    ensures are_there { (p : Place) → slice_get places.old.items number ≡ Some p
        → OnOk result (ChildrenAreAt (place_of p)) }
{
    let place = &places[number];
    let base = place.base().clone()?;
    let path = place.path.clone()?;
    let (value, draft) = (place.value, place.draft);
    push_children(alloc, places, &path, value, draft, &base)
}

// The draft of a value in a schema of another draft, by the one that is detected on it.
fn read_as(
    alloc: Global,
    parent: Draft,
    value: &Value,
    detected: Draft,
) -> Result<Draft, AllocError>
    ensures { IfOk result (λ draft. draft ≡ draft_by parent detected (view value.now)) }
{
    if detected != Draft::Unknown {
        return Ok(detected);
    }
    if is_schema_refused(alloc, value)? {
        return Ok(parent);
    }
    Ok(detected)
}

/// The draft of a root, by that of roots that name none.
pub(crate) fn read_draft(alloc: Global, draft: Draft, value: &Value) -> Result<Draft, AllocError>
    ensures value { IfOk result (λ d. d ≡ read_draft draft (view value.now)) }
{
    read_as(alloc, draft, value, draft.detect(value))
}

// The root of a source.
fn root_of<'v>(
    alloc: Global,
    uri: &Uri,
    value: &'v Value,
    draft: Draft,
) -> Result<Place<'v>, AllocError>
    ensures { IfOk result
        (λ p. place_of p ≡ root (record { uri = uri.now; tree = view value.now; draft = draft })) }
{
    let uri = uri.clone()?;
    let outer = shared(alloc, uri)?;
    Place::new(alloc, JsonPointerNode::new(), value, draft, outer)
}

/// The places of a source, where a draft is that of a root that names none: the root, then its children by the keywords that
/// hold subschemas, and so on level by level. Each is visited once; keys are lent, and paths and URIs shared.
pub(crate) fn places_of<'v>(
    alloc: Global,
    uri: &Uri,
    value: &'v Value,
    draft: Draft,
) -> Result<Vec<Place<'v>>, AllocError>
    ensures value { IfOk result
        (λ places. map place_of places.items
        ≡ places_near (document draft uri.now (view value.now))) }
    ensures are_there { IfOk result
        (λ places. AllByRecursion ChildrenAreAt (map place_of places.items)) }
{
    let draft = read_draft(alloc, draft, value)?;
    let root = root_of(alloc, uri, value, draft)?;
    let mut places = Vec::new(alloc);
    push(&mut places, root)?;
    let mut head = 0;
    while head < places.len() {
        push_below(alloc, &mut places, head)?;
        head += 1;
    }
    places.shrink_to_fit();
    Ok(places)
}
