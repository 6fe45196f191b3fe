//! Calls of `ref_draft`.
use crate::refused::documents::value;
use crate::refused::stop::{Shown, Stop, after, outcome, refused};
use crate::refused::trial::{Calls, Trial, tried};
use ref_draft::{Child, Draft, Resource, Segment, Segments};
use ref_parts::path::JsonPointerSegment;
use serde_json::Value;
use std::alloc::{AllocError, Global};
use std::borrow::CowStr;

const PARENT: &str = r#"{"dependencies":{"a":{},"b":["c"]},"items":[true,{}]}"#;

/// A value with children, the segments 3 to 6, as many as are without memory, and a resource with a title.
#[derive(Drop)]
struct Drafts {
    parent: Value,
    segments: Segments<'static>,
    resource: Resource,
}

/// The row of a call.
pub fn row(alloc: Global, call: &str) -> Result<Trial, Stop> {
    let titled = value(alloc, r#"{"title":"a"}"#)?;
    let mut drafts = Drafts {
        parent: value(alloc, PARENT)?,
        segments: four(alloc)?,
        resource: Draft::Draft7.create_resource(titled),
    };
    tried(
        alloc,
        &mut drafts,
        "drafts",
        call,
        &["walk_children", "resource.clone", "readers"],
    )
}

impl Calls for Drafts {
    fn answer(&mut self, alloc: Global, call: &str) -> Result<String, Stop> {
        match call {
            "walk_children" => children(alloc, &self.parent),
            "segments.push" => pushed(alloc, &mut self.segments),
            "resource.clone" => outcome(alloc, self.resource.clone()),
            "readers" => read(alloc),
            "keywords" => ruled(alloc),
            _ => Err(Stop::Wrong),
        }
    }
}

fn four(alloc: Global) -> Result<Segments<'static>, Stop> {
    let mut segments = Segments::new(alloc);
    for index in 3..7usize {
        segments.push(index)?;
    }
    Ok(segments)
}

/// The keywords of children with what is after them.
fn listing(alloc: Global, children: &[Child<'_>]) -> Result<String, AllocError> {
    let mut text = String::new(alloc);
    for child in children {
        text.push_str(child.keyword)?;
        match &child.segment {
            Some(JsonPointerSegment::Key(key)) => {
                text.push(' ')?;
                text.push_str(key.as_str())?;
            }
            Some(JsonPointerSegment::Index(_)) => text.push_str(" index")?,
            None => {}
        }
        text.push(';')?;
    }
    Ok(text)
}

impl Shown for Vec<Child<'_>> {
    fn shown(&self, alloc: Global) -> Result<String, AllocError> {
        listing(alloc, self.as_slice())
    }
}

fn children(alloc: Global, parent: &Value) -> Result<String, Stop> {
    outcome(alloc, Draft::Draft201909.walk_children(alloc, parent))
}

/// How many segments there are, and whether the first is the index 3.
fn count_and_first(segments: &Segments<'_>) -> (usize, bool) {
    let mut count: usize = 0;
    let mut is_first = false;
    for segment in segments.iter() {
        if count == 0 {
            is_first = matches!(segment, Segment::Index(3));
        }
        count = count.saturating_add(1);
    }
    (count, is_first)
}

fn pushed(alloc: Global, segments: &mut Segments<'_>) -> Result<String, Stop> {
    match segments.push(CowStr::Borrowed("not")) {
        Ok(()) => {
            let (count, is_first) = count_and_first(segments);
            after(format!(in alloc; "{count} {is_first}"))
        }
        Err(error) => Err(refused(&error, count_and_first(segments) == (4, true))),
    }
}

/// The draft and the title of a resource.
impl Shown for Resource {
    fn shown(&self, alloc: Global) -> Result<String, AllocError> {
        let draft = self.draft();
        let title = self.contents().get("title").and_then(Value::as_str);
        let title = title.unwrap_or("none");
        format!(in alloc; "{draft:?} {title}")
    }
}

fn read(alloc: Global) -> Result<String, Stop> {
    let value = value(alloc, r#"{"$id":"a","$anchor":"b","not":true}"#)?;
    after(read_of(alloc, &value))
}

/// How many children an object has.
fn children_of(draft: Draft, value: &Value) -> usize {
    let mut count: usize = 0;
    for _ in draft.subresources_of(value) {
        count = count.saturating_add(1);
    }
    count
}

/// How many anchors an object has.
fn anchors_of(value: &Value) -> usize {
    let mut count: usize = 0;
    for _ in Draft::Draft202012.anchors(value) {
        count = count.saturating_add(1);
    }
    count
}

/// The draft, the identifier, and the counts of children and anchors of an object.
fn read_of(alloc: Global, value: &Value) -> Result<String, AllocError> {
    let draft = Draft::Draft7.detect(value);
    let id = Draft::Draft202012.create_resource_ref(value).id();
    let id = id.unwrap_or("none");
    let children = children_of(draft, value);
    let anchors = anchors_of(value);
    format!(in alloc; "{draft:?} {id} {children} {anchors}")
}

/// The draft of a meta-schema's URI, whether it knows a keyword, and whether `$id` of an object under `not` changes the
/// base in it.
fn ruled(alloc: Global) -> Result<String, Stop> {
    let value = value(alloc, r#"{"$id":"a"}"#)?;
    let mut segments = Segments::new(alloc);
    segments.push(CowStr::Borrowed("not"))?;
    let draft = Draft::from_schema_uri("http://json-schema.org/draft-07/schema#");
    let (knows, rebases) = (
        draft.is_known_keyword("contains"),
        draft.rebases(&segments, &value),
    );
    after(format!(in alloc; "{draft:?} {knows} {rebases}"))
}
