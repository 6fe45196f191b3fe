//! Paths as lists of segments, whose keys are borrowed or owned: an index of places is beside the documents, and owns the
//! keys of its paths.
ghost use Rattle.std.specs.Prelude.{◌≡◌, [], ◌∷◌, ◌++◌, map, IfOk, OnOk, MatchOption};
ghost use Rattle.ref_paths.specs.Path.{Key};
ghost use Rattle.ref_paths.specs.Segment.{part_of};
ghost use Rattle.ref_draft.specs.Views.{segment_parts};
ghost use Rattle.ref_paths.specs.declared.path.JsonPointerSegment.{JsonPointerSegment as Segment};
ghost use Rattle.ref_index.specs.Below.{parts_of, tail_parts};

use ref_parts::path::{JsonPointerNode, JsonPointerSegment};
use std::alloc::{AllocError, Global};
use std::borrow::CowStr;

// Adds a copy of the last segment of the path, and returns the path before it, where there is one.
fn push_last<'n, 'w>(
    segments: &mut Vec<JsonPointerSegment<'w>>,
    path: &'n JsonPointerNode<'w>,
) -> Result<Option<&'n JsonPointerNode<'w>>, AllocError>
    ensures { IfOk result
        (λ rest. MatchOption rest ((path.now ≡ []) × (segments.new.items ≡ segments.old.items))
        (λ before. (segment : Segment)
        × (segments.new.items ≡ segments.old.items ++ segment ∷ [])
        × (path.now ≡ before.now ++ part_of segment ∷ []))) }
{
    let Some(before) = path.parent() else {
        return Ok(None);
    };
    let segment = path.segment().clone()?;
    segments.push(segment)?;
    Ok(Some(before))
}

/// The segments of a path, from the root on: each is copied, and a borrowed key stays borrowed. Linear in their number;
/// takes memory for the list.
pub fn segments_of<'w>(
    alloc: Global,
    path: &JsonPointerNode<'w>,
) -> Result<Vec<JsonPointerSegment<'w>>, AllocError>
    ensures value { IfOk result (λ segments. map part_of segments.items ≡ path.now) }
{
    let mut segments = Vec::new(alloc);
    let mut rest = Some(path);
    while let Some(node) = rest {
        rest = push_last(&mut segments, node)?;
    }
    segments.reverse();
    Ok(segments)
}

// The segment, with a key of its own.
fn copy_of<'a>(
    alloc: Global,
    segment: &JsonPointerSegment<'_>,
) -> Result<JsonPointerSegment<'a>, AllocError>
    ensures { IfOk result (λ part. part_of part ≡ part_of segment.now) }
{
    match segment {
        JsonPointerSegment::Key(key) => {
            let key = String::from_str(alloc, key.as_str())?;
            Ok(JsonPointerSegment::Key(CowStr::Owned(key)))
        }
        JsonPointerSegment::Index(index) => Ok(JsonPointerSegment::Index(*index)),
    }
}

// Adds the last part of the path, and returns the path before it, where there is one.
fn push_owned<'n, 'w, 'a>(
    alloc: Global,
    parts: &mut Vec<JsonPointerSegment<'a>>,
    path: &'n JsonPointerNode<'w>,
) -> Result<Option<&'n JsonPointerNode<'w>>, AllocError>
    ensures { IfOk result
        (λ rest. MatchOption rest ((path.now ≡ []) × (parts.new.items ≡ parts.old.items))
        (λ before. (part : Segment) × (parts.new.items ≡ parts.old.items ++ part ∷ [])
        × (path.now ≡ before.now ++ part_of part ∷ []))) }
{
    let Some(before) = path.parent() else {
        return Ok(None);
    };
    let part = copy_of(alloc, path.segment())?;
    parts.push(part)?;
    Ok(Some(before))
}

/// The path, copied. Linear in its keys; takes memory for the list and for each key.
pub fn owned<'a>(
    alloc: Global,
    path: &JsonPointerNode<'_>,
) -> Result<Vec<JsonPointerSegment<'a>>, AllocError>
    ensures value { IfOk result (λ parts. map part_of parts.items ≡ path.now) }
{
    let mut parts = Vec::new(alloc);
    let mut rest = Some(path);
    while let Some(node) = rest {
        rest = push_owned(alloc, &mut parts, node)?;
    }
    parts.reverse();
    Ok(parts)
}

/// The path of what a keyword holds: under an index or a key, or the keyword's value itself. Takes memory for a link where
/// there is an index or a key.
pub fn path_within<'w>(
    alloc: Global,
    keyword: JsonPointerNode<'w>,
    segment: Option<JsonPointerSegment<'w>>,
) -> Result<JsonPointerNode<'w>, AllocError>
    ensures value { IfOk result (λ within. within ≡ keyword.entry ++ segment_parts segment.entry) }
{
    match segment {
        Some(segment) => keyword.push(alloc, segment),
        None => Ok(keyword),
    }
}

/// The path of a child of a place: the path of that, a keyword, and what follows it. Takes memory for one link or two.
pub fn path_below<'w>(
    alloc: Global,
    path: &JsonPointerNode<'w>,
    keyword: &'w str,
    segment: Option<JsonPointerSegment<'w>>,
) -> Result<JsonPointerNode<'w>, AllocError>
    ensures value { IfOk result
        (λ below. below ≡ path.now ++ Key keyword.now ∷ segment_parts segment.entry) }
{
    let keyword = path.push(alloc, keyword)?;
    path_within(alloc, keyword, segment)
}

/// What follows the path of a place in that of a child: a keyword, and the index or key after it, where there is one.
#[derive(Drop)]
pub struct Tail<'w> {
    pub keyword: &'w str,
    pub segment: Option<JsonPointerSegment<'w>>,
}

/// The path of a place: that of the place above it, and what follows. What follows gets a link only where a child of the
/// place needs it, and most places have none. Above the root there is no place, and nothing follows.
#[derive(Drop)]
pub struct Below<'w> {
    pub above: JsonPointerNode<'w>,
    pub tail: Option<Tail<'w>>,
}

// The segment, copied, where there is one: a borrowed key stays borrowed.
fn segment_copied<'w>(
    segment: &Option<JsonPointerSegment<'w>>,
) -> Result<Option<JsonPointerSegment<'w>>, AllocError>
    ensures { IfOk result (λ copy. segment_parts copy ≡ segment_parts segment.now) }
{
    match segment {
        Some(segment) => Ok(Some(segment.clone()?)),
        None => Ok(None),
    }
}

// Adds the parts of a tail: a borrowed key stays borrowed.
fn push_tail<'w>(parts: &mut Vec<JsonPointerSegment<'w>>, tail: &Tail<'w>) -> Result<(), AllocError>
    ensures { OnOk result
        (map part_of parts.new.items ≡ map part_of parts.old.items ++ tail_parts tail.now) }
{
    parts.push(tail.keyword.into())?;
    if let Some(segment) = &tail.segment {
        parts.push(segment.clone()?)?;
    }
    Ok(())
}

// Adds the parts of a tail, with keys of their own.
fn push_owned_tail<'a>(
    alloc: Global,
    parts: &mut Vec<JsonPointerSegment<'a>>,
    tail: &Tail<'_>,
) -> Result<(), AllocError>
    ensures { OnOk result
        (map part_of parts.new.items ≡ map part_of parts.old.items ++ tail_parts tail.now) }
{
    let keyword = String::from_str(alloc, tail.keyword)?;
    parts.push(JsonPointerSegment::Key(CowStr::Owned(keyword)))?;
    if let Some(segment) = &tail.segment {
        parts.push(copy_of(alloc, segment)?)?;
    }
    Ok(())
}

impl<'w> Below<'w> {
    /// The path of a root. Takes no memory.
    pub fn root() -> Below<'w>
        ensures value { parts_of result ≡ [] }
    {
        Below {
            above: JsonPointerNode::new(),
            tail: None,
        }
    }

    /// The path of a child of a place: that of the place, which is shared, a keyword, and what follows it. Takes no memory, and
    /// fails only where the last link of the place's path has no count left for one more handle.
    pub fn of_child(
        path: &JsonPointerNode<'w>,
        keyword: &'w str,
        segment: Option<JsonPointerSegment<'w>>,
    ) -> Result<Below<'w>, AllocError>
        ensures value { IfOk result
            (λ below. parts_of below ≡ path.now ++ Key keyword.now ∷ segment_parts segment.entry) }
    {
        let above = path.clone()?;
        let tail = Some(Tail { keyword, segment });
        Ok(Below { above, tail })
    }

    /// The path with links for what follows. Takes memory for one or two.
    pub fn linked(&self, alloc: Global) -> Result<JsonPointerNode<'w>, AllocError>
        ensures value { IfOk result (λ path. path ≡ parts_of self.now) }
    {
        let Some(Tail { keyword, segment }) = &self.tail else {
            return self.above.clone();
        };
        let segment = segment_copied(segment)?;
        path_below(alloc, &self.above, *keyword, segment)
    }

    /// The segments of the path, from the root on: each is copied, and a borrowed key stays borrowed. Linear in their
    /// number; takes memory for the list.
    pub fn segments(&self, alloc: Global) -> Result<Vec<JsonPointerSegment<'w>>, AllocError>
        ensures value { IfOk result (λ parts. map part_of parts.items ≡ parts_of self.now) }
    {
        let mut parts = segments_of(alloc, &self.above)?;
        if let Some(tail) = &self.tail {
            push_tail(&mut parts, tail)?;
        }
        Ok(parts)
    }

    /// The path, copied. Linear in its keys; takes memory for the list and for each key.
    pub fn owned<'a>(&self, alloc: Global) -> Result<Vec<JsonPointerSegment<'a>>, AllocError>
        ensures value { IfOk result (λ parts. map part_of parts.items ≡ parts_of self.now) }
    {
        let mut parts = owned(alloc, &self.above)?;
        if let Some(tail) = &self.tail {
            push_owned_tail(alloc, &mut parts, tail)?;
        }
        Ok(parts)
    }
}
