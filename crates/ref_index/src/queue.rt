//! The places of a document that were found, in the order in which they are visited.
ghost use Rattle.std.specs.Prelude.{◌≡◌, [], map, IfOk, IfSome};
ghost use Rattle.serde_json.specs.View.{view};
ghost use Rattle.ref_paths.specs.Segment.{part_of};
ghost use Rattle.ref_index.specs.Contents.{tree_of};
ghost use Rattle.ref_index.specs.Visit.{path_of, value_of};

use crate::document::Contents;
use crate::path::Below;
use ref_draft::Draft;
use ref_parts::path::JsonPointerSegment;
use ref_uri::Uri;
use serde_json::Value;
use std::alloc::{AllocError, Global};
use std::rc::Rc;

/// A value in a document that is walked, and its path there.
#[derive(Drop)]
pub enum ValueRef<'w, 'a> {
    /// Both are borrowed for as long as the registry lives, since the document's contents are.
    Borrowed(&'a Value, Below<'a>),
    /// Both are borrowed for as long as the walk, since the document owns its contents, or a share of them.
    Owned(&'w Value, Below<'w>),
}

impl<'w, 'a: 'w> ValueRef<'w, 'a> {
    /// The value of a document.
    pub fn root(contents: &'w Contents<'a>) -> ValueRef<'w, 'a>
        ensures value { value_of result ≡ tree_of contents.now }
        ensures path { path_of result ≡ [] }
    {
        match contents {
            Contents::Borrowed(value) => ValueRef::Borrowed(*value, Below::root()),
            Contents::Shared(value) => ValueRef::Owned(&**value, Below::root()),
            Contents::Owned(value) => ValueRef::Owned(value, Below::root()),
        }
    }

    /// The value.
    pub fn get(&self) -> &'w Value
        ensures value { view result.now ≡ value_of self.now }
    {
        match self {
            ValueRef::Borrowed(value, _) => *value,
            ValueRef::Owned(value, _) => *value,
        }
    }

    /// The value, where it is borrowed for as long as the registry lives.
    pub fn borrowed(&self) -> Option<&'a Value>
        ensures value { IfSome result (λ value. view value.now ≡ value_of self.now) }
    {
        match self {
            ValueRef::Borrowed(value, _) => Some(*value),
            ValueRef::Owned(_, _) => None,
        }
    }

    /// The segments of the path, for as long as the registry lives: a key that isn't borrowed so long is copied. Linear in the
    /// keys; takes memory for the list and for each key that is copied.
    pub fn segments(&self, alloc: Global) -> Result<Vec<JsonPointerSegment<'a>>, AllocError>
        ensures value { IfOk result (λ parts. map part_of parts.items ≡ path_of self.now) }
    {
        match self {
            ValueRef::Borrowed(_, path) => path.segments(alloc),
            ValueRef::Owned(_, path) => path.owned(alloc),
        }
    }

    /// The segments of the path, for as long as the walk: a key that the document owns is borrowed. Linear in the keys; takes
    /// memory for the list.
    pub fn owned_segments(&self, alloc: Global) -> Result<Vec<JsonPointerSegment<'w>>, AllocError>
        ensures value { IfOk result (λ parts. map part_of parts.items ≡ path_of self.now) }
    {
        match self {
            ValueRef::Borrowed(_, path) => path.owned(alloc),
            ValueRef::Owned(_, path) => path.segments(alloc),
        }
    }
}

/// A place that was found: its value and path, its draft, and the base around it. Its own identifier is applied at its visit.
#[derive(Drop)]
pub struct Visit<'w, 'a> {
    pub value: ValueRef<'w, 'a>,
    pub draft: Draft,
    pub outer: Rc<Uri>,
}
