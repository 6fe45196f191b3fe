//! Where a place is.
use ref_draft::Draft;
use ref_parts::path::JsonPointerSegment;
use ref_uri::Uri;
use serde_json::Value;
use std::rc::Rc;

/// A place: where it is, its value where its document is borrowed, its draft and its base URI.
#[derive(Drop)]
pub struct Entry<'a> {
    /// The value itself, where its document is borrowed.
    pub borrowed: Option<&'a Value>,
    /// The number of its document.
    pub document: usize,
    /// Its path there.
    pub path: Vec<JsonPointerSegment<'a>>,
    pub draft: Draft,
    pub base: Rc<Uri>,
}

/// A place that an anchor names, by the number of its entry.
#[derive(Drop)]
pub struct NamedEntry {
    pub is_dynamic: bool,
    pub entry: usize,
}

/// A place that an anchor names, as it is found.
#[derive(Clone, Copy)]
pub struct FoundName<'i, 'a> {
    pub named: &'i NamedEntry,
    pub entry: &'i Entry<'a>,
}

/// A URI that a text was resolved to, as it is found, and the entry of the place that the URI means, where there is one.
#[derive(Clone, Copy)]
pub struct FoundUri<'i, 'a> {
    pub uri: &'i Rc<Uri>,
    pub entry: Option<&'i Entry<'a>>,
}
