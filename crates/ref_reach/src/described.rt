//! Documents, with what is known of the descriptions among them.
ghost use Rattle.std.specs.Prelude.{◌≡◌, map};
ghost use Rattle.ref_reach.specs.Places.{own_entries};
ghost use Rattle.ref_reach.specs.Views.{place_of};

use crate::place::Place;
use ref_index::Index;
use ref_parts::SortedTable;
use ref_parts::path::JsonPointerNode;
use ref_uri::Uri;
use serde_json::Value;
use std::rc::Rc;

/// A part of a document that has a URI of its own: a schema with an identifier, or a description with a `$self`.
#[derive(Drop)]
pub(crate) struct Part<'v> {
    /// The number of the document.
    pub document: usize,
    /// The path there.
    pub path: JsonPointerNode<'v>,
}

/// Documents, the own places of the descriptions among them, and the index that references are looked up in: the documents are first in it,
/// and after them those parts of descriptions that have URIs of their own.
#[derive(Drop)]
pub struct Documents<'v> {
    pub(crate) uris: Vec<Rc<Uri>>,
    pub(crate) values: Vec<&'v Value>,
    pub(crate) own: Vec<Place<'v>>,
    pub(crate) table: SortedTable<usize>,
    pub(crate) parts: Vec<Part<'v>>,
    pub(crate) index: Index<'v>,
    ghost listed: { table ≡ own_entries (map place_of own.items) },
}
