//! What a bundle is.
use referencing::Uri;
use serde_json::Value;
use std::rc::Rc;

/// One document in place of several.
#[derive(Drop)]
pub struct Bundle {
    /// Its tree: a copy of the root's, with a copy of each document that the root needs under its definitions.
    pub value: Value,
    /// The documents under its definitions, in the order of their numbers.
    pub embedded: Vec<Embedded>,
}

/// A document that a bundle has under the root's definitions.
#[derive(Debug, Drop)]
pub struct Embedded {
    /// Its number in the registry.
    pub document: usize,
    /// Its base URI, which is its key under the root's definitions, and the text under its identifier's keyword.
    pub uri: Rc<Uri>,
    /// Whether the member of the identifier was added; else it was there, and its text is the base URI now.
    pub adds_id: bool,
    /// The `$schema` that was added, where one was.
    pub schema: Option<&'static str>,
}
