//! An unresolvable reference, as it is listed.
use referencing::{Error, JsonPointerSegment};

/// An unresolvable reference, and why.
#[derive(Debug, Drop)]
pub struct Dangling<'r> {
    /// The number of its document, counted from 0 in the order in which their URIs were first added, and after them those
    /// retrieved.
    pub document: usize,
    /// The path of the place in the document whose `$ref` it is.
    pub path: Vec<JsonPointerSegment<'r>>,
    /// Its text, which is the document's own.
    pub reference: &'r str,
    /// The fault of the look-up, as [`Resolver::lookup`](referencing::Resolver::lookup) names it: never `Unretrievable`, nor
    /// `Memory`.
    pub error: Error,
}
