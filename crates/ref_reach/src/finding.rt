//! What is wrong with references.
use ref_descriptions::{Kind, Under};
use ref_error::Error;
use ref_uri::{Uri, UriError};
use std::rc::Rc;

/// Something that is wrong with a reference, or a note on it.
#[derive(Drop)]
pub struct Finding<'r> {
    /// The number of the place that has the reference.
    pub place: usize,
    /// Where in the place its text is.
    pub under: Under,
    /// The key that it is under there.
    pub keyword: &'r str,
    /// The text, which is the document's own.
    pub text: Option<&'r str>,
    /// What is wrong.
    pub problem: Problem,
}

/// How much a finding counts.
#[derive(Clone, Copy, Debug, PartialEq, Eq)]
pub enum Level {
    /// The reference is wrong.
    Error,
    /// Something was not looked up.
    Note,
}

/// What is wrong with a reference, or is noted.
#[derive(Drop)]
pub enum Problem {
    /// The value of a `$ref` or a `$dynamicRef` is no text.
    NotAText,
    /// The text means no URI.
    InvalidUri(UriError),
    /// The URI is that of no document and no schema.
    MissingDocument {
        /// The URI.
        uri: Rc<Uri>,
    },
    /// It is unresolvable in a document that is there.
    LeadsNowhere {
        /// The URI of what it points into.
        uri: Rc<Uri>,
        /// The fault of the look-up: neither `Unretrievable` nor `Memory`.
        error: Error,
    },
    /// It leads to an object of another kind, by the tables of the description that has it.
    WrongKind {
        /// The URI of what it points into.
        uri: Rc<Uri>,
        /// The kind of the object.
        is: Kind,
        /// The kind that is needed.
        wanted: Kind,
    },
    /// A note: it wasn't looked up, since it points into the meta-schema of a draft that isn't among the documents, or names an anchor in
    /// a description, whose anchors are not collected.
    Unchecked {
        /// The URI of what it points into.
        uri: Rc<Uri>,
    },
}

impl Problem {
    /// How much it counts. Takes no memory.
    pub fn level(&self) -> Level {
        match self {
            Problem::Unchecked { .. } => Level::Note,
            _ => Level::Error,
        }
    }
}
