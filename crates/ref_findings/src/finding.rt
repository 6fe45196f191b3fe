//! What is found.
ghost use Rattle.std.specs.Prelude.{◌≡◌};
ghost use Rattle.ref_findings.specs.Entries.{level_of};

use ref_draft::Draft;
use ref_error::Error;
use ref_parts::path::JsonPointerSegment;
use ref_uri::{Uri, UriError};
use std::rc::Rc;

/// What is found in sources.
#[derive(Drop)]
pub struct Report<'v> {
    /// What is wrong, and what is noted.
    pub findings: Vec<Finding<'v>>,
    /// How many references the sources have: texts under `$ref`, and under `$dynamicRef` or `$recursiveRef` where their draft has
    /// it, where schemas are.
    pub references: usize,
    /// How many places the sources have where schemas are.
    pub places: usize,
}

/// Something that is wrong with a source, or a note on it.
#[derive(Drop)]
pub struct Finding<'v> {
    /// The number of its source, counted from 0.
    pub source: usize,
    /// The path in the source of the schema that it is about.
    pub path: Vec<JsonPointerSegment<'v>>,
    /// The keyword there whose text it is about; `None` where it is the source as a whole.
    pub keyword: Option<&'static str>,
    /// The text under that keyword, which is the source's own.
    pub text: Option<&'v str>,
    /// What is wrong.
    pub problem: Problem<'v>,
}

/// How much a finding counts.
#[derive(Clone, Copy, Debug, Drop, PartialEq, Eq)]
pub enum Level {
    /// A reference, an identifier or a file is wrong.
    Error,
    /// Something was not looked at.
    Warning,
    /// Something that is allowed, and may be meant otherwise.
    Note,
}

/// What is wrong, or is noted.
#[derive(Drop)]
pub enum Problem<'v> {
    /// The source is no JSON.
    NotJson,
    /// A warning: the source is an OpenAPI, Swagger or AsyncAPI description, by the member at its root that the finding is on. Its
    /// references are looked at only where a JSON Schema document would have schemas.
    NotChecked,
    /// The value of a `$ref`, or of a `$dynamicRef` or `$recursiveRef` where the draft has it, is no text.
    NotAText,
    /// A `$recursiveRef` that is not `#` (2019-09 Core, 8.2.4.2.1).
    RecursiveElsewhere,
    /// A note: what follows the `#` of an anchor begins with a slash, so that it is read as a pointer and names nothing.
    NamesNothing,
    /// An identifier, a `$ref` or a `$schema` means no URI.
    InvalidUri(UriError),
    /// The URI of a reference is that of no document and no schema.
    MissingDocument {
        /// The URI.
        uri: Rc<Uri>,
    },
    /// A reference is unresolvable in a document that is there.
    LeadsNowhere {
        /// The URI of what it points into.
        uri: Rc<Uri>,
        /// The fault of the look-up: neither `Unretrievable` nor `Memory`.
        error: Error,
    },
    /// A note: a reference points into a meta-schema of a draft that isn't among the documents, so that its fragment isn't
    /// looked up.
    Unchecked {
        /// The URI of the meta-schema.
        uri: Rc<Uri>,
    },
    /// A note: a `$schema` names a meta-schema that is neither known nor among the documents.
    UnknownDialect {
        /// The URI of the meta-schema.
        uri: Rc<Uri>,
    },
    /// An earlier place has the URI of this one.
    DuplicateIdentifier {
        /// The URI.
        uri: Rc<Uri>,
        /// The first place that has it.
        first: Bearer<'v>,
    },
    /// An earlier place under the same base URI has the anchor's name.
    DuplicateAnchor {
        /// The base URI.
        uri: Rc<Uri>,
        /// The first place that has the name.
        first: Bearer<'v>,
    },
    /// A note: the root of the source has no `$schema`, so that it is read by the draft of those that have none, and a place of
    /// another draft refers to it.
    GuessedDraft {
        /// The draft of that place.
        draft: Draft,
        /// The first such place.
        by: Bearer<'v>,
    },
    /// A note: the root of the source has no `$schema`, it is read as 2020-12, where `items` is one schema (2020-12 Core, 10.3.1.2),
    /// and this is the first place with a list there.
    ListOfItems,
}

/// A place that has a URI or the name of an anchor, or that refers to a document.
#[derive(Drop)]
pub struct Bearer<'v> {
    /// The number of its source, counted from 0.
    pub source: usize,
    /// Its path in the source.
    pub path: Vec<JsonPointerSegment<'v>>,
}

impl Problem<'_> {
    /// How much it counts. Takes no memory.
    pub fn level(&self) -> Level
        ensures value { result ≡ level_of self.now }
    {
        match self {
            Problem::NotChecked => Level::Warning,
            Problem::NamesNothing | Problem::ListOfItems => Level::Note,
            Problem::GuessedDraft { .. } => Level::Note,
            Problem::Unchecked { .. } | Problem::UnknownDialect { .. } => Level::Note,
            _ => Level::Error,
        }
    }
}
