//! What becomes which text, or why nothing does.
use ref_uri::Uri;
use std::alloc::{AllocError, Global};

/// Where a value is: the number of its document, and its pointer there (RFC 6901).
#[derive(Clone, Copy, Debug, Drop)]
pub struct Site<'p> {
    /// The number of the document.
    pub document: usize,
    /// The pointer.
    pub pointer: &'p str,
}

/// What of a document is another text after a change.
#[derive(Clone, Copy, Debug, Drop, PartialEq, Eq)]
pub enum Part {
    /// The key of the member at the pointer.
    Key,
    /// The text at the pointer.
    Text,
}

/// A key or a text that becomes another one.
#[derive(Debug, Drop)]
pub struct Change {
    /// The number of the document.
    pub document: usize,
    /// The pointer to the text, or to the member that has the key.
    pub pointer: String,
    /// Which of both it is.
    pub part: Part,
    /// What it is before.
    pub old: String,
    /// What it is after.
    pub new: String,
}

/// Adds a change.
pub(crate) fn push_change(changes: &mut Vec<Change>, change: Change) -> Result<(), AllocError> {
    changes.push(change)?;
    Ok(())
}

/// One text after another.
pub(crate) fn joined(alloc: Global, front: &str, rest: &str) -> Result<String, AllocError> {
    [front, rest].join(alloc, "")
}

/// The pointer to what is under a keyword of a value.
pub(crate) fn under_keyword(
    alloc: Global,
    pointer: &str,
    keyword: &str,
) -> Result<String, AllocError> {
    [pointer, "/", keyword].join(alloc, "")
}

/// A value that is under another pointer after the change. What is in it moves along.
#[derive(Debug, Drop)]
pub struct Moved {
    /// The number of its document.
    pub document: usize,
    /// The pointer before.
    pub from: String,
    /// The pointer after.
    pub to: String,
}

/// What a change of documents is.
#[derive(Drop)]
pub struct Plan {
    /// What becomes another text. The first is what was asked for, and the others follow; where documents move, all follow.
    pub changes: Vec<Change>,
    /// What is under another pointer.
    pub moved: Vec<Moved>,
    /// The URIs that documents have after, by their numbers: none of one that keeps its own.
    pub uris: Vec<Option<Uri>>,
}

/// Why nothing is changed.
#[derive(Debug, Drop)]
pub enum Refusal {
    /// No value is at the pointer.
    NoValue,
    /// The value is no member of an object: it is the root of the document, or an item of an array.
    NoMember,
    /// It is called so already.
    SameName,
    /// The name is taken.
    Taken,
    /// The key has a meaning by itself: a keyword, a field of a description, or a name in data.
    Meaningful,
    /// A component of a description can't be called so.
    NoComponentName,
    /// No anchor is there, or none that references are followed to.
    NoAnchor,
    /// An anchor can't be called so.
    NoAnchorName,
    /// The schema there has no identifier, or none is there.
    NoIdentifier,
    /// The text is no URI reference without a fragment.
    NoUri,
    /// The text or the key at a pointer would have to change, and isn't written there: an alias or a merged member of YAML means it.
    Elsewhere {
        /// The number of the document.
        document: usize,
        /// The pointer.
        pointer: String,
    },
    /// The text at a pointer would have to change, and its document can't be changed.
    Fixed {
        /// The number of the document.
        document: usize,
        /// The pointer.
        pointer: String,
    },
    /// The text of a document isn't what the change is to make of it.
    Unlike {
        /// The number of the document.
        document: usize,
    },
    /// The documents as they are after can't be prepared, for this reason.
    Unprepared(String),
}

/// Why there is no plan.
#[derive(Drop)]
pub enum Unmade {
    /// Memory ran out.
    Memory,
    /// Nothing is changed.
    Refused(Refusal),
}

impl From<AllocError> for Unmade {
    fn from(_error: AllocError) -> Unmade {
        Unmade::Memory
    }
}

impl From<Refusal> for Unmade {
    fn from(refusal: Refusal) -> Unmade {
        Unmade::Refused(refusal)
    }
}

impl Refusal {
    /// Why, in words.
    pub fn text(&self) -> &str {
        match self {
            Refusal::Unprepared(why) => why.as_str(),
            other => other.reason(),
        }
    }

    /// Why, in words that are the same each time, without quotes and backslashes.
    pub fn reason(&self) -> &'static str {
        match self {
            Refusal::NoValue => "no value is at the pointer",
            Refusal::NoMember => "the value there is no member of an object",
            Refusal::SameName => "it is called so already",
            Refusal::Taken => "the name is taken",
            Refusal::Meaningful => {
                "the key has a meaning by itself: it is a keyword, a field of a description, or a name in data"
            }
            Refusal::NoComponentName => {
                "a component is called by letters, digits, '.', '-' and '_' alone"
            }
            Refusal::NoAnchor => "no anchor is there that references are followed to",
            Refusal::NoAnchorName => {
                "an anchor begins with a letter or '_', and goes on with letters, digits, '.', '-' and '_'"
            }
            Refusal::NoIdentifier => "no schema with an identifier is there",
            Refusal::NoUri => "the identifier is not a URI reference without a fragment",
            Refusal::Elsewhere { .. } => {
                "would have to change, and is written elsewhere: an alias or a merged member means it"
            }
            Refusal::Fixed { .. } => {
                "would have to change, and its document is not one of the files that are changed"
            }
            Refusal::Unlike { .. } => "the text would not be what the change is to make of it",
            Refusal::Unprepared(_) => "the documents can not be read as they would be",
        }
    }
}
