//! A document, and who owns its value.
ghost use Rattle.std.specs.Prelude.{◌≡◌};
ghost use Rattle.serde_json.specs.View.{view};
ghost use Rattle.ref_index.specs.Contents.{tree_of};

use ref_draft::Draft;
use ref_uri::Uri;
use serde_json::Value;
use std::rc::Rc;

/// A document's value: borrowed, shared or owned. It is never copied.
#[derive(Debug, Drop)]
pub enum Contents<'a> {
    /// Lent for as long as the registry lives.
    Borrowed(&'a Value),
    /// Shared with others.
    Shared(Rc<Value>),
    /// The registry's own.
    Owned(Value),
}

impl<'a> Contents<'a> {
    /// The value. A look-up; takes no memory.
    pub fn value(&self) -> &Value
        ensures value { view result.now ≡ tree_of self.now }
    {
        match self {
            Contents::Borrowed(value) => *value,
            Contents::Shared(value) => &**value,
            Contents::Owned(value) => value,
        }
    }
}

/// A document of a registry: the URI that it was added or retrieved under, its value, and the draft of its root.
#[derive(Debug, Drop)]
pub struct Document<'a> {
    /// The URI that it was added or retrieved under. An identifier of its root may give another base.
    pub uri: Uri,
    /// Its value, borrowed, shared or owned.
    pub contents: Contents<'a>,
    /// The draft of its root: the one that was given, or that its `$schema` names, or else the registry's.
    pub draft: Draft,
}
