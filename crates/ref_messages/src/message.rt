//! A message about a place in a file.
ghost use Rattle.std.specs.Prelude.{◌≡◌};
ghost use Rattle.ref_messages.specs.Levels.{name_of};

use crate::excerpt::Excerpt;

/// The level of a message.
#[derive(Clone, Copy, Drop)]
pub enum Level {
    /// Something is wrong.
    Error,
    /// Something is wrong that needn't be.
    Warning,
    /// Something is worth knowing.
    Note,
}

impl Level {
    /// Its name, as all forms but GitHub's have it.
    pub fn name(self) -> &'static str
        ensures value { result.now ≡ name_of self }
    {
        match self {
            Level::Error => "error",
            Level::Warning => "warning",
            Level::Note => "note",
        }
    }
}

/// Another place that a message speaks of.
#[derive(Drop)]
pub struct Other {
    /// The file, as it is shown.
    pub file: String,
    /// The line, from 1; 0 where it isn't known.
    pub line: usize,
    /// The column, from 1; 0 where it isn't known.
    pub column: usize,
    /// The pointer of the schema there (RFC 6901).
    pub pointer: String,
}

/// A message about a place in a file.
#[derive(Drop)]
pub struct Message<'m> {
    /// The file, as it is shown.
    pub file: &'m str,
    /// The line, from 1.
    pub line: usize,
    /// The column in Unicode characters, from 1.
    pub column: usize,
    /// The pointer of the schema that it is about (RFC 6901).
    pub pointer: String,
    /// Its level.
    pub level: Level,
    /// The name of its kind, as `missing-document`.
    pub code: &'static str,
    /// What is wrong.
    pub text: String,
    /// The keyword whose text it is about.
    pub keyword: Option<&'m str>,
    /// The text under the keyword, as it is in the file.
    pub reference: Option<&'m str>,
    /// The URI that the text was resolved to.
    pub resolved: Option<String>,
    /// What may be meant.
    pub suggestion: Option<String>,
    /// Whether nothing else is as close as that.
    pub is_only: bool,
    /// What to do.
    pub help: Option<String>,
    /// The place that it clashes with.
    pub first: Option<Other>,
    /// The line of the file that it is about.
    pub excerpt: Option<Excerpt<'m>>,
}
