//! Why a text isn't read.
ghost use Rattle.std.specs.Prelude.{◌≡◌};
ghost use Rattle.ref_yaml.specs.Events.{IsStopWithin};

use std::alloc::{AllocError, AllocFailed};

/// Why there is no result: memory, or what is wrong in the text, and its offset in bytes.
#[derive(Clone, Copy, Drop)]
pub enum Stop {
    /// Memory ran out.
    Memory,
    /// What is wrong, and where.
    At(Fault, usize),
}

impl Stop {
    // It, with its offset within a text of so many bytes.
    pub(crate) fn within(self, len: usize) -> Stop
        ensures value { IsStopWithin len result }
    {
        match self {
            Stop::Memory => Stop::Memory,
            Stop::At(fault, offset) => Stop::At(fault, offset.min(len)),
        }
    }
}

/// What is wrong in a text. The numbers are sections of YAML 1.2.2.
#[derive(Clone, Copy, Drop)]
pub enum Fault {
    /// A control character (5.1).
    Character,
    /// A directive that is neither `%YAML 1.1` nor `%YAML 1.2`, or one without `---` after it (6.8).
    Directive,
    /// A tag that is none of the core schema's, or one that doesn't fit its value (6.9.1, 10.3).
    Tag,
    /// An anchor without a name, a second anchor or tag of a value, or one where none can be (6.9).
    Properties,
    /// An alias to an anchor that doesn't come before it (7.1).
    Alias,
    /// An alias to a value that holds it.
    Cycle,
    /// Aliases that make the text too large.
    Expansion,
    /// A value under `<<` that is neither an object nor a list of objects.
    Merge,
    /// A tab where spaces have to be (6.1).
    Tab,
    /// A line that is indented less or more than what it is in (6.1).
    Indentation,
    /// A line in brackets or in quotes that is indented too little (6.3, 7.4).
    Shallow,
    /// A list or an object of a block that can't begin on this line (8.2).
    Block,
    /// No value begins so (7.3.3).
    Begin,
    /// A key that is a list or an object.
    Key,
    /// A key of more than one line (7.4.2).
    LongKey,
    /// A key without a colon (8.2.2).
    Colon,
    /// A key that comes twice in one object (3.2.1.3).
    SameKey,
    /// A quoted text or a bracket without its end (7.3, 7.4).
    End,
    /// Neither a comma nor a closing bracket (7.4).
    Comma,
    /// An escape that there isn't (5.7).
    Escape,
    /// The first line of a literal or a folded text (8.1.1).
    Header,
    /// Something after a value (9.1.2).
    After,
    /// A second document (9.2).
    Document,
    /// More than 127 levels.
    Depth,
    /// A number that JSON doesn't have: an infinite one, no number, or one that is too large (10.2.1.4).
    Number,
    /// An offset past the end: a mistake of this crate, which its checks found.
    Offsets,
}

// The names of faults, in their order.
const NAMES: [&str; 26] = [
    "character",
    "directive",
    "tag",
    "properties",
    "alias",
    "cycle",
    "expansion",
    "merge",
    "tab",
    "indentation",
    "shallow",
    "block",
    "begin",
    "key",
    "long-key",
    "colon",
    "same-key",
    "end",
    "comma",
    "escape",
    "header",
    "after",
    "document",
    "depth",
    "number",
    "offsets",
];

// What is wrong and what to do, by faults in their order.
const ADVICE: [&str; 26] = [
    "Not YAML: a control character; write it as an escape in double quotes",
    "Not YAML that is read: of directives only %YAML 1.1 and 1.2, with --- on a line after it; remove others",
    "Not YAML that is read: a tag that isn't one of the core schema, or doesn't fit its value; remove it",
    "Not YAML: an anchor and a tag come once each, before a value, with a space after them; before a list or an object of a block on a line of their own; an alias has none",
    "Not YAML: no anchor of this name comes before the alias; define it before",
    "Not YAML that is read: an alias to a value that holds it; write the value without it",
    "Not YAML that is read: aliases make more than ten parts for each byte of the file; write fewer of them",
    "Not YAML that is read: << merges an object or a list of objects; give it one, or write it in quotes",
    "Not YAML: a tab where a line is indented; use spaces",
    "Not YAML: this line begins at no column that is open; indent it as what it belongs to",
    "Not YAML: a line in brackets or quotes that is indented too little; indent it further than the key or the dash that they belong to",
    "Not YAML: a list or an object can't begin here; begin it on a line of its own",
    "Not YAML: no value begins with this character; write the value in quotes",
    "Not YAML that is read: a list or an object as a key; JSON has texts alone",
    "Not YAML: a key goes over more than one line; write it on one",
    "Not YAML: a key without a colon and a space after it; add them, or indent what belongs to the value before",
    "Not YAML: the key comes twice in one object; remove one of both",
    "Not YAML: a quote or a bracket that opens and isn't closed; close it",
    "Not YAML: a comma or a closing bracket is expected; add it",
    "Not YAML: an escape that there isn't; write \\\\ for a backslash, or use single quotes",
    "Not YAML: after | or > a digit for the indentation, + or -, and a comment; write nothing else on the line",
    "Not YAML: something after the end of a value; remove it, or write the whole value in quotes",
    "Not YAML that is read: a second document; write it to a file of its own",
    "Not YAML that is read: nested more than 127 levels deep; nest less",
    "Not YAML that is read: a number that JSON doesn't have; write it in quotes, or another one",
    "Not YAML that can be read: a mistake of this program; report the file",
];

impl Fault {
    /// Its name, in lower case with hyphens.
    pub fn name(self) -> &'static str {
        NAMES.get(self as usize).copied().unwrap_or("")
    }

    /// What is wrong and what to do about it, as a sentence for whoever wrote the text, without a period.
    pub fn advice(self) -> &'static str {
        ADVICE.get(self as usize).copied().unwrap_or("")
    }
}

/// What is read though YAML 1.2 doesn't have it.
#[derive(Clone, Copy, Drop)]
pub enum Leniency {
    /// A closing bracket at the column of what it is in, at this offset.
    Bracket(usize),
    /// A text in double quotes that goes on at any column. It begins at this offset.
    DoubleQuoted(usize),
}

impl From<AllocError> for Stop {
    fn from(_refused: AllocError) -> Stop {
        Stop::Memory
    }
}

impl<T: Drop> From<AllocFailed<T>> for Stop {
    fn from(_refused: AllocFailed<T>) -> Stop {
        Stop::Memory
    }
}
