//! What is wrong with documents, or is to be noted.
use crate::placed::Unplaced;
use crate::unused::Unused;
use ref_descriptions::{Kind, Version};
use ref_draft::Draft;
use ref_findings::{Finding as SchemaFinding, Level, Problem as SchemaProblem};
use ref_parts::path::JsonPointerSegment;
use ref_rules::Problem as Told;
use ref_uri::Uri;
use std::alloc::{AllocError, Global};
use std::rc::Rc;

/// What is found in the documents of a workspace, and how much was looked at.
#[derive(Drop)]
pub struct Report<'d> {
    /// What is wrong, and what is noted.
    pub findings: Vec<Finding<'d>>,
    /// How many references were looked at: those of schemas and of what these lead to, and those of descriptions and of what these lead to.
    pub references: usize,
    /// How many of these are in places of schemas that no keyword leads to, but references.
    pub led: usize,
    /// Whether a document is a description or a part of one, or no keyword leads to a reference: else what is wrong with a document is
    /// what is wrong with its own places.
    pub is_led: bool,
    /// Whether references were followed on, since they may come back to where they began.
    pub may_come_back: bool,
    /// The definitions of all documents that nothing uses.
    pub unused: Rc<Unused>,
    /// How many of the documents that are asked about are descriptions.
    pub descriptions: usize,
    /// How many places the descriptions have: objects, and what references lead to.
    pub places: usize,
    /// How many places the other documents that are asked about have: those that keywords lead to, and what references lead to where none does.
    pub schema_places: usize,
    /// The texts under a `$ref` that is in no place, in those documents that are asked about: nothing looks at them.
    pub unplaced: Vec<Unplaced<'d>>,
}

/// How much was looked at: places and their references.
#[derive(Clone, Copy, Debug, Drop)]
pub(crate) struct Amount {
    /// How many places.
    pub places: usize,
    /// How many references.
    pub references: usize,
}

/// Something that is wrong with a document, or a note on it.
#[derive(Drop)]
pub struct Finding<'d> {
    /// The number of the document, counted from 0.
    pub source: usize,
    /// The path in the document of the value that it is about.
    pub path: Vec<JsonPointerSegment<'d>>,
    /// The keyword there whose text it is about; `None` where it is the value itself, or the document as a whole.
    pub keyword: Option<&'d str>,
    /// The text under that keyword, which is the document's own.
    pub text: Option<&'d str>,
    /// The kind of the object that a reference of a description is to lead to, where it leads nowhere.
    pub wanted: Option<Kind>,
    /// What is wrong.
    pub problem: Problem<'d>,
}

/// What is wrong, or is noted.
#[derive(Drop)]
pub enum Problem<'d> {
    /// Of a document as a whole, or of a text in it, whatever the document is.
    Plain(SchemaProblem<'d>),
    /// A reference leads to an object of a description of another kind than the one that is needed there.
    WrongKind {
        /// The URI of the document that it leads into.
        uri: Rc<Uri>,
        /// What the object there is.
        is: Kind,
        /// What it is to be.
        wanted: Kind,
    },
    /// A reference of a description leads to what is no object.
    NoObject {
        /// What it is, with its article.
        is: &'static str,
        /// The kind that is needed.
        wanted: Kind,
    },
    /// A reference of a schema leads to what is no schema.
    NotASchema {
        /// What it leads to, with its article, as `an array`.
        is: &'static str,
        /// The draft that it is read by.
        draft: Draft,
    },
    /// A reference comes back to where it began without a step into the value that is validated.
    Endless {
        /// The places around, from the first one back to it.
        around: String,
    },
    /// The document that a reference wants isn't there, and one is whose URI has the same letters, small or capital.
    OtherCase {
        /// The number of that document.
        document: usize,
    },
    /// A member of a text of JSON has the name of an earlier one of its object.
    Repeated {
        /// The name.
        name: String,
        /// Where it begins.
        at: Mark,
        /// Where the first one of its name begins.
        first: Mark,
    },
    /// A definition that no reference leads to or into, but from within definitions that are so.
    Unused,
    /// Of a keyword beside a `$ref` of a schema, in a description of this version.
    Beside {
        /// What is told: that it is ignored, or not heard.
        told: Told,
        /// The version.
        version: Version,
    },
    /// Of a keyword of a schema, which is read by this draft.
    Told {
        /// What is told.
        told: Told,
        /// The draft.
        draft: Draft,
    },
}

/// Where something begins in a text: the offset in bytes, and the line and the column in characters, each from 1.
#[derive(Clone, Copy, Debug, Drop)]
pub struct Mark {
    /// The offset.
    pub offset: usize,
    /// The line.
    pub line: usize,
    /// The column.
    pub column: usize,
}

impl<'d> Problem<'d> {
    /// How much it counts. Takes no memory.
    pub fn level(&self) -> Level {
        match self {
            Problem::Plain(problem) => problem.level(),
            Problem::WrongKind { .. } | Problem::NoObject { .. } => Level::Error,
            Problem::NotASchema { .. } | Problem::Endless { .. } => Level::Error,
            Problem::Repeated { .. } | Problem::OtherCase { .. } => Level::Warning,
            Problem::Unused => Level::Note,
            Problem::Told { told, .. } | Problem::Beside { told, .. } => level_of(*told),
        }
    }

    /// Whether it is listed only where its rule is set.
    pub fn is_off(&self) -> bool {
        matches!(self, Problem::Beside { .. })
    }

    /// The problem, where it isn't one that descriptions alone have.
    pub fn plain(&self) -> Option<&SchemaProblem<'d>> {
        match self {
            Problem::Plain(problem) => Some(problem),
            _ => None,
        }
    }
}

// How much it counts what is told of a keyword.
fn level_of(told: Told) -> Level {
    match told {
        Told::IgnoredBesideRef | Told::MisspelledDialect(_) => Level::Warning,
        Told::OfAnotherDraft(_) | Told::DialectWithin | Told::UnheardBesideRef => Level::Note,
    }
}

// A problem whose places are in the documents whose numbers stand at the numbers of their sources.
fn renumbered<'d>(problem: SchemaProblem<'d>, numbers: &[usize]) -> SchemaProblem<'d> {
    let mut problem = problem;
    let bearer = match &mut problem {
        SchemaProblem::DuplicateIdentifier { first, .. } => first,
        SchemaProblem::DuplicateAnchor { first, .. } => first,
        SchemaProblem::GuessedDraft { by, .. } => by,
        _ => return problem,
    };
    bearer.source = numbers.get(bearer.source).copied().unwrap_or(bearer.source);
    problem
}

/// A finding of a schema, in the document with a number, whose other places are in the documents whose numbers stand at the numbers of
/// their sources.
pub(crate) fn plain<'d>(
    finding: SchemaFinding<'d>,
    source: usize,
    numbers: &[usize],
) -> Finding<'d> {
    let SchemaFinding {
        source: _,
        path,
        keyword,
        text,
        problem,
    } = finding;
    Finding {
        source,
        path,
        keyword,
        text,
        wanted: None,
        problem: Problem::Plain(renumbered(problem, numbers)),
    }
}

/// Adds findings of schemas, each in the document whose number stands at the number of its source.
pub(crate) fn push_plain<'d>(
    list: &mut Vec<Finding<'d>>,
    findings: Vec<SchemaFinding<'d>>,
    numbers: &[usize],
) -> Result<(), AllocError> {
    for finding in findings {
        if let Some(number) = numbers.get(finding.source).copied() {
            push(list, plain(finding, number, numbers))?;
        }
    }
    Ok(())
}

/// Adds a finding after the others.
pub(crate) fn push<'d>(
    list: &mut Vec<Finding<'d>>,
    finding: Finding<'d>,
) -> Result<(), AllocError> {
    list.push(finding)?;
    Ok(())
}

/// Adds findings after the others.
pub(crate) fn push_all<'d>(
    list: &mut Vec<Finding<'d>>,
    findings: Vec<Finding<'d>>,
) -> Result<(), AllocError> {
    for finding in findings {
        push(list, finding)?;
    }
    Ok(())
}
