//! The kinds of findings.
use crate::finding::Problem;
use ref_error::Error;
use ref_files::Format;
use ref_findings::Problem as Plain;
use ref_messages::{Rule, Suggester};
use ref_rules::Problem as Told;
use std::alloc::{AllocError, Global};

// How many steps a search among the rules may take.
const STEPS: usize = 65_536;

/// The kinds of findings, each with what it says.
pub const RULES: &[Rule] = &[
    Rule {
        code: "not-json",
        text: "The file is not JSON",
    },
    Rule {
        code: "not-yaml",
        text: "The file is not YAML of one document, or has what JSON hasn't",
    },
    Rule {
        code: "not-checked",
        text: "The file is a description of AsyncAPI, or of a version of OpenAPI that is not known: only references in JSON Schema places are checked",
    },
    Rule {
        code: "guessed-draft",
        text: "The file names no draft, and is read by another one than it may be meant for",
    },
    Rule {
        code: "invalid-uri",
        text: "The text of an identifier, a reference or a $schema is not a valid URI reference",
    },
    Rule {
        code: "not-a-text",
        text: "The value of a reference is no text",
    },
    Rule {
        code: "recursive-ref-elsewhere",
        text: "A $recursiveRef is not #",
    },
    Rule {
        code: "missing-document",
        text: "A reference leads into a document that is not among the given files",
    },
    Rule {
        code: "case-of-file",
        text: "A document that is not among the given files differs from one of them by small letters and capitals alone",
    },
    Rule {
        code: "pointer-to-nowhere",
        text: "The pointer of a reference leads to no value",
    },
    Rule {
        code: "no-such-anchor",
        text: "A reference names an anchor that is not there",
    },
    Rule {
        code: "invalid-anchor",
        text: "The fragment of a reference is neither a pointer nor the name of an anchor",
    },
    Rule {
        code: "invalid-array-index",
        text: "The pointer of a reference goes into an array by what is no index",
    },
    Rule {
        code: "invalid-percent-encoding",
        text: "The fragment of a reference is not UTF-8 when it is decoded",
    },
    Rule {
        code: "duplicate-identifier",
        text: "Two schemas have the same identifier",
    },
    Rule {
        code: "duplicate-anchor",
        text: "Two schemas of one resource have the same anchor",
    },
    Rule {
        code: "identifier-names-nothing",
        text: "What follows the # of an anchor is a pointer, and names nothing",
    },
    Rule {
        code: "unknown-dialect",
        text: "A $schema names a meta-schema that is not among the given files",
    },
    Rule {
        code: "wrong-kind",
        text: "A reference of an API description leads to an object of another kind than the one that is needed",
    },
    Rule {
        code: "not-a-schema",
        text: "A reference of a schema leads to what is no schema",
    },
    Rule {
        code: "endless-reference",
        text: "References come back to where they began without a step into the value that is validated",
    },
    Rule {
        code: "ignored-beside-ref",
        text: "A keyword that decides counts for nothing beside a $ref, in Drafts 4, 6 and 7",
    },
    Rule {
        code: "annotation-beside-ref",
        text: "An annotation or an identifier counts for nothing beside a $ref, in Drafts 4, 6 and 7",
    },
    Rule {
        code: "repeated-member",
        text: "Two members of an object have one name, and the last counts",
    },
    Rule {
        code: "keyword-of-another-draft",
        text: "A keyword is one that the draft of its schema does not have, or is a $schema where none counts",
    },
    Rule {
        code: "spelling-of-dialect",
        text: "A $schema means a draft, and is not the URI of its meta-schema",
    },
    Rule {
        code: "unused-definition",
        text: "No reference leads to a definition or into it, but from definitions that are not used",
    },
    Rule {
        code: "unused-silence",
        text: "A comment that is to silence rules silences nothing, or names a rule that there is not",
    },
    Rule {
        code: "unchecked-reference",
        text: "A reference leads into a meta-schema that is not among the given files",
    },
];

/// Whether there is a kind of this name.
pub(crate) fn is_rule(name: &str) -> bool {
    RULES.iter().any(|rule| rule.code == name)
}

/// The kind that may be meant by a name that is that of none: the first that is a letter or two away.
pub fn near_rule(alloc: Global, name: &str) -> Result<Option<&'static str>, AllocError> {
    let mut suggester = Suggester::new(STEPS);
    suggester.begin();
    for rule in RULES {
        if suggester.distance(alloc, name, rule.code)?.is_some() {
            return Ok(Some(rule.code));
        }
    }
    Ok(None)
}

/// The kind of a problem of a document that is written so.
pub fn code_of(problem: &Problem<'_>, format: Format) -> &'static str {
    match problem {
        Problem::Plain(Plain::NotJson) if format == Format::Yaml => "not-yaml",
        Problem::Plain(problem) => code_of_plain(problem),
        Problem::WrongKind { .. } | Problem::NoObject { .. } => "wrong-kind",
        Problem::NotASchema { .. } => "not-a-schema",
        Problem::Endless { .. } => "endless-reference",
        Problem::OtherCase { .. } => "case-of-file",
        Problem::Repeated { .. } => "repeated-member",
        Problem::Unused => "unused-definition",
        Problem::Told { told, .. } | Problem::Beside { told, .. } => code_of_told(*told),
    }
}

fn code_of_told(told: Told) -> &'static str {
    match told {
        Told::OfAnotherDraft(_) | Told::DialectWithin => "keyword-of-another-draft",
        Told::IgnoredBesideRef => "ignored-beside-ref",
        Told::UnheardBesideRef => "annotation-beside-ref",
        Told::MisspelledDialect(_) => "spelling-of-dialect",
    }
}

fn code_of_plain(problem: &Plain<'_>) -> &'static str {
    match problem {
        Plain::NotJson => "not-json",
        Plain::NotChecked => "not-checked",
        Plain::NotAText => "not-a-text",
        Plain::RecursiveElsewhere => "recursive-ref-elsewhere",
        Plain::NamesNothing => "identifier-names-nothing",
        Plain::InvalidUri(_) => "invalid-uri",
        Plain::MissingDocument { .. } => "missing-document",
        Plain::LeadsNowhere { error, .. } => code_of_fault(error),
        Plain::Unchecked { .. } => "unchecked-reference",
        Plain::UnknownDialect { .. } => "unknown-dialect",
        Plain::DuplicateIdentifier { .. } => "duplicate-identifier",
        Plain::DuplicateAnchor { .. } => "duplicate-anchor",
        Plain::GuessedDraft { .. } | Plain::ListOfItems => "guessed-draft",
    }
}

fn code_of_fault(error: &Error) -> &'static str {
    match error {
        Error::PointerToNowhere { .. } => "pointer-to-nowhere",
        Error::NoSuchAnchor { .. } => "no-such-anchor",
        Error::InvalidAnchor { .. } => "invalid-anchor",
        Error::InvalidArrayIndex { .. } => "invalid-array-index",
        Error::InvalidPercentEncoding { .. } => "invalid-percent-encoding",
        Error::InvalidUri(_) => "invalid-uri",
        Error::Unretrievable { .. } => "missing-document",
        Error::UnknownSpecification { .. } => "unknown-specification",
        Error::CircularMetaschema { .. } => "circular-meta-schema",
        Error::RetrievalLimit { .. } => "retrieval-limit",
        Error::Memory(_) => "out-of-memory",
    }
}
