//! What is told of a place.
use ref_draft::Draft;
use serde_json::Value;

/// A place where a schema is.
#[derive(Clone, Copy)]
pub struct Place<'v> {
    /// Whether it is the root of its document.
    pub is_root: bool,
    /// The draft that it is read by.
    pub draft: Draft,
    /// Its value.
    pub value: &'v Value,
}

/// What is told of a keyword.
#[derive(Clone, Copy, Debug, PartialEq, Eq)]
pub enum Problem {
    /// Its place is read by this draft, which doesn't have it.
    OfAnotherDraft(Draft),
    /// It is a `$schema` below the root, in a schema without an identifier.
    DialectWithin,
    /// It decides whether a value is valid, and counts for nothing beside a `$ref`.
    IgnoredBesideRef,
    /// It is an annotation or an identifier, and counts for nothing beside a `$ref`.
    UnheardBesideRef,
    /// It is a `$schema` that means this draft, and is not the URI of its meta-schema.
    MisspelledDialect(Draft),
}

/// A keyword of a place, and what is told of it.
#[derive(Clone, Copy)]
pub struct Slip {
    /// The number of the place, counted from 0.
    pub place: usize,
    /// The keyword.
    pub keyword: &'static str,
    /// What is told.
    pub problem: Problem,
}
