//! What differs.
use referencing::{Location, Place};

/// What a text leads to before, and the one in its place after.
#[derive(Debug, Drop)]
pub struct Leading<'w> {
    /// The text before.
    pub before: String,
    /// The text after.
    pub after: String,
    /// Where it led, where it led somewhere.
    pub led: Option<Location<'w>>,
    /// Where it leads.
    pub leads: Option<Location<'w>>,
}

/// What differs at a place.
#[derive(Debug, Drop)]
pub enum What<'w> {
    /// No place is where it moved.
    NoPlace,
    /// It has another draft.
    OtherDraft,
    /// Its base means another resource.
    OtherBase,
    /// It has `$recursiveAnchor: true` before or after alone.
    OtherMark,
    /// Its anchors are others, or mean something else.
    OtherAnchors,
    /// A text is under this keyword before or after alone.
    OtherText(&'static str),
    /// The reference under this keyword leads elsewhere, or to another draft or base, or fails in another way.
    OtherReference(&'static str, Leading<'w>),
    /// From its base, a name of a dynamic anchor that references lead to means something else.
    OtherName(Leading<'w>),
}

/// A place before, and what differs there after.
#[derive(Debug, Drop)]
pub struct Difference<'w> {
    /// The place before.
    pub place: Place<'w>,
    /// What differs.
    pub what: What<'w>,
}
