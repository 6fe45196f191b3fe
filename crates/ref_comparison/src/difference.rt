//! What differs.
use ref_reach::Place;

/// What differs at a place.
#[derive(Debug, Drop)]
pub enum What {
    /// No place that is read the same is where it moved.
    NoPlace,
    /// Its base means another resource.
    OtherBase,
    /// It has other references, each by where it is and its keyword.
    OtherReferences,
    /// The reference under this keyword, with this text before and this one after, leads elsewhere.
    OtherTarget(String, String, String),
}

/// A place before, and what differs there after.
#[derive(Drop)]
pub struct Difference<'p, 'r> {
    /// The place before.
    pub place: &'p Place<'r>,
    /// What differs.
    pub what: What,
}
