//! What references lead to.
use ref_draft::Draft;
use serde_json::Value;

/// What a reference leads to.
#[derive(Clone, Copy)]
pub struct End<'v> {
    /// The draft that it is read by.
    pub draft: Draft,
    /// The value.
    pub value: &'v Value,
}
