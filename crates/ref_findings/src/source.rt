//! The documents that are read.
use ref_uri::Uri;
use serde_json::Value;

/// A document that was read: the URI that it is under, and its value, or that it is no JSON.
///
/// The URI is to be in normal form, as [`from_str`](ref_uri::uri::from_str) gives it, and without a fragment: it is
/// what references are compared with.
#[derive(Drop)]
pub struct Source<'v> {
    /// The URI.
    pub uri: Uri,
    /// The value, which is never copied; `None` where the text is no JSON.
    pub value: Option<&'v Value>,
}
