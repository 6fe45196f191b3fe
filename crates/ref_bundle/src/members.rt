//! Members of embedded documents, as they are in a bundle.
ghost use Rattle.std.specs.Prelude.{◌≡◌, option_map, option_and_then};
ghost use Rattle.serde_json.specs.Find.{get};
ghost use Rattle.serde_json.specs.View.{view};
ghost use Rattle.ref_bundle.specs.Embedding.{embedded_tree};
ghost use Rattle.ref_bundle.specs.Parts.{part_document, HasBase};
ghost use Rattle.ref_bundle.specs.Assembled.{member_value, embedded_at};
ghost use Rattle.ref_bundle.specs.inner.Members.{added_text};

use crate::embedding::{Part, added_schema};
use crate::parts::BundleParts;
use referencing::Draft;
use serde_json::Value;

/// A member of an embedded document, as it is in a bundle. It isn't copied.
#[derive(Clone, Copy, Drop)]
pub enum Member<'b> {
    /// A value that the document has.
    Own(&'b Value),
    /// A text that it gets: its base URI, or the `$schema` of its draft.
    Text(&'b str),
}

// The text that a document gets under a key.
fn added_text<'b>(draft: Draft, part: &'b Part<'_>, key: &str) -> Option<&'b str>
    requires { HasBase part.now }
    ensures { option_map (λ t. t.now) result
        ≡ added_text draft (part_document part.now) key.now }
{
    if key == "$schema" {
        if let Some(schema) = added_schema(draft, part) {
            return Some(schema);
        }
    }
    if key == part.draft.id_keyword() {
        return Some(part.base.as_str());
    }
    None
}

// The value under a key.
fn own<'b>(tree: &'b Value, key: &str) -> Option<Member<'b>>
    ensures { option_map member_value result ≡ get key.now (view tree.now) }
{
    match tree.get(key) {
        Some(value) => Some(Member::Own(value)),
        None => None,
    }
}

// The member of a document under a key, below a root of a draft.
fn member_of<'b>(draft: Draft, part: &'b Part<'_>, key: &str) -> Option<Member<'b>>
    requires { HasBase part.now }
    ensures { option_map member_value result
        ≡ get key.now (embedded_tree draft (part_document part.now)) }
{
    if !part.tree.is_object() {
        return None;
    }
    match added_text(draft, part, key) {
        Some(text) => Some(Member::Text(text)),
        None => own(part.tree, key),
    }
}

impl BundleParts<'_> {
    /// The member under a key of the document with an index among those that are embedded, as it is in the bundle. Takes no memory; a look-up in the
    /// document.
    pub fn member<'b>(&'b self, index: usize, key: &str) -> Option<Member<'b>>
        ensures value { option_map member_value result
            ≡ option_and_then (get key.now) (embedded_at self.now index) }
    {
        match self.embedded.get(index) {
            Some(part) => member_of(self.root.draft, part, key),
            None => None,
        }
    }
}
