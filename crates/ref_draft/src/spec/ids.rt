//! Identifiers, and texts under a key.
ghost use Rattle.std.specs.Prelude.{◌≡◌, option_map};
ghost use Rattle.serde_json.specs.View.{view};
ghost use Rattle.ref_draft.specs.Schema.{identifier, text_under, trimmed_text};
ghost use Rattle.ref_draft.specs.Anchors.{after_hash};

use crate::draft::Draft;
use serde_json::Value;

// The text under a key of an object, where there is one.
pub(crate) fn text_under<'a>(contents: &'a Value, key: &str) -> Option<&'a str>
    ensures { option_map (λ text. text.now) result ≡ text_under key.now (view contents.now) }
{
    contents.get(key).and_then(Value::as_str)
}

/// The text without the `#` characters at its end, which make no difference to the URI of a document or a meta-schema.
///
/// Takes no memory. Linear in their number.
pub fn trim_hashes(text: &str) -> &str
    ensures value { result.now ≡ trimmed_text text.now }
{
    text.trim_end_matches('#')
}

// The identifier of a value without the `#` characters at its end. Before 2019-09 there is none beside a `$ref`, and
// none that begins with `#`.
pub(crate) fn identifier<'a>(draft: Draft, contents: &'a Value) -> Option<&'a str>
    ensures { option_map (λ text. text.now) result ≡ identifier draft (view contents.now) }
{
    let text = text_under(contents, draft.id_keyword())?;
    if draft.is_before_2019() && (contents.get("$ref").is_some() || text.starts_with('#')) {
        return None;
    }
    Some(trim_hashes(text))
}

// What follows a `#` at the front of the text.
pub(crate) fn after_hash(text: &str) -> Option<&str>
    ensures { option_map (λ rest. rest.now) result ≡ after_hash text.now }
{
    text.strip_prefix('#')
}
