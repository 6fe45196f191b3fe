//! Which draft a `$schema` means that is written in another way.
ghost use Rattle.std.specs.Prelude.{◌≡◌, ◌++◌, codes, map, string_bytes, IfOk};
ghost use Rattle.ref_draft.specs.Keywords.{is_unknown};
ghost use Rattle.ref_draft.specs.Schema.{trimmed_text, from_schema_uri};
ghost use Rattle.ref_rules.specs.Dialects as dialects;

use ref_draft::{Draft, trim_hashes};
use std::alloc::{AllocError, Global};

/// The URI of a draft's meta-schema; none of a custom one, an empty text. Takes no memory.
pub fn meta_schema(draft: Draft) -> &'static str
    ensures value { result.now ≡ dialects.meta_schema draft }
{
    match draft {
        Draft::Draft4 => "http://json-schema.org/draft-04/schema#",
        Draft::Draft6 => "http://json-schema.org/draft-06/schema#",
        Draft::Draft7 => "http://json-schema.org/draft-07/schema#",
        Draft::Draft201909 => "https://json-schema.org/draft/2019-09/schema",
        Draft::Draft202012 => "https://json-schema.org/draft/2020-12/schema",
        Draft::Unknown => "",
    }
}

// A text with another one after it.
fn with_end(alloc: Global, text: &str, end: &str) -> Result<String, AllocError>
    ensures { IfOk result (λ t. string_bytes t ≡ text.now ++ end.now) }
{
    let mut longer = String::from_str(alloc, text)?;
    longer.push_str(end)?;
    Ok(longer)
}

// A text in small letters, and without `#` at its end.
fn in_small(alloc: Global, text: &str) -> Result<String, AllocError>
    ensures { IfOk result (λ t. string_bytes t ≡ dialects.in_small text.now) }
{
    trim_hashes(text).to_ascii_lowercase(alloc)
}

// The draft whose meta-schema has this URI, by its version.
fn by_version(text: &str) -> Draft
    ensures { result ≡ dialects.by_version text.now }
{
    if text == "http://json-schema.org/schema" || text == "https://json-schema.org/schema" {
        return Draft::Unknown;
    }
    Draft::from_schema_uri(text)
}

// The draft that is meant by a text in small letters.
fn meant(alloc: Global, text: &str) -> Result<Draft, AllocError>
    ensures { IfOk result (λ d. d
        ≡ dialects.or_else (dialects.by_version text.now)
        (dialects.or_else (dialects.by_version (text.now ++ codes "/schema"))
        (dialects.by_version (text.now ++ codes "schema")))) }
{
    let draft = by_version(text);
    if draft != Draft::Unknown {
        return Ok(draft);
    }
    let longer = with_end(alloc, text, "/schema")?;
    let draft = by_version(longer.as_str());
    if draft != Draft::Unknown {
        return Ok(draft);
    }
    let longer = with_end(alloc, text, "schema")?;
    Ok(by_version(longer.as_str()))
}

// Whether a text is the URI of the meta-schema of a draft, which may lack a `#` at its end.
fn is_meta_schema(text: &str, draft: Draft) -> bool
    ensures { result ≡ dialects.is_meta_schema text.now draft }
{
    let uri = meta_schema(draft);
    text == uri || text == trim_hashes(uri)
}

/// The draft that a text under `$schema` means, where it is not the URI of that draft's meta-schema: `http` and `https`, small letters and
/// capitals, `schema` at the end, and a `#` too many there make the difference. `None` of the URI itself, also without its `#`, of the URI without a
/// version, and of all else. Fails only if out of memory. Takes memory for the text, and is linear in it.
pub fn misspelled(alloc: Global, text: &str) -> Result<Option<Draft>, AllocError>
    ensures value { IfOk result (λ d. d ≡ dialects.misspelled text.now) }
{
    let small = in_small(alloc, text)?;
    let draft = meant(alloc, small.as_str())?;
    if draft == Draft::Unknown || is_meta_schema(text, draft) {
        return Ok(None);
    }
    Ok(Some(draft))
}
