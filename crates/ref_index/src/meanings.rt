//! What an identifier, a `$ref` and a `$schema` of a schema mean: for whoever walks over places, so that each has one meaning.
ghost use Rattle.std.specs.Prelude.{◌≡◌, ◌==◌, None, Some, IfOk, option_map, slice_index, if◌then◌else◌};
ghost use Rattle.serde_json.specs.View.{view};
ghost use Rattle.ref_uri.specs.Bytes.{hash};
ghost use Rattle.ref_uri.specs.Targets.{uri_against, uri_part, target};
ghost use Rattle.ref_draft.specs.Schema.{text_under};
ghost use Rattle.ref_definitions.specs.Places.{base_within};
ghost use Rattle.ref_definitions.specs.Wants.{schema_at};
ghost use Rattle.ref_index.specs.Meanings.{GivesUri, IsMeantIn, meta_schema_uri};

use crate::reference::shared;
use ref_draft::Draft;
use ref_uri::parts::uri_part;
use ref_uri::uri::{from_str, resolve_against};
use ref_uri::{Uri, UriFault};
use serde_json::Value;
use std::alloc::{AllocError, Global};
use std::rc::Rc;

/// The text under a keyword of a value, where it is an object that has a text there. Takes no memory.
pub fn text_under<'v>(value: &'v Value, keyword: &str) -> Option<&'v str>
    ensures value { option_map (λ text. text.now) result ≡ text_under keyword.now (view value.now) }
{
    value.get(keyword).and_then(Value::as_str)
}

/// The URI that a text means against a base (RFC 3986, 5.2). Takes memory for it and its handle.
///
/// Refuses what means none, and where memory is refused.
pub fn resolved(alloc: Global, base: &Rc<Uri>, text: &str) -> Result<Rc<Uri>, UriFault>
    ensures value { GivesUri (uri_against base.now.value text.now) result }
{
    let uri = resolve_against(alloc, base.borrow(), text)?;
    Ok(shared(alloc, uri)?)
}

/// The base of a value: its identifier against the base around it, or that base, which is shared (2020-12 Core, 8.2.1).
///
/// Refuses an identifier that means no URI, and where memory is refused.
pub fn base_of(alloc: Global, outer: &Rc<Uri>, id: Option<&str>) -> Result<Rc<Uri>, UriFault>
    ensures value { GivesUri
        (base_within outer.now.value (option_map (λ text. text.now) id.entry)) result }
{
    match id {
        Some(id) => resolved(alloc, outer, id),
        None => Ok(outer.clone()?),
    }
}

/// The part of a reference that is resolved against its base: what is before its last `#`. `None` where it begins with `#`: it
/// points into its base (2020-12 Core, 8.2.3.1). Takes no memory.
pub fn uri_text(reference: &str) -> Option<&str>
    ensures value { option_map (λ text. text.now) result
        ≡ (if slice_index reference.now 0 == hash then None else Some (uri_part reference.now)) }
{
    if reference.starts_with('#') {
        return None;
    }
    Some(uri_part(reference))
}

/// The URI that a reference points into (2020-12 Core, 8.2.3.1).
///
/// Refuses one that means no URI, and where memory is refused.
pub fn target_of(alloc: Global, base: &Rc<Uri>, reference: &str) -> Result<Rc<Uri>, UriFault>
    ensures value { GivesUri (target base.now.value reference.now) result }
{
    match uri_text(reference) {
        Some(text) => resolved(alloc, base, text),
        None => Ok(base.clone()?),
    }
}

/// The text under `$schema` of a value, where it names no draft that is known (2020-12 Core, 8.1.1). Takes no memory.
pub fn dialect_in(value: &Value) -> Option<&str>
    ensures value { option_map (λ text. meta_schema_uri text.now) result
        ≡ schema_at (view value.now) }
{
    let text = text_under(value, "$schema")?;
    if Draft::from_schema_uri(text) != Draft::Unknown {
        return None;
    }
    Some(text)
}

/// The URI that a text names a meta-schema by: its fragment takes no part (2020-12 Core, 8.1.1).
///
/// Refuses what means none, and where memory is refused.
pub fn meta_schema_of(alloc: Global, text: &str) -> Result<Rc<Uri>, UriFault>
    ensures value { GivesUri (meta_schema_uri text.now) result }
{
    let mut uri = from_str(alloc, text)?;
    uri.drop_fragment();
    Ok(shared(alloc, uri)?)
}

/// What one of these calls returned, for callers who go on where a text means no URI: the URI, where it means one. Fails only if
/// that ran out of memory.
pub fn if_meant(meaning: Result<Rc<Uri>, UriFault>) -> Result<Option<Rc<Uri>>, AllocError>
    ensures value { IfOk result (λ uri. IsMeantIn meaning uri) }
{
    match meaning {
        Ok(uri) => Ok(Some(uri)),
        Err(UriFault::Memory(error)) => Err(error),
        Err(fault) => {
            drop(fault);
            Ok(None)
        }
    }
}
