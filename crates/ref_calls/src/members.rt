//! Objects of answers.
ghost use Rattle.std.specs.Prelude.{◌≡◌, ◌++◌, ◌∷◌, [], IfOk, OnOk, map};
ghost use Rattle.serde_json.specs.Data.{string, no_members, put as with_member};
ghost use Rattle.serde_json.specs.View.{view, members_view};
ghost use Rattle.ref_calls.specs.Objects.{object_of, texts, whole};

use ref_parts::list::List;
use ref_uri::Uri;
use serde_json::{Map, Value, put};
use std::alloc::{AllocError, Global};

/// The members of an object.
pub type Members = Map<String, Value>;

/// Puts a text under a key.
pub fn put_text(
    alloc: Global,
    members: &mut Members,
    key: &str,
    text: &str,
) -> Result<(), AllocError>
    ensures { OnOk result (members_view members.new.entries
        ≡ with_member key.now (string text.now) (members_view members.old.entries)) }
{
    let value = Value::try_from_str(alloc, text)?;
    put(members, alloc, key, value)
}

/// Puts a number under a key.
pub fn put_number(
    alloc: Global,
    members: &mut Members,
    key: &str,
    number: usize,
) -> Result<(), AllocError>
    ensures { OnOk result (members_view members.new.entries
        ≡ with_member key.now (whole number) (members_view members.old.entries)) }
{
    put(members, alloc, key, Value::from(number))
}

/// An object with one member.
pub fn object_of(alloc: Global, key: &str, value: Value) -> Result<Value, AllocError>
    ensures { IfOk result (λ object. view object ≡ object_of ((key.now, view value) ∷ [])) }
{
    let mut members = Map::new(alloc);
    put(&mut members, alloc, key, value)?;
    Ok(Value::Object(members))
}

/// Puts a text after the items of a list.
pub fn push_text(alloc: Global, list: &mut Vec<Value>, text: &str) -> Result<(), AllocError>
    ensures { OnOk result
        (map view list.new.items ≡ map view list.old.items ++ string text.now ∷ []) }
{
    let value = Value::try_from_str(alloc, text)?;
    list.push(value)?;
    Ok(())
}

/// The list of URIs.
pub fn uris_of(alloc: Global, uris: &List<Uri>) -> Result<Value, AllocError>
    ensures { IfOk result (λ list. view list ≡ texts uris.now) }
{
    let mut list = Vec::new(alloc);
    for uri in uris {
        push_text(alloc, &mut list, uri.as_str())?;
    }
    Ok(Value::Array(list))
}
