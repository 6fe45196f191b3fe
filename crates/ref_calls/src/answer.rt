//! The line that an answer is.
ghost use Rattle.std.specs.Prelude.{◌≡◌, option_map, codes, IfOk, OnOk};
ghost use Rattle.serde_json.specs.View.{view, members_view};
ghost use Rattle.serde_json.specs.Find.{get};
ghost use Rattle.serde_json.specs.Data.{Data};
ghost use Rattle.ref_calls.specs.Objects.{answer_of, id_member, with_all, IsLineOf};
ghost use Rattle.ref_calls.specs.Outcome.{IsStop};

use crate::members::Members;
use ref_json::Stop;
use serde_json::{Map, Value, put};
use std::alloc::{AllocError, Global};

/// The value that the answer gives back.
pub fn id_of(tree: &Value) -> Result<Option<Value>, AllocError>
    ensures { IfOk result (λ id. option_map view id ≡ get (codes "id") (view tree.now)) }
{
    match tree.get("id") {
        Some(id) => Ok(Some(id.clone()?)),
        None => Ok(None),
    }
}

// Puts the value that the answer gives back.
fn put_id(alloc: Global, members: &mut Members, id: Option<Value>) -> Result<(), AllocError>
    ensures { OnOk result (members_view members.new.entries
        ≡ with_all (id_member (option_map view id)) (members_view members.old.entries)) }
{
    match id {
        Some(id) => put(members, alloc, "id", id),
        None => Ok(()),
    }
}

// The line of a value, with its end.
fn line_of(alloc: Global, value: &Value) -> Result<Vec<u8>, AllocError>
    ensures { IfOk result (λ text. IsLineOf (view value.now) text.items) }
{
    let mut text = value.to_vec(alloc)?;
    text.push(b'\n')?;
    Ok(text)
}

/// The line of an answer, with its end.
pub fn text_of(
    alloc: Global,
    id: Option<Value>,
    key: &str,
    value: Value,
) -> Result<Vec<u8>, AllocError>
    ensures { IfOk result
        (λ text. IsLineOf (answer_of (option_map view id) key.now (view value)) text.items) }
{
    let mut members = Map::new(alloc);
    put(&mut members, alloc, key, value)?;
    put_id(alloc, &mut members, id)?;
    line_of(alloc, &Value::Object(members))
}

/// The line of an error, with its end.
pub fn error_text(
    alloc: Global,
    id: Option<Value>,
    error: Stop<Value>,
) -> Result<Vec<u8>, AllocError>
    ensures { (object : Data) → IsStop error object
        → IfOk result
        (λ text. IsLineOf (answer_of (option_map view id) (codes "error") object) text.items) }
{
    match error {
        Stop::Because(error) => text_of(alloc, id, "error", error),
        Stop::Memory => Err(AllocError),
    }
}
