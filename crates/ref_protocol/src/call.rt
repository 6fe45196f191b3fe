//! What a client sends.
ghost use Rattle.std.specs.Prelude.{◌≡◌, ◌↔◌, IsTrue, IfOk, IfSome, IfNone, Option, Some, None, true, false, string_bytes, option_map};
ghost use Rattle.std.specs.Str.{IsUtf8};
ghost use Rattle.serde_json.specs.Data.{Data};
ghost use Rattle.serde_json.specs.View.{view};
ghost use Rattle.serde_json.specs.Find.{get};
ghost use Rattle.serde_json.specs.Read.{read};
ghost use Rattle.ref_protocol.specs.Calls as spec;

use crate::methods::{Method, method_named};
use serde_json::Value;
use std::alloc::{AllocError, Global};

/// What a message is.
#[derive(Clone, Copy, Debug, Drop, PartialEq, Eq)]
pub enum Kind {
    /// A call of a method, or of one that isn't there: a request where it has an id, and else a notification.
    Call(Option<Method>),
    /// An answer to a request of the server.
    Answer,
    /// Neither.
    Other,
}

/// What a message is.
#[tactic(auto, unfolding(crate::specs::Calls::kind_of))]
pub fn kind_of(message: &Value) -> Kind
    ensures value { result ≡ spec.kind_of (view message.now) }
{
    let has_id = id_in(message).is_some();
    match message.get("method").and_then(Value::as_str) {
        Some(name) => kind_of_call(message, has_id, name),
        None if has_id && has_outcome(message) => Kind::Answer,
        None => Kind::Other,
    }
}

// A message with a method: its id is a number or a text, where it has one.
fn kind_of_call(message: &Value, has_id: bool, name: &str) -> Kind
    ensures { result ≡ spec.kind_of_call (view message.now) has_id name.now }
{
    if has_id || message.get("id").is_none() {
        Kind::Call(method_named(name))
    } else {
        Kind::Other
    }
}

fn has_outcome(message: &Value) -> bool
    ensures { result ≡ spec.has_outcome (view message.now) }
{
    message.get("result").is_some() || message.get("error").is_some()
}

// The id of a message, which is a number or a text.
fn id_in(message: &Value) -> Option<&Value>
    ensures { option_map (λ id. view id.now) result ≡ spec.id_in (view message.now) }
{
    match message.get("id") {
        Some(id) if id.is_string() || id.is_number() => Some(id),
        _ => None,
    }
}

/// The JSON text of the id of a message, which is a number or a text: nothing where it has none.
pub fn id_text(alloc: Global, message: &Value) -> Result<Option<String>, AllocError>
    ensures value { IfOk result (λ id. spec.IsIdText (spec.id_in (view message.now)) id) }
{
    match id_in(message) {
        Some(id) => Ok(Some(id.to_string(alloc)?)),
        None => Ok(None),
    }
}

/// The message that bytes are, or nothing where they are no JSON (RFC 8259, 8.1: text is UTF-8).
pub fn message_of(alloc: Global, bytes: &[u8]) -> Result<Option<Value>, AllocError>
    ensures value { IfOk result (λ message. IfSome message
        (λ v. IsUtf8 bytes.now × (read bytes.now ≡ Some (view v)))) }
    ensures none { IfOk result (λ message. IfNone message
        (IsUtf8 bytes.now → read bytes.now ≡ None)) }
{
    match Value::from_slice(alloc, bytes) {
        Ok(message) => Ok(Some(message)),
        Err(error) => {
            let is_memory = error.is_memory();
            drop(error);
            if is_memory { Err(AllocError) } else { Ok(None) }
        }
    }
}
