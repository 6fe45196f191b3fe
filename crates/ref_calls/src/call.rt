//! Which call an object is.
ghost use Rattle.std.specs.Prelude.{◌≡◌, map, option_map};
ghost use Rattle.serde_json.specs.View.{view, members_view};
ghost use Rattle.ref_calls.specs.Calls as spec;
ghost use Rattle.ref_calls.specs.Outcome.{IsStop, Answers};

use crate::fault::{Wrong, field_error, in_field, plain_error};
use ref_json::Stop;
use serde_json::{Map, Value};
use std::alloc::Global;

/// The calls.
#[derive(Clone, Copy, PartialEq, Eq, Drop)]
pub enum Call {
    Hello,
    Uri,
    DraftOf,
    Yaml,
    Faults,
    Open,
    Lookup,
    Recursive,
    Enter,
    Follow,
    Scope,
    Places,
    Survey,
    References,
    Dangling,
    Compare,
    Vocabularies,
    Bundle,
    Close,
}

fn call_named(name: &str) -> Option<Call>
    ensures { result ≡ spec.call_named name.now }
{
    match name {
        "hello" => Some(Call::Hello),
        "uri" => Some(Call::Uri),
        "draft" => Some(Call::DraftOf),
        "yaml" => Some(Call::Yaml),
        "faults" => Some(Call::Faults),
        "open" => Some(Call::Open),
        "lookup" => Some(Call::Lookup),
        "recursive" => Some(Call::Recursive),
        "enter" => Some(Call::Enter),
        "follow" => Some(Call::Follow),
        "scope" => Some(Call::Scope),
        "places" => Some(Call::Places),
        "survey" => Some(Call::Survey),
        "references" => Some(Call::References),
        "dangling" => Some(Call::Dangling),
        "compare" => Some(Call::Compare),
        "vocabularies" => Some(Call::Vocabularies),
        "bundle" => Some(Call::Bundle),
        "close" => Some(Call::Close),
        _ => None,
    }
}

// The names of all calls.
const NAMES: [&str; 19] = [
    "hello",
    "uri",
    "draft",
    "yaml",
    "faults",
    "open",
    "lookup",
    "recursive",
    "enter",
    "follow",
    "scope",
    "places",
    "survey",
    "references",
    "dangling",
    "compare",
    "vocabularies",
    "bundle",
    "close",
];

/// The names of all calls.
pub fn call_names() -> &'static [&'static str]
    ensures value { map (λ name. name.now) result.now ≡ spec.call_names }
{
    &NAMES
}

// The members that a call knows besides `call` and `id`.
fn fields_of(call: Call) -> &'static [&'static str]
    ensures { map (λ field. field.now) result.now ≡ spec.fields_of call }
{
    match call {
        Call::Hello => &[],
        Call::Uri => &["base", "reference"],
        Call::DraftOf => &["schema", "draft"],
        Call::Yaml => &["text"],
        Call::Faults => &["documents", "remote", "draft"],
        Call::Open => &["documents", "remote", "parent", "draft", "limit", "faults"],
        Call::Lookup => &["registry", "base", "scope", "reference", "values"],
        Call::Recursive => &["registry", "base", "scope", "values"],
        Call::Enter => &["registry", "base", "scope", "schema", "draft"],
        Call::Follow => &["registry", "base", "scope", "values", "draft", "steps"],
        Call::Scope => &["registry", "scope"],
        Call::Vocabularies => &["registry", "schema", "draft"],
        Call::References => &["registry", "document", "candidates"],
        Call::Compare => &["registry", "after", "moves"],
        Call::Bundle => &["registry", "document"],
        Call::Places | Call::Survey | Call::Dangling | Call::Close => &["registry"],
    }
}

fn is_known(call: Call, field: &str) -> bool
    ensures { result ≡ spec.is_known call field.now }
{
    if field == "call" || field == "id" {
        return true;
    }
    for known in fields_of(call) {
        if *known == field {
            return true;
        }
    }
    false
}

// The first member, in byte order, that a call doesn't know.
fn unknown_in(call: Call, members: &Map<String, Value>) -> Option<&str>
    ensures { option_map (λ field. field.now) result
        ≡ spec.unknown_in call (members_view members.now.entries) }
{
    for (key, _value) in members.iter() {
        if !is_known(call, key.as_str()) {
            return Some(key.as_str());
        }
    }
    None
}

// The error of an object that is no call.
fn unknown_call(alloc: Global) -> Stop<Value>
    ensures { IsStop result spec.unknown_call }
{
    let error = plain_error(alloc, "UnknownCall", "The member 'call' names no call");
    in_field(alloc, error, "call")
}

/// The call that an object is, each of whose members the call knows.
#[tactic(auto, unfolding(crate::specs::Calls::call_of))]
pub fn call_of(alloc: Global, tree: &Value) -> Result<Call, Stop<Value>>
    ensures { Answers (λ call. call) result (spec.call_of (view tree.now)) }
{
    let Some(members) = tree.as_object() else {
        return Err(plain_error(alloc, "NotAnObject", "The line is no JSON object"));
    };
    let Some(call) = tree
        .get("call")
        .and_then(Value::as_str)
        .and_then(call_named)
    else {
        return Err(unknown_call(alloc));
    };
    match unknown_in(call, members) {
        Some(field) => Err(field_error(alloc, Wrong::UnknownField, field)),
        None => Ok(call),
    }
}
