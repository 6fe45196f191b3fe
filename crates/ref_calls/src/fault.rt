//! Error objects.
ghost use Rattle.std.specs.Prelude.{◌≡◌, true, IfOk, OnOk, IsErr, option_map};
ghost use Rattle.serde_json.specs.Data.{no_members};
ghost use Rattle.serde_json.specs.View.{view, members_view};
ghost use Rattle.ref_definitions.specs.Fault.{Fault};
ghost use Rattle.ref_error.specs.Errors.{is_memory, SaysFault};
ghost use Rattle.ref_calls.specs.Objects.{with_all};
ghost use Rattle.ref_calls.specs.Errors as spec;
ghost use Rattle.ref_calls.specs.Outcome.{IsStop, IsChanged};

use crate::members::{Members, put_number, put_text};
use crate::why::NotJson;
use ref_error::Error;
use ref_error::laws::errors_say_faults;
use ref_json::Stop;
use serde_json::{Map, Value, put};
use std::alloc::{AllocError, Global};

/// What is wrong with a member of a call.
#[derive(Clone, Copy, PartialEq, Eq, Drop)]
pub enum Wrong {
    /// The call doesn't know it.
    UnknownField,
    /// The call needs it, and it isn't there.
    MissingField,
    /// It has the wrong type or form.
    InvalidField,
    /// No open registry has its number.
    UnknownRegistry,
    /// No scope that is kept for the registry has its number.
    UnknownScope,
}

impl Wrong {
    fn name(self) -> &'static str
        ensures { result.now ≡ spec.wrong_name self }
    {
        match self {
            Wrong::UnknownField => "UnknownField",
            Wrong::MissingField => "MissingField",
            Wrong::InvalidField => "InvalidField",
            Wrong::UnknownRegistry => "UnknownRegistry",
            Wrong::UnknownScope => "UnknownScope",
        }
    }

    fn text(self) -> &'static str
        ensures { result.now ≡ spec.wrong_text self }
    {
        match self {
            Wrong::UnknownField => "Unknown member",
            Wrong::MissingField => "Missing member",
            Wrong::InvalidField => "Wrong type or form of the member",
            Wrong::UnknownRegistry => "No open registry has the number under",
            Wrong::UnknownScope => "No kept scope of the registry has the number under",
        }
    }
}

/// The members of an error: its name and its message.
pub fn error_members(alloc: Global, name: &str, message: &str) -> Result<Members, AllocError>
    ensures { IfOk result
        (λ m. members_view m.entries
        ≡ with_all (spec.error_members name.now message.now) no_members) }
{
    let mut members = Map::new(alloc);
    put_text(alloc, &mut members, "name", name)?;
    put_text(alloc, &mut members, "message", message)?;
    Ok(members)
}

/// An error without further members.
pub fn plain_error(alloc: Global, name: &str, message: &str) -> Stop<Value>
    ensures { IsStop result (spec.plain_error name.now message.now) }
{
    match error_members(alloc, name, message) {
        Ok(members) => Stop::Because(Value::Object(members)),
        Err(_) => Stop::Memory,
    }
}

fn not_json_members(alloc: Global, reason: NotJson, offset: usize) -> Result<Members, AllocError>
    ensures { IfOk result
        (λ m. members_view m.entries
        ≡ with_all (spec.not_json_members reason offset) no_members) }
{
    let mut members = error_members(alloc, "NotJson", reason.text())?;
    put_text(alloc, &mut members, "reason", reason.name())?;
    put_number(alloc, &mut members, "offset", offset)?;
    Ok(members)
}

/// The error of a line that is no JSON: why, and the place where it can't be read, in bytes.
#[tactic(auto, unfolding(crate::specs::Errors::not_json))]
pub fn not_json(alloc: Global, reason: NotJson, offset: usize) -> Stop<Value>
    ensures { IsStop result (spec.not_json reason offset) }
{
    match not_json_members(alloc, reason, offset) {
        Ok(members) => Stop::Because(Value::Object(members)),
        Err(_) => Stop::Memory,
    }
}

fn not_yaml_members(
    alloc: Global,
    reason: &str,
    sentence: &str,
    offset: usize,
) -> Result<Members, AllocError>
    ensures { IfOk result
        (λ m. members_view m.entries
        ≡ with_all (spec.not_yaml_members reason.now sentence.now offset) no_members) }
{
    let mut members = error_members(alloc, "NotYaml", sentence)?;
    put_text(alloc, &mut members, "reason", reason)?;
    put_number(alloc, &mut members, "offset", offset)?;
    Ok(members)
}

/// The error of a text that isn't read as YAML, with the name of what is wrong, a sentence on it, and the place where it is, in bytes.
#[tactic(auto, unfolding(crate::specs::Errors::not_yaml))]
pub fn not_yaml(alloc: Global, reason: &str, sentence: &str, offset: usize) -> Stop<Value>
    ensures { IsStop result (spec.not_yaml reason.now sentence.now offset) }
{
    match not_yaml_members(alloc, reason, sentence, offset) {
        Ok(members) => Stop::Because(Value::Object(members)),
        Err(_) => Stop::Memory,
    }
}

/// An error with one more member.
pub fn put_member(alloc: Global, error: Value, key: &str, value: Value) -> Result<Value, AllocError>
    ensures { IfOk result (λ d. view d ≡ spec.with_member key.now (view value) (view error)) }
{
    match error {
        Value::Object(members) => {
            let mut members = members;
            put(&mut members, alloc, key, value)?;
            Ok(Value::Object(members))
        }
        other => Ok(other),
    }
}

fn with_member(alloc: Global, stop: Stop<Value>, key: &str, value: Value) -> Stop<Value>
    ensures { IsChanged (λ error. spec.with_member key.now (view value) error) stop result }
{
    let Stop::Because(error) = stop else {
        return Stop::Memory;
    };
    match put_member(alloc, error, key, value) {
        Ok(error) => Stop::Because(error),
        Err(_) => Stop::Memory,
    }
}

/// An error with the member of the call that it is about.
pub fn in_field(alloc: Global, stop: Stop<Value>, field: &str) -> Stop<Value>
    ensures { IsChanged (spec.with_field field.now) stop result }
{
    match Value::try_from_str(alloc, field) {
        Ok(text) => with_member(alloc, stop, "field", text),
        Err(_) => Stop::Memory,
    }
}

/// An error with the number of the item of a list that it is about.
pub fn at_index(alloc: Global, stop: Stop<Value>, index: usize) -> Stop<Value>
    ensures { IsChanged (spec.with_index index) stop result }
{
    with_member(alloc, stop, "index", Value::from(index))
}

fn field_members(alloc: Global, wrong: Wrong, field: &str) -> Result<Members, AllocError>
    ensures { IfOk result
        (λ m. members_view m.entries ≡ with_all (spec.field_members wrong field.now) no_members) }
{
    let text = wrong.text();
    let message = format!(in alloc; "{text} '{field}'")?;
    let mut members = error_members(alloc, wrong.name(), message.as_str())?;
    put_text(alloc, &mut members, "field", field)?;
    Ok(members)
}

/// The error of a member.
#[tactic(auto, unfolding(crate::specs::Errors::field_error))]
pub fn field_error(alloc: Global, wrong: Wrong, field: &str) -> Stop<Value>
    ensures { IsStop result (spec.field_error wrong field.now) }
{
    match field_members(alloc, wrong, field) {
        Ok(members) => Stop::Because(Value::Object(members)),
        Err(_) => Stop::Memory,
    }
}

// The name of a fault.
fn name_of(error: &Error) -> &'static str
    ensures { (fault : Fault) → SaysFault error.now fault → result.now ≡ spec.fault_name fault }
{
    match error {
        Error::Unretrievable { .. } => "Unretrievable",
        Error::PointerToNowhere { .. } => "PointerToNowhere",
        Error::InvalidPercentEncoding { .. } => "InvalidPercentEncoding",
        Error::InvalidArrayIndex { .. } => "InvalidArrayIndex",
        Error::NoSuchAnchor { .. } => "NoSuchAnchor",
        Error::InvalidAnchor { .. } => "InvalidAnchor",
        Error::InvalidUri(_) => "InvalidUri",
        Error::UnknownSpecification { .. } => "UnknownSpecification",
        Error::CircularMetaschema { .. } => "CircularMetaschema",
        Error::RetrievalLimit { .. } => "RetrievalLimit",
        Error::Memory(_) => "OutOfMemory",
    }
}

// The document that is wanted and isn't there: its URI, and by what it is wanted, where that is told.
fn wanted_of(error: &Error) -> Option<(&str, Option<&'static str>)>
    ensures { (fault : Fault) → SaysFault error.now fault
        → option_map (λ w. (w.0.now, option_map (λ k. k.now) w.1)) result
        ≡ spec.wanted_document fault }
{
    match error {
        Error::Unretrievable { uri, .. } => Some((uri.as_str(), Some("reference"))),
        Error::UnknownSpecification { specification } => {
            Some((specification.as_str(), Some("meta-schema")))
        }
        Error::RetrievalLimit { uri, .. } => Some((uri.as_str(), None)),
        _ => None,
    }
}

// Puts by what it is wanted, where that is told.
fn put_kind(alloc: Global, members: &mut Members, kind: Option<&str>) -> Result<(), AllocError>
    ensures { OnOk result (members_view members.new.entries
        ≡ with_all (spec.kind_member (option_map (λ k. k.now) kind.entry))
        (members_view members.old.entries)) }
{
    match kind {
        Some(kind) => put_text(alloc, members, "kind", kind),
        None => Ok(()),
    }
}

// Puts the document that is wanted and isn't there.
fn put_wanted(alloc: Global, members: &mut Members, error: &Error) -> Result<(), AllocError>
    ensures { (fault : Fault) → SaysFault error.now fault
        → OnOk result (members_view members.new.entries
        ≡ with_all (spec.wanted_members (spec.wanted_document fault))
        (members_view members.old.entries)) }
{
    match wanted_of(error) {
        Some((uri, kind)) => {
            put_text(alloc, members, "uri", uri)?;
            put_kind(alloc, members, kind)
        }
        None => Ok(()),
    }
}

/// The members of a fault's error. Running out of memory is none.
pub fn fault_members(alloc: Global, error: &Error) -> Result<Members, AllocError>
    ensures members { (fault : Fault) → SaysFault error.now fault
        → IfOk result (λ m. members_view m.entries
        ≡ with_all (spec.fault_members fault) no_members) }
    ensures memory { is_memory error.now ≡ true → IsErr result }
{
    if error.is_memory() {
        return Err(AllocError);
    }
    errors_say_faults();
    let message = format!(in alloc; "{error}")?;
    let mut members = error_members(alloc, name_of(error), message.as_str())?;
    put_wanted(alloc, &mut members, error)?;
    Ok(members)
}

/// The error of a fault.
#[tactic(auto, unfolding(crate::specs::Errors::fault_error))]
pub fn fault_error(alloc: Global, error: &Error) -> Stop<Value>
    ensures { spec.IsStopOf error.now result }
{
    match fault_members(alloc, error) {
        Ok(members) => Stop::Because(Value::Object(members)),
        Err(_) => Stop::Memory,
    }
}
