//! `hello`, `uri` and `draft`, which ask no registry.
ghost use Rattle.std.specs.Prelude.{◌≡◌, ◌++◌, map, codes, IfOk, option_map};
ghost use Rattle.serde_json.specs.Data.{string};
ghost use Rattle.serde_json.specs.Find.{get};
ghost use Rattle.serde_json.specs.View.{view};
ghost use Rattle.ref_uri.specs.Targets.{uri_against};
ghost use Rattle.ref_definitions.specs.Fault.{as_invalid_uri};
ghost use Rattle.ref_calls.specs.Calls.{call_names};
ghost use Rattle.ref_calls.specs.Errors.{as_error, in_field};
ghost use Rattle.ref_calls.specs.Objects.{object_of, texts};
ghost use Rattle.ref_calls.specs.Outcome.{Answers};
ghost use Rattle.ref_serve.specs.About as spec;

use ref_calls::call::call_names;
use ref_calls::fault::{fault_error, in_field};
use ref_calls::field::{draft_of, required, schema_of, text_in, uri_at, uri_in};
use ref_calls::members::{object_of, push_text, put_number, put_text};
use ref_error::Error;
use ref_json::Stop;
use ref_uri::Uri;
use ref_uri::uri::resolve_against;
use referencing::DEFAULT_RETRIEVAL_LIMIT;
use serde_json::{Map, Value, put};
use std::alloc::{AllocError, Global};

// The list of the names of calls.
fn names(alloc: Global) -> Result<Value, AllocError>
    ensures { IfOk result (λ list. view list ≡ texts call_names) }
{
    let mut list = Vec::new(alloc);
    for name in call_names() {
        push_text(alloc, &mut list, *name)?;
    }
    Ok(Value::Array(list))
}

// The limits.
fn limits(alloc: Global) -> Result<Value, AllocError>
    ensures { IfOk result (λ d. view d ≡ object_of spec.limit_members) }
{
    let mut members = Map::new(alloc);
    put_number(alloc, &mut members, "depth", 127)?;
    put_number(alloc, &mut members, "limit", DEFAULT_RETRIEVAL_LIMIT)?;
    Ok(Value::Object(members))
}

/// What the program is, and what it takes.
#[tactic(auto, unfolding(crate::specs::About::hello_result))]
pub fn hello(alloc: Global) -> Result<Value, AllocError>
    ensures { IfOk result (λ d. view d ≡ spec.hello_result) }
{
    let mut members = Map::new(alloc);
    put_text(alloc, &mut members, "program", "patchsard")?;
    put_text(alloc, &mut members, "version", "0.1.0")?;
    put_number(alloc, &mut members, "protocol", 1)?;
    put(&mut members, alloc, "calls", names(alloc)?)?;
    put(&mut members, alloc, "limits", limits(alloc)?)?;
    Ok(Value::Object(members))
}

// The URI under `base`, where it is there.
fn base_of(alloc: Global, tree: &Value) -> Result<Option<Uri>, Stop<Value>>
    ensures { Answers (option_map (λ u. u)) result
        (spec.base_at (get (codes "base") (view tree.now))) }
{
    match tree.get("base") {
        Some(value) => Ok(Some(uri_at(alloc, value, "base")?)),
        None => Ok(None),
    }
}

// The URI that a text means against a base.
fn against(alloc: Global, base: &Uri, reference: &str) -> Result<Uri, Stop<Value>>
    ensures { Answers (λ u. u) result
        (as_error (as_invalid_uri (uri_against base.now reference.now))) }
{
    match resolve_against(alloc, base.borrow(), reference) {
        Ok(uri) => Ok(uri),
        Err(fault) => Err(fault_error(alloc, &Error::from(fault))),
    }
}

// The URI that a text means, by itself or against a base.
fn meant(alloc: Global, base: Option<Uri>, reference: &str) -> Result<Uri, Stop<Value>>
    ensures { Answers (λ u. u) result (spec.uri_meant (option_map (λ u. u) base) reference.now) }
{
    let Some(base) = base else {
        return uri_in(alloc, reference, "reference");
    };
    match against(alloc, &base, reference) {
        Ok(uri) => Ok(uri),
        Err(stop) => Err(in_field(alloc, stop, "reference")),
    }
}

/// The URI that a text means, in normal form.
#[tactic(auto, unfolding(crate::specs::About::uri_result))]
pub fn uri(alloc: Global, tree: &Value) -> Result<Value, Stop<Value>>
    ensures { Answers view result (spec.uri_result (view tree.now)) }
{
    let base = base_of(alloc, tree)?;
    let value = required(alloc, tree, "reference")?;
    let reference = text_in(alloc, value, "reference")?;
    let uri = meant(alloc, base, reference)?;
    let text = Value::try_from_str(alloc, uri.as_str())?;
    Ok(object_of(alloc, "uri", text)?)
}

/// The draft of a schema.
#[tactic(auto, unfolding(crate::specs::About::draft_result))]
pub fn draft(alloc: Global, tree: &Value) -> Result<Value, Stop<Value>>
    ensures { Answers view result (spec.draft_result (view tree.now)) }
{
    let schema = schema_of(alloc, tree)?;
    let draft = draft_of(alloc, tree)?;
    let name = Value::try_from_str(alloc, draft.detect(schema).name())?;
    Ok(object_of(alloc, "draft", name)?)
}
