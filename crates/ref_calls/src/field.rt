//! The members of calls.
ghost use Rattle.std.specs.Prelude.{◌≡◌};
ghost use Rattle.serde_json.specs.View.{view, items_view};
ghost use Rattle.ref_uri.specs.Targets.{uri_of};
ghost use Rattle.ref_definitions.specs.Fault.{as_invalid_uri};
ghost use Rattle.ref_calls.specs.Errors.{as_error};
ghost use Rattle.ref_calls.specs.Calls as spec;
ghost use Rattle.ref_calls.specs.Outcome.{Answers};

use crate::fault::{Wrong, fault_error, field_error, in_field};
use ref_draft::Draft;
use ref_error::Error;
use ref_json::Stop;
use ref_uri::Uri;
use ref_uri::uri::from_str;
use serde_json::Value;
use std::alloc::Global;

/// A member that is needed.
pub fn required<'t>(alloc: Global, tree: &'t Value, field: &str) -> Result<&'t Value, Stop<Value>>
    ensures { Answers (λ v. view v.now) result (spec.required_member field.now (view tree.now)) }
{
    match tree.get(field) {
        Some(value) => Ok(value),
        None => Err(field_error(alloc, Wrong::MissingField, field)),
    }
}

/// The text that a member is.
pub fn text_in<'t>(alloc: Global, value: &'t Value, field: &str) -> Result<&'t str, Stop<Value>>
    ensures { Answers (λ s. s.now) result (spec.text_in field.now (view value.now)) }
{
    match value.as_str() {
        Some(text) => Ok(text),
        None => Err(field_error(alloc, Wrong::InvalidField, field)),
    }
}

/// The whole number that a member is.
pub fn number_in(alloc: Global, value: &Value, field: &str) -> Result<usize, Stop<Value>>
    ensures { Answers (λ n. n) result (spec.number_in field.now (view value.now)) }
{
    match value.as_u64() {
        Some(number) => Ok(number as usize),
        None => Err(field_error(alloc, Wrong::InvalidField, field)),
    }
}

/// The items that a member has.
pub fn items_in<'t>(
    alloc: Global,
    value: &'t Value,
    field: &str,
) -> Result<&'t [Value], Stop<Value>>
    ensures { Answers (λ items. items_view items.now) result
        (spec.items_in field.now (view value.now)) }
{
    match value.as_array() {
        Some(items) => Ok(items.as_slice()),
        None => Err(field_error(alloc, Wrong::InvalidField, field)),
    }
}

// The URI that a text means.
fn uri_of_text(alloc: Global, text: &str) -> Result<Uri, Stop<Value>>
    ensures { Answers (λ u. u) result (as_error (as_invalid_uri (uri_of text.now))) }
{
    match from_str(alloc, text) {
        Ok(uri) => Ok(uri),
        Err(fault) => Err(fault_error(alloc, &Error::from(fault))),
    }
}

/// The URI that a text under a member means.
pub fn uri_in(alloc: Global, text: &str, field: &str) -> Result<Uri, Stop<Value>>
    ensures { Answers (λ u. u) result (spec.uri_in field.now text.now) }
{
    match uri_of_text(alloc, text) {
        Ok(uri) => Ok(uri),
        Err(stop) => Err(in_field(alloc, stop, field)),
    }
}

/// The URI that a value means, which is to be a text.
pub fn uri_at(alloc: Global, value: &Value, field: &str) -> Result<Uri, Stop<Value>>
    ensures { Answers (λ u. u) result (spec.uri_at field.now (view value.now)) }
{
    let text = text_in(alloc, value, field)?;
    uri_in(alloc, text, field)
}

/// Whether a member is `true`; it isn't where it is missing.
pub fn is_set(alloc: Global, tree: &Value, field: &str) -> Result<bool, Stop<Value>>
    ensures { Answers (λ b. b) result (spec.is_set field.now (view tree.now)) }
{
    let Some(value) = tree.get(field) else {
        return Ok(false);
    };
    match value.as_bool() {
        Some(is_set) => Ok(is_set),
        None => Err(field_error(alloc, Wrong::InvalidField, field)),
    }
}

/// Whether `faults` says that they are kept; it isn't there else.
#[tactic(auto, unfolding(crate::specs::Calls::keeps_faults))]
pub fn keeps_faults(alloc: Global, tree: &Value) -> Result<bool, Stop<Value>>
    ensures { Answers (λ b. b) result (spec.keeps_faults (view tree.now)) }
{
    let Some(value) = tree.get("faults") else {
        return Ok(false);
    };
    match value.as_str() {
        Some("keep") => Ok(true),
        _ => Err(field_error(alloc, Wrong::InvalidField, "faults")),
    }
}

/// The draft under `draft`, or else 2020-12.
#[tactic(auto, unfolding(crate::specs::Calls::draft_of))]
pub fn draft_of(alloc: Global, tree: &Value) -> Result<Draft, Stop<Value>>
    ensures { Answers (λ d. d) result (spec.draft_of (view tree.now)) }
{
    let Some(value) = tree.get("draft") else {
        return Ok(Draft::Draft202012);
    };
    match value.as_str().and_then(Draft::from_name) {
        Some(draft) => Ok(draft),
        None => Err(field_error(alloc, Wrong::InvalidField, "draft")),
    }
}

/// An object or a boolean.
#[tactic(auto, unfolding(crate::specs::Calls::schema_of))]
pub fn schema_of(alloc: Global, tree: &Value) -> Result<&Value, Stop<Value>>
    ensures { Answers (λ v. view v.now) result (spec.schema_of (view tree.now)) }
{
    let value = required(alloc, tree, "schema")?;
    if value.is_object() || value.is_boolean() {
        Ok(value)
    } else {
        Err(field_error(alloc, Wrong::InvalidField, "schema"))
    }
}

/// The URI under `base`.
#[tactic(auto, unfolding(crate::specs::Calls::base_of))]
pub fn base_of(alloc: Global, tree: &Value) -> Result<Uri, Stop<Value>>
    ensures { Answers (λ u. u) result (spec.base_of (view tree.now)) }
{
    let value = required(alloc, tree, "base")?;
    uri_at(alloc, value, "base")
}
