//! Keys on the way to a value.
ghost use Rattle.std.specs.Prelude.{◌≡◌, false, option_map};
ghost use Rattle.std.specs.Option.{option_map_or};
ghost use Rattle.serde_json.specs.View.{view};
ghost use Rattle.ref_workspace.specs.Referring as keys;
ghost use Rattle.ref_lsp.specs.Keys as spec;

use ref_draft::Draft;
use ref_positions::Step;
use ref_workspace::referring::{has_names, is_data, is_referring};
use serde_json::Value;

/// The key of a step to a member.
pub fn key_of(step: &Step) -> Option<&str>
    ensures value { option_map (λ key. key.now) result ≡ spec.key_of step.now }
{
    match step {
        Step::Member(key) => Some(key.as_str()),
        Step::Item(_) => None,
    }
}

/// The key of the step of a path that so many others come after, where there is one and it is to a member.
pub fn key_before(path: &[Step], after: usize) -> Option<&str>
    ensures value { option_map (λ key. key.now) result ≡ spec.key_before after path.now }
{
    if path.len() <= after {
        return None;
    }
    key_of(&path[path.len() - 1 - after])
}

/// Whether a key is there and is a name.
pub fn is_key(key: Option<&str>, name: &str) -> bool
    ensures value { result ≡ spec.is_key name.now (option_map (λ own. own.now) key.entry) }
{
    match key {
        Some(own) => own == name,
        None => false,
    }
}

/// Whether the value at a path is in the mapping of a discriminator.
pub fn is_mapped(path: &[Step]) -> bool
    ensures value { result ≡ spec.is_mapped path.now }
{
    is_key(key_before(path, 2), "discriminator")
        && is_key(key_before(path, 1), "mapping")
        && key_before(path, 0).is_some()
}

/// Whether the text at a path refers to something, by the keys on the way to it. A step for each.
pub fn is_reference(path: &[Step]) -> bool
    ensures value { result ≡ spec.is_reference path.now }
{
    let mut rest = path;
    let mut are_names = false;
    'steps: while let [step, more @ ..] = rest {
        if !are_names && is_reference_after(step, more) {
            return true;
        }
        if !are_names && is_passed(step, more) {
            return false;
        }
        are_names = names_after(are_names, step);
        rest = more;
    }
    false
}

// Whether a text at the end of steps refers to something, of which the first is to a member under a keyword.
fn is_reference_after(step: &Step, rest: &[Step]) -> bool
    ensures { result ≡ spec.is_reference_after step.now rest.now }
{
    match rest {
        [] => refers(key_of(step)),
        [next, last] => {
            is_key(key_of(step), "discriminator")
                && is_key(key_of(next), "mapping")
                && key_of(last).is_some()
        }
        _ => false,
    }
}
// Whether the text under a key refers to something.
fn refers(key: Option<&str>) -> bool
    ensures { result ≡ option_map_or keys.is_referring (option_map (λ own. own.now) key.entry) false }
{
    match key {
        Some(key) => is_referring(key),
        None => false,
    }
}

fn is_item(rest: &[Step]) -> bool
    ensures { result ≡ spec.is_item rest.now }
{
    match rest {
        [Step::Item(_), ..] => true,
        _ => false,
    }
}

// Whether nothing on the way after a step refers to something, where its key is a keyword.
fn is_passed(step: &Step, rest: &[Step]) -> bool
    ensures { result ≡ spec.is_passed step.now rest.now }
{
    match key_of(step) {
        Some(key) => is_data(key) || key == "examples" && is_item(rest),
        None => false,
    }
}

// Whether the keys after a step are names that somebody gave.
fn names_after(are_names: bool, step: &Step) -> bool
    ensures { result ≡ spec.names_after are_names step.now }
{
    if are_names {
        return false;
    }
    match key_of(step) {
        Some(key) => has_names(key),
        None => false,
    }
}

/// Whether a draft has a keyword that refers: one for each but `$dynamicRef` and `$recursiveRef`.
pub fn has_keyword(draft: Draft, key: &str) -> bool
    ensures value { result ≡ spec.has_keyword draft key.now }
{
    if key == "$dynamicRef" {
        matches!(draft, Draft::Draft202012 | Draft::Unknown)
    } else if key == "$recursiveRef" {
        draft == Draft::Draft201909
    } else {
        true
    }
}

// The keys whose text names the object that has it.
const NAMES: [&str; 4] = ["$id", "id", "$anchor", "$dynamicAnchor"];

/// Whether the value under a key names the object that has it. Under such a key there may be a schema too, as of a property `id`.
pub fn is_name(key: &str, value: &Value) -> bool
    ensures value { result ≡ spec.is_name key.now (view value.now) }
{
    if value.is_string() {
        NAMES.contains(&key)
    } else {
        value.is_boolean() && key == "$recursiveAnchor"
    }
}

// The keywords under which there is a schema.
const SCHEMAS: [&str; 12] = [
    "additionalItems",
    "additionalProperties",
    "contains",
    "contentSchema",
    "else",
    "if",
    "items",
    "not",
    "propertyNames",
    "then",
    "unevaluatedItems",
    "unevaluatedProperties",
];

// The keywords under which there are schemas, in an object or an array.
const SETS: [&str; 11] = [
    "$defs",
    "allOf",
    "anyOf",
    "definitions",
    "dependencies",
    "dependentSchemas",
    "items",
    "oneOf",
    "patternProperties",
    "prefixItems",
    "properties",
];

/// Whether the value at a path is a schema, where it is `true` or `false`.
pub fn is_schema(path: &[Step]) -> bool
    ensures value { result ≡ spec.is_schema path.now }
{
    has_set(key_before(path, 1)) || has_schema(key_before(path, 0))
}

// Whether schemas are under a key.
fn has_set(key: Option<&str>) -> bool
    ensures { result ≡ spec.has_set (option_map (λ own. own.now) key.entry) }
{
    match key {
        Some(key) => SETS.contains(&key),
        None => false,
    }
}

// Whether a schema is under a key.
fn has_schema(key: Option<&str>) -> bool
    ensures { result ≡ spec.has_schema (option_map (λ own. own.now) key.entry) }
{
    match key {
        Some(key) => SCHEMAS.contains(&key),
        None => false,
    }
}
