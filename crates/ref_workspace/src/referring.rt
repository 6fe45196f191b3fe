//! The texts of a value that refer to something, wherever they are.
ghost use Rattle.std.specs.Prelude.{◌≡◌};
ghost use Rattle.ref_workspace.specs.Referring as spec;

use crate::follow::Start;
use ref_parts::{write_escaped_str, write_index};
use serde_json::{Map, Value};
use std::alloc::{AllocError, Global};

/// A text that refers to something.
#[derive(Drop)]
pub struct Referring<'v> {
    /// The pointer to the text.
    pub pointer: String,
    /// The text.
    pub text: &'v str,
    /// Whether it is in the mapping of a discriminator, where it may be the name of a schema.
    pub is_mapped: bool,
}

impl Referring<'_> {
    /// The place that it is at.
    pub fn start(&self, number: usize) -> Start<'_> {
        Start {
            number,
            pointer: self.pointer.as_str(),
        }
    }
}

// The keywords whose text refers to something.
const KEYWORDS: [&str; 5] = [
    "$ref",
    "$dynamicRef",
    "$recursiveRef",
    "$schema",
    "operationRef",
];

/// Whether the text under a key refers to something. A few comparisons of names; takes no memory.
pub fn is_referring(key: &str) -> bool
    ensures value { result ≡ spec.is_referring key.now }
{
    KEYWORDS.contains(&key)
}

// A value that is to be visited.
#[derive(Drop)]
struct Spot<'v> {
    pointer: String,
    value: &'v Value,
    // Whether the keys of the value are names that somebody gave.
    has_names: bool,
}

/// The texts of a value that refer to something: those under `$ref`, `$dynamicRef`, `$recursiveRef`, `$schema` and `operationRef`, and those in
/// the mapping of a discriminator; but for what is an example, a default, or a value to compare with. One pass, which takes a pointer for
/// each object and array.
pub fn references_in<'v>(alloc: Global, root: &'v Value) -> Result<Vec<Referring<'v>>, AllocError> {
    let mut list = Vec::new(alloc);
    let mut waiting = Vec::new(alloc);
    waiting.push(Spot {
        pointer: String::new(alloc),
        value: root,
        has_names: false,
    })?;
    for _ in 0..u64::MAX {
        let Some(spot) = waiting.pop() else {
            break;
        };
        visit(alloc, &spot, &mut list, &mut waiting)?;
    }
    Ok(list)
}

fn visit<'v>(
    alloc: Global,
    spot: &Spot<'v>,
    list: &mut Vec<Referring<'v>>,
    waiting: &mut Vec<Spot<'v>>,
) -> Result<(), AllocError> {
    match spot.value {
        Value::Object(members) => {
            for (key, value) in members {
                visit_member(alloc, spot, (key.as_str(), value), list, waiting)?;
            }
            Ok(())
        }
        Value::Array(items) => {
            for (index, value) in items.iter().enumerate() {
                if value.is_object() || value.is_array() {
                    let mut pointer = spot.pointer.clone()?;
                    pointer.push('/')?;
                    write_index(&mut pointer, index)?;
                    push_spot(waiting, pointer, value, false)?;
                }
            }
            Ok(())
        }
        _ => Ok(()),
    }
}

fn visit_member<'v>(
    alloc: Global,
    spot: &Spot<'v>,
    (key, value): (&'v str, &'v Value),
    list: &mut Vec<Referring<'v>>,
    waiting: &mut Vec<Spot<'v>>,
) -> Result<(), AllocError> {
    if let Some(text) = value.as_str() {
        if is_referring(key) && !spot.has_names {
            push(list, below(&spot.pointer, key)?, text, false)?;
        }
        return Ok(());
    }
    if !spot.has_names && is_passed(key, value) {
        return Ok(());
    }
    if !spot.has_names && key == "discriminator" {
        if let Some(mapping) = value.get("mapping").and_then(Value::as_object) {
            return push_mapped(alloc, &spot.pointer, mapping, list);
        }
    }
    if value.is_object() || value.is_array() {
        let are_names = !spot.has_names && has_names(key);
        push_spot(waiting, below(&spot.pointer, key)?, value, are_names)?;
    }
    Ok(())
}

/// The keys whose values have keys that somebody gave.
const NAMED: [&str; 22] = [
    "properties",
    "patternProperties",
    "$defs",
    "definitions",
    "dependentSchemas",
    "dependencies",
    "schemas",
    "responses",
    "parameters",
    "requestBodies",
    "headers",
    "securitySchemes",
    "links",
    "callbacks",
    "pathItems",
    "paths",
    "webhooks",
    "additionalOperations",
    "content",
    "encoding",
    "mediaTypes",
    // Of a description, in which these are objects; the examples of a schema are a list.
    "examples",
];

/// Whether the value under a key has keys that somebody gave. A few comparisons of names; takes no memory.
pub fn has_names(key: &str) -> bool
    ensures value { result ≡ spec.has_names key.now }
{
    NAMED.contains(&key)
}

// The keywords whose value is data.
const DATA: [&str; 4] = ["enum", "const", "default", "example"];

/// Whether the value under a key is data, in which nothing refers to something. A few comparisons of names; takes no memory.
pub fn is_data(key: &str) -> bool
    ensures value { result ≡ spec.is_data key.now }
{
    DATA.contains(&key)
}

/// Whether nothing in the value under a key refers to something.
pub(crate) fn is_passed(key: &str, value: &Value) -> bool {
    is_data(key) || key == "examples" && value.is_array()
}

fn push_mapped<'v>(
    alloc: Global,
    pointer: &String,
    mapping: &'v Map<String, Value>,
    list: &mut Vec<Referring<'v>>,
) -> Result<(), AllocError> {
    let front = format!(in alloc; "{}/discriminator/mapping", pointer.as_str())?;
    for (key, value) in mapping {
        if let Some(text) = value.as_str() {
            push(list, below(&front, key.as_str())?, text, true)?;
        }
    }
    Ok(())
}

// The pointer of a member.
fn below(pointer: &String, key: &str) -> Result<String, AllocError> {
    let mut pointer = pointer.clone()?;
    pointer.push('/')?;
    write_escaped_str(&mut pointer, key)?;
    Ok(pointer)
}

fn push<'v>(
    list: &mut Vec<Referring<'v>>,
    pointer: String,
    text: &'v str,
    is_mapped: bool,
) -> Result<(), AllocError> {
    list.push(Referring {
        pointer,
        text,
        is_mapped,
    })?;
    Ok(())
}

fn push_spot<'v>(
    waiting: &mut Vec<Spot<'v>>,
    pointer: String,
    value: &'v Value,
    has_names: bool,
) -> Result<(), AllocError> {
    waiting.push(Spot {
        pointer,
        value,
        has_names,
    })?;
    Ok(())
}
