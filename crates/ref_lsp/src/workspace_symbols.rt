//! Definitions and components of all documents, by name.
ghost use Rattle.std.specs.Prelude.{◌≡◌};
ghost use Rattle.ref_lsp.specs.Definitions as spec;

use crate::desk::Desk;
use crate::judged::range_of;
use crate::kinds::DEFINITIONS;
use ref_outline::Outline;
use ref_parts::{write_escaped_str, write_index};
use ref_protocol::pieces::{push_comma, push_location, push_text};
use ref_protocol::refusal::Refusal;
use serde_json::Value;
use std::alloc::{AllocError, Global};

// How many are listed at most.
const MOST: usize = 1000;

/// `workspace/symbol`: the definitions, at any depth, and the components whose names have the query in them, in any case.
pub fn workspace_symbols(desk: &Desk<'_>, params: &Value) -> Result<String, Refusal> {
    let alloc = desk.alloc();
    let Some(query) = params.get("query").and_then(Value::as_str) else {
        return Err(Refusal::NoParameters);
    };
    let mut query = String::from_str(alloc, query)?;
    query.make_ascii_lowercase();
    let mut out = String::from_str(alloc, "[")?;
    let mut left = MOST;
    for number in 0..desk.workspace.documents().len() {
        let pointers = pointers_in(desk, number, query.as_str())?;
        if !pointers.is_empty() && left > 0 {
            push_in(desk, number, pointers.as_slice(), &mut left, &mut out)?;
        }
    }
    out.push(']')?;
    Ok(out)
}

/// The pointers of the definitions of a value, at any depth, and of its components. One pass.
pub fn definitions_in(alloc: Global, root: &Value) -> Result<Vec<String>, AllocError> {
    let mut list = named_in(alloc, root)?;
    push_inner(alloc, &mut list, root)?;
    Ok(list)
}

// Those but for the definitions of what is in it.
fn named_in(alloc: Global, root: &Value) -> Result<Vec<String>, AllocError> {
    let mut list = Vec::new(alloc);
    for key in [
        "$defs",
        "definitions",
        "parameters",
        "responses",
        "securityDefinitions",
    ] {
        if DEFINITIONS.contains(&key) || root.get("swagger").is_some() {
            if let Some(value) = root.get(key) {
                push_names(alloc, &mut list, "", key, value)?;
            }
        }
    }
    if let Some(components) = root.get("components").and_then(Value::as_object) {
        for (key, value) in components {
            push_names(alloc, &mut list, "/components", key.as_str(), value)?;
        }
    }
    Ok(list)
}

fn push_names(
    alloc: Global,
    list: &mut Vec<String>,
    front: &str,
    key: &str,
    value: &Value,
) -> Result<(), AllocError> {
    let Some(members) = value.as_object() else {
        return Ok(());
    };
    for (name, _) in members {
        let mut pointer = String::from_str(alloc, front)?;
        pointer.push('/')?;
        write_escaped_str(&mut pointer, key)?;
        pointer.push('/')?;
        write_escaped_str(&mut pointer, name.as_str())?;
        list.push(pointer)?;
    }
    Ok(())
}

// A value that is to be visited, with the pointer to it.
#[derive(Drop)]
struct Spot<'v> {
    pointer: String,
    value: &'v Value,
    // Whether its keys are names that somebody gave.
    has_names: bool,
}

// Adds the pointers of the definitions of what is in a value.
fn push_inner(alloc: Global, list: &mut Vec<String>, root: &Value) -> Result<(), AllocError> {
    let mut waiting = Vec::new(alloc);
    waiting.push(Spot {
        pointer: String::new(alloc),
        value: root,
        has_names: false,
    })?;
    for _ in 0..u64::MAX {
        let Some(spot) = waiting.pop() else {
            break;
        };
        visit(alloc, &spot, list, &mut waiting)?;
    }
    Ok(())
}

fn visit<'v>(
    alloc: Global,
    spot: &Spot<'v>,
    list: &mut Vec<String>,
    waiting: &mut Vec<Spot<'v>>,
) -> Result<(), AllocError> {
    match spot.value {
        Value::Object(members) => {
            for (key, value) in members {
                if is_large(value) && !is_passed(spot.has_names, key.as_str()) {
                    visit_member(alloc, spot, (key.as_str(), value), list, waiting)?;
                }
            }
            Ok(())
        }
        Value::Array(items) => {
            for (index, value) in items.iter().enumerate() {
                if is_large(value) {
                    let mut pointer = spot.pointer.clone()?;
                    pointer.push('/')?;
                    write_index(&mut pointer, index)?;
                    push_spot(waiting, pointer, value, false)?;
                }
            }
            Ok(())
        }
        _ => Ok(()),
    }
}

fn visit_member<'v>(
    alloc: Global,
    spot: &Spot<'v>,
    (key, value): (&str, &'v Value),
    list: &mut Vec<String>,
    waiting: &mut Vec<Spot<'v>>,
) -> Result<(), AllocError> {
    let front = spot.pointer.as_str();
    if !front.is_empty() && are_definitions(spot.has_names, key) {
        push_names(alloc, list, front, key, value)?;
    }
    let are_names = has_names(front, spot.has_names, key);
    let mut pointer = spot.pointer.clone()?;
    pointer.push('/')?;
    write_escaped_str(&mut pointer, key)?;
    push_spot(waiting, pointer, value, are_names)
}

fn push_spot<'v>(
    waiting: &mut Vec<Spot<'v>>,
    pointer: String,
    value: &'v Value,
    has_names: bool,
) -> Result<(), AllocError> {
    waiting.push(Spot {
        pointer,
        value,
        has_names,
    })?;
    Ok(())
}

fn is_large(value: &Value) -> bool {
    value.is_object() || value.is_array()
}

// Whether the members of the value under a key are definitions, where the keys beside it are names that somebody gave, or keywords.
fn are_definitions(are_names: bool, key: &str) -> bool
    ensures { result ≡ spec.are_definitions are_names key.now }
{
    !are_names && DEFINITIONS.contains(&key)
}

// The keywords whose value is data, or has examples.
const DATA: [&str; 5] = ["enum", "const", "default", "example", "examples"];

/// Whether what is under a key is a value and no schema.
pub fn is_data(key: &str) -> bool
    ensures value { result ≡ spec.is_data key.now }
{
    DATA.contains(&key)
}

// Whether no definitions are in the value under a key.
fn is_passed(are_names: bool, key: &str) -> bool
    ensures { result ≡ spec.is_passed are_names key.now }
{
    !are_names && is_data(key)
}

// The keywords whose value has subschemas by names.
const NAMED: [&str; 4] = [
    "properties",
    "patternProperties",
    "dependentSchemas",
    "dependencies",
];

// Whether what is under a key, in the object at a pointer, has names as its keys.
fn has_names(front: &str, are_names: bool, key: &str) -> bool
    ensures { result ≡ spec.has_names front.now are_names key.now }
{
    !are_names && (DEFINITIONS.contains(&key) || (front == "/components" || NAMED.contains(&key)))
}

// Those of a document whose names have a query in them.
fn pointers_in(desk: &Desk<'_>, number: usize, query: &str) -> Result<Vec<String>, AllocError> {
    let alloc = desk.alloc();
    let mut list = Vec::new(alloc);
    let Some(root) = desk.workspace.value(number) else {
        return Ok(list);
    };
    for pointer in definitions_in(alloc, root)? {
        let mut name = String::from_str(alloc, last_of(pointer.as_str()))?;
        name.make_ascii_lowercase();
        if name.as_str().contains(query) {
            list.push(pointer)?;
        }
    }
    Ok(list)
}

fn last_of(pointer: &str) -> &str {
    match pointer.rsplit_once('/') {
        Some((_, name)) => name,
        None => pointer,
    }
}

fn push_in(
    desk: &Desk<'_>,
    number: usize,
    pointers: &[String],
    left: &mut usize,
    out: &mut String,
) -> Result<(), AllocError> {
    let alloc = desk.alloc();
    let (format, text) = desk.text_of(number);
    let outline = Outline::of(alloc, format, text)?;
    let uri = desk.client_uri(number)?;
    for pointer in pointers {
        if *left == 0 {
            break;
        }
        *left = left.saturating_sub(1);
        if let Some(node) = outline.at(pointer.as_str()) {
            let name = ref_parts::unescape_segment(alloc, last_of(pointer.as_str()))?;
            push_comma(out)?;
            push_text(alloc, out, "{\"name\":", name.as_str())?;
            let (start, end) = node.key.unwrap_or((node.start, node.start));
            out.push_str(",\"kind\":5,\"location\":")?;
            push_location(alloc, out, uri.as_str(), range_of(desk, text, start, end))?;
            out.push('}')?;
        }
    }
    Ok(())
}
