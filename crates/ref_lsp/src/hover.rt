//! What is said of a place.
use crate::asked::{Asked, asked_place};
use crate::definition::{followed, number_of};
use crate::desk::Desk;
use crate::keys::is_schema;
use ref_protocol::pieces::{push_range, push_text};
use ref_protocol::refusal::Refusal;
use ref_workspace::View;
use ref_workspace::follow::{Found, Start};
use serde_json::Value;
use std::alloc::AllocError;

// The keywords under which a text names the schema that it is in.
const NAMES: [&str; 4] = ["$id", "id", "$anchor", "$dynamicAnchor"];

/// `textDocument/hover`: of a reference, where it leads, and what is there; of another key, of what names a schema, of `true` and `false`, and of
/// the brace that an object begins with, the base of the schema, its identifier and its anchors; or `null`.
pub fn hover(desk: &Desk<'_>, view: &View<'_, '_>, params: &Value) -> Result<String, Refusal> {
    let alloc = desk.alloc();
    let mut out = String::new(alloc);
    let Some(asked) = asked_place(desk, params)? else {
        out.push_str("null")?;
        return Ok(out);
    };
    match said(desk, view, &asked)? {
        Some(said) => {
            out.push_str(kind_of(desk))?;
            push_text(alloc, &mut out, ",\"value\":", said.as_str())?;
            out.push('}')?;
            push_range(&mut out, ",\"range\":", asked.range(desk))?;
            out.push('}')?;
        }
        None => out.push_str("null")?,
    }
    Ok(out)
}

// How what is said is written, as the client takes it.
fn kind_of(desk: &Desk<'_>) -> &'static str {
    if desk.is_plain {
        "{\"contents\":{\"kind\":\"plaintext\""
    } else {
        "{\"contents\":{\"kind\":\"markdown\""
    }
}

// What is around a text that is to be read as it is: nothing in plain text.
fn tick(desk: &Desk<'_>) -> &'static str {
    if desk.is_plain { "" } else { "`" }
}

fn said(desk: &Desk<'_>, view: &View<'_, '_>, asked: &Asked) -> Result<Option<String>, AllocError> {
    let alloc = desk.alloc();
    let start = Start {
        number: asked.number,
        pointer: asked.pointer.as_str(),
    };
    if let Some(reference) = asked.reference(desk)? {
        return match followed(alloc, view, start, reference.as_str())? {
            Some(found) => Ok(Some(said_of_target(desk, view, &found)?)),
            None => Ok(None),
        };
    }
    let (front, key) = start.pointer.rsplit_once('/').unwrap_or(("", ""));
    match value_at(desk, start) {
        Some(Value::String(_)) if NAMES.contains(&key) => {
            let number = start.number;
            let around = Start {
                number,
                pointer: front,
            };
            said_of_place(desk, view, around)
        }
        Some(Value::Bool(_)) if is_schema(asked.path()) => said_of_place(desk, view, start),
        Some(Value::Object(_)) if is_named(asked) => said_of_place(desk, view, start),
        _ => Ok(None),
    }
}

// The value at a place.
fn value_at<'d>(desk: &'d Desk<'_>, start: Start<'_>) -> Option<&'d Value> {
    desk.workspace.value(start.number)?.pointer(start.pointer)
}

// Whether the place is a key, or the first byte of a value.
fn is_named(asked: &Asked) -> bool {
    match &asked.part {
        Some(part) => part.is_key || part.start == asked.offset,
        None => false,
    }
}

// What is said of a reference. The base is that of the place, also where that was found by another URI of its document.
fn said_of_target(
    desk: &Desk<'_>,
    view: &View<'_, '_>,
    found: &Found<'_>,
) -> Result<String, AllocError> {
    let mut text = String::new(desk.alloc());
    let number = number_of(view, found).unwrap_or(0);
    let (name, pointer) = (desk.workspace.name(number), found.pointer.as_str());
    let tick = tick(desk);
    write!(text, "{tick}{name}#{pointer}{tick}\n\n")?;
    write!(text, "Draft {}", found.draft.name())?;
    let place = Start { number, pointer };
    if let Some(base) = view.base_at(desk.alloc(), place)? {
        write!(text, ", base {tick}{}{tick}", base.as_str())?;
    }
    push_notes(&mut text, tick, found.value)?;
    Ok(text)
}

// Adds the title, the description and the type of a value, where it has them.
fn push_notes(text: &mut String, tick: &str, value: &Value) -> Result<(), AllocError> {
    for key in ["title", "summary", "description"] {
        if let Some(note) = value.get(key).and_then(Value::as_str) {
            write!(text, "\n\n{note}")?;
        }
    }
    match value.get("type") {
        Some(Value::String(name)) => push_type(text, "\n\ntype ", tick, name.as_str()),
        Some(Value::Array(names)) => push_types(text, tick, names.as_slice()),
        _ => Ok(()),
    }
}

// Adds the names of types, of which a value has one.
fn push_types(text: &mut String, tick: &str, names: &[Value]) -> Result<(), AllocError> {
    let mut lead = "\n\ntype ";
    for name in names {
        if let Some(name) = name.as_str() {
            push_type(text, lead, tick, name)?;
            lead = ", ";
        }
    }
    Ok(())
}

fn push_type(text: &mut String, lead: &str, tick: &str, name: &str) -> Result<(), AllocError> {
    write!(text, "{lead}{tick}{name}{tick}")?;
    Ok(())
}

// What is said of the schema at a place: nothing where there is none.
fn said_of_place(
    desk: &Desk<'_>,
    view: &View<'_, '_>,
    start: Start<'_>,
) -> Result<Option<String>, AllocError> {
    let alloc = desk.alloc();
    let Some(value) = value_at(desk, start) else {
        return Ok(None);
    };
    let Some(base) = view.base_at(alloc, start)? else {
        return Ok(None);
    };
    let mut text = String::new(alloc);
    let tick = tick(desk);
    write!(text, "base {tick}{}{tick}", base.as_str())?;
    for key in NAMES {
        if let Some(name) = value.get(key).and_then(Value::as_str) {
            write!(text, "\n\n{key} {tick}{name}{tick}")?;
        }
    }
    push_notes(&mut text, tick, value)?;
    Ok(Some(text))
}
