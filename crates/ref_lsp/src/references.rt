//! Which references lead to a place.
ghost use Rattle.std.specs.Prelude.{◌≡◌};
ghost use Rattle.serde_json.specs.View.{view};
ghost use Rattle.ref_lsp.specs.Clients as spec;

use crate::asked::{Asked, asked_place, mapped, refers_at, target_of};
use crate::definition::{followed, number_of};
use crate::desk::Desk;
use crate::judged::range_of;
use crate::keys;
use ref_files::{Format, file_uri, last_name};
use ref_outline::Outline;
use ref_protocol::pieces::{push_comma, push_location};
use ref_protocol::refusal::Refusal;
use ref_workspace::View;
use ref_workspace::follow::Start;
use ref_workspace::referring::{Referring, references_in};
use serde_json::Value;
use std::alloc::AllocError;

// A place of a document.
#[derive(Drop)]
struct Place {
    number: usize,
    pointer: String,
}

/// `textDocument/references`: each text that leads to the place, or to where the reference there leads; and that place itself where
/// it is asked for.
pub fn references(desk: &Desk<'_>, view: &View<'_, '_>, params: &Value) -> Result<String, Refusal> {
    let Some(is_with) = with_declaration(params) else {
        return Err(Refusal::NoParameters);
    };
    let alloc = desk.alloc();
    let mut out = String::from_str(alloc, "[")?;
    if let Some(asked) = asked_place(desk, params)? {
        let place = place_of(desk, view, asked)?;
        if is_with {
            if let Some(target) = target_of(desk, place.number, place.pointer.as_str())? {
                push_location(alloc, &mut out, target.uri.as_str(), target.name)?;
            }
        }
        push_all(desk, view, &place, &mut out)?;
    }
    out.push(']')?;
    Ok(out)
}

// Whether the place itself is asked for too: nothing where the request has no context that says it.
fn with_declaration(params: &Value) -> Option<bool>
    ensures { result ≡ spec.with_declaration (view params.now) }
{
    params
        .pointer("/context/includeDeclaration")
        .and_then(Value::as_bool)
}

// Whether the value that is asked about names the object that has it.
fn is_name(desk: &Desk<'_>, asked: &Asked) -> bool {
    let Some(root) = desk.workspace.value(asked.number) else {
        return false;
    };
    match (root.pointer(asked.pointer.as_str()), asked.key()) {
        (Some(value), Some(key)) => keys::is_name(key, value),
        _ => false,
    }
}

// The place whose references are asked for.
fn place_of(desk: &Desk<'_>, view: &View<'_, '_>, asked: Asked) -> Result<Place, AllocError> {
    let alloc = desk.alloc();
    if let Some(reference) = asked.reference(desk)? {
        let start = Start {
            number: asked.number,
            pointer: asked.pointer.as_str(),
        };
        if let Some(found) = followed(alloc, view, start, reference.as_str())? {
            if let Some(number) = number_of(view, &found) {
                return Ok(Place {
                    number,
                    pointer: found.pointer,
                });
            }
        }
    }
    let is_name = is_name(desk, &asked);
    let Asked {
        number,
        pointer,
        ..
    } = asked;
    if is_name {
        if let Some((front, _)) = pointer.as_str().rsplit_once('/') {
            let pointer = String::from_str(alloc, front)?;
            return Ok(Place { number, pointer });
        }
    }
    Ok(Place { number, pointer })
}

// Adds each text that leads to a place.
fn push_all(
    desk: &Desk<'_>,
    view: &View<'_, '_>,
    place: &Place,
    out: &mut String,
) -> Result<(), AllocError> {
    for number in 0..desk.workspace.len() {
        let pointers = pointers_in(desk, view, place, number)?;
        if !pointers.is_empty() {
            push_in(desk, number, pointers.as_slice(), out)?;
        }
    }
    Ok(())
}

// The pointers to those of a document.
fn pointers_in(
    desk: &Desk<'_>,
    view: &View<'_, '_>,
    place: &Place,
    number: usize,
) -> Result<Vec<String>, AllocError> {
    let alloc = desk.alloc();
    let mut pointers = Vec::new(alloc);
    let Some(root) = desk.workspace.value(number) else {
        return Ok(pointers);
    };
    for referring in references_at(desk, number, root)? {
        if leads_to(desk, view, &referring, number, place)? {
            let Referring { pointer, .. } = referring;
            pointers.push(pointer)?;
        }
    }
    Ok(pointers)
}

// Adds what is at pointers of a document.
fn push_in(
    desk: &Desk<'_>,
    number: usize,
    pointers: &[String],
    out: &mut String,
) -> Result<(), AllocError> {
    if let Some(file) = desk.mapped_file(number)? {
        let uri = file_uri(desk.alloc(), file.path.as_str())?;
        let text = (file.format, file.text.as_str());
        return push_places(desk, uri.as_str(), text, pointers, out);
    }
    let uri = desk.client_uri(number)?;
    push_places(desk, uri.as_str(), desk.text_of(number), pointers, out)
}

fn push_places(
    desk: &Desk<'_>,
    uri: &str,
    (format, text): (Format, &str),
    pointers: &[String],
    out: &mut String,
) -> Result<(), AllocError> {
    let alloc = desk.alloc();
    let outline = Outline::of(alloc, format, text)?;
    for pointer in pointers {
        if let Some(node) = outline.at(pointer.as_str()) {
            push_comma(out)?;
            let range = range_of(desk, text, node.start, node.end);
            push_location(alloc, out, uri, range)?;
        }
    }
    Ok(())
}

/// The texts of the document with a number, whose value this is, that refer to something by their drafts.
pub fn references_at<'v>(
    desk: &Desk<'_>,
    number: usize,
    root: &'v Value,
) -> Result<Vec<Referring<'v>>, AllocError> {
    let alloc = desk.alloc();
    let mut list = Vec::new(alloc);
    for referring in references_in(alloc, root)? {
        if refers(desk, number, &referring) {
            list.push(referring)?;
        }
    }
    Ok(list)
}

// Whether a text of the document with a number refers to something by its draft: one in a mapping does.
fn refers(desk: &Desk<'_>, number: usize, referring: &Referring<'_>) -> bool {
    let pointer = referring.pointer.as_str();
    referring.is_mapped || refers_at(desk, number, pointer, last_name(pointer))
}

/// The text that is followed for one that refers to something.
pub fn meant(
    desk: &Desk<'_>,
    number: usize,
    referring: &Referring<'_>,
) -> Result<String, AllocError> {
    if referring.is_mapped {
        return mapped(desk, number, referring.text);
    }
    String::from_str(desk.alloc(), referring.text)
}

fn leads_to(
    desk: &Desk<'_>,
    view: &View<'_, '_>,
    referring: &Referring<'_>,
    number: usize,
    place: &Place,
) -> Result<bool, AllocError> {
    let reference = meant(desk, number, referring)?;
    let start = referring.start(number);
    let Some(found) = followed(desk.alloc(), view, start, reference.as_str())? else {
        return Ok(false);
    };
    Ok(
        number_of(view, &found) == Some(place.number)
            && found.pointer.as_str() == place.pointer.as_str(),
    )
}
