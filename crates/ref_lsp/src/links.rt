//! The references of a document, as links.
use crate::asked::{Target, asked_document, target_at, target_of};
use crate::definition::{followed, number_of};
use crate::desk::Desk;
use crate::judged::range_of;
use crate::references::{meant, references_at};
use ref_outline::Outline;
use ref_protocol::pieces::{push_comma, push_range, push_text};
use ref_protocol::refusal::Refusal;
use ref_workspace::View;
use ref_workspace::referring::Referring;
use serde_json::Value;
use std::alloc::AllocError;

/// `textDocument/documentLink`: each reference that leads to a value, with the document, the line and the column there.
pub fn links(desk: &Desk<'_>, view: &View<'_, '_>, params: &Value) -> Result<String, Refusal> {
    let alloc = desk.alloc();
    let mut out = String::from_str(alloc, "[")?;
    if let Some(number) = asked_document(desk, params)? {
        if let Some(root) = desk.workspace.value(number) {
            let (format, text) = desk.text_of(number);
            let outline = Outline::of(alloc, format, text)?;
            for referring in references_at(desk, number, root)? {
                push_link(desk, view, number, &referring, &outline, &mut out)?;
            }
        }
    }
    out.push(']')?;
    Ok(out)
}

fn push_link(
    desk: &Desk<'_>,
    view: &View<'_, '_>,
    number: usize,
    referring: &Referring<'_>,
    outline: &Outline,
    out: &mut String,
) -> Result<(), AllocError> {
    let alloc = desk.alloc();
    let Some(node) = outline.at(referring.pointer.as_str()) else {
        return Ok(());
    };
    let reference = meant(desk, number, referring)?;
    let Some(found) = followed(alloc, view, referring.start(number), reference.as_str())? else {
        return Ok(());
    };
    let Some(to) = number_of(view, &found) else {
        return Ok(());
    };
    let pointer = found.pointer.as_str();
    let Some(target) = target_in(desk, (number, to), outline, pointer)? else {
        return Ok(());
    };
    let (_, text) = desk.text_of(number);
    push_comma(out)?;
    push_range(
        out,
        "{\"range\":",
        range_of(desk, text, node.start, node.end),
    )?;
    let ((line, units), _) = target.name;
    let (line, column) = (line.saturating_add(1), units.saturating_add(1));
    let uri = format!(in alloc; "{}#L{line},{column}", target.uri.as_str())?;
    push_text(alloc, out, ",\"target\":", uri.as_str())?;
    out.push('}')
}

// The place at a pointer of the document to which a reference of another leads. Where both are one that is in no map, its text isn't
// outlined again.
fn target_in(
    desk: &Desk<'_>,
    (number, to): (usize, usize),
    outline: &Outline,
    pointer: &str,
) -> Result<Option<Target>, AllocError> {
    if to != number || desk.mapped_file(number)?.is_some() {
        return target_of(desk, to, pointer);
    }
    let uri = desk.client_uri(number)?;
    let (_, text) = desk.text_of(number);
    Ok(Some(target_at(desk, uri, text, outline, pointer)))
}
