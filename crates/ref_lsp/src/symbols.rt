//! The objects, arrays and boolean schemas of a document, as a tree.
ghost use Rattle.std.specs.Prelude.{◌≡◌, slice_get};
ghost use Rattle.ref_lsp.specs.Symbols as spec;

use crate::asked::asked_document;
use crate::desk::Desk;
use crate::judged::range_of;
use ref_outline::{Node, Outline};
use ref_parts::pointer_of;
use ref_protocol::pieces::{push_comma, push_number, push_range, push_text};
use ref_protocol::refusal::Refusal;
use ref_workspace::World;
use ref_workspace::world::world_among;
use serde_json::Value;
use std::alloc::{AllocError, Global};
use std::collections::BTreeSet;

/// `textDocument/documentSymbol`: the objects and arrays that are in others, and the boolean schemas, each in the one around it. A member is
/// called by its key, and an item by its index. Of a text that isn't sound, the boolean schemas are those of the last that was.
pub fn symbols(desk: &Desk<'_>, params: &Value) -> Result<String, Refusal> {
    let alloc = desk.alloc();
    let mut out = String::from_str(alloc, "[")?;
    if let Some(number) = asked_document(desk, params)? {
        let (format, text) = desk.text_of(number);
        let outline = Outline::of(alloc, format, text)?;
        let booleans = booleans_of(desk, number)?;
        push_all(desk, text, &outline, &booleans, &mut out)?;
    }
    out.push(']')?;
    Ok(out)
}

// The pointers to the boolean schemas of the document with a number, as far as they are found without other documents.
fn booleans_of(desk: &Desk<'_>, number: usize) -> Result<BTreeSet<String>, AllocError> {
    let alloc = desk.alloc();
    let mut there = vec![in alloc; false; desk.workspace.len()]?;
    if let Some(flag) = there.get_mut(number) {
        *flag = true;
    }
    let trees = desk.workspace.mended_among(alloc, there.as_slice())?;
    match world_among(alloc, &desk.workspace, trees.as_slice(), there.as_slice()) {
        Ok(world) => booleans_in(alloc, &world, number),
        Err(error) => {
            let is_memory = error.is_memory();
            drop(error);
            if is_memory {
                Err(AllocError)
            } else {
                Ok(BTreeSet::new(alloc))
            }
        }
    }
}

fn booleans_in(
    alloc: Global,
    world: &World<'_>,
    number: usize,
) -> Result<BTreeSet<String>, AllocError> {
    let mut pointers = BTreeSet::new(alloc);
    for place in &world.places(alloc)? {
        let is_own = world.sources.get(place.document).copied() == Some(number);
        if is_own && matches!(place.value, Value::Bool(_)) {
            pointers.insert(pointer_of(alloc, place.path.as_slice())?)?;
        }
    }
    Ok(pointers)
}

// Adds them: a node stays open until one comes that isn't in it. One that doesn't come after those before it is what an alias means, and is
// where that is written.
fn push_all(
    desk: &Desk<'_>,
    text: &str,
    outline: &Outline,
    booleans: &BTreeSet<String>,
    out: &mut String,
) -> Result<(), AllocError> {
    let mut open: Vec<usize> = Vec::new(desk.alloc());
    let mut hidden: Vec<bool> = Vec::new(desk.alloc());
    let mut next: usize = 0;
    for (number, node) in outline.nodes.iter().enumerate() {
        let is_hidden = node.start < next || is_in_hidden(hidden.as_slice(), node);
        hidden.push(is_hidden)?;
        let is_shown = node.is_large || booleans.contains(node.pointer.as_str());
        if is_hidden || !is_shown || node.above.is_none() {
            continue;
        }
        next = node.start.saturating_add(1);
        for _ in 0..open.len() {
            let Some(last) = open.last().copied() else {
                break;
            };
            if is_in(outline, node, last) {
                break;
            }
            open.pop();
            out.push_str("]}")?;
        }
        push_open(desk, text, node, out)?;
        open.push(number)?;
    }
    for _ in 0..open.len() {
        out.push_str("]}")?;
    }
    Ok(())
}

fn is_in_hidden(hidden: &[bool], node: &Node) -> bool {
    match node.above {
        Some(above) => hidden.get(above).copied().unwrap_or(false),
        None => false,
    }
}

// Whether a value is in the one with a number.
fn is_in(outline: &Outline, node: &Node, number: usize) -> bool
    ensures { result ≡ spec.is_in node.now (slice_get outline.now.nodes.items number) }
{
    match outline.nodes.get(number) {
        Some(outer) => outer.start <= node.start && node.end <= outer.end,
        None => false,
    }
}

// Whether a byte is white space.
fn is_blank(byte: u8) -> bool
    ensures { result ≡ spec.is_blank byte }
{
    byte == b' ' || byte == b'\t' || byte == b'\n' || byte == b'\r'
}

// Whether an array begins at an offset: by a bracket, or in a block of YAML by a dash and white space.
fn is_array(text: &str, start: usize) -> bool
    ensures { result ≡ spec.is_array text.now start }
{
    match text.as_bytes().get(start).copied() {
        Some(b'[') => true,
        Some(b'-') => match text.as_bytes().get(start.saturating_add(1)).copied() {
            Some(next) => is_blank(next),
            None => true,
        },
        _ => false,
    }
}

// The kind of a value in the protocol: a boolean, an array or an object.
fn kind_of(text: &str, node: &Node) -> usize
    ensures { result ≡ spec.kind_of text.now node.now }
{
    if !node.is_large {
        17
    } else if is_array(text, node.start) {
        18
    } else {
        19
    }
}

fn push_open(desk: &Desk<'_>, text: &str, node: &Node, out: &mut String) -> Result<(), AllocError> {
    let alloc = desk.alloc();
    let (start, end) = node.key.unwrap_or((node.start, node.start));
    let name = match node.pointer.as_str().rsplit_once('/') {
        Some((_, name)) => name,
        None => "",
    };
    let name = ref_parts::unescape_segment(alloc, name)?;
    push_comma(out)?;
    let shown = if name.as_str().is_empty() {
        "\"\""
    } else {
        name.as_str()
    };
    push_text(alloc, out, "{\"name\":", shown)?;
    push_number(out, ",\"kind\":", kind_of(text, node))?;
    push_range(
        out,
        ",\"range\":",
        range_of(desk, text, start, node.end.max(end)),
    )?;
    push_range(
        out,
        ",\"selectionRange\":",
        range_of(desk, text, start, end),
    )?;
    out.push_str(",\"children\":[")
}
