//! What a reference leads to, as it is printed.
use crate::listing::version_name;
use crate::members::push_site;
use ref_command_line::Stop;
use ref_draft::Draft;
use ref_messages::{Plain, push_json, push_member, push_quoted};
use ref_parts::{pointer_of, value_at};
use ref_workspace::follow::Found;
use ref_workspace::pointer::{path_to, position};
use ref_workspace::{Document, Workspace, World};
use referencing::Resolver;
use serde_json::Value;
use std::alloc::{AllocError, Global};

/// Adds the value that was found, and where it is: its file, line, column and pointer, what it is in a description and by which version, its draft
/// where a draft reads it, its base URI and the dynamic scope.
pub fn push_found(
    alloc: Global,
    out: &mut String,
    workspace: &Workspace,
    world: &World<'_>,
    found: &Found<'_>,
) -> Result<(), Stop> {
    let number = world.sources.get(found.document).copied().unwrap_or(0);
    let own = own_value(alloc, workspace.value(number), found.pointer.as_str())?;
    push_value(alloc, out, own.unwrap_or(found.value))?;
    push_line(alloc, out, workspace, number, found.pointer.as_str())?;
    let described = described_at(alloc, workspace, number, found.pointer.as_str())?;
    if let Some(Described { kind, version, .. }) = described {
        write!(out, "kind {kind} {version}\n")?;
    }
    push_scope(out, draft_by(described, found.draft), &found.resolver)?;
    Ok(())
}

/// Adds the same as an object on a line: `file`, `line`, `column`, `pointer`, `kind` and `version` in a description, `draft` where a draft reads it, `base`,
/// `scope`, inner to outer, and `value`.
pub fn push_found_object(
    alloc: Global,
    out: &mut String,
    workspace: &Workspace,
    world: &World<'_>,
    found: &Found<'_>,
) -> Result<(), Stop> {
    let number = world.sources.get(found.document).copied().unwrap_or(0);
    let pointer = found.pointer.as_str();
    let at = place_in(alloc, workspace.documents().get(number), pointer)?;
    push_site(alloc, out, workspace.name(number), at, pointer)?;
    let described = described_at(alloc, workspace, number, pointer)?;
    if let Some(Described { kind, version, .. }) = described {
        push_member(alloc, out, ",\"kind\":", kind)?;
        push_member(alloc, out, ",\"version\":", version)?;
    }
    if let Some(draft) = draft_by(described, found.draft) {
        push_member(alloc, out, ",\"draft\":", draft.name())?;
    }
    push_member(alloc, out, ",\"base\":", found.resolver.base_uri().as_str())?;
    push_scope_list(alloc, out, &found.resolver)?;
    let own = own_value(alloc, workspace.value(number), pointer)?;
    let text = own.unwrap_or(found.value).to_string(alloc)?;
    out.push_str(",\"value\":")?;
    push_json(out, text.as_str())?;
    out.push_str("}\n")?;
    Ok(())
}

fn push_scope_list(
    alloc: Global,
    out: &mut String,
    resolver: &Resolver<'_>,
) -> Result<(), AllocError> {
    out.push_str(",\"scope\":")?;
    let mut is_first = true;
    for uri in resolver.dynamic_scope().iter() {
        out.push(if is_first { '[' } else { ',' })?;
        push_quoted(alloc, out, uri.as_str())?;
        is_first = false;
    }
    out.push_str(if is_first { "[]" } else { "]" })
}

// The value at a pointer of a document as its file has it: what is read has `null` in place of a text that means no URI.
fn own_value<'v>(
    alloc: Global,
    root: Option<&'v Value>,
    pointer: &str,
) -> Result<Option<&'v Value>, AllocError> {
    let Some(root) = root else {
        return Ok(None);
    };
    match path_to(alloc, Some(root), pointer)? {
        Some(path) => Ok(value_at(root, path.as_slice())),
        None => Ok(None),
    }
}

fn push_value(alloc: Global, out: &mut String, value: &Value) -> Result<(), Stop> {
    let text = value.to_string_pretty(alloc)?;
    push_json(out, text.as_str())?;
    out.push('\n')?;
    Ok(())
}

// What an object of a description is, by which version, and whether a draft reads it: a schema from 3.1 on.
#[derive(Clone, Copy, Drop)]
struct Described {
    kind: &'static str,
    version: &'static str,
    is_by_draft: bool,
}

// The object of a description that is at a pointer of the document with a number.
fn described_at(
    alloc: Global,
    workspace: &Workspace,
    number: usize,
    pointer: &str,
) -> Result<Option<Described>, AllocError> {
    let description = workspace.description(alloc, false)?;
    for place in &description.places {
        let here = pointer_of(alloc, place.path.as_slice())?;
        if place.document == number && here.as_str() == pointer {
            if let Some(version) = place.reading.version {
                return Ok(Some(Described {
                    kind: place.reading.kind.name(),
                    version: version_name(version),
                    is_by_draft: place.reading.is_by_draft(),
                }));
            }
        }
    }
    Ok(None)
}

// The draft of what was found, where a draft reads it.
fn draft_by(described: Option<Described>, draft: Draft) -> Option<Draft> {
    match described {
        Some(described) if !described.is_by_draft => None,
        _ => Some(draft),
    }
}

fn push_scope(
    out: &mut String,
    draft: Option<Draft>,
    resolver: &Resolver<'_>,
) -> Result<(), AllocError> {
    if let Some(draft) = draft {
        write!(out, "draft {}\n", draft.name())?;
    }
    write!(out, "base {}\nscope", resolver.base_uri().as_str())?;
    for uri in resolver.dynamic_scope().iter() {
        write!(out, " {}", uri.as_str())?;
    }
    out.push('\n')
}

fn push_line(
    alloc: Global,
    out: &mut String,
    workspace: &Workspace,
    number: usize,
    pointer: &str,
) -> Result<(), AllocError> {
    let name = Plain(workspace.name(number));
    match place_in(alloc, workspace.documents().get(number), pointer)? {
        Some((line, column)) => { write!(out, "at {name}:{line}:{column}: '{}'\n", Plain(pointer)) }
        None => write!(out, "at {name}: '{}'\n", Plain(pointer)),
    }
}

// The line and the column of the value at a pointer, where a file has one.
fn place_in(
    alloc: Global,
    document: Option<&Document>,
    pointer: &str,
) -> Result<Option<(usize, usize)>, AllocError> {
    let Some(document) = document else {
        return Ok(None);
    };
    match path_to(alloc, document.value(), pointer)? {
        Some(path) => {
            let text = (document.text.format, document.text.text.as_str());
            Ok(Some(position(alloc, text, path.as_slice())?))
        }
        None => Ok(None),
    }
}
