//! Files and folders that a client is going to move.
use crate::desk::Desk;
use crate::rename::{checked, edit_text, texts_of};
use ref_edits::{Given, moved_documents, moved_uri, rest_below};
use ref_files::Format;
use ref_further::survey_of;
use ref_protocol::paths::path_of;
use ref_protocol::refusal::Refusal;
use ref_uri::Uri;
use ref_workspace::View;
use serde_json::Value;
use std::alloc::{AllocError, Global};

// A file or a folder that is moved: its path, and the one that it is to have.
#[derive(Drop)]
struct Moved {
    from: String,
    to: String,
}

/// `workspace/willRenameFiles`: what is changed in which documents, so that references follow files and folders that get other paths; or `null`, where nothing is. Refused by
/// the reason why it can't be, or by what would differ.
pub fn will_rename(
    desk: &Desk<'_>,
    view: &View<'_, '_>,
    params: &Value,
) -> Result<String, Refusal> {
    let alloc = desk.alloc();
    let moved = moved_in(alloc, params)?;
    let Some(uris) = uris_after(desk, view, moved.as_slice())? else {
        return Ok(String::from_str(alloc, "null")?);
    };
    let texts = texts_of(desk, view)?;
    let survey = survey_of(alloc, &view.world.registry)?;
    let given = Given {
        registry: &view.world.registry,
        survey: &survey,
        texts: texts.as_slice(),
        draft: desk.workspace.draft(),
    };
    let plan = moved_documents(alloc, &given, uris);
    let edits = checked(alloc, &given, plan)?;
    if edits.is_empty() {
        return Ok(String::from_str(alloc, "null")?);
    }
    Ok(edit_text(desk, view, &given, edits.as_slice())?)
}

// The files and folders that parameters name.
fn moved_in(alloc: Global, params: &Value) -> Result<Vec<Moved>, Refusal> {
    let Some(files) = params.get("files").and_then(Value::as_array) else {
        return Err(Refusal::NoParameters);
    };
    let mut list = Vec::new(alloc);
    for file in files.iter() {
        let (Some(from), Some(to)) = (text_at(file, "oldUri"), text_at(file, "newUri")) else {
            return Err(Refusal::NoParameters);
        };
        if let (Some(from), Some(to)) = (path_of(alloc, from)?, path_of(alloc, to)?) {
            push_moved(&mut list, Moved { from, to })?;
        }
    }
    Ok(list)
}

fn text_at<'v>(value: &'v Value, key: &str) -> Option<&'v str> {
    value.get(key).and_then(Value::as_str)
}

fn push_moved(list: &mut Vec<Moved>, moved: Moved) -> Result<(), AllocError> {
    list.push(moved)?;
    Ok(())
}

// The URIs that the documents have after, by their numbers in the registry. Nothing where none of those that are there is moved.
fn uris_after(
    desk: &Desk<'_>,
    view: &View<'_, '_>,
    moved: &[Moved],
) -> Result<Option<Vec<Option<Uri>>>, Refusal> {
    let mut uris = Vec::new(desk.alloc());
    let mut is_any = false;
    for number in 0..view.world.registry.documents().len() {
        let uri = match view.world.sources.get(number) {
            Some(source) => uri_after(desk, *source, moved)?,
            None => missing_after(desk, view, number, moved)?,
        };
        is_any |= uri.is_some() && number < view.world.sources.len();
        push_uri(&mut uris, uri)?;
    }
    if is_any {
        return Ok(Some(uris));
    }
    Ok(None)
}

fn push_uri(uris: &mut Vec<Option<Uri>>, uri: Option<Uri>) -> Result<(), AllocError> {
    uris.push(uri)?;
    Ok(())
}

// The URI that a document that was read has after, where it is moved.
fn uri_after(desk: &Desk<'_>, source: usize, moved: &[Moved]) -> Result<Option<Uri>, Refusal> {
    if desk.workspace.opened() <= source {
        return Ok(None);
    }
    let alloc = desk.alloc();
    let path = desk.workspace.name(source);
    for one in moved {
        if let Some(rest) = rest_below(one.from.as_str(), path) {
            let to = [one.to.as_str(), rest].join(alloc, "")?;
            if Format::of_path(path) != Format::of_path(to.as_str()) {
                return Err(Refusal::Failed(
                    "with its new name a file would not be read as it is now, as JSON or as YAML",
                ));
            }
            return Ok(desk.uri_at(to.as_str())?);
        }
    }
    Ok(None)
}

// The URI that a document which isn't there has after: one below a folder that is moved would be there then.
fn missing_after(
    desk: &Desk<'_>,
    view: &View<'_, '_>,
    number: usize,
    moved: &[Moved],
) -> Result<Option<Uri>, AllocError> {
    let (None, Some(document)) = (
        &desk.settings.base,
        view.world.registry.documents().get(number),
    ) else {
        return Ok(None);
    };
    for one in moved {
        let (from, to) = (one.from.as_str(), one.to.as_str());
        if let Some(uri) = moved_uri(desk.alloc(), from, to, &document.uri)? {
            return Ok(Some(uri));
        }
    }
    Ok(None)
}
