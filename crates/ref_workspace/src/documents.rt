//! What may be meant by a reference into a document that isn't there.
use crate::resources::{ENDS, Resources};
use crate::suggestions::Meant;
use crate::workspace::Workspace;
use ref_draft::ResourceRef;
use ref_files::{folder_of, last_name, names_of};
use ref_messages::Suggester;
use ref_uri::UriFault;
use ref_uri::uri::resolve_against;
use std::alloc::{AllocError, Global};

/// What may be meant by the text of a reference from a document that was resolved to a URI that none has: a place of the document itself, where the `#`
/// was forgotten; a document whose URI ends in `.json`, `.yaml` or `.yml`; one that is meant without a slash at the end; one that is meant with a slash at the
/// beginning, or without it; or one whose name is a letter or two away, or has other cases.
pub fn meant_document(
    alloc: Global,
    suggester: &mut Suggester,
    (workspace, resources): (&Workspace, &Resources<'_>),
    source: usize,
    (text, uri): (&str, &str),
) -> Result<Option<Meant>, AllocError> {
    suggester.begin();
    if let Some(meant) = meant_fragment(alloc, workspace, resources, source, text)? {
        return Ok(Some(Meant::only(meant)));
    }
    let (front, hash, fragment) = match text.split_once('#') {
        Some((front, fragment)) => (front, "#", fragment),
        None => (text, "", ""),
    };
    if let Some((end, is_only)) = missing_end(alloc, resources, uri)? {
        let text = format!(in alloc; "{front}{end}{hash}{fragment}")?;
        return Ok(Some(Meant { text, is_only }));
    }
    if let Some(front) = without_end_slash(workspace, resources, source, (front, uri)) {
        let text = format!(in alloc; "{front}{hash}{fragment}")?;
        return Ok(Some(Meant::only(text)));
    }
    if let Some(front) = with_other_slash(alloc, workspace, resources, source, (front, uri))? {
        let text = format!(in alloc; "{front}{hash}{fragment}")?;
        return Ok(Some(Meant::only(text)));
    }
    let best = resources.close_uri(alloc, suggester, uri)?;
    let Some(close) = best.name else {
        return Ok(None);
    };
    if is_uri_of(workspace, source, close) {
        return Ok(None);
    }
    let (wanted, name) = tails(uri, close);
    let (folder, name) = match front.strip_suffix(wanted) {
        Some(folder) => (folder, name),
        None => ("", close),
    };
    let text = format!(in alloc; "{folder}{name}{hash}{fragment}")?;
    Ok(Some(Meant {
        text,
        is_only: best.is_only,
    }))
}

// The text of a reference without the slash at its end, where that is one of another document that is there.
fn without_end_slash<'t>(
    workspace: &Workspace,
    resources: &Resources<'_>,
    source: usize,
    (front, uri): (&'t str, &str),
) -> Option<&'t str> {
    let (front, uri) = (front.strip_suffix('/')?, uri.strip_suffix('/')?);
    if !front.is_empty() && resources.get(uri).is_some() && !is_uri_of(workspace, source, uri) {
        Some(front)
    } else {
        None
    }
}

// The text of a reference with a slash at its beginning, or without it, where that is one of another document that is there.
fn with_other_slash(
    alloc: Global,
    workspace: &Workspace,
    resources: &Resources<'_>,
    source: usize,
    (front, uri): (&str, &str),
) -> Result<Option<String>, AllocError> {
    let (front, meant) = match (front.strip_prefix('/'), workspace.uri(source)) {
        (Some(rest), Some(own)) => {
            let (folder, _) = own.as_str().rsplit_once('/').unwrap_or(("", ""));
            (
                String::from_str(alloc, rest)?,
                [folder, front].join(alloc, "")?,
            )
        }
        _ => {
            let front = ["/", front].join(alloc, "")?;
            let meant = [host_of(uri), front.as_str()].join(alloc, "")?;
            (front, meant)
        }
    };
    let is_there = resources.get(meant.as_str()).is_some();
    if is_there && !is_uri_of(workspace, source, meant.as_str()) {
        Ok(Some(front))
    } else {
        Ok(None)
    }
}

// What a URI lacks at its end to be that of a document, and whether it may lack that alone.
fn missing_end(
    alloc: Global,
    resources: &Resources<'_>,
    uri: &str,
) -> Result<Option<(&'static str, bool)>, AllocError> {
    let mut found: Option<(&'static str, bool)> = None;
    for end in ENDS {
        let longer = format!(in alloc; "{uri}{end}")?;
        if resources.get(longer.as_str()).is_some() {
            found = match found {
                Some((first, _)) => Some((first, false)),
                None => Some((*end, true)),
            };
        }
    }
    Ok(found)
}

// Whether a URI is that of the document with a number.
fn is_uri_of(workspace: &Workspace, number: usize, uri: &str) -> bool {
    match workspace.uri(number) {
        Some(own) => own.as_str() == uri,
        None => false,
    }
}

// A pointer or the name of an anchor in the document itself whose `#` was forgotten.
fn meant_fragment(
    alloc: Global,
    workspace: &Workspace,
    resources: &Resources<'_>,
    source: usize,
    text: &str,
) -> Result<Option<String>, AllocError> {
    if text.is_empty() || text.contains('#') {
        return Ok(None);
    }
    let slash = if text.starts_with('/') { "" } else { "/" };
    let pointer = [slash, text].join(alloc, "")?;
    if let Some(root) = workspace.value(source) {
        if root.pointer(pointer.as_str()).is_some() {
            return Ok(Some(["#", pointer.as_str()].join(alloc, "")?));
        }
    }
    let Some(uri) = workspace.uri(source) else {
        return Ok(None);
    };
    match resources.get(uri.as_str()) {
        Some(resource) if resource.has_name(text) => Ok(Some(["#", text].join(alloc, "")?)),
        _ => Ok(None),
    }
}

/// What follows the slashes up to which two URIs are the same.
pub fn tails<'a, 'b>(uri: &'a str, other: &'b str) -> (&'a str, &'b str) {
    let mut start: usize = 0;
    for (place, (byte, there)) in uri.bytes().zip(other.bytes()).enumerate() {
        if byte != there {
            break;
        }
        if byte == b'/' {
            start = place.saturating_add(1);
        }
    }
    (
        uri.get(start..).unwrap_or(uri),
        other.get(start..).unwrap_or(other),
    )
}

/// What to do where a file has the name that a missing URI ends with, and not the URI. Nothing where its own URI has another scheme or other cases alone: then
/// that one is meant.
pub fn other_uri(
    alloc: Global,
    suggester: &mut Suggester,
    workspace: &Workspace,
    uri: &str,
) -> Result<Option<String>, AllocError> {
    let (folder_uri, name) = uri.rsplit_once('/').unwrap_or(("", uri));
    let Some(names) = names_of(alloc, name)? else {
        return Ok(None);
    };
    let Some(name) = names.first() else {
        return Ok(None);
    };
    if uri.starts_with("file:") {
        return Ok(None);
    }
    for (number, document) in workspace.documents().iter().enumerate() {
        if !suggester.step() {
            break;
        }
        let shown = document.name.as_str();
        if last_name(shown) == name.as_str() && host_of(document.uri.as_str()) != host_of(uri) {
            let folder = folder_of(shown);
            let folder = if folder.is_empty() { "." } else { folder };
            let (what, own) = own_uri(alloc, workspace, number)?;
            if is_alike(own.as_str(), uri) {
                return Ok(None);
            }
            return Ok(Some(format!(in alloc;
                "the file {shown} has the {what} {own}: try --base {folder_uri} or --map {folder_uri}={folder}"
            )?));
        }
    }
    Ok(None)
}

// Whether two URIs are the same but for their schemes, and small letters and capitals.
fn is_alike(uri: &str, other: &str) -> bool {
    after_scheme(uri).eq_ignore_ascii_case(after_scheme(other))
}

// What is after the scheme of a URI (RFC 3986, 3.1).
fn after_scheme(uri: &str) -> &str {
    match uri.split_once(':') {
        Some((_, rest)) => rest,
        None => uri,
    }
}

// What is before the third slash of a URI: its scheme and its host.
fn host_of(uri: &str) -> &str {
    let mut slashes: usize = 0;
    for (place, byte) in uri.bytes().enumerate() {
        if byte == b'/' {
            slashes = slashes.saturating_add(1);
        }
        if slashes == 3 {
            return uri.get(..place).unwrap_or(uri);
        }
    }
    uri
}

// The URI of the document with a number: by its identifier, where it has one.
fn own_uri(
    alloc: Global,
    workspace: &Workspace,
    number: usize,
) -> Result<(&'static str, String), AllocError> {
    let Some(uri) = workspace.uri(number) else {
        return Ok(("URI", String::new(alloc)));
    };
    if let Some(value) = workspace.value(number) {
        if let Some(id) = ResourceRef::new(value, workspace.draft().detect(value)).id() {
            match resolve_against(alloc, uri.borrow(), id) {
                Ok(own) => return Ok(("identifier", String::from_str(alloc, own.as_str())?)),
                Err(UriFault::Memory(error)) => return Err(error),
                Err(UriFault::Invalid(error)) => drop(error),
            }
        }
    }
    Ok(("URI", String::from_str(alloc, uri.as_str())?))
}
