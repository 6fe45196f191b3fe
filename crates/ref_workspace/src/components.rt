//! The component of a description that a reference may mean: one of the kind that is needed.
use crate::suggestions::{Meant, close_key};
use crate::world::fragment_of;
use percent_encoding::{DecodeError, percent_decode};
use ref_descriptions::Kind;
use ref_messages::Suggester;
use referencing::{unescape_segment, write_escaped_str};
use serde_json::{Map, Value};
use std::alloc::{AllocError, Global};

// A map of the components of a kind: the text before the names of those in a pointer, and its members.
#[derive(Clone, Copy, Drop)]
struct Components<'v> {
    above: &'static str,
    name: &'static str,
    members: &'v Map<String, Value>,
}

impl Components<'_> {
    // The pointer to the component with a key.
    fn pointer_to(&self, alloc: Global, key: &str) -> Result<String, AllocError> {
        let mut pointer = [self.above, self.name, "/"].join(alloc, "")?;
        write_escaped_str(&mut pointer, key)?;
        Ok(pointer)
    }

    // Whether a pointer begins as those to the components do.
    fn has(&self, pointer: &str) -> bool {
        match pointer.strip_prefix(self.above) {
            Some(rest) => rest
                .strip_prefix(self.name)
                .is_some_and(|rest| rest.starts_with('/')),
            None => false,
        }
    }
}

/// The pointer to the component of a kind that is meant by a pointer to a component of a name: the one of the same name, or else the one whose name is the fewest
/// letters away. Nothing where the pointer is longer than one to a component, or the document has no map for the kind.
pub(crate) fn meant_component(
    alloc: Global,
    suggester: &mut Suggester,
    root: &Value,
    (wanted, pointer): (Kind, &str),
) -> Result<Option<Meant>, AllocError> {
    let (Some(name), Some(components)) = (name_in(pointer), components_of(root, wanted)) else {
        return Ok(None);
    };
    let key = unescape_segment(alloc, name)?;
    if components.members.get(key.as_str()).is_some() {
        let text = components.pointer_to(alloc, key.as_str())?;
        return Ok(Some(Meant::only(text)));
    }
    let best = close_key(alloc, suggester, components.members, key.as_str())?;
    match best.name {
        Some(close) => Ok(Some(Meant {
            text: components.pointer_to(alloc, close)?,
            is_only: best.is_only,
        })),
        None => Ok(None),
    }
}

/// The pointer to the component of a kind that has the name of the one that a reference leads to, where there is such a component.
pub(crate) fn component_named(
    alloc: Global,
    root: &Value,
    wanted: Kind,
    reference: &str,
) -> Result<Option<Meant>, AllocError> {
    let fragment = fragment_of(reference);
    let decoded = match percent_decode(fragment.as_bytes()).decode_utf8(alloc) {
        Ok(decoded) => decoded,
        Err(DecodeError::OutOfMemory) => return Err(AllocError),
        Err(DecodeError::Utf8(_)) => return Ok(None),
    };
    let pointer = decoded.as_str();
    let (Some(name), Some(components)) = (name_in(pointer), components_of(root, wanted)) else {
        return Ok(None);
    };
    let key = unescape_segment(alloc, name)?;
    if components.has(pointer) || components.members.get(key.as_str()).is_none() {
        return Ok(None);
    }
    let text = components.pointer_to(alloc, key.as_str())?;
    Ok(Some(Meant::only(text)))
}

/// Whether a pointer is one to a component, and of another kind than this.
pub(crate) fn is_of_others(root: &Value, wanted: Kind, pointer: &str) -> bool {
    match components_of(root, wanted) {
        Some(components) => pointer.starts_with("/components/") && !components.has(pointer),
        None => false,
    }
}

// The name of the component that a pointer leads to, as it is written there, where it is no longer than one to a component.
fn name_in(pointer: &str) -> Option<&str> {
    let rest = match pointer.strip_prefix("/components/") {
        Some(rest) => rest,
        None => pointer.strip_prefix('/')?,
    };
    let name = match rest.split_once('/') {
        Some((_, name)) => name,
        None => rest,
    };
    if name.is_empty() || name.contains('/') {
        None
    } else {
        Some(name)
    }
}

// The components of a kind that a description has, or a file of components alone (OpenAPI 3.2, 4.7; 2.0, Swagger Object).
fn components_of(root: &Value, wanted: Kind) -> Option<Components<'_>> {
    let name = map_name(wanted)?;
    if let Some(inner) = root.get("components") {
        return components_in(inner, "/components/", name);
    }
    match components_in(root, "/", name) {
        Some(components) => Some(components),
        None if name == "schemas" => components_in(root, "/", "definitions"),
        None => None,
    }
}

fn components_in<'v>(
    value: &'v Value,
    above: &'static str,
    name: &'static str,
) -> Option<Components<'v>> {
    let members = value.get(name)?.as_object()?;
    Some(Components {
        above,
        name,
        members,
    })
}

// The name of the map of components of a kind (OpenAPI 3.2, 4.7).
fn map_name(kind: Kind) -> Option<&'static str> {
    match kind {
        Kind::Schema => Some("schemas"),
        Kind::Response => Some("responses"),
        Kind::Parameter => Some("parameters"),
        Kind::Example => Some("examples"),
        Kind::RequestBody => Some("requestBodies"),
        Kind::Header => Some("headers"),
        Kind::SecurityScheme => Some("securitySchemes"),
        Kind::Link => Some("links"),
        Kind::Callback => Some("callbacks"),
        Kind::PathItem => Some("pathItems"),
        Kind::MediaType => Some("mediaTypes"),
        _ => None,
    }
}
