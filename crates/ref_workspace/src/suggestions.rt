//! What may be meant by a pointer or an anchor that isn't there.
use crate::components::{is_of_others, meant_component};
use crate::resources::Resource;
use ref_descriptions::Kind;
use ref_error::Error;
use ref_messages::Suggester;
use referencing::{unescape_segment, write_escaped_str};
use serde_json::{Map, Value};
use std::alloc::{AllocError, Global};

/// What may be meant by a text.
#[derive(Drop)]
pub struct Meant {
    /// The text that is meant.
    pub text: String,
    /// Whether nothing else is as close.
    pub is_only: bool,
}

impl Meant {
    /// What alone may be meant.
    pub fn only(text: String) -> Meant {
        Meant {
            text,
            is_only: true,
        }
    }
}

/// What may be meant by an unresolvable reference into a resource: a pointer to a component of the kind that is needed, where one is, or with another key,
/// one that lacks its first slash, has one too many at its end, or has a second `#` before it, or another anchor. A `#` is the resource as a whole.
pub fn suggestion(
    alloc: Global,
    suggester: &mut Suggester,
    resource: &Resource<'_>,
    wanted: Option<Kind>,
    error: &Error,
) -> Result<Option<Meant>, AllocError> {
    suggester.begin();
    match error {
        Error::PointerToNowhere { pointer } => {
            meant_pointer(alloc, suggester, resource.root, (wanted, pointer.as_str()))
        }
        Error::NoSuchAnchor { anchor } => {
            close_anchor(alloc, suggester, resource.names.as_slice(), anchor.as_str())
        }
        Error::InvalidAnchor { anchor } => as_pointer(alloc, resource.root, anchor.as_str()),
        _ => Ok(None),
    }
}

// What may be meant by a pointer that leads to no value, from a reference that is to lead to an object of this kind.
fn meant_pointer(
    alloc: Global,
    suggester: &mut Suggester,
    root: &Value,
    (wanted, pointer): (Option<Kind>, &str),
) -> Result<Option<Meant>, AllocError> {
    if let Some(meant) = without_slash(alloc, root, pointer)? {
        return Ok(Some(meant));
    }
    let Some(wanted) = wanted else {
        return close_pointer(alloc, suggester, root, pointer);
    };
    if let Some(meant) = meant_component(alloc, suggester, root, (wanted, pointer))? {
        return Ok(Some(meant));
    }
    let Some(meant) = close_pointer(alloc, suggester, root, pointer)? else {
        return Ok(None);
    };
    if is_of_others(root, wanted, meant.text.as_str()) {
        return Ok(None);
    }
    Ok(Some(meant))
}

// The pointer that lacks its first slash, or has another `#` before it, where a value is at it.
fn as_pointer(alloc: Global, root: &Value, text: &str) -> Result<Option<Meant>, AllocError> {
    let rest = text.trim_start_matches('#');
    let slash = if rest.starts_with('/') { "" } else { "/" };
    let meant = [slash, rest].join(alloc, "")?;
    if root.pointer(meant.as_str()).is_some() {
        Ok(Some(Meant::only(meant)))
    } else {
        Ok(None)
    }
}

// The pointer without the slash at its end, where a value is at it.
fn without_slash(alloc: Global, root: &Value, pointer: &str) -> Result<Option<Meant>, AllocError> {
    let Some(front) = pointer.strip_suffix('/') else {
        return Ok(None);
    };
    if root.pointer(front).is_none() {
        return Ok(None);
    }
    let meant = if front.is_empty() { "#" } else { front };
    Ok(Some(Meant::only(String::from_str(alloc, meant)?)))
}

// A pointer with another key in the place of the first that isn't there, where a value is at it.
fn close_pointer(
    alloc: Global,
    suggester: &mut Suggester,
    root: &Value,
    pointer: &str,
) -> Result<Option<Meant>, AllocError> {
    let mut value = root;
    for (number, segment) in pointer.split('/').enumerate() {
        if number == 0 {
            continue;
        }
        let key = unescape_segment(alloc, segment)?;
        match below(value, key.as_str()) {
            Some(next) => value = next,
            None => return with_close_key(
                alloc,
                suggester,
                (root, value),
                (pointer, number),
                key.as_str(),
            ),
        }
    }
    Ok(None)
}

fn below<'v>(value: &'v Value, key: &str) -> Option<&'v Value> {
    match key.parse::<usize>() {
        Ok(index) if value.is_array() => value.get(index),
        _ => value.get(key),
    }
}

// The pointer with a close key of the value in the place of the segment with a number.
fn with_close_key(
    alloc: Global,
    suggester: &mut Suggester,
    (root, value): (&Value, &Value),
    (pointer, number): (&str, usize),
    key: &str,
) -> Result<Option<Meant>, AllocError> {
    let Some(members) = value.as_object() else {
        return Ok(None);
    };
    let best = close_key(alloc, suggester, members, key)?;
    let Some(close) = best.name else {
        return Ok(None);
    };
    let text = with_segment(alloc, pointer, number, close)?;
    if root.pointer(text.as_str()).is_some() {
        Ok(Some(Meant {
            text,
            is_only: best.is_only,
        }))
    } else {
        Ok(None)
    }
}

fn with_segment(
    alloc: Global,
    pointer: &str,
    number: usize,
    key: &str,
) -> Result<String, AllocError> {
    let mut text = String::new(alloc);
    for (at, segment) in pointer.split('/').enumerate() {
        if at != 0 {
            text.push('/')?;
        }
        if at == number {
            write_escaped_str(&mut text, key)?;
        } else {
            text.push_str(segment)?;
        }
    }
    Ok(text)
}

/// The key that is the fewest letters away, of several the first.
pub(crate) fn close_key<'v>(
    alloc: Global,
    suggester: &mut Suggester,
    members: &'v Map<String, Value>,
    wanted: &str,
) -> Result<Best<'v>, AllocError> {
    let mut best = Best::new();
    for (key, _) in members {
        if !suggester.step() {
            break;
        }
        best.try_name(alloc, suggester, wanted, key.as_str())?;
    }
    Ok(best)
}

/// The closest name so far.
#[derive(Drop)]
pub struct Best<'v> {
    /// The name.
    pub name: Option<&'v str>,
    /// Whether no other is as close.
    pub is_only: bool,
    edits: usize,
}

impl<'v> Best<'v> {
    /// None so far.
    pub fn new() -> Best<'v> {
        Best {
            name: None,
            is_only: true,
            edits: usize::MAX,
        }
    }

    /// Takes a name that is so many edits away, where none is closer.
    pub fn take(&mut self, name: &'v str, edits: usize) {
        if edits < self.edits {
            self.edits = edits;
            self.name = Some(name);
            self.is_only = true;
        } else if edits == self.edits {
            self.is_only = false;
        }
    }

    fn try_name(
        &mut self,
        alloc: Global,
        suggester: &mut Suggester,
        wanted: &str,
        name: &'v str,
    ) -> Result<(), AllocError> {
        if let Some(edits) = suggester.distance(alloc, wanted, name)? {
            self.take(name, edits);
        }
        Ok(())
    }
}

// The anchor of a resource that is the fewest letters away, of several the first.
fn close_anchor(
    alloc: Global,
    suggester: &mut Suggester,
    names: &[&str],
    wanted: &str,
) -> Result<Option<Meant>, AllocError> {
    let mut best = Best::new();
    for name in names {
        if !suggester.step() {
            break;
        }
        best.try_name(alloc, suggester, wanted, name)?;
    }
    match best.name {
        Some(name) => Ok(Some(Meant {
            text: String::from_str(alloc, name)?,
            is_only: best.is_only,
        })),
        None => Ok(None),
    }
}
