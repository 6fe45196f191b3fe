//! Members of objects that get another key.
use crate::fragments::{decoded_fragment, with_token};
use crate::given::Given;
use crate::names::{is_component_name, is_keyword};
use crate::places::{Naming, holders_of};
use crate::plan::{Change, Moved, Part, Plan, Refusal, Site, Unmade, push_change};
use crate::tokens::{depth_of, is_within, token_for};
use crate::uses::{Form, Use, uses_of};
use ref_descriptions::version_of;
use ref_parts::{unescape_segment, write_escaped_str};
use ref_uri::parts::parts;
use serde_json::Value;
use std::alloc::{AllocError, Global};

// A member that gets another key.
#[derive(Drop)]
struct Member<'p> {
    site: Site<'p>,
    // The key, and the one that it gets.
    key: String,
    name: String,
    // The pointer to it after.
    to: String,
}

/// What a change of documents is by which the member at a place gets another key. Each reference goes through that key on whose way to what it leads to it is; the names
/// of components in mappings of discriminators follow. Refused where no member is there, where its object has one with the new key, where the key has a meaning by itself, or
/// where a component can't be called so. Linear in the documents, with a look-up for each reference.
pub fn renamed_key(
    alloc: Global,
    given: &Given<'_, '_, '_, '_>,
    site: Site<'_>,
    name: &str,
) -> Result<Plan, Unmade> {
    let member = member_of(alloc, given, site, name)?;
    check_naming(alloc, given, &member)?;
    let uses = uses_of(alloc, given)?;
    let mut changes = Vec::new(alloc);
    push_change(&mut changes, own_change(alloc, &member)?)?;
    for one in &uses {
        if let Some(text) = text_after(alloc, given, &member, one)? {
            push_change(&mut changes, change_of(alloc, one, text)?)?;
        }
    }
    let moved = moved_of(alloc, member)?;
    Ok(Plan {
        changes,
        moved,
        uris: Vec::new(alloc),
    })
}

// That it is under another pointer after.
fn moved_of(alloc: Global, member: Member<'_>) -> Result<Vec<Moved>, AllocError> {
    let mut moved = Vec::new(alloc);
    moved.push(Moved {
        document: member.site.document,
        from: String::from_str(alloc, member.site.pointer)?,
        to: member.to,
    })?;
    Ok(moved)
}

/// The key of the member at a place, where it may get another one: refused where no member is there, and where the key has a meaning by itself. Linear in the documents.
pub fn key_at(
    alloc: Global,
    given: &Given<'_, '_, '_, '_>,
    site: Site<'_>,
) -> Result<String, Unmade> {
    let member = existing(alloc, given, site)?;
    let holders = holders_of(alloc, given)?;
    let naming = holders.naming(alloc, site);
    drop(holders);
    match naming? {
        Naming::Fixed => Err(Unmade::Refused(Refusal::Meaningful)),
        Naming::Member if is_keyword(member.as_str()) => {
            Err(Unmade::Refused(Refusal::Meaningful))
        }
        _ => Ok(member),
    }
}

// The key of the member at a place, where one is there.
fn existing(
    alloc: Global,
    given: &Given<'_, '_, '_, '_>,
    site: Site<'_>,
) -> Result<String, Unmade> {
    let (Some(document), Some((front, token))) = (
        given.registry.documents().get(site.document),
        site.pointer.rsplit_once('/'),
    ) else {
        return Err(Unmade::Refused(Refusal::NoMember));
    };
    let key = unescape_segment(alloc, token)?.into_owned(alloc)?;
    let parent = document.contents.value().pointer(front);
    match parent.and_then(Value::as_object) {
        Some(members) if members.get(key.as_str()).is_some() => Ok(key),
        Some(_) => Err(Unmade::Refused(Refusal::NoValue)),
        None => Err(Unmade::Refused(Refusal::NoMember)),
    }
}

// The member at a place, which its object is to have under another key.
fn member_of<'p>(
    alloc: Global,
    given: &Given<'_, '_, '_, '_>,
    site: Site<'p>,
    name: &str,
) -> Result<Member<'p>, Unmade> {
    let Some(document) = given.registry.documents().get(site.document) else {
        return Err(Unmade::Refused(Refusal::NoValue));
    };
    let Some((front, token)) = site.pointer.rsplit_once('/') else {
        return Err(Unmade::Refused(Refusal::NoMember));
    };
    let key = unescape_segment(alloc, token)?.into_owned(alloc)?;
    check_member(document.contents.value(), front, key.as_str(), name)?;
    let mut to = String::from_str(alloc, front)?;
    to.push('/')?;
    write_escaped_str(&mut to, name)?;
    Ok(Member {
        site,
        key,
        name: String::from_str(alloc, name)?,
        to,
    })
}

// Refuses where an object has no member with a key, or has one with the new key.
fn check_member(root: &Value, front: &str, key: &str, name: &str) -> Result<(), Refusal> {
    let Some(parent) = root.pointer(front) else {
        return Err(Refusal::NoValue);
    };
    let Some(members) = parent.as_object() else {
        return Err(Refusal::NoMember);
    };
    if members.get(key).is_none() {
        return Err(Refusal::NoValue);
    }
    if key == name {
        return Err(Refusal::SameName);
    }
    if members.get(name).is_some() {
        return Err(Refusal::Taken);
    }
    Ok(())
}

// Refuses where the key or the new one means something by itself.
fn check_naming(
    alloc: Global,
    given: &Given<'_, '_, '_, '_>,
    member: &Member<'_>,
) -> Result<(), Unmade> {
    let holders = holders_of(alloc, given)?;
    let naming = holders.naming(alloc, member.site);
    drop(holders);
    Ok(judge_naming(naming?, member.key.as_str(), member.name.as_str())?)
}

fn judge_naming(naming: Naming, key: &str, name: &str) -> Result<(), Refusal> {
    match naming {
        Naming::Free => Ok(()),
        Naming::Member if is_keyword(key) || is_keyword(name) => Err(Refusal::Meaningful),
        Naming::Member => Ok(()),
        Naming::Component if !is_component_name(name) => Err(Refusal::NoComponentName),
        Naming::Component => Ok(()),
        Naming::Fixed => Err(Refusal::Meaningful),
    }
}

// The change of the key itself.
fn own_change(alloc: Global, member: &Member<'_>) -> Result<Change, AllocError> {
    Ok(Change {
        document: member.site.document,
        pointer: String::from_str(alloc, member.site.pointer)?,
        part: Part::Key,
        old: member.key.clone()?,
        new: member.name.clone()?,
    })
}

/// The change of a text that refers to something.
pub(crate) fn change_of(alloc: Global, one: &Use<'_>, new: String) -> Result<Change, AllocError> {
    Ok(Change {
        document: one.document,
        pointer: one.pointer.clone()?,
        part: Part::Text,
        old: String::from_str(alloc, one.text)?,
        new,
    })
}

// The text after, where it becomes another one.
fn text_after(
    alloc: Global,
    given: &Given<'_, '_, '_, '_>,
    member: &Member<'_>,
    one: &Use<'_>,
) -> Result<Option<String>, AllocError> {
    match one.form {
        Form::Reference => reference_after(alloc, member, one),
        Form::Name if is_named(given, member, one) => Ok(Some(member.name.clone()?)),
        Form::Name => Ok(None),
    }
}

// A reference after, where it goes through the key.
fn reference_after(
    alloc: Global,
    member: &Member<'_>,
    one: &Use<'_>,
) -> Result<Option<String>, AllocError> {
    let Some(led) = &one.led else {
        return Ok(None);
    };
    if led.document != member.site.document
        || !is_within(led.pointer.as_str(), member.site.pointer)
    {
        return Ok(None);
    }
    let tokens = tokens_of(alloc, one.text)?;
    let number = token_for(
        depth_of(member.site.pointer),
        depth_of(led.pointer.as_str()),
        tokens,
    );
    match number {
        Some(number) if number < tokens => {
            Ok(Some(with_token(alloc, one.text, number, member.name.as_str())?))
        }
        _ => Ok(None),
    }
}

// How many tokens the fragment of a reference has: none where it is no JSON Pointer.
fn tokens_of(alloc: Global, reference: &str) -> Result<usize, AllocError> {
    let (_, fragment) = parts(reference);
    match decoded_fragment(alloc, fragment)? {
        Some(pointer) if pointer.as_str().starts_with('/') => Ok(depth_of(pointer.as_str())),
        _ => Ok(0),
    }
}

// Whether a text in a mapping names the member: as a component of the description that both are in, or, in a document that is none, of any.
fn is_named(given: &Given<'_, '_, '_, '_>, member: &Member<'_>, one: &Use<'_>) -> bool {
    let is_schema = match member.site.pointer.rsplit_once('/') {
        Some((front, _)) => front == "/components/schemas",
        None => false,
    };
    if !is_schema || one.text != member.key.as_str() {
        return false;
    }
    match given.registry.documents().get(one.document) {
        Some(document) if version_of(document.contents.value()).is_some() => {
            one.document == member.site.document
        }
        _ => true,
    }
}
