//! Definitions, components, anchors and identifiers that get another name.
use crate::asked::{Asked, asked_place};
use crate::definition::followed;
use crate::desk::Desk;
use crate::judged::range_of;
use ref_edits::{
    Edit, Given, Plan, Site, Unmade, Written, difference_of, edits_of, key_at, renamed_anchor,
    renamed_identifier, renamed_key,
};
use ref_further::survey_of;
use ref_parts::unescape_segment;
use ref_protocol::pieces::{push_comma, push_range, push_text};
use ref_protocol::refusal::Refusal;
use ref_uri::parts::parts;
use ref_workspace::View;
use ref_workspace::follow::{Found, Start};
use serde_json::Value;
use std::alloc::{AllocError, Global};

// What is named at a place.
#[derive(Clone, Copy, Debug, Drop, PartialEq, Eq)]
enum What {
    // A member, by its key.
    Key,
    // A schema, by its anchor.
    Anchor,
    // A schema, by its identifier.
    Identifier,
}

// What is named at a place: the number of its document in the registry, its pointer there, and what it is called.
#[derive(Drop)]
struct Named {
    document: usize,
    pointer: String,
    what: What,
    name: String,
}

impl Named {
    fn site(&self) -> Site<'_> {
        Site {
            document: self.document,
            pointer: self.pointer.as_str(),
        }
    }
}

/// `textDocument/prepareRename`: the range of what may be renamed at a place, and what it is called; or `null`.
pub fn prepare_rename(
    desk: &Desk<'_>,
    view: &View<'_, '_>,
    params: &Value,
) -> Result<String, Refusal> {
    let alloc = desk.alloc();
    let Some(asked) = asked_place(desk, params)? else {
        return Ok(String::from_str(alloc, "null")?);
    };
    let Some(named) = named_at(desk, view, &asked)? else {
        return Ok(String::from_str(alloc, "null")?);
    };
    if named.what == What::Key && !may_rename(desk, view, &named)? {
        return Ok(String::from_str(alloc, "null")?);
    }
    let mut out = String::new(alloc);
    push_range(&mut out, "{\"range\":", asked.range(desk))?;
    push_text(alloc, &mut out, ",\"placeholder\":", named.name.as_str())?;
    out.push('}')?;
    Ok(out)
}

// Whether a member may get another key.
fn may_rename(desk: &Desk<'_>, view: &View<'_, '_>, named: &Named) -> Result<bool, AllocError> {
    let alloc = desk.alloc();
    let survey = survey_of(alloc, &view.world.registry)?;
    let given = Given {
        registry: &view.world.registry,
        survey: &survey,
        texts: &[],
        draft: desk.workspace.draft(),
    };
    match key_at(alloc, &given, named.site()) {
        Ok(key) => {
            drop(key);
            Ok(true)
        }
        Err(Unmade::Memory) => Err(AllocError),
        Err(Unmade::Refused(refusal)) => {
            drop(refusal);
            Ok(false)
        }
    }
}

/// `textDocument/rename`: what is changed in which documents where what is named at a place gets another name. Refused by the reason why it can't, or by what would differ.
pub fn rename(desk: &Desk<'_>, view: &View<'_, '_>, params: &Value) -> Result<String, Refusal> {
    let Some(name) = params.get("newName").and_then(Value::as_str) else {
        return Err(Refusal::NoParameters);
    };
    let Some(asked) = asked_place(desk, params)? else {
        return Err(Refusal::Failed("no document has that URI"));
    };
    let Some(named) = named_at(desk, view, &asked)? else {
        return Err(Refusal::Failed("nothing that can be renamed is there"));
    };
    let texts = texts_of(desk, view)?;
    let survey = survey_of(desk.alloc(), &view.world.registry)?;
    let given = Given {
        registry: &view.world.registry,
        survey: &survey,
        texts: texts.as_slice(),
        draft: desk.workspace.draft(),
    };
    let plan = planned(desk.alloc(), &given, &named, name);
    let edits = checked(desk.alloc(), &given, plan)?;
    Ok(edit_text(desk, view, &given, edits.as_slice())?)
}

/// The texts of the documents of the registry, by their numbers: those that the client may change. One whose open text has no value can't be changed.
pub(crate) fn texts_of<'d>(
    desk: &'d Desk<'_>,
    view: &View<'_, '_>,
) -> Result<Vec<Option<Written<'d>>>, AllocError> {
    let mut texts = Vec::new(desk.alloc());
    for number in 0..view.world.registry.documents().len() {
        let text = match view.world.sources.get(number) {
            Some(source) => written_of(desk, *source),
            None => None,
        };
        texts.push(text)?;
    }
    Ok(texts)
}

fn written_of<'d>(desk: &'d Desk<'_>, source: usize) -> Option<Written<'d>> {
    if desk.workspace.opened() <= source || desk.fault_of(source).is_some() {
        return None;
    }
    let document = desk.workspace.documents().get(source)?;
    Some(Written {
        format: document.text.format,
        text: document.text.text.as_str(),
    })
}

/// What a plan replaces, where it is one, and nothing differs after it: else the reason why it can't be done.
pub(crate) fn checked(
    alloc: Global,
    given: &Given<'_, '_, '_, '_>,
    plan: Result<Plan, Unmade>,
) -> Result<Vec<Edit>, Refusal> {
    match checked_in(alloc, given, plan) {
        Ok(Some(edits)) => Ok(edits),
        Ok(None) => Err(Refusal::Failed(
            "a reference would lead elsewhere, or a schema would be read in another way",
        )),
        Err(Unmade::Memory) => Err(Refusal::Memory),
        Err(Unmade::Refused(refusal)) => {
            let why = refusal.reason();
            drop(refusal);
            Err(Refusal::Failed(why))
        }
    }
}

fn checked_in(
    alloc: Global,
    given: &Given<'_, '_, '_, '_>,
    plan: Result<Plan, Unmade>,
) -> Result<Option<Vec<Edit>>, Unmade> {
    let plan = plan?;
    let edits = edits_of(alloc, given, plan.changes.as_slice())?;
    match difference_of(alloc, given, &plan, edits.as_slice())? {
        Some(told) => {
            drop(told);
            Ok(None)
        }
        None => Ok(Some(edits)),
    }
}

fn planned(
    alloc: Global,
    given: &Given<'_, '_, '_, '_>,
    named: &Named,
    name: &str,
) -> Result<Plan, Unmade> {
    match named.what {
        What::Key => renamed_key(alloc, given, named.site(), name),
        What::Anchor => renamed_anchor(alloc, given, named.site(), name),
        What::Identifier => renamed_identifier(alloc, given, named.site(), name),
    }
}

/// The workspace edit of what is replaced.
pub(crate) fn edit_text(
    desk: &Desk<'_>,
    view: &View<'_, '_>,
    given: &Given<'_, '_, '_, '_>,
    edits: &[Edit],
) -> Result<String, AllocError> {
    let mut out = String::from_str(desk.alloc(), "{\"changes\":{")?;
    for (place, edit) in edits.iter().enumerate() {
        if place > 0 {
            out.push(',')?;
        }
        push_edit(desk, view, given, edit, &mut out)?;
    }
    out.push_str("}}")?;
    Ok(out)
}

// Adds what is replaced in a document, under its URI.
fn push_edit(
    desk: &Desk<'_>,
    view: &View<'_, '_>,
    given: &Given<'_, '_, '_, '_>,
    edit: &Edit,
    out: &mut String,
) -> Result<(), AllocError> {
    let alloc = desk.alloc();
    let (Some(source), Some(written)) = (
        view.world.sources.get(edit.document),
        given.text(edit.document),
    ) else {
        return Ok(());
    };
    let uri = desk.client_uri(*source)?;
    push_text(alloc, out, "", uri.as_str())?;
    out.push_str(":[")?;
    for part in &edit.parts {
        push_comma(out)?;
        let range = range_of(desk, written.text, part.start, part.end);
        push_range(out, "{\"range\":", range)?;
        push_text(alloc, out, ",\"newText\":", part.text.as_str())?;
        out.push('}')?;
    }
    out.push(']')
}

// What is named at a place: what the reference there leads to, the member whose key is there, or the schema whose anchor or identifier is.
fn named_at(
    desk: &Desk<'_>,
    view: &View<'_, '_>,
    asked: &Asked,
) -> Result<Option<Named>, AllocError> {
    if let Some(reference) = asked.reference(desk)? {
        return named_by(desk, view, asked, reference.as_str());
    }
    let Some(document) = view.world.number(asked.number) else {
        return Ok(None);
    };
    match &asked.part {
        Some(part) if part.is_key => member_at(desk.alloc(), document, asked),
        Some(_) => name_at(desk, document, asked),
        None => Ok(None),
    }
}

// What a reference names.
fn named_by(
    desk: &Desk<'_>,
    view: &View<'_, '_>,
    asked: &Asked,
    reference: &str,
) -> Result<Option<Named>, AllocError> {
    let alloc = desk.alloc();
    let start = Start {
        number: asked.number,
        pointer: asked.pointer.as_str(),
    };
    let Some(found) = followed(alloc, view, start, reference)? else {
        return Ok(None);
    };
    let Found {
        document,
        pointer,
        ..
    } = found;
    let (_, fragment) = parts(reference);
    if fragment.is_empty() {
        return Ok(None);
    }
    if fragment.starts_with('/') {
        return named_member(alloc, document, pointer);
    }
    Ok(Some(Named {
        document,
        pointer,
        what: What::Anchor,
        name: String::from_str(alloc, fragment)?,
    }))
}

// A member, by its pointer.
fn named_member(
    alloc: Global,
    document: usize,
    pointer: String,
) -> Result<Option<Named>, AllocError> {
    let name = match pointer.as_str().rsplit_once('/') {
        Some((_, token)) => unescape_segment(alloc, token)?.into_owned(alloc)?,
        None => return Ok(None),
    };
    Ok(Some(Named {
        document,
        pointer,
        what: What::Key,
        name,
    }))
}

// The member whose key is at a place.
fn member_at(alloc: Global, document: usize, asked: &Asked) -> Result<Option<Named>, AllocError> {
    named_member(alloc, document, asked.pointer.clone()?)
}

// The schema whose anchor or identifier is at a place.
fn name_at(desk: &Desk<'_>, document: usize, asked: &Asked) -> Result<Option<Named>, AllocError> {
    let alloc = desk.alloc();
    let (Some(key), Some((front, _)), Some(root)) = (
        asked.key(),
        asked.pointer.as_str().rsplit_once('/'),
        desk.workspace.value(asked.number),
    ) else {
        return Ok(None);
    };
    let Some(text) = root.pointer(asked.pointer.as_str()).and_then(Value::as_str) else {
        return Ok(None);
    };
    let (what, name) = match key {
        "$anchor" | "$dynamicAnchor" => (What::Anchor, text),
        "$id" | "id" if text.starts_with('#') => (What::Anchor, text.trim_start_matches('#')),
        "$id" | "id" => (What::Identifier, text),
        _ => return Ok(None),
    };
    Ok(Some(Named {
        document,
        pointer: String::from_str(alloc, front)?,
        what,
        name: String::from_str(alloc, name)?,
    }))
}
