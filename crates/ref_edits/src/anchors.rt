//! Anchors that get another name.
use crate::fragments::with_anchor;
use crate::given::Given;
use crate::keys::change_of;
use crate::names::is_anchor_name;
use crate::plan::{Change, Part, Plan, Refusal, Site, Unmade, joined, push_change, under_keyword};
use crate::uses::{Form, Use, led_from, places_of, uses_of};
use ref_descriptions::Kind;
use ref_draft::Draft;
use ref_index::meanings::text_under;
use ref_parts::pointer_of;
use ref_reach::Place as Surveyed;
use ref_uri::Uri;
use ref_uri::parts::parts;
use referencing::{Place, Registry};
use serde_json::Value;
use std::alloc::{AllocError, Global};
use std::rc::Rc;

/// A place where a schema is.
#[derive(Drop)]
pub(crate) struct Schema<'w> {
    pub value: &'w Value,
    pub draft: Draft,
    pub base: Rc<Uri>,
}

/// The schema at a place, which is in no description. A document that descriptions refer to as a whole has schemas where it is a schema itself.
pub(crate) fn schema_at<'w>(
    alloc: Global,
    given: &Given<'_, 'w, '_, '_>,
    site: Site<'_>,
) -> Result<Option<Schema<'w>>, AllocError> {
    if has_other_root(given.survey.own(), site.document)
        || has_other_root(given.survey.described(), site.document)
    {
        return Ok(None);
    }
    for place in places_of(alloc, given.registry)? {
        if place.document == site.document && is_at(alloc, &place, site.pointer)? {
            let Place {
                value,
                draft,
                base,
                ..
            } = place;
            return Ok(Some(Schema { value, draft, base }));
        }
    }
    Ok(None)
}

// Whether the root of a document is among these places as another object than a schema.
fn has_other_root(places: &[Surveyed<'_>], document: usize) -> bool {
    for place in places {
        if place.document == document
            && place.path.parent().is_none()
            && place.reading.kind != Kind::Schema
        {
            return true;
        }
    }
    false
}

fn is_at(alloc: Global, place: &Place<'_>, pointer: &str) -> Result<bool, AllocError> {
    Ok(pointer_of(alloc, place.path.as_slice())?.as_str() == pointer)
}

// An anchor: the keyword that its name is under, what is before the name there, and the name.
#[derive(Clone, Copy, Drop)]
struct Anchor<'w> {
    keyword: &'static str,
    front: &'w str,
    name: &'w str,
}

// The anchor of a schema: of one that has two, that of `$anchor`.
fn anchor_of<'w>(schema: &Schema<'w>) -> Option<Anchor<'w>> {
    for keyword in ["$anchor", "$dynamicAnchor"] {
        if let Some(name) = text_under(schema.value, keyword) {
            if has_anchor(schema, name) {
                return Some(Anchor {
                    keyword,
                    front: "",
                    name,
                });
            }
        }
    }
    let keyword = schema.draft.id_keyword();
    let text = text_under(schema.value, keyword)?;
    let (front, name) = text.split_once('#')?;
    if !has_anchor(schema, name) {
        return None;
    }
    let front = text.get(..front.len().saturating_add(1)).unwrap_or("");
    Some(Anchor {
        keyword,
        front,
        name,
    })
}

// Whether a schema has an anchor with a name, by its draft.
fn has_anchor(schema: &Schema<'_>, name: &str) -> bool {
    for anchor in schema.draft.anchors(schema.value) {
        if anchor.name() == name {
            return true;
        }
    }
    false
}

/// What a change of documents is by which the anchor of the schema at a place gets another name. The references that lead there by the name follow. Refused where no anchor
/// is there, where it can't be called so, and where the resource has an anchor with the new name. Linear in the documents, with a look-up for each reference.
pub fn renamed_anchor(
    alloc: Global,
    given: &Given<'_, '_, '_, '_>,
    site: Site<'_>,
    name: &str,
) -> Result<Plan, Unmade> {
    let Some(schema) = schema_at(alloc, given, site)? else {
        return Err(Unmade::Refused(Refusal::NoAnchor));
    };
    let Some(anchor) = anchor_of(&schema) else {
        return Err(Unmade::Refused(Refusal::NoAnchor));
    };
    check_name(alloc, given.registry, &schema, anchor.name, name)?;
    let uses = uses_of(alloc, given)?;
    let mut changes = Vec::new(alloc);
    push_change(&mut changes, own_change(alloc, site, anchor, name)?)?;
    for one in &uses {
        if leads_by(one, site, anchor.name) {
            let text = with_anchor(alloc, one.text, name)?;
            push_change(&mut changes, change_of(alloc, one, text)?)?;
        }
    }
    Ok(Plan {
        changes,
        moved: Vec::new(alloc),
        uris: Vec::new(alloc),
    })
}

// Refuses where an anchor can't be called so, is, or another one is.
fn check_name(
    alloc: Global,
    registry: &Registry<'_>,
    schema: &Schema<'_>,
    old: &str,
    name: &str,
) -> Result<(), Unmade> {
    if old == name {
        return Err(Unmade::Refused(Refusal::SameName));
    }
    if !is_anchor_name(name) {
        return Err(Unmade::Refused(Refusal::NoAnchorName));
    }
    let reference = with_anchor(alloc, "", name)?;
    let found = led_from(alloc, registry, &schema.base, reference.as_str())?;
    if found.is_some() {
        return Err(Unmade::Refused(Refusal::Taken));
    }
    Ok(())
}

// The change of the anchor itself.
fn own_change(
    alloc: Global,
    site: Site<'_>,
    anchor: Anchor<'_>,
    name: &str,
) -> Result<Change, AllocError> {
    Ok(Change {
        document: site.document,
        pointer: under_keyword(alloc, site.pointer, anchor.keyword)?,
        part: Part::Text,
        old: joined(alloc, anchor.front, anchor.name)?,
        new: joined(alloc, anchor.front, name)?,
    })
}

// Whether a text leads to a place by the name of an anchor.
fn leads_by(one: &Use<'_>, site: Site<'_>, name: &str) -> bool {
    let (_, fragment) = parts(one.text);
    if one.form != Form::Reference || fragment != name {
        return false;
    }
    match &one.led {
        Some(led) => led.document == site.document && led.pointer.as_str() == site.pointer,
        None => false,
    }
}
