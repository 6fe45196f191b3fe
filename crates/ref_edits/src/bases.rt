//! Schemas that get another identifier, and documents that get another URI.
use crate::after::{registry_after, values_of};
use crate::anchors::schema_at;
use crate::given::Given;
use crate::keys::change_of;
use crate::plan::{Change, Part, Plan, Refusal, Site, Unmade, joined, push_change, under_keyword};
use crate::relative::{Meaning, meant, rebased};
use crate::splicing::edits_of;
use crate::uses::{Form, Use, led_from, places_of, uses_of};
use ref_index::meanings::text_under;
use ref_parts::pointer_of;
use ref_uri::parts::parts;
use ref_uri::uri::from_str;
use ref_uri::{Uri, UriFault, UriRef};
use referencing::{Place, Registry, ResourceRef};
use serde_json::Value;
use std::alloc::{AllocError, Global};
use std::collections::BTreeMap;

// What URIs of documents and of schemas are after a change.
#[derive(Drop)]
struct Uris {
    after: BTreeMap<String, String>,
}

// What they are, by the registry before and by one in which the texts that refer to them are as before. What identifiers say counts before the URIs of documents.
fn uris_between(
    alloc: Global,
    before: &Registry<'_>,
    between: &Registry<'_>,
) -> Result<Uris, AllocError> {
    let mut uris = Uris {
        after: BTreeMap::new(alloc),
    };
    for (document, now) in before.documents().iter().zip(between.documents().iter()) {
        uris.note(alloc, &document.uri, &now.uri)?;
    }
    let places = places_of(alloc, before)?;
    let changed = places_of(alloc, between)?;
    for (place, now) in places.iter().zip(changed.iter()) {
        if place.document == now.document {
            uris.note(alloc, &place.base, &now.base)?;
        }
    }
    Ok(uris)
}

impl Uris {
    fn note(&mut self, alloc: Global, uri: &Uri, now: &Uri) -> Result<(), AllocError> {
        let key = String::from_str(alloc, uri.as_str())?;
        let text = String::from_str(alloc, now.as_str())?;
        self.after.insert(key, text)?;
        Ok(())
    }

    // What a URI is after.
    fn after(&self, alloc: Global, uri: &Uri) -> Result<Uri, AllocError> {
        match self.after.get(uri.as_str()) {
            Some(text) => match parsed(alloc, text.as_str())? {
                Some(now) => Ok(now),
                None => uri.clone(),
            },
            None => uri.clone(),
        }
    }

    // A reference after, where it becomes another text.
    fn text_after(&self, alloc: Global, one: &Use<'_>) -> Result<Option<String>, AllocError> {
        let (front, _) = parts(one.text);
        let Some(target) = meant(alloc, &one.base, front)? else {
            return Ok(None);
        };
        let base = self.after(alloc, &one.base)?;
        let now = self.after(alloc, &target)?;
        let before = Meaning {
            base: &*one.base,
            target: &target,
        };
        let after = Meaning {
            base: &base,
            target: &now,
        };
        rebased(alloc, one.text, &before, &after)
    }
}

/// A text as a URI.
pub(crate) fn parsed(alloc: Global, text: &str) -> Result<Option<Uri>, AllocError> {
    match from_str(alloc, text) {
        Ok(uri) => Ok(Some(uri)),
        Err(UriFault::Memory(error)) => Err(error),
        Err(UriFault::Invalid(error)) => {
            drop(error);
            Ok(None)
        }
    }
}

// Adds the changes of the references that are to mean other URIs, or the same ones from another base.
fn add_followed(
    alloc: Global,
    given: &Given<'_, '_, '_, '_>,
    between: &Registry<'_>,
    changes: &mut Vec<Change>,
) -> Result<(), AllocError> {
    let uris = uris_between(alloc, given.registry, between)?;
    for one in &uses_of(alloc, given)? {
        if one.form == Form::Reference {
            if let Some(text) = uris.text_after(alloc, one)? {
                push_change(changes, change_of(alloc, one, text)?)?;
            }
        }
    }
    Ok(())
}

/// What a change of documents is by which they get other URIs, by their numbers: references in them and to them follow, each written as it was, and identifiers stay as they
/// are. A document that isn't there counts as one that is. Linear in the documents, with a look-up for each reference.
pub fn moved_documents(
    alloc: Global,
    given: &Given<'_, '_, '_, '_>,
    uris: Vec<Option<Uri>>,
) -> Result<Plan, Unmade> {
    let mut changes = Vec::new(alloc);
    add_moved(alloc, given, uris.as_slice(), &mut changes)?;
    Ok(Plan {
        changes,
        moved: Vec::new(alloc),
        uris,
    })
}

fn add_moved(
    alloc: Global,
    given: &Given<'_, '_, '_, '_>,
    uris: &[Option<Uri>],
    changes: &mut Vec<Change>,
) -> Result<(), Unmade> {
    let between = registry_after(alloc, given.registry, given.draft, uris, &[])?;
    let added = add_followed(alloc, given, &between, changes);
    drop(between);
    Ok(added?)
}

// The identifier of a schema: the keyword that it is under, and its text.
#[derive(Clone, Copy, Drop)]
struct Identifier<'w> {
    keyword: &'static str,
    text: &'w str,
}

// The identifier of the schema at a place.
fn identifier_at<'w>(
    alloc: Global,
    given: &Given<'_, 'w, '_, '_>,
    site: Site<'_>,
) -> Result<Option<Identifier<'w>>, AllocError> {
    let Some(schema) = schema_at(alloc, given, site)? else {
        return Ok(None);
    };
    if ResourceRef::new(schema.value, schema.draft).id().is_none() {
        return Ok(None);
    }
    let keyword = schema.draft.id_keyword();
    match text_under(schema.value, keyword) {
        Some(text) => Ok(Some(Identifier { keyword, text })),
        None => Ok(None),
    }
}

/// What a change of documents is by which the schema at a place gets another identifier, a URI reference without a fragment. The references that mean it by its identifier
/// follow, each written as it was; those by the URI of a file stay. Refused where no schema with an identifier is there, where the text is none, and where something has the
/// URI that it means. Linear in the documents, with a look-up for each reference.
pub fn renamed_identifier(
    alloc: Global,
    given: &Given<'_, '_, '_, '_>,
    site: Site<'_>,
    name: &str,
) -> Result<Plan, Unmade> {
    let Some(identifier) = identifier_at(alloc, given, site)? else {
        return Err(Unmade::Refused(Refusal::NoIdentifier));
    };
    check_text(identifier.text, name)?;
    let mut changes = Vec::new(alloc);
    push_change(&mut changes, own_change(alloc, site, identifier, name)?)?;
    add_identified(alloc, given, site, &mut changes)?;
    Ok(Plan {
        changes,
        moved: Vec::new(alloc),
        uris: Vec::new(alloc),
    })
}

// Refuses a text that is no URI reference without a fragment, or is the identifier already.
fn check_text(old: &str, name: &str) -> Result<(), Refusal> {
    let (front, _) = parts(old);
    if front == name {
        return Err(Refusal::SameName);
    }
    if name.is_empty() || name.contains('#') || UriRef::parse(name).is_err() {
        return Err(Refusal::NoUri);
    }
    Ok(())
}

// The change of the identifier itself. A fragment that it has stays.
fn own_change(
    alloc: Global,
    site: Site<'_>,
    identifier: Identifier<'_>,
    name: &str,
) -> Result<Change, AllocError> {
    let (front, _) = parts(identifier.text);
    let rest = identifier.text.get(front.len()..).unwrap_or("");
    Ok(Change {
        document: site.document,
        pointer: under_keyword(alloc, site.pointer, identifier.keyword)?,
        part: Part::Text,
        old: String::from_str(alloc, identifier.text)?,
        new: joined(alloc, name, rest)?,
    })
}

// Adds the changes of the references that follow an identifier.
fn add_identified(
    alloc: Global,
    given: &Given<'_, '_, '_, '_>,
    site: Site<'_>,
    changes: &mut Vec<Change>,
) -> Result<(), Unmade> {
    let edits = edits_of(alloc, given, changes.as_slice())?;
    let values = values_of(alloc, given, edits.as_slice())?;
    add_between(alloc, given, site, values.as_slice(), changes)
}

fn add_between(
    alloc: Global,
    given: &Given<'_, '_, '_, '_>,
    site: Site<'_>,
    values: &[Option<Value>],
    changes: &mut Vec<Change>,
) -> Result<(), Unmade> {
    let between = registry_after(alloc, given.registry, given.draft, &[], values)?;
    let added = add_free(alloc, given, site, &between, changes);
    drop(between);
    added
}

// Adds them, where nothing has the URI that the identifier means.
fn add_free(
    alloc: Global,
    given: &Given<'_, '_, '_, '_>,
    site: Site<'_>,
    between: &Registry<'_>,
    changes: &mut Vec<Change>,
) -> Result<(), Unmade> {
    if is_taken(alloc, given, site, between)? {
        return Err(Unmade::Refused(Refusal::Taken));
    }
    Ok(add_followed(alloc, given, between, changes)?)
}

// Whether something else has the URI already that a schema has by its identifier after.
fn is_taken(
    alloc: Global,
    given: &Given<'_, '_, '_, '_>,
    site: Site<'_>,
    between: &Registry<'_>,
) -> Result<bool, AllocError> {
    for place in &places_of(alloc, between)? {
        if place.document == site.document && is_at(alloc, place, site.pointer)? {
            return Ok(match led_from(alloc, given.registry, &place.base, "#")? {
                Some(led) => {
                    led.document != site.document || led.pointer.as_str() != site.pointer
                }
                None => false,
            });
        }
    }
    Ok(false)
}

fn is_at(alloc: Global, place: &Place<'_>, pointer: &str) -> Result<bool, AllocError> {
    Ok(pointer_of(alloc, place.path.as_slice())?.as_str() == pointer)
}
