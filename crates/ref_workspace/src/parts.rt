//! Look-ups from places of descriptions: their schemas have identifiers from 3.1 on, and those of 3.2 a `$self`, which a registry of
//! documents doesn't know.
use crate::described::{Described, Description, numbered_sources};
use crate::follow::{Found, Start};
use crate::workspace::Workspace;
use crate::world::World;
use ref_descriptions::Reading;
use ref_draft::Draft;
use ref_index::segments_of;
use ref_parts::list::List;
use ref_parts::path::JsonPointerNode;
use ref_parts::pointer_of;
use ref_reach::{Documents, Place, Target, documents_of, target};
use ref_uri::Uri;
use std::alloc::{AllocError, Global};
use std::collections::BTreeMap;
use std::rc::Rc;

/// The documents of a registry of which one is a description, with those parts of descriptions that have URIs of their own.
#[derive(Drop)]
pub(crate) struct Parts<'w> {
    documents: Documents<'w>,
    // The number in the workspace of each document.
    numbers: Vec<usize>,
    // By the number in the workspace, whether one is a description, or a part of one as a whole.
    is_described: Vec<bool>,
    // The number in the workspace of the document that has each of these URIs.
    uris: BTreeMap<String, usize>,
    // What is known of the places of descriptions, by the number of the document in the workspace and the pointer.
    places: BTreeMap<(usize, String), Known>,
}

// What is known of a place: its base URI, and how it is read.
#[derive(Drop)]
struct Known {
    base: Rc<Uri>,
    reading: Reading,
}

/// Those of a workspace that are looked at, of which this is known. One pass over the descriptions, and a look-up table of their places.
pub(crate) fn parts_of<'w>(
    alloc: Global,
    workspace: &'w Workspace,
    there: &[bool],
    description: Description<'w>,
) -> Result<Parts<'w>, AllocError> {
    let places = places_of(alloc, &description)?;
    let mut described = Described::among(alloc, workspace, there)?;
    described.is_described = description.is_described;
    parts_by(alloc, workspace, described, places)
}

// What is known of the places of descriptions: of one that is reached more than once, what was met first.
fn places_of(
    alloc: Global,
    description: &Description<'_>,
) -> Result<BTreeMap<(usize, String), Known>, AllocError> {
    let mut places = BTreeMap::new(alloc);
    for place in &description.places {
        if place.reading.version.is_some() {
            let key = (place.document, pointer_of(alloc, place.path.as_slice())?);
            if places.get(&key).is_none() {
                let base = place.base.clone()?;
                let reading = place.reading;
                places.insert(key, Known { base, reading })?;
            }
        }
    }
    Ok(places)
}

fn parts_by<'w>(
    alloc: Global,
    workspace: &'w Workspace,
    described: Described,
    places: BTreeMap<(usize, String), Known>,
) -> Result<Parts<'w>, AllocError> {
    let numbered = numbered_sources(alloc, workspace, &described)?;
    let documents = documents_of(alloc, workspace.draft(), numbered.sources.as_slice())?;
    let uris = uris_of(alloc, &documents, numbered.numbers.as_slice())?;
    Ok(Parts {
        documents,
        numbers: numbered.numbers,
        is_described: described.is_described,
        uris,
        places,
    })
}

// The URIs that parts of descriptions have by themselves.
fn uris_of(
    alloc: Global,
    documents: &Documents<'_>,
    numbers: &[usize],
) -> Result<BTreeMap<String, usize>, AllocError> {
    let mut uris = BTreeMap::new(alloc);
    for place in documents.own() {
        if let (true, Some(number)) = (place.is_identified, numbers.get(place.document)) {
            uris.insert(String::from_str(alloc, place.base.as_str())?, *number)?;
        }
    }
    Ok(uris)
}

impl<'w> Parts<'w> {
    /// Whether the document with a number is a description, or a part of one as a whole.
    pub fn is_described(&self, number: usize) -> bool {
        self.is_described.get(number).copied().unwrap_or(false)
    }

    /// The number of the document in which a part has a URI.
    pub fn number_of(&self, uri: &str) -> Option<usize> {
        self.uris.get(uri).copied()
    }

    /// What a reference leads to from a base URI in the document with a number: nothing where it leads nowhere, or into none of the documents.
    pub fn found(
        &self,
        alloc: Global,
        workspace: &'w Workspace,
        world: &'w World<'_>,
        start: Start<'_>,
        base: &Uri,
        reference: &str,
    ) -> Result<Option<Found<'w>>, AllocError> {
        let Some(value) = workspace.value(start.number) else {
            return Ok(None);
        };
        let place = Place {
            document: 0,
            path: JsonPointerNode::new(),
            value,
            reading: Reading::of_schema(workspace.draft()),
            base: Rc::new(alloc, base.clone()?)?,
            is_identified: false,
        };
        match target(alloc, &self.documents, &place, reference)? {
            Some(target) => self.found_at(alloc, world, place.base, target),
            None => Ok(None),
        }
    }

    // What was found from a base URI, where its document is in the registry.
    fn found_at(
        &self,
        alloc: Global,
        world: &'w World<'_>,
        from: Rc<Uri>,
        target: Target<'w>,
    ) -> Result<Option<Found<'w>>, AllocError> {
        let Target {
            document,
            path,
            value,
            draft,
            base,
        } = target;
        let number = self.numbers.get(document).copied().unwrap_or(usize::MAX);
        let Some(document) = world.number(number) else {
            return Ok(None);
        };
        let path = segments_of(alloc, &path)?;
        let pointer = pointer_of(alloc, path.as_slice())?;
        let (base, draft) = self.known_at(alloc, number, pointer.as_str(), (base, draft))?;
        let scope = List::new().push_front(alloc, from)?;
        Ok(Some(Found {
            value,
            draft,
            resolver: world.registry.resolver_from_parts(base, scope),
            document,
            pointer,
        }))
    }

    // The base URI and the draft of what is at a pointer of the document with a number: those of the place there, or else these of the look-up.
    fn known_at(
        &self,
        alloc: Global,
        number: usize,
        pointer: &str,
        (base, draft): (Rc<Uri>, Draft),
    ) -> Result<(Rc<Uri>, Draft), AllocError> {
        let key = (number, String::from_str(alloc, pointer)?);
        match self.places.get(&key) {
            Some(known) => {
                let reading = known.reading;
                let draft = if reading.is_by_draft() {
                    reading.draft
                } else {
                    draft
                };
                Ok((known.base.clone()?, draft))
            }
            None => Ok((base, draft)),
        }
    }

    /// How the place of a description is read that is at a pointer of the document with a number: nothing where there is none.
    pub fn reading_at(
        &self,
        alloc: Global,
        start: Start<'_>,
    ) -> Result<Option<Reading>, AllocError> {
        let key = (start.number, String::from_str(alloc, start.pointer)?);
        match self.places.get(&key) {
            Some(known) => Ok(Some(known.reading)),
            None => Ok(None),
        }
    }
}
