//! What the keys of objects mean.
use crate::given::Given;
use crate::names::{is_component, is_keyword, names_definitions};
use crate::plan::Site;
use crate::uses::{described_documents, is_true, places_of};
use ref_descriptions::{Kind, Version, version_of};
use ref_index::segments_of;
use ref_parts::pointer_of;
use ref_reach::Place as Surveyed;
use referencing::Registry;
use serde_json::Value;
use std::alloc::{AllocError, Global};
use std::collections::BTreeMap;

// Whether a document has a schema with a name among its components, as a description.
fn has_component(root: &Value, name: &str) -> bool {
    if version_of(root).is_none() {
        return false;
    }
    match root.pointer("/components/schemas") {
        Some(schemas) => schemas.get(name).is_some(),
        None => false,
    }
}

/// Whether a text in the mapping of a discriminator is the name of a schema: of the description that it is in, or else, in a document that is none, of any
/// description (OpenAPI 3.0 on, "Discriminator Object").
pub(crate) fn is_component_name(registry: &Registry<'_>, document: usize, text: &str) -> bool {
    let documents = registry.documents();
    if let Some(own) = documents.get(document) {
        let root = own.contents.value();
        if version_of(root).is_some() {
            return has_component(root, text);
        }
    }
    for other in documents {
        if has_component(other.contents.value(), text) {
            return true;
        }
    }
    false
}

/// What an object is whose keys have a meaning.
#[derive(Clone, Copy, Debug, Drop, PartialEq, Eq)]
pub(crate) enum Holder {
    /// A schema.
    Schema,
    /// The components of a description.
    Components,
    /// The root of a description of 2.0.
    Swagger,
    /// Another object of a description.
    Other,
}

// The objects of documents whose keys have a meaning, by the number of the document and the pointer.
#[derive(Drop)]
pub(crate) struct Holders {
    at: BTreeMap<(usize, String), Holder>,
}

// What an object of a description is.
fn holder_of(kind: Kind, version: Option<Version>) -> Holder {
    match kind {
        Kind::Schema => Holder::Schema,
        Kind::Components => Holder::Components,
        Kind::Root if version == Some(Version::V2_0) => Holder::Swagger,
        _ => Holder::Other,
    }
}

/// Those of the documents.
pub(crate) fn holders_of(
    alloc: Global,
    given: &Given<'_, '_, '_, '_>,
) -> Result<Holders, AllocError> {
    let mut holders = Holders {
        at: BTreeMap::new(alloc),
    };
    match holders.add_all(alloc, given) {
        Ok(()) => Ok(holders),
        Err(error) => {
            drop(holders);
            Err(error)
        }
    }
}

impl Holders {
    fn add_all(&mut self, alloc: Global, given: &Given<'_, '_, '_, '_>) -> Result<(), AllocError> {
        let described = described_documents(alloc, given)?;
        for place in &places_of(alloc, given.registry)? {
            if !is_true(described.as_slice(), place.document) && place.value.is_object() {
                let pointer = pointer_of(alloc, place.path.as_slice())?;
                self.at.insert((place.document, pointer), Holder::Schema)?;
            }
        }
        self.add_surveyed(alloc, given.survey.own())?;
        self.add_surveyed(alloc, given.survey.described())?;
        self.add_surveyed(alloc, given.survey.led())
    }

    // Adds objects of descriptions, or what references lead to.
    fn add_surveyed(&mut self, alloc: Global, places: &[Surveyed<'_>]) -> Result<(), AllocError> {
        for place in places {
            let path = segments_of(alloc, &place.path)?;
            let pointer = pointer_of(alloc, path.as_slice())?;
            let holder = holder_of(place.reading.kind, place.reading.version);
            self.at.insert((place.document, pointer), holder)?;
        }
        Ok(())
    }

    // The innermost of them around a member, with the rest of the member's pointer.
    fn around<'p>(
        &self,
        alloc: Global,
        site: Site<'p>,
    ) -> Result<Option<(Holder, &'p str)>, AllocError> {
        let mut front = site.pointer;
        for _ in 0..=site.pointer.len() {
            let Some((shorter, _)) = front.rsplit_once('/') else {
                return Ok(None);
            };
            front = shorter;
            let key = (site.document, String::from_str(alloc, front)?);
            if let Some(holder) = self.at.get(&key) {
                let rest = site.pointer.get(front.len()..).unwrap_or("");
                return Ok(Some((*holder, rest)));
            }
        }
        Ok(None)
    }

    /// What the key of a member is to be judged by.
    pub fn naming(&self, alloc: Global, site: Site<'_>) -> Result<Naming, AllocError> {
        match self.around(alloc, site)? {
            Some((holder, rest)) => Ok(naming_of(holder, rest)),
            None => Ok(Naming::Free),
        }
    }
}

/// What the key of a member means.
#[derive(Clone, Copy, Debug, Drop, PartialEq, Eq)]
pub(crate) enum Naming {
    /// Nothing but what references say.
    Free,
    /// Nothing, unless it is a keyword.
    Member,
    /// It is the name of a component.
    Component,
    /// Something by itself.
    Fixed,
}

// What the key of a member means, by the innermost object around it whose keys have a meaning, and the rest of the pointer from there.
fn naming_of(holder: Holder, rest: &str) -> Naming {
    let below = rest.strip_prefix('/').unwrap_or(rest);
    let Some((group, name)) = below.split_once('/') else {
        return match holder {
            Holder::Schema => Naming::Member,
            _ => Naming::Fixed,
        };
    };
    match holder {
        Holder::Schema if names_definitions(group) || !is_keyword(group) => Naming::Free,
        Holder::Components if is_component(group) && !name.contains('/') => Naming::Component,
        Holder::Swagger
            if matches!(group, "definitions" | "parameters" | "responses") && !name.contains('/') =>
            { Naming::Free }
        _ => Naming::Fixed,
    }
}
