//! What is asked of documents again and again while they stay as they are: where references lead.
use crate::described::Description;
use crate::follow::{Found, Outcome, Start, looked_up};
use crate::parts::{Parts, parts_of};
use crate::workspace::Workspace;
use crate::world::{World, bearers, without_fragment};
use ref_descriptions::Reading;
use ref_error::Error;
use ref_parts::path::JsonPointerSegment;
use ref_parts::pointer_of;
use ref_uri::Uri;
use std::alloc::{AllocError, Global};
use std::collections::BTreeMap;
use std::rc::Rc;

/// The documents of a workspace with their registry, and what is looked up in it for each reference.
#[derive(Drop)]
pub struct View<'w, 'd> {
    /// The documents.
    pub workspace: &'w Workspace,
    /// Their registry.
    pub world: &'w World<'d>,
    // The number in the registry of the document that has each URI.
    bearers: BTreeMap<String, usize>,
    // The base URIs of the places that have another one than their document, by the number of the document in the workspace and the
    // pointer.
    bases: BTreeMap<(usize, String), Rc<Uri>>,
    // The descriptions, where there are any.
    parts: Option<Parts<'w>>,
}

impl<'w, 'd> View<'w, 'd> {
    /// That of a workspace with its registry. A walk over all documents of the registry, and over what their references lead to.
    pub fn of(
        alloc: Global,
        workspace: &'w Workspace,
        world: &'w World<'d>,
    ) -> Result<View<'w, 'd>, AllocError> {
        let there = world.flags(alloc, workspace.len())?;
        let description = workspace.description_among(alloc, there.as_slice(), true)?;
        let bases = bases_of(alloc, workspace, world, &description)?;
        Ok(View {
            workspace,
            world,
            bearers: bearers(alloc, world)?,
            bases,
            parts: parts_among(alloc, workspace, there.as_slice(), description)?,
        })
    }

    /// The base URI at a place of a document: that of the innermost schema around it, or object of a description. Nothing where no document has
    /// the number.
    pub fn base_at(&self, alloc: Global, start: Start<'_>) -> Result<Option<&Uri>, AllocError> {
        let Some(own) = self.workspace.uri(start.number) else {
            return Ok(None);
        };
        let mut front = start.pointer;
        for _ in 0..=start.pointer.len() {
            let key = (start.number, String::from_str(alloc, front)?);
            if let Some(base) = self.bases.get(&key) {
                return Ok(Some(&**base));
            }
            match front.rsplit_once('/') {
                Some((shorter, _)) => front = shorter,
                None => break,
            }
        }
        Ok(Some(own))
    }

    /// How the object at a place is read, where the place is one of a description, or of what a description leads to: nothing elsewhere, and where
    /// nothing leads there. A look-up.
    pub fn reading_at(
        &self,
        alloc: Global,
        start: Start<'_>,
    ) -> Result<Option<Reading>, AllocError> {
        match &self.parts {
            Some(parts) => parts.reading_at(alloc, start),
            None => Ok(None),
        }
    }

    /// What a reference leads to from a place of a document, as [`followed`](crate::follow::followed) has it; the place need not be
    /// there. Refuses as that does.
    pub fn led(
        &self,
        alloc: Global,
        start: Start<'_>,
        reference: &str,
    ) -> Result<Outcome<'w>, Error> {
        let Some(base) = self.base_at(alloc, start)? else {
            return Ok(Outcome::NoPlace);
        };
        let base = base.clone()?;
        let world = self.world;
        let uri = world.registry.resolve_uri(alloc, base.borrow(), reference)?;
        match self.number_of(uri.as_str()) {
            None => Ok(Outcome::Missing(uri)),
            Some(number) if self.workspace.value(number).is_none() => Ok(Outcome::Broken(number)),
            Some(_) => match self.found(alloc, start, &base, reference)? {
                Some(found) => Ok(Outcome::Found(found)),
                None if self.is_of_part(uri.as_str()) => Ok(Outcome::Nowhere(uri)),
                None => Ok(Outcome::Found(looked_up(alloc, world, base, reference)?)),
            },
        }
    }

    // What a reference leads to from a description.
    fn found(
        &self,
        alloc: Global,
        start: Start<'_>,
        base: &Uri,
        reference: &str,
    ) -> Result<Option<Found<'w>>, AllocError> {
        match &self.parts {
            Some(parts) if parts.is_described(start.number) => {
                parts.found(alloc, self.workspace, self.world, start, base, reference)
            }
            _ => Ok(None),
        }
    }

    // Whether a part of a description has a URI, and no document.
    fn is_of_part(&self, uri: &str) -> bool {
        self.bearers.get(without_fragment(uri)).is_none()
    }

    /// The number of the document that has a URI, by its own or by that of a schema in it.
    pub fn number_of(&self, uri: &str) -> Option<usize> {
        let uri = without_fragment(uri);
        if let Some(document) = self.bearers.get(uri) {
            return self.world.sources.get(*document).copied();
        }
        self.parts.as_ref()?.number_of(uri)
    }
}

// The descriptions among the documents that are looked at, by flags, where there are any.
fn parts_among<'w>(
    alloc: Global,
    workspace: &'w Workspace,
    there: &[bool],
    description: Description<'w>,
) -> Result<Option<Parts<'w>>, AllocError> {
    if !description.is_described.iter().any(|is| *is) {
        return Ok(None);
    }
    Ok(Some(parts_of(alloc, workspace, there, description)?))
}

// The base URIs of the places that have another one than their document: of descriptions, of schemas, and of what references of these lead to.
fn bases_of(
    alloc: Global,
    workspace: &Workspace,
    world: &World<'_>,
    description: &Description<'_>,
) -> Result<BTreeMap<(usize, String), Rc<Uri>>, AllocError> {
    let mut bases = BTreeMap::new(alloc);
    for place in &world.places(alloc)? {
        if let Some(number) = world.sources.get(place.document).copied() {
            if !description.is_described_at(number) {
                let spot = (number, place.path.as_slice());
                add_base(alloc, workspace, spot, &place.base, &mut bases)?;
            }
        }
    }
    for place in &description.places {
        let spot = (place.document, place.path.as_slice());
        add_base(alloc, workspace, spot, &place.base, &mut bases)?;
    }
    Ok(bases)
}

// Adds the base URI of a place, which is at a path of the document with a number, where it is another one than the document's. Of several
// the first counts.
fn add_base(
    alloc: Global,
    workspace: &Workspace,
    (number, path): (usize, &[JsonPointerSegment<'_>]),
    base: &Rc<Uri>,
    bases: &mut BTreeMap<(usize, String), Rc<Uri>>,
) -> Result<(), AllocError> {
    if workspace
        .uri(number)
        .is_some_and(|uri| uri.as_str() == base.as_str())
    {
        return Ok(());
    }
    let key = (number, pointer_of(alloc, path)?);
    if bases.get(&key).is_none() {
        bases.insert(key, base.clone()?)?;
    }
    Ok(())
}
