//! The anchors of schemas of descriptions, which a registry of documents doesn't have.
use crate::world::{fragment_of, without_fragment};
use ref_descriptions::Kind;
use ref_draft::Draft;
use ref_error::Error;
use ref_reach::{Finding, Place, Problem};
use ref_uri::Uri;
use std::alloc::{AllocError, Global};
use std::collections::BTreeMap;
use std::rc::Rc;

/// The anchors that schemas of descriptions have, from OpenAPI 3.1 on: the URI around each, a `#` and its name (2020-12 Core, 8.2.2).
#[derive(Drop)]
pub(crate) struct Anchors {
    names: BTreeMap<String, ()>,
}

/// Those of places that descriptions have by themselves, and of what is reached from these, where one of the findings may be about a name; else none.
pub(crate) fn anchors_for(
    alloc: Global,
    findings: &[Finding<'_>],
    own: &[Place<'_>],
    reached: &[Place<'_>],
) -> Result<Anchors, AllocError> {
    let mut anchors = Anchors {
        names: BTreeMap::new(alloc),
    };
    if findings.iter().any(|found| is_by_name(&found.problem)) {
        anchors.add_all(alloc, own)?;
        anchors.add_all(alloc, reached)?;
    }
    Ok(anchors)
}

impl Anchors {
    fn add_all(&mut self, alloc: Global, places: &[Place<'_>]) -> Result<(), AllocError> {
        for place in places {
            if place.reading.version.is_some() && place.reading.is_by_draft() {
                self.add(alloc, place)?;
            }
        }
        Ok(())
    }

    fn add(&mut self, alloc: Global, place: &Place<'_>) -> Result<(), AllocError> {
        for anchor in place.reading.draft.anchors(place.value) {
            let name = anchored(alloc, place.base.as_str(), anchor.name())?;
            self.names.insert(name, ())?;
        }
        Ok(())
    }

    /// What is wrong with a reference of this text that is to lead to an object of this kind, once these anchors are known: nothing where it names a schema that
    /// has one, and a schema is needed.
    pub fn judged(
        &self,
        alloc: Global,
        problem: Problem,
        wanted: Option<Kind>,
        text: Option<&str>,
    ) -> Result<Option<Problem>, AllocError> {
        let Some(uri) = named_in(&problem)? else {
            return Ok(Some(problem));
        };
        let name = fragment_of(text.unwrap_or(""));
        let full = anchored(alloc, uri.as_str(), name)?;
        if self.names.get(full.as_str()).is_none() {
            return Ok(Some(nowhere(alloc, uri, name)?));
        }
        match wanted {
            Some(Kind::Schema) | None => Ok(None),
            Some(wanted) => Ok(Some(Problem::WrongKind {
                uri,
                is: Kind::Schema,
                wanted,
            })),
        }
    }
}

// That a resource has no anchor of a name.
fn nowhere(alloc: Global, uri: Rc<Uri>, name: &str) -> Result<Problem, AllocError> {
    let anchor = String::from_str(alloc, name)?;
    let error = Error::NoSuchAnchor { anchor };
    Ok(Problem::LeadsNowhere { uri, error })
}

// The URI of what a reference points into by a name that isn't known there.
fn named_in(problem: &Problem) -> Result<Option<Rc<Uri>>, AllocError> {
    if !is_by_name(problem) {
        return Ok(None);
    }
    match problem {
        Problem::Unchecked { uri } => Ok(Some(uri.clone()?)),
        Problem::LeadsNowhere { uri, .. } => Ok(Some(uri.clone()?)),
        _ => Ok(None),
    }
}

// Whether a reference points by a name into a document that is there, and the name isn't known there. What isn't checked otherwise is a fragment in a meta-schema.
fn is_by_name(problem: &Problem) -> bool {
    match problem {
        Problem::Unchecked { uri } => Draft::from_schema_uri(uri.as_str()) == Draft::Unknown,
        Problem::LeadsNowhere { error, .. } => matches!(error, Error::NoSuchAnchor { .. }),
        _ => false,
    }
}

// A URI with the name of an anchor.
fn anchored(alloc: Global, uri: &str, name: &str) -> Result<String, AllocError> {
    [without_fragment(uri), "#", name].join(alloc, "")
}
