//! A retriever that is asked no more for what it refused.
use ref_error::{Reason, Retrieve, RetrieveError};
use ref_uri::Uri;
use serde_json::Value;
use std::alloc::{AllocError, Global};
use std::cell::Cell;
use std::collections::BTreeMap;

/// A retriever, and the URIs that it refused.
#[derive(Drop)]
pub(crate) struct Asking<'r, R: Retrieve> {
    alloc: Global,
    retriever: &'r R,
    refused: Cell<BTreeMap<String, ()>>,
}

impl<'r, R: Retrieve> Asking<'r, R> {
    /// The retriever, which has refused nothing yet.
    pub(crate) fn new(alloc: Global, retriever: &'r R) -> Asking<'r, R> {
        Asking {
            alloc,
            retriever,
            refused: Cell::new(BTreeMap::new(alloc)),
        }
    }

    fn has_refused(&self, uri: &Uri) -> bool {
        let refused = self.refused.replace(BTreeMap::new(self.alloc));
        let has_refused = refused.contains_key(uri.as_str());
        self.refused.set(refused);
        has_refused
    }

    fn note_refused(&self, uri: &Uri) -> Result<(), AllocError> {
        let mut refused = self.refused.replace(BTreeMap::new(self.alloc));
        let noted = note(self.alloc, &mut refused, uri);
        self.refused.set(refused);
        noted
    }
}

fn note(alloc: Global, refused: &mut BTreeMap<String, ()>, uri: &Uri) -> Result<(), AllocError> {
    let text = String::from_str(alloc, uri.as_str())?;
    refused.insert(text, ())?;
    Ok(())
}

/// It returns what the retriever returns, and refuses what that refused before without asking it again.
impl<R: Retrieve> Retrieve for Asking<'_, R> {
    ghost use Rattle.ref_definitions.specs.Retrievers.{any_retriever};

    ghost meaning = { λ _. any_retriever };

    fn retrieve(&self, alloc: Global, uri: &Uri) -> Result<Value, RetrieveError> {
        if self.has_refused(uri) {
            return Err(RetrieveError::Refused(Reason::NoDocument));
        }
        match self.retriever.retrieve(alloc, uri) {
            Ok(value) => Ok(value),
            Err(RetrieveError::Refused(reason)) => {
                self.note_refused(uri)?;
                Err(RetrieveError::Refused(reason))
            }
            Err(RetrieveError::Memory(error)) => Err(RetrieveError::Memory(error)),
        }
    }
}
