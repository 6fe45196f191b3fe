//! From a builder to a registry.
ghost use Rattle.std.specs.Prelude.{◌≡◌, ◌∷◌, ◌++◌, [], map, IfOk, IfErr, OnOk};
ghost use Rattle.ref_definitions.specs.Pending as world;
ghost use Rattle.ref_index.specs.Document.{document_of};
ghost use Rattle.ref_index.specs.Retrieval.{IsFaultyOutcome};
ghost use Rattle.referencing.specs.Builder.{pending_under, builder_of};
ghost use Rattle.ref_error.specs.Errors.{IsMemory};
ghost use Rattle.referencing.specs.Prepared.{given_of, IsPreparedOf, LimitIsUsedUp, AreComplete};

use crate::builder::RegistryBuilder;
use crate::input::PendingResource;
use crate::registry::Registry;
use indexmap::IndexMap;
use ref_draft::Draft;
use ref_error::{Error, Retrieve};
use ref_index::Document;
use ref_index::prepare::prepare;
use ref_uri::Uri;
use std::alloc::{AllocError, Global};

// A pending document, with the draft that it was given or that is detected on it.
fn document<'a>(draft: Draft, uri: Uri, resource: PendingResource<'a>) -> Document<'a>
    ensures { document_of result ≡ world.document_of draft (pending_under (uri, resource.entry)) }
{
    let PendingResource {
        contents,
        draft: given,
    } = resource;
    let draft = match given {
        Some(draft) => draft,
        None => draft.detect(contents.value()),
    };
    Document {
        uri,
        contents,
        draft,
    }
}

// Adds a document after the others.
fn push<'a>(documents: &mut Vec<Document<'a>>, document: Document<'a>) -> Result<(), AllocError>
    ensures { OnOk result (documents.new.items ≡ documents.old.items ++ document.entry ∷ []) }
{
    documents.push(document)?;
    Ok(())
}

// The pending documents, in their order.
fn documents<'a>(
    alloc: Global,
    draft: Draft,
    pending: IndexMap<Uri, PendingResource<'a>>,
) -> Result<Vec<Document<'a>>, AllocError>
    ensures { IfOk result
        (λ ds. map document_of ds.items
        ≡ map (world.document_of draft) (map pending_under pending.entry.entries)) }
{
    let mut documents = Vec::with_capacity(alloc, pending.len())?;
    for (uri, resource) in pending {
        push(&mut documents, document(draft, uri, resource))?;
    }
    Ok(documents)
}

impl<'a, R: Retrieve + Drop> RegistryBuilder<'a, R> {
    /// The registry of the documents that were added and of those that they want: for the first URI that a `$ref` or an
    /// unknown `$schema` names and that means no place, the retriever is asked, and its document is walked before the next;
    /// at most as many as the limit. It is above the builder's parents, whose places meet wants too. Nothing is
    /// retrieved once it is prepared.
    ///
    /// Refuses as `InvalidUri` for the first identifier, `$ref` or `$schema` of the documents that means no URI; as
    /// `RetrievalLimit` where a URI is wanted and as many documents were retrieved as may be; as `Unretrievable` for a `$ref`
    /// and `UnknownSpecification` for a `$schema` whose URI the retriever refuses; and as `Memory` where memory is refused, the
    /// retriever's too. Each place is visited once; URIs, names and paths are copied for the tables, which are sorted once, and
    /// no value is.
    pub fn prepare(self) -> Result<Registry<'a>, Error>
        ensures outcome { IfOk result
            (IsPreparedOf
            (given_of (R.meaning (builder_of self.entry).retriever) (builder_of self.entry))) }
        ensures fault { IfErr result
            (IsFaultyOutcome
            (given_of (R.meaning (builder_of self.entry).retriever) (builder_of self.entry))) }
        ensures alone { AreComplete
            (given_of (R.meaning (builder_of self.entry).retriever) (builder_of self.entry))
            → IfOk result
            (λ registry. registry
            ≡ (given_of (R.meaning (builder_of self.entry).retriever)
            (builder_of self.entry)).documents
            ∷ (builder_of self.entry).parents)
            × IfErr result IsMemory }
        ensures limit { IfErr result
            (LimitIsUsedUp
            (given_of (R.meaning (builder_of self.entry).retriever) (builder_of self.entry))) }
    {
        let draft = self.draft.unwrap_or(Draft::Draft202012);
        let documents = documents(self.alloc, draft, self.pending)?;
        let index = prepare(
            self.alloc,
            &self.retriever,
            self.limit,
            draft,
            self.parents.as_slice(),
            documents,
        )?;
        Ok(Registry::from_index(self.alloc, index, self.parents)?)
    }
}
