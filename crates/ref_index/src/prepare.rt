//! Preparing: documents are walked, and what they want is retrieved, one document after another.
ghost use Rattle.std.specs.Prelude.{◌≡◌, map, IfOk, IfErr, Ok};
ghost use Rattle.ref_definitions.specs.Fault.{RetrievalLimit};
ghost use Rattle.ref_definitions.specs.Wants.{faults};
ghost use Rattle.ref_definitions.specs.Preparing.{IsOutcome, refusal_fault};
ghost use Rattle.ref_error.specs.Errors.{reason_text, IsForReason, SaysOrMemory};
ghost use Rattle.ref_index.specs.Document.{document_of};
ghost use Rattle.ref_index.specs.inner.Found.{cause_of, want_of};
ghost use Rattle.ref_index.specs.Faults.{IsFirstFault};
ghost use Rattle.ref_index.specs.Retrieval.{given_with, IsFaultyOutcome};
ghost use Rattle.ref_index.specs.inner.Retrieved.{IsAnswerFor, IsRefusalOf};

use crate::document::{Contents, Document};
use crate::found::{Cause, Want};
use crate::index::Index;
use crate::walked::Walked;
use ref_draft::Draft;
use ref_error::{Error, Reason, Retrieve, RetrieveError};
use ref_uri::UriFault;
use std::alloc::Global;

// Documents walked one after another. After the first there is room for as many like it as there are documents.
fn walk_all<'a>(alloc: Global, documents: Vec<Document<'a>>) -> Result<Walked<'a>, UriFault>
    ensures value { IfOk result (λ walked. walked ≡ map document_of documents.entry.items) }
    ensures fault { IfErr result (IsFirstFault (faults (map document_of documents.entry.items))) }
{
    let mut times = documents.len();
    let mut walked = Walked::new(alloc);
    for document in documents {
        walked = walked.append(alloc, document)?;
        if times > 1 {
            walked = walked.with_room(times)?;
            times = 0;
        }
    }
    Ok(walked)
}

// The error of a want that is refused for a reason.
fn refusal(alloc: Global, want: &Want, reason: Reason) -> Error
    ensures fault { SaysOrMemory
        (refusal_fault (cause_of want.now.cause) want.now.uri.value (reason_text reason)) result }
    ensures reason { IsForReason result reason }
{
    let uri = match String::from_str(alloc, want.uri.as_str()) {
        Ok(uri) => uri,
        Err(error) => return Error::Memory(error),
    };
    match want.cause {
        Cause::Reference => Error::unretrievable(uri, RetrieveError::Refused(reason)),
        Cause::MetaSchema => Error::unknown_specification(uri),
    }
}

// The error of a want where as many documents were retrieved as may be.
fn limit_reached(alloc: Global, want: &Want, limit: usize) -> Error
    ensures { SaysOrMemory (RetrievalLimit want.now.uri.value limit) result }
{
    match String::from_str(alloc, want.uri.as_str()) {
        Ok(uri) => Error::RetrievalLimit { uri, limit },
        Err(error) => Error::Memory(error),
    }
}

// The document that is wanted.
fn retrieved<'a, R: Retrieve>(
    alloc: Global,
    retriever: &R,
    draft: Draft,
    want: &Want,
) -> Result<Document<'a>, Error>
    ensures ok { IfOk result
        (λ d. IsAnswerFor (R.meaning retriever.now) draft want.now.uri.value (document_of d)) }
    ensures fault { IfErr result (IsRefusalOf (R.meaning retriever.now) (want_of want.now)) }
{
    let value = match retriever.retrieve(alloc, &want.uri) {
        Ok(value) => value,
        Err(RetrieveError::Refused(reason)) => return Err(refusal(alloc, want, reason)),
        Err(RetrieveError::Memory(error)) => return Err(Error::Memory(error)),
    };
    let draft = draft.detect(&value);
    let uri = (*want.uri).clone()?;
    Ok(Document {
        uri,
        contents: Contents::Owned(value),
        draft,
    })
}

/// The index of the documents and of those that they want and that are retrieved, at most `limit` of them: for the first
/// want that is open the retriever is asked, and what it returns is walked before the next. `draft` detects the drafts of
/// retrieved documents; a parent's places meet wants too, nearest first.
///
/// Refuses as `InvalidUri` for the first fault of the documents so far, as `RetrievalLimit` where a want is open and `limit`
/// documents were retrieved, as `Unretrievable` for a reference and `UnknownSpecification` for a meta-schema that the
/// retriever refuses, and as `Memory` where memory is refused, the retriever's too. Each place is visited
/// once, with a look-up for what it wants; URIs and names are copied for the tables, which are sorted once, and the keys of
/// paths where their document is not borrowed. No value is.
pub fn prepare<'a, R: Retrieve>(
    alloc: Global,
    retriever: &R,
    limit: usize,
    draft: Draft,
    parents: &[&Index<'_>],
    documents: Vec<Document<'a>>,
) -> Result<Index<'a>, Error>
    ensures outcome { IfOk result
        (λ index. IsOutcome
        (given_with (R.meaning retriever.now) limit draft
        (map (λ p. p.now) parents.now) (map document_of documents.entry.items))
        (Ok index)) }
    ensures fault { IfErr result
        (IsFaultyOutcome
        (given_with (R.meaning retriever.now) limit draft
        (map (λ p. p.now) parents.now) (map document_of documents.entry.items))) }
{
    let mut walked = walk_all(alloc, documents)?;
    let mut next = walked.first_open(parents, 0);
    let mut count = 0;
    while let Some(want) = walked.want(next) {
        if count == limit {
            return Err(limit_reached(alloc, want, limit));
        }
        let document = retrieved(alloc, retriever, draft, want)?;
        walked = walked.append(alloc, document)?;
        next = walked.first_open(parents, next);
        count += 1;
    }
    Ok(walked.into_index(alloc)?)
}
