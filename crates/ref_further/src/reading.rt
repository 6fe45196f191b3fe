//! A registry's documents as references are followed in them.
ghost use Rattle.std.specs.Prelude.{◌≡◌, map, IfOk, OnOk, ◌++◌, ◌∷◌, []};
ghost use Rattle.std.specs.Option.{option_to_list};
ghost use Rattle.ref_definitions.specs.World.{local_documents};
ghost use Rattle.referencing.specs.Document.{document_of};
ghost use Rattle.ref_reach.specs.Views.{source_of as source_view};
ghost use Rattle.ref_further.specs.Further.{source_of, unnamed_draft, draft_of, numbers_below};

use ref_draft::Draft;
use ref_index::meanings::text_under;
use ref_reach::Source;
use referencing::{Document, Registry};
use std::alloc::{AllocError, Global};

// The draft of a document that names none.
fn unnamed_draft(document: &Document<'_>) -> Option<Draft>
    ensures { option_to_list result ≡ unnamed_draft (document_of document.now) }
{
    if text_under(document.contents.value(), "$schema").is_some() {
        return None;
    }
    Some(document.draft)
}

/// The draft that documents are read by that name none: that of the first of them.
pub(crate) fn draft_of(registry: &Registry<'_>) -> Draft
    ensures value { result ≡ draft_of (local_documents registry.now) }
{
    for document in registry.documents() {
        if let Some(draft) = unnamed_draft(document) {
            return draft;
        }
    }
    Draft::Draft202012
}

/// The documents, whose values aren't copied.
pub(crate) fn sources_of<'r>(
    alloc: Global,
    registry: &'r Registry<'_>,
) -> Result<Vec<Source<'r>>, AllocError>
    ensures value { IfOk result
        (λ sources. map source_view sources.items
        ≡ map source_of (local_documents registry.now)) }
{
    let documents = registry.documents();
    let mut sources = Vec::with_capacity(alloc, documents.len())?;
    for document in documents {
        let uri = document.uri.clone()?;
        sources.push(Source {
            uri,
            value: document.contents.value(),
        })?;
    }
    Ok(sources)
}

/// This many numbers, from 0 on.
pub(crate) fn numbers_below(alloc: Global, count: usize) -> Result<Vec<usize>, AllocError>
    ensures value { IfOk result (λ numbers. numbers.items ≡ numbers_below count) }
{
    let mut numbers = Vec::with_capacity(alloc, count)?;
    for number in 0..count {
        numbers.push(number)?;
    }
    Ok(numbers)
}
