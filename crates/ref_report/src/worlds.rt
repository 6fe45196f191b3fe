//! The documents that a request's steps are followed among.
ghost use Rattle.std.specs.Prelude.{◌≡◌, [], IfOk, IfErr, Ok, option_map, unwrap_or};
ghost use Rattle.ref_definitions.specs.Pending.{given_of_builder};
ghost use Rattle.ref_definitions.specs.Retrievers.{map_retriever};
ghost use Rattle.ref_error.specs.Retrieving.{trees_of};
ghost use Rattle.ref_registries.specs.Worlds.{pending_of, IsWorld, IsErrorOf};
ghost use Rattle.ref_report.specs.Worlds.{AreParents};
ghost use Rattle.ref_report.specs.inner.View.{documents_view};

use crate::request::Document;
use ref_registries::{registry_from, registry_from_meta_schemas};
use referencing::{DEFAULT_RETRIEVAL_LIMIT, Draft, Error, MapRetriever, Registry, Uri};
use serde_json::Value;
use std::alloc::{AllocError, Global};

/// The registry of the meta-schemas, where a request has some. Refuses as [`registry_from_meta_schemas`] does.
pub fn parent_of<'m>(
    alloc: Global,
    meta: Option<Vec<Document<'m>>>,
) -> Result<Option<Registry<'m>>, Error>
    ensures ok { IfOk result
        (λ parent. AreParents (option_map (λ v. documents_view v.items) meta.entry)
        (Ok (unwrap_or parent []))) }
    ensures fault { IfErr result
        (IsErrorOf (AreParents (option_map (λ v. documents_view v.items) meta.entry))) }
{
    match meta {
        Some(documents) => {
            let parent = registry_from_meta_schemas(alloc, documents)?;
            Ok(Some(parent))
        }
        None => Ok(None),
    }
}

/// The registry of the documents above the meta-schemas, with what is retrieved for them. Refuses as [`registry_from`] does.
pub fn world_of<'b>(
    alloc: Global,
    parent: &'b Option<Registry<'_>>,
    documents: Vec<Document<'b>>,
    remote: Option<Vec<(Uri, Value)>>,
    draft: Option<Draft>,
    limit: Option<u64>,
) -> Result<Registry<'b>, Error>
    ensures ok { IfOk result
        (λ world. IsWorld
        (given_of_builder
        (map_retriever (unwrap_or (option_map (λ v. trees_of v.items) remote) []))
        (unwrap_or limit 10000) draft (unwrap_or parent.now []))
        (pending_of (documents_view documents.entry.items)) (Ok world)) }
    ensures fault { IfErr result
        (IsErrorOf
        (IsWorld
        (given_of_builder
        (map_retriever (unwrap_or (option_map (λ v. trees_of v.items) remote) []))
        (unwrap_or limit 10000) draft (unwrap_or parent.now []))
        (pending_of (documents_view documents.entry.items)))) }
{
    let retriever = retriever_of(alloc, remote)?;
    let draft = draft.unwrap_or(Draft::Draft202012);
    let limit = limit.unwrap_or(DEFAULT_RETRIEVAL_LIMIT as u64) as usize;
    registry_from(alloc, parent.as_ref(), documents, draft, limit, retriever)
}

// What can be retrieved.
fn retriever_of(
    alloc: Global,
    remote: Option<Vec<(Uri, Value)>>,
) -> Result<MapRetriever, AllocError>
    ensures { IfOk result
        (λ retriever. trees_of retriever
        ≡ unwrap_or (option_map (λ v. trees_of v.items) remote) []) }
{
    let pairs = match remote {
        Some(pairs) => pairs,
        None => Vec::new(alloc),
    };
    MapRetriever::from_pairs(alloc, pairs)
}
