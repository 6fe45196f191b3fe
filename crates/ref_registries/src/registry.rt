//! The registry of documents.
ghost use Rattle.std.specs.Prelude.{◌≡◌, [], Some, Ok, IfOk, IfErr, option_map, unwrap_or};
ghost use Rattle.ref_definitions.specs.Fault.{as_invalid_uri};
ghost use Rattle.ref_definitions.specs.Pending.{given_of_builder};
ghost use Rattle.ref_definitions.specs.Retrievers.{map_retriever};
ghost use Rattle.ref_error.specs.Retrieving.{trees_of};
ghost use Rattle.referencing.specs.Builder.{builder_of};
ghost use Rattle.referencing.specs.MetaSchemas.{given_of_meta_schemas};
ghost use Rattle.ref_registries.specs.Worlds.{pending_of_documents, IsWorld, IsErrorOf};
ghost use Rattle.ref_registries.specs.inner.Holding.{Holds};

use referencing::{Draft, Error, IntoRegistryResource, MapRetriever, Registry, RegistryBuilder};
use std::alloc::Global;
use std::convert::AsStr;

// A builder with the documents, above a registry where there is one.
fn builder_of<'b, U: AsStr + Drop, T: IntoRegistryResource<'b> + Drop>(
    alloc: Global,
    above: Option<&'b Registry<'_>>,
    documents: Vec<(U, T)>,
) -> Result<RegistryBuilder<'b>, Error>
    ensures ok { IfOk result
        (λ b. Holds (unwrap_or (option_map (λ r. r.now) above.entry) [])
        (pending_of_documents U.text T.tree T.given_draft documents.items)
        (builder_of b)) }
    ensures fault { IfErr result
        (IsErrorOf
        (λ answer. as_invalid_uri (pending_of_documents U.text T.tree T.given_draft documents.items)
        ≡ answer)) }
{
    match above {
        Some(registry) => registry.extend(alloc, documents),
        None => Registry::new(alloc).extend(documents),
    }
}

/// The registry of documents, each under its text, above another where there is one. What they want and isn't there is
/// retrieved from the map, up to the limit; the draft is detected with. Refuses and costs as [`RegistryBuilder::extend`] and
/// [`RegistryBuilder::prepare`] do.
pub fn registry_from<'b, U: AsStr + Drop, T: IntoRegistryResource<'b> + Drop>(
    alloc: Global,
    above: Option<&'b Registry<'_>>,
    documents: Vec<(U, T)>,
    draft: Draft,
    limit: usize,
    remote: MapRetriever,
) -> Result<Registry<'b>, Error>
    ensures ok { IfOk result
        (λ world. IsWorld
        (given_of_builder (map_retriever (trees_of remote)) limit (Some draft)
        (unwrap_or (option_map (λ r. r.now) above.entry) []))
        (pending_of_documents U.text T.tree T.given_draft documents.items) (Ok world)) }
    ensures fault { IfErr result
        (IsErrorOf
        (IsWorld
        (given_of_builder (map_retriever (trees_of remote)) limit (Some draft)
        (unwrap_or (option_map (λ r. r.now) above.entry) []))
        (pending_of_documents U.text T.tree T.given_draft documents.items))) }
{
    let builder = builder_of(alloc, above, documents)?;
    builder
        .retriever(remote)
        .retrieval_limit(limit)
        .draft(draft)
        .prepare()
}

/// The registry of meta-schemas, each under its text, as [`Registry::from_meta_schemas`] prepares them.
pub fn registry_from_meta_schemas<'b, U: AsStr + Drop, T: IntoRegistryResource<'b> + Drop>(
    alloc: Global,
    documents: Vec<(U, T)>,
) -> Result<Registry<'b>, Error>
    ensures ok { IfOk result
        (λ world. IsWorld given_of_meta_schemas
        (pending_of_documents U.text T.tree T.given_draft documents.items) (Ok world)) }
    ensures fault { IfErr result
        (IsErrorOf
        (IsWorld given_of_meta_schemas
        (pending_of_documents U.text T.tree T.given_draft documents.items))) }
{
    let builder = builder_of(alloc, None, documents)?;
    builder.prepare()
}
