//! The further places of a registry's documents.
ghost use Rattle.std.specs.Prelude.{List, map, length, IfOk};
ghost use Rattle.ref_definitions.specs.World.{local_documents};
ghost use Rattle.ref_reach.specs.Schemas.{AreSchemas};
ghost use Rattle.ref_reach.specs.Reached.{AreReached, around_descriptions, around_schemas};
ghost use Rattle.ref_reach.specs.Places.{Place as WorldPlace};
ghost use Rattle.ref_reach.specs.Views.{place_of};
ghost use Rattle.ref_reach.specs.Knowing.{known_of};
ghost use Rattle.ref_bundle.specs.Saying.{further_of};
ghost use Rattle.ref_further.specs.Further.{numbers_below, AreGrouped, AreFurtherIn, AreFurther};

use crate::grouping::{add_all, no_groups};
use crate::reading::{draft_of, numbers_below, sources_of};
use ref_bundle::Spot;
use ref_draft::Draft;
use ref_reach::{Documents, Place, Reached, documents_of, reach, reach_schemas, schemas_of};
use referencing::Registry;
use std::alloc::{AllocError, Global};

/// What is reached from the schemas of documents.
pub(crate) fn led<'r>(
    alloc: Global,
    documents: &Documents<'r>,
    draft: Draft,
) -> Result<Vec<Place<'r>>, AllocError>
    ensures { IfOk result
        (λ places. (schemas : List WorldPlace)
        × AreSchemas (known_of documents.now) draft
        (numbers_below (length (known_of documents.now).uris)) schemas
        × AreReached (around_schemas (known_of documents.now) schemas)
        (map place_of places.items)) }
{
    let numbers = numbers_below(alloc, documents.len())?;
    let schemas = schemas_of(alloc, documents, draft, numbers.as_slice())?;
    let Reached { places, .. } = reach_schemas(alloc, documents, &schemas)?;
    Ok(places)
}

/// What is reached from the descriptions among documents.
pub(crate) fn described<'r>(
    alloc: Global,
    documents: &Documents<'r>,
) -> Result<Vec<Place<'r>>, AllocError>
    ensures { IfOk result
        (λ places. AreReached (around_descriptions (known_of documents.now))
        (map place_of places.items)) }
{
    let Reached { places, .. } = reach(alloc, documents)?;
    Ok(places)
}

// These places, and those that descriptions have by themselves before them, document by document.
fn grouped<'r>(
    alloc: Global,
    documents: &Documents<'r>,
    described: &[Place<'r>],
    led: &[Place<'r>],
) -> Result<Vec<Vec<Spot<'r>>>, AllocError>
    ensures { IfOk result
        (λ groups. AreGrouped (known_of documents.now) (map place_of described.now)
        (map place_of led.now) (further_of groups.items)) }
{
    let mut groups = no_groups(alloc, documents.len())?;
    add_all(alloc, &mut groups, documents.own())?;
    add_all(alloc, &mut groups, described)?;
    add_all(alloc, &mut groups, led)?;
    Ok(groups)
}

// The further places of documents.
fn further_in<'r>(
    alloc: Global,
    documents: &Documents<'r>,
    draft: Draft,
) -> Result<Vec<Vec<Spot<'r>>>, AllocError>
    ensures { IfOk result
        (λ groups. AreFurtherIn (known_of documents.now) draft (further_of groups.items)) }
{
    let described = described(alloc, documents)?;
    let led = led(alloc, documents, draft)?;
    grouped(alloc, documents, described.as_slice(), led.as_slice())
}

/// The places of a registry's own documents that only references lead to, as definitions in groups, `$defs` of Draft 7, or
/// schemas in a document that is a map of them; and all places of the descriptions of OpenAPI and Swagger among the documents.
/// The list at a number has those of the document with that number, in the order in which they are met. Documents that name no
/// draft are read by that of the first of these. Fails only if out of memory. Each place is walked once, with a look-up for each
/// reference; no value is copied.
pub fn further_places<'r>(
    alloc: Global,
    registry: &'r Registry<'_>,
) -> Result<Vec<Vec<Spot<'r>>>, AllocError>
    ensures value { IfOk result
        (λ further. AreFurther (local_documents registry.now) (further_of further.items)) }
{
    let draft = draft_of(registry);
    let sources = sources_of(alloc, registry)?;
    let documents = documents_of(alloc, draft, sources.as_slice())?;
    further_in(alloc, &documents, draft)
}
