//! A dialect whose meta-schema is in a parent.
ghost use Rattle.std.specs.Prelude.{◌≡◌, IfOk, IfErr};
ghost use Rattle.serde_json.specs.View.{view};
ghost use Rattle.referencing.specs.World.{World};
ghost use Rattle.referencing.specs.Vocabularies.{find_vocabularies};
ghost use Rattle.uses.specs.Uses.{IsPreparedAbove, IsRefusedAbove};

use referencing::{Draft, Error, Registry, VocabularySet};
use serde_json::Value;
use std::alloc::Global;

/// The vocabularies of a schema that is read by a draft, in a registry of its own above one that has the meta-schemas.
///
/// Refuses as [`Registry::add`] and [`RegistryBuilder::prepare`](referencing::RegistryBuilder::prepare) do.
pub fn vocabularies_of(
    alloc: Global,
    parent: &Registry<'_>,
    uri: &str,
    draft: Draft,
    schema: &Value,
) -> Result<VocabularySet, Error>
    ensures value { IfOk result
        (λ set. (world : World) × IsPreparedAbove parent.now uri.now (view schema.now) world
        × (set ≡ find_vocabularies world draft (view schema.now))) }
    ensures fault { IfErr result (IsRefusedAbove parent.now uri.now (view schema.now)) }
{
    let child = parent.add(alloc, uri, schema)?.prepare()?;
    let set = child.find_vocabularies(alloc, draft, schema)?;
    Ok(set)
}
