//! Meta-schemas: the URIs of the drafts' own, and registries of them.
ghost use Rattle.std.specs.Prelude.{◌≡◌, List, [], map, IfOk, IfErr, Ok};
ghost use Rattle.ref_definitions.specs.Fault.{as_invalid_uri};
ghost use Rattle.ref_definitions.specs.Pending.{Pending, with_additions};
ghost use Rattle.ref_error.specs.Errors.{IsFaultOf};
ghost use Rattle.referencing.specs.Builder.{builder_of, Adds, new_builder};
ghost use Rattle.referencing.specs.Prepared.{IsPreparedOf};
ghost use Rattle.referencing.specs.MetaSchemas.{meta_addition, given_of_meta_schemas, IsMetaSchemaFault};

use crate::builder::RegistryBuilder;
use crate::input::IntoRegistryResource;
use crate::registry::Registry;
pub use ref_draft::meta::{URIS, uris_are_of_all_drafts, uris_for_draft};
use ref_error::Error;
use serde_json::Value;
use std::alloc::Global;

// A builder with the pairs of texts and values.
fn builder_of<'a>(
    alloc: Global,
    pairs: &'a [(&'a str, &'a Value)],
) -> Result<RegistryBuilder<'a>, Error>
    ensures ok { IfOk result
        (λ b. Adds (with_additions [] (map meta_addition pairs.now))
        (new_builder (builder_of b).retriever [] []) (builder_of b)) }
    ensures fault { IfErr result
        (IsFaultOf (as_invalid_uri (with_additions [] (map meta_addition pairs.now)))) }
{
    let mut builder = RegistryBuilder::new(alloc, Vec::new(alloc));
    for pair in pairs {
        builder.push(pair.0, pair.1.into_pending())?;
    }
    Ok(builder)
}

impl<'a> Registry<'a> {
    /// The registry of meta-schemas, each under its text, as [`RegistryBuilder::extend`] adds them: without a draft, a parent
    /// and a retriever. Others can be added to it as documents, whose references it then meets.
    ///
    /// Refuses as `InvalidUri` for the first text that means no URI, and where all mean one, as
    /// [`RegistryBuilder::prepare`] does. Linear in the pairs and their places, but for the sorting of the tables; no value is
    /// copied.
    pub fn from_meta_schemas(
        alloc: Global,
        pairs: &'a [(&'a str, &'a Value)],
    ) -> Result<Registry<'a>, Error>
        ensures ok { IfOk result
            (λ registry. (pending : List Pending)
            × (with_additions [] (map meta_addition pairs.now) ≡ Ok pending)
            × IsPreparedOf (given_of_meta_schemas pending) registry) }
        ensures fault { IfErr result
            (IsMetaSchemaFault (with_additions [] (map meta_addition pairs.now))) }
    {
        builder_of(alloc, pairs)?.prepare()
    }
}
