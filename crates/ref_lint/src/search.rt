//! The look-up of each `$ref` of a registry's own documents.
ghost use Rattle.std.specs.Prelude.{◌≡◌, [], ◌++◌, codes, option_map, IfOk, IfErr, OnOk};
ghost use Rattle.std.specs.List.{All, AllZip};
ghost use Rattle.std.specs.Option.{option_to_list};
ghost use Rattle.serde_json.specs.View.{view};
ghost use Rattle.ref_draft.specs.Schema.{text_under};
ghost use Rattle.ref_definitions.specs.Lookup.{lookup};
ghost use Rattle.ref_index.specs.Listing.{listed_of};
ghost use Rattle.ref_error.specs.Errors.{IsMemory};
ghost use Rattle.ref_lint.specs.Dangling.{dangling, dangling_at};
ghost use Rattle.ref_lint.specs.Entries.{IsEntryOf, IsUnretrievable};
ghost use Rattle.ref_lint.specs.inner.Listed.{IsWhy, AreEntries};

use crate::entry::Dangling;
use referencing::{Error, Place, Registry, Uri};
use serde_json::Value;
use std::alloc::{AllocError, Global};

// The text under `$ref` of a value.
fn reference_in(value: &Value) -> Option<&str>
    ensures { option_map (λ text. text.now) result
        ≡ text_under (codes "$ref") (view value.now) }
{
    value.get("$ref").and_then(Value::as_str)
}

// Why a reference is unresolvable from a base with an empty dynamic scope, where it does.
fn fault_at(
    alloc: Global,
    registry: &Registry<'_>,
    base: &Uri,
    reference: &str,
) -> Result<Option<Error>, Error>
    ensures fault { IfOk result
        (IsWhy (lookup registry.now (record { base = base.now; scope = [] }) reference.now)) }
    ensures memory { IfErr result IsMemory }
{
    let Some(error) = registry.lookup(alloc, base.clone()?, reference).err() else {
        return Ok(None);
    };
    if error.is_memory() {
        return Err(error);
    }
    Ok(Some(error))
}

// The entry of a place's reference, where that is unresolvable.
fn entry_at<'r>(
    alloc: Global,
    registry: &'r Registry<'_>,
    place: Place<'r>,
) -> Result<Option<Dangling<'r>>, Error>
    ensures entry { IfOk result
        (AreEntries (dangling_at registry.now (listed_of place.entry))) }
    ensures memory { IfErr result IsMemory }
{
    let Some(reference) = reference_in(place.value) else {
        return Ok(None);
    };
    let Some(error) = fault_at(alloc, registry, &place.base, reference)? else {
        return Ok(None);
    };
    Ok(Some(Dangling {
        document: place.document,
        path: place.path,
        reference,
        error,
    }))
}

// Adds an entry to the list, where there is one.
fn add<'r>(list: &mut Vec<Dangling<'r>>, entry: Option<Dangling<'r>>) -> Result<(), AllocError>
    ensures { OnOk result (list.new.items ≡ list.old.items ++ option_to_list entry.entry) }
{
    if let Some(entry) = entry {
        list.push(entry)?;
    }
    Ok(())
}

/// The references of a registry's own documents that are unresolvable: the texts under `$ref` of the places where
/// schemas are, which [`Registry::places`] lists, whose look-up from the place's base with an empty dynamic scope is
/// a fault (2020-12 Core, 8.2.3.1). They come in the order of those places, each once, with that fault; what is under
/// `$dynamicRef` or `$recursiveRef` is none of them, and those of parents aren't listed.
///
/// Refuses as `Memory` alone. Costs what [`Registry::places`] does, and for each `$ref` a look-up and a copy of the
/// base; no value is copied.
pub fn dangling<'r>(alloc: Global, registry: &'r Registry<'_>) -> Result<Vec<Dangling<'r>>, Error>
    ensures value { IfOk result (λ list. AllZip IsEntryOf list.items (dangling registry.now)) }
    ensures retrieved { IfOk result
        (λ list. All (λ entry. ¬ (IsUnretrievable entry.error)) list.items) }
    ensures memory { IfErr result IsMemory }
{
    registry.references_are_retrieved();
    let places = registry.places(alloc)?;
    let mut list = Vec::new(alloc);
    for place in places {
        let entry = entry_at(alloc, registry, place)?;
        add(&mut list, entry)?;
    }
    Ok(list)
}
