//! What is asked of registries and of those above them.
use crate::answers::agreed;
use crate::fault::{Fault, made};
use crate::registries::{child, known, unretrieving};
use crate::{lookups, resources, vocabularies};
use referencing::Registry;
use serde_json::Value;
use std::alloc::{AllocError, Global};

/// Of a row of a table, and of a row whose first columns are the parent's documents and its child's.
pub fn of_documents(
    alloc: Global,
    family: &Value,
    table: &str,
    row: &Value,
) -> Result<String, Fault> {
    let parent = unretrieving(alloc, None, family, 1)?;
    match table {
        "children" => of_children(alloc, &parent, row),
        "vocabularies by the parent" => vocabularies::by_registry(alloc, &parent, row),
        _ => of_child(alloc, &parent, family, table, row),
    }
}

/// Whether the registry of a column's documents above another is prepared, or the text of the fault.
fn outcome(alloc: Global, parent: &Registry<'_>, row: &Value) -> Result<String, AllocError> {
    match child(alloc, parent, row, 2) {
        Ok(_) => String::from_str(alloc, "prepared"),
        Err(fault) => format!(in alloc; "{fault}"),
    }
}

/// Of documents above a registry, and then which URIs that still knows by itself: of a row of the documents in its
/// second column, and the URIs after them.
fn of_children(alloc: Global, parent: &Registry<'_>, row: &Value) -> Result<String, Fault> {
    let child = outcome(alloc, parent, row)?;
    let still = known(alloc, parent, row, 3)?;
    made(format!(in alloc; "{child} {still}"))
}

/// The same of the tables on the child.
fn of_child(
    alloc: Global,
    parent: &Registry<'_>,
    family: &Value,
    table: &str,
    row: &Value,
) -> Result<String, Fault> {
    let child = child(alloc, parent, family, 2)?;
    match table {
        "vocabularies" => vocabularies::by_registry(alloc, &child, row),
        "vocabularies at bases" => vocabularies::at_bases(alloc, &child, row),
        "shown registries" => shown(alloc, parent, &child),
        "texts by children" => by_copies(alloc, &child, row),
        "lookups by generations" => led_by_grandchild(alloc, &child, row),
        "locations by children" => lookups::is_at_path(alloc, &child, row),
        _ => of_generations(alloc, parent, &child, row),
    }
}

/// How a registry is shown, and one above it.
fn shown(alloc: Global, parent: &Registry<'_>, child: &Registry<'_>) -> Result<String, Fault> {
    made(format!(in alloc; "{parent:?} {child:?}"))
}

/// Which URIs are known to a registry, and what a text means against a base.
fn known_and_meant(alloc: Global, registry: &Registry<'_>, row: &Value) -> Result<String, Fault> {
    let known = known(alloc, registry, row, 3)?;
    let meant = resources::resolved(alloc, registry, row)?;
    made(format!(in alloc; "{known} {meant}"))
}

/// The same by a registry and by its copy.
fn by_copies(alloc: Global, registry: &Registry<'_>, row: &Value) -> Result<String, Fault> {
    let copy = registry.clone()?;
    let first = known_and_meant(alloc, registry, row)?;
    let again = known_and_meant(alloc, &copy, row)?;
    agreed(alloc, first, again, ["at first", "by the copy"])
}

/// Where steps lead from a base in the registry of a column's documents above a registry.
fn led_by_grandchild(alloc: Global, child: &Registry<'_>, row: &Value) -> Result<String, Fault> {
    let grandchild = crate::registries::child(alloc, child, row, 3)?;
    lookups::led(alloc, &grandchild, row)
}

/// Which URIs are known to the registry of a column's documents above a registry.
fn of_grandchild(alloc: Global, child: &Registry<'_>, row: &Value) -> Result<String, Fault> {
    let grandchild = crate::registries::child(alloc, child, row, 3)?;
    known(alloc, &grandchild, row, 4)
}

/// Which URIs are known to a registry, its child and the child's child.
fn of_generations(
    alloc: Global,
    parent: &Registry<'_>,
    child: &Registry<'_>,
    row: &Value,
) -> Result<String, Fault> {
    let third = of_grandchild(alloc, child, row)?;
    let second = known(alloc, child, row, 4)?;
    let first = known(alloc, parent, row, 4)?;
    made(format!(in alloc; "{first} {second} {third}"))
}
