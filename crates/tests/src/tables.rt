//! The tables of rows, each with the module that asks its rows.
use crate::fault::Fault;
use crate::{
    builders, families, faults, inputs, lookups, places, registries, reports, resources, retrieval,
    retrievers, sets, used, vocabularies,
};
use referencing::Registry;
use serde_json::Value;
use std::alloc::Global;

/// What asks the rows of a table.
#[derive(Clone, Copy, Drop)]
enum Group {
    /// `families`, of registries that a `given` row describes.
    GivenFamilies,
    /// `families`, of registries that the row describes.
    Families,
    Faults,
    Retrievers,
    Vocabularies,
    Sets,
    Inputs,
    Builders,
    Retrieval,
    MetaSchemas,
    TextsByResolvers,
    PathsOfPlaces,
    Uses,
    /// `places`, of the registry that the row's first columns describe: a draft, documents, and what can be retrieved, or `null` where no
    /// retriever is given.
    Places,
    /// `resources`, of such a registry.
    Resources,
    /// `lookups`, of such a registry.
    Lookups,
}

/// Each table, by its name.
const TABLES: [(&str, Group); 58] = [
    ("vocabularies", Group::GivenFamilies),
    ("vocabularies by the parent", Group::GivenFamilies),
    ("vocabularies at bases", Group::GivenFamilies),
    ("children", Group::Families),
    ("generations", Group::Families),
    ("lookups by generations", Group::Families),
    ("shown registries", Group::Families),
    ("texts by children", Group::Families),
    ("locations by children", Group::Families),
    ("faults", Group::Faults),
    ("reasons", Group::Faults),
    ("refusals", Group::Faults),
    ("default retriever", Group::Retrievers),
    ("retrievers", Group::Retrievers),
    ("vocabulary names", Group::Vocabularies),
    ("declared vocabularies", Group::Vocabularies),
    ("dialects", Group::Vocabularies),
    ("default vocabularies", Group::Vocabularies),
    ("declared or default vocabularies", Group::Vocabularies),
    ("vocabularies passed on", Group::Vocabularies),
    ("URIs of drafts", Group::Vocabularies),
    ("vocabulary sets", Group::Sets),
    ("sets of bits", Group::Sets),
    ("single bits", Group::Sets),
    ("custom vocabularies", Group::Sets),
    ("equal sets", Group::Sets),
    ("contained vocabularies", Group::Sets),
    ("grown sets", Group::Sets),
    ("builders", Group::Inputs),
    ("kinds", Group::Inputs),
    ("kinds with titles", Group::Inputs),
    ("made builders", Group::Builders),
    ("calls of a retriever", Group::Retrieval),
    ("retrievers without memory", Group::Retrieval),
    ("refusing retrievers", Group::Retrieval),
    ("endless retrieval", Group::Retrieval),
    ("any document", Group::Retrieval),
    ("meta-schemas", Group::MetaSchemas),
    ("texts by resolvers", Group::TextsByResolvers),
    ("paths of places", Group::PathsOfPlaces),
    ("validator", Group::Uses),
    ("bundler", Group::Uses),
    ("openapi", Group::Uses),
    ("dialect", Group::Uses),
    ("editor", Group::Uses),
    ("bookmarks", Group::Uses),
    ("shown faults", Group::Uses),
    ("places", Group::Places),
    ("paths", Group::Places),
    ("values", Group::Places),
    ("resources", Group::Resources),
    ("retrieved drafts", Group::Resources),
    ("texts", Group::Resources),
    ("copies", Group::Resources),
    ("answers", Group::Lookups),
    ("lookups", Group::Lookups),
    ("scopes", Group::Lookups),
    ("locations", Group::Lookups),
];

/// What asks the rows of the table with a name.
fn group_of(name: &str) -> Option<Group> {
    for (table, group) in &TABLES {
        if *table == name {
            return Some(*group);
        }
    }
    None
}

/// What is found of a row.
pub fn found(alloc: Global, given: &Value, table: &str, row: &Value) -> Result<String, Fault> {
    if let Some(request) = given.as_str() {
        return reports::of_request(alloc, request, table, row);
    }
    match group_of(table) {
        Some(Group::GivenFamilies) => families::of_documents(alloc, given, table, row),
        Some(group) => of_row(alloc, group, table, row),
        None => Err(Fault::Form("no such table")),
    }
}

/// Of a row that describes all that is asked.
fn of_row(alloc: Global, group: Group, table: &str, row: &Value) -> Result<String, Fault> {
    match group {
        Group::GivenFamilies | Group::Families => families::of_documents(alloc, row, table, row),
        Group::Faults => faults::found(alloc, table, row),
        Group::Retrievers => retrievers::found(alloc, table, row),
        Group::Vocabularies => vocabularies::found(alloc, table, row),
        Group::Sets => sets::found(alloc, table, row),
        Group::Inputs => inputs::found(alloc, table, row),
        Group::Builders => builders::of_name(alloc, row),
        Group::Retrieval => retrieval::found(alloc, table, row),
        Group::MetaSchemas => registries::of_meta_schemas(alloc, row),
        Group::TextsByResolvers => resources::resolved_by_resolvers(alloc, row),
        Group::PathsOfPlaces => places::agreeing(alloc, row),
        Group::Uses => used::found(alloc, table, row),
        Group::Places | Group::Resources | Group::Lookups => of_registry(alloc, group, table, row),
    }
}

/// What a row of a table asks of a registry.
#[derive(Clone, Copy, Drop)]
pub struct Asked<'q, 'd> {
    pub alloc: Global,
    pub registry: &'q Registry<'d>,
    pub table: &'q str,
    pub row: &'q Value,
}

/// Of a row whose first columns describe a registry.
fn of_registry(alloc: Global, group: Group, table: &str, row: &Value) -> Result<String, Fault> {
    let registry = registries::registry(alloc, row)?;
    let asked = Asked {
        alloc,
        registry: &registry,
        table,
        row,
    };
    match group {
        Group::Places => places::found(asked),
        Group::Resources => resources::found(asked),
        _ => lookups::found(asked),
    }
}
