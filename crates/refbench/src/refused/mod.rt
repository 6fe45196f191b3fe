//! Calls whose requests for memory are refused: what a call returns, and where it wants memory, what it and its
//! neighbours return when they are asked again of the same values. They are made once for each request for memory by
//! `scripts/refusals`.

mod builders;
mod documents;
mod drafts;
mod kinds;
mod lints;
mod lists;
mod maps;
mod ran_out;
mod registries;
mod reports;
mod resolvers;
mod retrievers;
mod stop;
mod texts;
mod trial;
mod uris;
mod vocabularies;

use std::alloc::Global;
pub use stop::Stop;
pub use trial::Trial;

/// The names of the groups of calls.
const GROUPS: [&str; 13] = [
    "uris",
    "lists",
    "maps",
    "texts",
    "drafts",
    "vocabularies",
    "builders",
    "registries",
    "retrievers",
    "kinds",
    "reports",
    "lints",
    "ran_out",
];

/// Whether a word is the name of a group of calls.
pub fn is_group(word: &str) -> bool {
    GROUPS.contains(&word)
}

/// What the row of a call prints, which is of one of the groups.
pub fn row(alloc: Global, group: &str, call: &str) -> Result<Trial, Stop> {
    match group {
        "uris" => uris::row(alloc, call),
        "lists" => lists::row(alloc, call),
        "maps" => maps::row(alloc, call),
        "texts" => texts::row(alloc, call),
        "drafts" => drafts::row(alloc, call),
        "vocabularies" => vocabularies::row(alloc, call),
        _ => of_registries(alloc, group, call),
    }
}

/// Of the groups on registries.
fn of_registries(alloc: Global, group: &str, call: &str) -> Result<Trial, Stop> {
    match group {
        "builders" => builders::row(alloc, call),
        "registries" => registries::row(alloc, call),
        "retrievers" => retrievers::row(alloc, call),
        "kinds" => kinds::row(alloc, call),
        "reports" => reports::row(alloc, call),
        "lints" => lints::row(alloc, call),
        "ran_out" => ran_out::row(alloc, call),
        _ => Err(Stop::Wrong),
    }
}
