//! The references in a registry's documents that are unresolvable, for linters. Its code calls `referencing` alone; its clauses
//! cite the definitions that those of `referencing` cite.
//!
//! Read `specs/Dangling.antt` first: which references those are is said there over the plain documents.
#![tactic(auto)]

mod entry;
pub mod examples;
mod search;

pub use entry::Dangling;
pub use search::dangling;
