//! The walk over documents: the places where schemas are, what identifies them, and what they want, which is retrieved.
//!
//! No value is copied: of a document the URIs, names and paths of its places are. Read `specs/Spots.antt`, `specs/Entries.antt`,
//! `specs/Faults.antt` and `specs/Retrieval.antt` first.
#![tactic(auto)]

mod document;
mod entry;
mod found;
mod index;
mod listed;
pub mod meanings;
mod open;
mod path;
mod places;
pub mod prepare;
mod queue;
mod reference;
mod walk;
mod walked;

pub use document::{Contents, Document};
pub use entry::{Entry, FoundName, FoundUri, NamedEntry};
pub use index::Index;
pub use path::{Below, segments_of};
pub use places::Place;
pub use queue::{ValueRef, Visit};
pub use reference::shared;
pub use walked::Walked;
