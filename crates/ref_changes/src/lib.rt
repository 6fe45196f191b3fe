//! Whether each reference of documents leads where it led after they are changed.
//!
//! Read `specs/Moves.antt`, `specs/Answers.antt` and `specs/Changes.antt` first: what differs is said there over the plain
//! documents.
#![tactic(auto)]

mod answer;
mod comparing;
mod difference;
mod differing;
pub mod examples;
mod kept;
pub mod laws;
mod moves;
mod names;
mod sites;

pub use comparing::compare;
pub use difference::{Difference, Leading, What};
pub use moves::{Address, Image, Move, moved_to, table_of};
