//! Whether each reference keeps leading where it led when documents are changed, at the places that `ref_changes` leaves out: the objects of descriptions, and what
//! references lead to where no keyword does.
//!
//! Read `specs/Further.antt` first, upon `Moves.antt` of `ref_changes` and `Leading.antt` of `ref_reach`.
#![tactic(auto)]

mod after;
mod difference;
pub mod examples;
mod further;
mod names;
mod pairs;
mod sides;

pub use difference::{Difference, What};
pub use further::further_difference;
