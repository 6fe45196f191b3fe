//! What is to be told of schemas beside what is wrong with their references: keywords that count for nothing where they are, and names of
//! meta-schemas that are written in another way.
//!
//! Read `specs/Tables.antt`, `specs/Dialects.antt`, `specs/Slips.antt`, `specs/Places.antt`, `specs/InPlace.antt`, `specs/Members.antt` and `specs/Cases.antt` first.
#![tactic(auto)]

mod applying;
mod cases;
mod dialect;
mod ends;
pub mod examples;
mod list;
mod members;
mod schemas;
mod slip;
mod spots;
mod suspect;
mod table;
mod tables;

pub use applying::in_place;
pub use cases::{Alike, Name, all_alike};
pub use dialect::{meta_schema, misspelled};
pub use ends::End;
pub use list::slips;
pub use members::{Member, Repeat, repeats};
pub use schemas::{is_schema, no_schemas};
pub use slip::{Place, Problem, Slip};
pub use spots::{Spot, places_of, spots_of};
pub use suspect::may_slip;
