//! The further places of a registry's documents: what references lead to where no keyword does, which a bundle looks at too; and these with the kinds of
//! objects that they are.
//!
//! Read `specs/Further.antt` and `specs/Survey.antt` first, upon `Reached.antt` and `Schemas.antt` of `ref_reach`.
#![tactic(auto)]

mod further;
mod grouping;
mod reading;
mod survey;

pub use further::further_places;
pub use survey::{Survey, survey_of};
