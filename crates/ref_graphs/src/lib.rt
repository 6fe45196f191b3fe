//! Steps from place to place, by numbers: the circles that they make, and what they lead to.
//!
//! Read `specs/Circles.antt`, `specs/Closing.antt`, `specs/Rounds.antt`, `specs/Reaching.antt` and `specs/Using.antt` first.
#![tactic(auto)]

mod circles;
pub mod examples;
mod reaching;
mod rounds;
mod using;

pub use circles::{Circle, Step, circles_of};
pub use rounds::{Lead, Round, rounds_of};
pub use using::unused_definitions;
