//! The levels of rules: what the configuration and the command line set them to, and the least level that is listed.
#![tactic(auto)]

pub mod examples;
mod least;
mod levels;

pub use least::{is_listed, least_of};
pub use levels::Levels;
