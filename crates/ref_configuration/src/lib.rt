//! The configuration file `patchsard.toml`: from its text to what it says, or where and why it says nothing.
#![tactic(auto)]

mod configuration;
pub mod examples;
mod fault;
mod member;
mod names;
mod place;
mod table;

pub use configuration::{Configuration, Level, Override, Refusal};
pub use place::place_of;
