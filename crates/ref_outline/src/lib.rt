//! Where each value of a text of JSON or YAML is, by its pointer; and where a token ends.
//!
//! [`Outline`] reads a text once, also one that is at fault somewhere.
#![tactic(auto)]

pub mod examples;
pub mod outline;
pub mod spans;

pub use outline::{Node, Outline};
