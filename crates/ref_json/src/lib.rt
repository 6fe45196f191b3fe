//! The tree that a JSON text is, and why a call has no result: an error of its own, or that memory ran out.
#![tactic(auto)]

pub mod examples;
mod stop;
mod text;

pub use stop::Stop;
pub use text::tree_of;
