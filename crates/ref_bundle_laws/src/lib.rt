//! What a bundle keeps of its documents: laws of the definitions of `ref_bundle`, and rows of them.
//!
//! Read `specs/Kept.antt` first: it has what each law states. [`bundle_is_lawful`] says that the laws hold of each bundle of a
//! registry's documents.
#![tactic(auto)]

pub mod examples;
mod keeping;
pub mod laws;

pub use keeping::bundle_is_lawful;
