//! Rows of documents and references, computed from the definitions: the expected values are those of the standards, and of
//! the Rust crate where it alone decides.

pub mod agreement;
pub mod anchors;
pub mod cached;
pub mod documents;
pub mod faults;
pub mod follow;
pub mod fragments;
pub mod lookups;
pub mod outcomes;
pub mod places;
pub mod pointers;
pub mod recursive;
pub mod resources;
pub mod wants;
