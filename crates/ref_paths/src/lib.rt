//! Paths into JSON values: one part of a path, and paths that share their beginnings. `ref_parts` re-exports what is public here.
//!
//! Read `specs/Path.antt` first, which says what a path is and which value is at it.
#![tactic(auto)]

pub mod laws;
pub mod path;

pub use path::{JsonPointerNode, JsonPointerSegment};
