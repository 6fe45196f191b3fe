//! The drafts of JSON Schema, and what each reads from a schema: its identifier, anchors and subschemas, and where an
//! identifier may change the base along a pointer.
//!
//! Read `specs/Keywords.antt` first: it has the tables that everything else here is proved to follow.
#![tactic(auto)]

pub mod anchor;
pub mod draft;
pub mod examples;
pub mod laws;
pub mod meta;
pub mod reached;
pub mod resource;
pub mod segments;
mod spec;

pub use anchor::{Anchor, AnchorIter};
pub use draft::Draft;
pub use reached::Reached;
pub use resource::{Resource, ResourceRef};
pub use segments::{Segment, Segments};
pub use spec::children::{ChildIter, ChildIterInner};
pub use spec::ids::trim_hashes;
pub use spec::walk::Child;
