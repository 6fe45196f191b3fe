//! Bundles: one self-contained document in place of several of a registry. It uses public calls alone: those of `referencing`,
//! and of `ref_uri` for the parts of a reference.
//!
//! Read `specs/Needed.antt`, `specs/Embedding.antt` and `specs/Bundle.antt` first: which documents a bundle needs, how they
//! are in it, and what refuses one is said there over the plain documents. What a bundle keeps of its documents is stated and
//! proved in `ref_bundle_laws`, which has rows of these definitions too.
#![tactic(auto)]

mod among;
mod assembling;
mod bundled;
mod bundling;
mod embedding;
mod error;
mod first;
mod fragment;
mod members;
mod own;
mod parts;
mod reach;
mod referring;
mod refusing;
mod tables;
mod uris;

pub use bundled::{Bundle, Embedded};
pub use bundling::{bundle, bundle_parts, bundle_with};
pub use embedding::Part;
pub use error::{BundleError, Obstacle, Problem, Refusal};
pub use members::Member;
pub use own::Spot;
pub use parts::BundleParts;
