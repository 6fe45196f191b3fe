//! The resolver of references over indexes of documents, which registries hand out.
//!
//! A [`Layers`] borrows the index of a registry's own documents and those of its parents, and a [`Resolver`] returns
//! where references lead in them from a base URI. Read `specs/Layered.antt` and `specs/Resolving.antt` first, upon
//! `Lookup.antt` and `Recursive.antt` of `ref_definitions`.
#![tactic(auto)]

mod dialects;
mod fragment;
mod layers;
mod located;
mod location;
mod pointed;
mod recursive;
mod resolver;

pub use layers::Layers;
pub use location::Location;
pub use resolver::{Resolved, Resolver};
