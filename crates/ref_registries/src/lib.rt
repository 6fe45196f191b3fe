//! Registries of documents that a request or a call gives.
//!
//! Read `specs/Worlds.antt` first, and then [`registry_from`], whose contract says what the documents' registry is.
#![tactic(auto)]

mod registry;

pub use registry::{registry_from, registry_from_meta_schemas};
