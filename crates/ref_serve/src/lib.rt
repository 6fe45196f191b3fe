//! A server of reference resolution: a call a line in, an answer a line out, from a source to a sink of `ref_streams`.
//!
//! `docs/PROTOCOL.md` describes the calls. The registries that are open are a [`State`], which is the service that
//! `ref_streams` asks for the answer to each line.
#![tactic(auto)]

mod about;
mod answer;
mod asked;
mod bundling;
mod candidates;
mod comparing;
mod entering;
pub mod examples;
mod faults;
mod following;
mod given;
mod keeping;
pub mod laws;
mod listing;
mod looking;
mod mending;
mod opening;
mod place;
mod placing;
mod references;
mod registry;
mod state;
mod surveying;
mod vocabularies;

pub use ref_streams::{
    Failed, Input, MemorySink, MemorySource, OUT_OF_MEMORY, Output, RunError, Service, Sink,
    Source, serve,
};
pub use state::{Open, Slot, State};
