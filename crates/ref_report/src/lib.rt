//! The report on a JSON request that follows references through JSON Schema documents: what the program `refwalk` does,
//! from a source to a sink, which are in `ref_streams`.
//!
//! Read `specs/Report.antt` first, which says what the report on the bytes of a request is, and then [`run::run`],
//! whose contract says that it is what is written.
#![tactic(auto)]

mod answer;
pub mod laws;
mod lint;
mod report;
mod request;
pub mod run;
mod scan;
pub mod status;
mod worlds;

pub use ref_streams::{Failed, Input, MemorySink, MemorySource, Output, RunError, Sink, Source};
pub use status::{Status, exit_status};
