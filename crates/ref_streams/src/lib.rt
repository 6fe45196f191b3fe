//! Where the bytes that a program reads come from, and where those that it writes go to: all at once, or a line at a time.
//!
//! [`read_to_end`] reads all that a source gives, a sink takes bytes, and [`serve`] reads calls, one a line, and writes what a
//! [`Service`] returns to each. What the bytes mean isn't said here, but of one answer, [`OUT_OF_MEMORY`]. Read
//! `specs/Bytes.antt` first; for lines `specs/Lines.antt`, which says what the lines of bytes are, and `specs/Serving.antt`,
//! which says what a service may return to them one after another.
#![tactic(auto)]

mod chunk;
mod error;
pub mod examples;
pub mod laws;
mod line;
mod read;
mod service;
mod sink;
mod source;

pub use error::RunError;
pub use read::read_to_end;
pub use service::{OUT_OF_MEMORY, Service, serve};
pub use sink::{MemorySink, Output, Sink};
pub use source::{Failed, Input, MemorySource, Source};
