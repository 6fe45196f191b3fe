//! YAML 1.2 of one document, as the tree that JSON has: events with their offsets, and the value that they make.
//!
//! [`from_str`] gives the value of a text. [`Document::parse`] gives its events in the order of the text, each with the
//! offsets of its first byte and after its last, and what aliases and `<<` mean in their place.
//!
//! Block and flow collections are read, plain, quoted, literal and folded scalars, comments, `---` and `...`, `%YAML 1.1`
//! and `1.2`, anchors and aliases, and the core schema with its tags. A key is a text: a scalar as it is written, so that
//! `200:` is `"200"`. `<<` merges an object or a list of objects: the keys of the object itself count first, and then
//! those of the first that has it. Two things are read that YAML 1.2 doesn't have ([`Leniency`]); what is refused says why
//! and where ([`Fault`]).
//!
//! Each byte is read a bounded number of times.
#![tactic(auto)]

mod block;
mod block_scalar;
mod build;
mod bytes;
mod core_schema;
mod cursor;
mod document;
mod escape;
mod event;
mod examples;
mod expand;
mod fault;
mod feeds;
mod flow;
mod fold;
mod lines;
mod links;
mod number;
mod parser;
mod quoted;
mod scalar;
mod scan;
mod text;
mod value;
mod whole;

pub use document::Document;
pub use event::{Event, Kind, NOWHERE, Tag};
pub use fault::{Fault, Leniency, Stop};
pub use value::from_str;
