//! Calls that are JSON objects, and the objects that answer them: which call an object is, what its members are, and why a
//! call has no result.
//!
//! `docs/PROTOCOL.md` describes them. Read `specs/Calls.antt` first, and then `specs/Errors.antt`.
#![tactic(auto)]

pub mod answer;
pub mod call;
pub mod document;
pub mod examples;
pub mod fault;
pub mod field;
pub mod members;
pub mod scope;
pub mod why;
pub mod yaml;

pub use call::{Call, call_names, call_of};
pub use fault::Wrong;
pub use members::Members;
pub use scope::{GivenScope, Kept};
pub use why::NotJson;
