//! What is wrong with the references of JSON documents, for linters: identifiers, references and names of meta-schemas
//! that mean no URI, documents that aren't there, unresolvable pointers and anchors, and URIs and names that two places
//! have. No finding hides another: a text that means no URI counts as `null`, and all else of its document is read.
//!
//! Read `specs/Findings.antt` and `specs/Gathered.antt` first: which findings there are, and which documents they are of, is said
//! there over the plain documents.
#![tactic(auto)]

mod bearers;
pub mod examples;
mod fault;
mod finding;
mod gathering;
mod guessed;
mod keyword;
mod known;
mod list;
mod mending;
mod place;
mod problem;
mod site;
mod source;
mod survey;
mod texts;
mod unready;
mod walk;

pub use finding::{Bearer, Finding, Level, Problem, Report};
pub use gathering::{Held, as_sources, gather};
pub use list::{findings, mended, report};
pub use mending::with_null_at;
pub use source::Source;
pub use unready::{unmet, without_texts};
