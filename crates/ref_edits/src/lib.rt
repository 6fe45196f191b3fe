//! Changes of documents after which each reference leads where it led: a member of an object gets another key, an anchor another name, a schema another
//! identifier, or a document another URI; and the texts that lead there follow.
//!
//! [`renamed_key`], [`renamed_anchor`], [`renamed_identifier`], [`moved_documents`] and [`identified_references`] say which texts become which, or why none does; [`edits_of`] says what
//! that replaces in the texts of documents; and [`difference_of`] reads what comes of it, and compares where everything leads. What decides is in
//! `tokens.rt`, `fragments.rt`, `relative.rt` and `names.rt`.
#![tactic(auto)]

mod after;
mod anchors;
mod bases;
mod checked;
pub mod examples;
mod fragments;
mod given;
mod identified;
mod keys;
mod names;
mod paths;
mod places;
mod plan;
mod relative;
mod scalars;
mod splicing;
mod tokens;
mod trees;
mod uses;

pub use anchors::renamed_anchor;
pub use bases::{moved_documents, renamed_identifier};
pub use checked::{Told, difference_of};
pub use given::{Given, Written};
pub use identified::identified_references;
pub use keys::{key_at, renamed_key};
pub use paths::{moved_uri, rest_below};
pub use plan::{Change, Moved, Part, Plan, Refusal, Site, Unmade};
pub use splicing::{Edit, edits_of};
pub use uses::{Form, Led, Use, uses_of};
