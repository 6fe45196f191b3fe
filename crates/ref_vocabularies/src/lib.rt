//! Vocabularies of JSON Schema's meta-schemas (2020-12 Core, 8.1.2; 2019-09 Core, 8.1.2): which one a text names, and sets of
//! them.
//!
//! What they mean is defined in `specs/Vocabularies.antt`; `specs/Views.antt` says which vocabulary of that definition
//! a value is.
#![tactic(auto)]

pub mod dialect;
pub mod examples;
pub mod laws;
pub mod meta_schema;
pub mod vocabulary;
pub mod vocabulary_set;

pub use dialect::{Dialect, declared_or_default};
pub use meta_schema::{default_vocabularies, find};
pub use vocabulary::Vocabulary;
pub use vocabulary_set::{CustomIter, VocabularySet};
