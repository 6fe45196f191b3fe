//! Patterns of paths, as `build/**` and `**/*.generated.json`, and the files that Git leaves out (gitignore(5)).
//!
//! Read `specs/Patterns.antt` first: it says which paths a pattern matches.
#![tactic(auto)]

mod choices;
pub mod examples;
mod ignoring;
mod matching;
mod pattern;

pub use ignoring::{Ignore, IgnoreList};
pub use pattern::{Pattern, is_pattern};
