//! What mends the references of files: which token of a text is to be another one, the text with it, and the lines that differ.
//!
//! [`mended`] says what to replace where a message suggests something, [`replaced`] is the text with it, and [`unified`] shows the lines
//! that differ. Read `specs/Replace.antt` first.
#![tactic(auto)]

pub mod diff;
pub mod examples;
pub mod mend;
pub mod replace;

pub use diff::unified;
pub use mend::{as_fragment, meant_text, mended, written};
pub use replace::{Replacement, replaced};
