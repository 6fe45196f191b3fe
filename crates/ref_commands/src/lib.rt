//! The subcommands of `patchsard` but for `serve`: `lint`, `resolve`, `bundle`, `places`, `graph`, `rename` and `move`. Each opens the files of a command line
//! in a workspace, asks it, and prints the answer; the last two write files. What a bundle is and when there is none is said by `ref_bundle`; here its text is made
//! of the files' own text.
#![tactic(auto)]

mod beside;
pub mod bundle;
mod editing;
pub mod examples;
mod fix;
pub mod graph;
mod known;
mod left_out;
pub mod lint;
mod listed;
mod listing;
mod made;
mod members;
mod message;
pub mod moving;
mod opened;
mod outcome;
mod pieces;
pub mod places;
mod printed;
mod refusals;
pub mod rename;
pub mod resolve;
mod rewriting;
mod shown;
mod together;
mod unused_silences;
mod watch;
