//! A language server for references: the Language Server Protocol 3.17 over a source and a sink of `ref_streams`.
//!
//! [`serve`] reads frames, and answers from a workspace of the documents below the client's folders. What a frame is, when a method is due,
//! which offset a position means and what a change leaves are functions over values of `ref_protocol`; where a value of a text is, `ref_outline` says.
#![tactic(auto)]

mod actions;
mod asked;
mod completion;
mod definition;
mod desk;
pub mod examples;
mod hover;
mod judged;
mod keys;
mod kinds;
mod life;
mod links;
mod mapped;
mod moved;
mod ranges;
mod references;
mod rename;
mod server;
mod session;
mod settle;
mod sharers;
mod shown;
mod silenced;
mod summaries;
mod symbols;
mod texts;
mod workspace_symbols;

pub use desk::{Desk, LeftOut, Settings};
pub use server::{Ending, serve};
pub use session::Session;
pub use shown::Rules;
