//! The Language Server Protocol 3.17 as values: what a frame is, what a message is, when a method is due, which offset a position means, and
//! what a change leaves.
//!
//! Nothing here reads or writes but [`feed`], which reads the frames of a source of `ref_streams`. The server itself is `ref_lsp`. Read
//! `specs/Frames.antt`, `Methods.antt`, `Positions.antt` and `Edits.antt` first.
#![tactic(auto)]

pub mod call;
pub mod edit;
pub mod encoding;
pub mod examples;
pub mod feed;
pub mod frames;
pub mod methods;
pub mod paths;
pub mod pieces;
pub mod refusal;
pub mod replies;
pub mod sending;
pub mod wire;
