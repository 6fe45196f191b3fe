//! Retrievers of documents, and why a registry or a reference is refused.
//!
//! Read `specs/Errors.antt` and `specs/Retrieving.antt` first, upon `Fault.antt`, `Preparing.antt` and `Retrievers.antt` of
//! `ref_definitions`.
#![tactic(auto)]

mod error;
pub mod laws;
mod retriever;

pub use error::{Error, Reason, RetrieveError};
pub use retriever::{DefaultRetriever, MapRetriever, Retrieve};
