//! URI references of RFC 3986, parsed, read, resolved and normalised.
//!
//! A [`UriRef`] borrows its text, a [`Uri`] owns it and has a scheme. Contracts see both as their text, of which the
//! components are functions: read `specs/Components.antt` and `specs/Reference.antt` first.
#![tactic(auto)]

mod authority;
mod blocks;
mod characters;
mod dots;
mod error;
pub mod examples;
pub mod laws;
mod lengths;
mod parser;
pub mod parts;
mod reference;
mod target;
mod traits;
pub mod uri;
mod written;

pub use error::{ParseError, ResolveError, ResolveFault, UriError, UriFault, UriParseFault};
pub use reference::UriRef;
pub use uri::Uri;
