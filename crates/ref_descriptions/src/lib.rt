//! OpenAPI descriptions: what is an object of which kind, what is below it, and which references it has, by the tables of the
//! versions 2.0 (Swagger), 3.0, 3.1 and 3.2.
//!
//! Read `specs/Fields.antt` first: it has the tables. When a version comes, its fields are added there, and in `src/fields.rt`.
#![tactic(auto)]

mod fields;
mod inner;
mod kind;
mod reading;
mod referring;
mod version;

pub use fields::{Field, Holding, field_under};
pub use inner::{Inner, below};
pub use kind::Kind;
pub use reading::{Reading, is_reference, may_be_reference, reading_of_root};
pub use referring::{Reference, Under, references};
pub use version::{Version, version_of};
