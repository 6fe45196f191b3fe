//! What references lead to: the places of OpenAPI descriptions, those that references of these lead to, and so on, with what is wrong
//! with the references.
//!
//! [`reach`] begins at the descriptions, and [`reach_schemas`] at other documents, whose schemas may refer to what no keyword leads to.
//!
//! Read `specs/Places.antt`, `specs/Leading.antt` and `specs/Schemas.antt` first, upon `Fields.antt`, `Below.antt` and `References.antt` of `ref_descriptions`.
#![tactic(auto)]

mod described;
mod documents;
pub mod examples;
mod finding;
mod leading;
mod lookup;
mod mapped;
mod own;
mod place;
mod reaching;
mod schemas;
mod seen;
mod table;

pub use described::Documents;
pub use documents::{Source, documents_of};
pub use finding::{Finding, Level, Problem};
pub use leading::Target;
pub use lookup::target;
pub use mapped::is_name;
pub use place::Place;
pub use reaching::{Reached, reach, reach_schemas};
pub use schemas::{Schemas, schemas_of};
