//! The JSON documents that are open, and what is asked of them: what is wrong with their references, and how that is said; where a
//! reference leads; their places; and which document refers to which. Nothing here reads a file or prints: a document is opened with
//! a name, a URI and a text, and answers are values.
#![tactic(auto)]

mod anchors;
mod asking;
mod cases;
mod components;
mod describe;
mod described;
mod documents;
mod edges;
mod endless;
mod ends;
mod finding;
pub mod follow;
mod heads;
mod identified;
mod leads;
mod led;
mod members;
mod named;
pub mod near;
mod parts;
mod placed;
pub mod pointer;
pub mod referring;
mod resources;
mod ruled;
mod rules;
mod silences;
mod sources;
mod spots;
mod suggestions;
mod summary;
mod told;
mod unused;
mod uses;
mod view;
mod why;
mod workspace;
pub mod world;

pub use describe::Describer;
pub use described::{DescribedPlace, DescribedReference, Description};
pub use edges::{Shape, graph_of};
pub use finding::{Finding, Mark, Problem, Report};
pub use placed::{Unplaced, lines_of};
pub use rules::{RULES, near_rule};
pub use silences::{Silences, UnusedSilence};
pub use sources::Known;
pub use summary::Summary;
pub use unused::Unused;
pub use view::View;
pub use workspace::{Document, Workspace};
pub use world::World;
