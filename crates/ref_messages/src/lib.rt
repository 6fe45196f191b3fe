//! Messages about places in files, and the forms in which they are printed: text for people, an object a line, SARIF, the
//! annotations of GitHub, and reports of JUnit and GitLab.
#![tactic(auto)]

mod baseline;
mod components;
pub mod examples;
mod excerpt;
mod full;
mod github;
mod gitlab;
mod graph;
mod junit;
mod levels;
mod lines;
mod members;
mod message;
mod plain;
mod sarif;
mod suggest;
mod text;
mod unlooked;

pub use baseline::Baseline;
pub use components::component_of;
pub use excerpt::Excerpt;
pub use full::{Color, push_full};
pub use github::push_annotation;
pub use gitlab::push_gitlab;
pub use graph::{Edge, Graph, Node, push_dot, push_mermaid};
pub use junit::push_junit;
pub use levels::{Chosen, level_in};
pub use lines::push_line;
pub use members::{push_member, push_quoted};
pub use message::{Level, Message, Other};
pub use plain::{Plain, PlainBytes, push_json};
pub use sarif::{Rule, push_sarif};
pub use suggest::Suggester;
pub use text::push_text;
pub use unlooked::Unlooked;
