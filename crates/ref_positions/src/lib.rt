//! Where the values of a text of JSON or YAML are: paths of keys and indexes to lines and columns, for messages about a file.
//!
//! [`Places`] takes the paths that are asked for, and [`Places::locate`] passes once over the text for all of them. A
//! column counts Unicode characters from 1, and a line ends after a line feed, also where a carriage return is before
//! it. [`Format`] says how a text is written, and [`part_at`] which key or value is at an offset.
#![tactic(auto)]

pub mod examples;
mod find;
mod format;
mod locate;
mod part;
mod places;
mod position;
pub mod splice;
mod table;
mod walk;

pub use format::Format;
pub use locate::Located;
pub use part::{Part, Step, part_at};
pub use places::Places;
pub use position::{Position, line_and_column};
