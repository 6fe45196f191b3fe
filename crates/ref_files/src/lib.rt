//! Files and URIs: the URI that a file is under, and the file that a URI means below a folder; which files are below folders, what is
//! in them, and why a text is neither JSON nor YAML; documents that are read from folders by their URIs; and a file that is written whole.
//!
//! What can't be read is a value. A [`Name`] is one that leads into the folder that it is looked up in and nowhere else, so
//! a path of names stays below the folder that it begins at, links aside.
#![tactic(auto)]

mod buffer;
pub mod examples;
mod excluded;
mod failure;
pub mod laws;
mod listing;
mod maps;
mod marks;
mod name;
mod path;
mod prefix;
mod reading;
mod text;
mod uri;
mod wanted;
mod why;
mod write;
mod yaml;

pub use buffer::Buffer;
pub use excluded::{Exclusion, Exclusions, path_from};
pub use failure::{Failure, Failures};
pub use listing::{File, Listed, Selection, list_files, list_one};
pub use maps::{BrokenFile, Map, Maps, is_base};
pub use name::{Name, names_of};
pub use path::{folder_of, last_name};
pub use prefix::{below_prefix, path_below};
pub use reading::{ReadFile, ReadFiles, ReadSoFar, read_all};
pub use ref_positions::Format;
pub use text::{DocumentText, Fault, parsed};
pub use uri::{file_uri, relative_uri, uri_below};
pub use write::{WriteError, write_file};
pub use yaml::leniencies_of;
