//! The command line of `patchsard` and its standard streams: what may be given, what is asked to be read, standard output, what is said on
//! standard error, how far a command is, and why the program stops.
#![tactic(auto)]

mod checked;
pub mod command;
mod configured;
pub mod console;
pub mod examples;
pub mod options;
mod progress;
mod said;
pub mod stop;

pub use configured::{Configured, find_configuration, find_configuration_from};
pub use console::Console;
pub use options::Reading;
pub use progress::Progress;
pub use said::{say, say_failures, say_of};
pub use stop::Stop;
