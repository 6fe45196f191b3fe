//! What is said on standard error.
use ref_files::Failures;
use ref_messages::Plain;
use std::fmt::Display;

/// Says something on a line that begins with the program's name.
pub fn say<D: Display + Drop>(rt: &HostRuntime, what: D) {
    let _ = eprintln!(rt; "patchsard: {what}");
}

/// Says something of a path, or of another text that was given.
pub fn say_of<D: Display + Drop>(rt: &HostRuntime, name: &str, what: D) {
    let _ = eprintln!(rt; "patchsard: {}: {what}", Plain(name));
}

/// Says what could not be read, and why.
pub fn say_failures(rt: &HostRuntime, failures: &Failures) {
    for failure in &failures.list {
        say_of(rt, failure.path.as_str(), failure.why.as_str());
    }
}
