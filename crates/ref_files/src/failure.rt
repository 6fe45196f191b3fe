//! Why something could not be read.
ghost use Rattle.std.specs.Prelude.{◌≡◌, ◌∷◌, ◌++◌, [], false, map, string_bytes, true, OnErr, OnOk};
ghost use Rattle.ref_files.specs.Failed.{paths};

use std::alloc::{AllocError, Global};
use std::fmt::Display;

/// A path, or another text that was given, and why it was not read.
#[derive(Drop)]
pub struct Failure {
    /// The path, as it is shown.
    pub path: String,
    /// Why.
    pub why: String,
}

/// What could not be read, in the order in which it was tried, and what was passed over.
#[derive(Drop)]
pub struct Failures {
    alloc: Global,
    /// Each with why.
    pub list: Vec<Failure>,
    /// Whether one of them is more than a link that is passed over.
    pub has_failed: bool,
}

impl Failures {
    /// None.
    pub fn new(alloc: Global) -> Failures
        ensures list { result.list.items ≡ [] }
        ensures has_failed { result.has_failed ≡ false }
    {
        Failures {
            alloc,
            list: Vec::new(alloc),
            has_failed: false,
        }
    }

    /// Adds a path that could not be read.
    pub fn fail<D: Display + Drop>(&mut self, path: &str, why: D) -> Result<(), AllocError>
        ensures paths { OnOk result (paths self.new ≡ paths self.old ++ path.now ∷ []) }
        ensures unchanged { OnErr result (self.new.list.items ≡ self.old.list.items) }
        ensures has_failed { self.new.has_failed ≡ true }
    {
        self.has_failed = true;
        self.note(path, why)
    }

    /// Adds a path that is passed over.
    pub fn note<D: Display + Drop>(&mut self, path: &str, why: D) -> Result<(), AllocError>
        ensures paths { OnOk result (paths self.new ≡ paths self.old ++ path.now ∷ []) }
        ensures unchanged { OnErr result (self.new.list.items ≡ self.old.list.items) }
        ensures has_failed { self.new.has_failed ≡ self.old.has_failed }
    {
        let why = format!(in self.alloc; "{why}")?;
        let path = String::from_str(self.alloc, path)?;
        self.list.push(Failure { path, why })?;
        Ok(())
    }
}
