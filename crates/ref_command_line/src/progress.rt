//! How far a command is: what is said of that, and when.
ghost use Rattle.std.specs.Prelude.{◌≡◌, take, IfOk};
ghost use Rattle.ref_command_line.specs.Progress.{counted, is_due, patience, progress_text};

use std::alloc::{AllocError, Global};
use std::fmt;

// How many milliseconds a command takes before it is said how far it is.
const READING: u64 = 1000;

// The same where documents are about to be judged. While they are nothing is said anew, and it takes about as long as reading them.
const JUDGING: u64 = 500;

// How many milliseconds are between two lines.
const BETWEEN: u64 = 100;

/// How far a command is. It is displayed as text in ASCII, as `1200 of 4100 files read`, or `4100 files read, judging 4100 documents`.
#[derive(Clone, Copy, Drop)]
pub enum Progress {
    /// Files are read.
    Reading {
        /// How many were read.
        read: usize,
        /// How many there are.
        files: usize,
    },
    /// All files are read, and documents are judged.
    Judging {
        /// How many files were read.
        files: usize,
        /// How many documents there are.
        documents: usize,
    },
}

impl Progress {
    /// Whether it is to be said now, so many milliseconds after the command began, where it was said last so many milliseconds after that:
    /// first after a second, or half a second where documents are about to be judged, and then ten times a second at most.
    pub fn is_due(self, now: u64, last: Option<u64>) -> bool
        ensures value { result ≡ is_due self now last }
    {
        match last {
            Some(last) => now.saturating_sub(last) >= BETWEEN,
            None => now >= self.patience(),
        }
    }

    // After how many milliseconds it is said for the first time.
    fn patience(self) -> u64
        ensures { result ≡ patience self }
    {
        match self {
            Progress::Reading { .. } => READING,
            Progress::Judging { .. } => JUDGING,
        }
    }

    /// The bytes of a line that says it in at most so many columns: what is beyond them is cut off. Fails only if out of memory.
    pub fn line(self, alloc: Global, columns: usize) -> Result<Vec<u8>, AllocError>
        ensures value { IfOk result (λ line. line.items ≡ take columns (progress_text self)) }
    {
        let text = format!(in alloc; "{self}")?;
        let mut line = text.into_bytes();
        line.truncate(columns);
        Ok(line)
    }
}

impl fmt::Display for Progress {
    ghost use Rattle.std.specs.Prelude.{Some};
    ghost use Rattle.ref_command_line.specs.Progress.{progress_text};

    ghost output = { λ p. Some (progress_text p) };

    fn fmt<W: fmt::Write>(&self, f: &mut fmt::Formatter<W>) -> fmt::Result {
        match self {
            Progress::Reading { read, files } => {
                let files = Counted {
                    count: *files,
                    name: "file",
                };
                write!(f, "{read} of {files} read")
            }
            Progress::Judging { files, documents } => {
                let files = Counted {
                    count: *files,
                    name: "file",
                };
                let documents = Counted {
                    count: *documents,
                    name: "document",
                };
                write!(f, "{files} read, judging {documents}")
            }
        }
    }
}

// So many of a thing, by the name of one.
#[derive(Clone, Copy, Drop)]
struct Counted {
    count: usize,
    name: &'static str,
}

impl fmt::Display for Counted {
    ghost use Rattle.std.specs.Prelude.{Some};
    ghost use Rattle.ref_command_line.specs.Progress.{counted};

    ghost output = { λ c. Some (counted c.count c.name.now) };

    fn fmt<W: fmt::Write>(&self, f: &mut fmt::Formatter<W>) -> fmt::Result {
        let Counted { count, name } = *self;
        if count == 1 {
            write!(f, "{count} {name}")
        } else {
            write!(f, "{count} {name}s")
        }
    }
}
