//! Why the program stops.
use crate::said::say;
use std::alloc::AllocError;
use std::io;

/// Why the program stops before its end.
#[derive(Drop)]
pub enum Stop {
    /// Memory ran out.
    Memory,
    /// Standard output takes no more.
    Write,
    /// Standard output is closed, as by `head`: nothing is wrong.
    Closed,
    /// The reason was printed on standard error.
    Reported,
}

impl Stop {
    /// Prints the reason on standard error where it wasn't, and returns the exit status.
    pub fn report(&self, rt: &HostRuntime) -> u8 {
        match self {
            Stop::Memory => {
                say(rt, "out of memory");
                2
            }
            Stop::Write => {
                say(rt, "cannot write to standard output");
                2
            }
            Stop::Closed => 0,
            Stop::Reported => 2,
        }
    }
}

impl From<AllocError> for Stop {
    fn from(_error: AllocError) -> Stop {
        Stop::Memory
    }
}

/// What a failed call of serde_json's writers means: they fail for memory alone.
impl From<serde_json::Error> for Stop {
    fn from(_error: serde_json::Error) -> Stop {
        Stop::Memory
    }
}

/// A failed write.
impl From<io::Error> for Stop {
    fn from(error: io::Error) -> Stop {
        match error.kind() {
            io::ErrorKind::BrokenPipe => Stop::Closed,
            io::ErrorKind::OutOfMemory => Stop::Memory,
            _ => Stop::Write,
        }
    }
}
