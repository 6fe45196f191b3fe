//! Why a run ends too early.
use std::alloc::AllocError;
use std::fmt;

/// Why a run ends too early.
#[derive(Clone, Copy, Debug, Drop, PartialEq, Eq)]
pub enum RunError {
    /// A read failed.
    Read,
    /// A write failed.
    Write,
    /// Memory ran out.
    Memory,
}

impl From<AllocError> for RunError {
    ghost use Rattle.std.specs.Prelude.{◌≡◌};
    ghost use Rattle.ref_streams.specs.declared.error.RunError.TheVariants.{Memory};

    ghost from_gives = { λ _ e. e ≡ Memory };

    fn from(_refused: AllocError) -> RunError {
        RunError::Memory
    }
}

impl fmt::Display for RunError {
    ghost use Rattle.std.specs.Prelude.{Some};
    ghost use Rattle.ref_streams.specs.Errors.{run_error_text};

    ghost output = { λ e. Some (run_error_text e) };

    fn fmt<W: fmt::Write>(&self, f: &mut fmt::Formatter<W>) -> fmt::Result {
        match self {
            RunError::Read => write!(f, "cannot read"),
            RunError::Write => write!(f, "cannot write"),
            RunError::Memory => write!(f, "out of memory"),
        }
    }
}
