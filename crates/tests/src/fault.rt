//! Why a row has no answer.
use std::alloc::{AllocError, AllocFailed, Global};
use std::fmt;

/// Why a row has no answer.
#[derive(Drop)]
pub enum Fault {
    /// There is no memory for it.
    Memory,
    /// It isn't of its table's form.
    Form(&'static str),
    /// What it asks is refused with this text, or several answers were to be the same, and one of them isn't.
    Text(String),
}

impl fmt::Display for Fault {
    fn fmt<W: fmt::Write>(&self, f: &mut fmt::Formatter<W>) -> fmt::Result {
        let text = match self {
            Fault::Memory => "there is no memory for the row",
            Fault::Form(text) => *text,
            Fault::Text(text) => text.as_str(),
        };
        f.write_str(text)
    }
}

impl From<AllocError> for Fault {
    ghost use Rattle.std.specs.Prelude.{⊤};

    ghost from_gives = { λ _ _. ⊤ };

    fn from(_refused: AllocError) -> Fault {
        Fault::Memory
    }
}

impl<T: Drop> From<AllocFailed<T>> for Fault {
    ghost use Rattle.std.specs.Prelude.{⊤};

    ghost from_gives = { λ _ _. ⊤ };

    fn from(_refused: AllocFailed<T>) -> Fault {
        Fault::Memory
    }
}

/// What is asked is refused, or there is no memory to say so.
pub fn refused<E: fmt::Display + Drop>(alloc: Global, error: E) -> Fault {
    match format!(in alloc; "{error}") {
        Ok(text) => Fault::Text(text),
        Err(_) => Fault::Memory,
    }
}

/// What a call returns, which may be refused. Of any kind of answer and of refusal, so that it is proved once.
pub fn done<T, E: fmt::Display + Drop>(alloc: Global, answer: Result<T, E>) -> Result<T, Fault> {
    match answer {
        Ok(value) => Ok(value),
        Err(error) => Err(refused(alloc, error)),
    }
}

/// What is made wherever there is memory.
pub fn made<T>(answer: Result<T, AllocError>) -> Result<T, Fault> {
    match answer {
        Ok(value) => Ok(value),
        Err(_) => Err(Fault::Memory),
    }
}
