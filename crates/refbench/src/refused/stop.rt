//! Why a row has no answer.
ghost use Rattle.std.specs.Prelude.{⊤};

use ref_error::{Error, RetrieveError};
use ref_uri::{ResolveFault, UriFault, UriParseFault};
use referencing::{AnswerError, FollowError};
use serde_json::Category;
use std::alloc::{AllocError, Global};
use std::fmt;

/// Why a row has no answer.
#[derive(Clone, Copy, Drop)]
pub enum Stop {
    /// Memory was refused before the call.
    Before,
    /// The call wanted memory, and what it would have changed is as it was.
    Refused,
    /// Memory was refused once the call had returned.
    After,
    /// There is no such row, or what the call was made on is not as it was.
    Wrong,
}

impl Stop {
    /// The status with which the program ends.
    pub fn status(&self) -> u8 {
        match self {
            Stop::Wrong => 1,
            Stop::Refused => 3,
            Stop::Before => 4,
            Stop::After => 5,
        }
    }
}

impl From<AllocError> for Stop {
    ghost use Rattle.std.specs.Prelude.{⊤};

    ghost from_gives = { λ _ _. ⊤ };

    fn from(_refused: AllocError) -> Stop {
        Stop::Before
    }
}

/// What a call may be refused with.
pub trait Refusal {
    /// Whether it is out of memory.
    fn is_memory(&self) -> bool;
}

impl Refusal for AllocError {
    fn is_memory(&self) -> bool {
        true
    }
}

impl Refusal for serde_json::Error {
    fn is_memory(&self) -> bool {
        matches!(self.classify(), Category::Memory)
    }
}

impl Refusal for UriParseFault {
    fn is_memory(&self) -> bool {
        matches!(self, UriParseFault::Memory(_))
    }
}

impl Refusal for ResolveFault {
    fn is_memory(&self) -> bool {
        matches!(self, ResolveFault::Memory(_))
    }
}

impl Refusal for UriFault {
    fn is_memory(&self) -> bool {
        matches!(self, UriFault::Memory(_))
    }
}

impl Refusal for RetrieveError {
    fn is_memory(&self) -> bool {
        matches!(self, RetrieveError::Memory(_))
    }
}

impl Refusal for Error {
    fn is_memory(&self) -> bool {
        matches!(self, Error::Memory(_))
    }
}

impl Refusal for FollowError {
    fn is_memory(&self) -> bool {
        self.error.is_memory()
    }
}

impl Refusal for AnswerError {
    fn is_memory(&self) -> bool {
        match self {
            AnswerError::Prepare(error) => error.is_memory(),
            AnswerError::Follow(ended) => ended.is_memory(),
            AnswerError::Memory(_) => true,
        }
    }
}

/// What a call returns.
pub trait Shown {
    /// What is printed of it.
    fn shown(&self, alloc: Global) -> Result<String, AllocError>;
}

impl Shown for bool {
    fn shown(&self, alloc: Global) -> Result<String, AllocError> {
        String::from_str(alloc, if *self { "true" } else { "false" })
    }
}

impl Shown for usize {
    fn shown(&self, alloc: Global) -> Result<String, AllocError> {
        format!(in alloc; "{self}")
    }
}

/// Why a refused call has no answer: only out of memory is right, and only where what it would have changed is as it was.
pub fn refused<E: Refusal>(refusal: &E, is_at_path: bool) -> Stop {
    if refusal.is_memory() && is_at_path {
        Stop::Refused
    } else {
        Stop::Wrong
    }
}

/// The text of a fault, which is the answer; out of memory is none.
pub fn fault<E: Refusal + fmt::Display>(alloc: Global, error: &E) -> Result<String, Stop> {
    if error.is_memory() {
        return Err(Stop::Refused);
    }
    after(format!(in alloc; "{error}"))
}

/// A text that is made once the call has returned.
pub fn after(made: Result<String, AllocError>) -> Result<String, Stop> {
    match made {
        Ok(text) => Ok(text),
        Err(_) => Err(Stop::After),
    }
}

/// What is printed of a call's answer, or the text of its fault. Of any kind of answer and of fault, so that it is proved once.
pub fn outcome<T: Shown + Drop, E: Refusal + fmt::Display + Drop>(
    alloc: Global,
    answer: Result<T, E>,
) -> Result<String, Stop> {
    match answer {
        Ok(value) => after(value.shown(alloc)),
        Err(error) => fault(alloc, &error),
    }
}

/// The same once the call has returned, where only out of memory may be in the way.
pub fn outcome_after<T: Shown + Drop, E: Refusal + Drop>(
    alloc: Global,
    answer: Result<T, E>,
) -> Result<String, Stop> {
    match answer {
        Ok(value) => after(value.shown(alloc)),
        Err(error) if error.is_memory() => Err(Stop::After),
        Err(_) => Err(Stop::Wrong),
    }
}

/// A value that is made before the call: only where memory is refused it can't be made.
pub fn before<T, E: Refusal + Drop>(made: Result<T, E>) -> Result<T, Stop> {
    match made {
        Ok(value) => Ok(value),
        Err(error) => Err(unmade(error.is_memory())),
    }
}

/// Why a value isn't made before the call: only where memory is refused it can't be made.
fn unmade(is_memory: bool) -> Stop {
    if is_memory { Stop::Before } else { Stop::Wrong }
}
