//! A call that is tried, and asked again where it wanted memory.
use crate::refused::stop::{Stop, after};
use std::alloc::{AllocError, Global};

/// Calls on values that were made before them, by their names.
pub trait Calls {
    /// What the call of a name returns.
    fn answer(&mut self, alloc: Global, call: &str) -> Result<String, Stop>;
}

/// What a row prints, and whether its call wanted memory at first.
#[derive(Drop)]
pub struct Trial {
    /// `GROUP CALL: ANSWER`, and where the call wanted memory a line more for each of its neighbours.
    pub lines: String,
    /// Whether it wanted memory at first, and these are the answers afterwards.
    pub is_refused: bool,
}

impl Trial {
    /// The status with which the program ends.
    pub fn status(&self) -> u8 {
        if self.is_refused {
            Stop::Refused.status()
        } else {
            0
        }
    }
}

/// The line of a call.
fn line(alloc: Global, group: &str, call: &str, answer: &str) -> Result<String, AllocError> {
    format!(in alloc; "{group} {call}: {answer}")
}

/// Makes a call. Where it wants memory, makes the very same call again, and after it its neighbours, on the same
/// values: none of them may then be refused.
pub fn tried<C: Calls>(
    alloc: Global,
    calls: &mut C,
    group: &str,
    call: &str,
    neighbours: &[&str],
) -> Result<Trial, Stop> {
    match calls.answer(alloc, call) {
        Ok(answer) => Ok(Trial {
            lines: after(line(alloc, group, call, answer.as_str()))?,
            is_refused: false,
        }),
        Err(Stop::Refused) => Ok(Trial {
            lines: again(alloc, calls, group, call, neighbours)?,
            is_refused: true,
        }),
        Err(stop) => Err(stop),
    }
}

/// A call that is made again.
fn repeated<C: Calls>(
    alloc: Global,
    calls: &mut C,
    group: &str,
    call: &str,
) -> Result<String, Stop> {
    let Ok(answer) = calls.answer(alloc, call) else {
        return Err(Stop::Wrong);
    };
    after(line(alloc, group, call, answer.as_str()))
}

/// A call and its neighbours, made again.
fn again<C: Calls>(
    alloc: Global,
    calls: &mut C,
    group: &str,
    call: &str,
    neighbours: &[&str],
) -> Result<String, Stop> {
    let mut lines = repeated(alloc, calls, group, call)?;
    for neighbour in neighbours {
        let line = repeated(alloc, calls, group, neighbour)?;
        lines.push('\n')?;
        lines.push_str(line.as_str())?;
    }
    Ok(lines)
}
