//! Public calls of the libraries: what they cost, and how they are refused memory. Reads a line a call from standard
//! input, and prints each line with its answer after a colon.
//!
//! A line `GROUP CALL`, as `uris parse`, makes a call on values of its own; what is after a tab isn't read here, and says for
//! `scripts/refusals` that the call takes no memory. `scripts/refusals` runs the program for each such line and each request
//! for memory, with that request refused. Where the call wants memory, it is made again, and after it other calls on
//! the same values.
//!
//! A line `CALL TEXT SIZE TIMES`, as `parse names 100 1`, is a workload, whose answer is how much the calls returned
//! together; `nothing` as the call measures the workload itself. It prints the same on every run;
//! `docs/MEASUREMENTS.md` says how it is run under `valgrind
//! --tool=callgrind`, and what it showed.
//!
//! The exit status is 0 where every call has its answer, 3 where one wanted memory and these are the answers
//! afterwards, 4 where memory was refused before a call, 5 where it was refused once the call had returned, and 1 where
//! there is no call of a line, or something is not as it was.
#![tactic(auto)]

mod refused;
mod workloads;

use crate::refused::{Stop, Trial};
use std::alloc::Global;
use std::process::ExitCode;

/// What is printed of a line, which begins with a word.
fn trial_of(alloc: Global, line: &str) -> Result<Trial, Stop> {
    let (line, _) = line.split_once('\t').unwrap_or((line, ""));
    let (word, call) = line.split_once(' ').unwrap_or((line, ""));
    if refused::is_group(word) {
        refused::row(alloc, word, call)
    } else {
        workloads::row(alloc, line)
    }
}

fn main(rt: HostRuntime) -> ExitCode {
    for line in rt.lines(rt.alloc()) {
        let Ok(line) = line else {
            return ExitCode::from(Stop::Before.status());
        };
        let trial = match trial_of(rt.alloc(), line.as_str()) {
            Ok(trial) => trial,
            Err(stop) => return ExitCode::from(stop.status()),
        };
        if println!(rt; "{}", trial.lines).is_err() {
            return ExitCode::from(Stop::After.status());
        }
        if trial.is_refused {
            return ExitCode::from(trial.status());
        }
    }
    ExitCode::from(0)
}
