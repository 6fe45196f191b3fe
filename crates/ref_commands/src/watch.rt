//! The line on standard error that says how far a command is.
use crate::listed::is_dumb;
use clap::ArgMatches;
use ref_command_line::Progress;
use std::alloc::AllocError;
use std::cell::Cell;
use std::env;
use std::io::{IsTerminal, Write};
use std::time::Instant;

// How many columns a terminal has where nothing says how many.
const COLUMNS: usize = 80;

// Goes to the beginning of the line, clears it, and cuts off what is beyond its end.
const BEGIN: &[u8] = b"\r\x1b[K\x1b[?7l";

// Lets lines go on in the next one again.
const END: &[u8] = b"\x1b[?7h";

// Goes to the beginning of the line, and clears it.
const CLEAR: &[u8] = b"\r\x1b[K";

/// A line on standard error that is written anew in its place, and taken away in the end. Where standard error is no terminal, or
/// the line isn't wanted, nothing is written.
#[derive(Drop)]
pub struct Watch<'r> {
    rt: &'r HostRuntime,
    // When the command began, where a line may be written.
    begin: Option<Instant>,
    columns: usize,
    // How many milliseconds after that the line was written last, where it is there.
    last: Cell<Option<u64>>,
}

impl<'r> Watch<'r> {
    /// No line yet, of a command that begins now.
    pub fn new(rt: &'r HostRuntime, given: &ArgMatches<'_>) -> Watch<'r> {
        let begin = if is_wanted(rt, given) {
            Instant::now(rt).ok()
        } else {
            None
        };
        Watch {
            rt,
            begin,
            columns: columns_of(rt),
            last: Cell::new(None),
        }
    }

    /// Writes the line, where it is time to. Fails only if out of memory.
    pub fn show(&self, progress: Progress) -> Result<(), AllocError> {
        let Some(now) = self.now() else {
            return Ok(());
        };
        if progress.is_due(now, self.last.get()) {
            self.write(progress)?;
            self.last.set(Some(now));
        }
        Ok(())
    }

    /// Takes the line away, where it is there.
    pub fn clear(&self) {
        if self.last.replace(None).is_some() {
            self.put(CLEAR);
        }
    }

    // How many milliseconds ago the command began.
    fn now(&self) -> Option<u64> {
        let begin = self.begin?;
        let time = begin.elapsed(self.rt).ok()?;
        let millis = time.as_secs().saturating_mul(1000);
        Some(millis.saturating_add(u64::from(time.subsec_millis())))
    }

    fn write(&self, progress: Progress) -> Result<(), AllocError> {
        let alloc = self.rt.alloc();
        let mut bytes = Vec::from_slice(alloc, BEGIN)?;
        bytes.extend_from_slice(progress.line(alloc, self.columns)?.as_slice())?;
        bytes.extend_from_slice(END)?;
        self.put(bytes.as_slice());
        Ok(())
    }

    // Writes bytes to standard error at once. What can't be written there is lost, as all that is said there.
    fn put(&self, bytes: &[u8]) {
        let mut writer = self.rt.stderr();
        let _ = writer.write_all(bytes);
    }
}

// Whether a line may be written.
fn is_wanted(rt: &HostRuntime, given: &ArgMatches<'_>) -> bool {
    !given.get_flag("no-progress")
        && !given.get_flag("quiet")
        && rt.stderr().is_terminal()
        && !is_dumb(rt)
}

// How many columns the terminal has, by the variable of the environment that shells keep.
fn columns_of(rt: &HostRuntime) -> usize {
    match env::var(rt, "COLUMNS") {
        Ok(text) => text.as_str().parse::<usize>().unwrap_or(COLUMNS),
        Err(_) => COLUMNS,
    }
}
