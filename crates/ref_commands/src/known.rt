//! The findings that a baseline has.
use crate::listed::Listing;
use crate::opened::Opened;
use clap::ArgMatches;
use ref_command_line::{Stop, say, say_of};
use ref_files::{WriteError, write_file};
use ref_messages::{Baseline, Message};
use ref_workspace::{Finding, Silences};
use std::alloc::AllocError;
use std::{fs, io};

/// What of the findings isn't listed: those that comments silence, and those that are known.
#[derive(Drop)]
pub struct Known<'d> {
    /// The comments.
    pub silences: Silences<'d>,
    // Those that are known.
    known: Baseline,
    // Those that are found, where they are to be written.
    found: Option<Baseline>,
    // The folder of the file that lists those that are known, with a slash at its end.
    folder: String,
    /// How many findings a comment silences.
    pub silenced: usize,
    /// How many are known.
    pub passed: usize,
}

impl<'d> Known<'d> {
    /// What a command line asks for, of the documents that are open. What is wrong with the file is said on standard error.
    pub fn of(
        rt: &HostRuntime,
        given: &ArgMatches<'_>,
        opened: &'d Opened<'_>,
    ) -> Result<Known<'d>, Stop> {
        let alloc = rt.alloc();
        let is_written = given.get_flag("write-baseline");
        let path = given.get_str("baseline");
        if is_written && path.is_none() {
            say(rt, "--write-baseline: name the file to write by --baseline");
            return Err(Stop::Reported);
        }
        let known = match path {
            Some(path) if !is_written => read(rt, path)?,
            _ => Baseline::new(alloc),
        };
        Ok(Known {
            silences: Silences::of(alloc, &opened.workspace)?,
            known,
            found: if is_written {
                Some(Baseline::new(alloc))
            } else {
                None
            },
            folder: folder_of(rt, path.unwrap_or(""))?,
            silenced: 0,
            passed: 0,
        })
    }

    /// Whether a finding isn't listed, since it is known, or is to be from now on. Its file has this absolute path.
    pub fn has(&mut self, path: &str, message: &Message<'_>) -> Result<bool, AllocError> {
        let file = path.strip_prefix(self.folder.as_str()).unwrap_or(path);
        if let Some(found) = &mut self.found {
            found.add(file, message)?;
            self.passed = self.passed.saturating_add(1);
            return Ok(true);
        }
        let is_known = self.known.take(file, message)?;
        if is_known {
            self.passed = self.passed.saturating_add(1);
        }
        Ok(is_known)
    }

    /// Whether a finding in the file with this absolute path is listed: its rule isn't off there, no comment silences it, and it isn't known.
    pub fn is_listed(
        &mut self,
        path: &str,
        listing: &mut Listing,
        finding: &Finding<'_>,
        message: &Message<'_>,
    ) -> Result<bool, AllocError> {
        let level = listing.level_of(path, finding, message)?;
        if level.is_none() || self.silences.has(finding, message.line, message.code)? {
            return Ok(false);
        }
        Ok(!self.has(path, message)?)
    }

    /// Writes those that were found, where that is asked for, and says what is known no more.
    pub fn finish(&self, rt: &HostRuntime, given: &ArgMatches<'_>) -> Result<(), Stop> {
        let path = given.get_str("baseline").unwrap_or("");
        let left = self.known.left();
        if left > 0 {
            let _ = eprintln!(rt;
                "patchsard: {path}: {left} of the known findings are no more; --write-baseline writes it anew"
            );
        }
        match &self.found {
            Some(found) => write(rt, path, found),
            None => Ok(()),
        }
    }
}

fn read(rt: &HostRuntime, path: &str) -> Result<Baseline, Stop> {
    let text = match fs::read_to_string(rt, path) {
        Ok(text) => text,
        Err(error) if error.kind() == io::ErrorKind::OutOfMemory => return Err(Stop::Memory),
        Err(error) => {
            say_of(rt, path, error);
            return Err(Stop::Reported);
        }
    };
    match Baseline::parse(rt.alloc(), text.as_str())? {
        Some(baseline) => Ok(baseline),
        None => {
            say_of(
                rt,
                path,
                "not a list of known findings, as --write-baseline writes it",
            );
            Err(Stop::Reported)
        }
    }
}

// The absolute path of the folder of a file, with a slash at its end.
fn folder_of(rt: &HostRuntime, path: &str) -> Result<String, Stop> {
    let folder = match path.rsplit_once('/') {
        Some(("", _)) => "/",
        Some((folder, _)) => folder,
        None => ".",
    };
    let mut real = match fs::canonicalize(rt, folder) {
        Ok(real) => real.into_string(),
        Err(error) if error.kind() == io::ErrorKind::OutOfMemory => return Err(Stop::Memory),
        Err(_) => String::from_str(rt.alloc(), folder)?,
    };
    if !real.ends_with('/') {
        real.push('/')?;
    }
    Ok(real)
}

fn write(rt: &HostRuntime, path: &str, found: &Baseline) -> Result<(), Stop> {
    let mut text = String::new(rt.alloc());
    found.push(&mut text)?;
    match write_file(rt, path, text.as_str()) {
        Ok(()) => Ok(()),
        Err(WriteError::Memory) => Err(Stop::Memory),
        Err(_) => {
            say_of(rt, path, "cannot be written");
            Err(Stop::Reported)
        }
    }
}
