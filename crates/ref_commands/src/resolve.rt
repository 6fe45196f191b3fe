//! `patchsard resolve`.
use crate::beside::beside;
use crate::left_out::say_fault;
use crate::members::is_json;
use crate::opened::{Opened, open_file, reported};
use crate::shown::{push_found, push_found_object};
use clap::ArgMatches;
use ref_command_line::{Configured, Console, Stop, say_of};
use ref_error::Error;
use ref_messages::Plain;
use ref_uri::Uri;
use ref_workspace::follow::{Outcome, Start, followed};
use ref_workspace::world::world_of;
use ref_workspace::{Document, World};
use std::alloc::{AllocError, Global};

/// Follows a reference from a place of a file. The status is 0 where it resolves, 1 where it is unresolvable, and 2
/// where a path couldn't be read or the place isn't given by a pointer.
pub fn resolve<'a>(
    rt: &HostRuntime,
    console: &mut Console<'_>,
    given: &ArgMatches<'a>,
    configured: &'a Configured,
) -> Result<u8, Stop> {
    let from = given.get_str("from").unwrap_or("");
    if !is_pointer(from) {
        let _ = eprintln!(rt;
            "patchsard: --from {}: not a JSON pointer: it is empty, or begins with /, and ~ in a key is ~0 and / is ~1",
            Plain(from)
        );
        return Err(Stop::Reported);
    }
    let opened = open_file(rt, given, configured, None)?;
    let status = if opened.has_failed {
        Ok(2)
    } else {
        resolve_opened(rt, console, given, &opened)
    };
    drop(opened);
    status
}

/// Whether a text is a JSON pointer (RFC 6901, 3).
pub(crate) fn is_pointer(text: &str) -> bool {
    if !text.is_empty() && !text.starts_with('/') {
        return false;
    }
    for (number, part) in text.split('~').enumerate() {
        if number > 0 && !part.starts_with('0') && !part.starts_with('1') {
            return false;
        }
    }
    true
}

// Follows the reference in what was read.
fn resolve_opened(
    rt: &HostRuntime,
    console: &mut Console<'_>,
    given: &ArgMatches<'_>,
    opened: &Opened<'_>,
) -> Result<u8, Stop> {
    let Some(document) = opened.workspace.documents().first() else {
        return Ok(2);
    };
    if let Some(fault) = document.text.fault() {
        say_fault(rt, document, fault);
        return Ok(1);
    }
    let trees = opened.workspace.mended(rt.alloc())?;
    let world = world_of(rt.alloc(), &opened.workspace, trees.as_slice());
    let world = reported(rt, world)?;
    let asked = Asked {
        rt,
        opened,
        document,
        from: given.get_str("from").unwrap_or(""),
        reference: given.get_str("reference").unwrap_or(""),
        is_json: is_json(given),
    };
    asked.resolve(console, &world)
}

// What is asked: where a reference leads from a place of a document, whose pointer is given.
#[derive(Clone, Copy, Drop)]
struct Asked<'r, 'm> {
    rt: &'r HostRuntime,
    opened: &'r Opened<'m>,
    document: &'r Document,
    from: &'r str,
    reference: &'r str,
    is_json: bool,
}

impl Asked<'_, '_> {
    fn resolve(&self, console: &mut Console<'_>, world: &World<'_>) -> Result<u8, Stop> {
        let alloc = self.rt.alloc();
        let start = Start {
            number: 0,
            pointer: self.from,
        };
        let workspace = &self.opened.workspace;
        match followed(alloc, workspace, world, start, self.reference) {
            Ok(outcome) => {
                let status = self.answer(console, world, &outcome);
                drop(outcome);
                status
            }
            Err(error) => {
                let status = self.unresolvable(&error);
                drop(error);
                status
            }
        }
    }

    // Prints what was found, or says why nothing was.
    fn answer(
        &self,
        console: &mut Console<'_>,
        world: &World<'_>,
        outcome: &Outcome<'_>,
    ) -> Result<u8, Stop> {
        match outcome {
            Outcome::Found(found) => {
                let workspace = &self.opened.workspace;
                if self.is_json {
                    push_found_object(self.rt.alloc(), &mut console.out, workspace, world, found)?;
                } else {
                    push_found(self.rt.alloc(), &mut console.out, workspace, world, found)?;
                }
                return Ok(0);
            }
            Outcome::Missing(uri) => self.say_missing(uri)?,
            Outcome::Nowhere(uri) => self.say_nowhere(uri),
            Outcome::Broken(number) => self.say_broken(*number),
            Outcome::NoPlace => {
                let _ = eprintln!(self.rt;
                    "patchsard: {}: no value is at the pointer of --from, '{}'",
                    Plain(self.document.name.as_str()),
                    Plain(self.from)
                );
            }
        }
        Ok(1)
    }

    // Says that no document has a URI, and what to do.
    fn say_missing(&self, uri: &Uri) -> Result<(), AllocError> {
        let _ = eprintln!(self.rt;
            "patchsard: {}: '{}' leads into a document that is not among the given files: {}",
            Plain(self.document.name.as_str()),
            Plain(self.reference),
            Plain(uri.as_str())
        );
        match beside(self.rt, self.opened, 0, uri.as_str())? {
            Some(path) => {
                let _ = eprintln!(self.rt; "    help: --with {}", Plain(path.as_str()));
            }
            None => {
                let _ = eprintln!(self.rt;
                    "    help: name its file or folder by --with, or a folder that has it by --map"
                );
            }
        }
        Ok(())
    }

    // Says that a part of a description has no such value.
    fn say_nowhere(&self, uri: &Uri) {
        let _ = eprintln!(self.rt;
            "patchsard: {}: '{}' leads nowhere: no value is at {}",
            Plain(self.document.name.as_str()),
            Plain(self.reference),
            Plain(uri.as_str())
        );
    }

    // Says that a document has no value, or has faults.
    fn say_broken(&self, number: usize) {
        if let Some(document) = self.opened.workspace.documents().get(number) {
            if let Some(fault) = document.text.fault() {
                return say_fault(self.rt, document, fault);
            }
        }
        let why = "it has faults: see patchsard lint";
        say_of(self.rt, self.opened.workspace.name(number), why);
    }

    // Says why a reference is unresolvable, and returns the status.
    fn unresolvable(&self, error: &Error) -> Result<u8, Stop> {
        if error.is_memory() {
            return Err(Stop::Memory);
        }
        let said = error.to_string(self.rt.alloc())?;
        say_of(self.rt, self.document.name.as_str(), Plain(said.as_str()));
        Ok(1)
    }
}
