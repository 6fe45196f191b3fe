//! Lints, follows, bundles, lists, draws and keeps the references of folders of JSON Schema files. What may be
//! on its command line is in `ref_command_line`. Each subcommand is in a file of its name: `serve` and `lsp` here, and the others in `ref_commands`.
#![tactic(auto)]

mod lsp;
mod serve;

use clap::{ArgMatches, Error};
use ref_command_line::{Configured, Console, Stop, command, console, find_configuration, say};
use ref_commands::{bundle, graph, lint, moving, places, rename, resolve};
use ref_messages::PlainBytes;
use simdutf8::compat::from_utf8;
use std::alloc::AllocError;
use std::env::{Env, FillError};
use std::process::ExitCode;
use std::{env, io};

fn main(rt: HostRuntime) -> ExitCode {
    let status = match run(&rt) {
        Ok(status) => status,
        Err(stop) => stop.report(&rt),
    };
    ExitCode::from(status)
}

// The words of the command line.
fn words_of(rt: &HostRuntime) -> Result<Vec<String>, Stop> {
    match env::args(rt) {
        Ok(words) => Ok(without_help_of_help(words.collect(rt.alloc())?)),
        Err(error) if error.kind() == io::ErrorKind::OutOfMemory => Err(Stop::Memory),
        Err(_) => {
            say_other_arguments(rt)?;
            Err(Stop::Reported)
        }
    }
}

// How many bytes an argument has at most, on Linux.
const MOST_BYTES: usize = 131_072;

// Says which arguments are no UTF-8.
fn say_other_arguments(rt: &HostRuntime) -> Result<(), AllocError> {
    let mut buffer = vec![in rt.alloc(); 0u8; MOST_BYTES]?;
    for number in 1..usize::MAX {
        match rt.arg(number, buffer.as_mut_slice()) {
            Ok(length) => say_other_argument(rt, buffer.get(..length).unwrap_or(&[])),
            Err(FillError::NotPresent) => break,
            Err(FillError::TooLong) => say(rt, "an argument is too long"),
        }
    }
    Ok(())
}

// Says that an argument is no UTF-8, where it isn't.
fn say_other_argument(rt: &HostRuntime, bytes: &[u8]) {
    if from_utf8(bytes).is_err() {
        let _ = eprintln!(rt;
            "patchsard: {}: an argument that is not UTF-8",
            PlainBytes(bytes)
        );
    }
}

// The words without one after `help` that asks for the help of it.
fn without_help_of_help(mut words: Vec<String>) -> Vec<String> {
    if asks_for_help_of_help(words.as_slice()) {
        words.truncate(words.len().saturating_sub(1));
    }
    words
}

fn asks_for_help_of_help(words: &[String]) -> bool {
    match words {
        [_, first, second] if first.as_str() == "help" => {
            matches!(second.as_str(), "help" | "--help" | "-h")
        }
        [_, first, _, last] if first.as_str() == "help" => {
            matches!(last.as_str(), "--help" | "-h")
        }
        _ => false,
    }
}

fn run(rt: &HostRuntime) -> Result<u8, Stop> {
    let words = words_of(rt)?;
    match configuration_of(rt, words.as_slice())? {
        Ok(configured) => answer_words(rt, words.as_slice(), &configured),
        Err(status) => Ok(status),
    }
}

// Goes to the folder that is asked for, and finds the configuration that counts for a subcommand that reads files; or the status where the words
// ask for help or are wrong, which is printed.
fn configuration_of(
    rt: &HostRuntime,
    words: &[String],
) -> Result<Result<Option<Configured>, u8>, Stop> {
    let command = command::patchsard(rt.alloc())?;
    match command.try_get_matches_from(words) {
        Ok(matches) => {
            let configured = configuration_for(rt, &matches);
            drop(matches);
            Ok(Ok(configured?))
        }
        Err(error) => Ok(Err(status_of(rt, error)?)),
    }
}

// Prints help, or what is wrong with the words, and returns the status.
fn status_of(rt: &HostRuntime, error: Error) -> Result<u8, Stop> {
    let printed = error.print(rt);
    let status = if error.exit_code() == 0 { 0 } else { 2 };
    drop(error);
    match printed {
        Ok(()) => Ok(status),
        Err(_) => Err(Stop::Write),
    }
}

fn configuration_for(
    rt: &HostRuntime,
    matches: &ArgMatches<'_>,
) -> Result<Option<Configured>, Stop> {
    if let Some(folder) = matches.get_str("directory") {
        console::go_to(rt, folder)?;
    }
    match matches.subcommand() {
        None | Some(("serve", _)) | Some(("lsp", _)) => Ok(None),
        Some((_, given)) => Ok(Some(find_configuration(rt, given)?)),
    }
}

// What is answered to the words of a command line, with the configuration that counts. They are read a second time, since what they say and what it
// says are lent for one time.
fn answer_words<'a>(
    rt: &HostRuntime,
    words: &'a [String],
    configured: &'a Option<Configured>,
) -> Result<u8, Stop> {
    let command = command::patchsard(rt.alloc())?;
    match command.try_get_matches_from(words) {
        Ok(matches) => {
            let status = match configured {
                Some(configured) => asked(rt, &matches, configured),
                None => without_configuration(rt, &matches),
            };
            drop(matches);
            status
        }
        Err(error) => status_of(rt, error),
    }
}

// What is answered where no files are read.
fn without_configuration(rt: &HostRuntime, matches: &ArgMatches<'_>) -> Result<u8, Stop> {
    match matches.subcommand() {
        Some(("lsp", given)) => lsp::serve_editor(rt, given),
        Some(_) => serve::serve_calls(rt),
        None => without_subcommand(rt),
    }
}

// Returns the status of a subcommand that reads files, and prints what is not printed yet.
fn asked<'a>(
    rt: &HostRuntime,
    matches: &ArgMatches<'a>,
    configured: &'a Configured,
) -> Result<u8, Stop> {
    let mut console = Console::new(rt);
    let status = match matches.subcommand() {
        Some((name, given)) => answer(rt, &mut console, name, given, configured)?,
        None => 2,
    };
    console.finish()?;
    Ok(status)
}

// What such a subcommand answers.
fn answer<'a>(
    rt: &HostRuntime,
    console: &mut Console<'_>,
    name: &str,
    given: &ArgMatches<'a>,
    configured: &'a Configured,
) -> Result<u8, Stop> {
    match name {
        "lint" => lint::lint(rt, console, given, configured),
        "resolve" => resolve::resolve(rt, console, given, configured),
        "bundle" => bundle::bundle(rt, console, given, configured),
        "places" => places::places(rt, console, given, configured),
        "rename" => rename::rename(rt, console, given, configured),
        "move" => moving::move_path(rt, console, given, configured),
        _ => graph::graph(rt, console, given, configured),
    }
}

// Says how the program is called.
fn without_subcommand(rt: &HostRuntime) -> Result<u8, Stop> {
    let help = command::patchsard(rt.alloc())?.render_help()?;
    let _ = eprint!(rt; "{help}");
    Ok(2)
}
