//! Follows references through JSON Schema documents: a JSON request on standard input, the report on standard output. What the
//! report is, and that it is what is written, is proved in `ref_report`.
#![tactic(auto)]

use ref_report::run::{exit_status, run};
use ref_report::{Input, Output};
use std::env;
use std::io::ErrorKind;
use std::process::ExitCode;

const HELP: &str = "Follows references through JSON Schema documents.

Usage: refwalk < REQUEST

Reads a JSON request on standard input and writes the report on standard output; docs/formats.md
describes both. The exit status is 0 for an answer, 1 for a fault, 2 for a bad request, 3 without
a report.

Options:
  -h, --help     Print help
  -V, --version  Print version";

// What is printed in place of a report, where the program is given a word.
fn printed_for(word: &str) -> Option<&'static str> {
    match word {
        "-h" | "--help" => Some(HELP),
        "-V" | "--version" => Some("refwalk 0.1.0"),
        _ => None,
    }
}

// Prints what a word asks for; one that is no option is an error of usage.
fn print_for(rt: &HostRuntime, word: &str) -> ExitCode {
    let Some(text) = printed_for(word) else {
        let _ = eprintln!(rt; "refwalk: unexpected argument '{word}'; see refwalk --help");
        return ExitCode::from(2);
    };
    match println!(rt; "{text}") {
        Ok(()) => ExitCode::from(0),
        Err(_) => ExitCode::from(3),
    }
}

// Reads the request and writes the report.
fn report(rt: &HostRuntime) -> ExitCode {
    let mut reader = Input::new(rt.stdin());
    let mut writer = Output::new(rt.stdout());
    let answer = run(rt.alloc(), &mut reader, &mut writer);
    if let Err(error) = &answer {
        let _ = eprintln!(rt; "refwalk: {error}");
    }
    ExitCode::from(exit_status(&answer))
}

// Says why the words after the program's name can't be had.
fn without_words(rt: &HostRuntime, kind: ErrorKind) -> ExitCode {
    if kind == ErrorKind::OutOfMemory {
        let _ = eprintln!(rt; "refwalk: out of memory");
        return ExitCode::from(3);
    }
    let _ = eprintln!(rt; "refwalk: an argument is not UTF-8");
    ExitCode::from(2)
}

fn main(rt: HostRuntime) -> ExitCode {
    match env::args(&rt) {
        Ok(words) => match words.skip(1).next() {
            Some(word) => print_for(&rt, word.as_str()),
            None => report(&rt),
        },
        Err(error) => without_words(&rt, error.kind()),
    }
}
