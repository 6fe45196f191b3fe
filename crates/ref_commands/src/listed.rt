//! What of findings is listed, and how.
use crate::outcome::is_colored;
use clap::ArgMatches;
use ref_command_line::{Configured, Stop};
use ref_levels::{Levels, is_listed, least_of};
use ref_messages::{Color, Level, Message, Plain};
use ref_workspace::{Finding, RULES};
use std::alloc::{AllocError, Global};
use std::collections::BTreeMap;
use std::env;
use std::io::IsTerminal;

/// How findings are printed.
#[derive(Clone, Copy, Drop, PartialEq, Eq)]
pub enum Form {
    /// Lines for people.
    Text,
    /// Lines for people, with those of the files.
    Full,
    /// An object of JSON a line.
    Lines,
    /// A log of SARIF.
    Sarif,
    /// Annotations of GitHub.
    GitHub,
    /// A report on code quality, as GitLab reads it.
    GitLab,
    /// A report of JUnit.
    JUnit,
}

/// What is asked of the list of findings.
#[derive(Drop)]
pub struct Listing {
    /// How they are printed.
    pub form: Form,
    /// How parts of text are set off.
    pub color: Color,
    /// The levels that rules are set to.
    pub levels: Levels,
    /// The least level that is printed.
    pub least: Level,
    /// How many warnings there may be, where that is asked for.
    pub most_warnings: Option<usize>,
    /// Whether notes on what wasn't looked at are listed.
    pub is_verbose: bool,
    /// Whether findings alone are printed.
    pub is_quiet: bool,
    /// Whether it is printed how many findings each rule has.
    pub has_statistics: bool,
}

impl Listing {
    /// What a command line asks for. A rule that there isn't, or a number that is none, is said on standard error.
    pub fn of(
        rt: &HostRuntime,
        given: &ArgMatches<'_>,
        configured: &Configured,
    ) -> Result<Listing, Stop> {
        let levels = Levels::of(rt, given, configured)?;
        let most_warnings = match most_warnings_of(rt, given)? {
            Some(most) => Some(most),
            None => configured.configuration.max_warnings,
        };
        Ok(Listing {
            form: form_of(rt, given),
            color: color_of(rt, given),
            levels,
            least: least_of(given, configured),
            most_warnings,
            is_verbose: given.get_flag("verbose"),
            is_quiet: given.get_flag("quiet"),
            has_statistics: given.get_flag("statistics"),
        })
    }

    /// Whether notes on references that weren't checked are listed: they are asked for, or their rule is set.
    pub fn has_unchecked(&self) -> bool {
        self.is_verbose || self.levels.has("unchecked-reference")
    }

    /// The level of a finding with a message on it, in the file at an absolute path, where its rule isn't off.
    pub fn level_of(
        &mut self,
        path: &str,
        finding: &Finding<'_>,
        message: &Message<'_>,
    ) -> Result<Option<Level>, AllocError> {
        if finding.problem.is_off() {
            return self.levels.level_set(path, message.code);
        }
        self.levels.level(path, message.code, message.level)
    }

    /// Whether it is told what is beside references of descriptions: one of its rules is set.
    pub fn tells_beside(&self) -> bool {
        self.levels.has("ignored-beside-ref") || self.levels.has("annotation-beside-ref")
    }

    /// Whether a finding of a level is printed.
    pub fn is_printed(&self, level: Level) -> bool {
        is_listed(level, self.least)
    }
}

fn form_of(rt: &HostRuntime, given: &ArgMatches<'_>) -> Form {
    match given.get_str("format") {
        Some("text") => Form::Text,
        Some("full") => Form::Full,
        Some("json") => Form::Lines,
        Some("sarif") => Form::Sarif,
        Some("github") => Form::GitHub,
        Some("gitlab") => Form::GitLab,
        Some("junit") => Form::JUnit,
        _ if rt.stdout().is_terminal() => Form::Full,
        _ => Form::Text,
    }
}

// Colours are there where they are asked for, or on a terminal that has them.
fn color_of(rt: &HostRuntime, given: &ArgMatches<'_>) -> Color {
    let choice = match given.get_str("color") {
        Some("always") => Some(true),
        Some("never") => Some(false),
        _ => None,
    };
    let is_terminal = rt.stdout().is_terminal();
    if is_colored(choice, is_terminal, is_set(rt, "NO_COLOR"), is_dumb(rt)) {
        Color::Ansi
    } else {
        Color::None
    }
}

// Whether a variable of the environment is there and is not empty.
fn is_set(rt: &HostRuntime, name: &str) -> bool {
    match env::var(rt, name) {
        Ok(value) => !value.is_empty(),
        Err(env::VarError::NotPresent) => false,
        Err(_) => true,
    }
}

/// Whether the terminal has neither colours nor a cursor that goes back.
pub(crate) fn is_dumb(rt: &HostRuntime) -> bool {
    match env::var(rt, "TERM") {
        Ok(value) => value.as_str() == "dumb",
        Err(_) => false,
    }
}

fn most_warnings_of(rt: &HostRuntime, given: &ArgMatches<'_>) -> Result<Option<usize>, Stop> {
    let Some(text) = given.get_str("max-warnings") else {
        return Ok(None);
    };
    match text.parse::<usize>() {
        Ok(most) => Ok(Some(most)),
        Err(_) => {
            let _ = eprintln!(rt;
                "patchsard: --max-warnings {}: not a whole number of 64 bits",
                Plain(text)
            );
            Err(Stop::Reported)
        }
    }
}

/// How many findings each rule has.
#[derive(Drop)]
pub struct Statistics {
    counts: BTreeMap<&'static str, usize>,
}

impl Statistics {
    /// None.
    pub fn new(alloc: Global) -> Statistics {
        Statistics {
            counts: BTreeMap::new(alloc),
        }
    }

    /// Counts a finding of a rule.
    pub fn add(&mut self, code: &'static str) -> Result<(), AllocError> {
        let count = self.counts.entry(code)?.or_insert(0);
        *count = count.saturating_add(1);
        Ok(())
    }

    /// Prints how many findings each rule has on standard error, a line each, in the order of the rules.
    pub fn say(&self, rt: &HostRuntime) {
        for rule in RULES {
            if let Some(count) = self.counts.get(rule.code) {
                let _ = eprintln!(rt; "{count} {}", rule.code);
            }
        }
    }
}
