//! The least level that is listed.
ghost use Rattle.std.specs.Prelude.{◌≡◌, option_map, string_bytes, codes};
ghost use Rattle.clap.specs.Matches.{first_value, found_of};
ghost use Rattle.ref_levels.specs.Listed as spec;

use clap::ArgMatches;
use ref_command_line::Configured;
use ref_messages::Level;

/// The least level that is listed, by the command line, or else by the configuration.
pub fn least_of(given: &ArgMatches<'_>, configured: &Configured) -> Level
    ensures value { result ≡ spec.least_of (first_value (found_of given.now) (codes "level"))
        (option_map string_bytes configured.now.configuration.level) }
{
    match given.get_str("level") {
        Some(name) => least_named(name),
        None => match &configured.configuration.level {
            Some(name) => least_named(name.as_str()),
            None => Level::Note,
        },
    }
}

fn least_named(name: &str) -> Level
    ensures { result ≡ spec.least_named name.now }
{
    match name {
        "error" => Level::Error,
        "warning" => Level::Warning,
        _ => Level::Note,
    }
}

/// Whether a finding of a level is listed, by the least that is.
pub fn is_listed(level: Level, least: Level) -> bool
    ensures value { result ≡ spec.is_listed level least }
{
    rank(level) <= rank(least)
}

// The place of a level among them, the gravest first.
fn rank(level: Level) -> u8
    ensures { result ≡ spec.rank level }
{
    match level {
        Level::Error => 0,
        Level::Warning => 1,
        Level::Note => 2,
    }
}
