//! `patchsard lsp`.
use clap::ArgMatches;
use ref_command_line::options::{base_of, draft_of, list_of, maps};
use ref_command_line::{Configured, Stop, find_configuration, find_configuration_from, say};
use ref_configuration::Configuration;
use ref_files::Maps;
use ref_levels::{Levels, least_of};
use ref_lsp::{Desk, Ending, LeftOut, Rules, Session, Settings, serve};
use ref_protocol::wire::Wire;
use ref_streams::{Input, Output, Sink, Source};
use std::alloc::{AllocError, Global};
use std::{fs, io};

/// Serves an editor on standard input and output. The status is 0 after a `shutdown`, and 1 without one.
pub fn serve_editor(rt: &HostRuntime, given: &ArgMatches<'_>) -> Result<u8, Stop> {
    let (source, sink) = (Input::new(rt.stdin()), Output::new(rt.stdout()));
    let mut wire = Wire::new(rt.alloc(), source, sink)?;
    let mut session = Session::new(rt.alloc());
    let mut configured = configured_first(rt, given)?;
    for _ in 0..u64::MAX {
        match served(rt, given, &configured, &mut session, &mut wire)? {
            Next::Configured(other) => configured = other,
            Next::Ended(ending) => return status_of(rt, ending),
        }
    }
    Err(Stop::Memory)
}

// How serving by a configuration ended.
enum Next {
    // Another configuration counts from then on.
    Configured(Configured),
    // The session ended.
    Ended(Ending),
}

// Serves by a configuration until another one counts or the session ends. What was made of it stays while what is read anew is at fault, also where it couldn't be made once more.
fn served<R: Source + Drop, W: Sink + Drop>(
    rt: &HostRuntime,
    given: &ArgMatches<'_>,
    configured: &Configured,
    session: &mut Session,
    wire: &mut Wire<R, W>,
) -> Result<Next, Stop> {
    let maps = maps_of(rt, given, configured)?;
    let mut desk = Desk::new(rt, settings_of(rt, given, configured)?, maps);
    for _ in 0..u64::MAX {
        let rules = rules_of(rt, given, configured)?;
        match serve(&mut desk, rules, session, wire) {
            Ending::Configure => {
                if let Some(other) = configured_anew(rt, given, session)? {
                    return Ok(Next::Configured(other));
                }
            }
            ending => return Ok(Next::Ended(ending)),
        }
    }
    Err(Stop::Memory)
}

// The levels of rules.
fn rules_of(
    rt: &HostRuntime,
    given: &ArgMatches<'_>,
    configured: &Configured,
) -> Result<Rules, Stop> {
    Ok(Rules {
        levels: Levels::of(rt, given, configured)?,
        least: least_of(given, configured),
    })
}

// The configuration that counts before an editor names its folder: nothing where the file that was found is at fault, which is said on standard error, so that it can be mended
// while the server runs. One that the command line names has to be sound.
fn configured_first(rt: &HostRuntime, given: &ArgMatches<'_>) -> Result<Configured, Stop> {
    if given.get_str("config").is_some() {
        return find_configuration(rt, given);
    }
    match find_configuration(rt, given) {
        Ok(configured) => {
            if is_sound(rt, given, &configured)? {
                return Ok(configured);
            }
            drop(configured);
            Ok(unconfigured(rt.alloc()))
        }
        Err(Stop::Reported) => Ok(unconfigured(rt.alloc())),
        Err(stop) => Err(stop),
    }
}

fn unconfigured(alloc: Global) -> Configured {
    Configured {
        configuration: Configuration::new(alloc),
        name: None,
        folder: String::new(alloc),
        paths: Vec::new(alloc),
        with: Vec::new(alloc),
        maps: Vec::new(alloc),
    }
}

// The folders from which documents are read.
fn maps_of<'r>(
    rt: &'r HostRuntime,
    given: &ArgMatches<'_>,
    configured: &Configured,
) -> Result<Maps<'r>, Stop> {
    let texts = map_texts(rt.alloc(), given, configured)?;
    let list = borrowed(rt.alloc(), texts.as_slice())?;
    maps(rt, list.as_slice())
}

fn map_texts(
    alloc: Global,
    given: &ArgMatches<'_>,
    configured: &Configured,
) -> Result<Vec<String>, AllocError> {
    let mut texts = copies_of(alloc, given, "map")?;
    push_copies(&mut texts, configured.maps.as_slice())?;
    Ok(texts)
}

fn push_copies(list: &mut Vec<String>, texts: &[String]) -> Result<(), AllocError> {
    for text in texts {
        list.push(text.clone()?)?;
    }
    Ok(())
}

fn borrowed(alloc: Global, texts: &[String]) -> Result<Vec<&str>, AllocError> {
    let mut list = Vec::new(alloc);
    for text in texts {
        list.push(text.as_str())?;
    }
    Ok(list)
}

// Copies of the values of a word that may be given more than once.
fn copies_of(alloc: Global, given: &ArgMatches<'_>, word: &str) -> Result<Vec<String>, AllocError> {
    let mut list = Vec::new(alloc);
    for text in list_of(alloc, given, word)? {
        list.push(String::from_str(alloc, text)?)?;
    }
    Ok(list)
}

// What the command line and the configuration say of the files.
fn settings_of(
    rt: &HostRuntime,
    given: &ArgMatches<'_>,
    configured: &Configured,
) -> Result<Settings, Stop> {
    let alloc = rt.alloc();
    let base = base_of(rt, given, configured)?;
    let mut with = Vec::new(alloc);
    push_copies(&mut with, configured.with.as_slice())?;
    let configuration = &configured.configuration;
    Ok(Settings {
        base,
        draft: draft_of(given, configured),
        with,
        left_out: left_out(alloc, given, configured)?,
        has_ignore: configuration.has_gitignore && !given.get_flag("no-ignore"),
        has_yaml: configuration.has_yaml || given.get_flag("yaml"),
        configuration: configuration_at(rt, given)?,
    })
}

// The absolute path of the configuration that the command line names, where it names one.
fn configuration_at(rt: &HostRuntime, given: &ArgMatches<'_>) -> Result<Option<String>, Stop> {
    let Some(path) = given.get_str("config") else {
        return Ok(None);
    };
    match fs::canonicalize(rt, path) {
        Ok(path) => Ok(Some(path.into_string())),
        Err(error) if error.kind() == io::ErrorKind::OutOfMemory => Err(Stop::Memory),
        Err(error) => {
            drop(error);
            Ok(None)
        }
    }
}

// What is left out: what the command line says, from the working folder on, and what the configuration says, from its folder on.
fn left_out(
    alloc: Global,
    given: &ArgMatches<'_>,
    configured: &Configured,
) -> Result<Vec<LeftOut>, AllocError> {
    let mut list = Vec::new(alloc);
    for text in copies_of(alloc, given, "exclude")? {
        let folder = String::new(alloc);
        push(&mut list, LeftOut { folder, text })?;
    }
    for text in &configured.configuration.exclude {
        let (folder, text) = (configured.folder.clone()?, text.clone()?);
        push(&mut list, LeftOut { folder, text })?;
    }
    Ok(list)
}

fn push(list: &mut Vec<LeftOut>, one: LeftOut) -> Result<(), AllocError> {
    list.push(one)?;
    Ok(())
}

// The configuration that counts for a session: nothing where it is at fault, which is said on standard error, so that the one before goes on counting.
fn configured_anew(
    rt: &HostRuntime,
    given: &ArgMatches<'_>,
    session: &Session,
) -> Result<Option<Configured>, Stop> {
    let found = match session.folder() {
        Some(folder) => find_configuration_from(rt, given, folder),
        None => find_configuration(rt, given),
    };
    match found {
        Ok(configured) if is_sound(rt, given, &configured)? => Ok(Some(configured)),
        Ok(configured) => {
            drop(configured);
            Ok(None)
        }
        Err(Stop::Reported) => Ok(None),
        Err(stop) => Err(stop),
    }
}

// Whether a configuration can be served by. What is wrong with it is said on standard error.
fn is_sound(
    rt: &HostRuntime,
    given: &ArgMatches<'_>,
    configured: &Configured,
) -> Result<bool, Stop> {
    match parts_of(rt, given, configured) {
        Ok(()) => Ok(true),
        Err(Stop::Reported) => Ok(false),
        Err(stop) => Err(stop),
    }
}

fn parts_of(rt: &HostRuntime, given: &ArgMatches<'_>, configured: &Configured) -> Result<(), Stop> {
    let base = base_of(rt, given, configured)?;
    drop(base);
    let maps = maps_of(rt, given, configured)?;
    drop(maps);
    let levels = Levels::of(rt, given, configured)?;
    drop(levels);
    Ok(())
}

fn status_of(rt: &HostRuntime, ending: Ending) -> Result<u8, Stop> {
    match ending {
        Ending::Exit(true) => Ok(0),
        Ending::Exit(false) | Ending::Configure => Ok(1),
        Ending::Broken(why) => {
            say(rt, why);
            Err(Stop::Reported)
        }
        Ending::Read => {
            say(rt, "cannot read standard input");
            Err(Stop::Reported)
        }
        Ending::Write => Err(Stop::Write),
        Ending::Memory => Err(Stop::Memory),
    }
}
