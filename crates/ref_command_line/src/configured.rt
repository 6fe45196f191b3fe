//! The configuration file that counts.
use crate::checked::check;
use crate::said::say_of;
use crate::stop::Stop;
use clap::ArgMatches;
use ref_configuration::{Configuration, Refusal};
use ref_files::path_from;
use ref_messages::Plain;
use std::alloc::{AllocError, Global};
use std::{fs, io};

// What the file is called.
const NAME: &str = "patchsard.toml";

/// What a configuration file says, and where it is.
#[derive(Drop)]
pub struct Configured {
    /// What it says.
    pub configuration: Configuration,
    /// The path of the file as it is shown; `None` where there is none.
    pub name: Option<String>,
    /// The path of its folder from the working folder, or nothing where it is that.
    pub folder: String,
    /// The paths that it has, from the working folder on.
    pub paths: Vec<String>,
    /// Those that references may lead into.
    pub with: Vec<String>,
    /// The texts that say from which folders documents are read, as `--map` has them.
    pub maps: Vec<String>,
}

/// What the configuration file says that a command line names, or else the next one named `patchsard.toml` in the working folder or above it; where there is none,
/// or none is wanted, one that says nothing. What is wrong with it is said on standard error.
pub fn find_configuration(rt: &HostRuntime, given: &ArgMatches<'_>) -> Result<Configured, Stop> {
    if given.get_flag("no-config") {
        return Ok(without_file(rt.alloc()));
    }
    if let Some(path) = given.get_str("config") {
        return read(rt, String::from_str(rt.alloc(), path)?);
    }
    match found_above(rt)? {
        Some(path) => read(rt, path),
        None => Ok(without_file(rt.alloc())),
    }
}

/// The same, but that the next file named `patchsard.toml` is looked for in the folder at an absolute path or above it.
pub fn find_configuration_from(
    rt: &HostRuntime,
    given: &ArgMatches<'_>,
    folder: &str,
) -> Result<Configured, Stop> {
    if given.get_flag("no-config") || given.get_str("config").is_some() {
        return find_configuration(rt, given);
    }
    match found_from(rt, folder)? {
        Some(path) => read(rt, path),
        None => Ok(without_file(rt.alloc())),
    }
}

// The path of the file that is in a folder or next above it.
fn found_from(rt: &HostRuntime, folder: &str) -> Result<Option<String>, Stop> {
    let mut rest = folder.trim_end_matches('/');
    for _ in 0..=folder.len() {
        let path = format!(in rt.alloc(); "{rest}/{}", NAME)?;
        match fs::metadata(rt, path.as_str()) {
            Ok(data) if data.is_file() => return Ok(Some(path)),
            Err(error) if error.kind() == io::ErrorKind::OutOfMemory => return Err(Stop::Memory),
            _ => {}
        }
        rest = match rest.rsplit_once('/') {
            Some((front, _)) => front,
            None => return Ok(None),
        };
    }
    Ok(None)
}

fn without_file(alloc: Global) -> Configured {
    Configured {
        configuration: Configuration::new(alloc),
        name: None,
        folder: String::new(alloc),
        paths: Vec::new(alloc),
        with: Vec::new(alloc),
        maps: Vec::new(alloc),
    }
}

// The path of the file that is in the working folder or next above it.
fn found_above(rt: &HostRuntime) -> Result<Option<String>, Stop> {
    let depth = match fs::canonicalize(rt, ".") {
        Ok(here) => here
            .into_string()
            .bytes()
            .filter(|byte| *byte == b'/')
            .count(),
        Err(error) if error.kind() == io::ErrorKind::OutOfMemory => return Err(Stop::Memory),
        Err(_) => return Ok(None),
    };
    let mut path = String::from_str(rt.alloc(), NAME)?;
    for _ in 0..=depth {
        match fs::metadata(rt, path.as_str()) {
            Ok(data) if data.is_file() => return Ok(Some(path)),
            Err(error) if error.kind() == io::ErrorKind::OutOfMemory => return Err(Stop::Memory),
            _ => {}
        }
        path = ["../", path.as_str()].join(rt.alloc(), "")?;
    }
    Ok(None)
}

// What the file at a path says.
fn read(rt: &HostRuntime, path: String) -> Result<Configured, Stop> {
    let text = match fs::read_to_string(rt, path.as_str()) {
        Ok(text) => text,
        Err(error) if error.kind() == io::ErrorKind::OutOfMemory => return Err(Stop::Memory),
        Err(error) => {
            say_of(rt, path.as_str(), error);
            return Err(Stop::Reported);
        }
    };
    match Configuration::parse(rt.alloc(), text.as_str()) {
        Ok(configuration) => {
            let configured = placed(rt.alloc(), path, configuration)?;
            check(rt, text.as_str(), &configured)?;
            Ok(configured)
        }
        Err(Refusal::Memory) => Err(Stop::Memory),
        Err(Refusal::At { line, column, text }) => {
            let _ = eprintln!(rt;
                "patchsard: {}:{line}:{column}: {}",
                Plain(path.as_str()),
                Plain(text.as_str())
            );
            Err(Stop::Reported)
        }
    }
}

// A configuration with its paths from the working folder on.
fn placed(
    alloc: Global,
    path: String,
    configuration: Configuration,
) -> Result<Configured, AllocError> {
    let folder = match path.as_str().rsplit_once('/') {
        Some(("", _)) => String::from_str(alloc, "/")?,
        Some((folder, _)) => String::from_str(alloc, folder)?,
        None => String::new(alloc),
    };
    let paths = paths_from(alloc, folder.as_str(), configuration.paths.as_slice())?;
    let with = paths_from(alloc, folder.as_str(), configuration.with.as_slice())?;
    let maps = maps_from(alloc, folder.as_str(), configuration.maps.as_slice())?;
    Ok(Configured {
        configuration,
        name: Some(path),
        folder,
        paths,
        with,
        maps,
    })
}

fn paths_from(alloc: Global, folder: &str, paths: &[String]) -> Result<Vec<String>, AllocError> {
    let mut list = Vec::new(alloc);
    for path in paths {
        list.push(path_from(alloc, folder, path.as_str())?)?;
    }
    Ok(list)
}

fn maps_from(
    alloc: Global,
    folder: &str,
    maps: &[(String, String)],
) -> Result<Vec<String>, AllocError> {
    let mut list = Vec::new(alloc);
    for (prefix, own) in maps {
        let path = path_from(alloc, folder, own.as_str())?;
        list.push([prefix.as_str(), "=", path.as_str()].join(alloc, "")?)?;
    }
    Ok(list)
}
