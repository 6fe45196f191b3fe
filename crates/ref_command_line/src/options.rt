//! What subcommands are asked with.
use crate::configured::Configured;
use crate::stop::Stop;
use clap::ArgMatches;
use ref_draft::Draft;
use ref_files::{Exclusion, Map, Maps, Selection, is_base};
use ref_messages::Plain;
use std::alloc::{AllocError, Global};

/// What is to be read, and how.
#[derive(Drop)]
pub struct Reading<'a> {
    /// Which files.
    pub selection: Selection<'a>,
    /// The one file that is asked about, where only one is.
    pub file: &'a str,
    /// The URI that files are under.
    pub base: Option<&'a str>,
    /// The draft of files that name none.
    pub draft: Draft,
    /// The texts that say from which folders documents are read.
    pub maps: Vec<&'a str>,
}

/// What a command line and a configuration ask to be read. What the command line says counts before the configuration, and what of lists both say counts together; but
/// the paths of the configuration are those that are asked about only where the command line names none.
pub fn reading_of<'a>(
    rt: &HostRuntime,
    given: &ArgMatches<'a>,
    configured: &'a Configured,
) -> Result<Reading<'a>, Stop> {
    let base = match given.get_str("base") {
        Some(base) => Some(base),
        None => text_of(&configured.configuration.base),
    };
    if let Some(base) = base {
        check_base(rt, base)?;
    }
    let draft = draft_of(given, configured);
    let file = given.get_str("file").unwrap_or("");
    let selection = selection_of(rt.alloc(), given, configured)?;
    let mut maps = list_of(rt.alloc(), given, "map")?;
    push_texts(&mut maps, configured.maps.as_slice())?;
    Ok(Reading {
        selection,
        file,
        base,
        draft,
        maps,
    })
}

// Stops where a text is no URI that files may be under, and says so on standard error.
fn check_base(rt: &HostRuntime, base: &str) -> Result<(), Stop> {
    if is_base(base) {
        return Ok(());
    }
    let _ = eprintln!(rt;
        "patchsard: --base {}: not an absolute URI without query and fragment",
        Plain(base)
    );
    Err(Stop::Reported)
}

/// A copy of the URI that files are under, by the command line, or else by the configuration. What is wrong with it is said on standard error.
pub fn base_of(
    rt: &HostRuntime,
    given: &ArgMatches<'_>,
    configured: &Configured,
) -> Result<Option<String>, Stop> {
    let base = match given.get_str("base") {
        Some(base) => String::from_str(rt.alloc(), base)?,
        None => match &configured.configuration.base {
            Some(base) => base.clone()?,
            None => return Ok(None),
        },
    };
    check_base(rt, base.as_str())?;
    Ok(Some(base))
}

fn text_of(text: &Option<String>) -> Option<&str> {
    match text {
        Some(text) => Some(text.as_str()),
        None => None,
    }
}

/// The draft of files that name none, by the command line, or else by the configuration.
pub fn draft_of(given: &ArgMatches<'_>, configured: &Configured) -> Draft {
    let name = match given.get_str("draft") {
        Some(name) => Some(name),
        None => text_of(&configured.configuration.draft),
    };
    match name.and_then(Draft::from_name) {
        Some(draft) => draft,
        None => Draft::Draft202012,
    }
}

fn push_texts<'a>(list: &mut Vec<&'a str>, texts: &'a [String]) -> Result<(), AllocError> {
    for text in texts {
        list.push(text.as_str())?;
    }
    Ok(())
}

// What is left out: what the command line says, from the working folder on, and what the configuration says, from its folder on.
fn exclusions_of<'a>(
    alloc: Global,
    given: &ArgMatches<'a>,
    configured: &'a Configured,
) -> Result<Vec<Exclusion<'a>>, AllocError> {
    let mut list = Vec::new(alloc);
    for text in &list_of(alloc, given, "exclude")? {
        list.push(Exclusion {
            folder: "",
            text: *text,
            is_path: false,
            is_told: true,
        })?;
    }
    for text in &configured.configuration.exclude {
        list.push(Exclusion {
            folder: configured.folder.as_str(),
            text: text.as_str(),
            is_path: false,
            is_told: false,
        })?;
    }
    Ok(list)
}

fn selection_of<'a>(
    alloc: Global,
    given: &ArgMatches<'a>,
    configured: &'a Configured,
) -> Result<Selection<'a>, AllocError> {
    let mut paths = list_of(alloc, given, "paths")?;
    if paths.is_empty() {
        push_texts(&mut paths, configured.paths.as_slice())?;
    }
    let mut with = list_of(alloc, given, "with")?;
    push_texts(&mut with, configured.with.as_slice())?;
    let excluded = exclusions_of(alloc, given, configured)?;
    let input = given.get_str("stdin-path").unwrap_or("-");
    Ok(Selection {
        paths,
        with,
        excluded,
        has_ignore: configured.configuration.has_gitignore && !given.get_flag("no-ignore"),
        input,
        has_yaml: configured.configuration.has_yaml || given.get_flag("yaml"),
    })
}

/// The values of a word that may be given more than once.
pub fn list_of<'a>(
    alloc: Global,
    given: &ArgMatches<'a>,
    word: &str,
) -> Result<Vec<&'a str>, AllocError> {
    let mut list = Vec::new(alloc);
    if let Some(values) = given.get_strs(word) {
        for value in values {
            list.push(*value)?;
        }
    }
    Ok(list)
}

/// Says which paths left out nothing.
pub fn say_unused(rt: &HostRuntime, paths: &[String]) {
    for path in paths {
        let _ = eprintln!(rt;
            "patchsard: --exclude {}: leaves out nothing; it is the path of a file or a folder from here, or a pattern of such paths, as **/test/*.json",
            Plain(path.as_str())
        );
    }
}

/// The folders from which documents are read under URIs that begin so.
pub fn maps<'r>(rt: &'r HostRuntime, texts: &[&str]) -> Result<Maps<'r>, Stop> {
    let mut maps = Maps::new(rt);
    for text in texts {
        match Map::parse(rt, *text)? {
            Some(map) => maps.push(map)?,
            None => {
                let _ = eprintln!(rt;
                    "patchsard: --map {}: not of the form PREFIX=FOLDER with an absolute URI without query and fragment and a folder that is there",
                    Plain(*text)
                );
                return Err(Stop::Reported);
            }
        }
    }
    Ok(maps)
}
