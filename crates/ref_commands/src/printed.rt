//! What `patchsard lint --print-config` prints.
use crate::listed::Listing;
use clap::ArgMatches;
use ref_command_line::options::reading_of;
use ref_command_line::{Configured, Console, Reading, Stop};
use ref_messages::{Plain, push_quoted};
use std::alloc::{AllocError, Global};

/// Prints what a configuration and a command line ask for together, as a configuration whose paths are from the working folder on; but the file's own paths and
/// patterns under `exclude` and of overrides are from its folder on, which a comment says where it is another one. The status is 0.
pub fn print_configured<'a>(
    rt: &HostRuntime,
    console: &mut Console<'_>,
    given: &ArgMatches<'a>,
    configured: &'a Configured,
    listing: &Listing,
) -> Result<u8, Stop> {
    let reading = reading_of(rt, given, configured)?;
    let out = &mut console.out;
    match &configured.name {
        Some(name) => push_name(out, name.as_str(), configured.folder.as_str())?,
        None => out.push_str("# no patchsard.toml in this folder or above it\n")?,
    }
    push_reading(rt.alloc(), out, &reading)?;
    write!(out, "level = \"{}\"\n", listing.least.name())?;
    if let Some(most) = listing.most_warnings {
        write!(out, "max-warnings = {most}\n")?;
    }
    push_maps(rt.alloc(), out, reading.maps.as_slice())?;
    listing.levels.push(rt.alloc(), out)?;
    Ok(0)
}

// Adds the name of the file, and from which folder its patterns are, where that isn't the working folder.
fn push_name(out: &mut String, name: &str, folder: &str) -> Result<(), AllocError> {
    write!(out, "# {}\n", Plain(name))?;
    if folder.is_empty() {
        return Ok(());
    }
    write!(
        out,
        "# what it has under exclude and in overrides is from {} on\n",
        Plain(folder)
    )
}

fn push_reading(alloc: Global, out: &mut String, reading: &Reading<'_>) -> Result<(), AllocError> {
    let selection = &reading.selection;
    push_list(alloc, out, "paths", selection.paths.as_slice())?;
    push_list(alloc, out, "with", selection.with.as_slice())?;
    let mut excluded = Vec::new(alloc);
    for exclusion in &selection.excluded {
        excluded.push(exclusion.text)?;
    }
    push_list(alloc, out, "exclude", excluded.as_slice())?;
    write!(out, "gitignore = {}\n", selection.has_ignore)?;
    write!(out, "yaml = {}\n", selection.has_yaml)?;
    if let Some(base) = reading.base {
        out.push_str("base = ")?;
        push_quoted(alloc, out, base)?;
        out.push('\n')?;
    }
    write!(out, "draft = \"{}\"\n", reading.draft.name())
}

fn push_list(alloc: Global, out: &mut String, name: &str, list: &[&str]) -> Result<(), AllocError> {
    write!(out, "{name} = [")?;
    for number in 0..list.len() {
        out.push_str(if number == 0 { "" } else { ", " })?;
        push_quoted(alloc, out, list[number])?;
    }
    out.push_str("]\n")
}

fn push_maps(alloc: Global, out: &mut String, maps: &[&str]) -> Result<(), AllocError> {
    out.push_str("\n[map]\n")?;
    for map in maps {
        if let Some((prefix, folder)) = map.split_once('=') {
            push_quoted(alloc, out, prefix)?;
            out.push_str(" = ")?;
            push_quoted(alloc, out, folder)?;
            out.push('\n')?;
        }
    }
    out.push('\n')
}
