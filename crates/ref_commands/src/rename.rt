//! `patchsard rename`.
use crate::editing::{Editing, Made, real_path, surveyed, texts_of};
use crate::left_out::say_broken;
use crate::opened::{Opened, open_around, reported};
use crate::resolve::is_pointer;
use clap::ArgMatches;
use ref_command_line::{Configured, Console, Stop, say, say_of};
use ref_edits::{Plan, Site, Unmade, renamed_anchor, renamed_identifier, renamed_key};
use ref_messages::Plain;
use ref_workspace::World;
use ref_workspace::world::world_of;

/// Gives a definition, a component, an anchor or an identifier another name, with all references that lead there. The status is 0 where it is done, or would be, 1 where it is
/// refused, 2 where a path can't be read or written, and 3 where the text that was made isn't that of the change.
pub fn rename<'a>(
    rt: &HostRuntime,
    console: &mut Console<'_>,
    given: &ArgMatches<'a>,
    configured: &'a Configured,
) -> Result<u8, Stop> {
    let pointer = given.get_str("pointer").unwrap_or("");
    if !is_pointer(pointer) {
        let _ = eprintln!(rt;
            "patchsard: {}: not a JSON pointer: it is empty, or begins with /, and ~ in a key is ~0 and / is ~1",
            Plain(pointer)
        );
        return Err(Stop::Reported);
    }
    if given.get_flag("anchor") && given.get_flag("id") {
        say(rt, "--anchor and --id can't be used together");
        return Err(Stop::Reported);
    }
    let file = given.get_str("file").unwrap_or("");
    let path = real_path(rt, file)?;
    let opened = open_around(rt, given, configured, file)?;
    let status = if opened.has_failed {
        Ok(2)
    } else {
        rename_in(rt, console, given, &opened, path.as_str())
    };
    drop(opened);
    status
}

// Renames in what was read.
fn rename_in(
    rt: &HostRuntime,
    console: &mut Console<'_>,
    given: &ArgMatches<'_>,
    opened: &Opened<'_>,
    path: &str,
) -> Result<u8, Stop> {
    let _ = say_broken(rt, opened.workspace.documents());
    opened.begin_judging()?;
    let trees = opened.workspace.mended(rt.alloc());
    opened.watch.clear();
    let trees = trees?;
    let world = world_of(rt.alloc(), &opened.workspace, trees.as_slice());
    let world = reported(rt, world)?;
    rename_world(rt, console, given, opened, &world, path)
}

fn rename_world(
    rt: &HostRuntime,
    console: &mut Console<'_>,
    given: &ArgMatches<'_>,
    opened: &Opened<'_>,
    world: &World<'_>,
    path: &str,
) -> Result<u8, Stop> {
    let texts = texts_of(rt.alloc(), opened, world, false)?;
    let survey = surveyed(rt.alloc(), world)?;
    let editing = Editing {
        rt,
        opened,
        world,
        survey: &survey,
        texts: texts.as_slice(),
    };
    let Some(number) = editing.number_at(path) else {
        let name = given.get_str("file").unwrap_or("");
        say_of(rt, name, "not among the files that are read");
        return Ok(1);
    };
    let plan = planned(&editing, given, number);
    match editing.made(editing.name(number), plan)? {
        Ok(made) => finish(&editing, console, given, made),
        Err(status) => Ok(status),
    }
}

// What is to change.
fn planned(
    editing: &Editing<'_, '_, '_, '_, '_, '_, '_>,
    given: &ArgMatches<'_>,
    document: usize,
) -> Result<Plan, Unmade> {
    let alloc = editing.rt.alloc();
    let site = Site {
        document,
        pointer: given.get_str("pointer").unwrap_or(""),
    };
    let name = given.get_str("name").unwrap_or("");
    if given.get_flag("anchor") {
        renamed_anchor(alloc, &editing.given(), site, name)
    } else if given.get_flag("id") {
        renamed_identifier(alloc, &editing.given(), site, name)
    } else {
        renamed_key(alloc, &editing.given(), site, name)
    }
}

// Prints what would change, or writes it.
fn finish(
    editing: &Editing<'_, '_, '_, '_, '_, '_, '_>,
    console: &mut Console<'_>,
    given: &ArgMatches<'_>,
    made: Made,
) -> Result<u8, Stop> {
    let Made { edits, .. } = made;
    if given.get_flag("dry-run") {
        editing.print(console, edits.as_slice())?;
        return Ok(0);
    }
    let counts = editing.counts(edits.as_slice())?;
    let Some(files) = editing.new_texts(edits)? else {
        return Ok(2);
    };
    let is_written = editing.write(files.as_slice(), counts.as_slice())?;
    Ok(if is_written { 0 } else { 2 })
}
