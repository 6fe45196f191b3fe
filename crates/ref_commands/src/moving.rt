//! `patchsard move`.
use crate::editing::{Editing, Made, real_path, surveyed, texts_of};
use crate::left_out::say_broken;
use crate::opened::{Opened, open_around, reported};
use crate::together::{NewText, replace_all, restore_all};
use clap::ArgMatches;
use ref_command_line::options::base_of;
use ref_command_line::{Configured, Console, Stop, say, say_of};
use ref_edits::{moved_documents, moved_uri, rest_below};
use ref_files::{Format, below_prefix, file_uri, names_of, path_below, uri_below};
use ref_messages::Plain;
use ref_uri::uri::from_str;
use ref_uri::{Uri, UriFault};
use ref_workspace::World;
use ref_workspace::world::world_of;
use std::alloc::{AllocError, Global};
use std::{fs, io};

/// Moves a file or a folder, with all references to what is there and in it. The status is 0 where it is done, or would be, 1 where it is refused, 2 where a path can't be read or
/// written, and 3 where the text that was made isn't that of the change.
pub fn move_path<'a>(
    rt: &HostRuntime,
    console: &mut Console<'_>,
    given: &ArgMatches<'a>,
    configured: &'a Configured,
) -> Result<u8, Stop> {
    let source = given.get_str("source").unwrap_or("");
    let Some(paths) = paths_of(rt, source, given.get_str("target").unwrap_or(""))? else {
        return Ok(1);
    };
    let base = base_of(rt, given, configured)?;
    let opened = open_around(rt, given, configured, source)?;
    let status = if opened.has_failed {
        Ok(2)
    } else {
        move_between(rt, console, given, &opened, &paths, text_of(&base))
    };
    drop(opened);
    status
}

// Moves from one path to another, where files are under a URI.
fn move_between<'r, 'g, 'm>(
    rt: &'r HostRuntime,
    console: &mut Console<'_>,
    given: &'g ArgMatches<'_>,
    opened: &Opened<'_>,
    paths: &'m Paths,
    base: Option<&'m str>,
) -> Result<u8, Stop> {
    let moving = Moving {
        rt,
        paths,
        base,
        is_dry: given.get_flag("dry-run"),
        source: given.get_str("source").unwrap_or(""),
        target: given.get_str("target").unwrap_or(""),
    };
    moving.move_in(console, opened)
}

fn text_of(text: &Option<String>) -> Option<&str> {
    match text {
        Some(text) => Some(text.as_str()),
        None => None,
    }
}

// Two absolute paths without links: where something is, and where it is to be.
#[derive(Drop)]
struct Paths {
    from: String,
    to: String,
}

// Those of the paths that were given. Nothing where something is at the second already, or it is in the first, which is said.
fn paths_of(rt: &HostRuntime, source: &str, target: &str) -> Result<Option<Paths>, Stop> {
    let from = real_path(rt, source)?;
    if is_there(rt, target)? {
        say_of(rt, target, "nothing is moved: something is there already");
        return Ok(None);
    }
    let (folder, name) = folder_and_name(target);
    let folder = real_path(rt, folder)?;
    if name.is_empty() || name == "." || name == ".." {
        say_of(
            rt,
            target,
            "nothing is moved: not the path of a file or a folder",
        );
        return Ok(None);
    }
    let to = path_in(rt.alloc(), folder.as_str(), name)?;
    if rest_below(from.as_str(), to.as_str()).is_some() {
        say_of(rt, target, "nothing is moved: it is in what is to be moved");
        return Ok(None);
    }
    Ok(Some(Paths { from, to }))
}

// One text after another.
fn joined(alloc: Global, front: &str, rest: &str) -> Result<String, AllocError> {
    [front, rest].join(alloc, "")
}

// The path of a name in a folder.
fn path_in(alloc: Global, folder: &str, name: &str) -> Result<String, AllocError> {
    let folder = folder.trim_end_matches('/');
    format!(in alloc; "{folder}/{name}")
}

// Whether something is at a path.
fn is_there(rt: &HostRuntime, path: &str) -> Result<bool, Stop> {
    match fs::symlink_metadata(rt, path.trim_end_matches('/')) {
        Ok(_) => Ok(true),
        Err(error) if error.kind() == io::ErrorKind::OutOfMemory => Err(Stop::Memory),
        Err(_) => Ok(false),
    }
}

// The folder of a path, and the name in it.
fn folder_and_name(path: &str) -> (&str, &str) {
    match path.trim_end_matches('/').rsplit_once('/') {
        Some(("", name)) => ("/", name),
        Some((folder, name)) => (folder, name),
        None => (".", path.trim_end_matches('/')),
    }
}

// A file or a folder that is moved.
#[derive(Clone, Copy, Drop)]
struct Moving<'r, 'g, 'm> {
    rt: &'r HostRuntime,
    paths: &'m Paths,
    // The URI that files are under.
    base: Option<&'m str>,
    is_dry: bool,
    // The paths as they were given.
    source: &'g str,
    target: &'g str,
}

impl Moving<'_, '_, '_> {
    // Moves in what was read.
    fn move_in(&self, console: &mut Console<'_>, opened: &Opened<'_>) -> Result<u8, Stop> {
        let rt = self.rt;
        let _ = say_broken(rt, opened.workspace.documents());
        opened.begin_judging()?;
        let trees = opened.workspace.mended(rt.alloc());
        opened.watch.clear();
        let trees = trees?;
        let world = world_of(rt.alloc(), &opened.workspace, trees.as_slice());
        let world = reported(rt, world)?;
        self.move_world(console, opened, &world)
    }

    fn move_world(
        &self,
        console: &mut Console<'_>,
        opened: &Opened<'_>,
        world: &World<'_>,
    ) -> Result<u8, Stop> {
        let alloc = self.rt.alloc();
        let texts = texts_of(alloc, opened, world, false)?;
        let survey = surveyed(alloc, world)?;
        let editing = Editing {
            rt: self.rt,
            opened,
            world,
            survey: &survey,
            texts: texts.as_slice(),
        };
        let Some(uris) = self.uris(opened, world)? else {
            return Ok(1);
        };
        let plan = moved_documents(alloc, &editing.given(), uris);
        match editing.made(self.source, plan)? {
            Ok(made) => self.finish(&editing, console, made),
            Err(status) => Ok(status),
        }
    }

    // The URIs that the documents have after, by their numbers in the registry. Nothing where no document is moved or one can't be, which is said.
    fn uris(
        &self,
        opened: &Opened<'_>,
        world: &World<'_>,
    ) -> Result<Option<Vec<Option<Uri>>>, Stop> {
        let mut uris = Vec::new(self.rt.alloc());
        let mut is_any = false;
        for number in 0..world.registry.documents().len() {
            let uri = match world.sources.get(number) {
                Some(source) => self.uri_after(opened, *source)?,
                None => After::Uri(self.missing_after(world, number)?),
            };
            match uri {
                After::Uri(uri) => {
                    is_any |= uri.is_some() && number < world.sources.len();
                    push_uri(&mut uris, uri)?;
                }
                After::Refused(why) => {
                    say_of(self.rt, self.source, why);
                    return Ok(None);
                }
            }
        }
        if !is_any {
            say_of(
                self.rt,
                self.source,
                "nothing is moved: no document that is read is there",
            );
            return Ok(None);
        }
        Ok(Some(uris))
    }

    // The URI that what was read with a number has after, where it is moved.
    fn uri_after(&self, opened: &Opened<'_>, source: usize) -> Result<After, AllocError> {
        let Some(path) = opened.paths.get(source) else {
            return Ok(After::Uri(None));
        };
        let Some(rest) = rest_below(self.paths.from.as_str(), path.as_str()) else {
            return Ok(After::Uri(None));
        };
        let alloc = self.rt.alloc();
        let to = joined(alloc, self.paths.to.as_str(), rest)?;
        if Format::of_path(path.as_str()) != Format::of_path(to.as_str()) {
            return Ok(After::Refused(
                "nothing is moved: with its new name it would not be read as it is now, as JSON or as YAML",
            ));
        }
        let Some(text) = self.uri_text(opened, source, path.as_str(), to.as_str())? else {
            return Ok(After::Refused(
                "nothing is moved: it would not be below the folder that has the URI of --base",
            ));
        };
        Ok(After::Uri(parsed(alloc, text.as_str())?))
    }

    // The text of the URI of a file at a path, which is moved to another one.
    fn uri_text(
        &self,
        opened: &Opened<'_>,
        source: usize,
        path: &str,
        to: &str,
    ) -> Result<Option<String>, AllocError> {
        let alloc = self.rt.alloc();
        let Some(base) = self.base else {
            return Ok(Some(file_uri(alloc, to)?));
        };
        let Some(uri) = opened.workspace.uri(source) else {
            return Ok(None);
        };
        let Some(below) = below_base(alloc, base, uri.as_str())? else {
            return Ok(None);
        };
        let Some(root) = path.strip_suffix(below.as_str()) else {
            return Ok(None);
        };
        match to.strip_prefix(root) {
            Some(rest) if rest.starts_with('/') => {
                Ok(Some(uri_below(alloc, base, rest.trim_start_matches('/'))?))
            }
            _ => Ok(None),
        }
    }

    // The URI that a document which isn't there has after: one below a folder that is moved would be there then.
    fn missing_after(&self, world: &World<'_>, number: usize) -> Result<Option<Uri>, AllocError> {
        let alloc = self.rt.alloc();
        let (None, Some(document)) = (self.base, world.registry.documents().get(number)) else {
            return Ok(None);
        };
        let (from, to) = (self.paths.from.as_str(), self.paths.to.as_str());
        moved_uri(alloc, from, to, &document.uri)
    }

    // Prints what would change, or writes it and moves the path.
    fn finish(
        &self,
        editing: &Editing<'_, '_, '_, '_, '_, '_, '_>,
        console: &mut Console<'_>,
        made: Made,
    ) -> Result<u8, Stop> {
        let Made { edits, .. } = made;
        if self.is_dry {
            editing.print(console, edits.as_slice())?;
            self.say_moved("would be moved to");
            return Ok(0);
        }
        let counts = editing.counts(edits.as_slice())?;
        let Some(files) = editing.new_texts(edits)? else {
            return Ok(2);
        };
        if !self.write(files.as_slice())? {
            return Ok(2);
        }
        editing.say_counts(counts.as_slice());
        self.say_moved("is moved to");
        Ok(0)
    }

    fn say_moved(&self, what: &str) {
        let _ = eprintln!(self.rt; "{} {what} {}", Plain(self.source), Plain(self.target));
    }

    // Gives files their new texts, and moves the path. Returns whether it did: where it can't be moved, the files have their old texts.
    fn write(&self, files: &[NewText]) -> Result<bool, Stop> {
        if !replace_all(self.rt, files)? {
            return Ok(false);
        }
        match fs::rename(self.rt, self.paths.from.as_str(), self.paths.to.as_str()) {
            Ok(()) => Ok(true),
            Err(error) => {
                say_of(self.rt, self.target, error);
                restore_all(self.rt, files)?;
                say(self.rt, "nothing is moved");
                Ok(false)
            }
        }
    }
}

// What a document is under after: a URI, where it has another one; or why it can't be moved.
#[derive(Drop)]
enum After {
    Uri(Option<Uri>),
    Refused(&'static str),
}

fn push_uri(uris: &mut Vec<Option<Uri>>, uri: Option<Uri>) -> Result<(), AllocError> {
    uris.push(uri)?;
    Ok(())
}

// The path below a folder of the file that a URI below a base means, which begins with a slash.
fn below_base(alloc: Global, base: &str, uri: &str) -> Result<Option<String>, AllocError> {
    let Some(rest) = below_prefix(base, uri) else {
        return Ok(None);
    };
    match names_of(alloc, rest)? {
        Some(names) => Ok(Some(path_below(alloc, "", names.as_slice())?)),
        None => Ok(None),
    }
}

// A text as a URI.
fn parsed(alloc: Global, text: &str) -> Result<Option<Uri>, AllocError> {
    match from_str(alloc, text) {
        Ok(uri) => Ok(Some(uri)),
        Err(UriFault::Memory(error)) => Err(error),
        Err(UriFault::Invalid(error)) => {
            drop(error);
            Ok(None)
        }
    }
}
