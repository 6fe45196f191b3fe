//! Which files are left out: by paths and patterns, and by what Git leaves out.
ghost use Rattle.std.specs.Prelude.{◌≡◌, ◌∷◌, ◌++◌, [], map, string_bytes, IfOk, OnOk};
ghost use Rattle.ref_files.specs.Excluded.{is_excluded, leaves_out, unused, used};
ghost use Rattle.ref_files.specs.Plain.{path_from};

use crate::failure::Failures;
use crate::prefix::push_name;
use ref_patterns::{Ignore, IgnoreList, Pattern, is_pattern};
use std::alloc::{AllocError, Global};
use std::collections::BTreeMap;
use std::{fs, io};

/// A path or a pattern by which files are left out.
#[derive(Clone, Copy, Drop)]
pub struct Exclusion<'a> {
    /// The folder that it is from, or nothing for the working folder.
    pub folder: &'a str,
    /// The path, or the pattern, as it was given.
    pub text: &'a str,
    /// Whether it is a path, whatever it has.
    pub is_path: bool,
    /// Whether it is to be said where it leaves out nothing.
    pub is_told: bool,
}

// What is left out.
#[derive(Drop)]
struct Excluded {
    // As it was given.
    given: String,
    is_told: bool,
    what: What,
    // Whether something was left out by it.
    is_used: bool,
}

#[derive(Drop)]
enum What {
    // A path that isn't there.
    Nothing,
    // The file at an absolute path without links, or what is below the folder there.
    Path(String),
    // What a pattern matches below a folder, whose path ends with a slash.
    Matched(String, Pattern),
}

/// Paths and patterns: those of files that are left out, or that something else is said of.
#[derive(Drop)]
pub struct Exclusions {
    alloc: Global,
    list: Vec<Excluded>,
}

impl Exclusions {
    /// None: they have no file.
    pub fn new(alloc: Global) -> Exclusions
        ensures value { result.list.items ≡ [] }
    {
        Exclusions {
            alloc,
            list: Vec::new(alloc),
        }
    }

    /// Leaves out the file at a path, or the files below a folder, or what a pattern matches. A path that isn't there leaves out nothing, and a text that
    /// is no pattern is a failure.
    pub fn add(
        &mut self,
        rt: &HostRuntime,
        failures: &mut Failures,
        exclusion: Exclusion<'_>,
    ) -> Result<(), AllocError> {
        let what = if is_pattern(exclusion.text) && !exclusion.is_path {
            self.matched(rt, failures, exclusion)?
        } else {
            path_meant(rt, exclusion)?
        };
        let given = String::from_str(self.alloc, exclusion.text)?;
        self.list.push(Excluded {
            given,
            is_told: exclusion.is_told,
            what,
            is_used: false,
        })?;
        Ok(())
    }

    fn matched(
        &self,
        rt: &HostRuntime,
        failures: &mut Failures,
        exclusion: Exclusion<'_>,
    ) -> Result<What, AllocError> {
        let text = exclusion.text.strip_prefix("./").unwrap_or(exclusion.text);
        let Some(pattern) = Pattern::parse(self.alloc, text)? else {
            let why =
                "not a pattern: a brace is not closed, is within another, or there are too many choices";
            failures.fail(exclusion.text, why)?;
            return Ok(What::Nothing);
        };
        match real_folder(rt, exclusion.folder)? {
            Some(folder) => Ok(What::Matched(folder, pattern)),
            None => Ok(What::Nothing),
        }
    }

    /// Whether the file or the folder at an absolute path is left out.
    pub fn has(&mut self, path: &str) -> Result<bool, AllocError>
        ensures value { IfOk result (λ is. is ≡ is_excluded path.now self.old.list.items) }
        ensures used { OnOk result (self.new.list.items ≡ used path.now self.old.list.items) }
    {
        let mut is_excluded = false;
        for number in 0..self.list.len() {
            let is_left_out = self.list[number].has(self.alloc, path)?;
            self.list[number].is_used = self.list[number].is_used || is_left_out;
            is_excluded = is_excluded || is_left_out;
        }
        Ok(is_excluded)
    }

    /// Those by which nothing was left out, and that are to be told.
    #[tactic(auto, using(crate::proofs::Left::unused_more))]
    pub fn unused(self) -> Result<Vec<String>, AllocError>
        ensures value { IfOk result (λ list. map string_bytes list.items ≡ unused self.list.items) }
    {
        let mut unused = Vec::new(self.alloc);
        for excluded in self.list {
            excluded.push_unused(&mut unused)?;
        }
        Ok(unused)
    }
}

impl Excluded {
    // Adds what was given, where it left out nothing and is to be told.
    fn push_unused(self, list: &mut Vec<String>) -> Result<(), AllocError>
        ensures value { OnOk result (map string_bytes list.new.items
            ≡ map string_bytes list.old.items ++ unused (self ∷ [])) }
    {
        if !self.is_used && self.is_told {
            list.push(self.given)?;
        }
        Ok(())
    }

    // Whether it has the file or the folder at a path.
    fn has(&self, alloc: Global, path: &str) -> Result<bool, AllocError>
        ensures value { IfOk result (λ is. is ≡ leaves_out path.now self.now.what) }
    {
        match &self.what {
            What::Nothing => Ok(false),
            What::Path(own) => Ok(match path.strip_prefix(own.as_str()) {
                Some(rest) => rest.is_empty() || rest.starts_with('/'),
                None => false,
            }),
            What::Matched(folder, pattern) => match path.strip_prefix(folder.as_str()) {
                Some(below) => pattern.matches(alloc, below),
                None => Ok(false),
            },
        }
    }
}

// The path that is meant, without links, where it is there.
fn path_meant(rt: &HostRuntime, exclusion: Exclusion<'_>) -> Result<What, AllocError> {
    let path = path_from(rt.alloc(), exclusion.folder, exclusion.text)?;
    match fs::canonicalize(rt, path.as_str()) {
        Ok(real) => Ok(What::Path(real.into_string())),
        Err(error) if error.kind() == io::ErrorKind::OutOfMemory => Err(AllocError),
        Err(_) => Ok(What::Nothing),
    }
}

// The absolute path of a folder with a slash at its end, where it is there.
fn real_folder(rt: &HostRuntime, folder: &str) -> Result<Option<String>, AllocError> {
    let folder = if folder.is_empty() { "." } else { folder };
    match fs::canonicalize(rt, folder) {
        Ok(real) => Ok(Some(with_slash(real.into_string())?)),
        Err(error) if error.kind() == io::ErrorKind::OutOfMemory => Err(AllocError),
        Err(_) => Ok(None),
    }
}

fn with_slash(path: String) -> Result<String, AllocError> {
    let mut path = path;
    if !path.ends_with('/') {
        path.push('/')?;
    }
    Ok(path)
}

/// The path of what is at a path from a folder, which is empty for the working folder.
pub fn path_from(alloc: Global, folder: &str, path: &str) -> Result<String, AllocError>
    ensures value { IfOk result (λ found. string_bytes found ≡ path_from folder.now path.now) }
{
    if folder.is_empty() || path.starts_with('/') {
        return String::from_str(alloc, path);
    }
    let mut found = String::from_str(alloc, folder)?;
    push_name(&mut found, path)?;
    Ok(found)
}

/// What Git leaves out of the folders that are looked through: by the files `.gitignore` in them and around them, in a repository.
#[derive(Drop)]
pub(crate) struct Ignored {
    alloc: Global,
    // Whether it is asked for.
    is_on: bool,
    // Whether the folder that is looked through is in a repository.
    is_within: bool,
    // The folders whose files were read.
    read: BTreeMap<String, ()>,
    list: IgnoreList,
    count: usize,
}

impl Ignored {
    pub(crate) fn new(alloc: Global, is_on: bool) -> Ignored {
        Ignored {
            alloc,
            is_on,
            is_within: false,
            read: BTreeMap::new(alloc),
            list: IgnoreList::new(alloc),
            count: 0,
        }
    }

    /// How many files and folders were left out.
    pub(crate) fn count(&self) -> usize {
        self.count
    }

    /// Begins with the folder at an absolute path: reads the files of the folders around it, up to that of the repository.
    pub(crate) fn begin(&mut self, rt: &HostRuntime, folder: &str) -> Result<(), AllocError> {
        self.is_within = false;
        if !self.is_on {
            return Ok(());
        }
        let Some(root) = root_of_repository(rt, folder)? else {
            return Ok(());
        };
        self.is_within = true;
        for (end, byte) in folder.bytes().enumerate() {
            if byte == b'/' && end >= root {
                self.enter(rt, folder.get(..end).unwrap_or(""))?;
            }
        }
        Ok(())
    }

    /// Leaves nothing out from now on.
    pub(crate) fn end(&mut self) {
        self.is_within = false;
    }

    /// Reads the file of a folder, where it has one.
    pub(crate) fn enter(&mut self, rt: &HostRuntime, folder: &str) -> Result<(), AllocError> {
        if !self.is_within {
            return Ok(());
        }
        let key = String::from_str(self.alloc, folder)?;
        if self.read.insert(key, ())?.is_some() {
            return Ok(());
        }
        let path = [folder, "/.gitignore"].join(self.alloc, "")?;
        match fs::read_to_string(rt, path.as_str()) {
            Ok(text) => {
                let ignore = Ignore::parse(self.alloc, folder, text.as_str())?;
                self.list.push(ignore)
            }
            Err(error) if error.kind() == io::ErrorKind::OutOfMemory => Err(AllocError),
            Err(_) => Ok(()),
        }
    }

    /// Whether the file or the folder at an absolute path is left out.
    pub(crate) fn has(&mut self, path: &str, is_folder: bool) -> Result<bool, AllocError> {
        if !self.is_within || !self.list.is_ignored(path, is_folder)? {
            return Ok(false);
        }
        self.count = self.count.saturating_add(1);
        Ok(true)
    }
}

// How many bytes the path of the innermost folder has, at or above one, that is a repository's.
fn root_of_repository(rt: &HostRuntime, folder: &str) -> Result<Option<usize>, AllocError> {
    let mut rest = folder;
    for _ in 0..=folder.len() {
        let path = [rest, "/.git"].join(rt.alloc(), "")?;
        match fs::symlink_metadata(rt, path.as_str()) {
            Ok(_) => return Ok(Some(rest.len())),
            Err(error) if error.kind() == io::ErrorKind::OutOfMemory => return Err(AllocError),
            Err(_) => {}
        }
        match rest.rsplit_once('/') {
            Some((above, _)) => rest = above,
            None => break,
        }
    }
    Ok(None)
}
