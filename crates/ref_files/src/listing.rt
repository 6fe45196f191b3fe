//! The files that paths name, and those below folders.
use crate::excluded::{Exclusion, Exclusions, Ignored};
use crate::failure::Failures;
use crate::path::last_name;
use ref_positions::Format;
use simdutf8::compat::from_utf8;
use std::alloc::{AllocError, Global};
use std::collections::BTreeMap;
use std::fs::{DirEntry, Files};
use std::io::Read;
use std::{fmt, fs, io};

/// Which files are to be read.
#[derive(Drop)]
pub struct Selection<'a> {
    /// The files that are asked about, and the folders whose files are.
    pub paths: Vec<&'a str>,
    /// Those that references may lead into.
    pub with: Vec<&'a str>,
    /// Those that are left out.
    pub excluded: Vec<Exclusion<'a>>,
    /// Whether what Git leaves out is left out of the folders that are asked about.
    pub has_ignore: bool,
    /// The path that standard input counts as.
    pub input: &'a str,
    /// Whether each file of YAML below a folder is read.
    pub has_yaml: bool,
}

/// The files that were found, and what is to be said of those that were not.
#[derive(Drop)]
pub struct Listed {
    /// The files: those that are asked about, and then those that are only read, in byte order of their paths as they are shown.
    pub files: Vec<File>,
    /// What could not be read.
    pub failures: Failures,
    /// The paths and patterns by which nothing was left out, as they were given.
    pub unused: Vec<String>,
    /// How many files and folders were left out since Git leaves them out.
    pub ignored: usize,
}

/// A file that is to be read.
#[derive(Drop)]
pub struct File {
    /// Its path as it is shown, which begins with what was given.
    pub shown: String,
    /// Its absolute path, without links.
    pub path: String,
    /// Its path below the folder that was given, or its name.
    pub below: String,
    /// Whether it is read from standard input.
    pub is_input: bool,
    /// Whether it is asked about, and not only read.
    pub is_own: bool,
    /// Whether it is read only where its root says what it is, or something refers to it: a file of YAML below a folder.
    pub is_optional: bool,
}

// A folder whose files are to be listed.
#[derive(Drop)]
struct Folder {
    shown: String,
    path: String,
    below: String,
}

// The files that are to be read.
#[derive(Drop)]
struct Listing<'r> {
    rt: &'r HostRuntime,
    // By their absolute paths, so that each is listed once.
    files: BTreeMap<String, File>,
    folders: Vec<Folder>,
    excluded: Exclusions,
    ignored: Ignored,
    // The path that standard input counts as.
    input: String,
    // Whether what is added is asked about, and not only read.
    is_own: bool,
    // Whether each file of YAML below a folder is read.
    has_yaml: bool,
    failures: Failures,
}

impl<'r> Listing<'r> {
    // No files.
    fn new(rt: &'r HostRuntime, selection: &Selection<'_>) -> Result<Listing<'r>, AllocError> {
        let input = String::from_str(rt.alloc(), selection.input)?;
        Ok(Listing {
            rt,
            files: BTreeMap::new(rt.alloc()),
            folders: Vec::new(rt.alloc()),
            excluded: Exclusions::new(rt.alloc()),
            ignored: Ignored::new(rt.alloc(), selection.has_ignore),
            input,
            is_own: true,
            has_yaml: selection.has_yaml,
            failures: Failures::new(rt.alloc()),
        })
    }

    // Leaves out what paths and patterns say.
    fn exclude_all(&mut self, list: &[Exclusion<'_>]) -> Result<(), AllocError> {
        for exclusion in list {
            self.excluded.add(self.rt, &mut self.failures, *exclusion)?;
        }
        Ok(())
    }

    // Adds the file at a path, or the files below a folder, or standard input.
    fn add(&mut self, path: &str) -> Result<(), AllocError> {
        if is_input(path) {
            return self.add_input();
        }
        let data = match fs::metadata(self.rt, path) {
            Ok(data) => data,
            Err(error) => {
                return self.failures.fail(path, error);
            }
        };
        if !data.is_dir() && !data.is_file() {
            let why = "not a regular file; a pipe is read as standard input, by -";
            return self.failures.fail(path, why);
        }
        let real = match fs::canonicalize(self.rt, path) {
            Ok(real) => real.into_string(),
            Err(error) => {
                return self.failures.fail(path, error);
            }
        };
        if data.is_dir() {
            return self.add_folder(path, real);
        }
        let below = String::from_str(self.rt.alloc(), last_name(real.as_str()))?;
        self.add_file(path, real, below, false)
    }

    // Adds standard input, in place of the file whose path it counts as.
    fn add_input(&mut self) -> Result<(), AllocError> {
        let path = match self.input_path() {
            Ok(path) => path,
            Err(error) if error.kind() == io::ErrorKind::OutOfMemory => return Err(AllocError),
            Err(error) => {
                let input = self.input.clone()?;
                return self.failures.fail(input.as_str(), error);
            }
        };
        let alloc = self.rt.alloc();
        let below = String::from_str(alloc, last_name(path.as_str()))?;
        let shown = self.input.clone()?;
        self.put(File {
            shown,
            path,
            below,
            is_input: true,
            is_own: self.is_own,
            is_optional: false,
        })
    }

    // The absolute path that standard input counts as: neither its file nor its folders need be there.
    fn input_path(&self) -> io::Result<String> {
        let input = self.input.as_str();
        for passed in 0..input.len() {
            let end = input.len().saturating_sub(passed);
            let (front, rest) = (input.get(..end), input.get(end..).unwrap_or(""));
            if passed > 0 && !rest.starts_with('/') {
                continue;
            }
            match fs::canonicalize(self.rt, front.unwrap_or("")) {
                Ok(real) => return self.input_below(real.into_string(), rest),
                Err(error) if error.kind() == io::ErrorKind::OutOfMemory => return Err(error),
                Err(_) => {}
            }
        }
        let folder = if input.starts_with('/') { "/" } else { "." };
        let real = fs::canonicalize(self.rt, folder)?;
        self.input_below(real.into_string(), input)
    }

    // The path of what is below a folder that is there.
    fn input_below(&self, folder: String, rest: &str) -> io::Result<String> {
        let rest = rest.trim_start_matches('/');
        if rest.is_empty() {
            return Ok(folder);
        }
        Ok(joined(self.rt.alloc(), folder.as_str(), rest)?)
    }

    // Adds the file at a path.
    fn add_one(&mut self, path: &str) -> Result<(), AllocError> {
        match fs::metadata(self.rt, path) {
            Ok(data) if data.is_dir() && !is_input(path) => {
                let why = "a folder, where one file is asked for";
                self.failures.fail(path, why)
            }
            _ => self.add(path),
        }
    }

    // What was found.
    fn finish(self) -> Result<Listed, AllocError> {
        let alloc = self.rt.alloc();
        let ignored = self.ignored.count();
        let unused = self.excluded.unused()?;
        let files = files_of(alloc, self.files)?;
        Ok(Listed {
            files,
            failures: self.failures,
            unused,
            ignored,
        })
    }

    fn add_file(
        &mut self,
        shown: &str,
        path: String,
        below: String,
        is_optional: bool,
    ) -> Result<(), AllocError> {
        if self.excluded.has(path.as_str())? {
            return Ok(());
        }
        let shown = String::from_str(self.rt.alloc(), shown)?;
        self.put(File {
            shown,
            path,
            below,
            is_input: false,
            is_own: self.is_own,
            is_optional,
        })
    }

    // Adds a file. One that is there already has its path below the other folder, its text is that of
    // standard input where that counts as it, and it is read where one of both is.
    fn put(&mut self, found: File) -> Result<(), AllocError> {
        if let Some(file) = self.files.get_mut(found.path.as_str()) {
            file.is_input |= found.is_input;
            file.is_optional &= found.is_optional;
            if file.is_own && !found.is_own {
                file.below = found.below;
            }
            return Ok(());
        }
        let key = found.path.clone()?;
        self.files.insert(key, found)?;
        Ok(())
    }

    // Adds the files below a folder.
    fn add_folder(&mut self, shown: &str, path: String) -> Result<(), AllocError> {
        let alloc = self.rt.alloc();
        let shown = String::from_str(alloc, without_slash(shown))?;
        if self.is_own {
            self.ignored.begin(self.rt, path.as_str())?;
        }
        self.push_folder(shown, path, String::new(alloc))?;
        for _ in 0..u64::MAX {
            let Some(folder) = self.folders.pop() else {
                break;
            };
            self.list(&folder)?;
        }
        self.ignored.end();
        Ok(())
    }

    fn push_folder(
        &mut self,
        shown: String,
        path: String,
        below: String,
    ) -> Result<(), AllocError> {
        if self.excluded.has(path.as_str())? {
            return Ok(());
        }
        self.folders.push(Folder { shown, path, below })?;
        Ok(())
    }

    fn list(&mut self, folder: &Folder) -> Result<(), AllocError> {
        let mut has_other_names = false;
        self.ignored.enter(self.rt, folder.path.as_str())?;
        match fs::read_dir(self.rt, folder.path.as_str()) {
            Ok(entries) => {
                for entry in entries {
                    match entry {
                        Ok(entry) => self.take(folder, &entry)?,
                        Err(error) if error.kind() == io::ErrorKind::OutOfMemory => {
                            return Err(AllocError);
                        }
                        Err(error) if error.kind() == io::ErrorKind::InvalidFilename => {
                            has_other_names = true;
                        }
                        Err(error) => self.failures.fail(folder.shown.as_str(), error)?,
                    }
                }
            }
            Err(error) => self.failures.fail(folder.shown.as_str(), error)?,
        }
        if has_other_names {
            self.fail_other_names(folder)?;
        }
        Ok(())
    }

    // Adds the names in a folder that are no UTF-8.
    fn fail_other_names(&mut self, folder: &Folder) -> Result<(), AllocError> {
        let shown = folder.shown.as_str();
        let Ok(mut names) = self.rt.open_dir(folder.path.as_str()) else {
            return self.failures.fail(shown, "has a name that is not UTF-8");
        };
        self.failures.has_failed = true;
        let mut buffer = [0u8; 4096];
        for _ in 0..u64::MAX {
            match names.read(&mut buffer) {
                Ok(0) | Err(_) => break,
                Ok(count) => {
                    let names = buffer.get(..count).unwrap_or(&[]);
                    fail_names(self.rt.alloc(), &mut self.failures, shown, names)?;
                }
            }
        }
        Ok(())
    }

    // Takes what is in a folder.
    fn take(
        &mut self,
        folder: &Folder,
        entry: &DirEntry<HostRuntime, Global>,
    ) -> Result<(), AllocError> {
        let alloc = self.rt.alloc();
        let name = entry.file_name();
        let shown = joined(alloc, folder.shown.as_str(), name)?;
        let kind = match entry.file_type() {
            Ok(kind) => kind,
            Err(error) => return self.failures.fail(shown.as_str(), error),
        };
        if kind.is_dir() {
            if name.starts_with('.') {
                return Ok(());
            }
            let (path, below) = place_in(alloc, folder, name)?;
            if self.ignored.has(path.as_str(), true)? {
                return Ok(());
            }
            return self.push_folder(shown, path, below);
        }
        let is_optional = match Format::of_path(name) {
            Format::Yaml => !self.has_yaml,
            Format::Json if name.ends_with(".json") => false,
            Format::Json => return Ok(()),
        };
        if kind.is_file() {
            let (path, below) = place_in(alloc, folder, name)?;
            if self.ignored.has(path.as_str(), false)? {
                return Ok(());
            }
            return self.add_file(shown.as_str(), path, below, is_optional);
        }
        if is_optional {
            return Ok(());
        }
        if kind.is_symlink() {
            let why = "a link, which is not followed; name it to read it";
            self.failures.note(shown.as_str(), why)
        } else {
            self.failures.fail(shown.as_str(), "not a regular file")
        }
    }

    // Adds the files at paths, and those below folders.
    fn add_all(&mut self, paths: &[&str]) -> Result<(), AllocError> {
        for path in paths {
            self.add(*path)?;
        }
        Ok(())
    }
}

/// The files that are asked about, and after them those that are only read. A path that could not be read is among the failures, and
/// one that leaves out nothing among those that are unused. Fails only if out of memory.
pub fn list_files(rt: &HostRuntime, selection: &Selection<'_>) -> Result<Listed, AllocError> {
    let mut listing = Listing::new(rt, selection)?;
    listing.exclude_all(selection.excluded.as_slice())?;
    listing.add_all(selection.paths.as_slice())?;
    listing.is_own = false;
    listing.add_all(selection.with.as_slice())?;
    listing.finish()
}

/// The one file that is asked about, and after it those that are only read, without one that is to be written. Where it is among these,
/// it has its path below their folder. Fails only if out of memory.
pub fn list_one(
    rt: &HostRuntime,
    file: &str,
    selection: &Selection<'_>,
    output: Option<&str>,
) -> Result<Listed, AllocError> {
    let mut listing = Listing::new(rt, selection)?;
    listing.add_one(file)?;
    listing.is_own = false;
    if let Some(path) = output {
        listing.exclude_all(&[Exclusion {
            folder: "",
            text: path,
            is_path: true,
            is_told: false,
        }])?;
    }
    listing.add_all(selection.with.as_slice())?;
    listing.finish()
}

// Whether a path means standard input.
fn is_input(path: &str) -> bool {
    matches!(path, "-" | "/dev/stdin" | "/dev/fd/0" | "/proc/self/fd/0")
}

// Adds those of these names, each ended by a NUL, that are no UTF-8.
fn fail_names(
    alloc: Global,
    failures: &mut Failures,
    folder: &str,
    names: &[u8],
) -> Result<(), AllocError> {
    for name in names.split(|byte| *byte == 0) {
        if from_utf8(name).is_err() {
            let path = format!(in alloc; "{folder}/{}", Escaped(name))?;
            failures.fail(path.as_str(), "a name that is not UTF-8")?;
        }
    }
    Ok(())
}

// The name of a file that is no UTF-8: what isn't a letter, a digit or another mark of ASCII as `\xff`.
#[derive(Clone, Copy, Drop)]
struct Escaped<'t>(&'t [u8]);

impl fmt::Display for Escaped<'_> {
    fn fmt<W: fmt::Write>(&self, f: &mut fmt::Formatter<W>) -> fmt::Result {
        for byte in self.0 {
            if *byte >= b' ' && *byte < 0x7f {
                f.write_char(*byte as char)?;
            } else {
                write!(f, "\\x{:02x}", *byte)?;
            }
        }
        Ok(())
    }
}

// The files in byte order of their paths as they are shown, those that are asked about first.
fn files_of(alloc: Global, found: BTreeMap<String, File>) -> Result<Vec<File>, AllocError> {
    let mut files = Vec::new(alloc);
    for (_, file) in found {
        files.push(file)?;
    }
    files.sort_unstable_by(|file, other| {
        (!file.is_own, file.shown.as_str()).cmp(&(!other.is_own, other.shown.as_str()))
    });
    Ok(files)
}

fn without_slash(path: &str) -> &str {
    let short = path.trim_end_matches('/');
    if short.is_empty() { path } else { short }
}

// The path of a name in a folder, and its path below the folder that was given.
fn place_in(alloc: Global, folder: &Folder, name: &str) -> Result<(String, String), AllocError> {
    let path = joined(alloc, folder.path.as_str(), name)?;
    let below = joined(alloc, folder.below.as_str(), name)?;
    Ok((path, below))
}

// The path of a name in a folder; what is in `.` is shown by its name.
fn joined(alloc: Global, folder: &str, name: &str) -> Result<String, AllocError> {
    if folder.is_empty() || folder == "." {
        return String::from_str(alloc, name);
    }
    let mut path = String::from_str(alloc, folder)?;
    if !folder.ends_with('/') {
        path.push('/')?;
    }
    path.push_str(name)?;
    Ok(path)
}
