//! The documents that a command line names.
use crate::watch::Watch;
use clap::ArgMatches;
use ref_command_line::options::{maps, reading_of, say_unused};
use ref_command_line::{Configured, Progress, Reading, Stop, say, say_failures};
use ref_error::Error;
use ref_files::{
    BrokenFile, Buffer, Failure, File, Format, Listed, Maps, ReadFile, ReadFiles, ReadSoFar,
    list_files, list_one,
};
use ref_messages::Plain;
use ref_workspace::{Document, Report, Workspace};
use std::alloc::{AllocError, Global};

/// A workspace with what a command line asks to be read.
#[derive(Drop)]
pub struct Opened<'r> {
    /// The documents.
    pub workspace: Workspace,
    /// The absolute paths of the files of those that have a name of their own, by their numbers.
    pub paths: Vec<String>,
    /// The folders from which documents are read.
    pub maps: Maps<'r>,
    /// Whether a path couldn't be read, which standard error says.
    pub has_failed: bool,
    /// What couldn't be read, and links that were passed over.
    pub failures: Vec<Failure>,
    /// The number of the document that was read from standard input, where one was.
    pub input: Option<usize>,
    /// How many files of YAML below folders were passed over.
    pub passed: usize,
    /// How many files and folders were left out since Git leaves them out.
    pub ignored: usize,
    /// The line that says how far the command is.
    pub watch: Watch<'r>,
}

/// Opens the files that a command line names, or else a configuration, and those of `--with`.
pub fn open_given<'r, 'a>(
    rt: &'r HostRuntime,
    given: &ArgMatches<'a>,
    configured: &'a Configured,
) -> Result<Opened<'r>, Stop> {
    let watch = Watch::new(rt, given);
    let reading = reading_of(rt, given, configured)?;
    if reading.selection.paths.is_empty() {
        say(
            rt,
            "nothing to read is named: give a PATH, or paths in patchsard.toml",
        );
        return Err(Stop::Reported);
    }
    let listed = list_files(rt, &reading.selection)?;
    say_failures(rt, &listed.failures);
    say_unused(rt, listed.unused.as_slice());
    open_listed(rt, &reading, listed, watch)
}

/// Opens the file that a command line names, and those of `--with`. A file that is to be written isn't among these.
pub fn open_file<'r, 'a>(
    rt: &'r HostRuntime,
    given: &ArgMatches<'a>,
    configured: &'a Configured,
    output: Option<&str>,
) -> Result<Opened<'r>, Stop> {
    let watch = Watch::new(rt, given);
    let reading = reading_of(rt, given, configured)?;
    let mut listed = list_one(rt, reading.file, &reading.selection, output)?;
    say_failures(rt, &listed.failures);
    // What is wrong with any of them is asked about, since the first one may need it.
    for file in &mut listed.files {
        file.is_own = true;
    }
    open_listed(rt, &reading, listed, watch)
}

/// Opens what is to be changed at a path, and all that may refer to it: the files that a configuration and `--with` name, or else those below the working folder. All of them are
/// asked about.
pub fn open_around<'r, 'a>(
    rt: &'r HostRuntime,
    given: &ArgMatches<'a>,
    configured: &'a Configured,
    path: &'a str,
) -> Result<Opened<'r>, Stop> {
    let watch = Watch::new(rt, given);
    let mut reading = reading_of(rt, given, configured)?;
    if reading.selection.paths.is_empty() && reading.selection.with.is_empty() {
        push_path(&mut reading.selection.paths, ".")?;
    }
    push_path(&mut reading.selection.paths, path)?;
    let mut listed = list_files(rt, &reading.selection)?;
    say_failures(rt, &listed.failures);
    say_unused(rt, listed.unused.as_slice());
    for file in &mut listed.files {
        file.is_own = true;
    }
    open_listed(rt, &reading, listed, watch)
}

fn push_path<'a>(paths: &mut Vec<&'a str>, path: &'a str) -> Result<(), AllocError> {
    paths.push(path)?;
    Ok(())
}

// Opens the files that were listed, and retrieves what they want from maps.
fn open_listed<'r>(
    rt: &'r HostRuntime,
    reading: &Reading<'_>,
    listed: Listed,
    watch: Watch<'r>,
) -> Result<Opened<'r>, Stop> {
    let read = read_watched(rt, reading.base, listed.files, &watch);
    watch.clear();
    let read = read?;
    say_failures(rt, &read.failures);
    let has_failed = listed.failures.has_failed || read.failures.has_failed;
    let mut failures = listed.failures.list;
    let mut unread = read.failures.list;
    failures.append(&mut unread)?;
    let maps = maps(rt, reading.maps.as_slice())?;
    let mut opened = Opened {
        workspace: Workspace::new(rt.alloc(), reading.draft),
        paths: Vec::new(rt.alloc()),
        maps,
        has_failed,
        failures,
        input: None,
        passed: read.passed.len(),
        ignored: listed.ignored,
        watch,
    };
    for file in read.files {
        opened.open(file)?;
    }
    opened.retrieve(rt)?;
    Ok(opened)
}

// Reads files, and shows how many of them were read.
fn read_watched(
    rt: &HostRuntime,
    base: Option<&str>,
    files: Vec<File>,
    watch: &Watch<'_>,
) -> Result<ReadFiles, AllocError> {
    let count = files.len();
    let mut reading = ReadSoFar::new(rt.alloc());
    let mut buffer = Buffer::new(rt.alloc());
    for (read, file) in files.into_iter().enumerate() {
        watch.show(Progress::Reading { read, files: count })?;
        reading.add(rt, base, &mut buffer, file)?;
    }
    drop(buffer);
    reading.finish(rt.alloc())
}

impl Opened<'_> {
    /// Shows that the documents are being judged, or looked at in another way, where the command takes long.
    pub fn begin_judging(&self) -> Result<(), AllocError> {
        self.watch.show(Progress::Judging {
            files: self.paths.len(),
            documents: self.workspace.len(),
        })
    }

    /// What is wrong with the documents, and what is to be noted; while it is looked for that is shown.
    pub fn report<'d>(&'d self, alloc: Global) -> Result<Report<'d>, AllocError> {
        self.begin_judging()?;
        let report = self.workspace.full_report(alloc);
        self.watch.clear();
        report
    }

    /// Keeps the documents to the end of the program, and returns how many are asked about.
    pub fn keep(self) -> usize {
        self.workspace.keep()
    }

    // Opens a file. Those that are asked about come first.
    fn open(&mut self, file: ReadFile) -> Result<(), AllocError> {
        let ReadFile { file, uri, text } = file;
        let document = Document {
            name: file.shown,
            uri,
            text,
        };
        if file.is_input {
            self.input = Some(self.paths.len());
        }
        self.paths.push(file.path)?;
        if file.is_own {
            self.workspace.open(document)
        } else {
            self.workspace.open_beside(document)
        }
    }

    // Retrieves from maps what the files want.
    fn retrieve(&mut self, rt: &HostRuntime) -> Result<(), AllocError> {
        if self.maps.is_empty() {
            return Ok(());
        }
        self.workspace.retrieve(rt.alloc(), &self.maps)?;
        say_failures(rt, &self.maps.take_failures());
        for number in self.workspace.opened()..self.workspace.documents().len() {
            self.name(rt, number)?;
        }
        for file in self.maps.take_broken() {
            self.add_broken(file)?;
        }
        Ok(())
    }

    // Adds a retrieved file that has no value.
    fn add_broken(&mut self, file: BrokenFile) -> Result<(), AllocError> {
        let BrokenFile { uri, path, text } = file;
        let name = path.clone()?;
        self.paths.push(path)?;
        self.workspace.add_retrieved(Document { name, uri, text })
    }

    // Gives a retrieved document the name and the text of its file.
    fn name(&mut self, rt: &HostRuntime, number: usize) -> Result<(), AllocError> {
        let alloc = rt.alloc();
        let Some(document) = self.workspace.documents().get(number) else {
            return Ok(());
        };
        let uri = document.uri.as_str();
        let path = match self.maps.path_of(alloc, uri)? {
            Some(path) => path,
            None => String::from_str(alloc, uri)?,
        };
        let text = match self.maps.text(alloc, uri)? {
            Some(text) => text,
            None => String::new(alloc),
        };
        say_failures(rt, &self.maps.take_failures());
        let name = path.clone()?;
        let format = Format::of_path(path.as_str());
        self.paths.push(path)?;
        self.workspace.set_file(number, name, format, text);
        Ok(())
    }
}

/// Why the program stops where a registry of documents is refused.
pub fn stopped(rt: &HostRuntime, error: &Error) -> Stop {
    if error.is_memory() {
        return Stop::Memory;
    }
    match error.to_string(rt.alloc()) {
        Ok(said) => {
            say(rt, Plain(said.as_str()));
            Stop::Reported
        }
        Err(_) => Stop::Memory,
    }
}

/// A value, or why the program stops where a registry of documents is refused.
pub fn reported<T: Drop>(rt: &HostRuntime, made: Result<T, Error>) -> Result<T, Stop> {
    match made {
        Ok(made) => Ok(made),
        Err(error) => {
            let stop = stopped(rt, &error);
            drop(error);
            Err(stop)
        }
    }
}
