//! Files that are replaced together: all of them, or none where one can't be written.
use ref_command_line::{Stop, say, say_of};
use ref_files::{WriteError, write_file};
use std::alloc::{AllocError, Global};
use std::fs::File;
use std::io::Write;
use std::{fs, io};

// The byte order mark, which is passed over at the beginning of a file.
const MARK: &str = "\u{feff}";

/// A file that is to have another text.
#[derive(Drop)]
pub(crate) struct NewText {
    /// What it is called.
    pub name: String,
    /// Its absolute path, without links.
    pub path: String,
    /// What is before the text in the file: a byte order mark or nothing.
    pub mark: &'static str,
    /// The text that it has.
    pub old: String,
    /// The text that it is to have.
    pub new: String,
}

/// What is before a text in its file now: a byte order mark or nothing. `None` where the file has another text or can't be read, which is said.
pub(crate) fn mark_of(
    rt: &HostRuntime,
    name: &str,
    path: &str,
    text: &str,
) -> Result<Option<&'static str>, Stop> {
    let now = match fs::read_to_string(rt, path) {
        Ok(now) => now,
        Err(error) if error.kind() == io::ErrorKind::OutOfMemory => return Err(Stop::Memory),
        Err(error) => {
            say_of(rt, name, error);
            return Ok(None);
        }
    };
    if now.as_str() == text {
        return Ok(Some(""));
    }
    if now.as_str().strip_prefix(MARK) == Some(text) {
        return Ok(Some(MARK));
    }
    say_of(rt, name, "was changed since it was read");
    Ok(None)
}

/// Gives files their new texts, and returns whether it did. Each text is written to a file beside its own first, and only once all are there they are renamed one after another.
/// Where one can't be written or renamed, that is said, and every file has the text that it had.
pub(crate) fn replace_all(rt: &HostRuntime, files: &[NewText]) -> Result<bool, Stop> {
    for (number, file) in files.iter().enumerate() {
        if !write_beside(rt, file)? {
            remove_beside(rt, files.get(..number).unwrap_or(&[]))?;
            return Ok(false);
        }
    }
    for (number, file) in files.iter().enumerate() {
        if !put_in_place(rt, file)? {
            remove_beside(rt, files.get(number..).unwrap_or(&[]))?;
            restore_all(rt, files.get(..number).unwrap_or(&[]))?;
            return Ok(false);
        }
    }
    Ok(true)
}

// One text after another.
fn joined(alloc: Global, front: &str, rest: &str) -> Result<String, AllocError> {
    [front, rest].join(alloc, "")
}

// The path of the file beside one.
fn beside(rt: &HostRuntime, file: &NewText) -> Result<String, AllocError> {
    format!(in rt.alloc(); "{}.patchsard-new", file.path.as_str())
}

// Writes the new text of a file beside it, and returns whether it did.
fn write_beside(rt: &HostRuntime, file: &NewText) -> Result<bool, Stop> {
    let path = beside(rt, file)?;
    let text = joined(rt.alloc(), file.mark, file.new.as_str())?;
    match write_new(rt, path.as_str(), file.path.as_str(), text.as_str()) {
        Ok(()) => Ok(true),
        Err(error) => {
            say_unwritten(rt, path.as_str(), error)?;
            Ok(false)
        }
    }
}

// Writes a file that isn't there yet, with the permissions of another one. Where that fails, none is left.
fn write_new(rt: &HostRuntime, path: &str, like: &str, text: &str) -> io::Result<()> {
    let data = fs::metadata(rt, like)?;
    let mut file = File::create_new(rt, path)?;
    if let Err(error) = file.set_permissions(data.permissions()) {
        let _ = fs::remove_file(rt, path);
        return Err(error);
    }
    if let Err(error) = filled(&mut file, text) {
        let _ = fs::remove_file(rt, path);
        return Err(error);
    }
    Ok(())
}

fn filled(file: &mut File, text: &str) -> io::Result<()> {
    file.write_all(text.as_bytes())?;
    file.sync_all()
}

// Renames the file beside one to it, and returns whether it did.
fn put_in_place(rt: &HostRuntime, file: &NewText) -> Result<bool, Stop> {
    let path = beside(rt, file)?;
    match fs::rename(rt, path.as_str(), file.path.as_str()) {
        Ok(()) => Ok(true),
        Err(error) => {
            say_unwritten(rt, file.name.as_str(), error)?;
            Ok(false)
        }
    }
}

// Removes the files beside others.
fn remove_beside(rt: &HostRuntime, files: &[NewText]) -> Result<(), AllocError> {
    for file in files {
        let path = beside(rt, file)?;
        let _ = fs::remove_file(rt, path.as_str());
    }
    Ok(())
}

/// Gives files the texts that they had.
pub(crate) fn restore_all(rt: &HostRuntime, files: &[NewText]) -> Result<(), Stop> {
    for file in files {
        let text = joined(rt.alloc(), file.mark, file.old.as_str())?;
        match write_file(rt, file.path.as_str(), text.as_str()) {
            Ok(()) => {}
            Err(WriteError::Memory) => return Err(Stop::Memory),
            Err(WriteError::File { path, error }) => {
                say_of(rt, path.as_str(), error);
                say_of(
                    rt,
                    file.name.as_str(),
                    "has its new text, and not the old one",
                );
            }
        }
    }
    Ok(())
}

// Says why a file can't be written.
fn say_unwritten(rt: &HostRuntime, path: &str, error: io::Error) -> Result<(), Stop> {
    match error.kind() {
        io::ErrorKind::OutOfMemory => return Err(Stop::Memory),
        io::ErrorKind::AlreadyExists => say_of(
            rt,
            path,
            "a file with this name is there, as a run that was broken off leaves it",
        ),
        _ => say_of(rt, path, error),
    }
    say(rt, "nothing is changed");
    Ok(())
}
