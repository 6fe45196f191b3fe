//! Files that are read, each with the URI that it is under.
use crate::buffer::Buffer;
use crate::failure::Failures;
use crate::listing::File;
use crate::marks::is_marked;
use crate::text::DocumentText;
use crate::uri::{file_uri, uri_below};
use crate::wanted::add_wanted;
use ref_positions::Format;
use ref_uri::uri::from_str;
use ref_uri::{Uri, UriFault};
use std::alloc::{AllocError, Global};
use std::io;

/// A file that was read.
#[derive(Drop)]
pub struct ReadFile {
    /// Where it is.
    pub file: File,
    /// The URI that it is under.
    pub uri: Uri,
    /// Its text.
    pub text: DocumentText,
}

/// The files that were read, and what could not be read.
#[derive(Drop)]
pub struct ReadFiles {
    /// The files, in their order.
    pub files: Vec<ReadFile>,
    /// Files of YAML below folders that were passed over, as they neither say what they are at their roots nor are referred to.
    pub passed: Vec<ReadFile>,
    /// What could not be read.
    pub failures: Failures,
}

/// Reads files: each is under its path below a base URI, or under its `file:` URI. One that is read only where its root says what it is, or a
/// file refers to it, is among those that were passed over else. Fails only if out of memory.
pub fn read_all(
    rt: &HostRuntime,
    base: Option<&str>,
    files: Vec<File>,
) -> Result<ReadFiles, AllocError> {
    let mut reading = ReadSoFar::new(rt.alloc());
    let mut buffer = Buffer::new(rt.alloc());
    for file in files {
        reading.add(rt, base, &mut buffer, file)?;
    }
    drop(buffer);
    reading.finish(rt.alloc())
}

/// What was read so far of files that are read one after another.
#[derive(Drop)]
pub struct ReadSoFar {
    all: Vec<ReadFile>,
    // Which of them aren't passed over.
    is_read: Vec<bool>,
    failures: Failures,
}

fn push(files: &mut Vec<ReadFile>, file: ReadFile) -> Result<(), AllocError> {
    files.push(file)?;
    Ok(())
}

impl ReadSoFar {
    /// Nothing yet. Takes no memory.
    pub fn new(alloc: Global) -> ReadSoFar {
        ReadSoFar {
            all: Vec::new(alloc),
            is_read: Vec::new(alloc),
            failures: Failures::new(alloc),
        }
    }

    /// Reads a file into a buffer, and adds it under its path below a base URI, or under its `file:` URI; or adds why it could not be read. Fails only
    /// if out of memory.
    pub fn add(
        &mut self,
        rt: &HostRuntime,
        base: Option<&str>,
        buffer: &mut Buffer,
        file: File,
    ) -> Result<(), AllocError> {
        let bytes = match bytes_of(rt, buffer, &file) {
            Ok(bytes) => bytes,
            Err(error) => return self.failures.fail(file.shown.as_str(), error),
        };
        let Some(uri) = uri_of(rt.alloc(), base, &file)? else {
            let why = "no URI can be made of its path";
            return self.failures.fail(file.shown.as_str(), why);
        };
        let format = Format::of_path(file.shown.as_str());
        let text = DocumentText::of_bytes(rt.alloc(), format, bytes)?;
        self.is_read.push(!file.is_optional || is_marked(&text))?;
        push(&mut self.all, ReadFile { file, uri, text })
    }

    /// Those that are read, and those that were passed over: each that is read only where its root says what it is, or a file refers to it, and
    /// for which neither holds. Fails only if out of memory. Where some may be passed over, each value is visited once.
    pub fn finish(self, alloc: Global) -> Result<ReadFiles, AllocError> {
        let ReadSoFar {
            all,
            mut is_read,
            failures,
        } = self;
        add_wanted(alloc, all.as_slice(), &mut is_read)?;
        let mut read = ReadFiles {
            files: Vec::new(alloc),
            passed: Vec::new(alloc),
            failures,
        };
        for (file, is_read) in all.into_iter().zip(is_read.into_iter()) {
            if is_read {
                push(&mut read.files, file)?;
            } else {
                push(&mut read.passed, file)?;
            }
        }
        Ok(read)
    }
}

fn bytes_of<'b>(rt: &HostRuntime, buffer: &'b mut Buffer, file: &File) -> io::Result<&'b [u8]> {
    if file.is_input {
        buffer.read_input(rt)
    } else {
        buffer.read(rt, file.path.as_str())
    }
}

// The URI that a file is under, where its path gives one.
fn uri_of(alloc: Global, base: Option<&str>, file: &File) -> Result<Option<Uri>, AllocError> {
    let text = match base {
        Some(base) => uri_below(alloc, base, file.below.as_str())?,
        None => file_uri(alloc, file.path.as_str())?,
    };
    match from_str(alloc, text.as_str()) {
        Ok(uri) => Ok(Some(uri)),
        Err(UriFault::Memory(error)) => Err(error),
        Err(UriFault::Invalid(error)) => {
            drop(error);
            Ok(None)
        }
    }
}
