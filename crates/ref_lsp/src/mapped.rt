//! The documents of maps, with those of their texts that the client has open.
ghost use Rattle.std.specs.Prelude.{◌≡◌};
ghost use Rattle.ref_lsp.specs.Names as spec;

use crate::desk::{Desk, OpenText};
use ref_error::{Retrieve, RetrieveError};
use ref_files::{DocumentText, Format, Maps};
use ref_uri::Uri;
use serde_json::Value;
use std::alloc::{AllocError, Global};
use std::collections::BTreeMap;
use std::{fs, io};

/// What documents are retrieved from: the texts that are open of files of maps, where they have values or had some, and these files.
#[derive(Drop)]
pub struct Mapped<'m, 'o, 'r> {
    maps: &'m Maps<'r>,
    rt: &'r HostRuntime,
    open: &'o [OpenText],
    // The places of these texts among the open ones, by the absolute paths without links of their files: of several texts of one file that of the one
    // that was put last.
    places: BTreeMap<String, usize>,
}

/// A file of a map, or the text that the client has open of it.
#[derive(Drop)]
pub struct MappedFile {
    /// The absolute path of the file.
    pub path: String,
    /// How it is written.
    pub format: Format,
    /// The text.
    pub text: String,
}

/// A path without links, where something is there.
pub fn real_path(rt: &HostRuntime, path: &str) -> Result<Option<String>, AllocError> {
    match fs::canonicalize(rt, path) {
        Ok(real) => Ok(Some(real.into_string())),
        Err(error) if error.kind() == io::ErrorKind::OutOfMemory => Err(AllocError),
        Err(_) => Ok(None),
    }
}

/// The absolute path of a file of a map: the path as it is, or one without links where it begins at the working folder, or has steps up in it.
pub fn absolute(rt: &HostRuntime, path: String) -> Result<String, AllocError> {
    if path.as_str().starts_with('/') && !has_dots(path.as_str().as_bytes()) {
        return Ok(path);
    }
    match real_path(rt, path.as_str())? {
        Some(real) => Ok(real),
        None => Ok(path),
    }
}

/// Whether a path has a step to the same folder or up in it: a client has no file under such a URI.
pub fn has_dots(path: &[u8]) -> bool
    ensures value { result ≡ spec.has_dots path.now }
{
    let mut rest = path;
    'bytes: while let [byte, more @ ..] = rest {
        if *byte == b'/' && begins_with_dots(more) {
            return true;
        }
        rest = more;
    }
    false
}

// Whether a path begins with a step to the same folder or up.
fn begins_with_dots(path: &[u8]) -> bool
    ensures { result ≡ spec.begins_with_dots path.now }
{
    match path {
        [first, next, rest @ ..] => {
            *first == b'.' && (*next == b'/' || *next == b'.' && begins_with_slash(rest))
        }
        _ => false,
    }
}

fn begins_with_slash(path: &[u8]) -> bool
    ensures { result ≡ spec.begins_with_slash path.now }
{
    match path {
        [] => false,
        [first, ..] => *first == b'/',
    }
}

// The places of open texts, by the absolute paths without links of their files.
fn places_of(rt: &HostRuntime, open: &[OpenText]) -> Result<BTreeMap<String, usize>, AllocError> {
    let mut places: BTreeMap<String, usize> = BTreeMap::new(rt.alloc());
    for (place, text) in open.iter().enumerate() {
        if let Some(path) = real_path(rt, text.path.as_str())? {
            let other = match places.get(path.as_str()) {
                Some(other) => open.get(*other),
                None => None,
            };
            if other.is_none_or(|other| other.turn <= text.turn) {
                places.insert(path, place)?;
            }
        }
    }
    Ok(places)
}

impl<'m, 'o, 'r> Mapped<'m, 'o, 'r> {
    /// The files of maps, and texts that are open.
    pub fn new(
        rt: &'r HostRuntime,
        maps: &'m Maps<'r>,
        open: &'o [OpenText],
    ) -> Result<Mapped<'m, 'o, 'r>, AllocError> {
        let places = places_of(rt, open)?;
        Ok(Mapped {
            maps,
            rt,
            open,
            places,
        })
    }

    // The absolute path without links of the file that a URI means, where there is one.
    fn real_path_of(&self, alloc: Global, uri: &str) -> Result<Option<String>, AllocError> {
        match self.maps.path_of(alloc, uri)? {
            Some(path) => real_path(self.rt, path.as_str()),
            None => Ok(None),
        }
    }

    // The open text of the file that a URI means.
    fn open_at(&self, alloc: Global, uri: &str) -> Result<Option<&'o OpenText>, AllocError> {
        if self.places.is_empty() {
            return Ok(None);
        }
        let Some(path) = self.real_path_of(alloc, uri)? else {
            return Ok(None);
        };
        match self.places.get(path.as_str()) {
            Some(place) => Ok(self.open.get(*place)),
            None => Ok(None),
        }
    }

    // What counts of the open text of the file that a URI means: the last one that has a value.
    fn sound_at(&self, alloc: Global, uri: &str) -> Result<Option<DocumentText>, AllocError> {
        let Some(open) = self.open_at(alloc, uri)? else {
            return Ok(None);
        };
        let text = match (&open.fault, &open.sound) {
            (Some(_), Some(sound)) => sound.clone()?,
            _ => open.text.clone()?,
        };
        let text = DocumentText::new(alloc, open.format, text)?;
        if text.fault().is_some() {
            return Ok(None);
        }
        Ok(Some(text))
    }

    // The value of that text.
    fn value_at(&self, alloc: Global, uri: &str) -> Result<Option<Value>, AllocError> {
        let Some(text) = self.sound_at(alloc, uri)? else {
            return Ok(None);
        };
        let DocumentText { value, .. } = text;
        match value {
            Ok(value) => Ok(Some(value)),
            Err(fault) => {
                drop(fault);
                Ok(None)
            }
        }
    }

    /// The file that a URI means, with what counts of its text: nothing where there is no such file.
    pub fn file(&self, alloc: Global, uri: &str) -> Result<Option<MappedFile>, AllocError> {
        let Some(path) = self.maps.path_of(alloc, uri)? else {
            return Ok(None);
        };
        let path = absolute(self.rt, path)?;
        if let Some(sound) = self.sound_at(alloc, uri)? {
            let DocumentText { text, format, .. } = sound;
            return Ok(Some(MappedFile { path, format, text }));
        }
        let format = Format::of_path(path.as_str());
        let text = match self.maps.text(alloc, uri)? {
            Some(text) => text,
            None => String::new(alloc),
        };
        Ok(Some(MappedFile { path, format, text }))
    }
}

/// It returns what is in the texts and the files, and refuses what none has.
impl Retrieve for Mapped<'_, '_, '_> {
    ghost use Rattle.ref_definitions.specs.Retrievers.{any_retriever};

    ghost meaning = { λ _. any_retriever };

    fn retrieve(&self, alloc: Global, uri: &Uri) -> Result<Value, RetrieveError> {
        match self.value_at(alloc, uri.as_str())? {
            Some(value) => Ok(value),
            None => self.maps.retrieve(alloc, uri),
        }
    }
}

impl<'r> Desk<'r> {
    // The files of maps alone.
    fn files_of_maps(&self) -> Result<Mapped<'_, '_, 'r>, AllocError> {
        Mapped::new(self.rt, &self.maps, &[])
    }

    /// The file of a map that the document with a number was retrieved from: nothing where this has a text of its own, or the client has its text open.
    pub(crate) fn mapped_file(&self, number: usize) -> Result<Option<MappedFile>, AllocError> {
        if number < self.workspace.documents().len() || self.open_of(number).is_some() {
            return Ok(None);
        }
        match self.workspace.uri(number) {
            Some(uri) => self.files_of_maps()?.file(self.alloc(), uri.as_str()),
            None => Ok(None),
        }
    }

    /// The number of the document that was retrieved from the file at an absolute path without links.
    pub(crate) fn retrieved_at(&self, path: &str) -> Result<Option<usize>, AllocError> {
        if self.maps.is_empty() {
            return Ok(None);
        }
        Ok(self.retrieved_numbers()?.get(path).copied())
    }

    // The numbers of the documents that were retrieved, by the absolute paths without links of their files.
    fn retrieved_numbers(&self) -> Result<BTreeMap<String, usize>, AllocError> {
        let alloc = self.alloc();
        let files = self.files_of_maps()?;
        let mut numbers = BTreeMap::new(alloc);
        for number in self.workspace.opened()..self.workspace.len() {
            if let Some(uri) = self.workspace.uri(number) {
                if let Some(path) = files.real_path_of(alloc, uri.as_str())? {
                    numbers.insert(path, number)?;
                }
            }
        }
        Ok(numbers)
    }

    /// Finds the documents that were retrieved of open texts: these have other numbers each time.
    pub(crate) fn place_retrieved(&mut self) -> Result<(), AllocError> {
        if !self.may_be_retrieved() {
            return Ok(());
        }
        let numbers = self.retrieved_numbers()?;
        for index in 0..self.open.len() {
            let number = self.number_among(&numbers, index)?;
            if let Some(open) = self.open.get_mut(index) {
                open.number = number;
            }
        }
        Ok(())
    }

    // Whether an open text may be that of a document which was retrieved.
    fn may_be_retrieved(&self) -> bool {
        for open in &self.open {
            if !self.is_of_opened(open) {
                return true;
            }
        }
        false
    }

    // Whether an open text is that of a document which wasn't retrieved.
    fn is_of_opened(&self, open: &OpenText) -> bool {
        open.number
            .is_some_and(|number| number < self.workspace.opened())
    }

    // The number of the document of an open text, by the paths of those that were retrieved, where it isn't that of another one.
    fn number_among(
        &self,
        numbers: &BTreeMap<String, usize>,
        index: usize,
    ) -> Result<Option<usize>, AllocError> {
        let Some(open) = self.open.get(index) else {
            return Ok(None);
        };
        if self.is_of_opened(open) {
            return Ok(open.number);
        }
        match self.real_path(open.path.as_str())? {
            Some(path) => Ok(numbers.get(path.as_str()).copied()),
            None => Ok(None),
        }
    }

    /// Keeps an open text of a file of a map, which is retrieved in place of the file: the last one that has a value.
    pub(crate) fn put_mapped(&mut self, index: usize, made: DocumentText) {
        let DocumentText { text, value, .. } = made;
        if let Some(open) = self.open.get_mut(index) {
            match value {
                Ok(value) => {
                    drop(value);
                    open.fault = None;
                    open.sound = Some(text);
                }
                Err(fault) => open.fault = Some(fault),
            }
        }
    }
}
