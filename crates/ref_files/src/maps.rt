//! Documents that are read from folders by their URIs.
ghost use Rattle.std.specs.Prelude.{◌≡◌, ◌==◌, ◌∷◌, ◌++◌, [], length, nat_lt, string_bytes, true, vec_len, IfOk, IfSome, OnErr, OnOk};
ghost use Rattle.std.specs.Option.{option_map_or};
ghost use Rattle.ref_files.specs.Maps.{best_of, is_base, IsMeant};
ghost use Rattle.ref_files.specs.Meant.{decoded_segments, AreNames};
ghost use Rattle.ref_files.specs.Plain.{path_of};

use crate::failure::Failures;
use crate::name::names_of;
use crate::prefix::{below_prefix, path_below};
use crate::text::DocumentText;
use ref_error::{Reason, Retrieve, RetrieveError};
use ref_positions::Format;
use ref_uri::uri::from_str;
use ref_uri::{Uri, UriFault, UriRef};
use serde_json::Value;
use std::alloc::{AllocError, Global};
use std::cell::Cell;
use std::fmt::Display;
use std::{fs, io};

/// A folder from which documents are read whose URIs begin with a prefix.
#[derive(Drop)]
pub struct Map {
    prefix: String,
    folder: String,
}

impl Map {
    /// The map of a text `PREFIX=FOLDER`. Nothing where the prefix is no absolute URI without query and fragment, or the folder
    /// isn't there.
    pub fn parse(rt: &HostRuntime, text: &str) -> Result<Option<Map>, AllocError> {
        match text.split_once('=') {
            Some((prefix, folder)) if is_base(prefix) && is_folder(rt, folder) => {
                Ok(Some(Map::new(rt.alloc(), prefix, folder)?))
            }
            _ => Ok(None),
        }
    }

    // The map of a prefix, which is compared in normal form where it is a URI.
    fn new(alloc: Global, prefix: &str, folder: &str) -> Result<Map, AllocError> {
        let prefix = match from_str(alloc, prefix) {
            Ok(uri) => String::from_str(alloc, uri.as_str())?,
            Err(UriFault::Memory(error)) => return Err(error),
            Err(UriFault::Invalid(error)) => {
                drop(error);
                String::from_str(alloc, prefix)?
            }
        };
        let folder = String::from_str(alloc, folder)?;
        Ok(Map { prefix, folder })
    }
}

/// The folders from which documents are read.
#[derive(Drop)]
pub struct Maps<'r> {
    rt: &'r HostRuntime,
    maps: Vec<Map>,
    // What could not be read since it was asked for last.
    failures: Cell<Failures>,
    // What was read since it was asked for last, and is neither JSON nor YAML.
    broken: Cell<Vec<BrokenFile>>,
}

/// A file that was retrieved and is neither JSON nor YAML.
#[derive(Drop)]
pub struct BrokenFile {
    /// The URI that it was retrieved for.
    pub uri: Uri,
    /// Its path.
    pub path: String,
    /// Its text, and why it has no value.
    pub text: DocumentText,
}

fn push_broken(list: &mut Vec<BrokenFile>, file: BrokenFile) -> Result<(), AllocError> {
    list.push(file)?;
    Ok(())
}

impl<'r> Maps<'r> {
    /// None.
    pub fn new(rt: &'r HostRuntime) -> Maps<'r>
        ensures value { result.maps.items ≡ [] }
    {
        Maps {
            rt,
            maps: Vec::new(rt.alloc()),
            failures: Cell::new(Failures::new(rt.alloc())),
            broken: Cell::new(Vec::new(rt.alloc())),
        }
    }

    /// The files that were retrieved and are neither JSON nor YAML, since the last call.
    pub fn take_broken(&self) -> Vec<BrokenFile> {
        self.broken.replace(Vec::new(self.rt.alloc()))
    }

    /// What could not be read since the last call.
    pub fn take_failures(&self) -> Failures {
        self.failures.replace(Failures::new(self.rt.alloc()))
    }

    // Adds what could not be read.
    fn fail<D: Display + Drop>(&self, path: &str, why: D) -> Result<(), AllocError> {
        let mut failures = self.take_failures();
        let added = failures.fail(path, why);
        self.failures.set(failures);
        added
    }

    /// Adds one.
    pub fn push(&mut self, map: Map) -> Result<(), AllocError>
        ensures ok { OnOk result (self.new.maps.items ≡ self.old.maps.items ++ map ∷ []) }
        ensures err { OnErr result (self.new.maps.items ≡ self.old.maps.items) }
    {
        self.maps.push(map)?;
        Ok(())
    }

    /// Whether there is none.
    pub fn is_empty(&self) -> bool
        ensures value { result ≡ (vec_len self.now.maps == 0) }
    {
        self.maps.is_empty()
    }

    /// The path of the file that a URI means, by the longest prefix, where there is one.
    #[tactic(auto, using(crate::proofs::Left::one_more))]
    pub fn path_of(&self, alloc: Global, uri: &str) -> Result<Option<String>, AllocError>
        ensures found { IfOk result (λ found. IfSome found
            (λ path. IsMeant (best_of uri.now self.now.maps.items) (string_bytes path))) }
    {
        let mut best: Option<(&Map, &str)> = None;
        for map in &self.maps {
            if let Some(rest) = below_prefix(map.prefix.as_str(), uri) {
                if is_longer(map, &best) {
                    best = Some((map, rest));
                }
            }
        }
        match best {
            Some((map, rest)) => self.plain_file(alloc, map.folder.as_str(), rest),
            None => Ok(None),
        }
    }

    // The path of a file below a folder, where no name on the way is a link or leads out of it.
    fn plain_file(
        &self,
        alloc: Global,
        folder: &str,
        rest: &str,
    ) -> Result<Option<String>, AllocError>
        ensures names { IfOk result
            (λ found. IfSome found (λ _. AreNames (decoded_segments rest.now))) }
        ensures path { IfOk result (λ found. IfSome found
            (λ path. string_bytes path ≡ path_of folder.now (decoded_segments rest.now))) }
    {
        let Some(names) = names_of(alloc, rest)? else {
            return Ok(None);
        };
        for length in 1..=names.len() {
            let path = path_below(alloc, folder, &names.as_slice()[..length])?;
            if !self.is_plain(path.as_str(), length == names.len()) {
                return Ok(None);
            }
        }
        Ok(Some(path_below(alloc, folder, names.as_slice())?))
    }

    // Whether a path is a file, or a folder on the way to one, and no link.
    fn is_plain(&self, path: &str, is_last: bool) -> bool {
        match fs::symlink_metadata(self.rt, path) {
            Ok(data) if is_last => data.is_file(),
            Ok(data) => data.is_dir(),
            Err(_) => false,
        }
    }

    // The text of a file.
    fn read_text(&self, path: &str) -> Result<Option<String>, AllocError> {
        match fs::read_to_string(self.rt, path) {
            Ok(text) => Ok(Some(unmarked(self.rt.alloc(), text)?)),
            Err(error) if error.kind() == io::ErrorKind::OutOfMemory => Err(AllocError),
            Err(error) => {
                self.fail(path, error)?;
                Ok(None)
            }
        }
    }

    // Reads the file that a URI means.
    fn read(&self, alloc: Global, uri: &Uri, path: String) -> Result<Option<Value>, AllocError> {
        let Some(text) = self.read_text(path.as_str())? else {
            return Ok(None);
        };
        let format = Format::of_path(path.as_str());
        let DocumentText { text, value, .. } = DocumentText::new(alloc, format, text)?;
        match value {
            Ok(value) => Ok(Some(value)),
            Err(fault) => {
                let value = Err(fault);
                let text = DocumentText {
                    text,
                    format,
                    value,
                };
                let uri = uri.clone()?;
                self.keep(BrokenFile { uri, path, text })?;
                Ok(None)
            }
        }
    }

    // Keeps a file that has no value.
    fn keep(&self, file: BrokenFile) -> Result<(), AllocError> {
        let mut broken = self.take_broken();
        let added = push_broken(&mut broken, file);
        self.broken.set(broken);
        added
    }

    /// The text of the file that a URI means, where there is one.
    pub fn text(&self, alloc: Global, uri: &str) -> Result<Option<String>, AllocError> {
        let Some(path) = self.path_of(alloc, uri)? else {
            return Ok(None);
        };
        self.read_text(path.as_str())
    }

    fn document(&self, alloc: Global, uri: &Uri) -> Result<Option<Value>, AllocError> {
        match self.path_of(alloc, uri.as_str())? {
            Some(path) => self.read(alloc, uri, path),
            None => Ok(None),
        }
    }
}

/// Whether documents can be under a URI: an absolute one without a query and a fragment.
pub fn is_base(base: &str) -> bool
    ensures value { result ≡ is_base base.now }
{
    match UriRef::parse(base) {
        Ok(uri) => uri.has_scheme() && !uri.has_fragment() && uri.query().is_none(),
        Err(_) => false,
    }
}

fn is_folder(rt: &HostRuntime, path: &str) -> bool {
    match fs::metadata(rt, path) {
        Ok(data) => data.is_dir(),
        Err(_) => false,
    }
}

// A text without a byte order mark at its beginning.
fn unmarked(alloc: Global, text: String) -> Result<String, AllocError> {
    match text.as_str().strip_prefix('\u{feff}') {
        Some(rest) => String::from_str(alloc, rest),
        None => Ok(text),
    }
}

fn is_longer(map: &Map, best: &Option<(&Map, &str)>) -> bool
    ensures value { result
        ≡ option_map_or (λ b. nat_lt (length (string_bytes b.0.now.prefix)) (length (string_bytes map.now.prefix)))
        best.now true }
{
    match best {
        Some((other, _)) => map.prefix.len() > other.prefix.len(),
        None => true,
    }
}

/// It returns what is in the files, and refuses what no file has.
impl Retrieve for Maps<'_> {
    ghost use Rattle.ref_definitions.specs.Retrievers.{any_retriever};

    ghost meaning = { λ _. any_retriever };

    fn retrieve(&self, alloc: Global, uri: &Uri) -> Result<Value, RetrieveError> {
        match self.document(alloc, uri)? {
            Some(value) => Ok(value),
            None => Err(RetrieveError::Refused(Reason::NoDocument)),
        }
    }
}
