//! The documents below the client's folders, with those texts that it has open.
use crate::mapped::{has_dots, real_path};
use crate::summaries::Summaries;
use crate::texts::last_put;
use ref_command_line::say_failures;
use ref_draft::Draft;
use ref_files::{
    DocumentText, Exclusion, Exclusions, Failures, Fault, File, Format, Maps, ReadFile, Selection,
    file_uri, list_files, read_all, uri_below,
};
use ref_protocol::encoding::Encoding;
use ref_protocol::paths::{below, is_hidden};
use ref_uri::uri::from_str;
use ref_uri::{Uri, UriFault};
use ref_workspace::{Document, Workspace};
use std::alloc::{AllocError, Global};
use std::fs;

/// What a server is started with.
#[derive(Drop)]
pub struct Settings {
    /// The URI that the files of a folder are under.
    pub base: Option<String>,
    /// The draft of documents that name none.
    pub draft: Draft,
    /// The files and folders that references may lead into.
    pub with: Vec<String>,
    /// The paths and patterns that are left out.
    pub left_out: Vec<LeftOut>,
    /// Whether what Git leaves out is left out.
    pub has_ignore: bool,
    /// Whether each file of YAML is read.
    pub has_yaml: bool,
    /// The absolute path of a configuration that isn't called `patchsard.toml`, where one counts.
    pub configuration: Option<String>,
}

/// A path or a pattern that is left out.
#[derive(Drop)]
pub struct LeftOut {
    /// The folder that it is from, or nothing for the working folder.
    pub folder: String,
    /// The path or the pattern.
    pub text: String,
}

impl LeftOut {
    // The same as `ref_files` has it.
    fn as_exclusion(&self) -> Exclusion<'_> {
        Exclusion {
            folder: self.folder.as_str(),
            text: self.text.as_str(),
            is_path: false,
            is_told: false,
        }
    }
}

// Where a document is read from.
#[derive(Drop)]
struct Place {
    // The absolute path without links.
    path: String,
    // Whether it is read only where its root says what it is, or something refers to it.
    is_optional: bool,
    // Whether the file was listed: it is read, whether it is open or not.
    is_listed: bool,
}

/// A text that the client has open.
#[derive(Drop)]
pub struct OpenText {
    /// Its URI, as the client has it.
    pub uri: String,
    /// The path that the URI means, or the URI where it means none.
    pub path: String,
    /// How it is written.
    pub format: Format,
    /// The text.
    pub text: String,
    /// Why it has no value, where an earlier text that has one counts for the other documents.
    pub fault: Option<Fault>,
    /// That earlier text.
    pub sound: Option<String>,
    /// The number of its document, where it is one.
    pub number: Option<usize>,
    /// When it was put in place of the file's: of two texts of one file the one that was put last counts.
    pub turn: usize,
}

/// The documents below the client's folders, with those texts that it has open.
#[derive(Drop)]
pub struct Desk<'r> {
    /// What files are read by.
    pub rt: &'r HostRuntime,
    pub(crate) settings: Settings,
    pub(crate) maps: Maps<'r>,
    /// How positions count.
    pub(crate) encoding: Encoding,
    /// Whether the client takes no Markdown over a place.
    pub(crate) is_plain: bool,
    /// Whether it takes places that have to do with what is wrong.
    pub(crate) takes_related: bool,
    /// Whether it takes changes as literals, and not as commands alone.
    pub(crate) takes_actions: bool,
    /// The paths of the client's folders.
    pub(crate) folders: Vec<String>,
    /// The texts that are open.
    pub(crate) open: Vec<OpenText>,
    /// The documents.
    pub(crate) workspace: Workspace,
    /// What they have to do with one another.
    pub(crate) summaries: Summaries,
    // Whether it is told what is beside references of descriptions.
    tells_beside: bool,
    // Where those are that were read, by their numbers.
    places: Vec<Place>,
    // How often a text was put in place of a file's.
    turn: usize,
    // Files of YAML that say at their roots neither what they are, nor is one referred to.
    pub(crate) passed: Vec<ReadFile>,
    // Whether files came or went.
    pub(crate) is_stale: bool,
    // Whether a text changed.
    pub(crate) is_moved: bool,
    // Whether the configuration changed.
    pub(crate) is_reset: bool,
}

impl<'r> Desk<'r> {
    /// No folders, and no texts.
    pub fn new(rt: &'r HostRuntime, settings: Settings, maps: Maps<'r>) -> Desk<'r> {
        let workspace = Workspace::new(rt.alloc(), settings.draft);
        Desk {
            rt,
            settings,
            maps,
            encoding: Encoding::Utf16,
            is_plain: false,
            takes_related: false,
            takes_actions: false,
            folders: Vec::new(rt.alloc()),
            open: Vec::new(rt.alloc()),
            workspace,
            summaries: Summaries::new(rt.alloc()),
            tells_beside: false,
            places: Vec::new(rt.alloc()),
            turn: 0,
            passed: Vec::new(rt.alloc()),
            is_stale: true,
            is_moved: true,
            is_reset: false,
        }
    }

    /// Sets whether it is told what is beside references of descriptions.
    pub(crate) fn tell_beside(&mut self, is_told: bool) {
        self.tells_beside = is_told;
        self.workspace.tell_beside(is_told);
    }

    /// Where memory is taken.
    pub(crate) fn alloc(&self) -> Global {
        self.rt.alloc()
    }

    // Reads all files again, and puts the open texts over them.
    pub(crate) fn reopen(&mut self) -> Result<(), AllocError> {
        self.is_moved = true;
        self.summaries.note_all();
        self.workspace = Workspace::new(self.alloc(), self.settings.draft);
        self.workspace.tell_beside(self.tells_beside);
        self.places.clear();
        self.passed.clear();
        self.read_folders()?;
        self.retrieve()?;
        for (_, index) in self.turns()? {
            self.place(index)?;
        }
        Ok(())
    }

    // When each of the open texts was put, with its number among them, in this order.
    fn turns(&self) -> Result<Vec<(usize, usize)>, AllocError> {
        let mut turns = Vec::new(self.alloc());
        for (index, open) in self.open.iter().enumerate() {
            turns.push((open.turn, index))?;
        }
        turns.sort()?;
        Ok(turns)
    }

    fn read_folders(&mut self) -> Result<(), AllocError> {
        if self.folders.is_empty() {
            return Ok(());
        }
        let rt = self.rt;
        let selection = self.selection()?;
        let listed = list_files(rt, &selection)?;
        drop(selection);
        say_failures(rt, &listed.failures);
        let base = match &self.settings.base {
            Some(base) => Some(base.as_str()),
            None => None,
        };
        let read = read_all(rt, base, listed.files)?;
        say_failures(rt, &read.failures);
        self.passed = read.passed;
        let new = self.new_texts()?;
        let mut next = 0;
        for file in read.files {
            if file.file.is_own {
                next = self.place_until(new.as_slice(), next, file.file.shown.as_str())?;
            }
            self.enter(file)?;
        }
        for (_, index) in new.as_slice().get(next..).unwrap_or(&[]) {
            self.place(*index)?;
        }
        Ok(())
    }

    // The paths of the open texts that are no files or whose files were passed over, in byte order, as files are listed, each with its number among
    // the open ones.
    fn new_texts(&self) -> Result<Vec<(String, usize)>, AllocError> {
        let mut new = Vec::new(self.alloc());
        for (index, open) in self.open.iter().enumerate() {
            let path = open.path.as_str();
            if self.real_path(path)?.is_none() || self.passed_at(path)?.is_some() {
                new.push((open.path.clone()?, index))?;
            }
        }
        new.sort()?;
        Ok(new)
    }

    // Places those of them, from a number on, that come before the file at a path, and returns the number of the next one.
    fn place_until(
        &mut self,
        new: &[(String, usize)],
        next: usize,
        path: &str,
    ) -> Result<usize, AllocError> {
        let mut next = next;
        for _ in 0..new.len() {
            match new.get(next) {
                Some((own, index)) if own.as_str() < path => self.place(*index)?,
                _ => break,
            }
            next = next.saturating_add(1);
        }
        Ok(next)
    }

    fn selection(&self) -> Result<Selection<'_>, AllocError> {
        let alloc = self.alloc();
        let mut paths = Vec::new(alloc);
        for folder in &self.folders {
            paths.push(folder.as_str())?;
        }
        let mut with = Vec::new(alloc);
        for path in &self.settings.with {
            with.push(path.as_str())?;
        }
        let mut excluded = Vec::new(alloc);
        for left_out in &self.settings.left_out {
            excluded.push(left_out.as_exclusion())?;
        }
        Ok(Selection {
            paths,
            with,
            excluded,
            has_ignore: self.settings.has_ignore,
            input: "-",
            has_yaml: self.settings.has_yaml,
        })
    }

    // Opens a file as a document, and returns its number: one that is asked about comes after those that are, and another after all.
    pub(crate) fn enter(&mut self, file: ReadFile) -> Result<usize, AllocError> {
        self.summaries.note_all();
        let ReadFile { file, uri, text } = file;
        let File {
            shown,
            path,
            is_own,
            is_optional,
            ..
        } = file;
        let place = Place {
            path,
            is_optional,
            is_listed: true,
        };
        let document = Document {
            name: shown,
            uri,
            text,
        };
        if is_own {
            self.enter_own(place, document)
        } else {
            let number = self.workspace.opened();
            self.places.push(place)?;
            self.workspace.open_beside(document)?;
            Ok(number)
        }
    }

    // Opens a document that is asked about, of the file at a place.
    fn enter_own(&mut self, place: Place, document: Document) -> Result<usize, AllocError> {
        self.summaries.note_all();
        let number = self.workspace.asked();
        self.places.insert(number.min(self.places.len()), place)?;
        for open in &mut self.open {
            if let Some(other) = open.number {
                if number <= other {
                    open.number = Some(other.saturating_add(1));
                }
            }
        }
        self.workspace.open(document)?;
        Ok(number)
    }

    /// The absolute path of the file of the document with a number.
    pub(crate) fn path_of(&self, number: usize) -> &str {
        match self.places.get(number) {
            Some(place) => place.path.as_str(),
            None => "",
        }
    }

    /// Whether the file of the document with a number was listed, so that it is read though it isn't open.
    pub(crate) fn is_listed(&self, number: usize) -> bool {
        self.places.get(number).is_some_and(|place| place.is_listed)
    }

    /// Finds the document of an open text, and puts the text in place of the file's; or makes it a document, where it may be one.
    pub(crate) fn place(&mut self, index: usize) -> Result<(), AllocError> {
        let number = match self.open.get(index) {
            Some(open) => self.find(open.path.as_str())?,
            None => return Ok(()),
        };
        let number = match number {
            Some(number) => Some(number),
            None => self.place_new(index)?,
        };
        if let Some(open) = self.open.get_mut(index) {
            open.number = number;
        }
        match number {
            Some(number) => self.put(index, number),
            None => Ok(()),
        }
    }

    // The number of the document at a path.
    pub(crate) fn find(&self, path: &str) -> Result<Option<usize>, AllocError> {
        for (number, document) in self.workspace.asked_about().iter().enumerate() {
            if document.name.as_str() == path {
                return Ok(Some(number));
            }
        }
        let Some(path) = self.real_path(path)? else {
            return Ok(None);
        };
        let number = self
            .places
            .iter()
            .position(|place| place.path.as_str() == path.as_str());
        match number {
            Some(number) => Ok(Some(number)),
            None => self.retrieved_at(path.as_str()),
        }
    }

    /// A path without links, where something is there.
    pub(crate) fn real_path(&self, path: &str) -> Result<Option<String>, AllocError> {
        real_path(self.rt, path)
    }

    // Makes an open text a document, where it may be one.
    fn place_new(&mut self, index: usize) -> Result<Option<usize>, AllocError> {
        let alloc = self.alloc();
        let Some(open) = self.open.get(index) else {
            return Ok(None);
        };
        let path = open.path.clone()?;
        let format = open.format;
        let text = DocumentText::new(alloc, format, open.text.clone()?)?;
        let is_read = !self.is_optional(format) || is_marked(&text);
        if let Some(place) = self.passed_at(path.as_str())? {
            if is_read && place < self.passed.len() {
                // Its place is among the files: all are listed again before it is judged.
                self.is_stale = true;
                let file = self.passed.remove(place);
                return Ok(Some(self.enter(file)?));
            }
            return Ok(None);
        }
        if !is_read || self.is_left_out(path.as_str())? {
            return Ok(None);
        }
        let Some(uri) = self.uri_at(path.as_str())? else {
            return Ok(None);
        };
        let name = path.clone()?;
        self.is_stale = true;
        let place = Place {
            path,
            is_optional: self.is_optional(format),
            is_listed: false,
        };
        // Where it has no value, nothing counts in its place.
        let number = self.enter_own(place, Document { name, uri, text })?;
        Ok(Some(number))
    }

    // Whether a text that is written so is read only where its root says what it is, or something refers to it.
    fn is_optional(&self, format: Format) -> bool {
        format == Format::Yaml && !self.settings.has_yaml
    }

    /// Whether the document with a number is one that is read only where its root says what it is, or something refers to it, and its root doesn't
    /// say that.
    pub(crate) fn is_unmarked(&self, number: usize) -> bool {
        match (
            self.places.get(number),
            self.workspace.documents().get(number),
        ) {
            (Some(place), Some(document)) => place.is_optional && !is_marked(&document.text),
            _ => false,
        }
    }

    /// Lets go of the document with a number, and passes its file over, where it is one that is listed.
    pub(crate) fn pass_over(&mut self, number: usize) -> Result<(), AllocError> {
        let alloc = self.alloc();
        let Some(document) = self.workspace.documents().get(number) else {
            return Ok(());
        };
        let (shown, uri) = (document.name.clone()?, document.uri.clone()?);
        let format = document.text.format;
        let path = String::from_str(alloc, self.path_of(number))?;
        let is_own = number < self.workspace.asked();
        self.summaries.note_all();
        let is_listed = !is_own || self.is_in_folder(number);
        self.workspace.close(number);
        self.forget(number);
        if !is_listed {
            return Ok(());
        }
        match fs::read_to_string(self.rt, path.as_str()) {
            Ok(text) => {
                let text = DocumentText::of_bytes(alloc, format, text.as_bytes())?;
                let file = File {
                    shown,
                    path,
                    below: String::new(alloc),
                    is_input: false,
                    is_own,
                    is_optional: true,
                };
                self.passed.push(ReadFile { file, uri, text })?;
                Ok(())
            }
            Err(error) => {
                drop(error);
                Ok(())
            }
        }
    }

    // Forgets where the document with a number was: those after it have the numbers before their own.
    fn forget(&mut self, number: usize) {
        if number < self.places.len() {
            let gone = self.places.remove(number);
            drop(gone);
        }
        for open in &mut self.open {
            if let Some(other) = open.number {
                if other == number {
                    open.number = None;
                } else if number < other {
                    open.number = Some(other.saturating_sub(1));
                }
            }
        }
    }

    /// Has all listed again where the file at a path was passed over, since the client had it open so, and says at its root what it is.
    pub(crate) fn list_marked(&mut self, path: &str) -> Result<(), AllocError> {
        if let Some(place) = self.passed_at(path)? {
            if let Some(file) = self.passed.get(place) {
                if is_marked(&file.text) {
                    self.is_stale = true;
                }
            }
        }
        Ok(())
    }

    fn passed_at(&self, path: &str) -> Result<Option<usize>, AllocError> {
        let real = self.real_path(path)?;
        for (place, passed) in self.passed.iter().enumerate() {
            if passed.file.shown.as_str() == path {
                return Ok(Some(place));
            }
            if let Some(real) = &real {
                if passed.file.path.as_str() == real.as_str() {
                    return Ok(Some(place));
                }
            }
        }
        Ok(None)
    }

    // Whether a file isn't among the documents though it may be one: it is excluded, or in a hidden folder.
    fn is_left_out(&self, path: &str) -> Result<bool, AllocError> {
        let mut failures = Failures::new(self.alloc());
        let mut exclusions = Exclusions::new(self.alloc());
        for left_out in &self.settings.left_out {
            exclusions.add(self.rt, &mut failures, left_out.as_exclusion())?;
        }
        if exclusions.has(path)? {
            return Ok(true);
        }
        for folder in &self.folders {
            if let Some(below) = below(folder.as_str(), path) {
                return Ok(is_hidden(below));
            }
        }
        Ok(false)
    }

    /// The URI of the document at a path, where it has one.
    pub(crate) fn uri_at(&self, path: &str) -> Result<Option<Uri>, AllocError> {
        let alloc = self.alloc();
        if !path.starts_with('/') {
            return parsed_uri(alloc, path);
        }
        if let Some(base) = &self.settings.base {
            for folder in &self.folders {
                if let Some(below) = below(folder.as_str(), path) {
                    return parsed_uri(alloc, uri_below(alloc, base.as_str(), below)?.as_str());
                }
            }
        }
        parsed_uri(alloc, file_uri(alloc, path)?.as_str())
    }

    /// Puts an open text in place of that of the document with a number. One that has no value is kept aside where the document has one. That of a
    /// document which was retrieved counts once it is retrieved again.
    pub(crate) fn put(&mut self, index: usize, number: usize) -> Result<(), AllocError> {
        self.is_moved = true;
        self.summaries.note(number)?;
        self.lead(index);
        let alloc = self.alloc();
        let Some(open) = self.open.get(index) else {
            return Ok(());
        };
        let made = DocumentText::new(alloc, open.format, open.text.clone()?)?;
        if self.workspace.opened() <= number {
            self.put_mapped(index, made);
            return Ok(());
        }
        if made.fault().is_none() {
            self.workspace.replace(number, made);
            self.keep_fault(index, None, None);
            return Ok(());
        }
        self.put_sound(index, number)?;
        let Some(sound) = self.sound_of(number)? else {
            self.workspace.replace(number, made);
            self.keep_fault(index, None, None);
            return Ok(());
        };
        let DocumentText { value, .. } = made;
        if let Err(fault) = value {
            self.keep_fault(index, Some(fault), Some(sound));
        }
        Ok(())
    }

    /// Notes that an open text is put last.
    pub(crate) fn lead(&mut self, index: usize) {
        self.turn = self.turn.saturating_add(1);
        let turn = self.turn;
        if let Some(open) = self.open.get_mut(index) {
            open.turn = turn;
        }
    }

    /// Which of the open texts counts for the document with a number: that which was put last.
    pub(crate) fn open_of(&self, number: usize) -> Option<usize> {
        last_put(self.open.as_slice(), number)
    }

    // Puts the last text with a value in place of the file's.
    fn put_sound(&mut self, index: usize, number: usize) -> Result<(), AllocError> {
        let alloc = self.alloc();
        let Some(open) = self.open.get(index) else {
            return Ok(());
        };
        let Some(sound) = &open.sound else {
            return Ok(());
        };
        let text = DocumentText::new(alloc, open.format, sound.clone()?)?;
        self.workspace.replace(number, text);
        Ok(())
    }

    // The text of the document with a number, where it has a value.
    fn sound_of(&self, number: usize) -> Result<Option<String>, AllocError> {
        match self.workspace.documents().get(number) {
            Some(document) if document.value().is_some() => {
                Ok(Some(document.text.text.clone()?))
            }
            _ => Ok(None),
        }
    }

    fn keep_fault(&mut self, index: usize, fault: Option<Fault>, sound: Option<String>) {
        if let Some(open) = self.open.get_mut(index) {
            open.fault = fault;
            open.sound = sound;
        }
    }

    /// The text of the document with a number, as the client has it, and how it is written.
    pub(crate) fn text_of(&self, number: usize) -> (Format, &str) {
        if let Some(index) = self.open_of(number) {
            if let Some(open) = self.open.get(index) {
                return (open.format, open.text.as_str());
            }
        }
        match self.workspace.documents().get(number) {
            Some(document) => (document.text.format, document.text.text.as_str()),
            None => (Format::Json, ""),
        }
    }

    /// Why the open text of the document with a number has no value, where an earlier one counts.
    pub(crate) fn fault_of(&self, number: usize) -> Option<&Fault> {
        let index = self.open_of(number)?;
        self.open.get(index)?.fault.as_ref()
    }

    /// Whether the text of the document with a number, as the client has it, has a value, which is then the one that counts.
    pub(crate) fn is_sound(&self, number: usize) -> bool {
        self.fault_of(number).is_none() && self.workspace.value(number).is_some()
    }

    /// The URI of the document with a number, as the client has it.
    pub(crate) fn client_uri(&self, number: usize) -> Result<String, AllocError> {
        if let Some(index) = self.open_of(number) {
            if let Some(open) = self.open.get(index) {
                return open.uri.clone();
            }
        }
        let name = self.workspace.name(number);
        if name.starts_with('/') {
            return file_uri(self.alloc(), self.plain_path(number, name));
        }
        String::from_str(self.alloc(), name)
    }

    // The path of the file of the document with a number and a path: without links, where the path has steps up in it.
    fn plain_path<'p>(&'p self, number: usize, path: &'p str) -> &'p str {
        let real = self.path_of(number);
        if has_dots(path.as_bytes()) && !real.is_empty() {
            real
        } else {
            path
        }
    }

    /// The number of the document with a URI of the client.
    pub(crate) fn number_of(&self, uri: &str) -> Result<Option<usize>, AllocError> {
        for open in &self.open {
            if open.uri.as_str() == uri {
                return Ok(open.number);
            }
        }
        match ref_protocol::paths::path_of(self.alloc(), uri)? {
            Some(path) => self.find(path.as_str()),
            None => Ok(None),
        }
    }
}

fn parsed_uri(alloc: Global, text: &str) -> Result<Option<Uri>, AllocError> {
    match from_str(alloc, text) {
        Ok(uri) => Ok(Some(uri)),
        Err(UriFault::Memory(error)) => Err(error),
        Err(UriFault::Invalid(error)) => {
            drop(error);
            Ok(None)
        }
    }
}

// The keys of which a schema or a description of an API has one at its root.
const MARKS: [&str; 5] = ["$schema", "$id", "id", "openapi", "swagger"];

// Whether a text says at its root what it is, as `ref_files` has it: by a key there, or where it has no value by a line that begins with such a
// key.
fn is_marked(text: &DocumentText) -> bool {
    match text.value() {
        Some(value) => MARKS.iter().any(|mark| value.get(*mark).is_some()),
        None => has_mark(text.text.as_str()),
    }
}

// Whether a line begins with such a key, or with a brace and then such a key, which may be on a later line.
fn has_mark(text: &str) -> bool {
    text.split('\n').any(begins_with_mark)
        || text.strip_prefix('{').is_some_and(begins_inside)
        || text.split("\n{").skip(1).any(begins_inside)
}

// Whether what is after a brace begins with such a key.
fn begins_inside(text: &str) -> bool {
    begins_with_mark(text.trim_start())
}

// Whether a line begins with such a key and a colon, in quotes or without.
fn begins_with_mark(line: &str) -> bool {
    match line.split_once(':') {
        Some((key, _)) => MARKS.contains(&unquoted(key.trim_end())),
        None => false,
    }
}

fn unquoted(key: &str) -> &str {
    for quote in ['"', '\''] {
        if let Some(rest) = key.strip_prefix(quote) {
            return rest.strip_suffix(quote).unwrap_or(key);
        }
    }
    key
}
