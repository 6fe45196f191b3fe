//! What a client says of its texts, files and folders.
ghost use Rattle.std.specs.Prelude.{◌≡◌, ◌≤◌, IfOk, IfSome, OnErr, List, ℕ, Option, length, option_map, string_bytes};
ghost use Rattle.serde_json.specs.View.{view};
ghost use Rattle.ref_lsp.specs.Changes as spec;
ghost use Rattle.ref_lsp.specs.Clients.{format_of};
ghost use Rattle.ref_lsp.specs.Turns as turns;

use crate::desk::{Desk, OpenText};
use ref_files::Format;
use ref_protocol::edit::changed;
use ref_protocol::encoding::{Encoding, offset_at};
use ref_protocol::paths::{below, path_of};
use serde_json::Value;
use std::alloc::{AllocError, Global};
use std::fs;

// The text at a pointer.
fn text_at<'v>(value: &'v Value, pointer: &str) -> Option<&'v str>
    ensures { option_map (λ text. text.now) result ≡ spec.text_at pointer.now (view value.now) }
{
    value.pointer(pointer)?.as_str()
}

/// The number at a pointer.
pub fn number_at(value: &Value, pointer: &str) -> Option<usize>
    ensures value { result ≡ spec.number_at pointer.now (view value.now) }
{
    let number = value.pointer(pointer)?.as_u64()?;
    Some(number as usize)
}

// How a text is written: YAML where its path or the client says so, else JSON where one says that. Nothing where it is neither.
fn format_of(path: &str, language: &str) -> Option<Format>
    ensures { result ≡ format_of path.now language.now }
{
    let end = path.as_bytes();
    if end.ends_with(b".yaml") || end.ends_with(b".yml") || language == "yaml" {
        Some(Format::Yaml)
    } else if end.ends_with(b".json") || language == "json" {
        Some(Format::Json)
    } else {
        None
    }
}

// As many spaces as the byte order mark has units.
fn blanks(encoding: Encoding) -> &'static str
    ensures { result.now ≡ spec.blanks encoding }
{
    match encoding {
        Encoding::Utf8 => "   ",
        Encoding::Utf16 | Encoding::Utf32 => " ",
    }
}

// A text as it is read: where one of JSON begins with a byte order mark (RFC 8259, 8.1), with as many spaces in its place as it has units, so that
// positions on the first line stay those of the client.
fn unmarked(
    alloc: Global,
    text: String,
    format: Format,
    encoding: Encoding,
) -> Result<String, AllocError>
    ensures { IfOk result
        (λ read. string_bytes read ≡ spec.unmarked format encoding (string_bytes text)) }
{
    match format {
        Format::Yaml => Ok(text),
        Format::Json => unmarked_json(alloc, text, encoding),
    }
}

fn unmarked_json(alloc: Global, text: String, encoding: Encoding) -> Result<String, AllocError>
    ensures { IfOk result
        (λ read. string_bytes read ≡ spec.unmarked_json encoding (string_bytes text)) }
{
    match text.as_str().strip_prefix('\u{feff}') {
        Some(rest) => {
            let mut read = String::from_str(alloc, blanks(encoding))?;
            read.push_str(rest)?;
            Ok(read)
        }
        None => Ok(text),
    }
}

impl Desk<'_> {
    // Whether a URI is that of a configuration.
    fn is_configuration(&self, uri: &str) -> Result<bool, AllocError> {
        if uri.ends_with("/patchsard.toml") {
            return Ok(true);
        }
        let Some(own) = &self.settings.configuration else {
            return Ok(false);
        };
        let Some(path) = path_of(self.alloc(), uri)? else {
            return Ok(false);
        };
        match self.real_path(path.as_str())? {
            Some(real) => Ok(own.as_str() == real.as_str()),
            None => Ok(own.as_str() == path.as_str()),
        }
    }

    /// `textDocument/didOpen`.
    pub(crate) fn did_open(&mut self, params: &Value) -> Result<(), AllocError> {
        let alloc = self.alloc();
        let (Some(uri), Some(text)) = (
            text_at(params, "/textDocument/uri"),
            text_at(params, "/textDocument/text"),
        ) else {
            return Ok(());
        };
        let language = text_at(params, "/textDocument/languageId").unwrap_or("");
        let path = match path_of(alloc, uri)? {
            Some(path) => path,
            None => String::from_str(alloc, uri)?,
        };
        let Some(format) = format_of(path.as_str(), language) else {
            return Ok(());
        };
        self.close(uri)?;
        let open = OpenText {
            uri: String::from_str(alloc, uri)?,
            path,
            format,
            text: unmarked(alloc, String::from_str(alloc, text)?, format, self.encoding)?,
            fault: None,
            sound: None,
            number: None,
            turn: 0,
        };
        self.open.push(open)?;
        let index = self.open.len().saturating_sub(1);
        self.seat(index)
    }

    // Finds the document of a text that was opened; where it has the same text, nothing moves.
    fn seat(&mut self, index: usize) -> Result<(), AllocError> {
        let Some(open) = self.open.get(index) else {
            return Ok(());
        };
        let number = self.find(open.path.as_str())?;
        if let Some(number) = number {
            if self.has_text(number, index) {
                return self.sit(index, number);
            }
        }
        self.place(index)
    }

    // Takes an open text for that of the document with a number, whose text is the same. What was told of it is told again where the client
    // has another URI for it.
    fn sit(&mut self, index: usize, number: usize) -> Result<(), AllocError> {
        let told = self.client_uri(number)?;
        self.summaries.note(number)?;
        let mut is_same = true;
        if let Some(open) = self.open.get_mut(index) {
            open.number = Some(number);
            is_same = open.uri.as_str() == told.as_str();
        }
        self.lead(index);
        if !is_same {
            self.is_moved = true;
        }
        Ok(())
    }

    // Whether the document with a number has the same text as an open one.
    fn has_text(&self, number: usize, index: usize) -> bool {
        match (self.workspace.documents().get(number), self.open.get(index)) {
            (Some(document), Some(open)) => {
                document.text.text.as_str() == open.text.as_str()
                    && document.text.format == open.format
            }
            _ => false,
        }
    }

    // Forgets the open text with a URI, and returns its number.
    fn close(&mut self, uri: &str) -> Result<Option<usize>, AllocError> {
        let Some(place) = self.open_at(uri) else {
            return Ok(None);
        };
        if place >= self.open.len() {
            return Ok(None);
        }
        let closed = self.open.remove(place);
        if closed.number.is_none() {
            self.list_marked(closed.path.as_str())?;
        }
        if let Some(number) = closed.number {
            self.summaries.note(number)?;
            // What was told of it is told again where it has another URI now.
            let told = self.client_uri(number)?;
            if told.as_str() != closed.uri.as_str() {
                self.is_moved = true;
            }
        }
        // Its findings were those of the text that is let go.
        if closed.fault.is_some() {
            self.is_moved = true;
        }
        Ok(closed.number)
    }

    // Which of the open texts has a URI.
    fn open_at(&self, uri: &str) -> Option<usize> {
        self.open.iter().position(|open| open.uri.as_str() == uri)
    }

    /// `textDocument/didClose`: the file's own text counts again, or that of the same file which is still open under another URI. Where the file
    /// wasn't listed, as one that is in none of the folders or that Git leaves out, all are listed again.
    pub(crate) fn did_close(&mut self, params: &Value) -> Result<(), AllocError> {
        let Some(uri) = text_at(params, "/textDocument/uri") else {
            return Ok(());
        };
        let Some(number) = self.close(uri)? else {
            return Ok(());
        };
        match self.open_of(number) {
            Some(index) => self.put(index, number),
            None if self.workspace.opened() <= number => {
                self.is_moved = true;
                Ok(())
            }
            None if self.is_listed(number) => self.read_again(number),
            None => {
                self.is_stale = true;
                Ok(())
            }
        }
    }

    /// Whether the document with a number is below one of the client's folders.
    pub(crate) fn is_in_folder(&self, number: usize) -> bool {
        let name = self.workspace.name(number);
        self.folders
            .iter()
            .any(|folder| below(folder.as_str(), name).is_some())
    }

    // Reads the file of the document with a number again. Where it isn't there, all are listed again.
    fn read_again(&mut self, number: usize) -> Result<(), AllocError> {
        let alloc = self.alloc();
        let Some(document) = self.workspace.documents().get(number) else {
            return Ok(());
        };
        let (name, format) = (document.name.as_str(), document.text.format);
        match fs::read_to_string(self.rt, name) {
            Ok(text) if text.as_str() == document.text.text.as_str() => Ok(()),
            Ok(text) => {
                let text = ref_files::DocumentText::of_bytes(alloc, format, text.as_bytes())?;
                self.workspace.replace(number, text);
                self.summaries.note(number)?;
                self.is_moved = true;
                Ok(())
            }
            Err(error) => {
                drop(error);
                self.is_stale = true;
                Ok(())
            }
        }
    }

    /// `textDocument/didChange`. A change whose range isn't one of the text leaves it as it is.
    pub(crate) fn did_change(&mut self, params: &Value) -> Result<(), AllocError> {
        let Some(place) = text_at(params, "/textDocument/uri").and_then(|uri| self.open_at(uri))
        else {
            return Ok(());
        };
        let Some(changes) = params.get("contentChanges").and_then(Value::as_array) else {
            return Ok(());
        };
        for change in changes {
            self.change(place, change)?;
        }
        let number = self.open.get(place).and_then(|open| open.number);
        match number {
            Some(number) => self.put(place, number),
            None => self.place(place),
        }
    }

    fn change(&mut self, place: usize, change: &Value) -> Result<(), AllocError> {
        let alloc = self.alloc();
        let encoding = self.encoding;
        match self.open.get_mut(place) {
            Some(open) => open.take_change(alloc, change, encoding),
            None => Ok(()),
        }
    }

    /// `workspace/didChangeWatchedFiles`.
    pub(crate) fn did_change_files(&mut self, params: &Value) -> Result<(), AllocError> {
        let Some(changes) = params.get("changes").and_then(Value::as_array) else {
            return Ok(());
        };
        for change in changes {
            self.file_changed(change)?;
        }
        Ok(())
    }

    /// `textDocument/didSave`: a configuration is read again.
    pub(crate) fn did_save(&mut self, params: &Value) -> Result<(), AllocError> {
        if let Some(uri) = text_at(params, "/textDocument/uri") {
            if self.is_configuration(uri)? {
                self.is_reset = true;
            }
        }
        Ok(())
    }

    // A file came (1), changed (2) or went (3).
    fn file_changed(&mut self, change: &Value) -> Result<(), AllocError> {
        let Some(uri) = text_at(change, "/uri") else {
            return Ok(());
        };
        if self.is_configuration(uri)? {
            self.is_reset = true;
            return Ok(());
        }
        let is_changed = number_at(change, "/type") == Some(2);
        let Some(path) = path_of(self.alloc(), uri)? else {
            return Ok(());
        };
        match self.find(path.as_str())? {
            Some(number) if is_changed && number < self.workspace.opened() => {
                if self.open.iter().any(|open| open.number == Some(number)) {
                    return Ok(());
                }
                self.read_again(number)
            }
            _ => {
                self.is_stale = true;
                Ok(())
            }
        }
    }

    /// `workspace/didChangeWorkspaceFolders`. Where another one is the first then, its configuration is read.
    pub(crate) fn did_change_folders(&mut self, params: &Value) -> Result<(), AllocError> {
        let first = match self.folders.first() {
            Some(folder) => folder.clone()?,
            None => String::new(self.alloc()),
        };
        self.change_folders(params)?;
        if !self.is_first(first.as_str()) {
            self.is_reset = true;
        }
        Ok(())
    }

    // Whether the first folder has a path: an empty one where there is none.
    fn is_first(&self, path: &str) -> bool {
        match self.folders.first() {
            Some(folder) => folder.as_str() == path,
            None => path.is_empty(),
        }
    }

    fn change_folders(&mut self, params: &Value) -> Result<(), AllocError> {
        if let Some(removed) = params.pointer("/event/removed").and_then(Value::as_array) {
            for folder in removed {
                self.remove_folder(folder)?;
            }
        }
        if let Some(added) = params.pointer("/event/added").and_then(Value::as_array) {
            for folder in added {
                if let Some(uri) = text_at(folder, "/uri") {
                    self.add_folder(uri)?;
                }
            }
        }
        Ok(())
    }

    fn remove_folder(&mut self, folder: &Value) -> Result<(), AllocError> {
        let Some(uri) = text_at(folder, "/uri") else {
            return Ok(());
        };
        if let Some(path) = path_of(self.alloc(), uri)? {
            self.folders
                .retain(|folder| folder.as_str() != path.as_str());
            self.is_stale = true;
        }
        Ok(())
    }

    /// Adds a folder, by its URI.
    pub(crate) fn add_folder(&mut self, uri: &str) -> Result<(), AllocError> {
        if let Some(path) = path_of(self.alloc(), uri)? {
            if !self
                .folders
                .iter()
                .any(|folder| folder.as_str() == path.as_str())
            {
                self.folders.push(path)?;
            }
            self.is_stale = true;
        }
        Ok(())
    }
}

impl OpenText {
    /// Takes in a change. Where it is refused, or memory runs out, the text stays as it was.
    pub fn take_change(
        &mut self,
        alloc: Global,
        change: &Value,
        encoding: Encoding,
    ) -> Result<(), AllocError>
        ensures changed { IfOk result (λ _. (made : Option (List ℕ))
            × spec.IsChanged encoding (string_bytes self.old.text) (view change.now) made
            × (string_bytes self.new.text
            ≡ spec.after_change self.old.format encoding (string_bytes self.old.text) made)) }
        ensures failed { OnErr result (self.new.text ≡ self.old.text) }
    {
        if let Some(text) = with_change(alloc, self.text.as_str(), change, encoding)? {
            self.text = unmarked(alloc, text, self.format, encoding)?;
        }
        Ok(())
    }
}

// A text with a change of the protocol: all of it, or what is in a range. Nothing where the change is refused.
fn with_change(
    alloc: Global,
    text: &str,
    change: &Value,
    encoding: Encoding,
) -> Result<Option<String>, AllocError>
    ensures { IfOk result
        (λ made. spec.IsChanged encoding text.now (view change.now) (option_map string_bytes made)) }
{
    let Some(new) = text_at(change, "/text") else {
        return Ok(None);
    };
    let Some(range) = change.get("range") else {
        return Ok(Some(String::from_str(alloc, new)?));
    };
    let (Some(start), Some(end)) = (
        offset_in(text, range, "/start", encoding),
        offset_in(text, range, "/end", encoding),
    ) else {
        return Ok(None);
    };
    changed(alloc, text, start, end, new)
}

/// The offset of the place at a pointer of a value.
pub fn offset_in(text: &str, value: &Value, pointer: &str, encoding: Encoding) -> Option<usize>
    ensures value { result ≡ spec.offset_in encoding text.now pointer.now (view value.now) }
    ensures within { IfSome result (λ offset. offset ≤ length text.now) }
{
    let place = value.pointer(pointer)?;
    let line = number_at(place, "/line")?;
    let units = number_at(place, "/character")?;
    Some(offset_at(text, line, units, encoding))
}

// A turn, and the place of the open text that was put at it.
type Put = (usize, usize);

/// Which of some open texts counts for the document with a number: of those that are its text, the one that was put last.
#[tactic(auto, using(crate::proofs::Turns::later_later))]
pub fn last_put(texts: &[OpenText], number: usize) -> Option<usize>
    ensures value { result ≡ turns.last_put number texts.now }
{
    let mut rest = texts;
    let mut place: usize = 0;
    let mut found: Option<Put> = None;
    'texts: while let [text, more @ ..] = rest {
        found = later(found, put_at(text, number, place));
        place += 1;
        rest = more;
    }
    match found {
        Some((_, place)) => Some(place),
        None => None,
    }
}

// The turn and the place of an open text, where it is that of the document with a number.
fn put_at(text: &OpenText, number: usize, place: usize) -> Option<Put>
    ensures { result ≡ turns.put_at number place text.now }
{
    if text.number == Some(number) {
        Some((text.turn, place))
    } else {
        None
    }
}

// Which of two texts was put later; the second one, where both have one turn.
fn later(first: Option<Put>, second: Option<Put>) -> Option<Put>
    ensures { result ≡ turns.later first second }
{
    match (first, second) {
        (Some((turn, place)), Some((next, _))) if next < turn => Some((turn, place)),
        (Some(first), None) => Some(first),
        (_, second) => second,
    }
}
