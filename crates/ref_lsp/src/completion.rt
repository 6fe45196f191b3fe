//! What may be written in a reference.
ghost use Rattle.std.specs.Prelude.{◌≡◌, ◌≤◌, ◌++◌, IfOk, OnOk, length, option_map, string_bytes};
ghost use Rattle.std.specs.List.{list_any};
ghost use Rattle.ref_lsp.specs.Keys as keys;
ghost use Rattle.ref_lsp.specs.Kinds as kinds;
ghost use Rattle.ref_lsp.specs.Relative as spec;

use crate::asked::{Asked, written_place};
use crate::definition::{followed, number_of};
use crate::desk::Desk;
use crate::judged::range_of;
use crate::keys::{is_key, key_before, key_of};
use crate::kinds::{DEFINITIONS, has_anchors, is_in_group, wanted_at};
use crate::ranges::{Edits, edits_at};
use crate::workspace_symbols::definitions_in;
use ref_descriptions::Kind;
use ref_files::{Format, folder_of, last_name};
use ref_fixes::{as_fragment, written};
use ref_positions::Step;
use ref_protocol::pieces::{push_comma, push_range, push_text, quoted};
use ref_protocol::refusal::Refusal;
use ref_workspace::View;
use ref_workspace::follow::{Found, Start};
use serde_json::Value;
use std::alloc::{AllocError, Global};
use std::collections::BTreeSet;

// The dialects that a `$schema` may name.
const DIALECTS: [&str; 5] = [
    "https://json-schema.org/draft/2020-12/schema",
    "https://json-schema.org/draft/2019-09/schema",
    "http://json-schema.org/draft-07/schema#",
    "http://json-schema.org/draft-06/schema#",
    "http://json-schema.org/draft-04/schema#",
];

// What is listed.
#[derive(Drop)]
struct Items<'d> {
    desk: &'d Desk<'d>,
    out: String,
    // What is replaced, and the edit of an item up to its new text, with the quote before this.
    token: String,
    edit: String,
    // What comes after the new text: the edits that take away what the token has on other lines.
    rest: String,
    // Whether the token begins on a line before.
    is_apart: bool,
    format: Format,
    // The kind of the object that is wanted, where it is known.
    wanted: Option<Kind>,
}

// The kinds of items in the protocol: a value, a file and a reference.
const VALUE: &str = "12";

const FILE: &str = "17";

const REFERENCE: &str = "18";

/// `textDocument/completion`: in a `$schema` the dialects of the drafts and those whose meta-schemas are among the documents, in a `$recursiveRef` the one text that it may have; in another reference, before a `#`, the documents
/// and the places of the document itself, and after it the places of the document that is named, or of the schema in it that has an identifier of its own and is
/// named. One look-up, and one for each name of an anchor. The reference may lack its last quote, and in YAML it may be but its keyword.
pub fn completion(desk: &Desk<'_>, view: &View<'_, '_>, params: &Value) -> Result<String, Refusal> {
    let alloc = desk.alloc();
    let mut out = String::from_str(alloc, "[")?;
    if let Some(asked) = written_place(desk, params)? {
        if asked.is_referring(desk) && asked.part.as_ref().is_some_and(|part| !part.is_key) {
            out = listed(desk, view, &asked)?;
        }
    }
    out.push(']')?;
    Ok(out)
}

fn listed(desk: &Desk<'_>, view: &View<'_, '_>, asked: &Asked) -> Result<String, AllocError> {
    let alloc = desk.alloc();
    let (format, text) = desk.text_of(asked.number);
    let (start, end) = match &asked.part {
        Some(part) => (part.start, part.end),
        None => (asked.offset, asked.offset),
    };
    let token = text.get(start..end).unwrap_or("");
    let lead = lead_of(format, text.get(..start).unwrap_or(""), token);
    let before = asked.before(desk);
    let edits = edits_at(text, start, end, asked.offset);
    let mut items = Items {
        desk,
        out: String::from_str(alloc, "[")?,
        token: String::from_str(alloc, token)?,
        edit: edit_of(alloc, desk, (text, edits), lead)?,
        rest: rest_of(alloc, desk, text, edits)?,
        is_apart: edits.from < edits.start,
        format,
        wanted: wanted_at(alloc, view, asked)?,
    };
    if asked.is_under("$schema") {
        items.push_dialects()?;
    } else if asked.is_under("$recursiveRef") {
        items.push("#", VALUE)?;
    } else {
        match before.split_once('#') {
            Some((front, _)) => items.push_places(view, asked, front)?,
            None => items.push_both(view, asked)?,
        }
    }
    Ok(items.out)
}

// What is needed between a text and a scalar that comes in place of a token after it: a blank after a colon of YAML.
fn lead_of(format: Format, before: &str, token: &str) -> &'static str
    ensures { result.now ≡ keys.lead_of format before.now token.now }
{
    if format == Format::Yaml && token.is_empty() && before.as_bytes().ends_with(b":") {
        " "
    } else {
        ""
    }
}

// The edit of an item up to its new text, with the quote before this and what it begins with.
fn edit_of(
    alloc: Global,
    desk: &Desk<'_>,
    (text, edits): (&str, Edits),
    lead: &str,
) -> Result<String, AllocError> {
    let mut edit = String::new(alloc);
    let range = range_of(desk, text, edits.start, edits.end);
    push_range(&mut edit, ",\"textEdit\":{\"range\":", range)?;
    edit.push_str(",\"newText\":\"")?;
    edit.push_str(lead)?;
    Ok(edit)
}

// What ends an item: the edits that take away what the token has before its line and after it.
fn rest_of(alloc: Global, desk: &Desk<'_>, text: &str, edits: Edits) -> Result<String, AllocError> {
    let mut out = String::from_str(alloc, "}")?;
    if edits.from < edits.start || edits.end < edits.to {
        out.push_str(",\"additionalTextEdits\":[")?;
        push_cut(desk, &mut out, text, (edits.from, edits.start))?;
        push_cut(desk, &mut out, text, (edits.end, edits.to))?;
        out.push(']')?;
    }
    out.push('}')?;
    Ok(out)
}

// Adds the edit that takes away what is between two offsets, where something is.
fn push_cut(
    desk: &Desk<'_>,
    out: &mut String,
    text: &str,
    (from, to): (usize, usize),
) -> Result<(), AllocError> {
    if from < to {
        push_comma(out)?;
        push_range(out, "{\"range\":", range_of(desk, text, from, to))?;
        out.push_str(",\"newText\":\"\"}")?;
    }
    Ok(())
}

impl Items<'_> {
    // Adds a text, with its kind in the protocol. What items have in common is made once, since there may be one for each document.
    fn push(&mut self, text: &str, kind: &str) -> Result<(), AllocError> {
        let alloc = self.desk.alloc();
        let new = written(alloc, self.format, self.token.as_str(), text)?;
        let new = quoted(alloc, new.as_str())?;
        push_comma(&mut self.out)?;
        push_text(alloc, &mut self.out, "{\"label\":", text)?;
        self.out.push_str(",\"kind\":")?;
        self.out.push_str(kind)?;
        if self.is_apart {
            push_text(alloc, &mut self.out, ",\"filterText\":", text)?;
        } else {
            self.out.push_str(",\"filterText\":")?;
            self.out.push_str(new.as_str())?;
        }
        self.out.push_str(self.edit.as_str())?;
        self.out
            .push_str(new.as_str().strip_prefix('"').unwrap_or(""))?;
        self.out.push_str(self.rest.as_str())
    }

    // Adds the dialects of the drafts, and those whose meta-schemas are among the documents.
    fn push_dialects(&mut self) -> Result<(), AllocError> {
        for dialect in DIALECTS {
            self.push(dialect, VALUE)?;
        }
        let desk = self.desk;
        for number in 0..desk.workspace.len() {
            match desk.workspace.value(number).and_then(dialect_of) {
                Some(own) if !DIALECTS.contains(&own) => self.push(own, VALUE)?,
                _ => {}
            }
        }
        Ok(())
    }

    // Adds the documents by their relative paths, and the places of the document itself. A file that is only named by the URI of its file, as from
    // an identifier elsewhere, isn't one to refer to.
    fn push_both(&mut self, view: &View<'_, '_>, asked: &Asked) -> Result<(), AllocError> {
        self.push_places(view, asked, "")?;
        let workspace = view.workspace;
        let Some(base) = view.base_at(self.desk.alloc(), start_of(asked))? else {
            return Ok(());
        };
        for number in 0..workspace.opened() {
            if number != asked.number {
                if let Some(uri) = workspace.uri(number) {
                    let relative = relative(self.desk.alloc(), base.as_str(), uri.as_str())?;
                    if is_near(relative.as_str()) {
                        self.push(relative.as_str(), FILE)?;
                    }
                }
            }
        }
        Ok(())
    }

    // Adds the places of what a text names: it leads to that with an empty fragment, and with a pointer to what is there in that.
    fn push_places(
        &mut self,
        view: &View<'_, '_>,
        asked: &Asked,
        front: &str,
    ) -> Result<(), AllocError> {
        let alloc = self.desk.alloc();
        let whole = format!(in alloc; "{front}#")?;
        let Some(found) = followed(alloc, view, start_of(asked), whole.as_str())? else {
            return Ok(());
        };
        for pointer in definitions_in(alloc, found.value)? {
            let is_one = is_offered(self.wanted, asked.path(), pointer.as_str());
            if is_one && is_within(alloc, view, &found, pointer.as_str())? {
                let fragment = as_fragment(alloc, pointer.as_str())?;
                let text = format!(in alloc; "{front}#{fragment}")?;
                self.push(text.as_str(), REFERENCE)?;
            }
        }
        if !has_anchors(self.wanted) {
            return Ok(());
        }
        for anchor in anchors_in(alloc, found.value)? {
            let text = format!(in alloc; "{front}#{anchor}")?;
            self.push_anchor(view, asked, text.as_str(), found.document)?;
        }
        Ok(())
    }

    // Adds a text, where it leads into a document.
    fn push_anchor(
        &mut self,
        view: &View<'_, '_>,
        asked: &Asked,
        text: &str,
        document: usize,
    ) -> Result<(), AllocError> {
        match followed(self.desk.alloc(), view, start_of(asked), text)? {
            Some(found) if found.document == document => self.push(text, REFERENCE),
            _ => Ok(()),
        }
    }
}

// Whether what has a definition, at a pointer in what was found, has the base that this has: what is in a schema with an identifier of its own is
// named by that.
fn is_within(
    alloc: Global,
    view: &View<'_, '_>,
    found: &Found<'_>,
    pointer: &str,
) -> Result<bool, AllocError> {
    let around = folder_of(folder_of(pointer));
    if around.is_empty() || around == "/components" {
        return Ok(true);
    }
    let Some(number) = number_of(view, found) else {
        return Ok(true);
    };
    let whole = found.pointer.as_str();
    let inner = format!(in alloc; "{whole}{around}")?;
    let own = view.base_at(
        alloc,
        Start {
            number,
            pointer: whole,
        },
    )?;
    let other = view.base_at(
        alloc,
        Start {
            number,
            pointer: inner.as_str(),
        },
    )?;
    Ok(match (own, other) {
        (Some(own), Some(other)) => own.as_str() == other.as_str(),
        _ => true,
    })
}

// The identifier of a meta-schema that has vocabularies, where it is no reference relative to a base, which a `$schema` can't be (2020-12 Core, 8.1.1).
fn dialect_of(root: &Value) -> Option<&str> {
    let id = root.get("$id").and_then(Value::as_str)?;
    if has_colon(id.as_bytes()) && root.get("$vocabulary").is_some() {
        Some(id)
    } else {
        None
    }
}

fn start_of(asked: &Asked) -> Start<'_> {
    Start {
        number: asked.number,
        pointer: asked.pointer.as_str(),
    }
}

// The groups of components whose members aren't schemas. The object that refers to one is a member or an item of what has the same name.
const GROUPS: [&str; 8] = [
    "callbacks",
    "examples",
    "headers",
    "links",
    "parameters",
    "requestBodies",
    "responses",
    "securitySchemes",
];

// The members whose values are path items.
const PATH_ITEMS: [&str; 3] = ["paths", "webhooks", "pathItems"];

// The group of the components that the reference at a path needs: nothing where it needs an operation.
fn needed_at(path: &[Step]) -> Option<&str>
    ensures { option_map (λ group. group.now) result ≡ keys.needed path.now }
{
    if is_key(key_before(path, 0), "operationRef") {
        None
    } else if is_in_schema(path) {
        Some("schemas")
    } else if is_key(key_before(path, 1), "requestBody") {
        Some("requestBodies")
    } else if is_path_item(path) {
        Some("pathItems")
    } else {
        Some(group_named(key_before(path, 2)))
    }
}

// Whether a path is in a schema of a description.
fn is_in_schema(path: &[Step]) -> bool
    ensures { result ≡ keys.is_in_schema path.now }
{
    if path.len() < 2 {
        return false;
    }
    has_schemas(&path[..path.len() - 1]) || is_key(key_of(&path[0]), "definitions")
}

// Whether one of some steps is to schemas of a description.
fn has_schemas(steps: &[Step]) -> bool
    ensures { result ≡ list_any keys.has_schemas steps.now }
{
    let mut rest = steps;
    'steps: while let [step, more @ ..] = rest {
        let key = key_of(step);
        if is_key(key, "schema") || is_key(key, "schemas") {
            return true;
        }
        rest = more;
    }
    false
}

// Whether the object that has the last key of a path is a path item: in a callback they are by their expressions.
fn is_path_item(path: &[Step]) -> bool
    ensures { result ≡ keys.is_path_item path.now }
{
    match key_before(path, 2) {
        Some(name) if PATH_ITEMS.contains(&name) => true,
        _ => is_key(key_before(path, 3), "callbacks"),
    }
}

// The group of the components that objects are in members of with a name.
fn group_named(name: Option<&str>) -> &str
    ensures { result.now ≡ keys.group_named (option_map (λ own. own.now) name.entry) }
{
    match name {
        Some(name) if GROUPS.contains(&name) => name,
        _ => "schemas",
    }
}

// Whether a component is of the kind that a reference at a path needs. A component that is a schema is needed in another, and
// where no other group is. Definitions are offered anywhere, and what else the root of a description of Swagger has where it is needed.
fn is_of_kind(path: &[Step], component: &str) -> bool
    ensures { result ≡ keys.is_of_kind path.now component.now }
{
    let group = last_name(folder_of(component));
    DEFINITIONS.contains(&group) || is_key(needed_at(path), group)
}

// Whether a component is offered: it is of the kind that is wanted, or where none is known, of that which the keys on the way to the reference say.
fn is_offered(wanted: Option<Kind>, path: &[Step], component: &str) -> bool
    ensures { result ≡ kinds.is_offered wanted path.now component.now }
{
    match wanted {
        Some(kind) => is_in_group(kind, last_name(folder_of(component))),
        None => is_of_kind(path, component),
    }
}

// The names that may be those of anchors of a value, each once.
fn anchors_in<'v>(alloc: Global, root: &'v Value) -> Result<Vec<&'v str>, AllocError> {
    let mut names = Vec::new(alloc);
    let mut seen = BTreeSet::new(alloc);
    let mut waiting = Vec::new(alloc);
    waiting.push(root)?;
    for _ in 0..u64::MAX {
        let Some(value) = waiting.pop() else {
            break;
        };
        for key in ["$anchor", "$dynamicAnchor", "$id", "id"] {
            if let Some(name) = value.get(key).and_then(|text| anchor_under(key, text)) {
                if seen.insert(name)? {
                    names.push(name)?;
                }
            }
        }
        push_below(&mut waiting, value)?;
    }
    Ok(names)
}

// The name that a value under a key may give: up to Draft 7 an identifier of a fragment alone is an anchor.
fn anchor_under<'v>(key: &str, value: &'v Value) -> Option<&'v str> {
    let text = value.as_str()?;
    if key.ends_with("id") {
        text.strip_prefix('#')
    } else {
        Some(text)
    }
}

/// Adds the values that are in one.
pub fn push_below<'v>(waiting: &mut Vec<&'v Value>, value: &'v Value) -> Result<(), AllocError> {
    match value {
        Value::Object(members) => {
            for (_, member) in members {
                waiting.push(member)?;
            }
        }
        Value::Array(items) => {
            for item in items {
                waiting.push(item)?;
            }
        }
        _ => {}
    }
    Ok(())
}

// A URI from a base, by as many steps up as are needed where both have their scheme and host in common, and else as it is.
fn relative(alloc: Global, base: &str, uri: &str) -> Result<String, AllocError>
    ensures { IfOk result (λ text. string_bytes text ≡ spec.relative base.now uri.now) }
{
    let base = without_query(base).as_bytes();
    let start = shared(base, uri.as_bytes());
    if slashes(&base[..start]) < 3 {
        return String::from_str(alloc, uri);
    }
    after_ups(alloc, slashes(&base[start..]), &uri[start..])
}

// Whether a reference to a file is by its path, and not by the URI of the file.
fn is_near(reference: &str) -> bool
    ensures { result ≡ spec.is_near reference.now }
{
    !reference.starts_with("file:")
}

// A path after so many steps up: where there is none, in a form in which it means a path.
fn after_ups(alloc: Global, count: usize, path: &str) -> Result<String, AllocError>
    ensures { IfOk result (λ text. string_bytes text ≡ spec.after_ups count path.now) }
{
    let mut text = String::new(alloc);
    if count == 0 && is_misread(path.as_bytes()) {
        text.push_str("./")?;
    }
    push_ups(&mut text, count)?;
    text.push_str(path)?;
    Ok(text)
}

// A base without its query, which counts for no reference to a path.
fn without_query(base: &str) -> &str
    ensures { result.now ≡ spec.without_query base.now }
{
    match base.split_once('?') {
        Some((front, _)) => front,
        None => base,
    }
}

// How many bytes the folders have that two URIs are both in: up to the last slash before which they are the same.
#[tactic(auto, using(crate::proofs::Folders::within_base, crate::proofs::Folders::within_uri))]
fn shared(base: &[u8], uri: &[u8]) -> usize
    ensures value { result ≡ spec.shared base.now uri.now }
    ensures within_base { result ≤ length base.now }
    ensures within_uri { result ≤ length uri.now }
{
    let mut left = base;
    let mut right = uri;
    let mut passed: usize = 0;
    let mut start: usize = 0;
    'bytes: while let [byte, more @ ..] = left {
        match right {
            [other, others @ ..] if byte == other => {
                passed += 1;
                if *byte == b'/' {
                    start = passed;
                }
                left = more;
                right = others;
            }
            _ => return start,
        }
    }
    start
}

// How many slashes are in bytes.
fn slashes(bytes: &[u8]) -> usize
    ensures value { result ≡ spec.slashes bytes.now }
{
    let mut rest = bytes;
    let mut count: usize = 0;
    'bytes: while let [byte, more @ ..] = rest {
        if *byte == b'/' {
            count += 1;
        }
        rest = more;
    }
    count
}

// Adds so many steps up.
fn push_ups(text: &mut String, count: usize) -> Result<(), AllocError>
    ensures { OnOk result (string_bytes text.new ≡ string_bytes text.old ++ spec.ups count) }
{
    let mut left = count;
    'ups: while 0 < left {
        text.push_str("../")?;
        left -= 1;
    }
    Ok(())
}

// Whether a colon comes before a slash and a question mark.
fn has_colon(bytes: &[u8]) -> bool
    ensures { result ≡ spec.has_colon bytes.now }
{
    let mut rest = bytes;
    'bytes: while let [byte, more @ ..] = rest {
        if *byte == b':' {
            return true;
        }
        if *byte == b'/' || *byte == b'?' {
            return false;
        }
        rest = more;
    }
    false
}

// Whether a reference means another URI than a path from the same folder: it is empty, begins with a slash or a question mark, or has a colon in
// its first segment (RFC 3986, 4.2).
fn is_misread(bytes: &[u8]) -> bool
    ensures { result ≡ spec.is_misread bytes.now }
{
    match bytes {
        [] => true,
        [first, ..] => *first == b'/' || *first == b'?' || has_colon(bytes),
    }
}
