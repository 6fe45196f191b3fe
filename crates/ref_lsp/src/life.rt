//! How a client begins and ends.
ghost use Rattle.std.specs.Prelude.{◌≡◌};
ghost use Rattle.serde_json.specs.View.{view, items_view};
ghost use Rattle.ref_lsp.specs.Clients as spec;

use crate::desk::Desk;
use crate::shown::Told;
use ref_files::{file_uri, last_name};
use ref_protocol::encoding::Encoding;
use ref_protocol::methods::Phase;
use ref_protocol::pieces::{push_number, push_text};
use serde_json::Value;
use std::alloc::{AllocError, Global};

/// What the server can, after the encoding of positions.
const CAPABILITIES: &str =
    ",\"textDocumentSync\":{\"openClose\":true,\"change\":2,\"save\":{\"includeText\":false}},\"definitionProvider\":true,\"referencesProvider\":true,\"hoverProvider\":true,\"documentLinkProvider\":{\"resolveProvider\":false},\"documentSymbolProvider\":true,\"workspaceSymbolProvider\":true,\"completionProvider\":{\"triggerCharacters\":[\"\\\"\",\"'\",\"#\",\"/\"],\"resolveProvider\":false},\"renameProvider\":{\"prepareProvider\":true},\"workspace\":{\"workspaceFolders\":{\"supported\":true,\"changeNotifications\":true},\"fileOperations\":{\"willRename\":{\"filters\":[{\"scheme\":\"file\",\"pattern\":{\"glob\":\"**\"}}]}}}";

// And where the client takes changes as literals.
const ACTIONS: &str = ",\"codeActionProvider\":{\"codeActionKinds\":[\"quickfix\"]}";

const PULLED: &str =
    ",\"diagnosticProvider\":{\"identifier\":\"patchsard\",\"interFileDependencies\":true,\"workspaceDiagnostics\":true}";

/// Takes in what a client says of itself, and returns what the server can.
pub fn initialize(
    desk: &mut Desk<'_>,
    told: &mut Told,
    params: &Value,
) -> Result<String, AllocError> {
    desk.encoding = encoding_of(params);
    let has_pull = params
        .pointer("/capabilities/textDocument/diagnostic")
        .is_some();
    let has_push = params
        .pointer("/capabilities/textDocument/publishDiagnostics")
        .is_some();
    told.pulls = has_pull && !has_push;
    let watch = "/capabilities/workspace/didChangeWatchedFiles/dynamicRegistration";
    told.watches = is_said(params, watch);
    told.renewals = None;
    if told.pulls && is_said(params, "/capabilities/workspace/diagnostics/refreshSupport") {
        told.renewals = Some(0);
    }
    desk.is_plain = takes_plain(params);
    desk.takes_related = takes_related(params);
    desk.takes_actions = takes_actions(params);
    add_folders(desk, params)?;
    told.phase = Phase::Running;
    described(desk.alloc(), desk.encoding, told.pulls, desk.takes_actions)
}

/// Whether a client says what it can, as it must.
pub fn has_capabilities(params: &Value) -> bool
    ensures value { result ≡ spec.has_capabilities (view params.now) }
{
    params
        .get("capabilities")
        .and_then(Value::as_object)
        .is_some()
}

// Whether a client takes, with what is wrong, places that have to do with it.
fn takes_related(params: &Value) -> bool
    ensures { result ≡ spec.takes_related (view params.now) }
{
    is_said(
        params,
        "/capabilities/textDocument/publishDiagnostics/relatedInformation",
    )
}

// Whether a client takes changes as literals, and not as commands alone.
fn takes_actions(params: &Value) -> bool
    ensures { result ≡ spec.takes_actions (view params.now) }
{
    params
        .pointer("/capabilities/textDocument/codeAction/codeActionLiteralSupport")
        .and_then(Value::as_object)
        .is_some()
}

// Whether a client says that it can what is at a pointer.
fn is_said(params: &Value, pointer: &str) -> bool
    ensures { result ≡ spec.is_said pointer.now (view params.now) }
{
    params.pointer(pointer).and_then(Value::as_bool) == Some(true)
}

// Whether a client says in which formats it takes what is said of a place, and Markdown is none of them.
fn takes_plain(params: &Value) -> bool
    ensures { result ≡ spec.takes_plain (view params.now) }
{
    let formats = params.pointer("/capabilities/textDocument/hover/contentFormat");
    match formats.and_then(Value::as_array) {
        Some(formats) => !has_markdown(formats.as_slice()),
        None => false,
    }
}

// Whether Markdown is among formats.
fn has_markdown(formats: &[Value]) -> bool
    ensures { result ≡ spec.has_markdown (items_view formats.now) }
{
    let mut rest = formats;
    'formats: while let [format, more @ ..] = rest {
        if format.as_str() == Some("markdown") {
            return true;
        }
        rest = more;
    }
    false
}

// The encoding of positions: the first of the client's that the server has, and UTF-16 where it says none.
fn encoding_of(params: &Value) -> Encoding
    ensures { result ≡ spec.encoding_of (view params.now) }
{
    let names = params.pointer("/capabilities/general/positionEncodings");
    match names.and_then(Value::as_array) {
        Some(names) => first_of(names.as_slice()),
        None => Encoding::Utf16,
    }
}

// The first of those encodings that the server has, and UTF-16 where it has none of them.
fn first_of(names: &[Value]) -> Encoding
    ensures { result ≡ spec.first_of (items_view names.now) }
{
    let mut rest = names;
    'names: while let [name, more @ ..] = rest {
        if let Some(encoding) = encoding_named(name) {
            return encoding;
        }
        rest = more;
    }
    Encoding::Utf16
}

// The encoding that a value names, where the server has it.
fn encoding_named(name: &Value) -> Option<Encoding>
    ensures { result ≡ spec.encoding_named (view name.now) }
{
    Encoding::from_name(name.as_str()?)
}

// Adds the folders of a client: where it names none, its root, by its URI or else by its path.
fn add_folders(desk: &mut Desk<'_>, params: &Value) -> Result<(), AllocError> {
    if let Some(folders) = params.get("workspaceFolders").and_then(Value::as_array) {
        for folder in folders {
            if let Some(uri) = folder.get("uri").and_then(Value::as_str) {
                desk.add_folder(uri)?;
            }
        }
    }
    if !desk.folders.is_empty() {
        return Ok(());
    }
    if let Some(uri) = params.get("rootUri").and_then(Value::as_str) {
        return desk.add_folder(uri);
    }
    match params.get("rootPath").and_then(Value::as_str) {
        Some(path) if path.starts_with('/') => {
            let uri = file_uri(desk.alloc(), path)?;
            desk.add_folder(uri.as_str())
        }
        _ => Ok(()),
    }
}

fn described(
    alloc: Global,
    encoding: Encoding,
    pulls: bool,
    has_actions: bool,
) -> Result<String, AllocError> {
    let mut out = String::new(alloc);
    push_text(
        alloc,
        &mut out,
        "{\"capabilities\":{\"positionEncoding\":",
        encoding.name(),
    )?;
    out.push_str(CAPABILITIES)?;
    if has_actions {
        out.push_str(ACTIONS)?;
    }
    if pulls {
        out.push_str(PULLED)?;
    }
    out.push_str("},\"serverInfo\":{\"name\":\"patchsard\",\"version\":\"0.1.0\"}}")?;
    Ok(out)
}

/// The request that files be watched: those that may be documents, those that say what Git leaves out, and configurations.
pub fn watch(desk: &Desk<'_>) -> Result<String, AllocError> {
    let alloc = desk.alloc();
    let mut out = String::from_str(alloc, WATCH)?;
    if let Some(path) = &desk.settings.configuration {
        let pattern = format!(in alloc; "**/{}", last_name(path.as_str()))?;
        push_text(alloc, &mut out, ",{\"globPattern\":", pattern.as_str())?;
        out.push('}')?;
    }
    out.push_str("]}}]}}")?;
    Ok(out)
}

/// The request that diagnostics be asked for again, as one that was made before a number of times.
pub fn renewal(alloc: Global, number: usize) -> Result<String, AllocError> {
    let mut out = String::new(alloc);
    push_number(&mut out, "{\"jsonrpc\":\"2.0\",\"id\":\"renew-", number)?;
    out.push_str("\",\"method\":\"workspace/diagnostic/refresh\"}")?;
    Ok(out)
}

// Its beginning.
const WATCH: &str =
    "{\"jsonrpc\":\"2.0\",\"id\":\"watch\",\"method\":\"client/registerCapability\",\"params\":{\"registrations\":[{\"id\":\"watch\",\"method\":\"workspace/didChangeWatchedFiles\",\"registerOptions\":{\"watchers\":[{\"globPattern\":\"**/*.{json,yaml,yml}\"},{\"globPattern\":\"**/.gitignore\"},{\"globPattern\":\"**/patchsard.toml\"}";
