//! Which methods there are, and when each is due.
ghost use Rattle.std.specs.Prelude.{◌≡◌};
ghost use Rattle.ref_protocol.specs.Methods as spec;

use crate::refusal::Refusal;

/// The methods of the protocol that a client calls and the server has.
#[derive(Clone, Copy, Debug, Drop, PartialEq, Eq)]
pub enum Method {
    /// `initialize`: the client begins, and says what it can.
    Initialize,
    /// `initialized`: it has taken in what the server can.
    Initialized,
    /// `textDocument/didOpen`: it opened a text.
    DidOpen,
    /// `textDocument/didChange`: it changed a text that is open.
    DidChange,
    /// `textDocument/didSave`: it saved one.
    DidSave,
    /// `textDocument/didClose`: it closed one.
    DidClose,
    /// `workspace/didChangeWatchedFiles`: files came, changed or went.
    DidChangeFiles,
    /// `workspace/didChangeWorkspaceFolders`: folders came or went.
    DidChangeFolders,
    /// `textDocument/definition`: where a reference leads.
    Definition,
    /// `textDocument/references`: which texts lead to a place.
    References,
    /// `textDocument/hover`: what is said of a place.
    Hover,
    /// `textDocument/documentLink`: the references of a document.
    DocumentLink,
    /// `textDocument/completion`: what may be written in a reference.
    Completion,
    /// `textDocument/prepareRename`: what may be renamed at a place.
    PrepareRename,
    /// `textDocument/rename`: what is changed where that gets another name.
    Rename,
    /// `workspace/willRenameFiles`: what is changed where files or folders get other paths.
    WillRenameFiles,
    /// `textDocument/codeAction`: what mends something.
    CodeAction,
    /// `textDocument/diagnostic`: what is wrong with a document.
    Diagnostic,
    /// `textDocument/documentSymbol`: the objects of a document.
    DocumentSymbol,
    /// `workspace/symbol`: definitions and components by name.
    WorkspaceSymbol,
    /// `shutdown`: the server is to answer nothing more.
    Shutdown,
    /// `exit`: it is to end.
    Exit,
}

/// The method with a name.
pub fn method_named(name: &str) -> Option<Method>
    ensures value { result ≡ spec.method_named name.now }
{
    match name {
        "initialize" => Some(Method::Initialize),
        "initialized" => Some(Method::Initialized),
        "textDocument/didOpen" => Some(Method::DidOpen),
        "textDocument/didChange" => Some(Method::DidChange),
        "textDocument/didSave" => Some(Method::DidSave),
        "textDocument/didClose" => Some(Method::DidClose),
        "workspace/didChangeWatchedFiles" => Some(Method::DidChangeFiles),
        "workspace/didChangeWorkspaceFolders" => Some(Method::DidChangeFolders),
        "textDocument/definition" => Some(Method::Definition),
        "textDocument/references" => Some(Method::References),
        "textDocument/hover" => Some(Method::Hover),
        "textDocument/documentLink" => Some(Method::DocumentLink),
        "textDocument/completion" => Some(Method::Completion),
        "textDocument/prepareRename" => Some(Method::PrepareRename),
        "textDocument/rename" => Some(Method::Rename),
        "workspace/willRenameFiles" => Some(Method::WillRenameFiles),
        "textDocument/codeAction" => Some(Method::CodeAction),
        "textDocument/diagnostic" => Some(Method::Diagnostic),
        "textDocument/documentSymbol" => Some(Method::DocumentSymbol),
        "workspace/symbol" => Some(Method::WorkspaceSymbol),
        "shutdown" => Some(Method::Shutdown),
        "exit" => Some(Method::Exit),
        _ => None,
    }
}

/// Whether a method is one of a notification, which gets no answer, and not of a request.
pub fn is_notification(method: Method) -> bool
    ensures value { result ≡ spec.is_notification method }
{
    matches!(
        method,
        Method::Initialized
            | Method::DidOpen
            | Method::DidChange
            | Method::DidSave
            | Method::DidClose
            | Method::DidChangeFiles
            | Method::DidChangeFolders
            | Method::Exit
    )
}

/// How far the server is.
#[derive(Clone, Copy, Debug, Drop, PartialEq, Eq)]
pub enum Phase {
    /// Nothing was initialized yet.
    New,
    /// It serves.
    Running,
    /// It was shut down.
    ShutDown,
}

/// What is to be done with a call.
#[derive(Clone, Copy, Debug, Drop, PartialEq, Eq)]
pub enum Due {
    /// It is passed over.
    Pass,
    /// It is refused.
    Refuse(Refusal),
    /// It is answered, or its notification taken in.
    Do(Method),
}

// Why a method comes before or after its time.
fn untimely(phase: Phase, method: Option<Method>) -> Option<Refusal>
    ensures { result ≡ spec.untimely phase method }
{
    match (phase, method) {
        (_, Some(Method::Exit)) => None,
        (Phase::New, Some(Method::Initialize)) => None,
        (Phase::New, _) => Some(Refusal::NotInitialized),
        (Phase::Running, Some(Method::Initialize)) => Some(Refusal::NoRequest),
        (Phase::Running, _) => None,
        (Phase::ShutDown, _) => Some(Refusal::AfterShutdown),
    }
}

// What is done with a call that gets no result: a notification gets no answer at all.
fn refused(is_request: bool, refusal: Refusal) -> Due
    ensures { result ≡ spec.refused is_request refusal }
{
    if is_request {
        Due::Refuse(refusal)
    } else {
        Due::Pass
    }
}

/// What is to be done with a call of a method, or of one that isn't there: a request before `initialize` and after `shutdown` is refused,
/// so is a second `initialize`, a method that isn't there, and a notification that is called as a request. No notification is.
#[tactic(auto, unfolding(crate::specs::Methods::due_for))]
pub fn due_for(phase: Phase, method: Option<Method>, is_request: bool) -> Due
    ensures value { result ≡ spec.due_for phase method is_request }
{
    if let Some(refusal) = untimely(phase, method) {
        return refused(is_request, refusal);
    }
    match method {
        Some(method) if is_notification(method) == is_request => {
            refused(is_request, Refusal::NoRequest)
        }
        Some(method) => Due::Do(method),
        None => refused(is_request, Refusal::NoMethod),
    }
}
