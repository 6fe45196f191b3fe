//! The loop that reads frames and answers.
ghost use Rattle.std.specs.Prelude.{◌≡◌};
ghost use Rattle.ref_protocol.specs.Wires.{HasAtMostOne};
ghost use Rattle.serde_json.specs.View.{view};
ghost use Rattle.ref_lsp.specs.Serving as spec;

use crate::actions::actions;
use crate::asked::asked_document;
use crate::completion::completion;
use crate::definition::definition;
use crate::desk::Desk;
use crate::hover::hover;
use crate::life::{has_capabilities, initialize, renewal, watch};
use crate::links::links;
use crate::moved::will_rename;
use crate::references::references;
use crate::rename::{prepare_rename, rename};
use crate::session::Session;
use crate::shown::{Kept, Rules, Shown, Told};
use crate::symbols::symbols;
use crate::workspace_symbols::workspace_symbols;
use ref_error::Error;
use ref_protocol::call::{Kind, kind_of};
use ref_protocol::feed::More;
use ref_protocol::methods::{Due, Method, Phase, due_for};
use ref_protocol::pieces::push_text;
use ref_protocol::refusal::Refusal;
use ref_protocol::sending::Unsent;
use ref_protocol::wire::{Heard, Wire};
use ref_streams::{Sink, Source};
use ref_workspace::View;
use ref_workspace::world::world_among;
use serde_json::Value;
use std::alloc::{AllocError, Global};

/// Why a server ends.
#[derive(Clone, Copy, Debug, Drop, PartialEq, Eq)]
pub enum Ending {
    /// The client said so, or the source ended after a whole frame: whether it had shut the server down before.
    Exit(bool),
    /// The configuration is to be read again, and the session to be gone on with.
    Configure,
    /// What is read is no frame.
    Broken(&'static str),
    /// A read failed.
    Read,
    /// A write failed.
    Write,
    /// Memory ran out.
    Memory,
}

impl From<AllocError> for Ending {
    fn from(_error: AllocError) -> Ending {
        Ending::Memory
    }
}

impl From<Unsent> for Ending {
    fn from(unsent: Unsent) -> Ending {
        match unsent {
            Unsent::Write => Ending::Write,
            Unsent::Memory => Ending::Memory,
        }
    }
}

// A call in its time.
#[derive(Drop)]
struct Call {
    method: Method,
    message: Value,
}

// What the loop goes on with.
#[derive(Drop)]
enum Event {
    // A call that changes something.
    Moves(Call),
    // A request for which what changed is taken in first, or which needs the registry of the documents.
    Asks(Call),
    // What changed is taken in.
    Settles,
    // The end.
    Ends(Ending),
}

/// Reads frames and answers, to the end, or until the configuration is to be read again. Frames that were read together are taken in before
/// the documents are judged.
pub fn serve<R: Source + Drop, W: Sink + Drop>(
    desk: &mut Desk<'_>,
    rules: Rules,
    session: &mut Session,
    wire: &mut Wire<R, W>,
) -> Ending
    ensures at_most_one { HasAtMostOne wire.new }
{
    desk.tell_beside(rules.tells_beside());
    let mut shown = Shown {
        told: Told::new(desk.alloc()),
        rules,
        kept: Kept::new(desk.alloc()),
    };
    session.exchange(desk, &mut shown.told);
    let outcome = served(desk, &mut shown, wire);
    session.exchange(desk, &mut shown.told);
    match outcome {
        Ok(ending) => ending,
        Err(ending) => ending,
    }
}

fn served<R: Source + Drop, W: Sink + Drop>(
    desk: &mut Desk<'_>,
    shown: &mut Shown,
    wire: &mut Wire<R, W>,
) -> Result<Ending, Ending> {
    let mut event = Event::Settles;
    for _ in 0..u64::MAX {
        event = match event {
            Event::Ends(ending) => return Ok(ending),
            Event::Moves(call) => {
                moved(desk, &mut shown.told, wire, call)?;
                after_move(desk, shown, wire)?
            }
            Event::Asks(call) => asked(desk, shown, wire, call)?,
            Event::Settles => {
                desk.settle()?;
                turn(desk, None, None, shown, wire)?
            }
        };
    }
    Ok(Ending::Memory)
}

// Goes on after a change.
fn after_move<R: Source + Drop, W: Sink + Drop>(
    desk: &Desk<'_>,
    shown: &mut Shown,
    wire: &mut Wire<R, W>,
) -> Result<Event, Ending> {
    if desk.is_reset {
        return Ok(Event::Ends(Ending::Configure));
    }
    turn(desk, None, None, shown, wire)
}

// Answers a request, which may need the registry of the documents, and goes on with that until something changes. What changed before it is taken
// in (`settle`), which nothing of the request decides; then the desk is lent to be read alone.
fn asked<R: Source + Drop, W: Sink + Drop>(
    desk: &mut Desk<'_>,
    shown: &mut Shown,
    wire: &mut Wire<R, W>,
    call: Call,
) -> Result<Event, Ending> {
    desk.settle()?;
    if needs_view(call.method) {
        viewing(desk, shown, wire, call)
    } else {
        judged(desk, shown, wire, call)?;
        turn(desk, None, None, shown, wire)
    }
}

// Whether the client's text of the document with a number has a value.
fn has_value(desk: &Desk<'_>, number: Option<usize>) -> bool {
    match number {
        Some(number) => desk.is_sound(number),
        None => true,
    }
}

// Whether a registry that is there for the document with a number, or for all, serves what is asked of one, or of all. Where the client's text
// of the document has no value, what is asked for depends on the place.
fn serves(served: Option<usize>, asked: Option<usize>, has_value: bool) -> bool
    ensures { result ≡ spec.serves served asked has_value }
{
    match (served, asked) {
        (None, _) => true,
        (Some(number), Some(asked)) => number == asked && has_value,
        (Some(_), None) => false,
    }
}

// The number of the document that a request is about, or one that no document has: nothing where it is about all.
fn asked_of(desk: &Desk<'_>, call: &Call) -> Result<Option<usize>, AllocError> {
    let uri = call.message.pointer("/params/textDocument/uri");
    match (call.method, uri.and_then(Value::as_str)) {
        (Method::References | Method::PrepareRename | Method::Rename, _) | (_, None) => Ok(None),
        (_, Some(uri)) => Ok(Some(desk.number_of(uri)?.unwrap_or(usize::MAX))),
    }
}

// Makes the registry of the documents that a request may ask for, answers it by that, and goes on with it.
fn viewing<R: Source + Drop, W: Sink + Drop>(
    desk: &Desk<'_>,
    shown: &mut Shown,
    wire: &mut Wire<R, W>,
    call: Call,
) -> Result<Event, Ending> {
    let alloc = desk.alloc();
    let asked = asked_of(desk, &call)?;
    let there = match asked {
        Some(number) => {
            let may_be_led = shown.kept.may_be_led();
            desk.looked_at(number, call.message.get("params"), may_be_led)?
        }
        None => Vec::new(alloc),
    };
    let trees = desk.workspace.mended_among(alloc, there.as_slice())?;
    match world_among(alloc, &desk.workspace, trees.as_slice(), there.as_slice()) {
        Ok(world) => {
            let view = View::of(alloc, &desk.workspace, &world)?;
            let served = if there.is_empty() { None } else { asked };
            by_world(desk, &view, served, shown, wire, call)
        }
        Err(error) => {
            drop_error(error);
            wire.answer(alloc, Err(Refusal::Memory))?;
            turn(desk, None, None, shown, wire)
        }
    }
}

// Answers a request by the registry of the documents, and goes on with it.
fn by_world<R: Source + Drop, W: Sink + Drop>(
    desk: &Desk<'_>,
    view: &View<'_, '_>,
    served: Option<usize>,
    shown: &mut Shown,
    wire: &mut Wire<R, W>,
    call: Call,
) -> Result<Event, Ending> {
    viewed(desk, view, wire, call)?;
    turn(desk, Some(view), served, shown, wire)
}

fn drop_error(error: Error) {
    drop(error);
}

// Answers what changes nothing, until something does or, where there is no registry, one is needed.
fn turn<R: Source + Drop, W: Sink + Drop>(
    desk: &Desk<'_>,
    view: Option<&View<'_, '_>>,
    served: Option<usize>,
    shown: &mut Shown,
    wire: &mut Wire<R, W>,
) -> Result<Event, Ending> {
    let alloc = desk.alloc();
    for _ in 0..u64::MAX {
        match wire.next(alloc)? {
            Heard::Frame(message) => {
                if let Some(event) = taken(desk, view, served, shown, wire, message)? {
                    return Ok(event);
                }
            }
            Heard::Broken(why) => return Ok(Event::Ends(Ending::Broken(why))),
            Heard::Wait => {
                if let Some(event) = waited(desk, shown, wire)? {
                    return Ok(event);
                }
            }
        }
    }
    Ok(Event::Ends(Ending::Memory))
}

// Takes in what changed, judges the documents, and reads more.
fn waited<R: Source + Drop, W: Sink + Drop>(
    desk: &Desk<'_>,
    shown: &mut Shown,
    wire: &mut Wire<R, W>,
) -> Result<Option<Event>, Ending> {
    if desk.is_moved || desk.is_stale {
        return Ok(Some(Event::Settles));
    }
    shown.refresh(desk, wire)?;
    match wire.fill(desk.alloc())? {
        More::Bytes => Ok(None),
        More::End => Ok(Some(Event::Ends(ended(shown.told.phase)))),
        More::Cut => Ok(Some(Event::Ends(Ending::Broken("the input ends in a frame")))),
        More::Failed => Ok(Some(Event::Ends(Ending::Read))),
    }
}

fn ended(phase: Phase) -> Ending {
    Ending::Exit(was_shut_down(phase))
}

// Whether a server was shut down before it ends.
fn was_shut_down(phase: Phase) -> bool
    ensures { result ≡ spec.was_shut_down phase }
{
    phase == Phase::ShutDown
}

// Takes the content of a frame: answers it, or returns what is to be done with it.
fn taken<R: Source + Drop, W: Sink + Drop>(
    desk: &Desk<'_>,
    view: Option<&View<'_, '_>>,
    served: Option<usize>,
    shown: &mut Shown,
    wire: &mut Wire<R, W>,
    message: Option<Value>,
) -> Result<Option<Event>, Ending> {
    let alloc = desk.alloc();
    let Some(message) = message else {
        wire.answer(alloc, Err(Refusal::NoJson))?;
        return Ok(None);
    };
    match kind_of(&message) {
        Kind::Call(method) => {
            let method = method_of(&message, method);
            let due = due_for(shown.told.phase, method, wire.is_request());
            match due {
                Due::Pass => Ok(None),
                Due::Refuse(refusal) => {
                    wire.answer(alloc, Err(refusal))?;
                    Ok(None)
                }
                Due::Do(method) => {
                    let call = Call { method, message };
                    called(desk, view, served, shown, wire, call)
                }
            }
        }
        Kind::Answer => Ok(None),
        Kind::Other => {
            wire.answer(alloc, Err(Refusal::NoRequest))?;
            Ok(None)
        }
    }
}

// The method that a call is served by: diagnostics of all documents are served as those of one.
fn method_of(message: &Value, method: Option<Method>) -> Option<Method>
    ensures { result ≡ spec.method_of (view message.now) method }
{
    if is_of_all(message) {
        Some(Method::Diagnostic)
    } else {
        method
    }
}

// Whether a call is of `workspace/diagnostic`.
fn is_of_all(message: &Value) -> bool
    ensures { result ≡ spec.is_of_all (view message.now) }
{
    message.get("method").and_then(Value::as_str) == Some("workspace/diagnostic")
}

// Whether a request is answered by the registry of documents.
fn needs_view(method: Method) -> bool
    ensures { result ≡ spec.needs_view method }
{
    matches!(
        method,
        Method::Definition
            | Method::References
            | Method::Hover
            | Method::DocumentLink
            | Method::Completion
            | Method::PrepareRename
            | Method::Rename
            | Method::WillRenameFiles
    )
}

// Whether a call changes something: no request but `initialize` does.
fn moves(method: Method) -> bool
    ensures { result ≡ spec.moves method }
{
    matches!(
        method,
        Method::Initialize
            | Method::Initialized
            | Method::DidOpen
            | Method::DidChange
            | Method::DidSave
            | Method::DidClose
            | Method::DidChangeFiles
            | Method::DidChangeFolders
    )
}

// Does what a call in its time says, or returns what is to be done with it.
fn called<R: Source + Drop, W: Sink + Drop>(
    desk: &Desk<'_>,
    view: Option<&View<'_, '_>>,
    served: Option<usize>,
    shown: &mut Shown,
    wire: &mut Wire<R, W>,
    call: Call,
) -> Result<Option<Event>, Ending> {
    if moves(call.method) {
        return Ok(Some(Event::Moves(call)));
    }
    match call.method {
        Method::Exit => Ok(Some(Event::Ends(ended(shown.told.phase)))),
        Method::Shutdown => {
            shown.told.phase = Phase::ShutDown;
            let result = String::from_str(desk.alloc(), "null")?;
            wire.answer(desk.alloc(), Ok(result))?;
            Ok(None)
        }
        _ => still(desk, view, served, shown, wire, call),
    }
}

// Answers a request that changes nothing, or asks for what it needs.
fn still<R: Source + Drop, W: Sink + Drop>(
    desk: &Desk<'_>,
    view: Option<&View<'_, '_>>,
    served: Option<usize>,
    shown: &mut Shown,
    wire: &mut Wire<R, W>,
    call: Call,
) -> Result<Option<Event>, Ending> {
    if desk.is_moved || desk.is_stale {
        return Ok(Some(Event::Asks(call)));
    }
    if !needs_view(call.method) {
        judged(desk, shown, wire, call)?;
        return Ok(None);
    }
    let asked = asked_of(desk, &call)?;
    match view {
        Some(view) if serves(served, asked, has_value(desk, served)) => {
            viewed(desk, view, wire, call)?;
            Ok(None)
        }
        _ => Ok(Some(Event::Asks(call))),
    }
}

// Answers a request that needs the registry.
fn viewed<R: Source + Drop, W: Sink + Drop>(
    desk: &Desk<'_>,
    view: &View<'_, '_>,
    wire: &mut Wire<R, W>,
    call: Call,
) -> Result<(), Unsent> {
    let outcome = by_view(desk, view, &call);
    wire.answer(desk.alloc(), outcome)
}

// What a request answers by the registry. The desk is lent to be read alone (`&Desk`), and what was told isn't lent at all: so no request changes them.
fn by_view(desk: &Desk<'_>, view: &View<'_, '_>, call: &Call) -> Result<String, Refusal> {
    let Some(params) = call.message.get("params") else {
        return Err(Refusal::NoParameters);
    };
    match call.method {
        Method::Definition => definition(desk, view, params),
        Method::References => references(desk, view, params),
        Method::Hover => hover(desk, view, params),
        Method::DocumentLink => links(desk, view, params),
        Method::PrepareRename => prepare_rename(desk, view, params),
        Method::Rename => rename(desk, view, params),
        Method::WillRenameFiles => will_rename(desk, view, params),
        _ => completion(desk, view, params),
    }
}

// Answers a request that needs no registry. Where it is about what is wrong, that is found out first, as it is where nothing is left to read: the
// documents stay as they are (`&Desk`).
fn judged<R: Source + Drop, W: Sink + Drop>(
    desk: &Desk<'_>,
    shown: &mut Shown,
    wire: &mut Wire<R, W>,
    call: Call,
) -> Result<(), Unsent> {
    if matches!(call.method, Method::CodeAction | Method::Diagnostic) {
        shown.refresh(desk, wire)?;
    }
    let outcome = by_texts(desk, &shown.told, &call);
    wire.answer(desk.alloc(), outcome)
}

// What a request answers by the texts and by what was told, which are lent to be read alone: so no request changes them.
fn by_texts(desk: &Desk<'_>, told: &Told, call: &Call) -> Result<String, Refusal> {
    let Some(params) = call.message.get("params") else {
        return Err(Refusal::NoParameters);
    };
    match call.method {
        Method::CodeAction => actions(desk, told, params),
        Method::Diagnostic if is_of_all(&call.message) => Ok(all_pulled(desk, told)?),
        Method::Diagnostic => pulled(desk, told, params),
        Method::DocumentSymbol => symbols(desk, params),
        _ => workspace_symbols(desk, params),
    }
}

// `textDocument/diagnostic`.
fn pulled(desk: &Desk<'_>, told: &Told, params: &Value) -> Result<String, Refusal> {
    let alloc = desk.alloc();
    let list = match asked_document(desk, params)? {
        Some(number) => told.list(alloc, desk.client_uri(number)?.as_str())?,
        None => String::from_str(alloc, "[]")?,
    };
    let mut out = String::from_str(alloc, "{\"kind\":\"full\",\"items\":")?;
    out.push_str(list.as_str())?;
    out.push('}')?;
    Ok(out)
}

// `workspace/diagnostic`: a whole report of each document that is asked about.
fn all_pulled(desk: &Desk<'_>, told: &Told) -> Result<String, AllocError> {
    let alloc = desk.alloc();
    let mut out = String::from_str(alloc, "{\"items\":[")?;
    for number in 0..desk.workspace.asked() {
        if 0 < number {
            out.push(',')?;
        }
        let uri = desk.client_uri(number)?;
        push_text(alloc, &mut out, "{\"uri\":", uri.as_str())?;
        out.push_str(",\"version\":null,\"kind\":\"full\",\"items\":")?;
        out.push_str(told.list(alloc, uri.as_str())?.as_str())?;
        out.push('}')?;
    }
    out.push_str("]}")?;
    Ok(out)
}

// Does what a call says that changes something.
fn moved<R: Source + Drop, W: Sink + Drop>(
    desk: &mut Desk<'_>,
    told: &mut Told,
    wire: &mut Wire<R, W>,
    call: Call,
) -> Result<(), Unsent> {
    match call.method {
        Method::Initialize => begun(desk, told, wire, call),
        Method::Initialized => {
            if told.watches {
                wire.ask(desk.alloc(), watch(desk)?.as_str())?;
            }
            Ok(())
        }
        _ => {
            noted(desk, &call)?;
            if desk.is_moved || desk.is_stale {
                told.is_fresh = false;
            }
            renew(desk, told, wire, call.method)
        }
    }
}

// Asks a client that asks for diagnostics to do that again, where others than those of its own changes may have come.
fn renew<R: Source + Drop, W: Sink + Drop>(
    desk: &Desk<'_>,
    told: &mut Told,
    wire: &mut Wire<R, W>,
    method: Method,
) -> Result<(), Unsent> {
    let is_beyond = matches!(
        method,
        Method::DidSave | Method::DidChangeFiles | Method::DidChangeFolders
    );
    let has_changed = desk.is_moved || desk.is_stale || desk.is_reset;
    let Some(number) = told.renewals else {
        return Ok(());
    };
    if is_beyond && has_changed {
        told.renewals = Some(number.saturating_add(1));
        wire.ask(desk.alloc(), renewal(desk.alloc(), number)?.as_str())?;
    }
    Ok(())
}

// `initialize`.
fn begun<R: Source + Drop, W: Sink + Drop>(
    desk: &mut Desk<'_>,
    told: &mut Told,
    wire: &mut Wire<R, W>,
    call: Call,
) -> Result<(), Unsent> {
    let outcome = match call.message.get("params") {
        Some(params) if has_capabilities(params) => {
            desk.is_reset = true;
            Ok(initialize(desk, told, params)?)
        }
        _ => Err(Refusal::NoParameters),
    };
    wire.answer(desk.alloc(), outcome)
}

// Takes in a notification.
fn noted(desk: &mut Desk<'_>, call: &Call) -> Result<(), AllocError> {
    let Some(params) = call.message.get("params") else {
        return Ok(());
    };
    match call.method {
        Method::DidOpen => desk.did_open(params),
        Method::DidChange => desk.did_change(params),
        Method::DidSave => desk.did_save(params),
        Method::DidClose => desk.did_close(params),
        Method::DidChangeFiles => desk.did_change_files(params),
        _ => desk.did_change_folders(params),
    }
}
