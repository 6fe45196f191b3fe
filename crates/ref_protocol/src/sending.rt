//! What a server sends.
ghost use Rattle.std.specs.Prelude.{◌≡◌, IfOk, OnOk, string_bytes};
ghost use Rattle.std.specs.Io.KnownBytes.{Appends};
ghost use Rattle.ref_protocol.specs.Replies as spec;
ghost use Rattle.ref_protocol.specs.Sending.{note_with, SendsNotes, SendsAnswer};

use crate::refusal::Refusal;
use crate::replies::{error_text, frame_of, result_text};
use ref_streams::Sink;
use std::alloc::{AllocError, Global};

/// Why nothing more can be sent.
#[derive(Clone, Copy, Debug, Drop, PartialEq, Eq)]
pub enum Unsent {
    /// A write failed.
    Write,
    /// Memory ran out.
    Memory,
}

impl From<AllocError> for Unsent {
    fn from(_error: AllocError) -> Unsent {
        Unsent::Memory
    }
}

/// Writes the frame of a content.
pub fn send<W: Sink>(alloc: Global, sink: &mut W, content: &str) -> Result<(), Unsent>
    ensures frame { OnOk result
        (Appends (W.taken sink.old) (W.taken sink.new) (spec.frame_of content.now)) }
{
    let frame = frame_of(alloc, content)?;
    match sink.write_all(frame.as_bytes()) {
        Ok(()) => Ok(()),
        Err(_) => Err(Unsent::Write),
    }
}

// The notification that says what is wrong with a document.
#[tactic(auto, unfolding(crate::specs::Sending::note_with))]
fn note_of(alloc: Global, params: &str) -> Result<String, AllocError>
    ensures { IfOk result (λ text. string_bytes text ≡ note_with params.now) }
{
    let mut out = String::from_str(
        alloc,
        "{\"jsonrpc\":\"2.0\",\"method\":\"textDocument/publishDiagnostics\",\"params\":",
    )?;
    out.push_str(params)?;
    out.push_str("}")?;
    Ok(out)
}

fn send_note<W: Sink>(alloc: Global, sink: &mut W, params: &str) -> Result<(), Unsent>
    ensures { OnOk result
        (Appends (W.taken sink.old) (W.taken sink.new) (spec.frame_of (note_with params.now))) }
{
    let content = note_of(alloc, params)?;
    send(alloc, sink, content.as_str())
}

/// Says what is wrong with a document: one frame, with these parameters of `textDocument/publishDiagnostics`, which are a text of JSON.
pub fn note<W: Sink>(alloc: Global, sink: &mut W, params: &str) -> Result<(), Unsent>
    ensures notes { OnOk result (SendsNotes (W.taken sink.old) (W.taken sink.new)) }
{
    send_note(alloc, sink, params)?;
    Ok(())
}

fn send_answer<W: Sink>(
    alloc: Global,
    sink: &mut W,
    id: &str,
    outcome: Result<String, Refusal>,
) -> Result<(), Unsent>
    ensures { OnOk result
        (Appends (W.taken sink.old) (W.taken sink.new)
        (spec.frame_of (spec.answer_of id.now outcome))) }
{
    match outcome {
        Ok(text) => {
            let content = result_text(alloc, id, text.as_str())?;
            send(alloc, sink, content.as_str())
        }
        Err(refusal) => {
            let content = error_text(alloc, id, refusal)?;
            send(alloc, sink, content.as_str())
        }
    }
}

/// Answers the request with an id: one frame, with its result or with why it has none.
pub fn answer<W: Sink>(
    alloc: Global,
    sink: &mut W,
    id: &str,
    outcome: Result<String, Refusal>,
) -> Result<(), Unsent>
    ensures once { OnOk result (SendsAnswer id.now (W.taken sink.old) (W.taken sink.new)) }
{
    send_answer(alloc, sink, id, outcome)?;
    Ok(())
}
