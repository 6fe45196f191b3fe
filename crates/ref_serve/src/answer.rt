//! From a line to its answer.
ghost use Rattle.std.specs.Prelude.{◌≡◌, codes, None, Some, IfOk, OnOk, OnErr};
ghost use Rattle.serde_json.specs.View.{view};
ghost use Rattle.ref_calls.specs.Objects.{answer_of, IsLineOf};
ghost use Rattle.ref_calls.specs.Errors.{not_json as error_of};
ghost use Rattle.ref_calls.specs.Why.{why as reason_of};
ghost use Rattle.ref_calls.specs.Calls.{call_of};
ghost use Rattle.ref_calls.specs.declared.call.Call.TheVariants.{Faults, Scope, Open as Opening};
ghost use Rattle.ref_json.specs.Text.{tree_of as tree_in};
ghost use Rattle.ref_serve.specs.Answering as spec;
ghost use Rattle.ref_calls.specs.Outcome.{Gives};
ghost use Rattle.ref_serve.specs.inner.Replies.{registries_after, Replies, IsRead, IsUnchanged};

use crate::about::{draft, hello, uri};
use crate::bundling::bundle_document;
use crate::comparing::compare_call;
use crate::entering::enter;
use crate::faults::faults_call;
use crate::following::follow;
use crate::keeping::{Keeping, keeping_of, kept_object};
use crate::listing::{dangling_references, places};
use crate::looking::{lookup, recursive};
use crate::opening::open_call;
use crate::placing::placed_stop;
use crate::references::references;
use crate::registry::registry_of;
use crate::state::{Slot, State};
use crate::surveying::survey_call;
use crate::vocabularies::vocabularies;
use ref_calls::answer::{error_text, id_of, text_of};
use ref_calls::call::{Call, call_of};
use ref_calls::fault::{not_json, plain_error};
use ref_calls::why::why;
use ref_calls::yaml::yaml;
use ref_json::{Stop, tree_of};
use ref_parts::list::List;
use ref_streams::Service;
use ref_uri::Uri;
use serde_json::{Map, Value};
use std::alloc::{AllocError, Global};

// How a call changes the registries.
#[derive(Drop)]
enum Change {
    Same,
    Opened(Vec<Option<Slot>>),
    Closed(usize),
    Kept(usize, List<Uri>),
}

// What a call gives: its result, and how the registries change.
#[derive(Drop)]
struct Reply {
    result: Value,
    change: Change,
}

impl Service for State {
    ghost use Rattle.ref_serve.specs.Answering.{IsAnswer};

    ghost may_answer = { IsAnswer };

    /// The line of the answer to a call; the registries change as the call says.
    fn answer(&mut self, alloc: Global, line: &[u8]) -> Result<Vec<u8>, AllocError> {
        answer_line(alloc, self, line)
    }
}

// The line of the answer to a line.
fn answer_line(alloc: Global, state: &mut State, line: &[u8]) -> Result<Vec<u8>, AllocError>
    ensures answer { IfOk result (λ text. spec.IsAnswer state.old line.now state.new text.items) }
    ensures refused { OnErr result (state.new ≡ state.old) }
{
    match tree_of(alloc, line) {
        Ok(tree) => answer_tree(alloc, state, line, tree),
        Err(Stop::Because(offset)) => not_json_line(alloc, line, offset),
        Err(Stop::Memory) => Err(AllocError),
    }
}

// The line of the answer to a line that is no JSON.
fn not_json_line(alloc: Global, line: &[u8], offset: usize) -> Result<Vec<u8>, AllocError>
    ensures { IfOk result
        (λ text. IsLineOf (answer_of None (codes "error") (error_of (reason_of line.now) offset))
        text.items) }
{
    let reason = why(alloc, line)?;
    error_text(alloc, None, not_json(alloc, reason, offset))
}

// The answer to the tree that a line is.
fn answer_tree(
    alloc: Global,
    state: &mut State,
    line: &[u8],
    tree: Value,
) -> Result<Vec<u8>, AllocError>
    requires { tree_in line.now ≡ Some (view tree) }
    ensures answer { IfOk result
        (λ text. spec.IsAnswerTo state.old line.now (Some (view tree)) state.new text.items) }
    ensures refused { OnErr result (state.new ≡ state.old) }
{
    let id = id_of(&tree)?;
    match reply_to(alloc, state, line, tree) {
        Ok(reply) => {
            let Reply { result, change } = reply;
            let text = text_of(alloc, id, "result", result)?;
            changed(state, change)?;
            Ok(text)
        }
        Err(Stop::Because(error)) => text_of(alloc, id, "error", error),
        Err(Stop::Memory) => Err(AllocError),
    }
}

// Changes the registries. Where there is no memory for that, nothing changes.
fn changed(state: &mut State, change: Change) -> Result<(), AllocError>
    ensures changed { OnOk result (state.new ≡ registries_after state.old change) }
    ensures refused { OnErr result (state.new ≡ state.old) }
{
    match change {
        Change::Same => Ok(()),
        Change::Opened(opened) => state.add(opened),
        Change::Closed(number) => {
            state.close(number);
            Ok(())
        }
        Change::Kept(number, uris) => state.keep(number, uris),
    }
}

// The reply to `open`, whose errors have their place in the documents of the line.
fn opened_reply(
    alloc: Global,
    state: &mut State,
    line: &[u8],
    tree: Value,
) -> Result<Reply, Stop<Value>>
    requires { tree_in line.now ≡ Some (view tree) }
    ensures same { state.new ≡ state.old }
    ensures reply { Replies (spec.IsReply Opening state.old (view tree)) state.old result }
{
    match open_call(alloc, state, tree) {
        Ok(opened) => Ok(Reply {
            result: opened.result,
            change: Change::Opened(opened.registries),
        }),
        Err(Stop::Because(error)) => Err(placed_stop(alloc, line, error)),
        Err(Stop::Memory) => Err(Stop::Memory),
    }
}

// What the call of a line gives.
fn reply_to(
    alloc: Global,
    state: &mut State,
    line: &[u8],
    tree: Value,
) -> Result<Reply, Stop<Value>>
    requires { tree_in line.now ≡ Some (view tree) }
    ensures same { state.new ≡ state.old }
    ensures reply { Replies
        (spec.IsReplyTo (call_of (view tree)) state.old (view tree)) state.old result }
{
    match call_of(alloc, &tree)? {
        Call::Open => opened_reply(alloc, state, line, tree),
        Call::Close => {
            let (number, _open) = registry_of(alloc, state, &tree)?;
            Ok(Reply {
                result: Value::Object(Map::new(alloc)),
                change: Change::Closed(number),
            })
        }
        Call::Scope => kept_reply(alloc, state, &tree),
        Call::Faults => faulty(alloc, state, tree),
        call => unchanged(alloc, state, call, &tree),
    }
}

// The reply to `scope`.
fn kept_reply(alloc: Global, state: &State, tree: &Value) -> Result<Reply, Stop<Value>>
    ensures { Replies (spec.IsReply Scope state.now (view tree.now)) state.now result }
{
    let Keeping { number, uris } = keeping_of(alloc, state, tree)?;
    let result = kept_object(alloc, state, number)?;
    Ok(Reply {
        result,
        change: Change::Kept(number, uris),
    })
}

// The reply to `faults`, which changes no registry and takes the documents out of the call.
fn faulty(alloc: Global, state: &State, tree: Value) -> Result<Reply, Stop<Value>>
    ensures { Replies (spec.IsReply Faults state.now (view tree)) state.now result }
{
    match faults_call(alloc, tree) {
        Ok(result) => Ok(Reply {
            result,
            change: Change::Same,
        }),
        Err(stop) => Err(stop),
    }
}

// The reply to a call that changes no registry and is only read.
fn unchanged(alloc: Global, state: &State, call: Call, tree: &Value) -> Result<Reply, Stop<Value>>
    ensures { Replies (IsUnchanged call state.now (view tree.now)) state.now result }
{
    match result_of(alloc, state, call, tree) {
        Ok(result) => Ok(Reply {
            result,
            change: Change::Same,
        }),
        Err(stop) => Err(stop),
    }
}

// The result of a call that changes no registry and is only read.
fn result_of(alloc: Global, state: &State, call: Call, tree: &Value) -> Result<Value, Stop<Value>>
    ensures { Gives (IsRead call state.now (view tree.now)) result }
{
    match call {
        Call::Hello => Ok(hello(alloc)?),
        Call::Uri => uri(alloc, tree),
        Call::DraftOf => draft(alloc, tree),
        Call::Yaml => yaml(alloc, tree),
        Call::Lookup => lookup(alloc, state, tree),
        Call::Recursive => recursive(alloc, state, tree),
        Call::Enter => enter(alloc, state, tree),
        Call::Follow => follow(alloc, state, tree),
        Call::Places => places(alloc, state, tree),
        Call::Survey => survey_call(alloc, state, tree),
        Call::References => references(alloc, state, tree),
        Call::Dangling => dangling_references(alloc, state, tree),
        Call::Compare => compare_call(alloc, state, tree),
        Call::Vocabularies => vocabularies(alloc, state, tree),
        Call::Bundle => bundle_document(alloc, state, tree),
        Call::Faults | Call::Open | Call::Scope | Call::Close => {
            Err(plain_error(alloc, "UnknownCall", ""))
        }
    }
}
