//! Where in the documents of a call what an error of `open` tells is.
ghost use Rattle.std.specs.Prelude.{◌≡◌, ◌≢◌, ℕ, List, [], Some, codes, option_map, unwrap_or, IfOk, Result};
ghost use Rattle.serde_json.specs.Data.{Data};
ghost use Rattle.serde_json.specs.Find.{get, get_member};
ghost use Rattle.serde_json.specs.View.{view, items_view, members_view};
ghost use Rattle.ref_json.specs.Text.{tree_of};
ghost use Rattle.ref_calls.specs.Outcome.{Answers};
ghost use Rattle.ref_serve.specs.Where as spec;
ghost use Rattle.ref_serve.specs.inner.Placing.{IsWhose, IsPlacedStop};
ghost use Rattle.ref_calls.specs.Errors.{with_field};
ghost use Rattle.ref_draft.specs.Schema.{text_under as text_in};
ghost use Rattle.ref_draft.specs.declared.draft.Draft as draft_spec;
ghost use Rattle.ref_draft.specs.declared.draft.Draft.TheVariants.{Draft202012};

use crate::faults::faults_of;
use ref_calls::document::{documents_under, members_of};
use ref_calls::fault::put_member;
use ref_calls::field::draft_of;
use ref_calls::members::Members;
use ref_calls::yaml::with_values;
use ref_index::meanings::text_under;
use ref_json::{Stop, tree_of as read};
use referencing::Draft;
use serde_json::Value;
use std::alloc::{AllocError, Global};

// Whether two texts are there and the same.
fn are_same(a: Option<&str>, b: Option<&str>) -> bool
    ensures { result
        ≡ spec.are_same (option_map (λ t. t.now) a.entry) (option_map (λ t. t.now) b.entry) }
{
    let Some(a) = a else {
        return false;
    };
    match b {
        Some(b) => a == b,
        None => false,
    }
}

// The member by which an error is known.
fn known_by(error: &Value) -> &'static str
    ensures { result.now ≡ spec.known_by (view error.now) }
{
    if text_under(error, "uri").is_some() {
        "uri"
    } else {
        "message"
    }
}

// Whether two errors tell the same.
fn tells_same(error: &Value, other: &Value) -> bool
    ensures { result ≡ spec.tells_same (view error.now) (view other.now) }
{
    let key = known_by(error);
    are_same(text_under(error, key), text_under(other, key))
}

// Whether an item of the list tells an error.
fn is_told_by(error: &Value, item: &Value) -> bool
    ensures { result ≡ spec.is_told_by (view error.now) (view item.now) }
{
    match item.get("error") {
        Some(other) => tells_same(error, other),
        None => false,
    }
}

// The first that does.
fn first_told<'i>(error: &Value, items: &'i [Value]) -> Option<&'i Value>
    ensures { option_map (λ v. view v.now) result
        ≡ spec.first_told (view error.now) (items_view items.now) }
{
    for item in items {
        if is_told_by(error, item) {
            return Some(item);
        }
    }
    None
}

// An error with a member of an item.
fn with_same(alloc: Global, error: Value, item: &Value, key: &str) -> Result<Value, AllocError>
    ensures { IfOk result
        (λ v. view v ≡ spec.with_same key.now (view item.now) (view error)) }
{
    match item.get(key) {
        Some(value) => put_member(alloc, error, key, value.clone()?),
        None => Ok(error),
    }
}

// A copy of an error with the number of the document of an item, and the pointer there.
fn at_place(alloc: Global, error: &Value, item: &Value) -> Result<Value, AllocError>
    ensures { IfOk result (λ v. view v ≡ spec.at_place (view error.now) (view item.now)) }
{
    let placed = with_same(alloc, error.clone()?, item, "document")?;
    with_same(alloc, placed, item, "pointer")
}

// What `faults` lists of the documents under a member alone.
#[tactic(auto, unfolding(crate::specs::Where::faults_under))]
fn faults_under(
    alloc: Global,
    members: &mut Members,
    field: &str,
    draft: Draft,
) -> Result<Value, Stop<Value>>
    ensures value { (d : Data)
        → get_member field.now (members_view members.old.entries) ≡ get field.now d
        → Answers view result (spec.faults_under field.now draft d) }
    ensures others { (other : List ℕ) → other ≢ field.now
        → get_member other (members_view members.new.entries)
        ≡ get_member other (members_view members.old.entries) }
{
    match documents_under(alloc, members, field)? {
        Some(documents) => faults_of(alloc, draft, documents.as_slice(), &[]),
        None => faults_of(alloc, draft, &[], &[]),
    }
}

// An error with its place in a list, where an item tells it.
fn placed_in(
    alloc: Global,
    error: &Value,
    list: Result<Value, Stop<Value>>,
) -> Result<Option<Value>, AllocError>
    ensures { (outcome : Result Data Data) → Answers view list outcome
        → IfOk result (λ o. option_map view o ≡ spec.placed_in (view error.now) outcome) }
{
    let list = match list {
        Ok(list) => list,
        Err(Stop::Because(_)) => return Ok(None),
        Err(Stop::Memory) => return Err(AllocError),
    };
    let Some(items) = list.as_array() else {
        return Ok(None);
    };
    match first_told(error, items.as_slice()) {
        Some(item) => Ok(Some(at_place(alloc, error, item)?)),
        None => Ok(None),
    }
}

// An error with its place in `remote`.
fn placed_in_remote(
    alloc: Global,
    error: &Value,
    list: Result<Value, Stop<Value>>,
) -> Result<Option<Value>, AllocError>
    ensures { (outcome : Result Data Data) → Answers view list outcome
        → IfOk result
        (λ o. option_map view o
        ≡ option_map (with_field (codes "remote")) (spec.placed_in (view error.now) outcome)) }
{
    let Some(placed) = placed_in(alloc, error, list)? else {
        return Ok(None);
    };
    let field = Value::try_from_str(alloc, "remote")?;
    Ok(Some(put_member(alloc, placed, "field", field)?))
}

// An error of a document, whose place is in `documents` or else in `remote`.
fn placed_own(
    alloc: Global,
    members: &mut Members,
    draft: Draft,
    error: Value,
) -> Result<Value, AllocError>
    ensures { (d : Data)
        → ((key : List ℕ) → get_member key (members_view members.old.entries) ≡ get key d)
        → IfOk result (λ v. view v ≡ spec.placed_own draft d (view error)) }
{
    let list = faults_under(alloc, members, "documents", draft);
    if let Some(placed) = placed_in(alloc, &error, list)? {
        return Ok(placed);
    }
    let list = faults_under(alloc, members, "remote", draft);
    if let Some(placed) = placed_in_remote(alloc, &error, list)? {
        return Ok(placed);
    }
    Ok(error)
}

// An error of a meta-schema under `parent`.
fn placed_parent(alloc: Global, members: &mut Members, error: Value) -> Result<Value, AllocError>
    ensures { (d : Data)
        → get_member (codes "parent") (members_view members.old.entries) ≡ get (codes "parent") d
        → IfOk result
        (λ v. view v
        ≡ unwrap_or
        (spec.placed_in (view error) (spec.faults_under (codes "parent") Draft202012 d))
        (view error)) }
{
    let list = faults_under(alloc, members, "parent", Draft::Draft202012);
    match placed_in(alloc, &error, list)? {
        Some(placed) => Ok(placed),
        None => Ok(error),
    }
}

// Whose document an error is about.
#[derive(Clone, Copy, PartialEq, Eq, Drop)]
enum Whose {
    // One of `documents` or of `remote`.
    Own,
    // A meta-schema under `parent`.
    Parent,
    // None: it is about a member of the call.
    Other,
}

fn whose_document(error: &Value) -> Whose
    ensures { IsWhose result (text_in (codes "field") (view error.now)) }
{
    match text_under(error, "field") {
        None => Whose::Own,
        Some("parent") => Whose::Parent,
        Some(_) => Whose::Other,
    }
}

// An error of a document, by the draft of the call, where there is one.
fn placed_by(
    alloc: Global,
    draft: Result<Draft, Stop<Value>>,
    members: &mut Members,
    error: Value,
) -> Result<Value, AllocError>
    ensures { (d : Data) (read : Result draft_spec.Draft Data) → Answers (λ x. x) draft read
        → ((key : List ℕ) → get_member key (members_view members.old.entries) ≡ get key d)
        → IfOk result (λ v. view v ≡ spec.placed_by read d (view error)) }
{
    match draft {
        Ok(draft) => placed_own(alloc, members, draft, error),
        Err(Stop::Because(_)) => Ok(error),
        Err(Stop::Memory) => Err(AllocError),
    }
}

// An error of a call with its place.
#[tactic(auto, unfolding(crate::specs::Where::placed))]
fn placed(alloc: Global, tree: Value, error: Value) -> Result<Value, AllocError>
    ensures { IfOk result (λ v. view v ≡ spec.placed (view tree) (view error)) }
{
    let whose = whose_document(&error);
    if whose == Whose::Other {
        return Ok(error);
    }
    let draft = draft_of(alloc, &tree);
    let mut members = members_of(alloc, tree);
    if whose == Whose::Parent {
        return placed_parent(alloc, &mut members, error);
    }
    placed_by(alloc, draft, &mut members, error)
}

/// The error of `open` with its place in the documents of the call, which is read again: it is the line that is that call.
pub fn placed_stop(alloc: Global, line: &[u8], error: Value) -> Stop<Value>
    ensures { (d : Data) → tree_of line.now ≡ Some d → IsPlacedStop d (view error) result }
{
    let tree = match read(alloc, line) {
        Ok(tree) => tree,
        Err(Stop::Because(_)) => return Stop::Because(error),
        Err(Stop::Memory) => return Stop::Memory,
    };
    match with_values(alloc, tree) {
        Ok(call) => match placed(alloc, call, error) {
            Ok(error) => Stop::Because(error),
            Err(_) => Stop::Memory,
        },
        Err(Stop::Because(_)) => Stop::Because(error),
        Err(Stop::Memory) => Stop::Memory,
    }
}
