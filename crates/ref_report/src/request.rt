//! A request, read from one JSON object.
ghost use Rattle.std.specs.Prelude.{◌≡◌, IfOk, option_map, map};
ghost use Rattle.serde_json.specs.View.{view, members_view};
ghost use Rattle.ref_error.specs.Retrieving.{trees_of};
ghost use Rattle.ref_report.specs.Request as spec;
ghost use Rattle.ref_json.specs.Outcome.{Answers};
ghost use Rattle.ref_report.specs.inner.View.{document_view, documents_view, step_view, request_view};
ghost use Rattle.ref_report.specs.declared.request.BadRequest.TheVariants as bad;

use crate::scan::has_float;
use ref_json::Stop;
use referencing::uri::from_str;
use referencing::{Draft, Uri, UriFault};
use serde_json::{Map, Value};
use std::alloc::{AllocError, Global};

/// A document: the text of the URI under which it is added, and its tree.
pub type Document<'a> = (&'a str, &'a Value);

/// A step: a text is looked up, null is a recursive lookup, an object is entered.
#[derive(Clone, Copy)]
pub enum Step<'a> {
    Lookup(&'a str),
    Recursive,
    Enter(&'a Value),
}

/// The fields of a request, each as the format wants it. What can be retrieved is under the URIs that its texts mean, and
/// is copied, since a retriever owns it.
#[derive(Drop)]
pub struct Request<'a> {
    /// The documents that are added.
    pub documents: Vec<Document<'a>>,
    /// The URI that the first step is looked up against.
    pub base: Uri,
    /// The steps.
    pub steps: Vec<Step<'a>>,
    /// What can be retrieved.
    pub remote: Option<Vec<(Uri, Value)>>,
    /// The meta-schemas.
    pub meta: Option<Vec<Document<'a>>>,
    /// The draft of documents that name none.
    pub draft: Option<Draft>,
    /// How many documents may be retrieved.
    pub limit: Option<u64>,
    /// Whether unresolvable references are listed.
    pub lint: Option<bool>,
}

/// What is wrong with a request, in the order in which it is tested.
#[derive(Clone, Copy, Drop)]
pub enum BadRequest {
    /// The bytes are no JSON.
    NotJson,
    /// The tree is no object.
    NotAnObject,
    /// Somewhere in the tree a number is no whole number of 64 bits.
    Float,
    /// A key names no field.
    UnknownField,
    /// `documents` is missing, or is no list of a text and a schema each.
    Documents,
    /// `base` is missing, or is no text that means a URI.
    Base,
    /// `steps` is missing, or holds what is no text, null or object.
    Steps,
    /// `remote` is no list of a text that means a URI and a schema each.
    Remote,
    /// `meta` is no list of a text and a schema each.
    Meta,
    /// `draft` names none.
    Draft,
    /// `limit` is no whole number of 64 bits.
    Limit,
    /// `lint` is neither true nor false.
    Lint,
}

/// The request that a tree is, or the first thing that is wrong with it. It takes memory for the lists, and for
/// a copy of what can be retrieved.
#[tactic(auto, unfolding(crate::specs::Request::request_of))]
pub fn request_of(alloc: Global, tree: &Value) -> Result<Request<'_>, Stop<BadRequest>>
    ensures { Answers request_view (λ e. e) result (spec.request_of (view tree.now)) }
{
    let Some(members) = tree.as_object() else {
        return Err(Stop::Because(BadRequest::NotAnObject));
    };
    if has_float(tree) {
        return Err(Stop::Because(BadRequest::Float));
    }
    if !are_fields(members) {
        return Err(Stop::Because(BadRequest::UnknownField));
    }
    fields_of(alloc, tree)
}

fn are_fields(members: &Map<String, Value>) -> bool
    ensures { result ≡ spec.are_fields (members_view members.now.entries) }
{
    for (key, _member) in members.iter() {
        if !is_field(key.as_str()) {
            return false;
        }
    }
    true
}

fn is_field(name: &str) -> bool
    ensures { result ≡ spec.is_field name.now }
{
    matches!(
        name,
        "documents" | "base" | "steps" | "remote" | "meta" | "draft" | "limit" | "lint"
    )
}

#[tactic(auto, unfolding(crate::specs::Request::fields_of))]
fn fields_of(alloc: Global, tree: &Value) -> Result<Request<'_>, Stop<BadRequest>>
    ensures { Answers request_view (λ e. e) result (spec.fields_of (view tree.now)) }
{
    let documents = required_documents(alloc, tree.get("documents"))?;
    let base = required_base(alloc, tree.get("base"))?;
    let steps = required_steps(alloc, tree.get("steps"))?;
    let remote = optional_remote(alloc, tree.get("remote"))?;
    let meta = optional_meta(alloc, tree.get("meta"))?;
    let draft = optional_draft(tree.get("draft"))?;
    let limit = optional_limit(tree.get("limit"))?;
    let lint = optional_lint(tree.get("lint"))?;
    Ok(Request {
        documents,
        base,
        steps,
        remote,
        meta,
        draft,
        limit,
        lint,
    })
}

fn required_documents(
    alloc: Global,
    found: Option<&Value>,
) -> Result<Vec<Document<'_>>, Stop<BadRequest>>
    ensures { Answers (λ v. documents_view v.items) (λ e. e) result
        (spec.required_field bad.Documents spec.documents_of
        (option_map (λ v. view v.now) found.entry)) }
{
    let value = found.ok_or(Stop::Because(BadRequest::Documents))?;
    documents_of(alloc, value)?.ok_or(Stop::Because(BadRequest::Documents))
}

fn required_base(alloc: Global, found: Option<&Value>) -> Result<Uri, Stop<BadRequest>>
    ensures { Answers (λ u. u) (λ e. e) result
        (spec.required_field bad.Base spec.base_of (option_map (λ v. view v.now) found.entry)) }
{
    let value = found.ok_or(Stop::Because(BadRequest::Base))?;
    base_of(alloc, value)?.ok_or(Stop::Because(BadRequest::Base))
}

fn required_steps(alloc: Global, found: Option<&Value>) -> Result<Vec<Step<'_>>, Stop<BadRequest>>
    ensures { Answers (λ v. map step_view v.items) (λ e. e) result
        (spec.required_field bad.Steps spec.steps_of (option_map (λ v. view v.now) found.entry)) }
{
    let value = found.ok_or(Stop::Because(BadRequest::Steps))?;
    steps_of(alloc, value)?.ok_or(Stop::Because(BadRequest::Steps))
}

fn optional_remote(
    alloc: Global,
    found: Option<&Value>,
) -> Result<Option<Vec<(Uri, Value)>>, Stop<BadRequest>>
    ensures { Answers (option_map (λ v. trees_of v.items)) (λ e. e) result
        (spec.optional bad.Remote spec.remote_of (option_map (λ v. view v.now) found.entry)) }
{
    let Some(value) = found else {
        return Ok(None);
    };
    match remote_of(alloc, value)? {
        Some(documents) => Ok(Some(documents)),
        None => Err(Stop::Because(BadRequest::Remote)),
    }
}

fn optional_meta(
    alloc: Global,
    found: Option<&Value>,
) -> Result<Option<Vec<Document<'_>>>, Stop<BadRequest>>
    ensures { Answers (option_map (λ v. documents_view v.items)) (λ e. e) result
        (spec.optional bad.Meta spec.documents_of (option_map (λ v. view v.now) found.entry)) }
{
    let Some(value) = found else {
        return Ok(None);
    };
    match documents_of(alloc, value)? {
        Some(documents) => Ok(Some(documents)),
        None => Err(Stop::Because(BadRequest::Meta)),
    }
}

fn optional_draft(found: Option<&Value>) -> Result<Option<Draft>, Stop<BadRequest>>
    ensures { Answers (λ d. d) (λ e. e) result
        (spec.optional bad.Draft spec.draft_of (option_map (λ v. view v.now) found.entry)) }
{
    let Some(value) = found else {
        return Ok(None);
    };
    match draft_of(value) {
        Some(draft) => Ok(Some(draft)),
        None => Err(Stop::Because(BadRequest::Draft)),
    }
}

fn optional_limit(found: Option<&Value>) -> Result<Option<u64>, Stop<BadRequest>>
    ensures { Answers (λ n. n) (λ e. e) result
        (spec.optional bad.Limit spec.limit_of (option_map (λ v. view v.now) found.entry)) }
{
    let Some(value) = found else {
        return Ok(None);
    };
    match value.as_u64() {
        Some(limit) => Ok(Some(limit)),
        None => Err(Stop::Because(BadRequest::Limit)),
    }
}

fn optional_lint(found: Option<&Value>) -> Result<Option<bool>, Stop<BadRequest>>
    ensures { Answers (λ b. b) (λ e. e) result
        (spec.optional bad.Lint spec.lint_of (option_map (λ v. view v.now) found.entry)) }
{
    let Some(value) = found else {
        return Ok(None);
    };
    match value.as_bool() {
        Some(lint) => Ok(Some(lint)),
        None => Err(Stop::Because(BadRequest::Lint)),
    }
}

#[tactic(auto, unfolding(crate::specs::Request::documents_of), using(crate::proofs::Trees::in_front_push))]
fn documents_of(alloc: Global, value: &Value) -> Result<Option<Vec<Document<'_>>>, AllocError>
    ensures { IfOk result (λ o. option_map (λ v. documents_view v.items) o
        ≡ spec.documents_of (view value.now)) }
{
    let Some(items) = value.as_array() else {
        return Ok(None);
    };
    let mut documents = Vec::with_capacity(alloc, items.len())?;
    for item in items {
        let Some(document) = document_of(item) else {
            return Ok(None);
        };
        documents.push(document)?;
    }
    Ok(Some(documents))
}

fn document_of(value: &Value) -> Option<Document<'_>>
    ensures { option_map document_view result ≡ spec.document_of (view value.now) }
{
    if value.get(2usize).is_some() {
        return None;
    }
    let uri = value.get(0usize)?.as_str()?;
    let tree = value.get(1usize)?;
    Some((uri, tree))
}

#[tactic(auto, unfolding(crate::specs::Request::remote_of), using(crate::proofs::Trees::in_front_push))]
fn remote_of(alloc: Global, value: &Value) -> Result<Option<Vec<(Uri, Value)>>, AllocError>
    ensures { IfOk result (λ o. option_map (λ v. trees_of v.items) o
        ≡ spec.remote_of (view value.now)) }
{
    let Some(items) = value.as_array() else {
        return Ok(None);
    };
    let mut documents = Vec::with_capacity(alloc, items.len())?;
    for item in items {
        let Some(document) = retrievable_of(alloc, item)? else {
            return Ok(None);
        };
        documents.push(document)?;
    }
    Ok(Some(documents))
}

fn retrievable_of(alloc: Global, value: &Value) -> Result<Option<(Uri, Value)>, AllocError>
    ensures { IfOk result (λ o. option_map (λ e. (e.0, view e.1)) o
        ≡ spec.retrievable_of (view value.now)) }
{
    let Some((uri, tree)) = document_of(value) else {
        return Ok(None);
    };
    match from_str(alloc, uri) {
        Ok(uri) => Ok(Some((uri, tree.clone()?))),
        Err(UriFault::Memory(refused)) => Err(refused),
        Err(UriFault::Invalid(refused)) => {
            drop(refused);
            Ok(None)
        }
    }
}

#[tactic(auto, unfolding(crate::specs::Request::base_of))]
fn base_of(alloc: Global, value: &Value) -> Result<Option<Uri>, AllocError>
    ensures { IfOk result (λ o. o ≡ spec.base_of (view value.now)) }
{
    let Some(text) = value.as_str() else {
        return Ok(None);
    };
    match from_str(alloc, text) {
        Ok(uri) => Ok(Some(uri)),
        Err(UriFault::Memory(refused)) => Err(refused),
        Err(UriFault::Invalid(refused)) => {
            drop(refused);
            Ok(None)
        }
    }
}

#[tactic(auto, unfolding(crate::specs::Request::steps_of), using(crate::proofs::Trees::in_front_push))]
fn steps_of(alloc: Global, value: &Value) -> Result<Option<Vec<Step<'_>>>, AllocError>
    ensures { IfOk result (λ o. option_map (λ v. map step_view v.items) o
        ≡ spec.steps_of (view value.now)) }
{
    let Some(items) = value.as_array() else {
        return Ok(None);
    };
    let mut steps = Vec::with_capacity(alloc, items.len())?;
    for item in items {
        let Some(step) = step_of(item) else {
            return Ok(None);
        };
        steps.push(step)?;
    }
    Ok(Some(steps))
}

fn step_of(value: &Value) -> Option<Step<'_>>
    ensures { option_map step_view result ≡ spec.step_of (view value.now) }
{
    match value {
        Value::Null => Some(Step::Recursive),
        Value::String(reference) => Some(Step::Lookup(reference.as_str())),
        Value::Object(_) => Some(Step::Enter(value)),
        _ => None,
    }
}

#[tactic(auto, unfolding(crate::specs::Request::draft_of))]
fn draft_of(value: &Value) -> Option<Draft>
    ensures { result ≡ spec.draft_of (view value.now) }
{
    Draft::from_name(value.as_str()?)
}
