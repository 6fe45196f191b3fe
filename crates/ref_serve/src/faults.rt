//! `faults`.
ghost use Rattle.std.specs.Prelude.{◌≡◌, ◌++◌, codes, map, option_map, IfOk, OnOk};
ghost use Rattle.std.specs.Option.{option_to_list};
ghost use Rattle.serde_json.specs.View.{view, members_view};
ghost use Rattle.serde_json.specs.Find.{get_member};
ghost use Rattle.ref_paths.specs.Segment.{part_of};
ghost use Rattle.ref_definitions.specs.Fault.{Fault, not_retrieved};
ghost use Rattle.ref_error.specs.Errors.{SaysFault};
ghost use Rattle.ref_findings.specs.Entries.{IsFindingOf, IsProblemOf, source_of};
ghost use Rattle.ref_findings.specs.Findings as findings;
ghost use Rattle.ref_calls.specs.Given.{given_of};
ghost use Rattle.ref_calls.specs.Objects.{with_all};
ghost use Rattle.ref_calls.specs.Outcome.{Answers};
ghost use Rattle.ref_serve.specs.Faults as spec;
ghost use Rattle.ref_serve.specs.Answering.{IsFaults};
ghost use Rattle.ref_calls.specs.Outcome.{Gives};
ghost use Rattle.ref_serve.specs.inner.Faulty.{IsMaybeFault};

use crate::place::put_site;
use ref_calls::document::{Document, documents_under, members_of, needed_documents};
use ref_calls::fault::fault_members;
use ref_calls::field::{draft_of, uri_in};
use ref_calls::members::{Members, put_text};
use ref_calls::yaml::with_values;
use ref_draft::trim_hashes;
use ref_error::{Reason, RetrieveError};
use ref_findings::{Finding, Problem, Source, findings};
use ref_json::Stop;
use referencing::{Draft, Error, JsonPointerSegment};
use serde_json::{Map, Value, put};
use std::alloc::{AllocError, Global};

/// The sources that documents are.
pub fn sources_of<'d>(
    alloc: Global,
    documents: &'d [Document],
    field: &str,
) -> Result<Vec<Source<'d>>, Stop<Value>>
    ensures { Answers (λ v. map source_of v.items) result
        (spec.sources_under field.now (map given_of documents.now)) }
{
    let mut sources = Vec::with_capacity(alloc, documents.len())?;
    for document in documents {
        let uri = uri_in(alloc, trim_hashes(document.0.as_str()), field)?;
        sources.push(Source {
            uri,
            value: Some(&document.1),
        })?;
    }
    Ok(sources)
}

// The error of a reference into a document that isn't there.
fn not_retrieved(alloc: Global, uri: &str) -> Result<Error, AllocError>
    ensures { IfOk result (λ e. SaysFault e (not_retrieved uri.now)) }
{
    let uri = String::from_str(alloc, uri)?;
    Ok(Error::unretrievable(uri, RetrieveError::Refused(Reason::NotSupported)))
}

// The error of what is found, where it has a fault.
fn error_of(alloc: Global, problem: Problem<'_>) -> Result<Option<Error>, AllocError>
    ensures { (p : findings.Problem) → IsProblemOf problem.entry p
        → IfOk result (λ e. IsMaybeFault e (spec.problem_fault p)) }
{
    match problem {
        Problem::InvalidUri(error) => Ok(Some(Error::InvalidUri(error))),
        Problem::MissingDocument { uri } => Ok(Some(not_retrieved(alloc, uri.as_str())?)),
        Problem::LeadsNowhere { error, .. } => Ok(Some(error)),
        Problem::UnknownDialect { uri } => {
            let uri = String::from_str(alloc, uri.as_str())?;
            Ok(Some(Error::unknown_specification(uri)))
        }
        _ => Ok(None),
    }
}

// Puts a text, where there is one.
fn put_maybe(
    alloc: Global,
    members: &mut Members,
    key: &str,
    text: Option<&str>,
) -> Result<(), AllocError>
    ensures { OnOk result (members_view members.new.entries
        ≡ with_all (spec.text_member key.now (option_map (λ t. t.now) text.entry))
        (members_view members.old.entries)) }
{
    match text {
        Some(text) => put_text(alloc, members, key, text),
        None => Ok(()),
    }
}

// The object of what is found at a place, with its error.
fn fault_object(
    alloc: Global,
    document: usize,
    path: &[JsonPointerSegment<'_>],
    keyword: Option<&str>,
    text: Option<&str>,
    error: &Error,
) -> Result<Value, AllocError>
    ensures { (fault : Fault) → SaysFault error.now fault
        → IfOk result
        (λ d. view d
        ≡ spec.fault_object document (map part_of path.now)
        (option_map (λ k. k.now) keyword.entry) (option_map (λ t. t.now) text.entry) fault) }
{
    let mut members = Map::new(alloc);
    put_site(alloc, &mut members, document, path)?;
    put_maybe(alloc, &mut members, "keyword", keyword)?;
    put_maybe(alloc, &mut members, "text", text)?;
    let error = fault_members(alloc, error)?;
    put(&mut members, alloc, "error", Value::Object(error))?;
    Ok(Value::Object(members))
}

// The object of a finding, where it has a fault.
fn finding_object(alloc: Global, finding: Finding<'_>) -> Result<Option<Value>, AllocError>
    ensures { (f : findings.Finding) → IsFindingOf finding.entry f
        → IfOk result (λ d. option_map view d ≡ spec.finding_object f) }
{
    let Finding {
        source,
        path,
        keyword,
        text,
        problem,
    } = finding;
    let Some(error) = error_of(alloc, problem)? else {
        return Ok(None);
    };
    let object = fault_object(alloc, source, path.as_slice(), keyword, text, &error)?;
    Ok(Some(object))
}

/// Adds the object of a finding, where it has a fault.
pub fn push_finding(
    alloc: Global,
    list: &mut Vec<Value>,
    finding: Finding<'_>,
) -> Result<(), AllocError>
    ensures { (f : findings.Finding) → IsFindingOf finding.entry f → OnOk result
        (map view list.new.items
        ≡ map view list.old.items ++ option_to_list (spec.finding_object f)) }
{
    if let Some(object) = finding_object(alloc, finding)? {
        list.push(object)?;
    }
    Ok(())
}

// The list of the faults of sources.
fn faults_in(
    alloc: Global,
    draft: Draft,
    sources: &[Source<'_>],
    held: &[Source<'_>],
) -> Result<Value, AllocError>
    ensures { IfOk result
        (λ d. view d
        ≡ spec.faults_list draft (map source_of sources.now) (map source_of held.now)) }
{
    let found = findings(alloc, draft, sources, held)?;
    let mut list = Vec::new(alloc);
    for finding in found {
        push_finding(alloc, &mut list, finding)?;
    }
    Ok(Value::Array(list))
}

// The documents under `remote`, where it is there.
fn remote_of(alloc: Global, members: &mut Members) -> Result<Vec<Document>, Stop<Value>>
    ensures { Answers (λ v. map given_of v.items) result
        (spec.remote_at (get_member (codes "remote") (members_view members.old.entries))) }
{
    match documents_under(alloc, members, "remote")? {
        Some(documents) => Ok(documents),
        None => Ok(Vec::new(alloc)),
    }
}

/// The faults of documents, beside which others may be referred to.
pub fn faults_of(
    alloc: Global,
    draft: Draft,
    documents: &[Document],
    remote: &[Document],
) -> Result<Value, Stop<Value>>
    ensures { Answers view result
        (spec.faults_of draft (map given_of documents.now) (map given_of remote.now)) }
{
    let sources = sources_of(alloc, documents, "documents")?;
    let held = sources_of(alloc, remote, "remote")?;
    Ok(faults_in(alloc, draft, sources.as_slice(), held.as_slice())?)
}

// The faults of documents, as opening a registry of them meets the first of, or look-ups in it.
#[tactic(auto, unfolding(crate::specs::Faults::faults_result))]
fn faults(alloc: Global, tree: Value) -> Result<Value, Stop<Value>>
    ensures { Answers view result (spec.faults_result (view tree)) }
{
    let draft = draft_of(alloc, &tree)?;
    let mut members = members_of(alloc, tree);
    let documents = needed_documents(alloc, &mut members)?;
    let remote = remote_of(alloc, &mut members)?;
    faults_of(alloc, draft, documents.as_slice(), remote.as_slice())
}

/// The faults of documents, as opening a registry of them meets the first of, or look-ups in it. Texts of YAML are read first.
pub fn faults_call(alloc: Global, tree: Value) -> Result<Value, Stop<Value>>
    ensures { Gives (IsFaults (view tree)) result }
{
    match with_values(alloc, tree) {
        Ok(read) => faults(alloc, read),
        Err(stop) => Err(stop),
    }
}
