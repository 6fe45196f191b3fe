//! What `open` prepares where faults are kept.
ghost use Rattle.std.specs.Prelude.{◌≡◌, ◌++◌, List, [], map, flat_map, option_map, unwrap_or, IfOk, OnOk};
ghost use Rattle.std.specs.List.{AllZip};
ghost use Rattle.serde_json.specs.View.{view};
ghost use Rattle.ref_error.specs.Retrieving.{trees_of};
ghost use Rattle.ref_findings.specs.Entries.{IsFindingOf, SaysFindings};
ghost use Rattle.ref_findings.specs.Findings.{Finding as Found};
ghost use Rattle.ref_findings.specs.Held.{held_source};
ghost use Rattle.ref_calls.specs.Given.{given_of};
ghost use Rattle.ref_serve.specs.Mending as spec;
ghost use Rattle.ref_serve.specs.inner.Mended.{world_above, tree_maybe, with_trees, GivesHeld, GivesInPlace, GivesMended};

use crate::faults::{push_finding, sources_of};
use ref_calls::document::Document;
use ref_findings::{Finding, Held, Problem, gather, unmet, without_texts};
use ref_json::Stop;
use referencing::{Draft, MapRetriever, Registry};
use serde_json::Value;
use std::alloc::{AllocError, Global};

/// Documents with `null` in place of the texts for which a registry of them is refused, and the objects of these.
#[derive(Drop)]
pub struct MendedDocuments {
    pub documents: Vec<Document>,
    pub faults: Vec<Value>,
}

// Whether a parent has what a finding says isn't there.
fn is_in_parents(
    alloc: Global,
    above: Option<&Registry<'_>>,
    finding: &Finding<'_>,
) -> Result<bool, AllocError>
    ensures { (f : Found) → IsFindingOf finding.now f
        → IfOk result (λ is. is ≡ spec.is_in_parents (world_above above.entry) f) }
{
    let Some(registry) = above else {
        return Ok(false);
    };
    match &finding.problem {
        Problem::MissingDocument { uri } => registry.contains_resource(alloc, uri.as_str()),
        _ => Ok(false),
    }
}

// Those of the texts of a document that nothing in the parents meets either.
fn unmet_above<'v>(
    alloc: Global,
    above: Option<&Registry<'_>>,
    found: Vec<Finding<'v>>,
) -> Result<Vec<Finding<'v>>, AllocError>
    ensures { (fs : List Found) → SaysFindings found.entry fs
        → IfOk result
        (λ list. SaysFindings list (spec.unmet_above (world_above above.entry) fs)) }
{
    let mut list = Vec::new(alloc);
    for finding in found {
        if !is_in_parents(alloc, above, &finding)? {
            list.push(finding)?;
        }
    }
    Ok(list)
}

// The same of each document.
fn all_above<'v>(
    alloc: Global,
    above: Option<&Registry<'_>>,
    found: Vec<Vec<Finding<'v>>>,
) -> Result<Vec<Vec<Finding<'v>>>, AllocError>
    ensures { (fss : List (List Found)) → AllZip SaysFindings found.entry.items fss
        → IfOk result
        (λ lists. AllZip SaysFindings lists.items
        (map (spec.unmet_above (world_above above.entry)) fss)) }
{
    let mut lists = Vec::new(alloc);
    for list in found {
        let list = unmet_above(alloc, above, list)?;
        lists.push(list)?;
    }
    Ok(lists)
}

// Whether a keyword is one of identifiers.
fn is_identifier(keyword: &str) -> bool
    ensures { result ≡ spec.is_identifier keyword.now }
{
    keyword == "$id" || keyword == "id"
}

// Whether a finding is about the identifier of a root.
fn is_of_root(finding: &Finding<'_>) -> bool
    ensures { (f : Found) → IsFindingOf finding.now f → result ≡ spec.is_of_root f }
{
    if !finding.path.is_empty() {
        return false;
    }
    match finding.keyword {
        Some(keyword) => is_identifier(keyword),
        None => false,
    }
}

// The keyword of the first that is.
fn root_identifier(found: &[Finding<'_>]) -> Option<&'static str>
    ensures { (fs : List Found) → AllZip IsFindingOf found.now fs
        → option_map (λ k. k.now) result ≡ spec.root_identifier fs }
{
    for finding in found {
        if is_of_root(finding) {
            return finding.keyword;
        }
    }
    None
}

// An object without the member under a key.
fn without_member(value: Value, key: &str) -> Value
    ensures { view result ≡ spec.without_member key.now (view value) }
{
    match value {
        Value::Object(mut members) => {
            drop(members.remove(key));
            Value::Object(members)
        }
        other => other,
    }
}

// The tree that is prepared in place of a document's own, where it is another.
fn tree_in_place(
    alloc: Global,
    value: &Value,
    found: &[Finding<'_>],
) -> Result<Option<Value>, AllocError>
    ensures { (fs : List Found) → AllZip IsFindingOf found.now fs
        → IfOk result
        (λ tree. unwrap_or (option_map view tree) (view value.now)
        ≡ spec.mended_tree fs (view value.now)) }
{
    if found.is_empty() {
        return Ok(None);
    }
    let tree = without_texts(alloc, found, value)?;
    match root_identifier(found) {
        Some(key) => Ok(Some(without_member(tree, key))),
        None => Ok(Some(tree)),
    }
}

// The same of each document.
fn trees_in_place(
    alloc: Global,
    documents: &[Document],
    found: &[Vec<Finding<'_>>],
) -> Result<Vec<Option<Value>>, AllocError>
    ensures { (fss : List (List Found)) → AllZip SaysFindings found.now fss
        → IfOk result
        (λ trees. with_trees (map given_of documents.now) (map tree_maybe trees.items)
        ≡ spec.mended_each (map given_of documents.now) fss) }
{
    let mut trees = Vec::with_capacity(alloc, documents.len())?;
    for (number, document) in documents.iter().enumerate() {
        let Some(list) = found.get(number) else {
            return Ok(trees);
        };
        let tree = tree_in_place(alloc, &document.1, list.as_slice())?;
        trees.push(tree)?;
    }
    Ok(trees)
}

// A document with another tree, where there is one.
fn with_tree(document: Document, tree: Option<Value>) -> Document
    ensures { given_of result ≡ ((given_of document).0, unwrap_or (tree_maybe tree) (given_of document).1) }
{
    let (uri, value) = document;
    match tree {
        Some(tree) => (uri, tree),
        None => (uri, value),
    }
}

// Documents with these trees.
fn with_trees(
    alloc: Global,
    documents: Vec<Document>,
    trees: Vec<Option<Value>>,
) -> Result<Vec<Document>, AllocError>
    ensures { IfOk result
        (λ list. map given_of list.items
        ≡ with_trees (map given_of documents.items) (map tree_maybe trees.items)) }
{
    let mut trees = trees.into_iter();
    let mut list = Vec::with_capacity(alloc, documents.len())?;
    for document in documents {
        let tree = trees.next().flatten();
        list.push(with_tree(document, tree))?;
    }
    Ok(list)
}

// Adds the objects of findings.
fn push_findings(
    alloc: Global,
    faults: &mut Vec<Value>,
    found: Vec<Finding<'_>>,
) -> Result<(), AllocError>
    ensures { (fs : List Found) → SaysFindings found.entry fs → OnOk result
        (map view faults.new.items
        ≡ map view faults.old.items ++ spec.objects_of fs) }
{
    for finding in found {
        push_finding(alloc, faults, finding)?;
    }
    Ok(())
}

// The objects of what is found in each document.
fn faults_in(alloc: Global, found: Vec<Vec<Finding<'_>>>) -> Result<Vec<Value>, AllocError>
    ensures { (fss : List (List Found)) → AllZip SaysFindings found.entry.items fss
        → IfOk result
        (λ faults. map view faults.items ≡ flat_map spec.objects_of fss) }
{
    let mut faults = Vec::new(alloc);
    for list in found {
        push_findings(alloc, &mut faults, list)?;
    }
    Ok(faults)
}

// What is prepared in place of documents above parents: their trees, and the faults.
#[derive(Drop)]
struct InPlace {
    trees: Vec<Option<Value>>,
    faults: Vec<Value>,
}

fn in_place(
    alloc: Global,
    above: Option<&Registry<'_>>,
    draft: Draft,
    documents: &[Document],
) -> Result<InPlace, Stop<Value>>
    ensures { GivesInPlace (map given_of documents.now)
        (spec.mended_above (world_above above.entry) draft (map given_of documents.now)) result }
{
    let sources = sources_of(alloc, documents, "documents")?;
    let found = unmet(alloc, draft, sources.as_slice())?;
    let found = all_above(alloc, above, found)?;
    let trees = trees_in_place(alloc, documents, found.as_slice())?;
    let faults = faults_in(alloc, found)?;
    Ok(InPlace { trees, faults })
}

// What documents want of others.
fn gathered(
    alloc: Global,
    draft: Draft,
    limit: usize,
    documents: &[Document],
    remote: &MapRetriever,
) -> Result<Vec<Held>, Stop<Value>>
    ensures { GivesHeld draft limit (trees_of remote.now) (map given_of documents.now) result }
{
    let sources = sources_of(alloc, documents, "documents")?;
    Ok(gather(alloc, draft, sources.as_slice(), remote, limit)?)
}

// Adds what was retrieved after documents.
fn add_held(alloc: Global, documents: &mut Vec<Document>, held: Vec<Held>) -> Result<(), AllocError>
    ensures { OnOk result
        (map given_of documents.new.items
        ≡ map given_of documents.old.items
        ++ flat_map spec.document_of (map held_source held.items)) }
{
    for document in held {
        let Held { uri, value } = document;
        let text = String::from_str(alloc, uri.as_str())?;
        documents.push((text, value))?;
    }
    Ok(())
}

/// What is prepared of documents above parents where faults are kept: with those that they want of others, in which they count too.
/// Each place is visited three times, and a document that has a fault is copied.
pub fn mended(
    alloc: Global,
    above: Option<&Registry<'_>>,
    draft: Draft,
    limit: usize,
    documents: Vec<Document>,
    remote: &MapRetriever,
) -> Result<MendedDocuments, Stop<Value>>
    ensures { GivesMended
        (spec.IsMended draft limit (map given_of documents.items) (trees_of remote.now)
        (world_above above.entry)) result }
{
    let mut documents = documents;
    let held = gathered(alloc, draft, limit, documents.as_slice(), remote)?;
    add_held(alloc, &mut documents, held)?;
    let made = in_place(alloc, above, draft, documents.as_slice())?;
    let InPlace { trees, faults } = made;
    let documents = with_trees(alloc, documents, trees)?;
    Ok(MendedDocuments { documents, faults })
}
