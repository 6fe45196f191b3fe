//! The registry of the documents, for what goes on from one document to the next.
use crate::described::is_among;
use crate::finding::Finding;
use crate::workspace::Workspace;
use ref_draft::Draft;
use ref_error::{Error, Retrieve, RetrieveError};
use ref_findings::Problem as Plain;
use ref_index::Place;
use ref_uri::Uri;
use referencing::meta::uris_for_draft;
use referencing::{Registry, RegistryBuilder};
use serde_json::{Map, Value};
use std::alloc::{AllocError, Global};
use std::collections::BTreeMap;
use std::rc::Rc;

/// An empty document in place of each that isn't there.
#[derive(Drop)]
struct Substitutes;

impl Retrieve for Substitutes {
    ghost use Rattle.ref_definitions.specs.Retrievers.{any_retriever};

    ghost meaning = { λ _. any_retriever };

    fn retrieve(&self, alloc: Global, _uri: &Uri) -> Result<Value, RetrieveError> {
        Ok(Value::Object(Map::new(alloc)))
    }
}

/// The documents of a workspace.
#[derive(Drop)]
pub struct World<'d> {
    /// The documents, and after them empty ones in place of those that aren't there.
    pub registry: Registry<'d>,
    /// The number of the source of each document that is there, by the document's number.
    pub sources: Vec<usize>,
}

/// The registry of the documents of a workspace, with the trees that are read in place of some. One that has no value counts as an empty
/// one; of those under one URI the first is taken.
pub fn world_of<'d>(
    alloc: Global,
    workspace: &'d Workspace,
    trees: &'d [Option<Value>],
) -> Result<World<'d>, Error> {
    world_among(alloc, workspace, trees, &[])
}

/// The same of those documents that are looked at, by flags: one without a flag is.
pub fn world_among<'d>(
    alloc: Global,
    workspace: &'d Workspace,
    trees: &'d [Option<Value>],
    there: &[bool],
) -> Result<World<'d>, Error> {
    let sources = first_of_each(alloc, workspace, there)?;
    let registry = prepared(alloc, workspace, trees, sources.as_slice())?;
    Ok(World { registry, sources })
}

// The registry of the documents with these numbers.
fn prepared<'d>(
    alloc: Global,
    workspace: &'d Workspace,
    trees: &'d [Option<Value>],
    numbers: &[usize],
) -> Result<Registry<'d>, Error> {
    let mut builder = Registry::new(alloc)
        .draft(workspace.draft())
        .retrieval_limit(usize::MAX);
    for number in numbers {
        builder = with_document(builder, workspace, trees, *number)?;
    }
    builder.retriever(Substitutes).prepare()
}

// The builder with the document that has a number.
fn with_document<'d>(
    builder: RegistryBuilder<'d>,
    workspace: &'d Workspace,
    trees: &'d [Option<Value>],
    number: usize,
) -> Result<RegistryBuilder<'d>, Error> {
    match workspace.uri(number) {
        Some(uri) => builder.add(uri.as_str(), workspace.read_value(number, trees)),
        None => Ok(builder),
    }
}

/// The registry of the documents of a workspace, as [`world_of`] makes it, above another one.
pub fn world_above<'d, 'o: 'd>(
    alloc: Global,
    above: &'d Registry<'o>,
    workspace: &'d Workspace,
    trees: &'d [Option<Value>],
) -> Result<World<'d>, Error> {
    let sources = first_of_each(alloc, workspace, &[])?;
    let registry = prepared_above(alloc, above, workspace, trees, sources.as_slice())?;
    Ok(World { registry, sources })
}

fn prepared_above<'d, 'o: 'd>(
    alloc: Global,
    above: &'d Registry<'o>,
    workspace: &'d Workspace,
    trees: &'d [Option<Value>],
    numbers: &[usize],
) -> Result<Registry<'d>, Error> {
    let mut builder = above
        .extend(alloc, NONE)?
        .draft(workspace.draft())
        .retrieval_limit(usize::MAX);
    for number in numbers {
        builder = with_document(builder, workspace, trees, *number)?;
    }
    builder.retriever(Substitutes).prepare()
}

// No documents.
const NONE: [(&str, Value); 0] = [];

/// A registry of empty documents under the URIs of the drafts' meta-schemas, and of others that findings name and that
/// aren't there: what a bundle leaves outside.
pub fn outside_of(alloc: Global, findings: &[Finding<'_>]) -> Result<Registry<'static>, Error> {
    let mut builder = Registry::new(alloc);
    for draft in DRAFTS {
        for uri in uris_for_draft(draft) {
            builder = builder.add(*uri, Value::Object(Map::new(alloc)))?;
        }
    }
    for finding in findings {
        if let Some(Plain::UnknownDialect { uri }) = finding.problem.plain() {
            builder = builder.add(uri.as_str(), Value::Object(Map::new(alloc)))?;
        }
    }
    builder.prepare()
}

// The drafts that have meta-schemas.
const DRAFTS: [Draft; 5] = [
    Draft::Draft4,
    Draft::Draft6,
    Draft::Draft7,
    Draft::Draft201909,
    Draft::Draft202012,
];

// The numbers of the first documents under each URI, of those that are looked at.
fn first_of_each(
    alloc: Global,
    workspace: &Workspace,
    there: &[bool],
) -> Result<Vec<usize>, AllocError> {
    let mut seen = BTreeMap::new(alloc);
    let mut numbers = Vec::new(alloc);
    for number in 0..workspace.len() {
        if let (true, Some(uri)) = (is_among(there, number), workspace.uri(number)) {
            if seen.insert(uri.as_str(), ())?.is_none() {
                numbers.push(number)?;
            }
        }
    }
    Ok(numbers)
}

/// The number of the document that has each URI: its own, and those of the places in it. Of several documents it is the
/// last, as the registry has it. Those in place of what isn't there are left out.
pub fn bearers(alloc: Global, world: &World<'_>) -> Result<BTreeMap<String, usize>, AllocError> {
    let places = world.places(alloc)?;
    let mut bearers = BTreeMap::new(alloc);
    for place in &places {
        let number = place.document;
        if number < world.sources.len() {
            if place.path.is_empty() {
                if let Some(document) = world.registry.documents().get(number) {
                    set_bearer(alloc, &mut bearers, document.uri.as_str(), number)?;
                }
            }
            set_bearer(alloc, &mut bearers, place.base.as_str(), number)?;
        }
    }
    Ok(bearers)
}

fn set_bearer(
    alloc: Global,
    bearers: &mut BTreeMap<String, usize>,
    uri: &str,
    number: usize,
) -> Result<(), AllocError> {
    if let Some(bearer) = bearers.get_mut(uri) {
        *bearer = number;
        return Ok(());
    }
    bearers.insert(String::from_str(alloc, uri)?, number)?;
    Ok(())
}

/// The fragment of a reference, as it is written: nothing where it has none.
pub(crate) fn fragment_of(reference: &str) -> &str {
    match reference.split_once('#') {
        Some((_, fragment)) => fragment,
        None => "",
    }
}

/// A URI without its fragment.
pub fn without_fragment(uri: &str) -> &str {
    match uri.split_once('#') {
        Some((front, _)) => front,
        None => uri,
    }
}

impl<'d> World<'d> {
    /// The number in the registry of the document with a number, where it is in the registry.
    pub fn number(&self, source: usize) -> Option<usize> {
        self.sources.iter().position(|number| *number == source)
    }

    /// By the numbers of as many documents as a workspace has, whether one is in the registry.
    pub(crate) fn flags(&self, alloc: Global, documents: usize) -> Result<Vec<bool>, AllocError> {
        let mut flags = vec![in alloc; false; documents]?;
        for number in &self.sources {
            if let Some(flag) = flags.get_mut(*number) {
                *flag = true;
            }
        }
        Ok(flags)
    }

    /// The places of all documents.
    pub fn places(&self, alloc: Global) -> Result<Vec<Place<'_>>, AllocError> {
        self.registry.places(alloc).ok().ok_or(AllocError)
    }

    /// The URI that a text means against the base of a place, where it means one.
    pub fn resolved(
        &self,
        alloc: Global,
        place: &Place<'_>,
        text: &str,
    ) -> Result<Option<Rc<Uri>>, AllocError> {
        match self.registry.resolve_uri(alloc, place.base.borrow(), text) {
            Ok(uri) => Ok(Some(uri)),
            Err(error) => {
                let is_memory = error.is_memory();
                drop(error);
                if is_memory { Err(AllocError) } else { Ok(None) }
            }
        }
    }
}
