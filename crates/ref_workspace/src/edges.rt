//! Which file refers to which.
use crate::described::{DescribedReference, Description};
use crate::finding::{Finding, Problem};
use crate::workspace::Workspace;
use crate::world::{World, bearers, fragment_of, without_fragment, world_of};
use percent_encoding::{DecodeError, percent_decode};
use ref_draft::Draft;
use ref_error::Error;
use ref_findings::Problem as Plain;
use ref_index::Place;
use ref_messages::{Edge, Graph, Node, component_of};
use ref_parts::path::JsonPointerSegment;
use ref_parts::{pointer_of, unescape_segment};
use ref_uri::Uri;
use serde_json::Value;
use std::alloc::{AllocError, Global};
use std::collections::BTreeMap;

/// What is drawn.
#[derive(Clone, Copy, Debug, Drop, PartialEq, Eq)]
pub struct Shape {
    /// Whether components are drawn, each by itself: one that a reference means by a pointer, and those that have places.
    pub has_components: bool,
    /// Whether what has no reference and isn't referred to is left out.
    pub is_connected: bool,
}

/// The documents, or these and their components, with how many references lead from one into another, and how many of these are unresolvable.
pub fn graph_of(alloc: Global, workspace: &Workspace, shape: Shape) -> Result<Graph, Error> {
    let (findings, has_led) = workspace.references_report(alloc)?;
    let trees = workspace.mended(alloc)?;
    let world = world_of(alloc, workspace, trees.as_slice())?;
    let description = workspace.description(alloc, has_led)?;
    let list = findings.as_slice();
    let mut graph = drawn(alloc, (workspace, shape), &world, &description, list)?;
    if shape.is_connected {
        graph.leave_out_lone();
    }
    Ok(graph)
}

fn drawn(
    alloc: Global,
    (workspace, shape): (&Workspace, Shape),
    world: &World<'_>,
    description: &Description<'_>,
    list: &[Finding<'_>],
) -> Result<Graph, AllocError> {
    let mut drawing = Drawing::new(alloc, workspace, world, shape.has_components)?;
    match drawing.add_all(workspace, world, description, list) {
        Ok(()) => drawing.finish(),
        Err(error) => {
            drop(drawing);
            Err(error)
        }
    }
}

// What is drawn so far.
#[derive(Drop)]
struct Drawing {
    alloc: Global,
    nodes: Vec<Node>,
    // The node of each source, by the source's number.
    numbers: Vec<usize>,
    // The node of each URI that a document has.
    bearers: BTreeMap<String, usize>,
    // Whether components are drawn.
    has_components: bool,
    // The node of each component, by the number of its document's node and its pointer after that.
    components: BTreeMap<String, usize>,
    // How many references there are between two nodes, and how many of them are unresolvable.
    edges: BTreeMap<(usize, usize), (usize, usize)>,
}

impl Drawing {
    // Nothing, but which documents have which URIs.
    fn new(
        alloc: Global,
        workspace: &Workspace,
        world: &World<'_>,
        has_components: bool,
    ) -> Result<Drawing, AllocError> {
        let numbers = vec![in alloc; 0usize; workspace.len()]?;
        let bearers = bearers(alloc, world)?;
        Ok(Drawing {
            alloc,
            nodes: Vec::new(alloc),
            numbers,
            bearers,
            has_components,
            components: BTreeMap::new(alloc),
            edges: BTreeMap::new(alloc),
        })
    }

    // Adds the documents and their references.
    fn add_all(
        &mut self,
        workspace: &Workspace,
        world: &World<'_>,
        description: &Description<'_>,
        list: &[Finding<'_>],
    ) -> Result<(), AllocError> {
        self.add_documents(workspace, world)?;
        self.add_references(world, description.is_described.as_slice())?;
        self.add_places(description)?;
        for reference in &description.references {
            self.add_described(description, reference)?;
        }
        self.add_broken(list)
    }

    // Adds the documents: files by their paths, and what was read from maps by its URI.
    fn add_documents(
        &mut self,
        workspace: &Workspace,
        world: &World<'_>,
    ) -> Result<(), AllocError> {
        for (node, number) in world.sources.iter().enumerate() {
            push_node(self.alloc, &mut self.nodes, workspace.name(*number), false)?;
            if let Some(slot) = self.numbers.get_mut(*number) {
                *slot = node;
            }
        }
        Ok(())
    }

    // Adds the references of schemas, but for those of descriptions.
    fn add_references(
        &mut self,
        world: &World<'_>,
        is_described: &[bool],
    ) -> Result<(), AllocError> {
        let places = world.places(self.alloc)?;
        for place in &places {
            if let Some(source) = world.sources.get(place.document) {
                if !is_described.get(*source).copied().unwrap_or(false) {
                    self.add_reference(world, place)?;
                }
            }
        }
        Ok(())
    }

    // Adds the components that descriptions have.
    fn add_places(&mut self, description: &Description<'_>) -> Result<(), AllocError> {
        for place in &description.places {
            let document = self.number(place.document);
            self.part(document, place.path.as_slice())?;
        }
        Ok(())
    }

    // The node of the document with a number.
    fn number(&self, document: usize) -> usize {
        self.numbers.get(document).copied().unwrap_or(0)
    }

    // Adds a reference of a description.
    fn add_described(
        &mut self,
        description: &Description<'_>,
        reference: &DescribedReference,
    ) -> Result<(), AllocError> {
        let document = self.number(reference.document);
        let from = match description.places.get(reference.place) {
            Some(place) => self.part(document, place.path.as_slice())?,
            None => document,
        };
        let to = if reference.is_fragment {
            document
        } else {
            self.node(reference.uri.as_str())?
        };
        let to = self.part_at(to, reference.fragment.as_str())?;
        self.add(from, to)
    }

    // The node of the component that holds the end of a path of a document, or the document's own.
    fn part(
        &mut self,
        document: usize,
        path: &[JsonPointerSegment<'_>],
    ) -> Result<usize, AllocError> {
        let component = component_of(path);
        if !self.has_components || component.is_empty() {
            return Ok(document);
        }
        let pointer = pointer_of(self.alloc, component)?;
        self.component(document, pointer.as_str())
    }

    // The node of the component that a fragment leads into by a pointer, or the document's own, which is also that of a document that isn't there.
    fn part_at(&mut self, document: usize, fragment: &str) -> Result<usize, AllocError> {
        if !self.has_components || fragment.is_empty() || self.is_missing(document) {
            return Ok(document);
        }
        match percent_decode(fragment.as_bytes()).decode_utf8(self.alloc) {
            Ok(pointer) => self.part_by(document, pointer.as_str()),
            Err(DecodeError::Utf8(_)) => Ok(document),
            Err(DecodeError::OutOfMemory) => Err(AllocError),
        }
    }

    fn is_missing(&self, number: usize) -> bool {
        match self.nodes.get(number) {
            Some(node) => node.is_missing,
            None => true,
        }
    }

    fn part_by(&mut self, document: usize, pointer: &str) -> Result<usize, AllocError> {
        let path = keys_of(self.alloc, pointer)?;
        self.part(document, path.as_slice())
    }

    fn component(&mut self, document: usize, pointer: &str) -> Result<usize, AllocError> {
        let key = format!(in self.alloc; "{document}{pointer}")?;
        if let Some(node) = self.components.get(key.as_str()) {
            return Ok(*node);
        }
        let name = self.named(document, pointer)?;
        let node = self.nodes.len();
        push_node(self.alloc, &mut self.nodes, name.as_str(), false)?;
        self.components.insert(key, node)?;
        Ok(node)
    }

    // The name of a component.
    fn named(&self, document: usize, pointer: &str) -> Result<String, AllocError> {
        let name = match self.nodes.get(document) {
            Some(node) => node.name.as_str(),
            None => "",
        };
        format!(in self.alloc; "{name}#{pointer}")
    }

    // Adds the reference of a place, where it has one that means a URI.
    fn add_reference(&mut self, world: &World<'_>, place: &Place<'_>) -> Result<(), AllocError> {
        let from = self.part(place.document, place.path.as_slice())?;
        let Some(reference) = place.value.get("$ref").and_then(Value::as_str) else {
            return Ok(());
        };
        match world.resolved(self.alloc, place, reference)? {
            Some(uri) => {
                let to = self.target(place.document, reference, &uri)?;
                self.add(from, to)
            }
            None => Ok(()),
        }
    }

    // Adds a reference from a node to one.
    fn add(&mut self, from: usize, to: usize) -> Result<(), AllocError> {
        let counts = self.edges.entry((from, to))?.or_insert((0, 0));
        counts.0 = counts.0.saturating_add(1);
        Ok(())
    }

    // The node that a reference of a document points into: one in that document where it is a fragment alone.
    fn target(&mut self, document: usize, reference: &str, uri: &Uri) -> Result<usize, AllocError> {
        let to = if reference.starts_with('#') {
            document
        } else {
            self.node(without_fragment(uri.as_str()))?
        };
        self.part_at(to, fragment_of(reference))
    }

    // The node that has a URI: one that is missing where there is none.
    fn node(&mut self, uri: &str) -> Result<usize, AllocError> {
        if let Some(node) = self.bearers.get(uri) {
            return Ok(*node);
        }
        let node = self.nodes.len();
        let is_missing = Draft::from_schema_uri(uri) == Draft::Unknown;
        push_node(self.alloc, &mut self.nodes, uri, is_missing)?;
        self.bearers
            .insert(String::from_str(self.alloc, uri)?, node)?;
        Ok(node)
    }

    // Counts the unresolvable references.
    fn add_broken(&mut self, findings: &[Finding<'_>]) -> Result<(), AllocError> {
        for finding in findings {
            match &finding.problem {
                Problem::Plain(Plain::MissingDocument { uri }) => self.count_broken(finding, uri)?,
                Problem::Plain(Plain::LeadsNowhere { uri, .. }) => self.count_broken(finding, uri)?,
                Problem::WrongKind { uri, .. } => self.count_broken(finding, uri)?,
                _ => {}
            }
        }
        Ok(())
    }

    fn count_broken(&mut self, finding: &Finding<'_>, uri: &Uri) -> Result<(), AllocError> {
        let document = self.number(finding.source);
        let from = self.part(document, finding.path.as_slice())?;
        let to = self.target(document, finding.text.unwrap_or(""), uri)?;
        if let Some(counts) = self.edges.get_mut(&(from, to)) {
            counts.1 = counts.1.saturating_add(1);
        }
        Ok(())
    }

    fn finish(self) -> Result<Graph, AllocError> {
        let mut edges = Vec::new(self.alloc);
        for ((from, to), (count, broken)) in self.edges {
            edges.push(Edge {
                from,
                to,
                count,
                broken,
            })?;
        }
        Ok(Graph {
            nodes: self.nodes,
            edges,
        })
    }
}

// The keys that a pointer has (RFC 6901, 4): none where a text is no pointer.
fn keys_of<'p>(alloc: Global, pointer: &'p str) -> Result<Vec<JsonPointerSegment<'p>>, AllocError> {
    let mut keys = Vec::new(alloc);
    if let Some(rest) = pointer.strip_prefix('/') {
        for segment in rest.split('/') {
            let key = unescape_segment(alloc, segment)?;
            keys.push(JsonPointerSegment::Key(key))?;
        }
    }
    Ok(keys)
}

fn push_node(
    alloc: Global,
    nodes: &mut Vec<Node>,
    name: &str,
    is_missing: bool,
) -> Result<(), AllocError> {
    nodes.push(Node {
        name: String::from_str(alloc, name)?,
        is_missing,
        is_left_out: false,
    })?;
    Ok(())
}
