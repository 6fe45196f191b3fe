//! The descriptions among the documents of a workspace: what is wrong with their references, and where these are.
use crate::anchors::{Anchors, anchors_for};
use crate::endless::{Link, add_links};
use crate::finding::{Finding, Problem, push};
use crate::identified::{Misnamed, add_misnamed};
use crate::leads::{NoObject, add_all_no_objects, add_no_objects};
use crate::led::add_led_places;
use crate::placed::Placed;
use crate::pointer::path_to;
use crate::ruled::{ToldAt, add_beside_at, add_told_at};
use crate::workspace::Workspace;
use crate::world::fragment_of;
use ref_descriptions::{Kind, Reading, Under, references, version_of};
use ref_findings::Problem as SchemaProblem;
use ref_index::segments_of;
use ref_parts::path::JsonPointerSegment;
use ref_parts::{pointer_of, value_at};
use ref_reach::{
    Documents, Finding as ReachFinding, Place, Problem as ReachProblem, Reached, Source,
    documents_of, reach,
};
use ref_uri::uri::resolve_against;
use ref_uri::{Uri, UriFault};
use serde_json::Value;
use std::alloc::{AllocError, Global};
use std::borrow::CowStr;
use std::collections::BTreeSet;
use std::mem::swap;
use std::rc::Rc;

/// Which documents of a workspace are descriptions or parts of them, and how much there is in these.
#[derive(Drop)]
pub(crate) struct Described {
    /// How many places they have.
    pub places: usize,
    /// How many references these have.
    pub references: usize,
    /// Which texts under `$ref` are in places.
    pub placed: Placed,
    /// By the numbers of the documents, whether one is a description, or a part that a reference leads to as a whole.
    pub is_described: Vec<bool>,
    /// How many of the documents that are asked about are descriptions.
    pub descriptions: usize,
    /// Whether places are looked for that no keyword leads to, but references.
    pub is_led: bool,
    // By the numbers of the documents, whether one is looked at. One without a flag is.
    there: Vec<bool>,
    /// Where it is wanted, which references lead where, as far as they were looked at.
    pub links: Option<Vec<Link>>,
    // Where it is wanted, which references of descriptions lead to what is no object.
    no_objects: Option<Vec<NoObject>>,
    // What is told of places that references of schemas lead to, and of schemas of descriptions.
    told: Vec<ToldAt>,
    // Whether it is wanted of descriptions what is told of keywords beside references.
    tells_beside: bool,
    // What is wrong with identifiers in descriptions.
    misnamed: Vec<Misnamed>,
}

/// What is wrong with a reference in the document with a number, at a path.
#[derive(Drop)]
pub(crate) struct Fault<'d> {
    document: usize,
    path: Vec<JsonPointerSegment<'d>>,
    keyword: String,
    // The kind of the object that the reference is to lead to.
    wanted: Option<Kind>,
    /// What is wrong.
    pub problem: ReachProblem,
}

/// A place of a description, or of a part of one; or what a reference of a schema leads to where no keyword does, or is below that.
#[derive(Drop)]
pub struct DescribedPlace<'d> {
    /// The number of its document.
    pub document: usize,
    /// Its path there.
    pub path: Vec<JsonPointerSegment<'d>>,
    /// How it is read.
    pub reading: Reading,
    /// Its base URI.
    pub base: Rc<Uri>,
}

/// A reference of such a place that means a URI.
#[derive(Drop)]
pub struct DescribedReference {
    /// The number of its document.
    pub document: usize,
    /// The number of its place, in the list of places.
    pub place: usize,
    /// Whether it is a fragment alone.
    pub is_fragment: bool,
    /// Its fragment, as it is written.
    pub fragment: String,
    /// The URI that it means, without its fragment.
    pub uri: Uri,
}

/// What descriptions have, and what schemas have beside the places that keywords lead to: places, and the references of these.
#[derive(Drop)]
pub struct Description<'d> {
    /// The places, in the order in which they are met.
    pub places: Vec<DescribedPlace<'d>>,
    /// The references of these that mean a URI, in their order.
    pub references: Vec<DescribedReference>,
    /// By the numbers of the documents, whether one is a description, or a part that a reference leads to as a whole.
    pub is_described: Vec<bool>,
}

/// The documents that have a value, as sources, with their numbers.
#[derive(Drop)]
pub(crate) struct Numbered<'d> {
    /// The sources.
    pub sources: Vec<Source<'d>>,
    /// The number of the document of each.
    pub numbers: Vec<usize>,
}

/// Those of a workspace that are looked at.
pub(crate) fn numbered_sources<'d>(
    alloc: Global,
    workspace: &'d Workspace,
    described: &Described,
) -> Result<Numbered<'d>, AllocError> {
    let mut numbered = Numbered {
        sources: Vec::new(alloc),
        numbers: Vec::new(alloc),
    };
    for number in 0..workspace.len() {
        if described.has(number) {
            numbered.add(workspace, number)?;
        }
    }
    Ok(numbered)
}

impl<'d> Numbered<'d> {
    // Adds the document with a number, where it has a value.
    fn add(&mut self, workspace: &'d Workspace, number: usize) -> Result<(), AllocError> {
        if let (Some(uri), Some(value)) = (workspace.uri(number), workspace.value(number)) {
            let uri = uri.clone()?;
            self.sources.push(Source { uri, value })?;
            self.numbers.push(number)?;
        }
        Ok(())
    }
}

/// Whether the document with a number is among those that are looked at, by flags: one without a flag is.
pub(crate) fn is_among(there: &[bool], number: usize) -> bool {
    there.get(number).copied().unwrap_or(true)
}

impl Described {
    /// Those of a workspace, by their roots alone. Fails only if out of memory.
    pub fn of(alloc: Global, workspace: &Workspace) -> Result<Described, AllocError> {
        Described::among(alloc, workspace, &[])
    }

    /// The same of those documents that are looked at, by flags: one without a flag is.
    pub fn among(
        alloc: Global,
        workspace: &Workspace,
        there: &[bool],
    ) -> Result<Described, AllocError> {
        let is_described = vec![in alloc; false; workspace.len()]?;
        let placed = Placed::new(alloc, workspace.len())?;
        let mut described = Described {
            places: 0,
            references: 0,
            placed,
            is_described,
            descriptions: 0,
            is_led: false,
            there: Vec::from_slice(alloc, there)?,
            links: None,
            no_objects: None,
            told: Vec::new(alloc),
            tells_beside: workspace.tells_beside(),
            misnamed: Vec::new(alloc),
        };
        for number in 0..workspace.len() {
            let is_there = described.has(number);
            if is_there && workspace.value(number).is_some_and(is_description) {
                described.note_description(number, workspace.asked());
            }
        }
        Ok(described)
    }

    fn note_description(&mut self, number: usize, asked: usize) {
        if number < asked {
            self.descriptions = self.descriptions.saturating_add(1);
        }
        self.note(number);
    }

    /// Whether the document with a number is looked at.
    pub fn has(&self, number: usize) -> bool {
        is_among(self.there.as_slice(), number)
    }

    /// Whether the document with a number is looked at and is a schema: neither a description nor a part.
    pub fn is_plain_at(&self, number: usize) -> bool {
        self.has(number) && !self.is_described_at(number)
    }

    /// Whether the document with a number is a description or a part.
    pub fn is_described_at(&self, number: usize) -> bool {
        self.is_described.get(number).copied().unwrap_or(false)
    }

    /// Of a document that is neither, notes whether its texts are looked for.
    pub fn look_at(&mut self, number: usize, is_looked: bool) {
        if !self.is_plain_at(number) {
            return;
        }
        if is_looked {
            self.placed.note(number);
        } else {
            self.placed.forget(number);
        }
    }

    fn note(&mut self, number: usize) {
        if let Some(is) = self.is_described.get_mut(number) {
            *is = true;
        }
    }

    /// Whether there is one.
    pub fn is_any(&self) -> bool {
        self.is_described.iter().any(|is| *is)
    }

    /// Adds which references of places lead where, where that is wanted.
    pub fn add_links<'r>(
        &mut self,
        alloc: Global,
        numbers: &[usize],
        documents: &Documents<'r>,
        places: &[Place<'r>],
    ) -> Result<(), AllocError> {
        match &mut self.links {
            Some(links) => add_links(alloc, numbers, documents, places, links),
            None => Ok(()),
        }
    }

    /// Adds what is told of places that references of schemas lead to, of those in documents that are asked about.
    pub fn add_told<'r>(
        &mut self,
        alloc: Global,
        asked: usize,
        numbers: &[usize],
        places: &[Place<'r>],
    ) -> Result<(), AllocError> {
        add_told_at(alloc, asked, numbers, places, &mut self.told)
    }

    // Adds what is told of keywords beside references of schemas of descriptions, where that is wanted, of those in documents that are asked about.
    fn add_beside<'r>(
        &mut self,
        alloc: Global,
        asked: usize,
        numbers: &[usize],
        places: &[Place<'r>],
    ) -> Result<(), AllocError> {
        if !self.tells_beside {
            return Ok(());
        }
        add_beside_at(alloc, asked, numbers, places, &mut self.told)
    }

    // Adds what is wrong with the identifiers of places that descriptions have by themselves.
    fn add_misnamed<'r>(
        &mut self,
        alloc: Global,
        asked: usize,
        documents: (&[Source<'_>], &[usize]),
        places: &[Place<'r>],
    ) -> Result<(), AllocError> {
        add_misnamed(alloc, asked, documents, places, &mut self.misnamed)
    }

    /// What is wrong with identifiers in descriptions, which is given away.
    pub fn take_misnamed(&mut self, alloc: Global) -> Vec<Misnamed> {
        let mut misnamed = Vec::new(alloc);
        swap(&mut self.misnamed, &mut misnamed);
        misnamed
    }

    /// What is told of these, which is given away.
    pub fn take_told(&mut self, alloc: Global) -> Vec<ToldAt> {
        let mut told = Vec::new(alloc);
        swap(&mut self.told, &mut told);
        told
    }

    // Adds which references of places lead to what is no object, where that is wanted.
    fn add_no_objects<'r>(
        &mut self,
        alloc: Global,
        numbers: &[usize],
        documents: &Documents<'r>,
        places: &[Place<'r>],
    ) -> Result<(), AllocError> {
        match &mut self.no_objects {
            Some(list) => add_no_objects(alloc, numbers, documents, places, list),
            None => Ok(()),
        }
    }

    // By the numbers of the documents, whether one is a description or a part.
    fn into_flags(self) -> Vec<bool> {
        self.is_described
    }

    // Notes what was reached, by the numbers of the documents.
    fn note_reached(
        &mut self,
        alloc: Global,
        asked: usize,
        numbers: &[usize],
        own: &[Place<'_>],
        reached: &Reached<'_>,
    ) -> Result<(), AllocError> {
        self.note_parts(numbers, own);
        self.note_parts(numbers, reached.places.as_slice());
        self.places = own.len().saturating_add(reached.places.len());
        self.references = reached.references;
        self.placed.add_all(alloc, asked, numbers, own)?;
        self.placed
            .add_all(alloc, asked, numbers, reached.places.as_slice())
    }

    // Notes which documents have places, and which are parts that a reference leads to as a whole.
    fn note_parts(&mut self, numbers: &[usize], places: &[Place<'_>]) {
        for place in places {
            if let Some(number) = numbers.get(place.document).copied() {
                self.note_place(number, place.path.parent().is_none());
            }
        }
    }

    fn note_place(&mut self, number: usize, is_root: bool) {
        if is_root {
            self.note(number);
        }
        self.placed.note(number);
    }
}

/// Adds what is wrong with the references of descriptions, and of what they lead to, in documents that are asked about; and notes how
/// much there is. Fails only if out of memory.
pub(crate) fn add_described<'d>(
    alloc: Global,
    workspace: &'d Workspace,
    described: &mut Described,
    list: &mut Vec<Finding<'d>>,
) -> Result<(), AllocError> {
    if !described.is_any() {
        return Ok(());
    }
    described.no_objects = Some(Vec::new(alloc));
    let faults = faults_of(alloc, workspace, described)?;
    for fault in each_once(alloc, faults)? {
        add_fault(workspace, fault, list)?;
    }
    match described.no_objects.take() {
        Some(found) => add_all_no_objects(alloc, workspace, found, list),
        None => Ok(()),
    }
}

// What is wrong with the references of descriptions, in any document.
fn faults_of<'d>(
    alloc: Global,
    workspace: &Workspace,
    described: &mut Described,
) -> Result<Vec<Fault<'d>>, AllocError> {
    let numbered = numbered_sources(alloc, workspace, &*described)?;
    faults_by(alloc, workspace, &numbered, described)
}

fn faults_by<'d>(
    alloc: Global,
    workspace: &Workspace,
    numbered: &Numbered<'_>,
    described: &mut Described,
) -> Result<Vec<Fault<'d>>, AllocError> {
    let documents = documents_of(alloc, workspace.draft(), numbered.sources.as_slice())?;
    let numbers = numbered.numbers.as_slice();
    let sources = numbered.sources.as_slice();
    let asked = workspace.asked();
    described.add_misnamed(alloc, asked, (sources, numbers), documents.own())?;
    faults_among(alloc, asked, numbers, &documents, described)
}

fn faults_among<'d, 'r>(
    alloc: Global,
    asked: usize,
    numbers: &[usize],
    documents: &Documents<'r>,
    described: &mut Described,
) -> Result<Vec<Fault<'d>>, AllocError> {
    let reached = reach(alloc, documents)?;
    described.note_reached(alloc, asked, numbers, documents.own(), &reached)?;
    described.add_links(alloc, numbers, documents, documents.own())?;
    described.add_links(alloc, numbers, documents, reached.places.as_slice())?;
    described.add_no_objects(alloc, numbers, documents, documents.own())?;
    described.add_no_objects(alloc, numbers, documents, reached.places.as_slice())?;
    described.add_told(alloc, asked, numbers, documents.own())?;
    described.add_told(alloc, asked, numbers, reached.places.as_slice())?;
    described.add_beside(alloc, asked, numbers, documents.own())?;
    described.add_beside(alloc, asked, numbers, reached.places.as_slice())?;
    faults_in(alloc, numbers, documents.own(), documents.own(), reached)
}

/// What is wrong with references, by what was reached beside own places, and the places that descriptions have by themselves.
pub(crate) fn faults_in<'d, 'r>(
    alloc: Global,
    numbers: &[usize],
    own: &[Place<'r>],
    described: &[Place<'r>],
    reached: Reached<'r>,
) -> Result<Vec<Fault<'d>>, AllocError> {
    let Reached {
        places,
        findings,
        ..
    } = reached;
    let anchors = anchors_for(alloc, findings.as_slice(), described, places.as_slice())?;
    let mut list = Vec::new(alloc);
    for found in findings {
        if let Some(place) = place_among(&*own, places.as_slice(), found.place) {
            let number = numbers.get(place.document).copied().unwrap_or(usize::MAX);
            if let Some(fault) = fault_at(alloc, number, place, &anchors, found)? {
                push_fault(&mut list, fault)?;
            }
        }
    }
    Ok(list)
}

// The place with a number: first those that descriptions have by themselves, and then those that are reached.
fn place_among<'p, 'r>(
    own: &'p [Place<'r>],
    more: &'p [Place<'r>],
    number: usize,
) -> Option<&'p Place<'r>> {
    match number.checked_sub(own.len()) {
        Some(rest) => more.get(rest),
        None => own.get(number),
    }
}

// What is wrong with a reference of a place, where these anchors leave something wrong.
fn fault_at<'d>(
    alloc: Global,
    document: usize,
    place: &Place<'_>,
    anchors: &Anchors,
    found: ReachFinding<'_>,
) -> Result<Option<Fault<'d>>, AllocError> {
    let ReachFinding {
        under,
        keyword,
        text,
        problem,
        ..
    } = found;
    let wanted = wanted_at(alloc, place, (under, keyword))?;
    let Some(problem) = anchors.judged(alloc, problem, wanted, text)? else {
        return Ok(None);
    };
    let path = own_path(alloc, place, under)?;
    let keyword = String::from_str(alloc, keyword)?;
    Ok(Some(Fault {
        document,
        path,
        keyword,
        wanted,
        problem,
    }))
}

// The kind of the object that the reference under a key of a place is to lead to.
fn wanted_at(
    alloc: Global,
    place: &Place<'_>,
    (under, keyword): (Under, &str),
) -> Result<Option<Kind>, AllocError> {
    for reference in references(alloc, place.reading, place.value)? {
        if reference.under == under && reference.keyword == keyword {
            return Ok(Some(reference.wanted));
        }
    }
    Ok(None)
}

fn push_fault<'d>(list: &mut Vec<Fault<'d>>, fault: Fault<'d>) -> Result<(), AllocError> {
    list.push(fault)?;
    Ok(())
}

/// Faults, each once: a place that is reached with several versions, kinds, drafts or bases may have one fault with each.
pub(crate) fn each_once<'d>(
    alloc: Global,
    faults: Vec<Fault<'d>>,
) -> Result<Vec<Fault<'d>>, AllocError> {
    let mut seen = BTreeSet::new(alloc);
    let mut list = Vec::new(alloc);
    for fault in faults {
        if seen.insert(name_of(alloc, &fault)?)? {
            push_fault(&mut list, fault)?;
        }
    }
    Ok(list)
}

// A text that tells faults apart: where the reference is, what it means, and where that is of another kind, which kind is needed.
fn name_of(alloc: Global, fault: &Fault<'_>) -> Result<String, AllocError> {
    let (uri, kind) = match &fault.problem {
        ReachProblem::MissingDocument { uri } => (uri.as_str(), ""),
        ReachProblem::LeadsNowhere { uri, .. } => (uri.as_str(), ""),
        ReachProblem::WrongKind { uri, wanted, .. } => (uri.as_str(), wanted.name()),
        ReachProblem::Unchecked { uri } => (uri.as_str(), ""),
        _ => ("", ""),
    };
    let pointer = pointer_of(alloc, fault.path.as_slice())?;
    let (number, keyword) = (fault.document, fault.keyword.as_str());
    format!(in alloc; "{number} {kind} {uri} {keyword} {pointer}")
}

/// Adds the finding of a fault, where its document is asked about.
pub(crate) fn add_fault<'d>(
    workspace: &'d Workspace,
    fault: Fault<'d>,
    list: &mut Vec<Finding<'d>>,
) -> Result<(), AllocError> {
    if fault.document >= workspace.asked() || is_unread(workspace, &fault.problem) {
        return Ok(());
    }
    match workspace.value(fault.document) {
        Some(root) => push(list, finding_of(root, fault)),
        None => Ok(()),
    }
}

// A finding, with the keyword and the text of the document itself.
fn finding_of<'d>(root: &'d Value, fault: Fault<'d>) -> Finding<'d> {
    let Fault {
        document,
        path,
        keyword,
        wanted,
        problem,
    } = fault;
    let (own, text) = texts_at(root, path.as_slice(), keyword.as_str());
    Finding {
        source: document,
        path,
        keyword: own,
        text,
        wanted,
        problem: problem_of(problem),
    }
}

/// The key of a member of the value at a path, and its text.
pub(crate) fn texts_at<'d>(
    root: &'d Value,
    path: &[JsonPointerSegment<'_>],
    keyword: &str,
) -> (Option<&'d str>, Option<&'d str>) {
    let Some(value) = value_at(root, path) else {
        return (None, None);
    };
    match member_of(value, keyword) {
        Some((key, member)) => (Some(key), member.as_str()),
        None => (None, None),
    }
}

impl Workspace {
    /// The places of the descriptions among the documents, and of what their references lead to, with the references of these; and after them,
    /// where it is asked for, what the references of schemas lead to where no keyword does. Fails only if out of memory. Linear; what
    /// schemas lead to takes a walk over all documents.
    pub fn description<'d>(
        &'d self,
        alloc: Global,
        has_led: bool,
    ) -> Result<Description<'d>, AllocError> {
        self.description_among(alloc, &[], has_led)
    }

    /// The same of those documents that are looked at, by flags: one without a flag is.
    pub fn description_among<'d>(
        &'d self,
        alloc: Global,
        there: &[bool],
        has_led: bool,
    ) -> Result<Description<'d>, AllocError> {
        let mut described = Described::among(alloc, self, there)?;
        let mut description = Description {
            places: Vec::new(alloc),
            references: Vec::new(alloc),
            is_described: Vec::new(alloc),
        };
        if described.is_any() {
            self.describe(alloc, &mut described, &mut description)?;
        }
        if has_led {
            add_led_places(alloc, self, &described, &mut description)?;
        }
        description.is_described = described.into_flags();
        Ok(description)
    }

    fn describe<'d>(
        &self,
        alloc: Global,
        described: &mut Described,
        description: &mut Description<'d>,
    ) -> Result<(), AllocError> {
        let numbered = numbered_sources(alloc, self, &*described)?;
        self.describe_by(alloc, &numbered, described, description)
    }

    fn describe_by<'d>(
        &self,
        alloc: Global,
        numbered: &Numbered<'_>,
        described: &mut Described,
        description: &mut Description<'d>,
    ) -> Result<(), AllocError> {
        let documents = documents_of(alloc, self.draft(), numbered.sources.as_slice())?;
        let numbers = numbered.numbers.as_slice();
        description.add_all(alloc, self, numbers, &documents, described)
    }

    /// The URIs of documents that references of descriptions lead into and that aren't there, in the order in which they are met; a URI may come
    /// more than once. Fails only if out of memory.
    pub fn missing_parts(&self, alloc: Global) -> Result<Vec<Uri>, AllocError> {
        let mut described = Described::of(alloc, self)?;
        let mut uris = Vec::new(alloc);
        if !described.is_any() {
            return Ok(uris);
        }
        for fault in faults_of(alloc, self, &mut described)? {
            self.push_missing(&mut uris, &fault.problem)?;
        }
        Ok(uris)
    }

    /// Adds the URI of a document that isn't there.
    pub(crate) fn push_missing(
        &self,
        uris: &mut Vec<Uri>,
        problem: &ReachProblem,
    ) -> Result<(), AllocError> {
        let ReachProblem::MissingDocument { uri } = problem else {
            return Ok(());
        };
        if !is_unread(self, problem) {
            let uri: &Uri = uri;
            uris.push(uri.clone()?)?;
        }
        Ok(())
    }
}

impl<'d> Description<'d> {
    /// Whether the document with a number is a description, or a part that a reference leads to as a whole.
    pub fn is_described_at(&self, number: usize) -> bool {
        self.is_described.get(number).copied().unwrap_or(false)
    }

    // Adds the places that descriptions have by themselves, and then those that are reached.
    fn add_all<'r>(
        &mut self,
        alloc: Global,
        workspace: &Workspace,
        numbers: &[usize],
        documents: &Documents<'r>,
        described: &mut Described,
    ) -> Result<(), AllocError> {
        let reached = reach(alloc, documents)?;
        described.note_parts(numbers, reached.places.as_slice());
        self.add_places(alloc, workspace, numbers, documents.own())?;
        self.add_places(alloc, workspace, numbers, reached.places.as_slice())
    }

    /// Adds places, with their references.
    pub(crate) fn add_places(
        &mut self,
        alloc: Global,
        workspace: &Workspace,
        numbers: &[usize],
        places: &[Place<'_>],
    ) -> Result<(), AllocError> {
        for place in places {
            if let Some(document) = numbers.get(place.document).copied() {
                self.add_place(alloc, document, place)?;
                self.add_references(alloc, workspace, document, place)?;
            }
        }
        Ok(())
    }

    fn add_place(
        &mut self,
        alloc: Global,
        document: usize,
        place: &Place<'_>,
    ) -> Result<(), AllocError> {
        let path = own_path(alloc, place, Under::Itself)?;
        let base = place.base.clone()?;
        self.places.push(DescribedPlace {
            document,
            path,
            reading: place.reading,
            base,
        })?;
        Ok(())
    }

    fn add_references(
        &mut self,
        alloc: Global,
        workspace: &Workspace,
        document: usize,
        place: &Place<'_>,
    ) -> Result<(), AllocError> {
        for reference in references(alloc, place.reading, place.value)? {
            if let Some(text) = reference.text {
                let is_mapped = reference.under == Under::Mapping;
                if !(is_mapped && is_name(workspace, document, text)) {
                    self.add_reference(alloc, document, place, text)?;
                }
            }
        }
        Ok(())
    }

    // Adds the text of a reference of a place, where it means a URI.
    fn add_reference(
        &mut self,
        alloc: Global,
        document: usize,
        place: &Place<'_>,
        text: &str,
    ) -> Result<(), AllocError> {
        match resolve_against(alloc, place.base.borrow(), text) {
            Ok(uri) => {
                let mut uri = uri;
                uri.drop_fragment();
                let is_fragment = text.starts_with('#');
                let fragment = String::from_str(alloc, fragment_of(text))?;
                self.references.push(DescribedReference {
                    document,
                    place: self.places.len().saturating_sub(1),
                    is_fragment,
                    fragment,
                    uri,
                })?;
                Ok(())
            }
            Err(UriFault::Memory(error)) => Err(error),
            Err(UriFault::Invalid(error)) => {
                drop(error);
                Ok(())
            }
        }
    }
}

// Whether a text of a mapping is the name of a schema: of the description that it is in, or, in a document that is none, of any.
fn is_name(workspace: &Workspace, document: usize, text: &str) -> bool {
    let own = workspace.value(document);
    if own.is_some_and(is_description) {
        return own.is_some_and(|root| has_schema(root, text));
    }
    for number in 0..workspace.len() {
        let other = workspace.value(number);
        if other.is_some_and(|root| is_description(root) && has_schema(root, text)) {
            return true;
        }
    }
    false
}

// Whether a description has a schema of this name among its components.
fn has_schema(root: &Value, name: &str) -> bool {
    match root.pointer("/components/schemas") {
        Some(schemas) => schemas.get(name).is_some(),
        None => false,
    }
}

fn is_description(value: &Value) -> bool {
    version_of(value).is_some()
}

// Whether a document is missing only since it has no value, which is told of it already.
fn is_unread(workspace: &Workspace, problem: &ReachProblem) -> bool {
    let ReachProblem::MissingDocument { uri } = problem else {
        return false;
    };
    for document in workspace.documents() {
        if document.value().is_none() && document.uri.as_str() == uri.as_str() {
            return true;
        }
    }
    false
}

// What is wrong, as it is said of all documents.
fn problem_of<'d>(problem: ReachProblem) -> Problem<'d> {
    match problem {
        ReachProblem::NotAText => Problem::Plain(SchemaProblem::NotAText),
        ReachProblem::InvalidUri(error) => Problem::Plain(SchemaProblem::InvalidUri(error)),
        ReachProblem::MissingDocument { uri } => {
            Problem::Plain(SchemaProblem::MissingDocument { uri })
        }
        ReachProblem::LeadsNowhere { uri, error } => {
            Problem::Plain(SchemaProblem::LeadsNowhere { uri, error })
        }
        ReachProblem::Unchecked { uri } => Problem::Plain(SchemaProblem::Unchecked { uri }),
        ReachProblem::WrongKind { uri, is, wanted } => Problem::WrongKind { uri, is, wanted },
    }
}

// The member of an object that has a name, with its key.
fn member_of<'d>(value: &'d Value, name: &str) -> Option<(&'d str, &'d Value)> {
    let members = value.as_object()?;
    for (key, member) in members.iter() {
        if key.as_str() == name {
            return Some((key.as_str(), member));
        }
    }
    None
}

/// The pointer to a place (RFC 6901).
pub(crate) fn pointer_at(alloc: Global, place: &Place<'_>) -> Result<String, AllocError> {
    let path = segments_of(alloc, &place.path)?;
    pointer_of(alloc, path.as_slice())
}

/// The path of a place, with keys of its own.
pub(crate) fn owned_path<'d>(
    alloc: Global,
    place: &Place<'_>,
) -> Result<Vec<JsonPointerSegment<'d>>, AllocError> {
    let mut path = Vec::new(alloc);
    for segment in segments_of(alloc, &place.path)? {
        path.push(owned(alloc, &segment)?)?;
    }
    Ok(path)
}

// The path of what has the text of a reference, with keys of its own.
fn own_path<'d>(
    alloc: Global,
    place: &Place<'_>,
    under: Under,
) -> Result<Vec<JsonPointerSegment<'d>>, AllocError> {
    let mut path = owned_path(alloc, place)?;
    if under == Under::Mapping {
        path.push(JsonPointerSegment::from("discriminator"))?;
        path.push(JsonPointerSegment::from("mapping"))?;
    }
    Ok(path)
}

/// The path that a pointer means in a value, with keys of its own, where it leads to one (RFC 6901, 4).
pub(crate) fn owned_path_to<'d>(
    alloc: Global,
    root: &Value,
    pointer: &str,
) -> Result<Option<Vec<JsonPointerSegment<'d>>>, AllocError> {
    let Some(path) = path_to(alloc, Some(root), pointer)? else {
        return Ok(None);
    };
    let mut own = Vec::with_capacity(alloc, path.len())?;
    for segment in &path {
        own.push(owned(alloc, segment)?)?;
    }
    Ok(Some(own))
}

/// A step with a key of its own.
pub(crate) fn owned<'d>(
    alloc: Global,
    step: &JsonPointerSegment<'_>,
) -> Result<JsonPointerSegment<'d>, AllocError> {
    match step {
        JsonPointerSegment::Key(key) => {
            let key = String::from_str(alloc, key.as_str())?;
            Ok(JsonPointerSegment::Key(CowStr::Owned(key)))
        }
        JsonPointerSegment::Index(index) => Ok(JsonPointerSegment::Index(*index)),
    }
}
