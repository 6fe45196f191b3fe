//! Where a reference leads from a place.
ghost use Rattle.std.specs.Prelude.{◌≡◌, ◌++◌, ◌∷◌, [], map, not, Err, Result, option_map, IfOk, IfSome, string_bytes};
ghost use Rattle.serde_json.specs.View.{view};
ghost use Rattle.serde_json.specs.Find.{get};
ghost use Rattle.ref_paths.specs.Path.{child_at, value_at};
ghost use Rattle.ref_paths.specs.Segment.{part_of};
ghost use Rattle.ref_draft.specs.Keywords.{is_unknown};
ghost use Rattle.ref_draft.specs.Schema.{from_schema_uri};
ghost use Rattle.ref_definitions.specs.Fault.{Fault};
ghost use Rattle.ref_error.specs.Errors.{IsFaultOf, SaysFault};
ghost use Rattle.ref_definitions.specs.Lookup.{Found as WorldFound};
ghost use Rattle.ref_resolver.specs.Resolving.{found_of};
ghost use Rattle.ref_resolver.specs.Locations.{location_view};
ghost use Rattle.ref_descriptions.specs.Views.{path_under, reference_of};
ghost use Rattle.ref_reach.specs.Leading as spec;
ghost use Rattle.ref_reach.specs.Leading.{names_draft, draft_around, reading_led, is_root, base_around, identifier_led, place_led, is_kind, version_text, led_to_own, missing, is_with_drafts, has_anchors, by_fault, text_outcome};
ghost use Rattle.ref_reach.specs.Views.{place_of};
ghost use Rattle.ref_reach.specs.Knowing.{known_of};
ghost use Rattle.ref_reach.specs.inner.Saying.{IsOutcome, target_of};

use crate::described::Documents;
use crate::finding::Problem;
use crate::mapped::is_name;
use crate::place::{Place, identifier};
use crate::table::pointer;
use ref_descriptions::{Kind, Reading, Reference, Under, Version};
use ref_draft::Draft;
use ref_error::Error;
use ref_index::meanings::{target_of, text_under};
use ref_index::segments_of;
use ref_parts::list::List;
use ref_parts::path::{JsonPointerNode, JsonPointerSegment};
use ref_resolver::{Layers, Location, Resolved, Resolver};
use ref_uri::parts::parts;
use ref_uri::{Uri, UriFault};
use serde_json::Value;
use std::alloc::{AllocError, Global};
use std::rc::Rc;

/// What a reference is.
#[derive(Drop)]
pub(crate) enum Outcome<'r> {
    /// It leads to a place that no description has by itself.
    Leads(Place<'r>),
    /// It leads to what is a place anyhow, or to what is no object.
    Nothing,
    /// It is wrong, or is noted.
    Wrong(Problem),
}

/// A value that was found, and where.
#[derive(Drop)]
pub struct Target<'r> {
    /// The number of its document, counted from 0.
    pub document: usize,
    /// Its path in the document.
    pub path: JsonPointerNode<'r>,
    /// The value, which is the document's own.
    pub value: &'r Value,
    /// The draft that the look-up reads it by.
    pub draft: Draft,
    /// The base URI there, by the look-up.
    pub base: Rc<Uri>,
}

// Segments with more after them.
fn joined<'s>(
    first: Vec<JsonPointerSegment<'s>>,
    more: Vec<JsonPointerSegment<'s>>,
) -> Result<Vec<JsonPointerSegment<'s>>, AllocError>
    ensures { IfOk result
        (λ list. map part_of list.items
        ≡ map part_of first.entry.items ++ map part_of more.entry.items) }
{
    let mut list = first;
    for segment in more {
        list.push(segment)?;
    }
    Ok(list)
}

// The document and the path of a location, where it is in one of the documents, or in a part of one.
fn origin<'s>(
    alloc: Global,
    documents: &'s Documents<'_>,
    location: Location<'s>,
) -> Result<Option<(usize, Vec<JsonPointerSegment<'s>>)>, AllocError>
    ensures { IfOk result
        (λ at. option_map (λ a. (a.0, map part_of a.1.items)) at
        ≡ spec.origin (known_of documents.now) (location_view location.entry).1) }
{
    let Location { document, path, .. } = location;
    if document < documents.len() {
        return Ok(Some((document, path)));
    }
    match documents.parts.get(document - documents.len()) {
        Some(part) => {
            let first = segments_of(alloc, &part.path)?;
            Ok(Some((part.document, joined(first, path)?)))
        }
        None => Ok(None),
    }
}

// What a segment leads to, and the segment with the key that the value has.
fn step<'v>(
    value: &'v Value,
    segment: &JsonPointerSegment<'_>,
) -> Option<(JsonPointerSegment<'v>, &'v Value)>
    ensures value { option_map (λ p. view p.1.now) result
        ≡ child_at (view value.now) (part_of segment.now) }
    ensures segment { IfSome result (λ p. part_of p.0 ≡ part_of segment.now) }
{
    match segment {
        JsonPointerSegment::Key(key) => {
            let (name, inner) = member(value, key.as_str())?;
            Some((JsonPointerSegment::from(name), inner))
        }
        JsonPointerSegment::Index(index) => {
            let inner = value.get(*index)?;
            Some((JsonPointerSegment::from(*index), inner))
        }
    }
}

// The member of an object with a key, and the object's own key.
fn member<'v>(value: &'v Value, key: &str) -> Option<(&'v String, &'v Value)>
    ensures value { option_map (λ p. view p.1.now) result ≡ get key.now (view value.now) }
    ensures key { IfSome result (λ p. string_bytes p.0.now ≡ key.now) }
{
    let members = value.as_object()?;
    let (name, inner) = members.get_key_value(key)?;
    Some((name, inner))
}

// The value at a path, and the path with the keys that the values have.
fn value_at<'v>(
    alloc: Global,
    value: &'v Value,
    path: &[JsonPointerSegment<'_>],
) -> Result<Option<(JsonPointerNode<'v>, &'v Value)>, AllocError>
    ensures value { IfOk result
        (λ found. option_map (λ p. view p.1.now) found
        ≡ value_at (view value.now) (map part_of path.now)) }
    ensures path { IfOk result (λ found. IfSome found (λ p. p.0 ≡ map part_of path.now)) }
{
    let mut at = JsonPointerNode::new();
    let mut value = value;
    for segment in path {
        let Some((own, inner)) = step(value, segment) else {
            return Ok(None);
        };
        at = at.push(alloc, own)?;
        value = inner;
    }
    Ok(Some((at, value)))
}

/// What a look-up found, in the document's own value.
pub(crate) fn found_at<'v, 's>(
    alloc: Global,
    documents: &'s Documents<'v>,
    resolved: Resolved<'s>,
    location: Location<'s>,
) -> Result<Option<Target<'v>>, AllocError>
    ensures { IfOk result
        (λ t. option_map target_of t
        ≡ spec.target_found (known_of documents.now) (found_of resolved.entry)
        (location_view location.entry).1) }
{
    let Some((document, path)) = origin(alloc, documents, location)? else {
        return Ok(None);
    };
    let Some(root) = documents.values.get(document) else {
        return Ok(None);
    };
    let Some((path, value)) = value_at(alloc, *root, path.as_slice())? else {
        return Ok(None);
    };
    let (_, resolver, draft) = resolved.into_inner();
    let (base, scope) = resolver.into_parts();
    drop(scope);
    Ok(Some(Target {
        document,
        path,
        value,
        draft,
        base,
    }))
}

// Whether the root of a document names its draft.
fn names_draft(documents: &Documents<'_>, document: usize) -> bool
    ensures { result ≡ names_draft (known_of documents.now) document }
{
    match documents.values.get(document) {
        Some(root) => text_under(*root, "$schema").is_some(),
        None => false,
    }
}

// The draft around a value: that of its document, or that of the description that refers to it.
fn draft_around(documents: &Documents<'_>, from: Reading, target: &Target<'_>) -> Draft
    ensures { result ≡ draft_around (known_of documents.now) from (target_of target.now) }
{
    if from.version.is_some() && !names_draft(documents, target.document) {
        return from.draft;
    }
    target.draft
}

// How a value is read that a reference leads to from what is read so.
fn reading_of(
    documents: &Documents<'_>,
    from: Reading,
    wanted: Kind,
    target: &Target<'_>,
) -> Reading
    ensures { result ≡ reading_led (known_of documents.now) from wanted (target_of target.now) }
{
    let reading = Reading {
        kind: wanted,
        ..from
    };
    if !reading.is_by_draft() {
        return reading;
    }
    Reading {
        draft: draft_around(documents, from, target).detect(target.value),
        ..reading
    }
}

// Whether a path is that of a root.
fn is_root(path: &JsonPointerNode<'_>) -> bool
    ensures { result ≡ is_root path.now }
{
    path.parent().is_none()
}

// The base around what was found: the URI of its document for the root of that, and where identifiers mean nothing; else that of the
// look-up.
fn base_around(
    documents: &Documents<'_>,
    reading: Reading,
    target: &Target<'_>,
) -> Result<Rc<Uri>, AllocError>
    ensures { IfOk result
        (λ uri. uri.value ≡ base_around (known_of documents.now) reading (target_of target.now)) }
{
    if is_root(&target.path) || !reading.is_by_draft() {
        if let Some(uri) = documents.uris.get(target.document) {
            return uri.clone();
        }
    }
    target.base.clone()
}

// Its identifier, where it is a root.
fn identifier_led<'r>(reading: Reading, target: &Target<'r>) -> Option<&'r str>
    ensures { option_map (λ t. t.now) result ≡ identifier_led reading (target_of target.now) }
{
    if !is_root(&target.path) {
        return None;
    }
    identifier(reading, target.value)
}

// The place of what was found, which no description has by itself.
fn place_of<'r>(
    alloc: Global,
    documents: &Documents<'_>,
    reading: Reading,
    target: Target<'r>,
) -> Result<Place<'r>, AllocError>
    ensures { IfOk result
        (λ p. place_of p ≡ place_led (known_of documents.now) reading (target_of target.entry)) }
{
    let outer = base_around(documents, reading, &target)?;
    let text = identifier_led(reading, &target);
    let Target {
        document,
        path,
        value,
        ..
    } = target;
    Place::new(alloc, document, path, value, reading, &outer, text)
}

// Whether two kinds are the same.
fn is_kind(kind: Kind, other: Kind) -> bool
    ensures { result ≡ is_kind kind other }
{
    kind.name() == other.name()
}

// Whether two versions are.
fn is_version(version: Option<Version>, other: Option<Version>) -> bool
    ensures { result ≡ spec.is_version version other }
{
    version_text(version) == version_text(other)
}

/// The name of a version, where there is one.
pub(crate) fn version_text(version: Option<Version>) -> &'static str
    ensures value { result.now ≡ version_text version }
{
    match version {
        Some(version) => version.name(),
        None => "-",
    }
}

// What a reference is that leads to what no description has by itself.
fn led_elsewhere<'r>(
    alloc: Global,
    documents: &Documents<'r>,
    from: Reading,
    wanted: Kind,
    target: Target<'r>,
) -> Result<Outcome<'r>, AllocError>
    ensures { IfOk result
        (IsOutcome
        (spec.Leads
        (place_led (known_of documents.now)
        (reading_led (known_of documents.now) from wanted (target_of target.entry))
        (target_of target.entry)))) }
{
    let reading = reading_of(documents, from, wanted, &target);
    let place = place_of(alloc, documents, reading, target)?;
    Ok(Outcome::Leads(place))
}

// What a reference is that leads to what a description has by itself.
fn led_to_own<'r>(
    alloc: Global,
    documents: &Documents<'r>,
    from: Reading,
    wanted: Kind,
    uri: Rc<Uri>,
    target: Target<'r>,
    own: &Place<'r>,
) -> Result<Outcome<'r>, AllocError>
    ensures { IfOk result
        (IsOutcome
        (led_to_own (known_of documents.now) from wanted uri.value (target_of target.entry)
        (place_of own.now))) }
{
    let is = own.reading.kind;
    if !is_kind(is, wanted) {
        return Ok(Outcome::Wrong(Problem::WrongKind { uri, is, wanted }));
    }
    if is_version(own.reading.version, from.version) {
        return Ok(Outcome::Nothing);
    }
    let reading = reading_of(documents, from, wanted, &target);
    let Target {
        document,
        path,
        value,
        ..
    } = target;
    let place = Place::new(alloc, document, path, value, reading, &own.base, None)?;
    Ok(Outcome::Leads(place))
}

// What a reference is that leads to this.
fn led<'r>(
    alloc: Global,
    documents: &Documents<'r>,
    from: Reading,
    wanted: Kind,
    uri: Rc<Uri>,
    target: Target<'r>,
) -> Result<Outcome<'r>, AllocError>
    ensures { IfOk result
        (IsOutcome
        (spec.led (known_of documents.now) from wanted uri.value (target_of target.entry))) }
{
    if !target.value.is_object() {
        return Ok(Outcome::Nothing);
    }
    let pointer = pointer(alloc, &target.path)?;
    match documents.own_at(alloc, target.document, pointer.as_str())? {
        Some(own) => led_to_own(alloc, documents, from, wanted, uri, target, own),
        None => led_elsewhere(alloc, documents, from, wanted, target),
    }
}

// Whether a URI is that of the meta-schema of a draft.
fn is_meta_schema(uri: &Uri) -> bool
    ensures { result ≡ not (is_unknown (from_schema_uri uri.now)) }
{
    match Draft::from_schema_uri(uri.as_str()) {
        Draft::Unknown => false,
        _ => true,
    }
}

// What a reference is where nothing is under its URI.
fn missing<'r>(uri: Rc<Uri>, reference: &str) -> Outcome<'r>
    ensures { IsOutcome (missing uri.value reference.now) result }
{
    if !is_meta_schema(&uri) {
        return Outcome::Wrong(Problem::MissingDocument { uri });
    }
    let (_, fragment) = parts(reference);
    if fragment.is_empty() {
        return Outcome::Nothing;
    }
    Outcome::Wrong(Problem::Unchecked { uri })
}

// Whether a version has schemas of JSON Schema.
fn is_with_drafts(version: Option<Version>) -> bool
    ensures { result ≡ is_with_drafts version }
{
    match version {
        Some(Version::V3_1) | Some(Version::V3_2) => true,
        _ => false,
    }
}

// Whether a URI is that of a description whose schemas may have anchors.
fn has_anchors(alloc: Global, documents: &Documents<'_>, uri: &Rc<Uri>) -> Result<bool, AllocError>
    ensures { IfOk result (λ b. b ≡ has_anchors (known_of documents.now) uri.now.value) }
{
    let layers = Layers::new(&documents.index, &[]);
    let resolver = Resolver::from_parts(layers, uri.clone()?, List::new());
    match resolver.location(alloc, "#") {
        Ok(location) => {
            let version = documents.version(location.document);
            drop(location);
            Ok(is_with_drafts(version))
        }
        Err(Error::Memory(error)) => Err(error),
        Err(error) => {
            drop(error);
            Ok(false)
        }
    }
}

// What a reference is whose look-up has a fault.
fn unresolvable<'r>(
    alloc: Global,
    documents: &Documents<'_>,
    uri: Rc<Uri>,
    reference: &str,
    error: Error,
) -> Result<Outcome<'r>, AllocError>
    ensures { (fault : Fault) → SaysFault error fault
        → IfOk result
        (IsOutcome (by_fault (known_of documents.now) uri.value reference.now fault)) }
{
    match error {
        Error::Memory(error) => Err(error),
        Error::Unretrievable { .. } => {
            drop(error);
            Ok(missing(uri, reference))
        }
        Error::NoSuchAnchor { .. } if has_anchors(alloc, documents, &uri)? => {
            drop(error);
            Ok(Outcome::Wrong(Problem::Unchecked { uri }))
        }
        error => Ok(Outcome::Wrong(Problem::LeadsNowhere { uri, error })),
    }
}

// An error, unless it is out of memory.
fn fault_in(error: Error) -> Result<Error, AllocError>
    ensures { (meaning : Result WorldFound Fault) → IsFaultOf meaning error
        → IfOk result (λ e. (fault : Fault) × (meaning ≡ Err fault) × SaysFault e fault) }
{
    match error {
        Error::Memory(error) => Err(error),
        error => Ok(error),
    }
}

// What a text is that is a reference from a base.
fn text_outcome<'r>(
    alloc: Global,
    documents: &Documents<'r>,
    place: &Place<'r>,
    wanted: Kind,
    text: &str,
) -> Result<Outcome<'r>, AllocError>
    ensures { IfOk result
        (IsOutcome (text_outcome (known_of documents.now) (place_of place.now) wanted text.now)) }
{
    let uri = match target_of(alloc, &place.base, text) {
        Ok(uri) => uri,
        Err(UriFault::Memory(error)) => return Err(error),
        Err(UriFault::Invalid(error)) => {
            return Ok(Outcome::Wrong(Problem::InvalidUri(error)));
        }
    };
    let layers = Layers::new(&documents.index, &[]);
    let resolver = Resolver::from_parts(layers, place.base.clone()?, List::new());
    match resolver.lookup_located(alloc, text) {
        Ok((resolved, location)) => {
            match found_at(alloc, documents, resolved, location)? {
                Some(target) => led(alloc, documents, place.reading, wanted, uri, target),
                None => Ok(Outcome::Nothing),
            }
        }
        Err(error) => {
            let error = fault_in(error)?;
            unresolvable(alloc, documents, uri, text, error)
        }
    }
}

// Whether a text is in a mapping.
fn is_mapped(under: Under) -> bool
    ensures { result ≡ not (is_root (path_under under)) }
{
    match under {
        Under::Itself => false,
        Under::Mapping => true,
    }
}

/// What a reference of a place is.
pub(crate) fn outcome_of<'r>(
    alloc: Global,
    documents: &Documents<'r>,
    place: &Place<'r>,
    reference: Reference<'r>,
) -> Result<Outcome<'r>, AllocError>
    ensures value { IfOk result
        (IsOutcome
        (spec.outcome (known_of documents.now) (place_of place.now) (reference_of reference.entry))) }
{
    let Some(text) = reference.text else {
        return Ok(Outcome::Wrong(Problem::NotAText));
    };
    if is_mapped(reference.under) && is_name(documents, place.document, text) {
        return Ok(Outcome::Nothing);
    }
    text_outcome(alloc, documents, place, reference.wanted, text)
}
