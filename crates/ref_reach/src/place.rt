//! A place of a document, and how it is read.
ghost use Rattle.std.specs.Prelude.{◌≡◌, ◌++◌, [], ◌∷◌, map, IfOk, OnOk, option_map};
ghost use Rattle.serde_json.specs.View.{view};
ghost use Rattle.ref_descriptions.specs.Views.{inner_of};
ghost use Rattle.ref_reach.specs.Places.{meant, place_with, identifier_of, self_of, root_place, inner_place, below_place};
ghost use Rattle.ref_reach.specs.Schemas.{schema_root};
ghost use Rattle.ref_reach.specs.Views.{place_of};

use ref_descriptions::{Inner, Reading, Version, below, reading_of_root};
use ref_draft::{Draft, ResourceRef};
use ref_index::meanings::{if_meant, resolved, text_under};
use ref_parts::path::JsonPointerNode;
use ref_uri::Uri;
use serde_json::Value;
use std::alloc::{AllocError, Global};
use std::rc::Rc;

/// An object of a document, and how it is read.
#[derive(Drop)]
pub struct Place<'r> {
    /// The number of its document, counted from 0.
    pub document: usize,
    /// Its path in the document.
    pub path: JsonPointerNode<'r>,
    /// The object, which is the document's own.
    pub value: &'r Value,
    /// How it is read.
    pub reading: Reading,
    /// The base URI that its references are resolved against.
    pub base: Rc<Uri>,
    /// Whether it has that by an identifier, or a `$self`, of its own.
    pub is_identified: bool,
}

// The URI that a text means against a base, where there is a text that means one.
fn meant(alloc: Global, outer: &Rc<Uri>, text: Option<&str>) -> Result<Option<Rc<Uri>>, AllocError>
    ensures { IfOk result
        (λ uri. option_map (λ u. u.value) uri
        ≡ meant outer.now.value (option_map (λ t. t.now) text.entry)) }
{
    match text {
        Some(text) => if_meant(resolved(alloc, outer, text)),
        None => Ok(None),
    }
}

/// The identifier of a value that is read so: a schema of a draft may have one (2020-12 Core, 8.2.1).
pub(crate) fn identifier<'v>(reading: Reading, value: &'v Value) -> Option<&'v str>
    ensures value { option_map (λ t. t.now) result ≡ identifier_of reading (view value.now) }
{
    if !reading.is_by_draft() {
        return None;
    }
    ResourceRef::new(value, reading.draft).id()
}

impl<'r> Place<'r> {
    /// The place of a value, which may have a URI of its own by a text.
    pub(crate) fn new(
        alloc: Global,
        document: usize,
        path: JsonPointerNode<'r>,
        value: &'r Value,
        reading: Reading,
        outer: &Rc<Uri>,
        text: Option<&str>,
    ) -> Result<Place<'r>, AllocError>
        ensures value { IfOk result
            (λ p. place_of p
            ≡ place_with document path.entry (view value.now) reading outer.now.value
            (option_map (λ t. t.now) text.entry)) }
    {
        let own = meant(alloc, outer, text)?;
        let is_identified = own.is_some();
        let base = match own {
            Some(own) => own,
            None => outer.clone()?,
        };
        Ok(Place {
            document,
            path,
            value,
            reading,
            base,
            is_identified,
        })
    }
}

// The `$self` of a description.
fn self_in<'v>(version: Version, value: &'v Value) -> Option<&'v str>
    ensures { option_map (λ t. t.now) result ≡ self_of version (view value.now) }
{
    match version {
        Version::V3_2 => text_under(value, "$self"),
        _ => None,
    }
}

/// The root of a description, under the URI of its document. In 3.2 its `$self` is its base (3.2, "OpenAPI Object").
pub(crate) fn root_of<'r>(
    alloc: Global,
    document: usize,
    uri: &Rc<Uri>,
    value: &'r Value,
    version: Version,
) -> Result<Place<'r>, AllocError>
    ensures value { IfOk result
        (λ p. place_of p ≡ root_place document uri.now.value (view value.now) version) }
{
    let text = self_in(version, value);
    let reading = reading_of_root(version, value);
    Place::new(
        alloc,
        document,
        JsonPointerNode::new(),
        value,
        reading,
        uri,
        text,
    )
}

/// The root of a document as a schema, under the URI of the document: of the draft that it names, or else of this one.
pub(crate) fn schema_root<'r>(
    alloc: Global,
    document: usize,
    uri: &Rc<Uri>,
    value: &'r Value,
    draft: Draft,
) -> Result<Place<'r>, AllocError>
    ensures value { IfOk result
        (λ p. place_of p ≡ schema_root draft document uri.now.value (view value.now)) }
{
    let reading = Reading::of_schema(draft.detect(value));
    let text = identifier(reading, value);
    Place::new(
        alloc,
        document,
        JsonPointerNode::new(),
        value,
        reading,
        uri,
        text,
    )
}

// Adds a place after the others.
fn push<'r>(places: &mut Vec<Place<'r>>, place: Place<'r>) -> Result<(), AllocError>
    ensures { OnOk result (places.new.items ≡ places.old.items ++ place.entry ∷ []) }
{
    places.push(place)?;
    Ok(())
}

// The path of an object below another.
fn path_below<'r>(
    alloc: Global,
    path: &JsonPointerNode<'r>,
    inner: Inner<'r>,
) -> Result<JsonPointerNode<'r>, AllocError>
    ensures { IfOk result (λ below. below ≡ path.now ++ (inner_of inner.entry).path) }
{
    let Inner {
        keyword,
        segment,
        ..
    } = inner;
    let under = path.push(alloc, keyword)?;
    match segment {
        Some(segment) => under.push(alloc, segment),
        None => Ok(under),
    }
}

impl<'r> Place<'r> {
    /// The same place again: handles of its path and base.
    pub(crate) fn again(&self) -> Result<Place<'r>, AllocError>
        ensures value { IfOk result (λ p. place_of p ≡ place_of self.now) }
    {
        let path = self.path.clone()?;
        let base = self.base.clone()?;
        Ok(Place {
            document: self.document,
            path,
            value: self.value,
            reading: self.reading,
            base,
            is_identified: self.is_identified,
        })
    }

    // An object right below it.
    fn inner(&self, alloc: Global, inner: Inner<'r>) -> Result<Place<'r>, AllocError>
        ensures { IfOk result
            (λ p. place_of p ≡ inner_place (place_of self.now) (inner_of inner.entry)) }
    {
        let (value, reading) = (inner.value, inner.reading);
        let path = path_below(alloc, &self.path, inner)?;
        let text = identifier(reading, value);
        Place::new(alloc, self.document, path, value, reading, &self.base, text)
    }

    /// The objects right below it, in order.
    pub(crate) fn below(&self, alloc: Global) -> Result<Vec<Place<'r>>, AllocError>
        ensures value { IfOk result
            (λ places. map place_of places.items ≡ below_place (place_of self.now)) }
    {
        let mut places = Vec::new(alloc);
        for inner in below(alloc, self.reading, self.value)? {
            let place = self.inner(alloc, inner)?;
            push(&mut places, place)?;
        }
        Ok(places)
    }
}
