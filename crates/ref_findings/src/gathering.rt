//! The documents that sources want and that are retrieved.
ghost use Rattle.std.specs.Prelude.{◌≡◌, ◌+◌, ◌≤◌, ◌<◌, ℕ, List, [], ◌∷◌, length, map, flat_map, bytes_eq, option_map, IfOk, IfSome, IfNone, OnOk};
ghost use Rattle.std.specs.Option.{option_to_list};
ghost use Rattle.std.specs.List.{AllByRecursion, list_any};
ghost use Rattle.serde_json.specs.View.{view};
ghost use Rattle.ref_definitions.specs.Resources.{own_uri};
ghost use Rattle.ref_findings.specs.Sources.{uris_in};
ghost use Rattle.ref_findings.specs.Gathered.{referred_uri, dynamic_uri, dialect_uri, wanted_at, wanted_by, MayReturn, IsGathered};
ghost use Rattle.ref_findings.specs.Entries.{source_of};
ghost use Rattle.ref_findings.specs.Held.{held_source};
ghost use Rattle.ref_findings.specs.inner.Seen.{place_of, seen_survey};
ghost use Rattle.ref_findings.specs.inner.Wanted.{AreMet, Grows, wanted_of, uris_seen, wanted_seen, source_asked, GoesOn};

use crate::place::Place;
use crate::source::Source;
use crate::survey::{Survey, surveys_of};
use crate::walk::places_of;
use ref_draft::Draft;
use ref_error::{Retrieve, RetrieveError};
use ref_index::meanings::{if_meant, meta_schema_of, target_of};
use ref_uri::Uri;
use serde_json::Value;
use std::alloc::{AllocError, Global};
use std::collections::HashMap;
use std::rc::Rc;

/// A document that was retrieved: the URI that it was retrieved for, and its value.
#[derive(Drop)]
pub struct Held {
    /// The URI.
    pub uri: Uri,
    /// The value.
    pub value: Value,
}

/// What documents want, and which URIs are known: those that documents and their places have, and those that were refused.
#[derive(Drop)]
pub(crate) struct Wants {
    wanted: Vec<Rc<Uri>>,
    // How many of them were gone through.
    next: usize,
    met: HashMap<Uri, ()>,
}

impl Wants {
    /// Whether a URI is known. Takes no memory.
    pub fn knows(&self, uri: &Uri) -> bool
        ensures value { (uris : List (List ℕ)) → AreMet self.now uris
            → result ≡ list_any (λ known. bytes_eq known uri.now) uris }
    {
        self.met.contains_key(uri)
    }

    // Adds that a URI is known.
    fn meet(&mut self, uri: &Uri) -> Result<(), AllocError>
        ensures grows { OnOk result (Grows self.old self.new (uri.now ∷ []) []) }
        ensures wanted { self.new.wanted.items ≡ self.old.wanted.items }
    {
        if !self.met.contains_key(uri) {
            self.met.insert(uri.clone()?, ())?;
        }
        Ok(())
    }

    // Adds that a URI is known, where there is one.
    fn meet_own(&mut self, uri: Option<&Rc<Uri>>) -> Result<(), AllocError>
        ensures { OnOk result
            (Grows self.old self.new (option_to_list (option_map (λ u. u.now.value) uri.entry))
            []) }
    {
        match uri {
            Some(uri) => self.meet(uri),
            None => Ok(()),
        }
    }

    // Adds that a URI is wanted, where there is one.
    fn want(&mut self, uri: Option<Rc<Uri>>) -> Result<(), AllocError>
        ensures { OnOk result
            (Grows self.old self.new [] (option_to_list (option_map (λ u. u.value) uri))) }
    {
        match uri {
            Some(uri) => Ok(self.wanted.push(uri)?),
            None => Ok(()),
        }
    }

    // Adds what a place has and wants.
    fn add(&mut self, alloc: Global, place: &Place<'_>) -> Result<(), AllocError>
        ensures { OnOk result
            (Grows self.old self.new (option_to_list (own_uri (place_of place.now)))
            (wanted_at (place_of place.now))) }
    {
        self.meet_own(place.own_uri())?;
        let referred = referred(alloc, place)?;
        self.want(referred)?;
        let dynamic = dynamic(alloc, place)?;
        self.want(dynamic)?;
        let dialect = dialect(alloc, place)?;
        self.want(dialect)
    }

    // Adds what places have and want.
    fn add_places(&mut self, alloc: Global, places: &[Place<'_>]) -> Result<(), AllocError>
        ensures { OnOk result
            (Grows self.old self.new
            (flat_map (λ p. option_to_list (own_uri p)) (map place_of places.now))
            (flat_map wanted_at (map place_of places.now))) }
    {
        for place in places {
            self.add(alloc, place)?;
        }
        Ok(())
    }

    // Adds the URI of a document, and what its places have and want.
    fn add_document(
        &mut self,
        alloc: Global,
        uri: &Uri,
        places: &[Place<'_>],
    ) -> Result<(), AllocError>
        ensures { OnOk result
            (Grows self.old self.new
            (uri.now ∷ flat_map (λ p. option_to_list (own_uri p)) (map place_of places.now))
            (flat_map wanted_at (map place_of places.now))) }
    {
        self.meet(uri)?;
        self.add_places(alloc, places)
    }
}

/// The URI that the reference of a place points into, where it has one that means a URI.
pub(crate) fn referred(alloc: Global, place: &Place<'_>) -> Result<Option<Rc<Uri>>, AllocError>
    ensures { IfOk result
        (λ uri. option_map (λ u. u.value) uri ≡ referred_uri (place_of place.now)) }
{
    let Some(reference) = place.reference() else {
        return Ok(None);
    };
    if_meant(target_of(alloc, place.base(), reference))
}

// The URI that the dynamic reference of a place points into, where it has one that means a URI.
fn dynamic(alloc: Global, place: &Place<'_>) -> Result<Option<Rc<Uri>>, AllocError>
    ensures { IfOk result
        (λ uri. option_map (λ u. u.value) uri ≡ dynamic_uri (place_of place.now)) }
{
    let Some(reference) = place.dynamic() else {
        return Ok(None);
    };
    if_meant(target_of(alloc, place.base(), reference))
}

// The URI that the `$schema` of a place names, where it names no known draft and means a URI.
fn dialect(alloc: Global, place: &Place<'_>) -> Result<Option<Rc<Uri>>, AllocError>
    ensures { IfOk result
        (λ uri. option_map (λ u. u.value) uri ≡ dialect_uri (place_of place.now)) }
{
    let Some(text) = place.schema() else {
        return Ok(None);
    };
    if Draft::from_schema_uri(text) != Draft::Unknown {
        return Ok(None);
    }
    if_meant(meta_schema_of(alloc, text))
}

// The document under a URI, where the retriever returns one.
fn retrieved<R: Retrieve>(
    alloc: Global,
    retriever: &R,
    uri: &Uri,
) -> Result<Option<Value>, AllocError>
    ensures { IfOk result
        (λ value. MayReturn (R.meaning retriever.now) uri.now (option_map view value)) }
{
    match retriever.retrieve(alloc, uri) {
        Ok(value) => Ok(Some(value)),
        Err(RetrieveError::Refused(reason)) => {
            drop(reason);
            Ok(None)
        }
        Err(RetrieveError::Memory(error)) => Err(error),
    }
}

// Adds what a document that was retrieved has and wants.
fn add_held(alloc: Global, draft: Draft, wants: &mut Wants, held: &Held) -> Result<(), AllocError>
    ensures { OnOk result
        (Grows wants.old wants.new (uris_in draft (held_source held.now))
        (wanted_by draft (held_source held.now))) }
{
    let places = places_of(alloc, &held.uri, &held.value, draft)?;
    wants.add_document(alloc, &held.uri, places.as_slice())
}

// Asks for a URI, and adds what the retriever returns for it, or that it is known from then on.
fn ask<R: Retrieve>(
    alloc: Global,
    draft: Draft,
    retriever: &R,
    wants: &mut Wants,
    uri: &Uri,
) -> Result<Option<Held>, AllocError>
    ensures answer { IfOk result
        (λ held. MayReturn (R.meaning retriever.now) uri.now (source_asked uri.now held).tree) }
    ensures uri { IfOk result (λ o. IfSome o (λ held. held.uri ≡ uri.now)) }
    ensures grows { IfOk result
        (λ held. Grows wants.old wants.new (uris_in draft (source_asked uri.now held))
        (wanted_by draft (source_asked uri.now held))) }
    ensures refused { IfOk result
        (λ held. IfNone held (wants.new.wanted.items ≡ wants.old.wanted.items)) }
{
    let Some(value) = retrieved(alloc, retriever, uri)? else {
        wants.meet(uri)?;
        return Ok(None);
    };
    let uri = uri.clone()?;
    let held = Held { uri, value };
    add_held(alloc, draft, wants, &held)?;
    Ok(Some(held))
}

// Goes through the next URI that is wanted: where it isn't known, the retriever is asked for it.
fn retrieve<R: Retrieve>(
    alloc: Global,
    draft: Draft,
    retriever: &R,
    wants: &mut Wants,
) -> Result<Option<Held>, AllocError>
    requires { wants.old.next < length wants.old.wanted.items }
    ensures going { GoesOn (R.meaning retriever.now) draft wants.old wants.new result }
    ensures answer { IfOk result
        (λ o. IfSome o (λ held. (R.meaning retriever.now).may_answer held.uri (view held.value))) }
    ensures passed { IfOk result (λ held. wants.new.next ≡ wants.old.next + 1) }
    ensures refused { IfOk result
        (λ held. IfNone held (wants.new.wanted.items ≡ wants.old.wanted.items)) }
{
    let uri = wants.wanted[wants.next].clone()?;
    wants.next += 1;
    if wants.met.contains_key(&*uri) {
        return Ok(None);
    }
    ask(alloc, draft, retriever, wants, &uri)
}

// The first document that the retriever returns for what is wanted and wasn't asked for.
fn retrieve_next<R: Retrieve>(
    alloc: Global,
    draft: Draft,
    retriever: &R,
    wants: &mut Wants,
) -> Result<Option<Held>, AllocError>
    ensures going { GoesOn (R.meaning retriever.now) draft wants.old wants.new result }
    ensures answer { IfOk result
        (λ o. IfSome o (λ held. (R.meaning retriever.now).may_answer held.uri (view held.value))) }
    ensures ended { IfOk result
        (λ held. IfNone held (length wants.new.wanted.items ≤ wants.new.next)) }
{
    while wants.next < wants.wanted.len() {
        if let Some(held) = retrieve(alloc, draft, retriever, wants)? {
            return Ok(Some(held));
        }
    }
    Ok(None)
}

// Adds what the places of sources have and want.
fn add_surveys(
    alloc: Global,
    wants: &mut Wants,
    surveys: &[Survey<'_, '_>],
) -> Result<(), AllocError>
    ensures { OnOk result
        (Grows wants.old wants.new (flat_map uris_seen (map seen_survey surveys.now))
        (flat_map wanted_seen (map seen_survey surveys.now))) }
{
    for survey in surveys {
        wants.add_document(alloc, &survey.source.uri, survey.places.as_slice())?;
    }
    Ok(())
}

/// What sources with their places have and want.
pub(crate) fn wants_in(alloc: Global, surveys: &[Survey<'_, '_>]) -> Result<Wants, AllocError>
    ensures met { IfOk result
        (λ wants. AreMet wants (flat_map uris_seen (map seen_survey surveys.now))) }
    ensures wanted { IfOk result
        (λ wants. wanted_of wants ≡ flat_map wanted_seen (map seen_survey surveys.now)) }
    ensures next { IfOk result (λ wants. wants.next ≡ 0) }
{
    let mut wants = Wants {
        wanted: Vec::new(alloc),
        next: 0,
        met: HashMap::new(alloc),
    };
    add_surveys(alloc, &mut wants, surveys)?;
    Ok(wants)
}

// What sources have and want.
fn wants_of(alloc: Global, draft: Draft, sources: &[Source<'_>]) -> Result<Wants, AllocError>
    ensures met { IfOk result
        (λ wants. AreMet wants (flat_map (uris_in draft) (map source_of sources.now))) }
    ensures wanted { IfOk result
        (λ wants. wanted_of wants ≡ flat_map (wanted_by draft) (map source_of sources.now)) }
    ensures next { IfOk result (λ wants. wants.next ≡ 0) }
{
    let surveys = surveys_of(alloc, draft, sources)?;
    wants_in(alloc, surveys.as_slice())
}

/// The documents that sources want, and that those want in turn, as far as a retriever returns them: for each URI that
/// a reference points into or an unknown `$schema` names and that no document or place has, the retriever is asked,
/// and what it returns is read before the next. At most `limit` documents are retrieved. A document that the retriever
/// refuses is left out.
///
/// Fails only if out of memory, here or in the retriever. Each place is visited once, with a look-up in a hashed map
/// for each URI that it has or wants.
pub fn gather<R: Retrieve>(
    alloc: Global,
    draft: Draft,
    sources: &[Source<'_>],
    retriever: &R,
    limit: usize,
) -> Result<Vec<Held>, AllocError>
    ensures gathered { IfOk result
        (λ list. IsGathered (R.meaning retriever.now) draft
        (map source_of sources.now) limit (map held_source list.items)) }
    ensures answers { IfOk result
        (λ list. AllByRecursion
        (λ held. (R.meaning retriever.now).may_answer held.uri (view held.value)) list.items) }
    ensures limit { IfOk result (λ list. length list.items ≤ limit) }
{
    let mut wants = wants_of(alloc, draft, sources)?;
    let mut list = Vec::new(alloc);
    for count in 0..limit {
        let _ = count;
        let Some(held) = retrieve_next(alloc, draft, retriever, &mut wants)? else {
            return Ok(list);
        };
        list.push(held)?;
    }
    Ok(list)
}

/// Documents that were retrieved, as sources. Their values are lent, and their URIs copied. Fails only if out of memory.
pub fn as_sources<'h>(alloc: Global, held: &'h [Held]) -> Result<Vec<Source<'h>>, AllocError>
    ensures value { IfOk result
        (λ sources. map source_of sources.items ≡ map held_source held.now) }
{
    let mut sources = Vec::with_capacity(alloc, held.len())?;
    for document in held {
        sources.push(Source {
            uri: document.uri.clone()?,
            value: Some(&document.value),
        })?;
    }
    Ok(sources)
}
