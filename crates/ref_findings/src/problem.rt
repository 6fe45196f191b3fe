//! What is wrong at a place, text by text.
ghost use Rattle.std.specs.Prelude.{◌≡◌, ◌==◌, ◌||◌, ℕ, List, [], IfOk, map, not, bytes_eq, reverse, slice_get, option_map, option_and_then, option_copied, Option, Some, Result, Ok, Err};
ghost use Rattle.std.specs.List.{list_any};
ghost use Rattle.ref_uri.specs.Targets.{Refusal, target, uri_against};
ghost use Rattle.ref_uri.specs.Errors.{IsFaultOf};
ghost use Rattle.ref_index.specs.Meanings.{GivesUri, meta_schema_uri};
ghost use Rattle.ref_draft.specs.Keywords.{is_unknown};
ghost use Rattle.ref_draft.specs.Schema.{trimmed_text, from_schema_uri};
ghost use Rattle.ref_error.specs.Errors.{SaysFault};
ghost use Rattle.ref_definitions.specs.Places.{identifier_of};
ghost use Rattle.ref_definitions.specs.Fault.{Fault};
ghost use Rattle.ref_definitions.specs.Lookup.{lookup};
ghost use Rattle.ref_resolver.specs.Layered.{world_in};
ghost use Rattle.serde_json.specs.View.{view};
ghost use Rattle.ref_parts.specs.Table.{last_value};
ghost use Rattle.ref_findings.specs.Bearers.{first_under, other_bearer};
ghost use Rattle.ref_findings.specs.Findings as spec;
ghost use Rattle.ref_findings.specs.Findings.{InvalidUri, is_among, is_meta_schema, missing_problem, by_fault, is_doubled, world_at, by_target, is_dialect, by_dialect, reference_problem, value_problem, recursive_text_problem, recursive_problem, dynamic_problem, schema_problem, uri_problem, by_base, name_problem, anchor_problem};
ghost use Rattle.ref_findings.specs.inner.Meanings.{IsMaybe, IsWhy, IsBearer, is_unretrievable};
ghost use Rattle.ref_findings.specs.inner.Seen.{place_of, site_of, known_in};

use crate::finding::{Bearer, Problem};
use crate::known::Known;
use crate::place::Place;
use crate::site::Site;
use ref_draft::{Draft, meta, trim_hashes};
use ref_error::Error;
use ref_index::meanings::{meta_schema_of, resolved, uri_text};
use ref_index::segments_of;
use ref_parts::List;
use ref_resolver::{Layers, Resolver};
use ref_uri::parts::parts;
use ref_uri::{Uri, UriFault};
use serde_json::Value;
use std::alloc::{AllocError, Global};
use std::rc::Rc;

// Whether a URI is that of a draft's own meta-schema.
fn is_of_draft(uri: &str) -> bool
    ensures { result ≡ not (is_unknown (from_schema_uri uri.now)) }
{
    !matches!(Draft::from_schema_uri(uri), Draft::Unknown)
}

// Whether a URI is one of these, the `#` characters at their ends dropped.
fn is_one_of(uris: &[&str; 19], uri: &str) -> bool
    ensures { result
        ≡ list_any (λ known. bytes_eq (trimmed_text known) uri.now) (map (λ u. u.now) uris.now) }
{
    let mut any = false;
    for known in uris {
        let same = trim_hashes(known) == uri;
        any = any || same;
    }
    any
}

// Whether two numbers are the same.
fn is_number(first: usize, number: usize) -> bool
    ensures { result ≡ (first == number) }
{
    first == number
}

// Whether one of two holds.
fn either(first: bool, second: bool) -> bool
    ensures { result ≡ (first || second) }
{
    first || second
}

// Whether a URI is that of a meta-schema of a draft.
fn is_meta_schema(uri: &str) -> bool
    ensures { result ≡ is_meta_schema uri.now }
{
    meta::uris_are_of_all_drafts();
    let of_draft = is_of_draft(uri);
    let listed = is_one_of(&meta::URIS, uri);
    either(of_draft, listed)
}

// Whether an error is that a document could not be retrieved.
fn is_unretrievable(error: &Error) -> bool
    ensures { result ≡ is_unretrievable error.now }
{
    matches!(error, Error::Unretrievable { .. })
}

// Why a reference is unresolvable from a base, with an empty dynamic scope, where it is.
fn fault_at(
    alloc: Global,
    layers: Layers<'_>,
    base: &Rc<Uri>,
    reference: &str,
) -> Result<Option<Error>, AllocError>
    ensures { IfOk result
        (IsWhy
        (lookup (world_in layers.entry)
        (record { base = base.now.value; scope = [] }) reference.now)) }
{
    let resolver = Resolver::from_parts(layers, base.clone()?, List::new());
    match resolver.lookup(alloc, reference) {
        Ok(_) => Ok(None),
        Err(Error::Memory(error)) => Err(error),
        Err(error) => Ok(Some(error)),
    }
}

// A reference to a URI under which nothing is.
fn missing<'v>(uri: Rc<Uri>, reference: &str) -> Option<Problem<'v>>
    ensures { IsMaybe (missing_problem uri.value reference.now) result }
{
    if !is_meta_schema(uri.as_str()) {
        return Some(Problem::MissingDocument { uri });
    }
    if parts(reference).1.is_empty() {
        return None;
    }
    Some(Problem::Unchecked { uri })
}

// What is wrong with an unresolvable reference, by the URI that it points into and its fault.
fn unresolvable_problem<'v>(uri: Rc<Uri>, reference: &str, error: Error) -> Option<Problem<'v>>
    ensures { (fault : Fault) → SaysFault error fault
        → IsMaybe (by_fault uri.value reference.now fault) result }
{
    if is_unretrievable(&error) {
        drop(error);
        return missing(uri, reference);
    }
    Some(Problem::LeadsNowhere { uri, error })
}

/// What is wrong with a text that means no URI.
pub(crate) fn refused<'v>(fault: UriFault) -> Result<Option<Problem<'v>>, AllocError>
    ensures { (meaning : Result (List ℕ) Refusal) (by : Result (List ℕ) Refusal → Option spec.Problem)
        → IsFaultOf meaning fault
        → ((refusal : Refusal) → by (Err refusal) ≡ Some (InvalidUri refusal))
        → IfOk result (IsMaybe (by meaning)) }
{
    match fault {
        UriFault::Invalid(error) => Ok(Some(Problem::InvalidUri(error))),
        UriFault::Memory(error) => Err(error),
    }
}

// What is wrong with the text of a `$recursiveRef`.
fn recursive_text_problem<'v>(text: &str) -> Option<Problem<'v>>
    ensures { IsMaybe (recursive_text_problem text.now) result }
{
    if text == "#" {
        return None;
    }
    Some(Problem::RecursiveElsewhere)
}

// What is wrong with a value there.
fn recursive_problem<'v>(value: &Value) -> Option<Problem<'v>>
    ensures { IsMaybe (recursive_problem (view value.now)) result }
{
    match value.as_str() {
        Some(text) => recursive_text_problem(text),
        None => Some(Problem::NotAText),
    }
}

impl<'k, 'v> Known<'k, 'v> {
    // Whether a URI is that of a source that is no JSON.
    fn is_unread(&self, uri: &str) -> bool
        ensures { result ≡ is_among uri.now (known_in self.now).unread }
    {
        self.unread.get(uri, "").0.is_some()
    }

    // The first place that has a URI, and the last one.
    fn first_site(&self, uri: &str) -> Option<&Site<'k, 'v>>
        ensures { option_map (λ s. site_of s.now) result
            ≡ option_and_then (slice_get (known_in self.now).sites)
            (first_under uri.now [] (known_in self.now).uris) }
    {
        let Some(number) = self.uris.get(uri, "").0 else {
            return None;
        };
        self.sites.get(*number)
    }

    fn last_site(&self, uri: &str) -> Option<&Site<'k, 'v>>
        ensures { option_map (λ s. site_of s.now) result
            ≡ option_and_then (slice_get (known_in self.now).sites)
            (last_value uri.now [] (known_in self.now).uris) }
    {
        let number = self.lasts.get(uri, "").0?;
        self.sites.get(*number)
    }

    // Whether the first place that has a URI and the last one are in two sources.
    fn is_doubled(&self, uri: &str) -> bool
        ensures { result ≡ is_doubled (known_in self.now) uri.now }
    {
        let Some(first) = self.first_site(uri) else {
            return false;
        };
        let Some(last) = self.last_site(uri) else {
            return false;
        };
        first.source != last.source
    }

    // Where a reference of a place is looked up, which points into a URI.
    fn layers_at(&self, site: &Site<'_, 'v>, uri: &str) -> Layers<'k>
        ensures { world_in result ≡ world_at (known_in self.now) (site_of site.now) uri.now }
    {
        if uri != site.place.base().as_str() {
            return self.layers;
        }
        if !self.is_doubled(uri) {
            return self.layers;
        }
        match self.own.get(site.source) {
            Some(own) => Layers::new(own, self.above),
            None => self.layers,
        }
    }

    // What is wrong with a reference whose URI is known.
    fn followed(
        &self,
        alloc: Global,
        site: &Site<'_, 'v>,
        reference: &str,
        uri: Rc<Uri>,
    ) -> Result<Option<Problem<'v>>, AllocError>
        ensures { IfOk result
            (IsMaybe
            (by_target (known_in self.now) (site_of site.now) reference.now (Ok uri.value))) }
    {
        if self.is_unread(uri.as_str()) {
            return Ok(None);
        }
        let layers = self.layers_at(site, uri.as_str());
        match fault_at(alloc, layers, site.place.base(), reference)? {
            Some(error) => Ok(unresolvable_problem(uri, reference, error)),
            None => Ok(None),
        }
    }

    // The URI that a reference points into, which isn't resolved again where it was for the index.
    fn target(&self, alloc: Global, base: &Rc<Uri>, reference: &str) -> Result<Rc<Uri>, UriFault>
        ensures { GivesUri (target base.now.value reference.now) result }
    {
        let Some(text) = uri_text(reference) else {
            return Ok(base.clone()?);
        };
        match self.layers.resolved_uri(&base.borrow(), text) {
            Some(uri) => Ok(uri.clone()?),
            None => resolved(alloc, base, text),
        }
    }

    // What is wrong with the text of a reference at a place.
    fn of_reference(
        &self,
        alloc: Global,
        site: &Site<'_, 'v>,
        reference: &str,
    ) -> Result<Option<Problem<'v>>, AllocError>
        ensures { IfOk result
            (IsMaybe (reference_problem (known_in self.now) (site_of site.now) reference.now)) }
    {
        match self.target(alloc, site.place.base(), reference) {
            Ok(uri) => self.followed(alloc, site, reference, uri),
            Err(fault) => refused(fault),
        }
    }

    /// What is wrong with a value under `$ref` or `$dynamicRef` of a place, which is to be a text.
    pub fn of_value(
        &self,
        alloc: Global,
        site: &Site<'_, 'v>,
        value: &Value,
    ) -> Result<Option<Problem<'v>>, AllocError>
        ensures value { IfOk result
            (IsMaybe (value_problem (known_in self.now) (site_of site.now) (view value.now))) }
    {
        let Some(reference) = value.as_str() else {
            return Ok(Some(Problem::NotAText));
        };
        self.of_reference(alloc, site, reference)
    }

    /// What is wrong with a value under the keyword that the draft of a place has for dynamic references.
    pub fn of_dynamic(
        &self,
        alloc: Global,
        site: &Site<'_, 'v>,
        value: &Value,
    ) -> Result<Option<Problem<'v>>, AllocError>
        ensures value { IfOk result
            (IsMaybe
            (dynamic_problem (site_of site.now).1.draft (known_in self.now) (site_of site.now)
            (view value.now))) }
    {
        match site.place.draft {
            Draft::Draft4 | Draft::Draft6 | Draft::Draft7 => Ok(None),
            Draft::Draft201909 => Ok(recursive_problem(value)),
            Draft::Draft202012 | Draft::Unknown => self.of_value(alloc, site, value),
        }
    }

    // Whether a URI is known as that of a meta-schema.
    fn is_dialect(&self, uri: &str) -> bool
        ensures { result ≡ is_dialect (known_in self.now) uri.now }
    {
        let of_draft = is_meta_schema(uri);
        let unread = self.is_unread(uri);
        let there = self.layers.has_resource(uri);
        let other = either(unread, there);
        either(of_draft, other)
    }

    /// What is wrong with a text under `$schema`, or is noted on it.
    pub fn of_schema(&self, alloc: Global, text: &str) -> Result<Option<Problem<'v>>, AllocError>
        ensures value { IfOk result (IsMaybe (schema_problem (known_in self.now) text.now)) }
    {
        if is_of_draft(text) {
            return Ok(None);
        }
        self.of_dialect(alloc, text)
    }

    // What is noted on the URI of a meta-schema.
    fn of_dialect_uri(&self, uri: Rc<Uri>) -> Option<Problem<'v>>
        ensures { IsMaybe (by_dialect (known_in self.now) (Ok uri.value)) result }
    {
        if self.is_dialect(uri.as_str()) {
            return None;
        }
        Some(Problem::UnknownDialect { uri })
    }

    // What is wrong with a text that names the meta-schema of no draft.
    fn of_dialect(&self, alloc: Global, text: &str) -> Result<Option<Problem<'v>>, AllocError>
        ensures { IfOk result
            (IsMaybe (by_dialect (known_in self.now) (meta_schema_uri text.now))) }
    {
        match meta_schema_of(alloc, text) {
            Ok(uri) => Ok(self.of_dialect_uri(uri)),
            Err(fault) => refused(fault),
        }
    }

    // The place with a number as a bearer, unless it is this one.
    fn bearer(
        &self,
        alloc: Global,
        number: usize,
        first: Option<&usize>,
    ) -> Result<Option<Bearer<'v>>, AllocError>
        ensures { IfOk result
            (IsBearer (other_bearer (known_in self.now).sites number (option_copied first.entry))) }
    {
        let Some(first) = first else {
            return Ok(None);
        };
        if is_number(*first, number) {
            return Ok(None);
        }
        let Some(site) = self.sites.get(*first) else {
            return Ok(None);
        };
        let path = segments_of(alloc, &site.place.path)?;
        Ok(Some(Bearer {
            source: site.source,
            path,
        }))
    }

    /// What is wrong with a URI that the place with a number has: another place is the first to have it.
    pub fn of_uri(
        &self,
        alloc: Global,
        number: usize,
        uri: &Rc<Uri>,
    ) -> Result<Option<Problem<'v>>, AllocError>
        ensures value { IfOk result
            (IsMaybe (uri_problem (known_in self.now) number uri.now.value)) }
    {
        let first = self.uris.get(uri.as_str(), "").0;
        let Some(first) = self.bearer(alloc, number, first)? else {
            return Ok(None);
        };
        let uri = uri.clone()?;
        Ok(Some(Problem::DuplicateIdentifier { uri, first }))
    }

    // What is wrong with an identifier of the place with a number, which is resolved against the base around it.
    fn of_identifier_text(
        &self,
        alloc: Global,
        number: usize,
        outer: &Rc<Uri>,
        id: &str,
    ) -> Result<Option<Problem<'v>>, AllocError>
        ensures { IfOk result
            (IsMaybe
            (by_base (known_in self.now) number (uri_against outer.now.value id.now))) }
    {
        match resolved(alloc, outer, id) {
            Ok(uri) => self.of_uri(alloc, number, &uri),
            Err(fault) => refused(fault),
        }
    }

    /// What is wrong with the identifier of the place with a number. Where it means no URI, it is resolved once more, to say why.
    pub fn of_identifier(
        &self,
        alloc: Global,
        number: usize,
        place: &Place<'_>,
        id: &str,
    ) -> Result<Option<Problem<'v>>, AllocError>
        requires { identifier_of (place_of place.now) ≡ Some id.now }
        ensures value { IfOk result
            (IsMaybe (by_base (known_in self.now) number (place_of place.now).base)) }
    {
        match place.own_uri() {
            Some(uri) => self.of_uri(alloc, number, uri),
            None => self.of_identifier_text(alloc, number, &place.outer, id),
        }
    }

    // What is wrong with the name of an anchor that the place with a number has under its base: an earlier place of its source has
    // it.
    fn of_name(
        &self,
        alloc: Global,
        number: usize,
        site: &Site<'_, 'v>,
        name: &str,
    ) -> Result<Option<Problem<'v>>, AllocError>
        ensures { IfOk result
            (IsMaybe (name_problem (known_in self.now) number (site_of site.now) name.now)) }
    {
        let base = site.place.base();
        let first = self.names.get(base.as_str(), name).0;
        let Some(first) = self.bearer(alloc, number, first)? else {
            return Ok(None);
        };
        if first.source != site.source {
            return Ok(None);
        }
        let uri = base.clone()?;
        Ok(Some(Problem::DuplicateAnchor { uri, first }))
    }

    /// What is wrong with an anchor that the place with a number has under its base.
    pub fn of_anchor(
        &self,
        alloc: Global,
        number: usize,
        site: &Site<'_, 'v>,
        name: &str,
    ) -> Result<Option<Problem<'v>>, AllocError>
        ensures value { IfOk result
            (IsMaybe (anchor_problem (known_in self.now) number (site_of site.now) name.now)) }
    {
        if name.starts_with('/') {
            return Ok(Some(Problem::NamesNothing));
        }
        self.of_name(alloc, number, site, name)
    }
}
