//! The documents that references lead into, layer by layer.
ghost use Rattle.std.specs.Prelude.{◌≡◌, ◌∷◌, map, IfOk, IfSome, MatchOption, IsSome, is_some, Some, None, Ok};
ghost use Rattle.ref_uri.specs.Targets.{uri_against};
ghost use Rattle.ref_definitions.specs.Resources.{last_under, meant_place, resources};
ghost use Rattle.ref_definitions.specs.Anchors.{named_entry};
ghost use Rattle.ref_definitions.specs.Fault.{as_invalid_uri};
ghost use Rattle.ref_error.specs.Errors.{Gives};
ghost use Rattle.ref_index.specs.Entries.{IsFoundAt};
ghost use Rattle.ref_index.specs.Spots.{spot_of};
ghost use Rattle.ref_resolver.specs.inner.Located.{IsMeant, IsMeantAt, IsNamed, IsNamedAt};
ghost use Rattle.ref_resolver.specs.Layered.{world_in, IsHeld};
ghost use Rattle.ref_resolver.specs.Locations.{uri_spot, name_spot};

use crate::located::{
    Located, LocatedName, Numbered, NumberedName, is_resource_above, named_above, named_in,
    place_of, resolved_above, resource_above, resource_in, with_layer,
};
use ref_error::Error;
use ref_index::{Entry, Index, shared};
use ref_uri::uri::resolve_against;
use ref_uri::{Uri, UriRef};
use std::alloc::{AllocError, Global};
use std::rc::Rc;

/// The indexes of a registry's own documents and of its parents', nearest first, which resolvers borrow.
#[derive(Clone, Copy, Drop)]
pub struct Layers<'r> {
    own: &'r Index<'r>,
    parents: &'r [&'r Index<'r>],
}

impl<'r> Layers<'r> {
    /// An index before those of parents, of which the nearest is first. Takes no memory.
    pub fn new(own: &'r Index<'r>, parents: &'r [&'r Index<'r>]) -> Layers<'r>
        ensures value { world_in result ≡ own.now ∷ map (λ p. p.now) parents.now }
    {
        Layers { own, parents }
    }

    /// The place that a URI means. A look-up for each layer, up to the first that has it; takes no memory.
    #[inline(always)]
    pub(crate) fn resource(&self, uri: &str) -> Option<Located<'r>>
        ensures value { MatchOption result (meant_place (world_in self.now) uri.now ≡ None)
            (IsMeant (meant_place (world_in self.now) uri.now)) }
    {
        match resource_in(self.own, uri) {
            Some(place) => Some(place),
            None => {
                let found = resource_above(self.parents, uri)?;
                Some(found.place)
            }
        }
    }

    /// The place that a URI means, with the number of its layer: 0 for the own documents, and parents counted from 1. A
    /// look-up for each layer, up to the first that has it; takes no memory.
    pub(crate) fn numbered_resource(&self, uri: &str) -> Option<Numbered<'r>>
        ensures value { MatchOption result (meant_place (world_in self.now) uri.now ≡ None)
            (IsMeantAt (world_in self.now) (meant_place (world_in self.now) uri.now)) }
        ensures spot { IfSome result
            (λ l. uri_spot (world_in self.now) uri.now
            ≡ Some (l.layer, spot_of l.place.entry.now)) }
    {
        let Some(place) = resource_in(self.own, uri) else {
            return resource_above(self.parents, uri);
        };
        Some(Numbered { layer: 0, place })
    }

    /// The place that a URI means. Where a place is given, it is that one; else there is a look-up for each layer, up
    /// to the first that has it. Takes no memory.
    #[inline(always)]
    pub(crate) fn resource_or(&self, known: Option<Located<'r>>, uri: &str) -> Option<Located<'r>>
        requires known { IfSome known (IsMeant (meant_place (world_in self.now) uri.now)) }
        ensures value { MatchOption result (meant_place (world_in self.now) uri.now ≡ None)
            (IsMeant (meant_place (world_in self.now) uri.now)) }
    {
        match known {
            Some(place) => Some(place),
            None => self.resource(uri),
        }
    }

    /// Whether a URI means a place. A look-up for each layer, up to the first that has it; takes no memory.
    pub fn has_resource(&self, uri: &str) -> bool
        ensures value { result ≡ is_some (meant_place (world_in self.now) uri.now) }
    {
        self.own.resource(uri).is_some() || is_resource_above(self.parents, uri)
    }

    /// The place that an anchor names under a URI. A look-up for each layer, up to the first that has it; takes no memory.
    #[inline(always)]
    pub(crate) fn named(&self, uri: &str, name: &str) -> Option<LocatedName<'r>>
        ensures value { MatchOption result (named_entry (world_in self.now) uri.now name.now ≡ None)
            (IsNamed (named_entry (world_in self.now) uri.now name.now)) }
    {
        match named_in(self.own, uri, name) {
            Some(place) => Some(place),
            None => {
                let found = named_above(self.parents, uri, name)?;
                Some(LocatedName {
                    named: found.named,
                    place: found.place.place,
                })
            }
        }
    }

    /// The place that an anchor names under a URI, with the number of its layer, counted so. A look-up for each layer,
    /// up to the first that has it; takes no memory.
    pub(crate) fn numbered_name(&self, uri: &str, name: &str) -> Option<NumberedName<'r>>
        ensures value { MatchOption result (named_entry (world_in self.now) uri.now name.now ≡ None)
            (IsNamedAt (world_in self.now) (named_entry (world_in self.now) uri.now name.now)) }
        ensures spot { IfSome result
            (λ l. name_spot (world_in self.now) uri.now name.now
            ≡ Some (l.place.layer, spot_of l.place.place.entry.now)) }
    {
        let Some(found) = named_in(self.own, uri, name) else {
            return named_above(self.parents, uri, name);
        };
        Some(with_layer(0, found))
    }

    /// The URI that a text means against a base, where that was resolved when the documents were prepared. A look-up for each
    /// layer, up to the first that has it; takes no memory.
    pub fn resolved_uri(&self, base: &UriRef<'_>, uri: &str) -> Option<&'r Rc<Uri>>
        ensures held { IsHeld (world_in self.now) base.now uri.now → IsSome result }
        ensures value { IfSome result (λ u. uri_against base.now uri.now ≡ Ok u.now.value) }
    {
        match self.own.resolved(base.as_str(), uri) {
            Some(found) => Some(found.uri),
            None => resolved_above(self.parents, base.as_str(), uri),
        }
    }

    /// The URI that a text means against a base (RFC 3986, 5.2), in normal form, whatever was resolved before. Where it
    /// was, the code takes no memory, which no clause says. Refuses as `InvalidUri` a base without a scheme and a text
    /// that is no URI reference, and as `Memory`.
    #[inline(always)]
    pub fn resolve_uri(&self, alloc: Global, base: UriRef<'_>, uri: &str) -> Result<Rc<Uri>, Error>
        ensures gives { Gives (λ u. u.value) (as_invalid_uri (uri_against base.entry uri.now))
            result }
    {
        match self.resolved_uri(&base, uri) {
            Some(uri) => Ok(uri.clone()?),
            None => anew(alloc, base, uri),
        }
    }

    /// The URI that a text means against a base, where the index of the own documents has it, and the place that it means there,
    /// where there is one. One or two look-ups; takes no memory.
    #[inline(always)]
    pub(crate) fn known(&self, base: &Uri, uri: &str) -> Option<(&'r Rc<Uri>, Option<Located<'r>>)>
        ensures uri { IfSome result (λ t. uri_against base.now uri.now ≡ Ok t.0.now.value) }
        ensures place { IfSome result
            (λ t. IfSome t.1 (IsMeant (meant_place (world_in self.now) t.0.now.value))) }
    {
        if seems_absolute(uri) {
            if let Some(entry) = self.identified(base, uri) {
                return Some((&entry.base, place_of(self.own, Some(entry))));
            }
        }
        let found = self.own.resolved(base.as_str(), uri)?;
        Some((found.uri, place_of(self.own, found.entry)))
    }

    // The place that a text identifies in the own documents, in normal form: then it means itself, and needs no look-up of what
    // was resolved.
    #[inline(never)]
    fn identified(&self, base: &Uri, uri: &str) -> Option<&'r Entry<'r>>
        ensures uri { IfSome result (λ e. uri_against base.now uri.now ≡ Ok e.now.base.value) }
        ensures place { IfSome result
            (λ e. IsFoundAt self.now.own.now e.now
            (last_under e.now.base.value (resources self.now.own.now))) }
    {
        if !base.has_scheme() {
            return None;
        }
        self.own.identified(uri)
    }

    /// The URI that a text means against a base (RFC 3986, 5.2), in normal form, where it wasn't resolved before in the own
    /// documents. A look-up for each parent, up to the first that has it; takes memory where none has. Refuses as
    /// `resolve_uri` does.
    pub(crate) fn resolve_above(
        &self,
        alloc: Global,
        base: &Uri,
        uri: &str,
    ) -> Result<Rc<Uri>, Error>
        ensures gives { Gives (λ u. u.value) (as_invalid_uri (uri_against base.now uri.now)) result }
    {
        match resolved_above(self.parents, base.as_str(), uri) {
            Some(uri) => Ok(uri.clone()?),
            None => anew(alloc, base.borrow(), uri),
        }
    }

    /// The URI that a text means against a base (RFC 3986, 5.2), in normal form, whatever was resolved before. Looked for as
    /// `known` does, and then in the parents. Refuses as `resolve_uri` does.
    pub(crate) fn resolve_within(
        &self,
        alloc: Global,
        base: &Uri,
        uri: &str,
    ) -> Result<Rc<Uri>, Error>
        ensures gives { Gives (λ u. u.value) (as_invalid_uri (uri_against base.now uri.now)) result }
    {
        match self.known(base, uri) {
            Some((uri, _)) => Ok(uri.clone()?),
            None => self.resolve_above(alloc, base, uri),
        }
    }
}

// Whether the fourth, fifth or sixth byte of a text is a `:`, as in `urn:`, `http:`, `file:` and `https:`.
#[inline(always)]
fn seems_absolute(text: &str) -> bool {
    let [_, _, _, fourth, fifth, sixth, ..] = text.as_bytes() else {
        return false;
    };
    *fourth == b':' || *fifth == b':' || *sixth == b':'
}

// The URI that a text means against a base, where that wasn't resolved before. Takes memory for the URI.
#[inline(never)]
fn anew(alloc: Global, base: UriRef<'_>, uri: &str) -> Result<Rc<Uri>, Error>
    ensures gives { Gives (λ u. u.value) (as_invalid_uri (uri_against base.entry uri.now)) result }
{
    let uri = resolve_against(alloc, base, uri)?;
    Ok(shared(alloc, uri)?)
}
