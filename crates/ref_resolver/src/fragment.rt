//! What a fragment means in the resource at a place: what a pointer leads to, or what an anchor names, a dynamic one by
//! the dynamic scope.
ghost use Rattle.std.specs.Prelude.{◌≡◌, ◌==◌, [], List, ℕ, map, false, IfOk, IfErr, IfSome, MatchOption, option_and_then, option_map, None, Some, Ok};
ghost use Rattle.std.specs.List.{list_any, last_or};
ghost use Rattle.std.specs.Result.{result_ok};
ghost use Rattle.serde_json.specs.View.{view};
ghost use Rattle.ref_parts.specs.Pointer.{slash};
ghost use Rattle.ref_draft.specs.Anchors.{Plain};
ghost use Rattle.ref_definitions.specs.World.{World};
ghost use Rattle.ref_definitions.specs.Places.{Place};
ghost use Rattle.ref_definitions.specs.Resources.{own_uri, meant_place};
ghost use Rattle.ref_definitions.specs.Anchors.{Named, anchor, named_by_identifier, named_entry, not_named};
ghost use Rattle.ref_definitions.specs.Fault.{not_retrieved};
ghost use Rattle.ref_definitions.specs.Lookup.{Resolver as Start, by_scope, in_scope, named_found};
ghost use Rattle.ref_error.specs.Errors.{IsFaultOf, IsMemory, Gives, IsForReason, SaysOrMemory};
ghost use Rattle.ref_error.specs.declared.error.Reason.TheVariants.{NotSupported};
ghost use Rattle.ref_resolver.specs.Layered.{world_in};
ghost use Rattle.ref_resolver.specs.inner.Located.{IsLocated, IsNamed};
ghost use Rattle.ref_resolver.specs.Resolving.{resolver_of, world_of, found_of, world_found};
ghost use Rattle.ref_resolver.specs.inner.Leading.{at_pointer, under_uri};
ghost use Rattle.ref_resolver.specs.inner.Names.{is_name};
ghost use Rattle.ref_resolver.specs.inner.Scoped.{dynamic_under, IsDynamicUnder, IsOutermost};

use crate::layers::Layers;
use crate::located::{Located, LocatedName};
use crate::resolver::{Resolved, Resolver};
use ref_draft::{Draft, ResourceRef};
use ref_error::{Error, Reason, RetrieveError};
use ref_index::shared;
use ref_parts::list::List;
use ref_uri::Uri;
use serde_json::Value;
use std::alloc::{AllocError, Global};
use std::rc::Rc;

// The fault of a name that nothing has: a name with `/` in it is none.
#[inline(never)]
pub(crate) fn not_named(alloc: Global, name: &str) -> Error
    ensures { SaysOrMemory (not_named name.now) result }
{
    let anchor = match String::from_str(alloc, name) {
        Ok(anchor) => anchor,
        Err(error) => return Error::Memory(error),
    };
    if name.as_bytes().contains(&b'/') {
        Error::InvalidAnchor { anchor }
    } else {
        Error::NoSuchAnchor { anchor }
    }
}

// The base of a place that has an identifier.
fn identifier_base<'r>(place: Located<'r>) -> Option<&'r str>
    ensures { (p : Place) → IsLocated place.entry p → option_map (λ b. b.now) result ≡ own_uri p }
{
    let id = ResourceRef::new(place.value, place.entry.draft).id();
    if id.is_none() {
        return None;
    }
    Some(place.entry.base.as_str())
}

// The base of the place that a URI means, where that place has an identifier.
pub(crate) fn identified_base<'r>(layers: &Layers<'r>, uri: &str) -> Option<&'r str>
    ensures value { (name : List ℕ)
        → MatchOption result (named_by_identifier (world_in layers.now) uri.now name ≡ None)
        (λ base. named_by_identifier (world_in layers.now) uri.now name
        ≡ named_entry (world_in layers.now) base.now name) }
    ensures base { IfSome result
        (λ base. option_and_then own_uri (meant_place (world_in layers.now) uri.now)
        ≡ Some base.now) }
{
    let place = layers.resource(uri)?;
    identifier_base(place)
}

// The entry of a name under the base of the place that a URI means, where that place has an identifier. There is none under
// the URI itself, so that neither it nor the identifier is looked for where that is the base.
fn named_by_identifier<'r>(layers: &Layers<'r>, uri: &str, name: &str) -> Option<LocatedName<'r>>
    requires not_there { named_entry (world_in layers.now) uri.now name.now ≡ None }
    ensures { MatchOption result (named_by_identifier (world_in layers.now) uri.now name.now ≡ None)
        (IsNamed (named_by_identifier (world_in layers.now) uri.now name.now)) }
{
    let place = layers.resource(uri)?;
    if place.entry.base.as_str() == uri {
        return None;
    }
    let base = identifier_base(place)?;
    layers.named(base, name)
}

// The entry that a name under a URI means: the one there, or else the one under the base of the place there.
#[inline(always)]
pub(crate) fn meaning<'r>(layers: &Layers<'r>, uri: &str, name: &str) -> Option<LocatedName<'r>>
    ensures { MatchOption result
        (anchor (world_in layers.now) uri.now name.now ≡ Err (not_named name.now))
        (IsNamed (result_ok (anchor (world_in layers.now) uri.now name.now))) }
{
    match layers.named(uri, name) {
        Some(found) => Some(found),
        None => named_by_identifier(layers, uri, name),
    }
}

// The place of a dynamic anchor of this name under a URI. None where the name means a plain one or nothing; a name with `/`
// that means nothing is a fault.
#[inline(always)]
fn dynamic_under<'r>(
    alloc: Global,
    layers: &Layers<'r>,
    uri: &str,
    name: &str,
) -> Result<Option<Located<'r>>, Error>
    ensures ok { IfOk result (IsDynamicUnder (world_in layers.now) uri.now name.now) }
    ensures fault { IfErr result
        (IsFaultOf (dynamic_under (world_in layers.now) uri.now name.now)) }
{
    match meaning(layers, uri, name) {
        Some(found) if found.named.is_dynamic => Ok(Some(found.place)),
        Some(_) => Ok(None),
        None if name.as_bytes().contains(&b'/') => Err(not_named(alloc, name)),
        None => Ok(None),
    }
}

// A handle of a URI: of the other one where that is the same, and else of a copy.
fn handle(alloc: Global, uri: &Uri, other: &Rc<Uri>) -> Result<Rc<Uri>, AllocError>
    ensures { IfOk result (λ u. u.value ≡ uri.now) }
{
    if uri.as_str() == other.as_str() {
        return Ok(other.clone()?);
    }
    shared(alloc, uri.clone()?)
}

// A place that an anchor names under a URI, with the base there.
pub(crate) fn under_uri<'r>(
    alloc: Global,
    resolver: &Resolver<'r>,
    uri: &Uri,
    place: Located<'r>,
) -> Result<Resolved<'r>, Error>
    ensures gives { Gives found_of
        (under_uri (resolver_of resolver.now) uri.now place.entry.entry.now.draft
        (view place.entry.value.now))
        result }
    ensures world { IfOk result (λ found. world_found found ≡ world_of resolver.now) }
{
    let draft = place.entry.draft;
    let base = match ResourceRef::new(place.value, draft).id() {
        Some(id) => resolver.layers.resolve_uri(alloc, uri.borrow(), id)?,
        None => handle(alloc, uri, &place.entry.base)?,
    };
    Ok(Resolved {
        contents: place.value,
        resolver: resolver.with_base(base, None)?,
        draft,
    })
}

// The place of a dynamic anchor of this name, which has no `/` in it, under a URI. None where the name means a plain one or
// nothing.
fn dynamic_place<'r>(layers: &Layers<'r>, uri: &str, name: &str) -> Option<Located<'r>>
    requires plain { list_any (λ c. c == slash) name.now ≡ false }
    ensures { IsDynamicUnder (world_in layers.now) uri.now name.now result }
{
    let found = meaning(layers, uri, name)?;
    if found.named.is_dynamic {
        Some(found.place)
    } else {
        None
    }
}

// Whether a name has a `/` in it.
fn has_slash(name: &str) -> bool
    ensures { result ≡ list_any (λ c. c == slash) name.now }
{
    name.as_bytes().contains(&b'/')
}

// The last URI of a list.
fn last_of(uris: &List<Uri>) -> Option<&Uri>
    ensures { option_map (λ uri. uri.now) result ≡ last_or None uris.now }
{
    let mut last = None;
    for uri in uris {
        last = Some(uri);
    }
    last
}

// The URIs of a list, lent. Takes memory for so many handles.
fn lent<'l>(alloc: Global, uris: &'l List<Uri>) -> Result<Vec<&'l Uri>, AllocError>
    ensures { IfOk result (λ list. map (λ uri. uri.now) list.items ≡ uris.now) }
{
    let mut list = Vec::with_capacity(alloc, 64)?;
    for uri in uris {
        list.push(uri)?;
    }
    Ok(list)
}

// The place of the outermost dynamic anchor of a name in the dynamic scope, or else the place that was found first (2020-12
// Core, 8.2.3.2), and the URI that it was found under. The URIs of the scope are asked from the last one on, up to the first
// that has it, each by a look-up; takes memory for handles of them where the last one hasn't. Of a name with `/` each is
// asked, from the first one on.
pub(crate) fn outermost<'s, 'r>(
    alloc: Global,
    resolver: &'s Resolver<'r>,
    name: &str,
    first: Located<'r>,
) -> Result<(&'s Uri, Located<'r>), Error>
    ensures ok { (n : Named) → IsLocated first.entry n.place
        → IfOk result
        (λ found. IsOutermost (world_of resolver.now)
        (resolver_of resolver.now) n name.now found.0.now found.1) }
    ensures fault { (n : Named) → IsLocated first.entry n.place
        → IfErr result
        (IsFaultOf
        (by_scope (resolver_of resolver.now) n
        (in_scope (world_of resolver.now) name.now (resolver_of resolver.now).scope))) }
{
    if has_slash(name) {
        return outermost_of_all(alloc, resolver, name, first);
    }
    let Some(end) = last_of(&resolver.scope) else {
        return Ok((&resolver.base, first));
    };
    match dynamic_place(&resolver.layers, end.as_str(), name) {
        Some(place) => Ok((end, place)),
        None => before_the_end(alloc, resolver, name, first, end),
    }
}

// The same where the name has no `/` in it, and there is no such dynamic anchor under a URI, the last one of the scope. A URI
// that is the one asked before isn't asked again.
#[inline(never)]
fn before_the_end<'s, 'r>(
    alloc: Global,
    resolver: &'s Resolver<'r>,
    name: &str,
    first: Located<'r>,
    end: &'s Uri,
) -> Result<(&'s Uri, Located<'r>), Error>
    requires plain { list_any (λ c. c == slash) name.now ≡ false }
    requires end { dynamic_under (world_of resolver.now) end.now name.now ≡ Ok [] }
    ensures ok { (n : Named) → IsLocated first.entry n.place
        → IfOk result
        (λ found. IsOutermost (world_of resolver.now)
        (resolver_of resolver.now) n name.now found.0.now found.1) }
    ensures fault { IfErr result IsMemory }
{
    let mut uris = lent(alloc, &resolver.scope)?;
    let mut asked = end;
    while let Some(uri) = uris.pop() {
        if uri.as_str() == asked.as_str() {
            continue;
        }
        if let Some(place) = dynamic_place(&resolver.layers, uri.as_str(), name) {
            return Ok((uri, place));
        }
        asked = uri;
    }
    Ok((&resolver.base, first))
}

// The same, where a URI of the scope that means no such anchor is a fault: of a name with `/`. A look-up for each URI of the
// scope.
#[inline(never)]
fn outermost_of_all<'s, 'r>(
    alloc: Global,
    resolver: &'s Resolver<'r>,
    name: &str,
    first: Located<'r>,
) -> Result<(&'s Uri, Located<'r>), Error>
    ensures ok { (n : Named) → IsLocated first.entry n.place
        → IfOk result
        (λ found. IsOutermost (world_of resolver.now)
        (resolver_of resolver.now) n name.now found.0.now found.1) }
    ensures fault { (n : Named) → IsLocated first.entry n.place
        → IfErr result
        (IsFaultOf
        (by_scope (resolver_of resolver.now) n
        (in_scope (world_of resolver.now) name.now (resolver_of resolver.now).scope))) }
{
    let mut uri: &Uri = &resolver.base;
    let mut place = first;
    for outer in &resolver.scope {
        if let Some(found) = dynamic_under(alloc, &resolver.layers, outer.as_str(), name)? {
            uri = outer;
            place = found;
        }
    }
    Ok((uri, place))
}

// Whether a fragment is a name.
pub(crate) fn is_name(fragment: &str) -> bool
    ensures { result ≡ is_name fragment.now }
{
    !matches!(fragment.as_bytes(), [] | [b'/', ..])
}

// The fault of a URI that means no place: nothing is retrieved any more.
#[inline(never)]
pub(crate) fn not_retrieved(alloc: Global, uri: &Uri) -> Error
    ensures fault { SaysOrMemory (not_retrieved uri.now) result }
    ensures reason { IsForReason result NotSupported }
{
    match String::from_str(alloc, uri.as_str()) {
        Ok(uri) => Error::Unretrievable {
            uri,
            source: RetrieveError::Refused(Reason::NotSupported),
        },
        Err(error) => Error::Memory(error),
    }
}
