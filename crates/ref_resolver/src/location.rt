//! Where the value is that a reference leads to, so that a user who keeps the documents finds it there.
ghost use Rattle.std.specs.Prelude.{◌≡◌, ℕ, List, ◌++◌, true, map, string_bytes, IsUtf8, MatchOption, IfSome, Some, Ok, Err, IfOk, OnOk};
ghost use Rattle.std.specs.Result.{result_ok};
ghost use Rattle.percent_encoding.specs.Percent.{percent_decode};
ghost use Rattle.serde_json.specs.View.{view};
ghost use Rattle.ref_parts.specs.Pointer.{pointer_text, tokens};
ghost use Rattle.ref_paths.specs.Segment.{part_of};
ghost use Rattle.ref_uri.specs.Targets.{target, fragment_part};
ghost use Rattle.ref_definitions.specs.World.{World};
ghost use Rattle.ref_definitions.specs.Places.{Place};
ghost use Rattle.ref_definitions.specs.Anchors.{Named, anchor, not_named};
ghost use Rattle.ref_draft.specs.Anchors.{Dynamic};
ghost use Rattle.ref_definitions.specs.Lookup.{lookup, moved_resolver, named_found};
ghost use Rattle.ref_definitions.specs.Recursive.{lookup_recursive};
ghost use Rattle.ref_error.specs.Errors.{Gives};
ghost use Rattle.ref_index.specs.Spots.{spot_of};
ghost use Rattle.ref_resolver.specs.Layered.{world_in};
ghost use Rattle.ref_resolver.specs.inner.Located.{IsLocated, IsLocatedAt, IsNamedAt};
ghost use Rattle.ref_resolver.specs.Locations.{IsValueAt, GivesWhere, anchor_spot, naming_uri, parts_along, with_parts, lookup_location, recursive_reference, location_view};
ghost use Rattle.ref_resolver.specs.inner.Leading.{IsPartOn, at_pointer};
ghost use Rattle.ref_resolver.specs.inner.Names.{is_name};
ghost use Rattle.ref_resolver.specs.Resolving.{resolver_of, world_of, found_of, world_found};

use crate::fragment::{identified_base, is_name, not_named, not_retrieved, outermost, under_uri};
use crate::layers::Layers;
use crate::located::{Located, Numbered, NumberedName};
use crate::pointed::{cut_at_slash, index_of};
use crate::resolver::{Resolved, Resolver};
use percent_encoding::{DecodeError, percent_decode};
use ref_error::Error;
use ref_parts::escape::unescape_segment;
use ref_parts::path::JsonPointerSegment;
use ref_parts::pointer_of;
use ref_uri::Uri;
use serde_json::Value;
use std::alloc::{AllocError, Global};
use std::borrow::CowStr;
use std::rc::Rc;

/// Where a value is.
#[derive(Debug, Drop)]
pub struct Location<'r> {
    /// The layer of its document: 0 for the registry's own documents, and then its parents, of which the nearest is 1.
    pub layer: usize,
    /// The number of its document in that layer, counted from 0 in the order in which their URIs were first added, and
    /// after them those retrieved.
    pub document: usize,
    /// Its path in the document.
    pub path: Vec<JsonPointerSegment<'r>>,
}

// A part of a path, whose key is borrowed.
fn borrowed_part<'p>(part: &'p JsonPointerSegment<'_>) -> JsonPointerSegment<'p>
    ensures { part_of result ≡ part_of part.now }
{
    match part {
        JsonPointerSegment::Key(key) => JsonPointerSegment::from(key.as_str()),
        JsonPointerSegment::Index(index) => JsonPointerSegment::from(*index),
    }
}

// A path, whose keys are borrowed. Takes memory for the list.
fn borrowed<'p>(
    alloc: Global,
    path: &'p [JsonPointerSegment<'_>],
) -> Result<Vec<JsonPointerSegment<'p>>, AllocError>
    ensures { IfOk result (λ parts. map part_of parts.items ≡ map part_of path.now) }
{
    let mut parts = Vec::with_capacity(alloc, path.len())?;
    for part in path {
        parts.push(borrowed_part(part))?;
    }
    Ok(parts)
}

// Where a place is.
fn location_of<'r>(alloc: Global, found: Numbered<'r>) -> Result<Location<'r>, AllocError>
    ensures there { (w : World) (p : Place) → IsLocatedAt w found.entry p
        → IfOk result (λ l. IsValueAt w l p.value) }
    ensures spot { IfOk result
        (λ l. location_view l ≡ (found.entry.layer, spot_of found.entry.place.entry.now)) }
{
    let entry = found.place.entry;
    let path = borrowed(alloc, entry.path.as_slice())?;
    Ok(Location {
        layer: found.layer,
        document: entry.document,
        path,
    })
}

// The entry that a name under a URI means, as `meaning` has it, with the number of its layer.
fn numbered_meaning<'r>(layers: &Layers<'r>, uri: &str, name: &str) -> Option<NumberedName<'r>>
    ensures value { MatchOption result
        (anchor (world_in layers.now) uri.now name.now ≡ Err (not_named name.now))
        (IsNamedAt (world_in layers.now)
        (result_ok (anchor (world_in layers.now) uri.now name.now))) }
    ensures spot { IfSome result
        (λ l. anchor_spot (world_in layers.now) uri.now name.now
        ≡ Some (l.place.layer, spot_of l.place.place.entry.now)) }
{
    match layers.numbered_name(uri, name) {
        Some(found) => Some(found),
        None => layers.numbered_name(identified_base(layers, uri)?, name),
    }
}

// Adds the part that a token is from a value on after a path, where it leads to a value, and goes there.
fn push_part<'v>(
    alloc: Global,
    path: &mut Vec<JsonPointerSegment<'_>>,
    value: &'v Value,
    token: &str,
) -> Result<Option<&'v Value>, AllocError>
    ensures { (pointer : List ℕ) (more : List (List ℕ))
        → IfOk result
        (IsPartOn pointer (view value.now) token.now more (map part_of path.old.items)
        (map part_of path.new.items)) }
{
    if value.is_array() {
        let Some(index) = index_of(token) else {
            return Ok(None);
        };
        let Some(next) = value.get(index) else {
            return Ok(None);
        };
        path.push(JsonPointerSegment::Index(index))?;
        return Ok(Some(next));
    }
    let key = unescape_segment(alloc, token)?;
    let Some(next) = value.get(key.as_str()) else {
        return Ok(None);
    };
    path.push(JsonPointerSegment::Key(CowStr::Owned(key.into_owned(alloc)?)))?;
    Ok(Some(next))
}

// Adds the parts that tokens are, as far as they lead to values.
fn push_parts(
    alloc: Global,
    path: &mut Vec<JsonPointerSegment<'_>>,
    value: &Value,
    text: &str,
) -> Result<(), AllocError>
    ensures { (pointer : List ℕ)
        → OnOk result
        (map part_of path.new.items
        ≡ map part_of path.old.items ++ parts_along pointer (view value.now) (tokens text.now)) }
{
    let mut value = value;
    let mut rest = text;
    while let Some((token, more)) = cut_at_slash(rest) {
        let Some(next) = push_part(alloc, path, value, token)? else {
            return Ok(());
        };
        value = next;
        rest = more;
    }
    let _ = push_part(alloc, path, value, rest)?;
    Ok(())
}

// Where a pointer leads from a place, where `text` is the fragment after its first `/`.
fn location_along<'r>(
    alloc: Global,
    found: Numbered<'r>,
    text: &str,
) -> Result<Location<'r>, AllocError>
    ensures { (pointer : List ℕ)
        → IsUtf8 (percent_decode text.now)
        → IfOk result
        (λ l. location_view l
        ≡ with_parts
        (parts_along pointer (view found.entry.place.value.now)
        (tokens (percent_decode text.now)))
        (found.entry.layer, spot_of found.entry.place.entry.now)) }
{
    let mut location = location_of(alloc, found)?;
    match percent_decode(text.as_bytes()).decode_utf8(alloc) {
        Ok(decoded) => push_parts(
            alloc,
            &mut location.path,
            found.place.value,
            decoded.as_str(),
        )?,
        Err(DecodeError::OutOfMemory) => return Err(AllocError),
        Err(DecodeError::Utf8(_)) => {}
    }
    Ok(location)
}

impl<'r> Location<'r> {
    /// The path as a JSON Pointer: each part with a `/` before it, a key escaped, an index in decimal digits (RFC 6901,
    /// sections 3 and 4). Linear in its keys; takes memory for the text.
    pub fn pointer(&self, alloc: Global) -> Result<String, AllocError>
        ensures value { IfOk result
            (λ text. string_bytes text ≡ pointer_text (map part_of self.now.path.items)) }
    {
        pointer_of(alloc, self.path.as_slice())
    }
}

impl<'r> Resolver<'r> {
    /// Where a reference leads, as [`Resolver::lookup`] has it, and where that value is: the layer, counted from 0 for the
    /// registry's own documents, the number of the document in it, and the path there.
    ///
    /// Refuses as [`Resolver::lookup`] does, whose cost it has, and a step more for each part of a pointer. Takes memory for
    /// the path's parts and, of a pointer, for its keys; the other keys are borrowed.
    pub fn lookup_located(
        &self,
        alloc: Global,
        reference: &str,
    ) -> Result<(Resolved<'r>, Location<'r>), Error>
        ensures gives { Gives (λ f. found_of f.0)
            (lookup (world_of self.now) (resolver_of self.now) reference.now) result }
        ensures there { IfOk result
            (λ f. IsValueAt (world_of self.now) f.1 (found_of f.0).value) }
        ensures spot { IfOk result
            (λ f. lookup_location (world_of self.now) (resolver_of self.now) reference.now
            ≡ Some (location_view f.1)) }
        ensures world { IfOk result (λ f. world_found f.0 ≡ world_of self.now) }
    {
        let (uri, fragment) = self.target(alloc, reference)?;
        if is_name(fragment) {
            return self.located_name(alloc, uri, fragment);
        }
        let Some(place) = self.layers.numbered_resource(uri.as_str()) else {
            return Err(not_retrieved(alloc, &uri));
        };
        match fragment.strip_prefix('/') {
            Some(text) => self.located_pointer(alloc, uri, place, fragment, text),
            None => Ok(self.located_at(alloc, uri, place)?),
        }
    }

    /// Where `$recursiveRef` leads, as [`Resolver::lookup_recursive_ref`] has it, and where that value is. Refuses as that call
    /// does, whose cost it has, and a look-up more; takes memory for the path's parts.
    pub fn lookup_recursive_located(
        &self,
        alloc: Global,
    ) -> Result<(Resolved<'r>, Location<'r>), Error>
        ensures gives { Gives (λ f. found_of f.0)
            (lookup_recursive (world_of self.now) (resolver_of self.now)) result }
        ensures there { IfOk result
            (λ f. IsValueAt (world_of self.now) f.1 (found_of f.0).value) }
        ensures spot { IfOk result
            (λ f. lookup_location (world_of self.now) (resolver_of self.now)
            (recursive_reference (world_of self.now) (resolver_of self.now))
            ≡ Some (location_view f.1)) }
        ensures world { IfOk result (λ f. world_found f.0 ≡ world_of self.now) }
    {
        let (_, reference) = self.recursive(alloc)?;
        self.lookup_located(alloc, reference)
    }

    /// Where the value is that [`Resolver::lookup`] of a reference returns, as [`Resolver::lookup_located`] says it, which it
    /// calls.
    pub fn location(&self, alloc: Global, reference: &str) -> Result<Location<'r>, Error>
        ensures gives { GivesWhere (world_of self.now)
            (lookup (world_of self.now) (resolver_of self.now) reference.now) result }
        ensures spot { IfOk result
            (λ l. lookup_location (world_of self.now) (resolver_of self.now) reference.now
            ≡ Some (location_view l)) }
    {
        let (_, location) = self.lookup_located(alloc, reference)?;
        Ok(location)
    }

    /// Where the value is that [`Resolver::lookup_recursive_ref`] returns, as [`Resolver::lookup_recursive_located`] says it,
    /// which it calls.
    pub fn location_recursive(&self, alloc: Global) -> Result<Location<'r>, Error>
        ensures gives { GivesWhere (world_of self.now)
            (lookup_recursive (world_of self.now) (resolver_of self.now)) result }
        ensures spot { IfOk result
            (λ l. lookup_location (world_of self.now) (resolver_of self.now)
            (recursive_reference (world_of self.now) (resolver_of self.now))
            ≡ Some (location_view l)) }
    {
        let (_, location) = self.lookup_recursive_located(alloc)?;
        Ok(location)
    }

    // The value at a place under a URI, and where it is.
    fn located_at(
        &self,
        alloc: Global,
        uri: Rc<Uri>,
        found: Numbered<'r>,
    ) -> Result<(Resolved<'r>, Location<'r>), AllocError>
        ensures found { IfOk result
            (λ f. found_of f.0
            ≡ record {
              value = view found.entry.place.value.now;
              draft = found.entry.place.entry.now.draft;
              resolver = moved_resolver (resolver_of self.now) uri.value;
            }) }
        ensures there { (w : World) (p : Place) → IsLocatedAt w found.entry p
            → IfOk result (λ f. IsValueAt w f.1 p.value) }
        ensures spot { IfOk result
            (λ f. location_view f.1
            ≡ (found.entry.layer, spot_of found.entry.place.entry.now)) }
        ensures world { IfOk result (λ f. world_found f.0 ≡ world_of self.now) }
    {
        let location = location_of(alloc, found)?;
        let resolver = self.moved(alloc, uri)?;
        let resolved = Resolved {
            contents: found.place.value,
            resolver,
            draft: found.place.entry.draft,
        };
        Ok((resolved, location))
    }

    // What a pointer leads to in the resource at a place under a URI, and where that is; `text` is the fragment after its
    // first `/`.
    fn located_pointer(
        &self,
        alloc: Global,
        uri: Rc<Uri>,
        found: Numbered<'r>,
        pointer: &str,
        text: &str,
    ) -> Result<(Resolved<'r>, Location<'r>), Error>
        ensures gives { Gives (λ f. found_of f.0)
            (at_pointer (moved_resolver (resolver_of self.now) uri.value)
            found.entry.place.entry.now.draft pointer.now
            (view found.entry.place.value.now) text.now)
            result }
        ensures there { (w : World) (p : Place) → IsLocatedAt w found.entry p
            → IfOk result (λ f. IsValueAt w f.1 (found_of f.0).value) }
        ensures spot { IfOk result
            (λ f. location_view f.1
            ≡ with_parts
            (parts_along pointer.now (view found.entry.place.value.now)
            (tokens (percent_decode text.now)))
            (found.entry.layer, spot_of found.entry.place.entry.now)) }
        ensures world { IfOk result (λ f. world_found f.0 ≡ world_of self.now) }
    {
        let scope = self.scope_at(alloc, uri.as_str(), false)?;
        let resolved = self.at_pointer(alloc, uri, scope, found.place, pointer, text)?;
        let location = location_along(alloc, found, text)?;
        Ok((resolved, location))
    }

    // What a name means under a URI, and where that is.
    fn located_name(
        &self,
        alloc: Global,
        uri: Rc<Uri>,
        name: &str,
    ) -> Result<(Resolved<'r>, Location<'r>), Error>
        ensures gives { (reference : List ℕ)
            → target (resolver_of self.now).base reference ≡ Ok uri.value
            → fragment_part reference ≡ name.now → is_name name.now ≡ true
            → Gives (λ f. found_of f.0)
            (lookup (world_of self.now) (resolver_of self.now) reference) result }
        ensures there { IfOk result
            (λ f. IsValueAt (world_of self.now) f.1 (found_of f.0).value) }
        ensures spot { (reference : List ℕ)
            → target (resolver_of self.now).base reference ≡ Ok uri.value
            → fragment_part reference ≡ name.now → is_name name.now ≡ true
            → IfOk result
            (λ f. lookup_location (world_of self.now) (resolver_of self.now) reference
            ≡ Some (location_view f.1)) }
        ensures world { IfOk result (λ f. world_found f.0 ≡ world_of self.now) }
    {
        let Some(found) = numbered_meaning(&self.layers, uri.as_str(), name) else {
            return Err(self.no_name(alloc, &uri, name));
        };
        if found.named.is_dynamic {
            return self.located_dynamic(alloc, uri, name, found.place.place);
        }
        Ok(self.located_at(alloc, uri, found.place)?)
    }

    // What a name means under a URI where a dynamic anchor has it, at the place that was found, and where that is.
    fn located_dynamic(
        &self,
        alloc: Global,
        uri: Rc<Uri>,
        name: &str,
        found: Located<'r>,
    ) -> Result<(Resolved<'r>, Location<'r>), Error>
        ensures gives { (n : Named) → n.name ≡ name.now → n.kind ≡ Dynamic
            → IsLocated found.entry n.place → anchor (world_of self.now) uri.value name.now ≡ Ok n
            → Gives (λ f. found_of f.0)
            (named_found (world_of self.now)
            (moved_resolver (resolver_of self.now) uri.value) n n.kind)
            result }
        ensures there { IfOk result
            (λ f. IsValueAt (world_of self.now) f.1 (found_of f.0).value) }
        ensures spot { (n : Named) → n.name ≡ name.now → n.kind ≡ Dynamic
            → IsLocated found.entry n.place → anchor (world_of self.now) uri.value name.now ≡ Ok n
            → IfOk result
            (λ f. anchor_spot (world_of self.now)
            (naming_uri (world_of self.now) (moved_resolver (resolver_of self.now) uri.value) n
            n.kind) name.now
            ≡ Some (location_view f.1)) }
        ensures world { IfOk result (λ f. world_found f.0 ≡ world_of self.now) }
    {
        let resolver = self.moved(alloc, uri)?;
        let located = resolver.located_by_scope(alloc, name, found);
        drop(resolver);
        located
    }

    // What a name means by the dynamic scope where a dynamic anchor has it, at the place that was found under the base, and
    // where that is.
    fn located_by_scope(
        &self,
        alloc: Global,
        name: &str,
        found: Located<'r>,
    ) -> Result<(Resolved<'r>, Location<'r>), Error>
        ensures gives { (n : Named) → n.name ≡ name.now → n.kind ≡ Dynamic
            → IsLocated found.entry n.place
            → anchor (world_of self.now) (resolver_of self.now).base name.now ≡ Ok n
            → Gives (λ f. found_of f.0)
            (named_found (world_of self.now) (resolver_of self.now) n n.kind) result }
        ensures there { IfOk result
            (λ f. IsValueAt (world_of self.now) f.1 (found_of f.0).value) }
        ensures spot { (n : Named) → n.name ≡ name.now → n.kind ≡ Dynamic
            → IsLocated found.entry n.place
            → anchor (world_of self.now) (resolver_of self.now).base name.now ≡ Ok n
            → IfOk result
            (λ f. anchor_spot (world_of self.now)
            (naming_uri (world_of self.now) (resolver_of self.now) n n.kind) name.now
            ≡ Some (location_view f.1)) }
        ensures world { IfOk result (λ f. world_found f.0 ≡ world_of self.now) }
    {
        let (uri, _) = outermost(alloc, self, name, found)?;
        let Some(found) = numbered_meaning(&self.layers, uri.as_str(), name) else {
            return Err(not_named(alloc, name));
        };
        let location = location_of(alloc, found.place)?;
        let resolved = under_uri(alloc, self, uri, found.place.place)?;
        Ok((resolved, location))
    }
}
