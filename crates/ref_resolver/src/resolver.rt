//! Where references lead from a base URI.
ghost use Rattle.std.specs.Prelude.{◌≡◌, ◌==◌, ℕ, List, Some, [], ◌++◌, codes, slice_index, if◌then◌else◌, IfOk, IfSome, MatchOption, Ok, Err, None};
ghost use Rattle.std.specs.Fmt.{WritesOnOk};
ghost use Rattle.std.specs.List.{join_by};
ghost use Rattle.serde_json.specs.View.{view};
ghost use Rattle.ref_uri.specs.Bytes.{hash};
ghost use Rattle.ref_uri.specs.Targets.{uri_against, target, fragment_part};
ghost use Rattle.ref_definitions.specs.Fault.{as_invalid_uri};
ghost use Rattle.ref_definitions.specs.Resources.{meant_place};
ghost use Rattle.ref_resolver.specs.Layered.{world_in};
ghost use Rattle.ref_resolver.specs.inner.Located.{IsMeant, IsKnown, KnowsPlace, knows_once};

use crate::fragment::{is_name, meaning, not_named, not_retrieved, outermost, under_uri};
use crate::layers::Layers;
use crate::located::Located;
use crate::pointed::{Along, Walk, follow_pointer};
use ref_draft::{Draft, Reached, ResourceRef};
use ref_error::Error;
use ref_parts::list::List;
use ref_uri::parts::parts;
use ref_uri::{Uri, UriRef};
use serde_json::Value;
use std::alloc::{AllocError, Global};
use std::fmt;
use std::rc::Rc;

/// Where a lookup starts from: a registry, a base URI, and the dynamic scope, which is the URIs passed so far, inner to outer
/// (2020-12 Core, 7.1).
#[derive(Drop)]
pub struct Resolver<'r> {
    pub(crate) layers: Layers<'r>,
    pub(crate) base: Rc<Uri>,
    // The place that the base means, where that is known without a look-up.
    place: Option<Located<'r>>,
    pub(crate) scope: List<Uri>,
    ghost known: { KnowsPlace layers base place } by { knows_once layers base place },
}

// The place, where it is known and there is no fragment.
#[inline(always)]
fn whole_of<'r>(known: Option<Located<'r>>, fragment: &str) -> Option<Located<'r>>
    ensures { IfSome result (λ place. (known.entry ≡ Some place) × (fragment.now ≡ [])) }
{
    if fragment.is_empty() { known } else { None }
}

impl<'r> Resolver<'r> {
    ghost use Rattle.std.specs.Prelude.{false, true};
    ghost use Rattle.ref_definitions.specs.Anchors.{Named, anchor, not_named};
    ghost use Rattle.ref_draft.specs.Anchors.{Dynamic};
    ghost use Rattle.ref_draft.specs.Views.{resource_ref};
    ghost use Rattle.ref_definitions.specs.Lookup.{moved_resolver, in_subresource, lookup, named_found};
    ghost use Rattle.ref_definitions.specs.Places.{Place};
    ghost use Rattle.ref_error.specs.Errors.{IsFaultOf, Gives};
    ghost use Rattle.ref_resolver.specs.Resolving.{resolver_of, world_of, found_of, world_found};
    ghost use Rattle.ref_resolver.specs.inner.Leading.{at_pointer};
    ghost use Rattle.ref_resolver.specs.inner.Located.{IsLocated};
    ghost use Rattle.ref_resolver.specs.inner.Names.{is_name};

    /// A resolver over layers at a base URI, with an empty dynamic scope. The URI need not mean a place. Takes memory
    /// for a handle.
    pub fn new(alloc: Global, layers: Layers<'r>, base: Uri) -> Result<Resolver<'r>, AllocError>
        ensures resolver { IfOk result (λ r. resolver_of r ≡ record { base = base; scope = [] }) }
        ensures world { IfOk result (λ r. world_of r ≡ world_in layers.entry) }
    {
        let base = Rc::new(alloc, base)?;
        Ok(Resolver::from_parts(layers, base, List::new()))
    }

    /// A resolver over layers at a base URI, with this dynamic scope, inner to outer. No URI need mean a place. Takes
    /// no memory.
    pub fn from_parts(layers: Layers<'r>, base: Rc<Uri>, scope: List<Uri>) -> Resolver<'r>
        ensures resolver { resolver_of result ≡ record { base = base.value; scope = scope } }
        ensures world { world_of result ≡ world_in layers.entry }
    {
        Resolver {
            layers,
            base,
            place: None,
            scope,
        }
    }

    /// This resolver, which knows the place that its base means, so that look-ups of fragments from it needn't look for that. A
    /// look-up for each layer, up to the first that has it; takes no memory.
    pub fn with_place(self) -> Resolver<'r>
        ensures resolver { resolver_of result ≡ resolver_of self.entry }
        ensures world { world_of result ≡ world_of self.entry }
    {
        let Resolver {
            layers,
            base,
            scope,
            ..
        } = self;
        let place = layers.resource(base.as_str());
        Resolver {
            layers,
            base,
            place,
            scope,
        }
    }

    /// The base URI and the dynamic scope, inner to outer. Takes no memory.
    pub fn into_parts(self) -> (Rc<Uri>, List<Uri>)
        ensures base { result.0.value ≡ (resolver_of self.entry).base }
        ensures scope { result.1 ≡ (resolver_of self.entry).scope }
    {
        (self.base, self.scope)
    }

    /// The base URI. Takes no memory.
    pub fn base_uri(&self) -> &Rc<Uri>
        ensures value { result.now.value ≡ (resolver_of self.now).base }
    {
        &self.base
    }

    /// The URIs passed so far, inner to outer. Takes no memory.
    pub fn dynamic_scope(&self) -> &List<Uri>
        ensures value { result.now ≡ (resolver_of self.now).scope }
    {
        &self.scope
    }

    /// The URI that a text means against a base (RFC 3986, 5.2), in normal form, whatever was resolved before. Where it
    /// was, the code takes no memory, which no clause says. Refuses as `InvalidUri` a base without a scheme and a text
    /// that is no URI reference, and as `Memory` where there is none for the URI.
    pub fn resolve_uri(&self, alloc: Global, base: UriRef<'_>, uri: &str) -> Result<Rc<Uri>, Error>
        ensures gives { Gives (λ u. u.value) (as_invalid_uri (uri_against base.entry uri.now))
            result }
    {
        self.layers.resolve_uri(alloc, base, uri)
    }

    // What a reference points into, and its fragment.
    pub(crate) fn target<'t>(
        &self,
        alloc: Global,
        reference: &'t str,
    ) -> Result<(Rc<Uri>, &'t str), Error>
        ensures gives { Gives (λ t. t.0.value)
            (as_invalid_uri (target (resolver_of self.now).base reference.now))
            result }
        ensures fragment { IfOk result (λ t. t.1.now ≡ fragment_part reference.now) }
    {
        if let Some(fragment) = reference.strip_prefix('#') {
            return Ok((self.base.clone()?, fragment));
        }
        let (text, fragment) = parts(reference);
        let uri = self.layers.resolve_within(alloc, &self.base, text)?;
        Ok((uri, fragment))
    }

    // This resolver with another base, and the place that it means, where that is known.
    pub(crate) fn with_base(
        &self,
        base: Rc<Uri>,
        place: Option<Located<'r>>,
    ) -> Result<Resolver<'r>, AllocError>
        requires known { IfSome place (IsKnown (meant_place (world_of self.now) base.value)) }
        ensures resolver { IfOk result
            (λ r. resolver_of r ≡ record (resolver_of self.now) { base = base.value }) }
        ensures world { IfOk result (λ r. world_of r ≡ world_of self.now) }
    {
        Ok(Resolver {
            layers: self.layers,
            base,
            place,
            scope: self.scope.clone()?,
        })
    }

    // The dynamic scope at a URI: the old base goes before it where it was empty or the base changes. Where the URI is known to
    // be the base, the two aren't compared.
    #[inline(always)]
    pub(crate) fn scope_at(
        &self,
        alloc: Global,
        uri: &str,
        is_base: bool,
    ) -> Result<List<Uri>, AllocError>
        requires base { is_base ≡ true → uri.now ≡ (resolver_of self.now).base }
        ensures { IfOk result
            (λ scope. scope ≡ (moved_resolver (resolver_of self.now) uri.now).scope) }
    {
        if self.scope.is_empty() || (!is_base && uri != self.base.as_str()) {
            self.scope.push_front(alloc, self.base.clone()?)
        } else {
            self.scope.clone()
        }
    }

    // This resolver at a URI.
    pub(crate) fn moved(&self, alloc: Global, uri: Rc<Uri>) -> Result<Resolver<'r>, AllocError>
        ensures resolver { IfOk result
            (λ r. resolver_of r ≡ moved_resolver (resolver_of self.now) uri.value) }
        ensures world { IfOk result (λ r. world_of r ≡ world_of self.now) }
    {
        let scope = self.scope_at(alloc, uri.as_str(), false)?;
        Ok(Resolver {
            layers: self.layers,
            base: uri,
            place: None,
            scope,
        })
    }

    /// The resolver in a resource: its identifier, where it has one, changes the base and nothing else (2020-12 Core, 8.2.1).
    /// Refuses as `InvalidUri` for an identifier that means no URI, and as `Memory`.
    pub fn in_subresource(
        &self,
        alloc: Global,
        subresource: ResourceRef<'_>,
    ) -> Result<Resolver<'r>, Error>
        ensures gives { Gives resolver_of
            (as_invalid_uri
            (in_subresource (resolver_of self.now) (resource_ref subresource.entry).draft
            (resource_ref subresource.entry).contents))
            result }
        ensures world { IfOk result (λ r. world_of r ≡ world_of self.now) }
    {
        let Some(id) = subresource.id() else {
            return Ok(self.clone()?);
        };
        let base = self.layers.resolve_uri(alloc, self.base.borrow(), id)?;
        Ok(self.with_base(base, None)?)
    }

    /// Where a reference leads (2020-12 Core, 8.2.3): what is before its last `#` means a place by its URI, against the
    /// base, and what follows it means the resource there, what a pointer leads to in it, or what an anchor names, a dynamic
    /// one by the dynamic scope. Nothing is retrieved.
    ///
    /// Refuses as `InvalidUri` for a text, or an identifier on the way, that means no URI; as `Unretrievable` for a URI that
    /// means no place; as `InvalidPercentEncoding`, `InvalidArrayIndex` and `PointerToNowhere` for a pointer that leads
    /// nowhere; as `NoSuchAnchor` and, where there is a `/` in it, `InvalidAnchor` for a name that nothing has; and as
    /// `Memory`. Look-ups in tables, one for each part of a pointer, and for a dynamic anchor one for each URI of the scope from
    /// the outermost on, up to the first that has it, and a step for each of the others; where there is a `/` in its name, one
    /// for each URI. Of a fragment alone, the place of the base isn't looked for where it is known: it is at what a look-up of a
    /// URI without a fragment finds, and in a resolver of a registry. No value is copied. By the code, `#` takes no memory
    /// where the base means a place; no clause says so, but [`Resolver::at_base`] takes none by its signature.
    #[inline(always)]
    pub fn lookup(&self, alloc: Global, reference: &str) -> Result<Resolved<'r>, Error>
        ensures gives { Gives found_of
            (lookup (world_of self.now) (resolver_of self.now) reference.now) result }
        ensures world { IfOk result (λ found. world_found found ≡ world_of self.now) }
    {
        let Some(fragment) = reference.strip_prefix('#') else {
            return self.elsewhere(alloc, reference);
        };
        if is_name(fragment) {
            return self.at_name(alloc, &self.base, fragment, true);
        }
        if let Some(place) = whole_of(self.place, fragment) {
            return self.here(alloc, place);
        }
        self.at_place(alloc, &self.base, self.place, fragment, true)
    }

    // Where `#` leads, where the place of the base is known.
    #[inline(never)]
    fn here(&self, alloc: Global, place: Located<'r>) -> Result<Resolved<'r>, Error>
        requires known { IsMeant (meant_place (world_of self.now) (resolver_of self.now).base) place }
        ensures gives { (reference : List ℕ)
            → target (resolver_of self.now).base reference ≡ Ok (resolver_of self.now).base
            → fragment_part reference ≡ []
            → Gives found_of (lookup (world_of self.now) (resolver_of self.now) reference) result }
        ensures world { IfOk result (λ found. world_found found ≡ world_of self.now) }
    {
        let scope = self.scope_at(alloc, self.base.as_str(), true)?;
        Ok(Resolved {
            contents: place.value,
            resolver: Resolver {
                layers: self.layers,
                base: self.base.clone()?,
                place: Some(place),
                scope,
            },
            draft: place.entry.draft,
        })
    }

    // Where a reference leads that doesn't begin with `#`. At once, where what it means was resolved before, means a place of the
    // own documents, and has no fragment.
    #[inline(never)]
    fn elsewhere(&self, alloc: Global, reference: &str) -> Result<Resolved<'r>, Error>
        requires front { (slice_index reference.now 0 == hash) ≡ false }
        ensures gives { Gives found_of
            (lookup (world_of self.now) (resolver_of self.now) reference.now) result }
        ensures world { IfOk result (λ found. world_found found ≡ world_of self.now) }
    {
        let (text, fragment) = parts(reference);
        let Some((uri, known)) = self.layers.known(&self.base, text) else {
            return self.anew(alloc, text, fragment);
        };
        let Some(place) = whole_of(known, fragment) else {
            return self.within(alloc, uri, known, fragment);
        };
        let scope = self.scope_at(alloc, uri.as_str(), false)?;
        Ok(Resolved {
            contents: place.value,
            resolver: Resolver {
                layers: self.layers,
                base: uri.clone()?,
                place: Some(place),
                scope,
            },
            draft: place.entry.draft,
        })
    }

    // Where a fragment leads under a URI that a text means which wasn't resolved before in the own documents.
    #[inline(never)]
    fn anew(&self, alloc: Global, text: &str, fragment: &str) -> Result<Resolved<'r>, Error>
        ensures gives { (reference : List ℕ)
            → target (resolver_of self.now).base reference
            ≡ uri_against (resolver_of self.now).base text.now
            → fragment_part reference ≡ fragment.now
            → Gives found_of (lookup (world_of self.now) (resolver_of self.now) reference) result }
        ensures world { IfOk result (λ found. world_found found ≡ world_of self.now) }
    {
        let uri = self.layers.resolve_above(alloc, &self.base, text)?;
        self.within(alloc, &uri, None, fragment)
    }

    // Where a fragment leads under a URI, whose place may be known.
    #[inline(never)]
    fn within(
        &self,
        alloc: Global,
        uri: &Rc<Uri>,
        known: Option<Located<'r>>,
        fragment: &str,
    ) -> Result<Resolved<'r>, Error>
        requires known { IfSome known (IsMeant (meant_place (world_of self.now) uri.now.value)) }
        ensures gives { (reference : List ℕ)
            → target (resolver_of self.now).base reference ≡ Ok uri.now.value
            → fragment_part reference ≡ fragment.now
            → Gives found_of (lookup (world_of self.now) (resolver_of self.now) reference) result }
        ensures world { IfOk result (λ found. world_found found ≡ world_of self.now) }
    {
        if is_name(fragment) {
            return self.at_name(alloc, uri, fragment, false);
        }
        self.at_place(alloc, uri, known, fragment, false)
    }

    // Where a fragment that is no name leads under a URI, whose place may be known, and which may be known to be the base.
    #[inline(never)]
    fn at_place(
        &self,
        alloc: Global,
        uri: &Rc<Uri>,
        known: Option<Located<'r>>,
        fragment: &str,
        is_base: bool,
    ) -> Result<Resolved<'r>, Error>
        requires known { IfSome known (IsMeant (meant_place (world_of self.now) uri.now.value)) }
        requires name { is_name fragment.now ≡ false }
        requires base { is_base ≡ true → uri.now.value ≡ (resolver_of self.now).base }
        ensures gives { (reference : List ℕ)
            → target (resolver_of self.now).base reference ≡ Ok uri.now.value
            → fragment_part reference ≡ fragment.now
            → Gives found_of (lookup (world_of self.now) (resolver_of self.now) reference) result }
        ensures world { IfOk result (λ found. world_found found ≡ world_of self.now) }
    {
        let Some(place) = self.layers.resource_or(known, uri.as_str()) else {
            return Err(not_retrieved(alloc, uri));
        };
        let scope = self.scope_at(alloc, uri.as_str(), is_base)?;
        if let Some(text) = fragment.strip_prefix('/') {
            return self.at_pointer(alloc, uri.clone()?, scope, place, fragment, text);
        }
        Ok(Resolved {
            contents: place.value,
            resolver: Resolver {
                layers: self.layers,
                base: uri.clone()?,
                place: Some(place),
                scope,
            },
            draft: place.entry.draft,
        })
    }

    /// The value that the base means, and its draft: what [`Resolver::lookup`] of `#` finds. `None` where it means no place. A
    /// look-up for each layer, up to the first that has it; takes no memory.
    pub fn at_base(&self) -> Option<(&'r Value, Draft)>
        ensures value { MatchOption result
            (meant_place (world_of self.now) (resolver_of self.now).base ≡ None)
            (λ found. (place : Place)
            × (meant_place (world_of self.now) (resolver_of self.now).base ≡ Some place)
            × (view found.0.now ≡ place.value) × (found.1 ≡ place.draft)) }
    {
        let place = self.layers.resource_or(self.place, self.base.as_str())?;
        Some((place.value, place.entry.draft))
    }

    // What a pointer leads to in the resource at a place under a URI, with the scope there, where `text` is the fragment after
    // its first `/`. Its many values stay out of the look-up of whole resources.
    #[inline(never)]
    pub(crate) fn at_pointer(
        &self,
        alloc: Global,
        uri: Rc<Uri>,
        scope: List<Uri>,
        place: Located<'r>,
        pointer: &str,
        text: &str,
    ) -> Result<Resolved<'r>, Error>
        ensures gives { Gives found_of
            (at_pointer (record { base = uri.value; scope = scope })
            place.entry.entry.now.draft pointer.now (view place.entry.value.now) text.now)
            result }
        ensures world { IfOk result (λ found. world_found found ≡ world_of self.now) }
    {
        let walk = Walk {
            layers: self.layers,
            draft: place.entry.draft,
            pointer,
        };
        let mut along = Along {
            value: place.value,
            base: uri,
            reached: Reached::Schema,
        };
        follow_pointer(alloc, &walk, &mut along, text)?;
        let Along { value, base, .. } = along;
        Ok(Resolved {
            contents: value,
            resolver: Resolver {
                layers: walk.layers,
                base,
                place: None,
                scope,
            },
            draft: walk.draft,
        })
    }

    // Where a name leads under a URI, which may be known to be the base.
    #[inline(never)]
    fn at_name(
        &self,
        alloc: Global,
        uri: &Rc<Uri>,
        name: &str,
        is_base: bool,
    ) -> Result<Resolved<'r>, Error>
        requires base { is_base ≡ true → uri.now.value ≡ (resolver_of self.now).base }
        ensures gives { (reference : List ℕ)
            → target (resolver_of self.now).base reference ≡ Ok uri.now.value
            → fragment_part reference ≡ name.now → is_name name.now ≡ true
            → Gives found_of (lookup (world_of self.now) (resolver_of self.now) reference) result }
        ensures world { IfOk result (λ found. world_found found ≡ world_of self.now) }
    {
        let Some(found) = meaning(&self.layers, uri.as_str(), name) else {
            return Err(self.no_name(alloc, uri, name));
        };
        if found.named.is_dynamic {
            return self.at_dynamic(alloc, uri.clone()?, name, found.place);
        }
        let scope = self.scope_at(alloc, uri.as_str(), is_base)?;
        Ok(Resolved {
            contents: found.place.value,
            resolver: Resolver {
                layers: self.layers,
                base: uri.clone()?,
                place: None,
                scope,
            },
            draft: found.place.entry.draft,
        })
    }

    // Where a name leads under a URI where a dynamic anchor has it, at the place that was found. The many values of
    // this stay out of what a plain anchor takes.
    #[inline(never)]
    fn at_dynamic(
        &self,
        alloc: Global,
        uri: Rc<Uri>,
        name: &str,
        found: Located<'r>,
    ) -> Result<Resolved<'r>, Error>
        ensures gives { (n : Named) → n.name ≡ name.now → n.kind ≡ Dynamic
            → IsLocated found.entry n.place
            → Gives found_of
            (named_found (world_of self.now)
            (moved_resolver (resolver_of self.now) uri.value) n n.kind)
            result }
        ensures world { IfOk result (λ f. world_found f ≡ world_of self.now) }
    {
        let resolver = self.moved(alloc, uri)?;
        let (uri, place) = outermost(alloc, &resolver, name, found)?;
        under_uri(alloc, &resolver, uri, place)
    }

    // The fault of a name that nothing has under a URI: that of the URI where it means no place.
    #[inline(never)]
    pub(crate) fn no_name(&self, alloc: Global, uri: &Uri, name: &str) -> Error
        ensures { (reference : List ℕ) → target (resolver_of self.now).base reference ≡ Ok uri.now
            → fragment_part reference ≡ name.now → is_name name.now ≡ true
            → anchor (world_of self.now) uri.now name.now ≡ Err (not_named name.now)
            → IsFaultOf (lookup (world_of self.now) (resolver_of self.now) reference) result }
    {
        if self.layers.has_resource(uri.as_str()) {
            not_named(alloc, name)
        } else {
            not_retrieved(alloc, uri)
        }
    }
}

/// What a reference leads to: the document's own value, its draft, and the resolver there.
#[derive(Drop)]
pub struct Resolved<'r> {
    pub(crate) contents: &'r Value,
    pub(crate) resolver: Resolver<'r>,
    pub(crate) draft: Draft,
}

impl<'r> Resolved<'r> {
    ghost use Rattle.ref_resolver.specs.Resolving.{resolver_of, world_of, found_of, world_found};

    /// The value, which is the document's own. Takes no memory.
    pub fn contents(&self) -> &'r Value
        ensures value { view result.now ≡ (found_of self.now).value }
    {
        self.contents
    }

    /// The resolver at the value. Takes no memory.
    pub fn resolver(&self) -> &Resolver<'r>
        ensures resolver { resolver_of result.now ≡ (found_of self.now).resolver }
        ensures world { world_of result.now ≡ world_found self.now }
    {
        &self.resolver
    }

    /// The value, the resolver there, and the value's draft. Takes no memory.
    pub fn into_inner(self) -> (&'r Value, Resolver<'r>, Draft)
        ensures value { view result.0.now ≡ (found_of self.entry).value }
        ensures resolver { resolver_of result.1 ≡ (found_of self.entry).resolver }
        ensures draft { result.2 ≡ (found_of self.entry).draft }
        ensures world { world_of result.1 ≡ world_found self.entry }
    {
        (self.contents, self.resolver, self.draft)
    }
}

/// The same registry, base and dynamic scope, shared: two handles more. By the code it takes no memory; no clause says
/// so. It fails only where the URI or the scope has no count left for one more handle, which `std::rc::Rc` returns as
/// out of memory.
impl<'r> Clone for Resolver<'r> {
    ghost use Rattle.ref_resolver.specs.Resolving.{resolver_of, world_of};

    ghost is_clone = { λ resolver copy. (resolver_of copy ≡ resolver_of resolver)
        × (world_of copy ≡ world_of resolver) };

    fn clone(&self) -> Result<Resolver<'r>, AllocError> {
        Ok(self.with_base(self.base.clone()?, self.place)?)
    }
}

/// Resolvers are equal where their bases are.
impl<'r> PartialEq for Resolver<'r> {
    ghost use Rattle.std.specs.Prelude.{bytes_eq};
    ghost use Rattle.std.specs.Cmp.{partial_equiv_from_equiv};
    ghost use Rattle.ref_resolver.specs.Resolving.{resolver_of};
    ghost use Rattle.ref_resolver.specs.inner.Comparing.{by_base};

    ghost eq = { λ a b. bytes_eq (resolver_of a).base (resolver_of b).base };

    ghost laws = { partial_equiv_from_equiv by_base };

    fn eq(&self, other: &Resolver<'r>) -> bool {
        self.base.as_str() == other.base.as_str()
    }
}

impl<'r> Eq for Resolver<'r> {
    ghost use Rattle.ref_resolver.specs.inner.Comparing.{by_base};

    ghost laws = { by_base };
}

// Writes a URI, after a separator where it is not the first.
fn write_uri<W: fmt::Write>(f: &mut fmt::Formatter<W>, is_first: bool, uri: &str) -> fmt::Result
    ensures { WritesOnOk W.write_str_gives f.old result
        ((if is_first then [] else codes ", ") ++ uri.now) f.new }
{
    let separator = if is_first { "" } else { ", " };
    write!(f, "{separator}{uri}")
}

// Writes URIs, with a separator between them.
fn write_scope<W: fmt::Write>(f: &mut fmt::Formatter<W>, scope: &List<Uri>) -> fmt::Result
    ensures { WritesOnOk W.write_str_gives f.old result
        (join_by (λ uri. uri) (codes ", ") scope.now) f.new }
{
    let mut is_first = true;
    for uri in scope {
        write_uri(f, is_first, uri.as_str())?;
        is_first = false;
    }
    Ok(())
}

/// `Resolver { base_uri: "B", scopes: "[U, V]" }`, the scope from inner to outer.
impl fmt::Debug for Resolver<'_> {
    ghost use Rattle.std.specs.Prelude.{Some};
    ghost use Rattle.ref_definitions.specs.Lookup.{resolver_text};
    ghost use Rattle.ref_resolver.specs.Resolving.{resolver_of};

    ghost debug_output = { λ r. Some (resolver_text (resolver_of r)) };

    fn fmt<W: fmt::Write>(&self, f: &mut fmt::Formatter<W>) -> fmt::Result {
        let base = self.base.as_str();
        write!(f, "Resolver {{ base_uri: \"{base}\", scopes: \"[")?;
        write_scope(f, &self.scope)?;
        write!(f, "]\" }}")
    }
}

/// `Resolved { resolver: R, draft: D }`.
impl fmt::Debug for Resolved<'_> {
    fn fmt<W: fmt::Write>(&self, f: &mut fmt::Formatter<W>) -> fmt::Result {
        let (resolver, draft) = (&self.resolver, self.draft);
        write!(f, "Resolved {{ resolver: {resolver:?}, draft: {draft:?} }}")
    }
}
