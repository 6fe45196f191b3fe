//! Where a value is found.
ghost use Rattle.std.specs.Prelude.{◌≡◌, ◌∷◌, ◌++◌, [], codes, map, IfOk, IfErr, OnOk, option_map};
ghost use Rattle.serde_json.specs.Data.{string};
ghost use Rattle.serde_json.specs.View.{view, members_view};
ghost use Rattle.ref_parts.specs.Pointer.{pointer_text};
ghost use Rattle.ref_paths.specs.Segment.{part_of};
ghost use Rattle.ref_error.specs.Errors.{IsFaultOf};
ghost use Rattle.ref_resolver.specs.Resolving.{resolver_of, world_of};
ghost use Rattle.ref_calls.specs.Objects.{object_of, with_all, whole};
ghost use Rattle.ref_calls.specs.Given.{kept_of};
ghost use Rattle.ref_serve.specs.Results as results;
ghost use Rattle.ref_serve.specs.inner.Seen.{asked_view, IsFoundBy, answer_at, place_at};

use crate::asked::Asked;
use ref_calls::members::{Members, put_number, put_text};
use ref_calls::scope::{Kept, scope_answered};
use referencing::{Draft, Error, JsonPointerSegment, Location, Resolver, pointer_of};
use serde_json::{Map, Value, put};
use std::alloc::{AllocError, Global};

/// Puts a place in one of a registry's own documents.
pub fn put_site(
    alloc: Global,
    members: &mut Members,
    document: usize,
    path: &[JsonPointerSegment<'_>],
) -> Result<(), AllocError>
    ensures { OnOk result
        (members_view members.new.entries ≡ with_all ((codes "document", whole document)
        ∷ (codes "pointer", string (pointer_text (map part_of path.now))) ∷ [])
        (members_view members.old.entries)) }
{
    put_number(alloc, members, "document", document)?;
    let pointer = pointer_of(alloc, path)?;
    put(members, alloc, "pointer", Value::String(pointer))
}

/// Puts the base and the dynamic scope, of which a kept one may be the end.
pub fn put_resolver(
    alloc: Global,
    members: &mut Members,
    kept: Option<Kept<'_>>,
    resolver: &Resolver<'_>,
) -> Result<(), AllocError>
    ensures { OnOk result (members_view members.new.entries
        ≡ with_all (results.resolver_members (option_map kept_of kept.entry)
        (resolver_of resolver.now)) (members_view members.old.entries)) }
{
    put_text(alloc, members, "base", resolver.base_uri().as_str())?;
    let scope = scope_answered(alloc, kept, resolver.dynamic_scope())?;
    put(members, alloc, "scope", scope)
}

/// A value that was found, its draft and its place.
#[derive(Drop)]
pub struct Found<'s> {
    pub value: &'s Value,
    pub draft: Draft,
    pub location: Location<'s>,
}

/// What a reference means from a resolver, or without one what a recursive reference means, and the resolver there.
pub fn found_at<'s>(
    alloc: Global,
    resolver: &Resolver<'s>,
    reference: Option<&str>,
) -> Result<(Found<'s>, Resolver<'s>), Error>
    ensures ok { IfOk result
        (λ f. IsFoundBy (world_of resolver.now)
        (place_at (world_of resolver.now) (resolver_of resolver.now)
        (option_map (λ r. r.now) reference.entry))
        (answer_at (world_of resolver.now) (resolver_of resolver.now)
        (option_map (λ r. r.now) reference.entry)) f.0 (resolver_of f.1)) }
    ensures world { IfOk result (λ f. world_of f.1 ≡ world_of resolver.now) }
    ensures fault { IfErr result
        (IsFaultOf (answer_at (world_of resolver.now) (resolver_of resolver.now) (option_map
        (λ r. r.now) reference.entry))) }
{
    let (resolved, location) = match reference {
        Some(reference) => resolver.lookup_located(alloc, reference)?,
        None => resolver.lookup_recursive_located(alloc)?,
    };
    let (value, next, draft) = resolved.into_inner();
    let found = Found {
        value,
        draft,
        location,
    };
    Ok((found, next))
}

// Puts a value, where it is asked for.
fn put_value(
    alloc: Global,
    members: &mut Members,
    values: bool,
    value: &Value,
) -> Result<(), AllocError>
    ensures { OnOk result (members_view members.new.entries
        ≡ with_all (results.value_member values (view value.now))
        (members_view members.old.entries)) }
{
    if !values {
        return Ok(());
    }
    put(members, alloc, "value", value.clone()?)
}

/// Puts the place of what was found, its draft, and its value where that is asked for.
pub fn put_found(
    alloc: Global,
    members: &mut Members,
    asked: &Asked<'_>,
    found: &Found<'_>,
) -> Result<(), AllocError>
    ensures { OnOk result (members_view members.new.entries
        ≡ with_all (results.found_members (asked_view asked.now) found.now.location
        (view found.now.value.now) found.now.draft) (members_view members.old.entries)) }
{
    let location = &found.location;
    put_number(alloc, members, "registry", asked.layer(location.layer))?;
    put_number(alloc, members, "document", location.document)?;
    let pointer = location.pointer(alloc)?;
    put(members, alloc, "pointer", Value::String(pointer))?;
    put_text(alloc, members, "draft", found.draft.name())?;
    put_value(alloc, members, asked.values, found.value)
}

/// The object of a value that was found, with the base and the scope after it.
pub fn located_object(
    alloc: Global,
    asked: &Asked<'_>,
    found: &Found<'_>,
    resolver: &Resolver<'_>,
) -> Result<Value, AllocError>
    ensures { IfOk result (λ d. view d
        ≡ object_of (results.found_members (asked_view asked.now) found.now.location
        (view found.now.value.now) found.now.draft
        ++ results.resolver_members (asked_view asked.now).kept (resolver_of resolver.now))) }
{
    let mut members = Map::new(alloc);
    put_found(alloc, &mut members, asked, found)?;
    put_resolver(alloc, &mut members, asked.kept, resolver)?;
    Ok(Value::Object(members))
}
