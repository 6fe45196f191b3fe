//! A validator that follows `$ref` while it goes through a schema.
ghost use Rattle.std.specs.Prelude.{◌≡◌, option_map, Some, Ok, Result, IfOk, IfErr, IfSome};
ghost use Rattle.serde_json.specs.View.{view};
ghost use Rattle.referencing.specs.Views.{walked_child};
ghost use Rattle.referencing.specs.Fault.{Fault};
ghost use Rattle.referencing.specs.Lookup.{Found};
ghost use Rattle.referencing.specs.Errors.{IsFaultOf, Gives};
ghost use Rattle.referencing.specs.Resolving.{resolver_of, world_of, found_of, world_found};
ghost use Rattle.uses.specs.Validating.{referred_from, is_valid, is_of_type, part_for, validated_within};

use referencing::{Child, Draft, Error, JsonPointerSegment, Resolved, Resolver, ResourceRef};
use serde_json::Value;
use std::alloc::Global;

/// What a validator returns.
#[derive(Clone, Copy, Debug, Drop)]
pub enum Verdict {
    /// The instance meets the schema.
    Valid,
    /// It doesn't.
    Invalid,
    /// More schemas are in one another than were allowed.
    TooDeep,
}

impl Verdict {
    /// Whether the instance meets the schema.
    pub fn is_valid(self) -> bool
        ensures value { result ≡ is_valid self }
    {
        matches!(self, Verdict::Valid)
    }
}

// Where the text under `$ref` of a schema leads (2020-12 Core, 8.2.3.1), from the resolver at the schema, where it has one.
fn referred<'r>(
    alloc: Global,
    resolver: &Resolver<'r>,
    schema: &Value,
) -> Result<Option<Resolved<'r>>, Error>
    ensures ok { IfOk result
        (λ found. option_map (λ f. Ok (found_of f)) found
        ≡ referred_from (world_of resolver.now) (resolver_of resolver.now) (view schema.now)) }
    ensures world { IfOk result
        (λ found. IfSome found (λ f. world_found f ≡ world_of resolver.now)) }
    ensures fault { IfErr result
        (λ error. (meaning : Result Found Fault)
        × (referred_from (world_of resolver.now) (resolver_of resolver.now) (view schema.now)
        ≡ Some meaning)
        × IsFaultOf meaning error) }
{
    let Some(reference) = schema.get("$ref").and_then(Value::as_str) else {
        return Ok(None);
    };
    let found = resolver.lookup(alloc, reference)?;
    Ok(Some(found))
}

// Whether an instance has the type that a schema names, where it names one of the six that `serde_json` tells apart.
fn is_of_type(schema: &Value, instance: &Value) -> bool
    ensures { result ≡ is_of_type (view schema.now) (view instance.now) }
{
    match schema.get("type").and_then(Value::as_str) {
        Some("null") => instance.is_null(),
        Some("boolean") => instance.is_boolean(),
        Some("number") => instance.is_number(),
        Some("string") => instance.is_string(),
        Some("array") => instance.is_array(),
        Some("object") => instance.is_object(),
        _ => true,
    }
}

// What of an instance a subschema is asked of: under `properties` the member of its name, under `allOf` the instance itself.
fn part_for<'v>(child: &Child<'_>, instance: &'v Value) -> Option<&'v Value>
    ensures { option_map (λ part. view part.now) result
        ≡ part_for (walked_child child.now).path (view instance.now) }
{
    match (child.keyword, &child.segment) {
        ("properties", Some(JsonPointerSegment::Key(name))) => instance.get(name.as_str()),
        ("allOf", Some(JsonPointerSegment::Index(_))) => Some(instance),
        _ => None,
    }
}

/// Whether an instance meets a schema: its `type`, the schema that its `$ref` leads to, and its subschemas under `properties`
/// and `allOf`, each from the resolver at it; other keywords aren't read. `resolver` is the one at the schema, whose identifier
/// it has applied, and `draft` the schema's. It goes through at most `depth` schemas that lead to one another, so a circle of
/// references is said as `TooDeep`. The first of these that is met by anything but `Valid` decides.
///
/// Refuses as [`Resolver::lookup`] and [`Resolver::in_subresource`] do. A look-up for each `$ref`, and memory for the list of a
/// schema's children.
pub fn validated(
    alloc: Global,
    resolver: &Resolver<'_>,
    draft: Draft,
    schema: &Value,
    instance: &Value,
    depth: usize,
) -> Result<Verdict, Error>
    ensures gives { Gives (λ verdict. verdict)
        (validated_within (world_of resolver.now) depth (resolver_of resolver.now) draft
        (view schema.now) (view instance.now))
        result }
{
    if depth == 0 {
        return Ok(Verdict::TooDeep);
    }
    if !is_of_type(schema, instance) {
        return Ok(Verdict::Invalid);
    }
    if let Some(found) = referred(alloc, resolver, schema)? {
        let (target, there, draft) = found.into_inner();
        let target_result = validated(alloc, &there, draft, target, instance, depth - 1)?;
        if !target_result.is_valid() {
            return Ok(target_result);
        }
    }
    let children = draft.walk_children(alloc, schema)?;
    for child in children.iter() {
        let Some(part) = part_for(child, instance) else {
            continue;
        };
        let subschema = ResourceRef::new(child.value, child.draft);
        let inner = resolver.in_subresource(alloc, subschema)?;
        let below = validated(alloc, &inner, child.draft, child.value, part, depth - 1)?;
        if !below.is_valid() {
            return Ok(below);
        }
    }
    Ok(Verdict::Valid)
}
