//! Which kind of object a reference of a description is to lead to, and which components are of it.
ghost use Rattle.std.specs.Prelude.{◌≡◌, option_map};
ghost use Rattle.ref_lsp.specs.Kinds as spec;

use crate::asked::Asked;
use crate::keys::{is_key, key_before};
use ref_descriptions::{Holding, Kind, Version, field_under};
use ref_outline::spans::pointer_of_steps;
use ref_positions::Step;
use ref_workspace::View;
use ref_workspace::follow::Start;
use std::alloc::{AllocError, Global};

/// The kind of the object that the reference which is asked about is to lead to, where it is in a description or in what one leads to: by the
/// nearest place around it that is known to be one of an object. A look-up for each step to it.
pub fn wanted_at(
    alloc: Global,
    view: &View<'_, '_>,
    asked: &Asked,
) -> Result<Option<Kind>, AllocError> {
    let path = asked.path();
    for passed in 0..path.len() {
        let length = path.len().saturating_sub(1).saturating_sub(passed);
        let front = path.get(..length).unwrap_or(&[]);
        let rest = path.get(length..).unwrap_or(&[]);
        let pointer = pointer_of_steps(alloc, front)?;
        let start = Start {
            number: asked.number,
            pointer: pointer.as_str(),
        };
        if let Some(reading) = view.reading_at(alloc, start)? {
            return Ok(match reading.version {
                Some(version) => wanted(version, reading.kind, rest),
                None => None,
            });
        }
    }
    Ok(None)
}

// The kind of what a reference is to lead to whose steps come from an object of a kind.
fn wanted(version: Version, kind: Kind, path: &[Step]) -> Option<Kind>
    ensures { result ≡ spec.wanted version kind path.now }
{
    if is_key(key_before(path, 0), "operationRef") {
        return Some(Kind::Operation);
    }
    let front = &path[..path.len().saturating_sub(1)];
    match along(version, (Holding::One, kind), front) {
        Some(there) => kind_there(there),
        None => None,
    }
}

// What is at the end of steps from what holds objects of a kind.
fn along(version: Version, here: (Holding, Kind), steps: &[Step]) -> Option<(Holding, Kind)>
    ensures { result ≡ spec.along version here steps.now }
{
    let mut rest = steps;
    let mut at = here;
    'steps: while let [step, more @ ..] = rest {
        match after(version, at, step) {
            Some(next) => at = next,
            None => return None,
        }
        rest = more;
    }
    Some(at)
}

// What is a step below what holds objects of a kind.
fn after(version: Version, here: (Holding, Kind), step: &Step) -> Option<(Holding, Kind)>
    ensures { result ≡ spec.after version here step.now }
{
    let (holding, kind) = here;
    match (holding, step) {
        (Holding::One, _) | (Holding::OneOrEach, Step::Member(_)) => below(version, kind, step),
        (Holding::Each, Step::Item(_))
        | (Holding::OneOrEach, Step::Item(_))
        | (Holding::Members, Step::Member(_)) => Some((Holding::One, kind)),
        (Holding::Each, Step::Member(_)) | (Holding::Members, Step::Item(_)) => None,
    }
}

// What is a step below an object of a kind: what is in a schema is of schemas.
fn below(version: Version, kind: Kind, step: &Step) -> Option<(Holding, Kind)>
    ensures { result ≡ spec.below version kind step.now }
{
    if kind == Kind::Schema {
        return Some((Holding::One, Kind::Schema));
    }
    match step {
        Step::Member(key) => field_under(version, kind, key.as_str()),
        Step::Item(_) => None,
    }
}

// The kind of the object that is there, where it is one.
fn kind_there(there: (Holding, Kind)) -> Option<Kind>
    ensures { result ≡ spec.kind_there there }
{
    match there.0 {
        Holding::One | Holding::OneOrEach => Some(there.1),
        Holding::Each | Holding::Members => None,
    }
}

// The member whose members are objects of a kind.
fn group_for(kind: Kind) -> Option<&'static str>
    ensures { option_map (λ group. group.now) result ≡ spec.group_for kind }
{
    match kind {
        Kind::Schema => Some("schemas"),
        Kind::Response => Some("responses"),
        Kind::Parameter => Some("parameters"),
        Kind::Header => Some("headers"),
        Kind::RequestBody => Some("requestBodies"),
        Kind::MediaType => Some("mediaTypes"),
        Kind::Example => Some("examples"),
        Kind::Link => Some("links"),
        Kind::Callback => Some("callbacks"),
        Kind::SecurityScheme => Some("securitySchemes"),
        Kind::PathItem => Some("pathItems"),
        _ => None,
    }
}

/// The members that have definitions, which are schemas.
pub const DEFINITIONS: [&str; 2] = ["$defs", "definitions"];

/// Whether the objects in a member with a name are of a kind: definitions are schemas.
pub fn is_in_group(kind: Kind, group: &str) -> bool
    ensures value { result ≡ spec.is_in_group kind group.now }
{
    is_key(group_for(kind), group) || kind == Kind::Schema && DEFINITIONS.contains(&group)
}

/// Whether anchors are offered, which are those of schemas.
pub fn has_anchors(wanted: Option<Kind>) -> bool
    ensures value { result ≡ spec.has_anchors wanted }
{
    match wanted {
        Some(kind) => kind == Kind::Schema,
        None => true,
    }
}
