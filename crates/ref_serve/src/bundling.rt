//! `bundle`.
ghost use Rattle.std.specs.Prelude.{◌≡◌, Result, Err, IfOk};
ghost use Rattle.serde_json.specs.View.{view};
ghost use Rattle.ref_bundle.specs.Saying.{obstacle_said, problem_said, refusal_said, further_of, IsRefusalOf};
ghost use Rattle.ref_bundle.specs.Bundle.{Bundle as WorldBundle, BundleRefusal, bundle_with};
ghost use Rattle.ref_calls.specs.Objects.{object_of};
ghost use Rattle.ref_calls.specs.Outcome.{Answers, Gives};
ghost use Rattle.ref_serve.specs.Listings as spec;

use crate::place::put_site;
use crate::registry::registry_of;
use crate::state::State;
use ref_bundle::{BundleError, Obstacle, Problem, Refusal, Spot, bundle_with};
use ref_calls::fault::error_members;
use ref_calls::field::{number_in, required};
use ref_calls::members::{object_of, put_text};
use ref_further::further_places;
use ref_json::Stop;
use referencing::Registry;
use serde_json::Value;
use std::alloc::{AllocError, Global};

fn obstacle_name(obstacle: &Obstacle) -> &'static str
    ensures { result.now ≡ spec.obstacle_name (obstacle_said obstacle.now) }
{
    match obstacle {
        Obstacle::NotAnObject => "NotAnObject",
        Obstacle::IdentifierBesideRef => "IdentifierBesideRef",
        Obstacle::NotAnIdentifier => "NotAnIdentifier",
        Obstacle::NotKept(_) => "NotKept",
        Obstacle::UnnamedDraft(_) => "UnnamedDraft",
        Obstacle::ResolvedAgain => "ResolvedAgain",
    }
}

fn problem_name(problem: &Problem<'_>) -> &'static str
    ensures { result.now ≡ spec.problem_name (problem_said problem.now) }
{
    match problem {
        Problem::NoDocument => "NoDocument",
        Problem::NotEmbedded(obstacle) => obstacle_name(obstacle),
        Problem::NoMap => "NoMap",
        Problem::KeyTaken { .. } => "KeyTaken",
        Problem::SharedUri { .. } => "SharedUri",
        Problem::ReplacedUri { .. } => "ReplacedUri",
        Problem::ShadowedUri { .. } => "ShadowedUri",
        Problem::AddedMember { .. } => "AddedMember",
    }
}

// The error object of a refusal.
fn refusal_object(alloc: Global, refusal: &Refusal<'_>) -> Result<Value, AllocError>
    ensures { IfOk result
        (λ d. view d ≡ object_of (spec.refusal_members (refusal_said refusal.now))) }
{
    let message = format!(in alloc; "{refusal}")?;
    let mut members = error_members(alloc, "NotBundled", message.as_str())?;
    put_text(
        alloc,
        &mut members,
        "reason",
        problem_name(&refusal.problem),
    )?;
    put_site(
        alloc,
        &mut members,
        refusal.document,
        refusal.path.as_slice(),
    )?;
    Ok(Value::Object(members))
}

// The same of an error, which may be that memory ran out.
fn bundle_error(alloc: Global, error: &BundleError<'_>) -> Result<Value, AllocError>
    ensures { (answer : Result WorldBundle BundleRefusal) → IsRefusalOf answer error.now
        → IfOk result (λ d. spec.bundled_result answer ≡ Err (view d)) }
{
    match error {
        BundleError::Refused(refusal) => refusal_object(alloc, refusal),
        BundleError::Memory(_) => Err(AllocError),
    }
}

// The bundle of a document of a registry, as an object, or why there is none.
fn bundled(
    alloc: Global,
    registry: &Registry<'_>,
    further: &[Vec<Spot<'_>>],
    document: usize,
) -> Result<Value, Stop<Value>>
    ensures { Answers view result
        (spec.bundled_result (bundle_with registry.now (further_of further.now) document)) }
{
    match bundle_with(alloc, registry, further, document) {
        Ok(bundle) => Ok(object_of(alloc, "bundle", bundle.value)?),
        Err(error) => Err(Stop::Because(bundle_error(alloc, &error)?)),
    }
}

// The same, where documents have their further places.
fn bundled_whole(
    alloc: Global,
    registry: &Registry<'_>,
    document: usize,
) -> Result<Value, Stop<Value>>
    ensures { Gives (spec.IsBundled registry.now document) result }
{
    let further = further_places(alloc, registry)?;
    bundled(alloc, registry, further.as_slice(), document)
}

// The number under `document`.
#[tactic(auto, unfolding(crate::specs::Listings::document_number))]
fn document_number(alloc: Global, tree: &Value) -> Result<usize, Stop<Value>>
    ensures { Answers (λ n. n) result (spec.document_number (view tree.now)) }
{
    let value = required(alloc, tree, "document")?;
    number_in(alloc, value, "document")
}

/// One document in place of those that it needs.
#[tactic(auto, unfolding(crate::specs::Listings::IsBundle))]
pub fn bundle_document(alloc: Global, state: &State, tree: &Value) -> Result<Value, Stop<Value>>
    ensures { Gives (spec.IsBundle state.now (view tree.now)) result }
{
    let (_number, open) = registry_of(alloc, state, tree)?;
    let document = document_number(alloc, tree)?;
    bundled_whole(alloc, open.registry(), document)
}
