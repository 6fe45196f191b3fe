//! `survey`.
ghost use Rattle.std.specs.Prelude.{◌≡◌, ◌++◌, map, IfOk, OnOk, Ok};
ghost use Rattle.serde_json.specs.View.{view, members_view};
ghost use Rattle.ref_reach.specs.Views.{place_of};
ghost use Rattle.ref_calls.specs.Objects.{with_all};
ghost use Rattle.ref_calls.specs.Outcome.{Gives};
ghost use Rattle.ref_serve.specs.Surveys as spec;

use crate::place::put_site;
use crate::registry::registry_of;
use crate::state::State;
use ref_calls::members::{Members, put_text};
use ref_descriptions::Reading;
use ref_further::survey_of;
use ref_index::segments_of;
use ref_json::Stop;
use ref_reach::Place;
use referencing::Registry;
use serde_json::{Map, Value};
use std::alloc::{AllocError, Global};

// Puts the version of the description that an object is in, and the draft of a schema that is read by one.
fn put_reading(alloc: Global, members: &mut Members, reading: Reading) -> Result<(), AllocError>
    ensures { OnOk result (members_view members.new.entries
        ≡ with_all (spec.version_member reading.version ++ spec.draft_member reading)
        (members_view members.old.entries)) }
{
    if let Some(version) = reading.version {
        put_text(alloc, members, "version", version.name())?;
    }
    if reading.is_by_draft() {
        put_text(alloc, members, "draft", reading.draft.name())?;
    }
    Ok(())
}

// The object of a place.
fn surveyed_object(alloc: Global, place: &Place<'_>) -> Result<Value, AllocError>
    ensures { IfOk result (λ d. view d ≡ spec.surveyed_object (place_of place.now)) }
{
    let mut members = Map::new(alloc);
    let path = segments_of(alloc, &place.path)?;
    put_site(alloc, &mut members, place.document, path.as_slice())?;
    put_text(alloc, &mut members, "base", place.base.as_str())?;
    put_text(alloc, &mut members, "kind", place.reading.kind.name())?;
    put_reading(alloc, &mut members, place.reading)?;
    Ok(Value::Object(members))
}

// Adds the objects of places.
fn push_all(alloc: Global, list: &mut Vec<Value>, places: &[Place<'_>]) -> Result<(), AllocError>
    ensures { OnOk result (map view list.new.items
        ≡ map view list.old.items ++ map spec.surveyed_object (map place_of places.now)) }
{
    for place in places {
        let object = surveyed_object(alloc, place)?;
        list.push(object)?;
    }
    Ok(())
}

// The list of the further places of a registry.
fn survey_in(alloc: Global, registry: &Registry<'_>) -> Result<Value, AllocError>
    ensures { IfOk result (λ d. spec.AreSurveyed registry.now (Ok (view d))) }
{
    let survey = survey_of(alloc, registry)?;
    let mut list = Vec::new(alloc);
    push_all(alloc, &mut list, survey.own())?;
    push_all(alloc, &mut list, survey.described())?;
    push_all(alloc, &mut list, survey.led())?;
    Ok(Value::Array(list))
}

/// The further places of a registry's own documents, with the kinds of objects that they are.
#[tactic(auto, unfolding(crate::specs::Surveys::IsSurveyed))]
pub fn survey_call(alloc: Global, state: &State, tree: &Value) -> Result<Value, Stop<Value>>
    ensures { Gives (spec.IsSurveyed state.now (view tree.now)) result }
{
    let (_number, open) = registry_of(alloc, state, tree)?;
    Ok(survey_in(alloc, open.registry())?)
}
