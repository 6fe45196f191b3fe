//! Whether a place has a text that means no URI.
ghost use Rattle.std.specs.Prelude.{◌≡◌, map, Some, IfOk};
ghost use Rattle.std.specs.List.{list_any};
ghost use Rattle.serde_json.specs.View.{view};
ghost use Rattle.ref_uri.specs.Targets.{target};
ghost use Rattle.ref_definitions.specs.Wants.{reference_at, schema_at};
ghost use Rattle.ref_findings.specs.Places.{nearest_base, is_refused, is_faulty};
ghost use Rattle.ref_findings.specs.inner.Seen.{place_of};

use crate::place::Place;
use ref_index::meanings::{dialect_in, if_meant, meta_schema_of, uri_text};
use ref_uri::{Uri, UriRef};
use serde_json::Value;
use std::alloc::{AllocError, Global};

// Whether a reference means no URI against a base. It isn't resolved: what is a URI reference means a URI against each base.
fn is_target_refused(base: &Uri, reference: &str) -> bool
    ensures { result ≡ is_refused (Some (target base.now reference.now)) }
{
    let Some(text) = uri_text(reference) else {
        return false;
    };
    let has_scheme = base.has_scheme();
    prove!(has_scheme);
    UriRef::parse(text).is_err()
}

// Whether its reference means no URI.
fn is_reference_refused(place: &Place<'_>) -> bool
    ensures { result
        ≡ is_refused
        (reference_at (nearest_base (place_of place.now)) (place_of place.now).value) }
{
    match place.reference() {
        Some(reference) => is_target_refused(place.base(), reference),
        None => false,
    }
}

/// Whether the `$schema` of a value, where that is no known draft, means no URI.
pub(crate) fn is_schema_refused(alloc: Global, value: &Value) -> Result<bool, AllocError>
    ensures value { IfOk result (λ refused. refused ≡ is_refused (schema_at (view value.now))) }
{
    let Some(text) = dialect_in(value) else {
        return Ok(false);
    };
    let uri = if_meant(meta_schema_of(alloc, text))?;
    Ok(uri.is_none())
}

/// Which texts of a place mean no URI.
#[derive(Clone, Copy)]
pub(crate) struct Refused {
    pub id: bool,
    pub reference: bool,
    pub schema: bool,
}

/// Which texts of a place mean no URI: its identifier, its `$ref` and its `$schema`.
pub(crate) fn refused_in(alloc: Global, place: &Place<'_>) -> Result<Refused, AllocError>
    ensures id { IfOk result (λ r. r.id ≡ is_refused (Some (place_of place.now).base)) }
    ensures reference { IfOk result
        (λ r. r.reference
        ≡ is_refused (reference_at (nearest_base (place_of place.now)) (place_of place.now).value)) }
    ensures schema { IfOk result
        (λ r. r.schema ≡ is_refused (schema_at (place_of place.now).value)) }
{
    let schema = is_schema_refused(alloc, place.value)?;
    Ok(Refused {
        id: place.is_identifier_refused(),
        reference: is_reference_refused(place),
        schema,
    })
}

// Whether a place has a text that means no URI.
fn is_faulty(alloc: Global, place: &Place<'_>) -> Result<bool, AllocError>
    ensures { IfOk result (λ faulty. faulty ≡ is_faulty (place_of place.now)) }
{
    if place.is_plain() {
        return Ok(false);
    }
    let refused = refused_in(alloc, place)?;
    Ok(refused.id || (refused.reference || refused.schema))
}

/// Whether one of these places has an identifier, a `$ref` or a `$schema` that means no URI.
pub(crate) fn is_any_faulty(alloc: Global, places: &[Place<'_>]) -> Result<bool, AllocError>
    ensures value { IfOk result (λ any. any ≡ list_any is_faulty (map place_of places.now)) }
{
    let mut any = false;
    for place in places {
        let faulty = is_faulty(alloc, place)?;
        any = any || faulty;
    }
    Ok(any)
}
