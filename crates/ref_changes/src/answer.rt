//! What references lead to.
ghost use Rattle.std.specs.Prelude.{◌≡◌, [], option_map, Some, IfOk, OnErr};
ghost use Rattle.std.specs.Result.{result_ok};
ghost use Rattle.serde_json.specs.View.{view};
ghost use Rattle.ref_definitions.specs.Fault.{Fault};
ghost use Rattle.ref_definitions.specs.Lookup.{in_subresource};
ghost use Rattle.ref_error.specs.Errors.{SaysFault};
ghost use Rattle.ref_resolver.specs.Locations.{location_view};
ghost use Rattle.ref_resolver.specs.Resolving.{resolver_of, found_of};
ghost use Rattle.ref_changes.specs.Answers as spec;
ghost use Rattle.ref_changes.specs.Views.{led_of, answer_of};

use ref_error::Error;
use referencing::{Draft, List, Location, Registry, Resolved, Resolver, Uri};
use serde_json::Value;
use std::alloc::{AllocError, Global};
use std::rc::Rc;

/// What a reference leads to: where that is, the value, its draft, and the base once the value is entered, where its identifier
/// means a URI.
#[derive(Drop)]
pub(crate) struct Led<'r> {
    pub location: Location<'r>,
    pub value: &'r Value,
    pub draft: Draft,
    pub base: Option<Rc<Uri>>,
}

/// A reference leads somewhere, or fails by a fault of this name.
#[derive(Drop)]
pub(crate) enum Answer<'r> {
    Leads(Led<'r>),
    Fails(&'static str),
}

// The name of a fault.
fn name_of(error: &Error) -> &'static str
    ensures { (fault : Fault) → SaysFault error.now fault → result.now ≡ spec.fault_name fault }
{
    match error {
        Error::Unretrievable { .. } => "Unretrievable",
        Error::PointerToNowhere { .. } => "PointerToNowhere",
        Error::InvalidPercentEncoding { .. } => "InvalidPercentEncoding",
        Error::InvalidArrayIndex { .. } => "InvalidArrayIndex",
        Error::NoSuchAnchor { .. } => "NoSuchAnchor",
        Error::InvalidAnchor { .. } => "InvalidAnchor",
        Error::InvalidUri(_) => "InvalidUri",
        Error::UnknownSpecification { .. } => "UnknownSpecification",
        Error::CircularMetaschema { .. } => "CircularMetaschema",
        Error::RetrievalLimit { .. } => "RetrievalLimit",
        Error::Memory(_) => "OutOfMemory",
    }
}

// The name of a fault that a call refuses by.
fn failed(error: Error) -> &'static str
    ensures { (fault : Fault) → SaysFault error fault → result.now ≡ spec.fault_name fault }
{
    name_of(&error)
}

// The base once a value is entered from a resolver.
fn entered(
    alloc: Global,
    resolver: &Resolver<'_>,
    draft: Draft,
    value: &Value,
) -> Result<Option<Rc<Uri>>, AllocError>
    ensures { IfOk result (λ base. option_map (λ u. u.value) base
        ≡ option_map (λ r. r.base)
        (result_ok (in_subresource (resolver_of resolver.now) draft (view value.now)))) }
{
    match resolver.in_subresource(alloc, draft.create_resource_ref(value)) {
        Ok(inner) => Ok(Some(inner.base_uri().clone()?)),
        Err(Error::Memory(error)) => Err(error),
        Err(error) => {
            drop(error);
            Ok(None)
        }
    }
}

// What was found.
fn led_by<'r>(
    alloc: Global,
    resolved: Resolved<'r>,
    location: Location<'r>,
) -> Result<Led<'r>, AllocError>
    ensures { IfOk result (λ l. led_of l
        ≡ record {
          at = Some (location_view location.entry);
          value = (found_of resolved.entry).value;
          draft = (found_of resolved.entry).draft;
          base = spec.entered (found_of resolved.entry);
        }) }
{
    let (value, resolver, draft) = resolved.into_inner();
    let base = entered(alloc, &resolver, draft, value)?;
    drop(resolver);
    Ok(Led {
        location,
        value,
        draft,
        base,
    })
}

/// What a reference leads to from a base, with an empty dynamic scope. A look-up.
pub(crate) fn answered<'r>(
    alloc: Global,
    registry: &'r Registry<'_>,
    base: &Rc<Uri>,
    reference: &str,
) -> Result<Answer<'r>, AllocError>
    ensures value { IfOk result
        (λ a. answer_of a ≡ spec.answer registry.now base.now.value reference.now) }
{
    let resolver = registry.resolver_from_parts(base.clone()?, List::new());
    match resolver.lookup_located(alloc, reference) {
        Ok((resolved, location)) => Ok(Answer::Leads(led_by(alloc, resolved, location)?)),
        Err(Error::Memory(error)) => Err(error),
        Err(error) => Ok(Answer::Fails(failed(error))),
    }
}

/// Where that is, where it leads somewhere.
pub(crate) fn led_to<'r>(answer: Answer<'r>) -> Option<Location<'r>>
    ensures value { option_map location_view result ≡ spec.location (answer_of answer.entry) }
{
    match answer {
        Answer::Leads(led) => {
            let Led { location, .. } = led;
            Some(location)
        }
        Answer::Fails(_) => None,
    }
}

/// Where the resource is that a base means. A look-up.
pub(crate) fn resource_at<'r>(
    alloc: Global,
    registry: &'r Registry<'_>,
    base: &Rc<Uri>,
) -> Result<Option<Location<'r>>, AllocError>
    ensures value { IfOk result (λ l. option_map location_view l
        ≡ spec.resource_at registry.now base.now.value) }
{
    Ok(led_to(answered(alloc, registry, base, "#")?))
}
