//! The URIs that places have and refer to.
ghost use Rattle.std.specs.Prelude.{◌≡◌, [], ◌++◌, map, Some, None, option_map, option_and_then, if◌then◌else◌, IfOk};
ghost use Rattle.std.specs.Prelude.{OnOk};
ghost use Rattle.std.specs.Option.{option_to_list};
ghost use Rattle.std.specs.Result.{result_ok};
ghost use Rattle.serde_json.specs.View.{view};
ghost use Rattle.ref_paths.specs.Path.{path_eq};
ghost use Rattle.ref_definitions.specs.Resources.{meant_place};
ghost use Rattle.ref_definitions.specs.Wants.{schema_at};
ghost use Rattle.ref_bundle.specs.Needed.{reference_of, reference_under, meta_schema_of, references_from, targets_from};
ghost use Rattle.ref_bundle.specs.Embedding.{base_uri};
ghost use Rattle.ref_bundle.specs.Bundle.{identified_from};
ghost use Rattle.ref_bundle.specs.inner.Seen.{seen_reference, own_uri_of, document_in, HasPlaces};
ghost use Rattle.ref_bundle.specs.Saying.{seen_spot};

use crate::own::{Own, Spot};
use ref_index::meanings::{dialect_in, if_meant, meta_schema_of, resolved, target_of, text_under};
use ref_uri::parts::parts;
use referencing::{List, Registry, ResourceRef, Uri};
use serde_json::Value;
use std::alloc::{AllocError, Global};
use std::rc::Rc;

/// What a text of a place refers to: a URI, and a fragment of what that means.
#[derive(Drop)]
pub(crate) struct Reference<'v> {
    pub uri: Rc<Uri>,
    pub fragment: &'v str,
}

// What a text refers to from a base, where it means a URI.
fn reference_of<'v>(
    alloc: Global,
    base: &Rc<Uri>,
    text: &'v str,
) -> Result<Option<Reference<'v>>, AllocError>
    ensures { IfOk result
        (λ o. option_map seen_reference o ≡ reference_of base.now.value text.now) }
{
    let (_, fragment) = parts(text);
    match if_meant(target_of(alloc, base, text))? {
        Some(uri) => Ok(Some(Reference { uri, fragment })),
        None => Ok(None),
    }
}

// The same of the text that a value has under a key.
fn reference_under<'v>(
    alloc: Global,
    base: &Rc<Uri>,
    value: &'v Value,
    key: &str,
) -> Result<Option<Reference<'v>>, AllocError>
    ensures { IfOk result
        (λ o. option_map seen_reference o
        ≡ reference_under key.now base.now.value (view value.now)) }
{
    match text_under(value, key) {
        Some(text) => reference_of(alloc, base, text),
        None => Ok(None),
    }
}

// The URI of the custom meta-schema that a value names, where it names one.
fn dialect(alloc: Global, value: &Value) -> Result<Option<Rc<Uri>>, AllocError>
    ensures { IfOk result (λ o. option_map (λ u. u.value) o
        ≡ option_and_then (λ uri. result_ok uri) (schema_at (view value.now))) }
{
    match dialect_in(value) {
        Some(text) => if_meant(meta_schema_of(alloc, text)),
        None => Ok(None),
    }
}

// The custom meta-schema that a value names, as a whole.
fn named_by<'v>(alloc: Global, value: &'v Value) -> Result<Option<Reference<'v>>, AllocError>
    ensures { IfOk result
        (λ o. option_map seen_reference o ≡ meta_schema_of (view value.now)) }
{
    match dialect(alloc, value)? {
        Some(uri) => Ok(Some(Reference { uri, fragment: "" })),
        None => Ok(None),
    }
}

// Adds a reference, where there is one.
fn push<'v>(
    references: &mut Vec<Reference<'v>>,
    reference: Option<Reference<'v>>,
) -> Result<(), AllocError>
    ensures { OnOk result
        (map seen_reference references.new.items
        ≡ map seen_reference references.old.items
        ++ option_to_list (option_map seen_reference reference.entry)) }
{
    if let Some(reference) = reference {
        references.push(reference)?;
    }
    Ok(())
}

/// What a place refers to: by the texts under `$ref` and `$dynamicRef`, and by `$schema` a custom meta-schema.
pub(crate) fn references<'v>(
    alloc: Global,
    spot: &Spot<'v>,
) -> Result<Vec<Reference<'v>>, AllocError>
    ensures value { IfOk result (λ references. map seen_reference references.items
        ≡ references_from (seen_spot spot.now).base (seen_spot spot.now).value) }
    ensures uris { IfOk result (λ references. map (λ r. r.uri.value) references.items
        ≡ targets_from (seen_spot spot.now).base (seen_spot spot.now).value) }
{
    let mut references = Vec::new(alloc);
    push(
        &mut references,
        reference_under(alloc, &spot.base, spot.value, "$ref")?,
    )?;
    push(
        &mut references,
        reference_under(alloc, &spot.base, spot.value, "$dynamicRef")?,
    )?;
    push(&mut references, named_by(alloc, spot.value)?)?;
    Ok(references)
}

/// The URI that the identifier of a place gives against one that means the place in a registry or its parents.
pub(crate) fn identified(
    alloc: Global,
    registry: &Registry<'_>,
    uri: &Rc<Uri>,
) -> Result<Option<Rc<Uri>>, AllocError>
    ensures value { IfOk result
        (λ o. option_map (λ u. u.value) o
        ≡ option_and_then (identified_from uri.now.value)
        (meant_place registry.now uri.now.value)) }
{
    let resolver = registry.resolver_from_parts(uri.clone()?, List::new());
    let Some((value, draft)) = resolver.at_base() else {
        return Ok(None);
    };
    match ResourceRef::new(value, draft).id() {
        Some(id) => if_meant(resolved(alloc, uri, id)),
        None => Ok(None),
    }
}

/// The URI that a place has by its own identifier.
pub(crate) fn own_uri<'s>(spot: &'s Spot<'_>) -> Option<&'s Rc<Uri>>
    ensures value { option_map (λ u. u.now.value) result ≡ own_uri_of (seen_spot spot.now) }
{
    let _ = ResourceRef::new(spot.value, spot.draft).id()?;
    Some(&spot.base)
}

/// The URI of its document, where the place is the root.
pub(crate) fn root_uri<'s>(uri: &'s Uri, spot: &Spot<'_>) -> Option<&'s Uri>
    ensures value { option_map (λ u. u.now) result
        ≡ (if path_eq (seen_spot spot.now).path [] then Some uri.now else None) }
{
    if spot.path.is_empty() {
        Some(uri)
    } else {
        None
    }
}

/// The base URI of a document: that of its root.
pub(crate) fn base_uri(alloc: Global, own: &Own<'_>) -> Result<Rc<Uri>, AllocError>
    requires { HasPlaces own.now }
    ensures value { IfOk result (λ u. u.value ≡ base_uri (document_in own.now)) }
{
    match own.places.first() {
        Some(root) => root.base.clone(),
        None => Ok(Rc::new(alloc, own.uri.clone()?)?),
    }
}
