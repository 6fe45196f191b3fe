//! What refuses a reference: the first problem of what a place refers to.
ghost use Rattle.std.specs.Prelude.{◌≡◌, [], map, option_map, Some, string_bytes, if◌then◌else◌, IfOk};
ghost use Rattle.ref_paths.specs.Path.{path_eq};
ghost use Rattle.ref_paths.specs.Segment.{part_of};
ghost use Rattle.ref_definitions.specs.World.{Layer};
ghost use Rattle.ref_bundle.specs.Needed.{site_under};
ghost use Rattle.ref_bundle.specs.Embedding.{has_other_identifier, is_added_under};
ghost use Rattle.ref_bundle.specs.Bundle as bundle;
ghost use Rattle.ref_bundle.specs.Bundle.{replaced_in, shadowed_uri, added_in, embedded_problems, reference_problems, seen_problems};
ghost use Rattle.ref_bundle.specs.Bundle.{is_embedded_as, is_added_definition, added_definition, root_problems};
ghost use Rattle.ref_bundle.specs.Saying.{problem_said, seen_spot};
ghost use Rattle.ref_bundle.specs.inner.Seen.{seen_reference, document_in, part_document};
ghost use Rattle.ref_bundle.specs.inner.Among.{AreAmong, layer_of, further_among, world_of, root_of, SaysFirst};
ghost use Rattle.ref_bundle.specs.inner.Seen.{HasPlaces, HasBase};
ghost use Rattle.ref_bundle.specs.inner.Tables.{AreTables};

use crate::among::Among;
use crate::embedding::{Part, added_schema, definitions_keyword, part_of};
use crate::error::Problem;
use crate::first::first_found;
use crate::fragment::{first_key, is_name, second_key};
use crate::own::{Own, Spot};
use crate::refusing::{copied, is_marked};
use crate::tables::Bearers;
use crate::uris::{Reference, base_uri, identified, references};
use referencing::{Draft, JsonPointerSegment, Uri};
use serde_json::Value;
use std::alloc::{AllocError, Global};
use std::rc::Rc;

// The problem of a URI that means a place of a parent whose identifier gives another one, where an own place has that.
fn shadowed_by<'r>(
    alloc: Global,
    bearers: &Bearers<'r, '_>,
    uri: &Rc<Uri>,
    base: Rc<Uri>,
) -> Result<Option<Problem<'r>>, AllocError>
    ensures { (layer : Layer) → AreTables layer bearers.now
        → IfOk result (λ o. option_map problem_said o
        ≡ option_map (λ s. bundle.ShadowedUri uri.now.value base.value s.0 s.1)
        (site_under layer base.value)) }
{
    let Some(site) = bearers.site_under(base.as_str()) else {
        return Ok(None);
    };
    let document = site.document;
    let path = copied(alloc, site.path.as_slice())?;
    Ok(Some(Problem::ShadowedUri {
        uri: uri.clone()?,
        base,
        document,
        path,
    }))
}

// The problem of a reference to a name, where its URI means a place of a parent.
fn shadowed<'r>(
    alloc: Global,
    bearers: &Bearers<'r, '_>,
    reference: &Reference<'_>,
) -> Result<Option<Problem<'r>>, AllocError>
    ensures { (layer : Layer) → AreTables layer bearers.now
        → IfOk result (λ o. option_map problem_said o
        ≡ shadowed_uri layer bearers.now.registry.now (seen_reference reference.now)) }
{
    if !is_name(reference.fragment) {
        return Ok(None);
    }
    match identified(alloc, bearers.registry, &reference.uri)? {
        Some(base) => shadowed_by(alloc, bearers, &reference.uri, base),
        None => Ok(None),
    }
}

// The problem of a URI that is that of a document, in place of which its root's identifier gives another.
fn replaced_in<'r>(part: &Part<'_>, uri: &Rc<Uri>) -> Result<Option<Problem<'r>>, AllocError>
    requires { HasBase part.now }
    ensures { SaysFirst result
        (replaced_in uri.now.value (part_document part.now)) }
{
    if part.uri.as_str() != uri.as_str() {
        return Ok(None);
    }
    if part.base.as_str() == uri.as_str() {
        return Ok(None);
    }
    Ok(Some(Problem::ReplacedUri {
        uri: uri.clone()?,
        base: part.base.clone()?,
    }))
}

// Whether a bundle has another identifier for a document than its own.
fn has_other_identifier(part: &Part<'_>) -> bool
    requires { HasBase part.now }
    ensures { result ≡ has_other_identifier (part_document part.now) }
{
    match part
        .tree
        .get(part.draft.id_keyword())
        .and_then(Value::as_str)
    {
        Some(text) => text != part.base.as_str(),
        None => true,
    }
}

// Whether the member under a key of a document's root is added below a root of a draft, or has another value there.
fn is_added_under(draft: Draft, part: &Part<'_>, key: &str) -> bool
    requires { HasBase part.now }
    ensures { result ≡ is_added_under draft (part_document part.now) key.now }
{
    (key == part.draft.id_keyword() && has_other_identifier(part))
        || (key == "$schema" && added_schema(draft, part).is_some())
}

// The problem of a reference to a member that is added, or has another value.
fn added_member<'r>(
    reference: &Reference<'_>,
    key: String,
) -> Result<Option<Problem<'r>>, AllocError>
    ensures { IfOk result
        (λ o. option_map problem_said o
        ≡ Some (bundle.AddedMember (seen_reference reference.now).uri (string_bytes key))) }
{
    Ok(Some(Problem::AddedMember {
        uri: reference.uri.clone()?,
        key,
    }))
}

// The problem of a pointer from the root of a document to what is added below a root of a draft, or has another value there.
fn added_in<'r>(
    alloc: Global,
    draft: Draft,
    part: &Part<'_>,
    reference: &Reference<'_>,
) -> Result<Option<Problem<'r>>, AllocError>
    requires { HasBase part.now }
    ensures { SaysFirst result
        (added_in draft (seen_reference reference.now) (part_document part.now)) }
{
    let Some(key) = first_key(alloc, reference.fragment)? else {
        return Ok(None);
    };
    if is_added_under(draft, part, key.as_str()) {
        return added_member(reference, key);
    }
    Ok(None)
}

// The same, where the place that the URI means is the root.
fn added_at<'r>(
    alloc: Global,
    draft: Draft,
    part: &Part<'_>,
    path: &[JsonPointerSegment<'_>],
    reference: &Reference<'_>,
) -> Result<Option<Problem<'r>>, AllocError>
    requires { HasBase part.now }
    ensures { SaysFirst result
        (if path_eq (map part_of path.now) [] then
        added_in draft (seen_reference reference.now) (part_document part.now) else []) }
{
    if path.is_empty() {
        return added_in(alloc, draft, part, reference);
    }
    Ok(None)
}

// The first problem of a reference to the place at a path of a document that is embedded below a root of a draft.
fn embedded_problem<'r>(
    alloc: Global,
    draft: Draft,
    own: &Own<'_>,
    path: &[JsonPointerSegment<'_>],
    reference: &Reference<'_>,
) -> Result<Option<Problem<'r>>, AllocError>
    requires { HasPlaces own.now }
    ensures { SaysFirst result
        (embedded_problems draft (seen_reference reference.now) (map part_of path.now)
        (document_in own.now)) }
{
    let part = part_of(alloc, own)?;
    first_found(
        replaced_in(&part, &reference.uri),
        added_at(alloc, draft, &part, path, reference),
    )
}

// Whether a document, by its number, is one that is embedded, and has this base URI.
fn is_embedded_as(
    alloc: Global,
    among: &Among<'_, '_, '_>,
    uri: &str,
    number: usize,
) -> Result<bool, AllocError>
    requires { AreAmong among.now }
    ensures { IfOk result
        (λ is. is
        ≡ is_embedded_as (layer_of among.now) (further_among among.now) among.now.top.now.number
        uri.now number) }
{
    if number == among.top.number || !is_marked(among.needed, number) {
        return Ok(false);
    }
    match among.owns.get(number) {
        Some(own) => Ok(base_uri(alloc, own)?.as_str() == uri),
        None => Ok(false),
    }
}

// Whether a bundle adds the definition under a key.
fn is_added_definition(
    alloc: Global,
    among: &Among<'_, '_, '_>,
    key: &str,
) -> Result<bool, AllocError>
    requires { AreAmong among.now }
    ensures { IfOk result
        (λ is. is
        ≡ is_added_definition (layer_of among.now) (further_among among.now)
        among.now.top.now.number key.now) }
{
    match among.bearers.document_under(key) {
        Some(number) => is_embedded_as(alloc, among, key, number),
        None => Ok(false),
    }
}

// The problem of a pointer from the root to a definition that is added, or to what is below it.
fn added_definition<'r>(
    alloc: Global,
    among: &Among<'_, 'r, '_>,
    reference: &Reference<'_>,
) -> Result<Option<Problem<'r>>, AllocError>
    requires { AreAmong among.now }
    ensures { SaysFirst result
        (added_definition (layer_of among.now) (further_among among.now) (root_of among.now)
        (seen_reference reference.now)) }
{
    let keyword = definitions_keyword(among.top.draft);
    let Some(key) = second_key(alloc, keyword, reference.fragment)? else {
        return Ok(None);
    };
    if is_added_definition(alloc, among, key.as_str())? {
        return added_member(reference, key);
    }
    Ok(None)
}

// The first problem of a reference to the place at a path of the root's document.
fn root_problem<'r>(
    alloc: Global,
    among: &Among<'_, 'r, '_>,
    path: &[JsonPointerSegment<'_>],
    reference: &Reference<'_>,
) -> Result<Option<Problem<'r>>, AllocError>
    requires { AreAmong among.now }
    ensures { SaysFirst result
        (root_problems (layer_of among.now) (further_among among.now) (root_of among.now)
        (seen_reference reference.now) (map part_of path.now)) }
{
    if path.is_empty() {
        return added_definition(alloc, among, reference);
    }
    Ok(None)
}

// The first problem of a reference, by the own place that its URI means, or else by the place of a parent.
fn reference_problem<'r>(
    alloc: Global,
    among: &Among<'_, 'r, '_>,
    reference: &Reference<'_>,
) -> Result<Option<Problem<'r>>, AllocError>
    requires { AreAmong among.now }
    ensures { SaysFirst result
        (reference_problems (layer_of among.now) (further_among among.now) (world_of among.now)
        (root_of among.now)
        (seen_reference reference.now)) }
{
    let Some(site) = among.bearers.site_under(reference.uri.as_str()) else {
        return shadowed(alloc, among.bearers, reference);
    };
    let path = site.path.as_slice();
    if site.document == among.top.number {
        return root_problem(alloc, among, path, reference);
    }
    match among.owns.get(site.document) {
        Some(own) => embedded_problem(alloc, among.top.draft, own, path, reference),
        None => Ok(None),
    }
}

/// The first problem of what a place refers to.
pub(crate) fn reference_problems<'r>(
    alloc: Global,
    among: &Among<'_, 'r, '_>,
    spot: &Spot<'_>,
) -> Result<Option<Problem<'r>>, AllocError>
    requires { AreAmong among.now }
    ensures value { SaysFirst result
        (seen_problems (layer_of among.now) (further_among among.now) (world_of among.now)
        (root_of among.now)
        (seen_spot spot.now)) }
{
    let references = references(alloc, spot)?;
    for reference in &references {
        if let Some(problem) = reference_problem(alloc, among, reference)? {
            return Ok(Some(problem));
        }
    }
    Ok(None)
}
