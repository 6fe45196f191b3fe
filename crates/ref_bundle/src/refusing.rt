//! What refuses a bundle: the first in the order of documents and places.
ghost use Rattle.std.specs.Prelude.{◌≡◌, [], ◌∷◌, ◌++◌, map, flat_map, option_map, if◌then◌else◌, IfOk};
ghost use Rattle.std.specs.List.{AllByRecursion};
ghost use Rattle.std.specs.Option.{option_to_list};
ghost use Rattle.serde_json.specs.View.{view};
ghost use Rattle.ref_paths.specs.Path.{Key};
ghost use Rattle.ref_paths.specs.Segment.{part_of};
ghost use Rattle.ref_definitions.specs.World.{Layer};
ghost use Rattle.ref_bundle.specs.Embedding.{obstacle};
ghost use Rattle.ref_bundle.specs.Bundle as bundle;
ghost use Rattle.ref_bundle.specs.Needed.{sites_of_uris};
ghost use Rattle.ref_bundle.specs.Bundle.{at_path, shared_uri, place_refusals, seen_problems, seen_refusals, further_refusals};
ghost use Rattle.ref_bundle.specs.Bundle.{map_refusals, root_refusals, refusals_in};
ghost use Rattle.ref_bundle.specs.Saying.{problem_said, refusal_said, seen_spot};
ghost use Rattle.ref_bundle.specs.inner.Reach.{is_marked};
ghost use Rattle.ref_bundle.specs.inner.Seen.{own_uri_of, numbered_document, document_in, part_document};
ghost use Rattle.ref_bundle.specs.inner.Among.{AreAmong, layer_of, further_among, world_of, root_of, parts_of, SaysFirst, RefusesFirst};
ghost use Rattle.ref_bundle.specs.inner.Seen.{numbered_part, HasPlaces, HasBase};
ghost use Rattle.ref_bundle.specs.inner.Tables.{AreTables};
ghost use Rattle.ref_bundle.specs.inner.First.{shared_seen, refusals_seen, taken_in, whole_refusals};

use crate::among::Among;
use crate::embedding::{Part, definitions_keyword, obstacle, part_of};
use crate::error::{Obstacle, Problem, Refusal};
use crate::first::first_found;
use crate::own::{Own, Spot};
use crate::referring::reference_problems;
use crate::tables::Bearers;
use crate::uris::{own_uri, root_uri};
use referencing::{JsonPointerSegment, Uri};
use serde_json::Value;
use std::alloc::{AllocError, Global};
use std::borrow::CowStr;
use std::rc::Rc;

/// A refusal at the root of a document.
pub(crate) fn at_root<'r>(alloc: Global, document: usize, problem: Problem<'r>) -> Refusal<'r>
    ensures value { refusal_said result ≡ at_path document [] (problem_said problem.entry) }
{
    Refusal {
        document,
        path: Vec::new(alloc),
        problem,
    }
}

/// A copy of a path, whose keys are lent.
pub(crate) fn copied<'r>(
    alloc: Global,
    path: &[JsonPointerSegment<'r>],
) -> Result<Vec<JsonPointerSegment<'r>>, AllocError>
    ensures value { IfOk result (λ copy. map part_of copy.items ≡ map part_of path.now) }
{
    let copy = path.to_vec(alloc)?;
    Ok(copy)
}

// The URI that a place has by its own identifier.
fn own_ref<'s>(spot: &'s Spot<'_>) -> Option<&'s Uri>
    ensures { option_map (λ u. u.now) result ≡ own_uri_of (seen_spot spot.now) }
{
    match own_uri(spot) {
        Some(uri) => Some(&**uri),
        None => None,
    }
}

// The problem of a URI that a place has, where another has it too.
fn shared_uri<'r>(
    alloc: Global,
    bearers: &Bearers<'r, '_>,
    spot: &Spot<'r>,
    uri: Option<&Uri>,
) -> Result<Option<Problem<'r>>, AllocError>
    ensures { (layer : Layer) → AreTables layer bearers.now
        → SaysFirst result
        (flat_map
        (shared_uri (sites_of_uris layer)
        ((seen_spot spot.now).document, (seen_spot spot.now).path))
        (option_to_list (option_map (λ u. u.now) uri.entry))) }
{
    let Some(uri) = uri else {
        return Ok(None);
    };
    let Some(site) = bearers.other(uri.as_str(), spot.document, spot.path.as_slice()) else {
        return Ok(None);
    };
    Ok(Some(Problem::SharedUri {
        uri: Rc::new(alloc, uri.clone()?)?,
        document: site.document,
        path: copied(alloc, site.path.as_slice())?,
    }))
}

// The first problem of the URIs that a place has.
fn shared_uris<'r>(
    alloc: Global,
    bearers: &Bearers<'r, '_>,
    own: &Own<'r>,
    spot: &Spot<'r>,
) -> Result<Option<Problem<'r>>, AllocError>
    ensures { (layer : Layer) → AreTables layer bearers.now
        → SaysFirst result
        (shared_seen layer own.now.uri.now (seen_spot spot.now)) }
{
    first_found(
        shared_uri(alloc, bearers, spot, root_uri(own.uri, spot)),
        shared_uri(alloc, bearers, spot, own_ref(spot)),
    )
}

// The first problem of a place.
fn place_problem<'r>(
    alloc: Global,
    among: &Among<'_, 'r, '_>,
    own: &Own<'r>,
    spot: &Spot<'r>,
) -> Result<Option<Problem<'r>>, AllocError>
    requires { AreAmong among.now }
    ensures { SaysFirst result
        (shared_seen (layer_of among.now) own.now.uri.now (seen_spot spot.now)
        ++ seen_problems (layer_of among.now) (further_among among.now) (world_of among.now)
        (root_of among.now) (seen_spot spot.now)) }
{
    first_found(
        shared_uris(alloc, among.bearers, own, spot),
        reference_problems(alloc, among, spot),
    )
}

// A refusal of a place.
fn at_place<'r>(
    alloc: Global,
    spot: &Spot<'r>,
    problem: Problem<'r>,
) -> Result<Refusal<'r>, AllocError>
    ensures { IfOk result (λ r. refusal_said r
        ≡ at_path (seen_spot spot.now).document (seen_spot spot.now).path
        (problem_said problem.entry)) }
{
    Ok(Refusal {
        document: spot.document,
        path: copied(alloc, spot.path.as_slice())?,
        problem,
    })
}

// The first refusal of a place.
fn place_refusal<'r>(
    alloc: Global,
    among: &Among<'_, 'r, '_>,
    own: &Own<'r>,
    spot: &Spot<'r>,
) -> Result<Option<Refusal<'r>>, AllocError>
    requires { AreAmong among.now }
    ensures { RefusesFirst result
        (refusals_seen (layer_of among.now) (further_among among.now) (world_of among.now)
        (root_of among.now) own.now.uri.now (seen_spot spot.now)) }
{
    match place_problem(alloc, among, own, spot)? {
        Some(problem) => Ok(Some(at_place(alloc, spot, problem)?)),
        None => Ok(None),
    }
}

// The first refusal of the places of a document.
fn places_refusal<'r>(
    alloc: Global,
    among: &Among<'_, 'r, '_>,
    own: &Own<'r>,
) -> Result<Option<Refusal<'r>>, AllocError>
    requires among { AreAmong among.now }
    requires places { HasPlaces own.now }
    ensures { RefusesFirst result
        (place_refusals (layer_of among.now) (further_among among.now) (world_of among.now)
        (root_of among.now) (numbered_document own.now)) }
{
    for spot in &own.places {
        if let Some(refusal) = place_refusal(alloc, among, own, spot)? {
            return Ok(Some(refusal));
        }
    }
    Ok(None)
}

// The refusal of a further place.
fn seen_refusal<'r>(
    alloc: Global,
    among: &Among<'_, 'r, '_>,
    spot: &Spot<'r>,
) -> Result<Option<Refusal<'r>>, AllocError>
    requires { AreAmong among.now }
    ensures { RefusesFirst result
        (seen_refusals (layer_of among.now) (further_among among.now) (world_of among.now)
        (root_of among.now) (seen_spot spot.now)) }
{
    match reference_problems(alloc, among, spot)? {
        Some(problem) => Ok(Some(at_place(alloc, spot, problem)?)),
        None => Ok(None),
    }
}

// The first refusal of the further places of the document with a number.
fn further_refusal<'r>(
    alloc: Global,
    among: &Among<'_, 'r, '_>,
    number: usize,
) -> Result<Option<Refusal<'r>>, AllocError>
    requires { AreAmong among.now }
    ensures { RefusesFirst result
        (further_refusals (layer_of among.now) (further_among among.now) (world_of among.now)
        (root_of among.now) number) }
{
    let Some(spots) = among.further.get(number) else {
        return Ok(None);
    };
    for spot in spots {
        if let Some(refusal) = seen_refusal(alloc, among, spot)? {
            return Ok(Some(refusal));
        }
    }
    Ok(None)
}

// The path of a key of a root's definitions.
fn key_path<'r>(
    alloc: Global,
    keyword: &'static str,
    key: &str,
) -> Result<Vec<JsonPointerSegment<'r>>, AllocError>
    ensures { IfOk result (λ path. map part_of path.items ≡ Key keyword.now ∷ Key key.now ∷ []) }
{
    let mut path = Vec::new(alloc);
    path.push(JsonPointerSegment::Key(CowStr::Borrowed(keyword)))?;
    path.push(JsonPointerSegment::Key(CowStr::Owned(String::from_str(alloc, key)?)))?;
    Ok(path)
}

// The refusal of what a root has under the keyword of definitions, which is no object.
fn no_map<'r>(alloc: Global, top: usize, keyword: &'static str) -> Result<Refusal<'r>, AllocError>
    ensures { IfOk result (λ r. refusal_said r ≡ at_path top (Key keyword.now ∷ []) bundle.NoMap) }
{
    let mut path = Vec::new(alloc);
    path.push(JsonPointerSegment::Key(CowStr::Borrowed(keyword)))?;
    Ok(Refusal {
        document: top,
        path,
        problem: Problem::NoMap,
    })
}

// The refusal of a key that a root's definitions have already.
fn key_taken<'r>(
    alloc: Global,
    top: usize,
    keyword: &'static str,
    part: &Part<'_>,
) -> Result<Refusal<'r>, AllocError>
    ensures { IfOk result
        (λ r. refusal_said r ≡ at_path top (Key keyword.now ∷ Key part.now.base.value
        ∷ []) (bundle.KeyTaken part.now.base.value)) }
{
    Ok(Refusal {
        document: top,
        path: key_path(alloc, keyword, part.base.as_str())?,
        problem: Problem::KeyTaken {
            uri: part.base.clone()?,
        },
    })
}

// The refusal of a document whose key a root's definitions have already.
fn taken_by<'r>(
    alloc: Global,
    top: usize,
    keyword: &'static str,
    value: &Value,
    part: &Part<'_>,
) -> Result<Option<Refusal<'r>>, AllocError>
    requires { HasBase part.now }
    ensures { RefusesFirst result
        (taken_in top keyword.now (view value.now) (numbered_part part.now)) }
{
    if value.get(part.base.as_str()).is_some() {
        return Ok(Some(key_taken(alloc, top, keyword, part)?));
    }
    Ok(None)
}

// The first refusal of a key that a root's definitions have already.
fn taken<'r>(
    alloc: Global,
    top: usize,
    keyword: &'static str,
    value: &Value,
    parts: &[Part<'_>],
) -> Result<Option<Refusal<'r>>, AllocError>
    requires { AllByRecursion HasBase parts.now }
    ensures { RefusesFirst result
        (flat_map (taken_in top keyword.now (view value.now)) (map numbered_part parts.now)) }
{
    for part in parts {
        if let Some(refusal) = taken_by(alloc, top, keyword, value, part)? {
            return Ok(Some(refusal));
        }
    }
    Ok(None)
}

// The first refusal of what a root has under the keyword of definitions.
fn map_refusal<'r>(
    alloc: Global,
    top: usize,
    keyword: &'static str,
    value: Option<&Value>,
    parts: &[Part<'_>],
) -> Result<Option<Refusal<'r>>, AllocError>
    requires { AllByRecursion HasBase parts.now }
    ensures { RefusesFirst result
        (map_refusals top keyword.now (option_map (λ v. view v.now) value.entry)
        (map numbered_part parts.now)) }
{
    let Some(value) = value else {
        return Ok(None);
    };
    if !value.is_object() {
        return Ok(Some(no_map(alloc, top, keyword)?));
    }
    taken(alloc, top, keyword, value, parts)
}

// The first refusal of a root's definitions.
fn root_refusal<'r>(
    alloc: Global,
    top: &Part<'_>,
    parts: &[Part<'_>],
) -> Result<Option<Refusal<'r>>, AllocError>
    requires { AllByRecursion HasBase parts.now }
    ensures { RefusesFirst result
        (root_refusals (numbered_part top.now) (map numbered_part parts.now)) }
{
    if parts.is_empty() {
        return Ok(None);
    }
    if !top.tree.is_object() {
        let problem = Problem::NotEmbedded(Obstacle::NotAnObject);
        return Ok(Some(at_root(alloc, top.number, problem)));
    }
    let keyword = definitions_keyword(top.draft);
    map_refusal(alloc, top.number, keyword, top.tree.get(keyword), parts)
}

// The refusal of a document that can't be embedded.
fn own_refusal<'r>(
    alloc: Global,
    top: &Part<'_>,
    own: &Own<'_>,
) -> Result<Option<Refusal<'r>>, AllocError>
    requires top { HasBase top.now }
    requires places { HasPlaces own.now }
    ensures { RefusesFirst result
        (map (λ o. at_path own.now.number [] (bundle.NotEmbedded o))
        (option_to_list (obstacle (part_document top.now)
        (document_in own.now)))) }
{
    let part = part_of(alloc, own)?;
    match obstacle(alloc, top, &part)? {
        Some(obstacle) => Ok(Some(at_root(alloc, own.number, Problem::NotEmbedded(obstacle)))),
        None => Ok(None),
    }
}

// The first refusal of a document as a whole.
fn whole_refusal<'r>(
    alloc: Global,
    top: &Part<'_>,
    parts: &[Part<'_>],
    own: &Own<'_>,
) -> Result<Option<Refusal<'r>>, AllocError>
    requires top { HasBase top.now }
    requires parts { AllByRecursion HasBase parts.now }
    requires places { HasPlaces own.now }
    ensures { RefusesFirst result
        (whole_refusals (numbered_part top.now) (map numbered_part parts.now)
        (numbered_document own.now)) }
{
    if own.number == top.number {
        root_refusal(alloc, top, parts)
    } else {
        own_refusal(alloc, top, own)
    }
}

// The first refusal of a needed document.
fn refusal_in<'r>(
    alloc: Global,
    among: &Among<'_, 'r, '_>,
    own: &Own<'r>,
) -> Result<Option<Refusal<'r>>, AllocError>
    requires among { AreAmong among.now }
    requires places { HasPlaces own.now }
    ensures { RefusesFirst result
        (refusals_in (layer_of among.now) (further_among among.now) (world_of among.now)
        (root_of among.now) (parts_of among.now) (numbered_document own.now)) }
{
    let own_refusal = first_found(
        whole_refusal(alloc, among.top, among.parts, own),
        places_refusal(alloc, among, own),
    );
    first_found(own_refusal, further_refusal(alloc, among, own.number))
}

// Whether a number is marked.
pub(crate) fn is_marked(marks: &[bool], number: usize) -> bool
    ensures value { result ≡ is_marked marks.now number }
{
    match marks.get(number) {
        Some(mark) => *mark,
        None => false,
    }
}

// The first refusal of a document, where it is needed.
fn refusal_if_needed<'r>(
    alloc: Global,
    among: &Among<'_, 'r, '_>,
    own: &Own<'r>,
) -> Result<Option<Refusal<'r>>, AllocError>
    requires among { AreAmong among.now }
    requires places { HasPlaces own.now }
    ensures { RefusesFirst result
        (if is_marked among.now.needed.now own.now.number then
        refusals_in (layer_of among.now) (further_among among.now) (world_of among.now)
        (root_of among.now) (parts_of among.now) (numbered_document own.now) else []) }
{
    if is_marked(among.needed, own.number) {
        return refusal_in(alloc, among, own);
    }
    Ok(None)
}

/// The first refusal of the needed documents.
pub(crate) fn first_refusal<'r>(
    alloc: Global,
    among: &Among<'_, 'r, '_>,
) -> Result<Option<Refusal<'r>>, AllocError>
    requires { AreAmong among.now }
    ensures value { RefusesFirst result
        (flat_map
        (λ e. if is_marked among.now.needed.now e.0 then
        refusals_in (layer_of among.now) (further_among among.now) (world_of among.now)
        (root_of among.now) (parts_of among.now) e else [])
        (map numbered_document among.now.owns.now)) }
{
    for own in among.owns {
        if let Some(refusal) = refusal_if_needed(alloc, among, own)? {
            return Ok(Some(refusal));
        }
    }
    Ok(None)
}
