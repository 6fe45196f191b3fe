//! The bundle of a document with those that it needs.
ghost use Rattle.std.specs.Prelude.{◌≡◌, ◌==◌, ◌&&◌, [], ◌∷◌, ◌++◌, OnOk, map, slice_get, Some, filter, not, IfOk, IfErr, Ok};
ghost use Rattle.std.specs.List.{AllByRecursion};
ghost use Rattle.ref_bundle.specs.Bundle.{bundle_among, bundle_at, bundle_with};
ghost use Rattle.ref_bundle.specs.Saying.{bundle_said, further_of, IsRefusalOf};
ghost use Rattle.ref_bundle.specs.Assembled.{assembled};
ghost use Rattle.ref_bundle.specs.inner.Reach.{is_marked, IsReach};
ghost use Rattle.ref_bundle.specs.inner.Seen.{numbered_document, layer_in, numbered_part, HasPlaces, AreOwn};
ghost use Rattle.ref_bundle.specs.inner.Seen.{HasBase};
ghost use Rattle.ref_bundle.specs.inner.Tables.{AreTables};
ghost use Rattle.ref_bundle.specs.Needed.{counted_documents, referred_of};

use crate::among::Among;
use crate::bundled::Bundle;
use crate::embedding::{Part, part_of};
use crate::error::{BundleError, Problem};
use crate::own::{Own, Spot, owns_of};
use crate::parts::BundleParts;
use crate::reach::{all_referred, reach};
use crate::refusing::{at_root, first_refusal, is_marked};
use crate::tables::{Bearers, bearers_of};
use referencing::Registry;
use std::alloc::{AllocError, Global};

// Whether a document is needed, and isn't the root.
fn is_embedded(needed: &[bool], top: usize, number: usize) -> bool
    ensures { result ≡ (not (number == top) && is_marked needed.now number) }
{
    number != top && is_marked(needed, number)
}

// Adds a document, where it is needed and isn't the root.
fn push<'r>(
    alloc: Global,
    parts: &mut Vec<Part<'r>>,
    needed: &[bool],
    top: usize,
    own: &Own<'r>,
) -> Result<(), AllocError>
    requires { HasPlaces own.now }
    ensures parts { OnOk result
        (map numbered_part parts.new.items ≡ map numbered_part parts.old.items
        ++ filter (λ e. not (e.0 == top) && is_marked needed.now e.0)
        (numbered_document own.now ∷ [])) }
    ensures bases { AllByRecursion HasBase parts.old.items
        → OnOk result (AllByRecursion HasBase parts.new.items) }
{
    if is_embedded(needed, top, own.number) {
        let part = part_of(alloc, own)?;
        parts.push(part)?;
    }
    Ok(())
}

// The needed documents but for the root.
fn parts_of<'r>(
    alloc: Global,
    owns: &[Own<'r>],
    needed: &[bool],
    top: usize,
) -> Result<Vec<Part<'r>>, AllocError>
    requires { AllByRecursion HasPlaces owns.now }
    ensures parts { IfOk result (λ parts. map numbered_part parts.items
        ≡ filter (λ e. not (e.0 == top) && is_marked needed.now e.0)
        (map numbered_document owns.now)) }
    ensures bases { IfOk result (λ parts. AllByRecursion HasBase parts.items) }
{
    let mut parts = Vec::new(alloc);
    for own in owns {
        push(alloc, &mut parts, needed, top, own)?;
    }
    Ok(parts)
}

// What the bundle of a root is put together from among documents, which have URIs and are needed so.
fn bundle_needed<'r>(
    alloc: Global,
    bearers: &Bearers<'r, '_>,
    owns: &[Own<'r>],
    further: &[Vec<Spot<'r>>],
    needed: &[bool],
    top: &Own<'r>,
) -> Result<BundleParts<'r>, BundleError<'r>>
    requires own { AreOwn owns.now }
    requires tables { AreTables (layer_in owns.now) bearers.now }
    requires top { slice_get owns.now top.now.number ≡ Some top.now }
    requires needed { IsReach
        (map (referred_of (layer_in owns.now) (further_of further.now))
        (counted_documents 0 (layer_in owns.now))) top.now.number needed.now }
    ensures value { IfOk result
        (λ parts. bundle_among (layer_in owns.now) (further_of further.now) bearers.now.registry.now
        top.now.number ≡ Ok (assembled parts)) }
    ensures fault { IfErr result
        (IsRefusalOf
        (bundle_among (layer_in owns.now) (further_of further.now) bearers.now.registry.now
        top.now.number)) }
{
    let parts = parts_of(alloc, owns, needed, top.number)?;
    let top = part_of(alloc, top)?;
    let embedded = parts.as_slice();
    let among = Among {
        bearers,
        owns,
        further,
        needed,
        top: &top,
        parts: embedded,
    };
    match first_refusal(alloc, &among)? {
        Some(refusal) => Err(BundleError::Refused(refusal)),
        None => Ok(BundleParts {
            root: top,
            embedded: parts,
        }),
    }
}

// What the bundle of a root is put together from among documents.
fn bundle_among<'r>(
    alloc: Global,
    registry: &'r Registry<'_>,
    owns: &[Own<'r>],
    further: &[Vec<Spot<'r>>],
    top: &Own<'r>,
) -> Result<BundleParts<'r>, BundleError<'r>>
    requires own { AreOwn owns.now }
    requires top { slice_get owns.now top.now.number ≡ Some top.now }
    ensures value { IfOk result
        (λ parts. bundle_among (layer_in owns.now) (further_of further.now) registry.now
        top.now.number ≡ Ok (assembled parts)) }
    ensures fault { IfErr result
        (IsRefusalOf
        (bundle_among (layer_in owns.now) (further_of further.now) registry.now top.now.number)) }
{
    let bearers = bearers_of(alloc, registry, owns)?;
    let lists = all_referred(alloc, &bearers, owns, further)?;
    let needed = reach(alloc, lists.as_slice(), top.number)?;
    bundle_needed(alloc, &bearers, owns, further, needed.as_slice(), top)
}

/// One document in place of those that an own document of a registry needs, which is counted from 0 in the order in which
/// their URIs were first added, and after them those retrieved (2020-12 Core, 9.3).
///
/// Needed are the root, and again and again the own documents that a needed place means by the text under its `$ref` or
/// `$dynamicRef`, or by the URI of a custom meta-schema under its `$schema`; the documents of parents stay outside. The
/// bundle is the root's tree with each other needed document as a member of its `$defs` (`definitions` where the root is of
/// Draft 4, 6 or 7), under the document's base URI, which it also has as its identifier, and with the `$schema` of its draft
/// where the root's draft wouldn't be detected as it and it has none. Nothing else changes; a document that needs no other is
/// its own bundle.
///
/// Refuses by what [`Problem`] names, the first in the order of documents and places, and as `Memory`. The trees of the
/// documents in the bundle are copied. Each place of the registry is visited once, with look-ups in sorted tables for the
/// URIs that it has and refers to, and in the parents for those that no own document has.
pub fn bundle<'r>(
    alloc: Global,
    registry: &'r Registry<'_>,
    root: usize,
) -> Result<Bundle, BundleError<'r>>
    ensures value { IfOk result (λ b. bundle_at registry.now root ≡ Ok (bundle_said b)) }
    ensures fault { IfErr result (IsRefusalOf (bundle_at registry.now root)) }
{
    bundle_with(alloc, registry, &[], root)
}

/// The same, where documents have further places: what references lead to where no keyword does, as definitions in groups.
/// The list at a number has those of the document with that number, and none has a number beyond; `ref_further` finds them.
/// What a further place of a needed document refers to is needed too, and may refuse as another place's reference does. Its
/// identifier names nothing. Costs as [`bundle`], with these places visited once more.
pub fn bundle_with<'r>(
    alloc: Global,
    registry: &'r Registry<'_>,
    further: &[Vec<Spot<'r>>],
    root: usize,
) -> Result<Bundle, BundleError<'r>>
    ensures value { IfOk result
        (λ b. bundle_with registry.now (further_of further.now) root ≡ Ok (bundle_said b)) }
    ensures fault { IfErr result
        (IsRefusalOf (bundle_with registry.now (further_of further.now) root)) }
{
    let parts = bundle_parts(alloc, registry, further, root)?;
    Ok(parts.assembled(alloc)?)
}

/// What the bundle that [`bundle_with`] makes is put together from: [`BundleParts::assembled`] does that. No tree is copied.
/// Refuses as [`bundle_with`] does, and costs as it does but for the copies.
pub fn bundle_parts<'r>(
    alloc: Global,
    registry: &'r Registry<'_>,
    further: &[Vec<Spot<'r>>],
    root: usize,
) -> Result<BundleParts<'r>, BundleError<'r>>
    ensures value { IfOk result
        (λ parts. bundle_with registry.now (further_of further.now) root ≡ Ok (assembled parts)) }
    ensures fault { IfErr result
        (IsRefusalOf (bundle_with registry.now (further_of further.now) root)) }
{
    let owns = owns_of(alloc, registry)?;
    match owns.get(root) {
        Some(top) => bundle_among(alloc, registry, owns.as_slice(), further, top),
        None => Err(BundleError::Refused(at_root(alloc, root, Problem::NoDocument))),
    }
}
