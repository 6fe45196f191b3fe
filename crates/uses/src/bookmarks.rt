//! A tool that keeps places by pointer: by the base URI of the resource that they belong to, and the path from there.
ghost use Rattle.std.specs.Prelude.{◌≡◌, ◌++◌, map, Ok, IfOk, IfErr, IfSome};
ghost use Rattle.serde_json.specs.View.{view};
ghost use Rattle.referencing.specs.Segment.{part_of};
ghost use Rattle.referencing.specs.World.{Document, local_documents};
ghost use Rattle.referencing.specs.Places.{Place as WorldPlace};
ghost use Rattle.referencing.specs.Agreement.{IsAtOrBelow, IsReadAlike};
ghost use Rattle.referencing.specs.Errors.{IsMemory};

use referencing::{Draft, Error, JsonPointerSegment, Place, Registry, Uri};
use serde_json::Value;
use std::alloc::Global;
use std::rc::Rc;

/// A place as the tool keeps it.
#[derive(Clone, Copy, Debug, Drop)]
pub struct Bookmark<'p, 'k> {
    /// The base URI of the resource that it belongs to.
    pub resource: &'p Uri,
    /// Its path from there.
    pub path: &'p [JsonPointerSegment<'k>],
}

/// The bookmark of a place of [`Registry::places`] that is at or below another of the same document, such as the root of its
/// resource; `None` where its path doesn't begin with the other's. Takes no memory.
pub fn bookmark_of<'p, 'k>(
    resource: &'p Place<'k>,
    place: &'p Place<'k>,
) -> Option<Bookmark<'p, 'k>>
    ensures resource { IfSome result (λ kept. kept.resource.now ≡ resource.now.base.value) }
    ensures path { IfSome result
        (λ kept. map part_of place.now.path.items
        ≡ map part_of resource.now.path.items ++ map part_of kept.path.now) }
{
    if place.document != resource.document {
        return None;
    }
    let path = place
        .path
        .as_slice()
        .strip_prefix(resource.path.as_slice())?;
    Some(Bookmark {
        resource: &*resource.base,
        path,
    })
}

/// The value, the draft and the base URI at a bookmark. Where pointer and keywords agree below the resource
/// ([`Registry::locate`] says where that is), they are those of the place that was kept, and the one error is `Memory`.
/// Otherwise fails as [`Registry::locate`] does, whose cost it has.
pub fn opened<'r>(
    alloc: Global,
    registry: &'r Registry<'_>,
    kept: Bookmark<'_, '_>,
) -> Result<(&'r Value, Draft, Rc<Uri>), Error>
    ensures place { (d : Document) (r q : WorldPlace)
        → IsReadAlike (local_documents registry.now) d r kept.entry.resource.now → IsAtOrBelow q r
        → q.path ≡ r.path ++ map part_of kept.entry.path.now
        → IfOk result
        (λ found. (view found.0.now ≡ q.value) × (found.1 ≡ q.draft)
        × (q.base ≡ Ok found.2.value)) }
    ensures memory { (d : Document) (r q : WorldPlace)
        → IsReadAlike (local_documents registry.now) d r kept.entry.resource.now → IsAtOrBelow q r
        → q.path ≡ r.path ++ map part_of kept.entry.path.now
        → IfErr result IsMemory }
{
    let (value, inner, draft) = registry
        .locate(alloc, kept.resource, kept.path)?
        .into_inner();
    let base = inner.base_uri().clone()?;
    Ok((value, draft, base))
}
