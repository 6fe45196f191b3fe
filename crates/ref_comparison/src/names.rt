//! Names of components in mappings of discriminators.
ghost use Rattle.std.specs.Prelude.{◌≡◌, [], ◌∷◌, map, codes, IfOk};
ghost use Rattle.ref_paths.specs.Path.{Key};
ghost use Rattle.ref_paths.specs.Segment.{part_of};
ghost use Rattle.ref_reach.specs.Views.{place_of};
ghost use Rattle.ref_comparison.specs.Further as spec;
ghost use Rattle.ref_comparison.specs.Views.{sides_of};

use crate::sides::Sides;
use ref_changes::moved_to;
use ref_parts::path::JsonPointerSegment;
use ref_parts::pointer_of;
use ref_reach::Place;
use std::alloc::{AllocError, Global};

// The path of a component with a name.
fn path_of<'n>(alloc: Global, name: &'n str) -> Result<Vec<JsonPointerSegment<'n>>, AllocError>
    ensures { IfOk result
        (λ path. map part_of path.items
        ≡ Key (codes "components") ∷ Key (codes "schemas") ∷ Key name.now ∷ []) }
{
    let mut path = Vec::new(alloc);
    path.push(JsonPointerSegment::from("components"))?;
    path.push(JsonPointerSegment::from("schemas"))?;
    path.push(JsonPointerSegment::from(name))?;
    Ok(path)
}

/// Whether the component with a name of the document of a place moved to that with another name there; or the names are the same.
pub(crate) fn is_name_kept(
    alloc: Global,
    sides: &Sides<'_, '_, '_, '_, '_>,
    before: (&Place<'_>, &str),
    after: (&Place<'_>, &str),
) -> Result<bool, AllocError>
    ensures value { IfOk result (λ kept. kept
        ≡ spec.is_name_kept (sides_of sides.now) (place_of before.entry.0.now)
        (place_of after.entry.0.now)
        (record { text = before.entry.1.now; now = after.entry.1.now })) }
{
    let (place, text) = before;
    let (other, now) = after;
    let path = path_of(alloc, text)?;
    let image = moved_to(alloc, sides.moves, place.document, path.as_slice())?;
    let there = path_of(alloc, now)?;
    let pointer = pointer_of(alloc, there.as_slice())?;
    let is_moved = image.document == other.document && image.pointer.as_str() == pointer.as_str();
    Ok(is_moved || text == now)
}
