//! The own places of descriptions by document and pointer.
ghost use Rattle.std.specs.Prelude.{◌≡◌, map, string_bytes, decimal, IfOk};
ghost use Rattle.ref_parts.specs.Pointer.{pointer_text};
ghost use Rattle.ref_reach.specs.Places.{own_entries};
ghost use Rattle.ref_reach.specs.Views.{place_of};

use crate::place::Place;
use ref_index::segments_of;
use ref_parts::path::JsonPointerNode;
use ref_parts::{SortedTable, TableEntries, pointer_of};
use std::alloc::{AllocError, Global};

/// The pointer of a path (RFC 6901).
pub(crate) fn pointer(alloc: Global, path: &JsonPointerNode<'_>) -> Result<String, AllocError>
    ensures value { IfOk result (λ text. string_bytes text ≡ pointer_text path.now) }
{
    let segments = segments_of(alloc, path)?;
    pointer_of(alloc, segments.as_slice())
}

/// The number of a document as a text.
pub(crate) fn number_text(alloc: Global, number: usize) -> Result<String, AllocError>
    ensures value { IfOk result (λ text. string_bytes text ≡ decimal number) }
{
    format!(in alloc; "{number}")
}

/// The numbers of own places, under the pointer and the number of the document of each.
pub(crate) fn table_of(
    alloc: Global,
    places: &[Place<'_>],
) -> Result<SortedTable<usize>, AllocError>
    ensures value { IfOk result (λ table. table ≡ own_entries (map place_of places.now)) }
{
    let mut entries = TableEntries::new(alloc);
    for (number, place) in places.iter().enumerate() {
        let pointer = pointer(alloc, &place.path)?;
        let document = number_text(alloc, place.document)?;
        entries.push(pointer.as_str(), document.as_str(), number)?;
    }
    entries.into_table(alloc)
}
