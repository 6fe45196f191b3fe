//! The places of a registry by where they are.
ghost use Rattle.std.specs.Prelude.{◌≡◌, map, option_map, IfOk};
ghost use Rattle.ref_definitions.specs.World.{local_documents};
ghost use Rattle.ref_changes.specs.Sites as spec;
ghost use Rattle.ref_changes.specs.Views.{moves_in, site_of_place};
ghost use Rattle.ref_changes.specs.inner.Tables.{IsTable};

use crate::moves::{Address, moved_to, number_text};
use referencing::{Place, Registry, SortedTable, TableEntries, pointer_of};
use std::alloc::{AllocError, Global};

/// Places, with their numbers by their pointers and documents.
#[derive(Drop)]
pub(crate) struct Sites<'p, 'r> {
    pub places: &'p [Place<'r>],
    pub table: SortedTable<usize>,
}

/// The places of a registry's own documents.
pub(crate) fn places_of<'r>(
    alloc: Global,
    registry: &'r Registry<'_>,
) -> Result<Vec<Place<'r>>, AllocError>
    ensures value { IfOk result
        (λ places. map site_of_place places.items ≡ spec.sites registry.now) }
{
    match registry.places(alloc) {
        Ok(places) => Ok(places),
        Err(error) => {
            drop(error);
            Err(AllocError)
        }
    }
}

// The numbers of places, under the pointer and the number of the document of each.
fn table_of(alloc: Global, places: &[Place<'_>]) -> Result<SortedTable<usize>, AllocError>
    ensures { IfOk result
        (λ table. table ≡ spec.site_entries (map site_of_place places.now)) }
{
    let mut entries = TableEntries::new(alloc);
    for (number, place) in places.iter().enumerate() {
        let pointer = pointer_of(alloc, place.path.as_slice())?;
        let document = number_text(alloc, place.document)?;
        entries.push(pointer.as_str(), document.as_str(), number)?;
    }
    entries.into_table(alloc)
}

/// These places.
pub(crate) fn sites_of<'p, 'r>(
    alloc: Global,
    places: &'p [Place<'r>],
) -> Result<Sites<'p, 'r>, AllocError>
    ensures places { IfOk result (λ s. s.places.now ≡ places.now) }
    ensures table { IfOk result IsTable }
{
    let table = table_of(alloc, places)?;
    Ok(Sites { places, table })
}

/// Where a place is after.
pub(crate) fn site_after<'p, 'r>(
    alloc: Global,
    moves: &SortedTable<Address<'_>>,
    after: &Sites<'p, 'r>,
    place: &Place<'_>,
) -> Result<Option<&'p Place<'r>>, AllocError>
    requires { IsTable after.now }
    ensures value { IfOk result
        (λ found. option_map (λ p. site_of_place p.now) found
        ≡ spec.site_after (moves_in moves.now) (map site_of_place after.now.places.now)
        (site_of_place place.now)) }
{
    let image = moved_to(alloc, moves, place.document, place.path.as_slice())?;
    let document = number_text(alloc, image.document)?;
    let found = after.table.get(image.pointer.as_str(), document.as_str()).0;
    match found {
        Some(number) => Ok(after.places.get(*number)),
        None => Ok(None),
    }
}
