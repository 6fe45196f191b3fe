//! Where values are after documents are changed.
ghost use Rattle.std.specs.Prelude.{◌≡◌, ℕ, ◌+◌, ◌<◌, [], ◌∷◌, map, take, length, option_map, unwrap_or, string_bytes, decimal, slice_get, Some, IfOk};
ghost use Rattle.std.specs.List.{slice_range};
ghost use Rattle.ref_paths.specs.Segment.{part_of};
ghost use Rattle.ref_resolver.specs.Locations.{location_view};
ghost use Rattle.ref_changes.specs.Moves as spec;
ghost use Rattle.ref_changes.specs.Views.{address_view, move_of, image_view, moves_in};

use ref_parts::{SortedTable, TableEntries, pointer_of};
use referencing::{JsonPointerSegment, Location};
use std::alloc::{AllocError, Global};

/// Where a value is: the number of its document, and its JSON Pointer there (RFC 6901).
#[derive(Clone, Copy, Drop)]
pub struct Address<'m> {
    /// The number of the document.
    pub document: usize,
    /// The pointer.
    pub pointer: &'m str,
}

/// A value that is at one address before, and at another after. What is in it moves along.
#[derive(Clone, Copy, Drop)]
pub struct Move<'f, 't> {
    /// Where it is before.
    pub from: Address<'f>,
    /// Where it is after.
    pub to: Address<'t>,
}

/// Where a value is after.
#[derive(Drop)]
pub struct Image {
    /// The number of its document.
    pub document: usize,
    /// Its pointer there.
    pub pointer: String,
}

/// The number of a document as a text.
pub(crate) fn number_text(alloc: Global, number: usize) -> Result<String, AllocError>
    ensures value { IfOk result (λ text. string_bytes text ≡ decimal number) }
{
    format!(in alloc; "{number}")
}

/// Where moves lead, by the pointer and the number of the document that each leads from. Fails only if out of memory. Sorts them.
pub fn table_of<'t>(
    alloc: Global,
    moves: &[Move<'_, 't>],
) -> Result<SortedTable<Address<'t>>, AllocError>
    ensures value { IfOk result
        (λ table. moves_in table ≡ spec.map_of (map move_of moves.now)) }
{
    let mut entries = TableEntries::new(alloc);
    for one in moves {
        let document = number_text(alloc, one.from.document)?;
        entries.push(one.from.pointer, document.as_str(), one.to)?;
    }
    entries.into_table(alloc)
}

// Where a value moves by itself, whose document has this number as a text.
fn moved<'t>(
    alloc: Global,
    table: &SortedTable<Address<'t>>,
    number: &str,
    path: &[JsonPointerSegment<'_>],
) -> Result<Option<Address<'t>>, AllocError>
    ensures { (document : ℕ) → number.now ≡ decimal document
        → IfOk result (λ a. option_map address_view a
        ≡ spec.moved (moves_in table.now)
        (record { document = document; path = map part_of path.now })) }
{
    let pointer = pointer_of(alloc, path)?;
    Ok(table.get(pointer.as_str(), number).0.copied())
}

// The address as a value of its own.
fn owned(alloc: Global, address: Address<'_>) -> Result<Image, AllocError>
    ensures { IfOk result (λ i. image_view i ≡ address_view address.entry) }
{
    Ok(Image {
        document: address.document,
        pointer: String::from_str(alloc, address.pointer)?,
    })
}

// What is at more parts of a path.
fn below(alloc: Global, at: Image, parts: &[JsonPointerSegment<'_>]) -> Result<Image, AllocError>
    ensures { IfOk result
        (λ i. image_view i
        ≡ spec.address_below (image_view at) (map part_of parts.now)) }
{
    let Image {
        document,
        mut pointer,
    } = at;
    let text = pointer_of(alloc, parts)?;
    pointer.push_str(text.as_str())?;
    Ok(Image { document, pointer })
}

// Where the part at an index of a path is, where what is before it is at an image.
fn next_part(
    alloc: Global,
    table: &SortedTable<Address<'_>>,
    number: &str,
    at: Image,
    path: &[JsonPointerSegment<'_>],
    index: usize,
) -> Result<Image, AllocError>
    requires { index < length path.now }
    ensures { (document : ℕ) → number.now ≡ decimal document
        → IfOk result (λ i. image_view i
        ≡ unwrap_or
        (spec.moved (moves_in table.now)
        (record { document = document; path = map part_of (take (index + 1) path.now) }))
        (spec.address_below (image_view at)
        (map part_of (slice_range path.now index (index + 1))))) }
{
    match moved(alloc, table, number, &path[..index + 1])? {
        Some(to) => owned(alloc, to),
        None => below(alloc, at, &path[index..index + 1]),
    }
}

// Where a document is.
fn root(
    alloc: Global,
    table: &SortedTable<Address<'_>>,
    document: usize,
    number: &str,
) -> Result<Image, AllocError>
    requires { number.now ≡ decimal document }
    ensures { IfOk result (λ i. image_view i
        ≡ unwrap_or (spec.moved (moves_in table.now) (record { document = document; path = [] }))
        (record { document = document; pointer = [] })) }
{
    match moved(alloc, table, number, &[])? {
        Some(to) => owned(alloc, to),
        None => Ok(Image {
            document,
            pointer: String::new(alloc),
        }),
    }
}

/// Where the value at a path of a document is after, by a table of moves. Fails only if out of memory. A look-up for each part.
pub fn moved_to(
    alloc: Global,
    table: &SortedTable<Address<'_>>,
    document: usize,
    path: &[JsonPointerSegment<'_>],
) -> Result<Image, AllocError>
    ensures value { IfOk result (λ i. image_view i
        ≡ spec.image (moves_in table.now)
        (record { document = document; path = map part_of path.now })) }
{
    let number = number_text(alloc, document)?;
    let mut image = root(alloc, table, document, number.as_str())?;
    for index in 0..path.len() {
        image = next_part(alloc, table, number.as_str(), image, path, index)?;
    }
    Ok(image)
}

// Where what was at a location is.
fn image_in(
    alloc: Global,
    table: &SortedTable<Address<'_>>,
    at: &Location<'_>,
) -> Result<Image, AllocError>
    ensures { IfOk result (λ i. image_view i
        ≡ spec.image_in (moves_in table.now) (location_view at.now)) }
{
    if at.layer == 0 {
        return moved_to(alloc, table, at.document, at.path.as_slice());
    }
    Ok(Image {
        document: at.document,
        pointer: at.pointer(alloc)?,
    })
}

/// Whether what was at one location is at another.
pub(crate) fn is_moved(
    alloc: Global,
    table: &SortedTable<Address<'_>>,
    before: &Location<'_>,
    after: &Location<'_>,
) -> Result<bool, AllocError>
    ensures value { IfOk result (λ is. is
        ≡ spec.is_moved (moves_in table.now) (location_view before.now)
        (location_view after.now)) }
{
    if before.layer != after.layer {
        return Ok(false);
    }
    let image = image_in(alloc, table, before)?;
    let pointer = after.pointer(alloc)?;
    Ok(image.document == after.document && image.pointer.as_str() == pointer.as_str())
}

/// The same where there may be none before.
pub(crate) fn is_moved_if(
    alloc: Global,
    table: &SortedTable<Address<'_>>,
    before: Option<&Location<'_>>,
    after: Option<&Location<'_>>,
) -> Result<bool, AllocError>
    ensures value { IfOk result (λ is. is
        ≡ spec.is_moved_if (moves_in table.now)
        (option_map (λ l. location_view l.now) before.entry)
        (option_map (λ l. location_view l.now) after.entry)) }
{
    match (before, after) {
        (Some(before), Some(after)) => is_moved(alloc, table, before, after),
        (None, None) => Ok(true),
        _ => Ok(false),
    }
}
