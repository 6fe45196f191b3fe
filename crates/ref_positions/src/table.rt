//! The positions of offsets of a text, which are found by a binary search.
ghost use Rattle.std.specs.Prelude.{◌≡◌, ◌≤◌, All, IfOk, length, min};

use crate::position::Position;
use crate::walk::Found;
use std::alloc::{AllocError, Global};

// Positions in a text, in their order.
#[derive(Drop)]
pub(crate) struct Table<'a> {
    text: &'a str,
    positions: Vec<Position<'a>>,
    ghost same_text: { All (λ p. p.text.now ≡ text.now) positions.items },
}

impl<'a> Table<'a> {
    // That of what was found, in one pass over the text.
    pub(crate) fn new(
        alloc: Global,
        text: &'a str,
        found: &[Found],
    ) -> Result<Table<'a>, AllocError>
        ensures text { IfOk result (λ table. table.text.now ≡ text.now) }
    {
        let offsets = offsets_of(alloc, found)?;
        let positions = positions_of(alloc, text, offsets.as_slice())?;
        Ok(Table { text, positions })
    }

    // The position at an offset, or the end of the text.
    pub(crate) fn position(&self, start: usize) -> Position<'a>
        ensures text { result.text.now ≡ self.now.text.now }
        ensures offset { result.offset ≡ min start (length self.now.text.now) }
    {
        let offset = start.min(self.text.len());
        let near = self
            .positions
            .binary_search_by(|position| position.offset().cmp(&offset))
            .unwrap_or(0);
        if near < self.positions.len() {
            let position = self.positions[near];
            if position.offset() == offset {
                return position;
            }
        }
        Position::at(self.text, offset)
    }
}

fn push(offsets: &mut Vec<usize>, found: Option<(usize, usize)>) -> Result<(), AllocError> {
    if let Some((_, offset)) = found {
        offsets.push(offset)?;
    }
    Ok(())
}

// The offsets that were found, in their order.
fn offsets_of(alloc: Global, found: &[Found]) -> Result<Vec<usize>, AllocError> {
    let mut offsets = Vec::new(alloc);
    for place in found {
        push(&mut offsets, place.key)?;
        push(&mut offsets, place.value)?;
    }
    offsets.sort_unstable();
    Ok(offsets)
}

// The positions of offsets, in one pass over the text.
fn positions_of<'t>(
    alloc: Global,
    text: &'t str,
    offsets: &[usize],
) -> Result<Vec<Position<'t>>, AllocError>
    ensures text { IfOk result (λ v. All (λ p. p.text.now ≡ text.now) v.items) }
{
    let mut positions = Vec::new(alloc);
    let mut last = Position::start(text);
    for offset in offsets {
        last = last.moved_to(*offset);
        positions.push(last)?;
    }
    Ok(positions)
}
