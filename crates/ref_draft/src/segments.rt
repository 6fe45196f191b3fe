//! The segments that a pointer has passed.
ghost use Rattle.std.specs.Prelude.{◌≡◌, ◌∷◌, ◌++◌, [], map, OnOk, OnErr};
ghost use Rattle.std.specs.Slice.Iter.{iter_rest};
ghost use Rattle.ref_paths.specs.Segment.{part_of};

pub use ref_paths::path::JsonPointerSegment as Segment;
use std::alloc::{AllocError, Global};
use std::marker::Model;
use std::slice;

/// The segments of a pointer, in order. Contracts see the list of them as parts of a path.
#[derive(Drop)]
pub struct Segments<'a> {
    items: Vec<Segment<'a>>,
}

impl<'a> Model for Segments<'a> {
    ghost use Rattle.std.specs.Prelude.{List, map};
    ghost use Rattle.ref_paths.specs.Path.{Part};

    ghost Value = { List Part };

    ghost use Rattle.ref_paths.specs.Segment.{part_of};

    ghost view = { λ s. map part_of s.items.items };
}

impl<'a> Segments<'a> {
    /// No segments. It takes no memory until the first is added.
    pub fn new(alloc: Global) -> Self
        ensures empty { result ≡ [] }
    {
        Segments {
            items: Vec::new(alloc),
        }
    }

    /// Adds a segment at the end. Fails only where memory is refused, and then leaves the segments as they were.
    pub fn push<T: Into<Segment<'a>>>(&mut self, segment: T) -> Result<(), AllocError>
        ensures added { OnOk result
            ((s : _) × T.converts segment s × (self.new ≡ self.old ++ part_of s ∷ [])) }
        ensures refused { OnErr result (self.new ≡ self.old) }
    {
        self.items.push(segment.into())?;
        Ok(())
    }

    /// The segments in order.
    pub fn iter(&self) -> slice::Iter<'_, Segment<'a>>
        ensures items { map part_of (iter_rest result) ≡ self.now }
    {
        self.items.iter()
    }
}
