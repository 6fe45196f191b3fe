//! What is known of all sources.
ghost use Rattle.std.specs.Prelude.{◌≡◌, map, reverse};
ghost use Rattle.ref_resolver.specs.Layered.{world_in};

use crate::site::Site;
use ref_index::Index;
use ref_parts::SortedTable;
use ref_resolver::Layers;

/// What is known of all sources: their places, the documents that references are looked up in and those of each source alone,
/// the URIs of what is no JSON, and which places have each URI and each name.
#[derive(Drop)]
pub(crate) struct Known<'k, 'v> {
    pub sites: &'k [Site<'k, 'v>],
    pub layers: Layers<'k>,
    // The index of all documents, which is above that of a source alone.
    pub above: &'k [&'k Index<'k>],
    pub own: &'k [Index<'k>],
    pub unread: &'k SortedTable<usize>,
    pub uris: &'k SortedTable<usize>,
    pub lasts: &'k SortedTable<usize>,
    pub names: &'k SortedTable<usize>,
    ghost all: { world_in layers ≡ map (λ p. p.now) above.now },
    ghost same: { lasts.now ≡ reverse uris.now },
}
