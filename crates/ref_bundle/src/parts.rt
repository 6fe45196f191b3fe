//! What a bundle is put together from.
ghost use Rattle.std.specs.List.{All};
ghost use Rattle.ref_bundle.specs.Parts.{HasBase};

use crate::embedding::Part;

/// What a bundle is put together from: its documents as they are in the registry. None of their trees is copied.
#[derive(Drop)]
pub struct BundleParts<'r> {
    /// The root.
    pub root: Part<'r>,
    /// The documents that come under its definitions, in the order of their numbers.
    pub embedded: Vec<Part<'r>>,
    ghost root_base: { HasBase root },
    ghost bases: { All HasBase embedded.items },
}
