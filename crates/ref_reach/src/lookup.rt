//! What a text leads to, as a reference.
ghost use Rattle.std.specs.Prelude.{◌≡◌, option_map, IfOk};
ghost use Rattle.ref_reach.specs.Leading.{target_by_text};
ghost use Rattle.ref_reach.specs.Views.{place_of};
ghost use Rattle.ref_reach.specs.Knowing.{known_of};
ghost use Rattle.ref_reach.specs.inner.Saying.{target_of};

use crate::described::Documents;
use crate::leading::{Target, found_at};
use crate::place::Place;
use ref_error::Error;
use ref_parts::list::List;
use ref_resolver::{Layers, Resolver};
use std::alloc::{AllocError, Global};

/// What a text of a place leads to as a reference, with an empty dynamic scope: a value of any kind, in the document's own tree. `None` where it leads
/// nowhere, or to what is in none of the documents. Fails only if out of memory. A look-up.
pub fn target<'r>(
    alloc: Global,
    documents: &Documents<'r>,
    place: &Place<'r>,
    text: &str,
) -> Result<Option<Target<'r>>, AllocError>
    ensures value { IfOk result
        (λ t. option_map target_of t
        ≡ target_by_text (known_of documents.now) (place_of place.now) text.now) }
{
    let layers = Layers::new(&documents.index, &[]);
    let resolver = Resolver::from_parts(layers, place.base.clone()?, List::new());
    match resolver.lookup_located(alloc, text) {
        Ok((resolved, location)) => found_at(alloc, documents, resolved, location),
        Err(Error::Memory(error)) => Err(error),
        Err(error) => {
            drop(error);
            Ok(None)
        }
    }
}
