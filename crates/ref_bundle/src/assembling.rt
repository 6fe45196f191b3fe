//! Bundles, as they are put together.
ghost use Rattle.std.specs.Prelude.{◌≡◌, map, IfOk};
ghost use Rattle.std.specs.List.{AllByRecursion};
ghost use Rattle.ref_bundle.specs.Bundle.{embedded_document};
ghost use Rattle.ref_bundle.specs.Parts.{numbered_part, HasBase};
ghost use Rattle.ref_bundle.specs.Saying.{embedded_said, bundle_said};
ghost use Rattle.ref_bundle.specs.Assembled.{assembled};

use crate::bundled::{Bundle, Embedded};
use crate::embedding::{Part, added_schema, tree_with};
use crate::parts::BundleParts;
use referencing::Draft;
use std::alloc::{AllocError, Global};

// What is listed of a document.
fn embedded(draft: Draft, part: &Part<'_>) -> Result<Embedded, AllocError>
    requires { HasBase part.now }
    ensures { IfOk result
        (λ e. embedded_said e ≡ embedded_document draft (numbered_part part.now)) }
{
    Ok(Embedded {
        document: part.number,
        uri: part.base.clone()?,
        adds_id: part.tree.get(part.draft.id_keyword()).is_none(),
        schema: added_schema(draft, part),
    })
}

// What is listed of documents.
fn all_embedded(
    alloc: Global,
    draft: Draft,
    parts: &[Part<'_>],
) -> Result<Vec<Embedded>, AllocError>
    requires { AllByRecursion HasBase parts.now }
    ensures { IfOk result
        (λ list. map embedded_said list.items
        ≡ map (embedded_document draft) (map numbered_part parts.now)) }
{
    let mut list = Vec::with_capacity(alloc, parts.len())?;
    for part in parts {
        list.push(embedded(draft, part)?)?;
    }
    Ok(list)
}

impl BundleParts<'_> {
    /// What is listed of the documents under the root's definitions. Fails only if out of memory; costs their number.
    pub fn listed(&self, alloc: Global) -> Result<Vec<Embedded>, AllocError>
        ensures value { IfOk result
            (λ list. map embedded_said list.items ≡ (assembled self.now).embedded) }
    {
        all_embedded(alloc, self.root.draft, self.embedded.as_slice())
    }

    /// The bundle. Fails only if out of memory; the trees of its documents are copied.
    pub fn assembled(&self, alloc: Global) -> Result<Bundle, AllocError>
        ensures value { IfOk result (λ bundle. bundle_said bundle ≡ assembled self.now) }
    {
        let value = tree_with(alloc, &self.root, self.embedded.as_slice())?;
        let embedded = self.listed(alloc)?;
        Ok(Bundle { value, embedded })
    }
}
