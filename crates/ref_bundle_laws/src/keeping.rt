//! The bundles of a registry's documents, of which the laws speak.
ghost use Rattle.std.specs.Prelude.{◌≡◌, drop, slice_get, Some, Ok};
ghost use Rattle.serde_json.specs.View.{view};
ghost use Rattle.ref_draft.specs.Children.{InKeyOrder};
ghost use Rattle.ref_definitions.specs.World.{Document, local_documents};
ghost use Rattle.ref_bundle.specs.Needed.{Further};
ghost use Rattle.ref_bundle.specs.Bundle.{Bundle, bundle_with};
ghost use Rattle.ref_bundle_laws.specs.Kept.{IsBundle};

use referencing::Registry;
use serde_json::Value;

// The members of a value are in byte order of their keys.
#[tactic(auto, using(crate::proofs::LawOrder::ordered_other))]
fn members_are_ordered(value: &Value)
    ensures { InKeyOrder (view value.now) }
{
    if let Some(members) = value.as_object() {
        let _members = members.into_iter();
    }
}

/// What the laws say of bundles holds of each that `ref_bundle::bundle_with` gives of a document of a registry: no own
/// document has a fault or an open want, and the members of its values are in byte order of their keys. A law; a look-up,
/// which takes no memory.
pub fn bundle_is_lawful(registry: &Registry<'_>, root: usize)
    ensures law { (further : Further) (top : Document) (bundle : Bundle)
        → slice_get (local_documents registry.now) root ≡ Some top
        → bundle_with registry.now further root ≡ Ok bundle
        → IsBundle (local_documents registry.now) further (drop 1 registry.now) root top bundle }
{
    registry.references_are_retrieved();
    if let Some(value) = registry.value_at(root, &[]) {
        members_are_ordered(value);
    }
}
