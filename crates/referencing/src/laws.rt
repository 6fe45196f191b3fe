//! Laws and rows of the definitions. Each function is empty: its contract states the law, and the check proves it.
ghost use Rattle.std.specs.Prelude.{◌≡◌, Some, None};
ghost use Rattle.std.specs.Borrow.{Bor};
ghost use Rattle.std.specs.declared.alloc.Global as global;
ghost use Rattle.std.specs.declared.rc.Rc as rc;
ghost use Rattle.serde_json.specs.View.{view};
ghost use Rattle.ref_draft.specs.Views.{resource, resource_ref};
ghost use Rattle.referencing.specs.Rows.{PreparingRows, HeldRows, StepRows, PlaceRows, LocationRows};

use crate::input::IntoRegistryResource;
use ref_draft::{Resource, ResourceRef};
use serde_json::Value;
use std::rc::Rc;

/// A value is added as its tree and without a draft, whoever owns it.
pub fn values_are_added_as_their_trees()
    ensures owned { (v : Value) → (⟦<Value as IntoRegistryResource<'static>>⟧.tree v ≡ view v)
        × (⟦<Value as IntoRegistryResource<'static>>⟧.given_draft v ≡ None) }
    ensures borrowed { (v : Bor Value)
        → (⟦<&'static Value as IntoRegistryResource<'static>>⟧.tree v ≡ view v.now)
        × (⟦<&'static Value as IntoRegistryResource<'static>>⟧.given_draft v ≡ None) }
    ensures shared { (v : rc.Rc Value global.Global)
        → (⟦<Rc<Value> as IntoRegistryResource<'static>>⟧.tree v ≡ view v.value)
        × (⟦<Rc<Value> as IntoRegistryResource<'static>>⟧.given_draft v ≡ None) }
{}

/// A resource is added as its tree and with its draft, whoever owns it.
pub fn resources_are_added_with_their_drafts()
    ensures owned { (r : Resource)
        → (⟦<Resource as IntoRegistryResource<'static>>⟧.tree r ≡ (resource r).contents)
        × (⟦<Resource as IntoRegistryResource<'static>>⟧.given_draft r ≡ Some (resource r).draft) }
    ensures borrowed { (r : Bor Resource)
        → (⟦<&'static Resource as IntoRegistryResource<'static>>⟧.tree r
        ≡ (resource r.now).contents)
        × (⟦<&'static Resource as IntoRegistryResource<'static>>⟧.given_draft r
        ≡ Some (resource r.now).draft) }
    ensures lent { (r : ResourceRef)
        → (⟦<ResourceRef<'static> as IntoRegistryResource<'static>>⟧.tree r
        ≡ (resource_ref r).contents)
        × (⟦<ResourceRef<'static> as IntoRegistryResource<'static>>⟧.given_draft r
        ≡ Some (resource_ref r).draft) }
{}

/// Rows of what preparing may return, of its faults and of those of meta-schemas, of a limit that is used up, and of documents in
/// which nothing is wanted.
pub fn preparing_rows()
    ensures rows { PreparingRows }
{}

/// Rows of which pairs were resolved when documents were prepared.
pub fn held_rows()
    ensures rows { HeldRows }
{}

/// Rows of which steps are reached, of their faults, and of the errors of preparing and following at once.
pub fn step_rows()
    ensures rows { StepRows }
{}

/// Rows of which answers are a place's, and agree with the places below a resource.
pub fn place_rows()
    ensures rows { PlaceRows }
{}

/// Rows of where the values are that references lead to.
pub fn location_rows()
    ensures rows { LocationRows }
{}
