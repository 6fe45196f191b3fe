//! Laws of the definitions. Each function is empty: its contract states the law, and the check proves it.
ghost use Rattle.ref_changes.specs.Kept.{PlacesStay, KeepsReferences};

/// Where nothing differs, each place is somewhere after, and each of its references is kept under every dynamic scope: it leads from where the
/// place moved to where what it led to moved, of the same draft and with the same base once it is entered, or fails by a
/// fault of the same name. A scope is a list of places whose resources were passed; after the change it is the list of the places where they
/// moved. So it is enough that `compare` looks names of dynamic anchors up from each place, and no reference under any scope.
pub fn references_are_kept()
    ensures places { PlacesStay }
    ensures law { KeepsReferences }
{}
