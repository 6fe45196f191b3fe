//! Laws of the definitions. No function here does anything: its contract is the law.
ghost use Rattle.std.specs.Prelude.{◌≡◌, ◌↔◌, true, ◌<◌, ◌∷◌, ◌++◌, [], ℕ, Bool, IsTrue, List, codes, Some, None};
ghost use Rattle.std.specs.List.{AllByRecursion};
ghost use Rattle.std.specs.Ordering.{nat_cmp};
ghost use Rattle.serde_json.specs.Data.{Data, depth};
ghost use Rattle.ref_draft.specs.declared.draft.Draft.{Draft as Version};
ghost use Rattle.ref_draft.specs.Children.{AllAreThere, children, is_object, walked_children};
ghost use Rattle.ref_draft.specs.Names.{draft_name, draft_named};
ghost use Rattle.ref_draft.specs.Order.{rank};
ghost use Rattle.ref_draft.specs.Scan.{AcceptsChildren, IsAccepted, SpellsWord, is_child_keyword};
ghost use Rattle.ref_draft.specs.ScanSteps.{scan};
ghost use Rattle.ref_draft.specs.declared.reached.Reached.{Reached as ReachedThere};
ghost use Rattle.ref_draft.specs.declared.reached.Reached.TheVariants.{Schema};
ghost use Rattle.ref_draft.specs.Reached.{HasReached, accepts_at, reached_after};
ghost use Rattle.ref_draft.specs.Beginnings.{AllEndWithin};
ghost use Rattle.ref_draft.specs.UniqueKeys.{HasUniqueKeys};
ghost use Rattle.ref_paths.specs.Path.{Key, Part};

use crate::draft::Draft;

/// The drafts are ordered by age, with the custom meta-schema last.
pub fn drafts_are_ordered()
    ensures law { (a b : Version) → ⟦<Draft as Ord>⟧.cmp a b ≡ nat_cmp (rank a) (rank b) }
{}

/// The draft without further knowledge is 2020-12, and none else.
pub fn default_is_2020()
    ensures law { (d : Version) → ⟦<Draft as Default>⟧.is_default d → d ≡ Draft.Draft202012 }
{}

/// Each draft but `Unknown` is the one that its name means, and other texts name none.
pub fn names_are_read_back()
    ensures rows { (draft_named (draft_name Draft.Draft4) ≡ Some Draft.Draft4)
        × (draft_named (draft_name Draft.Draft6) ≡ Some Draft.Draft6)
        × (draft_named (draft_name Draft.Draft7) ≡ Some Draft.Draft7)
        × (draft_named (draft_name Draft.Draft201909) ≡ Some Draft.Draft201909)
        × (draft_named (draft_name Draft.Draft202012) ≡ Some Draft.Draft202012)
        × (draft_named (draft_name Draft.Unknown) ≡ None)
        × (draft_named (codes "5") ≡ None) × (draft_named [] ≡ None) }
{}

/// A child nests less deeply than the value that it is a child of, so that the levels of children end.
pub fn children_are_shallower()
    ensures law { (d : Version) (value : Data)
        → AllByRecursion (λ child. depth child.1 < depth value) (children d value) }
{}

/// Each child of a value whose objects have each key once is at its path.
pub fn children_stand_at_their_paths()
    ensures law { (d : Version) (value : Data) → HasUniqueKeys value
        → AllAreThere value (walked_children d value) }
{}

/// Where the parts that lead to a value are accepted, those that lead on to each of its children that is an object are
/// accepted there.
pub fn scan_goes_on_to_children()
    ensures law { (d : Version) (parts : List Part) (value : Data)
        → IsAccepted d parts value → AcceptsChildren d parts (children d value) }
{}

/// Before the path of a child ends, after parts that are accepted, it leads to an array or to a map of subschemas, and since
/// 2020-12 nothing there is accepted. The children are to be at their paths, as `children_stand_at_their_paths` says.
pub fn paths_of_children_end_within()
    ensures law { (d : Version) (parts : List Part) (value : Data)
        → IsAccepted d parts value → AllAreThere value (walked_children d value)
        → AllEndWithin d parts value (children d value) }
{}

/// The scan, which reads the parts from the left, accepts exactly those that are accepted.
pub fn scan_is_accepted()
    ensures law { (d : Version) (value : Data) (parts : List Part)
        → (scan d (is_object value) parts ≡ true) ↔ IsAccepted d parts value }
{}

/// What parts lead to is read from the left: no parts lead to a schema, one part more leads where `Reached` says, and the scan
/// accepts the parts where `Reached` accepts what they lead to.
pub fn parts_are_read_one_by_one()
    ensures start { (d : Version) → HasReached d [] Schema }
    ensures more { (d : Version) (parts : List Part) (reached : ReachedThere) (part : Part)
        → HasReached d parts reached
        → HasReached d (parts ++ part ∷ []) (reached_after d reached part) }
    ensures accepts { (d : Version) (object : Bool) (parts : List Part) (reached : ReachedThere)
        → HasReached d parts reached → scan d object parts ≡ accepts_at object reached }
{}

/// A word followed by a child keyword alone isn't accepted: the parts end at an array or object of schemas.
pub fn scan_stops_at_a_child_keyword()
    ensures law { (d : Version) (value : Data) (parts : List Part) (keyword : List ℕ)
        → SpellsWord d parts
        → IsTrue (is_child_keyword d keyword) → ¬ (IsAccepted d (parts ++ Key keyword ∷ []) value) }
{}
