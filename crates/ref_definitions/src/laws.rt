//! Laws of the definitions. Each function is empty: its contract states the law, and the check proves it.
ghost use Rattle.std.specs.Prelude.{◌≡◌, ◌≤◌, ℕ, List, [], ◌∷◌, ◌++◌, drop, map, Some, None, Result, Ok, Err, IsTrue, IsFalse};
ghost use Rattle.std.specs.List.{AllByRecursion, AllPairs, Contains};
ghost use Rattle.std.specs.Option.{option_or};
ghost use Rattle.std.specs.Str.{is_utf8};
ghost use Rattle.percent_encoding.specs.Percent.{percent_decode};
ghost use Rattle.serde_json.specs.Data.{Data, depth};
ghost use Rattle.ref_paths.specs.Path.{Part, value_at};
ghost use Rattle.ref_parts.specs.Pointer.{tokens};
ghost use Rattle.ref_draft.specs.declared.draft.Draft.{Draft};
ghost use Rattle.ref_draft.specs.UniqueKeys.{HasUniqueKeys};
ghost use Rattle.ref_definitions.specs.World.{Document, Layer, World};
ghost use Rattle.ref_definitions.specs.Places.{Place, root, children_of, levels_below, places};
ghost use Rattle.ref_definitions.specs.Moving.{below_path};
ghost use Rattle.ref_definitions.specs.Descent.{AreChildren};
ghost use Rattle.ref_definitions.specs.Bases.{Along};
ghost use Rattle.ref_definitions.specs.Changes.{IsBaseAlong, LeadsAlong};
ghost use Rattle.ref_definitions.specs.Pointers.{pointed_value};
ghost use Rattle.ref_definitions.specs.Reading.{IsReadAs, IsFaultAlong};
ghost use Rattle.ref_definitions.specs.Fault.{Fault, InvalidPercentEncoding};
ghost use Rattle.ref_definitions.specs.Resources.{resources, last_under, meant_place};
ghost use Rattle.ref_definitions.specs.Anchors.{Named, last_named, named_entry, names};
ghost use Rattle.ref_definitions.specs.Closure.{OutcomesOfRetrieval};
ghost use Rattle.ref_definitions.specs.Pending.{Addition, Pending, with_additions};
ghost use Rattle.ref_definitions.specs.References.{ReferencesAreRetrieved};
ghost use Rattle.ref_definitions.specs.Retrievers.{GivesOneOutcome, default_retriever, function_retriever, map_retriever};
ghost use Rattle.ref_definitions.specs.Wants.{faults};
ghost use Rattle.ref_definitions.specs.Agreement.{ChildrenAreThere, IsAtOrBelow, WalksAgree};
ghost use Rattle.ref_definitions.specs.Lookup.{Resolver, Found, lookup};
ghost use Rattle.ref_definitions.specs.Recursive.{lookup_recursive};
ghost use Rattle.ref_definitions.specs.Parts.{IsPartOf, AllChildrenAreThere, AllHaveUniqueKeys};
ghost use Rattle.ref_definitions.specs.Appending.{MeaningsStay, MeaningsStayBelow, MetWantsStay, OpenWantsAfter};

/// Pending documents are under URIs that differ, whatever was added.
pub fn pending_documents_differ()
    ensures law { (additions : List Addition) (ps : List Pending)
        → with_additions [] additions ≡ Ok ps
        → AllPairs (λ u v. ¬ (u ≡ v)) (map (λ p. p.uri) ps) }
{}

/// The levels of a document end at the depth of its tree: however many more are joined, they are its places.
pub fn levels_end_at_the_depth()
    ensures law { (d : Document) (n : ℕ) → depth d.tree ≤ n
        → root d ∷ levels_below n (root d ∷ []) ≡ places d }
{}

/// Where each object of a document has each key once, each place of it has its value at its path, the paths of places differ,
/// and each child of a place is at its path there. Where the children do, so do the places.
pub fn places_are_at_their_paths()
    ensures values { (d : Document) → HasUniqueKeys d.tree
        → AllByRecursion (λ p. value_at d.tree p.path ≡ Some p.value) (places d) }
    ensures children { (d : Document) → HasUniqueKeys d.tree → ChildrenAreThere d }
    ensures are_at_paths { (d : Document) → ChildrenAreThere d
        → AllByRecursion (λ p. value_at d.tree p.path ≡ Some p.value) (places d) }
    ensures paths { (d : Document) → HasUniqueKeys d.tree
        → AllPairs (λ p q. ¬ (p ≡ q)) (map (λ p. p.path) (places d)) }
{}

/// Each place of a document but its root is a child of one that is before it.
pub fn places_descend_from_the_root()
    ensures law { (d : Document) → AreChildren (root d ∷ []) (drop 1 (places d)) }
{}

/// The places below a place whose children are those of another, with a path before theirs, are those below the other,
/// with that path in front.
pub fn places_move_with_their_tree()
    ensures law { (n : ℕ) (front : List Part) (e r : Place)
        → children_of e ≡ map (below_path front) (children_of r)
        → levels_below n (e ∷ []) ≡ map (below_path front) (levels_below n (r ∷ [])) }
{}

/// Of entries to which more are added at the end, the last under a URI, and the last under a URI and a name, is the last of
/// those that were added, or else the last of those that were there.
pub fn later_entries_count()
    ensures under_a_uri { (uri : List ℕ) (entries more : List (List ℕ × Place))
        → last_under uri (entries ++ more)
        ≡ option_or (last_under uri more) (last_under uri entries) }
    ensures under_a_name { (uri name : List ℕ) (entries more : List Named)
        → last_named uri name (entries ++ more)
        ≡ option_or (last_named uri name more) (last_named uri name entries) }
{}

/// What follows a pointer's first `/` is percent-decoded, and is a fault where it's no UTF-8. The pointer succeeds just
/// where its tokens are read as a path at which a value is, and along which there is a base: the answer is this
/// value with this base, that of the last change along the path. There is one such path, and one base along it.
/// Otherwise the fault is that of the first faulty token, or of the first identifier that counts along the path and
/// doesn't resolve.
pub fn pointers_lead_along_paths()
    ensures one_base { (draft : Draft) (start : List ℕ) (value : Data) (path : List Part)
        (along other : Along)
        → IsBaseAlong draft start value path along → IsBaseAlong draft start value path other
        → along ≡ other }
    ensures one_path { (value : Data) (list : List (List ℕ)) (path other : List Part)
        → IsReadAs value list path → IsReadAs value list other → path ≡ other }
    ensures law { (draft : Draft) (pointer start text : List ℕ) (value found : Data) (along : Along)
        → pointed_value draft pointer start value text ≡ Ok (found, along)
        → LeadsAlong draft start value found along }
    ensures path { (draft : Draft) (pointer start text : List ℕ) (value found : Data)
        (along : Along)
        → pointed_value draft pointer start value text ≡ Ok (found, along)
        → (path : List Part) × IsReadAs value (tokens (percent_decode text)) path
        × (value_at value path ≡ Some found) × IsBaseAlong draft start value path along }
    ensures only { (draft : Draft) (pointer start text : List ℕ) (value found : Data)
        (path : List Part) (along : Along)
        → IsTrue (is_utf8 (percent_decode text))
        → IsReadAs value (tokens (percent_decode text)) path → value_at value path ≡ Some found
        → IsBaseAlong draft start value path along
        → pointed_value draft pointer start value text ≡ Ok (found, along) }
    ensures no_text { (draft : Draft) (pointer start text : List ℕ) (value : Data)
        → IsFalse (is_utf8 (percent_decode text))
        → pointed_value draft pointer start value text ≡ Err (InvalidPercentEncoding pointer) }
    ensures fault { (draft : Draft) (pointer start text : List ℕ) (value : Data) (fault : Fault)
        → IsTrue (is_utf8 (percent_decode text))
        → pointed_value draft pointer start value text ≡ Err fault
        → IsFaultAlong draft pointer start value (tokens (percent_decode text)) fault }
    ensures fault_only { (draft : Draft) (pointer start text : List ℕ) (value : Data)
        (fault : Fault)
        → IsTrue (is_utf8 (percent_decode text))
        → IsFaultAlong draft pointer start value (tokens (percent_decode text)) fault
        → pointed_value draft pointer start value text ≡ Err fault }
{}

/// The nearest layer decides what a URI means, and what a name under it does: an entry there is the answer, and without one
/// the parents' layers decide.
pub fn nearest_layer_decides()
    ensures near { (layer : Layer) (parents : World) (uri found : List ℕ) (place : Place)
        → last_under uri (resources layer) ≡ Some (found, place)
        → meant_place (layer ∷ parents) uri ≡ Some place }
    ensures far { (layer : Layer) (parents : World) (uri : List ℕ)
        → last_under uri (resources layer) ≡ None
        → meant_place (layer ∷ parents) uri ≡ meant_place parents uri }
    ensures near_name { (layer : Layer) (parents : World) (uri name : List ℕ) (entry : Named)
        → last_named uri name (names layer) ≡ Some entry
        → named_entry (layer ∷ parents) uri name ≡ Some entry }
    ensures far_name { (layer : Layer) (parents : World) (uri name : List ℕ)
        → last_named uri name (names layer) ≡ None
        → named_entry (layer ∷ parents) uri name ≡ named_entry parents uri name }
{}

/// Documents that are appended to a layer leave each want met that was met, and so does a parent: a URI that means a place
/// still means one, perhaps another. So the wants that are open afterwards are some of those that were open before, in their
/// order, and after them those of the documents that were appended.
pub fn appended_documents_leave_wants_met()
    ensures meanings { MeaningsStay }
    ensures below { MeaningsStayBelow }
    ensures wants { MetWantsStay }
    ensures open_wants { OpenWantsAfter }
{}

/// What comes of documents and a retriever, whatever it returns: each retrieved document was wanted by one before it, under a
/// URI that meant no place, so that their URIs differ; there are no more than the limit, and just as many where the limit is
/// the answer; a layer that is ready has no fault and no open want. Documents without a fault and an open want are the one
/// outcome, and so is the first fault of documents that have one.
pub fn outcomes_of_retrieval()
    ensures law { OutcomesOfRetrieval }
{}

/// Where it is known for each URI what the retriever returns, or with which text it refuses, preparing has one outcome
/// at most. An outcome speaks of URIs, trees and drafts, and not of who owns a document: so documents that are alike,
/// borrowed, shared or owned, give registries whose calls return the same.
pub fn known_answers_have_one_outcome()
    ensures of_a_function { (answers : List ℕ → Result Data (List ℕ))
        → GivesOneOutcome (function_retriever answers) }
    ensures of_a_map { (pairs : List (List ℕ × Data)) → GivesOneOutcome (map_retriever pairs) }
    ensures of_the_default { GivesOneOutcome default_retriever }
{}

/// Where no want is open, a reference at a place of the layer never leads to a URI that is not present.
pub fn references_are_retrieved()
    ensures law { ReferencesAreRetrieved }
{}

/// From a resource that has its URI for itself and one draft throughout, and before 2020-12 no map of subschemas that holds a
/// text under the identifier's keyword, the pointer of a path leads to each place at or below the resource as the keywords of
/// subschemas do: to the same value, of the same draft, with the same base. The children of places are to be at their paths,
/// as `places_are_at_their_paths` says.
pub fn walks_agree()
    ensures law { WalksAgree }
{}

/// What a look-up finds is a part of a document: it is at a path of the tree of one of the world's. The children of places are
/// to be at their paths, as they are where each object of each document has each key once.
pub fn lookups_find_parts_of_documents()
    ensures law { (world : World) (resolver : Resolver) (reference : List ℕ) (found : Found)
        → AllChildrenAreThere world → lookup world resolver reference ≡ Ok found
        → IsPartOf world found.value }
    ensures recursive { (world : World) (resolver : Resolver) (found : Found)
        → AllChildrenAreThere world → lookup_recursive world resolver ≡ Ok found
        → IsPartOf world found.value }
    ensures children { (world : World) → AllHaveUniqueKeys world → AllChildrenAreThere world }
{}

/// The places at or below a place of a document are those places of it whose paths go on from its path; this needs each object
/// to have each key once. In a layer without a fault each of them has a base.
pub fn places_below_go_on_by_their_paths()
    ensures places { (d : Document) (p q : Place) → Contains (places d) p → IsAtOrBelow q p
        → Contains (places d) q }
    ensures paths { (p q : Place) → IsAtOrBelow q p
        → (path : List Part) × (q.path ≡ p.path ++ path) }
    ensures below { (d : Document) (p q : Place) (path : List Part) → HasUniqueKeys d.tree
        → Contains (places d) p → Contains (places d) q
        → q.path ≡ p.path ++ path → IsAtOrBelow q p }
    ensures bases { (layer : Layer) (d : Document) (p : Place) → faults layer ≡ []
        → Contains layer d → Contains (places d) p
        → (base : List ℕ) × (p.base ≡ Ok base) }
{}
