//! Rows of the definitions, as `docs/PROTOCOL.md` says. Each function is empty: its contract states rows, and the check
//! computes them.
#![tactic(auto, unfolding(crate::proofs::OnLiterals::ref_serve_on_literals))]

ghost use Rattle.std.specs.Prelude.{◌≡◌, [], ◌∷◌, true, false, codes, Some, None, Ok, Err, option_and_then};
ghost use Rattle.serde_json.specs.Data.{null, array, no_items, item};
ghost use Rattle.ref_draft.specs.Anchors.{Plain, Dynamic};
ghost use Rattle.ref_draft.specs.declared.draft.Draft.TheVariants.{Draft201909, Draft202012};
ghost use Rattle.ref_definitions.specs.Fault.{NoSuchAnchor, UnknownSpecification, not_retrieved};
ghost use Rattle.ref_findings.specs.Findings.{MissingDocument, LeadsNowhere, UnknownDialect, ListOfItems};
ghost use Rattle.std.specs.Result.{result_ok};
ghost use Rattle.serde_json.specs.Find.{get};
ghost use Rattle.ref_definitions.specs.Rows.{yes, text, whole_number, empty, one, two, three, list, pair, at};
ghost use Rattle.ref_calls.specs.Rows.{told};
ghost use Rattle.ref_serve.specs.State.{open_at, scopes_at, without_registry, with_scope, layer_number, registry_under};
ghost use Rattle.ref_serve.specs.Results.{enter_result, keeping_of, kept_object, listed_outcome, question_in, start_from};
ghost use Rattle.ref_serve.specs.Candidates.{Named, Recursive, choice_of, candidates};
ghost use Rattle.ref_calls.specs.Scopes.{own_scope};
ghost use Rattle.ref_definitions.specs.World.{local_documents};
ghost use Rattle.ref_definitions.specs.Listing.{local_places};
ghost use Rattle.ref_serve.specs.About.{hello_result, uri_result, draft_result};
ghost use Rattle.ref_serve.specs.Opening.{uri_given, number_given};
ghost use Rattle.ref_serve.specs.Listings.{identifier_member, anchor_member};
ghost use Rattle.ref_serve.specs.References.{references_of};
ghost use Rattle.ref_serve.specs.Faults.{problem_fault};
ghost use Rattle.ref_serve.specs.Comparisons.{move_of, moves_at, led_object, difference_data};
ghost use Rattle.ref_paths.specs.Path.{Key};
ghost use Rattle.ref_findings.specs.Rows.{finding_on};
ghost use Rattle.ref_findings.specs.Findings.{NotAText};
ghost use Rattle.ref_serve.specs.Mending.{is_in_parents, unmet_above, root_identifier, without_member, mended_tree, mended_each};
ghost use Rattle.ref_serve.specs.Where.{known_by, tells_same, is_told_by, first_told, at_place, placed};
ghost use Rattle.ref_serve.specs.Rows.{registry, opened, triple, from_base};

/// The registries that are open, by their numbers.
pub fn registries()
    ensures open { open_at (opened "http://a/r" empty) 0 ≡ Some (registry "http://a/r" empty) }
    ensures closed { open_at (opened "http://a/r" empty) 1 ≡ None }
    ensures never_opened { open_at (opened "http://a/r" empty) 2 ≡ None }
    ensures after_closing { without_registry (opened "http://a/r" empty) 0 ≡ None ∷ None ∷ [] }
    ensures numbers_stay { without_registry (None ∷ opened "http://a/r" empty) 1
        ≡ None ∷ None ∷ None ∷ [] }
    ensures under_its_number { registry_under (opened "http://a/r" empty)
        (one "registry" (whole_number 0)) (codes "registry")
        ≡ Ok (0, registry "http://a/r" empty) }
    ensures no_open_registry { told "name"
        (registry_under (opened "http://a/r" empty) (one "parent" (whole_number 1))
        (codes "parent"))
        ≡ Some (text "UnknownRegistry") }
    ensures field_of_no_open_registry { told "field"
        (registry_under (opened "http://a/r" empty) (one "parent" (whole_number 1))
        (codes "parent"))
        ≡ Some (text "parent") }
    ensures no_number { told "name"
        (registry_under (opened "http://a/r" empty) (one "registry" (text "0"))
        (codes "registry"))
        ≡ Some (text "InvalidField") }
    ensures missing { told "name"
        (registry_under (opened "http://a/r" empty) empty (codes "registry"))
        ≡ Some (text "MissingField") }
    ensures itself { layer_number 5 (3 ∷ 1 ∷ []) 0 ≡ 5 }
    ensures nearest_parent { layer_number 5 (3 ∷ 1 ∷ []) 1 ≡ 3 }
    ensures next_parent { layer_number 5 (3 ∷ 1 ∷ []) 2 ≡ 1 }
{}

/// The base inside of a schema.
pub fn entered()
    ensures identifier { option_and_then (get (codes "base"))
        (result_ok
        (enter_result (opened "http://a/r" empty)
        (three "base" (text "http://a/r") "registry" (whole_number 0) "schema"
        (one "$id" (text "s")))))
        ≡ Some (text "http://a/s") }
    ensures no_identifier { option_and_then (get (codes "base"))
        (result_ok
        (enter_result (opened "http://a/r" empty)
        (three "base" (text "http://a/r") "registry" (whole_number 0) "schema" empty)))
        ≡ Some (text "http://a/r") }
    ensures no_schema { told "field"
        (enter_result (opened "http://a/r" empty)
        (two "base" (text "http://a/r") "registry" (whole_number 0)))
        ≡ Some (text "schema") }
{}

/// An item of a list of references, and of the answer to it.
pub fn items()
    ensures error { listed_outcome (Err empty) ≡ one "error" empty }
    ensures result { listed_outcome (Ok empty) ≡ empty }
    ensures text { question_in (from_base "http://a/b") 0 (text "#c")
        ≡ Ok (from_base "http://a/b", codes "#c") }
    ensures three { question_in (from_base "http://a/b") 0
        (triple (text "http://d/") (array no_items) (text "#c"))
        ≡ Ok (from_base "http://d/", codes "#c") }
    ensures scope { question_in (from_base "http://a/b") 0
        (triple (text "http://d/") (list (text "http://e/")) (text "#c"))
        ≡ Ok (
          start_from (from_base "http://a/b").asked (codes "http://d/")
              (own_scope (codes "http://e/" ∷ [])),
          codes "#c",
        ) }
    ensures kept_scope { question_in (from_base "http://a/b") 0
        (triple (text "http://d/") (whole_number 0) (text "#c"))
        ≡ Ok (
          start_from (from_base "http://a/b").asked (codes "http://d/")
              (record { uris = codes "http://e/" ∷ []; kept = Some (0, codes "http://e/" ∷ []) }),
          codes "#c",
        ) }
    ensures two_alone { told "field"
        (question_in (from_base "http://a/b") 0 (pair (text "http://d/") (text "#c")))
        ≡ Some (text "reference") }
    ensures index { told "index" (question_in (from_base "http://a/b") 4 empty)
        ≡ Some (whole_number 4) }
    ensures no_base { told "field"
        (question_in (from_base "http://a/b") 0
        (triple (text "d e") (array no_items) (text "#c")))
        ≡ Some (text "base") }
{}

/// The scopes that are kept for registries.
pub fn scopes()
    ensures one { scopes_at (with_scope (opened "http://a/r" empty) 0 (codes "u:a" ∷ [])) 0
        ≡ (codes "u:a" ∷ []) ∷ [] }
    ensures next { scopes_at (with_scope (with_scope (opened "http://a/r" empty) 0 []) 0
        (codes "u:a" ∷ [])) 0
        ≡ [] ∷ (codes "u:a" ∷ []) ∷ [] }
    ensures of_a_closed_registry { with_scope (opened "http://a/r" empty) 1 (codes "u:a" ∷ [])
        ≡ opened "http://a/r" empty }
    ensures registry_stays { open_at (with_scope (opened "http://a/r" empty) 0 []) 0
        ≡ Some (registry "http://a/r" empty) }
    ensures asked { keeping_of (opened "http://a/r" empty)
        (two "registry" (whole_number 0) "scope" (list (text "u:a")))
        ≡ Ok (0, codes "u:a" ∷ []) }
    ensures behind_another { keeping_of (with_scope (opened "http://a/r" empty) 0 (codes "u:a" ∷ []))
        (two "registry" (whole_number 0) "scope" (pair (text "u:b") (whole_number 0)))
        ≡ Ok (0, codes "u:b" ∷ codes "u:a" ∷ []) }
    ensures not_kept { told "name"
        (keeping_of (opened "http://a/r" empty)
        (two "registry" (whole_number 0) "scope" (whole_number 0)))
        ≡ Some (text "UnknownScope") }
    ensures no_scope { told "field"
        (keeping_of (opened "http://a/r" empty) (one "registry" (whole_number 0)))
        ≡ Some (text "scope") }
    ensures answered { kept_object 3 ≡ one "scope" (whole_number 3) }
{}

/// Where dynamic references may lead.
pub fn chosen()
    ensures dynamic { choice_of (codes "$dynamicRef") (codes "u:a#n") Draft202012
        (one "$dynamicAnchor" (text "n"))
        ≡ Some (Named (codes "n")) }
    ensures plain { choice_of (codes "$dynamicRef") (codes "#n") Draft202012 (one "$anchor" (text "n"))
        ≡ None }
    ensures another_name { choice_of (codes "$dynamicRef") (codes "#n") Draft202012
        (two "$anchor" (text "n") "$dynamicAnchor" (text "m"))
        ≡ None }
    ensures pointer { choice_of (codes "$dynamicRef") (codes "#/n") Draft202012
        (one "$dynamicAnchor" (text "/n"))
        ≡ None }
    ensures other_keyword { choice_of (codes "$ref") (codes "#n") Draft202012
        (one "$dynamicAnchor" (text "n"))
        ≡ None }
    ensures recursive { choice_of (codes "$recursiveRef") (codes "#") Draft201909
        (one "$recursiveAnchor" yes)
        ≡ Some Recursive }
    ensures not_marked { choice_of (codes "$recursiveRef") (codes "#") Draft201909 empty ≡ None }
    ensures candidate { candidates (Named (codes "n"))
        (local_places (local_documents (registry "u:a" (one "$dynamicAnchor" (text "n"))).0))
        ≡ two "document" (whole_number 0) "pointer" (text "") ∷ [] }
    ensures no_candidate { candidates (Named (codes "m"))
        (local_places (local_documents (registry "u:a" (one "$dynamicAnchor" (text "n"))).0))
        ≡ [] }
    ensures root { candidates Recursive
        (local_places (local_documents (registry "u:a" (one "$recursiveAnchor" yes)).0))
        ≡ two "document" (whole_number 0) "pointer" (text "") ∷ [] }
    ensures below_a_root { candidates Recursive
        (local_places
        (local_documents (registry "u:a" (one "not" (one "$recursiveAnchor" yes))).0))
        ≡ [] }
{}

/// Calls that ask no registry.
pub fn about()
    ensures program { get (codes "program") hello_result ≡ Some (text "patchsard") }
    ensures protocol { get (codes "protocol") hello_result ≡ Some (whole_number 1) }
    ensures against_a_base { uri_result
        (two "base" (text "http://a/b/c") "reference" (text "../d%7E#x"))
        ≡ Ok (one "uri" (text "http://a/d~#x")) }
    ensures alone { uri_result (one "reference" (text "a"))
        ≡ Ok (one "uri" (text "json-schema:///a")) }
    ensures no_uri { told "name" (uri_result (one "reference" (text "a b")))
        ≡ Some (text "InvalidUri") }
    ensures field_of_no_uri { told "field" (uri_result (one "reference" (text "a b")))
        ≡ Some (text "reference") }
    ensures field_of_no_base { told "field"
        (uri_result (two "base" (text "a b") "reference" (text "c"))) ≡ Some (text "base") }
    ensures of_its_schema { draft_result
        (one "schema" (one "$schema" (text "http://json-schema.org/draft-07/schema#")))
        ≡ Ok (one "draft" (text "7")) }
    ensures of_the_call { draft_result (two "draft" (text "4") "schema" empty)
        ≡ Ok (one "draft" (text "4")) }
    ensures unknown { draft_result (one "schema" (one "$schema" (text "http://a/m")))
        ≡ Ok (one "draft" (text "unknown")) }
{}

/// The documents that `open` is given, and the places and references in them.
pub fn documents()
    ensures its_number { number_given (registry "http://a/r" empty).0
        (uri_given (codes "HTTP://a/r#")) ≡ whole_number 0 }
    ensures no_number { number_given (registry "http://a/r" empty).0 (uri_given (codes "http://a/s"))
        ≡ null }
    ensures no_uri { uri_given (codes "a b") ≡ None }
    ensures last_number { number_given
        ((at Draft202012 "http://a/r" empty ∷ at Draft202012 "http://a/s" empty ∷ []) ∷ [])
        (uri_given (codes "http://a/s")) ≡ whole_number 1 }
    ensures identifier { identifier_member (Some (codes "s")) ≡ (codes "identifier", text "s") ∷ [] }
    ensures anchor { anchor_member (codes "n", Plain) ≡ (codes "anchor", text "n") }
    ensures dynamic_anchor { anchor_member (codes "n", Dynamic) ≡ (codes "dynamicAnchor", text "n") }
    ensures reference { references_of (registry "http://a/r" (one "$ref" (text "#x"))).0 None
        ≡ record {
          document = 0;
          path = [];
          base = codes "http://a/r";
          keyword = codes "$ref";
          text = codes "#x";
        } ∷ [] }
    ensures another_document { references_of (registry "http://a/r" (one "$ref" (text "#x"))).0
        (Some 1) ≡ [] }
    ensures dynamic_reference { references_of
        (registry "http://a/r" (one "$dynamicRef" (text "#x"))).0 (Some 0)
        ≡ record {
          document = 0;
          path = [];
          base = codes "http://a/r";
          keyword = codes "$dynamicRef";
          text = codes "#x";
        } ∷ [] }
    ensures no_reference { references_of (registry "http://a/r" (one "$ref" empty)).0 None ≡ [] }
{}

/// What has a fault, and what hasn't.
pub fn faulty()
    ensures missing { problem_fault (MissingDocument (codes "http://a/b"))
        ≡ Some (not_retrieved (codes "http://a/b")) }
    ensures dialect { problem_fault (UnknownDialect (codes "http://a/m"))
        ≡ Some (UnknownSpecification (codes "http://a/m")) }
    ensures nowhere { problem_fault (LeadsNowhere (codes "http://a/b") (NoSuchAnchor (codes "x")))
        ≡ Some (NoSuchAnchor (codes "x")) }
    ensures note { problem_fault ListOfItems ≡ None }
{}

/// Where errors of `open` are.
pub fn places_of_errors()
    ensures by_its_uri { known_by (two "message" (text "x") "uri" (text "u:a")) ≡ codes "uri" }
    ensures by_its_message { known_by (one "message" (text "x")) ≡ codes "message" }
    ensures same_uri { tells_same (one "uri" (text "u:a"))
        (two "message" (text "x") "uri" (text "u:a"))
        ≡ true }
    ensures another_uri { tells_same (two "message" (text "x") "uri" (text "u:a"))
        (two "message" (text "x") "uri" (text "u:b"))
        ≡ false }
    ensures same_message { tells_same (one "message" (text "x")) (one "message" (text "x")) ≡ true }
    ensures nothing_told { tells_same empty empty ≡ false }
    ensures no_error { is_told_by (one "uri" (text "u:a")) (one "uri" (text "u:a")) ≡ false }
    ensures the_first { first_told (one "uri" (text "u:b"))
        (item (two "document" (whole_number 0) "error" (one "uri" (text "u:a")))
        (item (two "document" (whole_number 1) "error" (one "uri" (text "u:b")))
        (item (two "document" (whole_number 2) "error" (one "uri" (text "u:b"))) no_items)))
        ≡ Some (two "document" (whole_number 1) "error" (one "uri" (text "u:b"))) }
    ensures its_place { at_place (one "uri" (text "u:b"))
        (three "document" (whole_number 1) "error" (one "uri" (text "u:b")) "pointer" (text "/a"))
        ≡ three "document" (whole_number 1) "pointer" (text "/a") "uri" (text "u:b") }
    ensures of_a_member { placed empty (two "field" (text "limit") "uri" (text "u:a"))
        ≡ two "field" (text "limit") "uri" (text "u:a") }
{}

/// What moves, and where a text leads, as `compare` takes and tells it.
pub fn comparisons()
    ensures a_move { move_of
        (array (item (array (item (whole_number 0) (item (text "/a") no_items)))
        (item (array (item (whole_number 1) (item (text "") no_items))) no_items)))
        ≡ Some (record {
          from = record { document = 0; pointer = codes "/a" };
          to = record { document = 1; pointer = [] };
        }) }
    ensures one_address { move_of
        (array (item (array (item (whole_number 0) (item (text "/a") no_items))) no_items))
        ≡ None }
    ensures a_third_item { move_of
        (array (item (array (item (whole_number 0) (item (text "/a") (item null no_items))))
        (item (array (item (whole_number 1) (item (text "") no_items))) no_items)))
        ≡ None }
    ensures no_number { move_of
        (array (item (array (item (text "/a") (item (whole_number 0) no_items)))
        (item (array (item (whole_number 1) (item (text "") no_items))) no_items)))
        ≡ None }
    ensures nothing_moves { moves_at None ≡ Ok [] }
    ensures no_list { told "field" (moves_at (Some empty)) ≡ Some (text "moves") }
    ensures no_move { told "index" (moves_at (Some (array (item null no_items))))
        ≡ Some (whole_number 0) }
    ensures leads_nowhere { led_object (7, registry "http://a/r" empty) (codes "#a") None
        ≡ one "reference" (text "#a") }
    ensures nothing_differs { difference_data (0, registry "http://a/r" empty)
        (0, registry "http://a/r" empty) None
        ≡ null }
{}

/// What is prepared where faults are kept.
pub fn mended()
    ensures in_a_parent { is_in_parents ((at Draft202012 "http://a/p" empty ∷ []) ∷ [])
        (finding_on 0 [] "$ref" "p" (MissingDocument (codes "http://a/p")))
        ≡ true }
    ensures nowhere { is_in_parents [] (finding_on 0 [] "$ref" "p" (MissingDocument (codes "u:p")))
        ≡ false }
    ensures those_of_parents { unmet_above ((at Draft202012 "http://a/p" empty ∷ []) ∷ [])
        (finding_on 0 [] "$ref" "p" (MissingDocument (codes "http://a/p"))
        ∷ finding_on 0 [] "$ref" "q" (MissingDocument (codes "http://a/q"))
        ∷ [])
        ≡ finding_on 0 [] "$ref" "q" (MissingDocument (codes "http://a/q")) ∷ [] }
    ensures of_the_root { root_identifier (finding_on 0 [] "$id" "a b" NotAText ∷ [])
        ≡ Some (codes "$id") }
    ensures of_another_schema { root_identifier
        (finding_on 0 (Key (codes "not") ∷ []) "$id" "a b" NotAText ∷ [])
        ≡ None }
    ensures no_identifier { root_identifier (finding_on 0 [] "$ref" "a b" NotAText ∷ []) ≡ None }
    ensures left_out { without_member (codes "$id") (two "$id" (text "a b") "not" yes)
        ≡ one "not" yes }
    ensures nothing_left_out { without_member (codes "id") (one "$id" (text "a b"))
        ≡ one "$id" (text "a b") }
    ensures an_identifier { mended_tree (finding_on 0 [] "$id" "a b" NotAText ∷ [])
        (two "$id" (text "a b") "not" (one "$id" (text "a b")))
        ≡ one "not" (one "$id" (text "a b")) }
    ensures a_reference { mended_tree (finding_on 0 [] "$ref" "a b" NotAText ∷ [])
        (two "$id" (text "u:a") "$ref" (text "a b"))
        ≡ two "$id" (text "u:a") "$ref" null }
    ensures each_document { mended_each ((codes "u:a", one "$ref" (text "b")) ∷ (codes "u:c", yes) ∷ [])
        ((finding_on 0 [] "$ref" "b" NotAText ∷ []) ∷ [] ∷ [])
        ≡ (codes "u:a", one "$ref" null) ∷ (codes "u:c", yes) ∷ [] }
{}
