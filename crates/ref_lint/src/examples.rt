//! Rows of the definitions. Each function is empty: its contract states rows, and the check computes them.
#![tactic(auto, unfolding(ref_definitions::proofs::OnLiterals::world_on_literals))]

ghost use Rattle.std.specs.Prelude.{◌≡◌, [], ◌∷◌, codes, Some, Err};
ghost use Rattle.ref_paths.specs.Path.{Key, Index};
ghost use Rattle.ref_draft.specs.declared.draft.Draft.TheVariants.{Draft7, Draft202012};
ghost use Rattle.ref_uri.specs.Targets.{parse_refusal};
ghost use Rattle.ref_definitions.specs.Fault.{PointerToNowhere, NoSuchAnchor};
ghost use Rattle.ref_definitions.specs.Rows.{at, world, yes, text, whole_number, one, two, list, pair};
ghost use Rattle.ref_lint.specs.Dangling.{dangling, dangling_from};
ghost use Rattle.ref_lint.specs.Rows.{reference};

/// References of one document.
pub fn references_of_one_document()
    ensures by_pointer { dangling
        (world (at Draft202012 "http://a/r" (one "$ref" (text "#/x")) ∷ []))
        ≡ reference 0 [] "#/x" (PointerToNowhere (codes "/x")) ∷ [] }
    ensures by_anchor { dangling
        (world
        (at Draft202012 "http://a/r"
        (one "properties" (one "a/b" (one "$ref" (text "#nope"))))
        ∷ []))
        ≡ reference 0 (Key (codes "properties") ∷ Key (codes "a/b") ∷ []) "#nope"
        (NoSuchAnchor (codes "nope"))
        ∷ [] }
    ensures found_by_anchor { dangling
        (world
        (at Draft7 "http://a/r"
        (two "allOf" (list (one "$ref" (text "#f"))) "definitions"
        (one "p" (one "$id" (text "#f"))))
        ∷ []))
        ≡ [] }
    ensures children_in_order { dangling
        (world
        (at Draft202012 "http://a/r"
        (one "allOf" (pair (one "$ref" (text "#p")) (one "$ref" (text "#q"))))
        ∷ []))
        ≡ reference 0 (Key (codes "allOf") ∷ Index 0 ∷ []) "#p" (NoSuchAnchor (codes "p"))
        ∷ reference 0 (Key (codes "allOf") ∷ Index 1 ∷ []) "#q" (NoSuchAnchor (codes "q"))
        ∷ [] }
    ensures under_const { dangling
        (world (at Draft202012 "http://a/r" (one "const" (one "$ref" (text "#/x"))) ∷ []))
        ≡ [] }
    ensures beside_a_dynamic_one { dangling
        (world
        (at Draft202012 "http://a/r" (two "$dynamicRef" (text "#no") "$ref" (text "#/x"))
        ∷ []))
        ≡ reference 0 [] "#/x" (PointerToNowhere (codes "/x")) ∷ [] }
    ensures no_text { dangling
        (world (at Draft202012 "http://a/r" (one "$ref" (whole_number 1)) ∷ []))
        ≡ [] }
    ensures from_its_own_base { dangling
        (world
        (at Draft202012 "http://a/r"
        (two "$defs"
        (one "a" (two "$id" (text "k/") "$ref" (text "#/not"))) "not" yes)
        ∷ []))
        ≡ reference 0 (Key (codes "$defs") ∷ Key (codes "a") ∷ []) "#/not"
        (PointerToNowhere (codes "/not"))
        ∷ [] }
    ensures without_a_base { dangling_from [] 0 [] (Err (parse_refusal (codes "a b")))
        (Some (codes "#"))
        ≡ [] }
{}

/// References among documents, and of a parent.
pub fn references_of_documents()
    ensures numbered { dangling
        (world
        (at Draft202012 "http://a/r" (one "$ref" (text "b#/z"))
        ∷ at Draft202012 "http://a/b" (one "$ref" (text "#/y")) ∷ []))
        ≡ reference 0 [] "b#/z" (PointerToNowhere (codes "/z"))
        ∷ reference 1 [] "#/y" (PointerToNowhere (codes "/y")) ∷ [] }
    ensures under_a_later_document { dangling
        (world
        (at Draft202012 "http://a/r" (one "not" (two "$id" (text "s") "$ref" (text "#/y")))
        ∷ at Draft202012 "http://a/s" (one "y" yes) ∷ []))
        ≡ [] }
    ensures of_a_parent { dangling
        ((at Draft202012 "http://a/r" (one "$ref" (text "p#/y")) ∷ [])
        ∷ (at Draft202012 "http://a/p" (one "$ref" (text "#/x")) ∷ []) ∷ [])
        ≡ reference 0 [] "p#/y" (PointerToNowhere (codes "/y")) ∷ [] }
{}
