//! Rows of the definitions. Each function is empty: its contract states rows, and the check computes them.
#![tactic(auto, unfolding(ref_definitions::proofs::OnLiterals::world_on_literals, ref_resolver::specs::Locations::lookup_location))]

ghost use Rattle.std.specs.Prelude.{◌≡◌, [], ◌∷◌, codes, None};
ghost use Rattle.ref_paths.specs.Path.{Key};
ghost use Rattle.ref_draft.specs.declared.draft.Draft.TheVariants.{Draft202012};
ghost use Rattle.ref_definitions.specs.Rows.{at, yes, empty, text, one, two, three};
ghost use Rattle.ref_changes.specs.Changes.{NoPlace, OtherBase};
ghost use Rattle.ref_changes.specs.Rows.{move, renamed, compared, spot, leads, names, referring, below};

/// A definition that gets another key: all is kept where the reference follows; not where its text is forgotten, or where the
/// move isn't said; nor where a text is rewritten that led elsewhere.
pub fn renamed_definitions()
    ensures the_same { compared (referring (one "a" yes) "#/$defs/a" ∷ [])
        (referring (one "a" yes) "#/$defs/a" ∷ []) []
        ≡ [] }
    ensures renamed { compared (referring (one "a" yes) "#/$defs/a" ∷ [])
        (referring (one "b" yes) "#/$defs/b" ∷ []) (renamed "/$defs/a" "/$defs/b")
        ≡ [] }
    ensures a_text_forgotten { compared (referring (one "a" yes) "#/$defs/a" ∷ [])
        (referring (one "b" yes) "#/$defs/a" ∷ []) (renamed "/$defs/a" "/$defs/b")
        ≡ (0, [], leads "#/$defs/a" "#/$defs/a" (spot 0 (below "a")) None) ∷ [] }
    ensures a_place_left_out { compared (referring (one "a" yes) "#/$defs/a" ∷ [])
        (referring (one "b" yes) "#/$defs/b" ∷ []) []
        ≡ (0, [], leads "#/$defs/a" "#/$defs/b" (spot 0 (below "a")) (spot 0 (below "b")))
        ∷ (0, below "a", NoPlace) ∷ [] }
    ensures one_too_many { compared (referring (two "a" yes "c" yes) "#/$defs/c" ∷ [])
        (referring (two "b" yes "c" yes) "#/$defs/b" ∷ []) (renamed "/$defs/a" "/$defs/b")
        ≡ (0, [], leads "#/$defs/c" "#/$defs/b" (spot 0 (below "c")) (spot 0 (below "b")))
        ∷ [] }
{}

/// References that fail: another text of the same fault counts for nothing, and another fault does.
pub fn faults_are_told_apart()
    ensures the_same { compared (at Draft202012 "http://a/r" (one "$ref" (text "#/x")) ∷ [])
        (at Draft202012 "http://a/r" (one "$ref" (text "#/y")) ∷ []) []
        ≡ [] }
    ensures another { compared (at Draft202012 "http://a/r" (one "$ref" (text "#/x")) ∷ [])
        (at Draft202012 "http://a/r" (one "$ref" (text "#x")) ∷ []) []
        ≡ (0, [], leads "#/x" "#x" None None) ∷ [] }
    ensures none { compared (at Draft202012 "http://a/r" (one "$ref" (text "#/x")) ∷ [])
        (at Draft202012 "http://a/r" (one "$ref" (text "#")) ∷ []) []
        ≡ (0, [], leads "#/x" "#" None (spot 0 [])) ∷ [] }
{}

/// Documents that move: a file of its own, and one that is put into another with its identifier, also where a reference by the
/// URI of its file becomes one by its identifier.
pub fn moved_documents()
    ensures a_file { compared
        (at Draft202012 "http://a/r" (one "$ref" (text "r#")) ∷ [])
        (at Draft202012 "http://a/s" (one "$ref" (text "s#")) ∷ []) []
        ≡ [] }
    ensures bundled { compared
        (at Draft202012 "http://a/r" (one "$ref" (text "s"))
        ∷ at Draft202012 "http://a/s" (one "not" yes) ∷ [])
        (referring (one "x" (two "$id" (text "http://a/s") "not" yes)) "s" ∷ [])
        (move 1 "" 0 "/$defs/x" ∷ [])
        ≡ [] }
    ensures by_its_identifier { compared
        (at Draft202012 "http://a/r" (one "$ref" (text "f#/not"))
        ∷ at Draft202012 "http://a/f" (two "$id" (text "http://a/i") "not" yes) ∷ [])
        (referring (one "x" (two "$id" (text "http://a/i") "not" yes)) "i#/not" ∷ [])
        (move 1 "" 0 "/$defs/x" ∷ [])
        ≡ [] }
{}

/// An identifier that moves to another place changes the bases of both.
pub fn identifiers_that_move()
    ensures to_another { compared
        (at Draft202012 "http://a/r" (one "$defs" (two "a" (one "$id" (text "k")) "b" empty)) ∷ [])
        (at Draft202012 "http://a/r" (one "$defs" (two "a" empty "b" (one "$id" (text "k")))) ∷ [])
        []
        ≡ (0, below "a", OtherBase) ∷ (0, below "b", OtherBase) ∷ [] }
    ensures with_its_place { compared
        (at Draft202012 "http://a/r" (one "$defs" (two "a" (one "$id" (text "k")) "b" empty)) ∷ [])
        (at Draft202012 "http://a/r" (one "$defs" (two "a" empty "b" (one "$id" (text "k")))) ∷ [])
        (move 0 "/$defs/a" 0 "/$defs/b" ∷ move 0 "/$defs/b" 0 "/$defs/a" ∷ [])
        ≡ [] }
{}

/// A dynamic anchor that is renamed in one resource alone: from the base of the other the name means something else.
pub fn renamed_dynamic_anchors()
    ensures in_both { compared
        (at Draft202012 "http://a/r" (two "$dynamicAnchor" (text "n") "$dynamicRef" (text "#n"))
        ∷ at Draft202012 "http://a/s" (one "$dynamicAnchor" (text "n")) ∷ [])
        (at Draft202012 "http://a/r" (two "$dynamicAnchor" (text "m") "$dynamicRef" (text "#m"))
        ∷ at Draft202012 "http://a/s" (one "$dynamicAnchor" (text "m")) ∷ [])
        []
        ≡ [] }
    ensures in_one { compared
        (at Draft202012 "http://a/r" (two "$dynamicAnchor" (text "n") "$dynamicRef" (text "#n"))
        ∷ at Draft202012 "http://a/s" (one "$dynamicAnchor" (text "n")) ∷ [])
        (at Draft202012 "http://a/r" (two "$dynamicAnchor" (text "m") "$dynamicRef" (text "#m"))
        ∷ at Draft202012 "http://a/s" (one "$dynamicAnchor" (text "n")) ∷ [])
        []
        ≡ (1, [], names "#n" "#m" (spot 1 []) None) ∷ [] }
{}
