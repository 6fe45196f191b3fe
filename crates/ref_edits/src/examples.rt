//! Rows of the definitions. Each function is empty: its contract states rows, and the check computes them.
ghost use Rattle.std.specs.Prelude.{◌≡◌, ◌∷◌, [], codes, Some, None, true, false};
ghost use Rattle.serde_json.specs.Data.{null, no_members, member};
ghost use Rattle.ref_edits.specs.Changed.{below_key, count, keys_with};
ghost use Rattle.ref_edits.specs.Tokens.{depth_of, token_for, is_within};
ghost use Rattle.ref_edits.specs.Names.{is_component_name, is_anchor_name, names_definitions};

/// Tokens of fragments, row by row.
pub fn tokens()
    ensures depth { depth_of (codes "/$defs/a~1b") ≡ 2 }
    ensures root { depth_of [] ≡ 0 }
    ensures last { token_for 2 2 2 ≡ Some 1 }
    ensures on_the_way { token_for 2 4 4 ≡ Some 1 }
    ensures from_an_inner_resource { token_for 3 4 2 ≡ Some 0 }
    ensures from_the_value { token_for 2 4 2 ≡ None }
    ensures of_another { token_for 2 3 1 ≡ None }
    ensures same { is_within (codes "/a/b") (codes "/a/b") ≡ true }
    ensures within { is_within (codes "/a/b/c") (codes "/a/b") ≡ true }
    ensures longer_key { is_within (codes "/a/bc") (codes "/a/b") ≡ false }
    ensures outer { is_within (codes "/a") (codes "/a/b") ≡ false }
{}

/// Names of components, anchors and groups of definitions.
pub fn names()
    ensures component { is_component_name (codes "My.Pet-2_x") ≡ true }
    ensures component_with_a_blank { is_component_name (codes "My Pet") ≡ false }
    ensures no_component { is_component_name [] ≡ false }
    ensures anchor { is_anchor_name (codes "_a-1.b") ≡ true }
    ensures anchor_that_begins_with_a_digit { is_anchor_name (codes "1a") ≡ false }
    ensures no_anchor { is_anchor_name [] ≡ false }
    ensures definitions { names_definitions (codes "definitions") ≡ true }
    ensures properties { names_definitions (codes "properties") ≡ false }
{}

/// Pointers of members, and the new keys of an object.
pub fn trees()
    ensures member { below_key (codes "/a") (codes "b/c") ≡ codes "/a/b~1c" }
    ensures none { count no_members ≡ 0 }
    ensures two { count (member (codes "a") null (member (codes "b") null no_members)) ≡ 2 }
    ensures kept { keys_with (codes "a" ∷ []) None ≡ codes "a" ∷ [] }
    ensures new { keys_with (codes "a" ∷ []) (Some (codes "b")) ≡ codes "a" ∷ codes "b" ∷ [] }
{}
