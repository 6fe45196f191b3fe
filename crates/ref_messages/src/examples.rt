//! Rows of the definitions. The function is empty: its contract states rows, and the check computes them.
ghost use Rattle.std.specs.Prelude.{◌≡◌, codes, [], ◌∷◌};
ghost use Rattle.ref_paths.specs.Path.{Key, Index};
ghost use Rattle.ref_messages.specs.Components.{parts_of_component};

/// How many parts of a path lead to a component.
pub fn components()
    ensures by_kind_and_name { parts_of_component
        (Key (codes "components") ∷ Key (codes "schemas") ∷ Key (codes "Pet") ∷ Key (codes "items") ∷ [])
        ≡ 3 }
    ensures a_kind_alone { parts_of_component
        (Key (codes "components") ∷ Key (codes "schemas") ∷ []) ≡ 0 }
    ensures a_definition { parts_of_component
        (Key (codes "definitions") ∷ Key (codes "Pet") ∷ []) ≡ 2 }
    ensures below_one { parts_of_component
        (Key (codes "$defs") ∷ Key (codes "Pet") ∷ Key (codes "items") ∷ []) ≡ 2 }
    ensures a_parameter { parts_of_component
        (Key (codes "parameters") ∷ Key (codes "page") ∷ []) ≡ 2 }
    ensures a_response { parts_of_component
        (Key (codes "responses") ∷ Key (codes "gone") ∷ []) ≡ 2 }
    ensures no_name { parts_of_component (Key (codes "$defs") ∷ []) ≡ 0 }
    ensures elsewhere { parts_of_component (Key (codes "paths") ∷ Key (codes "/pets") ∷ []) ≡ 0 }
    ensures in_a_list { parts_of_component (Index 0 ∷ Key (codes "$defs") ∷ []) ≡ 0 }
    ensures the_root { parts_of_component [] ≡ 0 }
{}
