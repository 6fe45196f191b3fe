//! Rows of the definitions. Each function is empty: its contract states rows, and the check computes them.
#![tactic(auto, unfolding(crate::proofs::OnLiterals::ref_json_on_literals))]

ghost use Rattle.std.specs.Prelude.{◌≡◌, ℕ, [], ◌∷◌, ◌++◌, true, codes, Some, None, Ok, Err};
ghost use Rattle.serde_json.specs.Data.{null, boolean, number, unsigned, string, array, object, no_items, item, no_members, member};
ghost use Rattle.ref_json.specs.declared.stop.Stop.TheVariants.{Memory, Because};
ghost use Rattle.ref_json.specs.Text.{tree_of, IsNotJson};
ghost use Rattle.ref_json.specs.Outcome.{Answers};

/// The trees that texts are (RFC 8259).
pub fn trees()
    ensures object { tree_of (codes "{}") ≡ Some (object no_members) }
    ensures white_space { tree_of (codes " null\r\t") ≡ Some null }
    ensures items { tree_of (codes "[0,true]")
        ≡ Some (array (item (number (unsigned 0)) (item (boolean true) no_items))) }
    ensures sorted { tree_of (codes "{\"b\":null,\"a\":[]}")
        ≡ Some
        (object (member (codes "a") (array no_items) (member (codes "b") null no_members))) }
    ensures last_counts { tree_of (codes "{\"a\":null,\"a\":true}")
        ≡ Some (object (member (codes "a") (boolean true) no_members)) }
    ensures two_bytes { tree_of (34 ∷ 195 ∷ 169 ∷ 34 ∷ []) ≡ Some (string (195 ∷ 169 ∷ [])) }
    ensures escaped { tree_of (codes "\"\\u00e9\"") ≡ Some (string (195 ∷ 169 ∷ [])) }
    ensures empty { tree_of [] ≡ None }
    ensures white_space_alone { tree_of (codes " \t\r") ≡ None }
    ensures byte_order_mark { tree_of (239 ∷ 187 ∷ 191 ∷ codes "{}") ≡ None }
    ensures no_utf8 { tree_of (34 ∷ 255 ∷ 34 ∷ []) ≡ None }
    ensures half_a_pair { tree_of (codes "\"\\ud800\"") ≡ None }
    ensures more { tree_of (codes "{} x") ≡ None }
    ensures not_closed { tree_of (codes "{\"a\":") ≡ None }
{}

/// What a call returns where bytes are no JSON.
pub fn outcomes()
    ensures at_the_end { IsNotJson [] (Because 0) }
    ensures beyond_the_end { ¬ (IsNotJson [] (Because 1)) }
    ensures json { ¬ (IsNotJson (codes "{}") (Because 0)) }
    ensures memory { IsNotJson (codes "{}") Memory }
    ensures value { Answers (λ (n : ℕ). n) (λ (e : ℕ). e) (Ok 1) (Ok 1) }
    ensures another_value { ¬ (Answers (λ (n : ℕ). n) (λ (e : ℕ). e) (Ok 1) (Ok 2)) }
    ensures no_value { ¬ (Answers (λ (n : ℕ). n) (λ (e : ℕ). e) (Ok 1) (Err 1)) }
    ensures error { Answers (λ (n : ℕ). n) (λ (e : ℕ). e) (Err (Because 3)) (Err 3) }
    ensures another_error { ¬ (Answers (λ (n : ℕ). n) (λ (e : ℕ). e) (Err (Because 3)) (Err 4)) }
    ensures no_error { ¬ (Answers (λ (n : ℕ). n) (λ (e : ℕ). e) (Err (Because 3)) (Ok 3)) }
    ensures refused { Answers (λ (n : ℕ). n) (λ (e : ℕ). e) (Err Memory) (Ok 3) }
{}
