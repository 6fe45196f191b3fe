//! Rows of the definitions. Each function is empty: its contract states rows, and the check computes them.
ghost use Rattle.std.specs.Prelude.{◌≡◌, [], ◌∷◌, codes, None, Some};
ghost use Rattle.serde_json.specs.Data.{null, string};
ghost use Rattle.ref_outline.specs.Offsets.{offset_of, token_end};
ghost use Rattle.ref_outline.specs.Steps.{text_in};

/// Offsets of lines and columns; 195 and 169 are a character of two bytes.
pub fn offsets()
    ensures first { offset_of 1 1 (codes "ab") ≡ 0 }
    ensures in_a_line { offset_of 2 2 (codes "a\nbc\nd") ≡ 3 }
    ensures after_a_character_of_two_bytes { offset_of 1 2 (195 ∷ 169 ∷ 97 ∷ []) ≡ 2 }
    ensures behind_a_line { offset_of 1 9 (codes "ab\nc") ≡ 2 }
    ensures behind_the_text { offset_of 9 1 (codes "ab") ≡ 2 }
{}

/// Where tokens in quotes end, brackets, and what begins at the end of a text; 34 is a quote, and 92 is \.
pub fn tokens()
    ensures text { token_end 1 (91 ∷ 34 ∷ 97 ∷ 34 ∷ 93 ∷ []) ≡ 4 }
    ensures quote_in_a_text { token_end 0 (34 ∷ 92 ∷ 34 ∷ 34 ∷ 44 ∷ []) ≡ 4 }
    ensures backslash_in_a_text { token_end 0 (34 ∷ 92 ∷ 92 ∷ 34 ∷ 34 ∷ []) ≡ 4 }
    ensures text_without_an_end { token_end 0 (34 ∷ 97 ∷ 10 ∷ 34 ∷ []) ≡ 2 }
    ensures in_single_quotes { token_end 0 (codes "'a: b', 1") ≡ 6 }
    ensures backslash_in_single_quotes { token_end 0 (39 ∷ 92 ∷ 39 ∷ 39 ∷ []) ≡ 3 }
    ensures object { token_end 0 (codes "{a: 1}") ≡ 1 }
    ensures array { token_end 3 (codes "a: [1]") ≡ 4 }
    ensures nothing { token_end 1 (codes "a") ≡ 1 }
{}

/// Where tokens without quotes end.
pub fn plain_tokens()
    ensures number { token_end 1 (codes "[12, 3]") ≡ 3 }
    ensures last_of_an_array { token_end 1 (codes "[true]") ≡ 5 }
    ensures last_of_an_object { token_end 4 (codes "{a: 1}") ≡ 5 }
    ensures words { token_end 0 (codes "a b  \nc") ≡ 3 }
    ensures key { token_end 0 (codes "a: b") ≡ 1 }
    ensures key_before_a_tab { token_end 0 (codes "a:\tb") ≡ 1 }
    ensures key_at_the_end_of_a_line { token_end 0 (codes "a:\r\n  b") ≡ 1 }
    ensures colon { token_end 0 (codes "a:b") ≡ 3 }
    ensures before_a_comment { token_end 0 (codes "a #b") ≡ 1 }
    ensures before_a_tab_and_a_comment { token_end 0 (codes "a\t#b") ≡ 1 }
    ensures hash { token_end 0 (codes "a#b") ≡ 3 }
{}

/// The texts that scalars of JSON are.
pub fn texts()
    ensures of_a_tree { text_in (Some (string (codes "a"))) ≡ Some (codes "a") }
    ensures of_another_tree { text_in (Some null) ≡ None }
{}
