//! Rows of the definitions. Each function is empty: its contract states rows, and the check computes them.
#![tactic(auto)]

ghost use Rattle.std.specs.Prelude.{◌≡◌, [], ◌∷◌, true, false, codes, None, Some};
ghost use Rattle.ref_patterns.specs.Choices.{texts_of};
ghost use Rattle.ref_patterns.specs.Ignoring.{below, last_said};
ghost use Rattle.ref_patterns.specs.declared.pattern.Part.TheVariants.{Byte, Character, Name, Folders};
ghost use Rattle.ref_patterns.specs.Patterns.{any_matches, is_wild, matches, parts_of};

/// What the parts of patterns match; 46 is a dot, 97 and 98 are a and b.
pub fn parts()
    ensures byte { matches (Byte 97 ∷ []) (codes "a") ≡ true }
    ensures another_byte { matches (Byte 97 ∷ []) (codes "b") ≡ false }
    ensures more_bytes { matches (Byte 97 ∷ []) (codes "ab") ≡ false }
    ensures name { matches (Name ∷ Byte 46 ∷ Byte 97 ∷ []) (codes "b.a") ≡ true }
    ensures no_name { matches (Name ∷ Byte 46 ∷ Byte 97 ∷ []) (codes ".a") ≡ true }
    ensures slash_in_a_name { matches (Name ∷ []) (codes "a/b") ≡ false }
    ensures name_again { matches (Name ∷ Byte 97 ∷ Name ∷ Byte 98 ∷ []) (codes "xaayb") ≡ true }
    ensures folders { matches (Folders ∷ Byte 98 ∷ []) (codes "a/a/b") ≡ true }
    ensures no_folders { matches (Folders ∷ Byte 98 ∷ []) (codes "b") ≡ true }
    ensures end_of_a_name { matches (Folders ∷ Byte 98 ∷ []) (codes "ab") ≡ false }
    ensures below { matches (Byte 97 ∷ Byte 47 ∷ Folders ∷ Name ∷ []) (codes "a/x/y") ≡ true }
    ensures character_of_two_bytes { matches (Character ∷ []) (195 ∷ 169 ∷ []) ≡ true }
    ensures two_characters { matches (Character ∷ []) (codes "ab") ≡ false }
    ensures slash { matches (Character ∷ []) (codes "/") ≡ false }
{}

/// Whether one of several patterns matches, and which texts are more than paths.
pub fn choices()
    ensures second { any_matches ((Byte 97 ∷ []) ∷ (Name ∷ []) ∷ []) (codes "b") ≡ true }
    ensures none { any_matches ((Byte 97 ∷ []) ∷ (Byte 98 ∷ []) ∷ []) (codes "c") ≡ false }
    ensures star { is_wild 42 ≡ true }
    ensures backslash { is_wild 92 ≡ false }
{}

/// The texts that texts with braces stand for.
pub fn braces()
    ensures one { texts_of (codes "{a,b}.c") ≡ Some (codes "a.c" ∷ codes "b.c" ∷ []) }
    ensures two { texts_of (codes "{a,b}{c,d}") ≡ Some (codes "ac" ∷ codes "ad" ∷ codes "bc" ∷ codes "bd" ∷ []) }
    ensures nothing { texts_of (codes "a{}") ≡ Some (codes "a" ∷ []) }
    ensures none { texts_of (codes "ab") ≡ Some (codes "ab" ∷ []) }
    ensures not_closed { texts_of (codes "{a") ≡ None }
    ensures not_opened { texts_of (codes "a}{b,c}") ≡ None }
    ensures within_another { texts_of (codes "{a,{b}}") ≡ None }
{}

/// The parts of texts.
pub fn texts()
    ensures plain { parts_of (codes "a/b") ≡ Byte 97 ∷ Byte 47 ∷ Byte 98 ∷ [] }
    ensures name { parts_of (codes "*.a") ≡ Name ∷ Byte 46 ∷ Byte 97 ∷ [] }
    ensures folders { parts_of (codes "**/a") ≡ Folders ∷ Byte 97 ∷ [] }
    ensures below { parts_of (codes "a/**") ≡ Byte 97 ∷ Byte 47 ∷ Folders ∷ Name ∷ [] }
    ensures below_with_slash { parts_of (codes "**/") ≡ Folders ∷ Name ∷ [] }
    ensures within_a_name { parts_of (codes "a**b") ≡ Byte 97 ∷ Name ∷ Name ∷ Byte 98 ∷ [] }
    ensures escaped { parts_of (codes "\\*?") ≡ Byte 42 ∷ Character ∷ [] }
    ensures backslash_at_the_end { parts_of (codes "\\") ≡ Byte 92 ∷ [] }
{}

/// What follows a beginning, and the last that says something.
pub fn ignored()
    ensures below { below (codes "a/") (codes "a/b") ≡ Some (codes "b") }
    ensures below_everything { below [] (codes "b") ≡ Some (codes "b") }
    ensures beside { below (codes "a/") (codes "ab") ≡ None }
    ensures last { last_said (Some true ∷ Some false ∷ None ∷ []) ≡ Some false }
    ensures nothing { last_said (None ∷ []) ≡ None }
{}
