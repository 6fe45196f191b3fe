//! Rows of the definitions. Each function is empty: its contract states rows, and the check computes them.
#![tactic(auto)]

ghost use Rattle.std.specs.Prelude.{◌≡◌, ℕ, List, [], ◌∷◌, Some, None, true, false, codes, replicate};
ghost use Rattle.ref_positions.specs.Lines.{begins_character, next_line, next_column, next_unit, line_of, column_of, unit_of, units_of, is_beyond, IsAt};
ghost use Rattle.ref_positions.specs.declared.format.Format.TheVariants.{Json, Yaml};
ghost use Rattle.ref_positions.specs.Formats.{format_of, name_of};
ghost use Rattle.ref_positions.specs.Paths.{member, item, below, number_of};
ghost use Rattle.ref_positions.specs.Parts.{close, key, name, object, parts, scalar, value, value_in, key_in};
ghost use Rattle.json.specs.Token as json;
ghost use Rattle.ref_positions.specs.Json.{AreFoundInJson, token_at, tokens_at, tokens_in};
ghost use Rattle.ref_positions.specs.Rows.{asked, letters, listed, named_found, named_json, named_tokens, twice};
ghost use Rattle.ref_positions.specs.Events.{AreFoundIn, AreTokens, IsTokenOf};
ghost use Rattle.ref_positions.specs.Located.{IsSpot, key_at, value_at};
ghost use Rattle.ref_positions.specs.Walks.{IsCounted, not_found};
ghost use Rattle.ref_positions.specs.declared.locate.Located.{Located as located_type};
ghost use Rattle.ref_positions.specs.declared.position.Position.{Position as position_type};
ghost use Rattle.ref_yaml.specs.Rows as yaml;
ghost use Rattle.ref_yaml.specs.declared.event.Kind.TheVariants.{BeginObject, EndObject, Plain};

/// The bytes that begin a character, and those that go on with one (RFC 3629, 3).
pub fn characters()
    ensures ascii { begins_character 127 ≡ true }
    ensures first_that_goes_on { begins_character 128 ≡ false }
    ensures last_that_goes_on { begins_character 191 ≡ false }
    ensures of_two_bytes { begins_character 195 ≡ true }
    ensures of_four_bytes { begins_character 240 ≡ true }
{}

/// The line and the column after one byte more.
pub fn next()
    ensures line_feed { next_line 3 10 ≡ 4 }
    ensures carriage_return { next_line 3 13 ≡ 3 }
    ensures after_a_line_feed { next_column 7 10 ≡ 1 }
    ensures after_a_letter { next_column 7 97 ≡ 8 }
    ensures after_a_carriage_return { next_column 7 13 ≡ 8 }
    ensures within_a_character { next_column 7 169 ≡ 7 }
{}

/// How a file is written, by its name.
pub fn formats()
    ensures yaml { format_of (codes "a/b.yaml") ≡ Yaml }
    ensures short { format_of (codes "b.yml") ≡ Yaml }
    ensures json { format_of (codes "b.json") ≡ Json }
    ensures other { format_of (codes "yaml") ≡ Json }
    ensures upper_case { format_of (codes "b.YAML") ≡ Json }
    ensures within { format_of (codes "b.yaml.json") ≡ Json }
{}

/// Columns in units of UTF-16: U+1F600 has two (RFC 2781, 2.1).
pub fn units()
    ensures ascii { units_of 97 ≡ 1 }
    ensures of_three_bytes { units_of 226 ≡ 1 }
    ensures of_four_bytes { units_of 240 ≡ 2 }
    ensures within_a_character { units_of 159 ≡ 0 }
    ensures after_a_line_feed { next_unit 7 10 ≡ 1 }
    ensures after_two_bytes { unit_of letters 2 ≡ 2 }
    ensures after_five_bytes { unit_of letters 5 ≡ 3 }
    ensures after_nine_bytes { unit_of letters 9 ≡ 5 }
{}

/// Lines and columns in texts.
pub fn places()
    ensures first_line { line_of (codes "ab") 1 ≡ 1 }
    ensures first_column { column_of (codes "ab") 0 ≡ 1 }
    ensures second_column { column_of (codes "ab") 1 ≡ 2 }
    ensures end { column_of (codes "ab") 2 ≡ 3 }
    ensures on_the_line_feed { line_of (97 ∷ 10 ∷ 98 ∷ []) 1 ≡ 1 }
    ensures second_line { line_of (97 ∷ 10 ∷ 98 ∷ []) 2 ≡ 2 }
    ensures first_of_the_second { column_of (97 ∷ 10 ∷ 98 ∷ []) 2 ≡ 1 }
    ensures with_a_carriage_return { line_of (97 ∷ 13 ∷ 10 ∷ 98 ∷ []) 3 ≡ 2 }
    ensures carriage_return_alone { line_of (97 ∷ 13 ∷ 98 ∷ []) 2 ≡ 1 }
    ensures empty_lines { line_of (10 ∷ 10 ∷ []) 2 ≡ 3 }
    ensures after_two_bytes { column_of letters 2 ≡ 2 }
    ensures after_five_bytes { column_of letters 5 ≡ 3 }
    ensures after_nine_bytes { column_of letters 9 ≡ 4 }
    ensures exact { IsAt (97 ∷ 10 ∷ 98 ∷ []) 3 2 2 }
    ensures another_line { ¬ (IsAt (97 ∷ 10 ∷ 98 ∷ []) 3 1 2) }
    ensures another_column { ¬ (IsAt (97 ∷ 10 ∷ 98 ∷ []) 3 2 1) }
    ensures beyond { ¬ (IsAt (97 ∷ []) 2 1 2) }
{}

/// Which number stands for a path, and the path that is a step below that of a number.
pub fn paths()
    ensures whole { number_of (Some [] ∷ []) [] ≡ Some 0 }
    ensures first { number_of (Some [] ∷ Some (item 0 ∷ []) ∷ []) (item 0 ∷ []) ≡ Some 1 }
    ensures key { number_of (Some (member (codes "a") ∷ []) ∷ []) (member (codes "a") ∷ []) ≡ Some 0 }
    ensures other_key { number_of (Some (member (codes "a") ∷ []) ∷ []) (member (codes "b") ∷ []) ≡ None }
    ensures index { number_of (Some (member (codes "0") ∷ []) ∷ []) (item 0 ∷ []) ≡ None }
    ensures none_before { number_of (None ∷ Some [] ∷ []) [] ≡ Some 1 }
    ensures step { below (Some (item 1 ∷ []) ∷ []) 0 (item 2) ≡ Some (item 2 ∷ item 1 ∷ []) }
    ensures no_number { below (Some [] ∷ []) 7 (item 2) ≡ None }
{}

/// Where keys and values are, by the number of their token and their offset: of members with the same key the last counts.
pub fn parts_of_texts()
    ensures whole { value_in (parts (value []) 0 listed) [] ≡ Some (0, 0) }
    ensures array { value_in (parts (value []) 0 listed) (member (codes "a") ∷ []) ≡ Some (2, 6) }
    ensures item { value_in (parts (value []) 0 listed) (item 1 ∷ member (codes "a") ∷ []) ≡ Some (4, 10) }
    ensures no_item { value_in (parts (value []) 0 listed) (item 2 ∷ member (codes "a") ∷ []) ≡ None }
    ensures scalar { value_in (parts (value []) 0 listed) (member (codes "b") ∷ []) ≡ Some (7, 19) }
    ensures key { key_in (parts (value []) 0 listed) (member (codes "b") ∷ []) ≡ Some (6, 14) }
    ensures no_key { key_in (parts (value []) 0 listed) (item 1 ∷ member (codes "a") ∷ []) ≡ None }
    ensures last { value_in (parts (value []) 0 twice) (member (codes "a") ∷ []) ≡ Some (7, 21) }
    ensures last_key { key_in (parts (value []) 0 twice) (member (codes "a") ∷ []) ≡ Some (6, 16) }
    ensures in_the_last { value_in (parts (value []) 0 twice) (member (codes "c") ∷ member (codes "a") ∷ []) ≡ Some (9, 27) }
    ensures in_the_first { value_in (parts (value []) 0 twice) (member (codes "b") ∷ member (codes "a") ∷ []) ≡ None }
{}

/// The tokens of events of YAML, and what is found in them of the whole value and its member `a`.
pub fn found_in_events()
    ensures begin { IsTokenOf yaml.named asked (value []) (yaml.event BeginObject 0 0) BeginObject (object 0) }
    ensures end { IsTokenOf yaml.named asked (name []) (yaml.event EndObject 7 8) EndObject close }
    ensures key { IsTokenOf yaml.named asked (name []) (yaml.key Plain 1 2) Plain (key (codes "a") 1) }
    ensures another_key { ¬ (IsTokenOf yaml.named asked (name []) (yaml.key Plain 1 2) Plain (key (codes "b") 1)) }
    ensures key_that_is_not_asked_for { IsTokenOf yaml.named [] (name []) (yaml.key Plain 1 2) Plain (key (codes "b") 1) }
    ensures tokens { AreTokens yaml.named asked (value []) yaml.named_events named_tokens }
    ensures too_few { ¬ (AreTokens yaml.named asked (value []) yaml.named_events (object 0 ∷ [])) }
    ensures counted { IsCounted asked named_found (parts (value []) 0 named_tokens) }
    ensures nothing_counted { ¬ (IsCounted asked (replicate 2 not_found) (parts (value []) 0 named_tokens)) }
    ensures found { AreFoundIn yaml.named asked yaml.named_events named_found }
    ensures nothing_found { ¬ (AreFoundIn yaml.named asked yaml.named_events (replicate 2 not_found)) }
{}

/// The tokens of JSON, and what is found in them of the whole value and its member `a`, wherever they are.
pub fn tokens_of_json()
    ensures key { token_at (json.key (codes "a")) 1 ≡ key (codes "a") 1 }
    ensures text { token_at (json.string (codes "a")) 4 ≡ scalar 4 }
    ensures bad { token_at json.bad 4 ≡ scalar 4 }
    ensures end { token_at json.end_array 4 ≡ close }
    ensures tokens { tokens_at named_json (0 ∷ 1 ∷ 4 ∷ 7 ∷ []) ≡ named_tokens }
    ensures others { tokens_at named_json (2 ∷ 5 ∷ 9 ∷ 12 ∷ []) ≡ object 2 ∷ key (codes "a") 5 ∷ scalar 9 ∷ close ∷ [] }
    ensures found { (text : List ℕ) → tokens_in text ≡ named_json → AreFoundInJson text asked named_found }
    ensures nothing_found { (text : List ℕ) → tokens_in text ≡ named_json → ¬ (AreFoundInJson text asked (replicate 2 not_found)) }
{}

/// Where places are of what was found, and the positions at offsets.
pub fn spots()
    ensures value { (located : located_type) → located.found.items ≡ named_found → value_at located 1 ≡ Some 4 }
    ensures key { (located : located_type) → located.found.items ≡ named_found → key_at located 1 ≡ Some 1 }
    ensures no_key { (located : located_type) → located.found.items ≡ named_found → key_at located 0 ≡ None }
    ensures no_place { (located : located_type) → located.found.items ≡ named_found → value_at located 2 ≡ None }
    ensures none { IsSpot (codes "ab") None None }
    ensures at { (p : position_type) → p.text.now ≡ codes "ab" → p.offset ≡ 1 → IsSpot (codes "ab") (Some 1) (Some p) }
    ensures at_the_end { (p : position_type) → p.text.now ≡ codes "ab" → p.offset ≡ 2 → IsSpot (codes "ab") (Some 9) (Some p) }
    ensures no_spot { ¬ (IsSpot (codes "ab") (Some 1) None) }
    ensures another { (p : position_type) → p.offset ≡ 0 → ¬ (IsSpot (codes "ab") (Some 1) (Some p)) }
{}

/// Which offsets are at or after a place on a line.
pub fn places_on_lines()
    ensures first { is_beyond (codes "ab") 1 1 0 ≡ true }
    ensures second { is_beyond (codes "ab") 1 2 0 ≡ false }
    ensures end_of_a_line { is_beyond (97 ∷ 10 ∷ 98 ∷ []) 1 9 1 ≡ true }
    ensures line_after { is_beyond (97 ∷ 10 ∷ 98 ∷ []) 1 9 2 ≡ true }
    ensures line_before { is_beyond (10 ∷ 98 ∷ []) 2 1 0 ≡ false }
    ensures within_a_character { is_beyond (195 ∷ 169 ∷ []) 1 1 1 ≡ false }
    ensures end { is_beyond [] 3 3 0 ≡ true }
    ensures name { name_of Yaml ≡ codes "YAML" }
{}
