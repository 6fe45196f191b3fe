//! Examples of YAML 1.2.2 that the definitions compute.
#![tactic(auto)]

ghost use Rattle.std.specs.Prelude.{◌≡◌, ℕ, [], ◌∷◌, true, false, negsuc, codes, Some, None, List};
ghost use Rattle.serde_json.specs.Data.{Data, array, object, number, string, boolean, null, unsigned, negative, no_members, put};
ghost use Rattle.serde_json.specs.View.{items_of};
ghost use Rattle.ref_yaml.specs.Block.{literal_text, folded_text};
ghost use Rattle.ref_yaml.specs.Core.{core_value, as_json, parts_of};
ghost use Rattle.ref_yaml.specs.Documents.{IsYamlOf};
ghost use Rattle.ref_yaml.specs.Events.{IsInPlace, are_apart, has_ends, is_scalar as is_scalar_kind, may_begin, most_events};
ghost use Rattle.ref_yaml.specs.Flow.{with_feeds};
ghost use Rattle.ref_yaml.specs.Scalars.{plain_text, single_text, double_text, literal_scalar, folded_scalar};
ghost use Rattle.ref_yaml.specs.Values.{AreItems, AreMembers, IsScalar, IsText, IsValue, fits, is_text, scalar_value};
ghost use Rattle.ref_yaml.specs.Rows as rows;
ghost use Rattle.ref_yaml.specs.declared.event.Kind.TheVariants.{BeginArray, EndArray, BeginObject, EndObject, Plain, SingleQuoted, DoubleQuoted, Literal, Folded, Alias};
ghost use Rattle.ref_yaml.specs.declared.event.Tag.TheVariants as tag;

// Example 7.12, plain lines.
pub(crate) fn plain_lines()
    ensures value { plain_text rows.plain_lines ≡ rows.plain_lines_text }
{}

// Example 7.9, single quoted lines.
pub(crate) fn single_lines()
    ensures value { single_text rows.single_lines ≡ rows.single_lines_text }
    ensures quotes { single_text rows.single_quotes ≡ rows.single_quotes_text }
{}

// Examples 7.5 and 5.13, double quoted line breaks and escaped characters.
pub(crate) fn double_lines()
    ensures value { double_text rows.double_lines ≡ Some rows.double_lines_text }
    ensures escapes { double_text rows.escapes ≡ Some rows.escapes_text }
{}

// Examples 8.5 and 8.7 to 8.10, chomping, literal and folded lines.
pub(crate) fn block_lines()
    ensures strip { literal_text 45 2 rows.one_line ≡ rows.stripped }
    ensures clip { literal_text 0 2 rows.one_line ≡ rows.clipped }
    ensures keep { literal_text 43 2 rows.one_line ≡ rows.kept }
    ensures literal { literal_text 0 1 rows.literal ≡ rows.literal_text }
    ensures folded { folded_text 0 1 rows.folded_lines ≡ rows.folded_lines_text }
{}

// Example 8.1, headers.
pub(crate) fn block_headers()
    ensures none { literal_scalar 1 rows.no_indicator ≡ rows.no_indicator_text }
    ensures digit { folded_scalar 1 rows.with_digit ≡ rows.with_digit_text }
    ensures chomping { literal_scalar 1 rows.with_plus_sign ≡ rows.with_plus_sign_text }
    ensures both { folded_scalar 1 rows.with_both ≡ rows.with_both_text }
{}

// Example 10.9, tags of the core schema: words, whole numbers, what JSON doesn't have, and texts.
#[tactic(auto, unfolding(serde_json::proofs::OnLiterals::serde_json_on_literals, crate::specs::Core::number_value, crate::specs::Core::parts_of))]
pub(crate) fn core_schema()
    ensures empty { core_value (codes "") ≡ Some null }
    ensures word { core_value (codes "True") ≡ Some (boolean true) }
    ensures octal { core_value rows.octal ≡ Some (number (unsigned 15)) }
    ensures hexadecimal { core_value rows.hexadecimal ≡ Some (number (unsigned 58)) }
    ensures minus { core_value rows.negative ≡ Some (number (negative (negsuc 18))) }
    ensures plus { core_value rows.with_plus ≡ Some (number (unsigned 12)) }
    ensures zeros { core_value rows.with_zeros ≡ Some (number (unsigned 12)) }
    ensures infinite { core_value rows.infinite ≡ None }
    ensures no_number { core_value rows.no_number ≡ None }
    ensures no_octal { core_value rows.no_octal ≡ Some (string rows.no_octal) }
    ensures no_decimal { core_value rows.no_decimal ≡ Some (string rows.no_decimal) }
    ensures date { core_value rows.date ≡ Some (string rows.date) }
    ensures off { core_value rows.off ≡ Some (string rows.off) }
{}

// Example 10.9, numbers as JSON writes them.
#[tactic(auto, unfolding(crate::specs::Core::parts_of))]
pub(crate) fn core_numbers()
    ensures point_last { as_json (parts_of rows.point_last) ≡ rows.point_last_json }
    ensures point_first { as_json (parts_of rows.point_first) ≡ rows.point_first_json }
    ensures exponent { as_json (parts_of rows.with_exponent) ≡ rows.with_exponent_json }
{}

// Escapes that there aren't (5.7), and line breaks (5.4).
pub(crate) fn no_texts()
    ensures letter { double_text rows.no_escape ≡ None }
    ensures half { double_text rows.half ≡ None }
    ensures digits { double_text rows.few_digits ≡ None }
    ensures last { double_text rows.last_backslash ≡ None }
    ensures breaks { with_feeds false rows.returns ≡ rows.returns_feeds }
    ensures after_a_return { with_feeds true (codes "a") ≡ codes "a" }
{}

// Which scalars are texts, whatever they say, and which values fit a tag (10.3).
pub(crate) fn tags()
    ensures plain { is_text tag.None Plain ≡ false }
    ensures quoted { is_text tag.None SingleQuoted ≡ true }
    ensures text { is_text tag.Text Plain ≡ true }
    ensures of_any_value { is_text tag.Any Plain ≡ true }
    ensures quoted_number { is_text tag.Int DoubleQuoted ≡ false }
    ensures no_tag { fits tag.None null ≡ true }
    ensures number { fits tag.Int (number (unsigned 1)) ≡ true }
    ensures no_number { fits tag.Int (string (codes "1")) ≡ false }
    ensures word { fits tag.Bool (boolean false) ≡ true }
    ensures no_word { fits tag.Bool null ≡ false }
    ensures nothing { fits tag.Null null ≡ true }
    ensures list { fits tag.Array (array (items_of [])) ≡ true }
    ensures no_list { fits tag.Array (object no_members) ≡ false }
    ensures members { fits tag.Object (object no_members) ≡ true }
    ensures no_members { fits tag.Object (array (items_of [])) ≡ false }
{}

// What scalars are: texts in quotes, and plain ones by the core schema (10.3.2).
#[tactic(auto, unfolding(serde_json::proofs::OnLiterals::serde_json_on_literals, crate::specs::Core::number_value, crate::specs::Core::parts_of))]
pub(crate) fn scalars()
    ensures quoted { scalar_value (rows.event SingleQuoted 0 3) (codes "1") ≡ Some (string (codes "1")) }
    ensures plain { scalar_value (rows.event Plain 0 1) (codes "1") ≡ Some (number (unsigned 1)) }
    ensures tagged { scalar_value (rows.tagged tag.Text Plain 0 1) (codes "1") ≡ Some (string (codes "1")) }
    ensures no_number { scalar_value (rows.event Plain 0 4) (codes ".inf") ≡ None }
{}

// Which events are scalars, what events begin and end at, how many there are, and when they are apart.
pub(crate) fn events()
    ensures scalar { is_scalar_kind Folded ≡ true }
    ensures alias { is_scalar_kind Alias ≡ false }
    ensures list { is_scalar_kind BeginArray ≡ false }
    ensures quotes { has_ends SingleQuoted 39 39 ≡ true }
    ensures one_quote { has_ends DoubleQuoted 34 39 ≡ false }
    ensures bar { has_ends Literal 124 10 ≡ true }
    ensures space { has_ends Plain 97 32 ≡ false }
    ensures bracket { has_ends EndArray 125 125 ≡ false }
    ensures dash { may_begin BeginArray 45 ≡ true }
    ensures brace { may_begin BeginArray 123 ≡ false }
    ensures letter { may_begin BeginObject 97 ≡ true }
    ensures line_feed { may_begin BeginObject 10 ≡ false }
    ensures closing_brace { may_begin BeginObject 125 ≡ false }
    ensures in_place { IsInPlace rows.quoted rows.quoted_event }
    ensures before_its_end { ¬ (IsInPlace rows.quoted (rows.event SingleQuoted 0 6)) }
    ensures at_a_space { ¬ (IsInPlace rows.named (rows.event BeginObject 3 3)) }
    ensures few { most_events 5 ≡ 1000000 }
    ensures many { most_events 200000 ≡ 2000000 }
    ensures apart { are_apart 0 rows.named_events ≡ true }
    ensures from { are_apart 1 rows.named_events ≡ false }
    ensures overlapping { are_apart 0 rows.overlapping ≡ false }
    ensures within_another { are_apart 0 rows.within_another ≡ false }
{}

// The text of an event, and the values of events.
pub(crate) fn values()
    ensures text { IsText rows.quoted rows.quoted_event (codes "it's") }
    ensures another_text { ¬ (IsText rows.quoted rows.quoted_event (codes "it''s")) }
    ensures no_scalar { (s : List ℕ) → ¬ (IsText rows.listed (rows.event BeginArray 0 0) s) }
    ensures scalar { IsScalar rows.quoted rows.quoted_event (string (codes "it's")) }
    ensures value { IsValue rows.quoted (rows.quoted_event ∷ []) (string (codes "it's")) [] }
    ensures another_value { ¬ (IsValue rows.quoted (rows.quoted_event ∷ []) null []) }
    ensures items { IsValue rows.listed rows.listed_events
        (array (items_of (string (codes "a") ∷ string (codes "b") ∷ []))) [] }
    ensures members { IsValue rows.named rows.named_events
        (object (put (codes "a") (string (codes "b")) no_members)) [] }
    ensures read { IsYamlOf rows.quoted (string (codes "it's")) }
    ensures read_object { IsYamlOf rows.named
        (object (put (codes "a") (string (codes "b")) no_members)) }
    ensures same_key { (d : Data) → ¬ (IsValue rows.twice rows.twice_events d []) }
{}
