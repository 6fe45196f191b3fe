//! Vocabularies of meta-schemas (2020-12 Core, 8.1.2).
#![tactic(auto, unfolding(crate::proofs::OnLiterals::vocabularies_on_literals))]

ghost use Rattle.std.specs.Prelude.{◌≡◌, true, false, [], ◌∷◌, map, filter, length, codes, Some, None, Ok, Err};
ghost use Rattle.serde_json.specs.Data.{boolean, no_members, member};
ghost use Rattle.ref_draft.specs.declared.draft.Draft.TheVariants.{Draft4, Draft7, Draft201909, Draft202012, Unknown};
ghost use Rattle.ref_uri.specs.Targets.{parse_refusal};
ghost use Rattle.ref_vocabularies.specs.Vocabularies.{Core, Applicator, Unevaluated, Validation, Metadata, Format, FormatAnnotation, Content, FormatAssertion, Standard, Custom, all_known, bit, name, is_in_2019, known_eq, vocabulary_eq, set_eq, is_uri_of, from_text, has_known, has_uri, contains, with_uri, with_vocabulary, of_bits, of_known, set_of_2020, default_set, quoted_text, set_text, is_format_assertion, with_member, collected_set, known_set, set_of_members, find_in, set_or_default, set_at, find_vocabularies, dialect_contents, find_vocabularies_at};
ghost use Rattle.ref_definitions.specs.Rows.{world, at, yes, empty, text, one, two, three};

/// The vocabulary that a text names.
pub fn vocabularies_of_texts()
    ensures nine_known { length all_known ≡ 9 }
    ensures names_of_known { map name all_known
        ≡ codes "core" ∷ codes "applicator" ∷ codes "unevaluated" ∷ codes "validation"
        ∷ codes "meta-data" ∷ codes "format" ∷ codes "format-annotation" ∷ codes "content"
        ∷ codes "format-assertion" ∷ [] }
    ensures places_of_known { map bit all_known ≡ 0 ∷ 1 ∷ 2 ∷ 3 ∷ 4 ∷ 5 ∷ 6 ∷ 7 ∷ 8 ∷ [] }
    ensures known_in_2019 { filter is_in_2019 all_known
        ≡ Core ∷ Applicator ∷ Validation ∷ Metadata ∷ Format ∷ Content ∷ [] }
    ensures same { known_eq Format Format ≡ true }
    ensures another { known_eq Format FormatAnnotation ≡ false }
    ensures same_uri { vocabulary_eq (Custom (codes "a:b")) (Custom (codes "a:b")) ≡ true }
    ensures another_uri { vocabulary_eq (Custom (codes "a:b")) (Custom (codes "a:c")) ≡ false }
    ensures known_and_custom { vocabulary_eq (Standard Core) (Custom (codes "a:core")) ≡ false }
    ensures format_of_2019 { from_text (codes "https://json-schema.org/draft/2019-09/vocab/format")
        ≡ Ok (Standard Format) }
    ensures format_of_2020 { from_text (codes "https://json-schema.org/draft/2020-12/vocab/format")
        ≡ Ok (Standard Format) }
    ensures format_annotation { from_text
        (codes "https://json-schema.org/draft/2020-12/vocab/format-annotation")
        ≡ Ok (Standard FormatAnnotation) }
    ensures unevaluated_of_2020_alone { from_text
        (codes "https://json-schema.org/draft/2019-09/vocab/unevaluated")
        ≡ Ok (Custom (codes "https://json-schema.org/draft/2019-09/vocab/unevaluated")) }
    ensures custom_text { from_text (codes "https://example.com/custom-vocab")
        ≡ Ok (Custom (codes "https://example.com/custom-vocab")) }
    ensures refused_text { from_text (codes "a b") ≡ Err (parse_refusal (codes "a b")) }
    ensures uri_of_2020 { is_uri_of
        (codes "https://json-schema.org/draft/2020-12/vocab/unevaluated") Unevaluated
        ≡ true }
    ensures no_uri_of_2019 { is_uri_of
        (codes "https://json-schema.org/draft/2019-09/vocab/unevaluated") Unevaluated
        ≡ false }
    ensures uri_of_2019 { is_uri_of (codes "https://json-schema.org/draft/2019-09/vocab/core") Core
        ≡ true }
{}

/// Sets of vocabularies.
pub fn sets_of_vocabularies()
    ensures one_of_two { has_known (Core ∷ Content ∷ []) Content ≡ true }
    ensures none_of_them { has_known (Core ∷ Content ∷ []) Format ≡ false }
    ensures a_uri { has_uri (codes "a:b" ∷ codes "a:c" ∷ []) (codes "a:c") ≡ true }
    ensures no_uri { has_uri (codes "a:bc" ∷ []) (codes "a:b") ≡ false }
    ensures contains_known { contains (of_known (Core ∷ [])) (Standard Core) ≡ true }
    ensures contains_no_known { contains (of_known (Core ∷ [])) (Standard Unevaluated) ≡ false }
    ensures contains_custom { contains
        (record { standard = []; customs = codes "https://example.com/custom-vocab" ∷ [] })
        (Custom (codes "https://example.com/custom-vocab"))
        ≡ true }
    ensures contains_no_custom { contains
        (record { standard = []; customs = codes "https://example.com/custom-vocab" ∷ [] })
        (Custom (codes "https://example.com/other-vocab"))
        ≡ false }
    ensures put_in_order { with_uri (codes "b:x") (codes "a:x" ∷ codes "c:x" ∷ [])
        ≡ codes "a:x" ∷ codes "b:x" ∷ codes "c:x" ∷ [] }
    ensures put_once { with_uri (codes "a:x") (codes "a:x" ∷ []) ≡ codes "a:x" ∷ [] }
    ensures with_known { with_vocabulary (of_known (Core ∷ Content ∷ [])) (Standard Unevaluated)
        ≡ of_known (Core ∷ Unevaluated ∷ Content ∷ []) }
    ensures with_known_once { with_vocabulary (of_known (Core ∷ [])) (Standard Core)
        ≡ of_known (Core ∷ []) }
    ensures with_custom { with_vocabulary (of_known (Core ∷ [])) (Custom (codes "a:b"))
        ≡ record { standard = Core ∷ []; customs = codes "a:b" ∷ [] } }
    ensures same_set { set_eq (record { standard = Core ∷ []; customs = codes "a:b" ∷ [] })
        (record { standard = Core ∷ []; customs = codes "a:b" ∷ [] })
        ≡ true }
    ensures another_known { set_eq (of_known (Core ∷ [])) (of_known (Content ∷ [])) ≡ false }
    ensures another_custom { set_eq (of_known (Core ∷ []))
        (record { standard = Core ∷ []; customs = codes "a:b" ∷ [] })
        ≡ false }
    ensures newest { set_of_2020
        ≡ of_known
        (Core ∷ Applicator ∷ Unevaluated ∷ Validation ∷ Metadata ∷ FormatAnnotation ∷ Content
        ∷ []) }
    ensures default_of_4 { default_set Draft4 ≡ of_known [] }
    ensures default_of_2019 { default_set Draft201909
        ≡ of_known (Core ∷ Applicator ∷ Validation ∷ Metadata ∷ Content ∷ []) }
    ensures default_of_unknown { default_set Unknown ≡ default_set Draft202012 }
{}

/// Sets by the bits of the known vocabularies, the first of which is the lowest bit.
pub fn sets_of_bits()
    ensures none { of_bits 0 ≡ of_known [] }
    ensures lowest { of_bits 1 ≡ of_known (Core ∷ []) }
    ensures highest { of_bits 256 ≡ of_known (FormatAssertion ∷ []) }
    ensures past_the_highest { of_bits 65024 ≡ of_known [] }
    ensures all { of_bits 65535 ≡ of_known all_known }
    ensures of_2019 { of_bits 155 ≡ default_set Draft201909 }
    ensures of_2020 { of_bits 223 ≡ set_of_2020 }
    ensures alone { contains (of_bits 32) (Standard Format) ≡ true }
    ensures without { contains (of_bits 223) (Standard Format) ≡ false }
    ensures two_names { of_bits 5 ≡ of_known (Core ∷ Unevaluated ∷ []) }
    ensures five_added { with_vocabulary
        (with_vocabulary
        (with_vocabulary
        (with_vocabulary (with_vocabulary (of_bits 0) (Standard Core))
        (Standard Applicator))
        (Standard Validation))
        (Standard Metadata))
        (Standard Content)
        ≡ of_bits 155 }
    ensures one_more { with_vocabulary (of_bits 155) (Standard FormatAnnotation) ≡ of_bits 219 }
{}

/// How sets are displayed.
pub fn texts_of_sets()
    ensures known_and_custom { set_text
        (record {
          standard = Core ∷ Applicator ∷ Unevaluated ∷ Validation ∷ Metadata
              ∷ [];
          customs = codes "https://example.com/custom-vocab" ∷ [];
        })
        ≡ codes "[\"core\", \"applicator\", \"unevaluated\", \"validation\", \"meta-data\", \"https://example.com/custom-vocab\"]" }
    ensures none { set_text (of_known []) ≡ codes "[]" }
    ensures one_name { set_text (of_known (Core ∷ [])) ≡ codes "[\"core\"]" }
    ensures two_names { set_text (of_known (Core ∷ Content ∷ []))
        ≡ codes "[\"core\", \"content\"]" }
    ensures of_bits_and_custom { set_text
        (with_vocabulary (of_bits 31) (Custom (codes "https://example.com/custom-vocab")))
        ≡ codes "[\"core\", \"applicator\", \"unevaluated\", \"validation\", \"meta-data\", \"https://example.com/custom-vocab\"]" }
    ensures in_quotes { quoted_text (codes "core") ≡ codes "\"core\"" }
    ensures nothing_in_quotes { quoted_text [] ≡ codes "\"\"" }
{}

/// What the members of `$vocabulary` add.
pub fn declared_members()
    ensures format_assertion { is_format_assertion (Standard FormatAssertion) ≡ true }
    ensures another { is_format_assertion (Standard Format) ≡ false }
    ensures true_member { with_member (of_known []) yes (Custom (codes "a:b"))
        ≡ record { standard = []; customs = codes "a:b" ∷ [] } }
    ensures false_member { with_member (of_known []) (boolean false) (Custom (codes "a:b"))
        ≡ of_known [] }
    ensures false_format_assertion { with_member (of_known []) (boolean false)
        (Standard FormatAssertion)
        ≡ of_known (FormatAssertion ∷ []) }
    ensures refused_where_false { collected_set (of_known [])
        (member (codes "a b") (boolean false) no_members)
        ≡ Err (parse_refusal (codes "a b")) }
    ensures two_members { collected_set (of_known [])
        (member (codes "https://example.com/custom-vocab1") yes
        (member (codes "https://example.com/custom-vocab2") yes
        (member (codes "https://example.com/custom-vocab3")
        (boolean false) no_members)))
        ≡ Ok (record {
          standard = [];
          customs = codes "https://example.com/custom-vocab1"
              ∷ codes "https://example.com/custom-vocab2" ∷ [];
        }) }
    ensures no_object { set_of_members None ≡ Ok None }
    ensures no_members { set_of_members (Some no_members) ≡ Ok (Some (of_known [])) }
    ensures refused_members { set_of_members (Some (member (codes "a b") yes no_members))
        ≡ Err (parse_refusal (codes "a b")) }
{}

/// The vocabularies that a meta-schema declares.
pub fn declared_vocabularies()
    ensures declared { find_in
        (one "$vocabulary"
        (two "https://json-schema.org/draft/2020-12/vocab/core" yes
        "https://json-schema.org/draft/2020-12/vocab/format-assertion"
        (boolean false)))
        ≡ Ok (Some (of_known (Core ∷ FormatAssertion ∷ []))) }
    ensures declared_twice { find_in
        (one "$vocabulary"
        (two "https://json-schema.org/draft/2020-12/vocab/core" yes
        "https://json-schema.org/draft/2020-12/vocab/format-assertion" yes))
        ≡ Ok (Some (of_known (Core ∷ FormatAssertion ∷ []))) }
    ensures declared_beside_an_identifier { find_in
        (two "$id" (text "https://example.com/meta") "$vocabulary"
        (two "https://json-schema.org/draft/2020-12/vocab/core" yes
        "https://json-schema.org/draft/2020-12/vocab/format-assertion" yes))
        ≡ Ok (Some (of_known (Core ∷ FormatAssertion ∷ []))) }
    ensures known_2019 { find_in (one "$id" (text "https://json-schema.org/draft/2019-09/schema"))
        ≡ Ok (Some (default_set Draft201909)) }
    ensures known_2020 { find_in (one "$id" (text "https://json-schema.org/draft/2020-12/schema"))
        ≡ Ok (Some set_of_2020) }
    ensures before_2019 { find_in (one "$id" (text "https://json-schema.org/draft-07/schema"))
        ≡ Ok None }
    ensures none { find_in empty ≡ Ok None }
    ensures refused { find_in (one "$vocabulary" (one "a b" (boolean false)))
        ≡ Err (parse_refusal (codes "a b")) }
    ensures exact_identifier { known_set (codes "https://json-schema.org/draft/2020-12/schema#")
        ≡ None }
    ensures identifier_without_version { known_set (codes "https://json-schema.org/schema")
        ≡ Some (Some set_of_2020) }
    ensures identifier_of_7 { known_set (codes "https://json-schema.org/draft-07/schema")
        ≡ Some None }
    ensures set { set_or_default (Ok (Some (of_known []))) ≡ of_known [] }
    ensures no_set { set_or_default (Ok None) ≡ set_of_2020 }
    ensures faulty_set { set_or_default (Err (parse_refusal (codes "a b"))) ≡ set_of_2020 }
{}

/// The vocabularies of a schema.
pub fn vocabularies_of_schemas()
    ensures custom_dialect { set_text
        (find_vocabularies
        (world
        (at Draft202012 "http://a/dialect"
        (one "$vocabulary"
        (three "https://example.com/v" yes "https://example.com/w"
        (boolean false) "https://json-schema.org/draft/2020-12/vocab/core" yes))
        ∷ [])) Draft7
        (one "$schema" (text "http://a/dialect")))
        ≡ codes "[\"core\", \"https://example.com/v\"]" }
    ensures no_schema { set_text (find_vocabularies [] Draft7 empty) ≡ codes "[]" }
    ensures own_draft { set_text
        (find_vocabularies [] Draft7
        (one "$schema" (text "https://json-schema.org/draft/2020-12/schema")))
        ≡ codes "[]" }
    ensures no_document { set_text
        (find_vocabularies [] Draft202012 (one "$schema" (text "http://b/none")))
        ≡ codes "[\"core\", \"applicator\", \"unevaluated\", \"validation\", \"meta-data\", \"format-annotation\", \"content\"]" }
    ensures without_fragment { set_at
        (world (at Draft202012 "a:b" (one "$vocabulary" (one "a:v" yes)) ∷ []))
        (Ok (codes "a:b#x"))
        ≡ record { standard = []; customs = codes "a:v" ∷ [] } }
    ensures refused_dialect { set_at [] (Err (parse_refusal (codes "a b"))) ≡ set_of_2020 }
    ensures own_contents { dialect_contents (world (at Draft202012 "a:b" yes ∷ [])) (codes "a:b")
        (one "$schema" yes)
        ≡ one "$schema" yes }
    ensures contents_of_the_base { dialect_contents (world (at Draft202012 "a:b" yes ∷ []))
        (codes "a:b") empty
        ≡ yes }
    ensures contents_without_a_base { dialect_contents [] (codes "a:b") empty ≡ empty }
    ensures of_the_base { set_text
        (find_vocabularies_at
        (world
        (at Draft202012 "http://a/r" (one "$schema" (text "http://a/dialect"))
        ∷ at Draft202012 "http://a/dialect"
        (one "$vocabulary" (one "https://example.com/v" yes))
        ∷ []))
        (codes "http://a/r") Draft7 yes)
        ≡ codes "[\"https://example.com/v\"]" }
    ensures of_the_contents { set_text
        (find_vocabularies_at
        (world (at Draft202012 "http://a/r" (one "$schema" (text "http://a/dialect")) ∷ []))
        (codes "http://a/r") Draft7
        (one "$schema" (text "http://json-schema.org/draft-04/schema#")))
        ≡ codes "[]" }
{}
