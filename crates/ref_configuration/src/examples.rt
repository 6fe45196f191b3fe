//! Rows of the definitions, as `docs/CONFIGURATION.md` says. Each function is empty: its contract states rows, and the check
//! computes them.
#![tactic(auto, unfolding(crate::proofs::OnLiterals::ref_configuration_on_literals))]

ghost use Rattle.std.specs.Prelude.{◌≡◌, [], ◌∷◌, map, true, false, codes, Some, None, Ok, Err, pos, negsuc};
ghost use Rattle.toml.specs.Data.{string, integer, boolean, array, table, no_items, item, no_members, member};
ghost use Rattle.ref_configuration.specs.Names.{top_names, override_names, draft_names, level_names, rule_level_names, listed, is_among};
ghost use Rattle.ref_configuration.specs.Members.{whole, in_map, in_rules, in_override, in_override_rules, at_keys, fault_at, no_name, no_name_text, not_among, not_among_text, no_level, wrong_override, texts_in, flag_in, number_in, text_in, name_in, maps_in, rules_in, override_in, overrides_in};
ghost use Rattle.ref_configuration.specs.Settings.{nothing, lists_of, flags_of, named_texts_of, tables_of, settings_of};
ghost use Rattle.ref_configuration.specs.Lines.{place_at, line_ends};
ghost use Rattle.ref_configuration.specs.Places.{place_of, has, inner, is_there, first_sound, lacking, after_lacking};
ghost use Rattle.ref_configuration.specs.Refusals.{meant};

/// Names, and how a sentence lists them.
pub fn names()
    ensures known { is_among top_names (codes "max-warnings") ≡ true }
    ensures unknown { is_among top_names (codes "max_warnings") ≡ false }
    ensures one { listed (codes "a" ∷ []) ≡ codes "a" }
    ensures two { listed override_names ≡ codes "files or rules" }
    ensures three { listed level_names ≡ codes "error, warning or note" }
    ensures four { listed rule_level_names ≡ codes "error, warning, note or off" }
    ensures drafts { listed draft_names ≡ codes "4, 6, 7, 2019-09 or 2020-12" }
    ensures no_name { no_name_text override_names (codes "file")
        ≡ codes "there is no 'file' here; it may be files or rules" }
    ensures no_draft { not_among_text draft_names (codes "5")
        ≡ codes "'5' is not 4, 6, 7, 2019-09 or 2020-12" }
    ensures no_level { no_level (codes "a")
        ≡ codes "the level of 'a' is to be error, warning, note or off" }
{}

/// What values say by the kind of their member.
pub fn members()
    ensures texts { texts_in whole (codes "with") (array (item (string (codes "a"))
        (item (string (codes "b")) no_items))) ≡ Ok (codes "a" ∷ codes "b" ∷ []) }
    ensures no_texts { texts_in whole (codes "with") (array no_items) ≡ Ok [] }
    ensures no_text { texts_in whole (codes "with") (array (item (string (codes "a"))
        (item (boolean true) no_items)))
        ≡ Err (fault_at whole (codes "with") (codes "each item of this list is to be a text")) }
    ensures no_list { texts_in whole (codes "with") (string (codes "a"))
        ≡ Err (fault_at whole (codes "with") (codes "a list of texts is to be here")) }
    ensures flag { flag_in (codes "yaml") (boolean true) ≡ Ok true }
    ensures no_flag { flag_in (codes "yaml") (integer (pos 1))
        ≡ Err (fault_at whole (codes "yaml") (codes "true or false is to be here")) }
    ensures number { number_in (codes "max-warnings") (integer (pos 0)) ≡ Ok 0 }
    ensures below_zero { number_in (codes "max-warnings") (integer (negsuc 0))
        ≡ Err (fault_at whole (codes "max-warnings")
        (codes "a whole number from 0 on is to be here")) }
    ensures text { text_in (codes "base") (string (codes "a:")) ≡ Ok (codes "a:") }
    ensures name { name_in draft_names (codes "draft") (string (codes "7")) ≡ Ok (codes "7") }
    ensures number_for_a_name { name_in draft_names (codes "draft") (integer (pos 7))
        ≡ Err (fault_at whole (codes "draft") (codes "a text is to be here")) }
    ensures no_name { name_in draft_names (codes "draft") (string (codes "5"))
        ≡ Err (not_among draft_names (codes "draft") (codes "5")) }
    ensures maps { maps_in (table (member (codes "a:") (string (codes "b")) no_members))
        ≡ Ok ((codes "a:", codes "b") ∷ []) }
    ensures no_folder { maps_in (table (member (codes "a:") (boolean true) no_members))
        ≡ Err (fault_at in_map (codes "a:") (codes "a text, the path of a folder, is to be here")) }
    ensures rules { rules_in whole in_rules (table (member (codes "a") (string (codes "off")) no_members))
        ≡ Ok ((codes "a", codes "off") ∷ []) }
    ensures no_level { rules_in whole in_rules (table (member (codes "a") (string (codes "info")) no_members))
        ≡ Err (fault_at in_rules (codes "a") (no_level (codes "a"))) }
    ensures no_table { overrides_in (array (item (boolean true) no_items))
        ≡ Err (wrong_override 0 (codes "each override is to be a table")) }
    ensures no_files { overrides_in (array (item (table no_members) no_items))
        ≡ Err (wrong_override 0
        (codes "an override is to have files, a list of paths and patterns")) }
    ensures second_override { override_in 1 (table (member (codes "files") (string (codes "a")) no_members))
        ≡ Err (fault_at (in_override 1) (codes "files") (codes "a list of texts is to be here")) }
{}

/// What texts mean, and which of several faults is told.
pub fn texts()
    ensures none { meant [] ≡ Some (Ok nothing) }
    ensures comment { meant (codes "# nothing") ≡ Some (Ok nothing) }
    ensures no_toml { meant (codes "paths") ≡ None }
    ensures unknown { meant (codes "path = []")
        ≡ Some (Err (no_name top_names whole (codes "path"))) }
    ensures unknown_first { meant (codes "yaml = 1\npath = []")
        ≡ Some (Err (no_name top_names whole (codes "path"))) }
    ensures paths_before_yaml { meant (codes "yaml = 1\npaths = 1")
        ≡ Some (Err (fault_at whole (codes "paths") (codes "a list of texts is to be here"))) }
{}

/// Where members are.
pub fn places()
    ensures first { place_of [] 0 (codes "a") (codes "a = 1") ≡ (1, 1) }
    ensures second { place_of [] 0 (codes "b") (codes "a = 1\n b = 2") ≡ (2, 2) }
    ensures after_a_comment { place_of [] 0 (codes "b") (codes "a = 1\n# b\n\nb = 2\n") ≡ (4, 1) }
    ensures line_and_column { place_at (codes "a\nbc") 3 ≡ (2, 2) }
    ensures ends { line_ends 0 (codes "a\n\nb") ≡ 1 ∷ 2 ∷ [] }
    ensures sound { first_sound false 0 (codes " # a\n b") ≡ Some 6 }
    ensures none_is_sound { first_sound false 0 (codes "# a") ≡ None }
    ensures there { has [] 0 (codes "a") (member (codes "a") (boolean true) no_members) ≡ true }
    ensures elsewhere { has (codes "b" ∷ []) 0 (codes "a")
        (member (codes "a") (boolean true) no_members) ≡ false }
    ensures below { has (codes "b" ∷ []) 0 (codes "a")
        (member (codes "b") (table (member (codes "a") (boolean true) no_members)) no_members)
        ≡ true }
    ensures no_second { has (codes "b" ∷ []) 1 (codes "a") (member (codes "b")
        (array (item (table (member (codes "a") (boolean true) no_members)) no_items)) no_members)
        ≡ false }
    ensures empty_list { is_there 0 (array no_items) ≡ true }
    ensures no_item { is_there 1 (array no_items) ≡ false }
{}
