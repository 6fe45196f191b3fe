//! Rows of the definitions. Each function is empty: its contract states rows, and the check computes them.
#![tactic(auto)]

ghost use Rattle.std.specs.Prelude.{◌≡◌, [], ◌∷◌, codes, false, true, None, Some};
ghost use Rattle.serde_json.specs.Data.{array, boolean, item, member, no_items, no_members, null, object, string};
ghost use Rattle.ref_descriptions.specs.declared.fields.Holding.TheVariants.{One, Each, Members, OneOrEach};
ghost use Rattle.ref_descriptions.specs.declared.kind.Kind.TheVariants.{Operation, Parameter, Response, Root, Schema};
ghost use Rattle.ref_descriptions.specs.declared.version.Version.TheVariants.{V2_0, V3_1};
ghost use Rattle.ref_draft.specs.declared.draft.Draft.TheVariants.{Draft7, Draft201909, Draft202012};
ghost use Rattle.ref_messages.specs.declared.message.Level.TheVariants.{Warning};
ghost use Rattle.ref_positions.specs.declared.format.Format.TheVariants.{Json, Yaml};
ghost use Rattle.ref_positions.specs.declared.part.Step.TheVariants.{Item};
ghost use Rattle.ref_protocol.specs.declared.encoding.Encoding.TheVariants.{Utf8, Utf16, Utf32};
ghost use Rattle.ref_protocol.specs.declared.methods.Method.TheVariants.{Initialize, DidChange, Hover, Completion, Diagnostic, Shutdown, Exit};
ghost use Rattle.ref_lsp.specs.Changes.{after_change, offset_by, unmarked};
ghost use Rattle.ref_lsp.specs.Clients.{first_of, format_of, has_capabilities, has_markdown};
ghost use Rattle.ref_lsp.specs.Definitions.{are_definitions, has_names, is_passed};
ghost use Rattle.ref_lsp.specs.Diagnostics.{is_judged, may_go_on, severity_of};
ghost use Rattle.ref_lsp.specs.Keys.{group_named, group_of, has_keyword, has_schema, has_set, is_key, is_name, is_reference, lead_of};
ghost use Rattle.ref_lsp.specs.Kinds.{after, along, has_anchors, is_in_group, is_offered, kind_there};
ghost use Rattle.ref_lsp.specs.Lines.{since_line, up_to_line};
ghost use Rattle.ref_lsp.specs.Names.{has_dots};
ghost use Rattle.ref_lsp.specs.Ranges.{is_of_fixes, touches};
ghost use Rattle.ref_lsp.specs.Relative.{is_near, relative, shared};
ghost use Rattle.ref_lsp.specs.Serving.{moves, needs_view, serves};
ghost use Rattle.ref_lsp.specs.Symbols.{is_array};
ghost use Rattle.ref_lsp.specs.Turns.{later};

/// What changes something.
pub fn changes()
    ensures first { moves Initialize ≡ true }
    ensures notification { moves DidChange ≡ true }
    ensures request { moves Hover ≡ false }
    ensures another { moves Diagnostic ≡ false }
    ensures shutdown { moves Shutdown ≡ false }
    ensures exit { moves Exit ≡ false }
{}

/// Which registry serves a request.
pub fn registries()
    ensures needed { needs_view Completion ≡ true }
    ensures not_needed { needs_view Diagnostic ≡ false }
    ensures of_all { serves None (Some 1) false ≡ true }
    ensures of_the_same { serves (Some 1) (Some 1) true ≡ true }
    ensures without_a_value { serves (Some 1) (Some 1) false ≡ false }
    ensures of_another { serves (Some 1) (Some 2) true ≡ false }
    ensures for_all { serves (Some 1) None true ≡ false }
{}

/// The encoding of positions of a client.
pub fn encodings()
    ensures none { first_of no_items ≡ Utf16 }
    ensures one { first_of (item (string (codes "utf-8")) no_items) ≡ Utf8 }
    ensures first { first_of (item (string (codes "utf-32")) (item (string (codes "utf-8")) no_items)) ≡ Utf32 }
    ensures after_an_unknown_one { first_of (item (string (codes "utf-7")) (item (string (codes "utf-8")) no_items)) ≡ Utf8 }
    ensures after_no_text { first_of (item null no_items) ≡ Utf16 }
{}

/// How a text is written.
pub fn formats()
    ensures by_its_path { format_of (codes "a.json") (codes "") ≡ Some Json }
    ensures by_its_language { format_of (codes "untitled:1") (codes "yaml") ≡ Some Yaml }
    ensures path_first { format_of (codes "a.yml") (codes "json") ≡ Some Yaml }
    ensures neither { format_of (codes "a.txt") (codes "jsonc") ≡ None }
{}

/// What changes leave; 239, 187 and 191 are a byte order mark.
pub fn texts()
    ensures refused { after_change Json Utf8 (codes "ab") None ≡ codes "ab" }
    ensures taken { after_change Json Utf8 (codes "ab") (Some (codes "c")) ≡ codes "c" }
    ensures mark_in_bytes { unmarked Json Utf8 (239 ∷ 187 ∷ 191 ∷ codes "{}") ≡ codes "   {}" }
    ensures mark_in_units { unmarked Json Utf16 (239 ∷ 187 ∷ 191 ∷ codes "{}") ≡ codes " {}" }
    ensures mark_of_yaml { unmarked Yaml Utf16 (239 ∷ 187 ∷ 191 ∷ codes "a") ≡ 239 ∷ 187 ∷ 191 ∷ codes "a" }
    ensures no_line { offset_by Utf16 (codes "ab") None (Some 1) ≡ None }
    ensures offset { offset_by Utf16 (codes "a\nbc") (Some 1) (Some 1) ≡ Some 3 }
{}

/// Which ranges touch.
pub fn ranges()
    ensures within { touches ((0, 1), (0, 9)) ((0, 2), (0, 3)) ≡ true }
    ensures where_one_ends { touches ((0, 1), (0, 3)) ((0, 3), (0, 4)) ≡ true }
    ensures after_it { touches ((0, 1), (0, 3)) ((0, 4), (0, 5)) ≡ false }
    ensures on_another_line { touches ((0, 1), (0, 3)) ((1, 2), (1, 2)) ≡ false }
    ensures over_lines { touches ((0, 5), (2, 0)) ((1, 2), (1, 2)) ≡ true }
{}

/// What names a schema, and which components are needed.
pub fn keys()
    ensures identifier { is_name (codes "$id") (string (codes "a")) ≡ true }
    ensures a_property { is_name (codes "id") (boolean true) ≡ false }
    ensures flag { is_name (codes "$recursiveAnchor") (boolean true) ≡ true }
    ensures another { is_name (codes "title") (string (codes "a")) ≡ false }
    ensures no_key { is_key (codes "a") None ≡ false }
    ensures group { group_named (Some (codes "parameters")) ≡ codes "parameters" }
    ensures no_group { group_named (Some (codes "properties")) ≡ codes "schemas" }
    ensures component { group_of (codes "/components/responses/a") ≡ codes "responses" }
    ensures definition { group_of (codes "/$defs/a") ≡ codes "$defs" }
    ensures schema { has_schema (Some (codes "not")) ≡ true }
    ensures no_schema { has_schema (Some (codes "uniqueItems")) ≡ false }
    ensures schemas { has_set (Some (codes "allOf")) ≡ true }
    ensures after_a_colon { lead_of Yaml (codes "$ref:") (codes "") ≡ codes " " }
    ensures after_a_blank { lead_of Yaml (codes "$ref: ") (codes "") ≡ codes "" }
    ensures before_a_token { lead_of Yaml (codes "$ref:") (codes "a") ≡ codes "" }
{}

/// Which components are of the kind that a reference of a description wants.
pub fn kinds()
    ensures response { is_in_group Response (codes "responses") ≡ true }
    ensures definition { is_in_group Schema (codes "$defs") ≡ true }
    ensures no_response { is_in_group Response (codes "definitions") ≡ false }
    ensures no_operation { is_in_group Operation (codes "schemas") ≡ false }
    ensures in_a_schema { along V3_1 (One, Schema) (Item 1 ∷ Item 2 ∷ []) ≡ Some (One, Schema) }
    ensures in_a_list { along V2_0 (Each, Parameter) (Item 0 ∷ []) ≡ Some (One, Parameter) }
    ensures in_a_map { after V3_1 (Members, Response) (Item 0) ≡ None }
    ensures in_either { after V2_0 (OneOrEach, Schema) (Item 0) ≡ Some (One, Schema) }
    ensures in_an_object { after V3_1 (One, Root) (Item 0) ≡ None }
    ensures an_object { kind_there (One, Response) ≡ Some Response }
    ensures a_list { kind_there (Each, Parameter) ≡ None }
    ensures wanted { is_offered (Some Parameter) [] (codes "/components/parameters/a") ≡ true }
    ensures not_wanted { is_offered (Some Parameter) [] (codes "/$defs/a") ≡ false }
    ensures anchors { has_anchors (Some Schema) ≡ true }
    ensures no_anchors { has_anchors (Some Response) ≡ false }
    ensures not_known { is_offered None [] (codes "/$defs/a") ≡ true }
{}

/// Which texts refer to something, by their drafts.
pub fn references()
    ensures dynamic { has_keyword Draft202012 (codes "$dynamicRef") ≡ true }
    ensures before_it_came { has_keyword Draft7 (codes "$dynamicRef") ≡ false }
    ensures recursive { has_keyword Draft201909 (codes "$recursiveRef") ≡ true }
    ensures after_it_went { has_keyword Draft202012 (codes "$recursiveRef") ≡ false }
    ensures plain { has_keyword Draft7 (codes "$ref") ≡ true }
    ensures the_root { is_reference [] ≡ false }
    ensures an_item { is_reference (Item 0 ∷ []) ≡ false }
{}

/// Where definitions are.
pub fn definitions()
    ensures definitions { are_definitions false (codes "$defs") ≡ true }
    ensures a_property { are_definitions true (codes "$defs") ≡ false }
    ensures data { is_passed false (codes "const") ≡ true }
    ensures a_name { is_passed true (codes "const") ≡ false }
    ensures properties { has_names (codes "") false (codes "properties") ≡ true }
    ensures components { has_names (codes "/components") false (codes "responses") ≡ true }
    ensures a_schema { has_names (codes "") false (codes "not") ≡ false }
{}

/// What is edited of a scalar of several lines.
pub fn lines()
    ensures of_a_block { since_line 0 (codes ">-\n  s") ≡ 1 }
    ensures of_the_first { since_line 0 (codes "a b") ≡ 3 }
    ensures of_blanks { since_line 0 (codes ">-\n  ") ≡ 0 }
    ensures before_a_line { up_to_line 0 0 (codes "b c \r\n  d") ≡ 3 }
    ensures of_the_last { up_to_line 0 0 (codes "b\"") ≡ 2 }
    ensures of_nothing { up_to_line 0 0 (codes "\n  d") ≡ 0 }
{}

/// Paths as a client has them.
pub fn names()
    ensures up { has_dots (codes "/w/../m/k.json") ≡ true }
    ensures the_same { has_dots (codes "/w/./k.json") ≡ true }
    ensures none { has_dots (codes "/w/.m/..k/a..b") ≡ false }
    ensures its_beginning { has_dots (codes "../k.json") ≡ false }
{}

/// Which of two open texts counts, by their turns, each with the text's place.
pub fn turns()
    ensures later_one { later (Some (1, 0)) (Some (2, 1)) ≡ Some (2, 1) }
    ensures earlier_one { later (Some (2, 0)) (Some (1, 1)) ≡ Some (2, 0) }
    ensures same_turn { later (Some (1, 0)) (Some (1, 1)) ≡ Some (1, 1) }
    ensures one { later (Some (1, 0)) None ≡ Some (1, 0) }
{}

/// What a client takes.
pub fn clients()
    ensures fixes { is_of_fixes (string (codes "quickfix")) ≡ true }
    ensures all_kinds { is_of_fixes (string (codes "")) ≡ true }
    ensures another_kind { is_of_fixes (string (codes "refactor")) ≡ false }
    ensures markdown { has_markdown (item (string (codes "markdown")) no_items) ≡ true }
    ensures plain_text { has_markdown (item (string (codes "plaintext")) no_items) ≡ false }
    ensures nothing_said { has_capabilities (object no_members) ≡ false }
    ensures a_list { has_capabilities (array (item (object no_members) no_items)) ≡ false }
    ensures said_to_be_nothing { has_capabilities (object (member (codes "capabilities") null no_members)) ≡ false }
    ensures said { has_capabilities (object (member (codes "capabilities") (object no_members) no_members)) ≡ true }
{}

/// References relative to a base (RFC 3986, 5.4, has most of these).
pub fn relatives()
    ensures folders { shared (codes "http://a/b/c") (codes "http://a/b/x/d") ≡ 11 }
    ensures beside { relative (codes "http://a/b/c/d") (codes "http://a/b/c/g") ≡ codes "g" }
    ensures below { relative (codes "http://a/b/c/d") (codes "http://a/b/c/g/h") ≡ codes "g/h" }
    ensures above { relative (codes "http://a/b/c/d") (codes "http://a/b/g") ≡ codes "../g" }
    ensures root { relative (codes "http://a/b/c/d") (codes "http://a/g") ≡ codes "../../g" }
    ensures own_folder { relative (codes "http://a/b/c/d") (codes "http://a/b/c/") ≡ codes "./" }
    ensures colon { relative (codes "http://a/b") (codes "http://a/g:h") ≡ codes "./g:h" }
    ensures query { relative (codes "http://a/b") (codes "http://a/?y") ≡ codes "./?y" }
    ensures query_of_the_base { relative (codes "http://a/b?x/y") (codes "http://a/g") ≡ codes "g" }
    ensures another_host { relative (codes "http://a/b") (codes "http://c/b") ≡ codes "http://c/b" }
    ensures no_folders { relative (codes "urn:a:b") (codes "urn:a:c") ≡ codes "urn:a:c" }
    ensures by_its_path { is_near (codes "../b.json") ≡ true }
    ensures by_its_uri { is_near (codes "file:///w/b.json") ≡ false }
    ensures of_a_map { is_near (codes "https://a/b.json") ≡ true }
    ensures a_file { relative (codes "file:///w/a.json") (codes "file:///w/b.json") ≡ codes "b.json" }
{}

/// What is published of documents.
pub fn diagnostics()
    ensures severity { severity_of Warning ≡ 2 }
    ensures flag { is_judged (true ∷ false ∷ []) 1 ≡ false }
    ensures no_flag { is_judged [] 1 ≡ true }
    ensures comma { may_go_on (codes ",b") ≡ true }
    ensures bracket_after_blanks { may_go_on (codes "  ]") ≡ true }
    ensures line { may_go_on (codes "\n,") ≡ false }
    ensures comment { may_go_on (codes " # a") ≡ false }
{}

/// Where an array begins.
pub fn arrays()
    ensures bracket { is_array (codes "[1]") 0 ≡ true }
    ensures dash { is_array (codes "- a") 0 ≡ true }
    ensures number { is_array (codes "-1") 0 ≡ false }
    ensures object { is_array (codes "a: 1") 0 ≡ false }
    ensures nothing { is_array (codes "a") 1 ≡ false }
{}
