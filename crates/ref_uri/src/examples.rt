//! The standard's tables of references, computed from the definitions.
#![tactic(auto, unfolding(crate::proofs::OnLiterals::ref_uri_on_literals))]

ghost use Rattle.std.specs.Prelude.{◌≡◌, [], codes, Some, None, Ok, Err};
ghost use Rattle.ref_uri.specs.Components.{components, scheme, path};
ghost use Rattle.ref_uri.specs.DotSegments.{remove_dot_segments};
ghost use Rattle.ref_uri.specs.Normal.{normal_form, guarded_path};
ghost use Rattle.ref_uri.specs.Resolution.{target_text, query_or, through_last_slash, merged_path};
ghost use Rattle.ref_uri.specs.Targets.{default_base, uri_of, uri_against, parse_refusal, resolve_refusal, refusal_text, target, fragment_part};

/// The normal examples of resolution (RFC 3986, 5.4.1).
pub fn normal_examples()
    ensures row_1 { target_text (codes "http://a/b/c/d;p?q") (codes "g:h") ≡ codes "g:h" }
    ensures row_2 { target_text (codes "http://a/b/c/d;p?q") (codes "g") ≡ codes "http://a/b/c/g" }
    ensures row_3 { target_text (codes "http://a/b/c/d;p?q") (codes "./g")
        ≡ codes "http://a/b/c/g" }
    ensures row_4 { target_text (codes "http://a/b/c/d;p?q") (codes "g/")
        ≡ codes "http://a/b/c/g/" }
    ensures row_5 { target_text (codes "http://a/b/c/d;p?q") (codes "/g") ≡ codes "http://a/g" }
    ensures row_6 { target_text (codes "http://a/b/c/d;p?q") (codes "//g") ≡ codes "http://g" }
    ensures row_7 { target_text (codes "http://a/b/c/d;p?q") (codes "?y")
        ≡ codes "http://a/b/c/d;p?y" }
    ensures row_8 { target_text (codes "http://a/b/c/d;p?q") (codes "g?y")
        ≡ codes "http://a/b/c/g?y" }
    ensures row_9 { target_text (codes "http://a/b/c/d;p?q") (codes "#s")
        ≡ codes "http://a/b/c/d;p?q#s" }
    ensures row_10 { target_text (codes "http://a/b/c/d;p?q") (codes "g#s")
        ≡ codes "http://a/b/c/g#s" }
    ensures row_11 { target_text (codes "http://a/b/c/d;p?q") (codes "g?y#s")
        ≡ codes "http://a/b/c/g?y#s" }
    ensures row_12 { target_text (codes "http://a/b/c/d;p?q") (codes ";x")
        ≡ codes "http://a/b/c/;x" }
    ensures row_13 { target_text (codes "http://a/b/c/d;p?q") (codes "g;x")
        ≡ codes "http://a/b/c/g;x" }
    ensures row_14 { target_text (codes "http://a/b/c/d;p?q") (codes "g;x?y#s")
        ≡ codes "http://a/b/c/g;x?y#s" }
    ensures row_15 { target_text (codes "http://a/b/c/d;p?q") (codes "")
        ≡ codes "http://a/b/c/d;p?q" }
    ensures row_16 { target_text (codes "http://a/b/c/d;p?q") (codes ".") ≡ codes "http://a/b/c/" }
    ensures row_17 { target_text (codes "http://a/b/c/d;p?q") (codes "./") ≡ codes "http://a/b/c/" }
    ensures row_18 { target_text (codes "http://a/b/c/d;p?q") (codes "..") ≡ codes "http://a/b/" }
    ensures row_19 { target_text (codes "http://a/b/c/d;p?q") (codes "../") ≡ codes "http://a/b/" }
    ensures row_20 { target_text (codes "http://a/b/c/d;p?q") (codes "../g")
        ≡ codes "http://a/b/g" }
    ensures row_21 { target_text (codes "http://a/b/c/d;p?q") (codes "../..") ≡ codes "http://a/" }
    ensures row_22 { target_text (codes "http://a/b/c/d;p?q") (codes "../../") ≡ codes "http://a/" }
    ensures row_23 { target_text (codes "http://a/b/c/d;p?q") (codes "../../g")
        ≡ codes "http://a/g" }
{}

/// The abnormal examples of resolution (RFC 3986, 5.4.2).
pub fn abnormal_examples()
    ensures row_1 { target_text (codes "http://a/b/c/d;p?q") (codes "../../../g")
        ≡ codes "http://a/g" }
    ensures row_2 { target_text (codes "http://a/b/c/d;p?q") (codes "../../../../g")
        ≡ codes "http://a/g" }
    ensures row_3 { target_text (codes "http://a/b/c/d;p?q") (codes "/./g") ≡ codes "http://a/g" }
    ensures row_4 { target_text (codes "http://a/b/c/d;p?q") (codes "/../g") ≡ codes "http://a/g" }
    ensures row_5 { target_text (codes "http://a/b/c/d;p?q") (codes "g.")
        ≡ codes "http://a/b/c/g." }
    ensures row_6 { target_text (codes "http://a/b/c/d;p?q") (codes ".g")
        ≡ codes "http://a/b/c/.g" }
    ensures row_7 { target_text (codes "http://a/b/c/d;p?q") (codes "g..")
        ≡ codes "http://a/b/c/g.." }
    ensures row_8 { target_text (codes "http://a/b/c/d;p?q") (codes "..g")
        ≡ codes "http://a/b/c/..g" }
    ensures row_9 { target_text (codes "http://a/b/c/d;p?q") (codes "./../g")
        ≡ codes "http://a/b/g" }
    ensures row_10 { target_text (codes "http://a/b/c/d;p?q") (codes "./g/.")
        ≡ codes "http://a/b/c/g/" }
    ensures row_11 { target_text (codes "http://a/b/c/d;p?q") (codes "g/./h")
        ≡ codes "http://a/b/c/g/h" }
    ensures row_12 { target_text (codes "http://a/b/c/d;p?q") (codes "g/../h")
        ≡ codes "http://a/b/c/h" }
    ensures row_13 { target_text (codes "http://a/b/c/d;p?q") (codes "g;x=1/./y")
        ≡ codes "http://a/b/c/g;x=1/y" }
    ensures row_14 { target_text (codes "http://a/b/c/d;p?q") (codes "g;x=1/../y")
        ≡ codes "http://a/b/c/y" }
    ensures row_15 { target_text (codes "http://a/b/c/d;p?q") (codes "g?y/./x")
        ≡ codes "http://a/b/c/g?y/./x" }
    ensures row_16 { target_text (codes "http://a/b/c/d;p?q") (codes "g?y/../x")
        ≡ codes "http://a/b/c/g?y/../x" }
    ensures row_17 { target_text (codes "http://a/b/c/d;p?q") (codes "g#s/./x")
        ≡ codes "http://a/b/c/g#s/./x" }
    ensures row_18 { target_text (codes "http://a/b/c/d;p?q") (codes "g#s/../x")
        ≡ codes "http://a/b/c/g#s/../x" }
    ensures row_19 { target_text (codes "http://a/b/c/d;p?q") (codes "http:g") ≡ codes "http:g" }
{}

/// The two walks of the standard, and paths without a leading slash (RFC 3986, 5.2.4).
pub fn dot_segments()
    ensures walk_absolute { remove_dot_segments (codes "/a/b/c/./../../g") ≡ codes "/a/g" }
    ensures walk_relative { remove_dot_segments (codes "mid/content=5/../6") ≡ codes "mid/6" }
    ensures front { remove_dot_segments (codes ".././../a") ≡ codes "a" }
    ensures dots_alone { remove_dot_segments (codes "..") ≡ [] }
    ensures first_taken_away { remove_dot_segments (codes "b/../c") ≡ codes "/c" }
    ensures first_stays { remove_dot_segments (codes "b/c/../d") ≡ codes "b/d" }
    ensures empty_segment { remove_dot_segments (codes "/a//../b") ≡ codes "/a/b" }
{}

/// Normal forms (RFC 3986, 6.2.2 and 3.2.3).
pub fn normal_forms()
    ensures letters_triples_dots { normal_form (codes "HTTP://Ex%41mple.com/%7efoo/./bar/../x%2f")
        ≡ codes "http://example.com/~foo/x%2F" }
    ensures empty_port { normal_form (codes "http://a:/") ≡ codes "http://a/" }
    ensures port_stays { normal_form (codes "http://a:80") ≡ codes "http://a:80" }
    ensures relative_dots_stay { normal_form (codes "a/../%7e") ≡ codes "a/../~" }
    ensures guard { normal_form (codes "a:/.//c") ≡ codes "a:/.//c" }
{}

/// What texts mean.
pub fn targets()
    ensures empty { uri_of (codes "") ≡ Ok (codes "json-schema:///") }
    ensures relative { uri_of (codes "a/../b#c") ≡ Ok (codes "json-schema:///b#c") }
    ensures space { uri_of (codes "a b") ≡ Err (parse_refusal (codes "a b")) }
    ensures guard_put { uri_against (codes "a:/b") (codes "/.//c") ≡ Ok (codes "a:/.//c") }
    ensures rootless { uri_against (codes "a:b/c") (codes "../d") ≡ Ok (codes "a:/d") }
    ensures no_scheme { uri_against (codes "/a") (codes "b")
        ≡ Err (resolve_refusal (codes "b") (codes "/a")) }
    ensures same_fragment { uri_against (codes "http://A/#x") (codes "#x")
        ≡ Ok (codes "http://A/#x") }
    ensures dots_as_given_go_first { uri_against (codes "http://a/b/c") (codes "x/%2e%2e/../y")
        ≡ Ok (codes "http://a/b/x/y") }
    ensures decoded_dots_go_then { uri_against (codes "http://a/b/c") (codes "x/../%2E./y")
        ≡ Ok (codes "http://a/y") }
    ensures base_fragment { uri_against (codes "http://a/b#x") (codes "c")
        ≡ Ok (codes "http://a/c") }
    ensures text_of_unparsed { refusal_text (parse_refusal (codes "a b"))
        ≡ codes "Invalid URI reference 'a b': not a URI reference of RFC 3986" }
    ensures text_of_unresolved { refusal_text (resolve_refusal (codes "b") (codes "/a"))
        ≡ codes "Failed to resolve 'b' against '/a': the base has no scheme" }
    ensures own_base { target (codes "http://A/r#x") (codes "#/k") ≡ Ok (codes "http://A/r#x") }
    ensures other_base { target (codes "http://a/r") (codes "s#/k") ≡ Ok (codes "http://a/s") }
    ensures fragment { fragment_part (codes "s#/k") ≡ codes "/k" }
    ensures fragment_in_front { fragment_part (codes "#/k#l") ≡ codes "/k#l" }
{}

/// What resolution is made of (RFC 3986, 5.2.2 and 5.2.3).
pub fn parts_of_resolution()
    ensures query_of_the_base { query_or None (Some (codes "q")) ≡ Some (codes "q") }
    ensures query_of_the_reference { query_or (Some []) (Some (codes "q")) ≡ Some [] }
    ensures directory { through_last_slash (codes "/b/c/d;p") ≡ codes "/b/c/" }
    ensures no_directory { through_last_slash (codes "mid") ≡ [] }
    ensures merged_with_the_root { merged_path (components (codes "http://a")) (codes "g")
        ≡ codes "/g" }
    ensures merged_with_a_directory { merged_path (components (codes "a:b/c")) (codes "../d")
        ≡ codes "b/../d" }
    ensures guarded_path { guarded_path None (codes "//c") ≡ codes "/.//c" }
    ensures unguarded_path { guarded_path (Some []) (codes "//c") ≡ codes "//c" }
    ensures scheme_of_the_default_base { scheme default_base ≡ Some (codes "json-schema") }
    ensures path_of_the_default_base { path default_base ≡ codes "/" }
{}
