//! Rows of the definitions. Each function is empty: its clauses are rows, and the check computes them.
#![tactic(auto, unfolding(crate::proofs::OnLiterals::ref_files_on_literals))]

ghost use Rattle.std.specs.Prelude.{◌≡◌, [], ◌∷◌, true, false, codes, Some, None};
ghost use Rattle.ref_files.specs.Excluded.{is_below, is_excluded, leaves_out, unused, used};
ghost use Rattle.ref_files.specs.Maps.{best_of};
ghost use Rattle.ref_files.specs.Plain.{IsPlain, Lacks, slash, ends_in_slash, folder_of, last_name, path_from, path_in, path_of};
ghost use Rattle.ref_files.specs.declared.excluded.What.TheVariants.{Nothing};
ghost use Rattle.ref_files.specs.Meant.{AreNames, IsName, after, decoded_segments, ends_path, path_after, path_alone, uri_after, without_slashes};
ghost use Rattle.ref_files.specs.Uris.{colon, is_kept, is_kept_first, path_text, relative_text};

/// What is the name of a file or a folder, and what isn't.
pub fn names()
    ensures hidden { IsPlain (codes ".a") }
    ensures three_dots { IsPlain (codes "...") }
    ensures empty { ¬ (IsPlain []) }
    ensures folder_itself { ¬ (IsPlain (codes ".")) }
    ensures folder_above { ¬ (IsPlain (codes "..")) }
    ensures with_a_slash { ¬ (IsPlain (codes "a/b")) }
    ensures with_a_nul { ¬ (IsPlain (97 ∷ 0 ∷ [])) }
    ensures lacks { Lacks 47 (codes "ab") }
    ensures has { ¬ (Lacks 98 (codes "ab")) }
    ensures of_two_bytes { IsName (195 ∷ 169 ∷ []) }
    ensures no_utf8 { ¬ (IsName (255 ∷ [])) }
    ensures all { AreNames (codes "a" ∷ codes "b.json" ∷ []) }
    ensures not_all { ¬ (AreNames (codes "a" ∷ codes ".." ∷ [])) }
{}

/// What the segments of a path mean (RFC 3986, 2.1 and 3.3).
pub fn segments()
    ensures two { decoded_segments (codes "a/b.json") ≡ codes "a" ∷ codes "b.json" ∷ [] }
    ensures space { decoded_segments (codes "a%20b") ≡ codes "a b" ∷ [] }
    ensures dots { decoded_segments (codes "%2E%2e/a") ≡ codes ".." ∷ codes "a" ∷ [] }
    ensures encoded_slash { decoded_segments (codes "a%2Fb") ≡ codes "a/b" ∷ [] }
    ensures no_utf8 { decoded_segments (codes "%FF") ≡ (255 ∷ []) ∷ [] }
    ensures empty { decoded_segments [] ≡ [] ∷ [] }
    ensures slash_at_the_end { decoded_segments (codes "a/") ≡ codes "a" ∷ [] ∷ [] }
{}

/// What a URI has below a prefix.
pub fn prefixes()
    ensures below { path_after (codes "http://a/b") (codes "http://a/b/c/d") ≡ Some (codes "c/d") }
    ensures with_a_slash { path_after (codes "http://a/b/") (codes "http://a/b/c")
        ≡ Some (codes "c") }
    ensures beside { path_after (codes "http://a/b") (codes "http://a/bc") ≡ None }
    ensures itself { path_after (codes "http://a/b") (codes "http://a/b") ≡ None }
    ensures itself_with_a_slash { path_after (codes "http://a/b") (codes "http://a/b/")
        ≡ Some [] }
    ensures elsewhere { path_after (codes "http://a/b") (codes "http://c/b/d") ≡ None }
    ensures query { path_after (codes "http://a/b") (codes "http://a/b/c?d") ≡ None }
    ensures fragment { path_after (codes "http://a/b") (codes "http://a/b/c#d") ≡ None }
    ensures slashes { without_slashes (codes "a//") ≡ codes "a" }
    ensures slashes_alone { without_slashes (codes "/") ≡ [] }
    ensures slash_within { without_slashes (codes "a/b") ≡ codes "a/b" }
    ensures follows { after (codes "ab") (codes "abc") ≡ Some (codes "c") }
    ensures begins_otherwise { after (codes "ab") (codes "acb") ≡ None }
    ensures ends_before { after (codes "ab") (codes "a") ≡ None }
    ensures path_with_a_colon { path_alone (codes "c:d") ≡ Some (codes "c:d") }
    ensures question_mark { codes "?#" ≡ 63 ∷ 35 ∷ [] }
    ensures ends { ends_path 63 ≡ true }
    ensures goes_on { ends_path 47 ≡ false }
{}

/// The URIs of files (RFC 3986, 2.1, 3.3 and 4.2; RFC 8089, 2).
pub fn uris()
    ensures unreserved { path_text (codes "/path/to/file-._~1") ≡ codes "/path/to/file-._~1" }
    ensures reserved { path_text (codes "a b?c#d%e[f]") ≡ codes "a%20b%3Fc%23d%25e%5Bf%5D" }
    ensures sub_delims { path_text (codes "!$&'()*+,;=:@") ≡ codes "!$&'()*+,;=:@" }
    ensures of_two_bytes { path_text (195 ∷ 169 ∷ []) ≡ codes "%C3%A9" }
    ensures backslash { path_text (codes "a\\b") ≡ codes "a%5Cb" }
    ensures colons { relative_text (codes "a:b/c:d") ≡ codes "a%3Ab/c%3Ad" }
    ensures below { uri_after (codes "http://a/b") (codes "c d") ≡ codes "http://a/b/c%20d" }
    ensures below_a_slash { uri_after (codes "http://a/b/") (codes "c") ≡ codes "http://a/b/c" }
    ensures kept { is_kept 64 ≡ true }
    ensures percent { is_kept 37 ≡ false }
    ensures beyond_ascii { is_kept 128 ≡ false }
    ensures colon { codes ":" ≡ colon ∷ [] }
    ensures colon_kept { is_kept colon ≡ true }
    ensures colon_first { is_kept_first colon ≡ false }
    ensures letter_first { is_kept_first 97 ≡ true }
{}

/// The paths of names below a folder.
pub fn paths()
    ensures two { path_of (codes "f") (codes "a" ∷ codes "b" ∷ []) ≡ codes "f/a/b" }
    ensures none { path_of (codes "f") [] ≡ codes "f" }
    ensures root { path_of (codes "/") (codes "a" ∷ []) ≡ codes "/a" }
    ensures slash { codes "/" ≡ slash ∷ [] }
    ensures one { path_in (codes "f/") (codes "a") ≡ codes "f/a" }
    ensures ends { ends_in_slash (codes "f/") ≡ true }
    ensures goes_on { ends_in_slash (codes "/f") ≡ false }
    ensures empty { ends_in_slash [] ≡ false }
{}

/// What is before and after the last slash of a path, and what is at a path from a folder.
pub fn parts_of_paths()
    ensures folder { folder_of (codes "a/b/c") ≡ codes "a/b" }
    ensures no_folder { folder_of (codes "a") ≡ [] }
    ensures name { last_name (codes "a/b") ≡ codes "b" }
    ensures all_of_it { last_name (codes "b") ≡ codes "b" }
    ensures from_a_folder { path_from (codes "a") (codes "b") ≡ codes "a/b" }
    ensures after_a_slash { path_from (codes "a/") (codes "b") ≡ codes "a/b" }
    ensures absolute { path_from (codes "a") (codes "/b") ≡ codes "/b" }
    ensures from_here { path_from [] (codes "b") ≡ codes "b" }
{}

/// What is left out, and which map counts.
pub fn left_out()
    ensures itself { is_below (Some []) ≡ true }
    ensures below { is_below (Some (codes "/a")) ≡ true }
    ensures beside { is_below (Some (codes "a")) ≡ false }
    ensures elsewhere { is_below None ≡ false }
    ensures by_nothing { leaves_out (codes "/a") Nothing ≡ false }
    ensures by_none { is_excluded (codes "/a") [] ≡ false }
    ensures none_used { used (codes "/a") [] ≡ [] }
    ensures none_unused { unused [] ≡ [] }
    ensures no_map { best_of (codes "https://a/b") [] ≡ None }
{}
