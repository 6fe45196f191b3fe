//! What holds of the definitions in `specs/`, for those who prove code above this crate. Each function does nothing:
//! its clause is the law.
ghost use Rattle.std.specs.Prelude.{◌≡◌, ◌==◌, ◌↔◌, ◌<◌, ◌^◌, ℕ, List, [], ◌∷◌, All, Some, decimal, codes, map};
ghost use Rattle.std.specs.List.{after_first};
ghost use Rattle.percent_encoding.specs.Percent.{percent_decode as decoded};
ghost use Rattle.ref_parts.specs.Encoded.{encoded_text};
ghost use Rattle.serde_json.specs.Data.{Data};
ghost use Rattle.ref_paths.specs.Path.{Part, value_at, HasFittingIndexes};
ghost use Rattle.ref_parts.specs.Pointer.{slash, escape, unescape, part_text, pointer_text, tokens, evaluate, parse_index};
ghost use Rattle.ref_parts.specs.Rows.{PointerRows, TokenRows, ExampleRows, FragmentRows};
ghost use Rattle.ref_parts.specs.Rows.Entries.{EntryRows};
ghost use Rattle.ref_parts.specs.Rows.Escapes.{EscapeRows};
ghost use Rattle.ref_parts.specs.Rows.Maps.{MapRows};
ghost use Rattle.ref_parts.specs.Rows.Lists.{ListRows};
ghost use Rattle.ref_parts.specs.Rows.Tables.{TableRows};

/// Unescaping an escaped key gives the key back.
pub fn unescape_undoes_escape()
    ensures law { (key : List ℕ) → unescape (escape key) ≡ key }
{}

/// A text is an index's exactly where it is that index's decimal text, for indexes that a `usize` holds.
pub fn index_text_is_decimal()
    ensures law { (text : List ℕ) (i : ℕ)
        → (parse_index text ≡ Some i) ↔ ((text ≡ decimal i) × (i < 2 ^ 64)) }
{}

/// The pointer text of a path that leads to a value means that value.
pub fn pointer_text_leads_where_its_path_does()
    ensures law { (document : Data) (path : List Part) (value : Data) → HasFittingIndexes path
        → value_at document path ≡ Some value → evaluate document (pointer_text path) ≡ Some value }
{}

/// Of a path's pointer text as a fragment holds it, what follows the first `/` is decoded to the escaped parts with a `/`
/// between them, where the path isn't empty.
pub fn fragment_has_the_escaped_parts()
    ensures law { (part : Part) (path : List Part) → HasFittingIndexes (part ∷ path)
        → All (λ b. b < 256) (pointer_text (part ∷ path))
        → tokens
        (decoded
        (after_first (λ b. b == slash) (encoded_text (pointer_text (part ∷ path)))))
        ≡ map part_text (part ∷ path) }
{}

/// The worked rows of the definitions of pointer text.
#[tactic(auto, unfolding(crate::proofs::OnLiterals::ref_parts_on_literals))]
pub fn pointer_rows()
    ensures rows { PointerRows }
{}

/// Text as a fragment holds it, and such text read back (RFC 3986, 2.1 and 3.5).
#[tactic(auto, unfolding(crate::proofs::OnLiterals::ref_parts_on_literals))]
pub fn encoded_rows()
    ensures letters_of_two_bytes { encoded_text (195 ∷ 169 ∷ 37 ∷ []) ≡ codes "%C3%A9%25" }
    ensures space { encoded_text (codes "~ ?") ≡ codes "~%20?" }
    ensures slash { encoded_text (codes "/a~1b%") ≡ codes "/a~1b%25" }
    ensures read_back { decoded (codes "%C3%A9%25") ≡ 195 ∷ 169 ∷ 37 ∷ [] }
{}

/// The worked rows of the bytes, tokens and texts that pointer text is made of (RFC 6901, sections 3 and 4).
#[tactic(auto, unfolding(crate::proofs::OnLiterals::ref_parts_on_literals))]
pub fn token_rows()
    ensures rows { TokenRows }
{}

/// The pointers of RFC 6901's example (section 5), and steps that find no value.
pub fn example_rows()
    ensures rows { ExampleRows }
{}

/// That example's pointers as a fragment holds them (RFC 6901, section 6), and the bytes of a fragment (RFC 3986, 3.5).
pub fn fragment_rows()
    ensures rows { FragmentRows }
{}

/// The worked rows of shared lists.
pub fn list_rows()
    ensures rows { ListRows }
{}

/// The worked rows of small maps.
pub fn map_rows()
    ensures rows { MapRows }
{}

/// The worked rows of a small map's entries by their places, and of a value that is written at one.
pub fn entry_rows()
    ensures rows { EntryRows }
{}

/// The worked rows of escapes in keys, and of a whole pointer (RFC 6901, sections 3 and 4).
#[tactic(auto, unfolding(crate::proofs::OnLiterals::ref_parts_on_literals))]
pub fn escape_rows()
    ensures rows { EscapeRows }
{}

/// The worked rows of sorted tables.
pub fn table_rows()
    ensures rows { TableRows }
{}
