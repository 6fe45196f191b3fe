//! Whether anything may be told of a place: most have no member for which there is something to be told, and aren't looked at twice.
ghost use Rattle.std.specs.Prelude.{◌≡◌, ℕ, List, [], map, true, false, None};
ghost use Rattle.serde_json.specs.View.{view};
ghost use Rattle.serde_json.specs.Find.{get};
ghost use Rattle.ref_draft.specs.declared.draft.Draft.{Draft as Version};
ghost use Rattle.ref_draft.specs.Keywords.{is_one_of};
ghost use Rattle.ref_rules.specs.Dialects.{misspelled};
ghost use Rattle.ref_rules.specs.Slips.{dialects_within, beside_ref, misspelled_at, slips_at};
ghost use Rattle.ref_rules.specs.Tables as tables;
ghost use Rattle.ref_rules.specs.Views.{place_of};
ghost use Rattle.ref_rules.specs.inner.Firsts.{is_first};

use crate::list::{has_text, text_under};
use crate::slip::Place;
use crate::tables::of_others;
use ref_draft::Draft;

// Whether a text is the URI of a draft's meta-schema, which may lack its `#`.
fn is_uri(text: &str) -> bool
    ensures { result ≡ true → misspelled text.now ≡ None }
{
    matches!(
        text,
        "http://json-schema.org/draft-04/schema#"
            | "http://json-schema.org/draft-04/schema"
            | "http://json-schema.org/draft-06/schema#"
            | "http://json-schema.org/draft-06/schema"
            | "http://json-schema.org/draft-07/schema#"
            | "http://json-schema.org/draft-07/schema"
            | "https://json-schema.org/draft/2019-09/schema"
            | "https://json-schema.org/draft/2020-12/schema"
    )
}

// Whether something may be told of the `$schema` of a place: not where it is the URI of a meta-schema at a root.
fn has_slip_in_dialect(place: Place<'_>) -> bool
    ensures within { result ≡ false → dialects_within (place_of place.entry) ≡ [] }
    ensures misspelled { result ≡ false → (n : ℕ) → misspelled_at n (place_of place.entry) ≡ [] }
{
    match text_under(place.value, "$schema") {
        Some(text) => !place.is_root || !is_uri(text),
        None => false,
    }
}

// Whether a draft ignores what is beside a `$ref`.
fn is_earlier(draft: Draft) -> bool
    ensures decides { result ≡ false → tables.decides draft ≡ [] }
    ensures tells { result ≡ false → tables.tells draft ≡ [] }
{
    matches!(draft, Draft::Draft4 | Draft::Draft6 | Draft::Draft7)
}

// Whether a value has several members.
fn has_several(place: Place<'_>) -> bool
    ensures decides { result ≡ false
        → beside_ref (place_of place.entry) (tables.decides place.entry.draft) ≡ [] }
    ensures tells { result ≡ false
        → beside_ref (place_of place.entry) (tables.tells place.entry.draft) ≡ [] }
{
    match place.value.as_object() {
        Some(members) => members.len() > 1,
        None => false,
    }
}

// Whether something may be told of what is beside the `$ref` of a place.
fn has_slip_beside(place: Place<'_>) -> bool
    ensures decides { result ≡ false
        → beside_ref (place_of place.entry) (tables.decides place.entry.draft) ≡ [] }
    ensures tells { result ≡ false
        → beside_ref (place_of place.entry) (tables.tells place.entry.draft) ≡ [] }
{
    is_earlier(place.draft) && has_several(place) && has_text(place.value, "$ref")
}

// Whether a keyword of a draft that another one doesn't have begins with this byte.
fn is_first(first: u8) -> bool
    ensures { result ≡ is_first first }
{
    matches!(
        first,
        b'$' | b'c' | b'd' | b'e' | b'i' | b'm' | b'p' | b't' | b'u'
    )
}

// Whether a text begins as a keyword that some draft doesn't have, and another one has. Most others are told apart by that.
fn may_be_other(keyword: &str) -> bool
    ensures { (d : Version) → result ≡ false → is_one_of keyword.now (tables.of_others d) ≡ false }
{
    match keyword.as_bytes() {
        [first, ..] => is_first(*first),
        [] => false,
    }
}

// Whether a keyword is one of these.
fn is_among(keywords: &[&str], keyword: &str) -> bool
    ensures { result ≡ is_one_of keyword.now (map (λ k. k.now) keywords.now) }
{
    keywords.contains(&keyword)
}

// Whether a keyword is one that a draft doesn't have, and another one has.
fn is_other(draft: Draft, keyword: &str) -> bool
    ensures { result ≡ is_one_of keyword.now (tables.of_others draft) }
{
    may_be_other(keyword) && is_among(of_others(draft), keyword)
}

// Whether a place has a member that its draft doesn't have, and another one has.
fn has_other(place: Place<'_>) -> bool
    ensures { result ≡ false → (k : List ℕ)
        → is_one_of k (tables.of_others place.entry.draft) ≡ true
        → get k (view place.entry.value.now) ≡ None }
{
    let Some(members) = place.value.as_object() else {
        return false;
    };
    for (key, _) in members {
        if is_other(place.draft, key.as_str()) {
            return true;
        }
    }
    false
}

/// Whether anything may be told of a place: where this is false `slips` has nothing on it. Takes no memory. A step for each member, and two look-ups.
pub fn may_slip(place: Place<'_>) -> bool
    ensures none { result ≡ false → (n : ℕ) → slips_at (n, place_of place.entry) ≡ [] }
{
    has_other(place) || has_slip_in_dialect(place) || has_slip_beside(place)
}
