//! Which texts a place may have that findings are about.
ghost use Rattle.std.specs.Prelude.{◌≡◌, ◌<◌, ℕ, List, true, false, None, is_some, [], ◌∷◌, codes, slice_index};
ghost use Rattle.serde_json.specs.View.{view};
ghost use Rattle.serde_json.specs.Find.{get};
ghost use Rattle.ref_draft.specs.Keywords.{id_keyword};
ghost use Rattle.ref_draft.specs.Schema.{text_under as text_in, identifier};
ghost use Rattle.ref_draft.specs.Anchors.{anchors as anchors_of};
ghost use Rattle.ref_findings.specs.inner.Plain.{AreAmong, HasNoDynamic};

use ref_draft::{AnchorIter, Draft, ResourceRef};
use ref_index::meanings::text_under;
use serde_json::Value;

/// Which texts a place may have that findings are about: what it lacks is not looked for again.
#[derive(Clone, Copy)]
pub(crate) struct Texts {
    pub id: bool,
    pub reference: bool,
    pub schema: bool,
    pub anchor: bool,
    pub dynamic: bool,
}

impl Texts {
    /// None.
    pub const NONE: Texts = Texts {
        id: false,
        reference: false,
        schema: false,
        anchor: false,
        dynamic: false,
    };

    /// Whether there is none, as of most places.
    pub fn is_empty(self) -> bool
        ensures reference { result ≡ true → self.reference ≡ false }
        ensures schema { result ≡ true → self.schema ≡ false }
        ensures id { result ≡ true → self.id ≡ false }
        ensures anchor { result ≡ true → self.anchor ≡ false }
        ensures dynamic { result ≡ true → self.dynamic ≡ false }
    {
        if self.reference || self.schema {
            return false;
        }
        if self.dynamic {
            return false;
        }
        !self.id && !self.anchor
    }
}

// Whether a value has a text under a keyword.
fn has_text(value: &Value, keyword: &str) -> bool
    ensures { result ≡ false → text_in keyword.now (view value.now) ≡ None }
{
    match text_under(value, keyword) {
        Some(_) => true,
        None => false,
    }
}

// Whether a value has a member.
fn has_member(value: &Value, keyword: &str) -> bool
    ensures { result ≡ is_some (get keyword.now (view value.now)) }
{
    value.get(keyword).is_some()
}

// Whether it may have a dynamic reference.
fn has_dynamic(value: &Value) -> bool
    ensures { result ≡ false → HasNoDynamic (view value.now) }
{
    if has_member(value, "$dynamicRef") {
        return true;
    }
    has_member(value, "$recursiveRef")
}

// Whether it has an identifier.
fn has_id(value: &Value, draft: Draft) -> bool
    ensures { result ≡ false → identifier draft (view value.now) ≡ None }
{
    match ResourceRef::new(value, draft).id() {
        Some(_) => true,
        None => false,
    }
}

// Whether it has an anchor.
fn has_anchor(value: &Value, draft: Draft) -> bool
    ensures { result ≡ false → anchors_of draft (view value.now) ≡ [] }
{
    match draft.anchors(value) {
        AnchorIter::Empty => false,
        _ => true,
    }
}

// Whether a text comes after those that begin with `$`, by its first byte.
fn is_after_dollar(text: &str) -> bool
    ensures { result ≡ true → 36 < slice_index text.now 0 }
{
    match text.as_bytes().first() {
        Some(first) => *first > b'$',
        None => false,
    }
}

// Whether no key of a value begins with `$`, as the first one of an object shows: keys are in byte order. Of an empty
// object it isn't known.
fn lacks_dollar(value: &Value) -> bool
    ensures { result ≡ true → (key : List ℕ) → is_some (get (36 ∷ key) (view value.now)) ≡ false }
{
    let Some(members) = value.as_object() else {
        return true;
    };
    let Some((first, _)) = members.first_key_value() else {
        return false;
    };
    is_after_dollar(first.as_str())
}

// Whether a draft's identifiers are under `$id`.
fn has_dollar_id(draft: Draft) -> bool
    ensures { result ≡ true → id_keyword draft ≡ codes "$id" }
{
    match draft {
        Draft::Draft4 => false,
        _ => true,
    }
}

/// The texts that a value has.
pub(crate) fn texts_of(value: &Value, draft: Draft) -> Texts
    ensures among { AreAmong result draft (view value.now) }
{
    if has_dollar_id(draft) && lacks_dollar(value) {
        return Texts::NONE;
    }
    Texts {
        id: has_id(value, draft),
        reference: has_member(value, "$ref"),
        schema: has_text(value, "$schema"),
        anchor: has_anchor(value, draft),
        dynamic: has_dynamic(value),
    }
}
