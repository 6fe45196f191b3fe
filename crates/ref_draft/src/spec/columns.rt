//! The keywords that hold subschemas in the same way in several drafts.
ghost use Rattle.std.specs.Prelude.{◌≡◌, false};
ghost use Rattle.ref_draft.specs.declared.draft.Draft.{Draft as Version};
ghost use Rattle.ref_draft.specs.declared.spec.Holding.TheVariants.{Nothing};
ghost use Rattle.ref_draft.specs.Keywords.{holding_of, is_one_of, row_4, row_6};
ghost use Rattle.ref_draft.specs.inner.Ends.{are_ends};

// Whether some keyword that holds subschemas begins and ends with these bytes, in any draft.
#[inline(always)]
fn are_ends(first: u8, last: u8) -> bool
    ensures { result ≡ are_ends first last }
{
    match first {
        b'$' => last == b's',
        b'a' => last == b's' || last == b'f',
        b'c' => last == b's' || last == b'a',
        b'd' => last == b's',
        b'e' => last == b'e',
        b'i' => last == b's' || last == b'f',
        b'n' => last == b't',
        b'o' => last == b'f',
        b'p' => last == b's',
        b't' => last == b'n',
        b'u' => last == b's',
        _ => false,
    }
}

// Whether a text begins and ends as a keyword that holds subschemas does, in any draft. Few other keywords do, so most are decided
// without a comparison of texts.
#[inline(always)]
pub(crate) fn may_hold(keyword: &str) -> bool
    ensures { (d : Version) → result ≡ false → holding_of d keyword.now ≡ Nothing }
{
    let bytes = keyword.as_bytes();
    let Some(first) = bytes.first() else {
        return false;
    };
    let Some(last) = bytes.last() else {
        return false;
    };
    are_ends(*first, *last)
}

// In Drafts 4 and 2019-09, those whose value is one.
#[inline(always)]
pub(crate) fn is_value(keyword: &str) -> bool
    ensures { result ≡ is_one_of keyword.now row_4.values }
{
    matches!(
        keyword,
        "additionalItems"
            | "additionalProperties"
            | "contains"
            | "contentSchema"
            | "else"
            | "if"
            | "not"
            | "propertyNames"
            | "then"
            | "unevaluatedItems"
            | "unevaluatedProperties"
    )
}

// In Drafts 6, 7 and 2019-09, those whose arrays have some.
#[inline(always)]
pub(crate) fn is_array(keyword: &str) -> bool
    ensures { result ≡ is_one_of keyword.now row_6.arrays }
{
    matches!(keyword, "allOf" | "anyOf" | "oneOf")
}

// In Drafts 4 and 2020-12, those whose arrays have some.
#[inline(always)]
pub(crate) fn is_array_or_prefix(keyword: &str) -> bool
    ensures { result ≡ is_one_of keyword.now row_4.arrays }
{
    matches!(keyword, "allOf" | "anyOf" | "oneOf" | "prefixItems")
}

// In Drafts 6 and 7, those whose objects have some.
#[inline(always)]
pub(crate) fn is_map(keyword: &str) -> bool
    ensures { result ≡ is_one_of keyword.now row_6.maps }
{
    matches!(keyword, "definitions" | "patternProperties" | "properties")
}

// In Drafts 4, 2019-09 and 2020-12, those whose objects have some.
#[inline(always)]
pub(crate) fn is_map_or_defs(keyword: &str) -> bool
    ensures { result ≡ is_one_of keyword.now row_4.maps }
{
    matches!(
        keyword,
        "$defs" | "definitions" | "dependentSchemas" | "patternProperties" | "properties"
    )
}
