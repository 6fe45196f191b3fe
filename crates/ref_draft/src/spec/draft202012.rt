//! The keywords of Draft 2020-12.
ghost use Rattle.std.specs.Prelude.{◌≡◌};
ghost use Rattle.ref_draft.specs.Keywords.{holding_of, is_one_of, row_2020};

use crate::draft::Draft;
use crate::spec::Holding;
use crate::spec::columns::{is_array_or_prefix, is_map_or_defs};

// How a keyword holds its subschemas. Those that most schemas have come first.
pub(crate) fn holding(keyword: &str) -> Holding
    ensures { result ≡ holding_of Draft.Draft202012 keyword.now }
{
    if is_map_or_defs(keyword) {
        Holding::Members
    } else if is_value(keyword) {
        Holding::Whole
    } else if is_array_or_prefix(keyword) {
        Holding::Elements
    } else {
        Holding::Nothing
    }
}

// Those whose value is one.
fn is_value(keyword: &str) -> bool
    ensures { result ≡ is_one_of keyword.now row_2020.values }
{
    matches!(
        keyword,
        "additionalProperties"
            | "contains"
            | "contentSchema"
            | "else"
            | "if"
            | "items"
            | "not"
            | "propertyNames"
            | "then"
            | "unevaluatedItems"
            | "unevaluatedProperties"
    )
}
