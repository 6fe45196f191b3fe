//! The keywords of Draft 6.
ghost use Rattle.std.specs.Prelude.{◌≡◌};
ghost use Rattle.ref_draft.specs.Keywords.{holding_of, is_one_of, row_6};

use crate::draft::Draft;
use crate::spec::columns::{is_array, is_map};
use crate::spec::{Holding, items_or_dependencies};

// How a keyword holds its subschemas. Those that most schemas have come first.
pub(crate) fn holding(keyword: &str) -> Holding
    ensures { result ≡ holding_of Draft.Draft6 keyword.now }
{
    if is_map(keyword) {
        Holding::Members
    } else if is_value(keyword) {
        Holding::Whole
    } else if is_array(keyword) {
        Holding::Elements
    } else {
        items_or_dependencies(keyword)
    }
}

// Those whose value is one.
fn is_value(keyword: &str) -> bool
    ensures { result ≡ is_one_of keyword.now row_6.values }
{
    matches!(
        keyword,
        "additionalItems" | "additionalProperties" | "contains" | "not" | "propertyNames"
    )
}
