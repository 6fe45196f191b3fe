//! The keywords of Draft 4.
ghost use Rattle.std.specs.Prelude.{◌≡◌};
ghost use Rattle.ref_draft.specs.Keywords.{boolean_or_schema, holding_of, is_one_of};

use crate::draft::Draft;
use crate::spec::columns::{is_array_or_prefix, is_map_or_defs, is_value};
use crate::spec::{Holding, items_or_dependencies};

// How a keyword holds its subschemas.
pub(crate) fn holding(keyword: &str) -> Holding
    ensures { result ≡ holding_of Draft.Draft4 keyword.now }
{
    if is_boolean_or_schema(keyword) {
        Holding::WholeObject
    } else if is_value(keyword) {
        Holding::Whole
    } else if is_array_or_prefix(keyword) {
        Holding::Elements
    } else if is_map_or_defs(keyword) {
        Holding::Members
    } else {
        items_or_dependencies(keyword)
    }
}

// Those that may have a boolean, which is no schema, in place of one.
fn is_boolean_or_schema(keyword: &str) -> bool
    ensures { result ≡ is_one_of keyword.now (boolean_or_schema Draft.Draft4) }
{
    matches!(keyword, "additionalItems" | "additionalProperties")
}
