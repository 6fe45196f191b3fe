//! The keywords of Draft 2019-09.
ghost use Rattle.std.specs.Prelude.{◌≡◌};
ghost use Rattle.ref_draft.specs.Keywords.{holding_of};

use crate::draft::Draft;
use crate::spec::columns::{is_array, is_map_or_defs, is_value};
use crate::spec::{Holding, items_or_dependencies};

// How a keyword holds its subschemas. Those that most schemas have come first.
pub(crate) fn holding(keyword: &str) -> Holding
    ensures { result ≡ holding_of Draft.Draft201909 keyword.now }
{
    if is_map_or_defs(keyword) {
        Holding::Members
    } else if is_value(keyword) {
        Holding::Whole
    } else if is_array(keyword) {
        Holding::Elements
    } else {
        items_or_dependencies(keyword)
    }
}
