//! The scan of a pointer's segments: whether they lead from schema to schema.
ghost use Rattle.std.specs.Prelude.{◌≡◌};
ghost use Rattle.ref_draft.specs.ScanSteps.{scan};

use crate::draft::Draft;
use crate::segments::{Segment, Segments};
use crate::spec::Holding;

// Whether the segments are accepted at a value, where `object` says whether that is an object.
#[tactic(auto, using(crate::proofs::Holdings::scan_key))]
pub(crate) fn accepts(draft: Draft, segments: &Segments, object: bool) -> bool
    ensures { result ≡ scan draft object segments.now }
{
    let mut rest = segments.iter();
    while let Some(segment) = rest.next() {
        if let Segment::Key(keyword) = segment {
            match draft.holding(keyword.as_str()) {
                Holding::Whole | Holding::WholeObject => {}
                Holding::Elements | Holding::Members => {
                    if rest.next().is_none() {
                        return false;
                    }
                }
                Holding::ElementsOrWhole | Holding::ObjectMembers => return object,
                Holding::Nothing => return false,
            }
        }
    }
    true
}
