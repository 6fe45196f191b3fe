//! Pointer text (RFC 6901), and the containers that a reference resolver shares: a list with shared tails, a small map, and a
//! sorted table. The paths into JSON values that pointer text means are those of `ref_paths`, which are re-exported here.
//!
//! Read `specs/Path.antt` of `ref_paths` first, which says what a path is and which value is at it, then `specs/Pointer.antt`
//! here, which says what pointer text means. `laws` has what holds of both.
#![tactic(auto)]

pub mod encoded;
pub mod escape;
pub mod evaluate;
pub mod laws;
pub mod list;
mod scan;
mod segments;
pub mod small_map;
pub mod table;

pub use encoded::{EncodedBuffer, EncodedString};
pub use escape::{first_escape, unescape_segment, write_escaped_str, write_index};
pub use evaluate::{parse_index, pointer};
pub use list::{Iter, List};
pub use ref_paths::{JsonPointerNode, JsonPointerSegment, path};
pub use segments::{pointer_of, value_at};
pub use small_map::{BorrowedKey, SmallMap};
pub use table::{SortedTable, TableEntries};
