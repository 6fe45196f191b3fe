//! Requests that are cut off or have a byte more.
use crate::fault::Fault;
use crate::reports::Ending;
use crate::ways::{at_once, compare};
use std::alloc::Global;

/// Runs on each beginning of a request but the whole, and on the whole with an `x` after it.
pub fn each(alloc: Global, request: &str, ending: &Ending<'_>) -> Result<(), Fault> {
    let bytes = request.as_bytes();
    for end in 0..bytes.len() {
        let found = at_once(alloc, &bytes[..end]);
        compare(alloc, &found, "where it is cut off", ending)?;
    }
    let longer = format!(in alloc; "{request}x")?;
    let found = at_once(alloc, longer.as_str().as_bytes());
    compare(alloc, &found, "with a byte more", ending)
}
