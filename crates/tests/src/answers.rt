//! Answers that are to be the same.
use crate::fault::Fault;
use std::alloc::Global;

/// An answer that is found in two ways.
pub fn agreed(
    alloc: Global,
    first: String,
    second: String,
    by: [&str; 2],
) -> Result<String, Fault> {
    if first.as_str() == second.as_str() {
        return Ok(first);
    }
    let [one, other] = by;
    let text = format!(in alloc; "{first} {one}, {second} {other}")?;
    Err(Fault::Text(text))
}

/// What is to hold, or else what is said.
pub fn expect(holds: bool, text: &'static str) -> Result<(), Fault> {
    if holds {
        return Ok(());
    }
    Err(Fault::Form(text))
}
