//! Texts that are read as YAML, and why one is none.
use crate::text::{Fault, fault_at};
use ref_yaml::{Document, Leniency, Stop, from_str};
use serde_json::Value;
use std::alloc::{AllocError, Global};

/// The value of a text of YAML, or why it is none and what to do.
pub(crate) fn parsed_yaml(alloc: Global, text: &str) -> Result<Result<Value, Fault>, AllocError> {
    match from_str(alloc, text) {
        Ok(value) => Ok(Ok(value)),
        Err(Stop::Memory) => Err(AllocError),
        Err(Stop::At(fault, offset)) => Ok(Err(fault_at(alloc, text, offset, fault.advice())?)),
    }
}

/// What was read of a text of YAML though YAML 1.2 doesn't have it, and where. Fails only if out of memory. The text is read again.
pub fn leniencies_of(alloc: Global, text: &str) -> Result<Vec<Fault>, AllocError> {
    let mut list = Vec::new(alloc);
    let document = match Document::parse(alloc, text) {
        Ok(document) => document,
        Err(Stop::Memory) => return Err(AllocError),
        Err(Stop::At(..)) => return Ok(list),
    };
    for leniency in document.leniencies() {
        let (offset, what) = match leniency {
            Leniency::Bracket(offset) => (*offset, BRACKET),
            Leniency::DoubleQuoted(offset) => (*offset, DOUBLE_QUOTED),
        };
        push(&mut list, fault_at(alloc, text, offset, what)?)?;
    }
    Ok(list)
}

fn push(list: &mut Vec<Fault>, fault: Fault) -> Result<(), AllocError> {
    list.push(fault)?;
    Ok(())
}

const BRACKET: &str =
    "Read, though YAML 1.2 has this bracket one column further at least: indent it";

const DOUBLE_QUOTED: &str =
    "Read, though YAML 1.2 has the lines of this text indented: indent them";
