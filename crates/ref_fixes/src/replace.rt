//! A text with parts replaced.
ghost use Rattle.std.specs.Prelude.{◌≡◌, ◌↔◌, IfOk, IfSome, IfNone, IsTrue, map, string_bytes};
ghost use Rattle.ref_fixes.specs.Replace as spec;

use std::alloc::{AllocError, Global};

/// A part of a text and what comes in its place.
#[derive(Debug, Drop)]
pub struct Replacement {
    /// The offset of its first byte.
    pub start: usize,
    /// The offset after its last byte.
    pub end: usize,
    /// What comes in its place.
    pub text: String,
}

// Whether each part begins and ends between characters of a text, none begins before the one before it ends, and the first not before an offset.
fn are_within(text: &str, from: usize, parts: &[Replacement]) -> bool
    ensures { IsTrue result ↔ spec.AreWithin from (map spec.part_of parts.now) text.now }
{
    match parts {
        [] => true,
        [part, rest @ ..] => {
            from <= part.start
                && part.start <= part.end
                && text.is_char_boundary(part.start)
                && text.is_char_boundary(part.end)
                && are_within(text, part.end, rest)
        }
    }
}

/// A text with each of these parts replaced, and all else as it was. Nothing where a part doesn't begin and end between characters of
/// the text, or begins before the one before it ends. Fails only if out of memory. Linear in the text and the parts.
pub fn replaced(
    alloc: Global,
    text: &str,
    parts: &[Replacement],
) -> Result<Option<String>, AllocError>
    ensures value { IfOk result
        (λ made. IfSome made
        (λ t. string_bytes t ≡ spec.replaced 0 (map spec.part_of parts.now) text.now)) }
    ensures within { IfOk result
        (λ made. IfSome made
        (λ t. spec.AreWithin 0 (map spec.part_of parts.now) text.now)) }
    ensures refused { IfOk result
        (λ made. IfNone made
        (¬ (spec.AreWithin 0 (map spec.part_of parts.now) text.now))) }
{
    if !are_within(text, 0, parts) {
        return Ok(None);
    }
    let mut out = String::new(alloc);
    let mut at: usize = 0;
    let mut rest = parts;
    'parts: while let [part, more @ ..] = rest {
        out.push_str(&text[at..part.start])?;
        out.push_str(part.text.as_str())?;
        at = part.end;
        rest = more;
    }
    out.push_str(&text[at..])?;
    Ok(Some(out))
}
