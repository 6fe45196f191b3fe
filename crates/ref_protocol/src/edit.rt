//! Changes of a text.
ghost use Rattle.std.specs.Prelude.{◌≡◌, ◌↔◌, IfOk, IfSome, IfNone, IsTrue, string_bytes};
ghost use Rattle.ref_protocol.specs.Edits.{with_range, IsRange};

use std::alloc::{AllocError, Global};

// Whether what is between two offsets of a text may be replaced.
fn is_range(text: &str, start: usize, end: usize) -> bool
    ensures { IsTrue result ↔ IsRange text.now start end }
{
    start <= end && text.is_char_boundary(start) && text.is_char_boundary(end)
}

/// A text with another one in place of what is between two offsets. Nothing where the second is before the first, or one isn't between
/// characters of the text, so that a change that is refused leaves it. Fails only if out of memory. Linear in both.
pub fn changed(
    alloc: Global,
    text: &str,
    start: usize,
    end: usize,
    new: &str,
) -> Result<Option<String>, AllocError>
    ensures value { IfOk result
        (λ made. IfSome made
        (λ t. string_bytes t ≡ with_range text.now start end new.now)) }
    ensures refused { IfOk result
        (λ made. IfNone made (¬ (IsRange text.now start end))) }
{
    if !is_range(text, start, end) {
        return Ok(None);
    }
    let mut changed = String::new(alloc);
    changed.push_str(&text[..start])?;
    changed.push_str(new)?;
    changed.push_str(&text[end..])?;
    Ok(Some(changed))
}
