//! Passes over the bytes of a scalar.
ghost use Rattle.std.specs.Prelude.{◌≡◌, false, IfOk};
ghost use Rattle.ref_yaml.specs.Flow.{with_feeds, with_quotes};

use std::alloc::{AllocError, Global};

// Line breaks as line feeds (5.4).
pub(crate) fn with_feeds(alloc: Global, source: &[u8]) -> Result<Vec<u8>, AllocError>
    ensures value { IfOk result (λ v. v.items ≡ with_feeds false source.now) }
{
    let mut out = Vec::with_capacity(alloc, source.len())?;
    let mut was_return = false;
    for byte in source {
        if *byte == b'\r' {
            out.push(b'\n')?;
            was_return = true;
        } else {
            if !(was_return && *byte == b'\n') {
                out.push(*byte)?;
            }
            was_return = false;
        }
    }
    Ok(out)
}

// Two single quotes as one (7.3.2).
pub(crate) fn with_quotes(alloc: Global, source: &[u8]) -> Result<Vec<u8>, AllocError>
    ensures value { IfOk result (λ v. v.items ≡ with_quotes false source.now) }
{
    let mut out = Vec::with_capacity(alloc, source.len())?;
    let mut was_quote = false;
    for byte in source {
        if was_quote && *byte == b'\'' {
            was_quote = false;
        } else {
            out.push(*byte)?;
            was_quote = *byte == b'\'';
        }
    }
    Ok(out)
}
