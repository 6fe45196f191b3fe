//! Lines that are folded, as plain and quoted scalars have them (6.5, 7.3).
ghost use Rattle.std.specs.Prelude.{◌≡◌, ◌++◌, ◌∷◌, [], false, IfOk, OnOk};
ghost use Rattle.ref_yaml.specs.Flow.{feeds, between, folded};

use crate::bytes::is_white;
use std::alloc::{AllocError, Global};

// Adds line feeds.
pub(crate) fn push_feeds(out: &mut Vec<u8>, count: usize) -> Result<(), AllocError>
    ensures value { OnOk result (out.new.items ≡ out.old.items ++ feeds count) }
{
    for _ in 0..count {
        out.push(b'\n')?;
    }
    Ok(())
}

// Adds what line breaks become.
pub(crate) fn push_between(
    out: &mut Vec<u8>,
    breaks: usize,
    is_joined: bool,
) -> Result<(), AllocError>
    ensures value { OnOk result (out.new.items ≡ out.old.items ++ between breaks is_joined) }
{
    if is_joined {
        return push_feeds(out, breaks);
    }
    if breaks == 1 {
        out.push(b' ')?;
        return Ok(());
    }
    push_feeds(out, breaks.saturating_sub(1))
}

// Adds what line breaks become, and white space.
fn push_gap(
    out: &mut Vec<u8>,
    white: &[u8],
    breaks: usize,
    is_joined: bool,
) -> Result<(), AllocError>
    ensures value { OnOk result
        (out.new.items ≡ out.old.items ++ (between breaks is_joined ++ white.now)) }
{
    push_between(out, breaks, is_joined)?;
    out.extend_from_slice(white)
}

// Adds a byte after a backslash.
fn push_escaped(out: &mut Vec<u8>, byte: u8) -> Result<(), AllocError>
    ensures value { OnOk result (out.new.items ≡ out.old.items ++ (92 ∷ byte ∷ [])) }
{
    out.push(b'\\')?;
    out.push(byte)?;
    Ok(())
}

// The text of lines that are folded; with `escapes` a backslash keeps what is after it.
pub(crate) fn folded(alloc: Global, source: &[u8], escapes: bool) -> Result<Vec<u8>, AllocError>
    ensures value { IfOk result (λ v. v.items ≡ folded escapes false [] 0 false source.now) }
{
    let mut out = Vec::with_capacity(alloc, source.len())?;
    let mut white = Vec::new(alloc);
    let mut breaks: usize = 0;
    let mut is_joined = false;
    let mut is_escaped = false;
    for byte in source {
        if is_escaped {
            is_escaped = false;
            if *byte == b'\n' {
                is_joined = true;
            } else {
                push_escaped(&mut out, *byte)?;
            }
        } else if *byte == b'\n' {
            white.clear();
            breaks += 1;
        } else if is_white(*byte) {
            if breaks == 0 && !is_joined {
                white.push(*byte)?;
            }
        } else {
            push_gap(&mut out, white.as_slice(), breaks, is_joined)?;
            white.clear();
            breaks = 0;
            is_joined = false;
            if escapes && *byte == b'\\' {
                is_escaped = true;
            } else {
                out.push(*byte)?;
            }
        }
    }
    if is_escaped {
        out.push(b'\\')?;
        return Ok(out);
    }
    push_gap(&mut out, white.as_slice(), breaks, is_joined)?;
    Ok(out)
}
