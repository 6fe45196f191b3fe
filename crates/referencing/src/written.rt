//! Paths written as references.
ghost use Rattle.std.specs.Prelude.{◌≡◌, ◌<◌, ◌∷◌, map, string_bytes, All, IsUtf8, IfOk, OnOk};
ghost use Rattle.ref_parts.specs.Encoded.{encoded_text};
ghost use Rattle.ref_parts.specs.Pointer.{pointer_text};
ghost use Rattle.ref_paths.specs.Segment.{part_of};
ghost use Rattle.ref_uri.specs.Bytes.{hash};
ghost use Rattle.ref_definitions.specs.Agreement.{IsPathOfTexts};

use ref_parts::path::JsonPointerSegment;
use ref_parts::{EncodedBuffer, pointer_of};
use std::alloc::{AllocError, Global};

// `#` and a pointer, as a fragment holds it (RFC 6901, section 6).
fn fragment_of(alloc: Global, pointer: &str) -> Result<String, AllocError>
    ensures text { IfOk result (λ text. string_bytes text ≡ hash ∷ encoded_text pointer.now) }
    ensures utf8 { IsUtf8 pointer.now }
    ensures bytes { All (λ b. b < 256) pointer.now }
{
    let mut buffer = EncodedBuffer::new(alloc);
    buffer.push_str(pointer)?;
    let mut reference = String::from_str(alloc, "#")?;
    reference.push_str(buffer.as_str())?;
    Ok(reference)
}

/// The reference that a path is written as: `#` and its pointer text, as a fragment holds it. Linear in the path's keys; takes
/// memory for the texts.
pub(crate) fn reference_of(
    alloc: Global,
    path: &[JsonPointerSegment<'_>],
) -> Result<String, AllocError>
    ensures text { IfOk result
        (λ text. string_bytes text ≡ hash ∷ encoded_text (pointer_text (map part_of path.now))) }
    ensures texts { OnOk result (IsPathOfTexts (map part_of path.now)) }
{
    let pointer = pointer_of(alloc, path)?;
    fragment_of(alloc, pointer.as_str())
}
