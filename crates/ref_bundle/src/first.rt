//! The first of what checks find.
ghost use Rattle.std.specs.Prelude.{◌≡◌};
ghost use Rattle.ref_bundle.specs.inner.First.{first_found};

use std::alloc::AllocError;

/// What the first of two checks found, or else what the second did.
pub(crate) fn first_found<T: Drop>(
    found: Result<Option<T>, AllocError>,
    other: Result<Option<T>, AllocError>,
) -> Result<Option<T>, AllocError>
    ensures value { result ≡ first_found found other }
{
    match found {
        Ok(None) => other,
        found => found,
    }
}
