//! The two parts of a reference to a schema: the URI that it points into, and the fragment.
ghost use Rattle.std.specs.Prelude.{◌≡◌};
ghost use Rattle.ref_uri.specs.Targets as uri;

use crate::blocks::may_hold;

/// What is before the last `#` of a reference, which is the whole where there is none, and its fragment: what follows a `#` in
/// front, or else the last `#`.
#[inline(always)]
pub fn parts(reference: &str) -> (&str, &str)
    ensures uri { result.0.now ≡ uri.uri_part reference.now }
    ensures fragment { result.1.now ≡ uri.fragment_part reference.now }
{
    if may_hold(reference.as_bytes(), b'#') {
        parts_around_hash(reference)
    } else {
        (reference, "")
    }
}

// The same for any reference, by a search from its end; `parts` is for most references, which have no `#`, without it.
#[inline(never)]
fn parts_around_hash(reference: &str) -> (&str, &str)
    ensures uri { result.0.now ≡ uri.uri_part reference.now }
    ensures fragment { result.1.now ≡ uri.fragment_part reference.now }
{
    let Some((uri, last)) = reference.rsplit_once('#') else {
        return (reference, "");
    };
    match reference.strip_prefix('#') {
        Some(fragment) => (uri, fragment),
        None => (uri, last),
    }
}

/// What is before the last `#` of a reference.
pub fn uri_part(reference: &str) -> &str
    ensures value { result.now ≡ uri.uri_part reference.now }
{
    parts(reference).0
}
