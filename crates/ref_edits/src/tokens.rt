//! Which token of a reference's fragment stands for a value.
ghost use Rattle.std.specs.Prelude.{◌≡◌, length};
ghost use Rattle.ref_edits.specs.Tokens as spec;

/// How many tokens a JSON Pointer has (RFC 6901, 3): each begins with a slash.
pub(crate) fn depth_of(pointer: &str) -> usize
    ensures value { result ≡ spec.depth_of pointer.now }
{
    let mut rest = pointer.as_bytes();
    let mut depth: usize = 0;
    'bytes: while let [byte, more @ ..] = rest {
        if *byte == b'/' {
            depth += 1;
        }
        rest = more;
    }
    depth
}

/// The number of the token, from 0, that stands for the last step to a value so deep, in a fragment of so many tokens that leads so deep: nothing where the fragment
/// begins at that value or in it.
pub(crate) fn token_for(moved: usize, led: usize, tokens: usize) -> Option<usize>
    ensures value { result ≡ spec.token_for moved led tokens }
{
    if led < tokens {
        return None;
    }
    let resource = led - tokens;
    if resource < moved {
        Some(moved - resource - 1)
    } else {
        None
    }
}

// Whether a pointer goes on at the end of a token.
fn ends_token(rest: &[u8]) -> bool
    ensures { result ≡ spec.ends_token rest.now }
{
    match rest {
        [] => true,
        [byte, ..] => *byte == b'/',
    }
}

/// Whether what is at a pointer is the value at another one, or is in it.
pub(crate) fn is_within(pointer: &str, outer: &str) -> bool
    ensures value { result ≡ spec.is_within pointer.now outer.now }
{
    let mut left = pointer.as_bytes();
    let mut wanted = outer.as_bytes();
    'bytes: while let [byte, rest @ ..] = wanted {
        match left {
            [own, more @ ..] if *own == *byte => left = more,
            _ => return false,
        }
        wanted = rest;
    }
    ends_token(left)
}
