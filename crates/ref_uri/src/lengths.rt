//! Where the components of a reference are in its text.
ghost use Rattle.std.specs.Prelude.{◌≡◌, ◌≤◌, ◌+◌, option_map, take, drop, length, option_copied, IsAscii};
ghost use Rattle.ref_uri.specs.Components.{scheme, authority, path, query, fragment, after_scheme, after_authority, after_path, after_query, text_after, fragment_in_front};
ghost use Rattle.ref_uri.specs.inner.Written.{the_front, the_rest};
ghost use Rattle.std.specs.Option.{ForSome};

/// How long the components of a reference are. The fragment goes to the end of the text.
#[derive(Clone, Copy)]
pub struct Lengths {
    pub scheme: Option<usize>,
    pub authority: Option<usize>,
    pub path: usize,
    pub query: Option<usize>,
}

/// The front of an ASCII text.
pub fn head(text: &str, len: usize) -> &str
    requires ascii { IsAscii text.now }
    requires within { len ≤ length text.now }
    ensures { result.now ≡ take len text.now }
{
    &text[..len]
}

/// What follows the front of an ASCII text.
pub fn tail(text: &str, len: usize) -> &str
    requires ascii { IsAscii text.now }
    requires within { len ≤ length text.now }
    ensures value { result.now ≡ drop len text.now }
    ensures ascii { IsAscii result.now }
{
    &text[len..]
}

/// The component of this length after its mark, if it is there.
fn component(text: &str, len: Option<usize>, mark: usize) -> Option<&str>
    requires ascii { IsAscii text.now }
    requires within { ForSome len (λ n. n + mark ≤ length text.now) }
    ensures { option_copied result ≡ option_map (λ n. take n (drop mark text.now)) len }
{
    match len {
        Some(len) => Some(head(tail(text, mark), len)),
        None => None,
    }
}

/// What follows a component of this length and its marks, if it is there.
fn after_component(text: &str, len: Option<usize>, marks: usize) -> &str
    requires ascii { IsAscii text.now }
    requires within { ForSome len (λ n. n + marks ≤ length text.now) }
    ensures value { result.now ≡ text_after len marks text.now }
    ensures ascii { IsAscii result.now }
{
    match len {
        Some(len) => tail(text, len + marks),
        None => text,
    }
}

/// The fragment after its `#`, if it is there.
fn fragment(text: &str) -> Option<&str>
    requires { IsAscii text.now }
    ensures { option_copied result ≡ fragment_in_front text.now }
{
    match text.as_bytes() {
        [b'#', ..] => Some(tail(text, 1)),
        _ => None,
    }
}

/// The components of a reference as parts of its text.
#[derive(Clone, Copy)]
pub struct Parts<'a> {
    pub scheme: Option<&'a str>,
    pub authority: Option<&'a str>,
    pub path: &'a str,
    pub query: Option<&'a str>,
    pub fragment: Option<&'a str>,
    /// Scheme and authority with their marks, as they are before the path.
    pub front: &'a str,
    /// Query and fragment with their marks, as they are after the path.
    pub rest: &'a str,
}

impl Lengths {
    ghost use Rattle.ref_uri.specs.inner.Lengths.{IsParsed};

    /// The components, each where it is in the text.
    pub fn parts(self, text: &str) -> Parts<'_>
        requires { IsParsed text.now self }
        ensures scheme { option_copied result.scheme ≡ scheme text.now }
        ensures authority { option_copied result.authority ≡ authority text.now }
        ensures path { result.path.now ≡ path text.now }
        ensures query { option_copied result.query ≡ query text.now }
        ensures fragment { option_copied result.fragment ≡ fragment text.now }
        ensures front { result.front.now ≡ the_front (scheme text.now) (authority text.now) }
        ensures rest { result.rest.now ≡ the_rest (query text.now) (fragment text.now) }
        ensures ascii { IsAscii result.front.now }
    {
        let after_scheme = after_component(text, self.scheme, 1);
        let after_authority = after_component(after_scheme, self.authority, 2);
        let front = head(text, text.len() - after_authority.len());
        let after_path = tail(after_authority, self.path);
        let after_query = after_component(after_path, self.query, 1);
        Parts {
            scheme: component(text, self.scheme, 0),
            authority: component(after_scheme, self.authority, 2),
            path: head(after_authority, self.path),
            query: component(after_path, self.query, 1),
            fragment: fragment(after_query),
            front,
            rest: after_path,
        }
    }
}
