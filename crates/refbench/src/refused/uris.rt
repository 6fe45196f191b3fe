//! Calls of `ref_uri`.
use crate::refused::stop::{Shown, Stop, after, before, outcome, refused};
use crate::refused::trial::{Calls, Trial, tried};
use ref_uri::uri::{from_str, resolve_against};
use ref_uri::{Uri, UriRef};
use std::alloc::{AllocError, Global};

/// URIs that are before a call.
#[derive(Drop)]
struct Uris {
    /// `HTTP://A/./%7e`.
    given: Uri,
    /// `http://a:1/b?c#d`.
    whole: Uri,
    /// `http://a/r#x`, whose fragment is set.
    set: Uri,
}

/// The row of a call.
pub fn row(alloc: Global, call: &str) -> Result<Trial, Stop> {
    let mut uris = Uris {
        given: before(Uri::parse(alloc, "HTTP://A/./%7e"))?,
        whole: before(Uri::parse(alloc, "http://a:1/b?c#d"))?,
        set: before(Uri::parse(alloc, "http://a/r#x"))?,
    };
    tried(
        alloc,
        &mut uris,
        "uris",
        call,
        &["normalize", "clone", "readers"],
    )
}

impl Calls for Uris {
    fn answer(&mut self, alloc: Global, call: &str) -> Result<String, Stop> {
        match call {
            "parse" => outcome(alloc, Uri::parse(alloc, "http://a/r")),
            "from_str" => outcome(alloc, from_str(alloc, "HTTP://A/x/../%72")),
            "from_str invalid" => outcome(alloc, from_str(alloc, "a b")),
            "resolve_against" => meant_against(alloc, "http://a/b/c/d;p?q", "../g"),
            "resolve_against invalid" => meant_against(alloc, "http://a/b/c/d;p?q", "a b"),
            "resolve_against without a scheme" => meant_against(alloc, "b", "../g"),
            "reference.resolve_against" => resolved(alloc),
            "reference.normalize" => normal_text(alloc),
            "normalize" => outcome(alloc, self.given.normalize(alloc)),
            "clone" => outcome(alloc, self.whole.clone()),
            "set_fragment" => with_fragment(alloc, &mut self.set, Some("/properties/name")),
            "set_fragment none" => with_fragment(alloc, &mut self.set, None),
            "readers" => read(alloc, &self.whole),
            _ => Err(Stop::Wrong),
        }
    }
}

impl Shown for Uri {
    fn shown(&self, alloc: Global) -> Result<String, AllocError> {
        String::from_str(alloc, self.as_str())
    }
}

/// A reference, which takes no memory.
fn reference(text: &str) -> Result<UriRef<'_>, Stop> {
    UriRef::parse(text).ok().ok_or(Stop::Wrong)
}

fn meant_against(alloc: Global, base: &str, text: &str) -> Result<String, Stop> {
    outcome(alloc, resolve_against(alloc, reference(base)?, text))
}

fn resolved(alloc: Global) -> Result<String, Stop> {
    let base = reference("http://a/b/c/d;p?q")?;
    outcome(alloc, reference("g;x=1/../y")?.resolve_against(alloc, base))
}

fn normal_text(alloc: Global) -> Result<String, Stop> {
    let given = reference("HTTP://A/./%7e")?;
    match given.normalize(alloc) {
        Ok(text) => Ok(text),
        Err(error) => Err(refused(&error, given.as_str() == "HTTP://A/./%7e")),
    }
}

/// The parts of a URI, with no text for those that it hasn't.
fn parts(uri: &Uri) -> [&str; 5] {
    [
        uri.scheme(),
        uri.authority().unwrap_or(""),
        uri.path(),
        uri.query().unwrap_or(""),
        uri.fragment().unwrap_or(""),
    ]
}

/// Whether a URI's calls return what they do of `http://a/r#x`.
fn has_rows(uri: &Uri) -> bool {
    uri.as_str() == "http://a/r#x"
        && parts(uri) == ["http", "a", "/r", "", "x"]
        && uri.query().is_none()
        && uri.strip_fragment().as_str() == "http://a/r"
}

fn with_fragment(alloc: Global, uri: &mut Uri, fragment: Option<&str>) -> Result<String, Stop> {
    match uri.set_fragment(fragment) {
        Ok(()) => after(String::from_str(alloc, uri.as_str())),
        Err(error) => Err(refused(&error, has_rows(uri))),
    }
}

fn read(alloc: Global, uri: &Uri) -> Result<String, Stop> {
    let [scheme, authority, path, query, fragment] = parts(uri);
    let whole = uri.strip_fragment();
    let rest = whole.as_str();
    after(format!(in alloc; "{scheme} {authority} {path} {query} {fragment} {rest}"))
}
