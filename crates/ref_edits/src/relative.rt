//! References to a URI from another base.
ghost use Rattle.std.specs.Prelude.{◌≡◌, string_bytes, IfOk, IfSome, IsTrue, Ok};
ghost use Rattle.ref_uri.specs.Targets.{uri_against};
ghost use Rattle.ref_edits.specs.Rebased.{IsRebased};

use crate::fragments::decoded_fragment;
use ref_uri::parts::parts;
use ref_uri::uri::resolve_against;
use ref_uri::{Uri, UriFault, UriRef};
use std::alloc::{AllocError, Global};

/// The URI that a text means against a base, where it means one.
pub(crate) fn meant(alloc: Global, base: &Uri, text: &str) -> Result<Option<Uri>, AllocError>
    ensures value { IfOk result
        (λ uri. IfSome uri (λ u. uri_against base.now text.now ≡ Ok u)) }
{
    match resolve_against(alloc, base.borrow(), text) {
        Ok(uri) => Ok(Some(uri)),
        Err(UriFault::Memory(error)) => Err(error),
        Err(UriFault::Invalid(error)) => {
            drop(error);
            Ok(None)
        }
    }
}

// Whether a text means a URI against a base.
fn is_meant(alloc: Global, base: &Uri, text: &str, target: &Uri) -> Result<bool, AllocError>
    ensures { IfOk result (λ is. IsTrue is → uri_against base.now text.now ≡ Ok target.now) }
{
    match meant(alloc, base, text)? {
        Some(uri) => Ok(uri.as_str() == target.as_str()),
        None => Ok(false),
    }
}

// One text after another.
fn joined(alloc: Global, front: &str, rest: &str) -> Result<String, AllocError> {
    [front, rest].join(alloc, "")
}

// A text, where what is before its `#` means a URI against a base, and what is after it is that of another reference.
fn checked(
    alloc: Global,
    text: String,
    reference: &str,
    base: &Uri,
    target: &Uri,
) -> Result<Option<String>, AllocError>
    ensures { IfOk result
        (λ made. IfSome made
        (λ t. IsRebased base.now target.now reference.now (string_bytes t))) }
{
    let (front, fragment) = parts(text.as_str());
    let (_, own) = parts(reference);
    if fragment == own && is_meant(alloc, base, front, target)? {
        return Ok(Some(text));
    }
    Ok(None)
}

/// A base, and the URI that a reference is to mean against it.
#[derive(Clone, Copy, Drop)]
pub(crate) struct Meaning<'b, 't> {
    /// The base.
    pub base: &'b Uri,
    /// The URI.
    pub target: &'t Uri,
}

// The shortest relative path from a base to a URI beside it.
fn shortest(alloc: Global, meaning: &Meaning<'_, '_>) -> Result<Option<String>, AllocError> {
    if !is_beside(meaning.base, meaning.target) {
        return Ok(None);
    }
    let path = relative_path(alloc, meaning.base.path(), meaning.target.path())?;
    Ok(Some(path))
}

// Whether the shortest path is the same after as before.
fn is_as_short(
    alloc: Global,
    before: &Meaning<'_, '_>,
    after: &Meaning<'_, '_>,
) -> Result<bool, AllocError> {
    match (shortest(alloc, before)?, shortest(alloc, after)?) {
        (Some(path), Some(now)) => Ok(path.as_str() == now.as_str()),
        (None, None) => Ok(true),
        _ => Ok(false),
    }
}

// Whether what is before the `#` of a reference stays: it means what it is to, and, where it is relative, the way there is no other.
fn stays(
    alloc: Global,
    front: &str,
    before: &Meaning<'_, '_>,
    after: &Meaning<'_, '_>,
) -> Result<bool, AllocError> {
    if !is_meant(alloc, after.base, front, after.target)? {
        return Ok(false);
    }
    if has_scheme(front) || front.starts_with('/') {
        return Ok(true);
    }
    is_as_short(alloc, before, after)
}

/// What a reference is to be after a change: the text, where its part before `#` means another URI against the base after the change than it is to mean, or where it is
/// relative and the way from the base to what it means is another. It is written as before: one with a scheme stays with a scheme, one that begins with a slash goes on to do so,
/// and a relative one is the shortest path to its target, with `./` before it where it had that; names of files at its end that stay are written as they were. What is after `#`
/// stays. `None` where the text stays as it is, or no text means the target. Fails only if out of memory.
pub(crate) fn rebased(
    alloc: Global,
    reference: &str,
    before: &Meaning<'_, '_>,
    after: &Meaning<'_, '_>,
) -> Result<Option<String>, AllocError>
    ensures value { IfOk result
        (λ made. IfSome made
        (λ t. IsRebased after.now.base.now after.now.target.now reference.now (string_bytes t))) }
{
    let (front, _) = parts(reference);
    if front.is_empty() || stays(alloc, front, before, after)? {
        return Ok(None);
    }
    let rest = reference.get(front.len()..).unwrap_or("");
    let made = like(alloc, front, after.base, after.target)?;
    let text = joined(alloc, made.as_str(), rest)?;
    if let Some(text) = checked(alloc, text, reference, after.base, after.target)? {
        return Ok(Some(text));
    }
    let text = joined(alloc, after.target.as_str(), rest)?;
    checked(alloc, text, reference, after.base, after.target)
}

// A reference to a URI from a base, written as another one is.
fn like(alloc: Global, front: &str, base: &Uri, target: &Uri) -> Result<String, AllocError> {
    if has_scheme(front) {
        return String::from_str(alloc, target.as_str());
    }
    if front.starts_with("//") {
        return String::from_str(alloc, after_scheme(target));
    }
    if !is_beside(base, target) {
        return String::from_str(alloc, target.as_str());
    }
    if front.starts_with('/') {
        return with_query(alloc, target.path(), target);
    }
    let path = relative_path(alloc, base.path(), target.path())?;
    let path = kept_names(alloc, front, path.as_str())?;
    let path = with_dot(alloc, front, path)?;
    with_query(alloc, path.as_str(), target)
}

fn has_scheme(front: &str) -> bool {
    match UriRef::parse(front) {
        Ok(uri) => uri.has_scheme(),
        Err(_) => false,
    }
}

// What is after the scheme of a URI and its colon.
fn after_scheme(uri: &Uri) -> &str {
    match uri.as_str().split_once(':') {
        Some((_, rest)) => rest,
        None => uri.as_str(),
    }
}

// Whether two URIs have the same scheme and authority, and paths that begin with a slash.
fn is_beside(base: &Uri, target: &Uri) -> bool {
    base.scheme() == target.scheme()
        && base.authority() == target.authority()
        && base.path().starts_with('/')
        && target.path().starts_with('/')
}

// A path with the query of a URI.
fn with_query(alloc: Global, path: &str, uri: &Uri) -> Result<String, AllocError> {
    match uri.query() {
        Some(query) => format!(in alloc; "{path}?{query}"),
        None => String::from_str(alloc, path),
    }
}

/// The shortest relative path from a path to another one (RFC 3986, 5.2.3 and 5.2.4): the folders that both begin with are left out, and `..` stands for each that the
/// first has beside these.
pub(crate) fn relative_path(alloc: Global, base: &str, target: &str) -> Result<String, AllocError> {
    let mut from = base.strip_prefix('/').unwrap_or(base);
    let mut to = target.strip_prefix('/').unwrap_or(target);
    for _ in 0..base.len() {
        match (from.split_once('/'), to.split_once('/')) {
            (Some((folder, more)), Some((other, rest))) if folder == other => {
                from = more;
                to = rest;
            }
            _ => break,
        }
    }
    let mut path = String::new(alloc);
    for byte in from.bytes() {
        if byte == b'/' {
            path.push_str("../")?;
        }
    }
    path.push_str(to)?;
    Ok(path)
}

// The names of a path.
fn names_of<'p>(alloc: Global, path: &'p str) -> Result<Vec<&'p str>, AllocError> {
    let mut names = Vec::new(alloc);
    for name in path.split('/') {
        names.push(name)?;
    }
    Ok(names)
}

// A relative path whose names at the end are written as another path has them, as far as they mean the same.
fn kept_names(alloc: Global, front: &str, path: &str) -> Result<String, AllocError> {
    let (old, _) = front.split_once('?').unwrap_or((front, ""));
    let written = names_of(alloc, old)?;
    let mut names = names_of(alloc, path)?;
    for back in 1..=names.len().min(written.len()) {
        let place = names.len().saturating_sub(back);
        let (Some(own), Some(name)) = (
            written.get(written.len().saturating_sub(back)).copied(),
            names.get(place).copied(),
        ) else {
            break;
        };
        if !is_same_name(alloc, own, name)? {
            break;
        }
        set_name(&mut names, place, own);
    }
    names.as_slice().join(alloc, "/")
}

fn set_name<'p>(names: &mut Vec<&'p str>, place: usize, name: &'p str) {
    if let Some(slot) = names.get_mut(place) {
        *slot = name;
    }
}

// Whether two names of a path mean the same, and no folder above.
fn is_same_name(alloc: Global, name: &str, other: &str) -> Result<bool, AllocError> {
    if name.is_empty() || name == "." || name == ".." {
        return Ok(false);
    }
    if name == other {
        return Ok(true);
    }
    let one = decoded_fragment(alloc, name)?;
    let two = decoded_fragment(alloc, other)?;
    match (one, two) {
        (Some(one), Some(two)) => Ok(one.as_str() == two.as_str()),
        _ => Ok(false),
    }
}

// A relative path with `./` before it, where another one has it, and where it would else be read as something else (RFC 3986, 4.2).
fn with_dot(alloc: Global, front: &str, path: String) -> Result<String, AllocError> {
    if path.as_str().starts_with("../") {
        return Ok(path);
    }
    let (first, _) = path.as_str().split_once('/').unwrap_or((path.as_str(), ""));
    if front.starts_with("./") || path.is_empty() || first.is_empty() || first.contains(':') {
        return format!(in alloc; "./{}", path.as_str());
    }
    Ok(path)
}
