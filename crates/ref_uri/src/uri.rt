//! A URI with a scheme that owns its text.
ghost use Rattle.std.specs.Prelude.{◌≡◌, ◌↔◌, ◌==◌, ◌&&◌, nat_eq, slice_index, Some, None, Ok, Err, List, ℕ, false, true, string_bytes, is_ok, is_some, IsOk, IfOk, IfErr, OnOk, OnErr, IsErrOf, option_copied};
ghost use Rattle.std.specs.List.{ends_with};
ghost use Rattle.ref_uri.specs.Components.{scheme, authority, path, query, fragment, if_there, is_query};
ghost use Rattle.ref_uri.specs.Errors.{Gives, IsFaultOf};
ghost use Rattle.ref_uri.specs.inner.Faults.{IfInvalid};
ghost use Rattle.ref_uri.specs.inner.Lengths.{IsParsedUri};
ghost use Rattle.ref_uri.specs.Resolution.{target_text};
ghost use Rattle.ref_uri.specs.Targets.{default_base, uri_of, uri_against, parse_refusal};
ghost use Rattle.ref_uri.specs.Normal.{normal_form};
ghost use Rattle.ref_uri.specs.Reference.{is_uri_reference, is_uri, with_fragment};
ghost use Rattle.ref_uri.specs.Bytes.{hash};

use crate::characters::{self, Class};
use crate::error::{ParseError, ResolveError, UriError, UriFault, UriParseFault};
use crate::lengths::Lengths;
use crate::parser;
use crate::reference::UriRef;
use std::alloc::{AllocError, Global};
use std::marker::Model;

/// A URI with a scheme (RFC 3986, 3) that owns its text. A fragment may be with it.
#[derive(Drop)]
pub struct Uri {
    text: String,
    lengths: Lengths,
}

impl Model for Uri {
    ghost use Rattle.std.specs.Prelude.{List, ℕ, string_bytes};

    ghost Value = { List ℕ };

    ghost use Rattle.ref_uri.specs.Errors.{IsFaultOf};
    ghost use Rattle.ref_uri.specs.inner.Faults.{IfInvalid};
    ghost use Rattle.ref_uri.specs.inner.Lengths.{IsParsedUri};
    ghost use Rattle.ref_uri.specs.Resolution.{target_text};
    ghost use Rattle.ref_uri.specs.Targets.{default_base, uri_of, uri_against, parse_refusal};

    ghost view = { λ u. string_bytes u.text };

    ghost invariant = { λ u. IsParsedUri (string_bytes u.text) u.lengths };
}

impl Uri {
    /// The URI that the text is, copied. `Syntax` exactly where the text is no URI reference, `NoScheme` exactly where it
    /// is a reference without a scheme (RFC 3986, 3 and 4.1), `Memory` where the copy is refused. Linear in the text.
    pub fn parse(alloc: Global, text: &str) -> Result<Uri, UriParseFault>
        ensures value { IfOk result (λ u. u ≡ text.now) }
        ensures accepted { IsOk result → is_uri text.now ≡ true }
        ensures no_scheme { IsErrOf result (UriParseFault.Invalid ParseError.NoScheme) ↔
            ((is_uri_reference text.now ≡ true) × (scheme text.now ≡ None)) }
        ensures syntax { IsErrOf result (UriParseFault.Invalid ParseError.Syntax) ↔
            (is_uri_reference text.now ≡ false) }
    {
        let lengths = parser::parse(text.as_bytes())?;
        if lengths.scheme.is_none() {
            return Err(UriParseFault::Invalid(ParseError::NoScheme));
        }
        let text = String::from_str(alloc, text)?;
        Ok(Uri { text, lengths })
    }

    /// The same URI, borrowed. A look-up; takes no memory.
    pub fn borrow(&self) -> UriRef<'_>
        ensures value { result ≡ self.now }
    {
        UriRef::from_parsed(self.text.as_str(), self.lengths)
    }

    /// The URI that a text is whose components are so long.
    pub(crate) fn from_written(text: String, lengths: Lengths) -> Uri
        requires { IsParsedUri (string_bytes text) lengths }
        ensures { result ≡ string_bytes text }
    {
        Uri { text, lengths }
    }

    /// The normal form of the URI (RFC 3986, 6.2.2 and 3.2.3), as [`UriRef::normalize`] has it. Takes memory once, and is
    /// refused where there is none. Linear in the text.
    pub fn normalize(&self, alloc: Global) -> Result<Uri, AllocError>
        ensures value { IfOk result (λ uri. uri ≡ normal_form self.now) }
    {
        let uri = UriRef::from_parsed(self.text.as_str(), self.lengths);
        let (text, lengths) = uri.normalized(alloc)?;
        Ok(Uri::from_written(text, lengths))
    }

    pub(crate) fn copy_of(uri: &Uri) -> Result<Uri, AllocError>
        ensures { IfOk result (λ copy. copy ≡ uri.now) }
    {
        Ok(Uri {
            text: uri.text.clone()?,
            lengths: uri.lengths,
        })
    }

    /// The text.
    pub fn as_str(&self) -> &str
        ensures value { result.now ≡ self.now }
    {
        self.text.as_str()
    }

    /// The scheme (RFC 3986, 3.1).
    pub fn scheme(&self) -> &str
        ensures value { Some result.now ≡ scheme self.now }
    {
        self.lengths.parts(self.text.as_str()).scheme.unwrap()
    }

    /// The authority, where there is one: an empty one differs from none (RFC 3986, 3.2).
    pub fn authority(&self) -> Option<&str>
        ensures value { option_copied result ≡ authority self.now }
    {
        self.borrow().authority()
    }

    /// The path, which may be empty (RFC 3986, 3.3).
    pub fn path(&self) -> &str
        ensures value { result.now ≡ path self.now }
    {
        self.borrow().path()
    }

    /// The query, where there is one: an empty one differs from none (RFC 3986, 3.4).
    pub fn query(&self) -> Option<&str>
        ensures value { option_copied result ≡ query self.now }
    {
        self.borrow().query()
    }

    /// The fragment, where there is one: an empty one differs from none (RFC 3986, 3.5).
    pub fn fragment(&self) -> Option<&str>
        ensures value { option_copied result ≡ fragment self.now }
    {
        self.borrow().fragment()
    }

    /// Whether there is a scheme: there always is.
    pub fn has_scheme(&self) -> bool
        ensures value { result ≡ is_some (scheme self.now) }
        ensures always { result ≡ true }
    {
        let text = self.text.as_str();
        UriRef::from_parsed(text, self.lengths).has_scheme()
    }

    /// Whether there is a fragment.
    pub fn has_fragment(&self) -> bool
        ensures value { result ≡ is_some (fragment self.now) }
    {
        self.borrow().has_fragment()
    }

    /// The URI without its fragment, borrowed (RFC 3986, 3.5). A look-up; takes no memory.
    pub fn strip_fragment(&self) -> UriRef<'_>
        ensures value { result ≡ with_fragment self.now None }
    {
        self.borrow().strip_fragment()
    }

    /// Puts the fragment in, or drops it (RFC 3986, 3.5); no other component changes. `Invalid(Syntax)` exactly where the
    /// text is no fragment, `Memory` where a growth is refused; the URI is then as it was. `None` succeeds, and by
    /// the code takes no memory. Linear in the fragment, and in the URI where its text is moved to a larger block.
    pub fn set_fragment(&mut self, fragment: Option<&str>) -> Result<(), UriParseFault>
        ensures ok { OnOk result
            (self.new ≡ with_fragment self.old (option_copied fragment.entry)) }
        ensures syntax { IsErrOf result (UriParseFault.Invalid ParseError.Syntax) ↔
            (if_there is_query (option_copied fragment.entry) ≡ false) }
        ensures scheme_there { IsErrOf result (UriParseFault.Invalid ParseError.NoScheme) → ⊥ }
        ensures dropped { fragment.entry ≡ None → IsOk result }
        ensures err { OnErr result (self.new ≡ self.old) }
    {
        match fragment {
            Some(fragment) => self.put_fragment(fragment),
            None => {
                self.drop_fragment();
                Ok(())
            }
        }
    }

    /// Drops the fragment, where there is one (RFC 3986, 3.5); no other component changes. Takes no memory. Linear in the URI.
    pub fn drop_fragment(&mut self)
        ensures value { self.new ≡ with_fragment self.old None }
    {
        let len = self.strip_fragment().as_str().len();
        self.text.truncate(len);
    }

    fn put_fragment(&mut self, fragment: &str) -> Result<(), UriParseFault>
        ensures ok { OnOk result (self.new ≡ with_fragment self.old (Some fragment.now)) }
        ensures syntax { IsErrOf result (UriParseFault.Invalid ParseError.Syntax) ↔
            (is_query fragment.now ≡ false) }
        ensures scheme_there { IsErrOf result (UriParseFault.Invalid ParseError.NoScheme) → ⊥ }
        ensures err { OnErr result (self.new ≡ self.old) }
    {
        if !characters::is_encoded(fragment.as_bytes(), Class::Query) {
            return Err(UriParseFault::Invalid(ParseError::Syntax));
        }
        let len = self.strip_fragment().as_str().len();
        self.text.reserve(fragment.len() + 1)?;
        self.text.truncate(len);
        self.text.push('#').unwrap();
        self.text.push_str(fragment).unwrap();
        Ok(())
    }
}

/// The reference that a text is.
fn parse_reference(alloc: Global, text: &str) -> Result<UriRef<'_>, UriFault>
    ensures reference { IfOk result (λ reference. reference ≡ text.now) }
    ensures accepted { IsOk result → is_uri_reference text.now ≡ true }
    ensures refused { IfErr result (λ fault. IsFaultOf (Err (parse_refusal text.now)) fault) }
    ensures invalid { IfErr result (λ fault. IfInvalid fault (is_uri_reference text.now ≡ false)) }
{
    match UriRef::parse(text) {
        Ok(reference) => Ok(reference),
        Err(error) => {
            let uri = String::from_str(alloc, text)?;
            Err(UriFault::Invalid(UriError::Parse {
                uri,
                is_reference: true,
                error,
            }))
        }
    }
}

/// The base of texts without a scheme, `json-schema:///`.
fn default_base() -> UriRef<'static>
    ensures { result ≡ default_base }
{
    let lengths = Lengths {
        scheme: Some(11),
        authority: Some(0),
        path: 1,
        query: None,
    };
    UriRef::from_parsed("json-schema:///", lengths)
}

/// The URI that a text means: its normal form, resolved against `json-schema:///` where it has no scheme.
///
/// `Invalid` with [`UriError::Parse`] exactly where the text is no URI reference (RFC 3986, 4.1), `Memory` where there is
/// none. Linear in the text. An answer takes memory once.
pub fn from_str(alloc: Global, uri: &str) -> Result<Uri, UriFault>
    ensures gives { Gives (uri_of uri.now) result }
{
    let reference = parse_reference(alloc, uri)?;
    if reference.has_scheme() {
        let (text, lengths) = reference.normalized(alloc)?;
        return Ok(Uri::from_written(text, lengths));
    }
    let (text, lengths) = reference.normalized_then_resolved(alloc, &default_base())?;
    Ok(Uri::from_written(text, lengths))
}

fn begins_with_hash(text: &str) -> bool
    ensures { result ≡ (slice_index text.now 0 == hash) }
{
    matches!(text.as_bytes(), [b'#', ..])
}

/// Whether a text begins with `#`, and another ends in it.
fn is_fragment_at_end(base: &str, text: &str) -> bool
    ensures { result ≡ ((slice_index text.now 0 == hash) && ends_with nat_eq base.now text.now) }
{
    if !begins_with_hash(text) {
        return false;
    }
    base.ends_with(text)
}

/// The URI that a text means against a base: where the text is the fragment in which the base's text ends, the base; else
/// the target in normal form (RFC 3986, 5.2 and 6.2.2), for which the base's fragment takes no part.
///
/// `Invalid` with [`UriError::Resolve`] exactly where the base has no scheme, and with [`UriError::Parse`] exactly where
/// it has one and the text is no URI reference and not that fragment; `Memory` where there is none. Linear in the two texts.
/// An answer takes memory once; where a path holds `%2e`, with room for the path twice, which the answer keeps.
pub fn resolve_against(alloc: Global, base: UriRef<'_>, uri: &str) -> Result<Uri, UriFault>
    ensures gives { Gives (uri_against base.entry uri.now) result }
{
    if !base.has_scheme() {
        let uri = String::from_str(alloc, uri)?;
        let base = String::from_str(alloc, base.as_str())?;
        let error = ResolveError::BaseWithoutScheme;
        return Err(UriFault::Invalid(UriError::Resolve { uri, base, error }));
    }
    if is_fragment_at_end(base.as_str(), uri) {
        return Ok(base.to_uri(alloc)?);
    }
    let reference = parse_reference(alloc, uri)?;
    let (text, lengths) = reference.resolved_then_normalized(alloc, &base)?;
    Ok(Uri::from_written(text, lengths))
}
