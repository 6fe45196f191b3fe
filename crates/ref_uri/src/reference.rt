//! A URI reference that borrows its text.
ghost use Rattle.std.specs.Prelude.{◌≡◌, ◌↔◌, List, ℕ, true, is_ok, is_some, None, IfOk, IfErr, IsErrOf, option_copied, string_bytes};
ghost use Rattle.ref_uri.specs.Components.{components, are_components, text_of, scheme, authority, path, query, fragment};
ghost use Rattle.ref_uri.specs.Normal.{normal_components, normal_form};
ghost use Rattle.ref_uri.specs.Reference.{is_uri_reference, with_fragment};
ghost use Rattle.ref_uri.specs.Resolution.{target_text};
ghost use Rattle.ref_uri.specs.inner.Target.{components_of, lengths_of_components, target_with_dots, AreFramed, LacksTriples};

use crate::blocks::holds;
use crate::error::{ParseError, ResolveError, ResolveFault};
use crate::lengths::{self, Lengths, Parts};
use crate::uri::Uri;
use crate::written::Form;
use crate::{parser, target};
use std::alloc::{AllocError, Global};
use std::marker::Model;

/// A URI reference, with or without a scheme (RFC 3986, 4.1), that borrows its text.
#[derive(Drop)]
pub struct UriRef<'a> {
    text: &'a str,
    lengths: Lengths,
}

impl<'a> Model for UriRef<'a> {
    ghost use Rattle.std.specs.Prelude.{List, ℕ};
    ghost use Rattle.ref_uri.specs.inner.Lengths.{IsParsed};

    ghost Value = { List ℕ };

    ghost view = { λ r. r.text.now };

    ghost invariant = { λ r. IsParsed r.text.now r.lengths };
}

impl<'a> UriRef<'a> {
    ghost use Rattle.ref_uri.specs.inner.Lengths.{IsParsed, IsParsedUri};

    /// The reference that the text is. `Syntax` exactly where the text is no URI reference (RFC 3986, 4.1 and
    /// appendix A). One pass over the text; takes no memory and copies nothing.
    pub fn parse(text: &'a str) -> Result<UriRef<'a>, ParseError>
        ensures accepted { is_ok result ≡ is_uri_reference text.now }
        ensures value { IfOk result (λ r. r ≡ text.now) }
        ensures error { IfErr result (λ e. e ≡ ParseError.Syntax) }
    {
        let lengths = parser::parse(text.as_bytes())?;
        Ok(UriRef { text, lengths })
    }

    /// The reference that a text is whose lengths are known.
    pub(crate) fn from_parsed(text: &'a str, lengths: Lengths) -> UriRef<'a>
        requires { IsParsed text.now lengths }
        ensures { result ≡ text.now }
    {
        UriRef { text, lengths }
    }

    fn parts(&self) -> Parts<'a>
        ensures scheme { option_copied result.scheme ≡ scheme self.now }
        ensures authority { option_copied result.authority ≡ authority self.now }
        ensures path { result.path.now ≡ path self.now }
        ensures query { option_copied result.query ≡ query self.now }
        ensures fragment { option_copied result.fragment ≡ fragment self.now }
        ensures all { components_of result ≡ components self.now }
        ensures hold { are_components (components_of result) ≡ true }
        ensures framed { AreFramed result }
    {
        self.lengths.parts(self.text)
    }

    /// Whether no triple is in the text.
    fn lacks_triples(&self) -> bool
        ensures { result ≡ true → LacksTriples (components self.now) }
    {
        !holds(self.text.as_bytes(), b'%')
    }

    /// Whether a reference without triples is its own normal form, and with a scheme its own target, by its characters
    /// alone.
    #[inline(never)]
    fn is_settled(&self) -> bool
        requires { LacksTriples (components self.now) }
        ensures normal { result ≡ true → normal_form self.now ≡ self.now }
        ensures target { result ≡ true → is_some (scheme self.now) ≡ true → (base : List ℕ)
            → normal_form (target_text base self.now) ≡ self.now }
    {
        target::is_settled(self.parts())
    }

    /// The text in normal form, and how long its components are.
    pub(crate) fn normalized(&self, alloc: Global) -> Result<(String, Lengths), AllocError>
        ensures text { IfOk result (λ t. string_bytes t.0 ≡ normal_form self.now) }
        ensures parsed { IfOk result (λ t. IsParsed (string_bytes t.0) t.1) }
        ensures scheme { IfOk result
            (λ t. is_some (scheme (string_bytes t.0)) ≡ is_some (scheme self.now)) }
    {
        if self.lacks_triples() && self.is_settled() {
            return Ok((String::from_str(alloc, self.text)?, self.lengths));
        }
        target::itself(self.parts()).write(alloc, Form::Normal, Form::Normal)
    }

    /// The normal form of the reference's text (RFC 3986, 6.2.2 and 3.2.3): scheme and host in lower case, triples of
    /// unreserved characters decoded and the digits of others in upper case, an empty port without its `:`, and with a
    /// scheme no dot segments. Takes memory once, and is refused where there is none. Linear in the text.
    pub fn normalize(&self, alloc: Global) -> Result<String, AllocError>
        ensures value { IfOk result (λ text. string_bytes text ≡ normal_form self.now) }
    {
        let (text, _) = self.normalized(alloc)?;
        Ok(text)
    }

    /// The reference, copied, where it has a scheme.
    pub(crate) fn to_uri(&self, alloc: Global) -> Result<Uri, AllocError>
        requires { is_some (scheme self.now) ≡ true }
        ensures { IfOk result (λ uri. uri ≡ self.now) }
    {
        let text = String::from_str(alloc, self.text)?;
        Ok(Uri::from_written(text, self.lengths))
    }

    /// The target of the reference against a base (RFC 3986, 5.2.2, strict), not normalised. `BaseWithoutScheme` exactly
    /// where the base has no scheme, `Memory` where there is none for the target. The base's fragment takes no part. Takes
    /// memory once. Linear in the two texts.
    pub fn resolve_against(self, alloc: Global, base: UriRef<'_>) -> Result<Uri, ResolveFault>
        ensures value { IfOk result (λ uri. uri ≡ target_text base.entry self.entry) }
        ensures no_scheme { IsErrOf result (ResolveFault.Invalid ResolveError.BaseWithoutScheme) ↔
            (scheme base.entry ≡ None) }
    {
        if !base.has_scheme() {
            return Err(ResolveFault::Invalid(ResolveError::BaseWithoutScheme));
        }
        let target = target::resolved(base.parts(), self.parts());
        let (text, lengths) = target.write(alloc, Form::Given, Form::Given)?;
        Ok(Uri::from_written(text, lengths))
    }

    /// The target's text in normal form, and how long its components are. Each component is in normal form before dot
    /// segments go.
    pub(crate) fn normalized_then_resolved(
        &self,
        alloc: Global,
        base: &UriRef<'_>,
    ) -> Result<(String, Lengths), AllocError>
        requires { is_some (scheme base.now) ≡ true }
        ensures text { IfOk result
            (λ t. string_bytes t.0
            ≡ text_of
            (normal_components
            (target_with_dots (components base.now) (components self.now)))) }
        ensures lengths { IfOk result
            (λ t. t.1
            ≡ lengths_of_components
            (normal_components
            (target_with_dots (components base.now) (components self.now)))) }
    {
        let target = target::resolved(base.parts(), self.parts());
        target.write(alloc, Form::Normal, Form::Normal)
    }

    /// The normal form of the target's text, and how long its components are. The base's fragment takes no part. The path loses
    /// its dot segments before triples are decoded and after: at once, unless it holds `%2e`.
    pub(crate) fn resolved_then_normalized(
        &self,
        alloc: Global,
        base: &UriRef<'_>,
    ) -> Result<(String, Lengths), AllocError>
        requires { is_some (scheme base.now) ≡ true }
        ensures text { IfOk result
            (λ t. string_bytes t.0
            ≡ normal_form (target_text (with_fragment base.now None) self.now)) }
        ensures parsed { IfOk result (λ t. IsParsedUri (string_bytes t.0) t.1) }
    {
        let is_plain = self.lacks_triples();
        if is_plain && self.has_scheme() && self.is_settled() {
            return Ok((String::from_str(alloc, self.text)?, self.lengths));
        }
        let target = target::resolved(base.parts(), self.parts());
        if is_plain && base.lacks_triples() {
            return target.write_plain(alloc);
        }
        let form = target.normal_form();
        target.write(alloc, form, form)
    }

    /// The text.
    pub fn as_str(&self) -> &'a str
        ensures value { result.now ≡ self.now }
    {
        self.text
    }

    /// The scheme, where there is one (RFC 3986, 3.1).
    pub fn scheme(&self) -> Option<&'a str>
        ensures value { option_copied result ≡ scheme self.now }
    {
        self.parts().scheme
    }

    /// The authority, where there is one: an empty one differs from none (RFC 3986, 3.2).
    pub fn authority(&self) -> Option<&'a str>
        ensures value { option_copied result ≡ authority self.now }
    {
        self.parts().authority
    }

    /// The path, which may be empty (RFC 3986, 3.3).
    pub fn path(&self) -> &'a str
        ensures value { result.now ≡ path self.now }
    {
        self.parts().path
    }

    /// The query, where there is one: an empty one differs from none (RFC 3986, 3.4).
    pub fn query(&self) -> Option<&'a str>
        ensures value { option_copied result ≡ query self.now }
    {
        self.parts().query
    }

    /// The fragment, where there is one: an empty one differs from none (RFC 3986, 3.5).
    pub fn fragment(&self) -> Option<&'a str>
        ensures value { option_copied result ≡ fragment self.now }
    {
        self.parts().fragment
    }

    /// Whether there is a scheme.
    pub fn has_scheme(&self) -> bool
        ensures value { result ≡ is_some (scheme self.now) }
    {
        self.lengths.scheme.is_some()
    }

    /// Whether there is a fragment.
    pub fn has_fragment(&self) -> bool
        ensures value { result ≡ is_some (fragment self.now) }
    {
        self.fragment().is_some()
    }

    /// The reference without its fragment (RFC 3986, 3.5): the same text where there is none. A look-up; takes no memory.
    pub fn strip_fragment(&self) -> UriRef<'a>
        ensures value { result ≡ with_fragment self.now None }
        ensures scheme { scheme result ≡ scheme self.now }
    {
        match self.fragment() {
            Some(fragment) => UriRef {
                text: lengths::head(self.text, self.text.len() - fragment.len() - 1),
                lengths: self.lengths,
            },
            None => UriRef {
                text: self.text,
                lengths: self.lengths,
            },
        }
    }
}
