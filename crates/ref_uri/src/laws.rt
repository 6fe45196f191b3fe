//! Laws and rows of the definitions. Each function is empty: its contract states the law, and the check proves it.
#![tactic(auto, unfolding(crate::proofs::OnLiterals::ref_uri_on_literals))]

ghost use Rattle.std.specs.Prelude.{◌≡◌, ◌↔◌, Ok, List, [], ℕ, Some, None, true, false, codes};
ghost use Rattle.ref_uri.specs.Components.{Components, components, text_of, are_components, scheme, authority, path, query, fragment};
ghost use Rattle.ref_uri.specs.Normal.{normal_form};
ghost use Rattle.ref_uri.specs.Targets.{Refusal, refusal_text, uri_of};
ghost use Rattle.ref_uri.specs.Errors.{uri_error_text, SaysRefusal};
ghost use Rattle.ref_uri.specs.Rows.{CharacterRows, AuthorityRows, ComponentRows, SegmentRows, NormalRows, ResolutionRows, MeaningRows};
ghost use Rattle.ref_uri.specs.inner.Rows.{BodyRows};
ghost use Rattle.ref_uri.specs.Rows.Errors.{ErrorRows};
ghost use Rattle.ref_uri.specs.Reference.{is_uri_reference, is_uri, IsTextOfComponents, with_fragment};

use crate::error::UriError;

/// Every text is that of its components (RFC 3986, 5.3 and appendix B).
pub fn components_make_their_text()
    ensures law { (text : List ℕ) → text_of (components text) ≡ text }
{}

/// Components that hold what they may are determined by their text.
pub fn components_are_determined()
    ensures law { (c : Components) → are_components c ≡ true → components (text_of c) ≡ c }
{}

/// A text is a URI reference exactly where it is the text of components that hold what they may.
pub fn references_are_texts_of_components()
    ensures law { (text : List ℕ) → (is_uri_reference text ≡ true) ↔ IsTextOfComponents text }
{}

/// The two examples that the standard takes apart, and texts with components that are empty or absent (RFC 3986, 3).
pub fn components_of_examples()
    ensures scheme { scheme (codes "foo://example.com:8042/over/there?name=ferret#nose")
        ≡ Some (codes "foo") }
    ensures authority { authority (codes "foo://example.com:8042/over/there?name=ferret#nose")
        ≡ Some (codes "example.com:8042") }
    ensures path { path (codes "foo://example.com:8042/over/there?name=ferret#nose")
        ≡ codes "/over/there" }
    ensures query { query (codes "foo://example.com:8042/over/there?name=ferret#nose")
        ≡ Some (codes "name=ferret") }
    ensures fragment { fragment (codes "foo://example.com:8042/over/there?name=ferret#nose")
        ≡ Some (codes "nose") }
    ensures no_authority { authority (codes "urn:example:animal:ferret:nose") ≡ None }
    ensures path_alone { path (codes "urn:example:animal:ferret:nose")
        ≡ codes "example:animal:ferret:nose" }
    ensures empty_authority { authority (codes "file:///etc/fstab") ≡ Some [] }
    ensures empty_query { query (codes "a?#") ≡ Some [] }
    ensures empty_fragment { fragment (codes "a?#") ≡ Some [] }
    ensures absent_query { query (codes "a#?") ≡ None }
{}

/// Texts that are URI references, and texts that aren't.
pub fn references_of_examples()
    ensures empty { is_uri_reference (codes "") ≡ true }
    ensures address { is_uri_reference (codes "http://u:p@[2001:db8::7]:80/%7Ea?b/?#c/?") ≡ true }
    ensures later_address { is_uri_reference (codes "//[v1.x:]:") ≡ true }
    ensures relative_colon { is_uri_reference (codes "./a:b") ≡ true }
    ensures without_scheme { is_uri (codes "/a") ≡ false }
    ensures space { is_uri_reference (codes "a b") ≡ false }
    ensures scheme_of_digit { is_uri_reference (codes "1a:b") ≡ false }
    ensures empty_scheme { is_uri_reference (codes ":b") ≡ false }
    ensures lone_percent { is_uri_reference (codes "%4") ≡ false }
    ensures second_fragment { is_uri_reference (codes "a#b#c") ≡ false }
    ensures two_ats { is_uri_reference (codes "//a@b@c") ≡ false }
    ensures port_of_letters { is_uri_reference (codes "//a:b") ≡ false }
    ensures open_bracket { is_uri_reference (codes "//[::1") ≡ false }
{}

/// The normal form of a reference's normal form is itself (RFC 3986, 6.2.2).
pub fn normal_form_is_its_own()
    ensures law { (text : List ℕ) → is_uri_reference text ≡ true
        → normal_form (normal_form text) ≡ normal_form text }
{}

/// What a text means by itself is its own normal form.
pub fn meanings_are_normal()
    ensures law { (text uri : List ℕ) → uri_of text ≡ Ok uri → normal_form uri ≡ uri }
{}

/// An error that says what the definitions refuse displays the text of that refusal.
pub fn errors_say_refusals()
    ensures law { (error : UriError) (refusal : Refusal) → SaysRefusal error refusal
        → uri_error_text error ≡ refusal_text refusal }
{}

/// The worked rows of characters and triples (RFC 3986, 2 and 3).
pub fn character_rows()
    ensures rows { CharacterRows }
{}

/// The worked rows of authorities and their parts (RFC 3986, 3.2).
pub fn authority_rows()
    ensures rows { AuthorityRows }
{}

/// The worked rows of components, where they begin and end, and what they may hold (RFC 3986, 3).
pub fn component_rows()
    ensures rows { ComponentRows }
{}

/// The worked rows of dot segments, one by one (RFC 3986, 5.2.4).
pub fn segment_rows()
    ensures rows { SegmentRows }
{}

/// The worked rows of the normal forms of parts (RFC 3986, 6.2.2 and 3.2.3).
pub fn normal_rows()
    ensures rows { NormalRows }
{}

/// The worked rows of the five cases of resolution (RFC 3986, 5.2.2 and 5.2.3).
pub fn resolution_rows()
    ensures rows { ResolutionRows }
{}

/// The worked rows of what texts mean, alone and against a base.
pub fn meaning_rows()
    ensures rows { MeaningRows }
{}

/// The worked rows of what errors say.
pub fn error_rows()
    ensures rows { ErrorRows }
{}

/// The worked rows of the definitions that no public clause cites.
pub fn body_rows()
    ensures rows { BodyRows }
{}
