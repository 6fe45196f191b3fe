//! The parser: one pass from the scheme to the fragment (RFC 3986, 3). Each scan begins where the one before it stopped, so
//! that no byte is passed twice; at a place between two parts a byte or two are looked at by both.
ghost use Rattle.std.specs.Prelude.{◌≡◌, ◌≢◌, ◌≤◌, true, false, None, OnOk, OnErr, ◌&&◌, ◌||◌, ◌==◌, not, take, drop, length, is_ok, is_some, IfOk, IfErr, IfSome, ◌<◌, ◌+◌, option_map, slice_index};
ghost use Rattle.std.specs.Option.{ForSome};
ghost use Rattle.std.specs.List.{before_first, position_or_len, prefix_len};
ghost use Rattle.ref_uri.specs.Components.{scheme, is_scheme, if_there, ends_scheme, authority_in_front, query_in_front, fragment_in_front, is_query, text_after, after_authority};
ghost use Rattle.ref_uri.specs.Authority.{is_authority};
ghost use Rattle.ref_uri.specs.Reference.{is_uri_reference};
ghost use Rattle.ref_uri.specs.inner.Lengths.{lengths_of};
ghost use Rattle.ref_uri.specs.Characters.{is_scheme_character, is_path_character, is_encoded};
ghost use Rattle.ref_uri.specs.Bytes.{colon};

use crate::authority;
use crate::characters::{Class, encoded_len, is_encoded, is_scheme_character, part_len};
use crate::error::ParseError;
use crate::lengths::Lengths;

/// How many characters of a scheme come first.
fn scheme_characters_len(text: &[u8]) -> usize
    ensures { result ≡ prefix_len is_scheme_character text.now }
{
    text.iter().take_while(|c| is_scheme_character(**c)).count()
}

/// How long the first segment of a text without a scheme is, whose first `read` bytes are characters of a scheme and aren't
/// looked at again. `Syntax` only where the text is no reference.
fn first_segment_len(text: &[u8], read: usize) -> Result<usize, ParseError>
    requires read_is { read ≡ prefix_len is_scheme_character text.now }
    requires no_colon { slice_index text.now read ≢ colon }
    ensures no_scheme { OnOk result (scheme text.now ≡ None) }
    ensures tested { OnOk result
        ((slice_index text.now (position_or_len ends_scheme text.now) == colon) ≡ false) }
    ensures within { IfOk result (λ n. n ≤ length (after_authority text.now)) }
    ensures encoded { IfOk result
        (λ n. is_encoded is_path_character (take n (after_authority text.now)) ≡ true) }
    ensures refused { OnErr result (is_uri_reference text.now ≡ false) }
    ensures error { IfErr result (λ e. e ≡ ParseError.Syntax) }
{
    let len = encoded_len(text, read, Class::FirstSegment);
    if !authority::is_end(text, len) {
        return Err(ParseError::Syntax);
    }
    Ok(len)
}

/// The front of a text.
#[derive(Clone, Copy)]
struct Front {
    /// How long the scheme is, where there is one.
    scheme: Option<usize>,
    /// How many bytes of the path were read to know that there is none.
    segment: usize,
}

/// The front of a text. `Syntax` only where the text is no reference.
fn read_front(text: &[u8]) -> Result<Front, ParseError>
    ensures scheme { IfOk result (λ f. f.scheme ≡ option_map length (scheme text.now)) }
    ensures scheme_within { IfOk result (λ f. IfSome f.scheme (λ len. len < length text.now)) }
    ensures tested { OnOk result
        ((if_there is_scheme (scheme text.now)
        && (is_some (scheme text.now)
        || not (slice_index text.now (position_or_len ends_scheme text.now) == colon))) ≡ true) }
    ensures within { IfOk result (λ f. f.segment ≤ length (after_authority text.now)) }
    ensures encoded { IfOk result
        (λ f. is_encoded is_path_character (take f.segment (after_authority text.now)) ≡ true) }
    ensures refused { OnErr result (is_uri_reference text.now ≡ false) }
    ensures error { IfErr result (λ e. e ≡ ParseError.Syntax) }
{
    let read = scheme_characters_len(text);
    if read < text.len() && text[read] == b':' {
        if !text[0].is_ascii_alphabetic() {
            return Err(ParseError::Syntax);
        }
        return Ok(Front {
            scheme: Some(read),
            segment: 0,
        });
    }
    let segment = first_segment_len(text, read)?;
    Ok(Front {
        scheme: None,
        segment,
    })
}

/// How long the authority is, where `//` comes first.
fn authority_len(text: &[u8]) -> Result<Option<usize>, ParseError>
    ensures accepted { is_ok result ≡ if_there is_authority (authority_in_front text.now) }
    ensures len { IfOk result (λ n. n ≡ option_map length (authority_in_front text.now)) }
    ensures within { IfOk result (λ n. IfSome n (λ len. len + 2 ≤ length text.now)) }
    ensures error { IfErr result (λ e. e ≡ ParseError.Syntax) }
{
    match text {
        [b'/', b'/', rest @ ..] => Ok(Some(authority::authority_len(rest)?)),
        _ => Ok(None),
    }
}

/// How long the query is, where `?` comes first.
fn query_len(text: &[u8]) -> Result<Option<usize>, ParseError>
    ensures accepted { is_ok result ≡ if_there is_query (query_in_front text.now) }
    ensures len { IfOk result (λ n. n ≡ option_map length (query_in_front text.now)) }
    ensures within { IfOk result (λ n. IfSome n (λ len. len < length text.now)) }
    ensures error { IfErr result (λ e. e ≡ ParseError.Syntax) }
{
    match text {
        [b'?', rest @ ..] => Ok(Some(part_len(rest, 0, Class::Query)?)),
        _ => Ok(None),
    }
}

/// Whether what is left begins with no `#`, or is a fragment after it.
fn is_fragment_left(text: &[u8]) -> bool
    ensures { result ≡ if_there is_query (fragment_in_front text.now) }
{
    match text {
        [b'#', rest @ ..] => is_encoded(rest, Class::Query),
        _ => true,
    }
}

/// How long the components of the text are. `Syntax` exactly where the text is no URI reference.
pub fn parse(text: &[u8]) -> Result<Lengths, ParseError>
    ensures accepted { is_ok result ≡ is_uri_reference text.now }
    ensures lengths { IfOk result (λ l. l ≡ lengths_of text.now) }
    ensures error { IfErr result (λ e. e ≡ ParseError.Syntax) }
{
    let front = read_front(text)?;
    let rest = after_component(text, front.scheme, 1);
    let authority = authority_len(rest)?;
    let rest = after_component(rest, authority, 2);
    let path = part_len(rest, front.segment, Class::Path)?;
    let (_, rest) = rest.split_at(path);
    let query = query_len(rest)?;
    if !is_fragment_left(after_component(rest, query, 1)) {
        return Err(ParseError::Syntax);
    }
    Ok(Lengths {
        scheme: front.scheme,
        authority,
        path,
        query,
    })
}

/// What follows a component that may be absent, and the marks that are with it.
fn after_component(text: &[u8], component: Option<usize>, marks: usize) -> &[u8]
    requires { ForSome component (λ len. len + marks ≤ length text.now) }
    ensures { result.now ≡ text_after component marks text.now }
{
    match component {
        Some(len) => &text[len + marks..],
        None => text,
    }
}
