//! An authority, `[userinfo "@"] host [":" port]` (RFC 3986, 3.2), read from its front: each scan begins where the one
//! before it stopped.
ghost use Rattle.std.specs.Prelude.{◌≡◌, ◌≢◌, ◌≤◌, ◌<◌, ◌==◌, ◌||◌, ℕ, Some, true, false, take, drop, length, is_ok, slice_index, IfOk, IfErr, IfSome, IfNone};
ghost use Rattle.std.specs.List.{before_first, position_or_len, prefix_len};
ghost use Rattle.std.specs.Char.{is_ascii_digit, is_ascii_hexdigit};
ghost use Rattle.ref_uri.specs.Characters.{is_encoded, is_userinfo_character};
ghost use Rattle.ref_uri.specs.Authority.{is_address_character, is_version_and_address, is_address, is_future_address, is_address_and_bracket, is_port_part, is_host_and_port, is_authority};
ghost use Rattle.ref_uri.specs.Components.{ends_authority};
ghost use Rattle.ref_uri.specs.inner.Scans.{ends_authority_at};
ghost use Rattle.ref_uri.specs.Bytes.{closing_bracket, opening_bracket};

use crate::characters::{Class, encoded_len};
use crate::error::ParseError;

/// Whether what was read up to here ends here: at the end of the text, or before `/`, `?` or `#`.
pub fn is_end(text: &[u8], at: usize) -> bool
    requires { at ≤ length text.now }
    ensures { result ≡ ends_authority_at text.now at }
{
    at == text.len() || matches!(text[at], b'/' | b'?' | b'#')
}

fn hex_digits_len(text: &[u8]) -> usize
    ensures value { result ≡ prefix_len is_ascii_hexdigit text.now }
    ensures within { result ≤ length text.now }
{
    text.iter().take_while(|c| c.is_ascii_hexdigit()).count()
}

fn digits_len(text: &[u8]) -> usize
    ensures value { result ≡ prefix_len is_ascii_digit text.now }
    ensures within { result ≤ length text.now }
{
    text.iter().take_while(|c| c.is_ascii_digit()).count()
}

/// How many characters of an IPv6 address come first. Which texts of them are one isn't said.
fn address_len(text: &[u8]) -> usize
    ensures value { result ≡ prefix_len is_address_character text.now }
    ensures within { result ≤ length text.now }
{
    text.iter()
        .take_while(|c| c.is_ascii_hexdigit() || **c == b':' || **c == b'.')
        .count()
}

/// How many characters of an address of a later version come first.
fn future_address_len(text: &[u8]) -> usize
    ensures value { result ≡ prefix_len is_userinfo_character text.now }
    ensures within { result ≤ length text.now }
{
    text.iter()
        .take_while(|c| Class::Userinfo.allows(**c))
        .count()
}

/// How long the part of an address of a later version after its `v` is: hex digits, `.`, and characters.
fn version_and_address_len(text: &[u8]) -> Option<usize>
    ensures within { IfSome result (λ n. n ≤ length text.now) }
    ensures sound { IfSome result (λ n. is_version_and_address (take n text.now) ≡ true) }
    ensures found { (n : ℕ) → n < length text.now → is_version_and_address (take n text.now) ≡ true
        → slice_index text.now n ≡ closing_bracket → result ≡ Some n }
{
    let version = hex_digits_len(text);
    if version == 0 || version == text.len() || text[version] != b'.' {
        return None;
    }
    let address = future_address_len(&text[version + 1..]);
    if address == 0 {
        return None;
    }
    Some(version + 1 + address)
}

/// How long an address of either kind at the front is, or 0.
fn either_address_len(text: &[u8]) -> usize
    ensures within { result ≤ length text.now }
    ensures sound { 0 < result
        → (is_address (take result text.now) || is_future_address (take result text.now)) ≡ true }
    ensures found { (n : ℕ) → n < length text.now
        → (is_address (take n text.now) || is_future_address (take n text.now)) ≡ true
        → slice_index text.now n ≡ closing_bracket → (0 < n) × (result ≡ n) }
{
    match text {
        [b'v' | b'V', rest @ ..] => match version_and_address_len(rest) {
            Some(len) => 1 + len,
            None => 0,
        },
        _ => address_len(text),
    }
}

/// How long an address at the front is with the `]` after it, where one is there.
fn address_and_bracket_len(text: &[u8]) -> Option<usize>
    ensures within { IfSome result (λ n. n ≤ length text.now) }
    ensures sound { IfSome result (λ n. is_address_and_bracket (take n text.now) ≡ true) }
    ensures found { (n : ℕ) → n ≤ length text.now → is_address_and_bracket (take n text.now) ≡ true
        → result ≡ Some n }
{
    let address = either_address_len(text);
    if address == 0 || address == text.len() || text[address] != b']' {
        return None;
    }
    Some(address + 1)
}

/// How long the `:` and the port at the front are, where they are there.
fn port_len(text: &[u8]) -> usize
    ensures within { result ≤ length text.now }
    ensures encoded { is_encoded is_userinfo_character (take result text.now) ≡ true }
    ensures accepted { ends_authority_at text.now result
        ≡ is_port_part (before_first ends_authority text.now) }
{
    match text {
        [b':', rest @ ..] => 1 + digits_len(rest),
        _ => 0,
    }
}

fn begins_with_bracket(text: &[u8]) -> bool
    ensures { result ≡ (slice_index text.now 0 == opening_bracket) }
{
    matches!(text, [b'[', ..])
}

/// How long the name at the front is, with the port after it.
fn name_and_port_len(text: &[u8]) -> usize
    requires { slice_index text.now 0 ≢ opening_bracket }
    ensures within { result ≤ length text.now }
    ensures encoded { is_encoded is_userinfo_character (take result text.now) ≡ true }
    ensures inside { result ≤ position_or_len ends_authority text.now }
    ensures accepted { ends_authority_at text.now result
        ≡ is_host_and_port (before_first ends_authority text.now) }
{
    let name = encoded_len(text, 0, Class::Name);
    name + port_len(&text[name..])
}

/// How long the address in brackets at the front is, with the port after it.
fn brackets_and_port_len(text: &[u8]) -> Option<usize>
    requires { slice_index text.now 0 ≡ opening_bracket }
    ensures within { IfSome result (λ n. n ≤ length text.now) }
    ensures inside { IfSome result (λ n. n ≤ position_or_len ends_authority text.now) }
    ensures accepted { IfSome result
        (λ n. ends_authority_at text.now n
        ≡ is_host_and_port (before_first ends_authority text.now)) }
    ensures none { IfNone result (is_host_and_port (before_first ends_authority text.now) ≡ false) }
{
    let brackets = 1 + address_and_bracket_len(&text[1..])?;
    Some(brackets + port_len(&text[brackets..]))
}

/// How long the host at the front is, with the port after it: up to the next of `/?#`. `Syntax` exactly where what is
/// there is none.
fn host_and_port_len(text: &[u8]) -> Result<usize, ParseError>
    ensures accepted { is_ok result ≡ is_host_and_port (before_first ends_authority text.now) }
    ensures len { IfOk result (λ n. n ≡ position_or_len ends_authority text.now) }
    ensures within { IfOk result (λ n. n ≤ length text.now) }
    ensures error { IfErr result (λ e. e ≡ ParseError.Syntax) }
{
    let len = if begins_with_bracket(text) {
        brackets_and_port_len(text).ok_or(ParseError::Syntax)?
    } else {
        name_and_port_len(text)
    };
    if !is_end(text, len) {
        return Err(ParseError::Syntax);
    }
    Ok(len)
}

/// How long the authority at the front is: up to the next of `/?#`. `Syntax` exactly where what is there is none
/// (RFC 3986, 3.2). Where no end follows what was read as a name and a port, it is read on as userinfo.
pub fn authority_len(text: &[u8]) -> Result<usize, ParseError>
    ensures accepted { is_ok result ≡ is_authority (before_first ends_authority text.now) }
    ensures len { IfOk result (λ n. n ≡ position_or_len ends_authority text.now) }
    ensures within { IfOk result (λ n. n ≤ length text.now) }
    ensures error { IfErr result (λ e. e ≡ ParseError.Syntax) }
{
    if begins_with_bracket(text) {
        return host_and_port_len(text);
    }
    let read = name_and_port_len(text);
    if is_end(text, read) {
        return Ok(read);
    }
    let userinfo = encoded_len(text, read, Class::Userinfo);
    if userinfo == text.len() || text[userinfo] != b'@' {
        return Err(ParseError::Syntax);
    }
    let host = host_and_port_len(&text[userinfo + 1..])?;
    Ok(userinfo + 1 + host)
}
