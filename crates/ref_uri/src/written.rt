//! The components of a reference, written as they are or in normal form (RFC 3986, 6.2.2 and 3.2.3).
ghost use Rattle.std.specs.Prelude.{◌≡◌, ◌<◌, ◌∷◌, [], ◌++◌, true, false, map, take, drop, length, slice_index, ◌+◌, ◌≤◌, ◌==◌, string_bytes, OnOk, IsAscii};
ghost use Rattle.std.specs.List.{list_all, position_or_len};
ghost use Rattle.std.specs.Char.{is_ascii_hexdigit, to_ascii_lowercase};
ghost use Rattle.ref_uri.specs.Characters.{begins_with_hex_digits, has_whole_triples};
ghost use Rattle.ref_uri.specs.Authority.{is_authority, host_len};
ghost use Rattle.ref_uri.specs.Normal.{hex_value, normal_triple, normal_encoded, normal_text, normal_host, normal_port_part, normal_authority};
ghost use Rattle.ref_uri.specs.inner.Written.{in_case, is_plain_in_host, written_text, written_scheme, written_authority, IsNormalUpTo};

use crate::blocks::{first_from, holds};
use crate::characters::is_unreserved;
use crate::lengths::{head, tail};
use std::alloc::AllocError;

/// What becomes of the case of letters.
#[derive(Clone, Copy)]
pub enum Case {
    AsItIs,
    Lower,
}

/// How a component is written.
#[derive(Clone, Copy)]
pub enum Form {
    /// As it was given.
    Given,
    /// In normal form.
    Normal,
    /// In normal form, of a target: its path loses its dot segments before triples are decoded, and again after.
    NormalTarget,
}

impl Case {
    /// What the character becomes.
    fn of(self, c: u8) -> u8
        ensures { result ≡ in_case self c }
    {
        match self {
            Case::AsItIs => c,
            Case::Lower => c.to_ascii_lowercase(),
        }
    }

    /// Appends characters of which none is `%`.
    fn push_run(self, buffer: &mut String, run: &str) -> Result<(), AllocError>
        requires { IsAscii run.now }
        ensures { OnOk result
            (string_bytes buffer.new ≡ string_bytes buffer.old ++ map (in_case self) run.now) }
    {
        match self {
            Case::AsItIs => buffer.push_str(run),
            Case::Lower => push_lower(buffer, run),
        }
    }
}

/// Appends an ASCII character.
fn push_ascii(buffer: &mut String, c: u8) -> Result<(), AllocError>
    requires { c < 128 }
    ensures { OnOk result (string_bytes buffer.new ≡ string_bytes buffer.old ++ c ∷ []) }
{
    buffer.push(char::from(c))
}

/// Whether a letter in upper case is in a text.
pub fn holds_upper(text: &[u8]) -> bool
    ensures { result ≡ false → map to_ascii_lowercase text.now ≡ text.now }
{
    for c in text {
        if c.is_ascii_uppercase() {
            return true;
        }
    }
    false
}

/// Appends a text in lower case: at once, where it is so already.
fn push_lower(buffer: &mut String, run: &str) -> Result<(), AllocError>
    requires { IsAscii run.now }
    ensures { OnOk result
        (string_bytes buffer.new ≡ string_bytes buffer.old ++ map (in_case Case.Lower) run.now) }
{
    if !holds_upper(run.as_bytes()) {
        return buffer.push_str(run);
    }
    for c in run.as_bytes() {
        push_ascii(buffer, c.to_ascii_lowercase())?;
    }
    Ok(())
}

/// The value of a hex digit.
fn hex_value(c: u8) -> u8
    requires { is_ascii_hexdigit c ≡ true }
    ensures value { result ≡ hex_value c }
    ensures small { result < 16 }
{
    if c < b':' {
        c - b'0'
    } else {
        c.to_ascii_lowercase() - 87
    }
}

/// Appends a triple of these digits: as the character that it stands for, where that is unreserved, or else in upper case.
fn push_triple(buffer: &mut String, high: u8, low: u8, case: Case) -> Result<(), AllocError>
    requires high { is_ascii_hexdigit high ≡ true }
    requires low { is_ascii_hexdigit low ≡ true }
    ensures { OnOk result
        (string_bytes buffer.new
        ≡ string_bytes buffer.old ++ normal_triple (in_case case) high low) }
{
    let value = 16 * hex_value(high) + hex_value(low);
    if is_unreserved(value) {
        return push_ascii(buffer, case.of(value));
    }
    push_ascii(buffer, b'%')?;
    push_ascii(buffer, high.to_ascii_uppercase())?;
    push_ascii(buffer, low.to_ascii_uppercase())
}

/// Appends an encoded text in normal form: runs as they are but for their case, and between them triples.
fn push_encoded(buffer: &mut String, text: &str, case: Case) -> Result<(), AllocError>
    requires ascii { IsAscii text.now }
    requires triples { has_whole_triples text.now ≡ true }
    ensures { OnOk result
        (string_bytes buffer.new
        ≡ string_bytes buffer.old ++ normal_encoded (in_case case) text.now) }
{
    let mut rest = text;
    'runs: while let Some((run, triple)) = rest.split_once('%') {
        case.push_run(buffer, run)?;
        let digits = triple.as_bytes();
        push_triple(buffer, digits[0], digits[1], case)?;
        rest = tail(triple, 2);
    }
    case.push_run(buffer, rest)
}

/// Whether a triple of these digits is in normal form.
#[inline]
fn is_normal_triple(high: u8, low: u8) -> bool
    requires high { is_ascii_hexdigit high ≡ true }
    requires low { is_ascii_hexdigit low ≡ true }
    ensures { result ≡ true → normal_triple (λ c. c) high low ≡ 37 ∷ high ∷ low ∷ [] }
{
    if high.is_ascii_lowercase() || low.is_ascii_lowercase() {
        return false;
    }
    !is_unreserved(16 * hex_value(high) + hex_value(low))
}

/// How far an encoded text is in normal form: up to the first triple that isn't, or to the end.
fn normal_len(text: &[u8]) -> usize
    requires { has_whole_triples text.now ≡ true }
    ensures { IsNormalUpTo text.now result }
{
    let mut at = first_from(text, 0, b'%');
    'triples: while at < text.len() && is_normal_triple(text[at + 1], text[at + 2]) {
        at = first_from(text, at + 3, b'%');
    }
    at
}

/// Appends an encoded text in normal form: at once what is so already, and between that the triples that change.
fn push_normal_text(buffer: &mut String, text: &str) -> Result<(), AllocError>
    requires ascii { IsAscii text.now }
    requires triples { has_whole_triples text.now ≡ true }
    ensures { OnOk result
        (string_bytes buffer.new ≡ string_bytes buffer.old ++ normal_text text.now) }
{
    let mut rest = text;
    let mut len = normal_len(rest.as_bytes());
    'triples: while len < rest.len() {
        buffer.push_str(head(rest, len))?;
        let triple = tail(rest, len).as_bytes();
        push_triple(buffer, triple[1], triple[2], Case::AsItIs)?;
        rest = tail(rest, len + 3);
        len = normal_len(rest.as_bytes());
    }
    buffer.push_str(rest)
}

/// Appends the triple that is in the buffer's text at `percent`, as [`push_triple`] does.
fn push_triple_again(buffer: &mut String, percent: usize) -> Result<(), AllocError>
    requires { begins_with_hex_digits (drop (percent + 1) (string_bytes buffer.old)) ≡ true }
    ensures { OnOk result
        (string_bytes buffer.new
        ≡ string_bytes buffer.old
        ++ normal_triple (λ c. c) (slice_index (string_bytes buffer.old) (percent + 1))
        (slice_index (string_bytes buffer.old) (percent + 2))) }
{
    let high = buffer.as_bytes()[percent + 1];
    let low = buffer.as_bytes()[percent + 2];
    push_triple(buffer, high, low, Case::AsItIs)
}

/// Writes the encoded text that the buffer's text ends in, from `start` on, once more after it, in normal form.
fn push_normal_again(buffer: &mut String, start: usize) -> Result<(), AllocError>
    requires buffer_ascii { IsAscii (string_bytes buffer.old) }
    requires within { start ≤ length (string_bytes buffer.old) }
    requires triples { has_whole_triples (drop start (string_bytes buffer.old)) ≡ true }
    ensures text { OnOk result
        (string_bytes buffer.new
        ≡ string_bytes buffer.old ++ normal_text (drop start (string_bytes buffer.old))) }
    ensures ascii { OnOk result (IsAscii (string_bytes buffer.new)) }
{
    let end = buffer.len();
    let mut at = start;
    'runs: while let Some(len) = buffer[at..end].find('%') {
        buffer.extend_from_within(at..at + len)?;
        push_triple_again(buffer, at + len)?;
        at += len + 3;
    }
    buffer.extend_from_within(at..end)
}

/// Puts the encoded text that the buffer's text ends in, from `start` on, in normal form: that is written after the text,
/// which then goes.
pub fn normalize_end(buffer: &mut String, start: usize) -> Result<(), AllocError>
    requires buffer_ascii { IsAscii (string_bytes buffer.old) }
    requires within { start ≤ length (string_bytes buffer.old) }
    requires triples { has_whole_triples (drop start (string_bytes buffer.old)) ≡ true }
    ensures text { OnOk result
        (string_bytes buffer.new
        ≡ take start (string_bytes buffer.old)
        ++ normal_text (drop start (string_bytes buffer.old))) }
    ensures ascii { OnOk result (IsAscii (string_bytes buffer.new)) }
{
    let end = buffer.len();
    push_normal_again(buffer, start)?;
    buffer.replace_range(start..end, "")
}

/// Where the character first is, or the length.
#[inline]
pub fn index_of(text: &[u8], c: u8) -> usize
    ensures value { result ≡ position_or_len (λ x. x == c) text.now }
    ensures within { result ≤ length text.now }
{
    text.iter().take_while(|x| **x != c).count()
}

/// How long the host is: through `]` where it begins with `[`, else up to `:`.
fn host_len(text: &[u8]) -> usize
    ensures value { result ≡ host_len text.now }
    ensures within { result ≤ length text.now }
{
    if text.first() == Some(&b'[') {
        text.len().min(index_of(text, b']') + 1)
    } else {
        index_of(text, b':')
    }
}

/// Appends what follows a host, unless it is the `:` of an empty port.
fn push_port(buffer: &mut String, port: &str) -> Result<(), AllocError>
    ensures { OnOk result
        (string_bytes buffer.new ≡ string_bytes buffer.old ++ normal_port_part port.now) }
{
    if port.len() == 1 {
        return Ok(());
    }
    buffer.push_str(port)
}

/// Whether a text is a host in normal form, without a port and a userinfo, as far as its characters show.
pub fn is_plain_host(text: &[u8]) -> bool
    ensures { result ≡ true → list_all is_plain_in_host text.now ≡ true }
{
    for c in text {
        if matches!(*c, b'A'..=b'Z' | b'%' | b':' | b'@' | b'[') {
            return false;
        }
    }
    true
}

/// Appends `host [":" port]` in normal form: the host in lower case, and no `:` before an empty port. A host that is so
/// already is appended at once.
fn push_host_and_port(buffer: &mut String, text: &str) -> Result<(), AllocError>
    requires ascii { IsAscii text.now }
    requires host { has_whole_triples (take (host_len text.now) text.now) ≡ true }
    ensures { OnOk result
        (string_bytes buffer.new
        ≡ string_bytes buffer.old
        ++ (normal_host (take (host_len text.now) text.now)
        ++ normal_port_part (drop (host_len text.now) text.now))) }
{
    if is_plain_host(text.as_bytes()) {
        return buffer.push_str(text);
    }
    let len = host_len(text.as_bytes());
    push_encoded(buffer, head(text, len), Case::Lower)?;
    push_port(buffer, tail(text, len))
}

/// Appends an authority in normal form.
fn push_normal_authority(buffer: &mut String, authority: &str) -> Result<(), AllocError>
    requires ascii { IsAscii authority.now }
    requires authority { is_authority authority.now ≡ true }
    ensures { OnOk result
        (string_bytes buffer.new ≡ string_bytes buffer.old ++ normal_authority authority.now) }
{
    match authority.split_once('@') {
        Some((userinfo, rest)) => {
            push_encoded(buffer, userinfo, Case::AsItIs)?;
            push_ascii(buffer, b'@')?;
            push_host_and_port(buffer, rest)
        }
        None => push_host_and_port(buffer, authority),
    }
}

impl Form {
    /// Whether components are written as they were given.
    pub fn is_given(self) -> bool
        ensures { result ≡ true → self ≡ Form.Given }
    {
        matches!(self, Form::Given)
    }

    /// The form in which the parts of a text are written as in this one: as they were given, where it holds no triple.
    pub fn of_parts(self, text: &str) -> Form
        ensures { written_text result text.now ≡ written_text self text.now }
    {
        match self {
            Form::Given => Form::Given,
            Form::Normal | Form::NormalTarget if holds(text.as_bytes(), b'%') => Form::Normal,
            Form::Normal | Form::NormalTarget => Form::Given,
        }
    }

    /// Appends a path, a query or a fragment.
    pub fn push(self, buffer: &mut String, text: &str) -> Result<(), AllocError>
        requires ascii { IsAscii text.now }
        requires triples { has_whole_triples text.now ≡ true }
        ensures text { OnOk result
            (string_bytes buffer.new ≡ string_bytes buffer.old ++ written_text self text.now) }
        ensures ascii { OnOk result
            (IsAscii (string_bytes buffer.old) → IsAscii (string_bytes buffer.new)) }
    {
        match self {
            Form::Given => buffer.push_str(text),
            Form::Normal | Form::NormalTarget => push_normal_text(buffer, text),
        }
    }

    /// Appends a scheme.
    pub fn push_scheme(self, buffer: &mut String, scheme: &str) -> Result<(), AllocError>
        requires { IsAscii scheme.now }
        ensures text { OnOk result
            (string_bytes buffer.new ≡ string_bytes buffer.old ++ written_scheme self scheme.now) }
        ensures ascii { OnOk result
            (IsAscii (string_bytes buffer.old) → IsAscii (string_bytes buffer.new)) }
    {
        match self {
            Form::Given => buffer.push_str(scheme),
            Form::Normal | Form::NormalTarget => push_lower(buffer, scheme),
        }
    }

    /// Appends an authority.
    pub fn push_authority(self, buffer: &mut String, authority: &str) -> Result<(), AllocError>
        requires ascii { IsAscii authority.now }
        requires authority { is_authority authority.now ≡ true }
        ensures text { OnOk result
            (string_bytes buffer.new
            ≡ string_bytes buffer.old ++ written_authority self authority.now) }
        ensures ascii { OnOk result
            (IsAscii (string_bytes buffer.old) → IsAscii (string_bytes buffer.new)) }
    {
        match self {
            Form::Given => buffer.push_str(authority),
            Form::Normal | Form::NormalTarget => push_normal_authority(buffer, authority),
        }
    }
}
