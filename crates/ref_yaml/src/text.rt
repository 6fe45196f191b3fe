//! The texts that scalars are.
ghost use Rattle.std.specs.Prelude.{◌≡◌, ◌+◌, ◌-◌, ◌↔◌, [], false, Some, All, IsTrue, IfOk, IfErr, IfSome, string_bytes, option_map};
ghost use Rattle.ref_yaml.specs.Block as spec_text;
ghost use Rattle.ref_yaml.specs.Events.{is_scalar};
ghost use Rattle.ref_yaml.specs.Flow.{with_feeds, folded};
ghost use Rattle.ref_yaml.specs.Passing.{IsWithoutMark, IsNoReturn};
ghost use Rattle.ref_yaml.specs.Scalars as spec;
ghost use Rattle.ref_yaml.specs.Values.{IsNoText, IsTextStop};
ghost use Rattle.ref_yaml.specs.declared.event.Kind.TheVariants.{Plain, SingleQuoted, DoubleQuoted, Literal, Folded};

use crate::escape::{unescaped, unescaped_line};
use crate::event::{Event, Kind};
use crate::fault::{Fault, Stop};
use crate::feeds::{with_feeds, with_quotes};
use crate::fold::folded;
use crate::lines::{after_header, chomping_of, folded_text, literal_text};
use std::alloc::{AllocError, Global};

// The bytes from one offset to another.
pub(crate) fn part(text: &str, from: usize, to: usize) -> &[u8]
    ensures value { result.now ≡ spec.part text.now from to }
{
    let bytes = text.as_bytes();
    if from <= to && to <= bytes.len() {
        return &bytes[from..to];
    }
    &[]
}

// Whether bytes have neither a line break nor this one.
fn is_one_line(source: &[u8], mark: u8) -> bool
    ensures value { IsTrue result ↔ All (IsWithoutMark mark) source.now }
{
    source
        .iter()
        .all(|byte| *byte != b'\n' && *byte != b'\r' && *byte != mark)
}

// The text from one offset to another, where it has neither a line break nor this byte.
pub(crate) fn line_of(text: &str, from: usize, to: usize, mark: u8) -> Option<&str>
    ensures value { IfSome result (λ s. s.now ≡ spec.part text.now from to) }
    ensures one_line { IfSome result (λ s. All (IsWithoutMark mark) s.now) }
{
    if from > to || to > text.len() {
        return None;
    }
    let line = text.get(from..to)?;
    if !is_one_line(line.as_bytes(), mark) {
        return None;
    }
    Some(line)
}

// Bytes as they are.
fn same_bytes(alloc: Global, source: &[u8]) -> Result<Vec<u8>, AllocError>
    ensures value { IfOk result (λ v. v.items ≡ source.now) }
{
    let mut out = Vec::with_capacity(alloc, source.len())?;
    out.extend_from_slice(source)?;
    Ok(out)
}

// Whether bytes have no carriage return. The loop has no other way out, so that it takes many bytes at a time.
fn is_without_returns(source: &[u8]) -> bool
    ensures value { IsTrue result → All IsNoReturn source.now }
{
    let mut has_one = false;
    for byte in source {
        if *byte == b'\r' {
            has_one = true;
        }
    }
    !has_one
}

// Lines that are folded, whatever breaks them.
fn folded_lines(alloc: Global, source: &[u8], escapes: bool) -> Result<Vec<u8>, AllocError>
    ensures value { IfOk result
        (λ v. v.items ≡ folded escapes false [] 0 false (with_feeds false source.now)) }
{
    if is_without_returns(source) {
        return folded(alloc, source, escapes);
    }
    let lines = with_feeds(alloc, source)?;
    folded(alloc, lines.as_slice(), escapes)
}

// The text of a plain scalar.
fn plain_text(alloc: Global, source: &[u8]) -> Result<Vec<u8>, AllocError>
    ensures value { IfOk result (λ v. v.items ≡ spec.plain_text source.now) }
{
    if is_one_line(source, b'\n') {
        return same_bytes(alloc, source);
    }
    folded_lines(alloc, source, false)
}

// The text of what is between single quotes.
fn single_text(alloc: Global, source: &[u8]) -> Result<Vec<u8>, AllocError>
    ensures value { IfOk result (λ v. v.items ≡ spec.single_text source.now) }
{
    let quoted = with_quotes(alloc, source)?;
    plain_text(alloc, quoted.as_slice())
}

// The text of what is between double quotes.
fn double_text(alloc: Global, source: &[u8]) -> Result<Option<Vec<u8>>, AllocError>
    ensures value { IfOk result
        (λ o. option_map (λ v. v.items) o ≡ spec.double_text source.now) }
{
    if let Some(line) = unescaped_line(alloc, source)? {
        return Ok(Some(line));
    }
    let joined = folded_lines(alloc, source, true)?;
    unescaped(alloc, joined.as_slice())
}

// Bytes as a text. They always are one.
fn string_of(bytes: Vec<u8>, at: usize) -> Result<String, Stop>
    ensures value { IfOk result (λ s. string_bytes s ≡ bytes.items) }
    ensures refused { IfErr result (IsNoText (λ s. s ≡ bytes.items)) }
{
    match String::from_utf8(bytes) {
        Ok(text) => Ok(text),
        Err(_) => Err(Stop::At(Fault::Character, at)),
    }
}

// A copy of a text.
fn copied(alloc: Global, line: &str) -> Result<String, Stop>
    ensures value { IfOk result (λ s. string_bytes s ≡ line.now) }
    ensures refused { IfErr result (IsNoText (λ s. s ≡ line.now)) }
{
    match String::from_str(alloc, line) {
        Ok(text) => Ok(text),
        Err(_) => Err(Stop::Memory),
    }
}

// The text of a plain event.
fn plain_of(alloc: Global, text: &str, start: usize, end: usize) -> Result<String, Stop>
    ensures value { IfOk result (λ s. string_bytes s
        ≡ spec.plain_text (spec.part text.now start end)) }
    ensures refused { IfErr result (IsNoText (λ s.
        s ≡ spec.plain_text (spec.part text.now start end))) }
{
    if let Some(line) = line_of(text, start, end, b'\n') {
        return copied(alloc, line);
    }
    match plain_text(alloc, part(text, start, end)) {
        Ok(bytes) => string_of(bytes, start),
        Err(_) => Err(Stop::Memory),
    }
}

// The text of an event in single quotes.
fn single_of(alloc: Global, text: &str, start: usize, end: usize) -> Result<String, Stop>
    ensures value { IfOk result (λ s. string_bytes s
        ≡ spec.single_text (spec.part text.now start end)) }
    ensures refused { IfErr result (IsNoText (λ s.
        s ≡ spec.single_text (spec.part text.now start end))) }
{
    if let Some(line) = line_of(text, start, end, b'\'') {
        return copied(alloc, line);
    }
    match single_text(alloc, part(text, start, end)) {
        Ok(bytes) => string_of(bytes, start),
        Err(_) => Err(Stop::Memory),
    }
}

// The text of an event in double quotes.
fn double_of(alloc: Global, text: &str, start: usize, end: usize) -> Result<String, Stop>
    ensures value { IfOk result (λ s.
        spec.double_text (spec.part text.now start end) ≡ Some (string_bytes s)) }
    ensures refused { IfErr result (IsNoText (λ s.
        spec.double_text (spec.part text.now start end) ≡ Some s)) }
{
    if let Some(line) = line_of(text, start, end, b'\\') {
        return copied(alloc, line);
    }
    match double_text(alloc, part(text, start, end)) {
        Ok(Some(bytes)) => string_of(bytes, start),
        Ok(None) => Err(Stop::At(Fault::Escape, start)),
        Err(_) => Err(Stop::Memory),
    }
}

// The text of a body after `|`, whatever breaks its lines.
fn literal_lines(
    alloc: Global,
    body: &[u8],
    indent: usize,
    chomping: u8,
) -> Result<Vec<u8>, AllocError>
    ensures value { IfOk result
        (λ v. v.items ≡ spec_text.literal_text chomping indent (with_feeds false body.now)) }
{
    if is_without_returns(body) {
        return literal_text(alloc, body, indent, chomping);
    }
    let lines = with_feeds(alloc, body)?;
    literal_text(alloc, lines.as_slice(), indent, chomping)
}

// The text of a body after `>`, whatever breaks its lines.
fn folded_body(
    alloc: Global,
    body: &[u8],
    indent: usize,
    chomping: u8,
) -> Result<Vec<u8>, AllocError>
    ensures value { IfOk result
        (λ v. v.items ≡ spec_text.folded_text chomping indent (with_feeds false body.now)) }
{
    if is_without_returns(body) {
        return folded_text(alloc, body, indent, chomping);
    }
    let lines = with_feeds(alloc, body)?;
    folded_text(alloc, lines.as_slice(), indent, chomping)
}

// The text of a literal event.
fn literal_of(alloc: Global, text: &str, event: &Event) -> Result<String, Stop>
    ensures value { IfOk result (λ s. spec.IsLiteral text.now
        event.now.start event.now.end event.now.link (string_bytes s)) }
    ensures refused { IfErr result (IsNoText (spec.IsLiteral text.now
        event.now.start event.now.end event.now.link)) }
{
    let source = part(text, event.start, event.end);
    let chomping = chomping_of(source);
    match literal_lines(alloc, after_header(source), event.link, chomping) {
        Ok(bytes) => string_of(bytes, event.start),
        Err(_) => Err(Stop::Memory),
    }
}

// The text of a folded event.
fn folded_of(alloc: Global, text: &str, event: &Event) -> Result<String, Stop>
    ensures value { IfOk result (λ s. spec.IsFolded text.now
        event.now.start event.now.end event.now.link (string_bytes s)) }
    ensures refused { IfErr result (IsNoText (spec.IsFolded text.now
        event.now.start event.now.end event.now.link)) }
{
    let source = part(text, event.start, event.end);
    let chomping = chomping_of(source);
    match folded_body(alloc, after_header(source), event.link, chomping) {
        Ok(bytes) => string_of(bytes, event.start),
        Err(_) => Err(Stop::Memory),
    }
}

/// The text of a scalar's event. No other has one.
pub(crate) fn text_of(alloc: Global, text: &str, event: &Event) -> Result<String, Stop>
    ensures plain { IfOk result (λ s. event.now.kind ≡ Plain → string_bytes s
        ≡ spec.plain_text (spec.part text.now event.now.start event.now.end)) }
    ensures single { IfOk result (λ s. event.now.kind ≡ SingleQuoted → string_bytes s
        ≡ spec.single_text (spec.part text.now (event.now.start + 1) (event.now.end - 1))) }
    ensures double { IfOk result (λ s. event.now.kind ≡ DoubleQuoted → Some (string_bytes s)
        ≡ spec.double_text (spec.part text.now (event.now.start + 1) (event.now.end - 1))) }
    ensures literal { IfOk result (λ s. event.now.kind ≡ Literal
        → spec.IsLiteral text.now event.now.start event.now.end event.now.link (string_bytes s)) }
    ensures folded { IfOk result (λ s. event.now.kind ≡ Folded
        → spec.IsFolded text.now event.now.start event.now.end event.now.link (string_bytes s)) }
    ensures scalar { IfOk result (λ _. IsTrue (is_scalar event.now.kind)) }
    ensures refused { IfErr result (IsTextStop text.now event.now) }
{
    if event.start > event.end || event.end > text.len() {
        return Err(Stop::At(Fault::Offsets, event.start));
    }
    let inner = event.start + 1;
    let end = event.end.saturating_sub(1);
    match event.kind {
        Kind::Plain => plain_of(alloc, text, event.start, event.end),
        Kind::SingleQuoted => single_of(alloc, text, inner, end),
        Kind::DoubleQuoted => double_of(alloc, text, inner, end),
        Kind::Literal => literal_of(alloc, text, event),
        Kind::Folded => folded_of(alloc, text, event),
        _ => Err(Stop::At(Fault::Offsets, event.start)),
    }
}
