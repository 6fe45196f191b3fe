//! What a text has, in its order.
ghost use Rattle.std.specs.Prelude.{◌≡◌, ◌≤◌, ◌↔◌, IsTrue, All};
ghost use Rattle.ref_yaml.specs.Events.{IsWithin, IsInPlace, are_apart, has_ends, is_between, is_space, may_begin, most_events, is_scalar as is_scalar_kind};

use crate::number::byte_at;

/// A part of a text: a scalar, an alias, or the beginning or the end of a list or an object. In an object each key is
/// followed by its value.
#[derive(Clone, Copy, Drop)]
pub struct Event {
    /// What it is.
    pub kind: Kind,
    /// Whether it is a key.
    pub is_key: bool,
    /// Its tag.
    pub tag: Tag,
    /// The offset of its first byte. An empty scalar is where it would begin.
    pub start: usize,
    /// The offset after its last byte.
    pub end: usize,
    /// Of a beginning the index of its end, of an alias that of what it means, and of a literal or a folded text the
    /// spaces before each line.
    pub link: usize,
    /// The offset of its anchor's `&`, or `NOWHERE`.
    pub anchor: usize,
}

/// What an event is.
#[derive(Clone, Copy, Drop, PartialEq, Eq)]
pub enum Kind {
    /// A list begins.
    BeginArray,
    /// A list ends.
    EndArray,
    /// An object begins.
    BeginObject,
    /// An object ends.
    EndObject,
    /// A scalar without quotes; an empty one too.
    Plain,
    /// A text in single quotes.
    SingleQuoted,
    /// A text in double quotes.
    DoubleQuoted,
    /// A text after `|`.
    Literal,
    /// A text after `>`.
    Folded,
    /// An alias.
    Alias,
}

/// A tag of the core schema (10.3).
#[derive(Clone, Copy, Drop, PartialEq, Eq)]
pub enum Tag {
    /// None.
    None,
    /// `!!str`, or `!` alone.
    Text,
    /// `!!int`.
    Int,
    /// `!!float`.
    Float,
    /// `!!bool`.
    Bool,
    /// `!!null`.
    Null,
    /// `!!seq`.
    Array,
    /// `!!map`.
    Object,
    /// Any of these, of `!` alone.
    Any,
}

/// The offset of what isn't there.
pub const NOWHERE: usize = usize::MAX;

impl Event {
    pub(crate) fn new(kind: Kind, start: usize, end: usize) -> Event {
        Event {
            kind,
            is_key: false,
            tag: Tag::None,
            start,
            end,
            link: 0,
            anchor: NOWHERE,
        }
    }

    pub(crate) fn empty(at: usize) -> Event {
        Event::new(Kind::Plain, at, at)
    }

    // Whether it is a scalar, or an alias.
    pub(crate) fn is_leaf(&self) -> bool {
        !matches!(
            self.kind,
            Kind::BeginArray | Kind::EndArray | Kind::BeginObject | Kind::EndObject
        )
    }

    pub(crate) fn is_scalar(&self) -> bool
        ensures value { result ≡ is_scalar_kind self.now.kind }
    {
        matches!(
            self.kind,
            Kind::Plain | Kind::SingleQuoted | Kind::DoubleQuoted | Kind::Literal | Kind::Folded
        )
    }

    // Whether a colon after it needs no space (7.4.2).
    pub(crate) fn is_like_json(&self) -> bool {
        !matches!(self.kind, Kind::Plain | Kind::Alias)
    }
}

// How many events a text of so many bytes may have.
pub(crate) fn events_of(len: usize) -> usize
    ensures value { result ≤ most_events len }
{
    len.saturating_mul(10).max(1_000_000)
}

// Whether the offsets of events are within a text of so many bytes.
pub(crate) fn are_within(events: &[Event], len: usize) -> bool
    ensures value { IsTrue result ↔ All (IsWithin len) events.now }
{
    events
        .iter()
        .all(|event| event.start <= event.end && event.end <= len)
}

fn is_space(byte: u8) -> bool
    ensures value { result ≡ is_space byte }
{
    matches!(byte, b' ' | b'\t' | b'\n' | b'\r')
}

// Whether an event may have these as its first and its last byte.
fn has_ends(kind: Kind, first: u8, last: u8) -> bool
    ensures value { result ≡ has_ends kind first last }
{
    match kind {
        Kind::SingleQuoted => first == b'\'' && last == b'\'',
        Kind::DoubleQuoted => first == b'"' && last == b'"',
        Kind::Literal => first == b'|',
        Kind::Folded => first == b'>',
        Kind::Plain => !is_space(first) && !is_space(last),
        Kind::EndArray => first == b']',
        Kind::EndObject => first == b'}',
        _ => true,
    }
}

fn is_between(byte: u8) -> bool
    ensures value { result ≡ is_between byte }
{
    is_space(byte) || matches!(byte, b',' | b']' | b'}')
}

// Whether an event may begin at this byte.
fn may_begin(kind: Kind, first: u8) -> bool
    ensures value { result ≡ may_begin kind first }
{
    match kind {
        Kind::BeginArray => first == b'[' || first == b'-',
        Kind::BeginObject => !is_between(first),
        _ => true,
    }
}

// Whether an event begins at its first byte and ends after its last one.
fn is_in_place(text: &[u8], event: &Event) -> bool
    ensures value { IsTrue result ↔ IsInPlace text.now event.now }
{
    if !may_begin(event.kind, byte_at(text, event.start)) {
        return false;
    }
    if event.start >= event.end {
        return true;
    }
    let last = event.end - 1;
    has_ends(event.kind, byte_at(text, event.start), byte_at(text, last))
}

pub(crate) fn are_in_place(text: &[u8], events: &[Event]) -> bool
    ensures value { IsTrue result → All (IsInPlace text.now) events.now }
{
    events.iter().all(|event| is_in_place(text, event))
}

// Whether events lie one after another.
pub(crate) fn are_in_order(events: &[Event]) -> bool
    ensures value { result ≡ are_apart 0 events.now }
{
    let mut last = 0;
    for event in events {
        if event.start < last {
            return false;
        }
        last = event.end;
    }
    true
}
