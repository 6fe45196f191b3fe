//! The walk along the pointer of a reference's fragment (RFC 6901), with the base URI along it.
ghost use Rattle.std.specs.Prelude.{◌≡◌, ◌≢◌, ◌==◌, ◌||◌, ◌∷◌, ◌++◌, ◌<◌, true, length, take, slice_index, All, position, OnOk, MatchOption, option_map, ok_or, Some, None, Ok, if◌then◌else◌};
ghost use Rattle.serde_json.specs.View.{view};
ghost use Rattle.ref_parts.specs.Pointer.{slash, tilde, tokens, unescape};
ghost use Rattle.ref_uri.specs.Bytes.{percent};
ghost use Rattle.ref_draft.specs.Schema.{identifier};
ghost use Rattle.ref_definitions.specs.Pointers as world;
ghost use Rattle.ref_definitions.specs.Fault.{PointerToNowhere, InvalidArrayIndex, InvalidPercentEncoding};
ghost use Rattle.ref_error.specs.Errors.{Gives, SaysOrMemory};
ghost use Rattle.ref_resolver.specs.inner.Walking.{along_of, accepted_id, changed_base, stepped_into, stepped_along, passed_along, Steps, Follows};

use crate::layers::Layers;
use percent_encoding::{DecodeError, percent_decode};
use ref_draft::{Draft, Reached, ResourceRef};
use ref_error::Error;
use ref_parts::escape::unescape_segment;
use ref_uri::Uri;
use serde_json::Value;
use std::alloc::{AllocError, Global};
use std::rc::Rc;

/// A value on the way of a pointer, with the base there and what the parts since it last changed lead to.
#[derive(Drop)]
pub struct Along<'r> {
    pub value: &'r Value,
    pub base: Rc<Uri>,
    pub reached: Reached,
}

/// How a pointer is walked: the documents whose resolved URIs serve, the draft of the resource, and the pointer's text, which
/// faults say.
#[derive(Clone, Copy, Drop)]
pub struct Walk<'r, 'w> {
    pub layers: Layers<'r>,
    pub draft: Draft,
    pub pointer: &'w str,
}

// A fault with the text of the pointer. Faults stay out of what a step takes.
#[inline(never)]
fn no_such_value(alloc: Global, pointer: &str) -> Error
    ensures { SaysOrMemory (PointerToNowhere pointer.now) result }
{
    match String::from_str(alloc, pointer) {
        Ok(pointer) => Error::PointerToNowhere { pointer },
        Err(error) => Error::Memory(error),
    }
}

// A fault with the texts of the pointer and of the part that is no index.
#[inline(never)]
fn no_index(alloc: Global, pointer: &str, token: &str) -> Error
    ensures { SaysOrMemory (InvalidArrayIndex pointer.now token.now) result }
{
    let pointer = match String::from_str(alloc, pointer) {
        Ok(pointer) => pointer,
        Err(error) => return Error::Memory(error),
    };
    match String::from_str(alloc, token) {
        Ok(index) => Error::InvalidArrayIndex { pointer, index },
        Err(error) => Error::Memory(error),
    }
}

// Decimal digits, after a `+` or not, of a number that a `usize` holds.
pub(crate) fn index_of(part: &str) -> Option<usize>
    ensures { result ≡ world.index_of part.now }
{
    part.parse::<usize>().ok()
}

// What a look-up found, or the fault of a pointer that finds no value.
fn found<'r>(alloc: Global, pointer: &str, value: Option<&'r Value>) -> Result<&'r Value, Error>
    ensures gives { Gives (λ v. view v.now)
        (ok_or (option_map (λ v. view v.now) value.entry) (PointerToNowhere pointer.now))
        result }
{
    match value {
        Some(value) => Ok(value),
        None => Err(no_such_value(alloc, pointer)),
    }
}

// The index that a token is in an array.
#[inline(never)]
fn index_in(alloc: Global, pointer: &str, token: &str) -> Result<usize, Error>
    ensures gives { Gives (λ i. i)
        (ok_or (world.index_of token.now) (InvalidArrayIndex pointer.now token.now)) result }
{
    match index_of(token) {
        Some(index) => Ok(index),
        None => Err(no_index(alloc, pointer, token)),
    }
}

// Goes to the value that a token leads to, with the part that it is. The base stays.
#[inline(always)]
fn step_into<'r>(
    alloc: Global,
    walk: &Walk<'_, '_>,
    along: &mut Along<'r>,
    token: &str,
) -> Result<(), Error>
    ensures gives { Gives (λ _. (along.new.reached, view along.new.value.now))
        (stepped_into walk.now.draft walk.now.pointer.now along.old.reached
        (view along.old.value.now) token.now)
        result }
    ensures base { OnOk result (along.new.base.value ≡ along.old.base.value) }
{
    if along.value.is_array() {
        let index = index_in(alloc, walk.pointer, token)?;
        along.value = found(alloc, walk.pointer, along.value.get(index))?;
        along.reached = along.reached.index();
        return Ok(());
    }
    let key = unescape_segment(alloc, token)?;
    along.value = found(alloc, walk.pointer, along.value.get(key.as_str()))?;
    along.reached = along.reached.key(walk.draft, key.as_str());
    Ok(())
}

// The identifier of a value, where the parts since the last change are accepted at it.
#[inline(always)]
fn accepted_id<'v>(draft: Draft, reached: Reached, value: &'v Value) -> Option<&'v str>
    ensures { option_map (λ text. text.now) result
        ≡ accepted_id draft reached (view value.now) }
{
    if reached.accepts(value.is_object()) {
        ResourceRef::new(value, draft).id()
    } else {
        None
    }
}

// Makes a URI the base: where it is another, what the parts lead to is forgotten.
#[inline(always)]
fn change_base(along: &mut Along<'_>, uri: Rc<Uri>)
    ensures value { along.new.value ≡ along.old.value }
    ensures base { along_of along.new
        ≡ changed_base along.old.base.value along.old.reached uri.value }
{
    if uri.as_str() != along.base.as_str() {
        along.reached = Reached::Schema;
    }
    along.base = uri;
}

// One token further: an identifier of the value there, where the parts since the last change are accepted at it, is a base
// against the one before.
pub(crate) fn step<'r>(
    alloc: Global,
    walk: &Walk<'_, '_>,
    along: &mut Along<'r>,
    token: &str,
) -> Result<(), Error>
    ensures gives { Steps walk.now along.old token.now along.new result }
{
    step_into(alloc, walk, along, token)?;
    let Some(id) = accepted_id(walk.draft, along.reached, along.value) else {
        return Ok(());
    };
    let uri = walk.layers.resolve_uri(alloc, along.base.borrow(), id)?;
    change_base(along, uri);
    Ok(())
}

// Where the first `/` of a text is. A search by bytes, which decodes no character; most tokens are short.
#[inline(always)]
fn slash_in(text: &str) -> Option<usize>
    ensures { result ≡ position (λ b. b == slash) text.now }
{
    text.as_bytes().iter().position(|byte| *byte == b'/')
}

// What is before a `/` of a text, and what follows it.
#[inline(always)]
fn cut_at(text: &str, place: usize) -> (&str, &str)
    requires within { place < length text.now }
    requires slash { slice_index text.now place ≡ slash }
    ensures cut { text.now ≡ result.0.now ++ (slash ∷ result.1.now) }
    ensures token { result.0.now ≡ take place text.now }
{
    let (token, _) = text.split_at(place);
    (token, &text[place + 1..])
}

// What is before the first `/` of a text, and what follows that.
#[inline(always)]
pub(crate) fn cut_at_slash(text: &str) -> Option<(&str, &str)>
    ensures { MatchOption result (All (λ b. b ≢ slash) text.now)
        (λ cut. (text.now ≡ cut.0.now ++ (slash ∷ cut.1.now)) × All (λ b. b ≢ slash) cut.0.now) }
{
    Some(cut_at(text, slash_in(text)?))
}

// Token by token.
#[inline(always)]
fn walk_along<'r>(
    alloc: Global,
    walk: &Walk<'_, '_>,
    along: &mut Along<'r>,
    text: &str,
) -> Result<(), Error>
    ensures gives { Gives (λ _. (view along.new.value.now, along_of along.new))
        (passed_along walk.now.draft walk.now.pointer.now (along_of along.old)
        (view along.old.value.now) (tokens text.now))
        result }
{
    let mut rest = text;
    while let Some((token, more)) = cut_at_slash(rest) {
        step(alloc, walk, along, token)?;
        rest = more;
    }
    step(alloc, walk, along, rest)
}

// The fault of a pointer whose triples make no UTF-8.
#[inline(never)]
pub(crate) fn no_utf8(alloc: Global, pointer: &str) -> Error
    ensures { SaysOrMemory (InvalidPercentEncoding pointer.now) result }
{
    match String::from_str(alloc, pointer) {
        Ok(pointer) => Error::InvalidPercentEncoding { pointer },
        Err(error) => Error::Memory(error),
    }
}

// Follows a pointer, as `follow_pointer` says it: its text is decoded first, and each token unescaped. Few texts are, so
// what that takes stays out of the others, with all that faults take.
#[inline(never)]
fn follow_decoded<'r>(
    alloc: Global,
    walk: &Walk<'_, '_>,
    along: &mut Along<'r>,
    text: &str,
) -> Result<(), Error>
    ensures gives { Follows walk.now along.old text.now along.new result }
{
    along.reached = Reached::Schema;
    match percent_decode(text.as_bytes()).decode_utf8(alloc) {
        Ok(decoded) => walk_along(alloc, walk, along, decoded.as_str()),
        Err(DecodeError::OutOfMemory) => Err(Error::Memory(AllocError)),
        Err(DecodeError::Utf8(_)) => Err(no_utf8(alloc, walk.pointer)),
    }
}

// Goes to the value under a token that is a key as it is, with the part that it is. The base stays. False where there
// is none.
#[inline(always)]
fn step_under<'r>(walk: &Walk<'_, '_>, along: &mut Along<'r>, token: &str) -> bool
    requires key { token.now ≡ unescape token.now }
    ensures value { result ≡ true
        → stepped_into walk.now.draft walk.now.pointer.now along.old.reached
        (view along.old.value.now) token.now
        ≡ Ok (along.new.reached, view along.new.value.now) }
    ensures base { along.new.base.value ≡ along.old.base.value }
{
    if along.value.is_array() {
        let Some(index) = index_of(token) else {
            return false;
        };
        let Some(value) = along.value.get(index) else {
            return false;
        };
        along.value = value;
        along.reached = along.reached.index();
        return true;
    }
    let Some(value) = along.value.get(token) else {
        return false;
    };
    along.value = value;
    along.reached = along.reached.key(walk.draft, token);
    true
}

// One token further, as `step` goes, where the token is a key as it is, and an identifier there was resolved before. False
// where it isn't known where that leads.
#[inline(always)]
fn step_plainly<'r>(walk: &Walk<'_, '_>, along: &mut Along<'r>, token: &str) -> bool
    requires plain { All (λ b. b ≢ tilde) token.now }
    ensures steps { result ≡ true
        → stepped_along walk.now.draft walk.now.pointer.now (along_of along.old)
        (view along.old.value.now) token.now
        ≡ Ok (view along.new.value.now, along_of along.new) }
{
    if !step_under(walk, along, token) {
        return false;
    }
    let Some(id) = accepted_id(walk.draft, along.reached, along.value) else {
        return true;
    };
    let Some(uri) = walk.layers.resolved_uri(&along.base.borrow(), id) else {
        return false;
    };
    let Ok(uri) = uri.clone() else {
        return false;
    };
    change_base(along, uri);
    true
}

// Where the first `/`, `%` or `~` of a text is. A search by bytes, which decodes no character; most tokens are short.
#[inline(always)]
fn mark_in(text: &str) -> Option<usize>
    ensures { result ≡ position (λ b. b == slash || b == percent || b == tilde) text.now }
{
    text.as_bytes()
        .iter()
        .position(|byte| *byte == b'/' || *byte == b'%' || *byte == b'~')
}

// Token by token, as `walk_along` goes, where the text has no `%` and no `~`. False where it isn't known where that leads.
#[inline(always)]
fn walk_plainly<'r>(walk: &Walk<'_, '_>, along: &mut Along<'r>, text: &str) -> bool
    ensures decoded { result ≡ true → All (λ b. b ≢ percent) text.now }
    ensures passed { result ≡ true
        → passed_along walk.now.draft walk.now.pointer.now (along_of along.old)
        (view along.old.value.now) (tokens text.now)
        ≡ Ok (view along.new.value.now, along_of along.new) }
{
    let mut rest = text;
    while let Some(place) = mark_in(rest) {
        if rest.as_bytes()[place] != b'/' {
            return false;
        }
        let (token, more) = cut_at(rest, place);
        if !step_plainly(walk, along, token) {
            return false;
        }
        rest = more;
    }
    step_plainly(walk, along, rest)
}

/// Goes from the value of a resource to the one that a pointer leads to, with the base there (RFC 6901, 3, 4 and 6): `text` is
/// what is after the fragment's first `/`. It is percent-decoded as a whole, and then split.
///
/// Refuses as `InvalidPercentEncoding` where the decoded bytes are no UTF-8, as `InvalidArrayIndex` and
/// `PointerToNowhere` for the first part that is unresolvable, as `InvalidUri` for an identifier on the way that means
/// no URI, and as `Memory`. Where the text has no `%` and no `~`, and the identifiers on the way were resolved before, none
/// is decoded, unescaped or resolved. Where that is unresolvable, the walk is made once more.
#[inline(always)]
pub(crate) fn follow_pointer<'r>(
    alloc: Global,
    walk: &Walk<'_, '_>,
    along: &mut Along<'r>,
    text: &str,
) -> Result<(), Error>
    ensures gives { Follows walk.now along.old text.now along.new result }
{
    let (value, base) = (along.value, along.base.clone()?);
    along.reached = Reached::Schema;
    if walk_plainly(walk, along, text) {
        return Ok(());
    }
    along.value = value;
    along.base = base;
    follow_decoded(alloc, walk, along, text)
}
