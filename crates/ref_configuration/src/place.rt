//! Where a member of a TOML text is.
ghost use Rattle.std.specs.Prelude.{◌≡◌, ◌≤◌, length, map, false, option_map, IfOk};
ghost use Rattle.toml.specs.View.{view, table_view};
ghost use Rattle.ref_configuration.specs.Lines.{place_at};
ghost use Rattle.ref_configuration.specs.Places as spec;
ghost use Rattle.ref_configuration.specs.inner.Beginnings.{told};

use crate::member::member;
use std::alloc::{AllocError, Global};
use toml::{Table, Value};

/// The line and the column, from 1, at which a member begins of what a path of keys leads to: the first line that isn't blank and no comment after the longest
/// beginning of the text that is TOML and doesn't have it. Of a list of tables on the way, and of one that is the member itself, the item with this number is meant,
/// from 0. It reads each beginning that ends with a line, so it costs the square of the text, and is asked only where something is wrong.
pub fn place_of(
    alloc: Global,
    text: &str,
    above: &[&str],
    item: usize,
    name: &str,
) -> Result<(usize, usize), AllocError>
    ensures value { IfOk result (λ place. place
        ≡ spec.place_of (map (λ key. key.now) above.now) item name.now text.now) }
{
    let begin = after_lacking(alloc, text, above, item, name)?;
    Ok(line_and_column(text, sound_from(text, begin)))
}

// What the beginning of a text is.
#[derive(Clone, Copy, Drop)]
enum State {
    // TOML that has the member.
    Has,
    // TOML that doesn't have it.
    Lacks,
    // No TOML.
    Open,
}

// The offset after the last line before which the text is TOML without the member, up to the first before which it has it.
fn after_lacking(
    alloc: Global,
    text: &str,
    above: &[&str],
    item: usize,
    name: &str,
) -> Result<usize, AllocError>
    ensures value { IfOk result (λ begin. begin
        ≡ spec.after_lacking (spec.has (map (λ key. key.now) above.now) item name.now) text.now) }
    ensures within { IfOk result (λ begin. begin ≤ length text.now) }
{
    let mut begin = 0;
    for end in 0..text.len() {
        if text.as_bytes()[end] == b'\n' {
            match state_of(alloc, &text[..end], above, item, name)? {
                State::Has => return Ok(begin),
                State::Lacks => begin = end + 1,
                State::Open => {}
            }
        }
    }
    Ok(begin)
}

fn state_of(
    alloc: Global,
    text: &str,
    above: &[&str],
    item: usize,
    name: &str,
) -> Result<State, AllocError>
    ensures { IfOk result (λ state. told state
        ≡ spec.tells (spec.has (map (λ key. key.now) above.now) item name.now) text.now) }
{
    match toml::table_from_str(alloc, text) {
        Ok(table) => Ok(if has(&table, above, item, name) {
            State::Has
        } else {
            State::Lacks
        }),
        Err(error) if error.is_memory() => Err(AllocError),
        Err(_) => Ok(State::Open),
    }
}

// Whether a table has what these keys and then the name lead to.
fn has(table: &Table, above: &[&str], item: usize, name: &str) -> bool
    ensures { result
        ≡ spec.has (map (λ key. key.now) above.now) item name.now (table_view table.now) }
{
    let Some((first, keys)) = above.split_first() else {
        return match member(table, name) {
            Some(value) => is_there(value, item),
            None => false,
        };
    };
    match member(table, first) {
        Some(value) => has_below(value, keys, item, name),
        None => false,
    }
}

fn has_below(value: &Value, keys: &[&str], item: usize, name: &str) -> bool
    ensures { result
        ≡ spec.has_below (map (λ key. key.now) keys.now) item name.now (view value.now) }
{
    let mut value = value;
    for key in keys {
        match inner(value, item, key) {
            Some(found) => value = found,
            None => return false,
        }
    }
    inner(value, item, name).is_some()
}

// Whether a value is there, and the item of a list with a number. A list without items has the first.
fn is_there(value: &Value, item: usize) -> bool
    ensures { result ≡ spec.is_there item (view value.now) }
{
    if !value.is_array() || item == 0 {
        return true;
    }
    value.get(item).is_some()
}

// The member of a table, or of the one of a list of tables with this number.
fn inner<'v>(value: &'v Value, item: usize, key: &str) -> Option<&'v Value>
    ensures { option_map (λ v. view v.now) result ≡ spec.inner item key.now (view value.now) }
{
    if value.is_array() {
        return value.get(item)?.get(key);
    }
    value.get(key)
}

// The offset of the first byte from another one on that is neither white space nor in a comment, or that one.
fn sound_from(text: &str, begin: usize) -> usize
    ensures { result ≡ spec.sound_from text.now begin }
{
    let bytes = text.as_bytes();
    let mut is_comment = false;
    for at in begin..bytes.len() {
        let byte = bytes[at];
        if is_comment {
            is_comment = byte != b'\n';
        } else if !is_white(byte) {
            if byte != b'#' {
                return at;
            }
            is_comment = true;
        }
    }
    begin
}

fn is_white(byte: u8) -> bool
    ensures { result ≡ spec.is_white byte }
{
    9 <= byte && byte <= 13 || byte == b' '
}

/// The line and the column in bytes of an offset, both from 1.
pub(crate) fn line_and_column(text: &str, offset: usize) -> (usize, usize)
    ensures { result ≡ place_at text.now offset }
{
    let mut line = 1;
    let mut column = 1;
    for byte in &text.as_bytes()[..offset.min(text.len())] {
        if *byte == b'\n' {
            line += 1;
            column = 1;
        } else {
            column += 1;
        }
    }
    (line, column)
}
