//! What a plain scalar is by the core schema (10.3.2).
ghost use Rattle.std.specs.Prelude.{◌≡◌, ◌<◌, ◌==◌, true, false, length, slice_index, Some, IfOk, IfSome, IsTrue, drop, option_map, if◌then◌else◌};
ghost use Rattle.serde_json.specs.Data.{Items, Members, string, array, object, depth as nesting};
ghost use Rattle.serde_json.specs.Read.{number_of as json_number_of, number_from};
ghost use Rattle.serde_json.specs.View.{view, number_view};
ghost use Rattle.ref_yaml.specs.Core.{nothing_words, null_words, true_words, false_words, infinite_words, no_number_words, is_one_of, parts_of, as_json, json_number as number_written, digits_number, number_value, core_value};
ghost use Rattle.ref_yaml.specs.Passing.{parts_in};
ghost use Rattle.ref_yaml.specs.Values.{fits as fits_tag};

use crate::event::Tag;
use crate::fault::{Fault, Stop};
use crate::number::{Decimal, after_sign, decimal_of, is_in_radix, number_in};
use fast_float::Numeral;
use serde_json::{Number, Value};
use std::alloc::{AllocError, Global};

fn is_nothing(text: &str) -> bool
    ensures value { result ≡ is_one_of nothing_words text.now }
{
    text.is_empty() || text == "~"
}

fn is_null(text: &str) -> bool
    ensures value { result ≡ is_one_of null_words text.now }
{
    text == "null" || text == "Null" || text == "NULL"
}

fn is_true(text: &str) -> bool
    ensures value { result ≡ is_one_of true_words text.now }
{
    text == "true" || text == "True" || text == "TRUE"
}

fn is_false(text: &str) -> bool
    ensures value { result ≡ is_one_of false_words text.now }
{
    text == "false" || text == "False" || text == "FALSE"
}

fn is_infinite(size: &[u8]) -> bool
    ensures value { result ≡ is_one_of infinite_words size.now }
{
    size == b".inf".as_slice() || size == b".Inf".as_slice() || size == b".INF".as_slice()
}

fn is_no_number(text: &[u8]) -> bool
    ensures value { result ≡ is_one_of no_number_words text.now }
{
    text == b".nan".as_slice() || text == b".NaN".as_slice() || text == b".NAN".as_slice()
}

// The number of a text of JSON without a minus, and of one with a minus after it.
fn unsigned(numeral: &Numeral<'_>) -> Option<Number>
    ensures value { option_map number_view result ≡ number_from false numeral.now }
{
    match numeral.to_u64() {
        Some(number) => Some(Number::from(number)),
        None => Number::from_f64(numeral.to_float::<f64>(false)),
    }
}

fn negative(numeral: &Numeral<'_>) -> Option<Number>
    ensures value { option_map number_view result ≡ number_from true numeral.now }
{
    if let Some(number) = numeral.to_i64(true) {
        if number < 0 {
            return Some(Number::from(number));
        }
    }
    Number::from_f64(numeral.to_float::<f64>(true))
}

fn has_minus(bytes: &[u8]) -> bool
    ensures value { result ≡ (slice_index bytes.now 0 == 45) }
    ensures some { IsTrue result → 0 < length bytes.now }
{
    !bytes.is_empty() && bytes[0] == b'-'
}

// The number that a text of JSON writes, where it is in range.
fn number_of(bytes: &[u8]) -> Option<Number>
    ensures value { option_map number_view result ≡ json_number_of bytes.now }
{
    if has_minus(bytes) {
        return negative(&Numeral::scan(&bytes[1..]));
    }
    unsigned(&Numeral::scan(bytes))
}

fn json_number(bytes: &[u8], at: usize) -> Result<Value, Stop>
    ensures value { IfOk result (λ v. number_written bytes.now ≡ Some (view v)) }
    ensures depth { IfOk result (λ v. nesting (view v) ≡ 0) }
{
    match number_of(bytes) {
        Some(number) => Ok(Value::Number(number)),
        None => Err(Stop::At(Fault::Number, at)),
    }
}

// The number of decimal parts, which are those of a text.
fn decimal_value(alloc: Global, decimal: &Decimal<'_>, text: &str, at: usize) -> Result<Value, Stop>
    ensures value { IfOk result (λ v. parts_in decimal.now ≡ parts_of text.now
        → number_written (as_json (parts_of text.now)) ≡ Some (view v)) }
    ensures depth { IfOk result (λ v. nesting (view v) ≡ 0) }
{
    if decimal.is_json(text.as_bytes()) {
        return json_number(text.as_bytes(), at);
    }
    let written = decimal.to_json(alloc)?;
    json_number(written.as_slice(), at)
}

// The number that digits in a radix are, after `0` and a letter.
fn radix_value(text: &[u8], is_hex: bool, at: usize) -> Result<Value, Stop>
    ensures value { IfOk result (λ v. digits_number (if is_hex then 16 else 8) (drop 2 text.now)
        ≡ Some (view v)) }
    ensures depth { IfOk result (λ v. nesting (view v) ≡ 0) }
{
    match number_in(text, is_hex) {
        Some(number) => Ok(Value::from(number)),
        None => Err(Stop::At(Fault::Number, at)),
    }
}

// The number that a text is, or nothing. Its offset is for faults.
fn number(alloc: Global, text: &str, at: usize) -> Result<Option<Value>, Stop>
    ensures value { IfOk result (λ o. option_map (λ v. Some (view v)) o ≡ number_value text.now) }
    ensures depth { IfOk result (λ o. IfSome o (λ v. nesting (view v) ≡ 0)) }
{
    let bytes = text.as_bytes();
    if let Some(decimal) = decimal_of(bytes) {
        return Ok(Some(decimal_value(alloc, &decimal, text, at)?));
    }
    if is_infinite(after_sign(bytes)) || is_no_number(bytes) {
        return Err(Stop::At(Fault::Number, at));
    }
    if is_in_radix(bytes, b'o', false) {
        return Ok(Some(radix_value(bytes, false, at)?));
    }
    if is_in_radix(bytes, b'x', true) {
        return Ok(Some(radix_value(bytes, true, at)?));
    }
    Ok(None)
}

fn text_value(alloc: Global, text: &str) -> Result<Value, AllocError>
    ensures value { IfOk result (λ v. view v ≡ string text.now) }
{
    Ok(Value::String(String::from_str(alloc, text)?))
}

// What a plain text at an offset is.
pub(crate) fn plain_value(alloc: Global, text: &str, at: usize) -> Result<Value, Stop>
    ensures value { IfOk result (λ v. core_value text.now ≡ Some (view v)) }
    ensures depth { IfOk result (λ v. nesting (view v) ≡ 0) }
{
    if is_nothing(text) || is_null(text) {
        return Ok(Value::Null);
    }
    if is_true(text) {
        return Ok(Value::Bool(true));
    }
    if is_false(text) {
        return Ok(Value::Bool(false));
    }
    if let Some(value) = number(alloc, text, at)? {
        return Ok(value);
    }
    Ok(text_value(alloc, text)?)
}

// Whether a value has the type that a tag asks for. A number is of both types of numbers.
pub(crate) fn fits(tag: Tag, value: &Value) -> bool
    ensures value { result ≡ fits_tag tag (view value.now) }
{
    match tag {
        Tag::None | Tag::Any => true,
        Tag::Text => value.is_string(),
        Tag::Int | Tag::Float => value.is_number(),
        Tag::Bool => value.is_boolean(),
        Tag::Null => value.is_null(),
        Tag::Array => value.is_array(),
        Tag::Object => value.is_object(),
    }
}

// Whether a list may have a tag.
pub(crate) fn fits_array(tag: Tag) -> bool
    ensures value { (items : Items) → result ≡ fits_tag tag (array items) }
{
    matches!(tag, Tag::None | Tag::Any | Tag::Array)
}

// Whether an object may have a tag.
pub(crate) fn fits_object(tag: Tag) -> bool
    ensures value { (members : Members) → result ≡ fits_tag tag (object members) }
{
    matches!(tag, Tag::None | Tag::Any | Tag::Object)
}
