//! The kinds of members that a configuration has.
ghost use Rattle.std.specs.Prelude.{◌≡◌, ◌++◌, ◌∷◌, [], map, string_bytes, option_map, IfOk, OnOk};
ghost use Rattle.toml.specs.Data.{get_member};
ghost use Rattle.toml.specs.View.{view, items_view, table_view};
ghost use Rattle.ref_configuration.specs.Members as spec;
ghost use Rattle.ref_configuration.specs.View.{texts, where_of};
ghost use Rattle.ref_configuration.specs.inner.Answers.{Answers, IsStop};

use crate::fault::{At, Stop, wrong, wrong_in};
use crate::names::{is_among, listed, unknown_in};
use std::alloc::{AllocError, Global};
use toml::{Table, Value};

// The value of a member.
pub(crate) fn member<'t>(table: &'t Table, name: &str) -> Option<&'t Value>
    ensures { option_map (λ v. view v.now) result ≡ get_member name.now (table_view table.now) }
{
    table.get(name)
}

// Refuses a table that has another name than these.
pub(crate) fn with_names(alloc: Global, table: &Table, names: &[&str], at: At) -> Result<(), Stop>
    ensures { Answers (λ _. table_view table.now) result
        (spec.with_names (map (λ n. n.now) names.now) (where_of at) (table_view table.now)) }
{
    match unknown_in(table, names) {
        Some(name) => Err(no_name(alloc, names, at, name)),
        None => Ok(()),
    }
}

fn no_name(alloc: Global, names: &[&str], at: At, name: &str) -> Stop
    ensures { IsStop result
        (spec.no_name (map (λ n. n.now) names.now) (where_of at) name.now) }
{
    match no_name_text(alloc, names, name) {
        Ok(text) => wrong_in(alloc, at, name, text),
        Err(_) => Stop::Memory,
    }
}

fn no_name_text(alloc: Global, names: &[&str], name: &str) -> Result<String, AllocError>
    ensures { IfOk result (λ t. string_bytes t
        ≡ spec.no_name_text (map (λ n. n.now) names.now) name.now) }
{
    let known = listed(alloc, names)?;
    let text = format!(in alloc; "there is no '{name}' here; it may be {known}")?;
    Ok(text)
}

// The texts of a list, of which there are none where it is missing.
pub(crate) fn texts(alloc: Global, table: &Table, at: At, name: &str) -> Result<Vec<String>, Stop>
    ensures { Answers texts result (spec.or_missing []
        (spec.texts_in (where_of at) name.now) (get_member name.now (table_view table.now))) }
{
    match member(table, name) {
        Some(value) => texts_in(alloc, value, at, name),
        None => Ok(Vec::new(alloc)),
    }
}

// The texts of a list that is there.
pub(crate) fn texts_in(
    alloc: Global,
    value: &Value,
    at: At,
    name: &str,
) -> Result<Vec<String>, Stop>
    ensures { Answers texts result (spec.texts_in (where_of at) name.now (view value.now)) }
{
    match value.as_array() {
        Some(items) => texts_of(alloc, items.as_slice(), at, name),
        None => Err(wrong(alloc, at, name, "a list of texts is to be here")),
    }
}

fn texts_of(alloc: Global, items: &[Value], at: At, name: &str) -> Result<Vec<String>, Stop>
    ensures { Answers texts result (spec.texts_of (where_of at) name.now (items_view items.now)) }
{
    let mut list = Vec::new(alloc);
    for item in items {
        match item.as_str() {
            Some(text) => push_text(alloc, &mut list, text)?,
            None => {
                let why = "each item of this list is to be a text";
                return Err(wrong(alloc, at, name, why));
            }
        }
    }
    Ok(list)
}

fn push_text(alloc: Global, list: &mut Vec<String>, text: &str) -> Result<(), AllocError>
    ensures { OnOk result (texts list.new ≡ texts list.old ++ text.now ∷ []) }
{
    list.push(String::from_str(alloc, text)?)?;
    Ok(())
}

// True or false, or else what a missing one means.
pub(crate) fn flag(alloc: Global, table: &Table, name: &str, missing: bool) -> Result<bool, Stop>
    ensures { Answers (λ flag. flag) result (spec.or_missing missing (spec.flag_in name.now)
        (get_member name.now (table_view table.now))) }
{
    match member(table, name) {
        Some(value) => flag_in(alloc, value, name),
        None => Ok(missing),
    }
}

fn flag_in(alloc: Global, value: &Value, name: &str) -> Result<bool, Stop>
    ensures { Answers (λ flag. flag) result (spec.flag_in name.now (view value.now)) }
{
    match value.as_bool() {
        Some(flag) => Ok(flag),
        None => Err(wrong(alloc, At::WHOLE, name, "true or false is to be here")),
    }
}

// A whole number, where there is one.
pub(crate) fn number(alloc: Global, table: &Table, name: &str) -> Result<Option<usize>, Stop>
    ensures { Answers (λ number. number) result (spec.if_there (spec.number_in name.now)
        (get_member name.now (table_view table.now))) }
{
    match member(table, name) {
        Some(value) => Ok(Some(number_in(alloc, value, name)?)),
        None => Ok(None),
    }
}

fn number_in(alloc: Global, value: &Value, name: &str) -> Result<usize, Stop>
    ensures { Answers (λ number. number) result (spec.number_in name.now (view value.now)) }
{
    match value.as_integer() {
        Some(number) if number >= 0 => Ok(number as usize),
        _ => Err(wrong(
            alloc,
            At::WHOLE,
            name,
            "a whole number from 0 on is to be here",
        )),
    }
}

// A text, where there is one.
pub(crate) fn text(alloc: Global, table: &Table, name: &str) -> Result<Option<String>, Stop>
    ensures { Answers (option_map string_bytes) result (spec.if_there (spec.text_in name.now)
        (get_member name.now (table_view table.now))) }
{
    match member(table, name) {
        Some(value) => {
            let text = text_in(alloc, value, name)?;
            Ok(Some(String::from_str(alloc, text)?))
        }
        None => Ok(None),
    }
}

fn text_in<'v>(alloc: Global, value: &'v Value, name: &str) -> Result<&'v str, Stop>
    ensures { Answers (λ text. text.now) result (spec.text_in name.now (view value.now)) }
{
    match value.as_str() {
        Some(text) => Ok(text),
        None => Err(wrong(alloc, At::WHOLE, name, "a text is to be here")),
    }
}

// A text that is one of some names, where there is one.
pub(crate) fn name_at(
    alloc: Global,
    table: &Table,
    name: &str,
    names: &[&str],
) -> Result<Option<String>, Stop>
    ensures { Answers (option_map string_bytes) result
        (spec.if_there (spec.name_in (map (λ n. n.now) names.now) name.now)
        (get_member name.now (table_view table.now))) }
{
    match member(table, name) {
        Some(value) => {
            let text = name_in(alloc, value, name, names)?;
            Ok(Some(String::from_str(alloc, text)?))
        }
        None => Ok(None),
    }
}

fn name_in<'v>(alloc: Global, value: &'v Value, name: &str, names: &[&str]) -> Result<&'v str, Stop>
    ensures { Answers (λ text. text.now) result
        (spec.name_in (map (λ n. n.now) names.now) name.now (view value.now)) }
{
    let text = text_in(alloc, value, name)?;
    if is_among(names, text) {
        Ok(text)
    } else {
        Err(not_among(alloc, names, name, text))
    }
}

fn not_among(alloc: Global, names: &[&str], name: &str, text: &str) -> Stop
    ensures { IsStop result (spec.not_among (map (λ n. n.now) names.now) name.now text.now) }
{
    match not_among_text(alloc, names, text) {
        Ok(why) => wrong_in(alloc, At::WHOLE, name, why),
        Err(_) => Stop::Memory,
    }
}

fn not_among_text(alloc: Global, names: &[&str], text: &str) -> Result<String, AllocError>
    ensures { IfOk result (λ t. string_bytes t
        ≡ spec.not_among_text (map (λ n. n.now) names.now) text.now) }
{
    let known = listed(alloc, names)?;
    let why = format!(in alloc; "'{text}' is not {known}")?;
    Ok(why)
}
