//! The references that an object has.
ghost use Rattle.std.specs.Prelude.{◌≡◌, ◌++◌, ◌∷◌, [], map, option_map, IfOk, OnOk};
ghost use Rattle.std.specs.Option.{option_map_or};
ghost use Rattle.serde_json.specs.View.{view, members_view};
ghost use Rattle.serde_json.specs.Find.{as_str};
ghost use Rattle.ref_descriptions.specs.References.{under_key, mapped_reference, may_refer, plain_references, has_dynamic, dynamic_references, operation_references, mapped_references, may_map, mapping_of, discriminator_references, references};
ghost use Rattle.ref_descriptions.specs.Views.{reference_of};
ghost use Rattle.ref_descriptions.specs.inner.Adding.{AddsReferences};

use crate::kind::Kind;
use crate::reading::{Reading, is_reference, may_be_reference};
use crate::version::Version;
use ref_draft::Draft;
use serde_json::{Map, Value};
use std::alloc::{AllocError, Global};

/// Where the text of a reference is.
#[derive(Clone, Copy, Debug, PartialEq, Eq)]
pub enum Under {
    /// In the object itself.
    Itself,
    /// In the `mapping` of its `discriminator`.
    Mapping,
}

/// A reference that an object has.
#[derive(Clone, Copy)]
pub struct Reference<'v> {
    /// Where its text is.
    pub under: Under,
    /// The key there that the text is under: `$ref`, `$dynamicRef` or `operationRef`, or any in a mapping.
    pub keyword: &'v str,
    /// The text; `None` where the value of the `$ref` or `$dynamicRef` is none.
    pub text: Option<&'v str>,
    /// The kind of the object that it is to lead to.
    pub wanted: Kind,
}

// Adds the value under a key, whatever it is.
fn push_under<'v>(
    list: &mut Vec<Reference<'v>>,
    keyword: &'static str,
    wanted: Kind,
    value: &'v Value,
) -> Result<(), AllocError>
    ensures { OnOk result
        (AddsReferences (under_key keyword.now wanted (view value.now))
        list.old.items list.new.items) }
{
    if let Some(value) = value.get(keyword) {
        list.push(Reference {
            under: Under::Itself,
            keyword,
            text: value.as_str(),
            wanted,
        })?;
    }
    Ok(())
}

// Whether a value may have a `$ref`.
fn may_refer(reading: Reading) -> bool
    ensures { result ≡ may_refer reading }
{
    may_be_reference(reading) || reading.kind == Kind::PathItem || reading.is_by_draft()
}

// Adds its `$ref`.
fn push_plain<'v>(
    list: &mut Vec<Reference<'v>>,
    reading: Reading,
    value: &'v Value,
) -> Result<(), AllocError>
    ensures { OnOk result
        (AddsReferences (plain_references reading (view value.now)) list.old.items list.new.items) }
{
    if !may_refer(reading) {
        return Ok(());
    }
    push_under(list, "$ref", reading.kind, value)
}

// Whether a draft has `$dynamicRef`.
fn has_dynamic(draft: Draft) -> bool
    ensures { result ≡ has_dynamic draft }
{
    match draft {
        Draft::Draft202012 | Draft::Unknown => true,
        _ => false,
    }
}

// Adds its `$dynamicRef`.
fn push_dynamic<'v>(
    list: &mut Vec<Reference<'v>>,
    reading: Reading,
    value: &'v Value,
) -> Result<(), AllocError>
    ensures { OnOk result
        (AddsReferences (dynamic_references reading (view value.now))
        list.old.items list.new.items) }
{
    if !(reading.is_by_draft() && has_dynamic(reading.draft)) {
        return Ok(());
    }
    push_under(list, "$dynamicRef", Kind::Schema, value)
}

// Adds its `operationRef`.
fn push_operation<'v>(
    list: &mut Vec<Reference<'v>>,
    kind: Kind,
    value: &'v Value,
) -> Result<(), AllocError>
    ensures { OnOk result
        (AddsReferences (operation_references kind (view value.now))
        list.old.items list.new.items) }
{
    if kind != Kind::Link || value.get("operationRef").and_then(Value::as_str).is_none() {
        return Ok(());
    }
    push_under(list, "operationRef", Kind::Operation, value)
}

// Adds the texts of a mapping.
fn push_mapped<'v>(
    list: &mut Vec<Reference<'v>>,
    mapping: &'v Map<String, Value>,
) -> Result<(), AllocError>
    ensures { OnOk result
        (AddsReferences (mapped_references (members_view mapping.now.entries))
        list.old.items list.new.items) }
{
    for (key, value) in mapping {
        push_text(list, key.as_str(), value)?;
    }
    Ok(())
}

// Adds one of them, where it is a text.
fn push_text<'v>(
    list: &mut Vec<Reference<'v>>,
    keyword: &'v str,
    value: &'v Value,
) -> Result<(), AllocError>
    ensures { OnOk result
        (AddsReferences
        (option_map_or (λ text. mapped_reference keyword.now text ∷ []) (as_str (view value.now)) [])
        list.old.items list.new.items) }
{
    if let Some(text) = value.as_str() {
        list.push(Reference {
            under: Under::Mapping,
            keyword,
            text: Some(text),
            wanted: Kind::Schema,
        })?;
    }
    Ok(())
}

// Whether a value may have a discriminator with a mapping.
fn may_map(reading: Reading) -> bool
    ensures { result ≡ may_map reading }
{
    match reading.version {
        None | Some(Version::V2_0) => false,
        Some(_) => reading.kind == Kind::Schema,
    }
}

// The mapping of a value's discriminator.
fn mapping_of(value: &Value) -> Option<&Map<String, Value>>
    ensures { option_map (λ m. members_view m.now.entries) result ≡ mapping_of (view value.now) }
{
    let discriminator = value.get("discriminator")?;
    let mapping = discriminator.get("mapping")?;
    mapping.as_object()
}

// Adds the texts of its discriminator's mapping.
fn push_discriminator<'v>(
    list: &mut Vec<Reference<'v>>,
    reading: Reading,
    value: &'v Value,
) -> Result<(), AllocError>
    ensures { OnOk result
        (AddsReferences (discriminator_references reading (view value.now))
        list.old.items list.new.items) }
{
    if !may_map(reading) {
        return Ok(());
    }
    match mapping_of(value) {
        Some(mapping) => push_mapped(list, mapping),
        None => Ok(()),
    }
}

/// The references of a value that is read so: its `$ref`, and unless it is a Reference Object its `$dynamicRef`, its `operationRef` and
/// the texts of its discriminator's mapping. A few look-ups; takes memory for the list.
pub fn references<'v>(
    alloc: Global,
    reading: Reading,
    value: &'v Value,
) -> Result<Vec<Reference<'v>>, AllocError>
    ensures value { IfOk result
        (λ list. map reference_of list.items ≡ references reading (view value.now)) }
{
    let mut list = Vec::new(alloc);
    push_plain(&mut list, reading, value)?;
    if !is_reference(reading, value) {
        push_dynamic(&mut list, reading, value)?;
        push_operation(&mut list, reading.kind, value)?;
        push_discriminator(&mut list, reading, value)?;
    }
    Ok(list)
}
