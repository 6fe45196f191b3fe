//! What is right below an object.
ghost use Rattle.std.specs.Prelude.{◌≡◌, ◌++◌, ◌∷◌, [], map, filter, IfOk, OnOk};
ghost use Rattle.std.specs.Option.{option_map_or};
ghost use Rattle.serde_json.specs.View.{view, items_view, members_view};
ghost use Rattle.ref_paths.specs.Path.{Key};
ghost use Rattle.ref_draft.specs.Children.{elements_from, each_member, has_object, walked_children};
ghost use Rattle.ref_draft.specs.Views.{segment_parts, walked_child};
ghost use Rattle.ref_descriptions.specs.Fields.{field_under};
ghost use Rattle.ref_descriptions.specs.Below.{held, inner_value, inner_values, inner_schema, is_object_below, below_members, below_schema, below_fields, below};
ghost use Rattle.ref_descriptions.specs.Views.{inner_of};
ghost use Rattle.ref_descriptions.specs.inner.Adding.{Adds, AddsInner};

use crate::fields::{Holding, field_under};
use crate::kind::Kind;
use crate::reading::{Reading, is_reference};
use crate::version::Version;
use ref_draft::Child;
use ref_paths::path::JsonPointerSegment;
use serde_json::{Map, Value};
use std::alloc::{AllocError, Global};

/// An object right below another.
#[derive(Drop)]
pub struct Inner<'v> {
    /// The name of the field that it is under.
    pub keyword: &'v str,
    /// The index or key after that; `None` where the field's value is the object.
    pub segment: Option<JsonPointerSegment<'v>>,
    /// The object.
    pub value: &'v Value,
    /// How it is read.
    pub reading: Reading,
}

// Adds a value where it is an object.
fn push<'v>(
    list: &mut Vec<Inner<'v>>,
    reading: Reading,
    kind: Kind,
    name: &'v str,
    segment: Option<JsonPointerSegment<'v>>,
    value: &'v Value,
) -> Result<(), AllocError>
    ensures { OnOk result
        (Adds reading kind ((Key name.now ∷ segment_parts segment.entry, view value.now) ∷ [])
        list.old.items list.new.items) }
{
    if value.is_object() {
        list.push(Inner {
            keyword: name,
            segment,
            value,
            reading: reading.below(kind, value),
        })?;
    }
    Ok(())
}

// Adds each element under its index.
fn push_elements<'v>(
    list: &mut Vec<Inner<'v>>,
    reading: Reading,
    kind: Kind,
    name: &'v str,
    items: &'v [Value],
) -> Result<(), AllocError>
    ensures { OnOk result
        (Adds reading kind (elements_from name.now 0 (items_view items.now))
        list.old.items list.new.items) }
{
    for (index, item) in items.iter().enumerate() {
        push(list, reading, kind, name, Some(index.into()), item)?;
    }
    Ok(())
}

// Adds each member under its key.
fn push_members<'v>(
    list: &mut Vec<Inner<'v>>,
    reading: Reading,
    kind: Kind,
    name: &'v str,
    members: &'v Map<String, Value>,
) -> Result<(), AllocError>
    ensures { OnOk result
        (Adds reading kind (each_member name.now (members_view members.now.entries))
        list.old.items list.new.items) }
{
    for (key, member) in members {
        push(list, reading, kind, name, Some(key.as_str().into()), member)?;
    }
    Ok(())
}

// Adds the objects that a field holds.
fn push_held<'v>(
    list: &mut Vec<Inner<'v>>,
    reading: Reading,
    kind: Kind,
    holding: Holding,
    name: &'v str,
    value: &'v Value,
) -> Result<(), AllocError>
    ensures { OnOk result
        (Adds reading kind (held holding name.now (view value.now))
        list.old.items list.new.items) }
{
    match holding {
        Holding::One => push(list, reading, kind, name, None, value),
        Holding::Each => match value.as_array() {
            Some(items) => push_elements(list, reading, kind, name, items),
            None => Ok(()),
        },
        Holding::OneOrEach => match value.as_array() {
            Some(items) => push_elements(list, reading, kind, name, items),
            None => push(list, reading, kind, name, None, value),
        },
        Holding::Members => match value.as_object() {
            Some(members) => push_members(list, reading, kind, name, members),
            None => Ok(()),
        },
    }
}

// Adds the objects under a name.
fn push_under<'v>(
    list: &mut Vec<Inner<'v>>,
    reading: Reading,
    version: Version,
    name: &'v str,
    value: &'v Value,
) -> Result<(), AllocError>
    ensures { OnOk result
        (AddsInner
        (option_map_or (inner_values reading name.now (view value.now))
        (field_under version reading.kind name.now) [])
        list.old.items list.new.items) }
{
    match field_under(version, reading.kind, name) {
        Some((holding, kind)) => push_held(list, reading, kind, holding, name, value),
        None => Ok(()),
    }
}

// The objects under the fields of an object.
fn below_fields<'v>(
    alloc: Global,
    reading: Reading,
    value: &'v Value,
    version: Version,
) -> Result<Vec<Inner<'v>>, AllocError>
    ensures { IfOk result
        (λ list. map inner_of list.items ≡ below_fields reading (view value.now) version) }
{
    let mut list = Vec::new(alloc);
    if let Some(members) = value.as_object() {
        for (name, value) in members {
            push_under(&mut list, reading, version, name.as_str(), value)?;
        }
    }
    Ok(list)
}

// Adds a subschema where it is an object.
fn push_schema<'v>(
    list: &mut Vec<Inner<'v>>,
    reading: Reading,
    child: Child<'v>,
) -> Result<(), AllocError>
    ensures { OnOk result
        (AddsInner (map (inner_schema reading) (filter is_object_below (walked_child child.entry ∷ [])))
        list.old.items list.new.items) }
{
    let Child {
        keyword,
        segment,
        value,
        draft,
    } = child;
    if value.is_object() {
        let reading = Reading { draft, ..reading };
        list.push(Inner {
            keyword,
            segment,
            value,
            reading,
        })?;
    }
    Ok(())
}

// The subschemas of a schema of a draft that are objects.
fn below_schema<'v>(
    alloc: Global,
    reading: Reading,
    value: &'v Value,
) -> Result<Vec<Inner<'v>>, AllocError>
    ensures { IfOk result (λ list. map inner_of list.items ≡ below_schema reading (view value.now)) }
{
    let mut list = Vec::new(alloc);
    for child in reading.draft.walk_children(alloc, value)? {
        push_schema(&mut list, reading, child)?;
    }
    Ok(list)
}

/// The objects right below a value that is read so, in the order of its members: of a schema of a draft the subschemas that are
/// objects, of another object those under its fields. None are below a Reference Object. Linear in the members; takes memory for the
/// list.
pub fn below<'v>(
    alloc: Global,
    reading: Reading,
    value: &'v Value,
) -> Result<Vec<Inner<'v>>, AllocError>
    ensures value { IfOk result (λ list. map inner_of list.items ≡ below reading (view value.now)) }
{
    if reading.is_by_draft() {
        return below_schema(alloc, reading, value);
    }
    if is_reference(reading, value) {
        return Ok(Vec::new(alloc));
    }
    match reading.version {
        Some(version) => below_fields(alloc, reading, value, version),
        None => Ok(Vec::new(alloc)),
    }
}
