//! Anchors, scans along pointers, and resources. The expected values are those of the drafts' tables.

use crate::asserts::{assert_shown, same};
use crate::row::Row;
use ref_draft::{Anchor, Draft, Resource, ResourceRef, Segment, Segments};
use serde_json::{Map, Value};
use std::alloc::{AllocError, Global};
use std::borrow::CowStr;
use std::process::Abort;

pub const ROWS: &str = r##"
# anchors: 10
// A draft, a value, and the names of its anchors, with a star before those that are dynamic.
["7",{"$id":"#f","$ref":"x"},["f"]]
["6",{"$id":"#"},[""]]
["4",{"id":"#f#","$id":"#g"},["f#"]]
["4",{"$id":"#g"},[]]
["7",{"$id":"f#","$anchor":"a"},[]]
["2019-09",{"$anchor":"a","$dynamicAnchor":"b"},["a"]]
["2020-12",{"$anchor":"a","$dynamicAnchor":"b"},["a","*b"]]
["unknown",{"$dynamicAnchor":"b"},["*b"]]
["2020-12",{"$anchor":7,"$id":"#f"},[]]
["2020-12",[],[]]

# scans: 19
// A draft, a path, and whether it may change the base at an empty object, and at `true`.
["2020-12",["properties"],false,false]
["2020-12",["properties","x"],true,true]
["2020-12",["allOf",0],true,true]
["2020-12",[3,"not"],true,true]
["2020-12",["const"],false,false]
["2020-12",["const","not"],false,false]
["2020-12",["items","items"],true,true]
["2020-12",["dependencies","x"],false,false]
["2020-12",[],true,true]
["7",["items","const"],true,false]
["7",["properties","items","const"],false,false]
["6",["dependencies"],true,false]
["6",["if"],false,false]
["2019-09",["$defs","a","if"],true,true]
["4",["$defs","a"],true,true]
["4",["definitions","a","not"],true,true]
["4",["contains"],true,true]
["4",["const"],false,false]
["unknown",["prefixItems",0],true,true]

# resources: 1
// A value, its draft and its identifier.
[{"$schema":"http://json-schema.org/draft-06/schema#","$id":"k#"},"6","k"]
"##;

/// Ends the test where an anchor isn't of this draft and value, or has another name than the row, whose names have a
/// star where they are dynamic.
fn assert_anchor(rt: &impl Abort, anchor: Anchor<'_>, value: &Value, row: &Row<'_>, name: &str) {
    let is_dynamic = matches!(anchor, Anchor::Dynamic { .. });
    row.same(rt, is_dynamic, name.starts_with('*'));
    row.same(rt, anchor.name(), name.strip_prefix('*').unwrap_or(name));
    let (Anchor::Default { resource, .. } | Anchor::Dynamic { resource, .. }) = anchor;
    row.same(rt, resource.draft(), row.draft(0));
    row.same(rt, resource.contents(), value);
}

pub fn anchors(rt: &impl Abort, row: &Row<'_>) {
    let value = row.document(1);
    let names = row.row(2);
    let mut count = 0usize;
    for anchor in row.draft(0).anchors(value) {
        assert_anchor(rt, anchor, value, row, names.text(count));
        count = count.saturating_add(1);
    }
    row.same(rt, count, names.len());
}

/// The path of a row, whose numbers are indexes.
fn segments_of<'a>(alloc: Global, path: &Row<'a>) -> Result<Segments<'a>, AllocError> {
    let mut segments = Segments::new(alloc);
    for place in 0..path.len() {
        match path.number(place) {
            Some(index) => segments.push(index)?,
            None => segments.push(CowStr::Borrowed(path.text(place)))?,
        }
    }
    Ok(segments)
}

pub fn scans(rt: &impl Abort, alloc: Global, row: &Row<'_>) -> Result<(), AllocError> {
    let segments = segments_of(alloc, &row.row(1))?;
    row.same(rt, segments.iter().count(), row.row(1).len());
    let (object, draft) = (Value::Object(Map::new(alloc)), row.draft(0));
    row.same(rt, draft.rebases(&segments, &object), row.is_true(2));
    let at_true = draft.rebases(&segments, &Value::Bool(true));
    row.same(rt, at_true, row.is_true(3));
    Ok(())
}

/// What is lent has the draft of its value, or the draft that it is lent with. What is owned has the draft of its value, and
/// is equal to its copy and to none of Draft 7.
pub fn resources(rt: &impl Abort, row: &Row<'_>) -> Result<(), AllocError> {
    let value = row.document(0);
    let lent = ResourceRef::from_contents(value);
    row.same(
        rt,
        (lent.draft(), lent.id()),
        (row.draft(1), row.optional(2)),
    );
    let lent = Draft::Draft4.create_resource_ref(value);
    row.same(rt, (lent.draft(), lent.contents()), (Draft::Draft4, value));
    let owned = resource_of(row)?;
    assert_copied(rt, &owned, row)?;
    assert_given_back(rt, owned, row);
    assert_other(rt, resource_of(row)?, row)
}

/// Ends the test where a resource hasn't the draft and the contents of its row.
fn assert_owned(rt: &impl Abort, draft: Draft, contents: &Value, row: &Row<'_>) {
    row.same(rt, (draft, contents), (row.draft(1), row.document(0)));
}

/// Ends the test where a resource isn't equal to its copy.
fn assert_copied(rt: &impl Abort, owned: &Resource, row: &Row<'_>) -> Result<(), AllocError> {
    assert_owned(rt, owned.draft(), owned.contents(), row);
    row.same(rt, owned.clone()? == *owned, true);
    Ok(())
}

/// Ends the test where a resource is equal to one of the same contents and of Draft 7.
fn assert_other(rt: &impl Abort, owned: Resource, row: &Row<'_>) -> Result<(), AllocError> {
    let other = Draft::Draft7.create_resource(row.document(0).clone()?);
    row.same(rt, other != owned, true);
    Ok(())
}

/// Ends the test where a resource gives back other contents than it was made of.
fn assert_given_back(rt: &impl Abort, owned: Resource, row: &Row<'_>) {
    let (draft, contents) = owned.into_inner();
    assert_owned(rt, draft, &contents, row);
}

/// A resource of the value of a row.
fn resource_of(row: &Row<'_>) -> Result<Resource, AllocError> {
    Ok(Resource::from_contents(row.document(0).clone()?))
}

#[test]
fn resources_are_compared(rt: HostRuntime) {
    let null = Draft::Draft7.create_resource(Value::Null);
    let is_other = null != Draft::Draft7.create_resource(Value::Bool(true));
    same(&rt, is_other, true);
    let null = Draft::Draft202012.create_resource(Value::Null);
    same(&rt, Resource::from_contents(Value::Null) == null, true);
}

#[test]
fn resources_are_shown(rt: HostRuntime) -> Result<(), AllocError> {
    let owned = Draft::Draft4.create_resource(Value::Bool(true));
    let wanted = "Resource { contents: Bool(true), draft: Draft4 }";
    assert_shown(&rt, rt.alloc(), &owned, wanted)?;
    let lent = Draft::Draft4.create_resource_ref(owned.contents());
    let wanted = "ResourceRef { contents: Bool(true), draft: Draft4 }";
    assert_shown(&rt, rt.alloc(), &lent, wanted)
}

#[test]
fn segments_are_compared_and_shown(rt: HostRuntime) -> Result<(), AllocError> {
    let key: Segment = CowStr::Borrowed("a").into();
    let index: Segment = 7.into();
    same(&rt, [key.clone()? == key, key != index], [true, true]);
    assert_shown(&rt, rt.alloc(), &key, "Key(\"a\")")?;
    assert_shown(&rt, rt.alloc(), &index, "Index(7)")
}
