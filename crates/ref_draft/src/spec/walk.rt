//! The walk over the children of a schema.
ghost use Rattle.std.specs.Prelude.{◌≡◌, ◌++◌, ◌∷◌, [], map, filter, IfOk, OnOk, option_map};
ghost use Rattle.ref_paths.specs.Path.{Key};
ghost use Rattle.serde_json.specs.View.{view, items_view, members_view};
ghost use Rattle.ref_draft.specs.Keywords.{holding_of};
ghost use Rattle.ref_draft.specs.Children.{AllAreThere, InKeyOrder, walked_children, with_draft, held_children, elements_from, each_member, has_object};
ghost use Rattle.ref_draft.specs.inner.WalkSteps.{AreFoundIn, FindsMembersWhere};
ghost use Rattle.ref_draft.specs.inner.Added.{Adds};
ghost use Rattle.ref_draft.specs.Views.{segment_parts, walked_child};

use crate::draft::Draft;
use crate::spec::Holding;
use ref_paths::path::JsonPointerSegment;
use serde_json::{Map, Value};
use std::alloc::{AllocError, Global};

/// A subschema right below a schema.
#[derive(Debug, Drop)]
pub struct Child<'a> {
    /// The keyword that it is under.
    pub keyword: &'a str,
    /// The index or key after the keyword; none where the keyword's value is the subschema.
    pub segment: Option<JsonPointerSegment<'a>>,
    /// The subschema.
    pub value: &'a Value,
    /// The draft that the schema's draft detects on it.
    pub draft: Draft,
}

// The children of a value in order.
#[tactic(auto, using(crate::proofs::Order::ordered_other))]
pub(crate) fn children<'a>(
    alloc: Global,
    draft: Draft,
    contents: &'a Value,
) -> Result<Vec<Child<'a>>, AllocError>
    ensures children { IfOk result
        (λ v. map walked_child v.items ≡ walked_children draft (view contents.now)) }
    ensures order { OnOk result (InKeyOrder (view contents.now)) }
    ensures found { IfOk result (λ v. AllAreThere (view contents.now) (map walked_child v.items)) }
{
    let mut children = Vec::new(alloc);
    if let Some(schema) = contents.as_object() {
        for (keyword, value) in schema {
            push_held(&mut children, draft, keyword.as_str(), value)?;
        }
    }
    Ok(children)
}

// Adds the children under one keyword. Where these are members, the map has each key once: so a child is what is found at
// its path.
#[tactic(auto, using(crate::proofs::Standing::unique_object, crate::proofs::Standing::unique_other))]
fn push_held<'a>(
    children: &mut Vec<Child<'a>>,
    draft: Draft,
    keyword: &'a str,
    value: &'a Value,
) -> Result<(), AllocError>
    ensures adds { OnOk result
        (Adds draft (held_children (holding_of draft keyword.now) keyword.now (view value.now))
        children.old.items children.new.items) }
    ensures unique { FindsMembersWhere (holding_of draft keyword.now) (view value.now) }
{
    match draft.holding(keyword) {
        Holding::Whole => push(children, draft, keyword, None, value),
        Holding::WholeObject => push_object(children, draft, keyword, None, value),
        Holding::Elements => match value.as_array() {
            Some(items) => push_elements(children, draft, keyword, items),
            None => Ok(()),
        },
        Holding::ElementsOrWhole => match value.as_array() {
            Some(items) => push_elements(children, draft, keyword, items),
            None => push(children, draft, keyword, None, value),
        },
        Holding::Members => match value.as_object() {
            Some(members) => push_members(children, draft, keyword, members),
            None => Ok(()),
        },
        Holding::ObjectMembers => match value.as_object() {
            Some(members) => push_object_members(children, draft, keyword, members),
            None => Ok(()),
        },
        Holding::Nothing => Ok(()),
    }
}

// Adds each element under its index.
fn push_elements<'a>(
    children: &mut Vec<Child<'a>>,
    draft: Draft,
    keyword: &'a str,
    items: &'a [Value],
) -> Result<(), AllocError>
    ensures { OnOk result
        (Adds draft (elements_from keyword.now 0 (items_view items.now))
        children.old.items children.new.items) }
{
    children.reserve(items.len())?;
    for (index, item) in items.iter().enumerate() {
        push(children, draft, keyword, Some(index.into()), item)?;
    }
    Ok(())
}

// Adds each member under its key.
#[tactic(auto, using(crate::proofs::Standing::are_found))]
fn push_members<'a>(
    children: &mut Vec<Child<'a>>,
    draft: Draft,
    keyword: &'a str,
    members: &'a Map<String, Value>,
) -> Result<(), AllocError>
    ensures adds { OnOk result
        (Adds draft (each_member keyword.now (members_view members.now.entries))
        children.old.items children.new.items) }
    ensures found { AreFoundIn (members_view members.now.entries)
        (members_view members.now.entries) }
{
    let entries = members.iter();
    children.reserve(members.len())?;
    for (key, member) in entries {
        push(children, draft, keyword, Some(key.as_str().into()), member)?;
    }
    Ok(())
}

// Adds each member that is an object under its key.
#[tactic(auto, using(crate::proofs::Standing::are_found))]
fn push_object_members<'a>(
    children: &mut Vec<Child<'a>>,
    draft: Draft,
    keyword: &'a str,
    members: &'a Map<String, Value>,
) -> Result<(), AllocError>
    ensures adds { OnOk result
        (Adds draft (filter has_object (each_member keyword.now (members_view members.now.entries)))
        children.old.items children.new.items) }
    ensures found { AreFoundIn (members_view members.now.entries)
        (members_view members.now.entries) }
{
    for (key, member) in members {
        push_object(children, draft, keyword, Some(key.as_str().into()), member)?;
    }
    Ok(())
}

// Adds a child where it is an object.
fn push_object<'a>(
    children: &mut Vec<Child<'a>>,
    draft: Draft,
    keyword: &'a str,
    segment: Option<JsonPointerSegment<'a>>,
    value: &'a Value,
) -> Result<(), AllocError>
    ensures { OnOk result
        (Adds draft
        (filter has_object
        ((Key keyword.now ∷ segment_parts segment.entry, view value.now) ∷ []))
        children.old.items children.new.items) }
{
    if value.is_object() {
        push(children, draft, keyword, segment, value)?;
    }
    Ok(())
}

// Adds a child, with the draft that is detected on it.
fn push<'a>(
    children: &mut Vec<Child<'a>>,
    draft: Draft,
    keyword: &'a str,
    segment: Option<JsonPointerSegment<'a>>,
    value: &'a Value,
) -> Result<(), AllocError>
    ensures { OnOk result
        (Adds draft ((Key keyword.now ∷ segment_parts segment.entry, view value.now) ∷ [])
        children.old.items children.new.items) }
{
    let draft = draft.detect(value);
    children.push(Child {
        keyword,
        segment,
        value,
        draft,
    })?;
    Ok(())
}
