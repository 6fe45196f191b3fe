//! The iterator over the values right below a schema that its draft reads as schemas.
ghost use Rattle.std.specs.Prelude.{◌≡◌, [], map, filter};
ghost use Rattle.std.specs.Iterator.{YieldsFirstBy, item_count};
ghost use Rattle.serde_json.specs.View.{view};
ghost use Rattle.ref_draft.specs.Keywords.{holding_of, is_left_out};
ghost use Rattle.ref_draft.specs.Children.{held_children, is_given, subresources};
ghost use Rattle.ref_draft.specs.Views.{inner_left, objects_of, values_left};
ghost use Rattle.std.specs.Borrow.{Bor};
ghost use Rattle.serde_json.specs.declared.value.Value.{Value};

use crate::draft::Draft;
use crate::spec::Holding;
use serde_json::Value;
use std::collections::btree_map;
use std::slice;

/// The values right below a schema that its draft reads as schemas, in order. It ends, and takes no memory.
#[derive(Drop)]
pub struct ChildIter<'a> {
    draft: Draft,
    current: ChildIterInner<'a>,
    members: Option<btree_map::Iter<'a, String, Value>>,
}

impl<'a> ChildIter<'a> {
    pub(crate) fn new(draft: Draft, contents: &'a Value) -> Self
        ensures { values_left result ≡ subresources draft (view contents.now) }
    {
        ChildIter {
            draft,
            current: ChildIterInner::Empty,
            members: match contents.as_object() {
                Some(schema) => Some(schema.iter()),
                None => None,
            },
        }
    }
}

impl<'a> Iterator for ChildIter<'a> {
    type Item = &'a Value;

    ghost next_gives = { YieldsFirstBy (λ value. view value.now) values_left };

    ghost remaining = { item_count values_left };

    fn next(&mut self) -> Option<&'a Value> {
        loop {
            if let Some(value) = self.current.next() {
                return Some(value);
            }
            let Some(members) = &mut self.members else {
                return None;
            };
            let (keyword, value) = members.next()?;
            self.current = ChildIterInner::under(self.draft, keyword.as_str(), value);
        }
    }
}

/// The values under one keyword that a draft reads as schemas, in order.
#[derive(Drop)]
pub enum ChildIterInner<'a> {
    /// The value itself.
    Once(&'a Value),
    /// The elements of an array.
    Array(slice::Iter<'a, Value>),
    /// The values of an object's members.
    Object(btree_map::Values<'a, String, Value>),
    /// Those that are objects.
    FilteredObject(btree_map::Values<'a, String, Value>),
    /// None.
    Empty,
}

impl<'a> ChildIterInner<'a> {
    // The values under a keyword of the draft: in 2019-09 none under `dependencies`.
    fn under(draft: Draft, keyword: &str, value: &'a Value) -> Self
        ensures { inner_left result ≡ map (λ child. child.1)
            (filter (is_given draft)
            (held_children (holding_of draft keyword.now) keyword.now (view value.now))) }
    {
        if is_left_out(draft, keyword) {
            ChildIterInner::Empty
        } else {
            ChildIterInner::held(draft.holding(keyword), keyword, value)
        }
    }

    fn held(holding: Holding, keyword: &str, value: &'a Value) -> Self
        ensures { inner_left result
            ≡ map (λ child. child.1) (held_children holding keyword.now (view value.now)) }
    {
        match holding {
            Holding::Whole => ChildIterInner::Once(value),
            Holding::WholeObject if value.is_object() => ChildIterInner::Once(value),
            Holding::WholeObject => ChildIterInner::Empty,
            Holding::Elements => match value.as_array() {
                Some(items) => ChildIterInner::Array(items.iter()),
                None => ChildIterInner::Empty,
            },
            Holding::ElementsOrWhole => match value.as_array() {
                Some(items) => ChildIterInner::Array(items.iter()),
                None => ChildIterInner::Once(value),
            },
            Holding::Members => match value.as_object() {
                Some(members) => ChildIterInner::Object(members.values()),
                None => ChildIterInner::Empty,
            },
            Holding::ObjectMembers => match value.as_object() {
                Some(members) => ChildIterInner::FilteredObject(members.values()),
                None => ChildIterInner::Empty,
            },
            Holding::Nothing => ChildIterInner::Empty,
        }
    }
}

impl<'a> Iterator for ChildIterInner<'a> {
    type Item = &'a Value;

    ghost next_gives = { YieldsFirstBy (λ value. view value.now) inner_left };

    ghost remaining = { item_count inner_left };

    fn next(&mut self) -> Option<&'a Value> {
        match self {
            ChildIterInner::Once(value) => {
                let value = *value;
                *self = ChildIterInner::Empty;
                Some(value)
            }
            ChildIterInner::Array(items) => items.next(),
            ChildIterInner::Object(values) => values.next(),
            ChildIterInner::FilteredObject(values) => next_object(values),
            ChildIterInner::Empty => None,
        }
    }
}

// Whether nothing under the keyword is given: in 2019-09 under `dependencies`.
fn is_left_out(draft: Draft, keyword: &str) -> bool
    ensures { result ≡ is_left_out draft keyword.now }
{
    match draft {
        Draft::Draft201909 => keyword == "dependencies",
        _ => false,
    }
}

// The next value that is an object.
fn next_object<'a>(values: &mut btree_map::Values<'a, String, Value>) -> Option<&'a Value>
    ensures { YieldsFirstBy
        (λ (value : Bor Value). view value.now) objects_of values.old result values.new }
{
    while let Some(value) = values.next() {
        if value.is_object() {
            return Some(value);
        }
    }
    None
}
