//! Anchors, which name a subschema within a document: a plain one by `$anchor`, or before 2019-09 by an identifier that
//! begins with `#`, and a dynamic one by `$dynamicAnchor`.
ghost use Rattle.std.specs.Prelude.{◌≡◌, map, codes};
ghost use Rattle.std.specs.Iterator.{YieldsFirst, item_count};
ghost use Rattle.serde_json.specs.View.{view};
ghost use Rattle.ref_draft.specs.Anchors.{in_identifier, named_by, plain_and_dynamic, Plain};
ghost use Rattle.ref_draft.specs.Views.{AllName, anchor_name, anchors_left, tagged_value};

use crate::draft::Draft;
use crate::resource::ResourceRef;
use crate::spec::ids::{after_hash, text_under};
use serde_json::Value;

/// An anchor of a resource.
#[derive(Debug, Clone, Copy)]
pub enum Anchor<'a> {
    /// A plain anchor, which means the same from everywhere.
    Default {
        /// Its name, without a `#`.
        name: &'a str,
        /// What it names.
        resource: ResourceRef<'a>,
    },
    /// A dynamic anchor, which the outermost schema of that name in the dynamic scope takes over (2020-12 Core, 8.2.3.2).
    Dynamic {
        /// Its name.
        name: &'a str,
        /// What it names.
        resource: ResourceRef<'a>,
    },
}

impl<'a> Anchor<'a> {
    /// The anchor's name.
    pub fn name(&self) -> &'a str
        ensures value { result.now ≡ (anchor_name self.now).0 }
    {
        match self {
            Anchor::Default { name, .. } => name,
            Anchor::Dynamic { name, .. } => name,
        }
    }
}

/// The anchors of one value: none, one or two. It holds them without memory of its own.
#[derive(Drop)]
pub enum AnchorIter<'a> {
    /// No anchor is left.
    Empty,
    /// One is left.
    One(Anchor<'a>),
    /// Two are left, in order.
    Two(Anchor<'a>, Anchor<'a>),
}

impl<'a> Iterator for AnchorIter<'a> {
    type Item = Anchor<'a>;

    ghost next_gives = { YieldsFirst anchors_left };

    ghost remaining = { item_count anchors_left };

    fn next(&mut self) -> Option<Anchor<'a>> {
        match *self {
            AnchorIter::Empty => None,
            AnchorIter::One(anchor) => {
                *self = AnchorIter::Empty;
                Some(anchor)
            }
            AnchorIter::Two(first, second) => {
                *self = AnchorIter::One(second);
                Some(first)
            }
        }
    }
}

// The anchor that is in the identifier, after a `#` (Draft 7 Core, 8.2.3).
pub(crate) fn in_identifier<'a>(draft: Draft, contents: &'a Value) -> AnchorIter<'a>
    ensures names { map anchor_name (anchors_left result)
        ≡ in_identifier draft (view contents.now) }
    ensures resources { AllName (tagged_value draft (view contents.now)) (anchors_left result) }
{
    match text_under(contents, draft.id_keyword()).and_then(after_hash) {
        Some(name) => AnchorIter::One(Anchor::Default {
            name,
            resource: ResourceRef::new(contents, draft),
        }),
        None => AnchorIter::Empty,
    }
}

// The plain anchor that `$anchor` names (2019-09 Core, 8.2.3).
pub(crate) fn plain<'a>(draft: Draft, contents: &'a Value) -> AnchorIter<'a>
    ensures names { map anchor_name (anchors_left result)
        ≡ named_by (codes "$anchor") Plain (view contents.now) }
    ensures resources { AllName (tagged_value draft (view contents.now)) (anchors_left result) }
{
    match text_under(contents, "$anchor") {
        Some(name) => AnchorIter::One(Anchor::Default {
            name,
            resource: ResourceRef::new(contents, draft),
        }),
        None => AnchorIter::Empty,
    }
}

// The plain anchor that `$anchor` names, then the dynamic one of `$dynamicAnchor` (2020-12 Core, 8.2.2).
pub(crate) fn plain_and_dynamic<'a>(draft: Draft, contents: &'a Value) -> AnchorIter<'a>
    ensures names { map anchor_name (anchors_left result) ≡ plain_and_dynamic (view contents.now) }
    ensures resources { AllName (tagged_value draft (view contents.now)) (anchors_left result) }
{
    let resource = ResourceRef::new(contents, draft);
    let plain = text_under(contents, "$anchor");
    let dynamic = text_under(contents, "$dynamicAnchor");
    match (plain, dynamic) {
        (Some(name), Some(dynamic)) => AnchorIter::Two(
            Anchor::Default { name, resource },
            Anchor::Dynamic {
                name: dynamic,
                resource,
            },
        ),
        (Some(name), None) => AnchorIter::One(Anchor::Default { name, resource }),
        (None, Some(name)) => AnchorIter::One(Anchor::Dynamic { name, resource }),
        (None, None) => AnchorIter::Empty,
    }
}
