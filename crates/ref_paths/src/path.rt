//! Paths into JSON values: one part of a path, and paths that share their beginnings.
ghost use Rattle.std.specs.Prelude.{◌≡◌, ◌∷◌, ◌++◌, [], IfOk, ◌≤◌, length, option_map};
ghost use Rattle.ref_paths.specs.Segment.{part_of};
ghost use Rattle.ref_paths.specs.inner.Link.{path_of};
ghost use Rattle.ref_paths.specs.Path.{last_part, parent_path};
ghost use Rattle.ref_paths.specs.declared.path.JsonPointerSegment.{JsonPointerSegment};

use std::alloc::{AllocError, Global};
use std::borrow::CowStr;
use std::fmt;
use std::marker::Model;
use std::rc::Rc;

/// A step into an object by its key, or into an array by its index (RFC 6901, section 4).
#[derive(Debug, Drop)]
pub enum JsonPointerSegment<'a> {
    /// The key of an object's member.
    Key(CowStr<'a>),
    /// The index of an array's element, from 0.
    Index(usize),
}

/// Keys are equal where their texts are, borrowed or owned, and indexes where they are one number.
impl PartialEq for JsonPointerSegment<'_> {
    ghost use Rattle.std.specs.Cmp.{on_per, partial_equiv_from_equiv};
    ghost use Rattle.ref_paths.specs.Path.{part_eq};
    ghost use Rattle.ref_paths.specs.Alike.{part_equivalence};
    ghost use Rattle.ref_paths.specs.Segment.{part_of};

    ghost eq = { λ a b. part_eq (part_of a) (part_of b) };

    ghost laws = { on_per part_of (partial_equiv_from_equiv part_equivalence) };

    fn eq(&self, other: &Self) -> bool {
        match (self, other) {
            (JsonPointerSegment::Key(key), JsonPointerSegment::Key(name)) => key == name,
            (JsonPointerSegment::Index(index), JsonPointerSegment::Index(i)) => index == i,
            _ => false,
        }
    }
}

impl Eq for JsonPointerSegment<'_> {
    ghost use Rattle.std.specs.Cmp.{on_equiv};
    ghost use Rattle.ref_paths.specs.Alike.{part_equivalence};
    ghost use Rattle.ref_paths.specs.Segment.{part_of};

    ghost laws = { on_equiv part_of part_equivalence };
}

/// The copy of an index or of a borrowed key takes no memory, and the key's copy borrows the same text. That of an owned
/// key copies its text, and is refused where there is no memory for it.
impl Clone for JsonPointerSegment<'_> {
    ghost use Rattle.std.specs.Prelude.{◌≡◌};
    ghost use Rattle.ref_paths.specs.Segment.{part_of, OwnsNothing};

    ghost is_clone = { λ segment copy. part_of copy ≡ part_of segment };

    ghost is_infallible = { OwnsNothing };

    fn clone(&self) -> Result<Self, AllocError> {
        match self {
            JsonPointerSegment::Key(CowStr::Borrowed(key)) => {
                Ok(JsonPointerSegment::Key(CowStr::Borrowed(*key)))
            }
            JsonPointerSegment::Key(key) => Ok(JsonPointerSegment::Key(key.clone()?)),
            JsonPointerSegment::Index(index) => Ok(JsonPointerSegment::Index(*index)),
        }
    }
}

impl From<usize> for JsonPointerSegment<'_> {
    ghost use Rattle.std.specs.Prelude.{◌≡◌};
    ghost use Rattle.ref_paths.specs.Path.{Index};
    ghost use Rattle.ref_paths.specs.Segment.{part_of};

    ghost from_gives = { λ index segment. part_of segment ≡ Index index };

    fn from(index: usize) -> Self {
        JsonPointerSegment::Index(index)
    }
}

impl<'a> From<&'a str> for JsonPointerSegment<'a> {
    ghost use Rattle.std.specs.Prelude.{◌≡◌};
    ghost use Rattle.ref_paths.specs.Path.{Key};
    ghost use Rattle.ref_paths.specs.Segment.{part_of};

    ghost from_gives = { λ key segment. part_of segment ≡ Key key.now };

    fn from(key: &'a str) -> Self {
        JsonPointerSegment::Key(CowStr::Borrowed(key))
    }
}

impl<'a> From<&'a String> for JsonPointerSegment<'a> {
    ghost use Rattle.std.specs.Prelude.{◌≡◌, string_bytes};
    ghost use Rattle.ref_paths.specs.Path.{Key};
    ghost use Rattle.ref_paths.specs.Segment.{part_of};

    ghost from_gives = { λ key segment. part_of segment ≡ Key (string_bytes key.now) };

    fn from(key: &'a String) -> Self {
        JsonPointerSegment::Key(CowStr::Borrowed(key.as_str()))
    }
}

impl<'a> From<CowStr<'a>> for JsonPointerSegment<'a> {
    ghost use Rattle.std.specs.Prelude.{◌≡◌};
    ghost use Rattle.std.specs.Cow.{cow_str_bytes};
    ghost use Rattle.ref_paths.specs.Path.{Key};
    ghost use Rattle.ref_paths.specs.Segment.{part_of};

    ghost from_gives = { λ key segment. part_of segment ≡ Key (cow_str_bytes key) };

    fn from(key: CowStr<'a>) -> Self {
        JsonPointerSegment::Key(key)
    }
}

/// A path from a root, by its last part and the path before it. Paths share their beginnings.
#[cycle(node)]
pub struct JsonPointerNode<'a> {
    last: Option<Rc<Link<'a>>>,
    // Index 0, which `segment` lends at the root.
    at_root: JsonPointerSegment<'a>,
}

#[cycle(node)]
#[derive(Drop)]
struct Link<'a> {
    segment: JsonPointerSegment<'a>,
    parent: JsonPointerNode<'a>,
}

impl<'a> Model for JsonPointerNode<'a> {
    ghost use Rattle.std.specs.Prelude.{List, length};
    ghost use Rattle.ref_paths.specs.Path.{Part};

    ghost Value = { List Part };

    ghost use Rattle.ref_paths.specs.inner.Link.{path_of};

    ghost view = { λ n. path_of n.last };

    ghost use Rattle.std.specs.Prelude.{◌≡◌};
    ghost use Rattle.ref_paths.specs.Path.{Index};
    ghost use Rattle.ref_paths.specs.Segment.{part_of};

    ghost invariant = { λ n. part_of n.at_root ≡ Index 0 };

    ghost size = { length };

    ghost use Rattle.std.proofs.Common.{arith, length-append};

    ghost size_decreases = { λ a h. Prim.grind (arith, length-append) };
}

impl<'a> Drop for JsonPointerNode<'a> {
    fn drop(self) {
        let JsonPointerNode { last, at_root } = self;
        drop(at_root);
        let mut rest = last;
        while let Some(link) = rest {
            rest = before(link);
        }
    }
}

// Lets a link go, and returns the one before it where no other path has it.
fn before(link: Rc<Link<'_>>) -> Option<Rc<Link<'_>>>
    ensures { length (path_of result) ≤ length link.entry.value.parent }
{
    match Rc::into_inner(link) {
        Some(owned) => {
            let Link { segment, parent } = owned;
            drop(segment);
            parent.into_last()
        }
        None => None,
    }
}

impl<'a> JsonPointerNode<'a> {
    /// The root. Takes no memory.
    pub fn new() -> Self
        ensures empty { result ≡ [] }
    {
        JsonPointerNode::from_last(None)
    }

    /// The path with this part after it. This path stays, and is shared.
    ///
    /// Takes memory for one link, whatever the length, and is refused where there is none.
    pub fn push<S: Into<JsonPointerSegment<'a>>>(
        &self,
        alloc: Global,
        segment: S,
    ) -> Result<Self, AllocError>
        ensures value { IfOk result
            (λ node. (s : JsonPointerSegment) × S.converts segment s
            × (node ≡ self.now ++ part_of s ∷ [])) }
    {
        let segment = segment.into();
        let parent = self.clone()?;
        let link = Rc::new(alloc, Link { segment, parent })?;
        Ok(JsonPointerNode::from_last(Some(link)))
    }

    /// The last part, or index 0 at the root.
    pub fn segment(&self) -> &JsonPointerSegment<'a>
        ensures value { part_of result.now ≡ last_part self.now }
    {
        match &self.last {
            Some(link) => &link.segment,
            None => &self.at_root,
        }
    }

    /// The path without its last part; the root has none.
    pub fn parent(&self) -> Option<&Self>
        ensures value { option_map (λ node. node.now) result ≡ parent_path self.now }
    {
        match &self.last {
            Some(link) => Some(&link.parent),
            None => None,
        }
    }

    // The path that ends with this link.
    fn from_last(last: Option<Rc<Link<'a>>>) -> Self
        ensures { result ≡ path_of last.entry }
    {
        JsonPointerNode {
            last,
            at_root: JsonPointerSegment::Index(0),
        }
    }

    // The last link.
    fn into_last(self) -> Option<Rc<Link<'a>>>
        ensures { path_of result ≡ self.entry }
    {
        let JsonPointerNode { last, at_root } = self;
        drop(at_root);
        last
    }
}

impl Default for JsonPointerNode<'_> {
    ghost is_default = { λ node. node ≡ [] };

    fn default() -> Self {
        JsonPointerNode::new()
    }
}

/// The same path, shared: one handle more, whatever the length. By the code it takes no memory; no clause says so.
///
/// It fails only where the last link has no count left for one more handle, which `std::rc::Rc` returns as out of
/// memory. The root has no link, and its copy succeeds.
impl Clone for JsonPointerNode<'_> {
    ghost is_clone = { λ node copy. copy ≡ node };

    ghost is_infallible = { λ node. node ≡ [] };

    fn clone(&self) -> Result<Self, AllocError> {
        let Some(link) = &self.last else {
            return Ok(JsonPointerNode::new());
        };
        Ok(JsonPointerNode::from_last(Some(link.clone()?)))
    }
}

/// Paths are equal where their parts are, in order.
impl PartialEq for JsonPointerNode<'_> {
    ghost use Rattle.std.specs.Cmp.{partial_equiv_from_equiv};
    ghost use Rattle.std.specs.Cmp.Lexicographic.{lists_equiv};
    ghost use Rattle.ref_paths.specs.Path.{path_eq};
    ghost use Rattle.ref_paths.specs.Alike.{part_equivalence};

    ghost eq = { path_eq };

    ghost laws = { partial_equiv_from_equiv (lists_equiv part_equivalence) };

    fn eq(&self, other: &Self) -> bool {
        let mut left = self;
        let mut right = other;
        while let (Some(a), Some(b)) = (&left.last, &right.last) {
            if a.segment != b.segment {
                return false;
            }
            left = &a.parent;
            right = &b.parent;
        }
        left.last.is_none() && right.last.is_none()
    }
}

impl Eq for JsonPointerNode<'_> {
    ghost use Rattle.std.specs.Cmp.Lexicographic.{lists_equiv};
    ghost use Rattle.ref_paths.specs.Alike.{part_equivalence};

    ghost laws = { lists_equiv part_equivalence };
}

// The parts, from the last one to the first.
impl fmt::Debug for JsonPointerNode<'_> {
    fn fmt<W: fmt::Write>(&self, f: &mut fmt::Formatter<W>) -> fmt::Result {
        let mut parts = f.debug_list();
        let mut rest = self;
        while let Some(link) = &rest.last {
            parts.entry(&link.segment);
            rest = &link.parent;
        }
        parts.finish()
    }
}
