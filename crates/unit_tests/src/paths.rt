//! Segments and nodes.

use crate::asserts::same;
use ref_parts::{JsonPointerNode, JsonPointerSegment};
use std::alloc::{AllocError, Global};
use std::borrow::CowStr;

// Whether what stands for a segment is made that of a key.
fn is_made<'a, S: Into<JsonPointerSegment<'a>>>(part: S, key: &'a str) -> bool {
    part.into() == JsonPointerSegment::from(key)
}

#[test]
fn segments_come_from_keys_and_indexes(rt: HostRuntime) -> Result<(), AllocError> {
    let name = String::from_str(rt.alloc(), "a")?;
    same(&rt, is_made(&name, "a"), true);
    same(&rt, is_made(CowStr::Owned(name.clone()?), "a"), true);
    let index = JsonPointerSegment::from(3usize);
    same(&rt, index == JsonPointerSegment::Index(3), true);
    Ok(())
}

#[test]
fn segments_are_copied_and_compared(rt: HostRuntime) -> Result<(), AllocError> {
    let key = JsonPointerSegment::from("a");
    let copy = key.clone()?;
    same(&rt, copy == key, true);
    let is_lent = matches!(copy, JsonPointerSegment::Key(CowStr::Borrowed("a")));
    same(&rt, is_lent, true);
    same(&rt, key == JsonPointerSegment::from("b"), false);
    same(&rt, key == JsonPointerSegment::from(3usize), false);
    Ok(())
}

#[test]
fn an_owned_key_is_copied(rt: HostRuntime) -> Result<(), AllocError> {
    let name = String::from_str(rt.alloc(), "a")?;
    let owned = JsonPointerSegment::from(CowStr::Owned(name));
    same(&rt, owned.clone()? == JsonPointerSegment::from("a"), true);
    Ok(())
}

// The path of a key and then the index 3.
fn item<'a>(alloc: Global, key: &'a str) -> Result<JsonPointerNode<'a>, AllocError> {
    JsonPointerNode::new().push(alloc, key)?.push(alloc, 3usize)
}

// Whether what is made is equal to a node.
fn is_alike<'a>(
    made: Result<JsonPointerNode<'a>, AllocError>,
    node: &JsonPointerNode<'a>,
) -> Result<bool, AllocError> {
    Ok(made? == *node)
}

// Whether a key is pushed onto the root as it is as text.
fn is_pushed<'a, S: Into<JsonPointerSegment<'a>>>(
    alloc: Global,
    part: S,
    key: &'a str,
) -> Result<bool, AllocError> {
    let root = JsonPointerNode::new();
    is_alike(root.push(alloc, part), &root.push(alloc, key)?)
}

#[test]
fn keys_are_pushed_alike(rt: HostRuntime) -> Result<(), AllocError> {
    let key = String::from_str(rt.alloc(), "a")?;
    same(&rt, is_pushed(rt.alloc(), &key, "a")?, true);
    same(
        &rt,
        is_pushed(rt.alloc(), CowStr::Borrowed("a"), "a")?,
        true,
    );
    Ok(())
}

// Whether a node is the root: without a node above it, at the index 0, and equal to the default.
fn is_root(node: &JsonPointerNode<'_>) -> bool {
    node.parent().is_none()
        && *node.segment() == JsonPointerSegment::Index(0)
        && *node == JsonPointerNode::default()
}

// Whether the node above one is the path of a key after a root, with that key as its segment.
fn is_there_below<'a>(
    alloc: Global,
    node: &JsonPointerNode<'a>,
    key: &'a str,
) -> Result<bool, AllocError> {
    let Some(parent) = node.parent() else {
        return Ok(false);
    };
    let Some(root) = parent.parent() else {
        return Ok(false);
    };
    let is_key = *parent.segment() == JsonPointerSegment::from(key);
    Ok(is_key && is_root(root) && is_alike(root.push(alloc, key), parent)?)
}

// A node has its parts and its parent, and is equal to its copy and to one that was made as it was, and to none of another key.
#[test]
fn a_node_has_its_parts_and_is_compared(rt: HostRuntime) -> Result<(), AllocError> {
    let node = item(rt.alloc(), "a")?;
    same(&rt, *node.segment() == JsonPointerSegment::Index(3), true);
    same(&rt, is_there_below(rt.alloc(), &node, "a")?, true);
    same(&rt, is_alike(node.clone(), &node)?, true);
    same(&rt, is_alike(item(rt.alloc(), "a"), &node)?, true);
    same(&rt, is_alike(item(rt.alloc(), "b"), &node)?, false);
    Ok(())
}

// A node that can't grow is as it was; its copy takes no memory.
#[test]
fn a_refused_part_leaves_the_node(rt: HostRuntime) -> Result<(), AllocError> {
    let node = JsonPointerNode::new().push(rt.alloc(), 1usize)?;
    let longer = node.push(rt.alloc(), 2usize);
    same(&rt, node.clone().is_ok(), true);
    same(&rt, JsonPointerNode::new().clone().is_ok(), true);
    same(&rt, *node.segment() == JsonPointerSegment::Index(1), true);
    if let Ok(longer) = longer {
        same(&rt, *longer.segment() == JsonPointerSegment::Index(2), true);
    }
    Ok(())
}

#[test]
fn a_long_node_is_dropped(rt: HostRuntime) -> Result<(), AllocError> {
    let mut node = JsonPointerNode::new();
    for index in 0..100_000usize {
        node = node.push(rt.alloc(), index)?;
    }
    let is_last = *node.segment() == JsonPointerSegment::Index(99_999);
    same(&rt, is_last, true);
    Ok(())
}
