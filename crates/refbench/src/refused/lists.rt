//! Calls of lists and paths of `ref_parts`.
use crate::refused::stop::{Stop, after, refused};
use crate::refused::trial::{Calls, Trial, tried};
use ref_parts::list::List;
use ref_parts::path::{JsonPointerNode, JsonPointerSegment};
use std::alloc::{AllocError, Global};
use std::borrow::CowStr;
use std::rc::Rc;

/// A list of the number 2, a path of the key `a`, and a segment that owns it.
#[derive(Drop)]
struct Lists {
    list: List<u32>,
    node: JsonPointerNode<'static>,
    segment: JsonPointerSegment<'static>,
}

/// The row of a call.
pub fn row(alloc: Global, call: &str) -> Result<Trial, Stop> {
    let key = String::from_str(alloc, "a")?;
    let mut lists = Lists {
        list: in_front(alloc, 2, &List::new())?,
        node: JsonPointerNode::new().push(alloc, "a")?,
        segment: JsonPointerSegment::Key(CowStr::Owned(key)),
    };
    tried(
        alloc,
        &mut lists,
        "lists",
        call,
        &["push_front", "node.push", "segment.clone", "readers"],
    )
}

impl Calls for Lists {
    fn answer(&mut self, alloc: Global, call: &str) -> Result<String, Stop> {
        match call {
            "push_front" => longer_list(alloc, &self.list),
            "clone" => copied_list(alloc, &self.list),
            "readers" => read(alloc, &self.list),
            "node.push" => longer_path(alloc, &self.node),
            "segment.clone" => copied_segment(alloc, &self.segment),
            _ => Err(Stop::Wrong),
        }
    }
}

/// A number that is shared.
fn shared(alloc: Global, number: u32) -> Result<Rc<u32>, AllocError> {
    Ok(Rc::new(alloc, number)?)
}

/// A list of a number before another list.
fn in_front(alloc: Global, number: u32, list: &List<u32>) -> Result<List<u32>, AllocError> {
    list.push_front(alloc, shared(alloc, number)?)
}

/// How many items a list has, and their sum.
fn count_and_sum(list: &List<u32>) -> (u32, u32) {
    let mut count: u32 = 0;
    let mut sum: u32 = 0;
    for number in list {
        count = count.saturating_add(1);
        sum = sum.saturating_add(*number);
    }
    (count, sum)
}

/// Whether a list is that of the number 2.
fn has_rows(list: &List<u32>) -> bool {
    !list.is_empty() && count_and_sum(list) == (1, 2)
}

fn longer_list(alloc: Global, list: &List<u32>) -> Result<String, Stop> {
    let number = shared(alloc, 1)?;
    match list.push_front(alloc, number) {
        Ok(longer) => after(format!(in alloc; "{longer:?}")),
        Err(error) => Err(refused(&error, has_rows(list))),
    }
}

fn copied_list(alloc: Global, list: &List<u32>) -> Result<String, Stop> {
    match list.clone() {
        Ok(copy) => after(format!(in alloc; "{copy:?}")),
        Err(error) => Err(refused(&error, has_rows(list))),
    }
}

fn read(alloc: Global, list: &List<u32>) -> Result<String, Stop> {
    let (count, sum) = count_and_sum(list);
    after(format!(in alloc; "{count} {sum}"))
}

/// Whether a segment is the key `a`.
fn is_key(segment: &JsonPointerSegment<'_>) -> bool {
    match segment {
        JsonPointerSegment::Key(key) => key.as_str() == "a",
        JsonPointerSegment::Index(_) => false,
    }
}

fn longer_path(alloc: Global, node: &JsonPointerNode<'_>) -> Result<String, Stop> {
    match node.push(alloc, 3usize) {
        Ok(longer) => {
            let is_longer = matches!(longer.segment(), JsonPointerSegment::Index(3));
            after(format!(in alloc; "{is_longer}"))
        }
        Err(error) => {
            let is_at_path = is_key(node.segment()) && node.parent().is_some();
            Err(refused(&error, is_at_path))
        }
    }
}

fn copied_segment(alloc: Global, segment: &JsonPointerSegment<'_>) -> Result<String, Stop> {
    match segment.clone() {
        Ok(JsonPointerSegment::Key(key)) => after(String::from_str(alloc, key.as_str())),
        Ok(_) => Err(Stop::Wrong),
        Err(error) => Err(refused(&error, is_key(segment))),
    }
}
