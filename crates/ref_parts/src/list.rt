//! A list whose tails are shared.

ghost use Rattle.std.specs.Prelude.{◌≡◌, ◌≤◌, [], ◌∷◌, ◌++◌, ◌==◌, IfOk, OnErr, length};
ghost use Rattle.ref_parts.specs.inner.Items.{items_of, held, left};

use std::alloc::{AllocError, Global};
use std::fmt;
use std::hash::{Hash, Hasher};
use std::marker::Model;
use std::rc::Rc;

/// An immutable list, linked from its front. Lists share what is after the items that were put in front. The first two items have no
/// link, and each three that follow have one.
#[derive(Drop)]
pub struct List<T: Drop> {
    first: Option<Rc<T>>,
    second: Option<Rc<T>>,
    rest: Links<T>,
}

// The items from a link on, or none.
#[cycle(list)]
struct Links<T: Drop> {
    node: Option<Rc<Node<T>>>,
}

#[cycle(list)]
#[derive(Drop)]
struct Node<T: Drop> {
    first: Rc<T>,
    second: Rc<T>,
    third: Rc<T>,
    rest: Links<T>,
}

impl<T: Drop> Model for List<T> {
    ghost use Rattle.std.specs.Prelude.{List, ◌++◌};

    ghost Value = { List T };

    ghost use Rattle.ref_parts.specs.inner.Items.{held};

    ghost view = { λ l. held l.first ++ (held l.second ++ l.rest) };
}

impl<T: Drop> Model for Links<T> {
    ghost use Rattle.std.specs.Prelude.{List, length};

    ghost Value = { List T };

    ghost use Rattle.ref_parts.specs.inner.Items.{items_of};

    ghost view = { λ l. items_of l.node };

    ghost size = { length };

    ghost use Rattle.std.proofs.Common.{arith};

    ghost size_decreases = { λ a h. Prim.grind (arith) };
}

impl<T: Drop> Drop for Links<T> {
    fn drop(self) {
        let Links { node } = self;
        let mut rest = node;
        while let Some(node) = rest {
            rest = rest_of(node);
        }
    }
}

// Lets a node go, and returns what is after it where no other list has it.
fn rest_of<T: Drop>(node: Rc<Node<T>>) -> Option<Rc<Node<T>>>
    ensures { length (items_of result) ≤ length node.value.rest }
{
    match Rc::into_inner(node) {
        Some(last) => {
            let Node {
                first,
                second,
                third,
                rest,
            } = last;
            drop(first);
            drop(second);
            drop(third);
            rest.into_node()
        }
        None => None,
    }
}

impl<T: Drop> Links<T> {
    // Its first link.
    fn into_node(self) -> Option<Rc<Node<T>>>
        ensures { items_of result ≡ self }
    {
        let Links { node } = self;
        node
    }
}

impl<T: Drop> List<T> {
    /// The empty list. Takes no memory.
    #[inline(always)]
    pub fn new() -> Self
        ensures empty { result ≡ [] }
    {
        List {
            first: None,
            second: None,
            rest: Links { node: None },
        }
    }

    /// Whether the list has no items.
    #[inline(always)]
    pub fn is_empty(&self) -> bool
        ensures value { result ≡ (length self.now == 0) }
    {
        self.first.is_none() && self.second.is_none() && self.rest.node.is_none()
    }

    /// The list with this item in front. This list stays, and is shared.
    ///
    /// Takes memory for at most one link, whatever the length, and is refused where there is none; by the code, for every third item
    /// alone, and none for the first two, which no clause says.
    #[inline(always)]
    pub fn push_front(&self, alloc: Global, value: Rc<T>) -> Result<Self, AllocError>
        ensures items { IfOk result (λ list. list ≡ value.value ∷ self.now) }
    {
        match (&self.first, &self.second) {
            (Some(first), Some(second)) => linked(alloc, value, first, second, &self.rest),
            (Some(only), None) | (None, Some(only)) => Ok(List {
                first: Some(value),
                second: Some(only.clone()?),
                rest: self.rest.clone()?,
            }),
            (None, None) => Ok(List {
                first: Some(value),
                second: None,
                rest: self.rest.clone()?,
            }),
        }
    }

    /// The items from the front on. Takes no memory.
    pub fn iter(&self) -> Iter<'_, T>
        ensures items { result ≡ self.now }
    {
        Iter {
            first: item_of(&self.first),
            second: item_of(&self.second),
            rest: &self.rest,
        }
    }
}

// The list of three items, in a link, and those after them.
#[inline(never)]
fn linked<T: Drop>(
    alloc: Global,
    value: Rc<T>,
    first: &Rc<T>,
    second: &Rc<T>,
    rest: &Links<T>,
) -> Result<List<T>, AllocError>
    ensures { IfOk result
        (λ list. list ≡ value.value ∷ first.now.value ∷ second.now.value ∷ rest.now) }
{
    let node = Node {
        first: value,
        second: first.clone()?,
        third: second.clone()?,
        rest: rest.clone()?,
    };
    let node = Rc::new(alloc, node)?;
    Ok(List {
        first: None,
        second: None,
        rest: Links { node: Some(node) },
    })
}

// The item that a handle has.
#[inline(always)]
fn item_of<T: Drop>(handle: &Option<Rc<T>>) -> Option<&T>
    ensures { left result ≡ held handle.now }
{
    match handle {
        Some(item) => Some(item),
        None => None,
    }
}

/// The same items, shared: one handle more for each of the first two and one for the rest, whatever the length. By the code it takes no
/// memory; no clause says so.
///
/// It fails only where one of the first two items, or the first link, has no count left for one more handle, which `std::rc::Rc`
/// returns as out of memory. The empty list has none of them, and its copy succeeds.
impl<T: Drop> Clone for List<T> {
    ghost is_clone = { λ list copy. copy ≡ list };

    ghost is_infallible = { λ list. list ≡ [] };

    #[inline(always)]
    fn clone(&self) -> Result<Self, AllocError> {
        Ok(List {
            first: self.first.clone()?,
            second: self.second.clone()?,
            rest: self.rest.clone()?,
        })
    }
}

impl<T: Drop> Clone for Links<T> {
    ghost is_clone = { λ links copy. copy ≡ links };

    ghost is_infallible = { λ links. links ≡ [] };

    #[inline(always)]
    fn clone(&self) -> Result<Self, AllocError> {
        let node = match &self.node {
            Some(node) => Some(node.clone()?),
            None => None,
        };
        Ok(Links { node })
    }
}

/// The items of a list that are left, from the front on.
#[derive(Drop)]
pub struct Iter<'a, T: Drop> {
    first: Option<&'a T>,
    second: Option<&'a T>,
    rest: &'a Links<T>,
}

impl<'a, T: Drop> Model for Iter<'a, T> {
    ghost use Rattle.std.specs.Prelude.{List, ◌++◌};

    ghost Value = { List T };

    ghost use Rattle.ref_parts.specs.inner.Items.{left};

    ghost view = { λ i. left i.first ++ (left i.second ++ i.rest.now) };
}

impl<'a, T: Drop> Iterator for Iter<'a, T> {
    ghost use Rattle.std.specs.Iterator.{YieldsFirstRef, item_count};

    type Item = &'a T;

    ghost next_gives = { YieldsFirstRef (λ items. items) };

    ghost remaining = { item_count (λ items. items) };

    #[inline(always)]
    fn next(&mut self) -> Option<&'a T> {
        if let Some(item) = self.first {
            self.first = self.second;
            self.second = None;
            return Some(item);
        }
        if let Some(item) = self.second {
            self.second = None;
            return Some(item);
        }
        let links = self.rest;
        let Some(node) = &links.node else {
            return None;
        };
        self.first = Some(&node.second);
        self.second = Some(&node.third);
        self.rest = &node.rest;
        Some(&node.first)
    }
}

impl<'a, T: Drop> IntoIterator for &'a List<T> {
    type Item = &'a T;

    type IntoIter = Iter<'a, T>;

    ghost into_iter_gives = { λ list items. items ≡ list.now };

    fn into_iter(self) -> Iter<'a, T> {
        self.iter()
    }
}

/// Lists are equal where their items are, in order.
impl<T: PartialEq + Drop> PartialEq for List<T> {
    ghost use Rattle.std.specs.Cmp.Lexicographic.{pointwise, lists_per};

    ghost eq = { pointwise T.eq };

    ghost laws = { lists_per T.laws };

    fn eq(&self, other: &Self) -> bool {
        let mut left = self.iter();
        let mut right = other.iter();
        while let Some(a) = left.next() {
            match right.next() {
                Some(b) if a == b => {}
                _ => return false,
            }
        }
        right.next().is_none()
    }
}

impl<T: Eq + Drop> Eq for List<T> {
    ghost use Rattle.std.specs.Cmp.Lexicographic.{lists_equiv};

    ghost laws = { lists_equiv T.Eq.laws };
}

/// Feeds each item in order, so equal lists hash alike.
impl<T: Hash + Drop> Hash for List<T> {
    ghost use Rattle.std.specs.Prelude.{flat_map};
    ghost use Rattle.ref_parts.specs.Alike.{feeds_alike};

    ghost hash_input = { flat_map T.hash_input };

    ghost respects_eq = { feeds_alike T.respects_eq };

    fn hash<H: Hasher>(&self, state: &mut H) {
        for item in self {
            item.hash(state);
        }
    }
}

impl<T: fmt::Debug + Drop> fmt::Debug for List<T> {
    fn fmt<W: fmt::Write>(&self, f: &mut fmt::Formatter<W>) -> fmt::Result {
        f.debug_list().entries(self.iter()).finish()
    }
}

impl<T: fmt::Debug + Drop> fmt::Debug for Iter<'_, T> {
    fn fmt<W: fmt::Write>(&self, f: &mut fmt::Formatter<W>) -> fmt::Result {
        let items = Iter {
            first: self.first,
            second: self.second,
            rest: self.rest,
        };
        f.debug_list().entries(items).finish()
    }
}
