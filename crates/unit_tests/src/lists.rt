//! The shared list.
ghost use Rattle.std.specs.Prelude.{◌≡◌, [], ◌∷◌, IfOk, IsTrue};

use crate::asserts::{assert_shown, same, shown};
use crate::row::Row;
use ref_parts::List;
use std::alloc::{AllocError, Global};
use std::hash::{DefaultHasher, Hash, Hasher};
use std::process::Abort;
use std::rc::Rc;

pub const ROWS: &str = r##"
# lists: 3
// The items of a list, the front, their sum, and what the list is shown as.
[[],null,0,"[]"]
[[2],2,2,"[2]"]
[[1,2],1,3,"[1, 2]"]

# equal lists: 4
// How many items two lists have, the same from their ends, and whether they are equal.
[1,1,true]
[1,2,false]
[3,3,true]
[3,2,false]
"##;

// ---- each call through the bounds of a generic caller

fn pair_of<T: Drop>(alloc: Global, first: Rc<T>, second: Rc<T>) -> Result<List<T>, AllocError>
    ensures { IfOk result (λ list. list ≡ first.value ∷ second.value ∷ []) }
{
    List::new()
        .push_front(alloc, second)?
        .push_front(alloc, first)
}

fn front_of<T: Drop>(list: &List<T>) -> Option<&T> {
    if list.is_empty() {
        return None;
    }
    list.iter().next()
}

fn count_of<T: Drop>(list: &List<T>) -> usize {
    let mut count = 0usize;
    for _item in list {
        count = count.saturating_add(1);
    }
    count
}

fn copy_of<T: Clone>(value: &T) -> Result<T, AllocError>
    ensures { IfOk result (T.is_clone value.now) }
{
    value.clone()
}

fn iter_of<I: IntoIterator>(items: I) -> I::IntoIter {
    items.into_iter()
}

fn are_alike<T: PartialEq>(a: &T, b: &T) -> bool {
    a == b
}

fn are_equal<T: Eq>(a: &T, b: &T) -> bool
    ensures { result ≡ T.eq a.now b.now }
{
    a == b
}

pub fn hash_of<T: Hash>(value: &T) -> u64 {
    let mut hasher = DefaultHasher::new();
    value.hash(&mut hasher);
    hasher.finish()
}

fn let_go<T: Drop>(value: T) {
    drop(value)
}

// ---- lists of numbers

// A list with a number before another list.
fn with_front(list: &List<usize>, alloc: Global, number: usize) -> Result<List<usize>, AllocError> {
    list.push_front(alloc, Rc::new(alloc, number)?)
}

// A list of the items of a row.
fn list_of(alloc: Global, items: &Row<'_>) -> Result<List<usize>, AllocError> {
    let mut list = List::new();
    for place in (0..items.len()).rev() {
        list = with_front(&list, alloc, items.count(place))?;
    }
    Ok(list)
}

// Ends the test where a list holds something else.
fn assert_items(rt: &impl Abort, list: &List<usize>, row: &Row<'_>) {
    let items = row.row(0);
    let mut given = list.iter();
    for place in 0..4usize {
        row.same(rt, given.next().copied(), items.number(place));
    }
    row.same(rt, list.is_empty(), items.len() == 0);
    row.same(rt, front_of(list).copied(), row.number(1));
    row.same(rt, iter_of(list).next().copied(), row.number(1));
    let mut sum = 0usize;
    for item in list {
        sum = sum.saturating_add(*item);
    }
    row.same(rt, Some(sum), row.number(2));
}

pub fn lists(rt: &impl Abort, alloc: Global, row: &Row<'_>) -> Result<(), AllocError> {
    let list = list_of(alloc, &row.row(0))?;
    assert_items(rt, &list, row);
    let_go(shown(alloc, &list.iter())?);
    assert_shown(rt, alloc, &list, row.text(3))
}

// Ends the test where these aren't two equal lists of two texts, of which the first is a.
fn assert_two_texts(
    rt: &impl Abort,
    alloc: Global,
    list: &List<String>,
    copy: &List<String>,
) -> Result<(), AllocError> {
    same(rt, count_of(copy), 2);
    same(rt, are_equal(list, copy), true);
    same(rt, hash_of(list), hash_of(copy));
    assert_shown(rt, alloc, &front_of(list), "Some(\"a\")")
}

// A list of `a` and `b`.
fn list_of_two(alloc: Global, first: Rc<String>) -> Result<List<String>, AllocError> {
    let second = Rc::new(alloc, String::from_str(alloc, "b")?)?;
    pair_of(alloc, first, second)
}

// A copy of a list of two texts, which is asked and let go.
fn copy_of_two(
    rt: &impl Abort,
    alloc: Global,
    list: List<String>,
) -> Result<List<String>, AllocError> {
    let copy = copy_of(&list)?;
    assert_two_texts(rt, alloc, &list, &copy)?;
    let_go(list);
    Ok(copy)
}

// Ends the test where a copy is shown otherwise, or a longer list once the copy is gone.
fn assert_longer(
    rt: &impl Abort,
    alloc: Global,
    copy: List<String>,
    first: Rc<String>,
) -> Result<(), AllocError> {
    let longer = copy.push_front(alloc, first)?;
    assert_shown(rt, alloc, &copy, "[\"a\", \"b\"]")?;
    let_go(copy);
    assert_shown(rt, alloc, &longer, "[\"a\", \"a\", \"b\"]")
}

// How a copy is shown once its list is gone, and a longer one once the copy is gone.
#[test]
fn a_list_of_texts_serves_generic_callers(rt: HostRuntime) -> Result<(), AllocError> {
    let first = Rc::new(rt.alloc(), String::from_str(rt.alloc(), "a")?)?;
    let list = list_of_two(rt.alloc(), first.clone()?)?;
    let copy = copy_of_two(&rt, rt.alloc(), list)?;
    assert_longer(&rt, rt.alloc(), copy, first)
}

// A list with the numbers below a count before another list, the greatest in front.
fn lengthened(list: List<usize>, alloc: Global, count: usize) -> Result<List<usize>, AllocError> {
    let mut longer = list;
    for number in 0..count {
        longer = with_front(&longer, alloc, number)?;
    }
    Ok(longer)
}

// Ends the test where a list isn't equal to its copy, or is equal to another with 7 in front.
fn assert_copied(
    rt: &impl Abort,
    alloc: Global,
    list: &List<usize>,
    other: &List<usize>,
) -> Result<(), AllocError> {
    same(rt, list.clone()? == *list, true);
    same(rt, *list == with_front(other, alloc, 7)?, false);
    Ok(())
}

// Equal lists are so also by a call that only knows that they can be, and hash alike.
pub fn equal_lists(rt: &impl Abort, alloc: Global, row: &Row<'_>) -> Result<(), AllocError> {
    let one = lengthened(List::new(), alloc, row.count(0))?;
    let two = lengthened(List::new(), alloc, row.count(1))?;
    row.same(rt, one == two, row.is_true(2));
    row.same(rt, are_alike(&one, &two), row.is_true(2));
    row.same(rt, one != two || hash_of(&one) == hash_of(&two), true);
    assert_copied(rt, alloc, &one, &two)
}

// Ends the test where a list has another front, or another count of items.
fn assert_front_and_count(rt: &impl Abort, list: &List<usize>, front: usize, count: usize) {
    same(
        rt,
        (front_of(list).copied(), count_of(list)),
        (Some(front), count),
    );
}

#[test]
fn a_list_of_a_million_items_is_dropped(rt: HostRuntime) -> Result<(), AllocError> {
    let tail = lengthened(List::new(), rt.alloc(), 1_000_000)?;
    let longer = lengthened(tail.clone()?, rt.alloc(), 1_000)?;
    assert_front_and_count(&rt, &longer, 999, 1_001_000);
    let_go(longer);
    assert_front_and_count(&rt, &tail, 999_999, 1_000_000);
    Ok(())
}

// ---- out of memory

// Whichever growth is refused, a list is copied, and an item that can't be put in front leaves the list as it was.
#[test]
fn a_refused_link_leaves_the_list(rt: HostRuntime) -> Result<(), AllocError> {
    let list = lengthened(List::new(), rt.alloc(), 2)?;
    let item = Rc::new(rt.alloc(), 7usize)?;
    same(&rt, list.clone().is_ok(), true);
    same(&rt, List::<usize>::new().clone().is_ok(), true);
    let longer = list.push_front(rt.alloc(), item);
    assert_front_and_count(&rt, &list, 1, 2);
    if let Ok(longer) = longer {
        assert_front_and_count(&rt, &longer, 7, 3);
    }
    Ok(())
}
