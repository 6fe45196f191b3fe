//! The small map.
ghost use Rattle.std.specs.Prelude.{◌≡◌, [], IfOk, IsTrue};
ghost use Rattle.ref_parts.specs.FiniteMap.{IsClone, Puts};

use crate::asserts::{assert_shown, same};
use crate::row::Row;
use ref_parts::{BorrowedKey, SmallMap};
use std::alloc::{AllocError, Global};
use std::hash::Hash;
use std::process::Abort;
use std::test::Fail;

pub const ROWS: &str = r##"
# maps of texts: 11
// Pairs that are put into a map with two slots, a key, its value, and what the map is shown as.
[[],"key",null,"{}"]
[[["key",1]],"key",1,"{\"key\": 1}"]
[[["key",1],["key",2]],"key",2,"{\"key\": 2}"]
[[["key",1],["key",2]],"missing",null,"{\"key\": 2}"]
[[["a",1]],"a",1,"{\"a\": 1}"]
[[["a",1],["b",2]],"b",2,"{\"a\": 1, \"b\": 2}"]
[[["a",1],["b",2],["c",3]],"c",3,"{\"a\": 1, \"b\": 2, \"c\": 3}"]
[[["a",10],["b",20],["c",30]],"a",10,"{\"a\": 10, \"b\": 20, \"c\": 30}"]
[[["a",10],["b",20],["c",30]],"b",20,"{\"a\": 10, \"b\": 20, \"c\": 30}"]
[[["a",10],["b",20],["c",30]],"c",30,"{\"a\": 10, \"b\": 20, \"c\": 30}"]
[[["a",10],["b",20],["c",30]],"d",null,"{\"a\": 10, \"b\": 20, \"c\": 30}"]

# maps with two slots: 5
// Pairs, and what a map of them holds: whether it is small, and its values at 0 to 4.
[[],[true,null,null,null,null,null]]
[[[1,10],[2,20]],[true,null,10,20,null,null]]
[[[1,10],[2,20],[2,21]],[true,null,10,21,null,null]]
[[[1,10],[2,20],[2,21],[3,30]],[false,null,10,21,30,null]]
[[[1,10],[2,20],[2,21],[3,30],[1,11]],[false,null,11,21,30,null]]

# maps without slots: 2
// The same of a map with none.
[[],[true,null,null,null,null,null]]
[[[1,10]],[false,null,10,null,null,null]]

# copies: 3
// Pairs, what a map of them with four slots and its copy hold, what the map holds once 7 is put at 0, and what the
// copy holds once 40 is put at 4.
[[[0,0],[1,10]],[true,0,10,null,null,null],[true,7,10,null,null,null],[true,0,10,null,null,40]]
[[[0,0],[1,10],[2,20],[3,30]],[true,0,10,20,30,null],[true,7,10,20,30,null],[false,0,10,20,30,40]]
[[[0,0],[1,10],[2,20],[3,30],[4,40]],[false,0,10,20,30,40],[false,7,10,20,30,40],[false,0,10,20,30,40]]

# copies of texts: 2
// Pairs, a key that `other` is put at in the map of them, once it is copied, what the copy holds, and what the map
// holds: whether it is small, and its texts at `a`, `b` and `c`.
[[["a","one"],["b","two"]],"a",[true,"one","two",null],[true,"other","two",null]]
[[["a","one"],["b","two"],["c","three"]],"b",[false,"one","two","three"],[false,"one","other","three"]]

# defaults: 2
// A key that is written in a map with 42 at `key`, the value, what was found there, and the values at `key` and `missing`.
["key",42,42,42,null]
["missing",7,0,42,7]
"##;

// ---- each call through the bounds of a generic caller

fn made<T: Default>() -> T
    ensures { T.is_default result }
{
    T::default()
}

pub fn map_of<K: Eq + Hash + Drop, V: Drop>(
    alloc: Global,
    key: K,
    value: V,
) -> Result<SmallMap<K, V, 2>, AllocError>
    ensures { IfOk result (λ map. Puts K.eq [] map key value) }
{
    let mut map = SmallMap::new();
    map.insert(alloc, key, value)?;
    Ok(map)
}

fn copy_of<K: Eq + Hash + Clone + Drop, V: Clone + Drop, const N: usize>(
    map: &SmallMap<K, V, N>,
) -> Result<SmallMap<K, V, N>, AllocError>
    requires { (x y : K) → K.is_clone x y → IsTrue (K.eq x y) }
    ensures { IfOk result (IsClone K.is_clone V.is_clone map.now) }
{
    map.clone()
}

/// Whether a borrowed key stands for a key.
fn matches_key<K: Eq + Hash, Q: BorrowedKey<K>>(borrowed: Q, key: &K) -> bool
    ensures { result ≡ Q.is_for borrowed key.now }
{
    borrowed.is_for(key)
}

/// The value at a key.
pub fn value_at<K: Eq + Hash, V: Copy, Q: BorrowedKey<K>, const N: usize>(
    map: &SmallMap<K, V, N>,
    key: Q,
) -> Option<V> {
    map.get(key).copied()
}

pub fn is_inline<K: Eq + Hash, V, const N: usize>(map: &SmallMap<K, V, N>) -> bool {
    map.is_small()
}

#[test]
fn texts_and_keys_match_equal_keys(rt: HostRuntime) -> Result<(), Fail> {
    let key = String::from_str(rt.alloc(), "key")?;
    let missing = String::from_str(rt.alloc(), "missing")?;
    same(&rt, matches_key("key", &key), true);
    same(&rt, matches_key("kez", &key), false);
    same(&rt, matches_key(&key, &key), true);
    same(&rt, matches_key(&missing, &key), false);
    Ok(())
}

// ---- maps from texts to numbers

/// Ends the test where a map returns something else than its row says, by text or by key.
fn assert_counts(
    rt: &impl Abort,
    alloc: Global,
    map: &SmallMap<String, usize, 2>,
    row: &Row<'_>,
) -> Result<(), AllocError> {
    let wanted = (row.row(0).len() < 3, row.number(2));
    row.same(rt, (is_inline(map), value_at(map, row.text(1))), wanted);
    let key = String::from_str(alloc, row.text(1))?;
    row.same(rt, value_at(map, &key), row.number(2));
    assert_shown(rt, alloc, map, row.text(3))
}

pub fn maps_of_texts(rt: &impl Abort, alloc: Global, row: &Row<'_>) -> Result<(), AllocError> {
    let mut map: SmallMap<String, usize, 2> = made();
    for place in 0..row.row(0).len() {
        let pair = row.row(0).row(place);
        map.insert(alloc, String::from_str(alloc, pair.text(0))?, pair.count(1))?;
    }
    assert_counts(rt, alloc, &map, row)
}

// ---- maps from numbers to numbers

/// Puts these pairs in turn.
fn put_numbers<const N: usize>(
    map: &mut SmallMap<usize, usize, N>,
    alloc: Global,
    pairs: &Row<'_>,
) -> Result<(), AllocError> {
    for place in 0..pairs.len() {
        let pair = pairs.row(place);
        map.insert(alloc, pair.count(0), pair.count(1))?;
    }
    Ok(())
}

/// Whether a map is small, and its values at 0 to 4.
pub type State = (bool, [Option<usize>; 5]);

pub fn state<const N: usize>(map: &SmallMap<usize, usize, N>) -> State {
    (
        is_inline(map),
        [
            value_at(map, &0),
            value_at(map, &1),
            value_at(map, &2),
            value_at(map, &3),
            value_at(map, &4),
        ],
    )
}

/// Ends the test where a map holds something else than a column.
fn assert_state<const N: usize>(
    rt: &impl Abort,
    map: &SmallMap<usize, usize, N>,
    row: &Row<'_>,
    column: usize,
) {
    let wanted = row.row(column);
    let values = [
        wanted.number(1),
        wanted.number(2),
        wanted.number(3),
        wanted.number(4),
        wanted.number(5),
    ];
    row.same(rt, state(map), (wanted.is_true(0), values));
}

/// Of a map with so many slots as this one, which is empty.
pub fn with_slots<const N: usize>(
    rt: &impl Abort,
    alloc: Global,
    empty: SmallMap<usize, usize, N>,
    row: &Row<'_>,
) -> Result<(), AllocError> {
    let mut map = empty;
    put_numbers(&mut map, alloc, &row.row(0))?;
    assert_state(rt, &map, row, 1);
    Ok(())
}

/// Ends the test where a map and its copy hold something else, before or after both are changed.
fn assert_copied(
    rt: &impl Abort,
    alloc: Global,
    map: &mut SmallMap<usize, usize, 4>,
    row: &Row<'_>,
) -> Result<(), AllocError> {
    let mut copy = copy_of(map)?;
    assert_state(rt, &copy, row, 1);
    map.insert(alloc, 0, 7)?;
    copy.insert(alloc, 4, 40)?;
    assert_state(rt, map, row, 2);
    assert_state(rt, &copy, row, 3);
    Ok(())
}

pub fn copies(rt: &impl Abort, alloc: Global, row: &Row<'_>) -> Result<(), AllocError> {
    let mut map: SmallMap<usize, usize, 4> = SmallMap::new();
    put_numbers(&mut map, alloc, &row.row(0))?;
    assert_state(rt, &map, row, 1);
    assert_copied(rt, alloc, &mut map, row)
}

// ---- maps from texts to texts

/// Puts a text at a text.
fn put_text(
    map: &mut SmallMap<String, String, 2>,
    alloc: Global,
    key: &str,
    text: &str,
) -> Result<(), AllocError> {
    let key = String::from_str(alloc, key)?;
    map.insert(alloc, key, String::from_str(alloc, text)?)
}

/// Ends the test where a map holds something else.
fn assert_texts(rt: &impl Abort, map: &SmallMap<String, String, 2>, wanted: &Row<'_>) {
    wanted.same(rt, is_inline(map), wanted.is_true(0));
    for (key, column) in [("a", 1usize), ("b", 2), ("c", 3)] {
        let text = match map.get(key) {
            Some(text) => Some(text.as_str()),
            None => None,
        };
        wanted.same(rt, text, wanted.optional(column));
    }
}

/// Ends the test where a copy does not keep its texts when its map is changed.
fn assert_kept(
    rt: &impl Abort,
    alloc: Global,
    map: &mut SmallMap<String, String, 2>,
    row: &Row<'_>,
) -> Result<(), AllocError> {
    let copy = copy_of(map)?;
    put_text(map, alloc, row.text(1), "other")?;
    assert_texts(rt, &copy, &row.row(2));
    Ok(())
}

pub fn copies_of_texts(rt: &impl Abort, alloc: Global, row: &Row<'_>) -> Result<(), AllocError> {
    let mut map = SmallMap::new();
    for place in 0..row.row(0).len() {
        let pair = row.row(0).row(place);
        put_text(&mut map, alloc, pair.text(0), pair.text(1))?;
    }
    assert_kept(rt, alloc, &mut map, row)?;
    assert_texts(rt, &map, &row.row(3));
    Ok(())
}
