//! Defaults in small maps, maps of maps, and growth that is refused.
ghost use Rattle.std.specs.Prelude.{◌≡◌, ℕ, false, Some, OnOk, OnErr, nat_eq};
ghost use Rattle.std.specs.Map.{lookup};

use crate::asserts::same;
use crate::maps::{map_of, state, value_at};
use crate::row::Row;
use ref_parts::SmallMap;
use std::alloc::{AllocError, Global};
use std::hash::Hash;
use std::process::Abort;

// Puts a default where the key was missing, and says whether there was memory.
fn add_default<K: Eq + Hash + Drop, V: Default + Drop>(
    map: &mut SmallMap<K, V, 2>,
    alloc: Global,
    key: K,
) -> bool {
    map.get_or_insert_default(alloc, key).is_ok()
}

// Writes at a key through what `get_or_insert_default` lends.
fn write_at(
    map: &mut SmallMap<usize, usize, 2>,
    alloc: Global,
    key: usize,
    value: usize,
) -> Result<(), AllocError>
    ensures written { OnOk result (lookup (nat_eq key) map.new ≡ Some value) }
    ensures kept { OnOk result
        ((other : ℕ) → nat_eq key other ≡ false
        → lookup (nat_eq other) map.new ≡ lookup (nat_eq other) map.old) }
    ensures err { OnErr result (map.new ≡ map.old) }
{
    *map.get_or_insert_default(alloc, key)? = value;
    Ok(())
}

// Writes at a key, and returns what was found there.
fn replace<K: Eq + Hash + Drop>(
    map: &mut SmallMap<K, usize, 2>,
    alloc: Global,
    key: K,
    value: usize,
) -> Result<usize, AllocError> {
    let place = map.get_or_insert_default(alloc, key)?;
    let found = *place;
    *place = value;
    Ok(found)
}

// Ends the test where a write at the key of a row finds something else, or leaves something else.
pub fn defaults(rt: &impl Abort, alloc: Global, row: &Row<'_>) -> Result<(), AllocError> {
    let key = String::from_str(alloc, row.text(0))?;
    let mut map = map_of(alloc, String::from_str(alloc, "key")?, 42usize)?;
    let found = replace(&mut map, alloc, key, row.count(1))?;
    row.same(rt, found, row.count(2));
    row.same(rt, value_at(&map, "key"), row.number(3));
    row.same(rt, value_at(&map, "missing"), row.number(4));
    Ok(())
}

// Grows a map of two pairs past its bound by a default, and then by another.
#[test]
fn a_default_keeps_what_is_there(rt: HostRuntime) -> Result<(), AllocError> {
    let mut map = map_of(rt.alloc(), 1usize, 10usize)?;
    map.insert(rt.alloc(), 2, 20)?;
    same(&rt, replace(&mut map, rt.alloc(), 3, 30)?, 0);
    let wanted = (false, [None, Some(10), Some(20), Some(30), None]);
    same(&rt, state(&map), wanted);
    same(&rt, add_default(&mut map, rt.alloc(), 4), true);
    write_at(&mut map, rt.alloc(), 2, 21)?;
    same(&rt, add_default(&mut map, rt.alloc(), 2), true);
    let wanted = (false, [None, Some(10), Some(21), Some(30), Some(0)]);
    same(&rt, state(&map), wanted);
    Ok(())
}

// ---- maps of maps

// Writes at two keys through what the outer map lends.
fn write_below(
    map: &mut SmallMap<usize, SmallMap<String, usize, 2>, 2>,
    alloc: Global,
    outer: usize,
    inner: &str,
    value: usize,
) -> Result<usize, AllocError> {
    let key = String::from_str(alloc, inner)?;
    replace(map.get_or_insert_default(alloc, outer)?, alloc, key, value)
}

// The value at two keys.
fn value_below(
    map: &SmallMap<usize, SmallMap<String, usize, 2>, 2>,
    outer: usize,
    inner: &str,
) -> Option<usize> {
    value_at(map.get(&outer)?, inner)
}

// A map is written below, where a map of 10 at a was and where none was: there it grows past its bound.
#[test]
fn a_map_holds_maps(rt: HostRuntime) -> Result<(), AllocError> {
    let inner = map_of(rt.alloc(), String::from_str(rt.alloc(), "a")?, 10usize)?;
    let mut map = map_of(rt.alloc(), 1usize, inner)?;
    same(&rt, write_below(&mut map, rt.alloc(), 1, "b", 20)?, 0);
    for (key, value) in [("c", 30), ("d", 40), ("e", 50)] {
        same(&rt, write_below(&mut map, rt.alloc(), 2, key, value)?, 0);
    }
    same(&rt, value_below(&map, 1, "a"), Some(10));
    same(&rt, value_below(&map, 1, "b"), Some(20));
    for (key, value) in [("c", 30), ("d", 40), ("e", 50)] {
        same(&rt, value_below(&map, 2, key), Some(value));
    }
    Ok(())
}

// ---- out of memory

// Puts a default at 1, 20 at 2, and a default at 3 and again at 2. Only the third growth takes memory; a map without it has the
// first two, inline.
#[test]
fn a_refused_default_keeps_the_pairs(rt: HostRuntime) {
    let mut map = SmallMap::new();
    same(&rt, add_default(&mut map, rt.alloc(), 1), true);
    same(&rt, map.insert(rt.alloc(), 2, 20).is_ok(), true);
    let is_added = add_default(&mut map, rt.alloc(), 3);
    let last = if is_added { Some(0) } else { None };
    let wanted = (!is_added, [None, Some(0), Some(20), last, None]);
    same(&rt, state(&map), wanted);
    same(&rt, add_default(&mut map, rt.alloc(), 2), true);
    same(&rt, state(&map), wanted);
}

// A map keeps its pairs where a growth is refused, as the one past its bound and those of a hashed map, and takes them
// where there is memory. The tenfold of a number is put at it, again where that is refused: the first two take no memory, and
// the map is as before and lacks the number after the first refusal, and has it without one.
#[test]
fn a_refused_growth_keeps_the_pairs(rt: HostRuntime) -> Result<(), AllocError> {
    let mut map: SmallMap<usize, usize, 2> = SmallMap::new();
    for key in 0..40usize {
        let value = key.saturating_mul(10);
        let before = state(&map);
        let is_refused = map.insert(rt.alloc(), key, value).is_err();
        same(&rt, map.get(&key).is_none(), is_refused);
        if is_refused {
            same(&rt, (key >= 2, state(&map)), (true, before));
            map.insert(rt.alloc(), key, value)?;
        }
        same(&rt, map.is_small(), key < 2);
    }
    for key in 0..40usize {
        same(&rt, value_at(&map, &key), Some(key.saturating_mul(10)));
    }
    Ok(())
}
