//! Calls of maps and tables of `ref_parts`.
use crate::refused::stop::{Stop, after, refused};
use crate::refused::trial::{Calls, Trial, tried};
use ref_parts::small_map::SmallMap;
use ref_parts::table::{SortedTable, TableEntries};
use std::alloc::{AllocError, Global};

/// A map of two pairs, as many as are in it without memory, and one of three.
#[derive(Drop)]
struct Maps {
    two: SmallMap<u32, u32, 2>,
    three: SmallMap<u32, u32, 2>,
}

/// The row of a call.
pub fn row(alloc: Global, call: &str) -> Result<Trial, Stop> {
    let mut three = two_pairs(alloc)?;
    three.insert(alloc, 3, 30)?;
    let mut maps = Maps {
        two: two_pairs(alloc)?,
        three,
    };
    tried(
        alloc,
        &mut maps,
        "maps",
        call,
        &["clone", "readers", "table.from_entries"],
    )
}

impl Calls for Maps {
    fn answer(&mut self, alloc: Global, call: &str) -> Result<String, Stop> {
        match call {
            "insert" => promoted(alloc, &mut self.two),
            "get_or_insert_default" => promoted_by_default(alloc, &mut self.two),
            "clone" => copied_map(alloc, &self.three),
            "readers" => read(alloc, &self.three),
            "table.from_entries" => table(alloc),
            "table.readers" => read_table(alloc),
            "entries.push" => pushed(alloc),
            "entries.append" => joined(alloc),
            "entries.into_table" => made(alloc),
            _ => Err(Stop::Wrong),
        }
    }
}

fn two_pairs(alloc: Global) -> Result<SmallMap<u32, u32, 2>, AllocError> {
    let mut map: SmallMap<u32, u32, 2> = SmallMap::new();
    map.insert(alloc, 1, 10)?;
    map.insert(alloc, 2, 20)?;
    Ok(map)
}

/// What a map has at 1, 2 and 3, with 0 where it has nothing, and whether it takes no memory.
fn state_of(map: &SmallMap<u32, u32, 2>) -> (u32, u32, u32, bool) {
    (at(map, 1), at(map, 2), at(map, 3), map.is_small())
}

fn at(map: &SmallMap<u32, u32, 2>, key: u32) -> u32 {
    map.get(&key).copied().unwrap_or(0)
}

/// Whether a map has the two pairs, and nothing at 3.
fn has_two(map: &SmallMap<u32, u32, 2>) -> bool {
    state_of(map) == (10, 20, 0, true)
}

fn promoted(alloc: Global, map: &mut SmallMap<u32, u32, 2>) -> Result<String, Stop> {
    match map.insert(alloc, 3, 30) {
        Ok(()) => after(format!(in alloc; "{map:?}")),
        Err(error) => Err(refused(&error, has_two(map))),
    }
}

/// Writes at a key, with the default there first where it is new.
fn write_at(map: &mut SmallMap<u32, u32, 2>, alloc: Global, key: u32) -> Result<(), AllocError> {
    let value = map.get_or_insert_default(alloc, key)?;
    *value = 5;
    Ok(())
}

fn promoted_by_default(alloc: Global, map: &mut SmallMap<u32, u32, 2>) -> Result<String, Stop> {
    match write_at(map, alloc, 3) {
        Ok(()) => after(format!(in alloc; "{map:?}")),
        Err(error) => Err(refused(&error, has_two(map))),
    }
}

fn copied_map(alloc: Global, map: &SmallMap<u32, u32, 2>) -> Result<String, Stop> {
    match map.clone() {
        Ok(copy) => after(format!(in alloc; "{copy:?}")),
        Err(error) => Err(refused(&error, state_of(map) == (10, 20, 30, false))),
    }
}

fn read(alloc: Global, map: &SmallMap<u32, u32, 2>) -> Result<String, Stop> {
    let (_, _, third, is_small) = state_of(map);
    after(format!(in alloc; "{third} {is_small}"))
}

/// Three entries, of which two are under one pair of texts.
fn entries(alloc: Global) -> Result<Vec<(String, String, u32)>, AllocError> {
    let mut entries = Vec::with_capacity(alloc, 3)?;
    for (first, number) in [("b", 1u32), ("a", 2), ("b", 3)] {
        let entry = (String::from_str(alloc, first)?, String::new(alloc), number);
        entries.push(entry)?;
    }
    Ok(entries)
}

fn table(alloc: Global) -> Result<String, Stop> {
    let entries = entries(alloc)?;
    match SortedTable::from_entries(alloc, entries) {
        Ok(table) => {
            let len = table.len();
            let last = table.get("b", "").0.copied().unwrap_or(0);
            after(format!(in alloc; "{len} {last}"))
        }
        Err(error) => Err(refused(&error, true)),
    }
}

/// How many pairs a table has, and what is under one of them and under none.
fn read_table(alloc: Global) -> Result<String, Stop> {
    let table = SortedTable::from_entries(alloc, entries(alloc)?)?;
    let len = table.len();
    let (second, none) = (table.get("b", "").0.copied(), table.get("c", "").0.copied());
    after(format!(in alloc; "{len} {second:?} {none:?}"))
}

/// One entry under two texts.
fn one_entry(alloc: Global) -> Result<TableEntries<u32>, AllocError> {
    let mut entries = TableEntries::new(alloc);
    entries.push("a", "", 1)?;
    Ok(entries)
}

/// Whether entries are that one alone.
fn is_one(alloc: Global, entries: TableEntries<u32>) -> Result<bool, Stop> {
    let table = entries.into_table(alloc).ok().ok_or(Stop::After)?;
    Ok(table.len() == 1 && table.get("a", "").0.copied() == Some(1))
}

/// How many pairs of texts entries have, and what the last one of two is.
fn last_of(alloc: Global, entries: TableEntries<u32>) -> Result<String, Stop> {
    let table = entries.into_table(alloc).ok().ok_or(Stop::After)?;
    let (len, last) = (table.len(), table.get("bcdefghi", "").0.copied());
    after(format!(in alloc; "{len} {last:?}"))
}

fn pushed(alloc: Global) -> Result<String, Stop> {
    let mut entries = one_entry(alloc)?;
    match entries.push("bcdefghi", "", 2) {
        Ok(()) => last_of(alloc, entries),
        Err(error) => Err(refused(&error, is_one(alloc, entries)?)),
    }
}

fn joined(alloc: Global) -> Result<String, Stop> {
    let mut entries = one_entry(alloc)?;
    let mut others = TableEntries::new(alloc);
    others.push("bcdefghi", "", 2)?;
    match entries.append(others) {
        Ok(()) => last_of(alloc, entries),
        Err(error) => Err(refused(&error, is_one(alloc, entries)?)),
    }
}

fn made(alloc: Global) -> Result<String, Stop> {
    let entries = one_entry(alloc)?;
    match entries.into_table(alloc) {
        Ok(table) => {
            let value = table.get("a", "").0.copied();
            after(format!(in alloc; "{value:?}"))
        }
        Err(error) => Err(refused(&error, true)),
    }
}
