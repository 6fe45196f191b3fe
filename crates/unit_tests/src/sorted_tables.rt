//! The sorted table.
ghost use Rattle.std.specs.Prelude.{◌≡◌, IfOk, option_copied};
ghost use Rattle.ref_parts.specs.Table.{entries_of, last_value, pair_count};

use crate::asserts::same;
use crate::row::Row;
use ref_parts::{SortedTable, TableEntries};
use std::alloc::{AllocError, Global};
use std::fmt;
use std::process::Abort;

pub const ROWS: &str = r##"
# tables: 14
// Entries, how many pairs of texts they have, the most probes that an answer may take, two texts, and the value of the
// last entry under them, if there is one.
[[],0,0,"a","",null]
[[["b","",1],["a","",2],["b","",3]],2,2,"b","",3]
[[["b","",1],["a","",2],["b","",3]],2,2,"a","",2]
[[["b","",1],["a","",2],["b","",3]],2,2,"c","",null]
[[["b","",1],["a","",2],["b","",3]],2,2,"b","b",null]
[[["a","y",1],["a","x",2],["a","",3],["a","y",4]],3,2,"a","",3]
[[["a","y",1],["a","x",2],["a","",3],["a","y",4]],3,2,"a","x",2]
[[["a","y",1],["a","x",2],["a","",3],["a","y",4]],3,2,"a","y",4]
[[["a","y",1],["a","x",2],["a","",3],["a","y",4]],3,2,"a","z",null]
[[["ab","",1],["a","b",2],["","ab",3],["abc","",4]],4,3,"a","b",2]
[[["ab","",1],["a","b",2],["","ab",3],["abc","",4]],4,3,"ab","",1]
[[["ab","",1],["a","b",2],["","ab",3],["abc","",4]],4,3,"","ab",3]
[[["ab","",1],["a","b",2],["","ab",3],["abc","",4]],4,3,"abc","",4]
[[["ab","",1],["a","b",2],["","ab",3],["abc","",4]],4,3,"a","",null]
"##;

// ---- each call through the bounds of a generic caller

fn table_of<V: Drop>(
    alloc: Global,
    entries: Vec<(String, String, V)>,
) -> Result<SortedTable<V>, AllocError>
    ensures { IfOk result (λ table. table ≡ entries_of entries.items) }
{
    SortedTable::from_entries(alloc, entries)
}

fn count_of<V: Drop>(table: &SortedTable<V>) -> usize
    ensures { result ≡ pair_count table.now }
{
    table.len()
}

fn value_at<'a, V: Drop>(table: &'a SortedTable<V>, first: &str, second: &str) -> Option<&'a V>
    ensures { option_copied result ≡ last_value first.now second.now table.now }
{
    table.get(first, second).0
}

fn found_at<'a, V: Drop>(table: &'a SortedTable<V>, first: &str, second: &str) -> Option<&'a V>
    ensures { option_copied result ≡ last_value first.now second.now table.now }
{
    table.find(first, second)
}

/// Enters a value under two texts.
fn enter<V: Drop>(
    entries: &mut Vec<(String, String, V)>,
    alloc: Global,
    first: &str,
    second: &str,
    value: V,
) -> Result<(), AllocError> {
    let first = String::from_str(alloc, first)?;
    let second = String::from_str(alloc, second)?;
    entries.push((first, second, value))?;
    Ok(())
}

/// A table of one value, under a text and the empty one.
fn table_of_one<V: Drop>(
    alloc: Global,
    first: &str,
    value: V,
) -> Result<SortedTable<V>, AllocError> {
    let mut entries = Vec::new(alloc);
    enter(&mut entries, alloc, first, "", value)?;
    table_of(alloc, entries)
}

/// Ends the test where a table of one value lends another.
fn assert_lent<V: PartialEq + fmt::Debug + Drop>(
    rt: &impl Abort,
    alloc: Global,
    value: V,
    wanted: &V,
) -> Result<(), AllocError> {
    let table = table_of_one(alloc, "a", value)?;
    same(rt, value_at(&table, "a", ""), Some(wanted));
    same(rt, found_at(&table, "a", ""), Some(wanted));
    Ok(())
}

#[test]
fn a_table_lends_what_it_owns_and_what_it_borrows(rt: HostRuntime) -> Result<(), AllocError> {
    let value = String::from_str(rt.alloc(), "value")?;
    assert_lent(&rt, rt.alloc(), value.clone()?, &value)?;
    let lent = value.as_str();
    assert_lent(&rt, rt.alloc(), lent, &lent)
}

// ---- tables of numbers

/// The table of the same entries, the first in one list and the others in another, which is joined to it; each value is one too
/// high until it is changed.
fn joined_of(alloc: Global, row: &Row<'_>) -> Result<SortedTable<usize>, AllocError> {
    let mut joined = TableEntries::new(alloc);
    let mut others = TableEntries::new(alloc);
    for place in 0..row.row(0).len() {
        let entry = row.row(0).row(place);
        let value = entry.count(2).saturating_add(1);
        if place == 0 {
            joined.push(entry.text(0), entry.text(1), value)?;
        } else {
            others.push(entry.text(0), entry.text(1), value)?;
        }
    }
    joined.append(others)?;
    joined.change_values(|value| *value = value.saturating_sub(1));
    joined.into_table(alloc)
}

pub fn tables(rt: &impl Abort, alloc: Global, row: &Row<'_>) -> Result<(), AllocError> {
    let mut entries = Vec::new(alloc);
    for place in 0..row.row(0).len() {
        let entry = row.row(0).row(place);
        let (first, second) = (entry.text(0), entry.text(1));
        enter(&mut entries, alloc, first, second, entry.count(2))?;
    }
    let table = table_of(alloc, entries)?;
    row.same(rt, count_of(&table), row.count(1));
    let (value, probes) = table.get(row.text(3), row.text(4));
    row.same(rt, probes <= row.count(2), true);
    row.same(rt, value.copied(), row.number(5));
    row.same(
        rt,
        table.find(row.text(3), row.text(4)).copied(),
        row.number(5),
    );
    let joined = joined_of(alloc, row)?;
    let (value, _) = joined.get(row.text(3), row.text(4));
    row.same(rt, value.copied(), row.number(5));
    row.same(
        rt,
        joined.find(row.text(3), row.text(4)).copied(),
        row.number(5),
    );
    Ok(())
}

/// A URI, alike for two numbers that follow one another, and the name that tells them apart.
fn uri_of(alloc: Global, number: usize) -> Result<String, AllocError> {
    let uri = number / 2;
    format!(in alloc; "http://example.com/schemas/{uri}")
}

fn name_of(number: usize) -> &'static str {
    if number % 2 == 0 { "0" } else { "1" }
}

/// Ends the test where a table lacks a number, has something under a name that none has, or takes more than ten probes
/// for either.
fn assert_number(
    rt: &impl Abort,
    alloc: Global,
    table: &SortedTable<usize>,
    number: usize,
) -> Result<(), AllocError> {
    let uri = uri_of(alloc, number)?;
    let (value, probes) = table.get(uri.as_str(), name_of(number));
    same(rt, (value.copied(), probes <= 10), (Some(number), true));
    let (none, probes) = table.get(uri.as_str(), "2");
    same(rt, (none.copied(), probes <= 10), (None, true));
    same(
        rt,
        table.find(uri.as_str(), name_of(number)).copied(),
        Some(number),
    );
    same(rt, table.find(uri.as_str(), "2").copied(), None);
    Ok(())
}

#[test]
fn a_thousand_pairs_take_at_most_ten_probes(rt: HostRuntime) -> Result<(), AllocError> {
    let mut entries = Vec::new(rt.alloc());
    for number in 0..1_000usize {
        let uri = uri_of(rt.alloc(), number)?;
        enter(
            &mut entries,
            rt.alloc(),
            uri.as_str(),
            name_of(number),
            number,
        )?;
    }
    let table = table_of(rt.alloc(), entries)?;
    for number in 0..1_000usize {
        assert_number(&rt, rt.alloc(), &table, number)?;
    }
    Ok(())
}

#[test]
fn of_equal_pairs_the_last_stays(rt: HostRuntime) -> Result<(), AllocError> {
    let mut entries = Vec::new(rt.alloc());
    for place in 0..100_000usize {
        enter(&mut entries, rt.alloc(), "a", "b", place)?;
    }
    let table = table_of(rt.alloc(), entries)?;
    same(&rt, count_of(&table), 1);
    let (value, probes) = table.get("a", "b");
    same(&rt, (value.copied(), probes), (Some(99_999), 1));
    same(&rt, table.find("a", "b").copied(), Some(99_999));
    Ok(())
}
