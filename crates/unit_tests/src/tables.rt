//! The rows of all tables, and how a row is asked, by its table.

use crate::asserts::same;
use crate::row::{Row, for_each_row};
use crate::{
    children, drafts, lists, long_texts, map_defaults, maps, patterns, reading, sorted_tables,
    texts, uris,
};
use ref_parts::SmallMap;
use std::alloc::{AllocError, Global};
use std::process::Abort;
use std::test::Fail;

/// The texts that have rows.
const TEXTS: [&str; 10] = [
    uris::ROWS,
    texts::ROWS,
    long_texts::ROWS,
    lists::ROWS,
    maps::ROWS,
    sorted_tables::ROWS,
    drafts::ROWS,
    children::ROWS,
    reading::ROWS,
    patterns::ROWS,
];

#[test]
fn rows_hold(rt: HostRuntime) -> Result<(), Fail> {
    let mut count = 0usize;
    for rows in TEXTS {
        count = count.saturating_add(for_each_row(&rt, rt.alloc(), rows)?);
    }
    same(&rt, count, 560);
    Ok(())
}

/// Asks a row. Ends the test where an answer is another.
pub fn ask<R: Abort>(rt: &R, alloc: Global, row: &Row<'_>) -> Result<(), Fail> {
    match row.table() {
        "components" => uris::components(rt, row),
        "URIs" => uris::uris(rt, alloc, row),
        "fragments" => uris::fragments(rt, alloc, row),
        "targets" => uris::leads(rt, uris::target(alloc, row.text(0), row.text(1)), row),
        "normal forms" => uris::normal_forms(rt, alloc, row),
        "meanings" => uris::meanings(rt, alloc, row),
        "meanings against bases" => uris::leads(
            rt,
            uris::meaning(alloc, row.text(0), row.text(1)),
            row,
        ),
        "repeated references" | "repeated texts" => long_texts::repeated(rt, alloc, row),
        "names of each length" => long_texts::names(rt, alloc, row),
        _ => Ok(ask_with_memory(rt, alloc, row)?),
    }
}

/// Of the tables whose rows have an answer wherever there is memory.
fn ask_with_memory<R: Abort>(rt: &R, alloc: Global, row: &Row<'_>) -> Result<(), AllocError> {
    match row.table() {
        "parsed URIs" | "faults" | "faults against bases" | "references without a target" => {
            uris::assert_row(rt, alloc, row)
        }
        "places" => long_texts::places(rt, alloc, row),
        "short texts" => long_texts::short_texts(rt, alloc, row),
        "tokens" => texts::tokens(rt, alloc, row),
        "keys" => texts::keys(rt, alloc, row),
        "pointers" => texts::pointers(rt, alloc, row),
        "buffers" => texts::buffers(rt, alloc, row),
        "tables" => sorted_tables::tables(rt, alloc, row),
        "lists" => lists::lists(rt, alloc, row),
        "equal lists" => lists::equal_lists(rt, alloc, row),
        _ => ask_of_maps(rt, alloc, row),
    }
}

fn ask_of_maps<R: Abort>(rt: &R, alloc: Global, row: &Row<'_>) -> Result<(), AllocError> {
    match row.table() {
        "maps of texts" => maps::maps_of_texts(rt, alloc, row),
        "maps with two slots" => maps::with_slots(
            rt,
            alloc,
            SmallMap::<usize, usize, 2>::new(),
            row,
        ),
        "maps without slots" => maps::with_slots(
            rt,
            alloc,
            SmallMap::<usize, usize, 0>::new(),
            row,
        ),
        "copies" => maps::copies(rt, alloc, row),
        "copies of texts" => maps::copies_of_texts(rt, alloc, row),
        "defaults" => map_defaults::defaults(rt, alloc, row),
        _ => ask_of_drafts(rt, alloc, row),
    }
}

fn ask_of_drafts<R: Abort>(rt: &R, alloc: Global, row: &Row<'_>) -> Result<(), AllocError> {
    match row.table() {
        "children" => children::children(rt, alloc, row),
        "paths of children" => children::paths(rt, alloc, row),
        "scans" => reading::scans(rt, alloc, row),
        "resources" => reading::resources(rt, row),
        "patterns" => patterns::patterns(rt, alloc, row),
        "ignored paths" => patterns::ignored_paths(rt, alloc, row),
        _ => {
            ask_without_memory(rt, row);
            Ok(())
        }
    }
}

/// Of the tables whose rows take no memory.
fn ask_without_memory<R: Abort>(rt: &R, row: &Row<'_>) {
    match row.table() {
        "references" => uris::references(rt, row),
        "indexes" => texts::indexes(rt, row),
        "first escapes" => texts::first_escapes(rt, row),
        "detected drafts" => drafts::detected(rt, row),
        "keywords" => drafts::keywords(rt, row),
        "identifiers" => drafts::identifiers(rt, row),
        "known keywords" => drafts::known(rt, row),
        "anchors" => reading::anchors(rt, row),
        "wild texts" => patterns::wild_texts(rt, row),
        table => row.same(rt, table, "no such table"),
    }
}
