//! Names that differ by small letters and capitals alone.
ghost use Rattle.std.specs.Prelude.{◌≡◌, ◌++◌, ◌∷◌, [], List, ℕ, map, flat_map, string_bytes, IfOk, OnOk};
ghost use Rattle.std.specs.List.{enumerate_from};
ghost use Rattle.ref_parts.specs.Table.{entries_of};
ghost use Rattle.ref_rules.specs.Cases.{small, entry_of, entries, first_alike, alike_at, all_alike};
ghost use Rattle.ref_rules.specs.Views.{alike_of, name_of};

use crate::table::{Entries, push_entry, turned_table};
use ref_parts::SortedTable;
use std::alloc::{AllocError, Global};

/// A name.
#[derive(Clone, Copy)]
pub struct Name<'t> {
    /// Its text.
    pub text: &'t String,
}

/// A text that is wanted, and one that is there and has its letters, small or capital, by their numbers, counted from 0.
#[derive(Clone, Copy)]
pub struct Alike {
    /// The one that is wanted.
    pub wanted: usize,
    /// The one that is there.
    pub there: usize,
}

// A text in small letters.
fn small(alloc: Global, text: &str) -> Result<String, AllocError>
    ensures { IfOk result (λ t. string_bytes t ≡ small text.now) }
{
    text.to_ascii_lowercase(alloc)
}

// Adds the entry of a text.
fn push_text(
    alloc: Global,
    list: &mut Entries,
    number: usize,
    name: Name<'_>,
) -> Result<(), AllocError>
    ensures { OnOk result
        (entries_of list.new.items
        ≡ entries_of list.old.items ++ entry_of (number, name_of name.entry)) }
{
    let small = small(alloc, name.text.as_str())?;
    push_entry(alloc, list, small.as_str(), "", number)
}

// The entries of texts.
fn entries_in(alloc: Global, there: &[Name<'_>]) -> Result<Entries, AllocError>
    ensures { IfOk result
        (λ list. entries_of list.items
        ≡ flat_map entry_of (enumerate_from 0 (map name_of there.now))) }
{
    let mut list = Vec::new(alloc);
    for (number, text) in there.iter().enumerate() {
        push_text(alloc, &mut list, number, *text)?;
    }
    Ok(list)
}

// The texts under their small letters.
fn table_of(alloc: Global, there: &[Name<'_>]) -> Result<SortedTable<usize>, AllocError>
    ensures { IfOk result (λ table. table ≡ entries (map name_of there.now)) }
{
    let list = entries_in(alloc, there)?;
    turned_table(alloc, list)
}

// The first text with the letters of another one.
fn first_alike(
    alloc: Global,
    table: &SortedTable<usize>,
    name: Name<'_>,
) -> Result<Option<usize>, AllocError>
    ensures { (there : List (List ℕ)) → table.now ≡ entries there
        → IfOk result (λ first. first ≡ first_alike there (name_of name.entry)) }
{
    let small = small(alloc, name.text.as_str())?;
    let (first, _) = table.get(small.as_str(), "");
    Ok(first.copied())
}

// Adds a text that is wanted, where one with its letters is there.
fn push_alike(
    alloc: Global,
    table: &SortedTable<usize>,
    list: &mut Vec<Alike>,
    number: usize,
    name: Name<'_>,
) -> Result<(), AllocError>
    ensures { (there : List (List ℕ)) → table.now ≡ entries there
        → OnOk result (map alike_of list.new.items
        ≡ map alike_of list.old.items ++ alike_at there (number, name_of name.entry)) }
{
    if let Some(there) = first_alike(alloc, table, name)? {
        list.push(Alike {
            wanted: number,
            there,
        })?;
    }
    Ok(())
}

/// Of those texts that are wanted, in their order, which have the letters of one that is there, small or capital, and of which first. Fails only if
/// out of memory. It costs the sorting of a table.
pub fn all_alike(
    alloc: Global,
    wanted: &[Name<'_>],
    there: &[Name<'_>],
) -> Result<Vec<Alike>, AllocError>
    ensures value { IfOk result
        (λ list. map alike_of list.items
        ≡ all_alike (map name_of wanted.now) (map name_of there.now)) }
{
    let table = table_of(alloc, there)?;
    let mut list = Vec::new(alloc);
    for (number, text) in wanted.iter().enumerate() {
        push_alike(alloc, &table, &mut list, number, *text)?;
    }
    Ok(list)
}
