//! Tables in which the first entry under two texts counts.
ghost use Rattle.std.specs.Prelude.{◌≡◌, ◌++◌, ◌∷◌, [], reverse, IfOk, OnOk};
ghost use Rattle.ref_parts.specs.Table.{entries_of};

use ref_parts::SortedTable;
use std::alloc::{AllocError, Global};

/// The entries of a table: two texts, and a number.
pub(crate) type Entries = Vec<(String, String, usize)>;

/// Adds an entry.
pub(crate) fn push_entry(
    alloc: Global,
    list: &mut Entries,
    first: &str,
    second: &str,
    number: usize,
) -> Result<(), AllocError>
    ensures { OnOk result
        (entries_of list.new.items
        ≡ entries_of list.old.items ++ (first.now, second.now, number) ∷ []) }
{
    let first = String::from_str(alloc, first)?;
    let second = String::from_str(alloc, second)?;
    list.push((first, second, number))?;
    Ok(())
}

/// The table of entries, the last first, so that of several under the same texts the first counts.
pub(crate) fn turned_table(alloc: Global, list: Entries) -> Result<SortedTable<usize>, AllocError>
    ensures { IfOk result (λ table. table ≡ reverse (entries_of list.items)) }
{
    let mut list = list;
    list.reverse();
    let table = SortedTable::from_entries(alloc, list)?;
    Ok(table)
}
