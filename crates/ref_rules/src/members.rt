//! Members of one name in an object of a text.
ghost use Rattle.std.specs.Prelude.{◌≡◌, ◌++◌, ◌∷◌, [], map, flat_map, reverse, decimal, string_bytes, IfOk, OnOk};
ghost use Rattle.std.specs.List.{enumerate_from};
ghost use Rattle.ref_parts.specs.Table.{entries_of};
ghost use Rattle.std.specs.Prelude.{List};
ghost use Rattle.ref_rules.specs.Members as spec;
ghost use Rattle.ref_rules.specs.Members.{entry_of, entries, first_like, repeat_at, repeats};
ghost use Rattle.ref_rules.specs.Views.{member_of, repeat_of};

use crate::table::{Entries, push_entry, turned_table};
use ref_parts::SortedTable;
use std::alloc::{AllocError, Global};

/// A member of an object of a text.
#[derive(Clone, Copy)]
pub struct Member<'t> {
    /// The number of its object, which no other object has.
    pub object: usize,
    /// Its name.
    pub name: &'t String,
}

/// A member whose name an earlier one of its object has, by the numbers of both, counted from 0.
#[derive(Clone, Copy)]
pub struct Repeat {
    /// The member.
    pub number: usize,
    /// The first one of its name.
    pub first: usize,
}

// The number of an object as a text.
fn number_text(alloc: Global, number: usize) -> Result<String, AllocError>
    ensures { IfOk result (λ text. string_bytes text ≡ decimal number) }
{
    format!(in alloc; "{number}")
}

// Adds the entry of a member.
fn push_member(
    alloc: Global,
    list: &mut Entries,
    number: usize,
    member: Member<'_>,
) -> Result<(), AllocError>
    ensures { OnOk result
        (entries_of list.new.items
        ≡ entries_of list.old.items ++ entry_of (number, member_of member.entry)) }
{
    let object = number_text(alloc, member.object)?;
    push_entry(alloc, list, object.as_str(), member.name.as_str(), number)
}

// The entries of members.
fn entries_in(alloc: Global, members: &[Member<'_>]) -> Result<Entries, AllocError>
    ensures { IfOk result
        (λ list. entries_of list.items
        ≡ flat_map entry_of (enumerate_from 0 (map member_of members.now))) }
{
    let mut list = Vec::new(alloc);
    for (number, member) in members.iter().enumerate() {
        push_member(alloc, &mut list, number, *member)?;
    }
    Ok(list)
}

// The members under their objects and their names.
fn table_of(alloc: Global, members: &[Member<'_>]) -> Result<SortedTable<usize>, AllocError>
    ensures { IfOk result (λ table. table ≡ entries (map member_of members.now)) }
{
    let list = entries_in(alloc, members)?;
    turned_table(alloc, list)
}

// The first member of a member's object that has its name.
fn first_like(
    alloc: Global,
    table: &SortedTable<usize>,
    member: Member<'_>,
) -> Result<Option<usize>, AllocError>
    ensures { (members : List spec.Member) → table.now ≡ entries members
        → IfOk result (λ first. first ≡ first_like members (member_of member.entry)) }
{
    let object = number_text(alloc, member.object)?;
    let (first, _) = table.get(object.as_str(), member.name.as_str());
    Ok(first.copied())
}

// Adds a member that isn't the first of its name.
fn push_repeat(
    alloc: Global,
    table: &SortedTable<usize>,
    list: &mut Vec<Repeat>,
    number: usize,
    member: Member<'_>,
) -> Result<(), AllocError>
    ensures { (members : List spec.Member) → table.now ≡ entries members
        → OnOk result (map repeat_of list.new.items
        ≡ map repeat_of list.old.items ++ repeat_at members (number, member_of member.entry)) }
{
    if let Some(first) = first_like(alloc, table, member)? {
        if first < number {
            list.push(Repeat { number, first })?;
        }
    }
    Ok(())
}

/// The members whose name an earlier member of their object has, in their order, each with the first one of that name (RFC 8259, 4). Fails only
/// if out of memory. It costs the sorting of a table.
pub fn repeats(alloc: Global, members: &[Member<'_>]) -> Result<Vec<Repeat>, AllocError>
    ensures value { IfOk result
        (λ list. map repeat_of list.items ≡ repeats (map member_of members.now)) }
{
    let table = table_of(alloc, members)?;
    let mut list = Vec::new(alloc);
    for (number, member) in members.iter().enumerate() {
        push_repeat(alloc, &table, &mut list, number, *member)?;
    }
    Ok(list)
}
