//! Which documents are needed.
ghost use Rattle.std.specs.Prelude.{◌≡◌, ℕ, [], ◌++◌, map, flat_map, length, false, IfOk, OnOk};
ghost use Rattle.std.specs.Option.{option_to_list};
ghost use Rattle.ref_definitions.specs.World.{Layer};
ghost use Rattle.ref_bundle.specs.Needed.{document_under, targets_from, counted_documents, referred_by_seen, referred_of};
ghost use Rattle.ref_bundle.specs.inner.Seen.{layer_in, numbered_document, HasPlaces, AreOwn};
ghost use Rattle.ref_bundle.specs.Saying.{seen_spot, further_of};
ghost use Rattle.ref_bundle.specs.inner.Tables.{AreTables};
ghost use Rattle.ref_bundle.specs.inner.Reach.{state, is_marked, added_document, all_added, list_at, IsReach};

use crate::own::{Own, Spot};
use crate::tables::Bearers;
use crate::uris::{Reference, references};
use std::alloc::{AllocError, Global};

// Adds the documents that references mean.
fn push_meant(
    numbers: &mut Vec<usize>,
    bearers: &Bearers<'_, '_>,
    references: &[Reference<'_>],
) -> Result<(), AllocError>
    ensures { (layer : Layer) → AreTables layer bearers.now
        → OnOk result (numbers.new.items ≡ numbers.old.items
        ++ flat_map (λ uri. option_to_list (document_under layer uri))
        (map (λ r. r.uri.value) references.now)) }
{
    for reference in references {
        if let Some(number) = bearers.document_under(reference.uri.as_str()) {
            numbers.push(number)?;
        }
    }
    Ok(())
}

// The documents that places refer to.
fn referred(
    alloc: Global,
    bearers: &Bearers<'_, '_>,
    places: &[Spot<'_>],
) -> Result<Vec<usize>, AllocError>
    ensures { (layer : Layer) → AreTables layer bearers.now
        → IfOk result
        (λ numbers. numbers.items ≡ referred_by_seen layer (map seen_spot places.now)) }
{
    let mut numbers = Vec::new(alloc);
    for spot in places {
        let references = references(alloc, spot)?;
        push_meant(&mut numbers, bearers, references.as_slice())?;
    }
    Ok(numbers)
}

// The documents that a document refers to, by its places and by further ones.
fn referred_of(
    alloc: Global,
    bearers: &Bearers<'_, '_>,
    own: &Own<'_>,
    further: &[Vec<Spot<'_>>],
) -> Result<Vec<usize>, AllocError>
    requires { HasPlaces own.now }
    ensures { (layer : Layer) → AreTables layer bearers.now
        → IfOk result
        (λ numbers. numbers.items
        ≡ referred_of layer (further_of further.now) (numbered_document own.now)) }
{
    let mut numbers = referred(alloc, bearers, own.places.as_slice())?;
    let Some(spots) = further.get(own.number) else {
        return Ok(numbers);
    };
    let mut more = referred(alloc, bearers, spots.as_slice())?;
    numbers.append(&mut more)?;
    Ok(numbers)
}

/// The documents that each document refers to.
pub(crate) fn all_referred(
    alloc: Global,
    bearers: &Bearers<'_, '_>,
    owns: &[Own<'_>],
    further: &[Vec<Spot<'_>>],
) -> Result<Vec<Vec<usize>>, AllocError>
    requires own { AreOwn owns.now }
    requires tables { AreTables (layer_in owns.now) bearers.now }
    ensures value { IfOk result
        (λ lists. map (λ l. l.items) lists.items
        ≡ map (referred_of (layer_in owns.now) (further_of further.now))
        (counted_documents 0 (layer_in owns.now))) }
{
    let mut lists = Vec::with_capacity(alloc, owns.len())?;
    for own in owns {
        lists.push(referred_of(alloc, bearers, own, further)?)?;
    }
    Ok(lists)
}

// Which numbers are reached, and those reached in the order in which they were.
#[derive(Drop)]
struct Reached {
    marks: Vec<bool>,
    queue: Vec<usize>,
}

impl Reached {
    // Nothing is reached, of so many numbers.
    fn new(alloc: Global, count: usize) -> Result<Reached, AllocError>
        ensures long { IfOk result (λ r. length r.marks.items ≡ count) }
        ensures none { IfOk result (λ r. (n : ℕ) → is_marked r.marks.items n ≡ false) }
        ensures empty { IfOk result (λ r. r.queue.items ≡ []) }
    {
        let mut marks = Vec::with_capacity(alloc, count)?;
        for number in 0..count {
            let _ = number;
            marks.push(false)?;
        }
        Ok(Reached {
            marks,
            queue: Vec::new(alloc),
        })
    }

    // Adds a number, where it wasn't reached before.
    fn add(&mut self, number: usize) -> Result<(), AllocError>
        ensures { OnOk result (state self.new ≡ added_document (state self.old) number) }
    {
        if let Some(false) = self.marks.get(number) {
            self.marks[number] = true;
            self.queue.push(number)?;
        }
        Ok(())
    }

    // Adds numbers.
    fn add_all(&mut self, numbers: &[usize]) -> Result<(), AllocError>
        ensures { OnOk result (state self.new ≡ all_added (state self.old) numbers.now) }
    {
        for number in numbers {
            self.add(*number)?;
        }
        Ok(())
    }

    // Adds the numbers that the list of a number has.
    fn follow(&mut self, lists: &[Vec<usize>], number: usize) -> Result<(), AllocError>
        ensures { OnOk result
            (state self.new
            ≡ all_added (state self.old) (list_at (map (λ l. l.items) lists.now) number)) }
    {
        match lists.get(number) {
            Some(list) => self.add_all(list.as_slice()),
            None => Ok(()),
        }
    }
}

/// Which numbers are reached from a root by lists of numbers: each number is queued once, and its list gone through once.
pub(crate) fn reach(
    alloc: Global,
    lists: &[Vec<usize>],
    root: usize,
) -> Result<Vec<bool>, AllocError>
    ensures value { IfOk result (λ marks. IsReach (map (λ l. l.items) lists.now) root marks.items) }
{
    let mut reached = Reached::new(alloc, lists.len())?;
    reached.add(root)?;
    let mut head = 0;
    while head < reached.queue.len() {
        let number = reached.queue[head];
        reached.follow(lists, number)?;
        head += 1;
    }
    Ok(reached.marks)
}
