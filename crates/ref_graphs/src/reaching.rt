//! Places that steps lead to from the first one.
ghost use Rattle.std.specs.Prelude.{◌≡◌, ℕ, ◌<◌, ◌≤◌, ◌↔◌, List, length, map, true, false, None, Some, IfOk, OnOk, IsTrue, slice_set, slice_index_or, vec_len};
ghost use Rattle.ref_graphs.specs.Circles.{Step as SpecStep};
ghost use Rattle.ref_graphs.specs.Reaching.{IsReached};
ghost use Rattle.ref_graphs.specs.Views.{step_of};
ghost use Rattle.ref_graphs.specs.inner.Searching.{from_of, AreChains, IsSearch, left, with_waiting};

use crate::circles::Step;
use std::alloc::{AllocError, Global};

/// The steps by where they begin: of each place the number of the last one, and of each step the number of the one before it that begins where it does.
#[derive(Drop)]
pub(crate) struct Chains {
    /// Of each place.
    pub last: Vec<Option<usize>>,
    /// Of each step.
    pub before: Vec<Option<usize>>,
}

// A search for the places that are reached.
#[derive(Drop)]
struct Search {
    // A flag for each place that was reached.
    flags: Vec<bool>,
    // The places that were reached, but whose steps weren't passed yet.
    waiting: Vec<usize>,
}

/// The number at a place of a list, where there is one.
pub(crate) fn number_at(numbers: &[Option<usize>], place: usize) -> Option<usize>
    ensures { result ≡ slice_index_or numbers.now place None }
{
    numbers.get(place).copied().unwrap_or(None)
}

// Puts a number there, where the list is so long.
fn put(numbers: &mut Vec<Option<usize>>, place: usize, number: usize)
    ensures { numbers.new.items ≡ slice_set numbers.old.items place (Some number) }
{
    if let Some(slot) = numbers.get_mut(place) {
        *slot = Some(number);
    }
}

/// The chains of steps among so many places.
pub(crate) fn chains_of(alloc: Global, count: usize, steps: &[Step]) -> Result<Chains, AllocError>
    ensures { IfOk result (λ chains.
        AreChains (from_of (map step_of steps.now)) count (length steps.now) chains.last.items
        chains.before.items) }
{
    let mut last = vec![in alloc; None; count]?;
    let mut before = Vec::with_capacity(alloc, steps.len())?;
    for (number, step) in steps.iter().enumerate() {
        before.push(number_at(last.as_slice(), step.from))?;
        put(&mut last, step.from, number);
    }
    Ok(Chains { last, before })
}

fn search_of(alloc: Global, count: usize) -> Result<Search, AllocError>
    ensures { IfOk result (λ search.
        (steps : List SpecStep) → IsSearch count steps 0 0 search.flags.items search.waiting.items) }
{
    let mut search = Search {
        flags: vec![in alloc; false; count]?,
        waiting: Vec::new(alloc),
    };
    search.reach(0)?;
    Ok(search)
}

impl Search {
    // Reaches a place, unless it was reached before or there is no such place.
    fn reach(&mut self, place: usize) -> Result<(), AllocError>
        ensures flags { OnOk result
            (self.new.flags.items ≡ slice_set self.old.flags.items place true) }
        ensures waiting { OnOk result
            (self.new.waiting.items
            ≡ with_waiting self.old.flags.items self.old.waiting.items place) }
    {
        let Some(flag) = self.flags.get_mut(place) else {
            return Ok(());
        };
        if !*flag {
            *flag = true;
            self.waiting.push(place)?;
        }
        Ok(())
    }

    // Reaches the places that the steps of a place lead to.
    fn pass(&mut self, steps: &[Step], chains: &Chains, place: usize) -> Result<(), AllocError>
        requires chains { AreChains (from_of (map step_of steps.now)) (vec_len self.old.flags)
            (length steps.now) chains.now.last.items chains.now.before.items }
        requires search { IsSearch (vec_len self.old.flags) (map step_of steps.now) place
            (length steps.now) self.old.flags.items self.old.waiting.items }
        requires flag { slice_index_or self.old.flags.items place false ≡ true }
        ensures search { OnOk result
            (IsSearch (vec_len self.old.flags) (map step_of steps.now) 0 0 self.new.flags.items
            self.new.waiting.items) }
        ensures left { OnOk result
            (left self.new.flags.items self.new.waiting.items
            ≤ left self.old.flags.items self.old.waiting.items) }
    {
        let mut next = number_at(chains.last.as_slice(), place);
        while let Some(number) = next {
            self.reach(steps[number].to)?;
            next = number_at(chains.before.as_slice(), number);
        }
        Ok(())
    }
}

/// Which of so many places are reached from the first one, of number 0, by steps: that one itself, and each to which a step leads from one that is reached. A
/// step that begins or ends at no place counts for nothing. A flag for each place; none where there is no place. Fails only if out of memory. Linear in
/// places and steps; it doesn't call itself.
pub(crate) fn reached(alloc: Global, count: usize, steps: &[Step]) -> Result<Vec<bool>, AllocError>
    ensures places { IfOk result (λ flags. vec_len flags ≡ count) }
    ensures value { IfOk result (λ flags.
        (place : ℕ) → place < count
        → (IsTrue (slice_index_or flags.items place false)
        ↔ IsReached count (map step_of steps.now) place)) }
{
    let chains = chains_of(alloc, count, steps)?;
    let mut search = search_of(alloc, count)?;
    while let Some(place) = search.waiting.pop() {
        search.pass(steps, &chains, place)?;
    }
    Ok(search.flags)
}
