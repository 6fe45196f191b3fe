//! Definitions that nothing uses.
ghost use Rattle.std.specs.Prelude.{◌≡◌, ◌++◌, ◌∷◌, [], map, filter, not, false, if◌then◌else◌, IfOk, OnOk, slice_index_or};
ghost use Rattle.ref_graphs.specs.Using.{numbers, AreUnused};
ghost use Rattle.ref_graphs.specs.Views.{step_of};
ghost use Rattle.ref_graphs.specs.inner.Using.{outward};

use crate::circles::Step;
use crate::reaching::reached;
use std::alloc::{AllocError, Global};

// Uses, and a step from each definition to the one that it is in.
fn with_outward(alloc: Global, around: &[usize], uses: &[Step]) -> Result<Vec<Step>, AllocError>
    ensures { IfOk result (λ steps.
        map step_of steps.items ≡ map step_of uses.now ++ outward around.now) }
{
    let mut steps = Vec::new(alloc);
    for step in uses {
        steps.push(*step)?;
    }
    for (number, outer) in around.iter().enumerate() {
        let from = number + 1;
        steps.push(Step { from, to: *outer })?;
    }
    Ok(steps)
}

// Adds the number of a definition that has no flag.
fn push_unless(list: &mut Vec<usize>, flags: &[bool], definition: usize) -> Result<(), AllocError>
    ensures { OnOk result
        (list.new.items
        ≡ list.old.items
        ++ (if slice_index_or flags.now definition false then [] else definition ∷ [])) }
{
    if !flags.get(definition).copied().unwrap_or(false) {
        list.push(definition)?;
    }
    Ok(())
}

// The numbers of so many definitions that have no flag.
fn without_flag(alloc: Global, around: &[usize], flags: &[bool]) -> Result<Vec<usize>, AllocError>
    ensures { IfOk result (λ list.
        list.items ≡ filter (λ d. not (slice_index_or flags.now d false)) (numbers around.now)) }
{
    let mut list = Vec::new(alloc);
    for number in 0..around.len() {
        push_unless(&mut list, flags, number + 1)?;
    }
    Ok(list)
}

/// The numbers of those definitions that nothing uses, in their order. Definitions have numbers from 1 on, and a list says the number of the one that each is in,
/// or 0. A use leads from the number of the innermost definition that it is in, or 0, to that of the innermost one that it leads to or into. A definition is used
/// where a use leads to it or into it that is in no definition, or in one that is used. A number that no definition has counts for nothing. Fails only if out of
/// memory. Linear in definitions and uses.
pub fn unused_definitions(
    alloc: Global,
    around: &[usize],
    uses: &[Step],
) -> Result<Vec<usize>, AllocError>
    ensures value { IfOk result (λ list.
        AreUnused around.now (map step_of uses.now) list.items) }
{
    let steps = with_outward(alloc, around, uses)?;
    let flags = reached(alloc, around.len() + 1, steps.as_slice())?;
    without_flag(alloc, around, flags.as_slice())
}
