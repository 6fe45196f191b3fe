//! References that come back to where they began.
ghost use Rattle.std.specs.Prelude.{◌≡◌, ◌∷◌, ◌++◌, [], map, IfOk, OnOk};
ghost use Rattle.ref_graphs.specs.Rounds.{AreClosed, AreAll, AreShown};
ghost use Rattle.ref_graphs.specs.Views.{step_of, circle_of, lead_of, round_of};
ghost use Rattle.ref_graphs.specs.inner.Rounds.{steps_at, numbers_at, by_of, round_at};
ghost use Rattle.ref_graphs.specs.inner.Rounds as spec;

use crate::circles::{Circle, Step, circles_of};
use std::alloc::{AllocError, Global};

/// A reference.
#[derive(Drop)]
pub struct Lead {
    /// The places from which the same value comes to it.
    pub fronts: Vec<usize>,
    /// The place that it leads to.
    pub to: usize,
}

/// References that lead from a place back to it, by their numbers, counted from 0.
#[derive(Drop)]
pub struct Round {
    /// The one that closes it.
    pub closing: usize,
    /// How many it has.
    pub size: usize,
    /// Its references, the one that closes it last; none where too many would be given.
    pub leads: Vec<usize>,
}

// The steps of references, and of each the number of its reference.
#[derive(Drop)]
struct Steps {
    list: Vec<Step>,
    by: Vec<usize>,
}

// Adds the steps of a reference.
fn push_lead(steps: &mut Steps, number: usize, lead: &Lead) -> Result<(), AllocError>
    ensures list { OnOk result
        (map step_of steps.new.list.items
        ≡ map step_of steps.old.list.items ++ steps_at (lead_of lead.now)) }
    ensures by { OnOk result
        (steps.new.by.items ≡ steps.old.by.items ++ numbers_at number (lead_of lead.now)) }
{
    let fronts = lead.fronts.as_slice();
    for front in fronts {
        steps.list.push(Step {
            from: *front,
            to: lead.to,
        })?;
        steps.by.push(number)?;
    }
    Ok(())
}

// The steps of references.
fn steps_of(alloc: Global, leads: &[Lead]) -> Result<Steps, AllocError>
    ensures list { IfOk result
        (λ steps. map step_of steps.list.items ≡ spec.steps_of (map lead_of leads.now)) }
    ensures by { IfOk result
        (λ steps. steps.by.items ≡ spec.numbers_from 0 (map lead_of leads.now)) }
{
    let mut steps = Steps {
        list: Vec::new(alloc),
        by: Vec::new(alloc),
    };
    for (number, lead) in leads.iter().enumerate() {
        push_lead(&mut steps, number, lead)?;
    }
    Ok(steps)
}

// The number of the reference of a step.
fn lead_at(by: &[usize], step: usize) -> usize
    ensures { result ≡ by_of by.now step }
{
    by.get(step).copied().unwrap_or(0)
}

// The numbers of the references of steps.
fn leads_at(alloc: Global, by: &[usize], steps: &[usize]) -> Result<Vec<usize>, AllocError>
    ensures { IfOk result (λ list. list.items ≡ map (by_of by.now) steps.now) }
{
    let mut list = Vec::new(alloc);
    for step in steps {
        list.push(lead_at(by, *step))?;
    }
    Ok(list)
}

// Adds a circle of steps as one of references.
fn push_round(
    alloc: Global,
    list: &mut Vec<Round>,
    by: &[usize],
    circle: &Circle,
) -> Result<(), AllocError>
    ensures { OnOk result
        (map round_of list.new.items
        ≡ map round_of list.old.items ++ round_at by.now (circle_of circle.now) ∷ []) }
{
    let leads = leads_at(alloc, by, circle.steps.as_slice())?;
    list.push(Round {
        closing: lead_at(by, circle.closing),
        size: circle.size,
        leads,
    })?;
    Ok(())
}

// Circles of steps as ones of references.
fn rounds_at(alloc: Global, by: &[usize], circles: &[Circle]) -> Result<Vec<Round>, AllocError>
    ensures { IfOk result (λ list.
        map round_of list.items ≡ map (round_at by.now) (map circle_of circles.now)) }
{
    let mut list = Vec::new(alloc);
    for circle in circles {
        push_round(alloc, &mut list, by, circle)?;
    }
    Ok(list)
}

/// Rounds of references: each leads to a place from which the same value comes to the next one, and the last one to where it comes to the first. Places have
/// numbers below `count`; a reference that leads to no place, and one to which the value comes from none, counts for nothing. Without the references that close
/// these rounds there is none; one may close several. Those of the circles of steps from place to place, as `circles_of` gives them, in their order. Fails only
/// if out of memory. Linear in the places from which the value comes to references.
pub fn rounds_of(alloc: Global, count: usize, leads: &[Lead]) -> Result<Vec<Round>, AllocError>
    ensures closed { IfOk result
        (λ list. AreClosed count (map lead_of leads.now) (map round_of list.items)) }
    ensures all { IfOk result
        (λ list. AreAll count (map lead_of leads.now) (map round_of list.items)) }
    ensures shown { IfOk result (λ list. AreShown (map round_of list.items)) }
{
    let steps = steps_of(alloc, leads)?;
    let circles = circles_of(alloc, count, steps.list.as_slice())?;
    rounds_at(alloc, steps.by.as_slice(), circles.as_slice())
}
