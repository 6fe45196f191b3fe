//! Steps from place to place that come back to where they began.
ghost use Rattle.std.specs.Prelude.{◌≡◌, ℕ, ◌+◌, ◌<◌, ◌≤◌, ◌∷◌, ◌++◌, [], length, map, IfOk, OnOk, slice_get, slice_set, vec_len};
ghost use Rattle.ref_graphs.specs.Closing.{AreClosed, AreAll, AreApart, AreShown};
ghost use Rattle.ref_graphs.specs.Views.{step_of, circle_of};
ghost use Rattle.ref_graphs.specs.declared.circles.State.TheVariants.{New, Open};
ghost use Rattle.ref_graphs.specs.inner.Searching.{from_of, AreChains};
ghost use Rattle.ref_graphs.specs.inner.Circling.{state_at, entered, way, IsGiven, trace_of, Closes, Passes, IsStack, Holds, Kept, measure};

use crate::reaching::{Chains, chains_of, number_at};
use std::alloc::{AllocError, Global};

/// A step from a place to another one, by the numbers of both.
#[derive(Clone, Copy)]
pub struct Step {
    /// Where it begins.
    pub from: usize,
    /// Where it ends.
    pub to: usize,
}

/// A circle of steps, by their numbers, counted from 0.
#[derive(Drop)]
pub struct Circle {
    /// The step that closes it, and no other one.
    pub closing: usize,
    /// How many steps it has.
    pub size: usize,
    /// Its steps, the one that closes it last; none where too many would be given.
    pub steps: Vec<usize>,
}

// What is known of a place in a search.
#[derive(Clone, Copy, PartialEq, Eq)]
enum State {
    New,
    // It is open, with this number among those that are.
    Open(usize),
    Done,
}

// A place that is open: the next of its steps, and the step that led to it.
#[derive(Clone, Copy, Drop)]
struct Opened {
    place: usize,
    next: Option<usize>,
    by: usize,
}

// A search through steps, which is deep before it is wide.
#[derive(Drop)]
struct Search {
    states: Vec<State>,
    // The places that are open, each after the one whose step leads to it.
    stack: Vec<Opened>,
    // How many steps were passed, and how many there are in the circles that were found, since the first of these was opened.
    passed: usize,
    given: usize,
}

// Puts the state of a place, where there is one.
fn set(states: &mut Vec<State>, place: usize, state: State)
    ensures { states.new.items ≡ slice_set states.old.items place state }
{
    if let Some(slot) = states.get_mut(place) {
        *slot = state;
    }
}

impl Search {
    fn state(&self, place: usize) -> State
        ensures { result ≡ state_at self.now.states.items place }
    {
        self.states.get(place).copied().unwrap_or(State::Done)
    }

    // Opens a place, to which a step leads.
    fn enter(&mut self, chains: &Chains, place: usize, by: usize) -> Result<(), AllocError>
        ensures states { OnOk result
            (self.new.states.items
            ≡ slice_set self.old.states.items place (Open (length self.old.stack.items))) }
        ensures opened { OnOk result
            (self.new.stack.items
            ≡ self.old.stack.items ++ entered chains.now.last.items place by ∷ []) }
        ensures given { OnOk result (self.new.given ≡ self.old.given) }
    {
        let number = self.stack.len();
        let next = number_at(chains.last.as_slice(), place);
        self.stack.push(Opened { place, next, by })?;
        set(&mut self.states, place, State::Open(number));
        Ok(())
    }

    // The steps from an open place on, and one that comes back to it.
    fn circle(&self, alloc: Global, depth: usize, number: usize) -> Result<Vec<usize>, AllocError>
        ensures { IfOk result
            (λ numbers. numbers.items ≡ way self.now.stack.items depth ++ number ∷ []) }
    {
        let mut numbers = Vec::new(alloc);
        for opened in self.stack.get(depth.saturating_add(1)..).unwrap_or(&[]) {
            numbers.push(opened.by)?;
        }
        numbers.push(number)?;
        Ok(numbers)
    }

    // The steps of a circle that has so many, or none where those that were given since the first place was opened would be too many.
    fn given(
        &mut self,
        alloc: Global,
        depth: usize,
        number: usize,
        size: usize,
    ) -> Result<Vec<usize>, AllocError>
        ensures states { self.new.states ≡ self.old.states }
        ensures opened { self.new.stack ≡ self.old.stack }
        ensures given { self.new.given ≤ self.old.given + size }
        ensures steps { IfOk result
            (λ numbers. IsGiven self.old.stack.items depth number self.old.given size numbers.items) }
    {
        let most = self.passed.saturating_mul(16).saturating_add(65_536);
        let given = self.given.saturating_add(size);
        if given > most {
            return Ok(Vec::new(alloc));
        }
        self.given = given;
        self.circle(alloc, depth, number)
    }

    // Adds the circle that a step closes, which comes back to an open place.
    fn close(
        &mut self,
        alloc: Global,
        depth: usize,
        number: usize,
        list: &mut Vec<Circle>,
    ) -> Result<(), AllocError>
        ensures states { self.new.states ≡ self.old.states }
        ensures opened { self.new.stack ≡ self.old.stack }
        ensures closes { OnOk result
            (Closes depth number (trace_of self.old list.old.items) (trace_of self.new list.new.items)) }
    {
        let size = self.stack.len().saturating_sub(depth);
        let steps = self.given(alloc, depth, number, size)?;
        list.push(Circle {
            closing: number,
            size,
            steps,
        })?;
        Ok(())
    }

    // Passes a step of the place that was opened last.
    fn pass(
        &mut self,
        alloc: Global,
        steps: &[Step],
        chains: &Chains,
        number: usize,
        list: &mut Vec<Circle>,
    ) -> Result<(), AllocError>
        ensures passes { OnOk result
            (Passes chains.now.last.items number (slice_get (map step_of steps.now) number)
            (trace_of self.old list.old.items) (trace_of self.new list.new.items)) }
    {
        let Some(step) = steps.get(number) else {
            return Ok(());
        };
        self.passed = self.passed.saturating_add(1);
        match self.state(step.to) {
            State::New => self.enter(chains, step.to, number)?,
            State::Open(depth) => self.close(alloc, depth, number, list)?,
            State::Done => {}
        }
        Ok(())
    }

    // Passes the next step of the place that was opened last, or leaves it, where it has no more.
    fn go_on(
        &mut self,
        alloc: Global,
        steps: &[Step],
        chains: &Chains,
        list: &mut Vec<Circle>,
    ) -> Result<(), AllocError>
        requires chains { AreChains (from_of (map step_of steps.now)) (vec_len self.old.states)
            (length steps.now) chains.now.last.items chains.now.before.items }
        requires stack { IsStack (vec_len self.old.states) (map step_of steps.now)
            (trace_of self.old list.old.items) }
        ensures stack { OnOk result
            (IsStack (vec_len self.old.states) (map step_of steps.now)
            (trace_of self.new list.new.items)) }
        ensures smaller { OnOk result
            (0 < vec_len self.old.stack → measure (length steps.now) (trace_of self.new list.new.items)
            < measure (length steps.now) (trace_of self.old list.old.items)) }
        ensures holds { OnOk result
            (Holds (vec_len self.old.states) (map step_of steps.now)
            (trace_of self.old list.old.items)
            → Holds (vec_len self.old.states) (map step_of steps.now)
            (trace_of self.new list.new.items)) }
        ensures kept { OnOk result (Kept (trace_of self.old list.old.items) (trace_of self.new list.new.items)) }
    {
        let Some(last) = self.stack.pop() else {
            return Ok(());
        };
        match last.next {
            Some(number) => {
                let next = number_at(chains.before.as_slice(), number);
                self.stack.push(Opened { next, ..last })?;
                self.pass(alloc, steps, chains, number, list)?;
            }
            None => set(&mut self.states, last.place, State::Done),
        }
        Ok(())
    }

    // Goes on from the places that are open, until none is.
    fn search_on(
        &mut self,
        alloc: Global,
        steps: &[Step],
        chains: &Chains,
        list: &mut Vec<Circle>,
    ) -> Result<(), AllocError>
        requires chains { AreChains (from_of (map step_of steps.now)) (vec_len self.old.states)
            (length steps.now) chains.now.last.items chains.now.before.items }
        requires stack { IsStack (vec_len self.old.states) (map step_of steps.now)
            (trace_of self.old list.old.items) }
        ensures stack { OnOk result
            (IsStack (vec_len self.old.states) (map step_of steps.now)
            (trace_of self.new list.new.items)) }
        ensures none { OnOk result (self.new.stack.items ≡ []) }
        ensures holds { OnOk result
            (Holds (vec_len self.old.states) (map step_of steps.now)
            (trace_of self.old list.old.items)
            → Holds (vec_len self.old.states) (map step_of steps.now)
            (trace_of self.new list.new.items)) }
        ensures kept { OnOk result (Kept (trace_of self.old list.old.items) (trace_of self.new list.new.items)) }
    {
        while !self.stack.is_empty() {
            self.go_on(alloc, steps, chains, list)?;
        }
        Ok(())
    }

    // Searches from a place, unless it was met.
    fn search_from(
        &mut self,
        alloc: Global,
        steps: &[Step],
        chains: &Chains,
        place: usize,
        list: &mut Vec<Circle>,
    ) -> Result<(), AllocError>
        requires chains { AreChains (from_of (map step_of steps.now)) (vec_len self.old.states)
            (length steps.now) chains.now.last.items chains.now.before.items }
        requires stack { IsStack (vec_len self.old.states) (map step_of steps.now)
            (trace_of self.old list.old.items) }
        requires none { self.old.stack.items ≡ [] }
        ensures stack { OnOk result
            (IsStack (vec_len self.old.states) (map step_of steps.now)
            (trace_of self.new list.new.items)) }
        ensures none { OnOk result (self.new.stack.items ≡ []) }
        ensures holds { OnOk result
            (Holds (vec_len self.old.states) (map step_of steps.now)
            (trace_of self.old list.old.items)
            → Holds (vec_len self.old.states) (map step_of steps.now)
            (trace_of self.new list.new.items)) }
        ensures kept { OnOk result (Kept (trace_of self.old list.old.items) (trace_of self.new list.new.items)) }
        ensures met { OnOk result (state_at self.new.states.items place ≡ New → ⊥) }
    {
        let State::New = self.state(place) else {
            return Ok(());
        };
        self.passed = 0;
        self.given = 0;
        self.enter(chains, place, 0)?;
        self.search_on(alloc, steps, chains, list)?;
        Ok(())
    }
}

/// The circles of steps among so many places: one for each step that comes back to a place from which it was reached, in a search that goes deep first, from each
/// place that wasn't met before, in their order. Without the steps that close them there is none. Where those that are found from one place on have more steps in
/// all than sixteen times those that were passed, and 65,536, further ones come without their steps. So what is given of places that steps connect depends on no
/// others. Fails only if out of memory. Linear in places and steps; it doesn't call itself.
pub fn circles_of(alloc: Global, count: usize, steps: &[Step]) -> Result<Vec<Circle>, AllocError>
    ensures closed { IfOk result
        (λ list. AreClosed count (map step_of steps.now) (map circle_of list.items)) }
    ensures all { IfOk result
        (λ list. AreAll count (map step_of steps.now) (map circle_of list.items)) }
    ensures apart { IfOk result (λ list. AreApart (map circle_of list.items)) }
    ensures shown { IfOk result (λ list. AreShown (map circle_of list.items)) }
{
    let chains = chains_of(alloc, count, steps)?;
    let mut search = Search {
        states: vec![in alloc; State::New; count]?,
        stack: Vec::new(alloc),
        passed: 0,
        given: 0,
    };
    let mut list = Vec::new(alloc);
    for place in 0..count {
        search.search_from(alloc, steps, &chains, place, &mut list)?;
    }
    Ok(list)
}
