//! The registries that are open.
ghost use Rattle.std.specs.Prelude.{◌≡◌, ◌<◌, ◌+◌, ◌^◌, ◌++◌, [], None, Some, Ok, IfSome, IfOk, OnOk, OnErr, option_map, length};
ghost use Rattle.ref_serve.specs.State as spec;

use ref_parts::list::List;
use ref_uri::Uri;
use referencing::Registry;
use std::alloc::{AllocError, Global};
use std::marker::Model;

/// An open registry. Contracts see its world and the numbers of its parents.
#[derive(Drop)]
pub struct Open {
    registry: Registry<'static>,
    // The numbers of its parents, nearest first.
    parents: Vec<usize>,
    // The same registry for the rest of the program, once it is a parent.
    lent: Option<&'static Registry<'static>>,
}

impl Model for Open {
    ghost use Rattle.std.specs.Prelude.{◌≡◌, ℕ, List, IfSome};
    ghost use Rattle.ref_definitions.specs.World.{Document as WorldDocument};
    ghost use Rattle.ref_serve.specs.Codes.{open_code};

    ghost Value = { List (List WorldDocument) × List ℕ };

    ghost coded = { open_code };

    ghost view = { λ o. (o.registry, o.parents.items) };

    ghost invariant = { λ o. IfSome o.lent (λ r. r.now ≡ o.registry) };
}

impl Open {
    /// A registry with the numbers of its parents.
    pub fn new(registry: Registry<'static>, parents: Vec<usize>) -> Open
        ensures value { result ≡ (registry.entry, parents.items) }
    {
        Open {
            registry,
            parents,
            lent: None,
        }
    }

    /// The registry.
    pub fn registry(&self) -> &Registry<'static>
        ensures value { result.now ≡ self.now.0 }
    {
        &self.registry
    }

    /// The numbers of its parents, nearest first.
    pub fn parents(&self) -> &[usize]
        ensures value { result.now ≡ self.now.1 }
    {
        self.parents.as_slice()
    }

    /// The registry, for the rest of the program: its documents, which are shared, aren't given back then. Takes memory for
    /// handles, the first time.
    pub fn lend(&mut self, alloc: Global) -> Result<&'static Registry<'static>, AllocError>
        ensures value { IfOk result (λ r. r.now ≡ self.old.0) }
        ensures same { self.new ≡ self.old }
    {
        lent_of(alloc, &self.registry, &mut self.lent)
    }
}

// The registry for the rest of the program: the one that was lent before, or else a copy of its handles, which is kept to
// be lent again. So no registry is lent twice.
fn lent_of(
    alloc: Global,
    registry: &Registry<'static>,
    lent: &mut Option<&'static Registry<'static>>,
) -> Result<&'static Registry<'static>, AllocError>
    requires { IfSome lent.old (λ r. r.now ≡ registry.now) }
    ensures value { IfOk result (λ r. r.now ≡ registry.now) }
    ensures again { IfSome lent.old (λ r. result ≡ Ok r) }
    ensures kept { IfOk result (λ r. lent.new ≡ Some r) }
    ensures refused { OnErr result (lent.new ≡ lent.old) }
{
    if let Some(before) = *lent {
        return Ok(before);
    }
    let copy = registry.clone()?;
    let made: &'static Registry<'static> = Box::leak(Box::new(alloc, copy)?);
    *lent = Some(made);
    Ok(made)
}

/// An open registry, and the dynamic scopes that are kept for it, by their numbers. Contracts see both.
#[derive(Drop)]
pub struct Slot {
    registry: Open,
    scopes: Vec<List<Uri>>,
}

impl Model for Slot {
    ghost use Rattle.std.specs.Prelude.{ℕ, List};
    ghost use Rattle.ref_definitions.specs.World.{Document as WorldDocument};
    ghost use Rattle.ref_serve.specs.Codes.{slot_code};

    ghost Value = { (List (List WorldDocument) × List ℕ) × List (List (List ℕ)) };

    ghost coded = { slot_code };

    ghost view = { λ s. (s.registry, s.scopes.items) };
}

impl Slot {
    /// A registry for which no scope is kept.
    pub fn new(alloc: Global, registry: Open) -> Slot
        ensures value { result ≡ (registry, []) }
    {
        Slot {
            registry,
            scopes: Vec::new(alloc),
        }
    }

    // The registry.
    fn open(&self) -> &Open
        ensures { result.now ≡ self.now.0 }
    {
        &self.registry
    }

    // The scopes that are kept for it.
    fn scopes(&self) -> &[List<Uri>]
        ensures { result.now ≡ self.now.1 }
    {
        self.scopes.as_slice()
    }

    // The registry, as `Open::lend` gives it.
    fn lend(&mut self, alloc: Global) -> Result<&'static Registry<'static>, AllocError>
        ensures value { IfOk result (λ r. r.now ≡ self.old.0.0) }
        ensures same { self.new ≡ self.old }
    {
        self.registry.lend(alloc)
    }

    // Keeps one scope more.
    fn keep(&mut self, uris: List<Uri>) -> Result<(), AllocError>
        ensures kept { OnOk result (self.new ≡ spec.with_kept uris self.old) }
        ensures refused { OnErr result (self.new ≡ self.old) }
    {
        self.scopes.push(uris)?;
        Ok(())
    }
}

// Keeps one scope more in the place of a registry, where it isn't closed.
fn keep_in(slot: &mut Option<Slot>, uris: List<Uri>) -> Result<(), AllocError>
    ensures kept { OnOk result (slot.new ≡ option_map (spec.with_kept uris) slot.old) }
    ensures refused { OnErr result (slot.new ≡ slot.old) }
{
    match slot {
        Some(slot) => slot.keep(uris),
        None => Ok(()),
    }
}

/// The registries by their numbers; in the place of a closed one there is none. Contracts see that list.
#[derive(Drop)]
pub struct State {
    slots: Vec<Option<Slot>>,
}

impl Model for State {
    ghost use Rattle.std.specs.Prelude.{ℕ, List, Option};
    ghost use Rattle.ref_definitions.specs.World.{Document as WorldDocument};
    ghost use Rattle.ref_serve.specs.Codes.{state_code};

    ghost Value = { List (Option ((List (List WorldDocument) × List ℕ) × List (List (List ℕ)))) };

    ghost coded = { state_code };

    ghost view = { λ s. s.slots.items };
}

impl State {
    /// No registry was opened.
    pub fn new(alloc: Global) -> State
        ensures empty { result ≡ [] }
    {
        State {
            slots: Vec::new(alloc),
        }
    }

    /// How many registries were opened.
    pub fn len(&self) -> usize
        ensures value { result ≡ length self.now }
        ensures within { length self.now + 1 < 2 ^ 64 }
    {
        self.slots.len()
    }

    /// The open registry with a number.
    pub fn open(&self, number: usize) -> Option<&Open>
        ensures value { option_map (λ o. o.now) result ≡ spec.open_at self.now number }
    {
        match self.slots.get(number) {
            Some(Some(slot)) => Some(slot.open()),
            _ => None,
        }
    }

    /// The dynamic scopes that are kept for the registry with a number.
    pub fn scopes(&self, number: usize) -> &[List<Uri>]
        ensures value { result.now ≡ spec.scopes_at self.now number }
    {
        match self.slots.get(number) {
            Some(Some(slot)) => slot.scopes(),
            _ => &[],
        }
    }

    /// The registry with a number, where it is open, for the rest of the program, as [`Open::lend`] gives it.
    pub fn lend(
        &mut self,
        alloc: Global,
        number: usize,
    ) -> Result<Option<&'static Registry<'static>>, AllocError>
        ensures value { IfOk result (λ lent. option_map (λ r. r.now) lent
            ≡ option_map (λ o. o.0) (spec.open_at self.old number)) }
        ensures same { self.new ≡ self.old }
    {
        if number >= self.slots.len() {
            return Ok(None);
        }
        match &mut self.slots[number] {
            Some(slot) => Ok(Some(slot.lend(alloc)?)),
            None => Ok(None),
        }
    }

    /// Gives registries the next numbers. Where there is no memory for that, nothing changes.
    pub fn add(&mut self, opened: Vec<Option<Slot>>) -> Result<(), AllocError>
        ensures added { OnOk result (self.new ≡ self.old ++ opened.items) }
        ensures refused { OnErr result (self.new ≡ self.old) }
    {
        let mut opened = opened;
        self.slots.append(&mut opened)
    }

    /// Keeps one scope more for the registry with a number, after the others. Where there is no memory for that, nothing changes.
    pub fn keep(&mut self, number: usize, uris: List<Uri>) -> Result<(), AllocError>
        ensures kept { OnOk result (self.new ≡ spec.with_scope self.old number uris) }
        ensures refused { OnErr result (self.new ≡ self.old) }
    {
        if number >= self.slots.len() {
            return Ok(());
        }
        keep_in(&mut self.slots[number], uris)
    }

    /// Closes the registry with a number, and gives back what is kept for it.
    pub fn close(&mut self, number: usize)
        ensures closed { self.new ≡ spec.without_registry self.old number }
    {
        if number < self.slots.len() {
            self.slots[number] = None;
        }
    }
}
