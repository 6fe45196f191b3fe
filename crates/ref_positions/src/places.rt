//! The paths that are asked for, as a tree in which paths share their beginnings.
ghost use Rattle.std.specs.Prelude.{◌≡◌, [], ◌∷◌, Some, None, ◌++◌, IfOk, OnOk, OnErr, IfSome, IfNone, IsTrue, ◌↔◌, ◌≢◌, ◌<◌, ◌≤◌, ℕ, List, string_bytes, get_or, take, length};
ghost use Rattle.std.specs.BTreeMap.{get_by_text};
ghost use Rattle.ref_positions.specs.Paths.{member, item, below, Path, number_of};
ghost use Rattle.ref_positions.specs.Paths.{Step as PathStep};
ghost use Rattle.ref_positions.specs.Places.{step_of, paths_from, indexed, IsIndexed, IsNew, IsEntry, IsTree, KeepsOthers};

use std::alloc::{AllocError, Global};
use std::collections::BTreeMap;
use std::marker::Model;

// A step from a value to one that is in it.
#[derive(Drop)]
enum Step {
    Member(String),
    Item(usize),
}

// The place that a place is below, and by which step. That of the whole value has neither.
#[derive(Drop)]
struct Entry {
    above: usize,
    step: Step,
}

// The numbers of places by where they are.
#[derive(Drop)]
struct Index {
    // Of each place, those below it by the keys of an object's members, as they read without escapes.
    members: Vec<BTreeMap<String, usize>>,
    // By the number of a place and an index, those below it in an array.
    items: BTreeMap<(usize, usize), usize>,
}

// Places by their numbers.
#[derive(Drop)]
struct Tree {
    entries: Vec<Entry>,
    index: Index,
}

/// The paths that are asked for. A place has a number, and 0 is the whole value.
#[derive(Drop)]
pub struct Places {
    alloc: Global,
    tree: Tree,
}

impl Model for Places {
    ghost use Rattle.std.specs.Prelude.{List, Option, []};
    ghost use Rattle.ref_positions.specs.Paths.{Path};

    ghost Value = { List (Option Path) };

    ghost use Rattle.ref_positions.specs.Places.{paths_from, IsIndexed};

    ghost view = { λ p. paths_from [] p.tree.entries.items };

    ghost invariant = { λ p. IsIndexed p.tree.entries.items p.tree.index };
}

impl Places {
    /// The whole value alone.
    pub fn new(alloc: Global) -> Result<Places, AllocError>
        ensures whole { IfOk result (λ places. places ≡ Some [] ∷ []) }
    {
        let mut entries = Vec::new(alloc);
        entries.push(Entry {
            above: 0,
            step: Step::Item(0),
        })?;
        let index = Index::new(alloc)?;
        Ok(Places {
            alloc,
            tree: Tree { entries, index },
        })
    }

    /// The number of the member of a place with a key. It costs a look-up, and two copies of the key where the place is new.
    pub fn member(&mut self, place: usize, key: &str) -> Result<usize, AllocError>
        ensures place { IfOk result (λ n. get_or self.new n None ≡ below self.old place (member key.now)) }
        ensures kept { take (length self.old) self.new ≡ self.old }
        ensures distinct { (i j : ℕ) (p : Path) → get_or self.new i None ≡ Some p → get_or self.new j None ≡ Some p → i ≡ j }
    {
        self.tree.member(self.alloc, place, key)
    }

    /// The number of the item of a place with an index. It costs a look-up.
    pub fn item(&mut self, place: usize, index: usize) -> Result<usize, AllocError>
        ensures place { IfOk result (λ n. get_or self.new n None ≡ below self.old place (item index)) }
        ensures kept { take (length self.old) self.new ≡ self.old }
        ensures distinct { (i j : ℕ) (p : Path) → get_or self.new i None ≡ Some p → get_or self.new j None ≡ Some p → i ≡ j }
    {
        self.tree.item(self.alloc, place, index)
    }

    pub(crate) fn find_member(&self, place: usize, key: &str) -> Option<usize>
        ensures value { (p : Path) → get_or self.now place None ≡ Some p → result ≡ number_of self.now (member key.now ∷ p) }
    {
        self.tree.find_member(place, key)
    }

    pub(crate) fn find_item(&self, place: usize, index: usize) -> Option<usize>
        ensures value { (p : Path) → get_or self.now place None ≡ Some p → result ≡ number_of self.now (item index ∷ p) }
    {
        self.tree.find_item(place, index)
    }

    // The place that a place is below.
    pub(crate) fn above(&self, number: usize) -> usize
        ensures above { (s : PathStep) (p : Path) → get_or self.now number None ≡ Some (s ∷ p) → (get_or self.now result None ≡ Some p) × (result < number) }
    {
        if number >= self.tree.entries.len() {
            return 0;
        }
        self.tree.entries[number].above
    }

    pub(crate) fn len(&self) -> usize
        ensures value { result ≡ length self.now }
        ensures tree { IsTree self.now }
    {
        self.tree.entries.len()
    }
}

impl Tree {
    fn member(&mut self, alloc: Global, place: usize, key: &str) -> Result<usize, AllocError>
        requires indexed { IsIndexed self.old.entries.items self.old.index }
        ensures place { IfOk result (λ n. get_or (paths_from [] self.new.entries.items) n None ≡ below (paths_from [] self.old.entries.items) place (member key.now)) }
        ensures kept { take (length (paths_from [] self.old.entries.items)) (paths_from [] self.new.entries.items) ≡ paths_from [] self.old.entries.items }
        ensures indexed { IsIndexed self.new.entries.items self.new.index }
    {
        if let Some(number) = self.find_member(place, key) {
            return Ok(number);
        }
        let own = String::from_str(alloc, key)?;
        let number = self.entries.len();
        self.index.add_member(alloc, place, key, number)?;
        self.push(place, Step::Member(own))
    }

    fn item(&mut self, alloc: Global, place: usize, index: usize) -> Result<usize, AllocError>
        requires indexed { IsIndexed self.old.entries.items self.old.index }
        ensures place { IfOk result (λ n. get_or (paths_from [] self.new.entries.items) n None ≡ below (paths_from [] self.old.entries.items) place (item index)) }
        ensures kept { take (length (paths_from [] self.old.entries.items)) (paths_from [] self.new.entries.items) ≡ paths_from [] self.old.entries.items }
        ensures indexed { IsIndexed self.new.entries.items self.new.index }
    {
        if let Some(number) = self.find_item(place, index) {
            return Ok(number);
        }
        let number = self.entries.len();
        self.index.add_item(alloc, place, index, number)?;
        self.push(place, Step::Item(index))
    }

    fn find_member(&self, place: usize, key: &str) -> Option<usize>
        requires indexed { IsIndexed self.now.entries.items self.now.index }
        ensures some { IfSome result (λ n. IsEntry self.now.entries.items n place (member key.now)) }
        ensures none { IfNone result (IsNew self.now.entries.items place (member key.now)) }
    {
        let number = self.index.member(place, key)?;
        if self.is_member(number, place, key) {
            Some(number)
        } else {
            None
        }
    }

    fn find_item(&self, place: usize, index: usize) -> Option<usize>
        requires indexed { IsIndexed self.now.entries.items self.now.index }
        ensures some { IfSome result (λ n. IsEntry self.now.entries.items n place (item index)) }
        ensures none { IfNone result (IsNew self.now.entries.items place (item index)) }
    {
        let number = self.index.item(place, index)?;
        if self.is_item(number, place, index) {
            Some(number)
        } else {
            None
        }
    }

    // Whether a number is that of the member of a place with a key.
    fn is_member(&self, number: usize, place: usize, key: &str) -> bool
        ensures place { IsTrue result ↔ IsEntry self.now.entries.items number place (member key.now) }
    {
        if number >= self.entries.len() || place >= number {
            return false;
        }
        let entry = &self.entries[number];
        entry.above == place && is_key(&entry.step, key)
    }

    fn is_item(&self, number: usize, place: usize, index: usize) -> bool
        ensures place { IsTrue result ↔ IsEntry self.now.entries.items number place (item index) }
    {
        if number >= self.entries.len() || place >= number {
            return false;
        }
        let entry = &self.entries[number];
        entry.above == place && is_index(&entry.step, index)
    }

    // Adds a place below another one.
    fn push(&mut self, above: usize, step: Step) -> Result<usize, AllocError>
        requires room { length self.old.entries.items < length self.old.index.members.items }
        requires indexed { IsIndexed self.old.entries.items self.old.index }
        requires is_new { IsNew self.old.entries.items above (step_of step) }
        requires found { above < length self.old.entries.items → indexed self.old.index above (step_of step) ≡ Some (length self.old.entries.items) }
        ensures place { IfOk result (λ n. get_or (paths_from [] self.new.entries.items) n None ≡ below (paths_from [] self.old.entries.items) above (step_of step)) }
        ensures kept { take (length (paths_from [] self.old.entries.items)) (paths_from [] self.new.entries.items) ≡ paths_from [] self.old.entries.items }
        ensures indexed { IsIndexed self.new.entries.items self.new.index }
    {
        let number = self.entries.len();
        self.entries.push(Entry { above, step })?;
        Ok(number)
    }
}

impl Index {
    fn new(alloc: Global) -> Result<Index, AllocError>
        ensures room { IfOk result (λ index. length index.members.items ≡ 1) }
    {
        let mut members = Vec::new(alloc);
        members.push(BTreeMap::new(alloc))?;
        Ok(Index {
            members,
            items: BTreeMap::new(alloc),
        })
    }

    fn member(&self, place: usize, key: &str) -> Option<usize>
        ensures value { result ≡ indexed self.now place (member key.now) }
    {
        self.members.get(place)?.get(key).copied()
    }

    fn item(&self, place: usize, index: usize) -> Option<usize>
        ensures value { result ≡ indexed self.now place (item index) }
    {
        self.items.get(&(place, index)).copied()
    }

    fn add_member(
        &mut self,
        alloc: Global,
        place: usize,
        key: &str,
        number: usize,
    ) -> Result<(), AllocError>
        ensures room { length self.old.members.items ≤ length self.new.members.items }
        ensures more { OnOk result (length self.old.members.items < length self.new.members.items) }
        ensures found { OnOk result (place < length self.old.members.items → indexed self.new place (member key.now) ≡ Some number) }
        ensures kept { KeepsOthers self.old self.new place (member key.now) }
    {
        self.members.push(BTreeMap::new(alloc))?;
        let key = String::from_str(alloc, key)?;
        match self.members.get_mut(place) {
            Some(members) => put(members, key, number),
            None => Ok(()),
        }
    }

    fn add_item(
        &mut self,
        alloc: Global,
        place: usize,
        index: usize,
        number: usize,
    ) -> Result<(), AllocError>
        ensures room { length self.old.members.items ≤ length self.new.members.items }
        ensures more { OnOk result (length self.old.members.items < length self.new.members.items) }
        ensures found { OnOk result (indexed self.new place (item index) ≡ Some number) }
        ensures kept { KeepsOthers self.old self.new place (item index) }
    {
        self.members.push(BTreeMap::new(alloc))?;
        self.items.insert((place, index), number)?;
        Ok(())
    }
}

fn put(members: &mut BTreeMap<String, usize>, key: String, number: usize) -> Result<(), AllocError>
    ensures found { OnOk result (get_by_text members.new (string_bytes key) ≡ Some number) }
    ensures kept { (other : List ℕ) → other ≢ string_bytes key → get_by_text members.new other ≡ get_by_text members.old other }
    ensures err { OnErr result ((other : List ℕ) → get_by_text members.new other ≡ get_by_text members.old other) }
{
    members.insert(key, number)?;
    Ok(())
}

fn is_key(step: &Step, key: &str) -> bool
    ensures key { IsTrue result ↔ step_of step.now ≡ member key.now }
{
    match step {
        Step::Member(own) => own.as_str() == key,
        Step::Item(_) => false,
    }
}

fn is_index(step: &Step, index: usize) -> bool
    ensures index { IsTrue result ↔ step_of step.now ≡ item index }
{
    match step {
        Step::Member(_) => false,
        Step::Item(own) => *own == index,
    }
}
