//! The events of a text with what its aliases mean in their place, and its `<<` merged.
use crate::event::{Event, Kind, events_of};
use crate::fault::{Fault, Stop};
use crate::links::is_merge;
use crate::text::text_of;
use std::alloc::{AllocError, Global};
use std::collections::BTreeSet;

#[derive(Drop)]
pub(crate) struct Expander<'a> {
    alloc: Global,
    text: &'a str,
    events: &'a [Event],
    out: Vec<Event>,
    // How many more parts may be visited.
    left: usize,
}

// The events of a text, expanded: at most ten for each byte, and a million at least.
pub(crate) fn expand(alloc: Global, text: &str, events: &[Event]) -> Result<Vec<Event>, Stop> {
    let mut expander = Expander {
        alloc,
        text,
        events,
        out: Vec::new(alloc),
        left: events_of(text.len()),
    };
    expander.emit(0, 127)?;
    Ok(expander.out)
}

fn insert(names: &mut BTreeSet<String>, name: String) -> Result<bool, AllocError> {
    Ok(names.insert(name)?)
}

impl Expander<'_> {
    // The index of what an event means.
    fn target(&self, index: usize) -> usize {
        match self.events.get(index) {
            Some(event) if event.kind == Kind::Alias => event.link,
            _ => index,
        }
    }

    fn event(&self, index: usize) -> Event {
        match self.events.get(index) {
            Some(event) => *event,
            None => Event::empty(0),
        }
    }

    // The index after a value.
    fn after(&self, index: usize) -> usize {
        let event = self.event(index);
        let last = if event.is_leaf() { index } else { event.link };
        last.saturating_add(1)
    }

    fn push(&mut self, event: Event) -> Result<(), Stop> {
        self.count(&event)?;
        self.out.push(event)?;
        Ok(())
    }

    // Counts a part that is visited: one, and one for each eight bytes of it.
    fn count(&mut self, event: &Event) -> Result<(), Stop> {
        let cost = 1 + event.end.saturating_sub(event.start) / 8;
        if self.left < cost {
            return Err(Stop::At(Fault::Expansion, event.start));
        }
        self.left -= cost;
        Ok(())
    }

    // What is wrong in what an alias means: where that is too much, it is so at the alias.
    fn at_alias(&self, index: usize, outcome: Result<(), Stop>) -> Result<(), Stop> {
        let event = self.event(index);
        match outcome {
            Err(Stop::At(Fault::Expansion, _)) if event.kind == Kind::Alias => {
                Err(Stop::At(Fault::Expansion, event.start))
            }
            other => other,
        }
    }

    #[cycle(emit)]
    fn emit(&mut self, index: usize, depth: usize) -> Result<(), Stop> {
        let outcome = self.emit_meant(index, depth);
        self.at_alias(index, outcome)
    }

    #[cycle(emit)]
    fn emit_meant(&mut self, index: usize, depth: usize) -> Result<(), Stop> {
        let mut event = self.event(self.target(index));
        event.is_key = self.event(index).is_key;
        if event.is_leaf() {
            return self.push(event);
        }
        if event.is_key {
            return Err(Stop::At(Fault::Key, self.event(index).start));
        }
        if depth == 0 {
            return Err(Stop::At(Fault::Depth, event.start));
        }
        let opened = self.out.len();
        self.push(event)?;
        if event.kind == Kind::BeginObject {
            self.members(self.target(index), depth - 1)?;
        } else {
            self.items(self.target(index), depth - 1)?;
        }
        self.close(opened, event.link)
    }

    fn close(&mut self, opened: usize, end: usize) -> Result<(), Stop> {
        let last = self.out.len();
        if let Some(event) = self.out.get_mut(opened) {
            event.link = last;
        }
        self.push(self.event(end))
    }

    #[cycle(emit)]
    fn items(&mut self, index: usize, depth: usize) -> Result<(), Stop> {
        let end = self.event(index).link;
        let mut at = index.saturating_add(1);
        for _ in 0..self.events.len() {
            if at >= end {
                break;
            }
            self.emit(at, depth)?;
            at = self.after(at);
        }
        Ok(())
    }

    // The members of an object: its own, and then those of what it merges whose keys aren't there yet.
    #[cycle(emit)]
    fn members(&mut self, index: usize, depth: usize) -> Result<(), Stop> {
        if self.merge_key(index)?.is_none() {
            return self.items(index, depth);
        }
        let mut names = BTreeSet::new(self.alloc);
        self.merge(index, &mut names, depth, 127)
    }

    // The index of an object's key `<<`, which comes once.
    fn merge_key(&self, index: usize) -> Result<Option<usize>, Stop> {
        let end = self.event(index).link;
        let mut found = None;
        let mut at = index.saturating_add(1);
        for _ in 0..self.events.len() {
            if at >= end {
                break;
            }
            let key = self.event(at);
            if is_merge(self.text, &key) {
                if found.is_some() {
                    return Err(Stop::At(Fault::SameKey, key.start));
                }
                found = Some(at);
            }
            at = self.after(self.after(at));
        }
        Ok(found)
    }

    // Adds the members of an object whose keys aren't there yet, its own before those that it merges.
    #[cycle(emit)]
    fn merge(
        &mut self,
        index: usize,
        names: &mut BTreeSet<String>,
        depth: usize,
        levels: usize,
    ) -> Result<(), Stop> {
        self.own_members(index, names, depth, levels < 127)?;
        match self.merge_key(index)? {
            Some(key) => self.sources(self.after(key), names, depth, levels),
            None => Ok(()),
        }
    }

    // Adds the members of an object but for `<<`: of one that is merged, those whose keys aren't there yet.
    #[cycle(emit)]
    fn own_members(
        &mut self,
        index: usize,
        names: &mut BTreeSet<String>,
        depth: usize,
        is_merged: bool,
    ) -> Result<(), Stop> {
        let end = self.event(index).link;
        let mut at = index.saturating_add(1);
        for _ in 0..self.events.len() {
            if at >= end {
                break;
            }
            let value = self.after(at);
            let key = self.event(self.target(at));
            self.count(&key)?;
            if !is_merge(self.text, &self.event(at)) {
                let is_new = self.is_new(at, names)?;
                if is_new || !is_merged {
                    self.emit(at, depth)?;
                    self.emit(value, depth)?;
                }
            }
            at = self.after(value);
        }
        Ok(())
    }

    // Whether the key at an index isn't there yet, and adds it.
    fn is_new(&self, index: usize, names: &mut BTreeSet<String>) -> Result<bool, Stop> {
        let key = self.event(self.target(index));
        if !key.is_leaf() {
            return Err(Stop::At(Fault::Key, self.event(index).start));
        }
        let name = text_of(self.alloc, self.text, &key)?;
        Ok(insert(names, name)?)
    }

    // Merges the object, or the objects of the list, that is the value of a key `<<`.
    #[cycle(emit)]
    fn sources(
        &mut self,
        index: usize,
        names: &mut BTreeSet<String>,
        depth: usize,
        levels: usize,
    ) -> Result<(), Stop> {
        let from = self.target(index);
        let event = self.event(from);
        if event.kind != Kind::BeginArray {
            return self.source(index, names, depth, levels);
        }
        let mut at = from.saturating_add(1);
        for _ in 0..self.events.len() {
            if at >= event.link {
                break;
            }
            self.source(at, names, depth, levels)?;
            at = self.after(at);
        }
        Ok(())
    }

    #[cycle(emit)]
    fn source(
        &mut self,
        index: usize,
        names: &mut BTreeSet<String>,
        depth: usize,
        levels: usize,
    ) -> Result<(), Stop> {
        let from = self.target(index);
        let start = self.event(index).start;
        if self.event(from).kind != Kind::BeginObject {
            return Err(Stop::At(Fault::Merge, start));
        }
        if levels == 0 {
            return Err(Stop::At(Fault::Depth, start));
        }
        self.count(&self.event(from))?;
        let outcome = self.merge(from, names, depth, levels - 1);
        self.at_alias(index, outcome)
    }
}
