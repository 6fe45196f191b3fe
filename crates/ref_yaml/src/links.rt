//! What aliases mean, and which keys merge (7.1; the merge key of YAML 1.1).
use crate::bytes::peek;
use crate::event::{Event, Kind, NOWHERE, Tag};
use crate::fault::{Fault, Stop};
use crate::scalar::name_end;
use std::alloc::{AllocError, Global};
use std::collections::BTreeMap;

// Whether a key is `<<` without quotes and without a tag.
pub(crate) fn is_merge(text: &str, event: &Event) -> bool {
    event.kind == Kind::Plain
        && event.tag == Tag::None
        && event.end == event.start.saturating_add(2)
        && peek(text, event.start) == b'<'
        && peek(text, event.start.saturating_add(1)) == b'<'
}

// The name after the `&` or the `*` at an offset.
fn name_at(text: &str, at: usize) -> &str {
    let from = at.saturating_add(1);
    text.get(from..name_end(text, from)).unwrap_or("")
}

fn define<'t>(
    names: &mut BTreeMap<&'t str, usize>,
    name: &'t str,
    index: usize,
) -> Result<(), AllocError> {
    names.insert(name, index)?;
    Ok(())
}

// The index of the event that each alias means: the last one before it that has its anchor.
fn means(names: &BTreeMap<&str, usize>, text: &str, alias: &Event) -> Result<usize, Stop> {
    match names.get(name_at(text, alias.start)) {
        Some(index) => Ok(*index),
        None => Err(Stop::At(Fault::Alias, alias.start)),
    }
}

// Whether what begins at one index ends after another.
fn holds(events: &[Event], target: usize, index: usize) -> bool {
    match events.get(target) {
        Some(event) => !event.is_leaf() && event.link > index,
        None => false,
    }
}

/// Gives each alias the index of the event that it means.
///
/// A fault where none is before it that has its anchor, or that one holds it. A step for each event, and a look-up for
/// each anchor and each alias.
pub(crate) fn link(alloc: Global, text: &str, events: &mut [Event]) -> Result<(), Stop> {
    let mut names = BTreeMap::new(alloc);
    for index in 0..events.len() {
        let event = events[index];
        if event.anchor != NOWHERE {
            define(&mut names, name_at(text, event.anchor), index)?;
        }
        if event.kind == Kind::Alias {
            let target = means(&names, text, &event)?;
            if holds(events, target, index) {
                return Err(Stop::At(Fault::Cycle, event.start));
            }
            events[index].link = target;
        }
    }
    Ok(())
}
