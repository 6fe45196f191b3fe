//! The places that were reached, each once.
ghost use Rattle.std.specs.Prelude.{◌≡◌, List, [], ◌++◌, string_bytes, IfOk, OnOk};
ghost use Rattle.ref_reach.specs.Places.{Place as WorldPlace};
ghost use Rattle.ref_reach.specs.Reached.{place_text};
ghost use Rattle.ref_reach.specs.Views.{place_of};
ghost use Rattle.ref_reach.specs.inner.Following.{IsSeen, with_one};

use crate::leading::version_text;
use crate::place::Place;
use crate::table::{number_text, pointer};
use std::alloc::{AllocError, Global};
use std::collections::HashSet;

// Adds two texts.
fn push_part(text: &mut String, first: &str, second: &str) -> Result<(), AllocError>
    ensures { OnOk result
        (string_bytes text.new ≡ string_bytes text.old ++ (first.now ++ second.now)) }
{
    text.push_str(first)?;
    text.push_str(second)
}

// A text for a place: the number of its document, how it is read, its base, and where it is.
fn place_text(alloc: Global, place: &Place<'_>) -> Result<String, AllocError>
    ensures { IfOk result (λ text. string_bytes text ≡ place_text (place_of place.now)) }
{
    let pointer = pointer(alloc, &place.path)?;
    let mut text = number_text(alloc, place.document)?;
    push_part(&mut text, " ", version_text(place.reading.version))?;
    push_part(&mut text, " ", place.reading.draft.name())?;
    push_part(&mut text, " ", place.reading.kind.name())?;
    push_part(&mut text, "\n", place.base.as_str())?;
    push_part(&mut text, "\n", pointer.as_str())?;
    Ok(text)
}

/// The places that were reached, in the order in which they were met, and their texts.
#[derive(Drop)]
pub(crate) struct Seen<'r> {
    pub places: Vec<Place<'r>>,
    texts: HashSet<String>,
}

impl<'r> Seen<'r> {
    /// None.
    pub fn new(alloc: Global) -> Seen<'r>
        ensures value { IsSeen result [] }
    {
        Seen {
            places: Vec::new(alloc),
            texts: HashSet::new(alloc),
        }
    }

    /// Adds a place, where it is new.
    pub fn add(&mut self, alloc: Global, place: Place<'r>) -> Result<(), AllocError>
        ensures value { (places : List WorldPlace) → IsSeen self.old places
            → OnOk result (IsSeen self.new (with_one places (place_of place.entry))) }
    {
        let text = place_text(alloc, &place)?;
        if self.texts.insert(text)? {
            self.places.push(place)?;
        }
        Ok(())
    }

    /// The places.
    pub fn into_places(self) -> Vec<Place<'r>>
        ensures value { result.items ≡ self.entry.places.items }
    {
        let Seen { places, .. } = self;
        places
    }
}
