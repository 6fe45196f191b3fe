//! One pass over a text for all places that are asked for.
ghost use Rattle.std.specs.Prelude.{◌≡◌, IfOk, IfSome, IfNone, slice_index_or, replicate, length};
ghost use Rattle.ref_positions.specs.Walks.{not_found};
ghost use Rattle.ref_positions.specs.declared.format.Format.TheVariants.{Json, Yaml};
ghost use Rattle.ref_positions.specs.Events.{AreFoundIn, AreFoundInYaml, HasUnnamed};
ghost use Rattle.ref_positions.specs.Json.{AreFoundInJson};
ghost use Rattle.ref_positions.specs.Located.{IsSpot, key_at, value_at};

use crate::format::Format;
use crate::places::Places;
use crate::position::Position;
use crate::table::Table;
use crate::walk::{Found, nothing_found};
use ref_yaml::{Document, Stop};
use std::alloc::{AllocError, Global};

/// Where the places are that were asked for.
#[derive(Drop)]
pub struct Located<'a> {
    // Of each place, by its number.
    found: Vec<Found>,
    table: Table<'a>,
}

impl<'a> Located<'a> {
    /// Where the value of a place begins, or nothing where the text has no such place. Of members with the same key the
    /// last one counts. In YAML an object or a list without brackets begins where its first key, or the `?` before it, or its first `-` does, and what
    /// an alias means is where it is written. It costs a binary search.
    pub fn value(&self, place: usize) -> Option<Position<'a>>
        ensures spot { IsSpot self.now.table.text.now (value_at self.now place) result }
    {
        let (_, start) = found_at(self.found.as_slice(), place).value?;
        Some(self.table.position(start))
    }

    /// Where the key begins whose member the value is, or nothing where it is no member. It costs a binary search.
    pub fn key(&self, place: usize) -> Option<Position<'a>>
        ensures spot { IsSpot self.now.table.text.now (key_at self.now place) result }
    {
        let (_, start) = found_at(self.found.as_slice(), place).key?;
        Some(self.table.position(start))
    }
}

// What was found of a place.
fn found_at(found: &[Found], place: usize) -> Found
    ensures { result ≡ slice_index_or found.now place not_found }
{
    if place < found.len() {
        found[place]
    } else {
        Found {
            key: None,
            value: None,
        }
    }
}

impl Places {
    /// Where these places are in a text. Of one that is no JSON, those are found that come before the fault, and of one that is no
    /// YAML none. Fails only if out of memory.
    ///
    /// One pass over the text: it costs a step for each byte, and a look-up for each key and each item of what is asked
    /// for or has below it what is asked for. Those that are found are put into the order of the text.
    pub fn locate<'t>(
        &self,
        alloc: Global,
        format: Format,
        text: &'t str,
    ) -> Result<Located<'t>, AllocError>
        ensures text { IfOk result (λ located. located.table.text.now ≡ text.now) }
        ensures json { format ≡ Json
            → IfOk result (λ located. AreFoundInJson text.now self.now located.found.items) }
        ensures yaml { format ≡ Yaml
            → IfOk result (λ located. AreFoundInYaml text.now self.now located.found.items) }
    {
        match format {
            Format::Json => {
                let found = self.found_in_json(alloc, text)?;
                with_positions(alloc, text, found)
            }
            Format::Yaml => self.locate_in_yaml(alloc, text),
        }
    }

    /// Where these places are in a document of YAML, or nothing where an object that is asked for, or has below it what is, has
    /// a key without a text, as one with an escape that there isn't. Fails only if out of memory.
    ///
    /// It costs a step for each event, and else what [`Places::locate`] costs.
    pub fn locate_in<'t>(
        &self,
        alloc: Global,
        document: &Document<'t>,
    ) -> Result<Option<Located<'t>>, AllocError>
        ensures text { IfOk result
            (λ o. IfSome o (λ located. located.table.text.now ≡ document.now.text.now)) }
        ensures found { IfOk result (λ o. IfSome o (λ located. AreFoundIn
            document.now.text.now self.now document.now.events.items located.found.items)) }
        ensures refused { IfOk result (λ o. IfNone o
            (HasUnnamed document.now.text.now self.now document.now.events.items)) }
    {
        match self.found_in_document(alloc, document)? {
            Some(found) => Ok(Some(with_positions(alloc, document.text(), found)?)),
            None => Ok(None),
        }
    }

    // Where they are in a text of YAML.
    fn locate_in_yaml<'t>(&self, alloc: Global, text: &'t str) -> Result<Located<'t>, AllocError>
        ensures text { IfOk result (λ located. located.table.text.now ≡ text.now) }
        ensures found { IfOk result
            (λ located. AreFoundInYaml text.now self.now located.found.items) }
    {
        match Document::parse(alloc, text) {
            Ok(document) => match self.locate_in(alloc, &document)? {
                Some(located) => Ok(located),
                None => self.locate_nothing(alloc, text),
            },
            Err(Stop::Memory) => Err(AllocError),
            Err(Stop::At(..)) => self.locate_nothing(alloc, text),
        }
    }

    // No place in a text.
    fn locate_nothing<'t>(&self, alloc: Global, text: &'t str) -> Result<Located<'t>, AllocError>
        ensures text { IfOk result (λ located. located.table.text.now ≡ text.now) }
        ensures found { IfOk result
            (λ located. located.found.items ≡ replicate (length self.now) not_found) }
    {
        let found = nothing_found(alloc, self)?;
        with_positions(alloc, text, found)
    }
}

// What was found in a text.
fn with_positions<'t>(
    alloc: Global,
    text: &'t str,
    found: Vec<Found>,
) -> Result<Located<'t>, AllocError>
    ensures text { IfOk result (λ located. located.table.text.now ≡ text.now) }
    ensures found { IfOk result (λ located. located.found ≡ found) }
{
    let table = Table::new(alloc, text, found.as_slice())?;
    Ok(Located { found, table })
}
