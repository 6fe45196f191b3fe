//! What is found of the places that are asked for, in a text of JSON and in one of YAML.
ghost use Rattle.std.specs.Prelude.{◌≡◌, ◌≤◌, ◌<◌, IfOk, OnOk, IfNone, IfSome, List, [], length};
ghost use Rattle.json.specs.Lex.{tokens};
ghost use Rattle.ref_positions.specs.Events.{AreFoundIn, HasUnnamed};
ghost use Rattle.ref_positions.specs.Json.{AreFoundInJson, IsThrough};
ghost use Rattle.ref_positions.specs.Parts.{Part, value, within};
ghost use Rattle.ref_positions.specs.Places.{IsTree};
ghost use Rattle.ref_positions.specs.Walks.{IsTable, IsWalk, IsCounted, settled};

use crate::places::Places;
use crate::walk::{Found, Walk};
use json::{Reader, Scratch};
use ref_yaml::Document;
use std::alloc::{AllocError, Global};

impl Places {
    pub(crate) fn found_in_json(&self, alloc: Global, text: &str) -> Result<Vec<Found>, AllocError>
        ensures found { IfOk result (λ found. AreFoundInJson text.now self.now found.items) }
    {
        let mut scratch = Scratch::new(alloc);
        let mut walk = Walk::new(alloc, self)?;
        let mut reader = Reader::new(text, &mut scratch)?;
        self.pass_tokens(text, &mut reader, &mut walk)?;
        Ok(self.last_of(walk.into_found()))
    }

    // Passes the tokens of a text. Each has a byte at least.
    fn pass_tokens(
        &self,
        text: &str,
        reader: &mut Reader<'_>,
        walk: &mut Walk,
    ) -> Result<(), AllocError>
        requires reader { reader.old ≡ tokens text.now }
        requires walk { IsWalk self.now walk.old 0 (value []) [] }
        ensures through { OnOk result (IsThrough text.now self.now walk.new) }
    {
        for number in 0..text.len() + 1 {
            let offset = reader.offset();
            let Some(token) = reader.next() else {
                return Ok(());
            };
            walk.pass_token(self, &token, number, offset)?;
        }
        Ok(())
    }

    // What is found in a document, or nothing where a key has no text that is in an object that is asked for.
    pub(crate) fn found_in_document(
        &self,
        alloc: Global,
        document: &Document<'_>,
    ) -> Result<Option<Vec<Found>>, AllocError>
        ensures found { IfOk result (λ r. IfSome r (λ found. AreFoundIn document.now.text.now self.now document.now.events.items found.items)) }
        ensures refused { IfOk result (λ r. IfNone r (HasUnnamed document.now.text.now self.now document.now.events.items)) }
    {
        let events = document.events();
        let mut walk = Walk::new(alloc, self)?;
        for (number, event) in events.iter().enumerate() {
            if !walk.pass_event(alloc, self, document, number, event)? {
                return Ok(None);
            }
        }
        Ok(Some(self.last_of(walk.into_found())))
    }

    // Leaves out what was found in a member whose key came again after it.
    fn last_of(&self, found: Vec<Found>) -> Vec<Found>
        ensures last { (ps : List Part) → IsTree self.now → IsTable self.now found.items ps → IsCounted self.now result.items ps }
    {
        let mut found = found;
        for number in 1..found.len() {
            let above = self.above(number);
            settle(&mut found, number, above);
        }
        found
    }
}

// Leaves out what was found at a place, where it isn't in the value that was found last above it.
fn settle(found: &mut Vec<Found>, number: usize, above: usize)
    requires { number < length found.old.items }
    ensures { found.new.items ≡ settled found.old.items number above }
{
    if above >= number {
        return;
    }
    let value = found[above].value;
    let Found { key, value: own } = found[number];
    found[number] = Found {
        key: within(value, key),
        value: within(value, own),
    };
}

// What is in a value, where it comes after it.
fn within(value: Option<(usize, usize)>, part: Option<(usize, usize)>) -> Option<(usize, usize)>
    ensures value { result ≡ within value part }
{
    let (number, _) = value?;
    let (later, start) = part?;
    if number < later {
        Some((later, start))
    } else {
        None
    }
}
