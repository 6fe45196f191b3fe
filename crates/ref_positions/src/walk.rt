//! The walk over the tokens of a text, which notes where the places are that are asked for.
ghost use Rattle.std.specs.Prelude.{◌≡◌, ◌≤◌, ◌<◌, ◌+◌, ◌-◌, ◌^◌, ℕ, List, [], ◌∷◌, ◌++◌, Option, Some, None, IfOk, OnOk, IsTrue, ◌↔◌, IsSome, length, replicate, true, false};
ghost use Rattle.json.specs.Reads.{token_of};
ghost use Rattle.ref_yaml.specs.Events.{is_scalar, IsWithin};
ghost use Rattle.ref_positions.specs.Paths.{Path, Step, member, item, number_of};
ghost use Rattle.ref_positions.specs.Parts.{Next, key, object, array, scalar, close, value, name, next, after, Part, begun};
ghost use Rattle.ref_positions.specs.Events.{Takes, Stops};
ghost use Rattle.ref_positions.specs.Json.{token_at};
ghost use Rattle.ref_positions.specs.Places.{IsTree};
ghost use Rattle.ref_positions.specs.Walks.{IsTable, IsStep, IsNamed, AreOpen, IsComing, IsFew, IsWalk, Passes, with_value, with_key, not_found, ends, is_item, is_asked, IsOtherKey};

use crate::places::Places;
use json::Token;
use ref_yaml::{Document, Event, Kind, Stop};
use std::alloc::{AllocError, Global};

// The number of the token and the offset at which a place was last found.
#[derive(Clone, Copy, Drop)]
pub(crate) struct Found {
    pub(crate) key: Option<(usize, usize)>,
    pub(crate) value: Option<(usize, usize)>,
}

// An object or an array that is not yet closed.
#[derive(Clone, Copy, Drop)]
struct Level {
    // Its place, where it is asked for or something in it is.
    place: Option<usize>,
    // In an array, the index of the item that comes or that is open.
    index: Option<usize>,
}

// What comes next.
#[derive(Clone, Copy, Drop)]
enum Coming {
    // A value, and its place where it is no item of an array.
    Value(Option<usize>),
    // A key, or the end of an object.
    Key,
    Nothing,
}

#[derive(Drop)]
pub(crate) struct Walk {
    // Of each place, by its number.
    found: Vec<Found>,
    // The levels around the innermost one.
    outer: Vec<Level>,
    level: Option<Level>,
    next: Coming,
}

// What is found of no place.
pub(crate) fn nothing_found(alloc: Global, places: &Places) -> Result<Vec<Found>, AllocError>
    ensures items { IfOk result (λ found. found.items ≡ replicate (length places.now) not_found) }
    ensures tree { IfOk result (λ _. IsTree places.now) }
{
    let nothing = Found {
        key: None,
        value: None,
    };
    vec![in alloc; nothing; places.len()]
}

fn note_value(found: &mut Vec<Found>, place: Option<usize>, at: (usize, usize))
    ensures value { found.new.items ≡ with_value found.old.items place at }
{
    if let Some(number) = place {
        if number < found.len() {
            found[number].value = Some(at);
        }
    }
}

fn note_key(found: &mut Vec<Found>, place: Option<usize>, at: (usize, usize))
    ensures value { found.new.items ≡ with_key found.old.items place at }
{
    if let Some(number) = place {
        if number < found.len() {
            found[number].key = Some(at);
        }
    }
}

impl Level {
    // The number of the item that comes.
    fn item(&self, places: &Places, index: usize) -> Option<usize>
        ensures value { (p : Path) → IsTree places.now → self.now.place ≡ number_of places.now p → result ≡ number_of places.now (item index ∷ p) }
    {
        places.find_item(self.place?, index)
    }

    // The number of a member.
    fn member(&self, places: &Places, key: &str) -> Option<usize>
        ensures value { (p : Path) → IsTree places.now → self.now.place ≡ number_of places.now p → result ≡ number_of places.now (member key.now ∷ p) }
    {
        places.find_member(self.place?, key)
    }
}

impl Walk {
    // What comes first is the whole value.
    pub(crate) fn new(alloc: Global, places: &Places) -> Result<Walk, AllocError>
        ensures tree { IfOk result (λ _. IsTree places.now) }
        ensures walk { IfOk result (λ walk. IsTree places.now → IsWalk places.now walk 0 (value []) []) }
    {
        let found = nothing_found(alloc, places)?;
        Ok(Walk {
            found,
            outer: Vec::new(alloc),
            level: None,
            next: Coming::Value(Some(0)),
        })
    }

    pub(crate) fn into_found(self) -> Vec<Found>
        ensures found { result ≡ self.found }
    {
        self.found
    }

    // The number of the value that comes.
    fn number(&self, places: &Places, named: Option<usize>) -> Option<usize>
        ensures value { (p : Path) → IsTree places.now → AreOpen places.now self.now.level self.now.outer.items p → IsNamed places.now named p
            → result ≡ number_of places.now p }
    {
        let Some(level) = self.level else {
            return named;
        };
        match level.index {
            Some(index) => level.item(places, index),
            None => named,
        }
    }

    // The number of the member with a key.
    fn find(&self, places: &Places, key: &str) -> Option<usize>
        ensures value { (p : Path) → IsTree places.now → AreOpen places.now self.now.level self.now.outer.items (member [] ∷ p)
            → result ≡ number_of places.now (member key.now ∷ p) }
    {
        match self.level {
            Some(level) => level.member(places, key),
            None => None,
        }
    }

    // Leaves a value.
    fn leave(&mut self)
        ensures found { self.new.found ≡ self.old.found }
        ensures outer { self.new.outer ≡ self.old.outer }
        ensures coming { (paths : List (Option Path)) (p : Path) (n : ℕ) → n < 2 ^ 64 - 1 → IsFew n p → AreOpen paths self.old.level self.old.outer.items p
            → IsComing paths self.new.level self.new.outer.items self.new.next (after p) }
    {
        let Some(level) = self.level else {
            self.next = Coming::Nothing;
            return;
        };
        let Some(index) = level.index else {
            self.next = Coming::Key;
            return;
        };
        self.level = Some(Level {
            place: level.place,
            index: Some(index.saturating_add(1)),
        });
        self.next = Coming::Value(None);
    }

    // Enters an object or an array.
    fn enter(&mut self, place: Option<usize>, index: Option<usize>) -> Result<(), AllocError>
        ensures found { self.new.found ≡ self.old.found }
        ensures open { OnOk result ((paths : List (Option Path)) (p : Path) (s : Step) → place ≡ number_of paths p → IsStep index s
            → AreOpen paths self.old.level self.old.outer.items p → AreOpen paths self.new.level self.new.outer.items (s ∷ p)) }
    {
        if let Some(level) = self.level {
            self.outer.push(level)?;
        }
        self.level = Some(Level { place, index });
        Ok(())
    }

    // Whether an end ends what is open.
    fn ends(&self) -> bool
        ensures value { result ≡ ends self.now.level self.now.next }
    {
        match self.next {
            Coming::Value(_) => match self.level {
                Some(level) => level.index.is_some(),
                None => false,
            },
            Coming::Key => true,
            Coming::Nothing => false,
        }
    }

    pub(crate) fn pass_scalar(&mut self, places: &Places, number: usize, start: usize)
        ensures passes { Passes places.now self.old self.new number (scalar start) }
    {
        let Coming::Value(named) = self.next else {
            return;
        };
        let place = self.number(places, named);
        note_value(&mut self.found, place, (number, start));
        self.leave();
    }

    pub(crate) fn pass_object(
        &mut self,
        places: &Places,
        number: usize,
        start: usize,
    ) -> Result<(), AllocError>
        ensures passes { OnOk result (Passes places.now self.old self.new number (object start)) }
    {
        let Coming::Value(named) = self.next else {
            return Ok(());
        };
        let place = self.number(places, named);
        note_value(&mut self.found, place, (number, start));
        self.enter(place, None)?;
        self.next = Coming::Key;
        Ok(())
    }

    pub(crate) fn pass_array(
        &mut self,
        places: &Places,
        number: usize,
        start: usize,
    ) -> Result<(), AllocError>
        ensures passes { OnOk result (Passes places.now self.old self.new number (array start)) }
    {
        let Coming::Value(named) = self.next else {
            return Ok(());
        };
        let place = self.number(places, named);
        note_value(&mut self.found, place, (number, start));
        self.enter(place, Some(0))?;
        self.next = Coming::Value(None);
        Ok(())
    }

    // Passes the end of an object or an array.
    pub(crate) fn pass_end(&mut self)
        ensures passes { (paths : List (Option Path)) (n : ℕ) → Passes paths self.old self.new n close }
    {
        if !self.ends() {
            return;
        }
        self.level = self.outer.pop();
        self.leave();
    }

    pub(crate) fn pass_key(&mut self, places: &Places, number: usize, start: usize, text: &str)
        ensures passes { Passes places.now self.old self.new number (key text.now start) }
    {
        let Coming::Key = self.next else {
            return;
        };
        let place = self.find(places, text);
        note_key(&mut self.found, place, (number, start));
        self.next = Coming::Value(place);
    }

    // Passes a key in an object of which nothing is asked for.
    pub(crate) fn pass_other_key(&mut self)
        ensures level { self.new.level ≡ self.old.level }
        ensures outer { self.new.outer ≡ self.old.outer }
        ensures found { self.new.found ≡ self.old.found }
        ensures next { IsOtherKey self.old.next self.new.next }
    {
        if let Coming::Key = self.next {
            self.next = Coming::Value(None);
        }
    }

    // Whether a key comes, of an object of which something is asked for.
    fn is_asked(&self) -> bool
        ensures value { result ≡ is_asked self.now.level self.now.next }
    {
        let Coming::Key = self.next else {
            return false;
        };
        match self.level {
            Some(level) => level.place.is_some(),
            None => false,
        }
    }

    // Passes a token of JSON that begins at the offset.
    pub(crate) fn pass_token(
        &mut self,
        places: &Places,
        token: &Token<'_>,
        number: usize,
        start: usize,
    ) -> Result<(), AllocError>
        ensures passes { OnOk result (Passes places.now self.old self.new number (token_at (token_of token.now) start)) }
    {
        match token {
            Token::Key(text) => {
                self.pass_key(places, number, start, *text);
                Ok(())
            }
            Token::EndObject => {
                self.pass_end();
                Ok(())
            }
            Token::EndArray => {
                self.pass_end();
                Ok(())
            }
            Token::BeginObject => self.pass_object(places, number, start),
            Token::BeginArray => self.pass_array(places, number, start),
            _ => {
                self.pass_scalar(places, number, start);
                Ok(())
            }
        }
    }

    // Passes an event of YAML, and returns whether it could: not a key without a text in an object that is asked for.
    pub(crate) fn pass_event(
        &mut self,
        alloc: Global,
        places: &Places,
        document: &Document<'_>,
        number: usize,
        event: &Event,
    ) -> Result<bool, AllocError>
        ensures takes { IfOk result (λ could. could ≡ true → Takes document.now.text.now places.now self.old self.new number event.now) }
        ensures stops { IfOk result (λ could. could ≡ false → IsWithin (length document.now.text.now) event.now
            → Stops document.now.text.now places.now self.old event.now) }
    {
        match event.kind {
            Kind::EndObject => {
                self.pass_end();
                Ok(true)
            }
            Kind::EndArray => {
                self.pass_end();
                Ok(true)
            }
            Kind::BeginObject => {
                self.pass_object(places, number, event.start)?;
                Ok(true)
            }
            Kind::BeginArray => {
                self.pass_array(places, number, event.start)?;
                Ok(true)
            }
            Kind::Alias => {
                self.pass_scalar(places, number, event.start);
                Ok(true)
            }
            _ => self.pass_text(alloc, places, document, number, event),
        }
    }

    // Passes a scalar of YAML. The text of a key is made only where something in its object is asked for.
    fn pass_text(
        &mut self,
        alloc: Global,
        places: &Places,
        document: &Document<'_>,
        number: usize,
        event: &Event,
    ) -> Result<bool, AllocError>
        requires is_scalar { IsTrue (is_scalar event.now.kind) }
        ensures takes { IfOk result (λ could. could ≡ true → Takes document.now.text.now places.now self.old self.new number event.now) }
        ensures stops { IfOk result (λ could. could ≡ false → IsWithin (length document.now.text.now) event.now
            → Stops document.now.text.now places.now self.old event.now) }
    {
        if !event.is_key {
            self.pass_scalar(places, number, event.start);
            return Ok(true);
        }
        if !self.is_asked() {
            self.pass_other_key();
            return Ok(true);
        }
        match document.text_of(alloc, event) {
            Ok(key) => {
                self.pass_key(places, number, event.start, key.as_str());
                Ok(true)
            }
            Err(Stop::Memory) => Err(AllocError),
            Err(Stop::At(..)) => Ok(false),
        }
    }
}
