//! The value that events are.
ghost use Rattle.std.specs.Prelude.{◌≡◌, false, ◌+◌, ◌≤◌, ◌∷◌, ◌++◌, [], ℕ, List, Some, IfOk, OnOk, IfSome, IsTrue, drop, map, string_bytes, is_some};
ghost use Rattle.serde_json.specs.Data.{Items, Members, number, unsigned, array, object, put as with_member, depth as nesting, items_depth, members_depth};
ghost use Rattle.serde_json.specs.Find.{get_member};
ghost use Rattle.serde_json.specs.View.{view, items_view, members_view};
ghost use Rattle.ref_yaml.specs.Core.{core_value};
ghost use Rattle.ref_yaml.specs.Values.{IsValue, AreMembers, IsScalar, IsText, fits as fits_tag, is_text as is_text_of};
ghost use Rattle.ref_yaml.specs.declared.event.Event.{Event as event_type};
ghost use Rattle.ref_yaml.specs.declared.event.Kind.TheVariants.{BeginArray, BeginObject};

use crate::core_schema::{fits, fits_array, fits_object, plain_value};
use crate::event::{Event, Kind, Tag};
use crate::fault::{Fault, Stop};
use crate::text::{line_of, part, text_of};
use crate::whole::whole_value;
use serde_json::{Map, Value};
use std::alloc::{AllocError, Global};

#[derive(Drop)]
pub(crate) struct Builder<'a> {
    pub(crate) alloc: Global,
    pub(crate) text: &'a str,
    pub(crate) events: &'a [Event],
}

fn push(items: &mut Vec<Value>, value: Value) -> Result<(), AllocError>
    ensures value { OnOk result
        (map view items.new.items ≡ map view items.old.items ++ view value ∷ []) }
{
    items.push(value)?;
    Ok(())
}

// Adds a member, and returns whether another had its name.
fn insert(members: &mut Map<String, Value>, name: String, value: Value) -> Result<bool, AllocError>
    ensures value { OnOk result (members_view members.new.entries
        ≡ with_member (string_bytes name) (view value) (members_view members.old.entries)) }
    ensures had { IfOk result (λ had. had
        ≡ is_some (get_member (string_bytes name) (members_view members.old.entries))) }
{
    Ok(members.insert(name, value)?.is_some())
}

fn array_of(items: Vec<Value>) -> Value
    ensures value { view result ≡ array (items_view items.items) }
{
    Value::Array(items)
}

fn object_of(members: Map<String, Value>) -> Value
    ensures value { view result ≡ object (members_view members.entries) }
{
    Value::Object(members)
}

// Whether a scalar is a text, whatever it says.
fn is_text(event: &Event) -> bool
    ensures value { result ≡ is_text_of event.now.tag event.now.kind }
{
    match event.tag {
        Tag::None => event.kind != Kind::Plain,
        Tag::Text | Tag::Any => true,
        _ => false,
    }
}

impl Builder<'_> {
    // The event at an index, which goes on after it.
    fn next(&self, at: &mut usize) -> Result<Event, Stop>
        ensures value { IfOk result
            (λ e. drop at.old self.now.events.now ≡ e ∷ drop at.new self.now.events.now) }
    {
        match self.events.get(*at) {
            Some(event) => {
                *at += 1;
                Ok(*event)
            }
            None => Err(Stop::At(Fault::Offsets, 0)),
        }
    }

    fn is_at(&self, at: usize, kind: Kind) -> bool {
        match self.events.get(at) {
            Some(event) => event.kind == kind,
            None => false,
        }
    }

    // Passes the end of a list or an object.
    fn end(&self, at: &mut usize, kind: Kind) -> Result<(), Stop>
        ensures value { OnOk result ((e : event_type) × (e.kind ≡ kind)
            × (drop at.old self.now.events.now ≡ e ∷ drop at.new self.now.events.now)) }
    {
        let event = self.next(at)?;
        if event.kind != kind {
            return Err(Stop::At(Fault::Offsets, event.start));
        }
        Ok(())
    }

    /// The value that begins at an index, which goes on after it, nested at most `depth` deep.
    #[cycle(value)]
    pub(crate) fn value(&self, at: &mut usize, depth: usize) -> Result<Value, Stop>
        ensures tree { IfOk result (λ v. IsValue self.now.text.now
            (drop at.old self.now.events.now) (view v) (drop at.new self.now.events.now)) }
        ensures depth { IfOk result (λ v. nesting (view v) ≤ depth) }
    {
        let event = self.next(at)?;
        if event.is_key {
            return Err(Stop::At(Fault::Offsets, event.start));
        }
        match event.kind {
            Kind::BeginArray | Kind::BeginObject if depth == 0 => {
                Err(Stop::At(Fault::Depth, event.start))
            }
            Kind::BeginArray => self.array(&event, at, depth - 1),
            Kind::BeginObject => self.object(&event, at, depth - 1),
            _ => self.scalar(&event),
        }
    }

    // The text of a key or a scalar.
    fn text(&self, event: &Event) -> Result<String, Stop>
        ensures value { IfOk result (λ s. IsText self.now.text.now event.now (string_bytes s)) }
    {
        if !event.is_scalar() {
            return Err(Stop::At(Fault::Offsets, event.start));
        }
        text_of(self.alloc, self.text, event)
    }

    // The value of a scalar that no tag makes a text, by the core schema.
    fn plain(&self, event: &Event) -> Result<Value, Stop>
        ensures value { IfOk result (λ v. (s : List ℕ) × IsText self.now.text.now event.now s
            × (core_value s ≡ Some (view v))) }
        ensures depth { IfOk result (λ v. nesting (view v) ≡ 0) }
    {
        if let Some(number) = self.whole(event) {
            return Ok(Value::from(number));
        }
        if let Some(line) = self.plain_line(event) {
            return plain_value(self.alloc, line, event.start);
        }
        let text = self.text(event)?;
        plain_value(self.alloc, text.as_str(), event.start)
    }

    // The number that a plain scalar is, where it is a few digits.
    fn whole(&self, event: &Event) -> Option<u64>
        ensures value { IfSome result (λ n. (s : List ℕ) × IsText self.now.text.now event.now s
            × (core_value s ≡ Some (number (unsigned n)))) }
    {
        if event.kind != Kind::Plain {
            return None;
        }
        whole_value(part(self.text, event.start, event.end))
    }

    // The text of a plain scalar that is on one line.
    fn plain_line(&self, event: &Event) -> Option<&str>
        ensures value { IfSome result (λ s. IsText self.now.text.now event.now s.now) }
    {
        if event.kind != Kind::Plain {
            return None;
        }
        line_of(self.text, event.start, event.end, b'\n')
    }

    // The value of a scalar: a text where it is quoted or its tag asks for one.
    fn scalar(&self, event: &Event) -> Result<Value, Stop>
        ensures value { IfOk result (λ v. IsScalar self.now.text.now event.now (view v)) }
        ensures fits { IfOk result (λ v. IsTrue (fits_tag event.now.tag (view v))) }
        ensures depth { IfOk result (λ v. nesting (view v) ≡ 0) }
    {
        if is_text(event) {
            return Ok(Value::String(self.text(event)?));
        }
        let value = self.plain(event)?;
        if !fits(event.tag, &value) {
            return Err(Stop::At(Fault::Tag, event.start));
        }
        Ok(value)
    }

    #[cycle(value)]
    fn array(&self, begin: &Event, at: &mut usize, depth: usize) -> Result<Value, Stop>
        ensures tree { IfOk result (λ v. begin.now.is_key ≡ false → begin.now.kind ≡ BeginArray → IsValue self.now.text.now
            (begin.now ∷ drop at.old self.now.events.now) (view v)
            (drop at.new self.now.events.now)) }
        ensures depth { IfOk result (λ v. nesting (view v) ≤ depth + 1) }
    {
        if !fits_array(begin.tag) {
            return Err(Stop::At(Fault::Tag, begin.start));
        }
        let mut items = Vec::new(self.alloc);
        for _ in 0..self.events.len() {
            if self.is_at(*at, Kind::EndArray) {
                break;
            }
            let value = self.value(at, depth)?;
            push(&mut items, value)?;
        }
        self.end(at, Kind::EndArray)?;
        Ok(array_of(items))
    }

    #[cycle(value)]
    fn object(&self, begin: &Event, at: &mut usize, depth: usize) -> Result<Value, Stop>
        ensures tree { IfOk result (λ v. begin.now.is_key ≡ false → begin.now.kind ≡ BeginObject → IsValue self.now.text.now
            (begin.now ∷ drop at.old self.now.events.now) (view v)
            (drop at.new self.now.events.now)) }
        ensures depth { IfOk result (λ v. nesting (view v) ≤ depth + 1) }
    {
        if !fits_object(begin.tag) {
            return Err(Stop::At(Fault::Tag, begin.start));
        }
        let mut members = Map::new(self.alloc);
        for _ in 0..self.events.len() {
            if self.is_at(*at, Kind::EndObject) {
                break;
            }
            self.member(at, &mut members, depth)?;
        }
        self.end(at, Kind::EndObject)?;
        Ok(object_of(members))
    }

    // Adds a member whose key isn't there yet.
    #[cycle(value)]
    fn member(
        &self,
        at: &mut usize,
        members: &mut Map<String, Value>,
        depth: usize,
    ) -> Result<(), Stop>
        ensures tree { OnOk result ((es : List event_type)
            → AreMembers self.now.text.now es (members_view members.old.entries)
            (drop at.old self.now.events.now)
            → AreMembers self.now.text.now es (members_view members.new.entries)
            (drop at.new self.now.events.now)) }
        ensures depth { OnOk result (members_depth (members_view members.old.entries) ≤ depth
            → members_depth (members_view members.new.entries) ≤ depth) }
    {
        let key = self.next(at)?;
        if !key.is_key {
            return Err(Stop::At(Fault::Offsets, key.start));
        }
        let value = self.value(at, depth)?;
        let name = self.text(&key)?;
        if insert(members, name, value)? {
            return Err(Stop::At(Fault::SameKey, key.start));
        }
        Ok(())
    }
}
