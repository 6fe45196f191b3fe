//! Documents that are given as texts of YAML, and `yaml`.
ghost use Rattle.std.specs.Prelude.{◌≡◌, ◌≢◌, ℕ, List, codes, map, option_map, IfOk, OnOk, OnErr};
ghost use Rattle.serde_json.specs.View.{view, members_view};
ghost use Rattle.serde_json.specs.Find.{get_member};
ghost use Rattle.ref_calls.specs.Outcome.{Gives};
ghost use Rattle.ref_calls.specs.inner.Reading.{GivesList, GivesMember};
ghost use Rattle.ref_calls.specs.Yaml as spec;

use crate::document::{members_of, taken};
use crate::fault::{at_index, in_field, not_yaml};
use crate::field::{required, text_in};
use crate::members::{Members, object_of};
use ref_json::Stop;
use ref_yaml::Stop as YamlStop;
use serde_json::{Map, Value, put};
use std::alloc::{AllocError, Global};

// The value of a text of YAML.
fn value_of(alloc: Global, text: &str) -> Result<Value, Stop<Value>>
    ensures { Gives (spec.IsYamlRead text.now) result }
{
    match ref_yaml::from_str(alloc, text) {
        Ok(value) => Ok(value),
        Err(YamlStop::Memory) => Err(Stop::Memory),
        Err(YamlStop::At(fault, offset)) => {
            Err(not_yaml(alloc, fault.name(), fault.advice(), offset))
        }
    }
}

// The text that stands for a schema.
fn yaml_text(schema: &Value) -> Option<&str>
    ensures { option_map (λ text. text.now) result ≡ spec.yaml_text (view schema.now) }
{
    let members = schema.as_object()?;
    if members.len() != 1 {
        return None;
    }
    schema.get("yaml")?.as_str()
}

// The texts of the URI and of the schema, of a document that is given so.
fn yaml_document(item: &Value) -> Option<(&str, &str)>
    ensures { option_map (λ d. (d.0.now, d.1.now)) result ≡ spec.yaml_document (view item.now) }
{
    let items = item.as_array()?;
    if items.len() != 2 {
        return None;
    }
    let [uri, schema] = items.as_slice() else {
        return None;
    };
    let uri = uri.as_str()?;
    let text = yaml_text(schema)?;
    Some((uri, text))
}

// A document with the value of its text.
fn with_value(alloc: Global, uri: &str, value: Value) -> Result<Value, AllocError>
    ensures { IfOk result (λ d. view d ≡ spec.with_value uri.now (view value)) }
{
    let mut items = Vec::with_capacity(alloc, 2)?;
    items.push(Value::try_from_str(alloc, uri)?)?;
    items.push(value)?;
    Ok(Value::Array(items))
}

// An item of a list of documents, with the value of its text where it is given so.
fn read_item(alloc: Global, item: Value) -> Result<Value, Stop<Value>>
    ensures { Gives (spec.IsItemRead (view item)) result }
{
    let Some((uri, text)) = yaml_document(&item) else {
        return Ok(item);
    };
    let value = value_of(alloc, text)?;
    Ok(with_value(alloc, uri, value)?)
}

// The items of a list, each with the value of its text.
fn read_items(alloc: Global, items: Vec<Value>) -> Result<Vec<Value>, Stop<Value>>
    ensures { GivesList (map view items.items) result }
{
    let mut read = Vec::with_capacity(alloc, items.len())?;
    for item in items {
        let index = read.len();
        match read_item(alloc, item) {
            Ok(value) => read.push(value)?,
            Err(stop) => return Err(at_index(alloc, stop, index)),
        }
    }
    Ok(read)
}

// A list of documents, each with the value of its text; what is no list stays.
fn read_list(alloc: Global, value: Value, field: &str) -> Result<Value, Stop<Value>>
    ensures { Gives (spec.IsListRead field.now (view value)) result }
{
    match value {
        Value::Array(items) => match read_items(alloc, items) {
            Ok(items) => Ok(Value::Array(items)),
            Err(stop) => Err(in_field(alloc, stop, field)),
        },
        other => Ok(other),
    }
}

// Reads the documents of the list under a member.
fn read_member(alloc: Global, members: &mut Members, field: &str) -> Result<(), Stop<Value>>
    ensures read { GivesMember field.now (get_member field.now (members_view members.old.entries))
        (get_member field.now (members_view members.new.entries)) result }
    ensures others { OnOk result ((other : List ℕ) → other ≢ field.now
        → get_member other (members_view members.new.entries)
        ≡ get_member other (members_view members.old.entries)) }
{
    let Some(value) = taken(members, field) else {
        return Ok(());
    };
    let read = read_list(alloc, value, field)?;
    put(members, alloc, field, read)?;
    Ok(())
}

/// A call with the values of its texts of YAML, which stand for schemas under `documents`, `remote` and `parent`.
pub fn with_values(alloc: Global, tree: Value) -> Result<Value, Stop<Value>>
    ensures { Gives (spec.IsCallRead (view tree)) result }
{
    let mut members = members_of(alloc, tree);
    read_member(alloc, &mut members, "documents")?;
    read_member(alloc, &mut members, "remote")?;
    read_member(alloc, &mut members, "parent")?;
    Ok(Value::Object(members))
}

/// The value of a text of YAML.
#[tactic(auto, unfolding(crate::specs::Yaml::IsYaml))]
pub fn yaml(alloc: Global, tree: &Value) -> Result<Value, Stop<Value>>
    ensures { Gives (spec.IsYaml (view tree.now)) result }
{
    let value = required(alloc, tree, "text")?;
    let text = text_in(alloc, value, "text")?;
    match value_of(alloc, text) {
        Ok(value) => Ok(object_of(alloc, "value", value)?),
        Err(stop) => Err(in_field(alloc, stop, "text")),
    }
}
