//! Sources as they are read where texts in them mean no URI: `null` counts in place of each.
ghost use Rattle.std.specs.Prelude.{◌≡◌, [], ◌∷◌, ◌++◌, codes, map, flat_map, option_map, IfOk, OnOk};
ghost use Rattle.std.specs.List.{list_any};
ghost use Rattle.std.specs.Option.{option_to_list};
ghost use Rattle.serde_json.specs.View.{view, items_view, members_view};
ghost use Rattle.ref_paths.specs.Path.{Key, Index, part_eq};
ghost use Rattle.ref_paths.specs.Segment.{part_of};
ghost use Rattle.ref_findings.specs.Mending.{keyword_if, refused_keywords, refused_at, rest_after, rests, is_empty, with_nulls, items_with_nulls, members_with_nulls, mended_tree};
ghost use Rattle.ref_findings.specs.inner.Keywords.{keyword_text};
ghost use Rattle.ref_findings.specs.inner.Seen.{place_of, step_of, lent_path, own_path};

use crate::fault::refused_in;
use crate::keyword::Keyword;
use crate::place::Place;
use ref_index::segments_of;
use ref_parts::path::JsonPointerSegment;
use serde_json::{Map, Value};
use std::alloc::{AllocError, Global};

/// A step of a path that owns its key.
#[derive(Drop)]
pub(crate) enum Step {
    Key(String),
    Index(usize),
}

/// The step of a key.
pub(crate) fn key_step(alloc: Global, key: &str) -> Result<Step, AllocError>
    ensures { IfOk result (λ step. step_of step ≡ Key key.now) }
{
    Ok(Step::Key(String::from_str(alloc, key)?))
}

// The step of a part of a path.
fn step_of(alloc: Global, part: &JsonPointerSegment<'_>) -> Result<Step, AllocError>
    ensures { IfOk result (λ step. step_of step ≡ part_of part.now) }
{
    match part {
        JsonPointerSegment::Key(key) => key_step(alloc, key.as_str()),
        JsonPointerSegment::Index(index) => Ok(Step::Index(*index)),
    }
}

/// The steps of a path.
pub(crate) fn steps_of(
    alloc: Global,
    path: &[JsonPointerSegment<'_>],
) -> Result<Vec<Step>, AllocError>
    ensures { IfOk result (λ steps. map step_of steps.items ≡ map part_of path.now) }
{
    let mut steps = Vec::with_capacity(alloc, path.len())?;
    for part in path {
        let step = step_of(alloc, part)?;
        steps.push(step)?;
    }
    Ok(steps)
}

// The path of a member of a place.
fn path_of(alloc: Global, place: &Place<'_>, keyword: Keyword) -> Result<Vec<Step>, AllocError>
    ensures { IfOk result
        (λ path. own_path path ≡ (place_of place.now).path ++ Key (keyword_text keyword) ∷ []) }
{
    let parts = segments_of(alloc, &place.path)?;
    let mut steps = steps_of(alloc, parts.as_slice())?;
    let last = key_step(alloc, keyword.text())?;
    steps.push(last)?;
    Ok(steps)
}

/// Adds a path after the others.
pub(crate) fn push(paths: &mut Vec<Vec<Step>>, path: Vec<Step>) -> Result<(), AllocError>
    ensures { OnOk result (paths.new.items ≡ paths.old.items ++ path ∷ []) }
{
    paths.push(path)?;
    Ok(())
}

// Adds it where the text means no URI.
fn push_refused(
    alloc: Global,
    paths: &mut Vec<Vec<Step>>,
    place: &Place<'_>,
    keyword: Keyword,
    refused: bool,
) -> Result<(), AllocError>
    ensures { OnOk result
        (map own_path paths.new.items
        ≡ map own_path paths.old.items
        ++ map (λ k. (place_of place.now).path ++ Key k ∷ [])
        (keyword_if refused (keyword_text keyword))) }
{
    if !refused {
        return Ok(());
    }
    let path = path_of(alloc, place, keyword)?;
    push(paths, path)
}

// Adds the paths of the texts of a place that mean no URI.
fn push_place(
    alloc: Global,
    paths: &mut Vec<Vec<Step>>,
    place: &Place<'_>,
) -> Result<(), AllocError>
    ensures { OnOk result
        (map own_path paths.new.items
        ≡ map own_path paths.old.items ++ refused_at (place_of place.now)) }
{
    let refused = refused_in(alloc, place)?;
    let id = Keyword::of_identifier(place.draft);
    push_refused(alloc, paths, place, id, refused.id)?;
    push_refused(alloc, paths, place, Keyword::Ref, refused.reference)?;
    push_refused(alloc, paths, place, Keyword::Schema, refused.schema)
}

// The paths of the texts of places that mean no URI.
fn refused_paths(alloc: Global, places: &[Place<'_>]) -> Result<Vec<Vec<Step>>, AllocError>
    ensures { IfOk result
        (λ paths. map own_path paths.items ≡ flat_map refused_at (map place_of places.now)) }
{
    let mut paths = Vec::new(alloc);
    for place in places {
        push_place(alloc, &mut paths, place)?;
    }
    Ok(paths)
}

/// The paths, lent.
pub(crate) fn lent<'p>(alloc: Global, paths: &'p [Vec<Step>]) -> Result<Vec<&'p [Step]>, AllocError>
    ensures { IfOk result (λ list. map lent_path list.items ≡ map own_path paths.now) }
{
    let mut list = Vec::with_capacity(alloc, paths.len())?;
    for path in paths {
        list.push(path.as_slice())?;
    }
    Ok(list)
}

// Whether a step is that of a key, and of an index.
fn is_key(step: &Step, key: &str) -> bool
    ensures { result ≡ part_eq (step_of step.now) (Key key.now) }
{
    match step {
        Step::Key(own) => own.as_str() == key,
        Step::Index(_) => false,
    }
}

fn is_index(step: &Step, index: usize) -> bool
    ensures { result ≡ part_eq (step_of step.now) (Index index) }
{
    match step {
        Step::Key(_) => false,
        Step::Index(own) => *own == index,
    }
}

// The rest of a path that begins with a key, and with an index.
fn after_key<'p>(path: &'p [Step], key: &str) -> Option<&'p [Step]>
    ensures { option_to_list (option_map lent_path result)
        ≡ rest_after (Key key.now) (map step_of path.now) }
{
    let (first, rest) = path.split_first()?;
    if is_key(first, key) { Some(rest) } else { None }
}

fn after_index<'p>(path: &'p [Step], index: usize) -> Option<&'p [Step]>
    ensures { option_to_list (option_map lent_path result)
        ≡ rest_after (Index index) (map step_of path.now) }
{
    let (first, rest) = path.split_first()?;
    if is_index(first, index) {
        Some(rest)
    } else {
        None
    }
}

// The rests of the paths that begin with a key, and with an index.
fn below_key<'p>(
    alloc: Global,
    paths: &[&'p [Step]],
    key: &str,
) -> Result<Vec<&'p [Step]>, AllocError>
    ensures { IfOk result
        (λ list. map lent_path list.items ≡ rests (Key key.now) (map lent_path paths.now)) }
{
    let mut list = Vec::new(alloc);
    for path in paths {
        if let Some(rest) = after_key(*path, key) {
            list.push(rest)?;
        }
    }
    Ok(list)
}

fn below_index<'p>(
    alloc: Global,
    paths: &[&'p [Step]],
    index: usize,
) -> Result<Vec<&'p [Step]>, AllocError>
    ensures { IfOk result
        (λ list. map lent_path list.items ≡ rests (Index index) (map lent_path paths.now)) }
{
    let mut list = Vec::new(alloc);
    for path in paths {
        if let Some(rest) = after_index(*path, index) {
            list.push(rest)?;
        }
    }
    Ok(list)
}

// Whether a path is empty.
fn is_empty(path: &[Step]) -> bool
    ensures { result ≡ is_empty (map step_of path.now) }
{
    match path.split_first() {
        Some(_) => false,
        None => true,
    }
}

// Whether one of the paths is empty.
fn is_any_empty(paths: &[&[Step]]) -> bool
    ensures { result ≡ list_any is_empty (map lent_path paths.now) }
{
    let mut any = false;
    for path in paths {
        let empty = is_empty(*path);
        any = any || empty;
    }
    any
}

/// A value with `null` at each of these paths.
#[cycle(with_nulls)]
pub(crate) fn with_nulls(
    alloc: Global,
    paths: &[&[Step]],
    value: &Value,
) -> Result<Value, AllocError>
    ensures { IfOk result (λ v. view v ≡ with_nulls (map lent_path paths.now) (view value.now)) }
{
    if is_any_empty(paths) {
        return Ok(Value::Null);
    }
    match value {
        Value::Array(items) => Ok(Value::Array(items_with_nulls(alloc, paths, items)?)),
        Value::Object(members) => Ok(Value::Object(members_with_nulls(alloc, paths, members)?)),
        other => other.clone(),
    }
}

#[cycle(with_nulls)]
fn items_with_nulls(
    alloc: Global,
    paths: &[&[Step]],
    items: &Vec<Value>,
) -> Result<Vec<Value>, AllocError>
    ensures { IfOk result
        (λ list. items_view list.items
        ≡ items_with_nulls (map lent_path paths.now) 0 (items_view items.now.items)) }
{
    let mut list = Vec::with_capacity(alloc, items.len())?;
    for (index, item) in items.iter().enumerate() {
        let below = below_index(alloc, paths, index)?;
        list.push(with_nulls(alloc, below.as_slice(), item)?)?;
    }
    Ok(list)
}

#[cycle(with_nulls)]
fn members_with_nulls(
    alloc: Global,
    paths: &[&[Step]],
    members: &Map<String, Value>,
) -> Result<Map<String, Value>, AllocError>
    ensures { IfOk result
        (λ map_of. members_view map_of.entries
        ≡ members_with_nulls (map lent_path paths.now) (members_view members.now.entries)) }
{
    let mut copies = Map::new(alloc);
    for (key, member) in members.iter() {
        let below = below_key(alloc, paths, key.as_str())?;
        let name = key.clone()?;
        drop(copies.insert(name, with_nulls(alloc, below.as_slice(), member)?)?);
    }
    Ok(copies)
}

/// The tree of a document with these places, with `null` in place of each text that means no URI: a copy. It takes work and
/// memory for the whole tree, and at each object or array that has several such texts below it a comparison for each of them
/// and each member or element.
pub(crate) fn mended_tree(
    alloc: Global,
    places: &[Place<'_>],
    value: &Value,
) -> Result<Value, AllocError>
    ensures value { IfOk result
        (λ v. view v ≡ mended_tree (map place_of places.now) (view value.now)) }
{
    let own = refused_paths(alloc, places)?;
    let paths = lent(alloc, own.as_slice())?;
    with_nulls(alloc, paths.as_slice(), value)
}

/// A value with `null` in place of the member under a key, where it is an object that has one: a copy.
///
/// Fails only if out of memory.
pub fn with_null_at(alloc: Global, key: &str, value: &Value) -> Result<Value, AllocError>
    ensures value { IfOk result
        (λ v. view v ≡ with_nulls ((Key key.now ∷ []) ∷ []) (view value.now)) }
{
    let mut path = Vec::new(alloc);
    path.push(key_step(alloc, key)?)?;
    let mut paths = Vec::new(alloc);
    paths.push(path.as_slice())?;
    with_nulls(alloc, paths.as_slice(), value)
}
