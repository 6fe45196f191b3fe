//! Whether the trees of documents after a change are those before, but for what was to change. Read `specs/Changed.antt` first.
ghost use Rattle.std.specs.Prelude.{◌≡◌, ◌∷◌, ◌++◌, ◌==◌, ℕ, List, [], true, false, map, option_map, None, Some, IfOk, OnOk, string_bytes, bytes_eq, if◌then◌else◌};
ghost use Rattle.std.specs.Borrow.{Bor};
ghost use Rattle.std.specs.List.{list_any};
ghost use Rattle.std.specs.Option.{option_or};
ghost use Rattle.std.specs.BTreeMap.{get_by_text};
ghost use Rattle.ref_edits.specs.declared.plan.Part.TheVariants as Part;
ghost use Rattle.serde_json.specs.View.{view, items_view, members_view};
ghost use Rattle.ref_edits.specs.Changed as spec;
ghost use Rattle.ref_edits.specs.inner.Waiting.{AllAfter, IsPairAfter};

use crate::plan::{Change, Part};
use ref_parts::{write_escaped_str, write_index};
use serde_json::{Map, Value};
use std::alloc::{AllocError, Global};
use std::collections::BTreeMap;

/// What is to change in a document.
#[derive(Drop)]
pub(crate) struct Wanted {
    // The texts after, by their pointers.
    texts: BTreeMap<String, String>,
    // The keys after, by the pointers of their members.
    keys: BTreeMap<String, String>,
}

/// What changes say of the document with a number. Of several that say something of a text or of a key the last counts.
pub(crate) fn wanted_of(
    alloc: Global,
    changes: &[Change],
    document: usize,
) -> Result<Wanted, AllocError>
    ensures value { IfOk result (λ w. spec.wanted_of w ≡ spec.wanted_by document changes.now) }
{
    let mut wanted = Wanted {
        texts: BTreeMap::new(alloc),
        keys: BTreeMap::new(alloc),
    };
    for change in changes {
        if change.document == document {
            note(&mut wanted, change)?;
        }
    }
    Ok(wanted)
}

// Takes down a change of the document.
fn note(wanted: &mut Wanted, change: &Change) -> Result<(), AllocError>
    ensures text { OnOk result ((p : List ℕ) → (spec.wanted_of wanted.new).text p
        ≡ option_or (spec.new_by Part.Text p change.now) ((spec.wanted_of wanted.old).text p)) }
    ensures key { OnOk result ((p : List ℕ) → (spec.wanted_of wanted.new).key p
        ≡ option_or (spec.new_by Part.Key p change.now) ((spec.wanted_of wanted.old).key p)) }
{
    match change.part {
        Part::Text => put(&mut wanted.texts, change),
        Part::Key => put(&mut wanted.keys, change),
    }
}

// Puts the new text of a change under its pointer.
fn put(texts: &mut BTreeMap<String, String>, change: &Change) -> Result<(), AllocError>
    ensures { OnOk result ((p : List ℕ) → option_map string_bytes (get_by_text texts.new p)
        ≡ (if bytes_eq p (string_bytes change.now.pointer) then Some (string_bytes change.now.new)
        else option_map string_bytes (get_by_text texts.old p))) }
{
    let (pointer, new) = (change.pointer.clone()?, change.new.clone()?);
    texts.insert(pointer, new)?;
    Ok(())
}

// A value before, with its pointer, and the one in its place after.
#[derive(Drop)]
struct Pair<'v> {
    pointer: String,
    before: &'v Value,
    after: &'v Value,
}

/// Whether a tree is another one with these changes and no other. Linear in the trees.
pub(crate) fn is_changed(
    alloc: Global,
    before: &Value,
    after: &Value,
    wanted: &Wanted,
) -> Result<bool, AllocError>
    ensures value { IfOk result (λ is. is ≡ true
        → spec.IsAfter (spec.wanted_of wanted.now) [] (view before.now) (view after.now)) }
{
    let mut waiting = Vec::new(alloc);
    push(&mut waiting, String::new(alloc), before, after)?;
    for _ in 0..u64::MAX {
        let Some(pair) = waiting.pop() else {
            return Ok(true);
        };
        if !is_kept(alloc, &pair, wanted, &mut waiting)? {
            return Ok(false);
        }
    }
    Ok(false)
}

fn push<'v>(
    waiting: &mut Vec<Pair<'v>>,
    pointer: String,
    before: &'v Value,
    after: &'v Value,
) -> Result<(), AllocError>
    ensures { OnOk result ((w : spec.Wanted) → AllAfter w waiting.new.items
        → (AllAfter w waiting.old.items) × (spec.IsAfter w (string_bytes pointer) (view before.now) (view after.now))) }
{
    waiting.push(Pair {
        pointer,
        before,
        after,
    })?;
    Ok(())
}

// Whether a value is as it is to be, its members and items aside, which are added to those that are to be looked at.
fn is_kept<'v>(
    alloc: Global,
    pair: &Pair<'v>,
    wanted: &Wanted,
    waiting: &mut Vec<Pair<'v>>,
) -> Result<bool, AllocError>
    ensures { IfOk result (λ is. is ≡ true → AllAfter (spec.wanted_of wanted.now) waiting.new.items
        → (AllAfter (spec.wanted_of wanted.now) waiting.old.items)
        × (IsPairAfter (spec.wanted_of wanted.now) pair.now)) }
{
    match (pair.before, pair.after) {
        (Value::Object(_), Value::Object(_)) => {
            are_members(
                alloc,
                pair.pointer.as_str(),
                pair.before,
                pair.after,
                wanted,
                waiting,
            )
        }
        (Value::Array(items), Value::Array(now)) => {
            let pointer = pair.pointer.as_str();
            Ok(are_items(alloc, pointer, items.as_slice(), now.as_slice(), waiting)?)
        }
        (Value::String(text), Value::String(now)) => Ok(is_text(
            pair.pointer.as_str(),
            text.as_str(),
            now.as_str(),
            wanted,
        )),
        (before, after) => is_same(alloc, before, after),
    }
}

// Whether a text is the one that is to be at a pointer.
fn is_text(pointer: &str, text: &str, now: &str, wanted: &Wanted) -> bool
    ensures { result ≡ true → now.now ≡ spec.text_after (spec.wanted_of wanted.now) pointer.now text.now }
{
    let wanted = match wanted.texts.get(pointer) {
        Some(new) => new.as_str(),
        None => text,
    };
    wanted == now
}

// Whether two values are the same, which are no objects, arrays or texts.
fn is_same(alloc: Global, before: &Value, after: &Value) -> Result<bool, AllocError>
    ensures { IfOk result (λ is. is ≡ true → (view after.now ≡ view before.now) × spec.IsLeaf (view before.now)) }
{
    if is_large(before) || is_large(after) {
        return Ok(false);
    }
    let one = before.to_string(alloc)?;
    let two = after.to_string(alloc)?;
    Ok(one.as_str() == two.as_str())
}

fn is_large(value: &Value) -> bool
    ensures { result ≡ false → spec.IsLeaf (view value.now) }
{
    value.is_object() || value.is_array() || value.is_string()
}

fn are_items<'v>(
    alloc: Global,
    pointer: &str,
    items: &'v [Value],
    now: &'v [Value],
    waiting: &mut Vec<Pair<'v>>,
) -> Result<bool, AllocError>
    ensures { IfOk result (λ is. is ≡ true → (w : spec.Wanted) → AllAfter w waiting.new.items
        → (AllAfter w waiting.old.items)
        × (spec.AreItemsAfter w pointer.now 0 (items_view items.now) (items_view now.now))) }
{
    if items.len() != now.len() {
        return Ok(false);
    }
    for index in 0..items.len() {
        let below = item_pointer(alloc, pointer, index)?;
        push(waiting, below, &items[index], &now[index])?;
    }
    Ok(true)
}

// The pointer of an item.
fn item_pointer(alloc: Global, pointer: &str, index: usize) -> Result<String, AllocError>
    ensures { IfOk result (λ below. string_bytes below ≡ spec.below_index pointer.now index) }
{
    let mut below = String::from_str(alloc, pointer)?;
    below.push('/')?;
    write_index(&mut below, index)?;
    Ok(below)
}

// The pointer of a member.
fn member_pointer(alloc: Global, pointer: &str, key: &str) -> Result<String, AllocError>
    ensures { IfOk result (λ below. string_bytes below ≡ spec.below_key pointer.now key.now) }
{
    let mut below = String::from_str(alloc, pointer)?;
    below.push('/')?;
    write_escaped_str(&mut below, key)?;
    Ok(below)
}

// Whether each member of an object is where it is to be in another one, values aside, which are added to those that are to be looked at.
fn are_members<'v>(
    alloc: Global,
    pointer: &str,
    before: &'v Value,
    after: &'v Value,
    wanted: &Wanted,
    waiting: &mut Vec<Pair<'v>>,
) -> Result<bool, AllocError>
    ensures { IfOk result (λ is. is ≡ true → AllAfter (spec.wanted_of wanted.now) waiting.new.items
        → (AllAfter (spec.wanted_of wanted.now) waiting.old.items)
        × (spec.IsAfter (spec.wanted_of wanted.now) pointer.now (view before.now) (view after.now))) }
{
    let (Some(members), Some(now)) = (before.as_object(), after.as_object()) else {
        return Ok(false);
    };
    if members.len() != now.len() {
        return Ok(false);
    }
    let mut new_keys = Vec::new(alloc);
    for (key, member) in members.iter() {
        let below = member_pointer(alloc, pointer, key.as_str())?;
        let found = match wanted.keys.get(below.as_str()) {
            Some(new) => {
                if before.get(new.as_str()).is_some()
                    || has_text(new_keys.as_slice(), new.as_str())
                {
                    return Ok(false);
                }
                new_keys.push(new.as_str())?;
                after.get(new.as_str())
            }
            None => after.get(key.as_str()),
        };
        let Some(found) = found else {
            return Ok(false);
        };
        push(waiting, below, member, found)?;
    }
    Ok(true)
}

// Whether one of several texts is this one.
fn has_text(texts: &[&str], text: &str) -> bool
    ensures { result ≡ list_any (λ k. bytes_eq k text.now) (map (λ (t : Bor (List ℕ)). t.now) texts.now) }
{
    texts.contains(&text)
}
