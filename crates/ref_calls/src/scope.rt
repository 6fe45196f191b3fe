//! The dynamic scopes of calls and of answers.
ghost use Rattle.std.specs.Prelude.{◌≡◌, ◌-◌, ◌++◌, length, map, take, option_map, Some, IfOk};
ghost use Rattle.serde_json.specs.Data.{string};
ghost use Rattle.serde_json.specs.View.{view, items_view};
ghost use Rattle.ref_calls.specs.Calls.{each_item};
ghost use Rattle.ref_calls.specs.Scopes as spec;
ghost use Rattle.ref_calls.specs.Given.{kept_of, scope_given};
ghost use Rattle.ref_calls.specs.Outcome.{Answers};

use crate::fault::{Wrong, at_index, field_error};
use crate::field::{items_in, number_in, uri_at};
use crate::members::{push_text, uris_of};
use ref_json::Stop;
use ref_parts::list::List;
use ref_uri::Uri;
use serde_json::Value;
use std::alloc::{AllocError, Global};
use std::rc::Rc;

/// A scope that is kept, by its number.
#[derive(Clone, Copy, Drop)]
pub struct Kept<'k> {
    pub number: usize,
    pub uris: &'k List<Uri>,
}

/// The dynamic scope that a call gives, and the kept one that it ends with, where it ends with one.
#[derive(Drop)]
pub struct GivenScope<'k> {
    pub uris: List<Uri>,
    pub kept: Option<Kept<'k>>,
}

// The kept scope with a number.
fn kept_at<'k>(
    alloc: Global,
    scopes: &'k [List<Uri>],
    number: usize,
) -> Result<GivenScope<'k>, Stop<Value>>
    ensures { Answers scope_given result (spec.kept_at scopes.now number) }
{
    let Some(uris) = scopes.get(number) else {
        return Err(field_error(alloc, Wrong::UnknownScope, "scope"));
    };
    let copy = uris.clone()?;
    Ok(GivenScope {
        uris: copy,
        kept: Some(Kept { number, uris }),
    })
}

// The kept scope whose number a value is.
fn kept_scope<'k>(
    alloc: Global,
    scopes: &'k [List<Uri>],
    value: &Value,
) -> Result<GivenScope<'k>, Stop<Value>>
    ensures { Answers scope_given result (spec.kept_scope scopes.now (view value.now)) }
{
    let number = number_in(alloc, value, "scope")?;
    kept_at(alloc, scopes, number)
}

// Items without a number at their end, and that number.
fn split_number(items: &[Value]) -> (&[Value], Option<&Value>)
    ensures front { items_view result.0.now ≡ spec.front_items (items_view items.now) }
    ensures number { option_map (λ v. view v.now) result.1
        ≡ spec.last_number (items_view items.now) }
{
    let Some((last, front)) = items.split_last() else {
        return (items, None);
    };
    if last.is_number() {
        (front, Some(last))
    } else {
        (items, None)
    }
}

// The URI that an item of a scope means.
fn scope_uri(alloc: Global, item: &Value, index: usize) -> Result<Uri, Stop<Value>>
    ensures { Answers (λ u. u) result (spec.scope_uri index (view item.now)) }
{
    match uri_at(alloc, item, "scope") {
        Ok(uri) => Ok(uri),
        Err(stop) => Err(at_index(alloc, stop, index)),
    }
}

// The URIs that the items of a scope mean.
fn uris_in(alloc: Global, items: &[Value]) -> Result<Vec<Uri>, Stop<Value>>
    ensures { Answers (λ v. v.items) result
        (each_item spec.scope_uri 0 (items_view items.now)) }
{
    let mut uris = Vec::with_capacity(alloc, items.len())?;
    for (index, item) in items.iter().enumerate() {
        let uri = scope_uri(alloc, item, index)?;
        uris.push(uri)?;
    }
    Ok(uris)
}

// What is behind so many items: a kept scope, or nothing.
fn scope_end<'k>(
    alloc: Global,
    scopes: &'k [List<Uri>],
    index: usize,
    number: Option<&Value>,
) -> Result<GivenScope<'k>, Stop<Value>>
    ensures { Answers scope_given result
        (spec.scope_end scopes.now index (option_map (λ v. view v.now) number.entry)) }
{
    let Some(number) = number else {
        return Ok(GivenScope {
            uris: List::new(),
            kept: None,
        });
    };
    match kept_scope(alloc, scopes, number) {
        Ok(scope) => Ok(scope),
        Err(stop) => Err(at_index(alloc, stop, index)),
    }
}

// The list with these URIs in front, in their order.
fn with_front(alloc: Global, uris: Vec<Uri>, behind: List<Uri>) -> Result<List<Uri>, AllocError>
    ensures { IfOk result (λ list. list ≡ uris.items ++ behind) }
{
    let mut uris = uris;
    let mut list = behind;
    while let Some(uri) = uris.pop() {
        list = list.push_front(alloc, Rc::new(alloc, uri)?)?;
    }
    Ok(list)
}

// The scope that items are.
fn scope_items<'k>(
    alloc: Global,
    scopes: &'k [List<Uri>],
    items: &[Value],
) -> Result<GivenScope<'k>, Stop<Value>>
    ensures { Answers scope_given result (spec.scope_items scopes.now (items_view items.now)) }
{
    let (front, number) = split_number(items);
    let uris = uris_in(alloc, front)?;
    let GivenScope { uris: behind, kept } = scope_end(alloc, scopes, uris.len(), number)?;
    let uris = with_front(alloc, uris, behind)?;
    Ok(GivenScope { uris, kept })
}

/// The dynamic scope that a value is: a list of URIs, at whose end the number of a kept scope may be, or that number alone.
/// A kept scope is shared, and takes no memory.
pub fn scope_in<'k>(
    alloc: Global,
    scopes: &'k [List<Uri>],
    value: &Value,
) -> Result<GivenScope<'k>, Stop<Value>>
    ensures { Answers scope_given result (spec.scope_in scopes.now (view value.now)) }
{
    if value.is_number() {
        return kept_scope(alloc, scopes, value);
    }
    let items = items_in(alloc, value, "scope")?;
    scope_items(alloc, scopes, items)
}

/// The dynamic scope under `scope`, or else the empty one.
#[tactic(auto, unfolding(crate::specs::Scopes::scope_of))]
pub fn scope_of<'k>(
    alloc: Global,
    scopes: &'k [List<Uri>],
    tree: &Value,
) -> Result<GivenScope<'k>, Stop<Value>>
    ensures { Answers scope_given result (spec.scope_of scopes.now (view tree.now)) }
{
    match tree.get("scope") {
        Some(value) => scope_in(alloc, scopes, value),
        None => Ok(GivenScope {
            uris: List::new(),
            kept: None,
        }),
    }
}

// The URIs of a list, lent.
fn lent<'l>(alloc: Global, uris: &'l List<Uri>) -> Result<Vec<&'l Uri>, AllocError>
    ensures { IfOk result (λ list. map (λ u. u.now) list.items ≡ uris.now) }
{
    let mut list = Vec::new(alloc);
    for uri in uris {
        list.push(uri)?;
    }
    Ok(list)
}

// Texts, one after another.
fn texts_of(alloc: Global, uris: &[&Uri]) -> Result<Vec<Value>, AllocError>
    ensures { IfOk result
        (λ list. map view list.items ≡ map (λ t. string t) (map (λ u. u.now) uris.now)) }
{
    let mut list = Vec::new(alloc);
    for uri in uris {
        push_text(alloc, &mut list, uri.as_str())?;
    }
    Ok(list)
}

// The URIs of a scope in front of one that it ends with.
fn front_of(alloc: Global, uris: &List<Uri>, end: &List<Uri>) -> Result<Vec<Value>, AllocError>
    ensures { IfOk result
        (λ list. map view list.items
        ≡ map (λ t. string t) (take (length uris.now - length end.now) uris.now)) }
{
    let all = lent(alloc, uris)?;
    let behind = lent(alloc, end)?;
    let front = all.len().saturating_sub(behind.len());
    texts_of(alloc, &all.as_slice()[..front])
}

/// A scope in an answer: its URIs, or where the call's ends with a kept scope, those in front of it and its number. It goes over the
/// whole scope once, and takes memory for what is answered.
pub fn scope_answered(
    alloc: Global,
    kept: Option<Kept<'_>>,
    uris: &List<Uri>,
) -> Result<Value, AllocError>
    ensures { IfOk result
        (λ list. view list ≡ spec.scope_answered (option_map kept_of kept.entry) uris.now) }
{
    let Some(kept) = kept else {
        return uris_of(alloc, uris);
    };
    let mut list = front_of(alloc, uris, kept.uris)?;
    list.push(Value::from(kept.number))?;
    Ok(Value::Array(list))
}
