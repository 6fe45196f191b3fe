//! What mends something.
ghost use Rattle.std.specs.Prelude.{◌≡◌};
ghost use Rattle.serde_json.specs.View.{items_view, view};
ghost use Rattle.ref_lsp.specs.Clients as clients;
ghost use Rattle.ref_lsp.specs.Ranges as spec;

use crate::desk::Desk;
use crate::judged::Fix;
use crate::shown::Told;
use crate::texts::number_at;
use ref_protocol::pieces::{Place, Range, push_comma, push_range, push_text};
use ref_protocol::refusal::Refusal;
use serde_json::Value;
use std::alloc::{AllocError, Global};

/// `textDocument/codeAction`: the changes that mend what touches a range of a document; none where the client takes commands alone.
pub fn actions(desk: &Desk<'_>, told: &Told, params: &Value) -> Result<String, Refusal> {
    let alloc = desk.alloc();
    let (Some(uri), Some(range), true) = (
        params.pointer("/textDocument/uri").and_then(Value::as_str),
        range_at(params),
        has_context(params),
    ) else {
        return Err(Refusal::NoParameters);
    };
    let mut out = String::from_str(alloc, "[")?;
    if desk.takes_actions && takes_fixes(params) {
        for fix in &told.fixes {
            if fix.uri.as_str() == uri && touches(fix.range, range) {
                push_comma(&mut out)?;
                push_action(alloc, &mut out, fix)?;
            }
        }
    }
    out.push(']')?;
    Ok(out)
}

// Whether a request has its context, with diagnostics.
fn has_context(params: &Value) -> bool
    ensures { result ≡ clients.has_diagnostics (view params.now) }
{
    params
        .pointer("/context/diagnostics")
        .and_then(Value::as_array)
        .is_some()
}

// Whether changes that mend are among the kinds that are asked for; they are where none are named.
fn takes_fixes(params: &Value) -> bool
    ensures { result ≡ spec.takes_fixes (view params.now) }
{
    match params.pointer("/context/only").and_then(Value::as_array) {
        Some(kinds) => has_fixes(kinds.as_slice()),
        None => true,
    }
}

// Whether changes that mend are among kinds.
fn has_fixes(kinds: &[Value]) -> bool
    ensures { result ≡ spec.has_fixes (items_view kinds.now) }
{
    let mut rest = kinds;
    'kinds: while let [kind, more @ ..] = rest {
        if is_of_fixes(kind) {
            return true;
        }
        rest = more;
    }
    false
}

// Whether changes that mend are of a kind.
fn is_of_fixes(kind: &Value) -> bool
    ensures { result ≡ spec.is_of_fixes (view kind.now) }
{
    match kind.as_str() {
        Some(name) => name.is_empty() || name == "quickfix",
        None => false,
    }
}

// The range of a request, where it has one.
fn range_at(params: &Value) -> Option<Range>
    ensures { result ≡ spec.range_at (view params.now) }
{
    let range = params.get("range")?;
    Some((place_at(range.get("start")?)?, place_at(range.get("end")?)?))
}

fn place_at(place: &Value) -> Option<Place>
    ensures { result ≡ spec.place_at (view place.now) }
{
    Some((number_at(place, "/line")?, number_at(place, "/character")?))
}

// Whether two ranges have a place in common, which may be where one ends and the other begins.
fn touches(one: Range, other: Range) -> bool
    ensures { result ≡ spec.touches one other }
{
    let (start, end) = one;
    let (from, to) = other;
    is_at_most(start, to) && is_at_most(from, end)
}

// Whether a place is another one, or before it.
fn is_at_most(place: Place, other: Place) -> bool
    ensures { result ≡ spec.is_at_most place other }
{
    let (line, units) = place;
    let (other_line, other_units) = other;
    line < other_line || line == other_line && units <= other_units
}

fn push_action(alloc: Global, out: &mut String, fix: &Fix) -> Result<(), AllocError> {
    let title = format!(in alloc; "Change to '{}'", fix.meant.as_str())?;
    push_text(alloc, out, "{\"title\":", title.as_str())?;
    out.push_str(",\"kind\":\"quickfix\",\"isPreferred\":")?;
    out.push_str(if fix.is_only { "true" } else { "false" })?;
    out.push_str(",\"diagnostics\":[")?;
    out.push_str(fix.diagnostic.as_str())?;
    push_text(alloc, out, "],\"edit\":{\"changes\":{", fix.uri.as_str())?;
    push_range(out, ":[{\"range\":", fix.range)?;
    push_text(alloc, out, ",\"newText\":", fix.text.as_str())?;
    out.push_str("}]}}}")
}
