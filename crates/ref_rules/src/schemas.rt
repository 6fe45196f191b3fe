//! Which references lead to what is no schema.
ghost use Rattle.std.specs.Prelude.{◌≡◌, ◌++◌, ◌∷◌, [], map, option_map, if◌then◌else◌, IfOk, OnOk};
ghost use Rattle.serde_json.specs.View.{view};
ghost use Rattle.ref_rules.specs.Ends as spec;
ghost use Rattle.ref_rules.specs.Ends.{is_no_schema, no_schemas};
ghost use Rattle.ref_rules.specs.Views.{end_of};

use crate::ends::End;
use ref_draft::Draft;
use serde_json::Value;
use std::alloc::{AllocError, Global};

/// Whether a value is a schema of a draft: an object, and since Draft 6 a boolean (Draft 4 Core, 3.2; Draft 6 Core, 4.4; 2020-12 Core, 4.3). Takes no
/// memory.
pub fn is_schema(draft: Draft, value: &Value) -> bool
    ensures value { result ≡ spec.is_schema draft (view value.now) }
{
    value.is_object() || (draft != Draft::Draft4 && value.is_boolean())
}

// Whether a reference leads to what is no schema.
fn is_no_schema(number: usize, end: Option<End<'_>>) -> bool
    ensures { result ≡ is_no_schema (number, option_map end_of end.entry) }
{
    match end {
        Some(end) => !is_schema(end.draft, end.value),
        None => false,
    }
}

// Adds the number of a reference that leads to what is no schema.
fn push(list: &mut Vec<usize>, number: usize, end: Option<End<'_>>) -> Result<(), AllocError>
    ensures { OnOk result
        (list.new.items ≡ list.old.items
        ++ (if is_no_schema (number, option_map end_of end.entry) then number ∷ [] else [])) }
{
    if is_no_schema(number, end) {
        list.push(number)?;
    }
    Ok(())
}

/// The numbers of those references that lead to what is no schema, counted from 0, by what each leads to; `None` is that of one that leads nowhere.
/// Fails only if out of memory. Linear.
pub fn no_schemas(alloc: Global, ends: &[Option<End<'_>>]) -> Result<Vec<usize>, AllocError>
    ensures value { IfOk result
        (λ list. list.items ≡ no_schemas (map (option_map end_of) ends.now)) }
{
    let mut list = Vec::new(alloc);
    for (number, end) in ends.iter().enumerate() {
        push(&mut list, number, *end)?;
    }
    Ok(list)
}
