//! Which schemas are applied to the same value as a schema that they are in.
ghost use Rattle.std.specs.Prelude.{◌≡◌, map, false, is_some, IfOk, option_map, Some};
ghost use Rattle.std.specs.Option.{option_map_or};
ghost use Rattle.serde_json.specs.View.{view};
ghost use Rattle.ref_paths.specs.Path.{child_at};
ghost use Rattle.ref_paths.specs.Segment.{part_of};
ghost use Rattle.ref_draft.specs.Keywords.{is_one_of};
ghost use Rattle.ref_rules.specs.InPlace as spec;

use crate::list::{has_text, is_there};
use ref_draft::Draft;
use ref_paths::path::JsonPointerSegment;
use serde_json::Value;
use std::alloc::{AllocError, Global};

// Whether a draft ignores what is beside a `$ref`.
fn ignores_others(draft: Draft) -> bool
    ensures { result ≡ spec.ignores_others draft }
{
    matches!(draft, Draft::Draft4 | Draft::Draft6 | Draft::Draft7)
}

// Whether the value of a keyword is a schema that is applied to the same value.
fn is_of_wholes(draft: Draft, keyword: &str) -> bool
    ensures { result ≡ is_one_of keyword.now (spec.wholes draft) }
{
    match draft {
        Draft::Draft4 | Draft::Draft6 => keyword == "not",
        _ => matches!(keyword, "not" | "if" | "then" | "else"),
    }
}

// Whether each item of a keyword is.
fn is_of_lists(keyword: &str) -> bool
    ensures { result ≡ is_one_of keyword.now spec.lists }
{
    matches!(keyword, "allOf" | "anyOf" | "oneOf")
}

// Whether each member of a keyword is.
fn is_of_maps(draft: Draft, keyword: &str) -> bool
    ensures { result ≡ is_one_of keyword.now (spec.maps draft) }
{
    match draft {
        Draft::Draft4 | Draft::Draft6 | Draft::Draft7 => keyword == "dependencies",
        _ => keyword == "dependentSchemas",
    }
}

// Whether a keyword of a schema counts.
fn counts(draft: Draft, schema: &Value, keyword: &str) -> bool
    ensures { result ≡ spec.counts draft (view schema.now) keyword.now }
{
    if ignores_others(draft) && has_text(schema, "$ref") {
        return false;
    }
    !matches!(keyword, "then" | "else") || is_there(schema, "if")
}

// Whether the value of a member of a schema is a schema that is applied to the same value.
fn is_whole(draft: Draft, schema: &Value, part: &JsonPointerSegment<'_>) -> bool
    ensures { result ≡ spec.is_whole draft (view schema.now) (part_of part.now) }
{
    match part {
        JsonPointerSegment::Key(key) => {
            let keyword = key.as_str();
            is_of_wholes(draft, keyword) && counts(draft, schema, keyword)
        }
        JsonPointerSegment::Index(_) => false,
    }
}

// Whether what is in that value is.
fn is_inner(
    draft: Draft,
    schema: &Value,
    part: &JsonPointerSegment<'_>,
    inner: &JsonPointerSegment<'_>,
) -> bool
    ensures { result
        ≡ spec.is_inner draft (view schema.now) (part_of part.now) (part_of inner.now) }
{
    let JsonPointerSegment::Key(key) = part else {
        return false;
    };
    let keyword = key.as_str();
    let is_held = match inner {
        JsonPointerSegment::Index(_) => is_of_lists(keyword),
        JsonPointerSegment::Key(_) => is_of_maps(draft, keyword),
    };
    is_held && counts(draft, schema, keyword)
}

// What a part of a path leads to.
fn child<'v>(value: &'v Value, part: &JsonPointerSegment<'_>) -> Option<&'v Value>
    ensures { option_map (λ v. view v.now) result ≡ child_at (view value.now) (part_of part.now) }
{
    match part {
        JsonPointerSegment::Key(key) => value.get(key.as_str()),
        JsonPointerSegment::Index(index) => value.get(*index),
    }
}

fn below<'v>(value: Option<&'v Value>, part: &JsonPointerSegment<'_>) -> Option<&'v Value>
    ensures { option_map (λ v. view v.now) result
        ≡ spec.below (option_map (λ v. view v.now) value.entry) (part_of part.now) }
{
    match value {
        Some(value) => child(value, part),
        None => None,
    }
}

// Whether a path from a schema leads to one that is applied to the same value. A step for each part.
fn leads(draft: Draft, schema: Option<&Value>, path: &[JsonPointerSegment<'_>]) -> bool
    ensures { result
        ≡ spec.is_in_place draft (option_map (λ v. view v.now) schema.entry) (map part_of path.now) }
{
    let mut at = schema;
    let mut rest = path;
    'parts: while let [part, more @ ..] = rest {
        let Some(schema) = at else {
            return false;
        };
        if is_whole(draft, schema, part) {
            at = child(schema, part);
            rest = more;
            continue;
        }
        let [inner, further @ ..] = more else {
            return false;
        };
        if !is_inner(draft, schema, part, inner) {
            return false;
        }
        at = below(child(schema, part), inner);
        rest = further;
    }
    at.is_some()
}

/// Of each beginning of a path from a root, the shortest first, whether the rest of the path leads from there to a schema that is applied to the same value as the
/// schema there: through `not`, `allOf`, `anyOf`, `oneOf`, and where the draft has them `if`, `then` and `else` beside an `if`, `dependentSchemas` and
/// `dependencies`, unless a `$ref` is beside them in Drafts 4 to 7. The whole path leads to itself. A flag for each beginning, one more than the path has parts.
/// Fails only if out of memory. Linear in the parts for each of them.
pub fn in_place(
    alloc: Global,
    draft: Draft,
    root: &Value,
    path: &[JsonPointerSegment<'_>],
) -> Result<Vec<bool>, AllocError>
    ensures value { IfOk result (λ flags. flags.items
        ≡ spec.in_place draft (Some (view root.now)) (map part_of path.now)) }
{
    let mut flags = Vec::new(alloc);
    let mut at = Some(root);
    let mut rest = path;
    'parts: while let [part, more @ ..] = rest {
        flags.push(leads(draft, at, rest))?;
        at = below(at, part);
        rest = more;
    }
    flags.push(leads(draft, at, rest))?;
    Ok(flags)
}
