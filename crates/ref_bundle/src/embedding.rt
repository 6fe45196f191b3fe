//! How documents are in a bundle.
ghost use Rattle.std.specs.Prelude.{◌≡◌, ◌&&◌, [], ◌∷◌, map, option_map, IfOk, OnOk};
ghost use Rattle.std.specs.List.{AllByRecursion};
ghost use Rattle.serde_json.specs.Data.{string};
ghost use Rattle.serde_json.specs.Find.{as_object};
ghost use Rattle.serde_json.specs.View.{view, members_view};
ghost use Rattle.ref_draft.specs.Keywords.{is_before_2019};
ghost use Rattle.ref_draft.specs.Schema.{identifier};
ghost use Rattle.ref_uri.specs.Targets.{uri_against};
ghost use Rattle.ref_bundle.specs.Embedding.{base_uri, schema_text, is_detected, added_schema, is_uri_of, is_kept};
ghost use Rattle.ref_bundle.specs.Embedding.{is_beside_ref, has_no_identifier, loses_draft, has_dynamic_anchor};
ghost use Rattle.ref_bundle.specs.Embedding.{is_resolved_again, obstacle, with_member, embedded_tree};
ghost use Rattle.ref_bundle.specs.Bundle.{definitions_keyword, definitions_of, members_or_none, member_of, with_all, tree_with};
ghost use Rattle.ref_bundle.specs.Saying.{obstacle_said};
ghost use Rattle.ref_bundle.specs.inner.Seen.{numbered_document, part_document, numbered_part, HasBase, HasPlaces};
ghost use Rattle.ref_bundle.specs.inner.Obstacles.{tree_obstacle, uri_obstacle};

use crate::error::Obstacle;
use crate::own::Own;
use crate::uris::base_uri;
use referencing::uri::resolve_against;
use referencing::{Draft, ResourceRef, Uri, UriFault, trim_hashes};
use serde_json::{Map, Value};
use std::alloc::{AllocError, Global};
use std::rc::Rc;

/// A document of a registry, with its base URI.
#[derive(Drop)]
pub struct Part<'r> {
    /// Its number in the registry.
    pub number: usize,
    /// The URI that it was added or retrieved under.
    pub uri: &'r Uri,
    /// Its tree.
    pub tree: &'r Value,
    /// Its draft.
    pub draft: Draft,
    /// Its base URI: its root's identifier against its URI, or that URI.
    pub base: Rc<Uri>,
}

/// A document with its base URI.
pub(crate) fn part_of<'r>(alloc: Global, own: &Own<'r>) -> Result<Part<'r>, AllocError>
    requires { HasPlaces own.now }
    ensures value { IfOk result (λ p. numbered_part p ≡ numbered_document own.now) }
    ensures base { IfOk result HasBase }
{
    Ok(Part {
        number: own.number,
        uri: own.uri,
        tree: own.tree,
        draft: own.draft,
        base: base_uri(alloc, own)?,
    })
}

/// The keyword of definitions.
pub(crate) fn definitions_keyword(draft: Draft) -> &'static str
    ensures value { result.now ≡ definitions_keyword draft }
{
    match draft {
        Draft::Draft4 | Draft::Draft6 | Draft::Draft7 => "definitions",
        _ => "$defs",
    }
}

// Whether a draft is one in which nothing counts beside a `$ref`.
fn is_before_2019(draft: Draft) -> bool
    ensures { result ≡ is_before_2019 draft }
{
    matches!(draft, Draft::Draft4 | Draft::Draft6 | Draft::Draft7)
}

// The `$schema` of a draft.
fn schema_text(draft: Draft) -> Option<&'static str>
    ensures { option_map (λ s. s.now) result ≡ schema_text draft }
{
    match draft {
        Draft::Draft4 => Some("http://json-schema.org/draft-04/schema#"),
        Draft::Draft6 => Some("http://json-schema.org/draft-06/schema#"),
        Draft::Draft7 => Some("http://json-schema.org/draft-07/schema#"),
        Draft::Draft201909 => Some("https://json-schema.org/draft/2019-09/schema"),
        Draft::Draft202012 => Some("https://json-schema.org/draft/2020-12/schema"),
        Draft::Unknown => None,
    }
}

// Whether a schema of a draft detects the document's draft on its tree.
fn is_detected(draft: Draft, part: &Part<'_>) -> bool
    ensures { result ≡ is_detected draft (part_document part.now) }
{
    draft.detect(part.tree) == part.draft
}

/// The `$schema` that a document has to get below a root of a draft.
pub(crate) fn added_schema(draft: Draft, part: &Part<'_>) -> Option<&'static str>
    ensures value { option_map (λ s. s.now) result ≡ added_schema draft (part_document part.now) }
{
    if is_detected(draft, part) || part.tree.get("$schema").is_some() {
        return None;
    }
    schema_text(part.draft)
}

// Whether a text means a URI against a base.
fn is_given(alloc: Global, outer: &Rc<Uri>, text: &str, uri: &Rc<Uri>) -> Result<bool, AllocError>
    ensures { IfOk result
        (λ is. is ≡ is_uri_of (uri_against outer.now.value text.now) uri.now.value) }
{
    match resolve_against(alloc, outer.borrow(), text) {
        Ok(given) => Ok(given.as_str() == uri.as_str()),
        Err(UriFault::Invalid(error)) => {
            drop(error);
            Ok(false)
        }
        Err(UriFault::Memory(error)) => Err(error),
    }
}

// Whether an identifier gives a URI back, below a root with a base.
fn is_kept(alloc: Global, outer: &Rc<Uri>, uri: &Rc<Uri>) -> Result<bool, AllocError>
    ensures { IfOk result (λ is. is ≡ is_kept outer.now.value uri.now.value) }
{
    if uri.as_str().starts_with('#') {
        return Ok(false);
    }
    is_given(alloc, outer, trim_hashes(uri.as_str()), uri)
}

// Whether a document's base URI gives itself back as its identifier, below a root and against itself.
fn keeps_uri(alloc: Global, top: &Part<'_>, part: &Part<'_>) -> Result<bool, AllocError>
    requires top { HasBase top.now }
    requires part { HasBase part.now }
    ensures { IfOk result (λ is. is
        ≡ (is_kept (base_uri (part_document top.now)) (base_uri (part_document part.now))
        && is_kept (base_uri
        (part_document part.now)) (base_uri (part_document part.now)))) }
{
    Ok(is_kept(alloc, &top.base, &part.base)? && is_kept(alloc, &part.base, &part.base)?)
}

// Whether an identifier of the document would not count beside its `$ref`.
fn is_beside_ref(part: &Part<'_>) -> bool
    ensures { result ≡ is_beside_ref (part_document part.now) }
{
    is_before_2019(part.draft) && part.tree.get("$ref").is_some()
}

// Whether something is under the identifier's keyword that is none.
fn has_no_identifier(part: &Part<'_>) -> bool
    ensures { result ≡ has_no_identifier (part_document part.now) }
{
    part.tree.get(part.draft.id_keyword()).is_some()
        && ResourceRef::new(part.tree, part.draft).id().is_none()
}

// Whether the document's draft would be another one, also with what is added.
fn loses_draft(draft: Draft, part: &Part<'_>) -> bool
    ensures { result ≡ loses_draft draft (part_document part.now) }
{
    !is_detected(draft, part) && added_schema(draft, part).is_none()
}

// Why a document can't be embedded, but for its URI and its draft.
fn obstacle_of_tree(part: &Part<'_>) -> Option<Obstacle>
    ensures { option_map obstacle_said result ≡ tree_obstacle (part_document part.now) }
{
    if !part.tree.is_object() {
        return Some(Obstacle::NotAnObject);
    }
    if is_beside_ref(part) {
        return Some(Obstacle::IdentifierBesideRef);
    }
    if has_no_identifier(part) {
        return Some(Obstacle::NotAnIdentifier);
    }
    None
}

// Whether the root of a document has a dynamic anchor.
fn has_dynamic_anchor(part: &Part<'_>) -> bool
    ensures { result ≡ has_dynamic_anchor (part_document part.now) }
{
    match part.draft {
        Draft::Draft202012 | Draft::Unknown => {
            part.tree
                .get("$dynamicAnchor")
                .and_then(Value::as_str)
                .is_some()
        }
        _ => false,
    }
}

// Whether it has one, and its identifier against the base URI that it gave gives another.
fn is_resolved_again(alloc: Global, part: &Part<'_>) -> Result<bool, AllocError>
    requires { HasBase part.now }
    ensures { IfOk result (λ is. is ≡ is_resolved_again (part_document part.now)) }
{
    if !has_dynamic_anchor(part) {
        return Ok(false);
    }
    match ResourceRef::new(part.tree, part.draft).id() {
        Some(id) => Ok(!is_given(alloc, &part.base, id, &part.base)?),
        None => Ok(false),
    }
}

// Why a document can't be embedded below a root by its URI, its draft and its anchor.
fn obstacle_of_uri(
    alloc: Global,
    top: &Part<'_>,
    part: &Part<'_>,
) -> Result<Option<Obstacle>, AllocError>
    requires top { HasBase top.now }
    requires part { HasBase part.now }
    ensures { IfOk result
        (λ o. option_map obstacle_said o
        ≡ uri_obstacle (part_document top.now) (part_document part.now)) }
{
    if !keeps_uri(alloc, top, part)? {
        return Ok(Some(Obstacle::NotKept(part.base.clone()?)));
    }
    if loses_draft(top.draft, part) {
        return Ok(Some(Obstacle::UnnamedDraft(part.draft)));
    }
    if is_resolved_again(alloc, part)? {
        return Ok(Some(Obstacle::ResolvedAgain));
    }
    Ok(None)
}

/// Why a document can't be embedded below a root: the first reason.
pub(crate) fn obstacle(
    alloc: Global,
    top: &Part<'_>,
    part: &Part<'_>,
) -> Result<Option<Obstacle>, AllocError>
    requires top { HasBase top.now }
    requires part { HasBase part.now }
    ensures value { IfOk result
        (λ o. option_map obstacle_said o
        ≡ obstacle (part_document top.now) (part_document part.now)) }
{
    match obstacle_of_tree(part) {
        Some(obstacle) => Ok(Some(obstacle)),
        None => obstacle_of_uri(alloc, top, part),
    }
}

// An object with a value under a key, in place of the one there or beside the others; other values stay.
fn with_member(alloc: Global, tree: Value, key: &str, value: Value) -> Result<Value, AllocError>
    ensures { IfOk result (λ v. view v ≡ with_member key.now (view value) (view tree)) }
{
    match tree {
        Value::Object(mut map) => {
            map.insert(String::from_str(alloc, key)?, value)?;
            Ok(Value::Object(map))
        }
        other => Ok(other),
    }
}

// A text as a value.
fn text(alloc: Global, text: &str) -> Result<Value, AllocError>
    ensures { IfOk result (λ v. view v ≡ string text.now) }
{
    Ok(Value::String(String::from_str(alloc, text)?))
}

// The tree of a document below a root of a draft.
fn embedded_tree(alloc: Global, draft: Draft, part: &Part<'_>) -> Result<Value, AllocError>
    requires { HasBase part.now }
    ensures { IfOk result (λ v. view v ≡ embedded_tree draft (part_document part.now)) }
{
    let tree = part.tree.clone()?;
    let id = text(alloc, part.base.as_str())?;
    let tree = with_member(alloc, tree, part.draft.id_keyword(), id)?;
    match added_schema(draft, part) {
        Some(schema) => {
            let schema = text(alloc, schema)?;
            with_member(alloc, tree, "$schema", schema)
        }
        None => Ok(tree),
    }
}

// The members of a value that is an object, or none.
fn members_of(alloc: Global, value: Value) -> Map<String, Value>
    ensures { members_view result.entries ≡ members_or_none (as_object (view value)) }
{
    match value {
        Value::Object(map) => map,
        _ => Map::new(alloc),
    }
}

// The definitions that a root has.
fn definitions_of(alloc: Global, top: &Part<'_>) -> Result<Map<String, Value>, AllocError>
    ensures { IfOk result (λ m. members_view m.entries ≡ definitions_of (part_document top.now)) }
{
    match top.tree.get(definitions_keyword(top.draft)) {
        Some(value) => Ok(members_of(alloc, value.clone()?)),
        None => Ok(Map::new(alloc)),
    }
}

// Adds the member of a document.
fn put(
    alloc: Global,
    map: &mut Map<String, Value>,
    draft: Draft,
    part: &Part<'_>,
) -> Result<(), AllocError>
    requires { HasBase part.now }
    ensures { OnOk result
        (members_view map.new.entries ≡ with_all (member_of draft (numbered_part part.now)
        ∷ []) (members_view map.old.entries)) }
{
    let tree = embedded_tree(alloc, draft, part)?;
    map.insert(String::from_str(alloc, part.base.as_str())?, tree)?;
    Ok(())
}

// The definitions of a root, with documents among them.
fn definitions_with(
    alloc: Global,
    top: &Part<'_>,
    parts: &[Part<'_>],
) -> Result<Map<String, Value>, AllocError>
    requires { AllByRecursion HasBase parts.now }
    ensures { IfOk result (λ m. members_view m.entries
        ≡ with_all (map (λ p. member_of top.now.draft (numbered_part p)) parts.now) (definitions_of
        (part_document top.now))) }
{
    let mut map = definitions_of(alloc, top)?;
    for part in parts {
        put(alloc, &mut map, top.draft, part)?;
    }
    Ok(map)
}

/// The tree of a root with documents under its definitions: its own where there are none.
pub(crate) fn tree_with(
    alloc: Global,
    top: &Part<'_>,
    parts: &[Part<'_>],
) -> Result<Value, AllocError>
    requires { AllByRecursion HasBase parts.now }
    ensures value { IfOk result
        (λ v. view v ≡ tree_with (part_document top.now) (map numbered_part parts.now)) }
{
    if parts.is_empty() {
        return top.tree.clone();
    }
    let map = definitions_with(alloc, top, parts)?;
    let tree = top.tree.clone()?;
    with_member(
        alloc,
        tree,
        definitions_keyword(top.draft),
        Value::Object(map),
    )
}
