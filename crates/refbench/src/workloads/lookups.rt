//! Workloads of resolvers: look-ups in a registry of the documents of `registries`, and of a dynamic anchor in a long scope.
//!
//! `chain`, `chain-anchor` and `chain-ref` go on from what the last look-up returned: with the identifiers as absolute URIs, with
//! an anchor after each, and with the `$ref` of the last value. `flat` looks the identifiers up from one resolver, and
//! `flat-ref` the `$ref` of each definition from a resolver at it. `pointer`,
//! `pointer-type`, `pointer-plain` and `anchor` look a fragment up from resolvers at documents or identifiers. `here` looks `#` up
//! where the scope isn't empty, and `resolved` resolves a `$ref` against the base at which it is. Of a dynamic anchor each
//! document of the scope has it, and where the text is `bare` the last one alone. The documents are borrowed, and owned
//! where the call ends with `-owned`.

use crate::workloads::line::Line;
use crate::workloads::registries::{DEFINITIONS, documents_of, lent};
use ref_error::Error;
use ref_uri::uri::from_str;
use referencing::{Draft, Registry, RegistryBuilder, Resolver};
use serde_json::Value;
use std::alloc::{AllocError, Global};

/// The URI of a definition.
fn definition_of(alloc: Global, number: usize) -> Result<String, AllocError> {
    let (document, key) = (number / DEFINITIONS, number % DEFINITIONS);
    format!(in alloc; "http://example.com/d{document}/k{key}")
}

/// The `$ref` of a definition in so many documents.
fn reference_of(alloc: Global, number: usize, size: usize) -> Result<String, AllocError> {
    let (document, key) = (number / DEFINITIONS, number % DEFINITIONS);
    let next = if document + 1 < size { document + 1 } else { 0 };
    format!(in alloc; "../d{next}/k{key}")
}

/// The URI of a definition with its anchor after it.
fn anchor_of(alloc: Global, number: usize) -> Result<String, AllocError> {
    let (document, key) = (number / DEFINITIONS, number % DEFINITIONS);
    format!(in alloc; "http://example.com/d{document}/k{key}#a{key}")
}

/// How many references a kind of look-up has in turn.
fn count_of(kind: &str, size: usize) -> usize {
    match kind {
        "pointer" | "pointer-type" | "pointer-plain" => 1,
        "anchor" => DEFINITIONS,
        _ => size.saturating_mul(DEFINITIONS),
    }
}

/// The reference of a number.
fn numbered(alloc: Global, kind: &str, number: usize, size: usize) -> Result<String, AllocError> {
    match kind {
        "pointer" => String::from_str(alloc, "#/definitions/k7"),
        "pointer-type" => String::from_str(alloc, "#/definitions/k7/type"),
        "pointer-plain" => String::from_str(alloc, "#/definitions"),
        "anchor" => format!(in alloc; "#a{number}"),
        "flat-ref" => reference_of(alloc, number, size),
        "chain-anchor" => anchor_of(alloc, number),
        _ => definition_of(alloc, number),
    }
}

/// What a kind of look-up refers to, one after another.
fn references_of(alloc: Global, kind: &str, size: usize) -> Result<Vec<String>, AllocError> {
    let mut references = Vec::new(alloc);
    for number in 0..count_of(kind, size) {
        references.push(numbered(alloc, kind, number, size)?)?;
    }
    Ok(references)
}

/// How many resolvers a kind of look-up starts from.
fn starts_in(kind: &str, size: usize) -> usize {
    match kind {
        "pointer" | "pointer-type" | "pointer-plain" => size,
        "anchor" | "flat-ref" => size.saturating_mul(DEFINITIONS),
        _ => 1,
    }
}

/// The base of the resolver of a number.
fn base_of(alloc: Global, kind: &str, number: usize) -> Result<String, AllocError> {
    match kind {
        "anchor" | "flat-ref" => definition_of(alloc, number),
        _ => format!(in alloc; "http://example.com/d{number}/"),
    }
}

/// The resolver at the URI of a text.
fn resolver_at<'r>(alloc: Global, registry: &'r Registry<'_>, base: &str) -> Option<Resolver<'r>> {
    let base = from_str(alloc, base).ok()?;
    registry.resolver(alloc, base).ok()
}

/// The resolver of a number.
fn resolver_of<'r>(
    alloc: Global,
    registry: &'r Registry<'_>,
    kind: &str,
    number: usize,
) -> Option<Resolver<'r>> {
    let base = base_of(alloc, kind, number).ok()?;
    resolver_at(alloc, registry, base.as_str())
}

/// The resolvers from which a kind of look-up starts, one after another.
fn resolvers_of<'r>(
    alloc: Global,
    registry: &'r Registry<'_>,
    kind: &str,
    size: usize,
) -> Option<Vec<Resolver<'r>>> {
    let mut resolvers = Vec::new(alloc);
    for number in 0..starts_in(kind, size) {
        let resolver = resolver_of(alloc, registry, kind, number)?;
        push(&mut resolvers, resolver).ok()?;
    }
    Some(resolvers)
}

/// Adds a resolver after the others.
fn push<'r>(resolvers: &mut Vec<Resolver<'r>>, resolver: Resolver<'r>) -> Result<(), AllocError> {
    resolvers.push(resolver)?;
    Ok(())
}

/// What is looked up in turn: each resolver with its reference, the shorter of both lists over and over.
fn starts_of<'s, 'r>(
    alloc: Global,
    resolvers: &'s [Resolver<'r>],
    references: &'s [String],
) -> Result<Vec<(&'s Resolver<'r>, &'s str)>, AllocError> {
    let count = resolvers.len().max(references.len());
    let mut starts = Vec::with_capacity(alloc, count)?;
    for number in 0..count {
        let resolver = number.checked_rem(resolvers.len());
        let reference = number.checked_rem(references.len());
        if let (Some(resolver), Some(reference)) = (resolver, reference) {
            starts.push((&resolvers[resolver], references[reference].as_str()))?;
        }
    }
    Ok(starts)
}

/// How many look-ups are made that start from resolvers in turn.
fn from_each(alloc: Global, starts: &[(&Resolver<'_>, &str)], times: u32) -> Result<u64, Error> {
    let mut sum: u64 = 0;
    let mut place = 0;
    for _ in 0..times {
        if place == starts.len() {
            place = 0;
        }
        let Some((resolver, reference)) = starts.get(place) else {
            return Ok(sum);
        };
        resolver.lookup(alloc, reference)?;
        place = place.saturating_add(1);
        sum = sum.saturating_add(1);
    }
    Ok(sum)
}

/// How many look-ups are made, each from the answer of the last.
fn in_turn(
    alloc: Global,
    start: Resolver<'_>,
    references: &[String],
    times: u32,
) -> Result<u64, Error> {
    let mut resolver = start;
    let mut sum: u64 = 0;
    for turn in 0..times as usize {
        if let Some(place) = turn.checked_rem(references.len()) {
            let found = resolver.lookup(alloc, references[place].as_str())?;
            resolver = found.into_inner().1;
            sum = sum.saturating_add(1);
        }
    }
    Ok(sum)
}

/// How many `$ref`s are followed, each of the value that the last one led to. Other kinds, with values of their own,
/// stay out of its loop.
#[inline(never)]
fn along_references(alloc: Global, start: Resolver<'_>, times: u32) -> Result<u64, Error> {
    let mut found = start.lookup(alloc, "../d0/k0")?;
    let mut sum: u64 = 0;
    for _ in 0..times {
        let reference = found.contents().get("$ref").and_then(Value::as_str);
        found = found.resolver().lookup(alloc, reference.unwrap_or(""))?;
        sum = sum.saturating_add(1);
    }
    Ok(sum)
}

/// How many times a resolver with a scope returns `#`, or resolves a `$ref` of its documents.
fn here(alloc: Global, start: Resolver<'_>, is_lookup: bool, times: u32) -> Result<u64, Error> {
    let resolver = start.lookup(alloc, "../d0/k0")?.into_inner().1;
    let mut sum: u64 = 0;
    for _ in 0..times {
        if is_lookup {
            resolver.lookup(alloc, "#")?;
        } else {
            resolver.resolve_uri(alloc, resolver.base_uri().borrow(), "../d1/k0")?;
        }
        sum = sum.saturating_add(1);
    }
    Ok(sum)
}

/// How many look-ups of a kind are made, each from the answer of the last.
fn chained(alloc: Global, start: Resolver<'_>, kind: &str, size: usize, times: u32) -> Option<u64> {
    let references = references_of(alloc, kind, size).ok()?;
    in_turn(alloc, start, references.as_slice(), times).ok()
}

/// How many look-ups are made that start from resolvers in turn, each with its reference.
fn spread(
    alloc: Global,
    resolvers: &[Resolver<'_>],
    references: &[String],
    times: u32,
) -> Option<u64> {
    let starts = starts_of(alloc, resolvers, references).ok()?;
    from_each(alloc, starts.as_slice(), times).ok()
}

/// How many look-ups of a kind are made that start from resolvers in turn.
fn from_resolvers(
    alloc: Global,
    registry: &Registry<'_>,
    kind: &str,
    size: usize,
    times: u32,
) -> Option<u64> {
    let references = references_of(alloc, kind, size).ok()?;
    let resolvers = resolvers_of(alloc, registry, kind, size)?;
    spread(alloc, resolvers.as_slice(), references.as_slice(), times)
}

/// How many look-ups of a kind are made in a registry.
fn looked_up(
    alloc: Global,
    registry: &Registry<'_>,
    kind: &str,
    size: usize,
    times: u32,
) -> Option<u64> {
    if !["chain", "chain-anchor", "chain-ref", "here", "resolved"].contains(&kind) {
        return from_resolvers(alloc, registry, kind, size, times);
    }
    let start = resolver_at(alloc, registry, "http://example.com/d0/k0")?;
    match kind {
        "chain-ref" => along_references(alloc, start, times).ok(),
        "here" => here(alloc, start, true, times).ok(),
        "resolved" => here(alloc, start, false, times).ok(),
        _ => chained(alloc, start, kind, size, times),
    }
}

/// The URI of a document with a dynamic anchor.
fn node_uri_of(alloc: Global, number: usize) -> Result<String, AllocError> {
    format!(in alloc; "http://example.com/t{number}")
}

/// A document with an anchor, under its URI.
fn node_of(alloc: Global, number: usize, keyword: &str) -> Option<(String, Value)> {
    let uri = node_uri_of(alloc, number).ok()?;
    let text = format!(in alloc; "{{\"$id\":\"{uri}\",\"{keyword}\":\"node\"}}").ok()?;
    let value = Value::from_str(alloc, text.as_str()).ok()?;
    Some((uri, value))
}

/// The keyword of the document of a number: of a dynamic anchor, or a comment in its place.
fn keyword_of(line: Line<'_>, number: usize) -> &'static str {
    if line.text == "bare" && number.saturating_add(1) < line.size {
        "$comment"
    } else {
        "$dynamicAnchor"
    }
}

/// The documents of a scope.
fn nodes_of(alloc: Global, line: Line<'_>) -> Option<Vec<(String, Value)>> {
    let mut documents = Vec::new(alloc);
    for number in 0..line.size {
        documents
            .push(node_of(alloc, number, keyword_of(line, number))?)
            .ok()?;
    }
    Some(documents)
}

/// The resolver to which the URI of the document of a number leads.
fn at_node<'r>(alloc: Global, resolver: &Resolver<'r>, number: usize) -> Option<Resolver<'r>> {
    let uri = node_uri_of(alloc, number).ok()?;
    let found = resolver.lookup(alloc, uri.as_str()).ok()?;
    Some(found.into_inner().1)
}

/// A resolver whose scope has the URIs of so many such documents.
fn among_nodes<'r>(alloc: Global, registry: &'r Registry<'_>, size: usize) -> Option<Resolver<'r>> {
    let mut resolver = resolver_at(alloc, registry, "http://example.com/t0")?;
    for number in 0..size {
        resolver = at_node(alloc, &resolver, number)?;
    }
    Some(resolver)
}

/// How many times a dynamic anchor is found in a scope.
fn dynamically(alloc: Global, resolver: &Resolver<'_>, times: u32) -> Result<u64, Error> {
    let mut sum: u64 = 0;
    for _ in 0..times {
        resolver.lookup(alloc, "#node")?;
        sum = sum.saturating_add(1);
    }
    Ok(sum)
}

/// How many look-ups of a line are made in the registry that a builder prepares.
fn prepared(alloc: Global, builder: RegistryBuilder<'_>, line: Line<'_>) -> Option<u64> {
    let registry = builder.prepare().ok()?;
    if is_dynamic(line.call) {
        let resolver = among_nodes(alloc, &registry, line.size)?;
        return dynamically(alloc, &resolver, line.times).ok();
    }
    looked_up(alloc, &registry, line.text, line.size, line.times)
}

/// Whether a dynamic anchor is looked up.
fn is_dynamic(call: &str) -> bool {
    call.starts_with("dynamic")
}

/// The documents of a line.
fn documents_for(alloc: Global, line: Line<'_>) -> Option<Vec<(String, Value)>> {
    if is_dynamic(line.call) {
        nodes_of(alloc, line)
    } else {
        documents_of(alloc, line.size)
    }
}

/// How many look-ups of a line are made in documents that are owned.
fn owned(alloc: Global, documents: Vec<(String, Value)>, line: Line<'_>) -> Option<u64> {
    let builder = Registry::new(alloc).draft(Draft::Draft202012);
    prepared(alloc, builder.extend(documents).ok()?, line)
}

/// The same in documents that are borrowed.
fn borrowed(alloc: Global, documents: &[(String, Value)], line: Line<'_>) -> Option<u64> {
    let documents = lent(alloc, documents).ok()?;
    let builder = Registry::new(alloc).draft(Draft::Draft202012);
    prepared(alloc, builder.extend(documents).ok()?, line)
}

/// How many look-ups of a line are made; nothing where one is refused.
pub fn answer(alloc: Global, line: Line<'_>) -> Option<u64> {
    let documents = documents_for(alloc, line)?;
    if line.call.ends_with("-owned") {
        return owned(alloc, documents, line);
    }
    borrowed(alloc, documents.as_slice(), line)
}
