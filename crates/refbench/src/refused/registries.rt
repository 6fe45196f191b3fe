//! Calls of a registry of a document and of one that was retrieved, above one of a meta-schema; and of resolvers in it.
use crate::refused::builders::known;
use crate::refused::documents::{DOCUMENT, META, SUBRESOURCE, retrieving, uri, value};
use crate::refused::resolvers::{resolver, steps};
use crate::refused::stop::{Shown, Stop, after, before, outcome};
use crate::refused::trial::{Calls, Trial, tried};
use ref_lint::{Dangling, dangling};
use ref_uri::Uri;
use referencing::{Draft, JsonPointerSegment, Place, Registry, Resolver};
use serde_json::Value;
use std::alloc::{AllocError, Global};
use std::rc::Rc;

/// A registry, a resolver at its document, and one that a reference of it leads to.
#[derive(Drop)]
struct Scene<'s, 'a, 'o, 'i> {
    registry: &'s Registry<'a>,
    outer: Resolver<'o>,
    inner: Resolver<'i>,
}

/// The calls that are made again of the same registry and resolvers once one of them wanted memory: those that change nothing.
const NEIGHBOURS: [&str; 32] = [
    "contains_resource",
    "resolve_uri",
    "clone",
    "places",
    "locate",
    "find_vocabularies",
    "dangling",
    "outer.lookup #",
    "outer.lookup x",
    "outer.lookup x#n",
    "outer.lookup y",
    "outer.lookup #/$defs/x/title",
    "outer.lookup #/%24defs/x",
    "outer.lookup http://a/m",
    "outer.lookup http://a/none",
    "outer.lookup a b",
    "outer.lookup #none",
    "outer.lookup #no/ne",
    "outer.lookup #/none",
    "outer.lookup #/enum/e",
    "outer.lookup #/%FF",
    "outer.resolve_uri",
    "inner.lookup #",
    "inner.lookup #d",
    "inner.lookup_recursive_ref",
    "inner.in_subresource",
    "inner.clone",
    "inner.find_vocabularies",
    "inner.readers",
    "resolver",
    "follow",
    "follow to a fault",
];

/// The row of a call.
pub fn row(alloc: Global, call: &str) -> Result<Trial, Stop> {
    let meta = value(alloc, META)?;
    let pairs = [("http://a/m", &meta)];
    let parent = before(Registry::from_meta_schemas(alloc, &pairs))?;
    row_above(alloc, &parent, call)
}

/// The row of a call above a registry.
fn row_above(alloc: Global, parent: &Registry<'_>, call: &str) -> Result<Trial, Stop> {
    let document = value(alloc, DOCUMENT)?;
    let registry = before(retrieving(alloc, parent, &document)?.prepare())?;
    among(alloc, &registry, call)
}

fn among(alloc: Global, registry: &Registry<'_>, call: &str) -> Result<Trial, Stop> {
    let outer = registry.resolver(alloc, uri(alloc, "http://a/r")?)?;
    let (_, inner, _) = before(outer.lookup(alloc, "x"))?.into_inner();
    let mut scene = Scene {
        registry,
        outer,
        inner,
    };
    tried(alloc, &mut scene, "registries", call, &NEIGHBOURS)
}

impl Calls for Scene<'_, '_, '_, '_> {
    fn answer(&mut self, alloc: Global, call: &str) -> Result<String, Stop> {
        if let Some(call) = call.strip_prefix("outer.") {
            return resolver(alloc, &self.outer, call);
        }
        match call.strip_prefix("inner.") {
            Some(call) => resolver(alloc, &self.inner, call),
            None => registry(alloc, self.registry, call),
        }
    }
}

fn registry(alloc: Global, registry: &Registry<'_>, call: &str) -> Result<String, Stop> {
    match call {
        "contains_resource" => contained(alloc, registry, "HTTP://a/%78"),
        "contains_resource none" => contained(alloc, registry, "http://a/none"),
        "contains_resource each" => known(alloc, registry),
        "resolve_uri" => at(alloc, registry, "z"),
        "resolve_uri cached" => at(alloc, registry, "x"),
        "resolve_uri cached by a copy" => by_copy(alloc, registry, "x"),
        "resolve_uri invalid" => at(alloc, registry, "a b"),
        "resolved_uri" => lent(alloc, registry, "x"),
        "value_at" => valued(alloc, registry),
        "clone" => outcome(alloc, registry.clone()),
        "places" => outcome(alloc, registry.places(alloc)),
        "locate" => located(alloc, registry, "x"),
        "locate nothing" => located(alloc, registry, "z"),
        "dangling" => unresolvable(alloc, registry),
        "find_vocabularies" => declared(alloc, registry),
        _ => steps(alloc, registry, call),
    }
}

/// Whether a URI means a place.
pub fn contained(alloc: Global, registry: &Registry<'_>, uri: &str) -> Result<String, Stop> {
    outcome(alloc, registry.contains_resource(alloc, uri))
}

impl Shown for Rc<Uri> {
    fn shown(&self, alloc: Global) -> Result<String, AllocError> {
        String::from_str(alloc, self.as_str())
    }
}

fn at(alloc: Global, registry: &Registry<'_>, text: &str) -> Result<String, Stop> {
    let base = uri(alloc, "http://a/r")?;
    outcome(alloc, registry.resolve_uri(alloc, base.borrow(), text))
}

/// By a copy, which is made before.
fn by_copy(alloc: Global, registry: &Registry<'_>, text: &str) -> Result<String, Stop> {
    let copy = registry.clone()?;
    at(alloc, &copy, text)
}

/// The vocabularies of a schema.
fn declared(alloc: Global, registry: &Registry<'_>) -> Result<String, Stop> {
    let schema = value(alloc, SUBRESOURCE)?;
    outcome(
        alloc,
        registry.find_vocabularies(alloc, Draft::Unknown, &schema),
    )
}

fn lent(alloc: Global, registry: &Registry<'_>, text: &str) -> Result<String, Stop> {
    let base = uri(alloc, "http://a/r")?;
    match registry.resolved_uri(&base.borrow(), text) {
        Some(uri) => after(String::from_str(alloc, uri.as_str())),
        None => after(String::from_str(alloc, "none")),
    }
}

fn valued(alloc: Global, registry: &Registry<'_>) -> Result<String, Stop> {
    let path = [
        JsonPointerSegment::from("enum"),
        JsonPointerSegment::from(0usize),
    ];
    let text = registry.value_at(0, &path).and_then(Value::as_str);
    after(String::from_str(alloc, text.unwrap_or("none")))
}

/// How many places there are.
impl Shown for Vec<Place<'_>> {
    fn shown(&self, alloc: Global) -> Result<String, AllocError> {
        self.len().shown(alloc)
    }
}

fn located(alloc: Global, registry: &Registry<'_>, key: &str) -> Result<String, Stop> {
    let base = uri(alloc, "http://a/r")?;
    let path = [
        JsonPointerSegment::from("$defs"),
        JsonPointerSegment::from(key),
    ];
    outcome(alloc, registry.locate(alloc, &base, &path))
}

/// The unresolvable references, each with its document and its fault.
fn entries(alloc: Global, dangling: &[Dangling<'_>]) -> Result<String, AllocError> {
    let mut text = String::new(alloc);
    for entry in dangling {
        let (document, reference, error) = (entry.document, entry.reference, &entry.error);
        let entry = format!(in alloc; "{document} {reference} {error};")?;
        text.push_str(entry.as_str())?;
    }
    Ok(text)
}

impl Shown for Vec<Dangling<'_>> {
    fn shown(&self, alloc: Global) -> Result<String, AllocError> {
        entries(alloc, self.as_slice())
    }
}

/// The references of a registry that are unresolvable.
pub fn unresolvable(alloc: Global, registry: &Registry<'_>) -> Result<String, Stop> {
    outcome(alloc, dangling(alloc, registry))
}
