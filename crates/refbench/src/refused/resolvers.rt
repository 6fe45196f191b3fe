//! Calls of resolvers, and steps.
use crate::refused::documents::{SUBRESOURCE, title_of, uri, value};
use crate::refused::stop::{Refusal, Shown, Stop, after, outcome};
use ref_uri::Uri;
use referencing::{
    Draft, FollowError, Followed, Location, Registry, Resolved, Resolver, ResourceRef, Step, follow,
};
use std::alloc::{AllocError, Global};

/// What a call of a resolver returns.
pub fn resolver(alloc: Global, resolver: &Resolver<'_>, call: &str) -> Result<String, Stop> {
    if let Some(reference) = call.strip_prefix("lookup ") {
        return outcome(alloc, resolver.lookup(alloc, reference));
    }
    if let Some(reference) = call.strip_prefix("location ") {
        return outcome(alloc, resolver.location(alloc, reference));
    }
    match call {
        "resolve_uri" => at(alloc, resolver, "z"),
        "resolve_uri cached" => at(alloc, resolver, "x"),
        "resolve_uri invalid" => at(alloc, resolver, "a b"),
        "lookup_recursive_ref" => outcome(alloc, resolver.lookup_recursive_ref(alloc)),
        "location_recursive" => outcome(alloc, resolver.location_recursive(alloc)),
        "in_subresource" => entered(alloc, resolver),
        "clone" => outcome(alloc, resolver.clone()),
        "find_vocabularies" => declared(alloc, resolver),
        "readers" => after(resolver.shown(alloc)),
        "at_base" => based(alloc, resolver),
        _ => Err(Stop::Wrong),
    }
}

/// The title of what a resolver's base means, its draft, the base, and whether the scope has no URI.
fn based(alloc: Global, resolver: &Resolver<'_>) -> Result<String, Stop> {
    let (title, draft) = match resolver.at_base() {
        Some((value, draft)) => (title_of(value), Some(draft)),
        None => ("none", None),
    };
    let base = resolver.base_uri().as_str();
    let is_outermost = resolver.dynamic_scope().is_empty();
    after(format!(in alloc; "{title} {draft:?} {base} {is_outermost}"))
}

fn at(alloc: Global, resolver: &Resolver<'_>, text: &str) -> Result<String, Stop> {
    let base = uri(alloc, "http://a/r")?;
    outcome(alloc, resolver.resolve_uri(alloc, base.borrow(), text))
}

/// The title of what was found with the resolver there.
impl Shown for Resolved<'_> {
    fn shown(&self, alloc: Global) -> Result<String, AllocError> {
        let title = title_of(self.contents());
        let resolver = self.resolver();
        format!(in alloc; "{title} {resolver:?}")
    }
}

impl Shown for Resolver<'_> {
    fn shown(&self, alloc: Global) -> Result<String, AllocError> {
        format!(in alloc; "{self:?}")
    }
}

/// The layer, the number of the document, and the pointer there.
impl Shown for Location<'_> {
    fn shown(&self, alloc: Global) -> Result<String, AllocError> {
        let pointer = self.pointer(alloc)?;
        let (layer, document) = (self.layer, self.document);
        format!(in alloc; "{layer} {document} {pointer}")
    }
}

/// The resolver to which steps lead.
impl Shown for Followed<'_> {
    fn shown(&self, alloc: Global) -> Result<String, AllocError> {
        self.resolver.shown(alloc)
    }
}

/// The vocabularies of a schema.
fn declared(alloc: Global, resolver: &Resolver<'_>) -> Result<String, Stop> {
    let schema = value(alloc, SUBRESOURCE)?;
    outcome(
        alloc,
        resolver.find_vocabularies(alloc, Draft::Unknown, &schema),
    )
}

fn entered(alloc: Global, resolver: &Resolver<'_>) -> Result<String, Stop> {
    let schema = value(alloc, SUBRESOURCE)?;
    let resource = ResourceRef::new(&schema, Draft::Draft202012);
    outcome(alloc, resolver.in_subresource(alloc, resource))
}

/// What steps return, and a new resolver.
pub fn steps(alloc: Global, registry: &Registry<'_>, call: &str) -> Result<String, Stop> {
    let base = uri(alloc, "http://a/r")?;
    match call {
        "resolver" => outcome(alloc, registry.resolver(alloc, base)),
        "follow" => followed(alloc, registry, base),
        "follow to a fault" => followed_to_fault(alloc, registry, base),
        _ => Err(Stop::Wrong),
    }
}

fn followed(alloc: Global, registry: &Registry<'_>, base: Uri) -> Result<String, Stop> {
    let schema = value(alloc, SUBRESOURCE)?;
    let steps = [
        Step::Lookup("x"),
        Step::Recursive,
        Step::Lookup("y"),
        Step::Enter(ResourceRef::new(&schema, Draft::Draft202012)),
    ];
    outcome(alloc, follow(alloc, registry, base, &steps))
}

fn followed_to_fault(alloc: Global, registry: &Registry<'_>, base: Uri) -> Result<String, Stop> {
    let steps = [Step::Lookup("x"), Step::Lookup("#none")];
    match follow(alloc, registry, base, &steps) {
        Ok(_followed) => Err(Stop::Wrong),
        Err(ended) => fault_of_step(alloc, &ended),
    }
}

/// The number of the step that finds no value, with its fault.
fn fault_of_step(alloc: Global, ended: &FollowError) -> Result<String, Stop> {
    let (step, error) = (ended.step, &ended.error);
    if error.is_memory() {
        return Err(Stop::Refused);
    }
    after(format!(in alloc; "{step}: {error}"))
}
