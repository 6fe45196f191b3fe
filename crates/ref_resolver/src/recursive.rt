//! Recursive references (2019-09 Core, 8.2.4.2).
ghost use Rattle.std.specs.Prelude.{◌≡◌, IfOk, Ok};
ghost use Rattle.serde_json.specs.View.{view};
ghost use Rattle.ref_definitions.specs.Lookup.{lookup};
ghost use Rattle.ref_definitions.specs.Recursive.{is_marked, lookup_recursive};
ghost use Rattle.ref_error.specs.Errors.{Gives};
ghost use Rattle.ref_resolver.specs.Locations.{recursive_reference};
ghost use Rattle.ref_resolver.specs.Resolving.{resolver_of, world_of, found_of, world_found};

use crate::resolver::{Resolved, Resolver};
use ref_error::Error;
use serde_json::Value;
use std::alloc::Global;

// Whether a value is an object whose `$recursiveAnchor` is true.
fn is_marked(value: &Value) -> bool
    ensures { result ≡ is_marked (view value.now) }
{
    match value.get("$recursiveAnchor") {
        Some(mark) => mark.as_bool() == Some(true),
        None => false,
    }
}

impl<'r> Resolver<'r> {
    /// Where `$recursiveRef` leads: to the resource that the base means, or, where `$recursiveAnchor` is true there, to the
    /// outermost of the dynamic scope, inner to outer, up to which all have it (2019-09 Core, 8.2.4.2).
    ///
    /// Refuses as [`Resolver::lookup`] does for `#` and for the URIs of the scope, up to the first that means another resource.
    /// A look-up for each URI of the scope; no value is copied.
    pub fn lookup_recursive_ref(&self, alloc: Global) -> Result<Resolved<'r>, Error>
        ensures gives { Gives found_of
            (lookup_recursive (world_of self.now) (resolver_of self.now)) result }
        ensures world { IfOk result (λ found. world_found found ≡ world_of self.now) }
    {
        let (resolved, _) = self.recursive(alloc)?;
        Ok(resolved)
    }

    // The same, with a reference that leads there.
    pub(crate) fn recursive(&self, alloc: Global) -> Result<(Resolved<'r>, &str), Error>
        ensures gives { Gives (λ t. found_of t.0)
            (lookup_recursive (world_of self.now) (resolver_of self.now)) result }
        ensures reference { IfOk result
            (λ t. lookup (world_of self.now) (resolver_of self.now) t.1.now ≡ Ok (found_of t.0)) }
        ensures text { IfOk result
            (λ t. recursive_reference (world_of self.now) (resolver_of self.now) ≡ t.1.now) }
        ensures world { IfOk result (λ t. world_found t.0 ≡ world_of self.now) }
    {
        let mut reference = "#";
        let mut resolved = self.lookup(alloc, reference)?;
        if !is_marked(resolved.contents()) {
            return Ok((resolved, reference));
        }
        for uri in &self.scope {
            let text = uri.as_str();
            let outer = self.lookup(alloc, text)?;
            if !is_marked(outer.contents()) {
                return Ok((resolved, reference));
            }
            resolved = outer;
            reference = text;
        }
        Ok((resolved, reference))
    }
}
