//! What a look-up is asked of.
ghost use Rattle.std.specs.Prelude.{◌≡◌, IfOk};
ghost use Rattle.serde_json.specs.View.{view};
ghost use Rattle.ref_calls.specs.Outcome.{Answers};
ghost use Rattle.ref_resolver.specs.Resolving.{world_of};
ghost use Rattle.ref_serve.specs.State as spec;
ghost use Rattle.ref_serve.specs.Results as results;
ghost use Rattle.ref_calls.specs.Given.{scope_given};
ghost use Rattle.ref_serve.specs.inner.Seen.{asked_view, start_view};

use crate::registry::{layer_number, registry_of};
use crate::state::{Open, State};
use ref_calls::field::{base_of, is_set};
use ref_calls::scope::{GivenScope, Kept, scope_of};
use ref_json::Stop;
use ref_parts::list::List;
use ref_uri::Uri;
use referencing::Resolver;
use serde_json::Value;
use std::alloc::{AllocError, Global};
use std::rc::Rc;

/// A registry with its number and the scopes that are kept for it, whether answers have values, whether dynamic references have
/// candidates, and with which kept scope the one that is asked from ends.
#[derive(Clone, Copy, Drop)]
pub struct Asked<'s> {
    pub number: usize,
    pub registry: &'s Open,
    pub scopes: &'s [List<Uri>],
    pub values: bool,
    pub candidates: bool,
    pub kept: Option<Kept<'s>>,
}

/// What is asked, and where it is looked up from.
#[derive(Drop)]
pub struct Start<'s> {
    pub asked: Asked<'s>,
    pub resolver: Resolver<'s>,
}

impl<'s> Asked<'s> {
    /// The number of the registry of a layer: 0 is the registry itself, and its parents follow, nearest first.
    pub fn layer(&self, layer: usize) -> usize
        ensures value { result ≡ spec.layer_number self.now.number self.now.registry.now.1 layer }
    {
        layer_number(self.number, self.registry, layer)
    }
}

/// The registry that is asked, and whether answers have values.
#[tactic(auto, unfolding(crate::specs::Results::asked_of))]
pub fn asked_of<'s>(alloc: Global, state: &'s State, tree: &Value) -> Result<Asked<'s>, Stop<Value>>
    ensures { Answers asked_view result (results.asked_of state.now (view tree.now)) }
{
    let (number, registry) = registry_of(alloc, state, tree)?;
    let values = is_set(alloc, tree, "values")?;
    Ok(Asked {
        number,
        registry,
        scopes: state.scopes(number),
        values,
        candidates: false,
        kept: None,
    })
}

/// What is asked, from a base and a scope.
pub fn start_from<'s>(
    alloc: Global,
    asked: Asked<'s>,
    base: Uri,
    scope: GivenScope<'s>,
) -> Result<Start<'s>, AllocError>
    ensures start { IfOk result
        (λ s. start_view s
        ≡ results.start_from (asked_view asked.entry) base (scope_given scope.entry)) }
    ensures world { IfOk result (λ s. world_of s.resolver ≡ s.asked.registry.now.0) }
{
    let GivenScope { uris, kept } = scope;
    let base = Rc::new(alloc, base)?;
    let mut asked = asked;
    asked.kept = kept;
    Ok(Start {
        asked,
        resolver: asked.registry.registry().resolver_from_parts(base, uris),
    })
}

/// The same from the base and the dynamic scope of a call.
#[tactic(auto, unfolding(crate::specs::Results::start_of))]
pub fn start_of<'s>(alloc: Global, asked: Asked<'s>, tree: &Value) -> Result<Start<'s>, Stop<Value>>
    ensures start { Answers start_view result
        (results.start_of (asked_view asked.entry) (view tree.now)) }
    ensures world { IfOk result (λ s. world_of s.resolver ≡ s.asked.registry.now.0) }
{
    let base = base_of(alloc, tree)?;
    let scope = scope_of(alloc, asked.scopes, tree)?;
    Ok(start_from(alloc, asked, base, scope)?)
}
