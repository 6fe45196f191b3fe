//! Steps that are followed one after another from a base URI.
ghost use Rattle.std.specs.Prelude.{◌≡◌, ◌≤◌, [], map, length, IfOk, IfErr, Result};
ghost use Rattle.ref_definitions.specs.Fault.{Fault};
ghost use Rattle.ref_definitions.specs.Follow as world;
ghost use Rattle.ref_definitions.specs.Lookup as world_lookup;
ghost use Rattle.ref_definitions.specs.World.{World};
ghost use Rattle.referencing.specs.declared.steps.Step.TheVariants.{Enter};
ghost use Rattle.ref_definitions.specs.Lookup.{lookup};
ghost use Rattle.ref_error.specs.Errors.{Gives};
ghost use Rattle.ref_resolver.specs.Resolving.{resolver_of, world_of, found_of, world_found};
ghost use Rattle.referencing.specs.Following.{step_of, followed_of, GivesSteps, ReachesStep};
ghost use Rattle.referencing.specs.inner.Steps.{after_found};

use crate::registry::Registry;
use ref_draft::{Draft, ResourceRef};
use ref_error::Error;
use ref_parts::list::List;
use ref_resolver::{Resolved, Resolver};
use ref_uri::Uri;
use serde_json::Value;
use std::alloc::{AllocError, Global};
use std::fmt;
use std::rc::Rc;

/// A step: a reference that is looked up, a `$recursiveRef`, or a resource that is entered, whose identifier changes the base.
#[derive(Clone, Copy, Drop)]
pub enum Step<'s> {
    /// A reference, as it is under `$ref` or `$dynamicRef`.
    Lookup(&'s str),
    /// The `$recursiveRef` of 2019-09.
    Recursive,
    /// A resource that is in the one before.
    Enter(ResourceRef<'s>),
}

/// Where steps lead: the value that was looked up last with its draft, if one was, and the resolver there.
#[derive(Debug, Drop)]
pub struct Followed<'r> {
    /// The value that the last look-up found, which is the document's own, and its draft; `None` where there was no look-up.
    pub last: Option<(&'r Value, Draft)>,
    /// The resolver there, from which a caller goes on.
    pub resolver: Resolver<'r>,
}

/// Why a step finds no value. It displays as `Step 0: ` and the text of its error.
#[derive(Debug, PartialEq, Eq, Drop)]
pub struct FollowError {
    /// The number of the step, from 0.
    pub step: usize,
    /// Its fault, or that memory ran out.
    pub error: Error,
}

impl fmt::Display for FollowError {
    ghost use Rattle.std.specs.Prelude.{Some};
    ghost use Rattle.referencing.specs.Following.{follow_error_text};

    ghost output = { λ e. Some (follow_error_text e) };

    fn fmt<W: fmt::Write>(&self, f: &mut fmt::Formatter<W>) -> fmt::Result {
        let (step, error) = (self.step, &self.error);
        write!(f, "Step {step}: {error}")
    }
}

// What a lookup found.
fn after_lookup<'r>(found: Resolved<'r>) -> Followed<'r>
    ensures value { followed_of result ≡ world.after_lookup (found_of found.entry) }
    ensures world { world_of result.resolver ≡ world_found found.entry }
{
    let (value, resolver, draft) = found.into_inner();
    Followed {
        last: Some((value, draft)),
        resolver,
    }
}

// What a look-up led to, or its error.
fn after_found<'r>(found: Result<Resolved<'r>, Error>) -> Result<Followed<'r>, Error>
    ensures gives { (meant : Result world_lookup.Found Fault) → Gives found_of meant found.entry
        → Gives followed_of (after_found meant) result }
    ensures world { (documents : World) → IfOk found.entry (λ f. world_found f ≡ documents)
        → IfOk result (λ f. world_of f.resolver ≡ documents) }
{
    match found {
        Ok(found) => Ok(after_lookup(found)),
        Err(error) => Err(error),
    }
}

// Where entering a resource leads.
fn after_entering<'r>(
    alloc: Global,
    followed: &Followed<'r>,
    resource: ResourceRef<'_>,
) -> Result<Followed<'r>, Error>
    ensures gives { Gives followed_of
        (world.after_step (world_of followed.now.resolver) (followed_of followed.now)
        (step_of (Enter resource.entry))) result }
    ensures world { IfOk result (λ f. world_of f.resolver ≡ world_of followed.now.resolver) }
{
    match followed.resolver.in_subresource(alloc, resource) {
        Ok(resolver) => Ok(Followed {
            last: followed.last,
            resolver,
        }),
        Err(error) => Err(error),
    }
}

// One step further.
fn stepped<'r>(
    alloc: Global,
    followed: &Followed<'r>,
    step: &Step<'_>,
) -> Result<Followed<'r>, Error>
    ensures gives { Gives followed_of
        (world.after_step (world_of followed.now.resolver) (followed_of followed.now)
        (step_of step.now)) result }
    ensures world { IfOk result (λ f. world_of f.resolver ≡ world_of followed.now.resolver) }
{
    let resolver = &followed.resolver;
    match step {
        Step::Lookup(reference) => after_found(resolver.lookup(alloc, reference)),
        Step::Recursive => after_found(resolver.lookup_recursive_ref(alloc)),
        Step::Enter(resource) => after_entering(alloc, followed, *resource),
    }
}

impl<'a> Registry<'a> {
    /// A resolver at a base URI, with an empty dynamic scope. The URI need not mean a place, which is looked for once. Takes
    /// memory for a handle.
    pub fn resolver<'r>(&'r self, alloc: Global, base: Uri) -> Result<Resolver<'r>, AllocError>
        ensures resolver { IfOk result (λ r. resolver_of r ≡ record { base = base; scope = [] }) }
        ensures world { IfOk result (λ r. world_of r ≡ self.now) }
    {
        Ok(Resolver::new(alloc, self.layers(), base)?.with_place())
    }

    /// A resolver at a base URI with a dynamic scope, inner to outer, such as [`Resolver::into_parts`] gives. No URI
    /// need mean a place. Takes no memory.
    pub fn resolver_from_parts<'r>(&'r self, base: Rc<Uri>, scope: List<Uri>) -> Resolver<'r>
        ensures resolver { resolver_of result ≡ record { base = base.value; scope = scope } }
        ensures world { world_of result ≡ self.now }
    {
        Resolver::from_parts(self.layers(), base, scope)
    }

    /// Where a reference leads from a base URI with an empty dynamic scope: [`Resolver::lookup`] from a new resolver
    /// there, whose errors and cost it has.
    pub fn lookup<'r>(
        &'r self,
        alloc: Global,
        base: Uri,
        reference: &str,
    ) -> Result<Resolved<'r>, Error>
        ensures gives { Gives found_of
            (lookup self.now (record { base = base; scope = [] }) reference.now) result }
        ensures world { IfOk result (λ found. world_found found ≡ self.now) }
    {
        Resolver::new(alloc, self.layers(), base)?.lookup(alloc, reference)
    }
}

/// Where steps lead, one after another, from a base URI with an empty dynamic scope: each lookup starts from what the last one
/// returned.
///
/// The first step that finds no value ends it, with its number and the fault of [`Resolver::lookup`],
/// [`Resolver::lookup_recursive_ref`] or [`Resolver::in_subresource`]; so does out of memory, with the number of the step that
/// wanted it, or 0 before the first. All steps before that one lead somewhere. Costs what the steps cost; no value is copied.
pub fn follow<'r, 'a>(
    alloc: Global,
    registry: &'r Registry<'a>,
    base: Uri,
    steps: &[Step<'_>],
) -> Result<Followed<'r>, FollowError>
    ensures gives { GivesSteps (world.followed_steps registry.now base (map step_of steps.now))
        result }
    ensures world { IfOk result (λ f. world_of f.resolver ≡ registry.now) }
    ensures step { IfErr result (λ e. e.step ≤ length steps.now) }
    ensures reached { IfErr result
        (λ e. ReachesStep registry.now base (map step_of steps.now) e.step) }
{
    let resolver = match Resolver::new(alloc, registry.layers(), base) {
        Ok(resolver) => resolver,
        Err(error) => return Err(FollowError {
            step: 0,
            error: error.into(),
        }),
    };
    let mut followed = Followed {
        last: None,
        resolver,
    };
    for (number, step) in steps.iter().enumerate() {
        followed = match stepped(alloc, &followed, step) {
            Ok(next) => next,
            Err(error) => return Err(FollowError {
                step: number,
                error,
            }),
        };
    }
    Ok(followed)
}
