//! From the bytes of a request to its report.
ghost use Rattle.std.specs.Prelude.{◌≡◌, IfOk, Ok, false, map, option_map, unwrap_or};
ghost use Rattle.serde_json.specs.View.{view};
ghost use Rattle.ref_definitions.specs.Follow.{followed_steps};
ghost use Rattle.ref_definitions.specs.Pending.{builder_draft};
ghost use Rattle.referencing.specs.Following as following;
ghost use Rattle.ref_report.specs.Report.{step_in, followed_report, lint_lines, with_lines, IsRequestReport, IsReadReport, IsReport};
ghost use Rattle.ref_report.specs.Request as spec;
ghost use Rattle.ref_report.specs.inner.Floats.{RequestHoldsNoFloat, WorldHoldsNoFloat};
ghost use Rattle.ref_report.specs.inner.View.{request_view, step_view, report_view};

use crate::lint::push_dangling;
use crate::report::{Report, bad_report, done_report, fault_report, step_report};
use crate::request::{BadRequest, Request, Step, request_of};
use crate::worlds::{parent_of, world_of};
use ref_json::{Stop, tree_of};
use referencing::{Draft, Registry, Uri, follow};
use serde_json::Value;
use std::alloc::{AllocError, Global};

/// The report on the bytes of a request. Takes memory for the tree, the request, what is prepared and followed, and the
/// report.
pub fn answer(alloc: Global, bytes: &[u8]) -> Result<Report, AllocError>
    ensures report { IfOk result (λ r. IsReport bytes.now (report_view r)) }
{
    match tree_of(alloc, bytes) {
        Ok(tree) => answer_tree(alloc, &tree),
        Err(Stop::Memory) => Err(AllocError),
        Err(Stop::Because(_)) => bad_report(alloc, BadRequest::NotJson),
    }
}

fn answer_tree(alloc: Global, tree: &Value) -> Result<Report, AllocError>
    ensures { IfOk result (λ r. IsReadReport (spec.request_of (view tree.now)) (report_view r)) }
{
    match request_of(alloc, tree) {
        Ok(request) => answer_request(alloc, request),
        Err(Stop::Memory) => Err(AllocError),
        Err(Stop::Because(bad)) => bad_report(alloc, bad),
    }
}

// The documents are lent to the registries, and values to the steps.
fn answer_request(alloc: Global, request: Request<'_>) -> Result<Report, AllocError>
    requires { RequestHoldsNoFloat (request_view request) }
    ensures { IfOk result (λ r. IsRequestReport (request_view request.entry) (report_view r)) }
{
    let parent = match parent_of(alloc, request.meta) {
        Ok(parent) => parent,
        Err(error) => return fault_report(alloc, "meta", error),
    };
    let (draft, limit, lint) = (request.draft, request.limit, request.lint);
    match world_of(
        alloc,
        &parent,
        request.documents,
        request.remote,
        draft,
        limit,
    ) {
        Ok(registry) => {
            let base = request.base;
            let steps = request.steps.as_slice();
            world_report(alloc, &registry, base, steps, draft, lint)
        }
        Err(error) => fault_report(alloc, "prepare", error),
    }
}

// The report on steps in a registry.
fn world_report(
    alloc: Global,
    registry: &Registry<'_>,
    base: Uri,
    steps: &[Step<'_>],
    draft: Option<Draft>,
    lint: Option<bool>,
) -> Result<Report, AllocError>
    requires { WorldHoldsNoFloat registry.now }
    ensures { IfOk result
        (λ r. report_view r ≡ with_lines (lint_lines (unwrap_or lint false) registry.now)
        (followed_report
        (followed_steps registry.now base
        (map (step_in (builder_draft draft)) (map step_view steps.now))))) }
{
    let draft = draft.unwrap_or(Draft::Draft202012);
    let steps = entered(alloc, draft, steps)?;
    let report = followed_report(alloc, registry, base, steps.as_slice())?;
    linted(alloc, registry, report, lint.unwrap_or(false))
}

// The report on where steps lead.
fn followed_report(
    alloc: Global,
    registry: &Registry<'_>,
    base: Uri,
    steps: &[referencing::Step<'_>],
) -> Result<Report, AllocError>
    requires { WorldHoldsNoFloat registry.now }
    ensures { IfOk result
        (λ r. report_view r
        ≡ followed_report
        (followed_steps registry.now base (map following.step_of steps.now))) }
{
    match follow(alloc, registry, base, steps) {
        Ok(followed) => done_report(alloc, &followed),
        Err(fault) => step_report(alloc, fault),
    }
}

// The report, after which the unresolvable references are given where that is asked for.
fn linted(
    alloc: Global,
    registry: &Registry<'_>,
    report: Report,
    lint: bool,
) -> Result<Report, AllocError>
    ensures { IfOk result
        (λ r. report_view r ≡ with_lines (lint_lines lint registry.now) (report_view report)) }
{
    let Report { status, mut text } = report;
    if lint {
        push_dangling(alloc, &mut text, registry)?;
    }
    Ok(Report { status, text })
}

// The steps, where a draft is detected on what is entered.
fn entered<'a>(
    alloc: Global,
    draft: Draft,
    steps: &[Step<'a>],
) -> Result<Vec<referencing::Step<'a>>, AllocError>
    ensures { IfOk result
        (λ v. map following.step_of v.items ≡ map (step_in draft) (map step_view steps.now)) }
{
    let mut entered = Vec::with_capacity(alloc, steps.len())?;
    for step in steps {
        entered.push(step_in(draft, step))?;
    }
    Ok(entered)
}

fn step_in<'a>(draft: Draft, step: &Step<'a>) -> referencing::Step<'a>
    ensures { following.step_of result ≡ step_in draft (step_view step.now) }
{
    match step {
        Step::Lookup(reference) => referencing::Step::Lookup(reference),
        Step::Recursive => referencing::Step::Recursive,
        Step::Enter(value) => {
            let resource = draft.detect(value).create_resource_ref(value);
            referencing::Step::Enter(resource)
        }
    }
}
