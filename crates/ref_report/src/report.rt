//! The report on a request.
ghost use Rattle.std.specs.Prelude.{◌≡◌, ◌++◌, false, IfOk, OnOk, IfSome, decimal, string_bytes};
ghost use Rattle.serde_json.specs.View.{view};
ghost use Rattle.serde_json.specs.Written.{has_float};
ghost use Rattle.referencing.specs.Following.{lent_last, followed_of};
ghost use Rattle.ref_report.specs.Report as spec;
ghost use Rattle.ref_report.specs.inner.Faults.{IsReportOn};
ghost use Rattle.ref_report.specs.inner.View.{report_view};

use crate::request::BadRequest;
use crate::status::Status;
use ref_error::laws::errors_say_faults;
use referencing::{Draft, Error, FollowError, Followed, List, Uri};
use serde_json::Value;
use std::alloc::{AllocError, Global};

/// The lines that a run writes, and how it ended.
#[derive(Drop)]
pub struct Report {
    /// How the run ended.
    pub status: Status,
    /// The lines.
    pub text: String,
}

/// The report on a bad request.
pub fn bad_report(alloc: Global, bad: BadRequest) -> Result<Report, AllocError>
    ensures { IfOk result (λ r. report_view r ≡ spec.bad_report bad) }
{
    let reason = reason(bad);
    Ok(Report {
        status: Status::BadRequest,
        text: format!(in alloc; "bad request {reason}\n")?,
    })
}

fn reason(bad: BadRequest) -> &'static str
    ensures { result.now ≡ spec.reason bad }
{
    match bad {
        BadRequest::NotJson => "not JSON",
        BadRequest::NotAnObject => "not an object",
        BadRequest::Float => "float",
        BadRequest::UnknownField => "unknown field",
        BadRequest::Documents => "documents",
        BadRequest::Base => "base",
        BadRequest::Steps => "steps",
        BadRequest::Remote => "remote",
        BadRequest::Meta => "meta",
        BadRequest::Draft => "draft",
        BadRequest::Limit => "limit",
        BadRequest::Lint => "lint",
    }
}

/// The report on a fault, with what it is a fault of. Being out of memory is none.
pub fn fault_report(alloc: Global, of: &str, error: Error) -> Result<Report, AllocError>
    ensures { IfOk result (λ r. IsReportOn of.now error (report_view r)) }
{
    report_on(alloc, of, &error)
}

// The same of an error that is lent.
fn report_on(alloc: Global, of: &str, error: &Error) -> Result<Report, AllocError>
    ensures { IfOk result (λ r. IsReportOn of.now error.now (report_view r)) }
{
    if error.is_memory() {
        return Err(AllocError);
    }
    errors_say_faults();
    Ok(Report {
        status: Status::Fault,
        text: format!(in alloc; "fault {of} {error}\n")?,
    })
}

/// The report on a step that finds no value.
pub fn step_report(alloc: Global, fault: FollowError) -> Result<Report, AllocError>
    ensures { IfOk result (λ r. IsReportOn (decimal fault.step) fault.error (report_view r)) }
{
    let FollowError { step, error } = fault;
    let number = format!(in alloc; "{step}")?;
    fault_report(alloc, number.as_str(), error)
}

/// The report on steps that were all followed.
pub fn done_report(alloc: Global, followed: &Followed) -> Result<Report, AllocError>
    requires { IfSome followed.now.last (λ v. has_float (view v.0.now) ≡ false) }
    ensures { IfOk result (λ r. report_view r ≡ spec.done_report (followed_of followed.now)) }
{
    let mut text = String::new(alloc);
    push_value(alloc, &mut text, followed.last)?;
    push_line(&mut text, "base ", followed.resolver.base_uri().as_str())?;
    push_scope(&mut text, followed.resolver.dynamic_scope())?;
    Ok(Report {
        status: Status::Done,
        text,
    })
}

// The lines of the value and its draft.
fn push_value(
    alloc: Global,
    text: &mut String,
    last: Option<(&Value, Draft)>,
) -> Result<(), AllocError>
    requires { IfSome last (λ v. has_float (view v.0.now) ≡ false) }
    ensures { OnOk result (string_bytes text.new
        ≡ string_bytes text.old ++ spec.value_lines (lent_last last.entry)) }
{
    let Some((value, draft)) = last else {
        return push_line(text, "no value", "");
    };
    let json = value.to_string(alloc)?;
    push_line(text, "value ", json.as_str())?;
    push_line(text, "draft ", draft.name())?;
    Ok(())
}

// The label and the body, on a line.
fn push_line(text: &mut String, label: &str, body: &str) -> Result<(), AllocError>
    ensures { OnOk result (string_bytes text.new
        ≡ string_bytes text.old ++ spec.line (label.now ++ body.now)) }
{
    text.push_str(label)?;
    text.push_str(body)?;
    text.push_str("\n")?;
    Ok(())
}

// The line of the scope, inner to outer.
fn push_scope(text: &mut String, scope: &List<Uri>) -> Result<(), AllocError>
    ensures { OnOk result (string_bytes text.new
        ≡ string_bytes text.old ++ spec.scope_line scope.now) }
{
    text.push_str("scope")?;
    for uri in scope {
        text.push_str(" ")?;
        text.push_str(uri.as_str())?;
    }
    text.push_str("\n")?;
    Ok(())
}
