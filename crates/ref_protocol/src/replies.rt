//! The texts that a server sends.
ghost use Rattle.std.specs.Prelude.{◌≡◌, IfOk, string_bytes};
ghost use Rattle.ref_protocol.specs.Replies as spec;

use crate::refusal::Refusal;
use std::alloc::{AllocError, Global};

// The answer to the request with an id, with a member.
#[tactic(auto, unfolding(crate::specs::Replies::answer_with))]
fn answer_with(alloc: Global, id: &str, key: &str, value: &str) -> Result<String, AllocError>
    ensures { IfOk result
        (λ text. string_bytes text ≡ spec.answer_with id.now key.now value.now) }
{
    let mut out = String::from_str(alloc, "{\"jsonrpc\":\"2.0\",\"id\":")?;
    out.push_str(id)?;
    out.push_str(key)?;
    out.push_str(value)?;
    out.push_str("}")?;
    Ok(out)
}

/// The answer to the request with an id: its result. Both are texts of JSON.
pub fn result_text(alloc: Global, id: &str, outcome: &str) -> Result<String, AllocError>
    ensures value { IfOk result
        (λ text. string_bytes text ≡ spec.with_result id.now outcome.now) }
{
    answer_with(alloc, id, ",\"result\":", outcome)
}

// The object of an error.
#[tactic(auto, unfolding(crate::specs::Replies::error_of))]
fn error_of(alloc: Global, refusal: Refusal) -> Result<String, AllocError>
    ensures { IfOk result (λ text. string_bytes text ≡ spec.error_of refusal) }
{
    let mut out = String::from_str(alloc, "{\"code\":")?;
    out.push_str(refusal.code())?;
    out.push_str(",\"message\":\"")?;
    out.push_str(refusal.text())?;
    out.push_str("\"}")?;
    Ok(out)
}

/// The answer to the request with an id: why it has no result.
pub fn error_text(alloc: Global, id: &str, refusal: Refusal) -> Result<String, AllocError>
    ensures value { IfOk result (λ text. string_bytes text ≡ spec.with_error id.now refusal) }
{
    let error = error_of(alloc, refusal)?;
    answer_with(alloc, id, ",\"error\":", error.as_str())
}

/// The frame of a content.
#[tactic(auto, unfolding(crate::specs::Replies::frame_of))]
pub fn frame_of(alloc: Global, content: &str) -> Result<String, AllocError>
    ensures value { IfOk result (λ text. string_bytes text ≡ spec.frame_of content.now) }
{
    let length = content.len();
    let mut out = format!(in alloc; "Content-Length: {length}\r\n\r\n")?;
    out.push_str(content)?;
    Ok(out)
}
