//! The tree that a text is.
ghost use Rattle.std.specs.Prelude.{◌≡◌, ◌≤◌, ◌<◌, ◌↔◌, ℕ, length, Some, Err, IfOk, IfErr};
ghost use Rattle.serde_json.specs.View.{view};
ghost use Rattle.serde_json.specs.Errors.{IsMemory};
ghost use Rattle.ref_json.specs.Text as spec;
ghost use Rattle.ref_json.specs.declared.stop.Stop.TheVariants.{Memory, Because};

use crate::stop::Stop;
use serde_json::{Error, Value};
use std::alloc::Global;

// Where bytes can't be read as JSON: their length where more would have to follow.
fn offset_of(bytes: &[u8], error: &Error) -> usize
    ensures { result ≤ length bytes.now }
{
    if error.is_eof() {
        return bytes.len();
    }
    error.column().saturating_sub(1).min(bytes.len())
}

// Why bytes have no tree: memory ran out exactly where the error says so, and else they are no JSON.
fn stop_of(bytes: &[u8], error: &Error) -> Stop<usize>
    ensures memory { result ≡ Memory ↔ IsMemory error.now }
    ensures place { (offset : ℕ) → result ≡ Because offset → offset ≤ length bytes.now }
{
    if error.is_memory() {
        return Stop::Memory;
    }
    Stop::Because(offset_of(bytes, error))
}

/// The tree that bytes are.
///
/// `Because` where they are no JSON, with a place of a text of one line, in bytes from its beginning: at or just past what can't
/// be read, or its length where more would have to follow. `Memory` where memory is refused, which it isn't where there is no
/// byte. Linear in the bytes.
pub fn tree_of(alloc: Global, bytes: &[u8]) -> Result<Value, Stop<usize>>
    ensures tree { IfOk result (λ v. spec.tree_of bytes.now ≡ Some (view v)) }
    ensures not_json { IfErr result (spec.IsNotJson bytes.now) }
    ensures memory { result ≡ Err Memory → 0 < length bytes.now }
{
    match Value::from_slice(alloc, bytes) {
        Ok(tree) => Ok(tree),
        Err(error) => Err(stop_of(bytes, &error)),
    }
}
