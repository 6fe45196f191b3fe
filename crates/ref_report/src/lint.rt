//! The lines of unresolvable references.
ghost use Rattle.std.specs.Prelude.{◌≡◌, ◌++◌, string_bytes, OnOk};
ghost use Rattle.ref_report.specs.Report as spec;
ghost use Rattle.ref_report.specs.inner.Lines.{entry_line};

use ref_error::laws::errors_say_faults;
use ref_lint::{Dangling, dangling};
use referencing::{Registry, pointer_of};
use serde_json::Value;
use std::alloc::{AllocError, Global};

/// Adds a line for each reference of a registry's own documents that is unresolvable, in the order of [`dangling`].
pub fn push_dangling(
    alloc: Global,
    text: &mut String,
    registry: &Registry<'_>,
) -> Result<(), AllocError>
    ensures { OnOk result (string_bytes text.new
        ≡ string_bytes text.old ++ spec.dangling_lines registry.now) }
{
    errors_say_faults();
    // Out of memory is its one error.
    let Ok(entries) = dangling(alloc, registry) else {
        return Err(AllocError);
    };
    for entry in &entries {
        push_entry(alloc, text, entry)?;
    }
    Ok(())
}

fn push_entry(alloc: Global, text: &mut String, entry: &Dangling<'_>) -> Result<(), AllocError>
    ensures { OnOk result (string_bytes text.new ≡ string_bytes text.old ++ entry_line entry.now) }
{
    let (document, error) = (entry.document, &entry.error);
    let path = Value::String(pointer_of(alloc, entry.path.as_slice())?).to_string(alloc)?;
    let line = format!(in alloc; "dangling {document} {path} {error}\n")?;
    text.push_str(line.as_str())
}
