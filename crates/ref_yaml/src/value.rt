//! The value of a text.
ghost use Rattle.std.specs.Prelude.{◌≤◌, IfOk, IfErr, length};
ghost use Rattle.serde_json.specs.Data.{depth};
ghost use Rattle.serde_json.specs.View.{view};
ghost use Rattle.ref_yaml.specs.Documents.{IsYamlOf};
ghost use Rattle.ref_yaml.specs.Events.{IsStopWithin};

use crate::document::Document;
use crate::fault::Stop;
use serde_json::Value;
use std::alloc::Global;

/// The value of a text of one document of YAML 1.2.2. An empty one is null.
///
/// Of an object each key is a text that comes once; a number is read as `serde_json` reads it. An error is memory, or what
/// is wrong and its offset in bytes. Linear in the text, but for aliases: they may make ten parts for each byte, and a
/// million at least, each of eight bytes of text at most.
pub fn from_str(alloc: Global, text: &str) -> Result<Value, Stop>
    ensures tree { IfOk result (λ v. IsYamlOf text.now (view v)) }
    ensures depth { IfOk result (λ v. depth (view v) ≤ 127) }
    ensures fault { IfErr result (λ stop. IsStopWithin (length text.now) stop) }
{
    match Document::parse(alloc, text) {
        Ok(document) => document.value(alloc),
        Err(stop) => Err(stop),
    }
}
