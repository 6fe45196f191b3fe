//! Prints what a reference leads to.
#![tactic(auto)]

use referencing::uri::from_str;
use referencing::{Error, Registry};
use serde_json::Value;
use std::alloc::Global;
use std::process::ExitCode;

const ORDER: &str =
    r##"{"properties": {"item": {"$ref": "#/$defs/item"}}, "$defs": {"item": {"type": "string"}}}"##;

// The value that the reference leads to, with its draft and its base URI.
fn item_of(alloc: Global, order: Value) -> Result<String, Error> {
    let uri = "https://example.com/order";
    let registry = Registry::new(alloc).add(uri, order)?.prepare()?;
    let found = registry.lookup(alloc, from_str(alloc, uri)?, "#/$defs/item")?;
    let (value, inner, draft) = found.into_inner();
    let (text, base) = (value.to_string(alloc)?, inner.base_uri().as_str());
    Ok(format!(in alloc; "{text} by Draft {}, base {base}", draft.name())?)
}

fn main(rt: HostRuntime) -> ExitCode {
    let alloc = rt.alloc();
    let Ok(order) = Value::from_str(alloc, ORDER) else {
        return ExitCode::from(2);
    };
    match item_of(alloc, order) {
        Ok(text) => {
            let _ = println!(rt; "{text}");
            ExitCode::from(0)
        }
        Err(error) => {
            let _ = eprintln!(rt; "{error}");
            drop(error);
            ExitCode::from(1)
        }
    }
}
