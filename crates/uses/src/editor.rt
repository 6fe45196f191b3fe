//! An editor that asks for the value and the base of a place.
ghost use Rattle.std.specs.Prelude.{◌≡◌, [], Ok, IfOk, IfErr};
ghost use Rattle.serde_json.specs.View.{view};
ghost use Rattle.referencing.specs.Lookup.{Found, lookup};
ghost use Rattle.referencing.specs.Errors.{IsFaultOf};

use referencing::{Error, Registry, Uri};
use serde_json::Value;
use std::alloc::Global;
use std::rc::Rc;

/// The value at a place and the base URI there, by the URI of its document and a fragment that begins with `#/`
/// (RFC 6901, 6). Refuses as [`Registry::lookup`](referencing::Registry::lookup) does, whose cost it has.
pub fn value_and_base<'r>(
    alloc: Global,
    registry: &'r Registry<'_>,
    document: Uri,
    fragment: &str,
) -> Result<(&'r Value, Rc<Uri>), Error>
    ensures ok { IfOk result
        (λ place. (found : Found)
        × (lookup registry.now (record { base = document; scope = [] }) fragment.now ≡ Ok found)
        × (view place.0.now ≡ found.value) × (place.1.value ≡ found.resolver.base)) }
    ensures fault { IfErr result
        (IsFaultOf (lookup registry.now (record { base = document; scope = [] }) fragment.now)) }
{
    let (value, inner, _) = registry.lookup(alloc, document, fragment)?.into_inner();
    let base = inner.base_uri().clone()?;
    Ok((value, base))
}
