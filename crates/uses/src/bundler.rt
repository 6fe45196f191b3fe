//! A bundler that lists the documents that one of a registry's own refers to.
ghost use Rattle.std.specs.Prelude.{◌≡◌, ◌++◌, ◌∷◌, [], None, IfOk, IfErr, OnOk};
ghost use Rattle.referencing.specs.Reference.{with_fragment};
ghost use Rattle.referencing.specs.ListedPlaces.{listed_of};
ghost use Rattle.referencing.specs.Errors.{IsMemory};
ghost use Rattle.referencing.specs.World.{local_documents};
ghost use Rattle.uses.specs.Bundling.{refers_to, referred_by};
ghost use Rattle.uses.specs.inner.Referring.{refers_from};

use referencing::{Error, Place, Registry, Uri};
use serde_json::Value;
use std::alloc::{AllocError, Global};

// A URI without its fragment.
fn without_fragment(uri: &Uri) -> Result<Uri, AllocError>
    ensures { IfOk result (λ u. u ≡ with_fragment uri.now None) }
{
    let mut uri = uri.clone()?;
    uri.drop_fragment();
    Ok(uri)
}

// The URI that the `$ref` of a place means, without its fragment, where it has one.
fn referred(
    alloc: Global,
    registry: &Registry<'_>,
    place: &Place<'_>,
) -> Result<Option<Uri>, AllocError>
    ensures { IfOk result (λ uri. uri ≡ refers_to (listed_of place.now)) }
{
    let Some(reference) = place.value.get("$ref").and_then(Value::as_str) else {
        return Ok(None);
    };
    match registry.resolve_uri(alloc, place.base.borrow(), reference) {
        Ok(uri) => Ok(Some(without_fragment(&uri)?)),
        Err(Error::Memory(error)) => Err(error),
        Err(_) => Ok(None),
    }
}

// The same where the place is one of the document with this number; a place of another has none.
fn referred_from(
    alloc: Global,
    registry: &Registry<'_>,
    document: usize,
    place: &Place<'_>,
) -> Result<Option<Uri>, AllocError>
    ensures { IfOk result
        (λ uri. uri ≡ refers_from document (listed_of place.now)) }
{
    if place.document != document {
        return Ok(None);
    }
    referred(alloc, registry, place)
}

// Adds a URI after the others.
fn push(uris: &mut Vec<Uri>, uri: Uri) -> Result<(), AllocError>
    ensures { OnOk result (uris.new.items ≡ uris.old.items ++ uri ∷ []) }
{
    uris.push(uri)?;
    Ok(())
}

/// The URIs that the references of one of a registry's own documents mean, without their fragments: one for each place
/// of it with a text under `$ref` that as a whole means a URI against the place's base, in the order of its places,
/// also where several mean the same. The document is the one with this number, counted from 0 in the order of
/// [`Registry::places`]; a number without a document has none. A look-up takes its URI from what is before the text's
/// last `#` alone, so it may lead on from a text that isn't listed here. A bundler puts together what is under them.
///
/// Refuses as `Memory` alone. Visits each place of the registry once, and those of the document with a look-up of the
/// URI.
pub fn referred_documents(
    alloc: Global,
    registry: &Registry<'_>,
    document: usize,
) -> Result<Vec<Uri>, Error>
    ensures value { IfOk result
        (λ uris. uris.items ≡ referred_by (local_documents registry.now) document) }
    ensures memory { IfErr result IsMemory }
{
    let mut uris = Vec::new(alloc);
    let places = registry.places(alloc)?;
    for place in places.iter() {
        if let Some(uri) = referred_from(alloc, registry, document, place)? {
            push(&mut uris, uri)?;
        }
    }
    Ok(uris)
}
