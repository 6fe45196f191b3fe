//! Names of schemas in the mapping of a discriminator (3.0 on, "Discriminator Object").
ghost use Rattle.std.specs.Prelude.{◌≡◌, map};
ghost use Rattle.std.specs.List.{list_any};
ghost use Rattle.serde_json.specs.View.{view};
ghost use Rattle.ref_reach.specs.Leading.{has_schema, names_in, is_name};
ghost use Rattle.ref_reach.specs.Knowing.{known_of};

use crate::described::Documents;
use ref_descriptions::version_of;
use serde_json::Value;

// Whether the root of a description has a schema of a name among its components.
fn has_schema(root: &Value, name: &str) -> bool
    ensures { result ≡ has_schema name.now (view root.now) }
{
    let Some(components) = root.get("components") else {
        return false;
    };
    let Some(schemas) = components.get("schemas") else {
        return false;
    };
    schemas.get(name).is_some()
}

// Whether it is a description that has.
fn names_in(root: &Value, name: &str) -> bool
    ensures { result ≡ names_in name.now (view root.now) }
{
    version_of(root).is_some() && has_schema(root, name)
}

// Whether one of these is.
fn is_any(roots: &[&Value], name: &str) -> bool
    ensures { result ≡ list_any (names_in name.now) (map (λ v. view v.now) roots.now) }
{
    let mut any = false;
    for root in roots {
        let names = names_in(*root, name);
        any = any || names;
    }
    any
}

/// Whether a text in a mapping is the name of a schema: of the description that it is in, or else, in a document that is none, of any
/// description. Work for each document at most, and for the names of its components.
pub fn is_name(documents: &Documents<'_>, document: usize, text: &str) -> bool
    ensures value { result ≡ is_name (known_of documents.now) document text.now }
{
    if documents.version(document).is_none() {
        return is_any(documents.values.as_slice(), text);
    }
    match documents.values.get(document) {
        Some(root) => names_in(*root, text),
        None => false,
    }
}
