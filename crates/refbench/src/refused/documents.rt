//! The documents that calls are made on.
use crate::refused::stop::{Stop, before};
use ref_error::MapRetriever;
use ref_uri::Uri;
use ref_uri::uri::from_str;
use referencing::{Registry, RegistryBuilder};
use serde_json::Value;
use std::alloc::{AllocError, Global};

/// The meta-schema at `http://a/m`, in a parent.
pub const META: &str = r#"{"title":"meta","$vocabulary":{"https://example.com/v":true}}"#;

/// The document at `http://a/r`.
pub const DOCUMENT: &str =
    r##"{"title":"root","$recursiveAnchor":true,"$ref":"#/none","enum":["e"],"$defs":{"x":{"$id":"x","title":"x","$anchor":"n","$dynamicAnchor":"d","$recursiveAnchor":true,"$ref":"y"}}}"##;

/// The document at `http://a/y`, which is retrieved.
const RETRIEVED: &str = r#"{"title":"y"}"#;

/// A schema whose meta-schema is that one.
pub const SUBRESOURCE: &str = r#"{"$id":"s","$schema":"http://a/m"}"#;

/// A value that is made before the call.
pub fn value(alloc: Global, text: &str) -> Result<Value, Stop> {
    before(Value::from_str(alloc, text))
}

/// A URI that is made before the call.
pub fn uri(alloc: Global, text: &str) -> Result<Uri, Stop> {
    before(from_str(alloc, text))
}

/// One pair in a list.
pub fn list_of(alloc: Global, pair: (Uri, Value)) -> Result<Vec<(Uri, Value)>, AllocError> {
    let mut list = Vec::new(alloc);
    list.push(pair)?;
    Ok(list)
}

/// The pairs of what can be retrieved.
pub fn pairs(alloc: Global) -> Result<Vec<(Uri, Value)>, Stop> {
    let pair = (uri(alloc, "http://a/y")?, value(alloc, RETRIEVED)?);
    Ok(list_of(alloc, pair)?)
}

/// What can be retrieved.
pub fn retriever(alloc: Global) -> Result<MapRetriever, Stop> {
    Ok(MapRetriever::from_pairs(alloc, pairs(alloc)?)?)
}

/// A builder of a document above a registry.
pub fn builder_of<'b>(
    alloc: Global,
    parent: &'b Registry<'_>,
    document: &'b Value,
) -> Result<RegistryBuilder<'b>, Stop> {
    before(parent.add(alloc, "http://a/r", document))
}

/// The same, by which documents are retrieved.
pub fn retrieving<'b>(
    alloc: Global,
    parent: &'b Registry<'_>,
    document: &'b Value,
) -> Result<RegistryBuilder<'b, MapRetriever>, Stop> {
    let map = retriever(alloc)?;
    Ok(builder_of(alloc, parent, document)?.retriever(map))
}

/// The title of a value, or itself where it is a text.
pub fn title_of(value: &Value) -> &str {
    let title = match value.get("title") {
        Some(title) => title.as_str(),
        None => value.as_str(),
    };
    title.unwrap_or("none")
}
