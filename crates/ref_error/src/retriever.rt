//! Where documents come from that are wanted and were not added.
ghost use Rattle.std.specs.Prelude.{◌≡◌, ℕ, List, Some, OnOk, IfOk, IfErr, bytes_eq};
ghost use Rattle.std.specs.HashMap.{get};
ghost use Rattle.std.specs.Map.{update};
ghost use Rattle.serde_json.specs.Data.{Data};
ghost use Rattle.serde_json.specs.View.{view};
ghost use Rattle.ref_definitions.specs.Preparing.{Retriever};
ghost use Rattle.ref_error.specs.Retrieving.{IfRefused};
ghost use Rattle.ref_error.specs.inner.Documents.{AreLast};

use crate::error::{Reason, RetrieveError};
use ref_uri::Uri;
use serde_json::Value;
use std::alloc::{AllocError, Global};
use std::collections::HashMap;
use std::marker::Model;
use std::snapshot::Snapshot;

/// What documents are retrieved from that are wanted and were not added. An `impl` describes, for a URI, the trees that it may
/// return and the texts that it may refuse with; it may choose among them anew in each call.
pub trait Retrieve {
    // The trees that may be returned for a URI, and the texts that it may be refused with.
    ghost meaning: { Self → Retriever };

    /// The document under a URI: one that it may return, which the caller owns. `Refused` for a reason that it may
    /// give, `Memory` where memory is refused. It costs what the implementation takes: `prepare` calls it once for each
    /// document that is wanted and not there.
    fn retrieve(&self, alloc: Global, uri: &Uri) -> Result<Value, RetrieveError>
        ensures answer { IfOk result
            (λ value. (meaning self.now).may_answer uri.now (view value)) }
        ensures refusal { IfErr result
            (λ error. IfRefused error ((meaning self.now).may_refuse uri.now)) };
}

impl<R: Retrieve> Retrieve for &R {
    ghost meaning = { λ r. R.meaning r.now };

    fn retrieve(&self, alloc: Global, uri: &Uri) -> Result<Value, RetrieveError> {
        (**self).retrieve(alloc, uri)
    }
}

/// It has no documents: it refuses every URI, and takes no memory.
#[derive(Clone, Copy, Debug, PartialEq, Eq, Drop)]
pub struct DefaultRetriever;

impl Retrieve for DefaultRetriever {
    ghost use Rattle.std.specs.Prelude.{IfOk, IfErr, IsErrOf};
    ghost use Rattle.serde_json.specs.View.{view};
    ghost use Rattle.ref_definitions.specs.Retrievers.{default_retriever};
    ghost use Rattle.ref_error.specs.Retrieving.{IfRefused};

    ghost meaning = { λ _. default_retriever };

    fn retrieve(&self, _alloc: Global, uri: &Uri) -> Result<Value, RetrieveError>
        ensures answer { IfOk result (λ value. default_retriever.may_answer uri.now (view value)) }
        ensures refusal { IfErr result
            (λ error. IfRefused error (default_retriever.may_refuse uri.now)) }
        ensures value { IsErrOf result (RetrieveError.Refused Reason.NotFetched) }
    {
        Err(RetrieveError::Refused(Reason::NotFetched))
    }
}

/// Documents in memory, each under its URI. It refuses the URIs that it lacks, for which it takes no memory.
///
/// Contracts see the pairs that it was made from.
#[derive(Drop)]
pub struct MapRetriever {
    documents: HashMap<Uri, Value>,
    given: Snapshot<Vec<(Uri, Value)>>,
}

impl Model for MapRetriever {
    ghost use Rattle.std.specs.Prelude.{ℕ, List};
    ghost use Rattle.serde_json.specs.declared.value.Value as json;

    ghost Value = { List (List ℕ × json.Value) };

    ghost use Rattle.std.specs.Coded.{codes};
    ghost use Rattle.serde_json.specs.contracts.value.Value as stored;

    ghost coded = { Prim.hlevel (codes, stored.the_row.coded) };

    ghost use Rattle.ref_error.specs.inner.Documents.{AreLast};

    ghost view = { λ m. m.given.value.items };

    ghost invariant = { λ m. AreLast m.documents m.given.value.items };
}

impl MapRetriever {
    /// The documents of these pairs: of those under one URI the last. URIs and values move in, and none is copied. Takes
    /// memory for a hashed map, and is refused where there is none. Linear in the pairs.
    pub fn from_pairs(alloc: Global, pairs: Vec<(Uri, Value)>) -> Result<MapRetriever, AllocError>
        ensures value { IfOk result (λ retriever. retriever ≡ pairs.items) }
    {
        let given = Snapshot::of(&pairs);
        let documents = last_of(alloc, pairs)?;
        Ok(MapRetriever { documents, given })
    }
}

// Puts a value under a URI, in the place of the one there. Collecting the pairs would go on where the map can't grow.
fn put(documents: &mut HashMap<Uri, Value>, uri: Uri, value: Value) -> Result<(), AllocError>
    ensures { OnOk result
        ((wanted : List ℕ)
        → get bytes_eq documents.new wanted
        ≡ update bytes_eq (get bytes_eq documents.old) uri (Some value) wanted) }
{
    let _before = documents.insert(uri, value)?;
    Ok(())
}

// A map with the last value under each URI.
fn last_of(alloc: Global, pairs: Vec<(Uri, Value)>) -> Result<HashMap<Uri, Value>, AllocError>
    ensures { IfOk result (λ documents. AreLast documents pairs.items) }
{
    let mut documents = HashMap::new(alloc);
    for (uri, value) in pairs {
        put(&mut documents, uri, value)?;
    }
    Ok(documents)
}

impl Retrieve for MapRetriever {
    ghost use Rattle.std.specs.Prelude.{◌≡◌, None, IfOk, IfErr, IsErrOf};
    ghost use Rattle.serde_json.specs.View.{view};
    ghost use Rattle.ref_definitions.specs.Resources.{last_under};
    ghost use Rattle.ref_definitions.specs.Retrievers.{map_retriever};
    ghost use Rattle.ref_error.specs.Retrieving.{IfRefused, trees_of};

    ghost meaning = { λ m. map_retriever (trees_of m) };

    // A copy of the document, which takes memory; a refusal takes none.
    fn retrieve(&self, _alloc: Global, uri: &Uri) -> Result<Value, RetrieveError>
        ensures answer { IfOk result
            (λ value. (map_retriever (trees_of self.now)).may_answer uri.now (view value)) }
        ensures refusal { IfErr result
            (λ error. IfRefused error ((map_retriever (trees_of self.now)).may_refuse uri.now)) }
        ensures missing { last_under uri.now (trees_of self.now) ≡ None
            → IsErrOf result (RetrieveError.Refused Reason.NoDocument) }
    {
        match self.documents.get(uri) {
            Some(value) => Ok(value.clone()?),
            None => Err(RetrieveError::Refused(Reason::NoDocument)),
        }
    }
}
