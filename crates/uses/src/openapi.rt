//! A resolver of OpenAPI descriptions, with a retriever of its own over files handed in.
ghost use Rattle.std.specs.Prelude.{IfOk, IfErr};
ghost use Rattle.referencing.specs.Retrieval.{IsFaultyOutcome};
ghost use Rattle.referencing.specs.Builder.{builder_of};
ghost use Rattle.referencing.specs.Prepared.{given_of, IsPreparedOf};
ghost use Rattle.uses.specs.Uses.{files_retriever};

use referencing::{Error, Reason, Registry, RegistryBuilder, Retrieve, RetrieveError, Uri};
use serde_json::Value;
use std::alloc::Global;

/// Files that were handed in, each under its URI.
#[derive(Drop)]
pub struct Files {
    pub files: Vec<(Uri, Value)>,
}

/// It returns the first file under the URI, and refuses where there is none.
impl Retrieve for Files {
    ghost use Rattle.std.specs.Prelude.{IfOk, IfErr};
    ghost use Rattle.serde_json.specs.View.{view};
    ghost use Rattle.referencing.specs.Retrieving.{IfRefused};
    ghost use Rattle.uses.specs.Uses.{HasFile, SaysNoFile, files_retriever};

    ghost meaning = { λ f. files_retriever f.files.items };

    fn retrieve(&self, _alloc: Global, uri: &Uri) -> Result<Value, RetrieveError>
        ensures answer { IfOk result (λ value. HasFile self.now.files.items uri.now (view value)) }
        ensures refusal { IfErr result
            (λ error. IfRefused error (SaysNoFile self.now.files.items uri.now)) }
    {
        for (at, value) in self.files.iter() {
            if at.as_str() == uri.as_str() {
                return Ok(value.clone()?);
            }
        }
        Err(RetrieveError::Refused(Reason::NoDocument))
    }
}

/// The registry of what a builder holds, and of the files that it wants. Refuses as [`RegistryBuilder::prepare`] does.
pub fn prepared<'a>(builder: RegistryBuilder<'a>, files: Files) -> Result<Registry<'a>, Error>
    ensures outcome { IfOk result
        (IsPreparedOf
        (given_of (files_retriever files.files.items) (builder_of builder.entry))) }
    ensures fault { IfErr result
        (IsFaultyOutcome
        (given_of (files_retriever files.files.items) (builder_of builder.entry))) }
{
    builder.retriever(files).prepare()
}
