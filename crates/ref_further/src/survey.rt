//! The further places of a registry's documents, with what kinds of objects they are.
ghost use Rattle.std.specs.Prelude.{◌≡◌, map, IfOk};
ghost use Rattle.ref_definitions.specs.World.{local_documents};
ghost use Rattle.ref_reach.specs.Knowing.{known_of};
ghost use Rattle.ref_reach.specs.Views.{place_of};
ghost use Rattle.ref_further.specs.Survey.{IsSurvey};
ghost use Rattle.ref_further.specs.Surveyed.{surveyed};

use crate::further::{described, led};
use crate::reading::{draft_of, sources_of};
use ref_reach::{Documents, Place, documents_of};
use referencing::Registry;
use std::alloc::{AllocError, Global};

/// The further places of documents. None comes twice.
#[derive(Drop)]
pub struct Survey<'r> {
    documents: Documents<'r>,
    described: Vec<Place<'r>>,
    led: Vec<Place<'r>>,
}

impl<'r> Survey<'r> {
    /// The documents, in which references of its places are looked up.
    pub fn documents(&self) -> &Documents<'r>
        ensures value { result.now ≡ self.now.documents }
    {
        &self.documents
    }

    /// The objects that descriptions have by themselves: their roots, and what is below these by their tables.
    pub fn own(&self) -> &[Place<'r>]
        ensures value { map place_of result.now ≡ (known_of self.now.documents).own }
    {
        self.documents.own()
    }

    /// What references of descriptions lead to beside these, again and again, in the order in which it is met.
    pub fn described(&self) -> &[Place<'r>]
        ensures value { map place_of result.now ≡ map place_of self.now.described.items }
    {
        self.described.as_slice()
    }

    /// What references of schemas lead to where no keyword does, again and again, in the order in which it is met.
    pub fn led(&self) -> &[Place<'r>]
        ensures value { map place_of result.now ≡ map place_of self.now.led.items }
    {
        self.led.as_slice()
    }
}

/// The places of a registry's own documents that [`further_places`](crate::further_places) gives, with the kinds of objects that they are: the objects of
/// the descriptions of OpenAPI and Swagger, what references of these lead to, and what references of schemas lead to where no keyword does. Documents that name
/// no draft are read by that of the first of these. Fails only if out of memory. Each place is walked once, with a look-up for each reference; no value is copied.
pub fn survey_of<'r>(alloc: Global, registry: &'r Registry<'_>) -> Result<Survey<'r>, AllocError>
    ensures value { IfOk result
        (λ survey. IsSurvey (local_documents registry.now) (surveyed survey)) }
{
    let draft = draft_of(registry);
    let sources = sources_of(alloc, registry)?;
    let documents = documents_of(alloc, draft, sources.as_slice())?;
    let described = described(alloc, &documents)?;
    let led = led(alloc, &documents, draft)?;
    Ok(Survey {
        documents,
        described,
        led,
    })
}
