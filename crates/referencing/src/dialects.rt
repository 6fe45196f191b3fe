//! The vocabularies of schemas, by what their meta-schemas declare (2020-12 Core, 8.1.1 and 8.1.2).
ghost use Rattle.std.specs.Prelude.{◌≡◌, IfOk};
ghost use Rattle.serde_json.specs.View.{view};
ghost use Rattle.ref_vocabularies.specs.Vocabularies.{find_vocabularies};

use crate::registry::Registry;
use ref_draft::Draft;
use ref_vocabularies::VocabularySet;
use serde_json::Value;
use std::alloc::{AllocError, Global};

impl<'a> Registry<'a> {
    /// The vocabularies of a schema that is read by a draft (2020-12 Core, 8.1.1 and 8.1.2). The schema's own draft is that of
    /// its text under `$schema`, or else the one that it is read by.
    ///
    /// Where its own draft is known, they are [`default_vocabularies`](crate::default_vocabularies) of the draft that
    /// it is read by. Else they are those that the value under the URI of its `$schema`, without the fragment,
    /// declares, as [`find`](crate::vocabularies::find) has them. They are the default ones of [`Draft::Unknown`] where
    /// there is no such text, where it is no URI reference or means no place here or in a parent, where the value
    /// declares none, and where one of its keys is refused.
    ///
    /// Fails only where memory is refused, which it takes for the URI and for custom vocabularies. Look-ups in the
    /// tables of this registry and its parents, and what `find` takes.
    pub fn find_vocabularies(
        &self,
        alloc: Global,
        draft: Draft,
        contents: &Value,
    ) -> Result<VocabularySet, AllocError>
        ensures value { IfOk result
            (λ set. set ≡ find_vocabularies self.now draft (view contents.now)) }
    {
        self.layers().find_vocabularies(alloc, draft, contents)
    }
}
