//! The vocabularies of schemas, by what their meta-schemas declare (2020-12 Core, 8.1.1 and 8.1.2).
ghost use Rattle.std.specs.Prelude.{◌≡◌, IfOk, option_map};
ghost use Rattle.serde_json.specs.View.{view};
ghost use Rattle.ref_definitions.specs.Resources.{meant_place};
ghost use Rattle.ref_vocabularies.specs.Vocabularies.{find_vocabularies, find_vocabularies_at};
ghost use Rattle.ref_resolver.specs.Layered.{world_in};
ghost use Rattle.ref_resolver.specs.Resolving.{resolver_of, world_of};

use crate::layers::Layers;
use crate::resolver::Resolver;
use ref_draft::Draft;
use ref_vocabularies::{Dialect, VocabularySet, declared_or_default};
use serde_json::Value;
use std::alloc::{AllocError, Global};

impl<'r> Layers<'r> {
    // The value that a URI means.
    fn value_under(&self, uri: &str) -> Option<&'r Value>
        ensures { option_map (λ v. view v.now) result
            ≡ option_map (λ p. p.value) (meant_place (world_in self.now) uri.now) }
    {
        let place = self.resource(uri)?;
        Some(place.value)
    }

    /// The vocabularies of a schema that is read by a draft (2020-12 Core, 8.1.1 and 8.1.2). The schema's own draft is that of
    /// its text under `$schema`, or else the one that it is read by.
    ///
    /// Where its own draft is known, they are [`default_vocabularies`](ref_vocabularies::default_vocabularies) of the
    /// draft that it is read by. Else they are those that the value under the URI of its `$schema`, without the
    /// fragment, declares, as [`find`](ref_vocabularies::find) has them. They are the default ones of
    /// [`Draft::Unknown`] where there is no such text, where it is no URI reference or means no place in any layer,
    /// where the value declares none, and where one of its keys is refused.
    ///
    /// Fails only where memory is refused, which it takes for the URI and for custom vocabularies. A look-up for each
    /// layer, and what `find` takes.
    pub fn find_vocabularies(
        &self,
        alloc: Global,
        draft: Draft,
        contents: &Value,
    ) -> Result<VocabularySet, AllocError>
        ensures value { IfOk result
            (λ set. set ≡ find_vocabularies (world_in self.now) draft (view contents.now)) }
    {
        match Dialect::of(alloc, draft, contents)? {
            Dialect::Known(set) => Ok(set),
            Dialect::MetaSchema(uri) => declared_or_default(alloc, self.value_under(uri.as_str())),
        }
    }
}

impl<'r> Resolver<'r> {
    /// The vocabularies of a schema at this resolver's base, as `Registry::find_vocabularies` has them: those of the contents
    /// where they are an object with a key `$schema`, of whatever value; else those of the value that the base means; and those
    /// of the contents where it means none.
    ///
    /// Fails only where memory is refused, which it takes as that call does; a look-up more.
    pub fn find_vocabularies(
        &self,
        alloc: Global,
        draft: Draft,
        contents: &Value,
    ) -> Result<VocabularySet, AllocError>
        ensures value { IfOk result
            (λ set. set
            ≡ find_vocabularies_at (world_of self.now) (resolver_of self.now).base draft
            (view contents.now)) }
    {
        if contents.get("$schema").is_some() {
            return self.layers.find_vocabularies(alloc, draft, contents);
        }
        match self.at_base() {
            Some((value, _)) => self.layers.find_vocabularies(alloc, draft, value),
            None => self.layers.find_vocabularies(alloc, draft, contents),
        }
    }
}
