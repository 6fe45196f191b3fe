//! The places of a registry's own documents, and the values there, by paths.
ghost use Rattle.std.specs.Prelude.{◌≡◌, map, option_map, option_and_then, slice_get, IfOk, IfErr};
ghost use Rattle.std.specs.List.{Contains};
ghost use Rattle.serde_json.specs.View.{view};
ghost use Rattle.ref_paths.specs.Path.{value_at};
ghost use Rattle.ref_paths.specs.Segment.{part_of};
ghost use Rattle.ref_definitions.specs.World.{Document as WorldDocument, local_documents};
ghost use Rattle.ref_definitions.specs.Places.{Place as WorldPlace, places};
ghost use Rattle.ref_definitions.specs.Listing.{local_places};
ghost use Rattle.ref_definitions.specs.Lookup.{located_value};
ghost use Rattle.ref_error.specs.Errors.{Gives, IsMemory};
ghost use Rattle.ref_index.specs.Document.{document_of};
ghost use Rattle.ref_index.specs.Listing.{listed_of};
ghost use Rattle.ref_resolver.specs.Resolving.{found_of, world_found};
ghost use Rattle.referencing.specs.Listed.{Agrees};

use crate::registry::Registry;
use crate::written::reference_of;
use ref_error::Error;
use ref_index::{Document, Place};
use ref_parts::path::JsonPointerSegment;
use ref_parts::value_at;
use ref_resolver::Resolved;
use ref_uri::Uri;
use serde_json::Value;
use std::alloc::Global;

impl<'a> Registry<'a> {
    /// The own documents, in the order in which their URIs were first added, and after them those retrieved: of each
    /// the URI that it was added or retrieved under, which an identifier of its root may replace as the base, its
    /// value, and the draft of its root. Those of parents are left out. Takes no memory.
    pub fn documents(&self) -> &[Document<'a>]
        ensures value { map document_of result.now ≡ local_documents self.now }
    {
        self.local_index().documents()
    }

    /// The value at a path of an own document, which is counted from 0 in the order in which their URIs were first
    /// added, and after them those retrieved. `None` for a number without a document, and where a part finds no value:
    /// a key steps into an object alone, an index into an array alone (RFC 6901, section 4). A look-up for each part;
    /// takes no memory.
    pub fn value_at(&self, document: usize, path: &[JsonPointerSegment<'_>]) -> Option<&Value>
        ensures value { option_map (λ v. view v.now) result
            ≡ option_and_then (λ d. value_at d.tree (map part_of path.now))
            (slice_get (local_documents self.now) document) }
    {
        let tree = self.tree(document)?;
        value_at(tree, path)
    }

    /// The places where schemas are in the own documents: document by document, in the order in which their URIs were first
    /// added, and after them those retrieved; in each document the root, then its children by the keywords that hold
    /// subschemas, and so on level by level, each with its value. Refuses as `Memory` alone.
    ///
    /// Each place is visited once, with a look-up where it has an identifier; its path is copied, and the URI of each document;
    /// keys are borrowed, and the other URIs shared.
    pub fn places(&self, alloc: Global) -> Result<Vec<Place<'_>>, Error>
        ensures value { IfOk result
            (λ places. map listed_of places.items ≡ local_places (local_documents self.now)) }
        ensures are_there { (d : WorldDocument) (p : WorldPlace) → Contains (local_documents self.now) d
            → Contains (places d) p → value_at d.tree p.path ≡ Some p.value }
        ensures memory { IfErr result IsMemory }
    {
        Ok(self.local_index().places(alloc)?)
    }

    /// Where a path leads from a base: the look-up, from a new resolver at the base, of `#` and the path's pointer text, as a
    /// fragment holds it (RFC 6901, section 6).
    ///
    /// From an own place that is a root or has an identifier, by its base and the path from there, it returns each place at or
    /// below it with the value, the draft and the base that the walk over subschemas gives it, where these hold: no other own
    /// place has that base; the places below have the same draft, which is one of 4 to 2020-12; and before 2020-12 no object
    /// whose members are schemas holds a text under the keyword of identifiers, as a property named `$id` would.
    ///
    /// Refuses as [`Resolver::lookup`] does, whose cost it has, and as `Memory`; no value is copied.
    ///
    /// [`Resolver::lookup`]: crate::Resolver::lookup
    pub fn locate(
        &self,
        alloc: Global,
        base: &Uri,
        path: &[JsonPointerSegment<'_>],
    ) -> Result<Resolved<'_>, Error>
        ensures gives { Gives found_of (located_value self.now base.now (map part_of path.now))
            result }
        ensures world { IfOk result (λ found. world_found found ≡ self.now) }
        ensures agrees { Agrees (local_documents self.now) base.now (map part_of path.now) result }
    {
        // that children of places are at their paths
        let _ = self.local_index();
        let reference = reference_of(alloc, path)?;
        let base = base.clone()?;
        self.lookup(alloc, base, reference.as_str())
    }
}
