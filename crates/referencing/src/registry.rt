//! A registry: documents, and the places in them that references lead to.
ghost use Rattle.std.specs.Prelude.{◌≡◌, ℕ, List, [], ◌∷◌, map, IfOk, IfErr, IfSome, IsSome, option_map, slice_get, Some, Ok, Err};
ghost use Rattle.std.specs.Iterator.{Yields, IsFiniteIterable};
ghost use Rattle.std.specs.List.{Contains};
ghost use Rattle.serde_json.specs.View.{view};
ghost use Rattle.ref_uri.specs.Targets.{uri_against};
ghost use Rattle.ref_definitions.specs.World.{Document as WorldDocument, local_documents};
ghost use Rattle.ref_definitions.specs.Agreement.{ChildrenAreThere};
ghost use Rattle.ref_definitions.specs.Places.{Place, places};
ghost use Rattle.ref_definitions.specs.Fault.{as_invalid_uri};
ghost use Rattle.ref_definitions.specs.Wants.{faults, open_wants};
ghost use Rattle.ref_error.specs.Errors.{Gives, IsFaultOf};
ghost use Rattle.ref_definitions.specs.Pending.{with_addition, with_additions};
ghost use Rattle.referencing.specs.Builder.{builder_of, addition, Adds, OfAllFrom, new_builder};
ghost use Rattle.ref_resolver.specs.Layered.{world_in, IsHeld};
ghost use Rattle.referencing.specs.Prepared.{contains_resource, ReferencesAreRetrieved};

use crate::builder::{RegistryBuilder, above};
use crate::input::IntoRegistryResource;
use ref_error::Error;
use ref_index::Index;
use ref_resolver::Layers;
use ref_uri::uri::from_str;
use ref_uri::{Uri, UriFault, UriRef};
use serde_json::Value;
use std::alloc::{AllocError, Global};
use std::convert::AsStr;
use std::fmt;
use std::marker::Model;
use std::rc::Rc;

/// Documents whose references are resolved among them, and the registries that they were added to, nearest first. Nothing is
/// retrieved once it is prepared. Contracts see the documents, layer by layer: its own first, then its parent's.
#[derive(Drop)]
pub struct Registry<'a> {
    own: Rc<Index<'a>>,
    parents: Vec<&'a Index<'a>>,
}

impl<'a> Model for Registry<'a> {
    ghost use Rattle.std.specs.Prelude.{List, ◌∷◌, map};
    ghost use Rattle.ref_definitions.specs.World.{Document as WorldDocument};
    ghost use Rattle.ref_index.specs.Codes.{world_code};

    ghost Value = { List (List WorldDocument) };

    ghost coded = { world_code };

    ghost use Rattle.referencing.specs.Prepared.{IsPrepared};

    ghost view = { λ r. r.own.value ∷ map (λ p. p.now) r.parents.items };

    ghost invariant = { λ r. IsPrepared (r.own.value ∷ map (λ p. p.now) r.parents.items) };
}

impl<'a> Registry<'a> {
    /// A builder without documents, draft and parents, which retrieves nothing and would retrieve at most 10,000 documents.
    /// Takes no memory.
    pub fn new<'b>(alloc: Global) -> RegistryBuilder<'b>
        ensures value { builder_of result ≡ new_builder (builder_of result).retriever [] [] }
    {
        RegistryBuilder::new(alloc, Vec::new(alloc))
    }

    /// A builder above this registry, with one document, which is added as [`RegistryBuilder::add`] does. The registry stays as
    /// it is, and is borrowed: its places, and those of its parents, meet what the documents want. Takes memory for the list
    /// of parents and the document's URI; the value is not copied.
    pub fn add<'b, U: AsStr + Drop, T: IntoRegistryResource<'b>>(
        &'b self,
        alloc: Global,
        uri: U,
        resource: T,
    ) -> Result<RegistryBuilder<'b>, Error>
        ensures ok { IfOk result
            (λ b. Adds
            (with_addition []
            (addition (U.text uri) (T.tree resource) (T.given_draft resource)))
            (new_builder (builder_of b).retriever self.now []) (builder_of b)) }
        ensures fault { IfErr result
            (IsFaultOf
            (as_invalid_uri
            (with_addition []
            (addition (U.text uri) (T.tree resource) (T.given_draft resource))))) }
    {
        let builder = RegistryBuilder::new(alloc, Vec::new(alloc)).add(uri, resource)?;
        Ok(above(builder, self.indexes(alloc)?))
    }

    /// A builder above this registry, with documents, which are added as [`RegistryBuilder::extend`] does, up to the first that
    /// is refused. The registry stays as it is, and is borrowed. Takes memory for the list of parents and the documents' URIs;
    /// no value is copied.
    pub fn extend<'b, U: AsStr + Drop, T: IntoRegistryResource<'b>, I: IntoIterator<Item = (U, T)>>(
        &'b self,
        alloc: Global,
        pairs: I,
    ) -> Result<RegistryBuilder<'b>, Error>
        requires ends { IsFiniteIterable I.into_iter_gives I.IntoIter.can_next I.IntoIter.remaining
            pairs }
        ensures ok { IfOk result
            (λ b. OfAllFrom I.into_iter_gives I.IntoIter.next_gives pairs
            (λ xs. Adds
            (with_additions []
            (map (λ x. addition (U.text x.0) (T.tree x.1) (T.given_draft x.1)) xs))
            (new_builder (builder_of b).retriever self.now []) (builder_of b))) }
        ensures fault { IfErr result
            (λ error. (it : I.IntoIter) × (xs : List (U × T)) × I.into_iter_gives pairs it
            × ((rest : I.IntoIter) × Yields I.IntoIter.next_gives it xs rest)
            × IsFaultOf
            (as_invalid_uri
            (with_additions []
            (map (λ x. addition (U.text x.0) (T.tree x.1)
            (T.given_draft x.1)) xs))) error) }
    {
        let builder = RegistryBuilder::new(alloc, Vec::new(alloc)).extend(pairs)?;
        Ok(above(builder, self.indexes(alloc)?))
    }

    // The indexes of this registry and of its parents, nearest first.
    fn indexes<'b>(&'b self, alloc: Global) -> Result<Vec<&'b Index<'b>>, AllocError>
        ensures { IfOk result (λ is. map (λ p. p.now) is.items ≡ self.now) }
    {
        let mut indexes: Vec<&'b Index<'b>> = Vec::with_capacity(alloc, self.parents.len() + 1)?;
        indexes.push(&self.own)?;
        for parent in &self.parents {
            indexes.push(*parent)?;
        }
        Ok(indexes)
    }

    /// The registry of documents that are prepared. Takes memory for a handle.
    pub(crate) fn from_index(
        alloc: Global,
        index: Index<'a>,
        parents: Vec<&'a Index<'a>>,
    ) -> Result<Registry<'a>, AllocError>
        requires { (faults index ≡ [])
            × (open_wants (index ∷ map (λ p. p.now) parents.items) index ≡ []) }
        ensures value { IfOk result
            (λ registry. registry ≡ index.entry ∷ map (λ p. p.now) parents.entry.items) }
    {
        Ok(Registry {
            own: Rc::new(alloc, index)?,
            parents,
        })
    }

    /// The value of the own document with a number. A look-up; takes no memory.
    pub(crate) fn tree(&self, document: usize) -> Option<&Value>
        ensures value { option_map (λ v. view v.now) result
            ≡ option_map (λ d. d.tree) (slice_get (local_documents self.now) document) }
    {
        self.own.tree(document)
    }

    /// The index of the own documents. Takes no memory.
    pub(crate) fn local_index(&self) -> &Index<'a>
        ensures value { result.now ≡ local_documents self.now }
        ensures no_fault { faults (local_documents self.now) ≡ [] }
        ensures children { (d : WorldDocument) → Contains (local_documents self.now) d
            → ChildrenAreThere d }
    {
        self.own.children_are_there();
        &self.own
    }

    // The indexes that resolvers borrow.
    pub(crate) fn layers<'r>(&'r self) -> Layers<'r>
        ensures value { world_in result ≡ self.now }
    {
        Layers::new(&self.own, self.parents.as_slice())
    }

    /// Whether a text is a URI that means a place: one without a scheme is taken against `json-schema:///`, and its fragment
    /// takes part. False for a text that is no URI reference. Takes memory for the URI, and is refused where there is none.
    pub fn contains_resource(&self, alloc: Global, uri: &str) -> Result<bool, AllocError>
        ensures value { IfOk result (λ found. found ≡ contains_resource self.now uri.now) }
    {
        match from_str(alloc, uri) {
            Ok(uri) => Ok(self.layers().has_resource(uri.as_str())),
            Err(UriFault::Invalid(_)) => Ok(false),
            Err(UriFault::Memory(error)) => Err(error),
        }
    }

    /// The URI that a text means against a base, where that was resolved when the documents were prepared: so it is for
    /// the identifier of each place, own or of a parent, with the base around it, and for what is before the last `#`
    /// of each place's `$ref` with the place's base, unless it begins with `#`. A look-up in the tables of this
    /// registry and its parents; takes no memory.
    pub fn resolved_uri(&self, base: &UriRef<'_>, uri: &str) -> Option<&Rc<Uri>>
        ensures held { IsHeld self.now base.now uri.now → IsSome result }
        ensures value { IfSome result (λ u. uri_against base.now uri.now ≡ Ok u.now.value) }
    {
        self.layers().resolved_uri(base, uri)
    }

    /// The URI that a text means against a base (RFC 3986, 5.2), in normal form, whatever was resolved before. Where it
    /// was, the code takes no memory, which no clause says; [`Registry::resolved_uri`] takes none by its signature.
    /// Refuses as `InvalidUri` a base without a scheme and a text that is no URI reference, and as `Memory` where there
    /// is none for the URI.
    pub fn resolve_uri(&self, alloc: Global, base: UriRef<'_>, uri: &str) -> Result<Rc<Uri>, Error>
        ensures gives { Gives (λ u. u.value) (as_invalid_uri (uri_against base.entry uri.now))
            result }
    {
        self.layers().resolve_uri(alloc, base, uri)
    }

    /// The own documents have no fault, and want no document that isn't there: so each own place has a base, and no
    /// reference of an own place leads to a URI that is not present, that is, from the place's base, with any dynamic
    /// scope, the text under its
    /// `$ref` is never unretrievable. A law; the call does nothing.
    pub fn references_are_retrieved(&self)
        ensures no_fault { faults (local_documents self.now) ≡ [] }
        ensures no_want { open_wants self.now (local_documents self.now) ≡ [] }
        ensures law { ReferencesAreRetrieved self.now }
        ensures bases { (d : WorldDocument) (place : Place) → Contains (local_documents self.now) d
            → Contains (places d) place → (base : List ℕ) × (place.base ≡ Ok base) }
    {
        let _ = &self.own;
    }
}

impl<'a> Clone for Registry<'a> {
    ghost is_clone = { λ registry copy. copy ≡ registry };

    /// The same documents and parents, which both have from then on: no value is copied. Takes memory for the list of parents.
    fn clone(&self) -> Result<Registry<'a>, AllocError> {
        let own = self.own.clone()?;
        let parents = self.parents.clone()?;
        Ok(Registry { own, parents })
    }
}

/// `Registry { documents: D, parents: P }`, with the count of its own documents and of its parents.
impl fmt::Debug for Registry<'_> {
    ghost use Rattle.std.specs.Prelude.{Some};
    ghost use Rattle.referencing.specs.Prepared.{registry_text};

    ghost debug_output = { λ r. Some (registry_text r) };

    fn fmt<W: fmt::Write>(&self, f: &mut fmt::Formatter<W>) -> fmt::Result {
        let (documents, parents) = (self.own.document_count(), self.parents.len());
        write!(
            f,
            "Registry {{ documents: {documents}, parents: {parents} }}"
        )
    }
}
