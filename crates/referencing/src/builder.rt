//! What a registry is made of, before it is prepared.
ghost use Rattle.std.specs.Prelude.{◌≡◌, List, [], None, map, IfOk, IfErr, OnOk, OnErr};
ghost use Rattle.std.specs.Iterator.{Yields, IsFiniteIterable};
ghost use Rattle.ref_definitions.specs.Fault.{as_invalid_uri};
ghost use Rattle.ref_definitions.specs.Pending.{with_addition, with_additions, with_pending};
ghost use Rattle.ref_index.specs.Contents.{tree_of};
ghost use Rattle.ref_error.specs.Errors.{IsFaultOf};
ghost use Rattle.referencing.specs.Builder.{pending_under, builder_of, setting_draft, retrieving_from, limited_to, addition, Adds, OfAllFrom};
ghost use Rattle.referencing.specs.inner.Parents.{above_layers};

use crate::input::{IntoRegistryResource, PendingResource, shared};
use indexmap::IndexMap;
use ref_draft::{Draft, trim_hashes};
use ref_error::{DefaultRetriever, Error};
use ref_index::Index;
use ref_uri::Uri;
use ref_uri::uri::from_str;
use std::alloc::{AllocError, Global};
use std::convert::AsStr;
use std::fmt;

/// A registry that is yet to be prepared: the documents that were added, in order of first addition, and how it is prepared.
///
/// Contracts see its retriever, its limit, the draft that was set, the worlds of its parents, and its pending documents.
#[derive(Drop)]
pub struct RegistryBuilder<'a, R = DefaultRetriever> {
    pub(crate) alloc: Global,
    pub(crate) parents: Vec<&'a Index<'a>>,
    pub(crate) pending: IndexMap<Uri, PendingResource<'a>>,
    pub(crate) draft: Option<Draft>,
    pub(crate) limit: usize,
    pub(crate) retriever: R,
}

/// How many documents a registry retrieves at most, where no other limit is set.
pub const DEFAULT_RETRIEVAL_LIMIT: usize = 10_000;

impl<'a> RegistryBuilder<'a> {
    // Without documents, above these parents, of which the nearest is first.
    pub(crate) fn new(alloc: Global, parents: Vec<&'a Index<'a>>) -> RegistryBuilder<'a>
        ensures parents { (builder_of result).parents ≡ map (λ p. p.now) parents.entry.items }
        ensures pending { (builder_of result).pending ≡ [] }
        ensures draft { (builder_of result).draft ≡ None }
        ensures limit { (builder_of result).limit ≡ 10000 }
    {
        RegistryBuilder {
            alloc,
            parents,
            pending: IndexMap::new(alloc),
            draft: None,
            limit: DEFAULT_RETRIEVAL_LIMIT,
            retriever: DefaultRetriever,
        }
    }
}

impl<'a, R: Drop> RegistryBuilder<'a, R> {
    /// Sets the draft that is detected with: a document or a retrieved one that names none is read by it. All else stays.
    /// Takes no memory.
    pub fn draft(self, draft: Draft) -> Self
        ensures value { builder_of result ≡ setting_draft draft (builder_of self.entry) }
    {
        let mut builder = self;
        builder.draft = Some(draft);
        builder
    }

    /// Sets how many documents may be retrieved. All else stays. Takes no memory.
    pub fn retrieval_limit(self, limit: usize) -> Self
        ensures value { builder_of result ≡ limited_to limit (builder_of self.entry) }
    {
        let mut builder = self;
        builder.limit = limit;
        builder
    }

    /// Sets what documents are retrieved from that are wanted and were not added. All else stays. Takes no memory.
    pub fn retriever<S>(self, retriever: S) -> RegistryBuilder<'a, S>
        ensures value { builder_of result ≡ retrieving_from retriever (builder_of self.entry) }
    {
        let RegistryBuilder {
            alloc,
            parents,
            pending,
            draft,
            limit,
            retriever: _,
        } = self;
        RegistryBuilder {
            alloc,
            parents,
            pending,
            draft,
            limit,
            retriever,
        }
    }

    /// Adds a document under a URI, which is what the text means by itself, the `#` characters at its end dropped
    /// (RFC 3986, 5): after the others, or in the place of the one that is there. The builder may borrow for less
    /// afterwards. `InvalidUri` exactly where the text means no URI, `Memory` where there is none for the URI and its entry.
    /// The value is not copied; one that is owned is shared from here on, which takes memory for a handle. A look-up in a
    /// hashed map.
    pub fn add<'b, U: AsStr + Drop, T: IntoRegistryResource<'b>>(
        self,
        uri: U,
        resource: T,
    ) -> Result<RegistryBuilder<'b, R>, Error>
    where
        'a: 'b,
        ensures ok { IfOk result
            (λ b. Adds
            (with_addition (builder_of self.entry).pending
            (addition (U.text uri) (T.tree resource) (T.given_draft resource)))
            (builder_of self.entry) (builder_of b)) }
        ensures fault { IfErr result
            (IsFaultOf
            (as_invalid_uri
            (with_addition (builder_of self.entry).pending
            (addition (U.text uri) (T.tree resource) (T.given_draft resource))))) }
    {
        let mut builder = shortened(self);
        builder.push(uri.as_str(), resource.into_pending())?;
        Ok(builder)
    }

    /// Adds documents one after another, as [`RegistryBuilder::add`] does, up to the first that is refused: each under its
    /// text, in the order in which they come. `InvalidUri` exactly where one of the texts means no URI, for the first of
    /// them, `Memory` where there is none. Linear in the documents.
    pub fn extend<'b, U: AsStr + Drop, T: IntoRegistryResource<'b>, I: IntoIterator<Item = (U, T)>>(
        self,
        pairs: I,
    ) -> Result<RegistryBuilder<'b, R>, Error>
    where
        'a: 'b,
        requires ends { IsFiniteIterable I.into_iter_gives I.IntoIter.can_next I.IntoIter.remaining
            pairs }
        ensures ok { IfOk result
            (λ b. OfAllFrom I.into_iter_gives I.IntoIter.next_gives pairs
            (λ xs. Adds
            (with_additions (builder_of self.entry).pending
            (map (λ x. addition (U.text x.0) (T.tree x.1) (T.given_draft x.1)) xs))
            (builder_of self.entry) (builder_of b))) }
        ensures fault { IfErr result
            (λ error. (it : I.IntoIter) × (xs : List (U × T)) × I.into_iter_gives pairs it
            × ((rest : I.IntoIter) × Yields I.IntoIter.next_gives it xs rest)
            × IsFaultOf
            (as_invalid_uri
            (with_additions (builder_of self.entry).pending
            (map (λ x. addition (U.text x.0) (T.tree x.1)
            (T.given_draft x.1)) xs))) error) }
    {
        let mut builder = shortened(self);
        for (uri, resource) in pairs {
            builder.push(uri.as_str(), resource.into_pending())?;
        }
        Ok(builder)
    }

    // Adds a document under what a text means. Nothing changes where it is refused.
    pub(crate) fn push(&mut self, uri: &str, resource: PendingResource<'a>) -> Result<(), Error>
        ensures ok { OnOk result
            (Adds
            (with_addition (builder_of self.old).pending
            (addition uri.now (tree_of resource.entry.contents) resource.entry.draft))
            (builder_of self.old) (builder_of self.new)) }
        ensures fault { IfErr result
            (IsFaultOf
            (as_invalid_uri
            (with_addition (builder_of self.old).pending
            (addition uri.now
            (tree_of resource.entry.contents) resource.entry.draft)))) }
        ensures err { OnErr result (builder_of self.new ≡ builder_of self.old) }
    {
        let uri = from_str(self.alloc, trim_hashes(uri))?;
        let resource = shared(self.alloc, resource)?;
        put(&mut self.pending, uri, resource)?;
        Ok(())
    }
}

impl<'a, R: Clone> RegistryBuilder<'a, R> {
    /// The same builder once more: its documents, which both have from then on, its draft, limit, parents and a clone of its
    /// retriever. Takes memory for the list of parents, for the documents' URIs and for what the retriever's clone takes; no
    /// value is copied.
    ///
    /// Asks that the retriever's clone equals it. A retriever without a clone can be borrowed, as `&MapRetriever`.
    pub fn clone(&self) -> Result<Self, AllocError>
        requires same { (x y : R) → R.is_clone x y → y ≡ x }
        ensures value { IfOk result (λ copy. builder_of copy ≡ builder_of self.now) }
    {
        let parents = self.parents.clone()?;
        let pending = copied(&self.pending)?;
        let retriever = self.retriever.clone()?;
        Ok(RegistryBuilder {
            alloc: self.alloc,
            parents,
            pending,
            draft: self.draft,
            limit: self.limit,
            retriever,
        })
    }
}

impl<'a, R> fmt::Debug for RegistryBuilder<'a, R> {
    fn fmt<W: fmt::Write>(&self, f: &mut fmt::Formatter<W>) -> fmt::Result {
        let has_baseline = !self.parents.is_empty();
        let pending_len = self.pending.len();
        f.debug_struct("RegistryBuilder")
            .field("has_baseline", &has_baseline)
            .field("pending_len", &pending_len)
            .field("draft", &self.draft)
            .finish()
    }
}

/// The builder above these parents, of which the nearest is first; all else stays.
pub(crate) fn above<'a>(
    builder: RegistryBuilder<'a>,
    parents: Vec<&'a Index<'a>>,
) -> RegistryBuilder<'a>
    ensures value { builder_of result
        ≡ above_layers (map (λ p. p.now) parents.entry.items) (builder_of builder.entry) }
{
    let mut builder = builder;
    builder.parents = parents;
    builder
}

// The same builder, which borrows for less.
fn shortened<'a: 'b, 'b, R>(builder: RegistryBuilder<'a, R>) -> RegistryBuilder<'b, R>
    ensures { builder_of result ≡ builder_of builder.entry }
{
    builder
}

// Puts a document under its URI: in the place of one that is there, or after the others.
fn put<'a>(
    pending: &mut IndexMap<Uri, PendingResource<'a>>,
    uri: Uri,
    resource: PendingResource<'a>,
) -> Result<(), AllocError>
    ensures ok { OnOk result
        (map pending_under pending.new.entries
        ≡ with_pending (map pending_under pending.old.entries)
        (pending_under (uri, resource.entry))) }
    ensures err { OnErr result (pending.new.entries ≡ pending.old.entries) }
{
    pending.insert(uri, resource)?;
    Ok(())
}

// The documents with handles of their values, under the same URIs.
fn copied<'a>(
    pending: &IndexMap<Uri, PendingResource<'a>>,
) -> Result<IndexMap<Uri, PendingResource<'a>>, AllocError>
    ensures { IfOk result
        (λ copy. map pending_under copy.entries ≡ map pending_under pending.now.entries) }
{
    let copy = pending.clone()?;
    Ok(copy)
}
