//! Documents that are walked one after another.
ghost use Rattle.std.specs.Prelude.{◌≡◌, ◌∷◌, ◌++◌, ◌≤◌, [], map, take, length, slice_get, Some, None, true, false, OnOk, IfOk, IfErr, IfSome, MatchOption};
ghost use Rattle.std.specs.List.{AllByRecursion};
ghost use Rattle.ref_definitions.specs.Wants.{Want as Wanted, faults, wants, is_open};
ghost use Rattle.ref_index.specs.Document.{document_of};
ghost use Rattle.ref_index.specs.inner.Found.{want_of};
ghost use Rattle.ref_index.specs.Listed.{IsListingOf};
ghost use Rattle.ref_index.specs.Visit.{place_of};
ghost use Rattle.ref_index.specs.Faults.{IsFirstFault};
ghost use Rattle.ref_index.specs.inner.Visits.{IsFound, WalksOver};

use crate::document::Document;
use crate::found::{Found, Want};
use crate::index::Index;
use crate::listed::note;
use crate::open::first_open;
use crate::queue::Visit;
use crate::walk::walk;
use ref_uri::UriFault;
use std::alloc::{AllocError, Global};
use std::marker::Model;

// Adds a document after the others.
fn push<'a>(documents: &mut Vec<Document<'a>>, document: Document<'a>) -> Result<(), AllocError>
    ensures { OnOk result (documents.new.items ≡ documents.old.items ++ document.entry ∷ []) }
{
    documents.push(document)?;
    Ok(())
}

// Adds what the places of a document are identified by, are named and want: by the places that are listed, or else by a walk.
fn walk_or_note<'a>(
    alloc: Global,
    found: &mut Found<'a>,
    number: usize,
    document: &Document<'a>,
    listed: Option<&[Visit<'a, 'a>]>,
) -> Result<(), UriFault>
    requires { IfSome listed
        (λ below. IsListingOf (document_of document.now) (map place_of below.now)) }
    ensures { WalksOver (document_of document.now) number found.old found.new result }
{
    match listed {
        Some(below) => note(alloc, found, number, document, below),
        None => walk(alloc, found, number, document),
    }
}

// Adds a document after the others, and what its places are identified by, are named and want after what was found in them.
// Of what was found and of the documents nothing is said after a refusal: both are to be let go.
fn walk_next<'a>(
    alloc: Global,
    documents: &mut Vec<Document<'a>>,
    found: &mut Found<'a>,
    document: Document<'a>,
    listed: Option<&[Visit<'a, 'a>]>,
) -> Result<(), UriFault>
    requires found { IsFound (map document_of documents.old.items) found.old }
    requires listed { IfSome listed
        (λ below. IsListingOf (document_of document) (map place_of below.now)) }
    ensures documents { OnOk result
        (map document_of documents.new.items
        ≡ map document_of documents.old.items ++ document_of document.entry ∷ []) }
    ensures found { OnOk result (IsFound (map document_of documents.new.items) found.new) }
    ensures fault { IfErr result
        (IsFirstFault
        (faults (map document_of documents.old.items ++ document_of document.entry ∷ []))) }
{
    let number = documents.len();
    push(documents, document)?;
    walk_or_note(alloc, found, number, &documents[number], listed)
}

/// Documents that were walked, of which none has a fault, and what was found in them. Contracts see the documents.
#[derive(Drop)]
pub struct Walked<'a> {
    documents: Vec<Document<'a>>,
    found: Found<'a>,
}

impl<'a> Model for Walked<'a> {
    ghost use Rattle.ref_definitions.specs.World.{Layer};
    ghost use Rattle.ref_index.specs.Codes.{layer_code};

    ghost Value = { Layer };

    ghost coded = { layer_code };

    ghost use Rattle.ref_index.specs.Document.{layer_of};
    ghost use Rattle.ref_index.specs.inner.Visits.{IsFound};

    ghost view = { λ w. layer_of w.documents.items };

    ghost invariant = { λ w. IsFound (layer_of w.documents.items) w.found };
}

impl<'a> Walked<'a> {
    /// No documents. Takes no memory.
    pub fn new(alloc: Global) -> Walked<'a>
        ensures value { result ≡ [] }
    {
        Walked {
            documents: Vec::new(alloc),
            found: Found::new(alloc),
        }
    }

    /// These documents, with room for so many times as many that are like them, so that lists needn't grow; of each list at most for
    /// 32,768 more.
    pub(crate) fn with_room(self, times: usize) -> Result<Walked<'a>, AllocError>
        ensures value { IfOk result (λ walked. walked ≡ self.entry) }
    {
        let Walked {
            mut documents,
            mut found,
        } = self;
        documents.reserve(documents.len().saturating_mul(times).min(32768))?;
        found.reserve_times(times)?;
        Ok(Walked { documents, found })
    }

    /// These documents and one after them, which is walked. It is moved, and its value never copied.
    ///
    /// Refuses for the first fault of all these documents, which is then one of the last's; and where memory is refused.
    pub fn append(self, alloc: Global, document: Document<'a>) -> Result<Walked<'a>, UriFault>
        ensures value { IfOk result
            (λ walked. walked ≡ self.entry ++ document_of document.entry ∷ []) }
        ensures fault { IfErr result
            (IsFirstFault (faults (self.entry ++ document_of document.entry ∷ []))) }
    {
        self.appended(alloc, document, None)
    }

    /// The same, where the document is borrowed and the caller has walked over its places already: those below its root that
    /// have an identifier, an anchor, or a text under `$ref` or `$schema` are listed in their order, and no other is visited.
    ///
    /// Refuses where memory is refused, since a document whose places are listed is to have no fault.
    pub fn append_listed(
        self,
        alloc: Global,
        document: Document<'a>,
        below: &[Visit<'a, 'a>],
    ) -> Result<Walked<'a>, UriFault>
        requires { IsListingOf (document_of document) (map place_of below.now) }
        ensures value { IfOk result
            (λ walked. walked ≡ self.entry ++ document_of document.entry ∷ []) }
        ensures fault { IfErr result
            (IsFirstFault (faults (self.entry ++ document_of document.entry ∷ []))) }
    {
        self.appended(alloc, document, Some(below))
    }

    // These documents and one after them, which is walked, or whose places are listed.
    fn appended(
        self,
        alloc: Global,
        document: Document<'a>,
        listed: Option<&[Visit<'a, 'a>]>,
    ) -> Result<Walked<'a>, UriFault>
        requires { IfSome listed
            (λ below. IsListingOf (document_of document) (map place_of below.now)) }
        ensures value { IfOk result
            (λ walked. walked ≡ self.entry ++ document_of document.entry ∷ []) }
        ensures fault { IfErr result
            (IsFirstFault (faults (self.entry ++ document_of document.entry ∷ []))) }
    {
        let Walked {
            mut documents,
            mut found,
        } = self;
        walk_next(alloc, &mut documents, &mut found, document, listed)?;
        Ok(Walked { documents, found })
    }

    /// The number of the first want that is open, from a number on: where none before that number is open, none before the
    /// result is. The number of wants where none is. A look-up for each want that it passes; takes no memory.
    pub fn first_open(&self, parents: &[&Index<'_>], from: usize) -> usize
        requires { from ≤ length (wants self.now) }
        ensures faultless { faults self.now ≡ [] }
        ensures within { result ≤ length (wants self.now) }
        ensures met { AllByRecursion
            (λ w. is_open (self.now ∷ map (λ p. p.now) parents.now) w ≡ false)
            (take from (wants self.now))
            → AllByRecursion (λ w. is_open (self.now ∷ map (λ p. p.now) parents.now) w ≡ false)
            (take result (wants self.now)) }
        ensures open { (w : Wanted) → slice_get (wants self.now) result ≡ Some w
            → is_open (self.now ∷ map (λ p. p.now) parents.now) w ≡ true }
    {
        first_open(&self.found, parents, from)
    }

    /// The want with a number. A look-up; takes no memory.
    pub(crate) fn want(&self, number: usize) -> Option<&Want>
        ensures value { MatchOption result (slice_get (wants self.now) number ≡ None)
            (λ w. slice_get (wants self.now) number ≡ Some (want_of w.now)) }
    {
        self.found.wants.get(number)
    }

    /// The documents with the index of their places. Takes memory for the tables.
    pub fn into_index(self, alloc: Global) -> Result<Index<'a>, AllocError>
        ensures value { IfOk result (λ index. index ≡ self.entry) }
    {
        let Walked { documents, found } = self;
        Index::new(alloc, documents, found)
    }
}
