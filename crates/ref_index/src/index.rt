//! The documents of a registry with the index of their places.
ghost use Rattle.std.specs.Prelude.{◌≡◌, ℕ, List, map, length, MatchOption, IfOk, IfSome, option_map, option_copied, is_some, slice_get, true, Some, None, Ok};
ghost use Rattle.std.specs.List.{Contains};
ghost use Rattle.serde_json.specs.View.{view};
ghost use Rattle.ref_uri.specs.Components.{scheme};
ghost use Rattle.ref_uri.specs.Targets.{uri_against};
ghost use Rattle.ref_parts.specs.Table.{with_value};
ghost use Rattle.ref_definitions.specs.World.{Document as WorldDocument};
ghost use Rattle.ref_definitions.specs.Agreement.{ChildrenAreThere};
ghost use Rattle.ref_definitions.specs.Places.{Place};
ghost use Rattle.ref_definitions.specs.Resources.{last_under, resources};
ghost use Rattle.ref_definitions.specs.Anchors.{last_named, names};
ghost use Rattle.ref_definitions.specs.Cached.{pairs};
ghost use Rattle.ref_definitions.specs.Wants.{Want};
ghost use Rattle.ref_index.specs.Document.{document_of};
ghost use Rattle.ref_index.specs.Spots.{spot_under, spot_named, spot_of};
ghost use Rattle.ref_index.specs.inner.Found.{Holds};
ghost use Rattle.ref_index.specs.Entries.{IsEntryOf, IsFoundAt, IsFoundWhere, IsNamedAt};
ghost use Rattle.ref_index.specs.inner.NormalUris.{IsNormalUri, HaveNormalUris};
ghost use Rattle.ref_index.specs.inner.Visits.{held_of};
ghost use Rattle.ref_index.specs.inner.Index.{numbered_uri};

use crate::document::Document;
use crate::entry::{Entry, FoundName, FoundUri, NamedEntry};
use crate::found::{Found, ResolvedUri};
use ref_parts::{SortedTable, TableEntries, value_at};
use ref_uri::uri::from_str;
use ref_uri::{Uri, UriFault};
use serde_json::Value;
use std::alloc::{AllocError, Global};
use std::marker::Model;

/// Documents, and the entries of places in them, with a table of the URIs that identify their places, one of the names
/// that anchors give them, and one of the URIs that were resolved on the way, each with the entry of the place that it
/// means. Contracts see the documents.
#[derive(Drop)]
pub struct Index<'a> {
    documents: Vec<Document<'a>>,
    entries: Vec<Entry<'a>>,
    by_uri: SortedTable<usize>,
    by_name: SortedTable<NamedEntry>,
    by_pair: SortedTable<ResolvedUri>,
    // Whether the documents' URIs are known to be in normal form.
    is_normal: bool,
}

impl<'a> Model for Index<'a> {
    ghost use Rattle.ref_definitions.specs.World.{Layer};
    ghost use Rattle.ref_index.specs.Codes.{layer_code};

    ghost Value = { Layer };

    ghost coded = { layer_code };

    ghost use Rattle.ref_index.specs.Document.{layer_of};
    ghost use Rattle.ref_index.specs.inner.Index.{IsIndexOf};

    ghost view = { λ i. layer_of i.documents.items };

    ghost invariant = { λ i. IsIndexOf (layer_of i.documents.items) i.entries.items i.by_uri
        i.by_name i.by_pair i.is_normal };
}

impl<'a> Index<'a> {
    /// The index of documents that were walked. The entries, and the texts and values of the three tables, which are sorted
    /// once, are moved in; the texts of references are copied after those of identifiers; wants and the set of URIs are let
    /// go. Takes memory for the tables, and a look-up for each URI that was resolved; and puts each document's URI in normal
    /// form, to compare the two.
    pub(crate) fn new(
        alloc: Global,
        documents: Vec<Document<'a>>,
        found: Found<'a>,
    ) -> Result<Index<'a>, AllocError>
        requires held { (wants : List Want)
            × Holds (map document_of documents.items) found
            (held_of (map document_of documents.items) wants) }
        requires children { (d : WorldDocument) → Contains (map document_of documents.items) d
            → ChildrenAreThere d }
        ensures value { IfOk result (λ index. index ≡ map document_of documents.entry.items) }
    {
        // (what was only for the walk is let go before the tables take memory)
        drop(found.identified);
        drop(found.wants);
        let by_uri = found.resources.into_table(alloc)?;
        let by_name = found.names.into_table(alloc)?;
        let mut resolved = found.identifiers;
        resolved.append(found.references)?;
        set_entries(&by_uri, &mut resolved);
        let by_pair = resolved.into_table(alloc)?;
        let is_normal = are_normal(alloc, documents.as_slice())?;
        Ok(Index {
            documents,
            entries: found.entries,
            by_uri,
            by_name,
            by_pair,
            is_normal,
        })
    }

    /// How many documents there are. Takes no memory.
    pub fn document_count(&self) -> usize
        ensures value { result ≡ length self.now }
    {
        self.documents.len()
    }

    /// The documents, in the order in which they were handed in, and after them those retrieved. Takes no memory.
    pub fn documents(&self) -> &[Document<'a>]
        ensures value { map document_of result.now ≡ self.now }
    {
        self.documents.as_slice()
    }

    /// Each child of a place of these documents is at its path. A law; the call does nothing.
    pub fn children_are_there(&self)
        ensures law { (d : WorldDocument) → Contains self.now d → ChildrenAreThere d }
    {
        let _ = &self.by_uri;
    }

    /// The value of the document with a number, in that order, counted from 0. A look-up;
    /// takes no memory.
    pub fn tree(&self, document: usize) -> Option<&Value>
        ensures value { option_map (λ v. view v.now) result
            ≡ option_map (λ d. d.tree) (slice_get self.now document) }
    {
        let document = self.documents.get(document)?;
        Some(document.contents.value())
    }

    /// The place that a URI means in these documents. A look-up; takes no memory.
    #[inline(always)]
    pub fn resource(&self, uri: &str) -> Option<&Entry<'a>>
        ensures value { MatchOption result (last_under uri.now (resources self.now) ≡ None)
            (λ e. IsFoundAt self.now e.now (last_under uri.now (resources self.now))) }
        ensures spot { IfSome result (λ e. spot_under uri.now self.now ≡ Some (spot_of e.now)) }
    {
        let number = self.by_uri.find(uri, "").copied();
        entry_at(self.entries.as_slice(), number)
    }

    /// The place that a URI means in these documents, where its base is that very URI, in normal form: then the URI
    /// means itself against any base, and needn't be resolved. `None` too where a document has a URI in no normal form.
    /// A look-up; takes no memory.
    pub fn identified(&self, uri: &str) -> Option<&Entry<'a>>
        ensures value { IfSome result
            (λ e. IsFoundAt self.now e.now (last_under uri.now (resources self.now))) }
        ensures base { IfSome result (λ e. e.now.base.value ≡ uri.now) }
        ensures itself { IfSome result
            (λ e. (base : List ℕ) → is_some (scheme base) ≡ true
            → uri_against base uri.now ≡ Ok uri.now) }
    {
        if !self.is_normal {
            return None;
        }
        let entry = self.resource(uri)?;
        if entry.base.as_str() == uri {
            Some(entry)
        } else {
            None
        }
    }

    /// The place that an anchor names under a URI in these documents. A look-up; takes no memory.
    pub fn named(&self, uri: &str, name: &str) -> Option<FoundName<'_, 'a>>
        ensures value { MatchOption result (last_named uri.now name.now (names self.now) ≡ None)
            (λ e. IsNamedAt self.now e (last_named uri.now name.now (names self.now))) }
        ensures spot { IfSome result
            (λ e. spot_named uri.now name.now self.now ≡ Some (spot_of e.entry.now)) }
    {
        let named = self.by_name.find(uri, name)?;
        let entry = self.entries.get(named.entry)?;
        Some(FoundName { named, entry })
    }

    /// The URI that a text means against a base, where that was resolved while the documents were walked, and the place that it
    /// means in these documents, where there is one. A look-up; takes no memory.
    #[inline(always)]
    pub fn resolved(&self, base: &str, text: &str) -> Option<FoundUri<'_, 'a>>
        ensures value { MatchOption result (¬ (Contains (pairs self.now) (base.now, text.now)))
            (λ found. uri_against base.now text.now ≡ Ok found.uri.now.value) }
        ensures place { IfSome result
            (λ found. IsFoundWhere self.now found.entry
            (last_under found.uri.now.value (resources self.now))) }
    {
        let resolved = self.by_pair.find(base, text)?;
        Some(FoundUri {
            uri: &resolved.uri,
            entry: entry_at(self.entries.as_slice(), resolved.entry),
        })
    }

    /// The value of a place. At once, where its document is borrowed, and else a look-up for each part of its path;
    /// takes no memory.
    #[inline(always)]
    pub fn value(&self, entry: &Entry<'a>) -> Option<&Value>
        ensures value { (p : Place) → IsEntryOf self.now entry.now p
            → option_map (λ v. view v.now) result ≡ Some p.value }
    {
        match entry.borrowed {
            Some(value) => Some(value),
            None => {
                let document = self.documents.get(entry.document)?;
                value_at(document.contents.value(), entry.path.as_slice())
            }
        }
    }
}

// Whether a URI is in normal form.
fn is_normal(alloc: Global, uri: &Uri) -> Result<bool, AllocError>
    ensures { IfOk result (λ is. is ≡ true → IsNormalUri uri.now) }
{
    match from_str(alloc, uri.as_str()) {
        Ok(normal) => Ok(uri.has_scheme() && normal.as_str() == uri.as_str()),
        Err(UriFault::Invalid(_)) => Ok(false),
        Err(UriFault::Memory(error)) => Err(error),
    }
}

// Whether the URI of each document is in normal form.
fn are_normal(alloc: Global, documents: &[Document<'_>]) -> Result<bool, AllocError>
    ensures { IfOk result (λ are. are ≡ true → HaveNormalUris (map document_of documents.now)) }
{
    for document in documents {
        if !is_normal(alloc, &document.uri)? {
            return Ok(false);
        }
    }
    Ok(true)
}

// Puts beside each URI that was resolved the number of the entry that a table of resources has for it, where it has one.
fn set_entries(by_uri: &SortedTable<usize>, pairs: &mut TableEntries<ResolvedUri>)
    ensures { pairs.new ≡ map (with_value (numbered_uri by_uri.now)) pairs.old }
{
    pairs.change_values(|resolved| {
        resolved.entry = by_uri.find(resolved.uri.as_str(), "").copied();
    });
}

// The entry with a number, where there is one.
#[inline(always)]
fn entry_at<'i, 'a>(entries: &'i [Entry<'a>], number: Option<usize>) -> Option<&'i Entry<'a>>
    ensures { MatchOption number (result ≡ None)
        (λ n. option_copied result ≡ slice_get entries.now n) }
{
    entries.get(number?)
}
