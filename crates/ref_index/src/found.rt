//! What the walk over documents has found: which URIs and names mean which places, and what is wanted.
ghost use Rattle.std.specs.Prelude.{◌≡◌, ℕ, List, [], ◌∷◌, ◌++◌, OnOk, if◌then◌else◌, slice_get, true, Some, Ok, IfOk};
ghost use Rattle.std.specs.HashSet.{contains};
ghost use Rattle.std.specs.Str.{bytes_eq};
ghost use Rattle.std.specs.declared.alloc.Global as global;
ghost use Rattle.std.specs.declared.rc.Rc as rc;
ghost use Rattle.ref_draft.specs.Views.{anchor_name, resource_ref, tagged_value};
ghost use Rattle.ref_parts.specs.Table as table;
ghost use Rattle.ref_definitions.specs.World.{Layer};
ghost use Rattle.ref_definitions.specs.Places.{Place};
ghost use Rattle.ref_definitions.specs.Anchors.{named_under};
ghost use Rattle.ref_uri.specs.Targets.{uri_against};
ghost use Rattle.ref_index.specs.Spots.{with_number};
ghost use Rattle.ref_index.specs.declared.found.ResolvedUri.{ResolvedUri as Resolved};
ghost use Rattle.ref_index.specs.inner.Found.{FoundLists, Holds, IsNumberOf, IsPairOf, cause_of, is_same, name_entry, nothing_held, with_resources, with_names, with_wants, with_identifiers, with_references};
ghost use Rattle.ref_index.specs.Entries.{kind_of};

use crate::entry::{Entry, NamedEntry};
use ref_draft::{Anchor, AnchorIter, ResourceRef};
use ref_parts::TableEntries;
use ref_uri::Uri;
use std::alloc::{AllocError, Global};
use std::collections::HashSet;
use std::rc::Rc;

/// Why a URI is wanted.
#[derive(Debug, Clone, Copy, PartialEq, Eq)]
pub enum Cause {
    /// A schema refers to it.
    Reference,
    /// A schema names it as its meta-schema.
    MetaSchema,
}

/// A URI that is wanted, and why.
#[derive(Drop)]
pub struct Want {
    pub cause: Cause,
    pub uri: Rc<Uri>,
}

/// A URI that a text was resolved to, and the number of the entry of the place that it means: none until the index is
/// made, and none in it where the URI means no place of the documents.
#[derive(Drop)]
pub struct ResolvedUri {
    pub uri: Rc<Uri>,
    pub entry: Option<usize>,
}

/// What was found so far, in the order of documents and places. Where a call on it is refused, nothing is said of it
/// afterwards: it is to be let go.
#[derive(Drop)]
pub struct Found<'a> {
    /// The places that are identified or named.
    pub entries: Vec<Entry<'a>>,
    /// The places that URIs identify, each by the number of its entry, under its URI and the empty text.
    pub resources: TableEntries<usize>,
    /// The places that anchors name, each under its URI and name.
    pub names: TableEntries<NamedEntry>,
    /// What is wanted.
    pub wants: Vec<Want>,
    /// What identifiers were resolved to: each URI under the base and the text that it was resolved from.
    pub identifiers: TableEntries<ResolvedUri>,
    /// What the texts of references were resolved to, likewise. Two lists, since each comes mostly in byte order, and one with
    /// both by turns would not.
    pub references: TableEntries<ResolvedUri>,
    /// The URIs that identify places.
    pub identified: HashSet<Rc<Uri>>,
}

impl<'a> Found<'a> {
    /// Nothing. Takes no memory.
    pub fn new(alloc: Global) -> Found<'a>
        ensures empty { (layer : Layer) → Holds layer result nothing_held }
    {
        Found {
            entries: Vec::new(alloc),
            resources: TableEntries::new(alloc),
            names: TableEntries::new(alloc),
            wants: Vec::new(alloc),
            identifiers: TableEntries::new(alloc),
            references: TableEntries::new(alloc),
            identified: HashSet::new(alloc),
        }
    }

    /// Takes room for so many times as much as was found, but not more than for 32,768 of each list.
    pub fn reserve_times(&mut self, times: usize) -> Result<(), AllocError>
        ensures held { (layer : Layer) (held : FoundLists)
            → Holds layer self.old held → OnOk result (Holds layer self.new held) }
    {
        self.entries.reserve(more_of(self.entries.len(), times))?;
        self.wants.reserve(more_of(self.wants.len(), times))?;
        self.identified
            .reserve(more_of(self.identified.len(), times))?;
        self.resources.reserve_times(times)?;
        self.names.reserve_times(times)?;
        self.identifiers.reserve_times(times)?;
        self.references.reserve_times(times)?;
        Ok(())
    }

    /// Adds the entry of a place, and returns its number. Copies nothing.
    pub fn add_entry(&mut self, entry: Entry<'a>) -> Result<usize, AllocError>
        ensures added { (layer : Layer) (held : FoundLists)
            → Holds layer self.old held → OnOk result (Holds layer self.new held) }
        ensures entry { IfOk result
            (λ number. slice_get self.new.entries.items number ≡ Some entry.entry) }
    {
        let number = self.entries.len();
        self.entries.push(entry)?;
        Ok(number)
    }

    /// Adds that a URI identifies the place of an entry. Its text is copied, and its handle shared. Takes memory where the
    /// lists have no room left, and is refused where there is none.
    pub fn add_resource(&mut self, uri: &Rc<Uri>, entry: usize) -> Result<(), AllocError>
        ensures added { (layer : Layer) (held : FoundLists) (p : Place) (number : ℕ)
            → Holds layer self.old held → IsNumberOf layer self.old.entries.items number entry p
            → OnOk result
            (Holds layer self.new (with_resources held ((number, (uri.now.value, p)) ∷ []))) }
        ensures entries { OnOk result (self.new.entries.items ≡ self.old.entries.items) }
    {
        identify(&mut self.identified, uri)?;
        self.resources.push(uri.as_str(), "", entry)
    }

    // Adds that an anchor names a place.
    fn add_name(&mut self, uri: &str, entry: usize, anchor: Anchor<'_>) -> Result<(), AllocError>
        ensures added { (layer : Layer) (held : FoundLists) (p : Place) (number : ℕ)
            → Holds layer self.old held → IsNumberOf layer self.old.entries.items number entry p
            → OnOk result
            (Holds layer self.new
            (with_names held ((number, name_entry uri.now p (anchor_name anchor.entry)) ∷ []))) }
        ensures entries { OnOk result (self.new.entries.items ≡ self.old.entries.items) }
    {
        let is_dynamic = is_dynamic(&anchor);
        self.names
            .push(uri, anchor.name(), NamedEntry { is_dynamic, entry })
    }

    /// Adds the anchors of a place under a URI. The URI and each name are copied.
    pub fn add_names(
        &mut self,
        uri: &str,
        entry: usize,
        resource: ResourceRef<'_>,
    ) -> Result<(), AllocError>
        ensures added { (layer : Layer) (held : FoundLists) (p : Place) (number : ℕ)
            → Holds layer self.old held → IsNumberOf layer self.old.entries.items number entry p
            → resource_ref resource.entry ≡ tagged_value p.draft p.value
            → OnOk result
            (Holds layer self.new (with_names held (with_number number (named_under uri.now p)))) }
        ensures entries { OnOk result (self.new.entries.items ≡ self.old.entries.items) }
    {
        match resource.draft().anchors(resource.contents()) {
            AnchorIter::Empty => Ok(()),
            AnchorIter::One(anchor) => self.add_name(uri, entry, anchor),
            AnchorIter::Two(plain, dynamic) => {
                self.add_name(uri, entry, plain)?;
                self.add_name(uri, entry, dynamic)
            }
        }
    }

    /// Adds a want. Copies nothing.
    pub fn add_want(&mut self, cause: Cause, uri: Rc<Uri>) -> Result<(), AllocError>
        ensures added { (layer : Layer) (held : FoundLists)
            → Holds layer self.old held
            → OnOk result
            (Holds layer self.new
            (with_wants held (record { cause = cause_of cause; uri = uri.value } ∷ []))) }
    {
        self.wants.push(Want { cause, uri })?;
        Ok(())
    }

    /// Adds what an identifier means against a base; the URI's entry isn't known yet. The base and the text are copied, and
    /// the URI is shared.
    pub fn add_identifier(
        &mut self,
        base: &str,
        text: &str,
        uri: &Rc<Uri>,
    ) -> Result<(), AllocError>
        ensures added { (layer : Layer) (held : FoundLists)
            → Holds layer self.old held → uri_against base.now text.now ≡ Ok uri.now.value
            → OnOk result
            (Holds layer self.new (with_identifiers held ((base.now, text.now) ∷ []))) }
    {
        push_resolved(&mut self.identifiers, base, text, uri)
    }

    /// Adds what the text of a reference means against a base; the URI's entry isn't known yet. The base and the text are
    /// copied, and the URI is shared.
    pub fn add_reference(&mut self, base: &str, text: &str, uri: &Rc<Uri>) -> Result<(), AllocError>
        ensures added { (layer : Layer) (held : FoundLists)
            → Holds layer self.old held → uri_against base.now text.now ≡ Ok uri.now.value
            → OnOk result
            (Holds layer self.new (with_references held ((base.now, text.now) ∷ []))) }
    {
        push_resolved(&mut self.references, base, text, uri)
    }
}

// So many times as many, up to 32,768.
fn more_of(len: usize, times: usize) -> usize {
    len.saturating_mul(times).min(32768)
}

// Adds what a text means against a base, whose entry isn't known yet.
fn push_resolved(
    resolved: &mut TableEntries<ResolvedUri>,
    base: &str,
    text: &str,
    uri: &Rc<Uri>,
) -> Result<(), AllocError>
    ensures { uri_against base.now text.now ≡ Ok uri.now.value
        → OnOk result ((e : table.Entry Resolved)
        × (resolved.new ≡ resolved.old ++ e ∷ []) × IsPairOf e (base.now, text.now)) }
{
    let uri = uri.clone()?;
    resolved.push(base, text, ResolvedUri { uri, entry: None })
}

// Adds a URI to those that identify places. The handle is shared; no text is copied.
fn identify(identified: &mut HashSet<Rc<Uri>>, uri: &Rc<Uri>) -> Result<(), AllocError>
    ensures { (u : rc.Rc (List ℕ) global.Global)
        → OnOk result
        (contains is_same identified.new u
        ≡ (if bytes_eq uri.now.value u.value then true
        else contains is_same identified.old u)) }
{
    identified.insert(uri.clone()?)?;
    Ok(())
}

// Whether an anchor is a dynamic one.
fn is_dynamic(anchor: &Anchor<'_>) -> bool
    ensures { kind_of result ≡ (anchor_name anchor.now).1 }
{
    match anchor {
        Anchor::Dynamic { .. } => true,
        Anchor::Default { .. } => false,
    }
}
