//! Which places have which URIs.
ghost use Rattle.std.specs.Prelude.{◌≡◌, [], ◌∷◌, ◌++◌, map, flat_map, filter, option_map, IfOk, OnOk};
ghost use Rattle.std.specs.List.{AllByRecursion};
ghost use Rattle.ref_paths.specs.Path.{part_eq, path_eq};
ghost use Rattle.ref_paths.specs.Segment.{part_of};
ghost use Rattle.ref_definitions.specs.World.{Layer};
ghost use Rattle.ref_bundle.specs.Needed.{borne_in, sites_of_uris, site_under, document_under};
ghost use Rattle.ref_bundle.specs.Bundle.{is_site, other_bearer};
ghost use Rattle.ref_bundle.specs.inner.Seen.{numbered_document, layer_in, HasPlaces, AreOwn};
ghost use Rattle.ref_bundle.specs.Saying.{seen_spot};
ghost use Rattle.ref_bundle.specs.inner.Tables.{site_of, table_of, entry_under, is_other, is_other_in};
ghost use Rattle.ref_bundle.specs.inner.Tables.{AreTables, borne_at};

use crate::own::{Own, Spot};
use crate::uris::own_uri;
use referencing::{JsonPointerSegment, Registry, SortedTable, TableEntries};
use std::alloc::{AllocError, Global};

/// A place: the number of its document, and its path there.
#[derive(Drop)]
pub(crate) struct Site<'r> {
    pub document: usize,
    pub path: Vec<JsonPointerSegment<'r>>,
}

/// Which place is the last to have each URI, and which is the last of those that aren't that one; and the registry, whose
/// parents have others.
#[derive(Drop)]
pub(crate) struct Bearers<'r, 'a> {
    pub registry: &'r Registry<'a>,
    pub last: SortedTable<Site<'r>>,
    pub others: SortedTable<Site<'r>>,
}

// Whether two parts of paths are the same.
fn is_part(part: &JsonPointerSegment<'_>, other: &JsonPointerSegment<'_>) -> bool
    ensures { result ≡ part_eq (part_of part.now) (part_of other.now) }
{
    *part == *other
}

// Whether two paths are the same.
fn is_path(path: &[JsonPointerSegment<'_>], other: &[JsonPointerSegment<'_>]) -> bool
    ensures { result ≡ path_eq (map part_of path.now) (map part_of other.now) }
{
    if path.len() != other.len() {
        return false;
    }
    for index in 0..path.len() {
        if !is_part(&path[index], &other[index]) {
            return false;
        }
    }
    true
}

// Whether a place is the one at a path of a document.
fn is_at(site: &Site<'_>, document: usize, path: &[JsonPointerSegment<'_>]) -> bool
    ensures { result ≡ is_site (site_of site.now) (document, map part_of path.now) }
{
    site.document == document && is_path(site.path.as_slice(), path)
}

// Adds the entry of a URI.
fn push<'r>(
    alloc: Global,
    entries: &mut TableEntries<Site<'r>>,
    uri: &str,
    document: usize,
    path: &[JsonPointerSegment<'r>],
) -> Result<(), AllocError>
    ensures { OnOk result (table_of entries.new ≡ table_of entries.old
        ++ entry_under (uri.now, (document, map part_of path.now)) ∷ []) }
{
    let path = path.to_vec(alloc)?;
    entries.push(uri, "", Site { document, path })?;
    Ok(())
}

// Whether another place than the one at a path of a document is last under a URI in a table.
fn is_other_in(
    table: &SortedTable<Site<'_>>,
    uri: &str,
    document: usize,
    path: &[JsonPointerSegment<'_>],
) -> bool
    ensures { result ≡ is_other_in (table_of table.now) uri.now (document, map part_of path.now) }
{
    match table.get(uri, "").0 {
        Some(site) => !is_at(site, document, path),
        None => true,
    }
}

// The same where there is a table.
fn is_other(
    table: Option<&SortedTable<Site<'_>>>,
    uri: &str,
    document: usize,
    path: &[JsonPointerSegment<'_>],
) -> bool
    ensures { result
        ≡ is_other (option_map (λ t. table_of t.now) table.entry)
        (uri.now, (document, map part_of path.now)) }
{
    match table {
        Some(table) => is_other_in(table, uri, document, path),
        None => true,
    }
}

// Adds the entry of a URI, where there is no table, or another place is last under it there.
fn push_other<'r>(
    alloc: Global,
    entries: &mut TableEntries<Site<'r>>,
    last: Option<&SortedTable<Site<'r>>>,
    uri: &str,
    document: usize,
    path: &[JsonPointerSegment<'r>],
) -> Result<(), AllocError>
    ensures { OnOk result (table_of entries.new ≡ table_of entries.old
        ++ map entry_under (filter (is_other (option_map (λ t. table_of t.now) last.entry)) ((
          uri.now,
          (document, map part_of path.now),
        ) ∷ []))) }
{
    if is_other(last, uri, document, path) {
        return push(alloc, entries, uri, document, path);
    }
    Ok(())
}

// Adds that of the URI that a place has by its identifier.
fn push_place<'r>(
    alloc: Global,
    entries: &mut TableEntries<Site<'r>>,
    last: Option<&SortedTable<Site<'r>>>,
    spot: &Spot<'r>,
) -> Result<(), AllocError>
    ensures { OnOk result (table_of entries.new ≡ table_of entries.old
        ++ map entry_under
        (filter (is_other (option_map (λ t. table_of t.now) last.entry))
        (borne_at (seen_spot spot.now)))) }
{
    match own_uri(spot) {
        Some(uri) => push_other(
            alloc,
            entries,
            last,
            uri.as_str(),
            spot.document,
            spot.path.as_slice(),
        ),
        None => Ok(()),
    }
}

// Adds those of the URIs that places have by their identifiers.
fn push_places<'r>(
    alloc: Global,
    entries: &mut TableEntries<Site<'r>>,
    last: Option<&SortedTable<Site<'r>>>,
    places: &[Spot<'r>],
) -> Result<(), AllocError>
    ensures { OnOk result (table_of entries.new ≡ table_of entries.old
        ++ flat_map
        (λ s. map entry_under
        (filter (is_other (option_map (λ t. table_of t.now) last.entry)) (borne_at s)))
        (map seen_spot places.now)) }
{
    for spot in places {
        push_place(alloc, entries, last, spot)?;
    }
    Ok(())
}

// Adds those of the URIs of a document and of its places.
fn push_own<'r>(
    alloc: Global,
    entries: &mut TableEntries<Site<'r>>,
    last: Option<&SortedTable<Site<'r>>>,
    own: &Own<'r>,
) -> Result<(), AllocError>
    requires { HasPlaces own.now }
    ensures { OnOk result (table_of entries.new ≡ table_of entries.old
        ++ map entry_under
        (filter (is_other (option_map (λ t. table_of t.now) last.entry)) (borne_in
        (numbered_document own.now)))) }
{
    push_other(alloc, entries, last, own.uri.as_str(), own.number, &[])?;
    push_places(alloc, entries, last, own.places.as_slice())
}

// The table of the URIs of documents and of their places.
fn table_of<'r>(
    alloc: Global,
    owns: &[Own<'r>],
    last: Option<&SortedTable<Site<'r>>>,
) -> Result<SortedTable<Site<'r>>, AllocError>
    requires { AllByRecursion HasPlaces owns.now }
    ensures { IfOk result (λ t. table_of t
        ≡ flat_map
        (λ e. map entry_under
        (filter (is_other (option_map (λ t. table_of t.now) last.entry)) (borne_in e)))
        (map numbered_document owns.now)) }
{
    let mut entries = TableEntries::new(alloc);
    for own in owns {
        push_own(alloc, &mut entries, last, own)?;
    }
    let table = entries.into_table(alloc)?;
    Ok(table)
}

/// The tables of the documents of a registry.
pub(crate) fn bearers_of<'r, 'a>(
    alloc: Global,
    registry: &'r Registry<'a>,
    owns: &[Own<'r>],
) -> Result<Bearers<'r, 'a>, AllocError>
    requires { AreOwn owns.now }
    ensures value { IfOk result (AreTables (layer_in owns.now)) }
    ensures registry { IfOk result (λ b. b.registry.now ≡ registry.now) }
{
    let last = table_of(alloc, owns, None)?;
    let others = table_of(alloc, owns, Some(&last))?;
    Ok(Bearers {
        registry,
        last,
        others,
    })
}

impl<'r> Bearers<'r, '_> {
    /// The place that a URI means.
    pub fn site_under(&self, uri: &str) -> Option<&Site<'r>>
        ensures value { (layer : Layer) → AreTables layer self.now
            → option_map (λ s. site_of s.now) result ≡ site_under layer uri.now }
    {
        self.last.get(uri, "").0
    }

    /// The number of the document that a URI means.
    pub fn document_under(&self, uri: &str) -> Option<usize>
        ensures value { (layer : Layer) → AreTables layer self.now
            → result ≡ document_under layer uri.now }
    {
        let site = self.site_under(uri)?;
        Some(site.document)
    }

    /// The last place that has a URI but for the one at a path of a document.
    pub fn other(
        &self,
        uri: &str,
        document: usize,
        path: &[JsonPointerSegment<'_>],
    ) -> Option<&Site<'r>>
        ensures value { (layer : Layer) → AreTables layer self.now
            → option_map (λ s. site_of s.now) result
            ≡ other_bearer (sites_of_uris layer) uri.now (document, map part_of path.now) }
    {
        let site = self.last.get(uri, "").0?;
        if is_at(site, document, path) {
            return self.others.get(uri, "").0;
        }
        Some(site)
    }
}
