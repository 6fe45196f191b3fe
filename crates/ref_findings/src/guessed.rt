//! Documents whose root names no meta-schema, so that they are read by a draft that is guessed.
ghost use Rattle.std.specs.Prelude.{◌≡◌, ◌∷◌, ◌++◌, [], map, flat_map, reverse, option_map, IfOk, OnOk};
ghost use Rattle.std.specs.List.{enumerate_from, find};
ghost use Rattle.std.specs.Option.{option_to_list};
ghost use Rattle.serde_json.specs.View.{view};
ghost use Rattle.ref_parts.specs.Table.{entries_of};
ghost use Rattle.ref_findings.specs.Sources.{places_in};
ghost use Rattle.ref_findings.specs.Guessed.{is_guessed, is_of_another, entries_referred, uris_referred, first_referrer, referrer, root_uri, has_item_list};
ghost use Rattle.ref_findings.specs.Findings.{guessed_draft, list_of_items, guesses_in, guesses_of};
ghost use Rattle.ref_findings.specs.Entries.{source_of, IsFindingOf};
ghost use Rattle.ref_findings.specs.inner.Adding.{Adds};
ghost use Rattle.ref_findings.specs.inner.Seen.{place_of, site_of, seen_survey, survey_in, AreSurveys};

use crate::bearers::{Entries, push_uri, table_of};
use crate::fault::is_schema_refused;
use crate::finding::{Bearer, Finding, Problem};
use crate::gathering::referred;
use crate::place::Place;
use crate::site::Site;
use crate::survey::Survey;
use ref_draft::Draft;
use ref_index::meanings::text_under;
use ref_index::segments_of;
use ref_parts::SortedTable;
use ref_uri::Uri;
use serde_json::Value;
use std::alloc::{AllocError, Global};
use std::rc::Rc;

// Whether a root names no meta-schema.
fn is_guessed(alloc: Global, value: &Value) -> Result<bool, AllocError>
    ensures { IfOk result (λ guessed. guessed ≡ is_guessed (view value.now)) }
{
    if text_under(value, "$schema").is_none() {
        return Ok(true);
    }
    is_schema_refused(alloc, value)
}

// Whether a place is of a known draft that isn't this one.
fn is_of_another(draft: Draft, place: &Place<'_>) -> bool
    ensures { result ≡ is_of_another draft (place_of place.now) }
{
    place.draft != Draft::Unknown && place.draft != draft
}

// Adds the URI that the `$ref` of a place points into, where its draft is another one and the URI isn't the place's own base.
fn push_referred(
    alloc: Global,
    entries: &mut Entries,
    draft: Draft,
    number: usize,
    site: &Site<'_, '_>,
) -> Result<(), AllocError>
    ensures { OnOk result
        (entries_of entries.new.items
        ≡ entries_of entries.old.items ++ entries_referred draft (number, site_of site.now)) }
{
    if !is_of_another(draft, site.place) {
        return Ok(());
    }
    let Some(uri) = referred(alloc, site.place)? else {
        return Ok(());
    };
    if uri.as_str() == site.place.base().as_str() {
        return Ok(());
    }
    push_uri(alloc, entries, Some(&uri), number)
}

// The places that refer to each URI by another draft, of which the first counts.
fn referred_of(
    alloc: Global,
    draft: Draft,
    sites: &[Site<'_, '_>],
) -> Result<SortedTable<usize>, AllocError>
    ensures { IfOk result
        (λ table. table ≡ reverse (uris_referred draft (map site_of sites.now))) }
{
    let mut entries = Vec::new(alloc);
    for (number, site) in sites.iter().enumerate() {
        push_referred(alloc, &mut entries, draft, number, site)?;
    }
    table_of(alloc, entries)
}

/// The places of sources, and which of them refer to which URIs by another draft than one that is guessed.
#[derive(Clone, Copy, Drop)]
pub(crate) struct Referrers<'r, 'p, 'v> {
    draft: Draft,
    sites: &'r [Site<'p, 'v>],
    table: &'r SortedTable<usize>,
}

impl<'p, 'v> Referrers<'_, 'p, 'v> {
    // The first place that refers to a URI.
    fn first(&self, uri: &str) -> Option<&Site<'p, 'v>>
        ensures { option_map (λ s. site_of s.now) result
            ≡ first_referrer (map site_of self.now.sites.now) (reverse self.now.table.now)
            uri.now }
    {
        let Some(number) = self.table.get(uri, "").0 else {
            return None;
        };
        self.sites.get(*number)
    }
}

impl<'p, 'v> Referrers<'_, 'p, 'v> {
    // The first place that refers to a document: by its URI, or else by that of its root's identifier.
    fn of(&self, uri: &str, own: Option<&Rc<Uri>>) -> Option<&Site<'p, 'v>>
        ensures { option_map (λ s. site_of s.now) result
            ≡ referrer (map site_of self.now.sites.now) (reverse self.now.table.now) uri.now
            (option_map (λ u. u.now.value) own.entry) }
    {
        match self.first(uri) {
            Some(site) => Some(site),
            None => self.first(own?.as_str()),
        }
    }
}

// The URI that the first of places has by its identifier.
fn root_uri<'p>(places: &'p [Place<'_>]) -> Option<&'p Rc<Uri>>
    ensures { option_map (λ u. u.now.value) result ≡ root_uri (map place_of places.now) }
{
    places.first()?.own_uri()
}

// That a document is read by a guessed draft, and a place of another one refers to it.
fn guessed_draft<'v>(
    alloc: Global,
    number: usize,
    site: &Site<'_, 'v>,
) -> Result<Finding<'v>, AllocError>
    ensures { IfOk result (λ f. IsFindingOf f (guessed_draft number (site_of site.now))) }
{
    let path = segments_of(alloc, &site.place.path)?;
    let by = Bearer {
        source: site.source,
        path,
    };
    let draft = site.place.draft;
    Ok(Finding {
        source: number,
        path: Vec::new(alloc),
        keyword: None,
        text: None,
        problem: Problem::GuessedDraft { draft, by },
    })
}

// Adds that, where it is so.
fn add_draft<'v>(
    alloc: Global,
    list: &mut Vec<Finding<'v>>,
    referrers: &Referrers<'_, '_, 'v>,
    number: usize,
    uri: &str,
    places: &[Place<'v>],
) -> Result<(), AllocError>
    ensures { Adds list.old.items list.new.items result
        (option_to_list
        (option_map (guessed_draft number)
        (referrer (map site_of referrers.now.sites.now) (reverse referrers.now.table.now)
        uri.now (root_uri (map place_of places.now))))) }
{
    let Some(site) = referrers.of(uri, root_uri(places)) else {
        return Ok(());
    };
    let finding = guessed_draft(alloc, number, site)?;
    list.push(finding)?;
    Ok(())
}

// Whether a place is read as 2020-12 and has a list under `items`.
fn has_item_list(place: &Place<'_>) -> bool
    ensures { result ≡ has_item_list (place_of place.now) }
{
    if place.draft != Draft::Draft202012 {
        return false;
    }
    match place.value.get("items") {
        Some(items) => items.is_array(),
        None => false,
    }
}

// The first place with such a list.
fn first_item_list<'p, 'v>(places: &'p [Place<'v>]) -> Option<&'p Place<'v>>
    ensures { option_map (λ p. place_of p.now) result
        ≡ find has_item_list (map place_of places.now) }
{
    for place in places {
        if has_item_list(place) {
            return Some(place);
        }
    }
    None
}

// That a place has a list under `items`.
fn list_of_items<'v>(
    alloc: Global,
    number: usize,
    place: &Place<'v>,
) -> Result<Finding<'v>, AllocError>
    ensures { IfOk result (λ f. IsFindingOf f (list_of_items number (place_of place.now))) }
{
    let path = segments_of(alloc, &place.path)?;
    Ok(Finding {
        source: number,
        path,
        keyword: Some("items"),
        text: None,
        problem: Problem::ListOfItems,
    })
}

// Adds that of the first such place.
fn add_items<'v>(
    alloc: Global,
    list: &mut Vec<Finding<'v>>,
    number: usize,
    places: &[Place<'v>],
) -> Result<(), AllocError>
    ensures { Adds list.old.items list.new.items result
        (option_to_list
        (option_map (list_of_items number) (find has_item_list (map place_of places.now)))) }
{
    let Some(place) = first_item_list(places) else {
        return Ok(());
    };
    let finding = list_of_items(alloc, number, place)?;
    list.push(finding)?;
    Ok(())
}

// Adds the notes on a document whose places are given.
fn add_document<'v>(
    alloc: Global,
    list: &mut Vec<Finding<'v>>,
    referrers: &Referrers<'_, '_, 'v>,
    number: usize,
    survey: &Survey<'_, 'v>,
    value: &'v Value,
) -> Result<(), AllocError>
    requires { map place_of survey.now.places.items
        ≡ places_in referrers.now.draft (source_of survey.now.source.now) }
    ensures { Adds list.old.items list.new.items result
        (guesses_in referrers.now.draft (map site_of referrers.now.sites.now)
        (reverse referrers.now.table.now) number (source_of survey.now.source.now)
        (view value.now)) }
{
    if !is_guessed(alloc, value)? {
        return Ok(());
    }
    let places = survey.places.as_slice();
    add_draft(
        alloc,
        list,
        referrers,
        number,
        survey.source.uri.as_str(),
        places,
    )?;
    add_items(alloc, list, number, places)
}

// Adds the notes on a source.
fn add_source<'v>(
    alloc: Global,
    list: &mut Vec<Finding<'v>>,
    referrers: &Referrers<'_, '_, 'v>,
    number: usize,
    survey: &Survey<'_, 'v>,
) -> Result<(), AllocError>
    requires { seen_survey survey.now
        ≡ survey_in referrers.now.draft (source_of survey.now.source.now) }
    ensures { Adds list.old.items list.new.items result
        (guesses_of referrers.now.draft (map site_of referrers.now.sites.now)
        (reverse referrers.now.table.now) (number, source_of survey.now.source.now)) }
{
    match survey.source.value {
        Some(value) => add_document(alloc, list, referrers, number, survey, value),
        None => Ok(()),
    }
}

// Adds the notes on all sources.
fn add_all<'v>(
    alloc: Global,
    list: &mut Vec<Finding<'v>>,
    referrers: &Referrers<'_, '_, 'v>,
    surveys: &[Survey<'_, 'v>],
) -> Result<(), AllocError>
    requires { AreSurveys referrers.now.draft (map seen_survey surveys.now) }
    ensures { Adds list.old.items list.new.items result
        (flat_map
        (guesses_of referrers.now.draft (map site_of referrers.now.sites.now)
        (reverse referrers.now.table.now))
        (enumerate_from 0 (map (λ s. source_of s.source.now) surveys.now))) }
{
    for (number, survey) in surveys.iter().enumerate() {
        add_source(alloc, list, referrers, number, survey)?;
    }
    Ok(())
}

/// Adds the notes on sources whose draft is guessed, by their surveys and the places of all.
pub(crate) fn add_guesses<'v>(
    alloc: Global,
    draft: Draft,
    list: &mut Vec<Finding<'v>>,
    surveys: &[Survey<'_, 'v>],
    sites: &[Site<'_, 'v>],
) -> Result<(), AllocError>
    requires surveys { AreSurveys draft (map seen_survey surveys.now) }
    ensures value { Adds list.old.items list.new.items result
        (flat_map
        (guesses_of draft (map site_of sites.now) (uris_referred draft (map site_of sites.now)))
        (enumerate_from 0 (map (λ s. source_of s.source.now) surveys.now))) }
{
    let table = referred_of(alloc, draft, sites)?;
    let referrers = Referrers {
        draft,
        sites,
        table: &table,
    };
    add_all(alloc, list, &referrers, surveys)
}
