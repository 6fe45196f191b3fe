//! The places of sources, and the index of those sources that are sound.
ghost use Rattle.std.specs.Prelude.{◌≡◌, List, [], ◌∷◌, ◌++◌, map, flat_map, true, Some, None, option_map, if◌then◌else◌, IfOk, OnOk};
ghost use Rattle.std.specs.List.{AllByRecursion, list_any, enumerate_from};
ghost use Rattle.serde_json.specs.View.{view};
ghost use Rattle.ref_definitions.specs.Places.{Place as WorldPlace};
ghost use Rattle.ref_definitions.specs.Wants.{faults};
ghost use Rattle.ref_findings.specs.Bearers.{numbered_sites};
ghost use Rattle.ref_findings.specs.Places.{document};
ghost use Rattle.ref_findings.specs.Mending.{mended_tree};
ghost use Rattle.ref_findings.specs.Entries.{source_of};
ghost use Rattle.ref_index.specs.Listed.{AreNoted};
ghost use Rattle.ref_index.specs.Visit.{place_of as visited_place};
ghost use Rattle.ref_findings.specs.inner.Seen.{place_of, site_of, seen_survey, survey_in, sound_in, read_of, has_mended, AreSurveys, PlacesAreThere};

use crate::fault::is_any_faulty;
use crate::mending::mended_tree;
use crate::place::Place;
use crate::site::Site;
use crate::source::Source;
use crate::walk::{places_of, read_draft};
use ref_draft::Draft;
use ref_index::{Contents, Document, Index, Visit, Walked};
use ref_uri::UriFault;
use serde_json::Value;
use std::alloc::{AllocError, Global};

/// A source with its places, whether it is JSON without a text that means no URI, and the tree that is read in place of its own
/// where it is JSON with such a text: `null` is in place of each.
#[derive(Drop)]
pub(crate) struct Survey<'s, 'v> {
    pub source: &'s Source<'v>,
    pub places: Vec<Place<'v>>,
    pub is_sound: bool,
    pub mended: Option<Value>,
}

// The tree that is read in place of a document's own, where it isn't sound.
fn mended_for(
    alloc: Global,
    places: &[Place<'_>],
    value: &Value,
    is_sound: bool,
) -> Result<Option<Value>, AllocError>
    ensures { IfOk result
        (λ tree. option_map view tree
        ≡ (if is_sound then None
        else Some (mended_tree (map place_of places.now) (view value.now)))) }
{
    if is_sound {
        return Ok(None);
    }
    let tree = mended_tree(alloc, places, value)?;
    Ok(Some(tree))
}

// The source with its places.
fn survey_of<'s, 'v>(
    alloc: Global,
    draft: Draft,
    source: &'s Source<'v>,
) -> Result<Survey<'s, 'v>, AllocError>
    ensures value { IfOk result (λ s. seen_survey s ≡ survey_in draft (source_of source.now)) }
    ensures are_there { IfOk result PlacesAreThere }
{
    let Some(value) = source.value else {
        return Ok(Survey {
            source,
            places: Vec::new(alloc),
            is_sound: false,
            mended: None,
        });
    };
    let places = places_of(alloc, &source.uri, value, draft)?;
    let any = is_any_faulty(alloc, places.as_slice())?;
    let mended = mended_for(alloc, places.as_slice(), value, !any)?;
    Ok(Survey {
        source,
        places,
        is_sound: !any,
        mended,
    })
}

/// The sources with their places. Each place is visited once.
pub(crate) fn surveys_of<'s, 'v>(
    alloc: Global,
    draft: Draft,
    sources: &'s [Source<'v>],
) -> Result<Vec<Survey<'s, 'v>>, AllocError>
    ensures value { IfOk result
        (λ surveys. map seen_survey surveys.items
        ≡ map (survey_in draft) (map source_of sources.now)) }
    ensures are_there { IfOk result (λ surveys. AllByRecursion PlacesAreThere surveys.items) }
{
    let mut surveys = Vec::with_capacity(alloc, sources.len())?;
    for source in sources {
        let survey = survey_of(alloc, draft, source)?;
        surveys.push(survey)?;
    }
    Ok(surveys)
}

// Adds a visit after the others.
fn push_visit<'v>(visits: &mut Vec<Visit<'v, 'v>>, visit: Visit<'v, 'v>) -> Result<(), AllocError>
    ensures { OnOk result (visits.new.items ≡ visits.old.items ++ visit.entry ∷ []) }
{
    visits.push(visit)?;
    Ok(())
}

// Those of these places that an index has something of, as it visits them.
fn visits_of<'v>(alloc: Global, places: &[Place<'v>]) -> Result<Vec<Visit<'v, 'v>>, AllocError>
    ensures { IfOk result
        (λ visits. AreNoted (map place_of places.now) (map visited_place visits.items)) }
{
    let mut visits = Vec::new(alloc);
    for place in places {
        if !place.is_plain() {
            let visit = place.visit()?;
            push_visit(&mut visits, visit)?;
        }
    }
    Ok(visits)
}

// The same of those below the first.
fn visits_below<'v>(alloc: Global, places: &[Place<'v>]) -> Result<Vec<Visit<'v, 'v>>, AllocError>
    ensures { (first : WorldPlace) (below : List WorldPlace)
        → map place_of places.now ≡ first ∷ below
        → IfOk result (λ visits. AreNoted below (map visited_place visits.items)) }
{
    match places.split_first() {
        Some((_, below)) => visits_of(alloc, below),
        None => Ok(Vec::new(alloc)),
    }
}

// The documents with one more after them, which has no fault.
fn with_document<'v>(
    alloc: Global,
    draft: Draft,
    walked: Walked<'v>,
    survey: &Survey<'_, 'v>,
    value: &'v Value,
) -> Result<Walked<'v>, AllocError>
    requires survey { seen_survey survey.now ≡ survey_in draft (source_of survey.now.source.now) }
    requires are_there { PlacesAreThere survey.now }
    requires sound { survey.now.is_sound ≡ true }
    requires value { (source_of survey.now.source.now).tree ≡ Some (view value.now) }
    requires faultless { faults
        (walked ++ document draft survey.now.source.now.uri (view value.now) ∷ [])
        ≡ [] }
    ensures { IfOk result
        (λ more. more
        ≡ walked.entry ++ document draft survey.now.source.now.uri (view value.now) ∷ []) }
{
    let noted = visits_below(alloc, survey.places.as_slice())?;
    let uri = survey.source.uri.clone()?;
    let draft = read_draft(alloc, draft, value)?;
    let document = Document {
        uri,
        contents: Contents::Borrowed(value),
        draft,
    };
    match walked.append_listed(alloc, document, noted.as_slice()) {
        Ok(walked) => Ok(walked),
        Err(UriFault::Memory(error)) => Err(error),
        Err(UriFault::Invalid(error)) => unreachable!("{error}"),
    }
}

// The documents with a source after them, where it is sound.
fn with_source<'v>(
    alloc: Global,
    draft: Draft,
    walked: Walked<'v>,
    survey: &Survey<'_, 'v>,
) -> Result<Walked<'v>, AllocError>
    requires faultless { faults walked ≡ [] }
    requires survey { seen_survey survey.now ≡ survey_in draft (source_of survey.now.source.now) }
    requires are_there { PlacesAreThere survey.now }
    ensures value { IfOk result
        (λ more. more ≡ walked.entry ++ sound_in draft (seen_survey survey.now)) }
    ensures faultless { IfOk result (λ more. faults more ≡ []) }
{
    if !survey.is_sound {
        return Ok(walked);
    }
    match survey.source.value {
        Some(value) => with_document(alloc, draft, walked, survey, value),
        None => Ok(walked),
    }
}

// The documents with the sources after them that are sound.
fn with_sources<'v>(
    alloc: Global,
    draft: Draft,
    walked: Walked<'v>,
    surveys: &[Survey<'_, 'v>],
) -> Result<Walked<'v>, AllocError>
    requires faultless { faults walked ≡ [] }
    requires surveys { AreSurveys draft (map seen_survey surveys.now) }
    requires are_there { AllByRecursion PlacesAreThere surveys.now }
    ensures value { IfOk result
        (λ more. more ≡ walked.entry ++ flat_map (sound_in draft) (map seen_survey surveys.now)) }
    ensures faultless { IfOk result (λ more. faults more ≡ []) }
{
    let mut walked = walked;
    for survey in surveys {
        walked = with_source(alloc, draft, walked, survey)?;
    }
    Ok(walked)
}

/// The index of the sources that are sound, and of such others after them. No value is copied.
pub(crate) fn index_of<'v>(
    alloc: Global,
    draft: Draft,
    surveys: &[Survey<'_, 'v>],
    others: &[Survey<'_, 'v>],
) -> Result<Index<'v>, AllocError>
    requires surveys { AreSurveys draft (map seen_survey surveys.now) }
    requires others { AreSurveys draft (map seen_survey others.now) }
    requires are_there { AllByRecursion PlacesAreThere surveys.now }
    requires others_are_there { AllByRecursion PlacesAreThere others.now }
    ensures value { IfOk result
        (λ index. index
        ≡ flat_map (sound_in draft) (map seen_survey surveys.now)
        ++ flat_map (sound_in draft) (map seen_survey others.now)) }
{
    let walked = with_sources(alloc, draft, Walked::new(alloc), surveys)?;
    let walked = with_sources(alloc, draft, walked, others)?;
    walked.into_index(alloc)
}

// The index of one source alone, where it is sound.
fn own_index<'v>(
    alloc: Global,
    draft: Draft,
    survey: &Survey<'_, 'v>,
) -> Result<Index<'v>, AllocError>
    requires survey { seen_survey survey.now ≡ survey_in draft (source_of survey.now.source.now) }
    requires are_there { PlacesAreThere survey.now }
    ensures { IfOk result (λ index. index ≡ sound_in draft (seen_survey survey.now)) }
{
    let walked = with_source(alloc, draft, Walked::new(alloc), survey)?;
    walked.into_index(alloc)
}

// Adds an index after the others.
fn push_index<'v>(list: &mut Vec<Index<'v>>, index: Index<'v>) -> Result<(), AllocError>
    ensures { OnOk result (list.new.items ≡ list.old.items ++ index.entry ∷ []) }
{
    list.push(index)?;
    Ok(())
}

/// The index of each source alone. No value is copied.
pub(crate) fn own_indexes<'v>(
    alloc: Global,
    draft: Draft,
    surveys: &[Survey<'_, 'v>],
) -> Result<Vec<Index<'v>>, AllocError>
    requires surveys { AreSurveys draft (map seen_survey surveys.now) }
    requires are_there { AllByRecursion PlacesAreThere surveys.now }
    ensures value { IfOk result
        (λ list. list.items ≡ map (sound_in draft) (map seen_survey surveys.now)) }
{
    let mut list = Vec::new(alloc);
    for survey in surveys {
        let index = own_index(alloc, draft, survey)?;
        push_index(&mut list, index)?;
    }
    Ok(list)
}

// A source as it is read.
fn read_source<'m, 'v: 'm>(survey: &'m Survey<'_, 'v>) -> Result<Source<'m>, AllocError>
    ensures { IfOk result (λ s. source_of s ≡ read_of (seen_survey survey.now)) }
{
    let uri = survey.source.uri.clone()?;
    let value = match &survey.mended {
        Some(value) => Some(value),
        None => survey.source.value,
    };
    Ok(Source { uri, value })
}

/// Sources as they are read. Their values are lent, and their URIs copied.
pub(crate) fn read_sources<'m, 'v: 'm>(
    alloc: Global,
    surveys: &'m [Survey<'_, 'v>],
) -> Result<Vec<Source<'m>>, AllocError>
    ensures value { IfOk result
        (λ list. map source_of list.items ≡ map read_of (map seen_survey surveys.now)) }
{
    let mut list = Vec::with_capacity(alloc, surveys.len())?;
    for survey in surveys {
        let source = read_source(survey)?;
        list.push(source)?;
    }
    Ok(list)
}

// The tree that is read in place of the own one of a source.
fn into_mended(survey: Survey<'_, '_>) -> Option<Value>
    ensures { option_map view result ≡ (seen_survey survey.entry).mended }
{
    let Survey { mended, .. } = survey;
    mended
}

/// The trees that are read in place of the own ones of sources.
pub(crate) fn mended_of(
    alloc: Global,
    surveys: Vec<Survey<'_, '_>>,
) -> Result<Vec<Option<Value>>, AllocError>
    ensures value { IfOk result
        (λ trees. map (option_map view) trees.items
        ≡ map (λ s. (seen_survey s).mended) surveys.entry.items) }
{
    let mut trees = Vec::new(alloc);
    for survey in surveys {
        let tree = into_mended(survey);
        trees.push(tree)?;
    }
    Ok(trees)
}

/// Whether one of the sources is read with another tree than its own.
pub(crate) fn is_any_mended(surveys: &[Survey<'_, '_>]) -> bool
    ensures value { result ≡ list_any has_mended (map seen_survey surveys.now) }
{
    let mut any = false;
    for survey in surveys {
        let mended = survey.mended.is_some();
        any = any || mended;
    }
    any
}

// Adds places after others, with the number of their source.
fn push_sites<'p, 'v>(
    sites: &mut Vec<Site<'p, 'v>>,
    source: usize,
    places: &'p [Place<'v>],
) -> Result<(), AllocError>
    ensures { OnOk result
        (map site_of sites.new.items
        ≡ map site_of sites.old.items ++ numbered_sites (source, map place_of places.now)) }
{
    for place in places {
        sites.push(Site { source, place })?;
    }
    Ok(())
}

// How many places there are.
fn count_of(surveys: &[Survey<'_, '_>]) -> usize {
    let mut count: usize = 0;
    for survey in surveys {
        count = count.saturating_add(survey.places.len());
    }
    count
}

/// The places of all sources, one source after another, with the numbers of these.
pub(crate) fn sites_of<'p, 'v>(
    alloc: Global,
    surveys: &'p [Survey<'_, 'v>],
) -> Result<Vec<Site<'p, 'v>>, AllocError>
    ensures value { IfOk result
        (λ sites. map site_of sites.items
        ≡ flat_map numbered_sites
        (enumerate_from 0 (map (λ s. (seen_survey s).places) surveys.now))) }
{
    let mut sites = Vec::with_capacity(alloc, count_of(surveys))?;
    for (number, survey) in surveys.iter().enumerate() {
        push_sites(&mut sites, number, survey.places.as_slice())?;
    }
    Ok(sites)
}
