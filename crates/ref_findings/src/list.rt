//! The list of all that is found.
ghost use Rattle.std.specs.Prelude.{◌≡◌, [], ◌∷◌, ◌++◌, Some, map, flat_map, length, if◌then◌else◌, option_map, Option, IfOk};
ghost use Rattle.std.specs.List.{AllZip, AllByRecursion, enumerate_from};
ghost use Rattle.ref_draft.specs.declared.anchor.Anchor.{Anchor};
ghost use Rattle.ref_draft.specs.Views.{anchor_name};
ghost use Rattle.ref_findings.specs.Findings as spec;
ghost use Rattle.ref_findings.specs.Findings.{finding_at, anchor_finding, source_findings, identifier_findings, reference_findings, dynamic_findings, schema_findings, anchor_findings, findings_at, place_findings, no_json, description_keyword, not_checked, description_findings, whole_findings, sources_findings, references_at, references, findings};
ghost use Rattle.ref_findings.specs.Sources.{tree_in_place, unread_uris};
ghost use Rattle.ref_findings.specs.Bearers.{numbered_sites, uris_borne, names_borne};
ghost use Rattle.ref_resolver.specs.Layered.{world_in};
ghost use Rattle.ref_findings.specs.inner.Read.{AreBearers, known_read};
ghost use Rattle.ref_findings.specs.Entries.{source_of, IsProblemOf, IsFindingOf};
ghost use Rattle.ref_findings.specs.inner.Adding.{Adds};
ghost use Rattle.ref_findings.specs.inner.Keywords.{keyword_text};
ghost use Rattle.ref_findings.specs.inner.Meanings.{IsMaybe};
ghost use Rattle.ref_findings.specs.inner.Seen.{site_of, seen_survey, sound_in, read_of, AreSurveys, PlacesAreThere, known_in, known_among};
ghost use Rattle.serde_json.specs.View.{view};

use crate::bearers::{Bearers, names_of, source_uri, unread_of, uris_of};
use crate::finding::{Finding, Problem, Report};
use crate::guessed::add_guesses;
use crate::keyword::{Keyword, keyword_at};
use crate::known::Known;
use crate::site::Site;
use crate::source::Source;
use crate::survey::{
    Survey, index_of, is_any_mended, mended_of, own_indexes, read_sources, sites_of, surveys_of,
};
use ref_draft::{Anchor, AnchorIter, Draft};
use ref_index::meanings::text_under;
use ref_index::{Index, segments_of};
use ref_parts::SortedTable;
use ref_resolver::Layers;
use serde_json::Value;
use std::alloc::{AllocError, Global};

// The finding at a place.
fn finding<'v>(
    alloc: Global,
    site: &Site<'_, 'v>,
    keyword: Option<Keyword>,
    problem: Problem<'v>,
) -> Result<Finding<'v>, AllocError>
    ensures { (p : spec.Problem) → IsProblemOf problem.entry p
        → IfOk result
        (λ f. AllZip IsFindingOf (f ∷ [])
        (finding_at (site_of site.now) (option_map keyword_text keyword) (Some p))) }
{
    let path = segments_of(alloc, &site.place.path)?;
    let (keyword, text) = keyword_at(site.place.value, keyword);
    Ok(Finding {
        source: site.source,
        path,
        keyword,
        text,
        problem,
    })
}

/// Adds what is wrong with a text of a place, where something is. It fails where finding that out did.
pub(crate) fn add<'v>(
    alloc: Global,
    list: &mut Vec<Finding<'v>>,
    site: &Site<'_, 'v>,
    keyword: Option<Keyword>,
    problem: Result<Option<Problem<'v>>, AllocError>,
) -> Result<(), AllocError>
    ensures { (p : Option spec.Problem) → IfOk problem.entry (IsMaybe p)
        → Adds list.old.items list.new.items result
        (finding_at (site_of site.now) (option_map keyword_text keyword) p) }
{
    let Some(problem) = problem? else {
        return Ok(());
    };
    let finding = finding(alloc, site, keyword, problem)?;
    list.push(finding)?;
    Ok(())
}

// Adds that the URI of its source is that of another place.
fn add_source_uri<'v>(
    alloc: Global,
    list: &mut Vec<Finding<'v>>,
    known: &Known<'_, 'v>,
    number: usize,
    site: &Site<'_, 'v>,
) -> Result<(), AllocError>
    ensures { Adds list.old.items list.new.items result
        (source_findings (known_in known.now) number (site_of site.now)) }
{
    let Some(uri) = source_uri(site.place) else {
        return Ok(());
    };
    let problem = known.of_uri(alloc, number, uri);
    add(alloc, list, site, None, problem)
}

// Adds what is wrong with its identifier.
fn add_identifier<'v>(
    alloc: Global,
    list: &mut Vec<Finding<'v>>,
    known: &Known<'_, 'v>,
    number: usize,
    site: &Site<'_, 'v>,
) -> Result<(), AllocError>
    ensures { Adds list.old.items list.new.items result
        (identifier_findings (known_in known.now) number (site_of site.now)) }
{
    let Some(id) = site.place.id() else {
        return Ok(());
    };
    let problem = known.of_identifier(alloc, number, site.place, id);
    let keyword = Keyword::of_identifier(site.place.draft);
    add(alloc, list, site, Some(keyword), problem)
}

// Adds what is wrong with its `$ref`.
fn add_reference<'v>(
    alloc: Global,
    list: &mut Vec<Finding<'v>>,
    known: &Known<'_, 'v>,
    site: &Site<'_, 'v>,
) -> Result<(), AllocError>
    ensures { Adds list.old.items list.new.items result
        (reference_findings (known_in known.now) (site_of site.now)) }
{
    let Some(value) = site.place.reference_value() else {
        return Ok(());
    };
    let problem = known.of_value(alloc, site, value);
    add(alloc, list, site, Some(Keyword::Ref), problem)
}

// Adds what is wrong with its dynamic reference, where its draft has one.
fn add_dynamic<'v>(
    alloc: Global,
    list: &mut Vec<Finding<'v>>,
    known: &Known<'_, 'v>,
    site: &Site<'_, 'v>,
) -> Result<(), AllocError>
    ensures { Adds list.old.items list.new.items result
        (dynamic_findings (known_in known.now) (site_of site.now)) }
{
    let Some(keyword) = Keyword::of_dynamic(site.place.draft) else {
        return Ok(());
    };
    let Some(value) = site.place.dynamic_value(keyword) else {
        return Ok(());
    };
    let problem = known.of_dynamic(alloc, site, value);
    add(alloc, list, site, Some(keyword), problem)
}

// Adds what is wrong with the name of its meta-schema.
fn add_schema<'v>(
    alloc: Global,
    list: &mut Vec<Finding<'v>>,
    known: &Known<'_, 'v>,
    site: &Site<'_, 'v>,
) -> Result<(), AllocError>
    ensures { Adds list.old.items list.new.items result
        (schema_findings (known_in known.now) (site_of site.now)) }
{
    let Some(text) = site.place.schema() else {
        return Ok(());
    };
    let problem = known.of_schema(alloc, text);
    add(alloc, list, site, Some(Keyword::Schema), problem)
}

// Adds what is wrong with one anchor.
fn add_anchor<'v>(
    alloc: Global,
    list: &mut Vec<Finding<'v>>,
    known: &Known<'_, 'v>,
    number: usize,
    site: &Site<'_, 'v>,
    anchor: Anchor<'v>,
) -> Result<(), AllocError>
    ensures { Adds list.old.items list.new.items result
        (anchor_finding (known_in known.now) number (site_of site.now) (anchor_name anchor.entry)) }
{
    let problem = known.of_anchor(alloc, number, site, anchor.name());
    let keyword = Keyword::of_anchor(site.place.draft, &anchor);
    add(alloc, list, site, Some(keyword), problem)
}

// Adds what is wrong with its anchors.
fn add_anchors<'v>(
    alloc: Global,
    list: &mut Vec<Finding<'v>>,
    known: &Known<'_, 'v>,
    number: usize,
    site: &Site<'_, 'v>,
) -> Result<(), AllocError>
    ensures { Adds list.old.items list.new.items result
        (anchor_findings (known_in known.now) number (site_of site.now)) }
{
    match site.place.anchors() {
        AnchorIter::Empty => Ok(()),
        AnchorIter::One(anchor) => add_anchor(alloc, list, known, number, site, anchor),
        AnchorIter::Two(plain, dynamic) => {
            add_anchor(alloc, list, known, number, site, plain)?;
            add_anchor(alloc, list, known, number, site, dynamic)
        }
    }
}

// Adds what is wrong at the place with a number.
fn add_site<'v>(
    alloc: Global,
    list: &mut Vec<Finding<'v>>,
    known: &Known<'_, 'v>,
    number: usize,
    site: &Site<'_, 'v>,
) -> Result<(), AllocError>
    ensures { Adds list.old.items list.new.items result
        (findings_at (known_in known.now) number (site_of site.now)) }
{
    add_source_uri(alloc, list, known, number, site)?;
    if site.place.is_plain() {
        return Ok(());
    }
    add_identifier(alloc, list, known, number, site)?;
    add_reference(alloc, list, known, site)?;
    add_dynamic(alloc, list, known, site)?;
    add_schema(alloc, list, known, site)?;
    add_anchors(alloc, list, known, number, site)
}

// That the source with a number is no JSON.
fn no_json<'v>(alloc: Global, number: usize) -> Finding<'v>
    ensures { IsFindingOf result (no_json number) }
{
    Finding {
        source: number,
        path: Vec::new(alloc),
        keyword: None,
        text: None,
        problem: Problem::NotJson,
    }
}

// The keyword at its root by which a document is an API description, where it is one.
fn description_keyword(value: &Value) -> Option<&'static str>
    ensures { option_map (λ k. k.now) result ≡ description_keyword (view value.now) }
{
    if value.get("openapi").is_some() {
        return Some("openapi");
    }
    if value.get("swagger").is_some() {
        return Some("swagger");
    }
    if value.get("asyncapi").is_some() {
        return Some("asyncapi");
    }
    None
}

// That the source with a number is a description, by this keyword.
fn not_checked<'v>(
    alloc: Global,
    number: usize,
    value: &'v Value,
    keyword: &'static str,
) -> Finding<'v>
    ensures { IsFindingOf result (not_checked number (view value.now) keyword.now) }
{
    Finding {
        source: number,
        path: Vec::new(alloc),
        keyword: Some(keyword),
        text: text_under(value, keyword),
        problem: Problem::NotChecked,
    }
}

// Adds that a document is a description, where it is one.
fn add_description<'v>(
    alloc: Global,
    list: &mut Vec<Finding<'v>>,
    number: usize,
    value: &'v Value,
) -> Result<(), AllocError>
    ensures { Adds list.old.items list.new.items result
        (description_findings number (view value.now)) }
{
    let Some(keyword) = description_keyword(value) else {
        return Ok(());
    };
    let finding = not_checked(alloc, number, value, keyword);
    list.push(finding)?;
    Ok(())
}

// Adds that a source is no JSON, where it isn't.
fn add_not_json<'v>(
    alloc: Global,
    list: &mut Vec<Finding<'v>>,
    number: usize,
) -> Result<(), AllocError>
    ensures { Adds list.old.items list.new.items result (no_json number ∷ []) }
{
    let finding = no_json(alloc, number);
    list.push(finding)?;
    Ok(())
}

// Adds what is found of a source as a whole.
fn add_source<'v>(
    alloc: Global,
    list: &mut Vec<Finding<'v>>,
    number: usize,
    source: &Source<'v>,
) -> Result<(), AllocError>
    ensures { Adds list.old.items list.new.items result
        (whole_findings (number, source_of source.now)) }
{
    match source.value {
        Some(value) => add_description(alloc, list, number, value),
        None => add_not_json(alloc, list, number),
    }
}

// What is found of sources as a whole.
fn of_sources<'v>(alloc: Global, sources: &[Source<'v>]) -> Result<Vec<Finding<'v>>, AllocError>
    ensures { IfOk result
        (λ list. AllZip IsFindingOf list.items (sources_findings (map source_of sources.now))) }
{
    let mut list = Vec::new(alloc);
    for (number, source) in sources.iter().enumerate() {
        add_source(alloc, &mut list, number, source)?;
    }
    Ok(list)
}

// Adds what is wrong at all places.
fn add_sites<'v>(
    alloc: Global,
    list: &mut Vec<Finding<'v>>,
    known: &Known<'_, 'v>,
    sites: &[Site<'_, 'v>],
) -> Result<(), AllocError>
    ensures { Adds list.old.items list.new.items result
        (place_findings (known_in known.now) (map site_of sites.now)) }
{
    for (number, site) in sites.iter().enumerate() {
        add_site(alloc, list, known, number, site)?;
    }
    Ok(())
}

// All that is found, by what is known.
fn listed<'v>(
    alloc: Global,
    sources: &[Source<'v>],
    known: &Known<'_, 'v>,
    sites: &[Site<'_, 'v>],
) -> Result<Vec<Finding<'v>>, AllocError>
    ensures { IfOk result
        (λ list. AllZip IsFindingOf list.items
        (sources_findings (map source_of sources.now)
        ++ place_findings (known_in known.now) (map site_of sites.now))) }
{
    let mut list = of_sources(alloc, sources)?;
    add_sites(alloc, &mut list, known, sites)?;
    Ok(list)
}

// How many references a place has.
fn references_at(site: &Site<'_, '_>) -> usize
    ensures { result ≡ length (references_at (site_of site.now)) }
{
    let mut count = 0;
    if site.place.reference().is_some() {
        count = 1;
    }
    if site.place.dynamic().is_some() {
        count += 1;
    }
    count
}

// How many references places have.
fn count_references(sites: &[Site<'_, '_>]) -> usize
    ensures { result ≡ length (flat_map references_at (map site_of sites.now)) }
{
    let mut count: usize = 0;
    for site in sites {
        count += references_at(site);
    }
    count
}

// The places of sources, and which URIs and names they have.
fn bearers_of<'p, 'v>(
    alloc: Global,
    sources: &[Source<'v>],
    held: &[Source<'v>],
    surveys: &'p [Survey<'_, 'v>],
) -> Result<Bearers<'p, 'v>, AllocError>
    ensures sites { IfOk result
        (λ b. map site_of b.sites.items
        ≡ flat_map numbered_sites
        (enumerate_from 0 (map (λ s. (seen_survey s).places) surveys.now))) }
    ensures tables { IfOk result AreBearers }
    ensures unread { IfOk result
        (λ b. b.unread ≡ unread_uris (map source_of sources.now) (map source_of held.now)) }
{
    let unread = unread_of(alloc, sources, held)?;
    let sites = sites_of(alloc, surveys)?;
    let uris = uris_of(alloc, sites.as_slice())?;
    let names = names_of(alloc, sites.as_slice())?;
    Ok(Bearers {
        sites,
        uris,
        names,
        unread,
    })
}

// The index of all documents, and that of each source alone, where some URI is had twice.
#[derive(Drop)]
struct Indexes<'m> {
    all: Index<'m>,
    own: Vec<Index<'m>>,
}

// The index of each source alone, where some URI is had twice.
fn own_of<'m>(
    alloc: Global,
    draft: Draft,
    surveys: &[Survey<'_, 'm>],
    is_any_twice: bool,
) -> Result<Vec<Index<'m>>, AllocError>
    requires surveys { AreSurveys draft (map seen_survey surveys.now) }
    requires are_there { AllByRecursion PlacesAreThere surveys.now }
    ensures { IfOk result
        (λ list. list.items
        ≡ (if is_any_twice then map (sound_in draft) (map seen_survey surveys.now) else [])) }
{
    if !is_any_twice {
        return Ok(Vec::new(alloc));
    }
    own_indexes(alloc, draft, surveys)
}

// The indexes of sources and of others.
fn indexes_of<'m>(
    alloc: Global,
    draft: Draft,
    surveys: &[Survey<'_, 'm>],
    others: &[Survey<'_, 'm>],
    is_any_twice: bool,
) -> Result<Indexes<'m>, AllocError>
    requires surveys { AreSurveys draft (map seen_survey surveys.now) }
    requires others { AreSurveys draft (map seen_survey others.now) }
    requires are_there { AllByRecursion PlacesAreThere surveys.now }
    requires others_are_there { AllByRecursion PlacesAreThere others.now }
    ensures all { IfOk result
        (λ i. i.all
        ≡ flat_map (sound_in draft) (map seen_survey surveys.now)
        ++ flat_map (sound_in draft) (map seen_survey others.now)) }
    ensures own { IfOk result
        (λ i. i.own.items
        ≡ (if is_any_twice then map (sound_in draft) (map seen_survey surveys.now) else [])) }
{
    let all = index_of(alloc, draft, surveys, others)?;
    let own = own_of(alloc, draft, surveys, is_any_twice)?;
    Ok(Indexes { all, own })
}

// An index alone, as what is above another.
fn alone<'k>(alloc: Global, index: &'k Index<'k>) -> Result<Vec<&'k Index<'k>>, AllocError>
    ensures { IfOk result (λ list. map (λ i. i.now) list.items ≡ index.now ∷ []) }
{
    let mut list = Vec::new(alloc);
    list.push(index)?;
    Ok(list)
}

// What is known of all sources.
fn known_of<'k, 'v>(
    layers: Layers<'k>,
    above: &'k [&'k Index<'k>],
    indexes: &'k Indexes<'k>,
    bearers: &'k Bearers<'k, 'v>,
) -> Known<'k, 'v>
    requires tables { AreBearers bearers.now }
    requires all { world_in layers ≡ map (λ p. p.now) above.now }
    ensures { known_in result
        ≡ record {
          world = world_in layers.entry;
          own = indexes.now.own.items;
          unread = bearers.now.unread;
          sites = map site_of bearers.now.sites.items;
          uris = uris_borne (map site_of bearers.now.sites.items);
          names = names_borne (map site_of bearers.now.sites.items);
        } }
{
    Known {
        sites: bearers.sites.as_slice(),
        layers,
        above,
        own: indexes.own.as_slice(),
        unread: &bearers.unread,
        uris: &bearers.uris.firsts,
        lasts: &bearers.uris.lasts,
        names: &bearers.names,
    }
}

// What is found at places, by the indexes of the sources as they are read.
fn reported<'v>(
    alloc: Global,
    sources: &[Source<'v>],
    indexes: &Indexes<'_>,
    bearers: &Bearers<'_, 'v>,
) -> Result<Report<'v>, AllocError>
    requires tables { AreBearers bearers.now }
    ensures findings { IfOk result
        (λ report. AllZip IsFindingOf report.findings.items
        (sources_findings (map source_of sources.now)
        ++ place_findings
        (known_among indexes.now.all indexes.now.own.items bearers.now.unread
        (map site_of bearers.now.sites.items)) (map site_of bearers.now.sites.items))) }
    ensures references { IfOk result
        (λ report. report.references
        ≡ length (flat_map references_at (map site_of bearers.now.sites.items))) }
{
    let parents = Vec::new(alloc);
    let layers = Layers::new(&indexes.all, parents.as_slice());
    let above = alone(alloc, &indexes.all)?;
    let known = known_of(layers, above.as_slice(), &*indexes, &*bearers);
    let sites = bearers.sites.as_slice();
    let findings = listed(alloc, sources, &known, sites)?;
    Ok(Report {
        findings,
        references: count_references(sites),
        places: sites.len(),
    })
}

// What is found where the sources are surveyed again as they are read.
fn read_again<'m, 'v: 'm>(
    alloc: Global,
    draft: Draft,
    sources: &[Source<'v>],
    surveys: &'m [Survey<'_, 'v>],
    others: &'m [Survey<'_, 'v>],
    bearers: &Bearers<'_, 'v>,
) -> Result<Report<'v>, AllocError>
    requires tables { AreBearers bearers.now }
    ensures findings { IfOk result
        (λ report. AllZip IsFindingOf report.findings.items
        (sources_findings (map source_of sources.now)
        ++ place_findings
        (known_read draft (map read_of (map seen_survey surveys.now))
        (map read_of (map seen_survey others.now)) bearers.now.uris.is_any_twice
        bearers.now.unread (map site_of bearers.now.sites.items))
        (map site_of bearers.now.sites.items))) }
    ensures references { IfOk result
        (λ report. report.references
        ≡ length (flat_map references_at (map site_of bearers.now.sites.items))) }
{
    let own = read_sources(alloc, surveys)?;
    let held = read_sources(alloc, others)?;
    let again = surveys_of(alloc, draft, own.as_slice())?;
    let others_again = surveys_of(alloc, draft, held.as_slice())?;
    let indexes = indexes_of(
        alloc,
        draft,
        again.as_slice(),
        others_again.as_slice(),
        bearers.uris.is_any_twice,
    )?;
    reported(alloc, sources, &indexes, bearers)
}

// What is found in sources, by their places and those of what is held beside them.
fn surveyed<'m, 'v: 'm>(
    alloc: Global,
    draft: Draft,
    sources: &[Source<'v>],
    surveys: &'m [Survey<'_, 'v>],
    others: &'m [Survey<'_, 'v>],
    bearers: &Bearers<'_, 'v>,
) -> Result<Report<'v>, AllocError>
    requires surveys { AreSurveys draft (map seen_survey surveys.now) }
    requires others { AreSurveys draft (map seen_survey others.now) }
    requires are_there { AllByRecursion PlacesAreThere surveys.now }
    requires others_are_there { AllByRecursion PlacesAreThere others.now }
    requires tables { AreBearers bearers.now }
    ensures findings { IfOk result
        (λ report. AllZip IsFindingOf report.findings.items
        (sources_findings (map source_of sources.now)
        ++ place_findings
        (known_read draft (map read_of (map seen_survey surveys.now))
        (map read_of (map seen_survey others.now)) bearers.now.uris.is_any_twice
        bearers.now.unread (map site_of bearers.now.sites.items))
        (map site_of bearers.now.sites.items))) }
    ensures references { IfOk result
        (λ report. report.references
        ≡ length (flat_map references_at (map site_of bearers.now.sites.items))) }
{
    if is_any_mended(surveys) || is_any_mended(others) {
        return read_again(alloc, draft, sources, surveys, others, bearers);
    }
    let indexes = indexes_of(alloc, draft, surveys, others, bearers.uris.is_any_twice)?;
    reported(alloc, sources, &indexes, bearers)
}

/// All that is wrong with the references of sources, and what is to be noted: first those sources that are no JSON or API
/// descriptions, then source by source what is wrong at its places, level by level. `held` are other documents that references
/// may lead to.
///
/// At a place these come in order: that the URI of its source is that of an earlier place, where it is the root; that
/// its identifier means no URI, or that of an earlier place; that its `$ref` is no text, means no URI or is unresolvable; the same
/// of its `$dynamicRef` or `$recursiveRef`, where its draft has one; that its `$schema` means no URI, or no dialect that is
/// known; and that each of its anchors begins with a slash, or has the name of an earlier place of its source with the same base.
/// Last come notes on sources whose root has no `$schema`, source by source: that a place of another known draft than `draft` is
/// the first that refers to it by its URI or its root's identifier, and that a place read as 2020-12 is its first with a list under `items`.
///
/// What means no URI counts as `null`: all else of its document is read, and below an identifier that means none the base stays
/// that of the place around it. A document that is no JSON has no places; a reference to its URI is not listed. Where several
/// sources have one URI, a reference that points into it from a place whose base it is is looked up in its own source first; any
/// other leads to the last of these.
///
/// Fails only if out of memory. Each place is visited twice, each reference looked up once. A document with a text that means no
/// URI is copied, and no other value.
pub fn report<'v>(
    alloc: Global,
    draft: Draft,
    sources: &[Source<'v>],
    held: &[Source<'v>],
) -> Result<Report<'v>, AllocError>
    ensures findings { IfOk result
        (λ report. AllZip IsFindingOf report.findings.items
        (findings draft (map source_of sources.now) (map source_of held.now))) }
    ensures references { IfOk result
        (λ report. report.references ≡ references draft (map source_of sources.now)) }
{
    let surveys = surveys_of(alloc, draft, sources)?;
    let others = surveys_of(alloc, draft, held)?;
    let bearers = bearers_of(alloc, sources, held, surveys.as_slice())?;
    let mut report = surveyed(
        alloc,
        draft,
        sources,
        surveys.as_slice(),
        others.as_slice(),
        &bearers,
    )?;
    let sites = bearers.sites.as_slice();
    add_guesses(
        alloc,
        draft,
        &mut report.findings,
        surveys.as_slice(),
        sites,
    )?;
    Ok(report)
}

/// Of each source that is JSON and has an identifier, a `$ref` or a `$schema` that means no URI, the tree that is read in place
/// of its own: a copy with `null` in place of each such text. `None` for each other source, which is read as it is.
///
/// Fails only if out of memory. Each place is visited once.
pub fn mended(
    alloc: Global,
    draft: Draft,
    sources: &[Source<'_>],
) -> Result<Vec<Option<Value>>, AllocError>
    ensures value { IfOk result
        (λ trees. map (option_map view) trees.items
        ≡ map (tree_in_place draft) (map source_of sources.now)) }
{
    let surveys = surveys_of(alloc, draft, sources)?;
    mended_of(alloc, surveys)
}

/// All that is wrong with the references of sources, and what is to be noted, as [`report`] lists it.
pub fn findings<'v>(
    alloc: Global,
    draft: Draft,
    sources: &[Source<'v>],
    held: &[Source<'v>],
) -> Result<Vec<Finding<'v>>, AllocError>
    ensures value { IfOk result
        (λ list. AllZip IsFindingOf list.items
        (findings draft (map source_of sources.now) (map source_of held.now))) }
{
    let report = report(alloc, draft, sources, held)?;
    Ok(report.findings)
}
