//! What is asked of all documents that are open.
ghost use Rattle.std.specs.Prelude.{◌≡◌, ◌++◌, map, option_map, IfOk, OnOk};
ghost use Rattle.std.specs.List.{AllZip};
ghost use Rattle.serde_json.specs.View.{view};
ghost use Rattle.ref_findings.specs.Entries.{source_of, IsFindingOf};
ghost use Rattle.ref_findings.specs.Held.{held_source};
ghost use Rattle.ref_workspace.specs.Open.{document_of, workspace_of};
ghost use Rattle.ref_workspace.specs.Workspace as spec;
ghost use Rattle.ref_workspace.specs.Workspace.{as_source};

use crate::cases::add_cases;
use crate::described::{Described, add_described, is_among};
use crate::endless::add_endless;
use crate::finding::{Amount, Finding, Report, plain, push, push_all, push_plain};
use crate::heads::may_be_endless;
use crate::identified::add_all_misnamed;
use crate::led::add_led;
use crate::members::add_repeated;
use crate::ruled::{add_all_told_at, add_told, without_misspelled};
use crate::unused::{Unused, add_unused};
use crate::workspace::{Document, Workspace};
use ref_draft::Draft;
use ref_findings::{Held, Problem, Report as SchemaReport, Source, as_sources, mended, report};
use serde_json::Value;
use std::alloc::{AllocError, Global};
use std::rc::Rc;

// The documents as sources of findings.
pub(crate) fn sources_of<'d>(
    alloc: Global,
    documents: &'d [Document],
) -> Result<Vec<Source<'d>>, AllocError>
    ensures { IfOk result
        (λ sources. map source_of sources.items
        ≡ map as_source (map document_of documents.now)) }
{
    let mut sources = Vec::new(alloc);
    for document in documents {
        let uri = document.uri.clone()?;
        let value = document.value();
        sources.push(Source { uri, value })?;
    }
    Ok(sources)
}

/// Adds what was retrieved and has no text.
pub(crate) fn add_held<'d>(list: &mut Vec<Source<'d>>, held: &'d [Held]) -> Result<(), AllocError>
    ensures { OnOk result
        (map source_of list.new.items
        ≡ map source_of list.old.items ++ map held_source held.now) }
{
    for document in held {
        let uri = document.uri.clone()?;
        let value = Some(&document.value);
        list.push(Source { uri, value })?;
    }
    Ok(())
}

// Which documents have a text that means no URI.
pub(crate) fn faulty_of(
    alloc: Global,
    draft: Draft,
    held: &[Held],
) -> Result<Vec<bool>, AllocError> {
    let sources = as_sources(alloc, held)?;
    let trees = mended(alloc, draft, sources.as_slice())?;
    let mut faulty = Vec::new(alloc);
    for tree in &trees {
        faulty.push(tree.is_some())?;
    }
    Ok(faulty)
}

// Adds the source that a document is.
fn push_source<'d>(list: &mut Vec<Source<'d>>, document: &'d Document) -> Result<(), AllocError> {
    let uri = document.uri.clone()?;
    let value = document.value();
    list.push(Source { uri, value })?;
    Ok(())
}

fn push_number(list: &mut Vec<usize>, number: usize) -> Result<(), AllocError> {
    list.push(number)?;
    Ok(())
}

fn push_tree(trees: &mut Vec<Option<Value>>, tree: Option<Value>) -> Result<(), AllocError> {
    trees.push(tree)?;
    Ok(())
}

/// What is known of all documents before some are judged.
#[derive(Drop)]
pub struct Known {
    /// Whether places that no keyword leads to, but references, are looked for even where these documents have none, since there are some in others.
    pub is_led: bool,
    /// Whether references may come back to where they began.
    pub may_come_back: bool,
    /// The definitions that nothing uses.
    pub unused: Rc<Unused>,
}

impl Known {
    /// The same once more. Fails only if out of memory.
    pub fn again(&self) -> Result<Known, AllocError> {
        Ok(Known {
            is_led: self.is_led,
            may_come_back: self.may_come_back,
            unused: self.unused.clone()?,
        })
    }
}

impl Workspace {
    // The sources of those documents that references may lead into.
    fn others<'d>(&'d self, alloc: Global) -> Result<Vec<Source<'d>>, AllocError>
        ensures { IfOk result
            (λ sources. map source_of sources.items ≡ spec.others (workspace_of self.now)) }
    {
        let mut sources = sources_of(alloc, self.not_asked())?;
        add_held(&mut sources, self.held_documents())?;
        Ok(sources)
    }

    /// What is wrong with the documents that are asked about, and how many references they have. Fails only if out of memory.
    pub fn report<'d>(&'d self, alloc: Global) -> Result<SchemaReport<'d>, AllocError>
        ensures findings { IfOk result
            (λ report. AllZip IsFindingOf report.findings.items
            (spec.findings (workspace_of self.now))) }
        ensures references { IfOk result
            (λ report. report.references ≡ spec.references (workspace_of self.now)) }
    {
        let own = sources_of(alloc, self.asked_about())?;
        let others = self.others(alloc)?;
        report(alloc, self.draft(), own.as_slice(), others.as_slice())
    }

    // Adds what is wrong with those documents that are asked about and aren't parts of descriptions, which references may still lead
    // into; of those that are looked at. Returns how many places and references they have.
    fn add_plain<'d>(
        &'d self,
        alloc: Global,
        described: &Described,
        list: &mut Vec<Finding<'d>>,
    ) -> Result<Amount, AllocError> {
        let mut own = Vec::new(alloc);
        let mut numbers = Vec::new(alloc);
        let mut others = Vec::new(alloc);
        for (number, document) in self.documents().iter().enumerate() {
            if number < self.asked() && described.is_plain_at(number) {
                push_number(&mut numbers, number)?;
                push_source(&mut own, document)?;
            } else if described.has(number) {
                push_source(&mut others, document)?;
            }
        }
        add_held(&mut others, self.held_documents())?;
        let report = report(alloc, self.draft(), own.as_slice(), others.as_slice())?;
        let amount = Amount {
            places: report.places,
            references: report.references,
        };
        let findings = without_misspelled(alloc, report.findings)?;
        push_plain(list, findings, numbers.as_slice())?;
        Ok(amount)
    }

    /// What is wrong with the documents that are asked about, whatever they are, and what is to be noted; and after it which
    /// retrieved documents have no value, and which texts of them mean no URI. Fails only if out of memory.
    pub fn full_report<'d>(&'d self, alloc: Global) -> Result<Report<'d>, AllocError> {
        let known = Known {
            is_led: false,
            may_come_back: may_be_endless(alloc, self)?,
            unused: Unused::of(alloc, self)?,
        };
        self.report_among(alloc, &[], known)
    }

    /// The same as though there were no other documents than those that are looked at, and what was retrieved and has no text: by flags, by
    /// the numbers of the documents. One without a flag is looked at. What is known of all documents counts in place of what could be found in these.
    pub fn report_among<'d>(
        &'d self,
        alloc: Global,
        there: &[bool],
        known: Known,
    ) -> Result<Report<'d>, AllocError> {
        let Known {
            is_led,
            may_come_back,
            unused,
        } = known;
        let mut described = Described::among(alloc, self, there)?;
        described.is_led = is_led;
        if may_come_back {
            described.links = Some(Vec::new(alloc));
        }
        let mut findings = Vec::new(alloc);
        let (own, led) = self.add_references(alloc, &mut described, &mut findings)?;
        if let Some(links) = &described.links {
            add_endless(alloc, self, links.as_slice(), &mut findings)?;
        }
        add_cases(alloc, self, &mut findings)?;
        add_told(alloc, self, &described, &mut findings)?;
        let told_at = described.take_told(alloc);
        add_all_told_at(alloc, self, told_at, &mut findings)?;
        let misnamed = described.take_misnamed(alloc);
        add_all_misnamed(alloc, self, misnamed, &mut findings)?;
        add_repeated(alloc, self, &described, &mut findings)?;
        add_unused(alloc, self, &described, &unused, &mut findings)?;
        self.add_faults(alloc, &described, &mut findings)?;
        let unplaced = described.placed.unplaced(alloc, self)?;
        Ok(Report {
            findings,
            references: own
                .references
                .saturating_add(led.references)
                .saturating_add(described.references),
            led: led.references,
            is_led: described.is_led,
            may_come_back,
            unused,
            descriptions: described.descriptions,
            places: described.places,
            schema_places: own.places.saturating_add(led.places),
            unplaced,
        })
    }

    // Adds what is wrong with the references of the documents that are looked at. Returns how much there is in schemas: where keywords lead, and where
    // references alone do.
    fn add_references<'d>(
        &'d self,
        alloc: Global,
        described: &mut Described,
        findings: &mut Vec<Finding<'d>>,
    ) -> Result<(Amount, Amount), AllocError> {
        let mut more = Vec::new(alloc);
        add_described(alloc, self, described, &mut more)?;
        let own = self.add_plain(alloc, &*described, findings)?;
        let led = add_led(alloc, self, own.references, described, &mut more)?;
        push_all(findings, more)?;
        Ok((own, led))
    }

    /// What is wrong with the references of the documents that are asked about, and whether references of schemas lead to places that no keyword
    /// leads to; a part of what [`full_report`](Workspace::full_report) says. Fails only if out of memory.
    pub(crate) fn references_report<'d>(
        &'d self,
        alloc: Global,
    ) -> Result<(Vec<Finding<'d>>, bool), AllocError> {
        let mut described = Described::of(alloc, self)?;
        let mut findings = Vec::new(alloc);
        let (_own, led) = self.add_references(alloc, &mut described, &mut findings)?;
        drop(described);
        Ok((findings, led.references > 0))
    }

    // Adds which retrieved documents have no value, and which texts of them mean no URI.
    fn add_faults<'d>(
        &'d self,
        alloc: Global,
        described: &Described,
        list: &mut Vec<Finding<'d>>,
    ) -> Result<(), AllocError> {
        let retrieved = self.documents().get(self.opened()..).unwrap_or(&[]);
        if retrieved.is_empty() {
            return Ok(());
        }
        let sources = sources_of(alloc, retrieved)?;
        for finding in report(alloc, self.draft(), sources.as_slice(), &[])?.findings {
            let source = finding.source.saturating_add(self.opened());
            let is_fault = matches!(finding.problem, Problem::InvalidUri(_) | Problem::NotJson);
            if is_fault && described.has(source) {
                push(list, plain(finding, source, &[]))?;
            }
        }
        Ok(())
    }

    /// The trees that are read in place of the own ones of documents that have a text that means no URI, by their numbers. Fails only
    /// if out of memory.
    pub fn mended(&self, alloc: Global) -> Result<Vec<Option<Value>>, AllocError>
        ensures value { IfOk result
            (λ trees. map (option_map view) trees.items
            ≡ spec.trees_in_place (workspace_of self.now)) }
    {
        let sources = sources_of(alloc, self.documents())?;
        mended(alloc, self.draft(), sources.as_slice())
    }

    /// The same of those documents that are looked at, by flags: one without a flag is. Of the others there is none.
    pub fn mended_among(
        &self,
        alloc: Global,
        there: &[bool],
    ) -> Result<Vec<Option<Value>>, AllocError> {
        let mut sources = Vec::new(alloc);
        let mut trees = Vec::new(alloc);
        let mut numbers = Vec::new(alloc);
        for (number, document) in self.documents().iter().enumerate() {
            push_tree(&mut trees, None)?;
            if is_among(there, number) {
                push_number(&mut numbers, number)?;
                push_source(&mut sources, document)?;
            }
        }
        let found = mended(alloc, self.draft(), sources.as_slice())?;
        for (number, tree) in numbers.into_iter().zip(found.into_iter()) {
            if let Some(place) = trees.get_mut(number) {
                *place = tree;
            }
        }
        Ok(trees)
    }
}
