//! Where findings are in the files: one pass over each file that has some.
use crate::finding::{Finding, Problem};
use crate::pointer::place_of;
use crate::workspace::Document;
use ref_findings::{Bearer, Problem as Plain};
use ref_parts::path::JsonPointerSegment;
use ref_parts::value_at;
use ref_positions::{Located, Places, Position};
use std::alloc::{AllocError, Global};

/// Where findings are, and the first places that they clash with.
#[derive(Drop)]
pub struct Spots<'t> {
    // By the numbers of the files, where something in one is asked for.
    located: Vec<Option<Located<'t>>>,
    // By the numbers of the findings, the place in the file.
    own: Vec<usize>,
    first: Vec<usize>,
}

impl<'t> Spots<'t> {
    /// Where a finding is, by its number: where the value that it is about begins, or the key of a definition.
    pub fn own(&self, number: usize, finding: &Finding<'_>) -> Option<Position<'t>> {
        let place = *self.own.get(number)?;
        match &finding.problem {
            Problem::Unused => self.located_in(finding.source)?.key(place),
            _ => self.position(finding.source, place),
        }
    }

    /// Where the first bearer is that a finding clashes with.
    pub fn first(&self, number: usize, bearer: &Bearer<'_>) -> Option<Position<'t>> {
        self.position(bearer.source, *self.first.get(number)?)
    }

    fn position(&self, source: usize, place: usize) -> Option<Position<'t>> {
        self.located_in(source)?.value(place)
    }

    fn located_in(&self, source: usize) -> Option<&Located<'t>> {
        self.located.get(source)?.as_ref()
    }
}

// What is asked of files.
#[derive(Drop)]
struct Asked {
    alloc: Global,
    // By the numbers of the files, where something in one is asked for.
    files: Vec<Option<Places>>,
    // By the numbers of the findings, the place in the file.
    own: Vec<usize>,
    first: Vec<usize>,
}

/// Where findings are.
pub fn spots_of<'t>(
    alloc: Global,
    documents: &'t [Document],
    findings: &[Finding<'_>],
) -> Result<Spots<'t>, AllocError> {
    let Asked {
        files,
        own,
        first,
        ..
    } = asked_of(alloc, documents, findings)?;
    let located = located(alloc, documents, files)?;
    Ok(Spots {
        located,
        own,
        first,
    })
}

fn asked_of(
    alloc: Global,
    documents: &[Document],
    findings: &[Finding<'_>],
) -> Result<Asked, AllocError> {
    let mut asked = Asked {
        alloc,
        files: Vec::new(alloc),
        own: Vec::new(alloc),
        first: Vec::new(alloc),
    };
    for _ in documents {
        asked.files.push(None)?;
    }
    for finding in findings {
        asked.add(documents, finding)?;
    }
    Ok(asked)
}

// What is asked of a file is given back once it is found.
fn located<'t>(
    alloc: Global,
    documents: &'t [Document],
    asked: Vec<Option<Places>>,
) -> Result<Vec<Option<Located<'t>>>, AllocError> {
    let mut all = Vec::with_capacity(alloc, documents.len())?;
    for (document, places) in documents.iter().zip(asked.into_iter()) {
        all.push(located_in(alloc, document, &places)?)?;
    }
    Ok(all)
}

fn located_in<'t>(
    alloc: Global,
    document: &'t Document,
    places: &Option<Places>,
) -> Result<Option<Located<'t>>, AllocError> {
    match places {
        Some(places) => {
            let text = &document.text;
            Ok(Some(places.locate(alloc, text.format, text.text.as_str())?))
        }
        None => Ok(None),
    }
}

impl Asked {
    // Asks for the place of a finding, and for that of the first bearer that it clashes with.
    fn add(&mut self, documents: &[Document], finding: &Finding<'_>) -> Result<(), AllocError> {
        let own = self.ask_own(documents, finding)?;
        self.own.push(own)?;
        let first = self.ask_first(documents, finding)?;
        self.first.push(first)?;
        Ok(())
    }

    // Asks for the place of a finding, unless that is known, or the file has no value: where it has a fault is known too.
    fn ask_own(
        &mut self,
        documents: &[Document],
        finding: &Finding<'_>,
    ) -> Result<usize, AllocError> {
        let is_known = matches!(&finding.problem, Problem::Repeated { .. });
        if is_known || !has_value(documents, finding.source) {
            return Ok(0);
        }
        self.ask(finding.source, finding.path.as_slice(), finding.keyword)
    }

    // Asks for a place of a file, and for the value under a keyword there.
    fn ask(
        &mut self,
        source: usize,
        path: &[JsonPointerSegment<'_>],
        keyword: Option<&str>,
    ) -> Result<usize, AllocError> {
        let Some(slot) = self.files.get_mut(source) else {
            return Ok(0);
        };
        let places = match slot {
            Some(places) => places,
            None => slot.insert(Places::new(self.alloc)?),
        };
        let place = place_of(places, path)?;
        match keyword {
            Some(keyword) => places.member(place, keyword),
            None => Ok(place),
        }
    }

    fn ask_first(
        &mut self,
        documents: &[Document],
        finding: &Finding<'_>,
    ) -> Result<usize, AllocError> {
        let Some(bearer) = first_of(&finding.problem) else {
            return Ok(0);
        };
        let keyword = match finding.problem {
            Problem::Plain(Plain::GuessedDraft { .. }) => Some("$ref"),
            _ => keyword_of(documents, bearer, finding.keyword),
        };
        self.ask(bearer.source, bearer.path.as_slice(), keyword)
    }
}

// Whether the document with a number has a value.
fn has_value(documents: &[Document], number: usize) -> bool {
    match documents.get(number) {
        Some(document) => document.value().is_some(),
        None => false,
    }
}

/// The first bearer that a problem is a clash with, or the first place that refers to a document.
pub fn first_of<'f, 'v>(problem: &'f Problem<'v>) -> Option<&'f Bearer<'v>> {
    match problem.plain()? {
        Plain::DuplicateIdentifier { first, .. } => Some(first),
        Plain::DuplicateAnchor { first, .. } => Some(first),
        Plain::GuessedDraft { by, .. } => Some(by),
        _ => None,
    }
}

// The keyword at a bearer, where it has the same one.
fn keyword_of<'k>(
    documents: &[Document],
    bearer: &Bearer<'_>,
    keyword: Option<&'k str>,
) -> Option<&'k str> {
    let keyword = keyword?;
    let root = documents.get(bearer.source)?.value()?;
    let place = value_at(root, bearer.path.as_slice())?;
    if place.get(keyword).is_some() {
        Some(keyword)
    } else {
        None
    }
}
