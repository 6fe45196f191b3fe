//! Documents that are missing, where one is there whose URI has the same letters, small or capital.
use crate::finding::{Finding, Problem, push};
use crate::workspace::Workspace;
use ref_findings::Problem as Plain;
use ref_parts::path::JsonPointerSegment;
use ref_rules::{Alike, Name, all_alike};
use std::alloc::{AllocError, Global};

/// Adds to findings which missing documents differ by small letters and capitals alone from one that is there. Fails only if out of memory. It costs
/// nothing where no document is missing.
pub(crate) fn add_cases<'d>(
    alloc: Global,
    workspace: &'d Workspace,
    list: &mut Vec<Finding<'d>>,
) -> Result<(), AllocError> {
    for finding in cases_in(alloc, workspace, list.as_slice())? {
        push(list, finding)?;
    }
    Ok(())
}

fn cases_in<'d>(
    alloc: Global,
    workspace: &'d Workspace,
    list: &[Finding<'d>],
) -> Result<Vec<Finding<'d>>, AllocError> {
    let mut numbers = Vec::new(alloc);
    let mut wanted = Vec::new(alloc);
    for (number, finding) in list.iter().enumerate() {
        if let Some(Plain::MissingDocument { uri }) = finding.problem.plain() {
            numbers.push(number)?;
            wanted.push(String::from_str(alloc, uri.as_str())?)?;
        }
    }
    let mut found = Vec::new(alloc);
    if wanted.is_empty() {
        return Ok(found);
    }
    let there = uris_of(alloc, workspace)?;
    let wanted = names_of(alloc, wanted.as_slice())?;
    let there = names_of(alloc, there.as_slice())?;
    for alike in all_alike(alloc, wanted.as_slice(), there.as_slice())? {
        push_case(alloc, list, numbers.as_slice(), alike, &mut found)?;
    }
    Ok(found)
}

// The URIs of all documents, by their numbers.
fn uris_of(alloc: Global, workspace: &Workspace) -> Result<Vec<String>, AllocError> {
    let mut uris = Vec::new(alloc);
    for number in 0..workspace.len() {
        let uri = match workspace.uri(number) {
            Some(uri) => uri.as_str(),
            None => "",
        };
        let uri = String::from_str(alloc, uri)?;
        uris.push(uri)?;
    }
    Ok(uris)
}

fn names_of(alloc: Global, texts: &[String]) -> Result<Vec<Name<'_>>, AllocError> {
    let mut names = Vec::with_capacity(alloc, texts.len())?;
    for text in texts {
        names.push(Name { text })?;
    }
    Ok(names)
}

// Adds that the document that a finding wants is there with other letters.
fn push_case<'d>(
    alloc: Global,
    list: &[Finding<'d>],
    numbers: &[usize],
    alike: Alike,
    found: &mut Vec<Finding<'d>>,
) -> Result<(), AllocError> {
    let number = numbers.get(alike.wanted).copied().unwrap_or(usize::MAX);
    let Some(finding) = list.get(number) else {
        return Ok(());
    };
    push(
        found,
        Finding {
            source: finding.source,
            path: copy_of(alloc, finding.path.as_slice())?,
            keyword: finding.keyword,
            text: finding.text,
            wanted: None,
            problem: Problem::OtherCase {
                document: alike.there,
            },
        },
    )
}

fn copy_of<'d>(
    alloc: Global,
    path: &[JsonPointerSegment<'d>],
) -> Result<Vec<JsonPointerSegment<'d>>, AllocError> {
    let mut copy = Vec::with_capacity(alloc, path.len())?;
    for segment in path {
        copy.push(segment.clone()?)?;
    }
    Ok(copy)
}
