//! Identifiers of schemas in descriptions from 3.1 on, and the `$self` of a description of 3.2: those that mean no URI, and those that another
//! place has.
use crate::described::{owned_path_to, pointer_at, texts_at};
use crate::finding::{Finding, Problem, push};
use crate::workspace::Workspace;
use ref_descriptions::{Kind, Version};
use ref_draft::ResourceRef;
use ref_findings::{Bearer, Problem as SchemaProblem};
use ref_index::meanings::text_under;
use ref_reach::{Place, Source};
use ref_uri::uri::resolve_against;
use ref_uri::{Uri, UriError, UriFault};
use std::alloc::{AllocError, Global};
use std::collections::BTreeMap;
use std::rc::Rc;

/// What is wrong with an identifier.
#[derive(Drop)]
pub(crate) struct Misnamed {
    // The number of its document, and the pointer to what has it.
    document: usize,
    pointer: String,
    keyword: &'static str,
    wrong: Wrong,
}

#[derive(Drop)]
enum Wrong {
    // It means no URI.
    Invalid(UriError),
    // What is at this place has the URI too, and comes first.
    Twice { uri: Rc<Uri>, first: Site },
}

// The number of a document, and a pointer there.
#[derive(Drop)]
struct Site {
    document: usize,
    pointer: String,
}

/// Adds what is wrong with the identifiers of places that descriptions have by themselves, of those in documents that are asked about. Of an identifier that two
/// have the second is listed; a document has its URI. A look-up for each identifier, and one resolved for each that means no URI.
pub(crate) fn add_misnamed(
    alloc: Global,
    asked: usize,
    (sources, numbers): (&[Source<'_>], &[usize]),
    places: &[Place<'_>],
    list: &mut Vec<Misnamed>,
) -> Result<(), AllocError> {
    let mut bearers = bearers_of(alloc, sources, numbers)?;
    for place in places {
        let document = numbers.get(place.document).copied().unwrap_or(usize::MAX);
        let Some((keyword, text)) = identifier_of(place) else {
            continue;
        };
        let pointer = pointer_at(alloc, place)?;
        let site = Site { document, pointer };
        let wrong = if place.is_identified {
            twice(alloc, place, &site, &mut bearers)?
        } else {
            invalid(alloc, place, text)?
        };
        if let (true, Some(wrong)) = (document < asked, wrong) {
            push_misnamed(list, site, keyword, wrong)?;
        }
    }
    Ok(())
}

// What has which URI: first the documents.
fn bearers_of(
    alloc: Global,
    sources: &[Source<'_>],
    numbers: &[usize],
) -> Result<BTreeMap<String, Site>, AllocError> {
    let mut bearers = BTreeMap::new(alloc);
    for (source, number) in sources.iter().zip(numbers.iter()) {
        let uri = String::from_str(alloc, source.uri.as_str())?;
        let pointer = String::new(alloc);
        let site = Site {
            document: *number,
            pointer,
        };
        bearers.insert(uri, site)?;
    }
    Ok(bearers)
}

// The keyword and the text of the identifier of a place.
fn identifier_of<'v>(place: &Place<'v>) -> Option<(&'static str, &'v str)> {
    let reading = place.reading;
    if reading.is_by_draft() {
        let text = ResourceRef::new(place.value, reading.draft).id()?;
        return Some((reading.draft.id_keyword(), text));
    }
    if reading.kind == Kind::Root && reading.version == Some(Version::V3_2) {
        return Some(("$self", text_under(place.value, "$self")?));
    }
    None
}

// Whether another place has the URI that a place has by an identifier; the first one is noted.
fn twice(
    alloc: Global,
    place: &Place<'_>,
    site: &Site,
    bearers: &mut BTreeMap<String, Site>,
) -> Result<Option<Wrong>, AllocError> {
    if let Some(first) = bearers.get(place.base.as_str()) {
        if first.document == site.document && first.pointer.as_str() == site.pointer.as_str() {
            return Ok(None);
        }
        return Ok(Some(Wrong::Twice {
            uri: place.base.clone()?,
            first: again(first)?,
        }));
    }
    let uri = String::from_str(alloc, place.base.as_str())?;
    bearers.insert(uri, again(site)?)?;
    Ok(None)
}

fn again(site: &Site) -> Result<Site, AllocError> {
    Ok(Site {
        document: site.document,
        pointer: site.pointer.clone()?,
    })
}

// Why a text means no URI against the base of a place, where it means none.
fn invalid(alloc: Global, place: &Place<'_>, text: &str) -> Result<Option<Wrong>, AllocError> {
    match resolve_against(alloc, place.base.borrow(), text) {
        Ok(uri) => {
            drop(uri);
            Ok(None)
        }
        Err(UriFault::Invalid(error)) => Ok(Some(Wrong::Invalid(error))),
        Err(UriFault::Memory(error)) => Err(error),
    }
}

fn push_misnamed(
    list: &mut Vec<Misnamed>,
    site: Site,
    keyword: &'static str,
    wrong: Wrong,
) -> Result<(), AllocError> {
    let Site { document, pointer } = site;
    list.push(Misnamed {
        document,
        pointer,
        keyword,
        wrong,
    })?;
    Ok(())
}

/// Adds the findings of these.
pub(crate) fn add_all_misnamed<'d>(
    alloc: Global,
    workspace: &'d Workspace,
    misnamed: Vec<Misnamed>,
    list: &mut Vec<Finding<'d>>,
) -> Result<(), AllocError> {
    for one in misnamed {
        add_one(alloc, workspace, one, list)?;
    }
    Ok(())
}

fn add_one<'d>(
    alloc: Global,
    workspace: &'d Workspace,
    one: Misnamed,
    list: &mut Vec<Finding<'d>>,
) -> Result<(), AllocError> {
    let Misnamed {
        document,
        pointer,
        keyword,
        wrong,
    } = one;
    let Some(root) = workspace.value(document) else {
        return Ok(());
    };
    let Some(path) = owned_path_to(alloc, root, pointer.as_str())? else {
        return Ok(());
    };
    let (_, text) = texts_at(root, path.as_slice(), keyword);
    let problem = problem_of(alloc, workspace, wrong)?;
    push(
        list,
        Finding {
            source: document,
            path,
            keyword: Some(keyword),
            text,
            wanted: None,
            problem: Problem::Plain(problem),
        },
    )
}

fn problem_of<'d>(
    alloc: Global,
    workspace: &Workspace,
    wrong: Wrong,
) -> Result<SchemaProblem<'d>, AllocError> {
    match wrong {
        Wrong::Invalid(error) => Ok(SchemaProblem::InvalidUri(error)),
        Wrong::Twice { uri, first } => {
            let path = match workspace.value(first.document) {
                Some(root) => owned_path_to(alloc, root, first.pointer.as_str())?,
                None => None,
            };
            let path = path.unwrap_or(Vec::new(alloc));
            let source = first.document;
            let first = Bearer { source, path };
            Ok(SchemaProblem::DuplicateIdentifier { uri, first })
        }
    }
}
