//! The references of documents, and where each leads.
use crate::given::Given;
use crate::places::is_component_name;
use ref_descriptions::{Reference, Under, references};
use ref_draft::Draft;
use ref_error::Error;
use ref_index::meanings::text_under;
use ref_index::segments_of;
use ref_parts::path::JsonPointerSegment;
use ref_parts::{pointer_of, write_escaped_str};
use ref_reach::{Place as Surveyed, target};
use ref_uri::Uri;
use referencing::{List, Place, Registry};
use std::alloc::{AllocError, Global};
use std::collections::BTreeSet;
use std::rc::Rc;

/// What a text is that refers to something.
#[derive(Clone, Copy, Debug, Drop, PartialEq, Eq)]
pub enum Form {
    /// A URI reference.
    Reference,
    /// The name of a schema among the components of a description, in the mapping of a discriminator.
    Name,
}

/// Where a reference leads: the number of the document, and the pointer there.
#[derive(Debug, Drop)]
pub struct Led {
    /// The number of the document.
    pub document: usize,
    /// The pointer.
    pub pointer: String,
}

/// A text that refers to something.
#[derive(Drop)]
pub struct Use<'r> {
    /// The number of its document.
    pub document: usize,
    /// The pointer to the text (RFC 6901).
    pub pointer: String,
    /// The text.
    pub text: &'r str,
    /// The base that it is resolved against.
    pub base: Rc<Uri>,
    /// What it is.
    pub form: Form,
    /// Where it leads, where it is a reference and leads to a value of one of the documents.
    pub led: Option<Led>,
}

/// The texts of documents that refer to something: `$ref` and `$dynamicRef` of each place where a schema is, the `$schema` of each root, and each reference of
/// the objects of descriptions, and of what references lead to where no keyword does. Each text comes once. Fails only if out of memory. A look-up for each.
pub fn uses_of<'w>(
    alloc: Global,
    given: &Given<'_, 'w, '_, '_>,
) -> Result<Vec<Use<'w>>, AllocError> {
    let mut gathering = Gathering {
        alloc,
        registry: given.registry,
        seen: BTreeSet::new(alloc),
        uses: Vec::new(alloc),
    };
    match gathering.add_all(given) {
        Ok(()) => Ok(gathering.uses),
        Err(error) => {
            drop(gathering);
            Err(error)
        }
    }
}

// What was found so far.
#[derive(Drop)]
struct Gathering<'w, 'd> {
    alloc: Global,
    registry: &'w Registry<'d>,
    // Where the texts are that were found.
    seen: BTreeSet<(usize, String)>,
    uses: Vec<Use<'w>>,
}

impl<'w> Gathering<'w, '_> {
    // Adds those of objects of descriptions, and of what references lead to, and then those of places where a schema is: of a place that is both the first counts.
    fn add_all(&mut self, given: &Given<'_, 'w, '_, '_>) -> Result<(), AllocError> {
        self.add_surveyed(given, given.survey.own())?;
        self.add_surveyed(given, given.survey.described())?;
        self.add_surveyed(given, given.survey.led())?;
        for place in &places_of(self.alloc, given.registry)? {
            self.add_place(place)?;
        }
        Ok(())
    }

    // Adds the texts of a place where a schema is.
    fn add_place(&mut self, place: &Place<'w>) -> Result<(), AllocError> {
        for keyword in keywords_of(place.draft) {
            if let Some(text) = text_under(place.value, *keyword) {
                self.add_text(place, *keyword, text, place.base.clone()?)?;
            }
        }
        if place.path.is_empty() {
            self.add_dialect(place)?;
        }
        Ok(())
    }

    // Adds the `$schema` of a root, which is resolved against the URI of its document.
    fn add_dialect(&mut self, place: &Place<'w>) -> Result<(), AllocError> {
        let (Some(text), Some(document)) = (
            text_under(place.value, "$schema"),
            self.registry.documents().get(place.document),
        ) else {
            return Ok(());
        };
        let base = Rc::new(self.alloc, document.uri.clone()?)?;
        self.add_text(place, "$schema", text, base)
    }

    fn add_text(
        &mut self,
        place: &Place<'w>,
        keyword: &str,
        text: &'w str,
        base: Rc<Uri>,
    ) -> Result<(), AllocError> {
        let pointer = pointer_under(self.alloc, place.path.as_slice(), "", keyword)?;
        let led = led_from(self.alloc, self.registry, &base, text)?;
        self.add(Use {
            document: place.document,
            pointer,
            text,
            base,
            form: Form::Reference,
            led,
        })
    }

    // Adds the references of objects of descriptions, or of what is reached.
    fn add_surveyed(
        &mut self,
        given: &Given<'_, 'w, '_, '_>,
        places: &[Surveyed<'w>],
    ) -> Result<(), AllocError> {
        for place in places {
            for reference in references(self.alloc, place.reading, place.value)? {
                self.add_reference(given, place, &reference)?;
            }
        }
        Ok(())
    }

    fn add_reference(
        &mut self,
        given: &Given<'_, 'w, '_, '_>,
        place: &Surveyed<'w>,
        reference: &Reference<'w>,
    ) -> Result<(), AllocError> {
        let Some(text) = reference.text else {
            return Ok(());
        };
        let form = form_of(self.registry, place, reference, text);
        let led = match form {
            Form::Reference => surveyed_led(self.alloc, given, place, text)?,
            Form::Name => None,
        };
        let path = segments_of(self.alloc, &place.path)?;
        let within = within_of(reference.under);
        let pointer = pointer_under(self.alloc, path.as_slice(), within, reference.keyword)?;
        self.add(Use {
            document: place.document,
            pointer,
            text,
            base: place.base.clone()?,
            form,
            led,
        })
    }

    // Adds a text, unless it is there.
    fn add(&mut self, one: Use<'w>) -> Result<(), AllocError> {
        let key = (one.document, one.pointer.clone()?);
        if self.seen.insert(key)? {
            self.uses.push(one)?;
        }
        Ok(())
    }
}

// The keywords of references in a draft. A `$recursiveRef` is `#`, whatever is changed.
fn keywords_of(draft: Draft) -> &'static [&'static str] {
    match draft {
        Draft::Draft202012 | Draft::Unknown => &["$ref", "$dynamicRef"],
        _ => &["$ref"],
    }
}

/// The places of a registry's documents.
pub(crate) fn places_of<'w>(
    alloc: Global,
    registry: &'w Registry<'_>,
) -> Result<Vec<Place<'w>>, AllocError> {
    registry.places(alloc).ok().ok_or(AllocError)
}

/// By the numbers of documents, whether one is a description, or a part of one as a whole.
pub(crate) fn described_documents(
    alloc: Global,
    given: &Given<'_, '_, '_, '_>,
) -> Result<Vec<bool>, AllocError> {
    let mut flags = vec![in alloc; false; given.registry.documents().len()]?;
    note_roots(&mut flags, given.survey.own());
    note_roots(&mut flags, given.survey.described());
    Ok(flags)
}

fn note_roots(flags: &mut Vec<bool>, places: &[Surveyed<'_>]) {
    for place in places {
        if place.path.parent().is_none() {
            if let Some(flag) = flags.get_mut(place.document) {
                *flag = true;
            }
        }
    }
}

/// The flag with a number.
pub(crate) fn is_true(flags: &[bool], number: usize) -> bool {
    flags.get(number).copied().unwrap_or(false)
}

// What a text of an object of a description is.
fn form_of(
    registry: &Registry<'_>,
    place: &Surveyed<'_>,
    reference: &Reference<'_>,
    text: &str,
) -> Form {
    if reference.under == Under::Mapping && is_component_name(registry, place.document, text) {
        return Form::Name;
    }
    Form::Reference
}

// Where the text of a reference is, from its object on.
fn within_of(under: Under) -> &'static str {
    match under {
        Under::Itself => "",
        Under::Mapping => "/discriminator/mapping",
    }
}

// The pointer to what is under a key.
fn pointer_under(
    alloc: Global,
    path: &[JsonPointerSegment<'_>],
    within: &str,
    key: &str,
) -> Result<String, AllocError> {
    let mut pointer = pointer_of(alloc, path)?;
    pointer.push_str(within)?;
    pointer.push('/')?;
    write_escaped_str(&mut pointer, key)?;
    Ok(pointer)
}

/// Where a reference leads from a base.
pub(crate) fn led_from(
    alloc: Global,
    registry: &Registry<'_>,
    base: &Rc<Uri>,
    text: &str,
) -> Result<Option<Led>, AllocError> {
    let resolver = registry.resolver_from_parts(base.clone()?, List::new());
    match resolver.location(alloc, text) {
        Ok(location) => {
            let document = location.document;
            let pointer = location.pointer(alloc);
            drop(location);
            Ok(Some(Led {
                document,
                pointer: pointer?,
            }))
        }
        Err(Error::Memory(error)) => Err(error),
        Err(error) => {
            drop(error);
            Ok(None)
        }
    }
}

// Where a reference leads from an object of a description, or from what is reached.
fn surveyed_led<'w>(
    alloc: Global,
    given: &Given<'_, 'w, '_, '_>,
    place: &Surveyed<'w>,
    text: &str,
) -> Result<Option<Led>, AllocError> {
    let Some(found) = target(alloc, given.survey.documents(), place, text)? else {
        return Ok(None);
    };
    let path = segments_of(alloc, &found.path)?;
    Ok(Some(Led {
        document: found.document,
        pointer: pointer_of(alloc, path.as_slice())?,
    }))
}
