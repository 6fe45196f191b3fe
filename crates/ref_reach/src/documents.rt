//! The documents, and what references are looked up in.
ghost use Rattle.std.specs.Prelude.{◌≡◌, ◌==◌, ◌++◌, ◌∷◌, [], map, length, option_map, unwrap_or, IfOk, OnOk};
ghost use Rattle.serde_json.specs.View.{view};
ghost use Rattle.ref_index.specs.Contents.{tree_of};
ghost use Rattle.ref_descriptions.specs.Versions.{version_of};
ghost use Rattle.ref_reach.specs.Held.{draft_for, tree_read, held, held_source, part_tree, held_part, identified, layer_held, parts_held};
ghost use Rattle.ref_reach.specs.Places.{AreOwn, own_at};
ghost use Rattle.ref_reach.specs.Leading.{version_at};
ghost use Rattle.ref_reach.specs.Views.{source_of, place_of};
ghost use Rattle.ref_reach.specs.Knowing.{known_of, part_in};

use crate::described::{Documents, Part};
use crate::own::{own_places, roots_of};
use crate::place::Place;
use crate::table::{number_text, table_of};
use ref_descriptions::{Version, version_of};
use ref_draft::Draft;
use ref_findings::{mended, with_null_at};
use ref_index::{Contents, Document, Walked};
use ref_uri::Uri;
use serde_json::Value;
use std::alloc::{AllocError, Global};
use std::rc::Rc;

/// A document: its URI, in normal form and without a fragment, and its value.
#[derive(Drop)]
pub struct Source<'v> {
    /// The URI.
    pub uri: Uri,
    /// The value, which is never copied.
    pub value: &'v Value,
}

// The draft that a document is in the index with. Of a description it counts only for the `definitions` of 2.0.
fn draft_in(draft: Draft, value: &Value) -> Draft
    ensures { result ≡ draft_for draft (version_of (view value.now)) }
{
    match version_of(value) {
        Some(Version::V2_0) | Some(Version::V3_0) => Draft::Draft7,
        _ => draft,
    }
}

// A copy of a value with `null` in place of each text that means no URI, where there is such a text.
fn mended_copy(
    alloc: Global,
    uri: &Uri,
    value: &Value,
    draft: Draft,
) -> Result<Option<Value>, AllocError>
    ensures { IfOk result
        (λ copy. unwrap_or (option_map view copy) (view value.now)
        ≡ tree_read draft uri.now (view value.now)) }
{
    let source = ref_findings::Source {
        uri: uri.clone()?,
        value: Some(value),
    };
    let mut trees = mended(alloc, draft, &[source])?;
    match trees.pop() {
        Some(Some(tree)) => Ok(Some(tree)),
        _ => Ok(None),
    }
}

// Documents and one after them, of these contents.
fn with_contents<'v>(
    alloc: Global,
    walked: Walked<'v>,
    uri: &Uri,
    contents: Contents<'v>,
    draft: Draft,
) -> Result<Walked<'v>, AllocError>
    ensures { IfOk result
        (λ more. more
        ≡ walked.entry
        ++ record { uri = uri.now; tree = tree_of contents.entry; draft = draft } ∷ []) }
{
    let document = Document {
        uri: uri.clone()?,
        contents,
        draft,
    };
    match walked.append(alloc, document) {
        Ok(walked) => Ok(walked),
        Err(fault) => {
            drop(fault);
            Err(AllocError)
        }
    }
}

// Documents and one after them.
fn with_document<'v>(
    alloc: Global,
    walked: Walked<'v>,
    uri: &Uri,
    value: &'v Value,
    draft: Draft,
) -> Result<Walked<'v>, AllocError>
    ensures { IfOk result
        (λ more. more ≡ walked.entry ++ held draft uri.now (view value.now) ∷ []) }
{
    let contents = match mended_copy(alloc, uri, value, draft)? {
        Some(copy) => Contents::Owned(copy),
        None => Contents::Borrowed(value),
    };
    with_contents(alloc, walked, uri, contents, draft.detect(value))
}

// Documents, and after them a part that has a URI of its own.
fn with_own_uri<'v>(
    alloc: Global,
    walked: Walked<'v>,
    place: &Place<'v>,
) -> Result<Walked<'v>, AllocError>
    ensures { IfOk result
        (λ more. more ≡ walked.entry ++ held_part (place_of place.now) ∷ []) }
{
    let draft = draft_of(place);
    let tree = with_null_at(alloc, draft.id_keyword(), place.value)?;
    let detected = draft.detect(&tree);
    let contents = match mended_copy(alloc, &place.base, &tree, draft)? {
        Some(copy) => Contents::Owned(copy),
        None => Contents::Owned(tree),
    };
    with_contents(alloc, walked, &place.base, contents, detected)
}

// The documents one after another.
fn walked_of<'v>(
    alloc: Global,
    draft: Draft,
    sources: &[Source<'v>],
) -> Result<Walked<'v>, AllocError>
    ensures { IfOk result
        (λ walked. walked ≡ map (held_source draft) (map source_of sources.now)) }
{
    let mut walked = Walked::new(alloc);
    for source in sources {
        let draft = draft_in(draft, source.value);
        walked = with_document(alloc, walked, &source.uri, source.value, draft)?;
    }
    Ok(walked)
}

// The draft that a part is in the index with.
fn draft_of(place: &Place<'_>) -> Draft
    ensures { result ≡ (place_of place.now).reading.draft }
{
    place.reading.draft
}

// Documents, and after them a place that has a URI of its own, where it has one.
fn with_part<'v>(
    alloc: Global,
    walked: Walked<'v>,
    place: &Place<'v>,
    parts: &mut Vec<Part<'v>>,
) -> Result<Walked<'v>, AllocError>
    ensures walked { IfOk result
        (λ more. more ≡ walked.entry ++ map held_part (identified (place_of place.now ∷ []))) }
    ensures parts { OnOk result
        (map part_in parts.new.items
        ≡ map part_in parts.old.items ++ parts_held (place_of place.now ∷ [])) }
{
    if !place.is_identified {
        return Ok(walked);
    }
    parts.push(Part {
        document: place.document,
        path: place.path.clone()?,
    })?;
    with_own_uri(alloc, walked, place)
}

// The documents, and after them those places that have a URI of their own.
fn with_parts<'v>(
    alloc: Global,
    walked: Walked<'v>,
    places: &[Place<'v>],
    parts: &mut Vec<Part<'v>>,
) -> Result<Walked<'v>, AllocError>
    ensures walked { IfOk result
        (λ more. more
        ≡ walked.entry ++ map held_part (identified (map place_of places.now))) }
    ensures parts { OnOk result
        (map part_in parts.new.items
        ≡ map part_in parts.old.items ++ parts_held (map place_of places.now)) }
{
    let mut walked = walked;
    for place in places {
        walked = with_part(alloc, walked, place, parts)?;
    }
    Ok(walked)
}

// The URIs of documents, to be shared.
fn uris_of(alloc: Global, sources: &[Source<'_>]) -> Result<Vec<Rc<Uri>>, AllocError>
    ensures { IfOk result
        (λ uris. map (λ u. u.value) uris.items ≡ map (λ s. (source_of s).uri) sources.now) }
{
    let mut uris = Vec::with_capacity(alloc, sources.len())?;
    for source in sources {
        let uri = source.uri.clone()?;
        uris.push(Rc::new(alloc, uri)?)?;
    }
    Ok(uris)
}

// Their values.
fn values_of<'v>(alloc: Global, sources: &[Source<'v>]) -> Result<Vec<&'v Value>, AllocError>
    ensures { IfOk result
        (λ values. map (λ v. view v.now) values.items
        ≡ map (λ s. (source_of s).tree) sources.now) }
{
    let mut values = Vec::with_capacity(alloc, sources.len())?;
    for source in sources {
        values.push(source.value)?;
    }
    Ok(values)
}

/// Documents, with the own places of the descriptions among them, and the index that references are looked up in. The draft is that of
/// documents that name none and are no descriptions. Linear, but for sorted tables; of values those parts alone are copied that have
/// URIs of their own, and documents with a text that means no URI.
pub fn documents_of<'v>(
    alloc: Global,
    draft: Draft,
    sources: &[Source<'v>],
) -> Result<Documents<'v>, AllocError>
    ensures uris { IfOk result
        (λ d. (known_of d).uris ≡ map (λ s. (source_of s).uri) sources.now) }
    ensures trees { IfOk result
        (λ d. (known_of d).trees ≡ map (λ s. (source_of s).tree) sources.now) }
    ensures own { IfOk result (λ d. AreOwn (map source_of sources.now) (known_of d).own) }
    ensures parts { IfOk result (λ d. (known_of d).parts ≡ parts_held (known_of d).own) }
    ensures layer { IfOk result
        (λ d. (known_of d).layer ≡ layer_held draft (map source_of sources.now) (known_of d).own) }
{
    let own = own_places(alloc, roots_of(alloc, sources)?)?;
    let table = table_of(alloc, own.as_slice())?;
    let mut parts = Vec::new(alloc);
    let walked = walked_of(alloc, draft, sources)?;
    let walked = with_parts(alloc, walked, own.as_slice(), &mut parts)?;
    let index = walked.into_index(alloc)?;
    Ok(Documents {
        uris: uris_of(alloc, sources)?,
        values: values_of(alloc, sources)?,
        own,
        table,
        parts,
        index,
    })
}

impl<'v> Documents<'v> {
    /// How many documents there are.
    pub fn len(&self) -> usize
        ensures value { result ≡ length (known_of self.now).uris }
    {
        self.uris.len()
    }

    /// Whether there are none.
    pub fn is_empty(&self) -> bool
        ensures value { result ≡ (length (known_of self.now).uris == 0) }
    {
        self.uris.is_empty()
    }

    /// The version of a document, where it is a description. A look-up; takes no memory.
    pub fn version(&self, document: usize) -> Option<Version>
        ensures value { result ≡ version_at (known_of self.now) document }
    {
        match self.values.get(document) {
            Some(value) => version_of(*value),
            None => None,
        }
    }

    /// The own places of the descriptions: their roots in order, and then what is right below each of these places in turn.
    pub fn own(&self) -> &[Place<'v>]
        ensures value { map place_of result.now ≡ (known_of self.now).own }
    {
        self.own.as_slice()
    }

    /// The own place of a description at a pointer, where it has one.
    pub(crate) fn own_at(
        &self,
        alloc: Global,
        document: usize,
        pointer: &str,
    ) -> Result<Option<&Place<'v>>, AllocError>
        ensures value { IfOk result
            (λ place. option_map (λ p. place_of p.now) place
            ≡ own_at (known_of self.now).own document pointer.now) }
    {
        let text = number_text(alloc, document)?;
        let (number, _) = self.table.get(pointer, text.as_str());
        match number {
            Some(number) => Ok(self.own.get(*number)),
            None => Ok(None),
        }
    }
}
