//! Sets of vocabularies.
ghost use Rattle.std.specs.Prelude.{◌≡◌, ◌<◌, ℕ, true, [], IsOk, OnOk, OnErr, slice_index_or as get_or};
ghost use Rattle.std.specs.Int.RustNames.{bit_or};
ghost use Rattle.ref_vocabularies.specs.Vocabularies.{Known, Core, Standard, all_known, name, has_uri, with_uri, contains, with_vocabulary, of_known, of_bits};
ghost use Rattle.ref_vocabularies.specs.Views.{vocabulary_of, AreInByteOrder};
ghost use Rattle.std.specs.Fmt.{WritesOnOk};
ghost use Rattle.ref_vocabularies.specs.inner.Shown.{item};

use crate::vocabulary::Vocabulary;
use ref_uri::Uri;
use std::alloc::{AllocError, Global};
use std::marker::Model;
use std::{fmt, slice};

/// The bits of the known vocabularies.
const KNOWN: u16 = 0b1_1111_1111;

/// How many vocabularies are known.
const COUNT: usize = 9;

/// A set of vocabularies (2020-12 Core, 8.1.2): the known ones, and others by their URIs. It has no order of growth: sets are
/// equal where the same vocabularies are in both.
#[derive(Drop)]
pub struct VocabularySet {
    // A bit for each known vocabulary.
    known: u16,
    // The URIs of the others in byte order, each once. The list is made when the first is added: an empty one would need an
    // allocator.
    custom: Option<Vec<Uri>>,
}

impl Model for VocabularySet {
    ghost use Rattle.std.specs.Prelude.{◌<◌, ◌^◌, []};
    ghost use Rattle.std.specs.Option.{option_map_or};
    ghost use Rattle.ref_vocabularies.specs.Vocabularies.{VocabularySet as SetOfVocabularies};

    ghost Value = { SetOfVocabularies };

    ghost use Rattle.ref_vocabularies.specs.Views.{AreInByteOrder};
    ghost use Rattle.ref_vocabularies.specs.inner.Kept.{known_of};

    ghost view = { λ s. record {
      standard = known_of s.known;
      customs = option_map_or (λ uris. uris.items) s.custom [];
    } };

    ghost invariant = { λ s. (s.known < 2 ^ 9)
        × AreInByteOrder (option_map_or (λ uris. uris.items) s.custom []) };
}

impl VocabularySet {
    /// The empty set. Takes no memory.
    pub fn new() -> Self
        ensures empty { result ≡ of_known [] }
    {
        VocabularySet {
            known: 0,
            custom: None,
        }
    }

    /// The known vocabularies whose bits are set, in the order of [`Vocabulary`]'s variants from the lowest bit on; bits
    /// past the ninth mean nothing. Takes no memory.
    pub fn from_known(known: u16) -> Self
        ensures value { result ≡ of_bits known }
    {
        VocabularySet {
            known: known & KNOWN,
            custom: None,
        }
    }

    // The URIs of the vocabularies that are not known.
    fn uris(&self) -> &[Uri]
        ensures value { result.now ≡ self.now.customs }
        ensures order { AreInByteOrder result.now }
    {
        match &self.custom {
            Some(uris) => uris.as_slice(),
            None => &[],
        }
    }

    /// Adds a vocabulary; one that is in the set already changes nothing.
    ///
    /// Fails only where memory is refused, which a custom one takes that isn't there; the set is then as it was. A
    /// custom one is looked for by binary search, and the URIs after its place move by one.
    pub fn add(&mut self, alloc: Global, vocabulary: Vocabulary) -> Result<(), AllocError>
        ensures added { OnOk result
            (self.new ≡ with_vocabulary self.old (vocabulary_of vocabulary)) }
        ensures refused { OnErr result (self.new ≡ self.old) }
        ensures known { (k : Known) → vocabulary_of vocabulary ≡ Standard k → IsOk result }
        ensures there { contains self.old (vocabulary_of vocabulary) ≡ true → IsOk result }
    {
        match vocabulary {
            Vocabulary::Custom(uri) => {
                let mut uris = self.custom.take().unwrap_or(Vec::new(alloc));
                let inserted = insert(&mut uris, uri);
                self.custom = Some(uris);
                inserted
            }
            known => {
                self.known |= known.mask();
                Ok(())
            }
        }
    }

    /// The URIs of the vocabularies that are not known, in byte order, each once. Takes no memory.
    pub fn custom(&self) -> CustomIter<'_>
        ensures uris { result ≡ self.now.customs }
        ensures order { AreInByteOrder self.now.customs }
    {
        CustomIter {
            rest: self.uris().iter(),
        }
    }

    /// Whether a vocabulary is in the set. Takes no memory; a custom one is looked for by binary search.
    pub fn contains(&self, vocabulary: &Vocabulary) -> bool
        ensures value { result ≡ contains self.now (vocabulary_of vocabulary.now) }
    {
        match vocabulary {
            Vocabulary::Custom(uri) => has_uri(self.uris(), uri),
            known => self.known & known.mask() != 0,
        }
    }
}

/// The empty set.
impl Default for VocabularySet {
    ghost use Rattle.std.specs.Prelude.{◌≡◌, []};
    ghost use Rattle.ref_vocabularies.specs.Vocabularies.{of_known};

    ghost is_default = { λ set. set ≡ of_known [] };

    fn default() -> Self {
        VocabularySet::new()
    }
}

/// The same set. Refused only where there is no memory for the URIs of custom vocabularies; without such, it takes none.
impl Clone for VocabularySet {
    ghost use Rattle.std.specs.Prelude.{◌≡◌, []};

    ghost is_clone = { λ set copy. copy ≡ set };

    ghost is_infallible = { λ set. set.customs ≡ [] };

    fn clone(&self) -> Result<VocabularySet, AllocError> {
        let known = self.known;
        let Some(uris) = &self.custom else {
            return Ok(VocabularySet {
                known,
                custom: None,
            });
        };
        if uris.is_empty() {
            return Ok(VocabularySet {
                known,
                custom: None,
            });
        }
        let custom = Some(uris.clone()?);
        Ok(VocabularySet { known, custom })
    }
}

/// Two are equal where the same vocabularies are in both, in whatever order they were added. Takes no memory.
impl PartialEq for VocabularySet {
    ghost use Rattle.std.specs.Cmp.{partial_equiv_from_equiv};
    ghost use Rattle.ref_vocabularies.specs.Vocabularies.{set_eq};
    ghost use Rattle.ref_vocabularies.specs.inner.Alike.{set_equivalence};

    ghost eq = { set_eq };

    ghost laws = { partial_equiv_from_equiv set_equivalence };

    fn eq(&self, other: &VocabularySet) -> bool {
        self.known == other.known && self.uris() == other.uris()
    }
}

impl Eq for VocabularySet {
    ghost use Rattle.ref_vocabularies.specs.inner.Alike.{set_equivalence};

    ghost laws = { set_equivalence };
}

/// The names of the known vocabularies in the order of [`Vocabulary`]'s variants, then the URIs of the others in byte order:
/// in quotes, joined by `, `, in brackets.
impl fmt::Debug for VocabularySet {
    ghost use Rattle.std.specs.Prelude.{Some};
    ghost use Rattle.ref_vocabularies.specs.Vocabularies.{set_text};

    ghost debug_output = { λ set. Some (set_text set) };

    fn fmt<W: fmt::Write>(&self, f: &mut fmt::Formatter<W>) -> fmt::Result {
        let known = self.known;
        let uris = self.uris();
        let mut is_first = true;
        write!(f, "[")?;
        for place in 0..COUNT {
            if known >> place & 1 == 1 {
                write_item(f, is_first, name_at(place))?;
                is_first = false;
            }
        }
        for uri in uris {
            write_item(f, is_first, uri.as_str())?;
            is_first = false;
        }
        write!(f, "]")
    }
}

// The name of a known vocabulary by the place of its bit.
fn name_at(place: usize) -> &'static str
    requires { place < COUNT }
    ensures { result.now ≡ name (get_or all_known place Core) }
{
    match place {
        0 => "core",
        1 => "applicator",
        2 => "unevaluated",
        3 => "validation",
        4 => "meta-data",
        5 => "format",
        6 => "format-annotation",
        7 => "content",
        _ => "format-assertion",
    }
}

// Writes a text in quotes, after a separator where it is not the first.
fn write_item<W: fmt::Write>(f: &mut fmt::Formatter<W>, is_first: bool, text: &str) -> fmt::Result
    ensures { WritesOnOk W.write_str_gives f.old result (item is_first text.now) f.new }
{
    let separator = if is_first { "" } else { ", " };
    write!(f, "{separator}\"{text}\"")
}

// Puts a URI at its place.
fn insert(uris: &mut Vec<Uri>, uri: Uri) -> Result<(), AllocError>
    requires { AreInByteOrder uris.old.items }
    ensures added { OnOk result (uris.new.items ≡ with_uri uri uris.old.items) }
    ensures refused { OnErr result (uris.new.items ≡ uris.old.items) }
    ensures there { has_uri uris.old.items uri ≡ true → IsOk result }
    ensures order { AreInByteOrder uris.new.items }
{
    if let Err(place) = uris.as_slice().binary_search(&uri) {
        uris.insert(place, uri)?;
    }
    Ok(())
}

// Whether a URI is among others.
fn has_uri(uris: &[Uri], uri: &Uri) -> bool
    requires { AreInByteOrder uris.now }
    ensures { result ≡ has_uri uris.now uri.now }
{
    uris.binary_search(uri).is_ok()
}

/// The URIs of a set's custom vocabularies that are left, in byte order. It ends, and takes no memory.
#[derive(Drop)]
pub struct CustomIter<'a> {
    rest: slice::Iter<'a, Uri>,
}

impl<'a> Model for CustomIter<'a> {
    ghost use Rattle.std.specs.Prelude.{List, ℕ};
    ghost use Rattle.std.specs.Slice.Iter.{iter_rest};

    ghost Value = { List (List ℕ) };

    ghost view = { λ i. iter_rest i.rest };
}

impl<'a> Iterator for CustomIter<'a> {
    ghost use Rattle.std.specs.Iterator.{YieldsFirstBy, item_count};

    type Item = &'a str;

    ghost next_gives = { YieldsFirstBy (λ text. text.now) (λ texts. texts) };

    ghost remaining = { item_count (λ texts. texts) };

    fn next(&mut self) -> Option<&'a str> {
        Some(self.rest.next()?.as_str())
    }
}
