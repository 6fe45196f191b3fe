//! Vocabularies, known ones and others.
ghost use Rattle.std.specs.Prelude.{◌≡◌, Ok, IsOk, option_map};
ghost use Rattle.std.specs.List.{find};
ghost use Rattle.ref_definitions.specs.Fault.{as_invalid_uri};
ghost use Rattle.ref_vocabularies.specs.Vocabularies.{Known, Standard, all_known, is_uri_of, from_text};
ghost use Rattle.ref_error.specs.Errors.{Gives};
ghost use Rattle.ref_vocabularies.specs.Views.{vocabulary_of};
ghost use Rattle.ref_vocabularies.specs.inner.Kept.{mask};

use ref_error::Error;
use ref_uri::{Uri, uri};
use std::alloc::{AllocError, Global};

/// A vocabulary of meta-schemas (2020-12 Core, 8.1.2): one of the nine that 2019-09 and 2020-12 have, or another by its URI.
#[derive(Debug, Drop)]
pub enum Vocabulary {
    /// The keywords that schemas are made of (2020-12 Core, 8).
    Core,
    /// The keywords that apply subschemas (2020-12 Core, 10).
    Applicator,
    /// `unevaluatedItems` and `unevaluatedProperties` (2020-12 Core, 11). In 2019-09 they are of the applicator vocabulary.
    Unevaluated,
    /// Structural validation (2020-12 Validation, 6).
    Validation,
    /// Basic meta-data annotations (2020-12 Validation, 9).
    Metadata,
    /// `format` in 2019-09 (2019-09 Validation, 7).
    Format,
    /// `format` as an annotation (2020-12 Validation, 7.2.1).
    FormatAnnotation,
    /// The contents of strings (2020-12 Validation, 8).
    Content,
    /// `format` as an assertion (2020-12 Validation, 7.2.2).
    FormatAssertion,
    /// Any other, by its URI.
    Custom(Uri),
}

impl Vocabulary {
    /// The vocabulary that a text names: a known one by its URI of 2020-12 or of 2019-09, exactly; else a custom one by the
    /// URI that the text means, as [`uri::from_str`] has it.
    ///
    /// `InvalidUri` exactly where the text is no known one's URI and no URI reference (RFC 3986, 4.1), with the whole text;
    /// `Memory` where there is none for a custom one. A known one takes none, and is not refused. Linear in the text.
    pub fn from_text(alloc: Global, text: &str) -> Result<Vocabulary, Error>
        ensures gives { Gives vocabulary_of (as_invalid_uri (from_text text.now)) result }
        ensures known { (k : Known) → from_text text.now ≡ Ok (Standard k) → IsOk result }
    {
        match known(text) {
            Some(vocabulary) => Ok(vocabulary),
            None => Ok(Vocabulary::Custom(uri::from_str(alloc, text)?)),
        }
    }

    // The number whose one bit is that of this vocabulary in a set; 0 for one that is not known.
    pub(crate) fn mask(&self) -> u16
        ensures { result ≡ mask (vocabulary_of self.now) }
    {
        match self {
            Vocabulary::Core => 1 << 0,
            Vocabulary::Applicator => 1 << 1,
            Vocabulary::Unevaluated => 1 << 2,
            Vocabulary::Validation => 1 << 3,
            Vocabulary::Metadata => 1 << 4,
            Vocabulary::Format => 1 << 5,
            Vocabulary::FormatAnnotation => 1 << 6,
            Vocabulary::Content => 1 << 7,
            Vocabulary::FormatAssertion => 1 << 8,
            Vocabulary::Custom(_) => 0,
        }
    }
}

// The known vocabulary whose URI a text is.
fn known(text: &str) -> Option<Vocabulary>
    ensures { option_map vocabulary_of result
        ≡ option_map Standard (find (is_uri_of text.now) all_known) }
{
    match text {
        "https://json-schema.org/draft/2020-12/vocab/core"
        | "https://json-schema.org/draft/2019-09/vocab/core" => Some(Vocabulary::Core),
        "https://json-schema.org/draft/2020-12/vocab/applicator"
        | "https://json-schema.org/draft/2019-09/vocab/applicator" => Some(Vocabulary::Applicator),
        "https://json-schema.org/draft/2020-12/vocab/unevaluated" => Some(Vocabulary::Unevaluated),
        "https://json-schema.org/draft/2020-12/vocab/validation"
        | "https://json-schema.org/draft/2019-09/vocab/validation" => Some(Vocabulary::Validation),
        "https://json-schema.org/draft/2020-12/vocab/meta-data"
        | "https://json-schema.org/draft/2019-09/vocab/meta-data" => Some(Vocabulary::Metadata),
        "https://json-schema.org/draft/2020-12/vocab/format"
        | "https://json-schema.org/draft/2019-09/vocab/format" => Some(Vocabulary::Format),
        "https://json-schema.org/draft/2020-12/vocab/format-annotation" => {
            Some(Vocabulary::FormatAnnotation)
        }
        "https://json-schema.org/draft/2020-12/vocab/content"
        | "https://json-schema.org/draft/2019-09/vocab/content" => Some(Vocabulary::Content),
        "https://json-schema.org/draft/2020-12/vocab/format-assertion" => {
            Some(Vocabulary::FormatAssertion)
        }
        _ => None,
    }
}

/// Two are equal where they are one vocabulary: the same of the nine, or of the same URI. Linear in the shorter URI, and takes
/// no memory.
impl PartialEq for Vocabulary {
    ghost use Rattle.std.specs.Cmp.{on_per, partial_equiv_from_equiv};
    ghost use Rattle.ref_vocabularies.specs.Vocabularies.{vocabulary_eq};
    ghost use Rattle.ref_vocabularies.specs.inner.Alike.{vocabulary_equivalence};
    ghost use Rattle.ref_vocabularies.specs.Views.{vocabulary_of};

    ghost eq = { λ v w. vocabulary_eq (vocabulary_of v) (vocabulary_of w) };

    ghost laws = { on_per vocabulary_of (partial_equiv_from_equiv vocabulary_equivalence) };

    fn eq(&self, other: &Vocabulary) -> bool {
        match (self, other) {
            (Vocabulary::Custom(uri), Vocabulary::Custom(other)) => uri == other,
            _ => self.mask() == other.mask(),
        }
    }
}

impl Eq for Vocabulary {
    ghost use Rattle.std.specs.Cmp.{on_equiv};
    ghost use Rattle.ref_vocabularies.specs.inner.Alike.{vocabulary_equivalence};
    ghost use Rattle.ref_vocabularies.specs.Views.{vocabulary_of};

    ghost laws = { on_equiv vocabulary_of vocabulary_equivalence };
}

/// The same vocabulary. That of a known one takes no memory and is not refused; another's URI is copied, and refused where
/// there is no memory for its text.
impl Clone for Vocabulary {
    ghost use Rattle.std.specs.Prelude.{◌≡◌};
    ghost use Rattle.ref_vocabularies.specs.Vocabularies.{Known, Standard};
    ghost use Rattle.ref_vocabularies.specs.Views.{vocabulary_of};

    ghost is_clone = { λ vocabulary copy. copy ≡ vocabulary };

    ghost is_infallible = { λ vocabulary. (k : Known) × (vocabulary_of vocabulary ≡ Standard k) };

    fn clone(&self) -> Result<Vocabulary, AllocError> {
        match self {
            Vocabulary::Core => Ok(Vocabulary::Core),
            Vocabulary::Applicator => Ok(Vocabulary::Applicator),
            Vocabulary::Unevaluated => Ok(Vocabulary::Unevaluated),
            Vocabulary::Validation => Ok(Vocabulary::Validation),
            Vocabulary::Metadata => Ok(Vocabulary::Metadata),
            Vocabulary::Format => Ok(Vocabulary::Format),
            Vocabulary::FormatAnnotation => Ok(Vocabulary::FormatAnnotation),
            Vocabulary::Content => Ok(Vocabulary::Content),
            Vocabulary::FormatAssertion => Ok(Vocabulary::FormatAssertion),
            Vocabulary::Custom(uri) => Ok(Vocabulary::Custom(uri.clone()?)),
        }
    }
}
