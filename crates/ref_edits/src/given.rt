//! The documents that are changed.
ghost use Rattle.std.specs.Prelude.{◌≡◌};
ghost use Rattle.ref_edits.specs.Checked.{text_at};

use ref_draft::Draft;
use ref_further::Survey;
use ref_positions::Format;
use referencing::Registry;

/// The text of a document, and how it is written.
#[derive(Clone, Copy, Drop)]
pub struct Written<'t> {
    /// How it is written.
    pub format: Format,
    /// The text.
    pub text: &'t str,
}

/// Documents that are changed.
#[derive(Clone, Copy, Drop)]
pub struct Given<'g, 'w, 'd, 't> {
    /// Their registry, which has no parents. A document in place of one that isn't there is among them.
    pub registry: &'w Registry<'d>,
    /// What references lead to where no keyword does, and the objects of descriptions.
    pub survey: &'g Survey<'w>,
    /// The texts of the documents, by their numbers: none of one that can't be changed.
    pub texts: &'g [Option<Written<'t>>],
    /// The draft of documents that name none.
    pub draft: Draft,
}

impl<'t> Given<'_, '_, '_, 't> {
    /// The text of the document with a number, where it can be changed.
    pub fn text(&self, document: usize) -> Option<Written<'t>>
        ensures value { result ≡ text_at self.now.texts.now document }
    {
        self.texts.get(document).copied().flatten()
    }
}
